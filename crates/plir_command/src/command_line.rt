//! The command line.
use clap::{Arg, ArgAction, Command};
use plir_pipelines::words::{
    CALL_GRAPH, CHECK, FILE, LOCATIONS, OUTPUT, PASS_PIPELINE, PRINT_AFTER_ALL, PRINT_BEFORE,
    SPLIT, STATS, TIMING, TRACE_WALK, VERIFY, VERIFY_DIAGNOSTICS, VERIFY_EACH, VIEW, VIEW_USES,
    WALK,
};
use plir_pipelines::{Flag, Offered};
use std::alloc::{AllocError, Global};

/// What a program says of itself.
pub struct About {
    /// Its name.
    pub name: &'static str,
    /// Its version.
    pub version: &'static str,
    /// What it does, in a line.
    pub about: &'static str,
}

const AFTER: &str =
    "The operation and all below it are verified once they are read. Passes run in the order of the \
command line. Lines that begin with `//` are comments. Nothing is printed before all has gone well, but for \
what goes well of several files or of an input that is cut, which goes to the standard output, with a line \
`// -----` between each two. The status is 1 where the text can't be read, an \
operation is refused, a pass stops or memory runs out, or a text doesn't meet what its comments say, and 2 \
for a wrong command line.";

// An option without a value.
fn flag<'a>(alloc: Global, id: &'a str, help: &'a str) -> Arg<'a> {
    Arg::new(alloc, id)
        .long(id)
        .help(help)
        .action(ArgAction::SetTrue)
}

// The words that name an order of calls and a direction of walks.
const TRACES: [&str; 4] = ["pre,fwd", "pre,rev", "post,fwd", "post,rev"];

// The option that lists the calls of a walk.
fn trace_walk<'a>(alloc: Global) -> Result<Arg<'a>, AllocError> {
    let names: &'a [&'a str] = &TRACES;
    Arg::new(alloc, TRACE_WALK)
        .long(TRACE_WALK)
        .value_name("ORDER,DIRECTION")
        .value_parser(names)
        .help("Print a line for each call of a walk's callback, in the order of the calls")
        .conflicts_with_all(&[WALK, LOCATIONS, VIEW, VIEW_USES, CALL_GRAPH])
}

// An option that is given alone, without one that asks for a graph.
fn in_place_of_graphs<'a>(option: Arg<'a>) -> Result<Arg<'a>, AllocError> {
    option
        .conflicts_with(VIEW)?
        .conflicts_with(VIEW_USES)?
        .conflicts_with(CALL_GRAPH)
}

// The options that list nodes and operations.
fn walk<'a>(alloc: Global) -> Result<Arg<'a>, AllocError> {
    let walk = flag(
        alloc,
        WALK,
        "Print a line for each node, parents first and further out",
    );
    in_place_of_graphs(walk.conflicts_with(LOCATIONS)?)
}

fn locations<'a>(alloc: Global) -> Result<Arg<'a>, AllocError> {
    let locations = flag(
        alloc,
        LOCATIONS,
        "Print a line for each operation, with its place in the text",
    );
    in_place_of_graphs(locations)
}

// The options that draw graphs.
fn view<'a>(alloc: Global) -> Result<Arg<'a>, AllocError> {
    let view = flag(
        alloc,
        VIEW,
        "Print a graph in DOT: a cluster for each region, a box for each block, arrows to successors",
    );
    view.conflicts_with(CALL_GRAPH)
}

fn view_uses<'a>(alloc: Global) -> Result<Arg<'a>, AllocError> {
    let uses = flag(
        alloc,
        VIEW_USES,
        "Print such a graph, with a dashed arrow for each use of a value too",
    );
    uses.conflicts_with(CALL_GRAPH)
}

fn call_graph<'a>(alloc: Global) -> Arg<'a> {
    flag(
        alloc,
        CALL_GRAPH,
        "Print a call graph in DOT: a cluster for each module, a box for each function, an arrow to each that it uses",
    )
}

fn with_lists<'a>(alloc: Global, command: Command<'a>) -> Result<Command<'a>, AllocError> {
    command.arg(walk(alloc)?)?.arg(locations(alloc)?)
}

fn with_graphs<'a>(alloc: Global, command: Command<'a>) -> Result<Command<'a>, AllocError> {
    command
        .arg(view(alloc)?)?
        .arg(view_uses(alloc)?)?
        .arg(call_graph(alloc))
}

// The options that choose how the operation is printed: one of them at most.
fn with_forms<'a>(alloc: Global, command: Command<'a>) -> Result<Command<'a>, AllocError> {
    let command = with_lists(alloc, command)?;
    let command = with_graphs(alloc, command)?;
    command.arg(trace_walk(alloc)?)
}

// The option of a pass.
fn pass_option<'a, P: Offered>(alloc: Global, pass: P) -> Arg<'a> {
    let name: &'a str = pass.name();
    let help: &'a str = pass.help();
    flag(alloc, name, help)
}

// The options of passes, in their order.
fn pass_options<'a, P: Offered>(alloc: Global, passes: &[P]) -> Result<Vec<Arg<'a>>, AllocError> {
    let mut options = Vec::new(alloc);
    for pass in passes {
        options.push(pass_option(alloc, *pass))?;
    }
    Ok(options)
}

// The names of passes, in their order.
fn pass_names<'a, P: Offered>(alloc: Global, passes: &[P]) -> Result<Vec<&'a str>, AllocError> {
    let mut names = Vec::new(alloc);
    for pass in passes {
        names.push(pass.name())?;
    }
    Ok(names)
}

// The option that names all passes, beside none of the options of single ones.
fn pipeline<'a, P: Offered>(alloc: Global, passes: &[P]) -> Result<Arg<'a>, AllocError> {
    let names = pass_names(alloc, passes)?;
    Arg::new(alloc, PASS_PIPELINE)
        .long(PASS_PIPELINE)
        .value_name("PASSES")
        .help("Passes by their names, with commas between them, in the order in which they run")
        .conflicts_with_all(names.as_slice())
}

// The options of options of passes, each of which takes a number.
fn number_options<'a>(alloc: Global, flags: &'a [Flag]) -> Result<Vec<Arg<'a>>, AllocError> {
    let mut options = Vec::new(alloc);
    for flag in flags {
        let option = Arg::new(alloc, flag.text.as_str())
            .long(flag.text.as_str())
            .value_name("NUMBER")
            .help(flag.help.as_str());
        options.push(option)?;
    }
    Ok(options)
}

// The passes, each by an option of its own, or all by their names, and the options of passes.
fn with_passes<'a, P: Offered>(
    alloc: Global,
    command: Command<'a>,
    passes: &[P],
    flags: &'a [Flag],
) -> Result<Command<'a>, AllocError> {
    let command = command.args(pass_options(alloc, passes)?)?;
    let command = command.args(number_options(alloc, flags)?)?;
    command.arg(pipeline(alloc, passes)?)
}

// What is told of passes as they run.
fn print_before<'a>(alloc: Global) -> Arg<'a> {
    Arg::new(alloc, PRINT_BEFORE)
        .long(PRINT_BEFORE)
        .value_name("PASSES")
        .help(
            "Print the operation to the standard error in front of these passes, named as in a pipeline",
        )
}

fn print_after_all<'a>(alloc: Global) -> Arg<'a> {
    flag(
        alloc,
        PRINT_AFTER_ALL,
        "Print the operation to the standard error behind each pass",
    )
}

fn stats<'a>(alloc: Global) -> Arg<'a> {
    flag(
        alloc,
        STATS,
        "Tell on the standard error how many operations there are in front of each pass and behind it",
    )
}

fn timing<'a>(alloc: Global) -> Arg<'a> {
    flag(
        alloc,
        TIMING,
        "Tell on the standard error how long each pass took, in a table",
    )
}

fn with_reports<'a>(alloc: Global, command: Command<'a>) -> Result<Command<'a>, AllocError> {
    command
        .arg(print_before(alloc))?
        .arg(print_after_all(alloc))?
        .arg(stats(alloc))?
        .arg(timing(alloc))
}

// What is compared with what the comments of a text say: then nothing is printed.
fn diagnostics<'a>(alloc: Global) -> Result<Arg<'a>, AllocError> {
    let diagnostics = flag(
        alloc,
        VERIFY_DIAGNOSTICS,
        "Print nothing, and compare the refusals with those that comments `// expected-error` expect",
    );
    diagnostics.conflicts_with(OUTPUT)
}

fn check<'a>(alloc: Global) -> Result<Arg<'a>, AllocError> {
    let check = flag(
        alloc,
        CHECK,
        "Print nothing, and compare what would be printed with comments `// CHECK:` and `// CHECK-NEXT:`",
    );
    check.conflicts_with(OUTPUT)
}

fn with_tests<'a>(alloc: Global, command: Command<'a>) -> Result<Command<'a>, AllocError> {
    command.arg(diagnostics(alloc)?)?.arg(check(alloc)?)
}

// Where texts come from, and where what is printed of them goes.
fn file<'a>(alloc: Global) -> Arg<'a> {
    Arg::new(alloc, FILE).action(ArgAction::Append).help(
        "The files with the texts, one after another; the standard input, if none is named",
    )
}

fn output<'a>(alloc: Global) -> Arg<'a> {
    Arg::new(alloc, OUTPUT).short('o').value_name("OUT").help(
        "The file that what is printed goes to; the standard output, if none is named",
    )
}

fn split<'a>(alloc: Global) -> Arg<'a> {
    flag(
        alloc,
        SPLIT,
        "Cut the input at lines `// -----`, and handle each part alone",
    )
}

fn with_files<'a>(alloc: Global, command: Command<'a>) -> Result<Command<'a>, AllocError> {
    command
        .arg(file(alloc))?
        .arg(output(alloc))?
        .arg(split(alloc))
}

fn verify<'a>(alloc: Global) -> Result<Arg<'a>, AllocError> {
    flag(alloc, VERIFY, "Verify behind each pass too").visible_alias(VERIFY_EACH)
}

// What a program is called, and what it says of itself.
fn told_of<'a>(alloc: Global, about: &About) -> Command<'a> {
    Command::new(alloc, about.name)
        .version(about.version)
        .about(about.about)
        .after_help(AFTER)
}

/// The words that a program takes, which offers some passes, and their options by flags.
pub fn command<'a, P: Offered>(
    alloc: Global,
    about: &About,
    passes: &[P],
    flags: &'a [Flag],
) -> Result<Command<'a>, AllocError> {
    let command = with_files(alloc, told_of(alloc, about))?;
    let command = command.arg(verify(alloc)?)?;
    let command = with_passes(alloc, command, passes, flags)?;
    let command = with_reports(alloc, command)?;
    let command = with_tests(alloc, command)?;
    with_forms(alloc, command)
}
