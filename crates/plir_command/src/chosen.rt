//! Which passes a command line asks for.
ghost use Rattle.std.specs.Prelude.{◌≡◌, ◌++◌, ◌⊎◌, IfErr, IfOk, OnOk, map};
ghost use Rattle.clap.specs.Matches.{first_value, found_of};
ghost use Rattle.plir_command.specs.Chosen.{AreFlagsGiven, AreNamedBy, IsChoiceErr, IsChosen, IsRefusedBy};
ghost use Rattle.plir_command.specs.Chosen.{given_by, text_of};

use clap::ArgMatches;
use plir_pipelines::words::{PASS_PIPELINE, PRINT_BEFORE};
use plir_pipelines::{Flag, Given, Offered, PipelineErr, configured, passes_named};
use std::alloc::{AllocError, Global};

/// The passes that a command line asks for.
#[derive(Drop)]
pub struct Chosen<P> {
    /// Those that run, in the order in which they do.
    pub passes: Vec<P>,
    /// Those in front of which the operation is told.
    pub before: Vec<P>,
}

// Puts what a command line gives a flag, if it gives it anything, behind what others are given.
fn put_given<'a>(
    given: &mut Vec<Given<'a>>,
    matches: &ArgMatches<'a>,
    flag: &'a str,
) -> Result<(), AllocError>
    ensures { OnOk result (map text_of given.new.items ≡ map text_of given.old.items ++
        given_by (first_value (found_of matches.now) flag.entry.now) flag.entry.now) }
{
    match matches.get_str(flag) {
        None => Ok(()),
        Some(number) => {
            given.push(Given { flag, number })?;
            Ok(())
        }
    }
}

// What a command line gives the options of passes.
fn given_in<'a>(
    alloc: Global,
    matches: &ArgMatches<'a>,
    flags: &'a [Flag],
) -> Result<Vec<Given<'a>>, AllocError>
    ensures { IfOk result (λ v. AreFlagsGiven (first_value (found_of matches.now)) flags.entry.now v.items) }
{
    let mut given = Vec::new(alloc);
    for flag in flags {
        put_given(&mut given, matches, flag.text.as_str())?;
    }
    Ok(given)
}

// The passes that options of their own ask for, in the order of the command line.
fn asked_passes<P: Offered>(
    alloc: Global,
    matches: &ArgMatches<'_>,
    offered: &[P],
) -> Result<Vec<P>, AllocError> {
    let mut asked = Vec::new(alloc);
    for pass in offered {
        let name = pass.name();
        if matches.get_flag(name) {
            asked.push((matches.index_of(name), *pass))?;
        }
    }
    asked.sort_by_key(|(place, _)| *place)?;
    asked.iter().map(|(_, pass)| *pass).collect(alloc)
}

// The passes in front of which the operation is told.
fn told_passes<'a, P: Offered>(
    alloc: Global,
    matches: &ArgMatches<'a>,
    offered: &[P],
) -> Result<Vec<P>, PipelineErr<'a>>
    ensures named { IfOk result (λ v. AreNamedBy P.pass_name P.pass_options P.with_option offered.now
        (first_value (found_of matches.now) PRINT_BEFORE.now) v.items) }
    ensures refused { IfErr result (IsRefusedBy P.pass_name P.pass_options P.with_option offered.now
        (first_value (found_of matches.now) PRINT_BEFORE.now)) }
{
    match matches.get_str(PRINT_BEFORE) {
        Some(names) => passes_named(alloc, offered, names),
        None => Ok(Vec::new(alloc)),
    }
}

// The passes that run.
fn run_passes<'a, P: Offered>(
    alloc: Global,
    matches: &ArgMatches<'a>,
    offered: &[P],
) -> Result<Vec<P>, PipelineErr<'a>>
    ensures named { IfOk result (λ v. AreNamedBy P.pass_name P.pass_options P.with_option offered.now
        (first_value (found_of matches.now) PASS_PIPELINE.now) v.items) }
    ensures refused { IfErr result (IsRefusedBy P.pass_name P.pass_options P.with_option offered.now
        (first_value (found_of matches.now) PASS_PIPELINE.now)) }
{
    match matches.get_str(PASS_PIPELINE) {
        Some(names) => passes_named(alloc, offered, names),
        None => match asked_passes(alloc, matches, offered) {
            Ok(passes) => Ok(passes),
            Err(_) => Err(PipelineErr::OutOfMemory),
        },
    }
}

// The passes that are asked for, of some that have their options as they are given.
fn choose_of<'a, P: Offered>(
    alloc: Global,
    matches: &ArgMatches<'a>,
    offered: &[P],
) -> Result<Chosen<P>, PipelineErr<'a>>
    ensures named { IfOk result (λ c. AreNamedBy P.pass_name P.pass_options P.with_option offered.now
        (first_value (found_of matches.now) PASS_PIPELINE.now) c.passes.items) }
    ensures told { IfOk result (λ c. AreNamedBy P.pass_name P.pass_options P.with_option offered.now
        (first_value (found_of matches.now) PRINT_BEFORE.now) c.before.items) }
    ensures refused { IfErr result (λ e. IsRefusedBy P.pass_name P.pass_options P.with_option offered.now
        (first_value (found_of matches.now) PASS_PIPELINE.now) e
        ⊎ IsRefusedBy P.pass_name P.pass_options P.with_option offered.now
        (first_value (found_of matches.now) PRINT_BEFORE.now) e) }
{
    let passes = run_passes(alloc, matches, offered)?;
    let before = told_passes(alloc, matches, offered)?;
    Ok(Chosen { passes, before })
}

/// The passes that a command line asks for, of those that are offered, whose options have the names of some flags: by a
/// pipeline, or each by an option of its own; and those in front of which the operation is told. Options of passes are
/// as the command line gives them, and where a pipeline gives one too, as that does.
///
/// # Errors
///
/// As [`configured`], where options of passes are given numbers, and as [`passes_named`], where passes are given by
/// their names; or memory was wanting.
pub fn choose_passes<'a, P: Offered>(
    alloc: Global,
    matches: &ArgMatches<'a>,
    offered: &[P],
    flags: &'a [Flag],
) -> Result<Chosen<P>, PipelineErr<'a>>
    ensures chosen { IfOk result (λ c. IsChosen P.pass_name P.pass_options P.with_option
        (first_value (found_of matches.now)) flags.entry.now offered.now
        (first_value (found_of matches.now) PASS_PIPELINE.now) (first_value (found_of matches.now) PRINT_BEFORE.now)
        c.passes.items c.before.items) }
    ensures refused { IfErr result (IsChoiceErr P.pass_name P.pass_options P.with_option
        (first_value (found_of matches.now)) flags.entry.now offered.now
        (first_value (found_of matches.now) PASS_PIPELINE.now)
        (first_value (found_of matches.now) PRINT_BEFORE.now)) }
{
    let given = given_in(alloc, matches, flags)?;
    let offered = configured(alloc, given.as_slice(), offered)?;
    choose_of(alloc, matches, offered.as_slice())
}
