//! From the texts that a command line names to what is printed of them.
use crate::choices::{Choices, Tests};
use crate::judging::{TestErr, judge};
use crate::log::Log;
use crate::output::{is_standard, write_output};
use crate::parts::{MARK, Part, parts_of};
use crate::pass::Pass;
use crate::progress::Progress;
use crate::source::read_source;
use crate::stop::Stop;
use crate::telling::tell;
use crate::text_reader::TextReader;
use crate::transform::transform;
use clap::ArgMatches;
use plir_pipelines::put_times;
use plir_pipelines::words::{FILE, OUTPUT, SPLIT};
use plir_symbols::SymbolNames;
use plir_verify::VerifySet;
use std::alloc::Global;
use std::error::Error;
use std::io;
use std::process::ExitCode;

// What is printed, as far as it has come.
#[derive(Drop)]
struct Printed {
    // What it is.
    text: String,
    // Whether anything was handled so far.
    is_begun: bool,
    // Whether all went well so far.
    is_well: bool,
}

impl Printed {
    // Nothing so far.
    fn new(alloc: Global) -> Printed {
        Printed {
            text: String::new(alloc),
            is_begun: false,
            is_well: true,
        }
    }

    // Puts what is printed of one more text, if anything is, behind a mark where it isn't the first.
    fn put(&mut self, has_mark: bool, printed: Option<String>) -> anyhow::Result<()> {
        if has_mark && self.is_begun {
            writeln!(self.text, "{MARK}")?;
        }
        self.is_begun = true;
        match printed {
            Some(text) => self.text.push_str(text.as_str())?,
            None => self.is_well = false,
        }
        Ok(())
    }
}

/// Reads, transforms and prints what a command line names. Where the status is not 0 no file is written, and the
/// standard output has what went well of several files or of an input that is cut, or what was written when the output
/// itself failed.
pub fn run<D: VerifySet + SymbolNames, P: Pass<D>, T: TextReader<D>>(
    rt: &HostRuntime,
    matches: &ArgMatches<'_>,
    choices: &Choices<P>,
) -> anyhow::Result<ExitCode> {
    let is_cut = matches.get_flag(SPLIT);
    let mut printed = Printed::new(rt.alloc());
    match matches.get_strs(FILE) {
        Some(files) => run_files::<D, P, T>(rt, choices, is_cut, files, &mut printed)?,
        None => run_file::<D, P, T>(rt, choices, is_cut, None, &mut printed)?,
    }
    put_out(rt, choices, matches.get_str(OUTPUT), &printed)
}

// Handles files, one after another.
fn run_files<D: VerifySet + SymbolNames, P: Pass<D>, T: TextReader<D>>(
    rt: &HostRuntime,
    choices: &Choices<P>,
    is_cut: bool,
    files: &[&str],
    printed: &mut Printed,
) -> anyhow::Result<()> {
    for file in files {
        run_file::<D, P, T>(rt, choices, is_cut, Some(file), printed)?;
    }
    Ok(())
}

// Handles a file, or the standard input.
fn run_file<D: VerifySet + SymbolNames, P: Pass<D>, T: TextReader<D>>(
    rt: &HostRuntime,
    choices: &Choices<P>,
    is_cut: bool,
    file: Option<&str>,
    printed: &mut Printed,
) -> anyhow::Result<()> {
    let name = file.unwrap_or("<stdin>");
    match read_source(rt, file) {
        Err(error) => {
            printed.is_well = false;
            eprintln!(rt; "{name}: {error}")?;
            Ok(())
        }
        Ok(bytes) => {
            if is_cut {
                run_parts::<D, P, T>(rt, choices, name, bytes.as_slice(), printed)
            } else {
                let text = handle::<D, P, T>(rt, choices, name, bytes.as_slice())?;
                printed.put(!choices.tests.any(), text)
            }
        }
    }
}

// Handles each part of an input alone.
fn run_parts<D: VerifySet + SymbolNames, P: Pass<D>, T: TextReader<D>>(
    rt: &HostRuntime,
    choices: &Choices<P>,
    name: &str,
    bytes: &[u8],
    printed: &mut Printed,
) -> anyhow::Result<()> {
    for part in &parts_of(rt.alloc(), bytes)? {
        let text = handle_part::<D, P, T>(rt, choices, name, part)?;
        printed.put(!choices.tests.any(), text)?;
    }
    Ok(())
}

// What is printed for a part of an input, if anything is.
fn handle_part<D: VerifySet + SymbolNames, P: Pass<D>, T: TextReader<D>>(
    rt: &HostRuntime,
    choices: &Choices<P>,
    name: &str,
    part: &Part,
) -> anyhow::Result<Option<String>> {
    let line = part.line;
    let name = format!(in rt.alloc(); "within split at {name}:{line} offset ")?;
    handle::<D, P, T>(rt, choices, name.as_str(), part.bytes.as_slice())
}

// What is printed for the bytes of a text, if all went well; what is told of the passes, of a refusal and of what isn't
// met goes to the standard error.
fn handle<D: VerifySet + SymbolNames, P: Pass<D>, T: TextReader<D>>(
    rt: &HostRuntime,
    choices: &Choices<P>,
    name: &str,
    bytes: &[u8],
) -> anyhow::Result<Option<String>> {
    let mut log = Log::new(rt.alloc());
    let progress = Progress::new(rt, bytes.len());
    let printed = transform::<D, P, T, Progress<'_>>(
        &progress,
        rt.alloc(),
        choices,
        bytes,
        &mut log,
    );
    progress.clear();
    let Log { mut text, times } = log;
    put_times(rt.alloc(), &mut text, times.as_slice())?;
    rt.eprint(text.as_str())?;
    if choices.tests.any() {
        return test(rt, choices.tests, name, bytes, &printed);
    }
    match printed {
        Ok(text) => Ok(Some(text)),
        Err(stop) => {
            tell(rt.alloc(), &mut rt.stderr(), name, bytes, &stop)?;
            Ok(None)
        }
    }
}

// Nothing, if a text meets what its comments say; what isn't met is told.
fn test<E: Error>(
    rt: &HostRuntime,
    tests: Tests,
    name: &str,
    bytes: &[u8],
    printed: &Result<String, Stop<E>>,
) -> anyhow::Result<Option<String>> {
    // (of bytes that are no text a refusal came, and they expect none)
    let text = str::from_utf8(bytes).unwrap_or("");
    match judge(rt.alloc(), tests, text, printed) {
        Ok(()) => Ok(Some(String::new(rt.alloc()))),
        Err(error) => {
            tell_test(rt, name, bytes, printed, error)?;
            Ok(None)
        }
    }
}

// Tells what isn't met: a refusal as ever, and what would be printed behind a check.
fn tell_test<E: Error>(
    rt: &HostRuntime,
    name: &str,
    bytes: &[u8],
    printed: &Result<String, Stop<E>>,
    error: TestErr,
) -> anyhow::Result<()> {
    if let Err(stop) = printed {
        tell(rt.alloc(), &mut rt.stderr(), name, bytes, stop)?;
    }
    eprintln!(rt; "{name}: {error}")?;
    if let (TestErr::Unmet { .. }, Ok(text)) = (error, printed) {
        rt.eprint(text.as_str())?;
    }
    Ok(())
}

// Prints what is to be printed, if all went well, or else what goes to the standard output.
fn put_out<P>(
    rt: &HostRuntime,
    choices: &Choices<P>,
    file: Option<&str>,
    printed: &Printed,
) -> anyhow::Result<ExitCode> {
    if choices.tests.any() || !printed.is_well {
        if is_standard(file) {
            write_output(rt, None, printed.text.as_str())?;
        }
        return Ok(status_of(printed.is_well));
    }
    match write_output(rt, file, printed.text.as_str()) {
        Ok(()) => Ok(ExitCode::SUCCESS),
        Err(error) => fail(rt, file.unwrap_or("<stdout>"), &error),
    }
}

// The status of a run by whether all went well.
fn status_of(is_well: bool) -> ExitCode {
    if is_well {
        ExitCode::SUCCESS
    } else {
        ExitCode::FAILURE
    }
}

// Tells why a file can't be written.
fn fail(rt: &HostRuntime, name: &str, error: &io::Error) -> anyhow::Result<ExitCode> {
    eprintln!(rt; "{name}: {error}")?;
    Ok(ExitCode::FAILURE)
}
