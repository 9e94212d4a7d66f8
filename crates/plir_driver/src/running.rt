//! A program's run, from its command line to its status.
use crate::choosing::choose;
use crate::handling::run;
use crate::pass::Pass;
use crate::text_reader::TextReader;
use clap::error::ErrorKind;
use clap::{ArgMatches, Command};
use plir_command::{About, command};
use plir_pipelines::{Flag, PipelineErr, check_flags, check_offer, flags_of};
use plir_symbols::SymbolNames;
use plir_verify::VerifySet;
use std::alloc::AllocError;
use std::env;
use std::fmt::Display;
use std::process::ExitCode;

/// The whole of a program over an op set, as its command line asks for it: it reads the texts of operations, verifies
/// each, runs passes over it, and prints it. Each of `passes` is offered by an option of its name, and by its name in a
/// pipeline, and each of a pass's options by one of the names of both; several kinds of passes are offered as
/// [`OneOf`](crate::OneOf) them. The status is 0, or 1 where a text can't be read, an operation is refused, a pass
/// stops, a text doesn't meet what its comments say or memory runs out, or 2 for a wrong command line.
///
/// Where the passes can't be offered, as [`check_offer`](plir_pipelines::check_offer) and
/// [`check_flags`](plir_pipelines::check_flags) tell, that is told, whatever the command line, and the status is 2.
///
/// # Errors
///
/// Where the command line can't be had, memory is wanting for it, or something can't be written.
pub fn opt_main<D: VerifySet + SymbolNames, P: Pass<D>, T: TextReader<D>>(
    rt: &HostRuntime,
    about: &About,
    passes: &[P],
) -> anyhow::Result<ExitCode> {
    if let Err(error) = check_offer(passes) {
        return refuse_offer(rt, about, &error);
    }
    let flags = flags_of(rt.alloc(), passes)?;
    if let Err(error) = check_flags(passes, flags.as_slice()) {
        return refuse_offer(rt, about, &error);
    }
    let words: Vec<String> = env::args(rt)?.collect(rt.alloc())?;
    let mut command = command(rt.alloc(), about, passes, flags.as_slice())?;
    match command.try_get_matches_from_mut(words.as_slice()) {
        Ok(matches) => {
            run_chosen::<D, P, T>(rt, &mut command, &matches, passes, flags.as_slice())
        }
        Err(error) => refuse(rt, &error),
    }
}

// Tells why passes can't be offered.
fn refuse_offer<E: Display>(
    rt: &HostRuntime,
    about: &About,
    error: &E,
) -> anyhow::Result<ExitCode> {
    eprintln!(rt; "{}: {error}", about.name)?;
    Ok(ExitCode::from(2))
}

// Tells why the command line asks for no run. The status is 0 for help, 2 for a mistake, 1 where memory is wanting.
fn refuse(rt: &HostRuntime, error: &clap::Error) -> anyhow::Result<ExitCode> {
    error.print(rt)?;
    Ok(match error.kind() {
        ErrorKind::DisplayHelp | ErrorKind::DisplayVersion => ExitCode::SUCCESS,
        ErrorKind::OutOfMemory => ExitCode::FAILURE,
        _ => ExitCode::from(2),
    })
}

// Runs what is asked for, if each name and each number can be.
fn run_chosen<'a, D: VerifySet + SymbolNames, P: Pass<D>, T: TextReader<D>>(
    rt: &HostRuntime,
    command: &mut Command<'_>,
    matches: &ArgMatches<'a>,
    offered: &[P],
    flags: &'a [Flag],
) -> anyhow::Result<ExitCode> {
    match choose(rt.alloc(), matches, offered, flags) {
        Ok(choices) => run::<D, P, T>(rt, matches, &choices),
        Err(PipelineErr::OutOfMemory) => refuse(rt, &AllocError.into()),
        Err(error) => {
            let what = format!(in rt.alloc(); "{error}")?;
            refuse(rt, &command.error(ErrorKind::InvalidValue, what.as_str())?)
        }
    }
}
