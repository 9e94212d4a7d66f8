// SPDX-License-Identifier: Apache-2.0
//! Runs a script from standard input: builds modules and functions, and walks them. `--version` says which program it
//! is, and no other word is known.
#![tactic(auto)]

mod command;
mod lines;
mod naming;
mod run;
mod script;
mod stop;
mod tables;
mod walking;
mod writing;

use run::run_script;
use std::env;
use std::io::{self, ErrorKind, Write};
use std::process::ExitCode;

/// What `--version` tells.
const VERSION: &[u8] = b"plir_run 0.20.0\n";

/// What is told where the command line takes more memory than there is, as if that happened in front of the first line
/// of a script.
const NO_MEMORY: &[u8] = b"line 0: out of memory\n";

/// The status of a command line that is not known.
const UNKNOWN: u8 = 2;

/// What a command line asks for.
#[derive(Drop)]
enum Asked {
    Script,
    Version,
    Unknown,
}

fn main(rt: HostRuntime) -> ExitCode {
    match asked_for(&rt) {
        Ok(Asked::Script) => ExitCode::from(run_script(rt.alloc(), rt.reader(), io::writer(&rt))),
        Ok(Asked::Version) => told(&rt, VERSION, ExitCode::SUCCESS),
        Err(error) if error.kind() == ErrorKind::OutOfMemory => {
            told(&rt, NO_MEMORY, ExitCode::FAILURE)
        }
        Ok(Asked::Unknown) | Err(_) => {
            let _told = eprintln!(&rt; "plir_run: no word but --version is known");
            ExitCode::from(UNKNOWN)
        }
    }
}

// What the command line asks for.
fn asked_for(rt: &HostRuntime) -> io::Result<Asked> {
    let mut words = env::args(rt)?;
    let _program = words.next();
    let Some(word) = words.next() else {
        return Ok(Asked::Script);
    };
    if word.as_str() == "--version" && words.len() == 0 {
        return Ok(Asked::Version);
    }
    Ok(Asked::Unknown)
}

// The status, once something is written to the standard output.
fn told(rt: &HostRuntime, what: &[u8], status: ExitCode) -> ExitCode {
    match io::writer(rt).write_all(what) {
        Ok(()) => status,
        Err(_) => ExitCode::FAILURE,
    }
}
