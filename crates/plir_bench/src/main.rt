// SPDX-License-Identifier: Apache-2.0
//! Carries out the commands of standard input, one a line, and prints what each has counted. Times and instructions are
//! taken from outside.
#![tactic(auto)]

mod bench;
mod blocks;
mod building;
mod calls;
mod chains;
mod command;
mod converting;
mod flow;
mod kinds;
mod naming;
mod order;
mod passes;
mod stop;
mod summing;
mod symbols;
mod texts;
mod types;
mod using;
mod walking;

use bench::Bench;
use plir_core::Context;
use std::io;
use std::mem::forget;
use std::process::ExitCode;

// The context is not freed at the end, so that no command's time has a part of that.
fn main(rt: HostRuntime) -> ExitCode {
    let mut ctx = Context::new(rt.alloc());
    let mut bench = Bench::new(rt.alloc());
    let end = bench.run_lines(&mut ctx, rt.reader(), &mut io::writer(&rt));
    forget(ctx);
    match end {
        Ok(()) => ExitCode::SUCCESS,
        Err(_) => ExitCode::FAILURE,
    }
}
