// SPDX-License-Identifier: Apache-2.0
//! Reads the text of one builtin operation, verifies it, runs passes over it, and prints it: as a text, as a list of
//! nodes, as a graph or as a call graph. So a pass is tried on a text with no program of one's own.
#![tactic(auto)]

use plir_data::BuiltinSet;
use plir_driver::{About, BuiltinTexts, LibraryPass, opt_main};
use std::process::ExitCode;

const ABOUT: About = About {
    name: "plir_opt",
    version: "0.20.0",
    about: "Reads the text of one operation, verifies it, runs passes over it, and prints it",
};

fn main(rt: HostRuntime) -> anyhow::Result<ExitCode> {
    opt_main::<BuiltinSet, LibraryPass, BuiltinTexts>(&rt, &ABOUT, &LibraryPass::ALL)
}
