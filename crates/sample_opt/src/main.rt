// SPDX-License-Identifier: Apache-2.0
//! Reads the text of one operation, verifies it, runs passes over it, and prints it: passes of the library, and one of
//! its own.
#![tactic(auto)]

mod sweep_pass;

use plir_driver::{About, LibraryPass, OneOf, OwnTexts, opt_main};
use plir_value_passes::{FoldPass, InlinePass};
use sample_dialect::SampleSet;
use std::process::ExitCode;
use sweep_pass::SweepPass;

const ABOUT: About = About {
    name: "sample_opt",
    version: "0.1.0",
    about: "Reads the text of one operation, verifies it, runs passes over it, and prints it",
};

/// A pass that the program offers.
type SamplePass = OneOf<LibraryPass, OneOf<SweepPass, OneOf<InlinePass, FoldPass>>>;

const PASSES: [SamplePass; 6] = [
    OneOf::First(LibraryPass::EraseNames),
    OneOf::First(LibraryPass::Dce),
    OneOf::First(LibraryPass::SymbolDce),
    OneOf::Second(OneOf::First(SweepPass { rounds: 1 })),
    OneOf::Second(OneOf::Second(OneOf::First(InlinePass::DEFAULT))),
    OneOf::Second(OneOf::Second(OneOf::Second(FoldPass))),
];

fn main(rt: HostRuntime) -> anyhow::Result<ExitCode> {
    opt_main::<SampleSet, SamplePass, OwnTexts>(&rt, &ABOUT, &PASSES)
}
