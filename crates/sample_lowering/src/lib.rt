// SPDX-License-Identifier: Apache-2.0
//! A lowering as one writes it outside: sums become negations and differences, by a conversion.
#![tactic(auto)]

mod kinds;
mod lowering;
#[cfg(test)]
mod tests;

pub use kinds::{ArithKind, ArithSet};
pub use lowering::{LowerAdd, LowerErr};
