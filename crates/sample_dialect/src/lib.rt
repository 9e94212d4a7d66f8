// SPDX-License-Identifier: Apache-2.0
//! A dialect as one writes it outside: kinds of operations for a program with calls and branches, one of them with a
//! struct of its own.
#![tactic(auto)]

mod add_op;
mod asked;
mod flow;
mod kinds;
mod rules;
#[cfg(test)]
mod tests;

pub use add_op::AddOp;
pub use flow::ATTR_KEY_CALLEE;
pub use kinds::{SampleErr, SampleKind, SampleSet};
