// SPDX-License-Identifier: Apache-2.0
//! The reader of whole texts: builtin operations and those of an op set's own kinds, with the values and blocks that
//! they use.
#![tactic(auto)]

mod fault;
mod heads;
pub mod laws;
mod linking;
mod making;
mod notes;
mod openings;
mod ops;
mod own;
mod reader;
mod spelled;
mod uses;

pub use fault::{IrErr, IrFault};
pub use reader::read_ir;
