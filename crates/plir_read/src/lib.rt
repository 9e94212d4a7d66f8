// SPDX-License-Identifier: Apache-2.0
//! The reader of texts of operations: constants, modules and functions, with names of results, dictionaries, blocks,
//! their arguments and their labels.
#![tactic(auto)]

pub mod arguments;
pub mod constants;
pub mod headers;
pub mod heads;
pub mod laws;
pub mod making;
pub mod names;
pub mod openings;
mod ops;
mod reader;

pub use reader::read_op;
