// SPDX-License-Identifier: Apache-2.0
//! Which changes leave cached symbol tables in agreement, each told in the words of the call that makes it: node calls,
//! a reader that refuses a text, dead code elimination and conversion. Each function does nothing, and its contract is
//! the law. [`plir_builtin::laws`] has the same of nodes and types that are made, and of changes that leave each table
//! the table that it was; `plir_folding::laws` of folding.
#![tactic(auto)]

mod calls;
mod passes;

pub use calls::{edits_keep_agreement, moves_keep_agreement, refused_reads_keep_agreement};
pub use passes::{conversions_keep_agreement, dead_code_keeps_agreement};
