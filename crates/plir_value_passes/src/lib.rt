// SPDX-License-Identifier: Apache-2.0
//! Passes of a program that put other values in place of values: inlining of calls, within a budget, and folding. They
//! ask more of an op set than the passes of `plir_driver` do.
#![tactic(auto)]

mod fold_pass;
mod inline_pass;

pub use fold_pass::FoldPass;
pub use inline_pass::InlinePass;
