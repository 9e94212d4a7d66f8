// SPDX-License-Identifier: Apache-2.0
//! Inlining: a copy of the body of what is called in place of a call.
#![tactic(auto)]

mod branching;
mod fitting;
mod inlining;
mod putting;
mod testing;
mod values;

pub use inlining::inline_block;
pub use testing::can_inline;
