// SPDX-License-Identifier: Apache-2.0
//! A pass that inlines calls: a copy of the body of the function that a call means comes in its place, until no such
//! call is left, or a budget is used up.
#![tactic(auto)]

mod bodies;
mod candidates;
mod errors;
mod inlining;
mod listing;
mod meaning;
mod order;
mod plain;
mod rounds;
mod tally;

pub use errors::InlineErr;
pub use inlining::inline_calls;
pub use tally::Inlining;
