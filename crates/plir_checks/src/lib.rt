// SPDX-License-Identifier: Apache-2.0
//! Tests that are texts: what a comment of a text says a program must print of it, and which errors must come.
//!
//! A line stands between two line feeds, and is a comment where its first characters other than blanks are `//`. A
//! blank is a space, a tab, a form feed or a carriage return, so lines may end in either way. Comments of other kinds
//! than those that the calls name say nothing, and what stands behind code in a line is no comment.
#![tactic(auto)]

mod checks;
mod comments;
mod comparing;
mod expected;
mod lines;
mod meeting;
mod places;
mod running;

pub use checks::{Check, CheckErr, CheckKind, read_checks};
pub use comments::blank_comments;
pub use comparing::{Came, CompareErr, compare};
pub use expected::{Expected, ExpectedErr, read_expected};
pub use meeting::{Unmet, meets};
pub use running::read_run;
