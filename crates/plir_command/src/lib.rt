// SPDX-License-Identifier: Apache-2.0
//! The command line of a program over passes: the words that it takes, and which passes they ask for. Nothing of it
//! knows what a pass does.
#![tactic(auto)]

mod chosen;
mod command_line;

pub use chosen::{Chosen, choose_passes};
pub use command_line::{About, command};
