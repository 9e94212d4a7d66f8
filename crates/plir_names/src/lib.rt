// SPDX-License-Identifier: Apache-2.0
//! What names mean that stand in a text, by what bears them.
#![tactic(auto)]

mod names;

pub use names::{Meaning, NameTable};
