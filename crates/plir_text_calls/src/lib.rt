// SPDX-License-Identifier: Apache-2.0
//! The calls of scripts on texts of operations, a module for each layer, and how such a script is played.
#![tactic(auto)]

pub mod print;
pub mod read;
pub mod roundtrip;
