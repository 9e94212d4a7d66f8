// SPDX-License-Identifier: Apache-2.0
//! The calls of scripts on inlining of all calls and on arguments of blocks that go, a module for each layer, and how
//! such a script is played.
#![tactic(auto)]

pub mod arguments;
pub mod inliner;
