// SPDX-License-Identifier: Apache-2.0
//! The calls of scripts on passes, over toy op sets, a module for each layer, and how such a script is played.
#![tactic(auto)]

pub mod folding;
pub mod passes;
pub mod symbols;
