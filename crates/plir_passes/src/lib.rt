// SPDX-License-Identifier: Apache-2.0
//! Passes over the contracts of the crates below: conversion of illegal operations, and dead code elimination.
#![tactic(auto)]

mod conversion;
mod dead_code;
mod effects;
pub mod laws;
mod marks;
mod reaching;
mod rewriting;
mod unreached_code;
mod worklist;

pub use conversion::{Conversion, convert, convert_block};
pub use dead_code::{eliminate_dead_code, is_dead};
pub use effects::{EffectKind, EffectSet, is_removable};
pub use rewriting::{put_before, replace_op};
pub use unreached_code::eliminate_unreached_code;
