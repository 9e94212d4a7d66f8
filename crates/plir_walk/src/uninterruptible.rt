//! Walkers whose callback answers nothing: they always go to their end.
#![tactic(auto)]

pub mod immutable;
pub mod mutable;
