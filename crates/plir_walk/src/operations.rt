//! Walkers that call at operations alone, for passes that ask for no regions and no blocks.
#![tactic(auto)]

mod hop;
pub mod immutable;
pub mod mutable;
