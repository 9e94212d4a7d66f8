//! The calls of scripts on texts of operations, and how such a script is played.
mod calls;
mod long;
mod mutated;
mod reading;
mod refused;

pub use calls::play_in;
