//! The calls of scripts on types and attributes, and how such a script is played.
mod calls;
mod entries;
mod numbers;
mod types;
mod values;

pub use calls::play_in;
