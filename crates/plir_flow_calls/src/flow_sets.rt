//! The calls of scripts on sets that tell their flow, and structs of their operations, and how such a script is played.
mod asking;
mod calls;
mod structs;

pub use calls::play_in;
