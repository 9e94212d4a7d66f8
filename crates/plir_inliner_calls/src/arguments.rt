//! The calls of scripts on arguments of blocks, and how such a script is played.
mod calls;
mod kinds;

pub use calls::play_in;
