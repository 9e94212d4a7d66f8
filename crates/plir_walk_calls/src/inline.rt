//! The calls of scripts on inlining, and how such a script is played.
mod calls;
mod inlining;

pub use calls::play_in;
