//! The calls of scripts on interfaces, and how such a script is played.
mod any_op;
mod appending;
mod asking;
mod calls;
mod verifying;

pub use calls::play_in;
