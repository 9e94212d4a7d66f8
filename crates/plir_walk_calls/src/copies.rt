//! The calls of scripts on copies, and how such a script is played.
mod calls;
mod copying;

pub use calls::play_in;
