//! The calls of scripts on constant folding, over a toy op set, and how such a script is played.
mod calls;
mod chains;
mod toy;

pub use calls::play_in;
pub use toy::ToyKind;
