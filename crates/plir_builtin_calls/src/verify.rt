//! The calls of scripts on trees that are verified, over an op set whose kinds ask something of their operations,
//! and how such a script is played.
mod calls;
pub mod pairs;

pub use calls::play_in;
