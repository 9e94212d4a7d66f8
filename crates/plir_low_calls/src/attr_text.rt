//! The calls of scripts on texts of types and attributes, and how such a script is played.
mod calls;
mod reading;
mod writable;

pub use calls::play_in;
