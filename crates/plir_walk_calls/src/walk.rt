//! The calls of scripts on walks and given names, and how such a script is played.
mod calls;
mod changes;
mod deep;
mod from_any;
mod growing;
mod naming;
mod operations;
mod pass;
mod plan;
mod refused;
mod walking;

pub use calls::play_in;
