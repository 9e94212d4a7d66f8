//! The calls of scripts on printed operations and edges, and how such a script is played.
mod calls;
mod edges;
mod kinds;
mod making;
mod own_attrs;
mod printing;

pub use calls::{play_in, play_own};
