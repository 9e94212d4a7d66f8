//! The calls of scripts on symbol tables and builtin operations, and how such a script is played.
mod around;
mod calls;
mod link_set;
mod many;
mod one_collection;
mod operations;
mod own_users;
mod sessions;
mod symbols;
mod tables;

pub use calls::play_in;
pub use own_users::play_own;
