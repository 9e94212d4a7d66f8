//! The calls of scripts on the inlining of all calls below a root, and how such a script is played.
mod calls;
mod inlining;

pub use calls::play_in;
pub(crate) use inlining::name_new;
