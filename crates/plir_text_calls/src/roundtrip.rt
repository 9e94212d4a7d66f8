//! The calls of scripts on operations that are read back, callers of the laws that say so, and how such a script
//! is played.
mod calls;
pub mod copying;
mod obstacles;
mod readable;
mod reading_back;
mod text_set;

pub use calls::play_in;
