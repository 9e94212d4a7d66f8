//! The calls of scripts on dead symbols and call graphs, over a toy op set and one whose operations use
//! names as the builtin ones do, and how such a script is played.
mod calls;
mod holding;
mod sessions;
mod toy;

pub use calls::{play_holding, play_in};
pub use toy::ToyKind;
