//! Types and attributes of a dialect, alone and joined; what a joined set tells of flow; trees of operations of both
//! crates: printed, verified, swept, folded, and what they name.
//!
//! A call that takes memory is made once more where its first try was refused, so a test ends the same way whichever
//! request is refused.

// A call, made once more where it was refused.
macro_rules! again {
    ($call:expr) => {
        match $call {
            Ok(made) => made,
            Err(_) => $call?,
        }
    };
}

mod building;
mod flow;
mod kinds;
mod names;
mod passes;
mod tasks;
mod types;
mod verdicts;
