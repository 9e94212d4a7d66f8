//! The calls of scripts on segments, branches, calls and region edges, and how such a script is played.
mod branching;
mod call_ops;
mod calling;
mod calls;
mod cond_branch;
mod edge_reading;
mod edge_scripts;
mod edged;
mod edging;
mod editing;
mod grouped;
mod grouping;
mod looping;
mod refusing;
mod switch;

pub use calls::{play_branches, play_calls, play_segments, play_switches};
pub use edge_scripts::play_edges;
