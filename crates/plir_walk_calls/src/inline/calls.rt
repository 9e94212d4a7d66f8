//! The scripts of inlining, with their answers.
use crate::inline::inlining::inline;
use plir_scripts::{Bench, Layer, Line, Mismatch, NodeCalls, SampleSet, ScriptSet, Stop, play};
use std::alloc::Global;

/// The call of this crate, and those on nodes.
struct InlineCalls;

impl<D: ScriptSet> Layer<D> for InlineCalls {
    fn run(bench: &mut Bench<D>, line: Line<'_>) -> Result<(), Stop> {
        if line.command == "inline" {
            return inline(bench, line);
        }
        NodeCalls::run(bench, line)
    }
}

/// Plays a script of inlinings in a context with room for so many nodes.
///
/// # Errors
///
/// The first line whose answer is another one.
pub fn play_in(alloc: Global, max_nodes: u32, script: &str) -> Result<(), Mismatch> {
    play::<SampleSet, InlineCalls>(alloc, max_nodes, script)
}
