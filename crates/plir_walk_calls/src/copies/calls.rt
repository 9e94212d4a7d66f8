//! The scripts of copies, with their answers.
use crate::copies::copying::{clone_tree, copy};
use plir_scripts::{Bench, Layer, Line, Mismatch, NodeCalls, SampleSet, ScriptSet, Stop, play};
use std::alloc::Global;

/// The call of this crate, and those on nodes.
struct CopyCalls;

impl<D: ScriptSet> Layer<D> for CopyCalls {
    fn run(bench: &mut Bench<D>, line: Line<'_>) -> Result<(), Stop> {
        if line.command == "copy" {
            return copy(bench, line);
        }
        if line.command == "clone" {
            return clone_tree(bench, line);
        }
        NodeCalls::run(bench, line)
    }
}

/// Plays a script of copies in a context with room for so many nodes.
///
/// # Errors
///
/// The first line whose answer is another one.
pub fn play_in(alloc: Global, max_nodes: u32, script: &str) -> Result<(), Mismatch> {
    play::<SampleSet, CopyCalls>(alloc, max_nodes, script)
}
