//! The scripts of inlining below a root, with their answers.
use crate::inliner::inlining::inline_below;
use flow_dialect::kinds::FlowSet;
use plir_scripts::{Bench, Layer, Line, Mismatch, NodeCalls, Stop, play};
use std::alloc::Global;

/// The call of this crate, and those on nodes.
struct InlinerCalls;

impl Layer<FlowSet> for InlinerCalls {
    fn run(bench: &mut Bench<FlowSet>, line: Line<'_>) -> Result<(), Stop> {
        match line.command {
            "inline-below" | "inline-all-below" => inline_below(bench, line),
            _ => NodeCalls::run(bench, line),
        }
    }
}

/// Plays a script of inlinings below a root in a context with room for so many nodes.
///
/// # Errors
///
/// The first line whose answer is another one.
pub fn play_in(alloc: Global, max_nodes: u32, script: &str) -> Result<(), Mismatch> {
    play::<FlowSet, InlinerCalls>(alloc, max_nodes, script)
}
