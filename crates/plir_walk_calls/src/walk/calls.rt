//! The scripts of walks and names, with their answers.
use crate::walk::deep::walks_deep;
use crate::walk::naming::name;
use crate::walk::operations::walk_ops;
use crate::walk::refused::breaks_and_stays;
use crate::walk::walking::{run_pass, walk, walk_plainly};
use plir_data::OpSet;
use plir_scripts::{Bench, Layer, Line, Mismatch, NodeCalls, SampleSet, ScriptSet, Stop, play};
use std::alloc::Global;

/// The calls of this crate, and those on nodes.
struct WalkCalls;

impl<D: ScriptSet> Layer<D> for WalkCalls {
    fn run(bench: &mut Bench<D>, line: Line<'_>) -> Result<(), Stop> {
        match line.command {
            "look" | "plainly-look" | "change" | "plainly-change" => walk(bench, line),
            "look-ops" | "change-ops" => walk_ops(bench, line),
            "grow" | "unlabel" => walk_plainly(bench, line),
            "pass" => run_pass(bench, line),
            "walk-deep" | "walk-refused" => check(bench, line),
            "set-name" | "insert-name" | "remove-name" | "names" | "erase-names" => {
                name(bench, line)
            }
            _ => NodeCalls::run(bench, line),
        }
    }
}

// Answers whether a walk of a deep tree, or one whose calls are refused memory, goes as it should.
fn check<D: OpSet>(bench: &mut Bench<D>, line: Line<'_>) -> Result<(), Stop> {
    let alloc = bench.alloc;
    let holds = match line.command {
        "walk-deep" => walks_deep(alloc, line.first == "limited").unwrap_or(false),
        _ => breaks_and_stays(alloc),
    };
    bench.answer.put_truth(holds);
    Ok(())
}

/// Plays a script of walks and names in a context with room for so many nodes.
///
/// # Errors
///
/// The first line whose answer is another one.
pub fn play_in(alloc: Global, max_nodes: u32, script: &str) -> Result<(), Mismatch> {
    play::<SampleSet, WalkCalls>(alloc, max_nodes, script)
}
