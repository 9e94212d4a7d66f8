//! The scripts of texts of operations, with their answers.
use crate::read::long::long_are_read;
use crate::read::mutated::mutated_are_read;
use crate::read::reading::{read, read_beginnings, read_nested};
use crate::read::refused::older_are_kept;
use plir_data::OpSet;
use plir_scripts::{Bench, Layer, Line, Mismatch, NodeCalls, SampleSet, ScriptSet, Stop, play};
use std::alloc::Global;

/// The calls of this crate, and those on nodes.
struct ReadCalls;

impl<D: ScriptSet> Layer<D> for ReadCalls {
    fn run(bench: &mut Bench<D>, line: Line<'_>) -> Result<(), Stop> {
        match line.command {
            "read" => read(bench, line),
            "nested" => read_nested(bench, line),
            "beginnings" => read_beginnings(bench, line),
            "holds" => check(bench, line.first),
            _ => NodeCalls::run(bench, line),
        }
    }
}

// Answers whether what this word says holds.
fn check<D: OpSet>(bench: &mut Bench<D>, word: &str) -> Result<(), Stop> {
    let alloc = bench.alloc;
    let holds = match word {
        "long-texts" => long_are_read(alloc)?,
        "mutated-texts" => mutated_are_read(alloc)?,
        "older-nodes" => older_are_kept(alloc)?,
        _ => return Err(Stop::Refused),
    };
    bench.answer.put_truth(holds);
    Ok(())
}

/// Plays a script of texts of operations in a context with room for so many nodes.
///
/// # Errors
///
/// The first line whose answer is another one.
pub fn play_in(alloc: Global, max_nodes: u32, script: &str) -> Result<(), Mismatch> {
    play::<SampleSet, ReadCalls>(alloc, max_nodes, script)
}
