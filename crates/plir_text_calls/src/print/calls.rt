//! The scripts of printed operations and edges, with their answers.
use crate::print::kinds::TestKind;
use crate::print::making::{make, name};
use crate::print::own_attrs::{MarkedSet, set_own};
use crate::print::printing::{print_edge_of, print_line};
use plir_data::KindSet;
use plir_scripts::{Bench, Layer, Line, Mismatch, NodeCalls, SampleSet, ScriptSet, Stop, play};
use std::alloc::Global;

/// The calls of this crate, and those on nodes.
struct PrintCalls;

impl<D: ScriptSet> Layer<D> for PrintCalls {
    fn run(bench: &mut Bench<D>, line: Line<'_>) -> Result<(), Stop> {
        match line.command {
            "module" | "func" | "constant" => make(bench, line),
            "name" => name(bench, line),
            "line" => print_line(bench, line),
            "edge" => print_edge_of(bench, line),
            _ => NodeCalls::run(bench, line),
        }
    }
}

/// The same, and attributes of the user's own.
struct OwnCalls;

impl<D: MarkedSet> Layer<D> for OwnCalls {
    fn run(bench: &mut Bench<D>, line: Line<'_>) -> Result<(), Stop> {
        match line.command {
            "own" => set_own(bench, line),
            _ => PrintCalls::run(bench, line),
        }
    }
}

/// Plays a script of printed operations and edges in a context with room for so many nodes.
///
/// # Errors
///
/// The first line whose answer is another one.
pub fn play_in(alloc: Global, max_nodes: u32, script: &str) -> Result<(), Mismatch> {
    play::<KindSet<TestKind>, PrintCalls>(alloc, max_nodes, script)
}

/// Plays a script of the same and attributes of the user's own in a context with room for so many nodes.
///
/// # Errors
///
/// The first line whose answer is another one.
pub fn play_own(alloc: Global, max_nodes: u32, script: &str) -> Result<(), Mismatch> {
    play::<SampleSet, OwnCalls>(alloc, max_nodes, script)
}
