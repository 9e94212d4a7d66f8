//! The scripts of types and attributes, with their answers.
use crate::data::entries::{compare_hashes, on_entry, put};
use crate::data::numbers::{
    ask_identifier, compare_bits, compare_identifiers, copy_identifier, keep_bits,
};
use crate::data::types::{count, make_own, put_parts, show_marks, show_parts};
use crate::data::values::{
    ask_held_type, ask_outlined, ask_type, compare, copy, copy_entries, copy_inside, verify,
};
use plir_scripts::{Bench, Layer, Line, Mismatch, NodeCalls, OwnSet, SampleSet, Stop, play};
use std::alloc::Global;

/// The calls of this crate, and those on nodes, which make types by their texts.
struct DataCalls;

impl<D: OwnSet> Layer<D> for DataCalls {
    fn run(bench: &mut Bench<D>, line: Line<'_>) -> Result<(), Stop> {
        match line.command {
            "unsigned" | "signed" => keep_bits(bench, line),
            "same-bits" => compare_bits(bench, line),
            "is-identifier" => ask_identifier(bench, line),
            "identifier" => copy_identifier(bench, line),
            "comes-before" => compare_identifiers(bench, line),
            "own-type" => make_own(bench, line),
            "types" => count(bench),
            "parts" => show_parts(bench, line),
            "marks" => show_marks(bench, line),
            "put-parts" => put_parts(bench, line),
            "copy" => copy(bench, line),
            "copy-inside" => copy_inside(bench, line),
            "copy-entries" => copy_entries(bench, line),
            "same" => compare(bench, line),
            "outlined" => ask_outlined(bench, line),
            "type-of" => ask_type(bench, line),
            "held-type" => ask_held_type(bench, line),
            "verdict" => verify(bench, line),
            "put" => put(bench, line),
            "lookup" | "lend" | "without" | "take" => on_entry(bench, line),
            "hash-alike" => compare_hashes(bench, line),
            _ => NodeCalls::run(bench, line),
        }
    }
}

/// Plays a script of types and attributes in a context with room for so many nodes.
///
/// # Errors
///
/// The first line whose answer is another one.
pub fn play_in(alloc: Global, max_nodes: u32, script: &str) -> Result<(), Mismatch> {
    play::<SampleSet, DataCalls>(alloc, max_nodes, script)
}
