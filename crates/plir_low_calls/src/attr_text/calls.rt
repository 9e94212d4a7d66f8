//! The scripts of texts, with their answers.
use crate::attr_text::reading::{
    ask_attr, ask_type, read, read_beginnings, read_nested, show_fault,
};
use crate::attr_text::writable::{ask_levels, ask_writable, read_back, write};
use plir_scripts::{Bench, Layer, Line, Mismatch, NodeCalls, OwnSet, SampleSet, Stop, play};
use std::alloc::Global;

/// The calls of this crate, and those on nodes.
struct TextCalls;

impl<D: OwnSet> Layer<D> for TextCalls {
    fn run(bench: &mut Bench<D>, line: Line<'_>) -> Result<(), Stop> {
        match line.command {
            "read-type" | "read-integer" | "read-function" => read(bench, line),
            "attr" | "verify" => ask_attr(bench, line),
            "typed-attr" => ask_type(bench, line),
            "writable" => ask_writable(bench, line),
            "written" => write(bench, line),
            "within" => ask_levels(bench, line),
            "read-back" => read_back(bench, line),
            "nested-attr" | "nested-type" => read_nested(bench, line),
            "beginnings-attr" | "beginnings-type" => read_beginnings(bench, line),
            "fault" => show_fault(bench, line),
            _ => NodeCalls::run(bench, line),
        }
    }
}

/// Plays a script of texts of types and attributes in a context with room for so many nodes.
///
/// # Errors
///
/// The first line whose answer is another one.
pub fn play_in(alloc: Global, max_nodes: u32, script: &str) -> Result<(), Mismatch> {
    play::<SampleSet, TextCalls>(alloc, max_nodes, script)
}
