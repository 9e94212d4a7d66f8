//! The scripts of symbol tables and builtin operations, with their answers.
use crate::builtin::link_set::{LinkSet, tells_name};
use crate::builtin::many::{are_as_scans_say, thousand_come_and_go};
use crate::builtin::one_collection::serves;
use crate::builtin::operations::operation;
use crate::builtin::sessions::session;
use crate::builtin::symbols::symbol;
use crate::builtin::tables::table;
use plir_builtin::SymbolUserSet;
use plir_data::OpSet;
use plir_scripts::{Bench, Layer, Line, Mismatch, NodeCalls, ScriptSet, Stop, play};
use std::alloc::Global;

/// The calls of this crate, and those on nodes.
pub struct BuiltinCalls;

impl<D: ScriptSet + SymbolUserSet> Layer<D> for BuiltinCalls {
    fn run(bench: &mut Bench<D>, line: Line<'_>) -> Result<(), Stop> {
        match line.command {
            "table" | "lookup" | "nearest" | "nearest-lookup" | "edits" | "hand" => {
                table(bench, line)
            }
            "module" | "func" | "constant" | "materialize" | "forward-ref" | "rule" | "typed" => {
                operation(bench, line)
            }
            "symbol" | "name" | "scan" | "right" | "declared" | "past" => symbol(bench, line),
            "session" => session(bench, line),
            "holds" => check(bench, line.first),
            _ => NodeCalls::run(bench, line),
        }
    }
}

// Answers whether what this word says holds.
fn check<D: OpSet>(bench: &mut Bench<D>, word: &str) -> Result<(), Stop> {
    let alloc = bench.alloc;
    let holds = match word {
        "names" => tells_name(alloc)?,
        "random-edits" => are_as_scans_say(alloc)?,
        "thousand-symbols" => thousand_come_and_go(alloc)?,
        "one-collection" => serves(alloc)?,
        _ => return Err(Stop::Refused),
    };
    bench.answer.put_truth(holds);
    Ok(())
}

/// Plays a script of tables and operations in a context with room for so many nodes.
///
/// # Errors
///
/// The first line whose answer is another one.
pub fn play_in(alloc: Global, max_nodes: u32, script: &str) -> Result<(), Mismatch> {
    play::<LinkSet, BuiltinCalls>(alloc, max_nodes, script)
}
