//! The scripts of sessions, with their answers.
use crate::symbols::ToyKind;
use crate::symbols::holding::HoldingKind;
use crate::symbols::sessions::session;
use plir_data::KindSet;
use plir_scripts::{Bench, Layer, Line, Mismatch, NodeCalls, ScriptKind, ScriptSet, Stop, play};
use plir_symbols::SymbolNames;
use std::alloc::Global;

impl ScriptKind for ToyKind {
    fn of_word(word: &str) -> Option<ToyKind> {
        match word {
            "call" => Some(ToyKind::Call),
            "yield" => Some(ToyKind::Yield),
            _ => None,
        }
    }
}

impl ScriptKind for HoldingKind {
    fn of_word(word: &str) -> Option<HoldingKind> {
        if word == "use" {
            Some(HoldingKind)
        } else {
            None
        }
    }
}

/// The sessions of this crate, and the calls on nodes.
struct SymbolCalls;

impl<D: ScriptSet + SymbolNames> Layer<D> for SymbolCalls {
    fn run(bench: &mut Bench<D>, line: Line<'_>) -> Result<(), Stop> {
        if line.command == "session" {
            session(bench, line)
        } else {
            NodeCalls::run(bench, line)
        }
    }
}

/// Plays a script of sessions in a context with room for so many nodes.
///
/// # Errors
///
/// The first line whose answer is another one.
pub fn play_in(alloc: Global, max_nodes: u32, script: &str) -> Result<(), Mismatch> {
    play::<KindSet<ToyKind>, SymbolCalls>(alloc, max_nodes, script)
}

/// The same over operations that use names as the builtin ones do.
///
/// # Errors
///
/// The first line whose answer is another one.
pub fn play_holding(alloc: Global, max_nodes: u32, script: &str) -> Result<(), Mismatch> {
    play::<KindSet<HoldingKind>, SymbolCalls>(alloc, max_nodes, script)
}
