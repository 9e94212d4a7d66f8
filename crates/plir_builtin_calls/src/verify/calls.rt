//! Trees are verified, as scripts.
use crate::verify::pairs::PairKind;
use plir_data::{KindSet, VerifyErr};
use plir_scripts::{Bench, Layer, Line, Mismatch, NodeCalls, ScriptKind, Stop, play};
use plir_verify::verify_tree;
use std::alloc::Global;

impl ScriptKind for PairKind {
    fn of_word(word: &str) -> Option<PairKind> {
        match word {
            "pair" => Some(PairKind::Pair),
            "free" => Some(PairKind::Free),
            _ => None,
        }
    }
}

/// The call of this crate, `verify OP`, and those on nodes.
struct VerifyCalls;

impl Layer<KindSet<PairKind>> for VerifyCalls {
    fn run(bench: &mut Bench<KindSet<PairKind>>, line: Line<'_>) -> Result<(), Stop> {
        match line.command {
            "verify" => verify(bench, line),
            _ => NodeCalls::run(bench, line),
        }
    }
}

// Answers `right`, or the text of the refusal.
fn verify(bench: &mut Bench<KindSet<PairKind>>, line: Line<'_>) -> Result<(), Stop> {
    let op = bench.made.op(&bench.ctx, line.first)?;
    match verify_tree(bench.alloc, &bench.ctx, op) {
        Ok(()) => bench.answer.put("right"),
        Err(VerifyErr::Refused { err, .. }) => {
            let text = format!(in bench.alloc; "{err}")?;
            bench.answer.put(text.as_str());
        }
        Err(VerifyErr::Memory) => return Err(Stop::Memory),
    }
    Ok(())
}

/// Plays a script of verifications in a context with room for so many nodes.
///
/// # Errors
///
/// The first line whose answer is another one.
pub fn play_in(alloc: Global, max_nodes: u32, script: &str) -> Result<(), Mismatch> {
    play::<KindSet<PairKind>, VerifyCalls>(alloc, max_nodes, script)
}
