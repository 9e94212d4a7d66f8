//! Folding over a toy op set, as scripts; and of long chains.

use crate::folding::ToyKind;
use crate::folding::chains::{Layout, Links, folds};
use plir_core::{Context, DefiningEntity, NodeErr, Value};
use plir_data::keys::ATTR_KEY_CONSTANT_VALUE;
use plir_data::{AttrObj, KindSet, OpKind};
use plir_folding::{fold_constants, fold_values, merge_constants};
use plir_scripts::{Bench, Layer, Line, Mismatch, NodeCalls, ScriptKind, Stop, number, play};
use std::alloc::Global;

impl ScriptKind for ToyKind {
    fn of_word(word: &str) -> Option<ToyKind> {
        match word {
            "add" => Some(ToyKind::Add),
            "sub" => Some(ToyKind::Sub),
            "use" => Some(ToyKind::Use),
            "yield" => Some(ToyKind::Yield),
            _ => None,
        }
    }
}

/// The calls of this crate, `fold OP`, `fold-values OP`, `merge OP`, `operand OP PLACE`, `written OP PLACE` and
/// `fold-chain LAYOUT LINKS`, and those on nodes.
struct FoldCalls;

impl Layer<KindSet<ToyKind>> for FoldCalls {
    fn run(bench: &mut Bench<KindSet<ToyKind>>, line: Line<'_>) -> Result<(), Stop> {
        match line.command {
            "fold" => fold(bench, line),
            "fold-values" => values(bench, line),
            "merge" => merge(bench, line),
            "operand" => operand(bench, line),
            "written" => written(bench, line),
            "fold-chain" => fold_chain(bench, line),
            _ => NodeCalls::run(bench, line),
        }
    }
}

// Folds constants. What is folded before memory is refused stays, so the call is made once more right then.
fn fold(bench: &mut Bench<KindSet<ToyKind>>, line: Line<'_>) -> Result<(), Stop> {
    let op = bench.made.op(&bench.ctx, line.first)?;
    let mut end = fold_constants(bench.alloc, &mut bench.ctx, op);
    if matches!(end, Err(NodeErr::Memory)) {
        let op = bench.made.op(&bench.ctx, line.first)?;
        end = fold_constants(bench.alloc, &mut bench.ctx, op);
    }
    end?;
    bench.answer.put("done");
    Ok(())
}

// Folds values. What is folded before memory is refused stays, so the call is made once more right then.
fn values(bench: &mut Bench<KindSet<ToyKind>>, line: Line<'_>) -> Result<(), Stop> {
    let op = bench.made.op(&bench.ctx, line.first)?;
    if fold_values(bench.alloc, &mut bench.ctx, op).is_err() {
        let op = bench.made.op(&bench.ctx, line.first)?;
        fold_values(bench.alloc, &mut bench.ctx, op)?;
    }
    bench.answer.put("done");
    Ok(())
}

// Merges constants: whether an operand has changed.
fn merge(bench: &mut Bench<KindSet<ToyKind>>, line: Line<'_>) -> Result<(), Stop> {
    let op = bench.made.op(&bench.ctx, line.first)?;
    let changed = merge_constants(bench.alloc, &mut bench.ctx, op)?;
    bench.answer.put_truth(changed);
    Ok(())
}

// The bits of the integer that a value is a constant of.
pub fn bits_of(ctx: &Context<KindSet<ToyKind>>, value: Value) -> Option<u64> {
    if !value.is_live(ctx) {
        return None;
    }
    let DefiningEntity::Op(op) = value.defining_entity() else {
        return None;
    };
    if !matches!(op.kind(ctx), OpKind::Constant) {
        return None;
    }
    match op.attributes(ctx).get(ATTR_KEY_CONSTANT_VALUE) {
        Some(AttrObj::Integer(held)) => Some(held.value().to_u64()),
        _ => None,
    }
}

// Writes the bits of the integer that an operand is a constant of; where it is none, the value.
fn operand(bench: &mut Bench<KindSet<ToyKind>>, line: Line<'_>) -> Result<(), Stop> {
    let op = bench.made.op(&bench.ctx, line.first)?;
    let place = number(line.second)?;
    if place >= op.get_num_operands(&bench.ctx) {
        return Err(Stop::Refused);
    }
    let value = op.get_operand(&bench.ctx, place);
    match bits_of(&bench.ctx, value) {
        Some(bits) => bench.answer.put_number(bits as usize),
        None => bench.made.put_value(&mut bench.answer, value),
    }
    Ok(())
}

// Writes where the operation was written that an operand is a result of.
fn written(bench: &mut Bench<KindSet<ToyKind>>, line: Line<'_>) -> Result<(), Stop> {
    let op = bench.made.op(&bench.ctx, line.first)?;
    let place = number(line.second)?;
    if place >= op.get_num_operands(&bench.ctx) {
        return Err(Stop::Refused);
    }
    match op.get_operand(&bench.ctx, place).defining_entity() {
        DefiningEntity::Op(maker) if maker.is_live(&bench.ctx) => {
            bench.answer.put_debug(&maker.loc(&bench.ctx));
            Ok(())
        }
        _ => Err(Stop::Refused),
    }
}

// Answers whether a long chain of links that is laid out so folds.
fn fold_chain(bench: &mut Bench<KindSet<ToyKind>>, line: Line<'_>) -> Result<(), Stop> {
    let layout = match line.first {
        "one-block" => Layout::OneBlock,
        "blocks" => Layout::Blocks,
        "zigzag" => Layout::Zigzag,
        _ => return Err(Stop::Refused),
    };
    let links = match line.second {
        "ones" => Links::Ones,
        "zeros" => Links::Zeros,
        "differences" => Links::Differences,
        _ => return Err(Stop::Refused),
    };
    let is_folded = folds(bench.alloc, layout, links)?;
    bench.answer.put_truth(is_folded);
    Ok(())
}

/// Plays a script of foldings in a context with room for so many nodes.
///
/// # Errors
///
/// The first line whose answer is another one.
pub fn play_in(alloc: Global, max_nodes: u32, script: &str) -> Result<(), Mismatch> {
    play::<KindSet<ToyKind>, FoldCalls>(alloc, max_nodes, script)
}
