//! Passes over a toy op set, as scripts.
ghost use Rattle.plir_core.specs.ContextView.{IsLive};
ghost use Rattle.plir_core.specs.declared.ptr.IRNode.{IRNode as AnyNode};

use crate::passes::{Renew, RenewErr, ToyKind};
use plir_core::{DefiningEntity, IRNode, Operation, Ptr};
use plir_data::{KindSet, Memory, OpKind};
use plir_passes::{convert, eliminate_dead_code, eliminate_unreached_code, put_before, replace_op};
use plir_scripts::{Bench, Layer, Line, Mismatch, NodeCalls, ScriptKind, Stop, play};
use std::alloc::Global;

impl ScriptKind for ToyKind {
    fn of_word(word: &str) -> Option<ToyKind> {
        match word {
            "add" => Some(ToyKind::Add),
            "load" => Some(ToyKind::Load),
            "call" => Some(ToyKind::Call),
            "yield" => Some(ToyKind::Yield),
            "old" => Some(ToyKind::Old),
            "new" => Some(ToyKind::New),
            _ => None,
        }
    }
}

/// The calls of this crate, `eliminate OP`, `reach OP`, `renew OP`, `put OP VALUE`, `replace-op OP VALUE`, `name OP`,
/// and those on nodes.
struct PassCalls;

impl Layer<KindSet<ToyKind>> for PassCalls {
    fn run(bench: &mut Bench<KindSet<ToyKind>>, line: Line<'_>) -> Result<(), Stop> {
        match line.command {
            "eliminate" => eliminate(bench, line.first),
            "reach" => reach(bench, line.first),
            "renew" => renew(bench, line.first),
            "put" => put(bench, line),
            "replace-op" => replace(bench, line),
            "name" => name(bench, line.first),
            _ => NodeCalls::run(bench, line),
        }
    }
}

// Replaces what is old below an operation.
fn renew(bench: &mut Bench<KindSet<ToyKind>>, word: &str) -> Result<(), Stop> {
    let op = bench.made.op(&bench.ctx, word)?;
    let renew = Renew { alloc: bench.alloc };
    match convert(&mut bench.ctx, &renew, op) {
        Ok(()) => bench.answer.put("done"),
        Err(RenewErr::Used) => bench.answer.put("used"),
        Err(RenewErr::Node(refusal)) => return Err(Stop::from(refusal)),
    }
    Ok(())
}

// Puts a `toy.new` of two operands, which are one value, before an operation in a block.
fn put(bench: &mut Bench<KindSet<ToyKind>>, line: Line<'_>) -> Result<(), Stop> {
    let op = bench.made.op(&bench.ctx, line.first)?;
    let value = bench.made.value(&bench.ctx, line.second)?;
    if op.get_parent_block(&bench.ctx).is_none() {
        return Err(Stop::Refused);
    }
    let (ctx, kind) = (&mut bench.ctx, OpKind::Own(ToyKind::New));
    let ty = value.get_type(ctx);
    put_before(bench.alloc, ctx, op, kind, ty, &[value, value])?;
    Ok(())
}

// Names the operation that stands before another one.
fn name(bench: &mut Bench<KindSet<ToyKind>>, word: &str) -> Result<(), Stop> {
    let op = bench.made.op(&bench.ctx, word)?;
    if let Some(prev) = op.get_prev(&bench.ctx) {
        bench.made.ops.push(prev)?;
    }
    Ok(())
}

// Puts a value of another operation in place of the one result of an operation without regions, and erases that.
fn replace(bench: &mut Bench<KindSet<ToyKind>>, line: Line<'_>) -> Result<(), Stop> {
    let op = bench.made.op(&bench.ctx, line.first)?;
    let value = bench.made.value(&bench.ctx, line.second)?;
    if op.get_num_results(&bench.ctx) != 1 || op.num_regions(&bench.ctx) != 0 {
        return Err(Stop::Refused);
    }
    if value.defining_entity() == DefiningEntity::Op(op) {
        return Err(Stop::Refused);
    }
    replace_op(&mut bench.ctx, op, value);
    Ok(())
}

// Eliminates dead code. What is erased before memory is refused is gone, so the call is made once more right then.
fn eliminate(bench: &mut Bench<KindSet<ToyKind>>, word: &str) -> Result<(), Stop> {
    let op = bench.made.op(&bench.ctx, word)?;
    if eliminate_dead_code(bench.alloc, &mut bench.ctx, op).is_err() {
        let op = bench.made.op(&bench.ctx, word)?;
        eliminate_dead_code(bench.alloc, &mut bench.ctx, op)?;
    }
    bench.answer.put("done");
    Ok(())
}

// Eliminates what is not reached from an operation, where nothing outside uses what is below it.
fn reach_from(bench: &mut Bench<KindSet<ToyKind>>, op: Ptr<Operation>) -> Result<(), Memory>
    requires { IsLive bench.old.ctx (AnyNode.Operation op) }
{
    if !IRNode::Operation(op).is_unused_outside(&bench.ctx) {
        bench.answer.put("used");
        return Ok(());
    }
    eliminate_unreached_code(bench.alloc, &mut bench.ctx, op)?;
    bench.answer.put("done");
    Ok(())
}

// The same of an operation by its name. A call that is refused memory has changed nothing, and is made once more right
// then.
fn reach(bench: &mut Bench<KindSet<ToyKind>>, word: &str) -> Result<(), Stop> {
    let op = bench.made.op(&bench.ctx, word)?;
    if reach_from(bench, op).is_err() {
        let op = bench.made.op(&bench.ctx, word)?;
        reach_from(bench, op)?;
    }
    Ok(())
}

/// Plays a script of passes in a context with room for so many nodes.
///
/// # Errors
///
/// The first line whose answer is another one.
pub fn play_in(alloc: Global, max_nodes: u32, script: &str) -> Result<(), Mismatch> {
    play::<KindSet<ToyKind>, PassCalls>(alloc, max_nodes, script)
}
