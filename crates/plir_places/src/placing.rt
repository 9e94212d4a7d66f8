//! How operations get their places.
ghost use Rattle.std.specs.Prelude.{◌≡◌, ◌++◌, ◌∷◌, [], IfOk, OnErr, OnOk};
ghost use Rattle.plir_store.specs.Members.{Has};
ghost use Rattle.plir_core.specs.ContextView.{IsLive};
ghost use Rattle.plir_core.specs.Held.{KeepsNodes};
ghost use Rattle.plir_core.specs.WellFormed.{IsWellFormed};
ghost use Rattle.plir_core.specs.declared.ptr.IRNode.{IRNode as AnyNode};
ghost use Rattle.plir_places.specs.OpPlaces.{op_places};
ghost use Rattle.plir_places.specs.Placed.{ArePlaced, with_places};
ghost use Rattle.plir_places.specs.TreeOps.{AreOps, IsNoted};

use crate::starts::op_places;
use plir_core::laws::op_edits_keep_the_rest;
use plir_core::{Context, IRNode, Operation, Ptr};
use plir_data::{Location, Memory, OpSet};
use plir_walk::WALKCONFIG_PREORDER_FORWARD;
use plir_walk::interruptible::{WalkResult, walk_advance, walk_break};
use plir_walk::operations::immutable::walk_ops;
use std::alloc::Global;
use std::ops::ControlFlow;

// Puts an operation behind others.
fn push_op(ops: &mut Vec<Ptr<Operation>>, op: Ptr<Operation>) -> Result<(), Memory>
    ensures { OnOk result (ops.new.items ≡ ops.old.items ++ op ∷ []) }
{
    ops.push(op)?;
    Ok(())
}

// Puts an operation behind others, or breaks the walk off for want of memory.
fn note_op(ops: &mut Vec<Ptr<Operation>>, op: Ptr<Operation>) -> WalkResult<Memory>
    ensures { IsNoted ops.old.items op result ops.new.items }
{
    match push_op(ops, op) {
        Ok(()) => walk_advance(),
        Err(refused) => walk_break(refused),
    }
}

// The operations at or below a root, in the order of their places.
fn tree_ops<D: OpSet>(
    alloc: Global,
    ctx: &Context<D>,
    root: Ptr<Operation>,
) -> Result<Vec<Ptr<Operation>>, Memory>
    requires { IsLive ctx.now (AnyNode.Operation root) }
    ensures ops { IfOk result (λ v. AreOps ctx.now root v.items) }
    ensures live { IfOk result (λ v. (p : _) → Has v.items p → IsLive ctx.now (AnyNode.Operation p)) }
{
    ctx.stands();
    let mut ops = Vec::new(alloc);
    let note = |_c: &Context<D>, v: &mut Vec<Ptr<Operation>>, p: Ptr<Operation>| -> WalkResult<
        Memory,
    >
        ensures { IsNoted v.old.items p result v.new.items }
    { note_op(v, p) };
    let config = WALKCONFIG_PREORDER_FORWARD;
    match walk_ops(ctx, &mut ops, &config, IRNode::Operation(root), note) {
        ControlFlow::Continue(_) => Ok(ops),
        ControlFlow::Break(refused) => Err(refused),
    }
}

// The first of some operations gets the first of some places, the second the second, as far as both go.
fn place_each<D: OpSet>(ctx: &mut Context<D>, ops: &[Ptr<Operation>], places: &[Location])
    requires { (p : _) → Has ops.now p → IsLive ctx.old (AnyNode.Operation p) }
    ensures placed { ctx.new ≡ with_places ctx.old ops.now places.now }
    ensures keeps { KeepsNodes ctx.old ctx.new }
    ensures whole { IsWellFormed D.attr_handles ctx.new }
{
    ctx.stands();
    let count = ops.len().min(places.len());
    'ops: for place in 0..count {
        let op = ops[place];
        op_edits_keep_the_rest(ctx, op);
        op.set_loc(ctx, places[place]);
    }
}

/// Gives an operation and all operations below it, in the order of their places in the tree, the places at which
/// operations begin in a text, one after another, as [`op_places`] tells them. So where it was read from this text,
/// with all below it, each has the line and the column of its first character. Nothing else changes.
///
/// # Errors
///
/// `Memory`, where a growth was refused: then nothing has changed.
pub fn place_operations<D: OpSet>(
    alloc: Global,
    ctx: &mut Context<D>,
    root: Ptr<Operation>,
    text: &str,
) -> Result<(), Memory>
    requires { IsLive ctx.old (AnyNode.Operation root) }
    ensures placed { OnOk result (ArePlaced ctx.old ctx.new root (op_places text.now)) }
    ensures same { OnErr result (ctx.new ≡ ctx.old) }
    ensures keeps { KeepsNodes ctx.old ctx.new }
    ensures whole { IsWellFormed D.attr_handles ctx.new }
{
    ctx.stands();
    let places = op_places(alloc, text)?;
    let ops = tree_ops(alloc, ctx, root)?;
    place_each(ctx, ops.as_slice(), places.as_slice());
    Ok(())
}
