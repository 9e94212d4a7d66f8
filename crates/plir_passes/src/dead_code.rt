//! Dead code elimination.
ghost use Rattle.std.specs.Prelude.{◌≡◌, ◌↔◌, [], IfOk, IfSome, IsTrue, OnErr, OnOk};
ghost use Rattle.plir_core.specs.declared.ptr.IRNode.{IRNode as AnyNode};
ghost use Rattle.plir_core.specs.declared.value.DefiningEntity.{DefiningEntity as AnyEntity};
ghost use Rattle.plir_core.specs.Erase.{IsErased};
ghost use Rattle.plir_core.specs.Forest.{look, IsForest};
ghost use Rattle.plir_core.specs.ContextView.{IsLive, children};
ghost use Rattle.plir_core.specs.Unused.{IsUnusedOutside, without_tree};
ghost use Rattle.plir_walk.specs.Lawful.{Lawful};
ghost use Rattle.plir_walk.specs.Thinned.{IsThinned};
ghost use Rattle.plir_passes.specs.Dead.{HasNoDead, IsUsedBy, IsUsedByNone, MayGo, Uses};
ghost use Rattle.plir_passes.specs.Swept.{IsSwept};
ghost use Rattle.plir_passes.specs.Worklists.{IsListedAt, IsNextDead, IsPending, WaitAgain};

use crate::effects::{EffectSet, is_removable};
use crate::worklist::Worklist;
use plir_core::laws::nothing_stands_below_a_leaf;
use plir_core::{Context, DefiningEntity, IRNode, Operation, Ptr, Value};
use plir_data::Memory;
use plir_walk::WALKCONFIG_PREORDER_FORWARD;
use plir_walk::interruptible::{WalkResult, walk_advance, walk_break};
use plir_walk::laws::{erasures_thin, lawful_changes};
use plir_walk::operations::immutable::walk_ops;
use std::alloc::Global;
use std::ops::ControlFlow;

// Whether an operation is of a kind that may go, and has no region.
fn may_go<D: EffectSet>(ctx: &Context<D>, op: Ptr<Operation>) -> bool
    requires { IsLive ctx.now (AnyNode.Operation op) }
    ensures { IsTrue result ↔ MayGo D.has_effect D.is_terminator ctx.now op }
{
    if !is_removable::<D>(op.kind(ctx)) {
        return false;
    }
    if op.num_regions(ctx) > 0 {
        return false;
    }
    true
}

/// Whether an operation is of a kind that may go, has no region, and no other operation uses a result of it. The look
/// goes by the count of its uses, and by its operands where it is used, over all operations of the context only where
/// that count is not known.
pub fn is_dead<D: EffectSet>(ctx: &Context<D>, op: Ptr<Operation>) -> bool
    requires { IsLive ctx.now (AnyNode.Operation op) }
    ensures answer { IsTrue result ↔ IsUsedBy D.has_effect D.is_terminator ctx.now [] op }
    ensures unused { IsTrue result → IsUnusedOutside ctx.now (AnyNode.Operation op) }
{
    if !may_go(ctx, op) {
        return false;
    }
    is_unused(ctx, op)
}

// Whether no other operation uses a result of an operation that may go and has no region.
fn is_unused<D: EffectSet>(ctx: &Context<D>, op: Ptr<Operation>) -> bool
    requires live { IsLive ctx.now (AnyNode.Operation op) }
    requires leaf { children ctx.now (AnyNode.Operation op) ≡ [] }
    ensures answer { IsTrue result ↔ IsUnusedOutside ctx.now (AnyNode.Operation op) }
    ensures used { IsUnusedOutside ctx.now (AnyNode.Operation op) ↔ IsUsedByNone ctx.now op }
{
    nothing_stands_below_a_leaf(ctx, IRNode::Operation(op));
    IRNode::Operation(op).is_unused_outside(ctx)
}

// Lists an operation, if it may go; or breaks the walk off for want of memory.
fn list_at<D: EffectSet>(
    ctx: &Context<D>,
    list: &mut Worklist,
    op: Ptr<Operation>,
) -> WalkResult<Memory>
    requires { IsLive ctx.now (AnyNode.Operation op) }
    ensures { IsListedAt D.has_effect D.is_terminator ctx.now list.old op result list.new }
{
    if !may_go(ctx, op) {
        return walk_advance();
    }
    match list.put(op) {
        Ok(()) => walk_advance(),
        Err(refused) => walk_break(refused),
    }
}

// Lists the operations below a root that may go. All of them wait, in the order of their places.
fn list_below<D: EffectSet>(
    alloc: Global,
    ctx: &Context<D>,
    root: Ptr<Operation>,
) -> Result<Worklist, Memory>
    requires { IsLive ctx.now (AnyNode.Operation root) }
    ensures { IfOk result (IsPending D.has_effect D.is_terminator ctx.now root) }
{
    ctx.stands();
    let mut list = Worklist::new(alloc);
    if root.num_regions(ctx) == 0 {
        return Ok(list);
    }
    let list_op = |c: &Context<D>, l: &mut Worklist, p: Ptr<Operation>| -> WalkResult<Memory>
        requires { IsLive c.now (AnyNode.Operation p) }
        ensures { IsListedAt D.has_effect D.is_terminator c.now l.old p result l.new }
    { list_at(c, l, p) };
    match walk_ops(
        ctx,
        &mut list,
        &WALKCONFIG_PREORDER_FORWARD,
        IRNode::Operation(root),
        list_op,
    ) {
        ControlFlow::Continue(_) => Ok(list),
        ControlFlow::Break(refused) => Err(refused),
    }
}

// Takes operations that wait, the last one first, up to one that is dead.
fn next_dead<D: EffectSet>(ctx: &Context<D>, list: &mut Worklist) -> Option<Ptr<Operation>>
    ensures listed { list.new.listed.keys ≡ list.old.listed.keys }
    ensures next { IsNextDead D.has_effect D.is_terminator ctx.now list.old result list.new }
    ensures unused { IfSome result (λ p. IsUnusedOutside ctx.now (AnyNode.Operation p)) }
{
    'waiting: while let Some(op) = list.take() {
        if op.is_live(ctx) && is_dead(ctx, op) {
            return Some(op);
        }
    }
    None
}

// Lets the operation wait once more whose result a value is, if it is listed.
fn put_definer(value: Value, list: &mut Worklist) -> Result<(), Memory>
    ensures { OnOk result (WaitAgain (λ p. value.entity ≡ AnyEntity.Op p) list.old list.new) }
{
    match value.defining_entity() {
        DefiningEntity::Op(op) => list.put_again(op),
        DefiningEntity::Block(_) => Ok(()),
    }
}

// Lets the operations wait once more whose results an operation uses, where they are listed.
fn put_used<D: EffectSet>(
    ctx: &Context<D>,
    op: Ptr<Operation>,
    list: &mut Worklist,
) -> Result<(), Memory>
    requires { IsLive ctx.now (AnyNode.Operation op) }
    ensures { OnOk result (WaitAgain (Uses ctx.now op) list.old list.new) }
{
    for place in 0..op.get_num_operands(ctx) {
        put_definer(op.get_operand(ctx, place), list)?;
    }
    Ok(())
}

// Erases a dead operation. What it used waits to be looked at once more.
fn sweep_op<D: EffectSet>(
    ctx: &mut Context<D>,
    op: Ptr<Operation>,
    list: &mut Worklist,
) -> Result<(), Memory>
    requires live { IsLive ctx.old (AnyNode.Operation op) }
    requires unused { IsUnusedOutside ctx.old (AnyNode.Operation op) }
    ensures used { OnOk result (WaitAgain (Uses ctx.old op) list.old list.new) }
    ensures tree { OnOk result (IsErased ctx.old.nodes ctx.new.nodes (AnyNode.Operation op)) }
    ensures after { OnOk result (ctx.new ≡ without_tree ctx.old (AnyNode.Operation op)) }
    ensures thinned { OnOk result (IsThinned ctx.old ctx.new) }
    ensures stands { IsForest (look ctx.new) }
    ensures err { OnErr result (ctx.new ≡ ctx.old) }
{
    lawful_changes::<D>();
    erasures_thin(ctx);
    ctx.stands();
    put_used(ctx, op, list)?;
    Operation::erase(op, ctx);
    Ok(())
}

/// Erases the dead operations below an operation, until none is left there: those that have no effect and no region,
/// end no block, and whose results are used by dead operations alone. All else stays as it was, in its order; what is
/// free now is used again, the slot freed last first. In whatever order they are laid out, each operation is looked at
/// once, and once more for each operand that an erased user of it had. A look goes by the count of its uses, and by its
/// operands where it is used, over all operations of the context only where that count is not known.
///
/// Operations with regions stay, and those that use one another in a circle: where nothing outside uses what is below
/// the operation, [`eliminate_unreached_code`](crate::eliminate_unreached_code) takes these too.
///
/// # Errors
///
/// [`Memory`] where there is none for the list of what may go; what was erased until then was dead.
pub fn eliminate_dead_code<D: EffectSet>(
    alloc: Global,
    ctx: &mut Context<D>,
    root: Ptr<Operation>,
) -> Result<(), Memory>
    requires { IsLive ctx.old (AnyNode.Operation root) }
    ensures swept { IsSwept D.has_effect D.is_terminator ctx.old ctx.new }
    ensures lawful { Lawful (look ctx.old) (AnyNode.Operation root) (look ctx.new) }
    ensures clean { OnOk result (HasNoDead D.has_effect D.is_terminator ctx.new (AnyNode.Operation root)) }
{
    lawful_changes::<D>();
    ctx.stands();
    let mut list = list_below(alloc, ctx, root)?;
    'dead: while let Some(op) = next_dead(ctx, &mut list) {
        sweep_op(ctx, op, &mut list)?;
    }
    Ok(())
}
