//! Which operations below a root are reached.
ghost use Rattle.std.specs.Prelude.{◌≡◌, ◌↔◌, true, IfOk, IsTrue, OnOk};
ghost use Rattle.plir_store.specs.Members.{Has};
ghost use Rattle.plir_core.specs.declared.ptr.IRNode.{IRNode as AnyNode};
ghost use Rattle.plir_core.specs.ContextView.{IsLive, entity_node, kind_of};
ghost use Rattle.plir_passes.specs.Legal.{is_kind};
ghost use Rattle.plir_passes.specs.Marked.{IsGrown, IsMarkedAt, IsWhole, is_among, ops_of};
ghost use Rattle.plir_passes.specs.Reached.{HasOperandFrom, HasSuccessorOf, IsBlockOf, IsFrom, IsReached, IsUnder};
ghost use Rattle.plir_passes.specs.Reached.{Needs, StandsIn, acts, ends_block};
ghost use Rattle.plir_passes.specs.Seeking.{IsEnd, Through};

use crate::effects::EffectSet;
use crate::marks::Marks;
use plir_core::laws::{child_at, first_child_is_front};
use plir_core::{BasicBlock, Context, DefiningEntity, IRNode, Operation, Ptr, Value};
use plir_data::{Memory, OpKind};
use plir_walk::WALKCONFIG_PREORDER_FORWARD;
use plir_walk::interruptible::{WalkResult, walk_advance, walk_break};
use plir_walk::operations::immutable::walk_ops;
use std::alloc::Global;
use std::ops::ControlFlow;

// Whether operations of a kind do something besides their results.
fn kind_acts<D: EffectSet>(kind: OpKind<D::Kind>) -> bool
    ensures { result ≡ acts D.has_effect kind }
{
    match kind {
        OpKind::Constant => false,
        OpKind::Own(own) => D::has_effect(own),
        OpKind::Module | OpKind::Func | OpKind::ForwardRef => true,
    }
}

// Whether operations of a kind end a block.
fn kind_ends<D: EffectSet>(kind: OpKind<D::Kind>) -> bool
    ensures { result ≡ ends_block D.is_terminator kind }
{
    match kind {
        OpKind::Own(own) => D::is_terminator(own),
        OpKind::Module | OpKind::Func | OpKind::Constant | OpKind::ForwardRef => false,
    }
}

// ---- what stands under a root

// Marks an operation, or breaks the walk off for want of memory.
fn mark_at(marks: &mut Marks, op: Ptr<Operation>) -> WalkResult<Memory>
    ensures { IsMarkedAt marks.old op result marks.new }
{
    match marks.put(op) {
        Ok(()) => walk_advance(),
        Err(refused) => walk_break(refused),
    }
}

/// The operations at or below a root, in the order of their places.
pub(crate) fn ops_under<D: EffectSet>(
    alloc: Global,
    ctx: &Context<D>,
    root: Ptr<Operation>,
) -> Result<Marks, Memory>
    requires { IsLive ctx.now (AnyNode.Operation root) }
    ensures whole { IfOk result IsWhole }
    ensures under { IfOk result (λ m. (q : _) → Has (ops_of m) q ↔ IsUnder ctx.now root q) }
{
    ctx.stands();
    let mut under = Marks::new(alloc);
    let mark = |_c: &Context<D>, m: &mut Marks, p: Ptr<Operation>| -> WalkResult<Memory>
        ensures { IsMarkedAt m.old p result m.new }
    { mark_at(m, p) };
    match walk_ops(
        ctx,
        &mut under,
        &WALKCONFIG_PREORDER_FORWARD,
        IRNode::Operation(root),
        mark,
    ) {
        ControlFlow::Continue(_) => Ok(under),
        ControlFlow::Break(refused) => Err(refused),
    }
}

// ---- what an operation needs

// Marks an operation, if it is one of those under the root.
fn put_under(under: &Marks, op: Ptr<Operation>, reached: &mut Marks) -> Result<(), Memory>
    requires { IsWhole under.now }
    ensures { OnOk result (IsGrown (λ q. (q ≡ op) × Has (ops_of under.now) q) reached.old reached.new) }
{
    if !under.contains(op) {
        return Ok(());
    }
    reached.put(op)?;
    Ok(())
}

// Marks the operation that a block stands in, if it is under the root.
fn put_block<D: EffectSet>(
    ctx: &Context<D>,
    under: &Marks,
    block: Ptr<BasicBlock>,
    reached: &mut Marks,
) -> Result<(), Memory>
    requires live { IsLive ctx.now (AnyNode.BasicBlock block) }
    requires whole { IsWhole under.now }
    ensures { OnOk result (IsGrown (λ q. IsBlockOf ctx.now q block × Has (ops_of under.now) q)
        reached.old reached.new) }
{
    match block.get_parent_op(ctx) {
        Some(op) => put_under(under, op, reached),
        None => Ok(()),
    }
}

// Marks the operation that a value comes from, if it is under the root.
fn put_value<D: EffectSet>(
    ctx: &Context<D>,
    under: &Marks,
    value: Value,
    reached: &mut Marks,
) -> Result<(), Memory>
    requires live { IsLive ctx.now (entity_node value.entity) }
    requires whole { IsWhole under.now }
    ensures { OnOk result (IsGrown (λ q. IsFrom ctx.now q value.entity × Has (ops_of under.now) q)
        reached.old reached.new) }
{
    match value.defining_entity() {
        DefiningEntity::Op(op) => put_under(under, op, reached),
        DefiningEntity::Block(block) => put_block(ctx, under, block, reached),
    }
}

// Marks the operations under the root that the operands of an operation come from.
fn put_operands<D: EffectSet>(
    ctx: &Context<D>,
    under: &Marks,
    op: Ptr<Operation>,
    reached: &mut Marks,
) -> Result<(), Memory>
    requires live { IsLive ctx.now (AnyNode.Operation op) }
    requires whole { IsWhole under.now }
    ensures { OnOk result (IsGrown (λ q. HasOperandFrom ctx.now op q × Has (ops_of under.now) q)
        reached.old reached.new) }
{
    for place in 0..op.get_num_operands(ctx) {
        put_value(ctx, under, op.get_operand(ctx, place), reached)?;
    }
    Ok(())
}

// Marks the operations under the root whose blocks are successors of an operation.
fn put_successors<D: EffectSet>(
    ctx: &Context<D>,
    under: &Marks,
    op: Ptr<Operation>,
    reached: &mut Marks,
) -> Result<(), Memory>
    requires live { IsLive ctx.now (AnyNode.Operation op) }
    requires whole { IsWhole under.now }
    ensures { OnOk result (IsGrown (λ q. HasSuccessorOf ctx.now op q × Has (ops_of under.now) q)
        reached.old reached.new) }
{
    for place in 0..op.get_num_successors(ctx) {
        put_block(ctx, under, op.get_successor(ctx, place), reached)?;
    }
    Ok(())
}

// Marks the operation that an operation stands in, if it is under the root.
fn put_over<D: EffectSet>(
    ctx: &Context<D>,
    under: &Marks,
    op: Ptr<Operation>,
    reached: &mut Marks,
) -> Result<(), Memory>
    requires live { IsLive ctx.now (AnyNode.Operation op) }
    requires whole { IsWhole under.now }
    ensures { OnOk result (IsGrown (λ q. StandsIn ctx.now q op × Has (ops_of under.now) q)
        reached.old reached.new) }
{
    match op.get_parent_op(ctx) {
        Some(over) => put_under(under, over, reached),
        None => Ok(()),
    }
}

// Marks a node that is an operation of a kind that ends a block.
fn put_end<D: EffectSet>(ctx: &Context<D>, node: IRNode, reached: &mut Marks) -> Result<(), Memory>
    requires { IsLive ctx.now node }
    ensures { OnOk result (IsGrown (IsEnd D.is_terminator ctx.now node) reached.old reached.new) }
{
    let IRNode::Operation(op) = node else {
        return Ok(());
    };
    if !kind_ends::<D>(op.kind(ctx)) {
        return Ok(());
    }
    reached.put(op)?;
    Ok(())
}

// Marks the operations of a block that are of a kind that ends a block.
fn put_ends_in<D: EffectSet>(
    ctx: &Context<D>,
    block: IRNode,
    reached: &mut Marks,
) -> Result<(), Memory>
    requires { IsLive ctx.now block }
    ensures { OnOk result (IsGrown (Through ctx.now (IsEnd D.is_terminator ctx.now) block) reached.old reached.new) }
{
    ctx.stands();
    first_child_is_front(ctx, block);
    let mut place: usize = 0;
    let mut at = block.first_child(ctx);
    'ops: while let Some(op) = at {
        child_at(ctx, block, op, place);
        put_end(ctx, op, reached)?;
        at = op.next_sibling(ctx);
        place += 1;
    }
    Ok(())
}

// The same of the blocks of a region.
fn put_ends_under<D: EffectSet>(
    ctx: &Context<D>,
    region: IRNode,
    reached: &mut Marks,
) -> Result<(), Memory>
    requires { IsLive ctx.now region }
    ensures { OnOk result (IsGrown (Through ctx.now (Through ctx.now (IsEnd D.is_terminator ctx.now)) region)
        reached.old reached.new) }
{
    ctx.stands();
    first_child_is_front(ctx, region);
    let mut place: usize = 0;
    let mut at = region.first_child(ctx);
    'parts: while let Some(block) = at {
        child_at(ctx, region, block, place);
        put_ends_in(ctx, block, reached)?;
        at = block.next_sibling(ctx);
        place += 1;
    }
    Ok(())
}

// Marks the operations that stand in an operation and are of a kind that ends a block.
fn put_ends<D: EffectSet>(
    ctx: &Context<D>,
    op: Ptr<Operation>,
    reached: &mut Marks,
) -> Result<(), Memory>
    requires { IsLive ctx.now (AnyNode.Operation op) }
    ensures { OnOk result (IsGrown (λ q. StandsIn ctx.now op q ×
        (is_kind (ends_block D.is_terminator) (kind_of ctx.now q) ≡ true)) reached.old reached.new) }
{
    ctx.stands();
    first_child_is_front(ctx, IRNode::Operation(op));
    let mut place: usize = 0;
    let mut at = IRNode::Operation(op).first_child(ctx);
    'regions: while let Some(region) = at {
        child_at(ctx, IRNode::Operation(op), region, place);
        put_ends_under(ctx, region, reached)?;
        at = region.next_sibling(ctx);
        place += 1;
    }
    Ok(())
}

// Marks what an operation under the root needs, of what is under the root.
fn put_needed<D: EffectSet>(
    ctx: &Context<D>,
    under: &Marks,
    op: Ptr<Operation>,
    reached: &mut Marks,
) -> Result<(), Memory>
    requires live { IsLive ctx.now (AnyNode.Operation op) }
    requires whole { IsWhole under.now }
    requires inner { (q : _) → StandsIn ctx.now op q → Has (ops_of under.now) q }
    ensures { OnOk result (IsGrown (λ q. Has (ops_of under.now) q × Needs D.is_terminator ctx.now op q)
        reached.old reached.new) }
{
    put_operands(ctx, under, op, reached)?;
    put_successors(ctx, under, op, reached)?;
    put_over(ctx, under, op, reached)?;
    put_ends(ctx, op, reached)?;
    Ok(())
}

// Marks an operation that does something besides its results.
fn put_acting<D: EffectSet>(
    ctx: &Context<D>,
    op: Ptr<Operation>,
    reached: &mut Marks,
) -> Result<(), Memory>
    requires { IsLive ctx.now (AnyNode.Operation op) }
    ensures { OnOk result (IsGrown (λ q. (q ≡ op) × (is_kind (acts D.has_effect) (kind_of ctx.now op) ≡ true))
        reached.old reached.new) }
{
    if !kind_acts::<D>(op.kind(ctx)) {
        return Ok(());
    }
    reached.put(op)?;
    Ok(())
}

// Marks those of some operations that do something besides their results.
fn put_all_acting<D: EffectSet>(
    ctx: &Context<D>,
    under: &Marks,
    reached: &mut Marks,
) -> Result<(), Memory>
    requires { (q : _) → Has (ops_of under.now) q → IsLive ctx.now (AnyNode.Operation q) }
    ensures { OnOk result (IsGrown (λ q. Has (ops_of under.now) q ×
        (is_kind (acts D.has_effect) (kind_of ctx.now q) ≡ true)) reached.old reached.new) }
{
    for place in 0..under.len() {
        put_acting(ctx, under.at(place), reached)?;
    }
    Ok(())
}

/// Those of the operations under a root that are reached. Each of them is looked at once.
pub(crate) fn reached_ops<D: EffectSet>(
    alloc: Global,
    ctx: &Context<D>,
    root: Ptr<Operation>,
    under: &Marks,
) -> Result<Marks, Memory>
    requires live { IsLive ctx.now (AnyNode.Operation root) }
    requires whole { IsWhole under.now }
    requires under { (q : _) → Has (ops_of under.now) q ↔ IsUnder ctx.now root q }
    ensures whole { IfOk result IsWhole }
    ensures reached { IfOk result (λ m. (q : _) → IsTrue (is_among (ops_of m) q) ↔
        IsReached D.has_effect D.is_terminator ctx.now root q) }
{
    ctx.stands();
    let mut reached = Marks::new(alloc);
    reached.put(root)?;
    put_all_acting(ctx, under, &mut reached)?;
    let mut next: usize = 0;
    'ops: while next < reached.len() {
        let op = reached.at(next);
        put_needed(ctx, under, op, &mut reached)?;
        next += 1;
    }
    Ok(reached)
}
