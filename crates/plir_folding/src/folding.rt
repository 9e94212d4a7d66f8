//! Constant folding.
ghost use Rattle.std.specs.Prelude.{◌≡◌, ◌<◌, false, true, [], Some, Err, OnErr, OnOk, IfOk, length};
ghost use Rattle.plir_data.specs.Types.{IsLive as IsTypeLive};
ghost use Rattle.plir_core.specs.declared.ptr.IRNode.{IRNode as AnyNode};
ghost use Rattle.plir_core.specs.Forest.{look, IsBelow};
ghost use Rattle.plir_core.specs.Changes.{SameLive};
ghost use Rattle.plir_core.specs.Made.{IsMade};
ghost use Rattle.plir_core.specs.ContextView.{IsLive, children, given_out, op_at, operands_of, parent_of};
ghost use Rattle.plir_core.specs.Room.{IsFullForOp};
ghost use Rattle.plir_core.specs.WellFormed.{IsWellFormed};
ghost use Rattle.plir_walk.specs.Lawful.{Lawful};
ghost use Rattle.plir_folding.specs.Worth.{AreSettled, IsSettled, IsUnfolded, integer_of};
ghost use Rattle.plir_folding.specs.Folded.{IsFolded, constant_view};
ghost use Rattle.plir_folding.specs.Folding.{AreChildrenSettled, IsFilledBefore, IsFoldedAt, IsFoldedBelow, IsToldBy};

use crate::fold_set::FoldSet;
use crate::reading::{folded, written_at};
use crate::worklist::{Step, list_below};
use plir_builtin::MaterializableAttr;
use plir_core::laws::{
    contexts_stand, first_child_is_front, index_is_slot_and_one, next_is_behind,
    op_edits_keep_the_rest,
};
use plir_core::{BasicBlock, Context, IRNode, NodeErr, Operation, Ptr};
use plir_data::{IntegerAttr, Location};
use plir_walk::WALKCONFIG_PREORDER_FORWARD;
use plir_walk::interruptible::mutable::walk_op;
use plir_walk::interruptible::{WalkResult, walk_advance, walk_break};
use plir_walk::laws::{before_is_a_total_order, lawful_changes};
use std::alloc::Global;
use std::ops::ControlFlow;

// A new constant of an integer, in no block, with a location.
fn new_constant<D: FoldSet>(
    alloc: Global,
    ctx: &mut Context<D>,
    integer: &IntegerAttr,
    location: Location,
) -> Result<Ptr<Operation>, NodeErr>
    requires { IsTypeLive ctx.old.types integer.now.ty }
    ensures made { IfOk result (λ p. IsMade ctx.old.nodes ctx.new.nodes (AnyNode.Operation p)) }
    ensures held { IfOk result (λ p. op_at ctx.new p ≡ Some (constant_view (integer_of integer.now) location)) }
    ensures leaf { IfOk result (λ p. children ctx.new (AnyNode.Operation p) ≡ []) }
    ensures types { ctx.new.types ≡ ctx.old.types }
    ensures given { (n : AnyNode) → given_out ctx.old n ≡ true → given_out ctx.new n ≡ true }
    ensures err { OnErr result (SameLive ctx.old ctx.new) }
    ensures crowded { result ≡ Err NodeErr.TooManyNodes → IsFullForOp ctx.new.nodes 0 }
    ensures whole { IsWellFormed D.attr_handles ctx.new }
{
    let constant = MaterializableAttr::<D>::materialize(integer, alloc, ctx)?;
    op_edits_keep_the_rest(ctx, constant);
    constant.set_loc(ctx, location);
    Ok(constant)
}

// Puts a new constant, with the location of what made the operand, in place of an operand of an operation in a block,
// if the operand folds. The flag is set where it did.
fn fold_operand<D: FoldSet>(
    alloc: Global,
    ctx: &mut Context<D>,
    block: Ptr<BasicBlock>,
    op: Ptr<Operation>,
    place: usize,
    before: bool,
) -> Result<bool, NodeErr>
    requires live { IsLive ctx.old (AnyNode.Operation op) }
    requires here { parent_of ctx.old (AnyNode.Operation op) ≡ Some (AnyNode.BasicBlock block) }
    requires below { place < length (operands_of ctx.old op) }
    ensures below { IsFoldedBelow D.fold D.attr_handles ctx.old (AnyNode.BasicBlock block) ctx.new }
    ensures told { IfOk result (λ changed. IsToldBy ctx.old before changed ctx.new
        (λ s. IsUnfolded D.fold s op place)) }
    ensures filled { IsFilledBefore ctx.old ctx.new block op }
    ensures crowded { result ≡ Err NodeErr.TooManyNodes → IsFullForOp ctx.new.nodes 0 }
{
    lawful_changes::<D>();
    ctx.stands();
    let value = op.get_operand(ctx, place);
    let Some(integer) = folded(ctx, value) else {
        return Ok(before);
    };
    let location = written_at(ctx, value);
    let constant = new_constant(alloc, ctx, &integer, location)?;
    constant.insert_before(ctx, op);
    op_edits_keep_the_rest(ctx, op);
    let result = constant.get_result(ctx, 0);
    op.replace_operand(ctx, place, result);
    Ok(true)
}

// Puts new constants in place of those operands of an operation in a block that fold. The flag is set where there were
// any.
fn fold_op<D: FoldSet>(
    alloc: Global,
    ctx: &mut Context<D>,
    block: Ptr<BasicBlock>,
    op: Ptr<Operation>,
    before: bool,
) -> Result<bool, NodeErr>
    requires live { IsLive ctx.old (AnyNode.Operation op) }
    requires here { parent_of ctx.old (AnyNode.Operation op) ≡ Some (AnyNode.BasicBlock block) }
    ensures below { IsFoldedBelow D.fold D.attr_handles ctx.old (AnyNode.BasicBlock block) ctx.new }
    ensures told { IfOk result (λ changed. IsToldBy ctx.old before changed ctx.new (λ s. IsSettled D.fold s op)) }
    ensures filled { IsFilledBefore ctx.old ctx.new block op }
    ensures crowded { result ≡ Err NodeErr.TooManyNodes → IsFullForOp ctx.new.nodes 0 }
{
    lawful_changes::<D>();
    ctx.stands();
    let mut changed = before;
    let count = op.get_num_operands(ctx);
    for place in 0..count {
        let told = fold_operand(alloc, ctx, block, op, place, changed)?;
        changed = told;
    }
    Ok(changed)
}

// Folds the operands of the operations of a block, the first one first. Those that come before a refusal are folded.
fn fold_block<D: FoldSet>(
    alloc: Global,
    ctx: &mut Context<D>,
    block: Ptr<BasicBlock>,
    before: bool,
) -> Result<bool, NodeErr>
    requires { IsLive ctx.old (AnyNode.BasicBlock block) }
    ensures below { IsFoldedBelow D.fold D.attr_handles ctx.old (AnyNode.BasicBlock block) ctx.new }
    ensures told { IfOk result (λ changed. IsToldBy ctx.old before changed ctx.new
        (λ s. AreChildrenSettled D.fold s (AnyNode.BasicBlock block))) }
    ensures crowded { result ≡ Err NodeErr.TooManyNodes → IsFullForOp ctx.new.nodes 0 }
{
    lawful_changes::<D>();
    ctx.stands();
    first_child_is_front(ctx, IRNode::BasicBlock(block));
    let mut changed = before;
    let mut at = block.get_head(ctx);
    'ops: while let Some(op) = at {
        next_is_behind(ctx, IRNode::Operation(op));
        at = op.get_next(ctx);
        let told = fold_op(alloc, ctx, block, op, changed)?;
        changed = told;
    }
    Ok(changed)
}

// What is done at each node: in a block operands are folded, elsewhere nothing is done. The flag is set where something
// was folded.
fn fold_below<D: FoldSet>(
    alloc: Global,
    ctx: &mut Context<D>,
    changed: &mut bool,
    node: IRNode,
) -> WalkResult<NodeErr>
    requires { IsLive ctx.old node }
    ensures { IsFoldedAt D.fold D.attr_handles ctx.old changed.old node result ctx.new changed.new }
{
    lawful_changes::<D>();
    ctx.stands();
    match node {
        IRNode::Operation(_) => walk_advance(),
        IRNode::Region(_) => walk_advance(),
        IRNode::BasicBlock(block) => match fold_block(alloc, ctx, block, *changed) {
            Ok(told) => {
                *changed = told;
                walk_advance()
            }
            Err(refusal) => walk_break(refusal),
        },
    }
}

// Folds the operands of all operations below an operation once. Answers whether there were any.
fn fold_round<D: FoldSet>(
    alloc: Global,
    ctx: &mut Context<D>,
    root: Ptr<Operation>,
) -> Result<bool, NodeErr>
    requires { IsLive ctx.old (AnyNode.Operation root) }
    ensures below { IsFoldedBelow D.fold D.attr_handles ctx.old (AnyNode.Operation root) ctx.new }
    ensures told { IfOk result (λ changed. IsToldBy ctx.old false changed ctx.new
        (λ s. AreSettled D.fold s (AnyNode.Operation root))) }
    ensures crowded { result ≡ Err NodeErr.TooManyNodes → IsFullForOp ctx.new.nodes 0 }
{
    lawful_changes::<D>();
    before_is_a_total_order();
    contexts_stand::<D>();
    ctx.stands();
    let mut changed = false;
    let fold_node = |ctx: &mut Context<D>, changed: &mut bool, node: IRNode| -> WalkResult<NodeErr>
        requires { IsLive ctx.old node }
        ensures { IsFoldedAt D.fold D.attr_handles ctx.old changed.old node result ctx.new changed.new }
    { fold_below(alloc, ctx, changed, node) };
    let config = WALKCONFIG_PREORDER_FORWARD;
    let end = walk_op(
        ctx,
        &mut changed,
        &config,
        root,
        u64::from(u32::MAX),
        fold_node,
    );
    ctx.stands();
    match end {
        Ok(ControlFlow::Continue(_)) => Ok(changed),
        Ok(ControlFlow::Break(refusal)) => Err(refusal),
        Err(_) => unreachable!(),
    }
}

// Folds the operands of an operation in the block that it stands in.
fn fold_there<D: FoldSet>(
    alloc: Global,
    ctx: &mut Context<D>,
    op: Ptr<Operation>,
) -> Result<(), NodeErr>
    requires { IsLive ctx.old (AnyNode.Operation op) }
    ensures below { (n : AnyNode) → IsLive ctx.old n → IsBelow (look ctx.old) n (AnyNode.Operation op) →
        IsFoldedBelow D.fold D.attr_handles ctx.old n ctx.new }
    ensures crowded { result ≡ Err NodeErr.TooManyNodes → IsFullForOp ctx.new.nodes 0 }
{
    lawful_changes::<D>();
    ctx.stands();
    if let Some(block) = op.get_parent_block(ctx) {
        fold_op(alloc, ctx, block, op, false)?;
    }
    Ok(())
}

// Folds the operands of the operations below an operation, those of each behind those of what makes its operands.
fn fold_makers_first<D: FoldSet>(
    alloc: Global,
    ctx: &mut Context<D>,
    root: Ptr<Operation>,
) -> Result<(), NodeErr>
    requires { IsLive ctx.old (AnyNode.Operation root) }
    ensures below { IsFoldedBelow D.fold D.attr_handles ctx.old (AnyNode.Operation root) ctx.new }
    ensures crowded { result ≡ Err NodeErr.TooManyNodes → IsFullForOp ctx.new.nodes 0 }
{
    lawful_changes::<D>();
    ctx.stands();
    let mut list = list_below(alloc, ctx, root)?;
    'steps: while let Some(step) = list.take() {
        match step {
            Step::Prepare(op) => list.prepare(ctx, op)?,
            Step::Fold(op) => fold_there(alloc, ctx, op)?,
        }
    }
    Ok(())
}

/// Folds constants below an operation until no operand there folds: where an operand is the result of an operation of
/// an own kind on two constants, and its kind says what it makes of them, a new constant of that is put right before
/// the operand's user and takes the operand's place. The constant has the location of the operation that was folded.
/// That operation stays; where nothing uses it any more, dead code elimination takes it. A look at an operation goes by
/// its operands alone, and in whatever order operations are laid out, there are three rounds over the tree at most: the
/// first folds all where each stands behind those that it uses, and a second one sees that; where that still folds
/// something, the operations are listed, each is folded behind those that make its operands, and a third round sees
/// that all is done. Answers whether any operand has become a constant.
///
/// # Errors
///
/// Where a constant was not made, or there is no memory to list operations: what was folded before stays.
/// `TooManyNodes` comes only where there is no room for one more constant in what is left.
pub fn fold_constants<D: FoldSet>(
    alloc: Global,
    ctx: &mut Context<D>,
    root: Ptr<Operation>,
) -> Result<bool, NodeErr>
    requires { IsLive ctx.old (AnyNode.Operation root) }
    ensures unchanged { IfOk result (λ any. any ≡ false → ctx.new ≡ ctx.old) }
    ensures settled { OnOk result (AreSettled D.fold ctx.new (AnyNode.Operation root)) }
    ensures folded { IsFolded D.fold ctx.old ctx.new }
    ensures lawful { Lawful (look ctx.old) (AnyNode.Operation root) (look ctx.new) }
    ensures crowded { result ≡ Err NodeErr.TooManyNodes → IsFullForOp ctx.new.nodes 0 }
    ensures whole { IsWellFormed D.attr_handles ctx.new }
{
    lawful_changes::<D>();
    ctx.stands();
    let found = fold_round(alloc, ctx, root)?;
    if !found {
        return Ok(false);
    }
    'rounds: loop {
        let changed = fold_round(alloc, ctx, root)?;
        index_is_slot_and_one(ctx);
        if !changed {
            return Ok(true);
        }
        fold_makers_first(alloc, ctx, root)?;
    }
}
