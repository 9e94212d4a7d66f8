//! Whether an argument of a block can be dropped.
ghost use Rattle.std.specs.Prelude.{◌≡◌, ◌↔◌, ◌<◌, ℕ, IfOk, IsTrue, Some, length};
ghost use Rattle.plir_core.specs.ContextView.{IsLive, arg_types_of, first_child};
ghost use Rattle.plir_core.specs.declared.ptr.IRNode.{IRNode as AnyNode};
ghost use Rattle.plir_flow.specs.Branches.{num_successors};
ghost use Rattle.plir_arguments.specs.Dropped.{CanDrop, CanForwardLess, StandsBehind};
ghost use Rattle.plir_arguments.specs.Turned.{AreUses, GoesTo};

use crate::branch_edit_set::BranchEditSet;
use plir_core::{BasicBlock, Context, Operation, Ptr, Region, Use};
use plir_data::{Memory, OpSet};
use std::alloc::Global;

// Whether a block is the successor of an operation at a place that is not another one.
fn is_other<D: OpSet>(
    ctx: &Context<D>,
    op: Ptr<Operation>,
    i: usize,
    place: usize,
    block: Ptr<BasicBlock>,
) -> bool
    requires live { IsLive ctx.now (AnyNode.Operation op) }
    requires below { i < num_successors ctx.now op }
    ensures { IsTrue result ↔ ((i ≡ place → ⊥) × GoesTo ctx.now op i block) }
{
    if i == place {
        return false;
    }
    op.get_successor(ctx, i) == block
}

// Whether no successor of an operation is a block, but for the one at a place.
fn goes_once<D: OpSet>(
    ctx: &Context<D>,
    op: Ptr<Operation>,
    place: usize,
    block: Ptr<BasicBlock>,
) -> bool
    requires { IsLive ctx.now (AnyNode.Operation op) }
    ensures { IsTrue result ↔ ((j : ℕ) → GoesTo ctx.now op j block → j ≡ place) }
{
    for i in 0..op.get_num_successors(ctx) {
        if is_other(ctx, op, i, place, block) {
            return false;
        }
    }
    true
}

// Whether an operation can forward one value less to a block that is its successor at a place.
fn can_forward_less<D: BranchEditSet>(
    ctx: &Context<D>,
    op: Ptr<Operation>,
    place: usize,
    block: Ptr<BasicBlock>,
) -> bool
    requires live { IsLive ctx.now (AnyNode.Operation op) }
    requires block_live { IsLive ctx.now (AnyNode.BasicBlock block) }
    requires goes { GoesTo ctx.now op place block }
    ensures { IsTrue result ↔ CanForwardLess D.removes D.forwards ctx.now block op place }
{
    if !D::can_remove_forwarded(ctx, op, place) {
        return false;
    }
    let forwarded = D::num_forwarded(ctx, op, place);
    let wanted = block.get_num_arguments(ctx);
    if forwarded != wanted {
        return false;
    }
    goes_once(ctx, op, place, block)
}

// The same at a use of the block.
fn can_use_forward_less<D: BranchEditSet>(
    ctx: &Context<D>,
    used: Use<Ptr<BasicBlock>>,
    block: Ptr<BasicBlock>,
) -> bool
    requires live { IsLive ctx.now (AnyNode.Operation used.op) }
    requires block_live { IsLive ctx.now (AnyNode.BasicBlock block) }
    requires goes { GoesTo ctx.now used.op used.index block }
    ensures { IsTrue result ↔ CanForwardLess D.removes D.forwards ctx.now block used.op used.index }
{
    can_forward_less(ctx, used.branch_op(), used.succ_idx(), block)
}

// Whether each operation that branches to a block can forward one value less to it.
fn can_all_forward_less<D: BranchEditSet>(
    ctx: &Context<D>,
    uses: &[Use<Ptr<BasicBlock>>],
    block: Ptr<BasicBlock>,
) -> bool
    requires live { IsLive ctx.now (AnyNode.BasicBlock block) }
    requires uses { AreUses ctx.now block uses.now }
    ensures { IsTrue result ↔ ((p : _) (k : ℕ) → IsLive ctx.now (AnyNode.Operation p) → GoesTo ctx.now p k block →
        CanForwardLess D.removes D.forwards ctx.now block p k) }
{
    ctx.stands();
    for used in uses {
        if !can_use_forward_less(ctx, *used, block) {
            return false;
        }
    }
    true
}

// Whether a block is the first of a region.
fn is_first<D: OpSet>(ctx: &Context<D>, region: Ptr<Region>, block: Ptr<BasicBlock>) -> bool
    requires { IsLive ctx.now (AnyNode.Region region) }
    ensures { IsTrue result ↔ (first_child ctx.now (AnyNode.Region region) ≡ Some (AnyNode.BasicBlock block)) }
{
    match region.get_head(ctx) {
        Some(first) => first == block,
        None => false,
    }
}

// Whether a block stands in a region, and is not the first block there.
fn stands_behind<D: OpSet>(ctx: &Context<D>, block: Ptr<BasicBlock>) -> bool
    requires { IsLive ctx.now (AnyNode.BasicBlock block) }
    ensures { IsTrue result ↔ StandsBehind ctx.now block }
{
    match block.get_parent_region(ctx) {
        Some(region) => !is_first(ctx, region, block),
        None => false,
    }
}

/// Whether the argument of a block at a place, from 0, can be dropped: nothing uses it, the block is not the first of
/// its region, and each operation that branches to it forwards one value for each argument, of which the op set says
/// that one may be taken out, and has the block as one successor alone. It looks at the block's uses.
///
/// # Errors
///
/// Memory for the list of these uses was refused.
pub fn can_drop_argument<D: BranchEditSet>(
    alloc: Global,
    ctx: &Context<D>,
    block: Ptr<BasicBlock>,
    i: usize,
) -> Result<bool, Memory>
    requires live { IsLive ctx.now (AnyNode.BasicBlock block) }
    requires below { i < length (arg_types_of ctx.now block) }
    ensures { IfOk result (λ yes. IsTrue yes ↔ CanDrop D.removes D.forwards ctx.now block i) }
{
    if !stands_behind(ctx, block) {
        return Ok(false);
    }
    if block.get_argument(ctx, i).has_uses(ctx) {
        return Ok(false);
    }
    let uses = block.uses(alloc, ctx)?;
    Ok(can_all_forward_less(ctx, &uses, block))
}
