//! Whether a call can be inlined.
ghost use Rattle.std.specs.Prelude.{◌≡◌, ◌↔◌, [], IsTrue};
ghost use Rattle.plir_core.specs.ContextView.{IsLive, children};
ghost use Rattle.plir_core.specs.declared.ptr.IRNode.{IRNode as AnyNode};
ghost use Rattle.plir_inline.specs.Inlined.{CanEnd, CanInline, CanStand};

use crate::branching::has_no_branch_back;
use crate::fitting::{fits, uses_none_of};
use plir_core::laws::last_child_is_back;
use plir_core::{BasicBlock, Context, DefiningEntity, IRNode, Operation, Ptr};
use plir_data::OpSet;

// Whether an operation has no regions.
fn is_leaf<D: OpSet>(ctx: &Context<D>, op: Ptr<Operation>) -> bool
    requires { IsLive ctx.now (AnyNode.Operation op) }
    ensures { IsTrue result ↔ (children ctx.now (AnyNode.Operation op) ≡ []) }
{
    op.num_regions(ctx) == 0
}

// Whether a call stands where a block can be inlined.
fn can_stand<D: OpSet>(ctx: &Context<D>, call: Ptr<Operation>, block: Ptr<BasicBlock>) -> bool
    ensures { IsTrue result ↔ CanStand ctx.now call block }
{
    if !call.is_live(ctx) || !block.is_live(ctx) {
        return false;
    }
    if call.get_parent_block(ctx).is_none() || !is_leaf(ctx, call) {
        return false;
    }
    if !uses_none_of(ctx, call, call) || !fits(ctx, call, DefiningEntity::Block(block)) {
        return false;
    }
    let root = IRNode::BasicBlock(block);
    !root.is_ancestor(ctx, IRNode::Operation(call)) && has_no_branch_back(ctx, block)
}

// Whether what the last operation of a block hands back can come in place of the results of a call.
fn can_end<D: OpSet>(ctx: &Context<D>, call: Ptr<Operation>, last: Ptr<Operation>) -> bool
    requires call_live { IsLive ctx.now (AnyNode.Operation call) }
    requires last_live { IsLive ctx.now (AnyNode.Operation last) }
    ensures { IsTrue result ↔ CanEnd ctx.now call last }
{
    if !is_leaf(ctx, last) || last.get_num_results(ctx) != 0 {
        return false;
    }
    fits(ctx, last, DefiningEntity::Op(call)) && uses_none_of(ctx, last, call)
}

/// Whether [`inline_block`](crate::inline_block) can put a copy of what stands in a block in place of a call: exactly
/// where its condition holds. This looks at all that stands below the block, and climbs from the call.
pub fn can_inline<D: OpSet>(ctx: &Context<D>, call: Ptr<Operation>, block: Ptr<BasicBlock>) -> bool
    ensures { IsTrue result ↔ CanInline ctx.now call block }
{
    ctx.stands();
    if !can_stand(ctx, call, block) {
        return false;
    }
    last_child_is_back(ctx, IRNode::BasicBlock(block));
    match block.get_tail(ctx) {
        Some(last) => can_end(ctx, call, last),
        None => false,
    }
}
