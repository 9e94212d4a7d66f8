//! Whether an operation below a block branches to the block.
ghost use Rattle.std.specs.Prelude.{◌≡◌, ◌↔◌, IsTrue};
ghost use Rattle.plir_core.specs.ContextView.{IsLive, successors_of};
ghost use Rattle.plir_core.specs.declared.ptr.IRNode.{IRNode as AnyNode};
ghost use Rattle.plir_inline.specs.Branches.{NoBranchBack, branch_answer, has_block};

use plir_core::{BasicBlock, Context, IRNode, Operation, Ptr};
use plir_data::OpSet;
use plir_walk::WALKCONFIG_PREORDER_FORWARD;
use plir_walk::interruptible::immutable::walk_block;
use plir_walk::interruptible::{WalkResult, walk_advance, walk_break};
use std::ops::ControlFlow;

// Whether an operation branches to a block.
fn branches_to<D: OpSet>(ctx: &Context<D>, op: Ptr<Operation>, block: Ptr<BasicBlock>) -> bool
    requires { IsLive ctx.now (AnyNode.Operation op) }
    ensures { result ≡ has_block (successors_of ctx.now op) block }
{
    for i in 0..op.get_num_successors(ctx) {
        if op.get_successor(ctx, i) == block {
            return true;
        }
    }
    false
}

// Breaks a walk off at an operation that branches to a block.
fn look_at<D: OpSet>(ctx: &Context<D>, node: IRNode, block: Ptr<BasicBlock>) -> WalkResult<()>
    requires { IsLive ctx.now node }
    ensures { result ≡ branch_answer block ctx.now node }
{
    match node {
        IRNode::Operation(op) => {
            if branches_to(ctx, op, block) {
                walk_break(())
            } else {
                walk_advance()
            }
        }
        IRNode::Region(_) => walk_advance(),
        IRNode::BasicBlock(_) => walk_advance(),
    }
}

/// Whether no operation below a block branches to the block.
pub(crate) fn has_no_branch_back<D: OpSet>(ctx: &Context<D>, block: Ptr<BasicBlock>) -> bool
    requires { IsLive ctx.now (AnyNode.BasicBlock block) }
    ensures { IsTrue result ↔ NoBranchBack ctx.now block }
{
    ctx.stands();
    let look = |ctx: &Context<D>, _state: &mut (), node: IRNode| -> WalkResult<()>
        requires { IsLive ctx.now node }
        ensures { result ≡ branch_answer block ctx.now node }
    { look_at(ctx, node, block) };
    match walk_block(ctx, &mut (), &WALKCONFIG_PREORDER_FORWARD, block, look) {
        ControlFlow::Break(()) => false,
        ControlFlow::Continue(_) => true,
    }
}
