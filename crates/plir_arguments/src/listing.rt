//! The blocks of a tree, listed by a walk.
ghost use Rattle.std.specs.Prelude.{IfOk};
ghost use Rattle.plir_core.specs.declared.ptr.IRNode.{IRNode as AnyNode};
ghost use Rattle.plir_core.specs.ContextView.{IsLive};
ghost use Rattle.plir_arguments.specs.Listed.{AreBlocksBelow, IsNodePut};

use plir_core::{BasicBlock, Context, IRNode, Operation, Ptr};
use plir_data::{Memory, OpSet};
use plir_walk::WALKCONFIG_PREORDER_FORWARD;
use plir_walk::interruptible::immutable::walk_op;
use plir_walk::interruptible::{WalkResult, walk_advance, walk_break};
use plir_walk::laws::before_is_a_total_order;
use std::alloc::Global;
use std::ops::ControlFlow;

// Adds a block, or breaks the walk off for want of memory.
fn put_block(blocks: &mut Vec<Ptr<BasicBlock>>, block: Ptr<BasicBlock>) -> WalkResult<Memory>
    ensures { IsNodePut blocks.old.items (AnyNode.BasicBlock block) result blocks.new.items }
{
    match blocks.push(block) {
        Ok(()) => walk_advance(),
        Err(refused) => walk_break(Memory::from(refused)),
    }
}

// Adds a node, if it is a block, or breaks the walk off for want of memory.
fn put_node(blocks: &mut Vec<Ptr<BasicBlock>>, node: IRNode) -> WalkResult<Memory>
    ensures { IsNodePut blocks.old.items node result blocks.new.items }
{
    match node {
        IRNode::BasicBlock(block) => put_block(blocks, block),
        IRNode::Operation(_) => walk_advance(),
        IRNode::Region(_) => walk_advance(),
    }
}

/// The blocks below an operation, each once, found by one walk.
pub(crate) fn blocks_below<D: OpSet>(
    alloc: Global,
    ctx: &Context<D>,
    root: Ptr<Operation>,
) -> Result<Vec<Ptr<BasicBlock>>, Memory>
    requires { IsLive ctx.now (AnyNode.Operation root) }
    ensures { IfOk result (λ blocks. AreBlocksBelow ctx.now root blocks.items) }
{
    ctx.stands();
    before_is_a_total_order();
    let mut blocks = Vec::new(alloc);
    let put = |_c: &Context<D>, u: &mut Vec<Ptr<BasicBlock>>, n: IRNode| -> WalkResult<Memory>
        ensures { IsNodePut u.old.items n result u.new.items }
    { put_node(u, n) };
    match walk_op(ctx, &mut blocks, &WALKCONFIG_PREORDER_FORWARD, root, put) {
        ControlFlow::Continue(_) => Ok(blocks),
        ControlFlow::Break(refused) => Err(refused),
    }
}
