//! The operations of a tree, listed by a walk.
ghost use Rattle.std.specs.Prelude.{◌≡◌, IfOk, true};
ghost use Rattle.plir_core.specs.declared.ptr.IRNode.{IRNode as AnyNode};
ghost use Rattle.plir_core.specs.ContextView.{IsLive};
ghost use Rattle.plir_inliner.specs.Listed.{AreListed};
ghost use Rattle.plir_inliner.specs.Listing.{IsOpPut};
ghost use Rattle.plir_inliner.specs.Meaning.{calls_by_name};

use crate::meaning::calls_by_name;
use plir_core::{BasicBlock, Context, IRNode, Operation, Ptr};
use plir_data::{Memory, OpSet};
use plir_flow_sets::CallSet;
use plir_walk::WALKCONFIG_PREORDER_FORWARD;
use plir_walk::interruptible::{WalkResult, walk_advance, walk_break};
use plir_walk::operations::immutable::walk_ops;
use std::alloc::Global;
use std::ops::ControlFlow;

// Adds an operation, or breaks the walk off for want of memory.
fn put_op(ops: &mut Vec<Ptr<Operation>>, op: Ptr<Operation>) -> WalkResult<Memory>
    ensures { IsOpPut (λ p. true) ops.old.items op result ops.new.items }
{
    match ops.push(op) {
        Ok(()) => walk_advance(),
        Err(refused) => walk_break(Memory::from(refused)),
    }
}

// Adds an operation, if it calls a function by its name, or breaks the walk off for want of memory.
fn put_call<D: CallSet>(
    ctx: &Context<D>,
    calls: &mut Vec<Ptr<Operation>>,
    op: Ptr<Operation>,
) -> WalkResult<Memory>
    requires { IsLive ctx.now (AnyNode.Operation op) }
    ensures { IsOpPut (calls_by_name D.call ctx.now) calls.old.items op result calls.new.items }
{
    if calls_by_name(ctx, op) {
        put_op(calls, op)
    } else {
        walk_advance()
    }
}

/// The operations below a block, each once, in the order of their places, found by one walk.
pub(crate) fn ops_below<D: OpSet>(
    alloc: Global,
    ctx: &Context<D>,
    block: Ptr<BasicBlock>,
) -> Result<Vec<Ptr<Operation>>, Memory>
    requires { IsLive ctx.now (AnyNode.BasicBlock block) }
    ensures { IfOk result (λ ops. AreListed ctx.now (λ p. true) (AnyNode.BasicBlock block) ops.items) }
{
    ctx.stands();
    let mut ops = Vec::new(alloc);
    let put = |_c: &Context<D>, u: &mut Vec<Ptr<Operation>>, p: Ptr<Operation>| -> WalkResult<
        Memory,
    >
        ensures { IsOpPut (λ q. true) u.old.items p result u.new.items }
    { put_op(u, p) };
    match walk_ops(
        ctx,
        &mut ops,
        &WALKCONFIG_PREORDER_FORWARD,
        IRNode::BasicBlock(block),
        put,
    ) {
        ControlFlow::Continue(_) => Ok(ops),
        ControlFlow::Break(refused) => Err(refused),
    }
}

/// The operations at or below a root that call a function by its name, each once, in the order of their places, found
/// by one walk.
pub(crate) fn calls_below<D: CallSet>(
    alloc: Global,
    ctx: &Context<D>,
    root: Ptr<Operation>,
) -> Result<Vec<Ptr<Operation>>, Memory>
    requires { IsLive ctx.now (AnyNode.Operation root) }
    ensures { IfOk result (λ calls. AreListed ctx.now (calls_by_name D.call ctx.now) (AnyNode.Operation root)
        calls.items) }
{
    ctx.stands();
    let mut calls = Vec::new(alloc);
    let put = |c: &Context<D>, u: &mut Vec<Ptr<Operation>>, p: Ptr<Operation>| -> WalkResult<Memory>
        requires { IsLive c.now (AnyNode.Operation p) }
        ensures { IsOpPut (calls_by_name D.call c.now) u.old.items p result u.new.items }
    { put_call(c, u, p) };
    match walk_ops(
        ctx,
        &mut calls,
        &WALKCONFIG_PREORDER_FORWARD,
        IRNode::Operation(root),
        put,
    ) {
        ControlFlow::Continue(_) => Ok(calls),
        ControlFlow::Break(refused) => Err(refused),
    }
}
