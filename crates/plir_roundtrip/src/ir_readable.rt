//! Whether an operation of any kind is read back from its text as the same tree.
ghost use Rattle.std.specs.Prelude.{◌≡◌, MatchOption};
ghost use Rattle.plir_core.specs.declared.ptr.IRNode.{IRNode as AnyNode};
ghost use Rattle.plir_core.specs.ContextView.{IsLive};
ghost use Rattle.plir_core.specs.WellFormed.{IsWellFormed};
ghost use Rattle.plir_roundtrip.specs.IrReadable.{AreIrReadable};
ghost use Rattle.plir_roundtrip.specs.IrReadableUses.{IsIrReadable};
ghost use Rattle.plir_roundtrip.specs.Obstacles.{IsFirstUnread, IsIrNodeReadable, IsNodeCounted, IsObstacle};
ghost use Rattle.plir_roundtrip.specs.ReadableParts.{IsLookAnswer};
ghost use Rattle.plir_roundtrip.specs.UsesWithin.{AreCounted};

use crate::obstacle::Obstacle;
use crate::op_levels::is_op_within;
use crate::own::{count, is_ir_node_readable, obstacle_at};
use crate::uses::find_far_use;
use plir_core::{Context, IRNode, Operation, Ptr};
use plir_read_own::ReadSet;
use plir_walk::WALKCONFIG_PREORDER_FORWARD;
use plir_walk::interruptible::immutable::walk_op;
use plir_walk::interruptible::{WalkResult, walk_advance, walk_break};
use std::ops::ControlFlow;

// Breaks a walk off at a node that cannot be read.
fn look_at_node<D: ReadSet>(ctx: &Context<D>, node: IRNode) -> WalkResult<IRNode>
    requires { IsLive ctx.now node }
    ensures { IsLookAnswer
        (IsIrNodeReadable D.OpSet D.find_kind ctx.now node × IsNodeCounted D.OpSet D.find_kind ctx.now node)
        (λ n. (n ≡ node) × (IsIrNodeReadable D.OpSet D.find_kind ctx.now n → ⊥)) result }
{
    let _few = count(ctx, node);
    if is_ir_node_readable(ctx, node) {
        walk_advance()
    } else {
        walk_break(node)
    }
}

// The first node at or under an operation that cannot be read, if there is one. The walk is a loop: no depth is too
// great for it.
fn find_unreadable<D: ReadSet>(ctx: &Context<D>, op: Ptr<Operation>) -> Option<IRNode>
    requires { IsLive ctx.now (AnyNode.Operation op) }
    ensures { MatchOption result
        (AreIrReadable D.OpSet D.find_kind ctx.now (AnyNode.Operation op) × AreCounted ctx.now (AnyNode.Operation op))
        (IsFirstUnread D.OpSet D.find_kind ctx.now op) }
{
    ctx.stands();
    let look = |ctx: &Context<D>, _state: &mut (), node: IRNode| -> WalkResult<IRNode>
        requires { IsLive ctx.now node }
        ensures { IsLookAnswer
            (IsIrNodeReadable D.OpSet D.find_kind ctx.now node × IsNodeCounted D.OpSet D.find_kind ctx.now node)
            (λ n. (n ≡ node) × (IsIrNodeReadable D.OpSet D.find_kind ctx.now n → ⊥)) result }
    { look_at_node(ctx, node) };
    match walk_op(ctx, &mut (), &WALKCONFIG_PREORDER_FORWARD, op, look) {
        ControlFlow::Break(node) => Some(node),
        ControlFlow::Continue(_) => None,
    }
}

/// What stands against reading an operation of any kind back from its text as the same tree; none, where nothing does:
/// then what the law of the round trip asks of the operation holds.
///
/// What is told is what stands against it first. Looked at are the nodes at and under the operation, in the order of a
/// walk; then the levels of the text; then what each operation uses, in the order of the walk: its operands, and its
/// successors, from 0. Takes no memory, and calls itself no deeper than 200 levels; where an operand can be named is
/// found by a climb, which has at most 600 steps in the tree.
pub fn ir_obstacle<D: ReadSet>(ctx: &Context<D>, op: Ptr<Operation>) -> Option<Obstacle>
    requires live { IsLive ctx.now (AnyNode.Operation op) }
    ensures value { MatchOption result (IsIrReadable D.OpSet D.find_kind D.is_isolated ctx.now op)
        (IsObstacle D.OpSet D.find_kind ctx.now op D.is_isolated) }
    ensures whole { IsWellFormed D.attr_handles ctx.now }
{
    ctx.stands();
    if let Some(node) = find_unreadable(ctx, op) {
        return Some(obstacle_at(ctx, node));
    }
    if !is_op_within(ctx, op, 200) {
        return Some(Obstacle::Levels);
    }
    find_far_use(ctx, op)
}
