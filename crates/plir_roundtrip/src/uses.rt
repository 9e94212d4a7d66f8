//! The first use of a tree that means nothing in its text.
ghost use Rattle.std.specs.Prelude.{MatchOption};
ghost use Rattle.plir_core.specs.declared.ptr.IRNode.{IRNode as AnyNode};
ghost use Rattle.plir_core.specs.ContextView.{IsLive, children};
ghost use Rattle.plir_walk.specs.Tree.{IsUnder};
ghost use Rattle.plir_roundtrip.specs.Obstacles.{IsFarAt, IsFarUse, IsUsing};
ghost use Rattle.plir_roundtrip.specs.ReadableParts.{IsLookAnswer};
ghost use Rattle.plir_roundtrip.specs.UsesWithin.{UsesWithin};

use crate::obstacle::Obstacle;
use crate::reach::{far_operand, far_successor};
use plir_core::{Context, IRNode, Operation, Ptr};
use plir_read_own::ReadSet;
use plir_walk::WALKCONFIG_PREORDER_FORWARD;
use plir_walk::interruptible::immutable::walk_op;
use plir_walk::interruptible::{WalkResult, walk_advance, walk_break};
use std::ops::ControlFlow;

// The first use of an operation of a tree that it cannot name, if there is one.
fn find_far<D: ReadSet>(
    ctx: &Context<D>,
    root: Ptr<Operation>,
    op: Ptr<Operation>,
) -> Option<Obstacle>
    requires live { IsLive ctx.now (AnyNode.Operation op) }
    requires under { IsUnder (children ctx.now) (AnyNode.Operation root) (AnyNode.Operation op) }
    ensures { MatchOption result (IsUsing D.is_isolated ctx.now (AnyNode.Operation root) (AnyNode.Operation op))
        (IsFarAt D.is_isolated ctx.now (AnyNode.Operation root) (AnyNode.Operation op)) }
{
    if let Some(place) = far_operand(ctx, root, op) {
        return Some(Obstacle::Operand(op, place));
    }
    match far_successor(ctx, root, op) {
        Some(place) => Some(Obstacle::Successor(op, place)),
        None => None,
    }
}

// Breaks a walk off at an operation of the tree that uses what it cannot name.
fn look_at_uses<D: ReadSet>(
    ctx: &Context<D>,
    root: Ptr<Operation>,
    node: IRNode,
) -> WalkResult<Obstacle>
    requires live { IsLive ctx.now node }
    requires under { IsUnder (children ctx.now) (AnyNode.Operation root) node }
    ensures { IsLookAnswer (IsUsing D.is_isolated ctx.now (AnyNode.Operation root) node)
        (IsFarAt D.is_isolated ctx.now (AnyNode.Operation root) node) result }
{
    let IRNode::Operation(op) = node else {
        return walk_advance();
    };
    match find_far(ctx, root, op) {
        Some(obstacle) => walk_break(obstacle),
        None => walk_advance(),
    }
}

/// The first use at or under an operation that means nothing in its text, if there is one. The walk is a loop: no depth
/// is too great for it.
pub(crate) fn find_far_use<D: ReadSet>(ctx: &Context<D>, op: Ptr<Operation>) -> Option<Obstacle>
    requires { IsLive ctx.now (AnyNode.Operation op) }
    ensures { MatchOption result (UsesWithin D.is_isolated ctx.now (AnyNode.Operation op))
        (IsFarUse D.is_isolated ctx.now (AnyNode.Operation op)) }
{
    ctx.stands();
    let look = |ctx: &Context<D>, _state: &mut (), node: IRNode| -> WalkResult<Obstacle>
        requires live { IsLive ctx.now node }
        requires under { IsUnder (children ctx.now) (AnyNode.Operation op) node }
        ensures { IsLookAnswer (IsUsing D.is_isolated ctx.now (AnyNode.Operation op) node)
            (IsFarAt D.is_isolated ctx.now (AnyNode.Operation op) node) result }
    { look_at_uses(ctx, op, node) };
    match walk_op(ctx, &mut (), &WALKCONFIG_PREORDER_FORWARD, op, look) {
        ControlFlow::Break(obstacle) => Some(obstacle),
        ControlFlow::Continue(_) => None,
    }
}
