//! Whether an operation can be read back from its text.
ghost use Rattle.std.specs.Prelude.{◌↔◌, IsTrue};
ghost use Rattle.plir_core.specs.declared.ptr.IRNode.{IRNode as AnyNode};
ghost use Rattle.plir_core.specs.ContextView.{IsLive};
ghost use Rattle.plir_core.specs.WellFormed.{IsWellFormed};
ghost use Rattle.plir_roundtrip.specs.Readable.{IsReadable};
ghost use Rattle.plir_roundtrip.specs.ReadableParts.{AllReadable, IsAnswerAt};

use crate::nodes::is_node_readable;
use crate::op_levels::is_op_within;
use plir_core::{Context, IRNode, Operation, Ptr};
use plir_data::OpSet;
use plir_walk::WALKCONFIG_PREORDER_FORWARD;
use plir_walk::interruptible::immutable::walk_op;
use plir_walk::interruptible::{WalkResult, walk_advance, walk_break};
use std::ops::ControlFlow;

// Breaks a walk off at a node that cannot be read.
fn look_at<D: OpSet>(ctx: &Context<D>, node: IRNode) -> WalkResult<()>
    requires { IsLive ctx.now node }
    ensures { IsAnswerAt ctx.now node result }
{
    if is_node_readable(ctx, node) {
        walk_advance()
    } else {
        walk_break(())
    }
}

// Whether each node at or under an operation can be read. The walk is a loop: no depth is too great for it.
fn are_all_readable<D: OpSet>(ctx: &Context<D>, op: Ptr<Operation>) -> bool
    requires { IsLive ctx.now (AnyNode.Operation op) }
    ensures { IsTrue result ↔ AllReadable ctx.now (AnyNode.Operation op) }
{
    ctx.stands();
    let look = |ctx: &Context<D>, _state: &mut (), node: IRNode| -> WalkResult<()>
        requires { IsLive ctx.now node }
        ensures { IsAnswerAt ctx.now node result }
    { look_at(ctx, node) };
    match walk_op(ctx, &mut (), &WALKCONFIG_PREORDER_FORWARD, op, look) {
        ControlFlow::Break(()) => false,
        ControlFlow::Continue(_) => true,
    }
}

/// Whether an operation can be read back from its text: what the law of the round trip asks of it.
///
/// So it is where each operation at or under it is a module, a function or a constant, with the attributes that its
/// header shows, no operands and no successors; a module or a function has no results, one region, and attributes that
/// can be written, names under their own key alone; a constant has no region, a value that can be written, and no other
/// attribute but the name of its result; a block has no attribute but the names of its arguments; results and arguments
/// have builtin types; and the text has at most 200 levels. Takes no memory, and calls itself no deeper than those
/// levels.
pub fn is_readable<D: OpSet>(ctx: &Context<D>, op: Ptr<Operation>) -> bool
    requires { IsLive ctx.now (AnyNode.Operation op) }
    ensures value { IsTrue result ↔ IsReadable D.OpSet ctx.now op }
    ensures whole { IsWellFormed D.attr_handles ctx.now }
{
    ctx.stands();
    if !are_all_readable(ctx, op) {
        return false;
    }
    is_op_within(ctx, op, 200)
}
