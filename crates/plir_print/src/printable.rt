//! Whether an operation with all below it can be printed.
ghost use Rattle.std.specs.Prelude.{◌≡◌, ◌↔◌, IsTrue};
ghost use Rattle.plir_core.specs.declared.ptr.IRNode.{IRNode as AnyNode};
ghost use Rattle.plir_core.specs.ContextView.{IsLive};
ghost use Rattle.plir_core.specs.WellFormed.{IsWellFormed};
ghost use Rattle.plir_print.specs.HeaderAttrs.{IsPrintable};
ghost use Rattle.plir_print.specs.HeaderWalk.{header_answer};

use crate::header_attrs::has_header;
use plir_core::{Context, IRNode, Operation, Ptr};
use plir_data::OpSet;
use plir_walk::WALKCONFIG_PREORDER_FORWARD;
use plir_walk::interruptible::immutable::walk_op;
use plir_walk::interruptible::{WalkResult, walk_advance, walk_break};
use std::ops::ControlFlow;

// Breaks a walk off at an operation that lacks an attribute that its header shows.
fn look_at<D: OpSet>(ctx: &Context<D>, node: IRNode) -> WalkResult<()>
    requires { IsLive ctx.now node }
    ensures { result ≡ header_answer ctx.now node }
{
    match node {
        IRNode::Operation(op) => {
            if has_header(ctx, op) {
                walk_advance()
            } else {
                walk_break(())
            }
        }
        IRNode::Region(_) => walk_advance(),
        IRNode::BasicBlock(_) => walk_advance(),
    }
}

/// Whether each operation at or under an operation has the attributes that its header shows, as [`has_header`] says.
/// Takes no memory.
pub fn is_printable<D: OpSet>(ctx: &Context<D>, op: Ptr<Operation>) -> bool
    requires { IsLive ctx.now (AnyNode.Operation op) }
    ensures value { IsTrue result ↔ IsPrintable ctx.now (AnyNode.Operation op) }
    ensures whole { IsWellFormed D.attr_handles ctx.now }
{
    ctx.stands();
    let look = |ctx: &Context<D>, _state: &mut (), node: IRNode| -> WalkResult<()>
        requires { IsLive ctx.now node }
        ensures { result ≡ header_answer ctx.now node }
    { look_at(ctx, node) };
    match walk_op(ctx, &mut (), &WALKCONFIG_PREORDER_FORWARD, op, look) {
        ControlFlow::Break(()) => false,
        ControlFlow::Continue(_) => true,
    }
}
