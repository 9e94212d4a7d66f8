//! A list of the operations of a tree, with their places in the text.
ghost use Rattle.std.specs.Prelude.{◌≡◌, ◌++◌, IfOk, OnOk, string_bytes};
ghost use Rattle.plir_core.specs.ContextView.{IsLive, location_of};
ghost use Rattle.plir_core.specs.declared.ptr.IRNode.{IRNode as AnyNode};
ghost use Rattle.plir_driver.specs.NodeLines.{AreNodesPut, IsNodePut};
ghost use Rattle.plir_driver.specs.OpLocations.{AreLocated, IsLocationLine, location_behind, op_line};

use plir_core::{Context, IRNode, Operation, Ptr};
use plir_data::{Location, OpSet};
use plir_pictures::put_node;
use plir_walk::WALKCONFIG_PREORDER_FORWARD;
use plir_walk::interruptible::immutable::walk_op;
use plir_walk::interruptible::{WalkResult, walk_advance, walk_break};
use std::alloc::{AllocError, Global};
use std::ops::ControlFlow;

// Puts a place in a text, if it is known, and where a call was written in place of which a copy stands.
fn put_location(text: &mut String, location: Location) -> Result<(), AllocError>
    ensures { OnOk result (string_bytes text.new ≡ string_bytes text.old ++ location_behind location) }
{
    match location {
        Location::SrcPos { line, column } => write!(text, " at {line}:{column}"),
        Location::CallSite {
            line,
            column,
            call_line,
            call_column,
        } => write!(
            text,
            " at {line}:{column} called at {call_line}:{call_column}"
        ),
        Location::Unknown => Ok(()),
    }
}

// Puts the line of an operation.
fn put_op_line<D: OpSet>(
    text: &mut String,
    ctx: &Context<D>,
    op: Ptr<Operation>,
) -> Result<(), AllocError>
    requires { IsLive ctx.now (AnyNode.Operation op) }
    ensures { OnOk result (string_bytes text.new ≡ string_bytes text.old ++ op_line D.kind_id ctx.now op) }
{
    put_node(text, ctx, IRNode::Operation(op))?;
    put_location(text, op.loc(ctx))?;
    text.push_str("\n")
}

// Puts the line of an operation, or breaks the walk off for want of memory; of another node nothing is put.
fn put_line_at<D: OpSet>(
    ctx: &Context<D>,
    text: &mut String,
    node: IRNode,
) -> WalkResult<AllocError>
    requires { IsLive ctx.now node }
    ensures { IsNodePut (IsLocationLine D.kind_id ctx.now) (string_bytes text.old) node result
        (string_bytes text.new) }
{
    match node {
        IRNode::Operation(op) => match put_op_line(text, ctx, op) {
            Ok(()) => walk_advance(),
            Err(error) => walk_break(error),
        },
        IRNode::Region(_) | IRNode::BasicBlock(_) => walk_advance(),
    }
}

// Puts the line of each operation of a tree.
fn put_lines<D: OpSet>(
    text: &mut String,
    ctx: &Context<D>,
    root: Ptr<Operation>,
) -> Result<(), AllocError>
    requires { IsLive ctx.now (AnyNode.Operation root) }
    ensures { OnOk result (AreNodesPut ctx.now root (IsLocationLine D.kind_id ctx.now) (string_bytes text.old)
        (string_bytes text.new)) }
{
    ctx.stands();
    let put = |c: &Context<D>, t: &mut String, n: IRNode| -> WalkResult<AllocError>
        requires { IsLive c.now n }
        ensures { IsNodePut (IsLocationLine D.kind_id c.now) (string_bytes t.old) n result (string_bytes t.new) }
    { put_line_at(c, t, n) };
    let config = WALKCONFIG_PREORDER_FORWARD;
    match walk_op(ctx, text, &config, root, put) {
        ControlFlow::Break(error) => Err(error),
        ControlFlow::Continue(_) => Ok(()),
    }
}

/// A line for each operation at or under an operation, parents first: its name, and its place in the text that it was
/// read from, if that is known, as ` at 3:5`; where it stands in place of a call, that call's too, as
/// ` at 3:5 called at 9:5`.
pub fn list_locations<D: OpSet>(
    alloc: Global,
    ctx: &Context<D>,
    root: Ptr<Operation>,
) -> Result<String, AllocError>
    requires { IsLive ctx.now (AnyNode.Operation root) }
    ensures { IfOk result (λ t. AreLocated D.kind_id ctx.now root (string_bytes t)) }
{
    let mut lines = String::new(alloc);
    put_lines(&mut lines, ctx, root)?;
    Ok(lines)
}
