//! A line for each node.
ghost use Rattle.std.specs.Prelude.{◌≡◌, ◌++◌, ◌*◌, ℕ, IfOk, OnOk, string_bytes};
ghost use Rattle.plir_core.specs.ContextView.{IsLive};
ghost use Rattle.plir_core.specs.declared.ptr.IRNode.{IRNode as AnyNode};
ghost use Rattle.plir_driver.specs.Excerpt.{spaces};
ghost use Rattle.plir_driver.specs.NodeLines.{AreNodesPut, IsListLine, IsListed, IsNodePut, StandsBelow};

use plir_core::{Context, IRNode, Operation, Ptr};
use plir_data::OpSet;
use plir_pictures::put_node;
use plir_walk::WALKCONFIG_PREORDER_FORWARD;
use plir_walk::interruptible::immutable::walk_op;
use plir_walk::interruptible::{WalkResult, walk_advance, walk_break};
use std::alloc::{AllocError, Global};
use std::ops::ControlFlow;

// Puts two spaces for each node that stands above a node: as many as are put are looked at.
fn put_indent<D: OpSet>(text: &mut String, ctx: &Context<D>, node: IRNode) -> Result<(), AllocError>
    requires { IsLive ctx.now node }
    ensures { OnOk result ((k : ℕ) × StandsBelow ctx.now k node ×
        (string_bytes text.new ≡ string_bytes text.old ++ spaces (2 * k))) }
{
    ctx.stands();
    let mut at = node;
    'up: while let Some(over) = at.parent(ctx) {
        text.push_str("  ")?;
        at = over;
    }
    Ok(())
}

// Puts the line of a node.
fn put_line<D: OpSet>(text: &mut String, ctx: &Context<D>, node: IRNode) -> Result<(), AllocError>
    requires { IsLive ctx.now node }
    ensures { OnOk result ((here : _) × IsListLine D.kind_id ctx.now node here ×
        (string_bytes text.new ≡ string_bytes text.old ++ here)) }
{
    put_indent(text, ctx, node)?;
    put_node(text, ctx, node)?;
    text.push_str("\n")?;
    Ok(())
}

// Puts the line of a node, or breaks the walk off for want of memory.
fn put_line_at<D: OpSet>(
    ctx: &Context<D>,
    text: &mut String,
    node: IRNode,
) -> WalkResult<AllocError>
    requires { IsLive ctx.now node }
    ensures { IsNodePut (IsListLine D.kind_id ctx.now) (string_bytes text.old) node result (string_bytes text.new) }
{
    match put_line(text, ctx, node) {
        Ok(()) => walk_advance(),
        Err(error) => walk_break(error),
    }
}

// Puts the line of each node of a tree.
fn put_lines<D: OpSet>(
    text: &mut String,
    ctx: &Context<D>,
    root: Ptr<Operation>,
) -> Result<(), AllocError>
    requires { IsLive ctx.now (AnyNode.Operation root) }
    ensures { OnOk result (AreNodesPut ctx.now root (IsListLine D.kind_id ctx.now) (string_bytes text.old)
        (string_bytes text.new)) }
{
    ctx.stands();
    let put = |c: &Context<D>, t: &mut String, n: IRNode| -> WalkResult<AllocError>
        requires { IsLive c.now n }
        ensures { IsNodePut (IsListLine D.kind_id c.now) (string_bytes t.old) n result (string_bytes t.new) }
    { put_line_at(c, t, n) };
    let config = WALKCONFIG_PREORDER_FORWARD;
    match walk_op(ctx, text, &config, root, put) {
        ControlFlow::Break(error) => Err(error),
        ControlFlow::Continue(_) => Ok(()),
    }
}

/// A line for each node at or under an operation, parents first, each two columns further in for each node above it.
pub fn list_nodes<D: OpSet>(
    alloc: Global,
    ctx: &Context<D>,
    root: Ptr<Operation>,
) -> Result<String, AllocError>
    requires { IsLive ctx.now (AnyNode.Operation root) }
    ensures { IfOk result (λ t. IsListed D.kind_id ctx.now root (string_bytes t)) }
{
    let mut lines = String::new(alloc);
    put_lines(&mut lines, ctx, root)?;
    Ok(lines)
}
