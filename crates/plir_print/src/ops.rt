//! From an operation with all below it to its text, by one loop over links.
ghost use Rattle.std.specs.Prelude.{◌≡◌, ◌++◌, ◌^◌, ◌<◌, ℕ, IfOk, List, OnOk, Some, false, string_bytes, true};
ghost use Rattle.plir_core.specs.declared.ptr.IRNode.{IRNode as AnyNode};
ghost use Rattle.plir_core.specs.ContextView.{IsLive};
ghost use Rattle.plir_core.specs.WellFormed.{IsWellFormed};
ghost use Rattle.plir_data.specs.TextParts.{Puts};
ghost use Rattle.plir_print.specs.HeaderAttrs.{IsPrintable};
ghost use Rattle.plir_print.specs.OpText.{op_text};
ghost use Rattle.plir_print.specs.Steps.{Steps, closing, inner, lead, opening, outer};

use crate::children::{next_of, stands};
use crate::fronts::{put_block_front, put_op_front};
use crate::layout::put_line;
use plir_core::laws::next_is_behind;
use plir_core::{Context, IRNode, Operation, Ptr};
use plir_data::put::{put, put_between};
use plir_data::{Memory, OpSet};
use plir_walk::NodeLinks;
use std::alloc::Global;

// How far in the children of a node stand that stands as far in as `indent`.
fn inner_indent(indent: usize, node: IRNode) -> usize
    requires { indent < 2 ^ 40 }
    ensures { result ≡ inner indent node }
{
    match node {
        IRNode::Operation(_) => indent,
        IRNode::Region(_) => indent + 2,
        IRNode::BasicBlock(_) => indent + 2,
    }
}

// How far in a node stands whose children stand as far in as `indent`.
fn outer_indent(indent: usize, node: IRNode) -> usize
    ensures { result ≡ outer indent node }
{
    match node {
        IRNode::Operation(_) => indent,
        IRNode::Region(_) => indent.saturating_sub(2),
        IRNode::BasicBlock(_) => indent.saturating_sub(2),
    }
}

// Puts what stands before the children of a node.
fn put_opening<D: OpSet>(
    out: &mut String,
    alloc: Global,
    ctx: &Context<D>,
    indent: usize,
    node: IRNode,
) -> Result<(), Memory>
    requires live { IsLive ctx.now node }
    requires printable { IsPrintable ctx.now node }
    requires fits { indent < 2 ^ 40 }
    ensures { OnOk result (Puts out.old out.new (opening D.OpSet ctx.now indent node)) }
{
    match node {
        IRNode::Operation(op) => put_op_front(out, alloc, ctx, indent, op),
        IRNode::Region(_) => {
            put_line(out, indent)?;
            put(out, "{")
        }
        IRNode::BasicBlock(block) => put_block_front(out, alloc, ctx, block),
    }
}

// Puts what stands behind the children of a node.
fn put_closing(out: &mut String, indent: usize, node: IRNode) -> Result<(), Memory>
    ensures { OnOk result (Puts out.old out.new (closing indent node)) }
{
    match node {
        IRNode::Operation(_) => Ok(()),
        IRNode::Region(_) => {
            put_line(out, indent)?;
            put(out, "}")
        }
        IRNode::BasicBlock(_) => Ok(()),
    }
}

// Puts what stands before a child of a node: a new line before a block and an operation, and before the line a
// semicolon, where other operations stand first.
fn put_lead(out: &mut String, is_first: bool, indent: usize, over: IRNode) -> Result<(), Memory>
    ensures { OnOk result (Puts out.old out.new (lead is_first indent over)) }
{
    match over {
        IRNode::Operation(_) => Ok(()),
        IRNode::Region(_) => put_line(out, indent),
        IRNode::BasicBlock(_) => {
            put_between(out, is_first, ";")?;
            put_line(out, indent)
        }
    }
}

// Puts what stands before the children of a node, and goes on to the first of them, or to the node's end.
fn enter<D: OpSet>(
    out: &mut String,
    alloc: Global,
    ctx: &Context<D>,
    node: IRNode,
    indent: usize,
) -> Result<(IRNode, bool, usize), Memory>
    requires live { IsLive ctx.now node }
    requires printable { IsPrintable ctx.now node }
    requires fits { indent < 2 ^ 40 }
    ensures { IfOk result (λ c. (root : AnyNode) → Steps D.OpSet ctx.now root (string_bytes out.old)
        (node, true, indent) (string_bytes out.new) (Some c)) }
{
    stands(ctx);
    put_opening(out, alloc, ctx, indent, node)?;
    match ctx.first_child(node) {
        Some(child) => {
            let within = inner_indent(indent, node);
            put_lead(out, true, within, node)?;
            Ok((child, true, within))
        }
        None => Ok((node, false, indent)),
    }
}

// Goes on from a node that is left and is not the root, behind whose children all is put: to the next node under the
// same one, or to the end of that.
fn go_on<D: OpSet>(
    out: &mut String,
    ctx: &Context<D>,
    node: IRNode,
    indent: usize,
) -> Result<Option<(IRNode, bool, usize)>, Memory>
    requires live { IsLive ctx.now node }
    ensures { IfOk result (λ r. (root : AnyNode) (old : List ℕ) → (node ≡ root → ⊥) → string_bytes out.old ≡ old ++
        closing indent node → Steps D.OpSet ctx.now root old (node, false, indent) (string_bytes out.new) r) }
{
    stands(ctx);
    next_is_behind(ctx, node);
    let Some(over) = ctx.parent(node) else {
        return Ok(None);
    };
    match next_of(ctx, node) {
        Some(next) => {
            put_lead(out, false, indent, over)?;
            Ok(Some((next, true, indent)))
        }
        None => Ok(Some((over, false, outer_indent(indent, over)))),
    }
}

// Puts what stands behind the children of a node, and goes on from there. None, if the root is left.
fn leave<D: OpSet>(
    out: &mut String,
    ctx: &Context<D>,
    root: IRNode,
    node: IRNode,
    indent: usize,
) -> Result<Option<(IRNode, bool, usize)>, Memory>
    requires live { IsLive ctx.now node }
    ensures { IfOk result (Steps D.OpSet ctx.now root (string_bytes out.old) (node, false, indent)
        (string_bytes out.new)) }
{
    stands(ctx);
    put_closing(out, indent, node)?;
    if node == root {
        Ok(None)
    } else {
        go_on(out, ctx, node, indent)
    }
}

// Puts what stands at a cursor, and goes on from there.
fn step<D: OpSet>(
    out: &mut String,
    alloc: Global,
    ctx: &Context<D>,
    root: IRNode,
    at: (IRNode, bool, usize),
) -> Result<Option<(IRNode, bool, usize)>, Memory>
    requires live { IsLive ctx.now at.0 }
    requires printable { IsPrintable ctx.now at.0 }
    requires fits { at.2 < 2 ^ 40 }
    ensures { IfOk result (Steps D.OpSet ctx.now root (string_bytes out.old) at (string_bytes out.new)) }
{
    let (node, entering, indent) = at;
    if entering {
        Ok(Some(enter(out, alloc, ctx, node, indent)?))
    } else {
        leave(out, ctx, root, node, indent)
    }
}

// Puts the text of an operation with all below it, by one loop over the links: it stops as the operation is left.
fn put_op<D: OpSet>(
    out: &mut String,
    alloc: Global,
    ctx: &Context<D>,
    op: Ptr<Operation>,
) -> Result<(), Memory>
    requires live { IsLive ctx.now (AnyNode.Operation op) }
    requires printable { IsPrintable ctx.now (AnyNode.Operation op) }
    ensures { OnOk result (Puts out.old out.new (op_text D.OpSet ctx.now op)) }
{
    stands(ctx);
    let root = IRNode::Operation(op);
    let mut at = (root, true, 0usize);
    'steps: loop {
        match step(out, alloc, ctx, root, at)? {
            Some(next) => at = next,
            None => return Ok(()),
        }
    }
}

/// The text of an operation with all below it: its results, its header, its attributes and its regions, and what stands
/// in something else two columns further in. What it takes is linear in the text.
pub fn print_op<D: OpSet>(
    alloc: Global,
    ctx: &Context<D>,
    op: Ptr<Operation>,
) -> Result<String, Memory>
    requires live { IsLive ctx.now (AnyNode.Operation op) }
    requires printable { IsPrintable ctx.now (AnyNode.Operation op) }
    ensures text { IfOk result (λ s. string_bytes s ≡ op_text D.OpSet ctx.now op) }
    ensures whole { IsWellFormed D.attr_handles ctx.now }
{
    ctx.stands();
    let mut out = String::new(alloc);
    put_op(&mut out, alloc, ctx, op)?;
    Ok(out)
}
