//! Boxes, with operations in rows.
ghost use Rattle.std.specs.Prelude.{◌≡◌, IfOk, OnOk, string_bytes};
ghost use Rattle.plir_core.specs.ContextView.{IsLive};
ghost use Rattle.plir_core.specs.declared.ptr.IRNode.{IRNode as AnyNode};
ghost use Rattle.plir_data.specs.TextParts.{Puts};
ghost use Rattle.plir_pictures.specs.Boxes.{block_box, box_front, op_box, row, row_at, row_words, rows};
ghost use Rattle.plir_pictures.specs.Boxes.{shows_text, title};

use crate::figure::stands;
use crate::fronts::front_of;
use crate::labels::put_label;
use crate::nodes::put_node;
use crate::seats::home;
use plir_core::laws::next_is_behind;
use plir_core::{BasicBlock, Context, IRNode, Operation, Ptr};
use plir_data::put::put;
use plir_data::{Memory, OpSet};
use plir_print::{has_header, print_op};
use plir_walk::NodeLinks;
use std::alloc::Global;
use std::fmt::Write;

// Whether the row of an operation shows its text: it has no regions, and what its text tells.
fn shows_text<D: OpSet>(ctx: &Context<D>, op: Ptr<Operation>) -> bool
    requires { IsLive ctx.now (AnyNode.Operation op) }
    ensures { result ≡ shows_text ctx.now op }
{
    ctx.first_child(IRNode::Operation(op)).is_none() && has_header(ctx, op)
}

// What the row of an operation shows: its text, or its name.
fn words_of<D: OpSet>(alloc: Global, ctx: &Context<D>, op: Ptr<Operation>) -> Result<String, Memory>
    requires { IsLive ctx.now (AnyNode.Operation op) }
    ensures { IfOk result (λ t. string_bytes t ≡ row_words D.OpSet ctx.now op) }
{
    if shows_text(ctx, op) {
        return print_op(alloc, ctx, op);
    }
    let mut name = String::new(alloc);
    put_node(&mut name, ctx, IRNode::Operation(op))?;
    Ok(name)
}

// Puts the row of an operation.
fn put_row<D: OpSet>(
    out: &mut String,
    alloc: Global,
    ctx: &Context<D>,
    op: Ptr<Operation>,
) -> Result<(), Memory>
    requires { IsLive ctx.now (AnyNode.Operation op) }
    ensures { OnOk result (Puts out.old out.new (row D.OpSet ctx.now op)) }
{
    let words = words_of(alloc, ctx, op)?;
    put(out, "    <tr><td port=\"")?;
    write!(out, "{op}")?;
    put(out, "\" align=\"left\" balign=\"left\">")?;
    put_label(out, words.as_str())?;
    put(out, "</td></tr>\n")?;
    Ok(())
}

// Puts the row of a node in a block, which is an operation.
fn put_row_at<D: OpSet>(
    out: &mut String,
    alloc: Global,
    ctx: &Context<D>,
    node: IRNode,
) -> Result<(), Memory>
    requires { IsLive ctx.now node }
    ensures { OnOk result (Puts out.old out.new (row_at D.OpSet ctx.now node)) }
{
    match node {
        IRNode::Operation(op) => put_row(out, alloc, ctx, op),
        IRNode::Region(_) => Ok(()),
        IRNode::BasicBlock(_) => Ok(()),
    }
}

// Puts the rows of the operations of a block.
fn put_rows<D: OpSet>(
    out: &mut String,
    alloc: Global,
    ctx: &Context<D>,
    block: Ptr<BasicBlock>,
) -> Result<(), Memory>
    requires { IsLive ctx.now (AnyNode.BasicBlock block) }
    ensures { OnOk result (Puts out.old out.new (rows D.OpSet ctx.now block)) }
{
    stands(ctx);
    let mut at = ctx.first_child(IRNode::BasicBlock(block));
    'rows: while let Some(node) = at {
        next_is_behind(ctx, node);
        put_row_at(out, alloc, ctx, node)?;
        at = node.next_sibling(ctx);
    }
    Ok(())
}

// Puts what stands at the head of a block's box.
fn put_title<D: OpSet>(
    out: &mut String,
    alloc: Global,
    ctx: &Context<D>,
    block: Ptr<BasicBlock>,
) -> Result<(), Memory>
    requires { IsLive ctx.now (AnyNode.BasicBlock block) }
    ensures { OnOk result (Puts out.old out.new (title D.OpSet ctx.now block)) }
{
    let front = front_of(alloc, ctx, block)?;
    put(
        out,
        "    <tr><td port=\"top\" align=\"left\" bgcolor=\"gray90\">",
    )?;
    put_label(out, front.as_str())?;
    put(out, "</td></tr>\n")?;
    Ok(())
}

// Puts what opens the box of a node.
fn put_box_front(out: &mut String, node: IRNode) -> Result<(), Memory>
    ensures { OnOk result (Puts out.old out.new (box_front node)) }
{
    write!(
        out,
        "  {node} [label=<<table border=\"0\" cellborder=\"1\" cellspacing=\"0\">\n"
    )?;
    Ok(())
}

/// Puts the box of a block: its head, and a row for each of its operations.
pub(crate) fn put_block_box<D: OpSet>(
    out: &mut String,
    alloc: Global,
    ctx: &Context<D>,
    block: Ptr<BasicBlock>,
) -> Result<(), Memory>
    requires { IsLive ctx.now (AnyNode.BasicBlock block) }
    ensures { OnOk result (Puts out.old out.new (block_box D.OpSet ctx.now block)) }
{
    put_box_front(out, IRNode::BasicBlock(block))?;
    put_title(out, alloc, ctx, block)?;
    put_rows(out, alloc, ctx, block)?;
    put(out, "  </table>>];\n")
}

/// Puts the box of an operation alone: where it stands in a block, this is the block's box, with its row alone.
pub(crate) fn put_op_box<D: OpSet>(
    out: &mut String,
    alloc: Global,
    ctx: &Context<D>,
    op: Ptr<Operation>,
) -> Result<(), Memory>
    requires { IsLive ctx.now (AnyNode.Operation op) }
    ensures { OnOk result (Puts out.old out.new (op_box D.OpSet ctx.now op)) }
{
    put_box_front(out, home(ctx, IRNode::Operation(op)))?;
    put_row(out, alloc, ctx, op)?;
    put(out, "  </table>>];\n")
}
