//! Whether an operation or a block can be read, whatever stands below it.
ghost use Rattle.std.specs.Prelude.{◌↔◌, IsTrue};
ghost use Rattle.plir_core.specs.declared.ptr.IRNode.{IRNode as AnyNode};
ghost use Rattle.plir_core.specs.ContextView.{IsLive, kind_of};
ghost use Rattle.plir_roundtrip.specs.Readable.{IsBodyReadable, IsConstantReadable, IsKindReadable};
ghost use Rattle.plir_roundtrip.specs.Readable.{IsOpReadable, IsBlockReadable};
ghost use Rattle.plir_roundtrip.specs.ReadableParts.{IsNodeReadable, IsValueWritable};

use crate::entries::{are_entries_readable, holds_only};
use crate::values::{are_values_readable, is_name_or_none};
use plir_attr_text::is_writable;
use plir_core::{BasicBlock, Context, DefiningEntity, IRNode, Operation, Ptr};
use plir_data::{OpKind, OpSet};
use plir_print::{find_value, has_header};

// What is asked of a module or a function.
fn is_body_readable<D: OpSet>(ctx: &Context<D>, op: Ptr<Operation>) -> bool
    requires { IsLive ctx.now (AnyNode.Operation op) }
    ensures { IsTrue result ↔ IsBodyReadable ctx.now op }
{
    if op.get_num_results(ctx) > 0 {
        return false;
    }
    if op.num_regions(ctx) != 1 {
        return false;
    }
    are_entries_readable(ctx, op.attributes(ctx))
}

// What is asked of the value of a constant, if there is one.
fn is_value_writable<D: OpSet>(ctx: &Context<D>, op: Ptr<Operation>) -> bool
    requires { IsLive ctx.now (AnyNode.Operation op) }
    ensures { IsTrue result ↔ IsValueWritable ctx.now op }
{
    match find_value(ctx, op) {
        Some(value) => is_writable(ctx, value),
        None => true,
    }
}

// What is asked of a constant.
fn is_constant_readable<D: OpSet>(ctx: &Context<D>, op: Ptr<Operation>) -> bool
    requires { IsLive ctx.now (AnyNode.Operation op) }
    ensures { IsTrue result ↔ IsConstantReadable ctx.now op }
{
    let is_writable = is_value_writable(ctx, op);
    let only = holds_only(op.attributes(ctx), true);
    op.num_regions(ctx) == 0 && is_writable && only
}

// What is asked of an operation of its kind.
fn is_kind_readable<D: OpSet>(ctx: &Context<D>, op: Ptr<Operation>) -> bool
    requires { IsLive ctx.now (AnyNode.Operation op) }
    ensures { IsTrue result ↔ IsKindReadable ctx.now (kind_of ctx.now op) op }
{
    match op.kind(ctx) {
        OpKind::Module => is_body_readable(ctx, op),
        OpKind::Func => is_body_readable(ctx, op),
        OpKind::Constant => is_constant_readable(ctx, op),
        OpKind::ForwardRef => false,
        OpKind::Own(_) => false,
    }
}

/// Whether an operation can be read.
pub(crate) fn is_op_readable<D: OpSet>(ctx: &Context<D>, op: Ptr<Operation>) -> bool
    requires { IsLive ctx.now (AnyNode.Operation op) }
    ensures { IsTrue result ↔ IsOpReadable ctx.now op }
{
    let of_kind = has_header(ctx, op) && is_kind_readable(ctx, op);
    let are_readable = are_values_readable(ctx, DefiningEntity::Op(op));
    let is_alone = op.get_num_operands(ctx) == 0 && op.get_num_successors(ctx) == 0;
    of_kind && are_readable && is_alone
}

/// Whether a block can be read.
pub(crate) fn is_block_readable<D: OpSet>(ctx: &Context<D>, block: Ptr<BasicBlock>) -> bool
    requires { IsLive ctx.now (AnyNode.BasicBlock block) }
    ensures { IsTrue result ↔ IsBlockReadable ctx.now block }
{
    let is_labelled = is_name_or_none(block.label(ctx));
    let are_readable = are_values_readable(ctx, DefiningEntity::Block(block));
    let only = holds_only(block.attributes(ctx), false);
    is_labelled && are_readable && only
}

/// Whether a node can be read, whatever stands below it. Nothing is asked of a region.
pub(crate) fn is_node_readable<D: OpSet>(ctx: &Context<D>, node: IRNode) -> bool
    requires { IsLive ctx.now node }
    ensures { IsTrue result ↔ IsNodeReadable ctx.now node }
{
    match node {
        IRNode::Operation(op) => is_op_readable(ctx, op),
        IRNode::Region(_) => true,
        IRNode::BasicBlock(block) => is_block_readable(ctx, block),
    }
}
