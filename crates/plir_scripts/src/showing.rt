//! What the getters answer of a node.
ghost use Rattle.std.specs.Prelude.{[]};
ghost use Rattle.plir_data.specs.AttrLive.{IsAttrLive};
ghost use Rattle.plir_data.specs.AttrSeen.{attr_view};
ghost use Rattle.plir_data.specs.Types.{IsLive as IsTypeLive};
ghost use Rattle.std.specs.Prelude.{IfSome};
ghost use Rattle.plir_core.specs.ContextView.{IsLive};
ghost use Rattle.plir_core.specs.declared.ptr.IRNode.{IRNode as AnyNode};

use crate::answer::Answer;
use crate::made::Made;
use plir_attr_text::print_attr;
use plir_core::{BasicBlock, Context, IRNode, Operation, Ptr, Region};
use plir_data::{AttrObj, AttributeDict, OpKind, OpSet, TypeHandle, type_text};
use std::alloc::Global;

/// Writes what the getters answer of a node: its parents, the nodes before and after it, and what it holds.
pub fn show<D: OpSet>(
    alloc: Global,
    ctx: &Context<D>,
    made: &Made,
    answer: &mut Answer,
    node: IRNode,
)
    requires { IsLive ctx.now node }
{
    match node {
        IRNode::Operation(op) => show_op(alloc, ctx, made, answer, op),
        IRNode::Region(region) => show_region(ctx, made, answer, region),
        IRNode::BasicBlock(block) => show_block(alloc, ctx, made, answer, block),
    }
}

// The kind and the location of an operation, its links, regions, operands, successors and results, and its attributes.
fn show_op<D: OpSet>(
    alloc: Global,
    ctx: &Context<D>,
    made: &Made,
    answer: &mut Answer,
    op: Ptr<Operation>,
)
    requires { IsLive ctx.now (AnyNode.Operation op) }
{
    answer.put(word_of::<D>(op.kind(ctx)));
    answer.put(" ");
    answer.put_debug(&op.loc(ctx));
    put_links(ctx, made, answer, op);
    put_regions(ctx, made, answer, op);
    put_operands(ctx, made, answer, op);
    put_successors(ctx, made, answer, op);
    answer.put(", results ");
    answer.put_number(op.get_num_results(ctx));
    put_attributes(alloc, ctx, answer, op.attributes(ctx));
}

// The name in an id.
fn name_in(id: &'static str) -> &'static str {
    match id.split_once('.') {
        Some((_, name)) => name,
        None => id,
    }
}

// The word for a kind.
fn word_of<D: OpSet>(kind: OpKind<D::Kind>) -> &'static str {
    match kind {
        OpKind::Module => "module",
        OpKind::Func => "func",
        OpKind::Constant => "constant",
        OpKind::ForwardRef => "forward_ref",
        OpKind::Own(own) => name_in(D::kind_id(own)),
    }
}

fn put_links<D: OpSet>(ctx: &Context<D>, made: &Made, answer: &mut Answer, op: Ptr<Operation>)
    requires { IsLive ctx.now (AnyNode.Operation op) }
{
    answer.put(", in");
    made.put_block(answer, op.get_parent_block(ctx));
    made.put_region(answer, op.get_parent_region(ctx));
    made.put_op(answer, op.get_parent_op(ctx));
    answer.put(", between");
    made.put_op(answer, op.get_prev(ctx));
    made.put_op(answer, op.get_next(ctx));
}

fn put_regions<D: OpSet>(ctx: &Context<D>, made: &Made, answer: &mut Answer, op: Ptr<Operation>)
    requires { IsLive ctx.now (AnyNode.Operation op) }
{
    answer.put(", regions");
    for place in 0..op.num_regions(ctx) {
        made.put_region(answer, Some(op.get_region(ctx, place)));
    }
    answer.put(", from");
    made.put_region(answer, op.first_region(ctx));
    answer.put(" to");
    made.put_region(answer, op.last_region(ctx));
}

fn put_operands<D: OpSet>(ctx: &Context<D>, made: &Made, answer: &mut Answer, op: Ptr<Operation>)
    requires { IsLive ctx.now (AnyNode.Operation op) }
{
    answer.put(", operands");
    for place in 0..op.get_num_operands(ctx) {
        made.put_value(answer, op.get_operand(ctx, place));
    }
}

fn put_successors<D: OpSet>(ctx: &Context<D>, made: &Made, answer: &mut Answer, op: Ptr<Operation>)
    requires { IsLive ctx.now (AnyNode.Operation op) }
{
    answer.put(", successors");
    for place in 0..op.get_num_successors(ctx) {
        made.put_block(answer, Some(op.get_successor(ctx, place)));
    }
}

fn put_attributes<D: OpSet>(
    alloc: Global,
    ctx: &Context<D>,
    answer: &mut Answer,
    attributes: &AttributeDict<D>,
) {
    if !attributes.is_empty() {
        answer.put(", attributes");
    }
    for (key, attr) in attributes.iter() {
        answer.put(" ");
        answer.put(key.as_str());
        answer.put(" = ");
        if attr.is_live(ctx) {
            put_attr(alloc, ctx, answer, attr);
        }
    }
}

/// Writes the text of an attribute.
pub fn put_attr<D: OpSet>(alloc: Global, ctx: &Context<D>, answer: &mut Answer, attr: &AttrObj<D>)
    requires { IsAttrLive D.attr_handles ctx.now.types (attr_view attr.now) }
{
    answer.put_made(print_attr(alloc, ctx, attr));
}

// The operation of a region and its place there, the regions beside it, and its blocks.
fn show_region<D: OpSet>(ctx: &Context<D>, made: &Made, answer: &mut Answer, region: Ptr<Region>)
    requires { IsLive ctx.now (AnyNode.Region region) }
{
    answer.put("in");
    made.put_op(answer, region.get_parent_op(ctx));
    answer.put(" at ");
    answer.put_number(region.find_index_in_parent(ctx));
    answer.put(", between");
    made.put_region(answer, region.get_prev(ctx));
    made.put_region(answer, region.get_next(ctx));
    answer.put(", blocks");
    put_row(
        ctx,
        made,
        answer,
        region.get_head(ctx).map(IRNode::BasicBlock),
    );
    answer.put(", from");
    made.put_block(answer, region.get_entry_block(ctx));
    answer.put(" to");
    made.put_block(answer, region.get_tail(ctx));
}

// The label of a block, its links, its operations and its terminator, its arguments and its attributes.
fn show_block<D: OpSet>(
    alloc: Global,
    ctx: &Context<D>,
    made: &Made,
    answer: &mut Answer,
    block: Ptr<BasicBlock>,
)
    requires { IsLive ctx.now (AnyNode.BasicBlock block) }
{
    answer.put(block.label(ctx).map_or("-", |label| label.as_str()));
    answer.put(", in");
    made.put_region(answer, block.get_parent_region(ctx));
    made.put_op(answer, block.get_parent_op(ctx));
    answer.put(", between");
    made.put_block(answer, block.get_prev(ctx));
    made.put_block(answer, block.get_next(ctx));
    put_operations(ctx, made, answer, block);
    answer.put(", arguments ");
    answer.put_number(block.get_num_arguments(ctx));
    put_attributes(alloc, ctx, answer, block.attributes(ctx));
}

fn put_operations<D: OpSet>(
    ctx: &Context<D>,
    made: &Made,
    answer: &mut Answer,
    block: Ptr<BasicBlock>,
)
    requires { IsLive ctx.now (AnyNode.BasicBlock block) }
{
    answer.put(", operations");
    put_row(
        ctx,
        made,
        answer,
        block.get_head(ctx).map(IRNode::Operation),
    );
    answer.put(" to");
    made.put_op(answer, block.get_tail(ctx));
    answer.put(", terminator");
    made.put_op(answer, block.get_terminator(ctx));
}

// The names of a node and of those after it.
fn put_row<D: OpSet>(ctx: &Context<D>, made: &Made, answer: &mut Answer, first: Option<IRNode>)
    requires { IfSome first (λ node. IsLive ctx.now node) }
{
    let mut at = first;
    'nodes: for _ in 0..ctx.num_live() {
        let Some(node) = at else {
            return;
        };
        made.put_node(answer, node);
        at = next_of(ctx, node);
    }
}

// The node right after a node.
fn next_of<D: OpSet>(ctx: &Context<D>, node: IRNode) -> Option<IRNode>
    requires { IsLive ctx.now node }
    ensures { IfSome result (λ next. IsLive ctx.now next) }
{
    match node {
        IRNode::Operation(op) => op.get_next(ctx).map(IRNode::Operation),
        IRNode::Region(region) => region.get_next(ctx).map(IRNode::Region),
        IRNode::BasicBlock(block) => block.get_next(ctx).map(IRNode::BasicBlock),
    }
}

/// Writes the text of a type.
pub fn put_type<D: OpSet>(alloc: Global, ctx: &Context<D>, answer: &mut Answer, handle: TypeHandle)
    requires { IsTypeLive ctx.now.types handle }
{
    answer.put(" ");
    answer.put_made(type_text(alloc, ctx, handle));
}
