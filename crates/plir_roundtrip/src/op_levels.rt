//! How many levels an operation of any kind has as it is written, with all below it. A test goes down no further than
//! levels are left.
ghost use Rattle.std.specs.Prelude.{◌≡◌, ◌↔◌, ◌<◌, ◌≤◌, IsTrue};
ghost use Rattle.plir_core.specs.declared.ptr.IRNode.{IRNode as AnyNode};
ghost use Rattle.plir_core.specs.ContextView.{IsLive, children};
ghost use Rattle.plir_read_ir.specs.IrTerms.{op_levels};
ghost use Rattle.plir_roundtrip.specs.IrWritten.{ir_term_of};
ghost use Rattle.plir_roundtrip.specs.WrittenLevels.{nested_block, nested_blocks, nested_ops, nested_regions};

use crate::below::child_there;
use crate::part_levels::{are_types_below, is_front_below};
use plir_core::laws::first_child_is_front;
use plir_core::{BasicBlock, Context, DefiningEntity, IRNode, Operation, Ptr, Region};
use plir_data::OpSet;

/// Whether an operation with all below it has at most so many levels, itself counted.
#[cycle(nesting)]
pub(crate) fn is_op_within<D: OpSet>(ctx: &Context<D>, op: Ptr<Operation>, left: usize) -> bool
    requires { IsLive ctx.now (AnyNode.Operation op) }
    ensures { IsTrue result ↔ (op_levels (ir_term_of D.OpSet ctx.now op) ≤ left) }
{
    ctx.stands();
    if left == 0 {
        return false;
    }
    is_front_below(ctx, op, left) && are_regions_below(ctx, op, left)
}

// The regions of an operation with all below them.
#[cycle(nesting)]
fn are_regions_below<D: OpSet>(ctx: &Context<D>, op: Ptr<Operation>, left: usize) -> bool
    requires live { IsLive ctx.now (AnyNode.Operation op) }
    requires some { 0 < left }
    ensures { IsTrue result ↔ (nested_regions D.OpSet ctx.now (children ctx.now (AnyNode.Operation op)) < left) }
{
    first_child_is_front(ctx, IRNode::Operation(op));
    let mut place: usize = 0;
    let mut next = op.first_region(ctx);
    'regions: while let Some(region) = next {
        child_there(ctx, IRNode::Operation(op), IRNode::Region(region), place);
        if !are_blocks_below(ctx, region, left) {
            return false;
        }
        place += 1;
        next = region.get_next(ctx);
    }
    true
}

// The blocks of a region with all below them.
#[cycle(nesting)]
fn are_blocks_below<D: OpSet>(ctx: &Context<D>, region: Ptr<Region>, left: usize) -> bool
    requires live { IsLive ctx.now (AnyNode.Region region) }
    requires some { 0 < left }
    ensures { IsTrue result ↔ (nested_blocks D.OpSet ctx.now (children ctx.now (AnyNode.Region region)) < left) }
{
    first_child_is_front(ctx, IRNode::Region(region));
    let mut place: usize = 0;
    let mut next = region.get_head(ctx);
    'inner: while let Some(block) = next {
        child_there(
            ctx,
            IRNode::Region(region),
            IRNode::BasicBlock(block),
            place,
        );
        if !is_block_below(ctx, block, left) {
            return false;
        }
        place += 1;
        next = block.get_next(ctx);
    }
    true
}

// A block with all below it.
#[cycle(nesting)]
fn is_block_below<D: OpSet>(ctx: &Context<D>, block: Ptr<BasicBlock>, left: usize) -> bool
    requires live { IsLive ctx.now (AnyNode.BasicBlock block) }
    requires some { 0 < left }
    ensures { IsTrue result ↔ (nested_block D.OpSet ctx.now block < left) }
{
    let are_arguments = are_types_below(ctx, DefiningEntity::Block(block), left);
    are_arguments && are_ops_below(ctx, block, left)
}

// The operations of a block with all below them.
#[cycle(nesting)]
fn are_ops_below<D: OpSet>(ctx: &Context<D>, block: Ptr<BasicBlock>, left: usize) -> bool
    requires live { IsLive ctx.now (AnyNode.BasicBlock block) }
    requires some { 0 < left }
    ensures { IsTrue result ↔ (nested_ops D.OpSet ctx.now (children ctx.now (AnyNode.BasicBlock block)) < left) }
{
    first_child_is_front(ctx, IRNode::BasicBlock(block));
    let mut place: usize = 0;
    let mut next = block.get_head(ctx);
    'ops: while let Some(op) = next {
        child_there(ctx, IRNode::BasicBlock(block), IRNode::Operation(op), place);
        if !is_op_within(ctx, op, left - 1) {
            return false;
        }
        place += 1;
        next = op.get_next(ctx);
    }
    true
}
