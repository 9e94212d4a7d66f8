//! The commands that link nodes, unlink them and erase them.
ghost use Rattle.plir_core.specs.ContextView.{IsLive};
ghost use Rattle.plir_core.specs.declared.ptr.IRNode.{IRNode as AnyNode};

use crate::line::Line;
use crate::made::Made;
use crate::stop::Stop;
use plir_core::{BasicBlock, Context, IRNode, Operation, Ptr, Region};
use plir_data::OpSet;

/// Where a node is put.
#[derive(Clone, Copy, PartialEq, Eq, Debug)]
pub enum Side {
    Front,
    Back,
    Before,
    After,
}

/// How a line changes links.
#[derive(Clone, Copy)]
pub enum Linking {
    /// `front NODE IN`, `back NODE IN`, `before NODE MARK` or `after NODE MARK`.
    Put(Side),
    /// `move-before OP MARK` or `move-after OP MARK`.
    Move(Side),
    /// `splice BLOCK IN` or `splice BLOCK MARK`.
    Splice,
    /// `unlink NODE`.
    Unlink,
    /// `erase NODE`.
    Erase,
}

impl Linking {
    /// How a word changes links.
    pub fn of(word: &str) -> Option<Self> {
        match word {
            "front" => Some(Linking::Put(Side::Front)),
            "back" => Some(Linking::Put(Side::Back)),
            "before" => Some(Linking::Put(Side::Before)),
            "after" => Some(Linking::Put(Side::After)),
            "move-before" => Some(Linking::Move(Side::Before)),
            "move-after" => Some(Linking::Move(Side::After)),
            "splice" => Some(Linking::Splice),
            "unlink" => Some(Linking::Unlink),
            "erase" => Some(Linking::Erase),
            _ => None,
        }
    }
}

/// Changes links as a line says.
pub fn link<D: OpSet>(
    ctx: &mut Context<D>,
    made: &Made,
    linking: Linking,
    line: Line<'_>,
) -> Result<(), Stop> {
    match linking {
        Linking::Put(side) => put(ctx, made, line, side),
        Linking::Move(side) => move_op(ctx, made, line, side),
        Linking::Splice => splice(ctx, made, line),
        Linking::Unlink => unlink(ctx, made, line),
        Linking::Erase => erase(ctx, made, line),
    }
}

fn put<D: OpSet>(
    ctx: &mut Context<D>,
    made: &Made,
    line: Line<'_>,
    side: Side,
) -> Result<(), Stop> {
    let node = made.live(ctx, line.first)?;
    let mark = made.live(ctx, line.second)?;
    match (node, mark) {
        (IRNode::Operation(op), IRNode::BasicBlock(block)) => put_op(ctx, op, block, side),
        (IRNode::Operation(op), IRNode::Operation(mark)) => put_op_beside(ctx, op, mark, side),
        (IRNode::BasicBlock(block), IRNode::Region(region)) => put_block(ctx, block, region, side),
        (IRNode::BasicBlock(block), IRNode::BasicBlock(mark)) => {
            put_block_beside(ctx, block, mark, side)
        }
        _ => Err(Stop::Refused),
    }
}

fn put_op<D: OpSet>(
    ctx: &mut Context<D>,
    op: Ptr<Operation>,
    block: Ptr<BasicBlock>,
    side: Side,
) -> Result<(), Stop>
    requires live { IsLive ctx.old (AnyNode.Operation op) }
    requires block { IsLive ctx.old (AnyNode.BasicBlock block) }
{
    if op.get_parent_block(ctx).is_some()
        || IRNode::Operation(op).is_ancestor(ctx, IRNode::BasicBlock(block))
    {
        return Err(Stop::Refused);
    }
    match side {
        Side::Front => op.insert_at_front(ctx, block),
        Side::Back => op.insert_at_back(ctx, block),
        _ => return Err(Stop::Refused),
    }
    Ok(())
}

fn put_op_beside<D: OpSet>(
    ctx: &mut Context<D>,
    op: Ptr<Operation>,
    mark: Ptr<Operation>,
    side: Side,
) -> Result<(), Stop>
    requires live { IsLive ctx.old (AnyNode.Operation op) }
    requires mark { IsLive ctx.old (AnyNode.Operation mark) }
{
    if op.get_parent_block(ctx).is_some()
        || mark.get_parent_block(ctx).is_none()
        || IRNode::Operation(op).is_ancestor(ctx, IRNode::Operation(mark))
    {
        return Err(Stop::Refused);
    }
    match side {
        Side::Before => op.insert_before(ctx, mark),
        Side::After => op.insert_after(ctx, mark),
        _ => return Err(Stop::Refused),
    }
    Ok(())
}

fn put_block<D: OpSet>(
    ctx: &mut Context<D>,
    block: Ptr<BasicBlock>,
    region: Ptr<Region>,
    side: Side,
) -> Result<(), Stop>
    requires live { IsLive ctx.old (AnyNode.BasicBlock block) }
    requires region { IsLive ctx.old (AnyNode.Region region) }
{
    if block.get_parent_region(ctx).is_some()
        || IRNode::BasicBlock(block).is_ancestor(ctx, IRNode::Region(region))
    {
        return Err(Stop::Refused);
    }
    match side {
        Side::Front => block.insert_at_front(ctx, region),
        Side::Back => block.insert_at_back(ctx, region),
        _ => return Err(Stop::Refused),
    }
    Ok(())
}

fn put_block_beside<D: OpSet>(
    ctx: &mut Context<D>,
    block: Ptr<BasicBlock>,
    mark: Ptr<BasicBlock>,
    side: Side,
) -> Result<(), Stop>
    requires live { IsLive ctx.old (AnyNode.BasicBlock block) }
    requires mark { IsLive ctx.old (AnyNode.BasicBlock mark) }
{
    if block.get_parent_region(ctx).is_some()
        || mark.get_parent_region(ctx).is_none()
        || IRNode::BasicBlock(block).is_ancestor(ctx, IRNode::BasicBlock(mark))
    {
        return Err(Stop::Refused);
    }
    match side {
        Side::Before => block.insert_before(ctx, mark),
        Side::After => block.insert_after(ctx, mark),
        _ => return Err(Stop::Refused),
    }
    Ok(())
}

// Moves an operation right before or right after another one.
fn move_op<D: OpSet>(
    ctx: &mut Context<D>,
    made: &Made,
    line: Line<'_>,
    side: Side,
) -> Result<(), Stop> {
    let op = made.op(ctx, line.first)?;
    let mark = made.op(ctx, line.second)?;
    if mark.get_parent_block(ctx).is_none()
        || IRNode::Operation(op).is_ancestor(ctx, IRNode::Operation(mark))
    {
        return Err(Stop::Refused);
    }
    match side {
        Side::Before => op.move_before(ctx, mark),
        Side::After => op.move_after(ctx, mark),
        _ => return Err(Stop::Refused),
    }
    Ok(())
}

// Moves all operations of a block to the end of another one, or right before an operation.
fn splice<D: OpSet>(ctx: &mut Context<D>, made: &Made, line: Line<'_>) -> Result<(), Stop> {
    let IRNode::BasicBlock(block) = made.live(ctx, line.first)? else {
        return Err(Stop::Refused);
    };
    let place = made.live(ctx, line.second)?;
    if IRNode::BasicBlock(block).is_ancestor(ctx, place) {
        return Err(Stop::Refused);
    }
    match place {
        IRNode::BasicBlock(target) => block.splice_at_back(ctx, target),
        IRNode::Operation(mark) if mark.get_parent_block(ctx).is_some() => {
            block.splice_before(ctx, mark);
        }
        _ => return Err(Stop::Refused),
    }
    Ok(())
}

fn unlink<D: OpSet>(ctx: &mut Context<D>, made: &Made, line: Line<'_>) -> Result<(), Stop> {
    match made.live(ctx, line.first)? {
        IRNode::Operation(op) => op.unlink(ctx),
        IRNode::BasicBlock(block) => block.unlink(ctx),
        IRNode::Region(_) => return Err(Stop::Refused),
    }
    Ok(())
}

fn erase<D: OpSet>(ctx: &mut Context<D>, made: &Made, line: Line<'_>) -> Result<(), Stop> {
    match made.live(ctx, line.first)? {
        IRNode::Operation(op) => erase_op(ctx, op),
        IRNode::Region(region) => erase_region(ctx, region),
        IRNode::BasicBlock(block) => erase_block(ctx, block),
    }
}

fn erase_op<D: OpSet>(ctx: &mut Context<D>, op: Ptr<Operation>) -> Result<(), Stop>
    requires { IsLive ctx.old (AnyNode.Operation op) }
{
    if !IRNode::Operation(op).is_unused_outside(ctx) {
        return Err(Stop::Refused);
    }
    Operation::erase(op, ctx);
    Ok(())
}

fn erase_block<D: OpSet>(ctx: &mut Context<D>, block: Ptr<BasicBlock>) -> Result<(), Stop>
    requires { IsLive ctx.old (AnyNode.BasicBlock block) }
{
    if !IRNode::BasicBlock(block).is_unused_outside(ctx) {
        return Err(Stop::Refused);
    }
    BasicBlock::erase(block, ctx);
    Ok(())
}

// Erases a region by its place in its operation.
fn erase_region<D: OpSet>(ctx: &mut Context<D>, region: Ptr<Region>) -> Result<(), Stop>
    requires { IsLive ctx.old (AnyNode.Region region) }
{
    let Some(op) = region.get_parent_op(ctx) else {
        return Err(Stop::Refused);
    };
    let place = region.find_index_in_parent(ctx);
    if place >= op.num_regions(ctx) {
        return Err(Stop::Refused);
    }
    if !IRNode::Region(op.get_region(ctx, place)).is_unused_outside(ctx) {
        return Err(Stop::Refused);
    }
    Operation::erase_region(op, ctx, place);
    Ok(())
}
