//! Walks whose callback changes the tree below its node.
ghost use Rattle.std.specs.Prelude.{◌≡◌, Some, IfOk};
ghost use Rattle.plir_core.specs.ContextView.{IsLive, parent_of};
ghost use Rattle.plir_core.specs.declared.ptr.IRNode.{IRNode as AnyNode};
ghost use Rattle.plir_core.specs.Forest.{look};
ghost use Rattle.plir_walk.specs.Lawful.{Lawful};

use crate::walk::plan::{Change, Plan};
use plir_core::laws::{child_at, first_child_is_front};
use plir_core::{BasicBlock, Context, IRNode, NodeErr, Operation, Ptr, Region};
use plir_data::{Identifier, OpKind, OpSet};
use plir_walk::NodeLinks;
use plir_walk::interruptible::{WalkResult, walk_break};
use plir_walk::laws::{changes_below_compose, lawful_changes};
use std::alloc::Global;

/// What a callback breaks the walk with where memory was refused, or a change can't be made.
pub const NOT_DONE: u32 = u32::MAX;

/// Why a tree was not changed.
#[derive(Clone, Copy, Debug)]
pub enum Refusal {
    /// A node was not made.
    NotMade(NodeErr),
    /// A node is dead, used, or not where it has to be.
    Misplaced,
}

impl From<NodeErr> for Refusal {
    fn from(error: NodeErr) -> Refusal {
        Refusal::NotMade(error)
    }
}

/// An operation with one region that holds one block.
#[derive(Clone, Copy)]
pub struct Nest {
    pub op: Ptr<Operation>,
    pub region: Ptr<Region>,
    pub block: Ptr<BasicBlock>,
}

impl Nest {
    /// The operation, the region and the block.
    pub fn nodes(self) -> (IRNode, IRNode, IRNode) {
        (
            IRNode::Operation(self.op),
            IRNode::Region(self.region),
            IRNode::BasicBlock(self.block),
        )
    }
}

/// A new operation with one region, which holds one empty block. It stands at the end of the block `target`, if there
/// is one.
pub fn make_nest<D: OpSet>(
    alloc: Global,
    ctx: &mut Context<D>,
    kind: OpKind<D::Kind>,
    target: Option<Ptr<BasicBlock>>,
) -> Result<Nest, Refusal>
    ensures lawful { (b : _) → target ≡ Some b → Lawful (look ctx.old) (AnyNode.BasicBlock b) (look ctx.new) }
{
    ctx.forest();
    lawful_changes::<D>();
    let op = new_op(alloc, ctx, kind, target)?;
    let region = op.first_region(ctx).ok_or(Refusal::Misplaced)?;
    if !region.is_live(ctx) {
        return Err(Refusal::Misplaced);
    }
    first_child_is_front(ctx, IRNode::Operation(op));
    child_at(ctx, IRNode::Operation(op), IRNode::Region(region), 0);
    let block = BasicBlock::new(alloc, ctx, None, Vec::new(alloc))?;
    block.insert_at_back(ctx, region);
    Ok(Nest { op, region, block })
}

// A new operation with one region, at the end of `target`, if that is given.
fn new_op<D: OpSet>(
    alloc: Global,
    ctx: &mut Context<D>,
    kind: OpKind<D::Kind>,
    target: Option<Ptr<BasicBlock>>,
) -> Result<Ptr<Operation>, Refusal>
    ensures live { IfOk result (λ op. IsLive ctx.new (AnyNode.Operation op)) }
    ensures placed { (b : _) → target ≡ Some b → IfOk result
        (λ op. parent_of ctx.new (AnyNode.Operation op) ≡ Some (AnyNode.BasicBlock b)) }
    ensures lawful { (b : _) → target ≡ Some b → Lawful (look ctx.old) (AnyNode.BasicBlock b) (look ctx.new) }
{
    lawful_changes::<D>();
    let results = Vec::new(alloc);
    let operands = Vec::new(alloc);
    let successors = Vec::new(alloc);
    match target {
        None => Ok(Operation::new(alloc, ctx, kind, results, operands, successors, 1)?),
        Some(block) => {
            if !block.is_live(ctx) {
                return Err(Refusal::Misplaced);
            }
            let op = Operation::new(alloc, ctx, kind, results, operands, successors, 1)?;
            op.insert_at_back(ctx, block);
            Ok(op)
        }
    }
}

/// Erases an operation that stands in `node` and that nothing outside it uses.
fn erase_op<D: OpSet>(ctx: &mut Context<D>, node: IRNode, op: Ptr<Operation>) -> Result<(), Refusal>
    ensures { Lawful (look ctx.old) node (look ctx.new) }
{
    lawful_changes::<D>();
    let erased = IRNode::Operation(op);
    if !op.is_live(ctx) || !erased.is_unused_outside(ctx) {
        return Err(Refusal::Misplaced);
    }
    match ctx.parent(erased) {
        Some(parent) if parent == node => {}
        _ => return Err(Refusal::Misplaced),
    }
    Operation::erase(op, ctx);
    Ok(())
}

/// Moves an operation that stands below `node` to the end of a block that is at or below `node`, and not in it.
fn move_op<D: OpSet>(
    ctx: &mut Context<D>,
    node: IRNode,
    op: Ptr<Operation>,
    block: Ptr<BasicBlock>,
) -> Result<(), Refusal>
    requires { IsLive ctx.old node }
    ensures { Lawful (look ctx.old) node (look ctx.new) }
{
    lawful_changes::<D>();
    changes_below_compose::<D>();
    let moved = IRNode::Operation(op);
    let target = IRNode::BasicBlock(block);
    if !op.is_live(ctx) || !block.is_live(ctx) || moved == node {
        return Err(Refusal::Misplaced);
    }
    let holds_moved = node.is_ancestor(ctx, moved);
    let holds_target = node.is_ancestor(ctx, target);
    let over_target = moved.is_ancestor(ctx, target);
    if !holds_moved || !holds_target || over_target {
        return Err(Refusal::Misplaced);
    }
    op.unlink(ctx);
    op.insert_at_back(ctx, block);
    Ok(())
}

/// Erases the first region of an operation, which nothing outside the region uses.
fn erase_region<D: OpSet>(ctx: &mut Context<D>, op: Ptr<Operation>) -> Result<(), Refusal>
    ensures { Lawful (look ctx.old) (AnyNode.Operation op) (look ctx.new) }
{
    lawful_changes::<D>();
    if !op.is_live(ctx) || op.num_regions(ctx) == 0 {
        return Err(Refusal::Misplaced);
    }
    let region = op.get_region(ctx, 0);
    child_at(ctx, IRNode::Operation(op), IRNode::Region(region), 0);
    if !IRNode::Region(region).is_unused_outside(ctx) {
        return Err(Refusal::Misplaced);
    }
    Operation::erase_region(op, ctx, 0);
    Ok(())
}

/// Adds a region to an operation.
fn add_region<D: OpSet>(ctx: &mut Context<D>, op: Ptr<Operation>) -> Result<(), Refusal>
    ensures { Lawful (look ctx.old) (AnyNode.Operation op) (look ctx.new) }
{
    lawful_changes::<D>();
    if !op.is_live(ctx) {
        return Err(Refusal::Misplaced);
    }
    let _region = Operation::add_region(op, ctx)?;
    Ok(())
}

/// Puts a new block at the end of a region.
fn append_block<D: OpSet>(
    alloc: Global,
    ctx: &mut Context<D>,
    region: Ptr<Region>,
) -> Result<(), Refusal>
    ensures { Lawful (look ctx.old) (AnyNode.Region region) (look ctx.new) }
{
    lawful_changes::<D>();
    if !region.is_live(ctx) {
        return Err(Refusal::Misplaced);
    }
    let block = BasicBlock::new(alloc, ctx, None, Vec::new(alloc))?;
    block.insert_at_back(ctx, region);
    Ok(())
}

/// Labels a block `b`.
fn label<D: OpSet>(
    alloc: Global,
    ctx: &mut Context<D>,
    block: Ptr<BasicBlock>,
) -> Result<(), Refusal>
    ensures { Lawful (look ctx.old) (AnyNode.BasicBlock block) (look ctx.new) }
{
    lawful_changes::<D>();
    let Ok(name) = Identifier::try_new(alloc, "b") else {
        return Err(Refusal::NotMade(NodeErr::Memory));
    };
    if !block.is_live(ctx) {
        return Err(Refusal::Misplaced);
    }
    block.set_label(ctx, Some(name));
    Ok(())
}

/// Changes the tree right below `node`, or the node itself.
fn apply<D: OpSet>(
    alloc: Global,
    ctx: &mut Context<D>,
    node: IRNode,
    change: Change,
) -> Result<(), Refusal>
    requires { IsLive ctx.old node }
    ensures { Lawful (look ctx.old) node (look ctx.new) }
{
    match (change, node) {
        (Change::EraseOp(op), _) => erase_op(ctx, node, op),
        (Change::MoveOp(op, block), _) => move_op(ctx, node, op, block),
        (Change::Label, IRNode::BasicBlock(block)) => label(alloc, ctx, block),
        (Change::AppendFunc, IRNode::BasicBlock(block)) => {
            make_nest(alloc, ctx, OpKind::Func, Some(block))?;
            Ok(())
        }
        (Change::AppendBlock, IRNode::Region(region)) => append_block(alloc, ctx, region),
        (Change::AddRegion, IRNode::Operation(op)) => add_region(ctx, op),
        (Change::EraseRegion, IRNode::Operation(op)) => erase_region(ctx, op),
        _ => Err(Refusal::Misplaced),
    }
}

/// Does what is listed for `node`.
fn follow<D: OpSet>(
    alloc: Global,
    ctx: &mut Context<D>,
    changes: &[(IRNode, Change)],
    node: IRNode,
) -> Result<(), Refusal>
    requires { IsLive ctx.old node }
    ensures { Lawful (look ctx.old) node (look ctx.new) }
{
    ctx.forest();
    lawful_changes::<D>();
    for (at, change) in changes {
        if *at == node {
            apply(alloc, ctx, node, *change)?;
        }
    }
    Ok(())
}

/// Notes the node, and does what the plan says.
pub fn visit<D: OpSet>(
    alloc: Global,
    ctx: &mut Context<D>,
    seen: &mut Vec<IRNode>,
    plan: &Plan,
    node: IRNode,
) -> WalkResult<u32>
    requires { IsLive ctx.old node }
    ensures { Lawful (look ctx.old) node (look ctx.new) }
{
    if seen.push(node).is_err() {
        return walk_break(NOT_DONE);
    }
    match follow(alloc, ctx, plan.changes.as_slice(), node) {
        Ok(()) => plan.answer(node),
        Err(_) => walk_break(NOT_DONE),
    }
}
