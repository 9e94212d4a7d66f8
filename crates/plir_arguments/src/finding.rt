//! Arguments that can be dropped, searched for among blocks.
ghost use Rattle.std.specs.Prelude.{◌≡◌, IfOk, IfSome};
ghost use Rattle.plir_core.specs.declared.ptr.BasicBlock.{BasicBlock as BlockKind};
ghost use Rattle.plir_core.specs.declared.ptr.IRNode.{IRNode as AnyNode};
ghost use Rattle.plir_core.specs.declared.ptr.Ptr.{Ptr as AnyPtr};
ghost use Rattle.plir_core.specs.ContextView.{IsLive};
ghost use Rattle.plir_store.specs.Members.{Has};
ghost use Rattle.plir_arguments.specs.Listed.{CanGo, IsFound, IsSearched, IsUnused};

use crate::branch_edit_set::BranchEditSet;
use crate::testing::can_drop_argument;
use crate::waiting::Blocks;
use plir_core::{BasicBlock, Context, Ptr};
use plir_data::{Memory, OpSet};
use std::alloc::Global;

/// An argument of a block that can be dropped: the place of the block among those that are listed, the block, and the
/// place of the argument.
#[derive(Clone, Copy)]
pub(crate) struct Found {
    pub(crate) at: usize,
    pub(crate) block: Ptr<BasicBlock>,
    pub(crate) place: usize,
}

// The first argument of a block that nothing uses, if there is one.
fn first_unused<D: OpSet>(ctx: &Context<D>, block: Ptr<BasicBlock>) -> Option<usize>
    requires { IsLive ctx.now (AnyNode.BasicBlock block) }
    ensures { IsUnused ctx.now block result }
{
    for place in 0..block.get_num_arguments(ctx) {
        if !block.get_argument(ctx, place).has_uses(ctx) {
            return Some(place);
        }
    }
    None
}

// An argument of a block that can be dropped, if there is one. What the block and its branches have to meet is the same
// for each argument, so the first one that nothing uses tells it.
fn first_to_go<D: BranchEditSet>(
    alloc: Global,
    ctx: &Context<D>,
    block: Ptr<BasicBlock>,
) -> Result<Option<usize>, Memory>
    requires { IsLive ctx.now (AnyNode.BasicBlock block) }
    ensures { IfOk result (CanGo D.removes D.forwards ctx.now block) }
{
    let Some(place) = first_unused(ctx, block) else {
        return Ok(None);
    };
    if !can_drop_argument(alloc, ctx, block, place)? {
        return Ok(None);
    }
    Ok(Some(place))
}

// Takes blocks that wait, up to one that has an argument that can be dropped.
fn next_waiting<D: BranchEditSet>(
    alloc: Global,
    ctx: &Context<D>,
    blocks: &mut Blocks,
) -> Result<Option<Found>, Memory>
    requires { (b : AnyPtr BlockKind) → Has blocks.old.list.items b → IsLive ctx.now (AnyNode.BasicBlock b) }
    ensures list { blocks.new.list ≡ blocks.old.list }
    ensures found { IfOk result (λ found. IfSome found (IsFound D.removes D.forwards ctx.now blocks.old.list.items)) }
{
    'waiting: while let Some(at) = blocks.take() {
        let block = blocks.list[at];
        if let Some(place) = first_to_go(alloc, ctx, block)? {
            return Ok(Some(Found { at, block, place }));
        }
    }
    Ok(None)
}

// The first of some blocks that has an argument that can be dropped, if there is one.
fn first_of<D: BranchEditSet>(
    alloc: Global,
    ctx: &Context<D>,
    list: &[Ptr<BasicBlock>],
) -> Result<Option<Found>, Memory>
    requires { (b : AnyPtr BlockKind) → Has list.now b → IsLive ctx.now (AnyNode.BasicBlock b) }
    ensures { IfOk result (IsSearched D.removes D.forwards ctx.now list.now) }
{
    for at in 0..list.len() {
        let block = list[at];
        if let Some(place) = first_to_go(alloc, ctx, block)? {
            return Ok(Some(Found { at, block, place }));
        }
    }
    Ok(None)
}

/// An argument that can be dropped: one of a block that waits; where no such block is left, one of any that is listed;
/// none only where none can be dropped.
pub(crate) fn next_to_go<D: BranchEditSet>(
    alloc: Global,
    ctx: &Context<D>,
    blocks: &mut Blocks,
) -> Result<Option<Found>, Memory>
    requires { (b : AnyPtr BlockKind) → Has blocks.old.list.items b → IsLive ctx.now (AnyNode.BasicBlock b) }
    ensures list { blocks.new.list ≡ blocks.old.list }
    ensures found { IfOk result (IsSearched D.removes D.forwards ctx.now blocks.old.list.items) }
{
    if let Some(found) = next_waiting(alloc, ctx, blocks)? {
        return Ok(Some(found));
    }
    first_of(alloc, ctx, &blocks.list)
}
