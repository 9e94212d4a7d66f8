//! All arguments of the blocks below an operation that can be dropped.
ghost use Rattle.std.specs.Prelude.{◌≡◌, ◌<◌, IfErr, IfOk, OnOk, false};
ghost use Rattle.plir_core.specs.declared.ptr.IRNode.{IRNode as AnyNode};
ghost use Rattle.plir_core.specs.ContextView.{IsLive, limit};
ghost use Rattle.plir_core.specs.WellFormed.{IsWellFormed};
ghost use Rattle.plir_flow.specs.Branches.{num_successors};
ghost use Rattle.plir_arguments.specs.Listed.{AreBlocksBelow, AreOfSuccessors, IsFound, num_arguments};
ghost use Rattle.plir_arguments.specs.Steps.{AreAllDropped, AreCutShort, IsOneStep};

use crate::branch_edit_set::BranchEditSet;
use crate::dropping::drop_argument;
use crate::finding::{Found, next_to_go};
use crate::waiting::Blocks;
use plir_core::laws::contexts_stand;
use plir_core::{BasicBlock, Context, DefiningEntity, NodeErr, Operation, Ptr, Use};
use plir_data::Memory;
use std::alloc::Global;

// Lets the block wait once more whose argument an operation forwards to a successor for the argument at a place.
fn put_source<D: BranchEditSet>(
    ctx: &Context<D>,
    blocks: &mut Blocks,
    op: Ptr<Operation>,
    successor: usize,
    place: usize,
) -> Result<(), Memory>
    requires live { IsLive ctx.now (AnyNode.Operation op) }
    requires below { successor < num_successors ctx.now op }
    ensures { blocks.new.list ≡ blocks.old.list }
{
    if place >= D::num_forwarded(ctx, op, successor) {
        return Ok(());
    }
    match D::forwarded(ctx, op, successor, place).defining_entity() {
        DefiningEntity::Block(source) => blocks.put_again(source),
        DefiningEntity::Op(_) => Ok(()),
    }
}

// The same at a use of the block.
fn put_source_of<D: BranchEditSet>(
    ctx: &Context<D>,
    blocks: &mut Blocks,
    used: Use<Ptr<BasicBlock>>,
    place: usize,
) -> Result<(), Memory>
    requires live { IsLive ctx.now (AnyNode.Operation used.op) }
    requires below { used.index < num_successors ctx.now used.op }
    ensures { blocks.new.list ≡ blocks.old.list }
{
    put_source(ctx, blocks, used.branch_op(), used.succ_idx(), place)
}

// Lets the blocks wait once more whose arguments are forwarded, at some uses of a block, for its argument at a place.
fn put_sources<D: BranchEditSet>(
    ctx: &Context<D>,
    blocks: &mut Blocks,
    uses: &[Use<Ptr<BasicBlock>>],
    place: usize,
) -> Result<(), Memory>
    requires { AreOfSuccessors ctx.now uses.now }
    ensures { blocks.new.list ≡ blocks.old.list }
{
    for used in uses {
        put_source_of(ctx, blocks, *used, place)?;
    }
    Ok(())
}

// Drops an argument that was found. The block that comes waits, and so does each block whose argument was forwarded for
// that one.
fn drop_found<D: BranchEditSet>(
    alloc: Global,
    ctx: &mut Context<D>,
    blocks: &mut Blocks,
    root: Ptr<Operation>,
    found: Found,
) -> Result<(), NodeErr>
    requires root_live { IsLive ctx.old (AnyNode.Operation root) }
    requires below { AreBlocksBelow ctx.old root blocks.old.list.items }
    requires found { IsFound D.removes D.forwards ctx.old blocks.old.list.items found }
    ensures one { OnOk result (IsOneStep D.removes D.forwards root D.layout_keys ctx.old ctx.new) }
    ensures below { OnOk result (AreBlocksBelow ctx.new root blocks.new.list.items) }
    ensures less { OnOk result (num_arguments ctx.new blocks.new.list.items
        < num_arguments ctx.old blocks.old.list.items) }
    ensures err { IfErr result (AreCutShort D.removes D.forwards root D.layout_keys ctx.old ctx.new) }
    ensures root_live { IsLive ctx.new (AnyNode.Operation root) }
    ensures whole { IsWellFormed D.attr_handles ctx.new }
{
    ctx.stands();
    contexts_stand::<D>();
    let uses = found.block.uses(alloc, ctx)?;
    put_sources(ctx, blocks, &uses, found.place)?;
    let other = drop_argument(alloc, ctx, found.block, found.place)?;
    blocks.replace(found.at, other)?;
    Ok(())
}

/// Drops arguments of blocks below an operation, as [`drop_argument`] does, until none is left there that can be
/// dropped, and answers whether there was any. A value that was forwarded for an argument may so lose its last use:
/// where it is an argument of a block, that block is looked at again.
///
/// Each block is looked at once, once more for each argument of it that was dropped and each operand that was taken out
/// of a branch and was its argument, and once more at the end; where that finds an argument it goes on. A look goes
/// over the block's arguments, up to the first that nothing uses, of each over the operations that use arguments of the
/// block or branch to it, and then over the block's uses. Of several arguments of one block each is dropped by itself.
///
/// # Errors
///
/// [`NodeErr::Memory`] where there is none for the lists of blocks or for a new block, and [`NodeErr::TooManyNodes`]
/// only where there is no room for a block. What was dropped until then stays so.
pub fn drop_unused_arguments<D: BranchEditSet>(
    alloc: Global,
    ctx: &mut Context<D>,
    root: Ptr<Operation>,
) -> Result<bool, NodeErr>
    requires { IsLive ctx.old (AnyNode.Operation root) }
    ensures dropped { IfOk result (AreAllDropped D.removes D.forwards root D.layout_keys ctx.old ctx.new) }
    ensures unchanged { IfOk result (λ any. any ≡ false → ctx.new ≡ ctx.old) }
    ensures err { IfErr result (AreCutShort D.removes D.forwards root D.layout_keys ctx.old ctx.new) }
    ensures root_live { IsLive ctx.new (AnyNode.Operation root) }
    ensures types { ctx.new.types ≡ ctx.old.types }
    ensures limit { limit ctx.new ≡ limit ctx.old }
    ensures whole { IsWellFormed D.attr_handles ctx.new }
{
    ctx.stands();
    contexts_stand::<D>();
    let mut blocks = Blocks::below(alloc, ctx, root)?;
    let mut any = false;
    'drops: while let Some(found) = next_to_go(alloc, ctx, &mut blocks)? {
        drop_found(alloc, ctx, &mut blocks, root, found)?;
        any = true;
    }
    Ok(any)
}
