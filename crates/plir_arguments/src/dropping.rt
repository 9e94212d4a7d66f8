//! Arguments that are dropped.
ghost use Rattle.std.specs.Prelude.{◌≡◌, ◌<◌, [], Err, IfOk, OnErr, length, option_map, remove, true};
ghost use Rattle.plir_data.specs.AttrLive.{HandlesLive};
ghost use Rattle.plir_data.specs.Types.{AllLive};
ghost use Rattle.plir_core.specs.Changes.{SameLive};
ghost use Rattle.plir_core.specs.ContextView.{IsLive, arg_types_of, block_at, block_attributes_of, children, given_out};
ghost use Rattle.plir_core.specs.Made.{IsMade};
ghost use Rattle.plir_core.specs.Room.{IsFullForBlock};
ghost use Rattle.plir_core.specs.WellFormed.{IsWellFormed};
ghost use Rattle.plir_core.specs.declared.ptr.IRNode.{IRNode as AnyNode};
ghost use Rattle.plir_arguments.specs.Dropped.{CanDrop, IsDropped, without_argument, without_name};

use crate::blocks::{argument_types, block_with};
use crate::branch_edit_set::BranchEditSet;
use crate::branching::turn_branches;
use crate::giving::move_arguments;
use crate::names::drop_name;
use crate::placing::put_for;
use plir_core::laws::{contexts_stand, nothing_stands_below_a_leaf};
use plir_core::{BasicBlock, Context, IRNode, NodeErr, Ptr};
use plir_data::{AttributeDict, Memory, OpSet, TypeHandle};
use std::alloc::Global;

// The types of the arguments of a block but for that at a place.
fn types_without<D: OpSet>(
    alloc: Global,
    ctx: &Context<D>,
    block: Ptr<BasicBlock>,
    i: usize,
) -> Result<Vec<TypeHandle>, Memory>
    requires live { IsLive ctx.now (AnyNode.BasicBlock block) }
    requires below { i < length (arg_types_of ctx.now block) }
    ensures value { IfOk result (λ ts. ts.items ≡ remove (arg_types_of ctx.now block) i) }
    ensures live { IfOk result (λ ts. AllLive ctx.now.types ts.items) }
{
    let mut types = argument_types(alloc, ctx, block)?;
    let _gone = types.remove(i);
    Ok(types)
}

// The attributes of a block without the name of its argument at a place.
fn attributes_without<D: OpSet>(
    alloc: Global,
    ctx: &Context<D>,
    block: Ptr<BasicBlock>,
    i: usize,
) -> Result<AttributeDict<D>, Memory>
    requires { IsLive ctx.now (AnyNode.BasicBlock block) }
    ensures value { IfOk result (λ es. es ≡ without_name (block_attributes_of ctx.now block) i) }
    ensures handles { IfOk result (λ es. HandlesLive D.attr_handles ctx.now.types es) }
    ensures whole { IsWellFormed D.attr_handles ctx.now }
{
    ctx.stands();
    let mut attributes = block.attributes(ctx).try_clone(alloc)?;
    drop_name(alloc, &mut attributes, i)?;
    Ok(attributes)
}

// A block in no region that holds what another one does, but for its argument at a place.
fn block_without<D: OpSet>(
    alloc: Global,
    ctx: &mut Context<D>,
    block: Ptr<BasicBlock>,
    i: usize,
) -> Result<Ptr<BasicBlock>, NodeErr>
    requires live { IsLive ctx.old (AnyNode.BasicBlock block) }
    requires below { i < length (arg_types_of ctx.old block) }
    ensures made { IfOk result (λ b. IsMade ctx.old.nodes ctx.new.nodes (AnyNode.BasicBlock b)) }
    ensures held { IfOk result (λ b. block_at ctx.new b ≡ option_map (without_argument i) (block_at ctx.old block)) }
    ensures leaf { IfOk result (λ b. children ctx.new (AnyNode.BasicBlock b) ≡ []) }
    ensures types { ctx.new.types ≡ ctx.old.types }
    ensures err { OnErr result (SameLive ctx.old ctx.new) }
    ensures too_many_only { result ≡ Err NodeErr.TooManyNodes → IsFullForBlock ctx.old.nodes }
    ensures whole { IsWellFormed D.attr_handles ctx.new }
{
    ctx.stands();
    let types = types_without(alloc, ctx, block, i)?;
    let attributes = attributes_without(alloc, ctx, block, i)?;
    block_with(alloc, ctx, block, types, &attributes)
}

/// Drops the argument of a block at a place, from 0: a new block, which is answered, comes in place of the block, with
/// its operations, its label and its attributes, and with all its arguments but this one. What branched to the block
/// branches to the new one and forwards no value for the argument any more; what used another argument of the block
/// uses that of the new one. The name of the argument goes with it. Nothing else changes, and the block is gone.
/// [`can_drop_argument`](crate::can_drop_argument) tells whether the condition holds.
///
/// It moves the block's operations, and looks at the operations that use its arguments or branch to it, at all of these
/// for each argument.
///
/// # Errors
///
/// [`NodeErr::Memory`] where there is none for the new block or for the list of uses of the block, and
/// [`NodeErr::TooManyNodes`] only where there is no room for a block. After a refusal no live node has changed.
pub fn drop_argument<D: BranchEditSet>(
    alloc: Global,
    ctx: &mut Context<D>,
    block: Ptr<BasicBlock>,
    i: usize,
) -> Result<Ptr<BasicBlock>, NodeErr>
    requires { CanDrop D.removes D.forwards ctx.old block i }
    ensures ok { IfOk result (IsDropped D.layout_keys D.forwards ctx.old ctx.new block i) }
    ensures err { OnErr result (SameLive ctx.old ctx.new) }
    ensures too_many_only { result ≡ Err NodeErr.TooManyNodes → IsFullForBlock ctx.old.nodes }
    ensures whole { IsWellFormed D.attr_handles ctx.new }
{
    ctx.stands();
    contexts_stand::<D>();
    let uses = block.uses(alloc, ctx)?;
    let other = block_without(alloc, ctx, block, i)?;
    nothing_stands_below_a_leaf(ctx, IRNode::BasicBlock(other));
    turn_branches(ctx, &uses, block, i, other);
    move_arguments(ctx, block, i, other);
    put_for(ctx, block, other);
    Ok(other)
}
