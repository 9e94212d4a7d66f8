//! Inlining of a call.
ghost use Rattle.std.specs.Prelude.{◌≡◌, Err, IfOk, OnErr, OnOk, true};
ghost use Rattle.plir_core.specs.Changes.{SameLive};
ghost use Rattle.plir_core.specs.ContextView.{IsLive, given_out};
ghost use Rattle.plir_core.specs.Made.{IsMade};
ghost use Rattle.plir_core.specs.WellFormed.{IsWellFormed};
ghost use Rattle.plir_core.specs.declared.ptr.IRNode.{IRNode as AnyNode};
ghost use Rattle.plir_core.specs.Room.{HaveCome, IsFullFor};
ghost use Rattle.plir_copies.specs.Images.{Images, for_call, no_images};
ghost use Rattle.plir_copies.specs.Room.{tree_count};
ghost use Rattle.plir_copies.specs.Trees.{IsCopyOfTree};
ghost use Rattle.plir_inline.specs.Inlined.{CanInline, IsInlined};

use crate::putting::put_in_place;
use plir_copies::{ValueMap, clone_block_tree_into, images_stay_live, room_is_used_up};
use plir_core::laws::contexts_stand;
use plir_core::{BasicBlock, Context, NodeErr, Operation, Ptr};
use plir_data::{Location, OpSet};
use std::alloc::Global;

// A copy of a block with all that stands below it, in no region, in place of a call that was written here.
fn copy_tree<D: OpSet>(
    alloc: Global,
    ctx: &mut Context<D>,
    block: Ptr<BasicBlock>,
    place: Location,
) -> Result<Ptr<BasicBlock>, NodeErr>
    requires { IsLive ctx.old (AnyNode.BasicBlock block) }
    ensures made { IfOk result (λ b. IsMade ctx.old.nodes ctx.new.nodes (AnyNode.BasicBlock b)) }
    ensures copied { IfOk result (λ b. (m : Images) × IsCopyOfTree ctx.old ctx.new (AnyNode.BasicBlock block)
        (AnyNode.BasicBlock b) (for_call no_images place) m) }
    ensures too_many_only { result ≡ Err NodeErr.TooManyNodes →
        IsFullFor ctx.old.nodes (tree_count ctx.old.nodes (AnyNode.BasicBlock block)) }
    ensures come { OnOk result (HaveCome ctx.old.nodes ctx.new.nodes
        (tree_count ctx.old.nodes (AnyNode.BasicBlock block))) }
    ensures types { ctx.new.types ≡ ctx.old.types }
    ensures given { (n : AnyNode) → given_out ctx.old n ≡ true → given_out ctx.new n ≡ true }
    ensures err { OnErr result (SameLive ctx.old ctx.new) }
    ensures whole { IsWellFormed D.attr_handles ctx.new }
{
    images_stay_live::<D>();
    let mut map = ValueMap::new(alloc);
    map.set_call(place);
    let copy = clone_block_tree_into(alloc, ctx, block, &mut map)?;
    Ok(copy)
}

/// Puts a copy of what stands in a block, as the one block of a function's body, but for its last operation, in place
/// of a call: each argument of the block is replaced by the call's operand at its place, and each use of a result of
/// the call by what the last operation's operand at its place has become. Then the call is gone. The location of a copy
/// is that of what it copies, with the place of the call, where both are known ([`Location::inlined_at`]). The block
/// and all else stay as they are, but that an operation that used a result of the call uses what came in its place.
/// [`can_inline`](crate::can_inline) tells whether the condition holds.
///
/// # Errors
///
/// What the copy of the block's tree is refused for: [`NodeErr::Memory`] where there is none, and
/// [`NodeErr::TooManyNodes`] only where there is no room for as many nodes as the tree has, of which the copies of the
/// block and of its last operation are freed again. It never goes well there. After a refusal no live node has changed.
pub fn inline_block<D: OpSet>(
    alloc: Global,
    ctx: &mut Context<D>,
    call: Ptr<Operation>,
    block: Ptr<BasicBlock>,
) -> Result<(), NodeErr>
    requires { CanInline ctx.old call block }
    ensures ok { OnOk result (IsInlined ctx.old ctx.new call block) }
    ensures err { OnErr result (SameLive ctx.old ctx.new) }
    ensures too_many_only { result ≡ Err NodeErr.TooManyNodes →
        IsFullFor ctx.old.nodes (tree_count ctx.old.nodes (AnyNode.BasicBlock block)) }
    ensures room { OnOk result (IsFullFor ctx.old.nodes (tree_count ctx.old.nodes (AnyNode.BasicBlock block)) → ⊥) }
    ensures whole { IsWellFormed D.attr_handles ctx.new }
{
    ctx.stands();
    contexts_stand::<D>();
    room_is_used_up::<D>();
    let place = call.loc(ctx);
    let copy = copy_tree(alloc, ctx, block, place)?;
    put_in_place(ctx, call, copy);
    Ok(())
}
