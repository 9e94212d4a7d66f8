//! Arguments that come in place of those of another block.
ghost use Rattle.std.specs.Prelude.{◌≡◌, ◌<◌, ◌+◌, length};
ghost use Rattle.plir_core.specs.ContextView.{IsLive, arg_types_of};
ghost use Rattle.plir_core.specs.WellFormed.{IsWellFormed};
ghost use Rattle.plir_core.specs.Rewired.{IsRewired};
ghost use Rattle.plir_core.specs.declared.ptr.IRNode.{IRNode as AnyNode};
ghost use Rattle.plir_core.specs.declared.value.DefiningEntity.{DefiningEntity};
ghost use Rattle.plir_copies.specs.Copied.{value_at};
ghost use Rattle.plir_inline.specs.Given.{IsGiven};
ghost use Rattle.plir_arguments.specs.Dropped.{moved, moved_down};

use plir_core::{BasicBlock, Context, Ptr};
use plir_data::OpSet;

// The place of an argument once the one at `gone` is gone.
fn place_without(gone: usize, place: usize) -> usize
    ensures { result ≡ moved_down gone place }
{
    if gone < place { place - 1 } else { place }
}

// Puts the argument of a block that has none at `gone` in place of that of another one at a place.
fn move_argument<D: OpSet>(
    ctx: &mut Context<D>,
    block: Ptr<BasicBlock>,
    place: usize,
    gone: usize,
    other: Ptr<BasicBlock>,
)
    requires live { IsLive ctx.old (AnyNode.BasicBlock block) }
    requires other_live { IsLive ctx.old (AnyNode.BasicBlock other) }
    requires below { place < length (arg_types_of ctx.old block) }
    requires other_below { moved_down gone place < length (arg_types_of ctx.old other) }
    ensures rewired { IsRewired ctx.old ctx.new (value_at (DefiningEntity.Block block) place)
        (value_at (DefiningEntity.Block other) (moved_down gone place)) }
    ensures whole { IsWellFormed D.attr_handles ctx.new }
{
    let argument = block.get_argument(ctx, place);
    let moved = other.get_argument(ctx, place_without(gone, place));
    argument.replace_all_uses_with(ctx, moved);
}

/// Puts the arguments of a block in place of those of another one, which has one more, at `gone`, that stays as it is.
pub(crate) fn move_arguments<D: OpSet>(
    ctx: &mut Context<D>,
    block: Ptr<BasicBlock>,
    gone: usize,
    other: Ptr<BasicBlock>,
)
    requires live { IsLive ctx.old (AnyNode.BasicBlock block) }
    requires other_live { IsLive ctx.old (AnyNode.BasicBlock other) }
    requires apart { block ≡ other → ⊥ }
    requires gone_below { gone < length (arg_types_of ctx.old block) }
    requires without { length (arg_types_of ctx.old other) + 1 ≡ length (arg_types_of ctx.old block) }
    ensures moved { IsGiven ctx.old ctx.new (moved block other gone (length (arg_types_of ctx.old block))) }
    ensures whole { IsWellFormed D.attr_handles ctx.new }
{
    ctx.stands();
    for place in 0..block.get_num_arguments(ctx) {
        if place != gone {
            move_argument(ctx, block, place, gone, other);
        }
    }
}
