//! What is known of the child of a node at a place.
ghost use Rattle.std.specs.Prelude.{◌≡◌, ◌+◌, ◌<◌, ◌^◌, ◌∷◌, Some, drop, length, slice_get};
ghost use Rattle.plir_core.specs.Standing.{IsStanding};
ghost use Rattle.plir_core.specs.ContextView.{IsLive, children, next_sibling};

use plir_core::laws::child_at;
use plir_core::{Context, IRNode};
use plir_data::OpSet;

/// Nothing is done: this tells a proof that a child is live, and what stands behind it.
pub(crate) fn child_there<D: OpSet>(ctx: &Context<D>, over: IRNode, child: IRNode, place: usize)
    requires { slice_get (children ctx.now over) place ≡ Some child }
    ensures live { IsLive ctx.now child }
    ensures standing { IsStanding ctx.now }
    ensures within { place < length (children ctx.now over) }
    ensures few { length (children ctx.now over) < 2 ^ 32 }
    ensures next { next_sibling ctx.now child ≡ slice_get (children ctx.now over) (place + 1) }
    ensures left { drop place (children ctx.now over) ≡ child ∷ drop (place + 1) (children ctx.now over) }
{
    ctx.stands();
    child_at(ctx, over, child, place);
}
