//! A block that is put in place of another one.
ghost use Rattle.std.specs.Prelude.{◌≡◌, [], None, IsSome};
ghost use Rattle.plir_core.specs.ContextView.{IsLive, children, operands_of, parent_of};
ghost use Rattle.plir_core.specs.WellFormed.{IsWellFormed};
ghost use Rattle.plir_core.specs.declared.ptr.IRNode.{IRNode as AnyNode};
ghost use Rattle.plir_core.specs.declared.value.DefiningEntity.{DefiningEntity};
ghost use Rattle.plir_inline.specs.Given.{NoneFrom};
ghost use Rattle.plir_arguments.specs.Standing.{IsPutFor};
ghost use Rattle.plir_arguments.specs.Turned.{NeverGoesTo};

use plir_core::laws::{contexts_stand, nothing_stands_below_a_leaf};
use plir_core::{BasicBlock, Context, IRNode, Ptr};
use plir_data::OpSet;

/// Puts a block that stands alone and is empty in place of another one, which nothing uses: it gets that one's
/// operations, and that one is gone.
pub(crate) fn put_for<D: OpSet>(
    ctx: &mut Context<D>,
    block: Ptr<BasicBlock>,
    other: Ptr<BasicBlock>,
)
    requires live { IsLive ctx.old (AnyNode.BasicBlock block) }
    requires other_live { IsLive ctx.old (AnyNode.BasicBlock other) }
    requires apart { block ≡ other → ⊥ }
    requires alone { parent_of ctx.old (AnyNode.BasicBlock other) ≡ None }
    requires leaf { children ctx.old (AnyNode.BasicBlock other) ≡ [] }
    requires linked { IsSome (parent_of ctx.old (AnyNode.BasicBlock block)) }
    requires no_use { (p : _) → IsLive ctx.old (AnyNode.Operation p) →
        NoneFrom (DefiningEntity.Block block) (operands_of ctx.old p) }
    requires no_branch { (p : _) → IsLive ctx.old (AnyNode.Operation p) → NeverGoesTo ctx.old p block }
    ensures put { IsPutFor ctx.old ctx.new block other }
    ensures whole { IsWellFormed D.attr_handles ctx.new }
{
    ctx.stands();
    contexts_stand::<D>();
    nothing_stands_below_a_leaf(ctx, IRNode::BasicBlock(other));
    other.insert_before(ctx, block);
    block.splice_at_back(ctx, other);
    nothing_stands_below_a_leaf(ctx, IRNode::BasicBlock(block));
    BasicBlock::erase(block, ctx);
}
