//! What stands in a context, and what stands beside a node, as the printer goes by it.
ghost use Rattle.std.specs.Prelude.{◌≡◌};
ghost use Rattle.plir_core.specs.Standing.{IsStanding};
ghost use Rattle.plir_core.specs.ContextView.{IsLive, next_sibling};

use plir_core::laws::contexts_stand;
use plir_core::{Context, IRNode};
use plir_data::OpSet;

/// Nothing is done: this tells a proof what the context keeps of its nodes.
pub(crate) fn stands<D: OpSet>(ctx: &Context<D>)
    ensures { IsStanding ctx.now }
{
    contexts_stand::<D>();
    ctx.stands();
}

/// The node that stands right behind another one, under the same node.
pub(crate) fn next_of<D: OpSet>(ctx: &Context<D>, node: IRNode) -> Option<IRNode>
    requires { IsLive ctx.now node }
    ensures { result ≡ next_sibling ctx.now node }
{
    match node {
        IRNode::Operation(op) => op.get_next(ctx).map(IRNode::Operation),
        IRNode::Region(region) => region.get_next(ctx).map(IRNode::Region),
        IRNode::BasicBlock(block) => block.get_next(ctx).map(IRNode::BasicBlock),
    }
}
