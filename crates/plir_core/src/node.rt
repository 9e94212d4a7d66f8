//! Links of a node of any kind.
ghost use Rattle.std.specs.Prelude.{◌≡◌, IfSome};
ghost use Rattle.plir_core.specs.ContextView.{IsLive, is_live, parent_of, first_child, last_child, next_sibling};
ghost use Rattle.plir_core.specs.ContextView.{prev_sibling};
ghost use Rattle.plir_core.specs.WellFormed.{IsWellFormed};

use crate::context::Context;
use crate::ptr::IRNode;
use plir_data::OpSet;

impl IRNode {
    /// Whether the node is live.
    pub fn is_live<D: OpSet>(self, ctx: &Context<D>) -> bool
        ensures value { result ≡ is_live ctx.now self }
        ensures whole { IsWellFormed D.attr_handles ctx.now }
    {
        ctx.nodes.is_live(self)
    }

    /// What stands right above the node.
    #[inline(always)]
    pub fn parent<D: OpSet>(self, ctx: &Context<D>) -> Option<IRNode>
        requires { IsLive ctx.now self }
        ensures value { result ≡ parent_of ctx.now self }
        ensures live { IfSome result (IsLive ctx.now) }
        ensures whole { IsWellFormed D.attr_handles ctx.now }
    {
        prove!(self.is_live(ctx), "the node is not live");
        match self {
            IRNode::Operation(op) => op.get_parent_block(ctx).map(IRNode::BasicBlock),
            IRNode::Region(region) => region.get_parent_op(ctx).map(IRNode::Operation),
            IRNode::BasicBlock(block) => block.get_parent_region(ctx).map(IRNode::Region),
        }
    }

    /// The first of the nodes right below the node: regions of an operation, blocks of a region, operations of a block.
    #[inline(always)]
    pub fn first_child<D: OpSet>(self, ctx: &Context<D>) -> Option<IRNode>
        requires { IsLive ctx.now self }
        ensures value { result ≡ first_child ctx.now self }
        ensures live { IfSome result (IsLive ctx.now) }
        ensures whole { IsWellFormed D.attr_handles ctx.now }
    {
        prove!(self.is_live(ctx), "the node is not live");
        match self {
            IRNode::Operation(op) => op.first_region(ctx).map(IRNode::Region),
            IRNode::Region(region) => region.get_head(ctx).map(IRNode::BasicBlock),
            IRNode::BasicBlock(block) => block.get_head(ctx).map(IRNode::Operation),
        }
    }

    /// The last of the nodes right below the node.
    #[inline(always)]
    pub fn last_child<D: OpSet>(self, ctx: &Context<D>) -> Option<IRNode>
        requires { IsLive ctx.now self }
        ensures value { result ≡ last_child ctx.now self }
        ensures live { IfSome result (IsLive ctx.now) }
        ensures whole { IsWellFormed D.attr_handles ctx.now }
    {
        prove!(self.is_live(ctx), "the node is not live");
        match self {
            IRNode::Operation(op) => op.last_region(ctx).map(IRNode::Region),
            IRNode::Region(region) => region.get_tail(ctx).map(IRNode::BasicBlock),
            IRNode::BasicBlock(block) => block.get_tail(ctx).map(IRNode::Operation),
        }
    }

    /// The node right behind the node below the same parent.
    #[inline(always)]
    pub fn next_sibling<D: OpSet>(self, ctx: &Context<D>) -> Option<IRNode>
        requires { IsLive ctx.now self }
        ensures value { result ≡ next_sibling ctx.now self }
        ensures live { IfSome result (IsLive ctx.now) }
        ensures whole { IsWellFormed D.attr_handles ctx.now }
    {
        prove!(self.is_live(ctx), "the node is not live");
        match self {
            IRNode::Operation(op) => op.get_next(ctx).map(IRNode::Operation),
            IRNode::Region(region) => region.get_next(ctx).map(IRNode::Region),
            IRNode::BasicBlock(block) => block.get_next(ctx).map(IRNode::BasicBlock),
        }
    }

    /// The node right before the node below the same parent.
    #[inline(always)]
    pub fn prev_sibling<D: OpSet>(self, ctx: &Context<D>) -> Option<IRNode>
        requires { IsLive ctx.now self }
        ensures value { result ≡ prev_sibling ctx.now self }
        ensures live { IfSome result (IsLive ctx.now) }
        ensures whole { IsWellFormed D.attr_handles ctx.now }
    {
        prove!(self.is_live(ctx), "the node is not live");
        match self {
            IRNode::Operation(op) => op.get_prev(ctx).map(IRNode::Operation),
            IRNode::Region(region) => region.get_prev(ctx).map(IRNode::Region),
            IRNode::BasicBlock(block) => block.get_prev(ctx).map(IRNode::BasicBlock),
        }
    }
}
