//! What a walk reads of a context: which nodes are live, and the links of a node.
#![tactic(auto)]

ghost use Rattle.std.specs.Prelude.{◌≡◌, true, option_and_then, option_map};
ghost use Rattle.plir_store.specs.Members.{head};
ghost use Rattle.plir_core.specs.declared.ptr.IRNode.{IRNode as AnyNode};
ghost use Rattle.plir_core.specs.ContextView.{IsLive, first_child, last_child, next_sibling, prev_sibling};
ghost use Rattle.plir_core.specs.Forest.{Shape, IsForest};
ghost use Rattle.plir_core.specs.WellFormed.{IsWellFormed};
ghost use Rattle.plir_walk.specs.Config.{direction_of, order_of};
ghost use Rattle.plir_walk.specs.Step.{direction_above, first_of, next_of};

use crate::config::{Direction, Order, WalkConfig};
use plir_core::laws::contexts_stand;
use plir_core::{BasicBlock, Context, IRNode, Operation, Ptr, Region};
use plir_data::OpSet;

/// A pointer to a node of one kind: where a walk has matched a node, it reads its links without matching it again.
pub trait TypedNode: Copy {
    // The node.
    ghost node: { Self → AnyNode };

    /// The node.
    fn node(self) -> IRNode
        ensures { result ≡ node self };

    /// When nodes of the kind are called: before what is below them, or after.
    fn order(self, config: &WalkConfig) -> Order
        ensures { result ≡ order_of config.now (node self) };

    /// The direction in which a walk takes the children of the node.
    fn direction(self, config: &WalkConfig) -> Direction
        ensures { result ≡ direction_of config.now (node self) };

    /// The direction in which a walk takes the node and its siblings.
    fn direction_above(self, config: &WalkConfig) -> Direction
        ensures { result ≡ direction_above config.now (node self) };

    /// The first child.
    fn first_child<D: OpSet>(self, ctx: &Context<D>) -> Option<IRNode>
        requires { IsLive ctx.now (node self) }
        ensures { result ≡ first_child ctx.now (node self) };

    /// The last child.
    fn last_child<D: OpSet>(self, ctx: &Context<D>) -> Option<IRNode>
        requires { IsLive ctx.now (node self) }
        ensures { result ≡ last_child ctx.now (node self) };

    /// The sibling right behind the node.
    fn next_sibling<D: OpSet>(self, ctx: &Context<D>) -> Option<Self>
        requires { IsLive ctx.now (node self) }
        ensures value { option_map node result ≡ next_sibling ctx.now (node self) }
        ensures whole { IsWellFormed D.attr_handles ctx.now };

    /// The sibling right before the node.
    fn prev_sibling<D: OpSet>(self, ctx: &Context<D>) -> Option<Self>
        requires { IsLive ctx.now (node self) }
        ensures value { option_map node result ≡ prev_sibling ctx.now (node self) }
        ensures whole { IsWellFormed D.attr_handles ctx.now };
}

/// A context that can be walked: [`Context`] is one, for every op set.
pub trait NodeLinks {
    // What a walk sees of the context.
    ghost look: { Self → Shape };

    /// The live nodes make a forest: this tells a proof what every context keeps.
    fn forest(&self)
        ensures { IsForest (look self.now) };

    /// Whether a node is live: the test of what the walkers ask of their root.
    fn is_node_live(&self, node: IRNode) -> bool
        ensures { result ≡ (look self.now).live node };

    /// What stands right above a node.
    fn parent(&self, node: IRNode) -> Option<IRNode>
        requires { (look self.now).live node ≡ true }
        ensures { result ≡ (look self.now).parent node };

    /// The first child of a node.
    fn first_child(&self, node: IRNode) -> Option<IRNode>
        requires { (look self.now).live node ≡ true }
        ensures { result ≡ head ((look self.now).children node) };

    /// The child that a walk enters first.
    fn first_taken<N: TypedNode>(&self, config: &WalkConfig, node: N) -> Option<IRNode>
        requires { (look self.now).live (N.node node) ≡ true }
        ensures { result ≡ first_of config.now (look self.now) (N.node node) };

    /// The sibling that a walk enters after a node.
    fn next_taken<N: TypedNode>(&self, config: &WalkConfig, node: N) -> Option<N>
        requires { (look self.now).live (N.node node) ≡ true }
        ensures { option_map N.node result ≡ next_of config.now (look self.now) (N.node node) };
}

impl<D: OpSet> NodeLinks for Context<D> {
    ghost use Rattle.plir_core.specs.Forest.{look as look_at};

    ghost look = { λ s. look_at s };

    fn forest(&self) {
        contexts_stand::<D>();
        self.stands();
    }

    #[inline(always)]
    fn is_node_live(&self, node: IRNode) -> bool {
        node.is_live(self)
    }

    #[inline(always)]
    fn parent(&self, node: IRNode) -> Option<IRNode> {
        node.parent(self)
    }

    #[inline(always)]
    fn first_child(&self, node: IRNode) -> Option<IRNode> {
        node.first_child(self)
    }

    #[inline(always)]
    fn first_taken<N: TypedNode>(&self, config: &WalkConfig, node: N) -> Option<IRNode> {
        match node.direction(config) {
            Direction::Forward => node.first_child(self),
            Direction::Reverse => node.last_child(self),
        }
    }

    #[inline(always)]
    fn next_taken<N: TypedNode>(&self, config: &WalkConfig, node: N) -> Option<N> {
        match node.direction_above(config) {
            Direction::Forward => node.next_sibling(self),
            Direction::Reverse => node.prev_sibling(self),
        }
    }
}

impl TypedNode for Ptr<Operation> {
    ghost node = { λ p. AnyNode.Operation p };

    #[inline(always)]
    fn node(self) -> IRNode {
        IRNode::Operation(self)
    }

    #[inline(always)]
    fn order(self, config: &WalkConfig) -> Order {
        config.regions_in_op.0
    }

    #[inline(always)]
    fn direction(self, config: &WalkConfig) -> Direction {
        config.regions_in_op.1
    }

    #[inline(always)]
    fn direction_above(self, config: &WalkConfig) -> Direction {
        config.ops_in_block.1
    }

    #[inline(always)]
    fn first_child<D: OpSet>(self, ctx: &Context<D>) -> Option<IRNode> {
        self.first_region(ctx).map(IRNode::Region)
    }

    #[inline(always)]
    fn last_child<D: OpSet>(self, ctx: &Context<D>) -> Option<IRNode> {
        self.last_region(ctx).map(IRNode::Region)
    }

    #[inline(always)]
    fn next_sibling<D: OpSet>(self, ctx: &Context<D>) -> Option<Ptr<Operation>> {
        self.get_next(ctx)
    }

    #[inline(always)]
    fn prev_sibling<D: OpSet>(self, ctx: &Context<D>) -> Option<Ptr<Operation>> {
        self.get_prev(ctx)
    }
}

impl TypedNode for Ptr<Region> {
    ghost node = { λ p. AnyNode.Region p };

    #[inline(always)]
    fn node(self) -> IRNode {
        IRNode::Region(self)
    }

    #[inline(always)]
    fn order(self, config: &WalkConfig) -> Order {
        config.blocks_in_region.0
    }

    #[inline(always)]
    fn direction(self, config: &WalkConfig) -> Direction {
        config.blocks_in_region.1
    }

    #[inline(always)]
    fn direction_above(self, config: &WalkConfig) -> Direction {
        config.regions_in_op.1
    }

    #[inline(always)]
    fn first_child<D: OpSet>(self, ctx: &Context<D>) -> Option<IRNode> {
        self.get_head(ctx).map(IRNode::BasicBlock)
    }

    #[inline(always)]
    fn last_child<D: OpSet>(self, ctx: &Context<D>) -> Option<IRNode> {
        self.get_tail(ctx).map(IRNode::BasicBlock)
    }

    #[inline(always)]
    fn next_sibling<D: OpSet>(self, ctx: &Context<D>) -> Option<Ptr<Region>> {
        self.get_next(ctx)
    }

    #[inline(always)]
    fn prev_sibling<D: OpSet>(self, ctx: &Context<D>) -> Option<Ptr<Region>> {
        self.get_prev(ctx)
    }
}

impl TypedNode for Ptr<BasicBlock> {
    ghost node = { λ p. AnyNode.BasicBlock p };

    #[inline(always)]
    fn node(self) -> IRNode {
        IRNode::BasicBlock(self)
    }

    #[inline(always)]
    fn order(self, config: &WalkConfig) -> Order {
        config.ops_in_block.0
    }

    #[inline(always)]
    fn direction(self, config: &WalkConfig) -> Direction {
        config.ops_in_block.1
    }

    #[inline(always)]
    fn direction_above(self, config: &WalkConfig) -> Direction {
        config.blocks_in_region.1
    }

    #[inline(always)]
    fn first_child<D: OpSet>(self, ctx: &Context<D>) -> Option<IRNode> {
        self.get_head(ctx).map(IRNode::Operation)
    }

    #[inline(always)]
    fn last_child<D: OpSet>(self, ctx: &Context<D>) -> Option<IRNode> {
        self.get_tail(ctx).map(IRNode::Operation)
    }

    #[inline(always)]
    fn next_sibling<D: OpSet>(self, ctx: &Context<D>) -> Option<Ptr<BasicBlock>> {
        self.get_next(ctx)
    }

    #[inline(always)]
    fn prev_sibling<D: OpSet>(self, ctx: &Context<D>) -> Option<Ptr<BasicBlock>> {
        self.get_prev(ctx)
    }
}
