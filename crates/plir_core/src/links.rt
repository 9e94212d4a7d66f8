//! Links of operations, blocks and regions: what stands right above, beside and below each, and whether it is live.
ghost use Rattle.std.specs.Prelude.{◌≡◌, IfSome, ◌<◌, Some, length, slice_get, option_map};
ghost use Rattle.plir_core.specs.{Terminator.terminator_of, Unused.child_at, WellFormed.IsWellFormed};
ghost use Rattle.plir_core.specs.{declared.ptr.IRNode.IRNode};
ghost use Rattle.plir_core.specs.ContextView.{IsLive, is_live, children, parent_of, op_above, first_child, last_child};
ghost use Rattle.plir_core.specs.ContextView.{next_sibling, prev_sibling, region_above};

use crate::context::Context;
use crate::interface::{Interface, op_impls};
use crate::ptr::{BasicBlock, IRNode, Operation, Ptr, Region};
use plir_data::OpSet;

impl Ptr<Operation> {
    /// Whether the operation is live.
    pub fn is_live<D: OpSet>(self, ctx: &Context<D>) -> bool
        ensures value { result ≡ is_live ctx.now (IRNode.Operation self) }
        ensures whole { IsWellFormed D.attr_handles ctx.now }
    {
        ctx.nodes.is_live(IRNode::Operation(self))
    }

    /// The block that the operation stands in.
    pub fn get_parent_block<D: OpSet>(self, ctx: &Context<D>) -> Option<Ptr<BasicBlock>>
        requires { IsLive ctx.now (IRNode.Operation self) }
        ensures value { option_map IRNode.BasicBlock result ≡ parent_of ctx.now (IRNode.Operation self) }
        ensures live { IfSome result (λ block. IsLive ctx.now (IRNode.BasicBlock block)) }
        ensures whole { IsWellFormed D.attr_handles ctx.now }
    {
        prove!(self.is_live(ctx), "the operation is not live");
        ctx.nodes.parent_of_op(self)
    }

    /// The region that holds the block that the operation stands in.
    pub fn get_parent_region<D: OpSet>(self, ctx: &Context<D>) -> Option<Ptr<Region>>
        requires { IsLive ctx.now (IRNode.Operation self) }
        ensures value { option_map IRNode.Region result ≡ region_above ctx.now self }
        ensures live { IfSome result (λ region. IsLive ctx.now (IRNode.Region region)) }
        ensures whole { IsWellFormed D.attr_handles ctx.now }
    {
        prove!(self.is_live(ctx), "the operation is not live");
        match self.get_parent_block(ctx) {
            None => None,
            Some(block) => block.get_parent_region(ctx),
        }
    }

    /// The operation that holds the block that the operation stands in.
    pub fn get_parent_op<D: OpSet>(self, ctx: &Context<D>) -> Option<Ptr<Operation>>
        requires { IsLive ctx.now (IRNode.Operation self) }
        ensures value { option_map IRNode.Operation result ≡ op_above ctx.now (IRNode.Operation self) }
        ensures live { IfSome result (λ op. IsLive ctx.now (IRNode.Operation op)) }
        ensures whole { IsWellFormed D.attr_handles ctx.now }
    {
        prove!(self.is_live(ctx), "the operation is not live");
        match self.get_parent_block(ctx) {
            None => None,
            Some(block) => block.get_parent_op(ctx),
        }
    }

    /// The operation right after this one in its block.
    pub fn get_next<D: OpSet>(self, ctx: &Context<D>) -> Option<Ptr<Operation>>
        requires { IsLive ctx.now (IRNode.Operation self) }
        ensures value { option_map IRNode.Operation result ≡ next_sibling ctx.now (IRNode.Operation self) }
        ensures live { IfSome result (λ op. IsLive ctx.now (IRNode.Operation op)) }
        ensures beside { IfSome result (λ op. parent_of ctx.now (IRNode.Operation op) ≡ parent_of ctx.now
            (IRNode.Operation self)) }
        ensures whole { IsWellFormed D.attr_handles ctx.now }
    {
        prove!(self.is_live(ctx), "the operation is not live");
        ctx.nodes.next_op(self)
    }

    /// The operation right before this one in its block.
    pub fn get_prev<D: OpSet>(self, ctx: &Context<D>) -> Option<Ptr<Operation>>
        requires { IsLive ctx.now (IRNode.Operation self) }
        ensures value { option_map IRNode.Operation result ≡ prev_sibling ctx.now (IRNode.Operation self) }
        ensures live { IfSome result (λ op. IsLive ctx.now (IRNode.Operation op)) }
        ensures beside { IfSome result (λ op. parent_of ctx.now (IRNode.Operation op) ≡ parent_of ctx.now
            (IRNode.Operation self)) }
        ensures whole { IsWellFormed D.attr_handles ctx.now }
    {
        prove!(self.is_live(ctx), "the operation is not live");
        ctx.nodes.prev_op(self)
    }

    /// The first region of the operation.
    pub fn first_region<D: OpSet>(self, ctx: &Context<D>) -> Option<Ptr<Region>>
        requires { IsLive ctx.now (IRNode.Operation self) }
        ensures value { option_map IRNode.Region result ≡ first_child ctx.now (IRNode.Operation self) }
        ensures live { IfSome result (λ region. IsLive ctx.now (IRNode.Region region)) }
        ensures here { IfSome result (λ region. parent_of ctx.now (IRNode.Region region) ≡ Some
            (IRNode.Operation self)) }
        ensures whole { IsWellFormed D.attr_handles ctx.now }
    {
        prove!(self.is_live(ctx), "the operation is not live");
        ctx.nodes.first_region(self)
    }

    /// The last region of the operation.
    pub fn last_region<D: OpSet>(self, ctx: &Context<D>) -> Option<Ptr<Region>>
        requires { IsLive ctx.now (IRNode.Operation self) }
        ensures value { option_map IRNode.Region result ≡ last_child ctx.now (IRNode.Operation self) }
        ensures live { IfSome result (λ region. IsLive ctx.now (IRNode.Region region)) }
        ensures here { IfSome result (λ region. parent_of ctx.now (IRNode.Region region) ≡ Some
            (IRNode.Operation self)) }
        ensures whole { IsWellFormed D.attr_handles ctx.now }
    {
        prove!(self.is_live(ctx), "the operation is not live");
        ctx.nodes.last_region(self)
    }

    /// How many regions the operation has. They are counted one by one: a loop over them goes by `first_region` and
    /// `get_next`.
    pub fn num_regions<D: OpSet>(self, ctx: &Context<D>) -> usize
        requires { IsLive ctx.now (IRNode.Operation self) }
        ensures value { result ≡ length (children ctx.now (IRNode.Operation self)) }
        ensures whole { IsWellFormed D.attr_handles ctx.now }
    {
        prove!(self.is_live(ctx), "the operation is not live");
        ctx.nodes.num_regions(self)
    }

    /// The region at a place, from 0, among those of the operation. It is found from the first one on, one by one: a
    /// loop over all goes by `first_region` and `get_next`.
    pub fn get_region<D: OpSet>(self, ctx: &Context<D>, i: usize) -> Ptr<Region>
        requires live { IsLive ctx.now (IRNode.Operation self) }
        requires below { i < length (children ctx.now (IRNode.Operation self)) }
        ensures value { slice_get (children ctx.now (IRNode.Operation self)) i ≡ Some (IRNode.Region result) }
        ensures live { IsLive ctx.now (IRNode.Region result) }
        ensures child { IRNode.Region result ≡ child_at ctx.now (IRNode.Operation self) i }
        ensures whole { IsWellFormed D.attr_handles ctx.now }
    {
        prove!(self.is_live(ctx), "the operation is not live");
        ctx.nodes.region(self, i)
    }
}

impl Ptr<BasicBlock> {
    /// Whether the block is live.
    pub fn is_live<D: OpSet>(self, ctx: &Context<D>) -> bool
        ensures value { result ≡ is_live ctx.now (IRNode.BasicBlock self) }
        ensures whole { IsWellFormed D.attr_handles ctx.now }
    {
        ctx.nodes.is_live(IRNode::BasicBlock(self))
    }

    /// The region that the block stands in.
    pub fn get_parent_region<D: OpSet>(self, ctx: &Context<D>) -> Option<Ptr<Region>>
        requires { IsLive ctx.now (IRNode.BasicBlock self) }
        ensures value { option_map IRNode.Region result ≡ parent_of ctx.now (IRNode.BasicBlock self) }
        ensures live { IfSome result (λ region. IsLive ctx.now (IRNode.Region region)) }
        ensures whole { IsWellFormed D.attr_handles ctx.now }
    {
        prove!(self.is_live(ctx), "the block is not live");
        ctx.nodes.parent_of_block(self)
    }

    /// The operation whose region the block stands in.
    pub fn get_parent_op<D: OpSet>(self, ctx: &Context<D>) -> Option<Ptr<Operation>>
        requires { IsLive ctx.now (IRNode.BasicBlock self) }
        ensures value { option_map IRNode.Operation result ≡ op_above ctx.now (IRNode.BasicBlock self) }
        ensures live { IfSome result (λ op. IsLive ctx.now (IRNode.Operation op)) }
        ensures whole { IsWellFormed D.attr_handles ctx.now }
    {
        prove!(self.is_live(ctx), "the block is not live");
        match self.get_parent_region(ctx) {
            None => None,
            Some(region) => ctx.nodes.parent_of_region(region),
        }
    }

    /// The block right after this one in its region.
    pub fn get_next<D: OpSet>(self, ctx: &Context<D>) -> Option<Ptr<BasicBlock>>
        requires { IsLive ctx.now (IRNode.BasicBlock self) }
        ensures value { option_map IRNode.BasicBlock result ≡ next_sibling ctx.now (IRNode.BasicBlock self) }
        ensures live { IfSome result (λ block. IsLive ctx.now (IRNode.BasicBlock block)) }
        ensures beside { IfSome result (λ block. parent_of ctx.now (IRNode.BasicBlock block) ≡ parent_of ctx.now
            (IRNode.BasicBlock self)) }
        ensures whole { IsWellFormed D.attr_handles ctx.now }
    {
        prove!(self.is_live(ctx), "the block is not live");
        ctx.nodes.next_block(self)
    }

    /// The block right before this one in its region.
    pub fn get_prev<D: OpSet>(self, ctx: &Context<D>) -> Option<Ptr<BasicBlock>>
        requires { IsLive ctx.now (IRNode.BasicBlock self) }
        ensures value { option_map IRNode.BasicBlock result ≡ prev_sibling ctx.now (IRNode.BasicBlock self) }
        ensures live { IfSome result (λ block. IsLive ctx.now (IRNode.BasicBlock block)) }
        ensures beside { IfSome result (λ block. parent_of ctx.now (IRNode.BasicBlock block) ≡ parent_of ctx.now
            (IRNode.BasicBlock self)) }
        ensures whole { IsWellFormed D.attr_handles ctx.now }
    {
        prove!(self.is_live(ctx), "the block is not live");
        ctx.nodes.prev_block(self)
    }

    /// The first operation of the block.
    pub fn get_head<D: OpSet>(self, ctx: &Context<D>) -> Option<Ptr<Operation>>
        requires { IsLive ctx.now (IRNode.BasicBlock self) }
        ensures value { option_map IRNode.Operation result ≡ first_child ctx.now (IRNode.BasicBlock self) }
        ensures live { IfSome result (λ op. IsLive ctx.now (IRNode.Operation op)) }
        ensures here { IfSome result (λ op. parent_of ctx.now (IRNode.Operation op) ≡ Some (IRNode.BasicBlock self)) }
        ensures whole { IsWellFormed D.attr_handles ctx.now }
    {
        prove!(self.is_live(ctx), "the block is not live");
        ctx.nodes.first_op(self)
    }

    /// The last operation of the block.
    pub fn get_tail<D: OpSet>(self, ctx: &Context<D>) -> Option<Ptr<Operation>>
        requires { IsLive ctx.now (IRNode.BasicBlock self) }
        ensures value { option_map IRNode.Operation result ≡ last_child ctx.now (IRNode.BasicBlock self) }
        ensures live { IfSome result (λ op. IsLive ctx.now (IRNode.Operation op)) }
        ensures here { IfSome result (λ op. parent_of ctx.now (IRNode.Operation op) ≡ Some (IRNode.BasicBlock self)) }
        ensures whole { IsWellFormed D.attr_handles ctx.now }
    {
        prove!(self.is_live(ctx), "the block is not live");
        ctx.nodes.last_op(self)
    }

    /// The last operation of the block, if its kind is a terminator.
    pub fn get_terminator<D: OpSet>(self, ctx: &Context<D>) -> Option<Ptr<Operation>>
        requires { IsLive ctx.now (IRNode.BasicBlock self) }
        ensures value { option_map IRNode.Operation result ≡ terminator_of D.is_terminator ctx.now self }
        ensures live { IfSome result (λ op. IsLive ctx.now (IRNode.Operation op)) }
        ensures here { IfSome result (λ op. parent_of ctx.now (IRNode.Operation op) ≡ Some (IRNode.BasicBlock self)) }
        ensures whole { IsWellFormed D.attr_handles ctx.now }
    {
        prove!(self.is_live(ctx), "the block is not live");
        match self.get_tail(ctx) {
            Some(op) if op_impls(ctx, op, Interface::Terminator) => Some(op),
            _ => None,
        }
    }
}

impl Ptr<Region> {
    /// Whether the region is live.
    pub fn is_live<D: OpSet>(self, ctx: &Context<D>) -> bool
        ensures value { result ≡ is_live ctx.now (IRNode.Region self) }
        ensures whole { IsWellFormed D.attr_handles ctx.now }
    {
        ctx.nodes.is_live(IRNode::Region(self))
    }

    /// The operation that the region belongs to; each live region has one.
    pub fn get_parent_op<D: OpSet>(self, ctx: &Context<D>) -> Option<Ptr<Operation>>
        requires { IsLive ctx.now (IRNode.Region self) }
        ensures value { option_map IRNode.Operation result ≡ parent_of ctx.now (IRNode.Region self) }
        ensures live { IfSome result (λ op. IsLive ctx.now (IRNode.Operation op)) }
        ensures whole { IsWellFormed D.attr_handles ctx.now }
    {
        prove!(self.is_live(ctx), "the region is not live");
        ctx.nodes.parent_of_region(self)
    }

    /// The place of the region, from 0, among those of its operation. The regions before it are counted one by one: a
    /// loop over all that needs their places counts as it goes by `get_next`.
    pub fn find_index_in_parent<D: OpSet>(self, ctx: &Context<D>) -> usize
        requires { IsLive ctx.now (IRNode.Region self) }
        ensures value { IfSome (parent_of ctx.now (IRNode.Region self))
            (λ n. slice_get (children ctx.now n) result ≡ Some (IRNode.Region self)) }
        ensures whole { IsWellFormed D.attr_handles ctx.now }
    {
        prove!(self.is_live(ctx), "the region is not live");
        ctx.nodes.place_of_region(self)
    }

    /// The region right after this one in its operation.
    pub fn get_next<D: OpSet>(self, ctx: &Context<D>) -> Option<Ptr<Region>>
        requires { IsLive ctx.now (IRNode.Region self) }
        ensures value { option_map IRNode.Region result ≡ next_sibling ctx.now (IRNode.Region self) }
        ensures live { IfSome result (λ region. IsLive ctx.now (IRNode.Region region)) }
        ensures beside { IfSome result (λ region. parent_of ctx.now (IRNode.Region region) ≡ parent_of ctx.now
            (IRNode.Region self)) }
        ensures whole { IsWellFormed D.attr_handles ctx.now }
    {
        prove!(self.is_live(ctx), "the region is not live");
        ctx.nodes.next_region(self)
    }

    /// The region right before this one in its operation.
    pub fn get_prev<D: OpSet>(self, ctx: &Context<D>) -> Option<Ptr<Region>>
        requires { IsLive ctx.now (IRNode.Region self) }
        ensures value { option_map IRNode.Region result ≡ prev_sibling ctx.now (IRNode.Region self) }
        ensures live { IfSome result (λ region. IsLive ctx.now (IRNode.Region region)) }
        ensures beside { IfSome result (λ region. parent_of ctx.now (IRNode.Region region) ≡ parent_of ctx.now
            (IRNode.Region self)) }
        ensures whole { IsWellFormed D.attr_handles ctx.now }
    {
        prove!(self.is_live(ctx), "the region is not live");
        ctx.nodes.prev_region(self)
    }

    /// The first block of the region.
    pub fn get_head<D: OpSet>(self, ctx: &Context<D>) -> Option<Ptr<BasicBlock>>
        requires { IsLive ctx.now (IRNode.Region self) }
        ensures value { option_map IRNode.BasicBlock result ≡ first_child ctx.now (IRNode.Region self) }
        ensures live { IfSome result (λ block. IsLive ctx.now (IRNode.BasicBlock block)) }
        ensures here { IfSome result (λ block. parent_of ctx.now (IRNode.BasicBlock block)
            ≡ Some (IRNode.Region self)) }
        ensures whole { IsWellFormed D.attr_handles ctx.now }
    {
        prove!(self.is_live(ctx), "the region is not live");
        ctx.nodes.first_block(self)
    }

    /// The last block of the region.
    pub fn get_tail<D: OpSet>(self, ctx: &Context<D>) -> Option<Ptr<BasicBlock>>
        requires { IsLive ctx.now (IRNode.Region self) }
        ensures value { option_map IRNode.BasicBlock result ≡ last_child ctx.now (IRNode.Region self) }
        ensures live { IfSome result (λ block. IsLive ctx.now (IRNode.BasicBlock block)) }
        ensures here { IfSome result (λ block. parent_of ctx.now (IRNode.BasicBlock block)
            ≡ Some (IRNode.Region self)) }
        ensures whole { IsWellFormed D.attr_handles ctx.now }
    {
        prove!(self.is_live(ctx), "the region is not live");
        ctx.nodes.last_block(self)
    }

    /// The block in which control enters the region: its first one.
    pub fn get_entry_block<D: OpSet>(self, ctx: &Context<D>) -> Option<Ptr<BasicBlock>>
        requires { IsLive ctx.now (IRNode.Region self) }
        ensures value { option_map IRNode.BasicBlock result ≡ first_child ctx.now (IRNode.Region self) }
        ensures live { IfSome result (λ block. IsLive ctx.now (IRNode.BasicBlock block)) }
        ensures here { IfSome result (λ block. parent_of ctx.now (IRNode.BasicBlock block)
            ≡ Some (IRNode.Region self)) }
        ensures whole { IsWellFormed D.attr_handles ctx.now }
    {
        prove!(self.is_live(ctx), "the region is not live");
        self.get_head(ctx)
    }
}
