//! How an operation is put into a block and a block into a region, how each is taken out, and how it is moved.
ghost use Rattle.std.specs.Prelude.{◌≡◌, None, IsSome};
ghost use Rattle.plir_core.specs.{Moved.IsMovedBefore, Moved.IsMovedBehind, WellFormed.IsWellFormed};
ghost use Rattle.plir_core.specs.{declared.ptr.IRNode.IRNode};
ghost use Rattle.plir_core.specs.Changes.{with_block_last, with_block_first, with_block_before, with_block_after};
ghost use Rattle.plir_core.specs.Changes.{with_block_unlinked, with_op_last, with_op_before, with_op_after};
ghost use Rattle.plir_core.specs.Changes.{with_op_unlinked, with_op_first};
ghost use Rattle.plir_core.specs.ContextView.{IsLive, IsAncestor, parent_of};
ghost use Rattle.plir_core.specs.Placed.{IsPlacedLast, IsPlacedBefore, IsPlacedBehind, IsPlacedFirst, IsUnlinked};
ghost use Rattle.plir_core.specs.Points.{CanBePut, IsPutAt, with_op_put, with_block_put};

use crate::arena::moving::Point;
use crate::context::Context;
use crate::ptr::{BasicBlock, Operation, Ptr, Region};
use plir_data::OpSet;

// Puts an operation that is in no block at a point.
fn put_op<D: OpSet>(ctx: &mut Context<D>, op: Ptr<Operation>, at: Point<BasicBlock, Operation>)
    requires { CanBePut ctx.old.nodes IRNode.BasicBlock IRNode.Operation op at }
    ensures after { ctx.new ≡ record ctx.old { nodes = with_op_put ctx.old.nodes op at } }
    ensures placed { IsPutAt ctx.old.nodes IRNode.BasicBlock IRNode.Operation ctx.new.nodes op at }
    ensures whole { IsWellFormed D.attr_handles ctx.new }
{
    prove!(op.is_live(ctx), "the operation is not live");
    prove!(
        op.get_parent_block(ctx).is_none(),
        "the operation stands in a block already"
    );
    ctx.nodes.put_op(op, at);
}

// Puts a block that is in no region at a point.
fn put_block<D: OpSet>(ctx: &mut Context<D>, block: Ptr<BasicBlock>, at: Point<Region, BasicBlock>)
    requires { CanBePut ctx.old.nodes IRNode.Region IRNode.BasicBlock block at }
    ensures after { ctx.new ≡ record ctx.old { nodes = with_block_put ctx.old.nodes block at } }
    ensures placed { IsPutAt ctx.old.nodes IRNode.Region IRNode.BasicBlock ctx.new.nodes block at }
    ensures whole { IsWellFormed D.attr_handles ctx.new }
{
    prove!(block.is_live(ctx), "the block is not live");
    prove!(
        block.get_parent_region(ctx).is_none(),
        "the block stands in a region already"
    );
    ctx.nodes.put_block(block, at);
}

impl Ptr<Operation> {
    /// Puts an operation that is in no block at the start of a block that it does not stand above.
    pub fn insert_at_front<D: OpSet>(self, ctx: &mut Context<D>, block: Ptr<BasicBlock>)
        requires live { IsLive ctx.old (IRNode.Operation self) }
        requires target_live { IsLive ctx.old (IRNode.BasicBlock block) }
        requires unlinked { parent_of ctx.old (IRNode.Operation self) ≡ None }
        requires not_above { IsAncestor ctx.old (IRNode.Operation self) (IRNode.BasicBlock block) → ⊥ }
        ensures after { ctx.new ≡ with_op_first ctx.old self block }
        ensures placed { IsPlacedFirst ctx.old.nodes ctx.new.nodes (IRNode.Operation self) (IRNode.BasicBlock block) }
        ensures whole { IsWellFormed D.attr_handles ctx.new }
    {
        prove!(block.is_live(ctx), "the block is not live");
        put_op(ctx, self, Point::AtFront(block));
    }

    /// Puts an operation that is in no block at the end of a block that it does not stand above.
    pub fn insert_at_back<D: OpSet>(self, ctx: &mut Context<D>, block: Ptr<BasicBlock>)
        requires live { IsLive ctx.old (IRNode.Operation self) }
        requires target_live { IsLive ctx.old (IRNode.BasicBlock block) }
        requires unlinked { parent_of ctx.old (IRNode.Operation self) ≡ None }
        requires not_above { IsAncestor ctx.old (IRNode.Operation self) (IRNode.BasicBlock block) → ⊥ }
        ensures after { ctx.new ≡ with_op_last ctx.old self block }
        ensures placed { IsPlacedLast ctx.old.nodes ctx.new.nodes (IRNode.Operation self) (IRNode.BasicBlock block) }
        ensures whole { IsWellFormed D.attr_handles ctx.new }
    {
        prove!(block.is_live(ctx), "the block is not live");
        put_op(ctx, self, Point::AtBack(block));
    }

    /// Puts an operation that is in no block right before one that is in a block, and that it does not stand above.
    pub fn insert_before<D: OpSet>(self, ctx: &mut Context<D>, mark: Ptr<Operation>)
        requires live { IsLive ctx.old (IRNode.Operation self) }
        requires mark_live { IsLive ctx.old (IRNode.Operation mark) }
        requires unlinked { parent_of ctx.old (IRNode.Operation self) ≡ None }
        requires linked { IsSome (parent_of ctx.old (IRNode.Operation mark)) }
        requires not_above { IsAncestor ctx.old (IRNode.Operation self) (IRNode.Operation mark) → ⊥ }
        ensures after { ctx.new ≡ with_op_before ctx.old self mark }
        ensures placed { IsPlacedBefore ctx.old.nodes ctx.new.nodes (IRNode.Operation self) (IRNode.Operation mark) }
        ensures whole { IsWellFormed D.attr_handles ctx.new }
    {
        prove!(
            mark.get_parent_block(ctx).is_some(),
            "the operation that marks the place stands in no block"
        );
        put_op(ctx, self, Point::Before(mark));
    }

    /// Puts an operation that is in no block right after one that is in a block, and that it does not stand above.
    pub fn insert_after<D: OpSet>(self, ctx: &mut Context<D>, mark: Ptr<Operation>)
        requires live { IsLive ctx.old (IRNode.Operation self) }
        requires mark_live { IsLive ctx.old (IRNode.Operation mark) }
        requires unlinked { parent_of ctx.old (IRNode.Operation self) ≡ None }
        requires linked { IsSome (parent_of ctx.old (IRNode.Operation mark)) }
        requires not_above { IsAncestor ctx.old (IRNode.Operation self) (IRNode.Operation mark) → ⊥ }
        ensures after { ctx.new ≡ with_op_after ctx.old self mark }
        ensures placed { IsPlacedBehind ctx.old.nodes ctx.new.nodes (IRNode.Operation self) (IRNode.Operation mark) }
        ensures whole { IsWellFormed D.attr_handles ctx.new }
    {
        prove!(
            mark.get_parent_block(ctx).is_some(),
            "the operation that marks the place stands in no block"
        );
        put_op(ctx, self, Point::After(mark));
    }

    /// Takes the operation out of its block, with all below it. One that is in no block stays as it is.
    pub fn unlink<D: OpSet>(self, ctx: &mut Context<D>)
        requires { IsLive ctx.old (IRNode.Operation self) }
        ensures after { ctx.new ≡ with_op_unlinked ctx.old self }
        ensures unlinked { IsUnlinked ctx.old.nodes ctx.new.nodes (IRNode.Operation self) }
        ensures whole { IsWellFormed D.attr_handles ctx.new }
    {
        prove!(self.is_live(ctx), "the operation is not live");
        ctx.nodes.unlink_op(self);
    }

    /// Takes the operation out of its block, if it is in one, with all below it, and puts it right before another one
    /// that is in a block, and that it does not stand above (`IRNode::is_ancestor`).
    pub fn move_before<D: OpSet>(self, ctx: &mut Context<D>, mark: Ptr<Operation>)
        requires live { IsLive ctx.old (IRNode.Operation self) }
        requires mark_live { IsLive ctx.old (IRNode.Operation mark) }
        requires linked { IsSome (parent_of ctx.old (IRNode.Operation mark)) }
        requires not_above { IsAncestor ctx.old (IRNode.Operation self) (IRNode.Operation mark) → ⊥ }
        ensures after { ctx.new ≡ with_op_before (with_op_unlinked ctx.old self) self mark }
        ensures moved { IsMovedBefore ctx.old.nodes ctx.new.nodes (IRNode.Operation self) (IRNode.Operation mark) }
        ensures whole { IsWellFormed D.attr_handles ctx.new }
    {
        prove!(self.is_live(ctx), "the operation is not live");
        prove!(
            mark.get_parent_block(ctx).is_some(),
            "the operation that marks the place stands in no block"
        );
        self.unlink(ctx);
        put_op(ctx, self, Point::Before(mark));
    }

    /// Takes the operation out of its block, if it is in one, with all below it, and puts it right after another one
    /// that is in a block, and that it does not stand above (`IRNode::is_ancestor`).
    pub fn move_after<D: OpSet>(self, ctx: &mut Context<D>, mark: Ptr<Operation>)
        requires live { IsLive ctx.old (IRNode.Operation self) }
        requires mark_live { IsLive ctx.old (IRNode.Operation mark) }
        requires linked { IsSome (parent_of ctx.old (IRNode.Operation mark)) }
        requires not_above { IsAncestor ctx.old (IRNode.Operation self) (IRNode.Operation mark) → ⊥ }
        ensures after { ctx.new ≡ with_op_after (with_op_unlinked ctx.old self) self mark }
        ensures moved { IsMovedBehind ctx.old.nodes ctx.new.nodes (IRNode.Operation self) (IRNode.Operation mark) }
        ensures whole { IsWellFormed D.attr_handles ctx.new }
    {
        prove!(self.is_live(ctx), "the operation is not live");
        prove!(
            mark.get_parent_block(ctx).is_some(),
            "the operation that marks the place stands in no block"
        );
        self.unlink(ctx);
        put_op(ctx, self, Point::After(mark));
    }
}

impl Ptr<BasicBlock> {
    /// Puts a block that is in no region at the start of a region that it does not stand above.
    pub fn insert_at_front<D: OpSet>(self, ctx: &mut Context<D>, region: Ptr<Region>)
        requires live { IsLive ctx.old (IRNode.BasicBlock self) }
        requires target_live { IsLive ctx.old (IRNode.Region region) }
        requires unlinked { parent_of ctx.old (IRNode.BasicBlock self) ≡ None }
        requires not_above { IsAncestor ctx.old (IRNode.BasicBlock self) (IRNode.Region region) → ⊥ }
        ensures after { ctx.new ≡ with_block_first ctx.old self region }
        ensures placed { IsPlacedFirst ctx.old.nodes ctx.new.nodes (IRNode.BasicBlock self) (IRNode.Region region) }
        ensures whole { IsWellFormed D.attr_handles ctx.new }
    {
        prove!(region.is_live(ctx), "the region is not live");
        put_block(ctx, self, Point::AtFront(region));
    }

    /// Puts a block that is in no region at the end of a region that it does not stand above.
    pub fn insert_at_back<D: OpSet>(self, ctx: &mut Context<D>, region: Ptr<Region>)
        requires live { IsLive ctx.old (IRNode.BasicBlock self) }
        requires target_live { IsLive ctx.old (IRNode.Region region) }
        requires unlinked { parent_of ctx.old (IRNode.BasicBlock self) ≡ None }
        requires not_above { IsAncestor ctx.old (IRNode.BasicBlock self) (IRNode.Region region) → ⊥ }
        ensures after { ctx.new ≡ with_block_last ctx.old self region }
        ensures placed { IsPlacedLast ctx.old.nodes ctx.new.nodes (IRNode.BasicBlock self) (IRNode.Region region) }
        ensures whole { IsWellFormed D.attr_handles ctx.new }
    {
        prove!(region.is_live(ctx), "the region is not live");
        put_block(ctx, self, Point::AtBack(region));
    }

    /// Puts a block that is in no region right before one that is in a region, and that it does not stand above.
    pub fn insert_before<D: OpSet>(self, ctx: &mut Context<D>, mark: Ptr<BasicBlock>)
        requires live { IsLive ctx.old (IRNode.BasicBlock self) }
        requires mark_live { IsLive ctx.old (IRNode.BasicBlock mark) }
        requires unlinked { parent_of ctx.old (IRNode.BasicBlock self) ≡ None }
        requires linked { IsSome (parent_of ctx.old (IRNode.BasicBlock mark)) }
        requires not_above { IsAncestor ctx.old (IRNode.BasicBlock self) (IRNode.BasicBlock mark) → ⊥ }
        ensures after { ctx.new ≡ with_block_before ctx.old self mark }
        ensures placed { IsPlacedBefore ctx.old.nodes ctx.new.nodes (IRNode.BasicBlock self) (IRNode.BasicBlock mark) }
        ensures whole { IsWellFormed D.attr_handles ctx.new }
    {
        prove!(
            mark.get_parent_region(ctx).is_some(),
            "the block that marks the place stands in no region"
        );
        put_block(ctx, self, Point::Before(mark));
    }

    /// Puts a block that is in no region right after one that is in a region, and that it does not stand above.
    pub fn insert_after<D: OpSet>(self, ctx: &mut Context<D>, mark: Ptr<BasicBlock>)
        requires live { IsLive ctx.old (IRNode.BasicBlock self) }
        requires mark_live { IsLive ctx.old (IRNode.BasicBlock mark) }
        requires unlinked { parent_of ctx.old (IRNode.BasicBlock self) ≡ None }
        requires linked { IsSome (parent_of ctx.old (IRNode.BasicBlock mark)) }
        requires not_above { IsAncestor ctx.old (IRNode.BasicBlock self) (IRNode.BasicBlock mark) → ⊥ }
        ensures after { ctx.new ≡ with_block_after ctx.old self mark }
        ensures placed { IsPlacedBehind ctx.old.nodes ctx.new.nodes (IRNode.BasicBlock self) (IRNode.BasicBlock mark) }
        ensures whole { IsWellFormed D.attr_handles ctx.new }
    {
        prove!(
            mark.get_parent_region(ctx).is_some(),
            "the block that marks the place stands in no region"
        );
        put_block(ctx, self, Point::After(mark));
    }

    /// Takes the block out of its region, with all below it. One that is in no region stays as it is.
    pub fn unlink<D: OpSet>(self, ctx: &mut Context<D>)
        requires { IsLive ctx.old (IRNode.BasicBlock self) }
        ensures after { ctx.new ≡ with_block_unlinked ctx.old self }
        ensures unlinked { IsUnlinked ctx.old.nodes ctx.new.nodes (IRNode.BasicBlock self) }
        ensures whole { IsWellFormed D.attr_handles ctx.new }
    {
        prove!(self.is_live(ctx), "the block is not live");
        ctx.nodes.unlink_block(self);
    }
}
