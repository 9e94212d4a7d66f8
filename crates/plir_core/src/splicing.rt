//! Calls that move the operations of a block to another one, in their order.
ghost use Rattle.std.specs.Prelude.{◌≡◌, ◌↔◌, [], Some, None, OnErr, IfOk, false, IsSome};
ghost use Rattle.plir_store.specs.{Table.next_slot};
ghost use Rattle.plir_core.specs.{Nodes.ptr_at, Room.IsFullForBlock, WellFormed.IsWellFormed};
ghost use Rattle.plir_core.specs.{declared.ptr.IRNode.IRNode};
ghost use Rattle.plir_core.specs.ContextView.{IsLive, IsAncestor, given_out, parent_of, block_at};
ghost use Rattle.plir_core.specs.Moved.{IsSplicedLast, IsSplicedBefore, IsSplitOff, IsSplit};

use crate::arena::making::NodeErr;
use crate::context::Context;
use crate::ptr::{BasicBlock, Operation, Ptr};
use plir_data::OpSet;
use std::alloc::Global;

impl Ptr<BasicBlock> {
    // Puts an operation of the block and all behind it, in their order, at the end of another block, which does not
    // stand below this one.
    fn move_tail<D: OpSet>(
        self,
        ctx: &mut Context<D>,
        first: Ptr<Operation>,
        target: Ptr<BasicBlock>,
    )
        requires live { IsLive ctx.old (IRNode.Operation first) }
        requires here { parent_of ctx.old (IRNode.Operation first) ≡ Some (IRNode.BasicBlock self) }
        requires target_live { IsLive ctx.old (IRNode.BasicBlock target) }
        requires not_above { IsAncestor ctx.old (IRNode.BasicBlock self) (IRNode.BasicBlock target) → ⊥ }
        ensures split { IsSplitOff ctx.old.nodes ctx.new.nodes (IRNode.BasicBlock self) (IRNode.Operation first)
            (IRNode.BasicBlock target) }
        ensures blocks { ctx.new.nodes.blocks ≡ ctx.old.nodes.blocks }
        ensures types { ctx.new.types ≡ ctx.old.types }
        ensures whole { IsWellFormed D.attr_handles ctx.new }
    {
        ctx.stands();
        let mut next = Some(first);
        while let Some(op) = next {
            next = op.get_next(ctx);
            op.unlink(ctx);
            op.insert_at_back(ctx, target);
        }
        let _types = &ctx.types;
    }

    /// Puts all operations of the block, in their order and with all below them, at the end of another block, which is
    /// not this one and does not stand below it (`IRNode::is_ancestor`). This block is empty after it.
    pub fn splice_at_back<D: OpSet>(self, ctx: &mut Context<D>, target: Ptr<BasicBlock>)
        requires live { IsLive ctx.old (IRNode.BasicBlock self) }
        requires target_live { IsLive ctx.old (IRNode.BasicBlock target) }
        requires not_above { IsAncestor ctx.old (IRNode.BasicBlock self) (IRNode.BasicBlock target) → ⊥ }
        ensures spliced { IsSplicedLast ctx.old.nodes ctx.new.nodes (IRNode.BasicBlock self)
            (IRNode.BasicBlock target) }
        ensures types { ctx.new.types ≡ ctx.old.types }
        ensures whole { IsWellFormed D.attr_handles ctx.new }
    {
        prove!(self.is_live(ctx), "the block is not live");
        prove!(target.is_live(ctx), "the block is not live");
        ctx.stands();
        if let Some(first) = self.get_head(ctx) {
            self.move_tail(ctx, first, target);
        }
    }

    /// Puts all operations of the block, in their order and with all below them, right before an operation that is in
    /// another block and does not stand below this one (`IRNode::is_ancestor`). This block is empty after it.
    pub fn splice_before<D: OpSet>(self, ctx: &mut Context<D>, mark: Ptr<Operation>)
        requires live { IsLive ctx.old (IRNode.BasicBlock self) }
        requires mark_live { IsLive ctx.old (IRNode.Operation mark) }
        requires linked { IsSome (parent_of ctx.old (IRNode.Operation mark)) }
        requires not_above { IsAncestor ctx.old (IRNode.BasicBlock self) (IRNode.Operation mark) → ⊥ }
        ensures spliced { IsSplicedBefore ctx.old.nodes ctx.new.nodes (IRNode.BasicBlock self)
            (IRNode.Operation mark) }
        ensures types { ctx.new.types ≡ ctx.old.types }
        ensures whole { IsWellFormed D.attr_handles ctx.new }
    {
        prove!(
            mark.get_parent_block(ctx).is_some(),
            "the operation that marks the place stands in no block"
        );
        prove!(self.is_live(ctx), "the block is not live");
        ctx.stands();
        while let Some(op) = self.get_head(ctx) {
            op.move_before(ctx, mark);
        }
    }

    /// Splits the block before one of its operations: a new block, right behind this one in its region, gets that
    /// operation and all behind it, in their order. It has no arguments, no label and no attributes. `TooManyNodes`
    /// comes exactly where the limit of live nodes is reached or the blocks' slot numbers are spent. After a refusal
    /// all is as before.
    pub fn split_block<D: OpSet>(
        self,
        alloc: Global,
        ctx: &mut Context<D>,
        at: Ptr<Operation>,
    ) -> Result<Ptr<BasicBlock>, NodeErr>
        requires live { IsLive ctx.old (IRNode.Operation at) }
        requires here { parent_of ctx.old (IRNode.Operation at) ≡ Some (IRNode.BasicBlock self) }
        requires linked { IsSome (parent_of ctx.old (IRNode.BasicBlock self)) }
        ensures split { IfOk result (λ p. IsSplit ctx.old.nodes ctx.new.nodes (IRNode.BasicBlock self)
            (IRNode.Operation at) (IRNode.BasicBlock p)) }
        ensures held { IfOk result (λ p. block_at ctx.new p ≡ Some
            (record { label = None; arg_types = []; attributes = [] })) }
        ensures pointer { IfOk result (λ p. p ≡ ptr_at ctx.new.nodes.blocks (next_slot ctx.old.nodes.blocks)) }
        ensures live { IfOk result (λ p. IsLive ctx.new (IRNode.BasicBlock p)) }
        ensures fresh { IfOk result (λ p. given_out ctx.old (IRNode.BasicBlock p) ≡ false) }
        ensures types { ctx.new.types ≡ ctx.old.types }
        ensures err { OnErr result (ctx.new ≡ ctx.old) }
        ensures too_many { (result ≡ Err NodeErr.TooManyNodes) ↔ IsFullForBlock ctx.old.nodes }
        ensures whole { IsWellFormed D.attr_handles ctx.new }
    {
        prove!(at.is_live(ctx), "the operation is not live");
        prove!(
            matches!(at.get_parent_block(ctx), Some(block) if block == self),
            "the operation stands in another block"
        );
        ctx.stands();
        let block = BasicBlock::new(alloc, ctx, None, Vec::new(alloc))?;
        block.insert_after(ctx, self);
        self.move_tail(ctx, at, block);
        Ok(block)
    }
}
