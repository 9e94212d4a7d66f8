//! The interface of operations whose regions have one block each.
ghost use Rattle.std.specs.Prelude.{◌≡◌, ◌<◌, ◌↔◌, Some, None, IsOk, IfErr, IsTrue, length};
ghost use Rattle.plir_core.specs.declared.ptr.IRNode.{IRNode};
ghost use Rattle.plir_core.specs.ContextView.{IsLive, parent_of};
ghost use Rattle.plir_core.specs.WellFormed.{IsWellFormed};
ghost use Rattle.plir_iface.specs.Counts.{regions_of};
ghost use Rattle.plir_iface.specs.Regions.{HasOneBlock, HasSingleBlocks, IsSingleBlocksRefusal, IsNotAboveBody};
ghost use Rattle.plir_iface.specs.Regions.{IsAppendedToBody, body_of};

use crate::ids::id_of_kind;
use crate::op::Op;
use crate::verdict::accept_if;
use plir_core::{BasicBlock, Context, IRNode, Operation, Ptr, Region, laws};
use plir_data::{OpSet, VerifyErr};
use thiserror::Error;

/// An operation has a region with no block, or with more than one: the operation's id.
#[derive(Clone, Copy, PartialEq, Eq, Debug, Error)]
#[error("Op {0} must only have regions with single block")]
pub struct SingleBlockRegionVerifyErr(pub &'static str);

/// Whether a region has one block.
fn has_one_block<D: OpSet>(ctx: &Context<D>, region: Ptr<Region>) -> bool
    requires { IsLive ctx.now (IRNode.Region region) }
    ensures value { IsTrue result ↔ HasOneBlock ctx.now (IRNode.Region region) }
    ensures whole { IsWellFormed D.attr_handles ctx.now }
{
    let Some(first) = region.get_head(ctx) else {
        return false;
    };
    let Some(last) = region.get_tail(ctx) else {
        return false;
    };
    first == last
}

/// Whether each region of an operation has one block. The loop goes from each region to the next one.
fn has_single_blocks<D: OpSet>(ctx: &Context<D>, op: Ptr<Operation>) -> bool
    requires { IsLive ctx.now (IRNode.Operation op) }
    ensures value { IsTrue result ↔ HasSingleBlocks ctx.now op }
    ensures whole { IsWellFormed D.attr_handles ctx.now }
{
    laws::first_child_is_front(ctx, IRNode::Operation(op));
    let mut next = op.first_region(ctx);
    for place in 0..op.num_regions(ctx) {
        let Some(region) = next else { unreachable!() };
        laws::child_at(ctx, IRNode::Operation(op), IRNode::Region(region), place);
        if !has_one_block(ctx, region) {
            return false;
        }
        next = region.get_next(ctx);
    }
    true
}

/// Operations whose regions have one block each.
pub trait SingleBlockRegionInterface<D: OpSet>: Op<D> {
    /// Accepts exactly where each region of the operation has one block.
    final fn verify(&self, ctx: &Context<D>) -> Result<(), VerifyErr<SingleBlockRegionVerifyErr>>
        requires { IsLive ctx.now (IRNode.Operation (Self.pointer self.now)) }
        ensures ok { IsOk result ↔ HasSingleBlocks ctx.now (Self.pointer self.now) }
        ensures refused { IfErr result (IsSingleBlocksRefusal D.kind_id ctx.now (Self.pointer self.now)) }
        ensures whole { IsWellFormed D.attr_handles ctx.now }
    {
        let op = self.get_operation();
        let id = id_of_kind::<D>(op.kind(ctx));
        accept_if(
            ctx,
            op,
            has_single_blocks(ctx, op),
            SingleBlockRegionVerifyErr(id),
        )
    }

    /// The block of the region at an index.
    final fn get_body(&self, ctx: &Context<D>, region: usize) -> Ptr<BasicBlock>
        requires live { IsLive ctx.now (IRNode.Operation (Self.pointer self.now)) }
        requires rule { HasSingleBlocks ctx.now (Self.pointer self.now) }
        requires below { region < length (regions_of ctx.now (Self.pointer self.now)) }
        ensures value { body_of ctx.now (Self.pointer self.now) region ≡ Some (IRNode.BasicBlock result) }
        ensures live { IsLive ctx.now (IRNode.BasicBlock result) }
        ensures whole { IsWellFormed D.attr_handles ctx.now }
    {
        self.get_operation()
            .get_region(ctx, region)
            .get_head(ctx)
            .unwrap()
    }

    /// Puts an operation that is in no block at the end of the block of the region at an index, which it does
    /// not stand above.
    final fn append_operation(&self, ctx: &mut Context<D>, op: Ptr<Operation>, region: usize)
        requires live { IsLive ctx.old (IRNode.Operation (Self.pointer self.now)) }
        requires rule { HasSingleBlocks ctx.old (Self.pointer self.now) }
        requires below { region < length (regions_of ctx.old (Self.pointer self.now)) }
        requires op_live { IsLive ctx.old (IRNode.Operation op) }
        requires unlinked { parent_of ctx.old (IRNode.Operation op) ≡ None }
        requires not_above { IsNotAboveBody ctx.old (Self.pointer self.now) region op }
        ensures after { IsAppendedToBody ctx.old ctx.new (Self.pointer self.now) region op }
        ensures whole { IsWellFormed D.attr_handles ctx.new }
    {
        let body = self.get_body(ctx, region);
        op.insert_at_back(ctx, body);
    }
}
