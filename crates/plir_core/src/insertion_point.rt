//! Where an operation is to be put.
ghost use Rattle.std.specs.Prelude.{◌≡◌, ◌↔◌, IfSome, IsTrue, option_map};
ghost use Rattle.plir_core.specs.{ContextView.IsLive, WellFormed.IsWellFormed, declared.ptr.IRNode.IRNode};

use crate::context::Context;
use crate::ptr::{BasicBlock, Operation, Ptr};
use plir_data::OpSet;

/// Where an operation is to be put.
#[derive(Clone, Copy, PartialEq, Eq, Hash, Debug)]
pub enum OpInsertionPoint {
    /// Nowhere.
    Unset,
    /// At the start of a block.
    AtBlockStart(Ptr<BasicBlock>),
    /// At the end of a block.
    AtBlockEnd(Ptr<BasicBlock>),
    /// Right before an operation.
    BeforeOperation(Ptr<Operation>),
    /// Right after an operation.
    AfterOperation(Ptr<Operation>),
}

impl OpInsertionPoint {
    ghost use Rattle.plir_core.specs.InsertionPoint.{IsPointLive, insertion_block};

    /// Whether what the point names, if it names anything, is live.
    pub fn is_live<D: OpSet>(self, ctx: &Context<D>) -> bool
        ensures value { IsTrue result ↔ IsPointLive ctx.now self }
        ensures whole { IsWellFormed D.attr_handles ctx.now }
    {
        ctx.stands();
        match self {
            OpInsertionPoint::Unset => true,
            OpInsertionPoint::AtBlockStart(block) | OpInsertionPoint::AtBlockEnd(block) => {
                block.is_live(ctx)
            }
            OpInsertionPoint::BeforeOperation(op) | OpInsertionPoint::AfterOperation(op) => {
                op.is_live(ctx)
            }
        }
    }

    /// The block that an operation which is put there comes to stand in.
    pub fn get_insertion_block<D: OpSet>(self, ctx: &Context<D>) -> Option<Ptr<BasicBlock>>
        requires { IsPointLive ctx.now self }
        ensures value { option_map IRNode.BasicBlock result ≡ insertion_block ctx.now self }
        ensures live { IfSome result (λ block. IsLive ctx.now (IRNode.BasicBlock block)) }
        ensures whole { IsWellFormed D.attr_handles ctx.now }
    {
        prove!(self.is_live(ctx), "what the point names is not live");
        let _types = &ctx.types;
        match self {
            OpInsertionPoint::Unset => None,
            OpInsertionPoint::AtBlockStart(block) | OpInsertionPoint::AtBlockEnd(block) => {
                Some(block)
            }
            OpInsertionPoint::BeforeOperation(op) | OpInsertionPoint::AfterOperation(op) => {
                op.get_parent_block(ctx)
            }
        }
    }
}
