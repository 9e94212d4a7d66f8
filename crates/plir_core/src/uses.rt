//! Uses: the places of operations where a value stands as an operand, or a block as a successor.
ghost use Rattle.std.specs.Prelude.{◌≡◌, ◌<◌, Some, length, slice_get};
ghost use Rattle.plir_core.specs.ContextView.{IsLive, IsValueLive, operands_of};
ghost use Rattle.plir_core.specs.WellFormed.{IsWellFormed};
ghost use Rattle.plir_core.specs.declared.ptr.IRNode.{IRNode};

pub(crate) mod counts;
mod listing;
mod noted;
mod replacing;
mod unused;
mod users;
mod value_uses;

use crate::context::Context;
use crate::ptr::{BasicBlock, IRNode, Operation, Ptr};
use crate::value::Value;
use plir_data::OpSet;
use std::marker::PhantomData;

/// A place of an operation where a `T` is used.
#[derive(Clone, Copy, PartialEq, Eq, Hash, Debug)]
pub struct Use<T> {
    op: Ptr<Operation>,
    index: usize,
    kind: PhantomData<T>,
}

impl Use<Value> {
    /// The use as the operand of an operation at a place, from 0.
    pub fn new(op: Ptr<Operation>, i: usize) -> Use<Value>
        ensures op { result.op ≡ op }
        ensures index { result.index ≡ i }
    {
        Use {
            op,
            index: i,
            kind: PhantomData,
        }
    }

    /// The operation that uses the value.
    pub fn user_op(self) -> Ptr<Operation>
        ensures { result ≡ self.op }
    {
        self.op
    }

    /// The value that is used: the operand at this place.
    pub fn get_def<D: OpSet>(self, ctx: &Context<D>) -> Value
        requires live { IsLive ctx.now (IRNode.Operation self.op) }
        requires below { self.index < length (operands_of ctx.now self.op) }
        ensures value { slice_get (operands_of ctx.now self.op) self.index ≡ Some result }
        ensures live { IsValueLive ctx.now result }
        ensures whole { IsWellFormed D.attr_handles ctx.now }
    {
        self.op.get_operand(ctx, self.index)
    }

    /// The place among the operation's operands, from 0.
    pub fn opd_idx(self) -> usize
        ensures { result ≡ self.index }
    {
        self.index
    }
}

impl Use<Ptr<BasicBlock>> {
    /// The operation that has the block as a successor.
    pub fn branch_op(self) -> Ptr<Operation>
        ensures { result ≡ self.op }
    {
        self.op
    }

    /// The place among the operation's successors, from 0.
    pub fn succ_idx(self) -> usize
        ensures { result ≡ self.index }
    {
        self.index
    }
}
