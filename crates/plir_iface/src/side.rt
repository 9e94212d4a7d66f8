//! The operands of an operation and its results as one idea: values in order, each with its type.
ghost use Rattle.std.specs.Prelude.{◌≡◌, ◌<◌, IfSome, Some, length};
ghost use Rattle.plir_data.specs.Types.{IsLive as IsTypeLive};
ghost use Rattle.plir_core.specs.declared.ptr.IRNode.{IRNode};
ghost use Rattle.plir_core.specs.ContextView.{IsLive};
ghost use Rattle.plir_core.specs.WellFormed.{IsWellFormed};

use plir_core::{Context, Operation, Ptr};
use plir_data::{OpSet, TypeHandle};

/// The operands of an operation, or its results.
#[derive(Clone, Copy, PartialEq, Eq, Debug)]
pub enum Side {
    /// The operands.
    Operands,
    /// The results.
    Results,
}

impl Side {
    ghost use Rattle.plir_iface.specs.Sides.{types_on, type_in};

    /// How many values there are.
    pub(crate) fn len<D: OpSet>(self, ctx: &Context<D>, op: Ptr<Operation>) -> usize
        requires { IsLive ctx.now (IRNode.Operation op) }
        ensures value { result ≡ length (types_on self ctx.now op) }
        ensures whole { IsWellFormed D.attr_handles ctx.now }
    {
        match self {
            Side::Operands => op.get_num_operands(ctx),
            Side::Results => op.get_num_results(ctx),
        }
    }

    /// The type of the value at an index.
    pub fn type_at<D: OpSet>(self, ctx: &Context<D>, op: Ptr<Operation>, i: usize) -> TypeHandle
        requires live { IsLive ctx.now (IRNode.Operation op) }
        requires below { i < length (types_on self ctx.now op) }
        ensures value { type_in (types_on self ctx.now op) i ≡ Some result }
        ensures live { IsTypeLive ctx.now.types result }
        ensures whole { IsWellFormed D.attr_handles ctx.now }
    {
        match self {
            Side::Operands => op.get_operand(ctx, i).get_type(ctx),
            Side::Results => op.get_type(ctx, i),
        }
    }

    /// The type of the first value, if there is one.
    pub(crate) fn first_type<D: OpSet>(
        self,
        ctx: &Context<D>,
        op: Ptr<Operation>,
    ) -> Option<TypeHandle>
        requires { IsLive ctx.now (IRNode.Operation op) }
        ensures value { result ≡ type_in (types_on self ctx.now op) 0 }
        ensures live { IfSome result (IsTypeLive ctx.now.types) }
        ensures whole { IsWellFormed D.attr_handles ctx.now }
    {
        if self.len(ctx, op) == 0 {
            return None;
        }
        Some(self.type_at(ctx, op, 0))
    }
}
