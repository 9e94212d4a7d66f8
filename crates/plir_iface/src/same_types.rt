//! Interfaces of operations whose operands, or results, have one type.
ghost use Rattle.std.specs.Prelude.{◌≡◌, ◌↔◌, IsOk, IfErr, IfSome, IsTrue};
ghost use Rattle.plir_core.specs.declared.ptr.IRNode.{IRNode};
ghost use Rattle.plir_data.specs.Types.{IsLive as IsTypeLive};
ghost use Rattle.plir_core.specs.ContextView.{IsLive};
ghost use Rattle.plir_core.specs.WellFormed.{IsWellFormed};
ghost use Rattle.plir_iface.specs.Counts.{operand_types, result_types};
ghost use Rattle.plir_iface.specs.Sides.{AllSame, type_in, types_on};
ghost use Rattle.plir_iface.specs.SameTypes.{HasSameOperandsType, HasSameResultsType, HasSameOperandsAndResultType};
ghost use Rattle.plir_iface.specs.SameTypes.{first_type};
ghost use Rattle.plir_iface.specs.Verdict.{IsRefusal};

use crate::op::Op;
use crate::side::Side;
use crate::verdict::accept_if;
use plir_core::{Context, Operation, Ptr};
use plir_data::{OpSet, TypeHandle, VerifyErr};
use thiserror::Error;

/// The operands of an operation have several types.
#[derive(Clone, Copy, PartialEq, Eq, Debug, Error)]
#[error("Op has different operand types")]
pub struct SameOperandsTypeVerifyErr;

/// The results of an operation have several types.
#[derive(Clone, Copy, PartialEq, Eq, Debug, Error)]
#[error("Op has different result types")]
pub struct SameResultsTypeVerifyErr;

/// The first result of an operation has another type than its first operand.
#[derive(Clone, Copy, PartialEq, Eq, Debug, Error)]
#[error("Op has different operand and result types")]
pub struct SameOperandsAndResultTypeVerifyErr;

/// Whether all values on a side of an operation have one type.
fn has_same_types<D: OpSet>(ctx: &Context<D>, op: Ptr<Operation>, side: Side) -> bool
    requires { IsLive ctx.now (IRNode.Operation op) }
    ensures value { IsTrue result ↔ AllSame (types_on side ctx.now op) }
    ensures whole { IsWellFormed D.attr_handles ctx.now }
{
    let count = side.len(ctx, op);
    if count == 0 {
        return true;
    }
    let first = side.type_at(ctx, op, 0);
    for i in 1..count {
        if side.type_at(ctx, op, i) != first {
            return false;
        }
    }
    true
}

/// Whether the first result and the first operand have one type, where there are both.
fn has_same_first_types<D: OpSet>(ctx: &Context<D>, op: Ptr<Operation>) -> bool
    requires { IsLive ctx.now (IRNode.Operation op) }
    ensures value { IsTrue result ↔ HasSameOperandsAndResultType ctx.now op }
    ensures whole { IsWellFormed D.attr_handles ctx.now }
{
    let Some(result_type) = Side::Results.first_type(ctx, op) else {
        return true;
    };
    let Some(operand_type) = Side::Operands.first_type(ctx, op) else {
        return true;
    };
    result_type == operand_type
}

/// Operations whose operands have one type.
pub trait SameOperandsType<D: OpSet>: Op<D> {
    /// Accepts exactly where all operands have the same type.
    final fn verify(&self, ctx: &Context<D>) -> Result<(), VerifyErr<SameOperandsTypeVerifyErr>>
        requires { IsLive ctx.now (IRNode.Operation (Self.pointer self.now)) }
        ensures ok { IsOk result ↔ HasSameOperandsType ctx.now (Self.pointer self.now) }
        ensures refused { IfErr result (IsRefusal ctx.now (Self.pointer self.now) (λ e. e ≡ record {})) }
        ensures whole { IsWellFormed D.attr_handles ctx.now }
    {
        let op = self.get_operation();
        let holds = has_same_types(ctx, op, Side::Operands);
        accept_if(ctx, op, holds, SameOperandsTypeVerifyErr)
    }

    /// The type of the first operand, if there is one.
    final fn common_operand_type(&self, ctx: &Context<D>) -> Option<TypeHandle>
        requires { IsLive ctx.now (IRNode.Operation (Self.pointer self.now)) }
        ensures value { result ≡ type_in (operand_types ctx.now (Self.pointer self.now)) 0 }
        ensures live { IfSome result (IsTypeLive ctx.now.types) }
        ensures whole { IsWellFormed D.attr_handles ctx.now }
    {
        Side::Operands.first_type(ctx, self.get_operation())
    }
}

/// Operations whose results have one type.
pub trait SameResultsType<D: OpSet>: Op<D> {
    /// Accepts exactly where all results have the same type.
    final fn verify(&self, ctx: &Context<D>) -> Result<(), VerifyErr<SameResultsTypeVerifyErr>>
        requires { IsLive ctx.now (IRNode.Operation (Self.pointer self.now)) }
        ensures ok { IsOk result ↔ HasSameResultsType ctx.now (Self.pointer self.now) }
        ensures refused { IfErr result (IsRefusal ctx.now (Self.pointer self.now) (λ e. e ≡ record {})) }
        ensures whole { IsWellFormed D.attr_handles ctx.now }
    {
        let op = self.get_operation();
        let holds = has_same_types(ctx, op, Side::Results);
        accept_if(ctx, op, holds, SameResultsTypeVerifyErr)
    }

    /// The type of the first result, if there is one.
    final fn common_result_type(&self, ctx: &Context<D>) -> Option<TypeHandle>
        requires { IsLive ctx.now (IRNode.Operation (Self.pointer self.now)) }
        ensures value { result ≡ type_in (result_types ctx.now (Self.pointer self.now)) 0 }
        ensures live { IfSome result (IsTypeLive ctx.now.types) }
        ensures whole { IsWellFormed D.attr_handles ctx.now }
    {
        Side::Results.first_type(ctx, self.get_operation())
    }
}

/// Operations whose operands and results all have one type.
pub trait SameOperandsAndResultType<D: OpSet>: SameOperandsType<D> + SameResultsType<D> {
    /// Accepts exactly where the first result and the first operand have the same type, if there are both.
    final fn verify(
        &self,
        ctx: &Context<D>,
    ) -> Result<(), VerifyErr<SameOperandsAndResultTypeVerifyErr>>
        requires { IsLive ctx.now (IRNode.Operation (Self.pointer self.now)) }
        ensures ok { IsOk result ↔ HasSameOperandsAndResultType ctx.now (Self.pointer self.now) }
        ensures refused { IfErr result (IsRefusal ctx.now (Self.pointer self.now) (λ e. e ≡ record {})) }
        ensures whole { IsWellFormed D.attr_handles ctx.now }
    {
        let op = self.get_operation();
        let holds = has_same_first_types(ctx, op);
        accept_if(ctx, op, holds, SameOperandsAndResultTypeVerifyErr)
    }

    /// The type of the first result, if there is one, and else that of the first operand, if there is one.
    final fn common_type(&self, ctx: &Context<D>) -> Option<TypeHandle>
        requires { IsLive ctx.now (IRNode.Operation (Self.pointer self.now)) }
        ensures value { result ≡ first_type ctx.now (Self.pointer self.now) }
        ensures live { IfSome result (IsTypeLive ctx.now.types) }
        ensures whole { IsWellFormed D.attr_handles ctx.now }
    {
        let op = self.get_operation();
        match Side::Results.first_type(ctx, op) {
            Some(ty) => Some(ty),
            None => Side::Operands.first_type(ctx, op),
        }
    }
}
