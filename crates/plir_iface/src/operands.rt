//! Interfaces of operations by their operands.
ghost use Rattle.std.specs.Prelude.{◌≡◌, ◌<◌, ◌+◌, ◌-◌, ◌^◌, ◌↔◌, Some, IsOk, IfOk, IfErr, IsSome, IfSome, slice_get};
ghost use Rattle.plir_data.specs.Types.{IsLive as IsTypeLive};
ghost use Rattle.plir_core.specs.ContextView.{IsLive, IsValueLive, operands_of};
ghost use Rattle.plir_core.specs.WellFormed.{IsWellFormed};
ghost use Rattle.plir_core.specs.declared.ptr.IRNode.{IRNode};
ghost use Rattle.plir_iface.specs.Counts.{HasNOpds, HasAtMostNOpds, HasAtLeastNOpds, num_operands, operand_types};
ghost use Rattle.plir_iface.specs.CountRefusals.{IsNOpdsRefusal, IsAtMostNOpdsRefusal, IsAtLeastNOpdsRefusal};
ghost use Rattle.plir_iface.specs.Verdict.{IsRefusal};

use crate::counts::{
    AtLeastNOpdsVerifyErr, AtMostNOpdsVerifyErr, NOpdsVerifyErr, NotEnoughOperandsErr,
};
use crate::op::Op;
use crate::verdict::accept_if;
use plir_core::{Context, LessThanN, Operation, Ptr, Value};
use plir_data::{OpSet, TypeHandle, VerifyErr};

/// Operations that have `N` operands.
pub trait NOpdsInterface<D: OpSet, const N: usize>: Op<D> {
    /// Accepts exactly where the operation has `N` operands.
    final fn verify(&self, ctx: &Context<D>) -> Result<(), VerifyErr<NOpdsVerifyErr>>
        requires { IsLive ctx.now (IRNode.Operation (Self.pointer self.now)) }
        ensures ok { IsOk result ↔ HasNOpds N ctx.now (Self.pointer self.now) }
        ensures refused { IfErr result (IsNOpdsRefusal N ctx.now (Self.pointer self.now)) }
        ensures whole { IsWellFormed D.attr_handles ctx.now }
    {
        let op = self.get_operation();
        let found = op.get_num_operands(ctx);
        accept_if(ctx, op, found == N, NOpdsVerifyErr(N, found))
    }

    /// The operand at an index.
    final fn get_operand_i(&self, ctx: &Context<D>, i: LessThanN<N>) -> Value
        requires live { IsLive ctx.now (IRNode.Operation (Self.pointer self.now)) }
        requires rule { HasNOpds N ctx.now (Self.pointer self.now) }
        ensures value { slice_get (operands_of ctx.now (Self.pointer self.now)) i.entry ≡ Some result }
        ensures live { IsValueLive ctx.now result }
        ensures whole { IsWellFormed D.attr_handles ctx.now }
    {
        self.get_operation().get_operand(ctx, i.i())
    }

    /// The type of the operand at an index.
    final fn operand_type_i(&self, ctx: &Context<D>, i: LessThanN<N>) -> TypeHandle
        requires live { IsLive ctx.now (IRNode.Operation (Self.pointer self.now)) }
        requires rule { HasNOpds N ctx.now (Self.pointer self.now) }
        ensures value { slice_get (operand_types ctx.now (Self.pointer self.now)) i.entry ≡ Some (Some result) }
        ensures live { IsTypeLive ctx.now.types result }
        ensures whole { IsWellFormed D.attr_handles ctx.now }
    {
        self.get_operation().get_operand(ctx, i.i()).get_type(ctx)
    }
}

/// Operations that have at most `N` operands.
pub trait AtMostNOpdsInterface<D: OpSet, const N: usize>: Op<D> {
    /// Accepts exactly where the operation has at most `N` operands.
    final fn verify(&self, ctx: &Context<D>) -> Result<(), VerifyErr<AtMostNOpdsVerifyErr>>
        requires { IsLive ctx.now (IRNode.Operation (Self.pointer self.now)) }
        ensures ok { IsOk result ↔ HasAtMostNOpds N ctx.now (Self.pointer self.now) }
        ensures refused { IfErr result (IsAtMostNOpdsRefusal N ctx.now (Self.pointer self.now)) }
        ensures whole { IsWellFormed D.attr_handles ctx.now }
    {
        let op = self.get_operation();
        let found = op.get_num_operands(ctx);
        accept_if(ctx, op, found <= N, AtMostNOpdsVerifyErr(N, found))
    }
}

/// Operations that have one operand, or none.
pub trait OptionalOpdInterface<D: OpSet>: Op<D> {
    /// Accepts exactly where the operation has at most one operand.
    final fn verify(&self, ctx: &Context<D>) -> Result<(), VerifyErr<AtMostNOpdsVerifyErr>>
        requires { IsLive ctx.now (IRNode.Operation (Self.pointer self.now)) }
        ensures ok { IsOk result ↔ HasAtMostNOpds 1 ctx.now (Self.pointer self.now) }
        ensures refused { IfErr result (IsAtMostNOpdsRefusal 1 ctx.now (Self.pointer self.now)) }
        ensures whole { IsWellFormed D.attr_handles ctx.now }
    {
        let op = self.get_operation();
        let found = op.get_num_operands(ctx);
        accept_if(ctx, op, found <= 1, AtMostNOpdsVerifyErr(1, found))
    }

    /// The operand, if there is one and no other.
    final fn get_operand_opt(&self, ctx: &Context<D>) -> Option<Value>
        requires { IsLive ctx.now (IRNode.Operation (Self.pointer self.now)) }
        ensures some { IsSome result ↔ HasNOpds 1 ctx.now (Self.pointer self.now) }
        ensures value { IfSome result (λ v. slice_get (operands_of ctx.now (Self.pointer self.now)) 0 ≡ Some v) }
        ensures live { IfSome result (IsValueLive ctx.now) }
        ensures whole { IsWellFormed D.attr_handles ctx.now }
    {
        let op = self.get_operation();
        if op.get_num_operands(ctx) != 1 {
            return None;
        }
        Some(op.get_operand(ctx, 0))
    }
}

/// Operations that have at least `N` operands.
pub trait AtLeastNOpdsInterface<D: OpSet, const N: usize>: Op<D> {
    /// Accepts exactly where the operation has at least `N` operands.
    final fn verify(&self, ctx: &Context<D>) -> Result<(), VerifyErr<AtLeastNOpdsVerifyErr>>
        requires { IsLive ctx.now (IRNode.Operation (Self.pointer self.now)) }
        ensures ok { IsOk result ↔ HasAtLeastNOpds N ctx.now (Self.pointer self.now) }
        ensures refused { IfErr result (IsAtLeastNOpdsRefusal N ctx.now (Self.pointer self.now)) }
        ensures whole { IsWellFormed D.attr_handles ctx.now }
    {
        let op = self.get_operation();
        let found = op.get_num_operands(ctx);
        accept_if(ctx, op, N <= found, AtLeastNOpdsVerifyErr(N, found))
    }
}

/// Operations that have one operand.
pub trait OneOpdInterface<D: OpSet>: Op<D> {
    /// Accepts exactly where the operation has one operand.
    final fn verify(&self, ctx: &Context<D>) -> Result<(), VerifyErr<NOpdsVerifyErr>>
        requires { IsLive ctx.now (IRNode.Operation (Self.pointer self.now)) }
        ensures ok { IsOk result ↔ HasNOpds 1 ctx.now (Self.pointer self.now) }
        ensures refused { IfErr result (IsNOpdsRefusal 1 ctx.now (Self.pointer self.now)) }
        ensures whole { IsWellFormed D.attr_handles ctx.now }
    {
        let op = self.get_operation();
        let found = op.get_num_operands(ctx);
        accept_if(ctx, op, found == 1, NOpdsVerifyErr(1, found))
    }

    /// The operand.
    final fn get_operand(&self, ctx: &Context<D>) -> Value
        requires live { IsLive ctx.now (IRNode.Operation (Self.pointer self.now)) }
        requires rule { HasNOpds 1 ctx.now (Self.pointer self.now) }
        ensures value { slice_get (operands_of ctx.now (Self.pointer self.now)) 0 ≡ Some result }
        ensures live { IsValueLive ctx.now result }
        ensures whole { IsWellFormed D.attr_handles ctx.now }
    {
        self.get_operation().get_operand(ctx, 0)
    }

    /// The type of the operand.
    final fn operand_type(&self, ctx: &Context<D>) -> TypeHandle
        requires live { IsLive ctx.now (IRNode.Operation (Self.pointer self.now)) }
        requires rule { HasNOpds 1 ctx.now (Self.pointer self.now) }
        ensures value { slice_get (operand_types ctx.now (Self.pointer self.now)) 0 ≡ Some (Some result) }
        ensures live { IsTypeLive ctx.now.types result }
        ensures whole { IsWellFormed D.attr_handles ctx.now }
    {
        self.get_operation().get_operand(ctx, 0).get_type(ctx)
    }
}

/// The operand at the index `N`, if the operation has so many.
pub fn verify_get_operand_n<D: OpSet, const N: usize>(
    op: Ptr<Operation>,
    ctx: &Context<D>,
) -> Result<Value, VerifyErr<NotEnoughOperandsErr>>
    requires live { IsLive ctx.now (IRNode.Operation op) }
    requires countable { N < 2 ^ 64 - 1 }
    ensures ok { IsOk result ↔ (N < num_operands ctx.now op) }
    ensures value { IfOk result (λ v. slice_get (operands_of ctx.now op) N ≡ Some v) }
    ensures live { IfOk result (IsValueLive ctx.now) }
    ensures refused { IfErr result (IsRefusal ctx.now op (λ e. (e.0 ≡ num_operands ctx.now op) × (e.1 ≡ N + 1))) }
    ensures whole { IsWellFormed D.attr_handles ctx.now }
{
    let found = op.get_num_operands(ctx);
    accept_if(ctx, op, N < found, NotEnoughOperandsErr(found, N + 1))?;
    Ok(op.get_operand(ctx, N))
}
