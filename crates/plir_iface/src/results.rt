//! Interfaces of operations by their results.
ghost use Rattle.std.specs.Prelude.{◌≡◌, ◌<◌, ◌+◌, ◌-◌, ◌^◌, ◌↔◌, Some, IsOk, IfOk, IfErr, IsSome, IfSome, slice_get};
ghost use Rattle.plir_data.specs.Types.{IsLive as IsTypeLive};
ghost use Rattle.plir_core.specs.ContextView.{IsLive, IsValueLive};
ghost use Rattle.plir_core.specs.WellFormed.{IsWellFormed};
ghost use Rattle.plir_core.specs.declared.ptr.IRNode.{IRNode};
ghost use Rattle.plir_iface.specs.Counts.{HasNResults, HasAtMostNResults, HasAtLeastNResults, num_results, result_at};
ghost use Rattle.plir_iface.specs.Counts.{result_types};
ghost use Rattle.plir_iface.specs.CountRefusals.{IsNResultsRefusal, IsAtMostNResultsRefusal, IsAtLeastNResultsRefusal};
ghost use Rattle.plir_iface.specs.Verdict.{IsRefusal};

use crate::counts::{
    AtLeastNResultsVerifyErr, AtMostNResultsVerifyErr, NResultsVerifyErr, NotEnoughResultsErr,
};
use crate::op::Op;
use crate::verdict::accept_if;
use plir_core::{Context, LessThanN, Operation, Ptr, Value};
use plir_data::{OpSet, TypeHandle, VerifyErr};

/// Operations that have `N` results.
pub trait NResultsInterface<D: OpSet, const N: usize>: Op<D> {
    /// Accepts exactly where the operation has `N` results.
    final fn verify(&self, ctx: &Context<D>) -> Result<(), VerifyErr<NResultsVerifyErr>>
        requires { IsLive ctx.now (IRNode.Operation (Self.pointer self.now)) }
        ensures ok { IsOk result ↔ HasNResults N ctx.now (Self.pointer self.now) }
        ensures refused { IfErr result (IsNResultsRefusal N ctx.now (Self.pointer self.now)) }
        ensures whole { IsWellFormed D.attr_handles ctx.now }
    {
        let op = self.get_operation();
        let found = op.get_num_results(ctx);
        accept_if(ctx, op, found == N, NResultsVerifyErr(N, found))
    }

    /// The result at an index.
    final fn get_result_i(&self, ctx: &Context<D>, i: LessThanN<N>) -> Value
        requires live { IsLive ctx.now (IRNode.Operation (Self.pointer self.now)) }
        requires rule { HasNResults N ctx.now (Self.pointer self.now) }
        ensures value { result ≡ result_at (Self.pointer self.now) i.entry }
        ensures live { IsValueLive ctx.now result }
        ensures whole { IsWellFormed D.attr_handles ctx.now }
    {
        self.get_operation().get_result(ctx, i.i())
    }

    /// The type of the result at an index.
    final fn result_type_i(&self, ctx: &Context<D>, i: LessThanN<N>) -> TypeHandle
        requires live { IsLive ctx.now (IRNode.Operation (Self.pointer self.now)) }
        requires rule { HasNResults N ctx.now (Self.pointer self.now) }
        ensures value { slice_get (result_types ctx.now (Self.pointer self.now)) i.entry ≡ Some (Some result) }
        ensures live { IsTypeLive ctx.now.types result }
        ensures whole { IsWellFormed D.attr_handles ctx.now }
    {
        self.get_operation().get_type(ctx, i.i())
    }
}

/// Operations that have at most `N` results.
pub trait AtMostNResultsInterface<D: OpSet, const N: usize>: Op<D> {
    /// Accepts exactly where the operation has at most `N` results.
    final fn verify(&self, ctx: &Context<D>) -> Result<(), VerifyErr<AtMostNResultsVerifyErr>>
        requires { IsLive ctx.now (IRNode.Operation (Self.pointer self.now)) }
        ensures ok { IsOk result ↔ HasAtMostNResults N ctx.now (Self.pointer self.now) }
        ensures refused { IfErr result (IsAtMostNResultsRefusal N ctx.now (Self.pointer self.now)) }
        ensures whole { IsWellFormed D.attr_handles ctx.now }
    {
        let op = self.get_operation();
        let found = op.get_num_results(ctx);
        accept_if(ctx, op, found <= N, AtMostNResultsVerifyErr(N, found))
    }
}

/// Operations that have one result, or none.
pub trait OptionalResultInterface<D: OpSet>: Op<D> {
    /// Accepts exactly where the operation has at most one result.
    final fn verify(&self, ctx: &Context<D>) -> Result<(), VerifyErr<AtMostNResultsVerifyErr>>
        requires { IsLive ctx.now (IRNode.Operation (Self.pointer self.now)) }
        ensures ok { IsOk result ↔ HasAtMostNResults 1 ctx.now (Self.pointer self.now) }
        ensures refused { IfErr result (IsAtMostNResultsRefusal 1 ctx.now (Self.pointer self.now)) }
        ensures whole { IsWellFormed D.attr_handles ctx.now }
    {
        let op = self.get_operation();
        let found = op.get_num_results(ctx);
        accept_if(ctx, op, found <= 1, AtMostNResultsVerifyErr(1, found))
    }

    /// The result, if there is one and no other.
    final fn get_result_opt(&self, ctx: &Context<D>) -> Option<Value>
        requires { IsLive ctx.now (IRNode.Operation (Self.pointer self.now)) }
        ensures some { IsSome result ↔ HasNResults 1 ctx.now (Self.pointer self.now) }
        ensures value { IfSome result (λ v. v ≡ result_at (Self.pointer self.now) 0) }
        ensures live { IfSome result (IsValueLive ctx.now) }
        ensures whole { IsWellFormed D.attr_handles ctx.now }
    {
        let op = self.get_operation();
        if op.get_num_results(ctx) != 1 {
            return None;
        }
        Some(op.get_result(ctx, 0))
    }
}

/// Operations that have at least `N` results.
pub trait AtLeastNResultsInterface<D: OpSet, const N: usize>: Op<D> {
    /// Accepts exactly where the operation has at least `N` results.
    final fn verify(&self, ctx: &Context<D>) -> Result<(), VerifyErr<AtLeastNResultsVerifyErr>>
        requires { IsLive ctx.now (IRNode.Operation (Self.pointer self.now)) }
        ensures ok { IsOk result ↔ HasAtLeastNResults N ctx.now (Self.pointer self.now) }
        ensures refused { IfErr result (IsAtLeastNResultsRefusal N ctx.now (Self.pointer self.now)) }
        ensures whole { IsWellFormed D.attr_handles ctx.now }
    {
        let op = self.get_operation();
        let found = op.get_num_results(ctx);
        accept_if(ctx, op, N <= found, AtLeastNResultsVerifyErr(N, found))
    }
}

/// Operations that have one result.
pub trait OneResultInterface<D: OpSet>: Op<D> {
    /// Accepts exactly where the operation has one result.
    final fn verify(&self, ctx: &Context<D>) -> Result<(), VerifyErr<NResultsVerifyErr>>
        requires { IsLive ctx.now (IRNode.Operation (Self.pointer self.now)) }
        ensures ok { IsOk result ↔ HasNResults 1 ctx.now (Self.pointer self.now) }
        ensures refused { IfErr result (IsNResultsRefusal 1 ctx.now (Self.pointer self.now)) }
        ensures whole { IsWellFormed D.attr_handles ctx.now }
    {
        let op = self.get_operation();
        let found = op.get_num_results(ctx);
        accept_if(ctx, op, found == 1, NResultsVerifyErr(1, found))
    }

    /// The result.
    final fn get_result(&self, ctx: &Context<D>) -> Value
        requires live { IsLive ctx.now (IRNode.Operation (Self.pointer self.now)) }
        requires rule { HasNResults 1 ctx.now (Self.pointer self.now) }
        ensures value { result ≡ result_at (Self.pointer self.now) 0 }
        ensures live { IsValueLive ctx.now result }
        ensures whole { IsWellFormed D.attr_handles ctx.now }
    {
        self.get_operation().get_result(ctx, 0)
    }

    /// The type of the result.
    final fn result_type(&self, ctx: &Context<D>) -> TypeHandle
        requires live { IsLive ctx.now (IRNode.Operation (Self.pointer self.now)) }
        requires rule { HasNResults 1 ctx.now (Self.pointer self.now) }
        ensures value { slice_get (result_types ctx.now (Self.pointer self.now)) 0 ≡ Some (Some result) }
        ensures live { IsTypeLive ctx.now.types result }
        ensures whole { IsWellFormed D.attr_handles ctx.now }
    {
        self.get_operation().get_type(ctx, 0)
    }
}

/// The result at the index `N`, if the operation has so many.
pub fn verify_get_result_n<D: OpSet, const N: usize>(
    op: Ptr<Operation>,
    ctx: &Context<D>,
) -> Result<Value, VerifyErr<NotEnoughResultsErr>>
    requires live { IsLive ctx.now (IRNode.Operation op) }
    requires countable { N < 2 ^ 64 - 1 }
    ensures ok { IsOk result ↔ (N < num_results ctx.now op) }
    ensures value { IfOk result (λ v. v ≡ result_at op N) }
    ensures live { IfOk result (IsValueLive ctx.now) }
    ensures refused { IfErr result (IsRefusal ctx.now op (λ e. (e.0 ≡ num_results ctx.now op) × (e.1 ≡ N + 1))) }
    ensures whole { IsWellFormed D.attr_handles ctx.now }
{
    let found = op.get_num_results(ctx);
    accept_if(ctx, op, N < found, NotEnoughResultsErr(found, N + 1))?;
    Ok(op.get_result(ctx, N))
}
