//! Interfaces of operations by the types of their results.
ghost use Rattle.std.specs.Prelude.{◌↔◌, ◌<◌, ◌-◌, ◌^◌, IsOk, IfErr};
ghost use Rattle.plir_core.specs.declared.ptr.IRNode.{IRNode};
ghost use Rattle.plir_core.specs.ContextView.{IsLive};
ghost use Rattle.plir_core.specs.WellFormed.{IsWellFormed};
ghost use Rattle.plir_iface.specs.Places.{IsOrdered, signed};
ghost use Rattle.plir_iface.specs.TypeRules.{HasAllResultsOfType, HasResultNOfType, HasResultsMNOfType};
ghost use Rattle.plir_iface.specs.TypeRules.{HasAllResultsImplsTy, HasResultNImplsTy, HasResultsMNImplsTy};
ghost use Rattle.plir_iface.specs.TypeRefusals.{IsAllResultsOfTypeRefusal, IsResultNOfTypeRefusal};
ghost use Rattle.plir_iface.specs.TypeRefusals.{IsResultsMNOfTypeRefusal};
ghost use Rattle.plir_iface.specs.TypeRefusals.{IsAllResultsImplsTyRefusal, IsResultNImplsTyRefusal};
ghost use Rattle.plir_iface.specs.TypeRefusals.{IsResultsMNImplsTyRefusal};

use crate::counts::NotEnoughResultsErr;
use crate::misfits::{verify_at, verify_each, verify_each_kind};
use crate::op::Op;
use crate::places::Places;
use crate::side::Side;
use crate::type_errors::{
    AllResultsOfTypeVerifyErr, ResultNOfTypeError, ResultsMNOfTypeError, TypeInterfaceImplsErr,
    TypeRuleErr,
};
use crate::type_tests::{Implementing, OfType};
use plir_core::Context;
use plir_data::{OpSet, TypeInterfaceMark, TypeMark, VerifyErr};
use std::alloc::Global;

/// Operations whose results all have a type of the kind `T`.
pub trait AllResultsOfType<D: OpSet, T: TypeMark<D>>: Op<D> {
    /// Accepts exactly where each result has a type of the kind `T`. The refusal has the text of the first type that is
    /// none, unless memory for that text was refused.
    final fn verify(
        &self,
        alloc: Global,
        ctx: &Context<D>,
    ) -> Result<(), VerifyErr<AllResultsOfTypeVerifyErr>>
        requires { IsLive ctx.now (IRNode.Operation (Self.pointer self.now)) }
        ensures ok { IsOk result ↔ HasAllResultsOfType T.marks ctx.now (Self.pointer self.now) }
        ensures refused { IfErr result (IsAllResultsOfTypeRefusal T.marks T.NAME D.type_id ctx.now
            (Self.pointer self.now) D.type_body_text) }
        ensures whole { IsWellFormed D.attr_handles ctx.now }
    {
        verify_each_kind::<D, T, _>(alloc, ctx, self.get_operation(), Side::Results)
    }
}

/// Operations whose results all have a type that implements `I`.
pub trait AllResultsImplsTy<D: OpSet, I: TypeInterfaceMark<D>>: Op<D> {
    /// Accepts exactly where each result has a type that implements `I`; the refusal names the first that doesn't.
    final fn verify(&self, ctx: &Context<D>) -> Result<(), VerifyErr<TypeInterfaceImplsErr>>
        requires { IsLive ctx.now (IRNode.Operation (Self.pointer self.now)) }
        ensures ok { IsOk result ↔ HasAllResultsImplsTy I.marks ctx.now (Self.pointer self.now) }
        ensures refused { IfErr result (IsAllResultsImplsTyRefusal I.marks I.NAME D.type_id ctx.now
            (Self.pointer self.now)) }
        ensures whole { IsWellFormed D.attr_handles ctx.now }
    {
        verify_each::<D, Implementing<I>, _>(ctx, self.get_operation(), Side::Results)
    }
}

/// Operations that have a result at the index `N`, with a type of the kind `T`.
pub trait ResultNOfType<D: OpSet, const N: usize, T: TypeMark<D>>: Op<D> {
    /// Accepts exactly where there is a result at the index `N`, and its type is of the kind `T`.
    final fn verify(
        &self,
        ctx: &Context<D>,
    ) -> Result<(), VerifyErr<TypeRuleErr<NotEnoughResultsErr, ResultNOfTypeError>>>
        requires live { IsLive ctx.now (IRNode.Operation (Self.pointer self.now)) }
        requires countable { N < 2 ^ 64 - 1 }
        ensures ok { IsOk result ↔ HasResultNOfType T.marks ctx.now (Self.pointer self.now) N }
        ensures refused { IfErr result (IsResultNOfTypeRefusal T.marks T.NAME D.type_id ctx.now
            (Self.pointer self.now) N) }
        ensures whole { IsWellFormed D.attr_handles ctx.now }
    {
        verify_at::<D, OfType<T>, _>(ctx, self.get_operation(), Side::Results, Places::At(N))
    }
}

/// Operations that have a result at the index `N`, with a type that implements `I`.
pub trait ResultNImplsTy<D: OpSet, const N: usize, I: TypeInterfaceMark<D>>: Op<D> {
    /// Accepts exactly where there is a result at the index `N`, and its type implements `I`.
    final fn verify(
        &self,
        ctx: &Context<D>,
    ) -> Result<(), VerifyErr<TypeRuleErr<NotEnoughResultsErr, TypeInterfaceImplsErr>>>
        requires live { IsLive ctx.now (IRNode.Operation (Self.pointer self.now)) }
        requires countable { N < 2 ^ 64 - 1 }
        ensures ok { IsOk result ↔ HasResultNImplsTy I.marks ctx.now (Self.pointer self.now) N }
        ensures refused { IfErr result (IsResultNImplsTyRefusal I.marks I.NAME D.type_id ctx.now (Self.pointer self.now)
            N) }
        ensures whole { IsWellFormed D.attr_handles ctx.now }
    {
        verify_at::<D, Implementing<I>, _>(ctx, self.get_operation(), Side::Results, Places::At(N))
    }
}

/// Operations whose results from the index `M` to the index `N` have a type of the kind `T`.
/// The number `N` stands for the signed number of its 32 bits: a negative one counts from the last result, which is -1.
pub trait ResultsMNOfType<D: OpSet, const M: u32, const N: u32, T: TypeMark<D>>: Op<D> {
    /// Accepts exactly where there are enough results for the range of indices, and those in it have a type of the kind
    /// `T`.
    final fn verify(&self, ctx: &Context<D>) -> Result<(), VerifyErr<ResultsMNOfTypeError>>
        requires live { IsLive ctx.now (IRNode.Operation (Self.pointer self.now)) }
        requires ordered { IsOrdered M (signed N) }
        ensures ok { IsOk result ↔ HasResultsMNOfType T.marks ctx.now (Self.pointer self.now) M N }
        ensures refused { IfErr result (IsResultsMNOfTypeRefusal T.marks T.NAME D.type_id ctx.now
            (Self.pointer self.now) M N) }
        ensures whole { IsWellFormed D.attr_handles ctx.now }
    {
        let places = Places::within(M, N);
        verify_at::<D, OfType<T>, _>(ctx, self.get_operation(), Side::Results, places)
    }
}

/// Operations whose results from the index `M` to the index `N` have a type that implements `I`.
/// The number `N` stands for the signed number of its 32 bits: a negative one counts from the last result, which is -1.
pub trait ResultsMNImplsTy<D: OpSet, const M: u32, const N: u32, I: TypeInterfaceMark<D>>: Op<D> {
    /// Accepts exactly where there are enough results for the range of indices, and those in it have a type that
    /// implements `I`.
    final fn verify(
        &self,
        ctx: &Context<D>,
    ) -> Result<(), VerifyErr<TypeRuleErr<NotEnoughResultsErr, TypeInterfaceImplsErr>>>
        requires live { IsLive ctx.now (IRNode.Operation (Self.pointer self.now)) }
        requires ordered { IsOrdered M (signed N) }
        ensures ok { IsOk result ↔ HasResultsMNImplsTy I.marks ctx.now (Self.pointer self.now) M N }
        ensures refused { IfErr result (IsResultsMNImplsTyRefusal I.marks I.NAME D.type_id ctx.now
            (Self.pointer self.now) M N) }
        ensures whole { IsWellFormed D.attr_handles ctx.now }
    {
        let places = Places::within(M, N);
        verify_at::<D, Implementing<I>, _>(ctx, self.get_operation(), Side::Results, places)
    }
}
