//! Interfaces of operations by the types of their operands.
ghost use Rattle.std.specs.Prelude.{◌↔◌, ◌<◌, ◌-◌, ◌^◌, IsOk, IfErr};
ghost use Rattle.plir_core.specs.declared.ptr.IRNode.{IRNode};
ghost use Rattle.plir_core.specs.ContextView.{IsLive};
ghost use Rattle.plir_core.specs.WellFormed.{IsWellFormed};
ghost use Rattle.plir_iface.specs.Places.{IsOrdered, signed};
ghost use Rattle.plir_iface.specs.TypeRules.{HasAllOperandsOfType, HasOperandNOfType, HasOperandsMNOfType};
ghost use Rattle.plir_iface.specs.TypeRules.{HasAllOperandsImplsTy, HasOperandNImplsTy, HasOperandsMNImplsTy};
ghost use Rattle.plir_iface.specs.TypeRefusals.{IsAllOperandsOfTypeRefusal, IsOperandNOfTypeRefusal};
ghost use Rattle.plir_iface.specs.TypeRefusals.{IsOperandsMNOfTypeRefusal};
ghost use Rattle.plir_iface.specs.TypeRefusals.{IsAllOperandsImplsTyRefusal, IsOperandNImplsTyRefusal};
ghost use Rattle.plir_iface.specs.TypeRefusals.{IsOperandsMNImplsTyRefusal};

use crate::counts::NotEnoughOperandsErr;
use crate::misfits::{verify_at, verify_each, verify_each_kind};
use crate::op::Op;
use crate::places::Places;
use crate::side::Side;
use crate::type_errors::{
    AllOperandsOfTypeVerifyErr, OperandNOfTypeError, OperandsMNOfTypeError, TypeInterfaceImplsErr,
    TypeRuleErr,
};
use crate::type_tests::{Implementing, OfType};
use plir_core::Context;
use plir_data::{OpSet, TypeInterfaceMark, TypeMark, VerifyErr};
use std::alloc::Global;

/// Operations whose operands all have a type of the kind `T`.
pub trait AllOperandsOfType<D: OpSet, T: TypeMark<D>>: Op<D> {
    /// Accepts exactly where each operand has a type of the kind `T`. The refusal has the text of the first type that
    /// is none, unless memory for that text was refused.
    final fn verify(
        &self,
        alloc: Global,
        ctx: &Context<D>,
    ) -> Result<(), VerifyErr<AllOperandsOfTypeVerifyErr>>
        requires { IsLive ctx.now (IRNode.Operation (Self.pointer self.now)) }
        ensures ok { IsOk result ↔ HasAllOperandsOfType T.marks ctx.now (Self.pointer self.now) }
        ensures refused { IfErr result (IsAllOperandsOfTypeRefusal T.marks T.NAME D.type_id ctx.now
            (Self.pointer self.now) D.type_body_text) }
        ensures whole { IsWellFormed D.attr_handles ctx.now }
    {
        verify_each_kind::<D, T, _>(alloc, ctx, self.get_operation(), Side::Operands)
    }
}

/// Operations whose operands all have a type that implements `I`.
pub trait AllOperandsImplsTy<D: OpSet, I: TypeInterfaceMark<D>>: Op<D> {
    /// Accepts exactly where each operand has a type that implements `I`; the refusal names the first that doesn't.
    final fn verify(&self, ctx: &Context<D>) -> Result<(), VerifyErr<TypeInterfaceImplsErr>>
        requires { IsLive ctx.now (IRNode.Operation (Self.pointer self.now)) }
        ensures ok { IsOk result ↔ HasAllOperandsImplsTy I.marks ctx.now (Self.pointer self.now) }
        ensures refused { IfErr result (IsAllOperandsImplsTyRefusal I.marks I.NAME D.type_id ctx.now
            (Self.pointer self.now)) }
        ensures whole { IsWellFormed D.attr_handles ctx.now }
    {
        verify_each::<D, Implementing<I>, _>(ctx, self.get_operation(), Side::Operands)
    }
}

/// Operations that have an operand at the index `N`, with a type of the kind `T`.
pub trait OperandNOfType<D: OpSet, const N: usize, T: TypeMark<D>>: Op<D> {
    /// Accepts exactly where there is an operand at the index `N`, and its type is of the kind `T`.
    final fn verify(
        &self,
        ctx: &Context<D>,
    ) -> Result<(), VerifyErr<TypeRuleErr<NotEnoughOperandsErr, OperandNOfTypeError>>>
        requires live { IsLive ctx.now (IRNode.Operation (Self.pointer self.now)) }
        requires countable { N < 2 ^ 64 - 1 }
        ensures ok { IsOk result ↔ HasOperandNOfType T.marks ctx.now (Self.pointer self.now) N }
        ensures refused { IfErr result (IsOperandNOfTypeRefusal T.marks T.NAME D.type_id ctx.now (Self.pointer self.now)
            N) }
        ensures whole { IsWellFormed D.attr_handles ctx.now }
    {
        verify_at::<D, OfType<T>, _>(ctx, self.get_operation(), Side::Operands, Places::At(N))
    }
}

/// Operations that have an operand at the index `N`, with a type that implements `I`.
pub trait OperandNImplsTy<D: OpSet, const N: usize, I: TypeInterfaceMark<D>>: Op<D> {
    /// Accepts exactly where there is an operand at the index `N`, and its type implements `I`.
    final fn verify(
        &self,
        ctx: &Context<D>,
    ) -> Result<(), VerifyErr<TypeRuleErr<NotEnoughOperandsErr, TypeInterfaceImplsErr>>>
        requires live { IsLive ctx.now (IRNode.Operation (Self.pointer self.now)) }
        requires countable { N < 2 ^ 64 - 1 }
        ensures ok { IsOk result ↔ HasOperandNImplsTy I.marks ctx.now (Self.pointer self.now) N }
        ensures refused { IfErr result (IsOperandNImplsTyRefusal I.marks I.NAME D.type_id ctx.now
            (Self.pointer self.now) N) }
        ensures whole { IsWellFormed D.attr_handles ctx.now }
    {
        verify_at::<D, Implementing<I>, _>(ctx, self.get_operation(), Side::Operands, Places::At(N))
    }
}

/// Operations whose operands from the index `M` to the index `N` have a type of the kind `T`.
/// The number `N` stands for the signed number of its 32 bits: a negative one counts from the last operand, which is
/// -1.
pub trait OperandsMNOfType<D: OpSet, const M: u32, const N: u32, T: TypeMark<D>>: Op<D> {
    /// Accepts exactly where there are enough operands for the range of indices, and those in it have a type of the
    /// kind `T`.
    final fn verify(&self, ctx: &Context<D>) -> Result<(), VerifyErr<OperandsMNOfTypeError>>
        requires live { IsLive ctx.now (IRNode.Operation (Self.pointer self.now)) }
        requires ordered { IsOrdered M (signed N) }
        ensures ok { IsOk result ↔ HasOperandsMNOfType T.marks ctx.now (Self.pointer self.now) M N }
        ensures refused { IfErr result (IsOperandsMNOfTypeRefusal T.marks T.NAME D.type_id ctx.now
            (Self.pointer self.now) M N) }
        ensures whole { IsWellFormed D.attr_handles ctx.now }
    {
        let places = Places::within(M, N);
        verify_at::<D, OfType<T>, _>(ctx, self.get_operation(), Side::Operands, places)
    }
}

/// Operations whose operands from the index `M` to the index `N` have a type that implements `I`.
/// The number `N` stands for the signed number of its 32 bits: a negative one counts from the last operand, which is
/// -1.
pub trait OperandsMNImplsTy<D: OpSet, const M: u32, const N: u32, I: TypeInterfaceMark<D>>: Op<D> {
    /// Accepts exactly where there are enough operands for the range of indices, and those in it have a type that
    /// implements `I`.
    final fn verify(
        &self,
        ctx: &Context<D>,
    ) -> Result<(), VerifyErr<TypeRuleErr<NotEnoughOperandsErr, TypeInterfaceImplsErr>>>
        requires live { IsLive ctx.now (IRNode.Operation (Self.pointer self.now)) }
        requires ordered { IsOrdered M (signed N) }
        ensures ok { IsOk result ↔ HasOperandsMNImplsTy I.marks ctx.now (Self.pointer self.now) M N }
        ensures refused { IfErr result (IsOperandsMNImplsTyRefusal I.marks I.NAME D.type_id ctx.now
            (Self.pointer self.now) M N) }
        ensures whole { IsWellFormed D.attr_handles ctx.now }
    {
        let places = Places::within(M, N);
        verify_at::<D, Implementing<I>, _>(ctx, self.get_operation(), Side::Operands, places)
    }
}
