//! Interfaces of operations whose operands in one segment have a type that is asked for.
ghost use Rattle.std.specs.Prelude.{◌≡◌, ◌↔◌, ◌<◌, Err, IsOk, IfErr, IsNone, IfSome};
ghost use Rattle.plir_core.specs.declared.ptr.IRNode.{IRNode};
ghost use Rattle.plir_core.specs.ContextView.{IsLive};
ghost use Rattle.plir_core.specs.WellFormed.{IsWellFormed};
ghost use Rattle.plir_iface.specs.Counts.{num_operands};
ghost use Rattle.plir_iface.specs.TypeRules.{EachPasses};
ghost use Rattle.plir_iface.specs.Verdict.{IsRefusal};
ghost use Rattle.plir_flow.specs.Segments.{num_segments, IsSegmented, HasSegments};
ghost use Rattle.plir_flow.specs.SegmentTypes.{segment_types, IsFirstFailingOperand, IsSegmentWithout};
ghost use Rattle.plir_flow.specs.SegmentTypes.{HasSegmentNOfType, HasSegmentNImplsTy, IsSegmentNOfTypeRefusal};
ghost use Rattle.plir_flow.specs.SegmentTypes.{IsSegmentNImplsTyRefusal};

use crate::segment_sizes::count_of;
use crate::segments::{OperandSegmentInterface, range_of};
use plir_core::{Context, Operation, Ptr};
use plir_data::{OpSet, TypeInterfaceMark, TypeMark, VerifyErr, type_text};
use plir_iface::{
    Implementing, OfType, Op, Side, TypeInterfaceImplsErr, TypeRuleErr, TypeTest, first_failing,
    id_at, refusal,
};
use std::alloc::Global;
use thiserror::Error;

/// How the types in the segment at an index are not of a kind.
#[derive(PartialEq, Eq, Drop, Debug, Error)]
pub enum SegmentNOfTypeError {
    /// There is no segment at the index.
    #[error("Op does not have operand segment at index {0}")]
    SegmentNotFound(usize),
    /// An operand has a type of another kind: the id that is asked for, and the type's text.
    #[error("Expected operand segment type {0}, but found {1}")]
    UnexpectedType(&'static str, String),
}

// The index among all operands of the first in a segment whose type fails a test.
fn find_misfit<D: OpSet, Q: TypeTest<D>>(
    ctx: &Context<D>,
    op: Ptr<Operation>,
    seg: usize,
) -> Option<usize>
    requires live { IsLive ctx.now (IRNode.Operation op) }
    requires segmented { IsSegmented ctx.now op }
    requires below { seg < num_segments ctx.now op }
    ensures none { IsNone result ↔ EachPasses Q.passes ctx.now (segment_types ctx.now op seg) }
    ensures some { IfSome result (IsFirstFailingOperand Q.passes ctx.now op seg) }
    ensures below { IfSome result (λ p. p < num_operands ctx.now op) }
    ensures whole { IsWellFormed D.attr_handles ctx.now }
{
    let range = range_of(ctx, op, seg);
    first_failing::<D, Q>(ctx, op, Side::Operands, range.start, range.end)
}

// Accepts exactly where there is a segment at an index, and all its types are a `T`.
fn verify_kind<D: OpSet, T: TypeMark<D>>(
    alloc: Global,
    ctx: &Context<D>,
    op: Ptr<Operation>,
    seg: usize,
) -> Result<(), VerifyErr<SegmentNOfTypeError>>
    requires live { IsLive ctx.now (IRNode.Operation op) }
    requires segmented { IsSegmented ctx.now op }
    ensures ok { IsOk result ↔ HasSegmentNOfType T.marks ctx.now op seg }
    ensures refused { IfErr result (IsSegmentNOfTypeRefusal T.marks ctx.now op seg T.NAME D.type_id D.type_body_text) }
    ensures memory { result ≡ Err VerifyErr.Memory → seg < num_segments ctx.now op }
    ensures whole { IsWellFormed D.attr_handles ctx.now }
{
    if count_of(ctx, op) <= seg {
        return Err(refusal(ctx, op, SegmentNOfTypeError::SegmentNotFound(seg)));
    }
    let Some(place) = find_misfit::<D, OfType<T>>(ctx, op, seg) else {
        return Ok(());
    };
    let Ok(found) = type_text(alloc, ctx, Side::Operands.type_at(ctx, op, place)) else {
        return Err(VerifyErr::Memory);
    };
    let err = SegmentNOfTypeError::UnexpectedType(T::NAME.as_str(), found);
    Err(refusal(ctx, op, err))
}

// Accepts exactly where there is a segment at an index, and all its types implement `I`.
fn verify_impls<D: OpSet, I: TypeInterfaceMark<D>>(
    ctx: &Context<D>,
    op: Ptr<Operation>,
    seg: usize,
) -> Result<(), VerifyErr<TypeRuleErr<SegmentNOfTypeError, TypeInterfaceImplsErr>>>
    requires live { IsLive ctx.now (IRNode.Operation op) }
    requires segmented { IsSegmented ctx.now op }
    ensures ok { IsOk result ↔ HasSegmentNImplsTy I.marks ctx.now op seg }
    ensures refused { IfErr result (IsRefusal ctx.now op (IsSegmentWithout I.marks ctx.now op seg I.NAME D.type_id)) }
    ensures whole { IsWellFormed D.attr_handles ctx.now }
{
    if count_of(ctx, op) <= seg {
        let err = TypeRuleErr::TooFew(SegmentNOfTypeError::SegmentNotFound(seg));
        return Err(refusal(ctx, op, err));
    }
    let Some(place) = find_misfit::<D, Implementing<I>>(ctx, op, seg) else {
        return Ok(());
    };
    let found = id_at(ctx, op, Side::Operands, place);
    let err = TypeInterfaceImplsErr::Segment(seg, I::NAME.as_str(), found);
    Err(refusal(ctx, op, TypeRuleErr::WrongType(err)))
}

/// Operations whose operands in the segment at the index `N` have a type of the kind `T`.
pub trait SegmentNOfType<D: OpSet, const N: usize, T: TypeMark<D>>: OperandSegmentInterface<D> {
    /// Accepts exactly where there is a segment at the index `N`, and each operand in it has a type of the kind `T`;
    /// the refusal names the first that hasn't. `Memory` comes only where there is a segment, for that type's text.
    final fn verify(
        &self,
        alloc: Global,
        ctx: &Context<D>,
    ) -> Result<(), VerifyErr<SegmentNOfTypeError>>
        requires live { IsLive ctx.now (IRNode.Operation (Self.pointer self.now)) }
        requires rule { HasSegments (Self.expected self.now ctx.now) ctx.now (Self.pointer self.now) }
        ensures ok { IsOk result ↔ HasSegmentNOfType T.marks ctx.now (Self.pointer self.now) N }
        ensures refused { IfErr result (IsSegmentNOfTypeRefusal T.marks ctx.now
            (Self.pointer self.now) N T.NAME D.type_id D.type_body_text) }
        ensures memory { result ≡ Err VerifyErr.Memory → N < num_segments ctx.now (Self.pointer self.now) }
        ensures whole { IsWellFormed D.attr_handles ctx.now }
    {
        verify_kind::<D, T>(alloc, ctx, self.get_operation(), N)
    }
}

/// Operations whose operands in the segment at the index `N` have a type that implements `I`.
pub trait SegmentNImplsTy<
    D: OpSet,
    const N: usize,
    I: TypeInterfaceMark<D>,
>: OperandSegmentInterface<D> {
    /// Accepts exactly where there is a segment at the index `N`, and each operand in it has a type that implements
    /// `I`; the refusal names the first that hasn't.
    final fn verify(
        &self,
        ctx: &Context<D>,
    ) -> Result<(), VerifyErr<TypeRuleErr<SegmentNOfTypeError, TypeInterfaceImplsErr>>>
        requires live { IsLive ctx.now (IRNode.Operation (Self.pointer self.now)) }
        requires rule { HasSegments (Self.expected self.now ctx.now) ctx.now (Self.pointer self.now) }
        ensures ok { IsOk result ↔ HasSegmentNImplsTy I.marks ctx.now (Self.pointer self.now) N }
        ensures refused { IfErr result (IsSegmentNImplsTyRefusal I.marks ctx.now (Self.pointer self.now) N I.NAME
            D.type_id) }
        ensures whole { IsWellFormed D.attr_handles ctx.now }
    {
        verify_impls::<D, I>(ctx, self.get_operation(), N)
    }
}
