//! The interface of operations whose operands stand in segments.
ghost use Rattle.std.specs.Prelude.{◌≡◌, ◌↔◌, ◌<◌, ◌≤◌, ◌+◌, ◌-◌, ◌^◌, ◌∷◌, ◌++◌, ℕ, List, [], Some, All};
ghost use Rattle.std.specs.Prelude.{IsOk, IsNone, IfSome, IfOk, IfErr, OnOk, OnErr, length, map, take, insert, remove};
ghost use Rattle.plir_core.specs.declared.ptr.IRNode.{IRNode};
ghost use Rattle.plir_core.specs.declared.value.Value.{Value as AnyValue};
ghost use Rattle.plir_core.specs.ContextView.{IsLive, IsValueLive, operands_of};
ghost use Rattle.plir_core.specs.WellFormed.{IsWellFormed};
ghost use Rattle.plir_core.specs.Changes.{with_op_edit};
ghost use Rattle.plir_flow.specs.Segments.{flatten, segment_at, sizes_attr, with_sizes, sizes_of, num_segments};
ghost use Rattle.plir_flow.specs.Segments.{segment_size, segment_places, segments_of};
ghost use Rattle.plir_flow.specs.Segments.{IsSegmented, HasSegments, IsSegmentEdited, StandsInSegment};
ghost use Rattle.plir_flow.specs.Segments.{IsOperandPutAt, IsOperandPutLast, IsOperandTakenAt, IsLastOperandTaken};
ghost use Rattle.plir_flow.specs.SegmentRefusals.{IsSegmentFault, IsSegmentsRefusal};

use crate::operand_ranges::operands_in;
use crate::segment_edits::{insert_at, pop_last, push_last, remove_at};
use crate::segment_sizes::{
    ATTR_KEY_OPERAND_SEGMENT_SIZES, count_of, find_sizes, place_among, size_of, sizes_of, start_of,
    total,
};
use plir_core::{Context, Operation, Ptr, Value};
use plir_data::{AttrObj, Identifier, Memory, OpSet, OperandSegmentSizesAttr, VerifyErr};
use plir_iface::{Op, refusal};
use std::alloc::Global;
use std::ops::Range;
use thiserror::Error;

/// How the operands of an operation do not stand in segments.
#[derive(Clone, Copy, PartialEq, Eq, Debug, Error)]
pub enum OperandSegmentInterfaceVerifyErr {
    /// There is no attribute of sizes.
    #[error("operand_segment_sizes attribute not found")]
    OperandSegmentSizesAttrErr,
    /// The sum of the sizes, a whole number, is another one than the number of operands.
    #[error("operand_segment_sizes total {0} does not match the number of operands {1}")]
    OperandSegmentSizesTotalMismatchErr(u128, usize),
    /// There is another number of segments than is expected.
    #[error("Expected {expected} operand segments, but found {found}")]
    SegmentCountMismatch { expected: usize, found: usize },
}

// How an operation's segments break the rule.
fn find_fault<D: OpSet>(
    ctx: &Context<D>,
    op: Ptr<Operation>,
    expected: Option<usize>,
) -> Option<OperandSegmentInterfaceVerifyErr>
    requires { IsLive ctx.now (IRNode.Operation op) }
    ensures none { IsNone result ↔ HasSegments expected ctx.now op }
    ensures some { IfSome result (IsSegmentFault expected ctx.now op) }
    ensures whole { IsWellFormed D.attr_handles ctx.now }
{
    let Some(sizes) = find_sizes(ctx, op) else {
        return Some(OperandSegmentInterfaceVerifyErr::OperandSegmentSizesAttrErr);
    };
    let sizes = sizes.0.as_slice();
    let (sum, operands) = (total(sizes), op.get_num_operands(ctx));
    if sum != operands as u128 {
        let fault = OperandSegmentInterfaceVerifyErr::OperandSegmentSizesTotalMismatchErr(
            sum, operands,
        );
        return Some(fault);
    }
    let found = sizes.len();
    match expected {
        Some(expected) if expected != found => {
            Some(OperandSegmentInterfaceVerifyErr::SegmentCountMismatch { expected, found })
        }
        _ => None,
    }
}

// Puts sizes under their key.
fn put_sizes<D: OpSet>(
    alloc: Global,
    ctx: &mut Context<D>,
    op: Ptr<Operation>,
    sizes: OperandSegmentSizesAttr,
) -> Result<(), Memory>
    requires { IsLive ctx.old (IRNode.Operation op) }
    ensures ok { OnOk result (ctx.new ≡ with_op_edit ctx.old op (with_sizes (sizes_attr sizes))) }
    ensures err { OnErr result (ctx.new ≡ ctx.old) }
    ensures whole { IsWellFormed D.attr_handles ctx.new }
{
    ctx.stands();
    match Identifier::try_new(alloc, ATTR_KEY_OPERAND_SEGMENT_SIZES) {
        Ok(key) => op.set_attr(ctx, key, AttrObj::OperandSegmentSizes(sizes)),
        Err(_) => Err(Memory),
    }
}

// The values of all segments in order, and their sizes.
fn flatten_segments(
    alloc: Global,
    segments: Vec<Vec<Value>>,
) -> Result<(Vec<Value>, OperandSegmentSizesAttr), Memory>
    requires { All (λ seg. length seg.items < 2 ^ 32) segments.items }
    ensures values { IfOk result (λ r. r.0.items ≡ flatten (map (λ seg. seg.items) segments.items)) }
    ensures sizes { IfOk result (λ r. r.1 ≡ map length (map (λ seg. seg.items) segments.items)) }
{
    let mut values = Vec::new(alloc);
    let mut sizes = Vec::with_capacity(alloc, segments.len())?;
    let segments = segments.as_slice();
    'segments: for segment in segments {
        sizes.push(segment.len() as u32)?;
        values.extend_from_slice(segment.as_slice())?;
    }
    Ok((values, OperandSegmentSizesAttr(sizes)))
}

/// The indices of the operands of a segment.
pub(crate) fn range_of<D: OpSet>(ctx: &Context<D>, op: Ptr<Operation>, seg: usize) -> Range<usize>
    requires live { IsLive ctx.now (IRNode.Operation op) }
    requires segmented { IsSegmented ctx.now op }
    requires below { seg < num_segments ctx.now op }
    ensures start { result.start ≡ (segment_places ctx.now op seg).0 }
    ensures end { result.end ≡ (segment_places ctx.now op seg).1 }
    ensures ordered { result.start ≤ result.end }
    ensures inside { result.end ≤ length (operands_of ctx.now op) }
    ensures whole { IsWellFormed D.attr_handles ctx.now }
{
    let size = size_of(ctx, op, seg) as usize;
    start_of(ctx, op, seg)..place_among(ctx, op, seg, size)
}

/// Operations whose operands stand in segments. The sizes of the segments are an attribute under
/// [`ATTR_KEY_OPERAND_SEGMENT_SIZES`].
pub trait OperandSegmentInterface<D: OpSet>: Op<D> {
    ghost use Rattle.std.specs.Prelude.{Option};
    ghost use Rattle.plir_core.specs.ContextView.{ContextView};
    ghost use Rattle.plir_flow.specs.Segments.{IsKeptBySegments};

    // How many segments the operation must have, if that is fixed.
    ghost expected: { Self → ContextView D.Kind D.Attr D.Ty → Option ℕ };

    /// How many segments the operation must have; none if any number is valid.
    fn expected_num_segments(&self, ctx: &Context<D>) -> Option<usize>
        requires { IsLive ctx.now (IRNode.Operation (Self.pointer self.now)) }
        ensures { result ≡ expected self.now ctx.now };

    // It doesn't depend on the segments that the operation has.
    ghost expected_kept: { (o : Self) → IsKeptBySegments (expected o) (Self.pointer o) };

    /// Accepts exactly where there is an attribute of sizes, the sum of the sizes, as a whole number, is the number of
    /// operands, and there are as many segments as are expected. The first of these that doesn't hold is reported.
    final fn verify(
        &self,
        ctx: &Context<D>,
    ) -> Result<(), VerifyErr<OperandSegmentInterfaceVerifyErr>>
        requires { IsLive ctx.now (IRNode.Operation (Self.pointer self.now)) }
        ensures ok { IsOk result ↔ HasSegments (expected self.now ctx.now) ctx.now (Self.pointer self.now) }
        ensures refused { IfErr result (IsSegmentsRefusal (expected self.now ctx.now) ctx.now (Self.pointer self.now)) }
        ensures whole { IsWellFormed D.attr_handles ctx.now }
    {
        let op = self.get_operation();
        match find_fault(ctx, op, self.expected_num_segments(ctx)) {
            None => Ok(()),
            Some(fault) => Err(refusal(ctx, op, fault)),
        }
    }

    /// The values of all segments in order, and their sizes, as an operation is made of them. No segment may be longer
    /// than 4294967295.
    final fn compute_segment_sizes(
        alloc: Global,
        operands: Vec<Vec<Value>>,
    ) -> Result<(Vec<Value>, OperandSegmentSizesAttr), Memory>
        requires { All (λ seg. length seg.items < 2 ^ 32) operands.items }
        ensures values { IfOk result (λ r. r.0.items ≡ flatten (map (λ seg. seg.items) operands.items)) }
        ensures sizes { IfOk result (λ r. r.1 ≡ map length (map (λ seg. seg.items) operands.items)) }
    {
        flatten_segments(alloc, operands)
    }

    /// The indices of the operands of a segment, from 0.
    final fn segment_range(&self, ctx: &Context<D>, seg: usize) -> Range<usize>
        requires live { IsLive ctx.now (IRNode.Operation (Self.pointer self.now)) }
        requires rule { HasSegments (expected self.now ctx.now) ctx.now (Self.pointer self.now) }
        requires below { seg < num_segments ctx.now (Self.pointer self.now) }
        ensures start { result.start ≡ (segment_places ctx.now (Self.pointer self.now) seg).0 }
        ensures end { result.end ≡ (segment_places ctx.now (Self.pointer self.now) seg).1 }
        ensures ordered { result.start ≤ result.end }
        ensures inside { result.end ≤ length (operands_of ctx.now (Self.pointer self.now)) }
        ensures whole { IsWellFormed D.attr_handles ctx.now }
    {
        range_of(ctx, self.get_operation(), seg)
    }

    /// The operands in a segment, from 0.
    final fn get_segment(
        &self,
        alloc: Global,
        ctx: &Context<D>,
        seg: usize,
    ) -> Result<Vec<Value>, Memory>
        requires live { IsLive ctx.now (IRNode.Operation (Self.pointer self.now)) }
        requires rule { HasSegments (expected self.now ctx.now) ctx.now (Self.pointer self.now) }
        requires below { seg < num_segments ctx.now (Self.pointer self.now) }
        ensures value { IfOk result (λ vs. vs.items ≡ segment_at (segments_of ctx.now (Self.pointer self.now)) seg) }
        ensures live { IfOk result (λ vs. All (IsValueLive ctx.now) vs.items) }
        ensures whole { IsWellFormed D.attr_handles ctx.now }
    {
        let op = self.get_operation();
        operands_in(alloc, ctx, op, range_of(ctx, op, seg))
    }

    /// How many operands a segment, from 0, has; past the last segment, 0.
    final fn segment_size(&self, ctx: &Context<D>, seg: usize) -> u32
        requires live { IsLive ctx.now (IRNode.Operation (Self.pointer self.now)) }
        requires rule { HasSegments (expected self.now ctx.now) ctx.now (Self.pointer self.now) }
        ensures value { result ≡ segment_size ctx.now (Self.pointer self.now) seg }
        ensures length { result ≡ length (segment_at (segments_of ctx.now (Self.pointer self.now)) seg) }
        ensures whole { IsWellFormed D.attr_handles ctx.now }
    {
        size_of(ctx, self.get_operation(), seg)
    }

    /// How many segments there are.
    final fn num_segments(&self, ctx: &Context<D>) -> usize
        requires live { IsLive ctx.now (IRNode.Operation (Self.pointer self.now)) }
        requires rule { HasSegments (expected self.now ctx.now) ctx.now (Self.pointer self.now) }
        ensures value { result ≡ num_segments ctx.now (Self.pointer self.now) }
        ensures count { result ≡ length (segments_of ctx.now (Self.pointer self.now)) }
        ensures whole { IsWellFormed D.attr_handles ctx.now }
    {
        count_of(ctx, self.get_operation())
    }

    /// Puts sizes under their key, whether or not they fit the operands: that is for `verify` to say. After a refusal
    /// all is as before.
    final fn set_operand_segment_sizes(
        &self,
        alloc: Global,
        ctx: &mut Context<D>,
        sizes: OperandSegmentSizesAttr,
    ) -> Result<(), Memory>
        requires { IsLive ctx.old (IRNode.Operation (Self.pointer self.now)) }
        ensures ok { OnOk result (ctx.new ≡ with_op_edit ctx.old (Self.pointer self.now)
            (with_sizes (sizes_attr sizes))) }
        ensures err { OnErr result (ctx.new ≡ ctx.old) }
        ensures whole { IsWellFormed D.attr_handles ctx.new }
    {
        put_sizes(alloc, ctx, self.get_operation(), sizes)
    }

    /// The sizes of the segments.
    final fn get_operand_segment_sizes<'a>(
        &self,
        ctx: &'a Context<D>,
    ) -> &'a OperandSegmentSizesAttr
    where
        D: 'a,
        requires live { IsLive ctx.now (IRNode.Operation (Self.pointer self.now)) }
        requires rule { HasSegments (expected self.now ctx.now) ctx.now (Self.pointer self.now) }
        ensures value { result.now ≡ sizes_of ctx.now (Self.pointer self.now) }
        ensures whole { IsWellFormed D.attr_handles ctx.now }
    {
        sizes_of(ctx, self.get_operation())
    }

    /// Puts a value at the end of a segment, from 0, and answers its index there. The segment has to be shorter than
    /// 4294967295. After a refusal all is as before.
    final fn push_to_segment(
        &self,
        ctx: &mut Context<D>,
        seg: usize,
        operand: Value,
    ) -> Result<usize, Memory>
        requires live { IsLive ctx.old (IRNode.Operation (Self.pointer self.now)) }
        requires rule { HasSegments (expected self.now ctx.old) ctx.old (Self.pointer self.now) }
        requires below { seg < num_segments ctx.old (Self.pointer self.now) }
        requires room { segment_size ctx.old (Self.pointer self.now) seg < 2 ^ 32 - 1 }
        requires operand_live { IsValueLive ctx.old operand }
        ensures index { IfOk result (λ i. i ≡ segment_size ctx.old (Self.pointer self.now) seg) }
        ensures ok { OnOk result (IsSegmentEdited ctx.old ctx.new (Self.pointer self.now) seg
            (λ xs. xs ++ operand ∷ [])) }
        ensures operands { OnOk result (IsOperandPutLast ctx.old ctx.new (Self.pointer self.now) seg operand) }
        ensures rule { OnOk result (HasSegments (expected self.now ctx.new) ctx.new (Self.pointer self.now)) }
        ensures err { OnErr result (ctx.new ≡ ctx.old) }
        ensures whole { IsWellFormed D.attr_handles ctx.new }
    {
        push_last(ctx, self.get_operation(), seg, operand)
    }

    /// Takes the last value out of a segment, from 0, that isn't empty. Takes no memory.
    final fn pop_from_segment(&self, ctx: &mut Context<D>, seg: usize) -> Value
        requires live { IsLive ctx.old (IRNode.Operation (Self.pointer self.now)) }
        requires rule { HasSegments (expected self.now ctx.old) ctx.old (Self.pointer self.now) }
        requires below { seg < num_segments ctx.old (Self.pointer self.now) }
        requires filled { 0 < segment_size ctx.old (Self.pointer self.now) seg }
        ensures value { StandsInSegment ctx.old (Self.pointer self.now) seg
            (segment_size ctx.old (Self.pointer self.now) seg - 1) result }
        ensures after { IsSegmentEdited ctx.old ctx.new (Self.pointer self.now) seg (λ xs. take (length xs - 1) xs) }
        ensures operands { IsLastOperandTaken ctx.old ctx.new (Self.pointer self.now) seg }
        ensures rule { HasSegments (expected self.now ctx.new) ctx.new (Self.pointer self.now) }
        ensures whole { IsWellFormed D.attr_handles ctx.new }
    {
        pop_last(ctx, self.get_operation(), seg)
    }

    /// Puts a value into a segment, from 0, at an index in it; the values from that index on move up. The segment has
    /// to be shorter than 4294967295. After a refusal all is as before.
    final fn insert_into_segment(
        &self,
        ctx: &mut Context<D>,
        seg: usize,
        place: usize,
        operand: Value,
    ) -> Result<(), Memory>
        requires live { IsLive ctx.old (IRNode.Operation (Self.pointer self.now)) }
        requires rule { HasSegments (expected self.now ctx.old) ctx.old (Self.pointer self.now) }
        requires below { seg < num_segments ctx.old (Self.pointer self.now) }
        requires within { place ≤ segment_size ctx.old (Self.pointer self.now) seg }
        requires room { segment_size ctx.old (Self.pointer self.now) seg < 2 ^ 32 - 1 }
        requires operand_live { IsValueLive ctx.old operand }
        ensures ok { OnOk result (IsSegmentEdited ctx.old ctx.new (Self.pointer self.now) seg
            (λ xs. insert xs place operand)) }
        ensures operands { OnOk result (IsOperandPutAt ctx.old ctx.new (Self.pointer self.now) seg place operand) }
        ensures rule { OnOk result (HasSegments (expected self.now ctx.new) ctx.new (Self.pointer self.now)) }
        ensures err { OnErr result (ctx.new ≡ ctx.old) }
        ensures whole { IsWellFormed D.attr_handles ctx.new }
    {
        insert_at(ctx, self.get_operation(), seg, place, operand)
    }

    /// Takes the value at an index out of a segment, from 0; later ones move down. Takes no memory.
    final fn remove_from_segment(&self, ctx: &mut Context<D>, seg: usize, place: usize) -> Value
        requires live { IsLive ctx.old (IRNode.Operation (Self.pointer self.now)) }
        requires rule { HasSegments (expected self.now ctx.old) ctx.old (Self.pointer self.now) }
        requires below { seg < num_segments ctx.old (Self.pointer self.now) }
        requires within { place < segment_size ctx.old (Self.pointer self.now) seg }
        ensures value { StandsInSegment ctx.old (Self.pointer self.now) seg place result }
        ensures after { IsSegmentEdited ctx.old ctx.new (Self.pointer self.now) seg (λ xs. remove xs place) }
        ensures operands { IsOperandTakenAt ctx.old ctx.new (Self.pointer self.now) seg place }
        ensures rule { HasSegments (expected self.now ctx.new) ctx.new (Self.pointer self.now) }
        ensures whole { IsWellFormed D.attr_handles ctx.new }
    {
        remove_at(ctx, self.get_operation(), seg, place)
    }
}
