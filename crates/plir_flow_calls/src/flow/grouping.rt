//! The calls that read segments.
ghost use Rattle.std.specs.Prelude.{◌<◌, ◌^◌, All, length};
ghost use Rattle.plir_core.specs.ContextView.{IsLive};
ghost use Rattle.plir_core.specs.declared.ptr.IRNode.{IRNode as AnyNode};

use crate::flow::grouped::Grouped;
use plir_core::{Context, Value};
use plir_data::{FunctionTypeMark, Memory, OpSet, OperandSegmentSizesAttr, UnitType, VerifyErr};
use plir_flow::{OperandSegmentInterface, SegmentNImplsTy, SegmentNOfType};
use plir_scripts::{Answer, Bench, Line, Made, Stop, number, split_word};
use std::alloc::Global;
use std::fmt::Display;

/// Writes `ok`, or the text of the refusal.
pub fn put_verdict<E: Display + Drop>(answer: &mut Answer, verdict: Result<(), VerifyErr<E>>) {
    match verdict {
        Ok(()) => answer.put("ok"),
        Err(VerifyErr::Refused { err, .. }) => answer.put_shown(&err),
        Err(VerifyErr::Memory) => answer.note_lost(),
    }
}

/// Writes the names of values.
pub fn put_values(made: &Made, answer: &mut Answer, values: &[Value]) {
    for value in values {
        made.put_value(answer, *value);
    }
}

// Writes sizes.
fn put_sizes(answer: &mut Answer, sizes: &OperandSegmentSizesAttr) {
    for size in sizes.0.as_slice() {
        answer.put(" ");
        answer.put_number(*size as usize);
    }
}

/// `verify OP COUNT`, where `-` expects no number of segments.
pub fn verify<D: OpSet, O: OperandSegmentInterface<D>>(
    ctx: &Context<D>,
    answer: &mut Answer,
    op: &O,
) -> Result<(), Stop>
    requires { IsLive ctx.now (AnyNode.Operation (O.pointer op.now)) }
{
    put_verdict(answer, OperandSegmentInterface::<D>::verify(op, ctx));
    Ok(())
}

/// `types OP RULE`: the rules of the types in one segment.
pub fn verify_types<
    D: OpSet,
    O: SegmentNOfType<D, 1, UnitType>
        + SegmentNOfType<D, 2, UnitType>
        + SegmentNImplsTy<D, 1, FunctionTypeMark>,
>(alloc: Global, ctx: &Context<D>, answer: &mut Answer, op: &O, rule: &str) -> Result<(), Stop>
    requires { IsLive ctx.now (AnyNode.Operation (O.pointer op.now)) }
{
    if OperandSegmentInterface::<D>::verify(op, ctx).is_err() {
        return Err(Stop::Refused);
    }
    match rule {
        "SegmentNOfType<1, Unit>" => put_verdict(
            answer,
            SegmentNOfType::<D, 1, UnitType>::verify(op, alloc, ctx),
        ),
        "SegmentNOfType<2, Unit>" => put_verdict(
            answer,
            SegmentNOfType::<D, 2, UnitType>::verify(op, alloc, ctx),
        ),
        "SegmentNImplsTy<1, Function>" => put_verdict(
            answer,
            SegmentNImplsTy::<D, 1, FunctionTypeMark>::verify(op, ctx),
        ),
        _ => return Err(Stop::Refused),
    }
    Ok(())
}

/// `segments OP` writes how many segments there are, `held OP` the operands and the sizes.
pub fn ask_all<D: OpSet, O: OperandSegmentInterface<D>>(
    ctx: &Context<D>,
    made: &Made,
    answer: &mut Answer,
    op: &O,
    what: &str,
) -> Result<(), Stop>
    requires { IsLive ctx.now (AnyNode.Operation (O.pointer op.now)) }
{
    if OperandSegmentInterface::<D>::verify(op, ctx).is_err() {
        return Err(Stop::Refused);
    }
    if what == "segments" {
        let count = op.num_segments(ctx);
        answer.put_number(count as usize);
        return Ok(());
    }
    let held = op.get_operation();
    for place in 0..held.get_num_operands(ctx) {
        made.put_value(answer, held.get_operand(ctx, place));
    }
    answer.put(" /");
    put_sizes(answer, op.get_operand_segment_sizes(ctx));
    Ok(())
}

/// `size OP SEGMENT`.
pub fn ask_size<D: OpSet, O: OperandSegmentInterface<D>>(
    ctx: &Context<D>,
    answer: &mut Answer,
    op: &O,
    seg: usize,
) -> Result<(), Stop>
    requires { IsLive ctx.now (AnyNode.Operation (O.pointer op.now)) }
{
    if OperandSegmentInterface::<D>::verify(op, ctx).is_err() {
        return Err(Stop::Refused);
    }
    let size = op.segment_size(ctx, seg);
    answer.put_number(size as usize);
    Ok(())
}

/// `segment OP SEGMENT` writes the places of a segment and its operands.
pub fn ask_segment<D: OpSet, O: OperandSegmentInterface<D>>(
    alloc: Global,
    ctx: &Context<D>,
    made: &Made,
    answer: &mut Answer,
    op: &O,
    seg: usize,
) -> Result<(), Stop>
    requires { IsLive ctx.now (AnyNode.Operation (O.pointer op.now)) }
{
    if OperandSegmentInterface::<D>::verify(op, ctx).is_err() || seg >= op.num_segments(ctx) {
        return Err(Stop::Refused);
    }
    let values = op.get_segment(alloc, ctx, seg)?;
    let range = op.segment_range(ctx, seg);
    let (start, end) = (range.start, range.end);
    answer.put_number(start);
    answer.put(" to ");
    answer.put_number(end);
    answer.put(":");
    put_values(made, answer, values.as_slice());
    Ok(())
}

/// `flatten VALUES / VALUES ..` writes the values of all segments and their sizes.
pub fn flatten<D: OpSet>(bench: &mut Bench<D>, line: Line<'_>) -> Result<(), Stop> {
    let (alloc, ctx, made) = (bench.alloc, &bench.ctx, &bench.made);
    let mut segments = Vec::new(alloc);
    for names in line.text.split('/') {
        let values = made.values_named(alloc, ctx, names)?;
        if values.len() > u32::MAX as usize {
            return Err(Stop::Refused);
        }
        segments.push(values)?;
    }
    let (values, sizes) = flat::<D>(alloc, segments)?;
    put_values(made, &mut bench.answer, values.as_slice());
    bench.answer.put(" /");
    put_sizes(&mut bench.answer, &sizes);
    Ok(())
}

fn flat<D: OpSet>(
    alloc: Global,
    segments: Vec<Vec<Value>>,
) -> Result<(Vec<Value>, OperandSegmentSizesAttr), Memory>
    requires { All (λ seg. length seg.items < 2 ^ 32) segments.items }
{
    <Grouped as OperandSegmentInterface<D>>::compute_segment_sizes(alloc, segments)
}

/// `sizes OP SIZES` puts sizes under their key.
pub fn set_sizes<D: OpSet, O: OperandSegmentInterface<D>>(
    bench: &mut Bench<D>,
    op: &O,
    line: Line<'_>,
) -> Result<(), Stop>
    requires { IsLive bench.old.ctx (AnyNode.Operation (O.pointer op.now)) }
{
    let alloc = bench.alloc;
    let mut sizes = Vec::new(alloc);
    let (_, words) = split_word(line.text);
    for word in words.split_whitespace() {
        let Ok(size) = word.parse::<u32>() else {
            return Err(Stop::Refused);
        };
        sizes.push(size)?;
    }
    op.set_operand_segment_sizes(alloc, &mut bench.ctx, OperandSegmentSizesAttr(sizes))?;
    Ok(())
}

/// The number that a word is, or none for `-`.
pub fn expected_of(word: &str) -> Result<Option<usize>, Stop> {
    if word == "-" || word.is_empty() {
        return Ok(None);
    }
    Ok(Some(number(word)?))
}
