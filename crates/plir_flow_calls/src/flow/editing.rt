//! The calls that edit segments.
ghost use Rattle.plir_core.specs.ContextView.{IsLive};
ghost use Rattle.plir_core.specs.declared.ptr.IRNode.{IRNode as AnyNode};

use plir_core::Context;
use plir_data::OpSet;
use plir_flow::OperandSegmentInterface;
use plir_scripts::{Answer, Line, Made, Stop, number};

/// `push OP SEGMENT VALUE` writes the place, `into OP SEGMENT PLACE VALUE`, `pop OP SEGMENT` and `from OP SEGMENT
/// PLACE` write the value.
pub fn edit<D: OpSet, O: OperandSegmentInterface<D>>(
    ctx: &mut Context<D>,
    made: &Made,
    answer: &mut Answer,
    op: &O,
    line: Line<'_>,
) -> Result<(), Stop>
    requires { IsLive ctx.old (AnyNode.Operation (O.pointer op.now)) }
{
    match line.command {
        "push" => push(ctx, made, answer, op, line),
        "into" => into(ctx, made, op, line),
        "pop" => pop(ctx, made, answer, op, line),
        _ => from(ctx, made, answer, op, line),
    }
}

fn push<D: OpSet, O: OperandSegmentInterface<D>>(
    ctx: &mut Context<D>,
    made: &Made,
    answer: &mut Answer,
    op: &O,
    line: Line<'_>,
) -> Result<(), Stop>
    requires { IsLive ctx.old (AnyNode.Operation (O.pointer op.now)) }
{
    let (seg, value) = (number(line.second)?, made.value(ctx, line.third)?);
    if OperandSegmentInterface::<D>::verify(op, ctx).is_err()
        || seg >= op.num_segments(ctx)
        || op.segment_size(ctx, seg) == u32::MAX
    {
        return Err(Stop::Refused);
    }
    let place = op.push_to_segment(ctx, seg, value)?;
    answer.put_number(place as usize);
    Ok(())
}

fn into<D: OpSet, O: OperandSegmentInterface<D>>(
    ctx: &mut Context<D>,
    made: &Made,
    op: &O,
    line: Line<'_>,
) -> Result<(), Stop>
    requires { IsLive ctx.old (AnyNode.Operation (O.pointer op.now)) }
{
    let (_, last) = line.tail.split_once(' ').unwrap_or((line.tail, ""));
    let (seg, place, value) = (
        number(line.second)?,
        number(line.third)?,
        made.value(ctx, last)?,
    );
    if OperandSegmentInterface::<D>::verify(op, ctx).is_err()
        || seg >= op.num_segments(ctx)
        || place > op.segment_size(ctx, seg) as usize
        || op.segment_size(ctx, seg) == u32::MAX
    {
        return Err(Stop::Refused);
    }
    op.insert_into_segment(ctx, seg, place, value)?;
    Ok(())
}

fn pop<D: OpSet, O: OperandSegmentInterface<D>>(
    ctx: &mut Context<D>,
    made: &Made,
    answer: &mut Answer,
    op: &O,
    line: Line<'_>,
) -> Result<(), Stop>
    requires { IsLive ctx.old (AnyNode.Operation (O.pointer op.now)) }
{
    let seg = number(line.second)?;
    if OperandSegmentInterface::<D>::verify(op, ctx).is_err()
        || seg >= op.num_segments(ctx)
        || op.segment_size(ctx, seg) == 0
    {
        return Err(Stop::Refused);
    }
    let value = op.pop_from_segment(ctx, seg);
    made.put_value(answer, value);
    Ok(())
}

fn from<D: OpSet, O: OperandSegmentInterface<D>>(
    ctx: &mut Context<D>,
    made: &Made,
    answer: &mut Answer,
    op: &O,
    line: Line<'_>,
) -> Result<(), Stop>
    requires { IsLive ctx.old (AnyNode.Operation (O.pointer op.now)) }
{
    let (seg, place) = (number(line.second)?, number(line.third)?);
    if OperandSegmentInterface::<D>::verify(op, ctx).is_err()
        || seg >= op.num_segments(ctx)
        || place >= op.segment_size(ctx, seg) as usize
    {
        return Err(Stop::Refused);
    }
    let value = op.remove_from_segment(ctx, seg, place);
    made.put_value(answer, value);
    Ok(())
}
