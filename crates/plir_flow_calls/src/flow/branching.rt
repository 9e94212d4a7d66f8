//! The calls of branches.
ghost use Rattle.plir_core.specs.ContextView.{IsLive};
ghost use Rattle.plir_core.specs.declared.ptr.IRNode.{IRNode as AnyNode};

use crate::flow::grouping::{put_values, put_verdict};
use plir_core::{Context, LessThanN};
use plir_data::OpSet;
use plir_flow::{BranchOpInterface, NSuccsInterface, OneSuccInterface};
use plir_scripts::{Answer, Bench, Line, Made, Stop, number};
use std::alloc::Global;

/// The calls on a branch: `forwarded`, `add`, `drop` and `reset`; any other one verifies.
pub fn call_branch<D: OpSet, B: BranchOpInterface<D>>(
    bench: &mut Bench<D>,
    op: &B,
    line: Line<'_>,
) -> Result<(), Stop>
    requires { IsLive bench.old.ctx (AnyNode.Operation (B.pointer op.now)) }
{
    let (alloc, ctx, made, answer) = (bench.alloc, &mut bench.ctx, &bench.made, &mut bench.answer);
    match line.command {
        "add" => add(alloc, ctx, made, answer, op, line),
        "drop" => take_out(alloc, ctx, made, answer, op, line),
        "reset" => reset(alloc, ctx, made, op, line),
        "forwarded" => ask_forwarded(alloc, ctx, made, answer, op, number(line.second)?),
        _ => {
            put_verdict(answer, BranchOpInterface::<D>::verify(op, alloc, ctx));
            Ok(())
        }
    }
}

/// `branch OP RULE` verifies by a rule of numbers of successors, `successor OP` writes the last of two successors, or
/// the one; the other calls are those on any branch.
pub fn call_counted<D: OpSet, B: NSuccsInterface<D, 2> + OneSuccInterface<D>>(
    bench: &mut Bench<D>,
    op: &B,
    line: Line<'_>,
) -> Result<(), Stop>
    requires { IsLive bench.old.ctx (AnyNode.Operation (B.pointer op.now)) }
{
    let (ctx, answer) = (&bench.ctx, &mut bench.answer);
    match (line.command, line.second) {
        ("successor", _) => return ask_successor(ctx, &bench.made, answer, op),
        ("branch", "NSuccs<2>") => put_verdict(answer, NSuccsInterface::<D, 2>::verify(op, ctx)),
        ("branch", "OneSucc") => put_verdict(answer, OneSuccInterface::<D>::verify(op, ctx)),
        _ => return call_branch(bench, op, line),
    }
    Ok(())
}

// Writes the last of two successors, or the one.
fn ask_successor<D: OpSet, B: NSuccsInterface<D, 2> + OneSuccInterface<D>>(
    ctx: &Context<D>,
    made: &Made,
    answer: &mut Answer,
    op: &B,
) -> Result<(), Stop>
    requires { IsLive ctx.now (AnyNode.Operation (B.pointer op.now)) }
{
    let last: LessThanN<2> = LessThanN::new(1).ok_or(Stop::Refused)?;
    if NSuccsInterface::<D, 2>::verify(op, ctx).is_ok() {
        let block = NSuccsInterface::<D, 2>::get_successor_i(op, ctx, last);
        made.put_block(answer, Some(block));
        return Ok(());
    }
    if OneSuccInterface::<D>::verify(op, ctx).is_err() {
        return Err(Stop::Refused);
    }
    let block = OneSuccInterface::<D>::get_successor(op, ctx);
    made.put_block(answer, Some(block));
    Ok(())
}

// `forwarded OP SUCCESSOR` writes the places of the values that a successor gets, and the values.
fn ask_forwarded<D: OpSet, B: BranchOpInterface<D>>(
    alloc: Global,
    ctx: &Context<D>,
    made: &Made,
    answer: &mut Answer,
    op: &B,
    succ: usize,
) -> Result<(), Stop>
    requires { IsLive ctx.now (AnyNode.Operation (B.pointer op.now)) }
{
    if op.verify_successor_operand_layout(alloc, ctx).is_err()
        || succ >= op.get_operation().get_num_successors(ctx)
    {
        return Err(Stop::Refused);
    }
    let values = op.successor_operands(alloc, ctx, succ)?;
    let range = op.successor_operand_range(ctx, succ);
    let (start, end) = (range.start, range.end);
    answer.put_number(start);
    answer.put(" to ");
    answer.put_number(end);
    answer.put(":");
    put_values(made, answer, values.as_slice());
    Ok(())
}

// `add OP SUCCESSOR VALUE` writes the place.
fn add<D: OpSet, B: BranchOpInterface<D>>(
    alloc: Global,
    ctx: &mut Context<D>,
    made: &Made,
    answer: &mut Answer,
    op: &B,
    line: Line<'_>,
) -> Result<(), Stop>
    requires { IsLive ctx.old (AnyNode.Operation (B.pointer op.now)) }
{
    let (succ, value) = (number(line.second)?, made.value(ctx, line.third)?);
    if op.verify_successor_operand_layout(alloc, ctx).is_err()
        || succ >= op.get_operation().get_num_successors(ctx)
        || op.successor_operands(alloc, ctx, succ)?.len() >= 1000
    {
        return Err(Stop::Refused);
    }
    let place = op.add_successor_operand(ctx, succ, value)?;
    answer.put_number(place as usize);
    Ok(())
}

// `drop OP SUCCESSOR ARGUMENT` writes the value that is taken out.
fn take_out<D: OpSet, B: BranchOpInterface<D>>(
    alloc: Global,
    ctx: &mut Context<D>,
    made: &Made,
    answer: &mut Answer,
    op: &B,
    line: Line<'_>,
) -> Result<(), Stop>
    requires { IsLive ctx.old (AnyNode.Operation (B.pointer op.now)) }
{
    let (succ, arg) = (number(line.second)?, number(line.third)?);
    if op.verify_successor_operand_layout(alloc, ctx).is_err()
        || succ >= op.get_operation().get_num_successors(ctx)
        || arg >= op.successor_operands(alloc, ctx, succ)?.len()
    {
        return Err(Stop::Refused);
    }
    let value = op.remove_successor_operand(ctx, succ, arg);
    made.put_value(answer, value);
    Ok(())
}

// `reset OP SUCCESSOR ARGUMENT VALUE`.
fn reset<D: OpSet, B: BranchOpInterface<D>>(
    alloc: Global,
    ctx: &mut Context<D>,
    made: &Made,
    op: &B,
    line: Line<'_>,
) -> Result<(), Stop>
    requires { IsLive ctx.old (AnyNode.Operation (B.pointer op.now)) }
{
    let (_, last) = line.tail.split_once(' ').unwrap_or((line.tail, ""));
    let (succ, arg, value) = (
        number(line.second)?,
        number(line.third)?,
        made.value(ctx, last)?,
    );
    if op.verify_successor_operand_layout(alloc, ctx).is_err()
        || succ >= op.get_operation().get_num_successors(ctx)
    {
        return Err(Stop::Refused);
    }
    let range = op.successor_operand_range(ctx, succ);
    if arg >= range.end - range.start {
        return Err(Stop::Refused);
    }
    op.set_successor_operand(ctx, succ, arg, value);
    Ok(())
}
