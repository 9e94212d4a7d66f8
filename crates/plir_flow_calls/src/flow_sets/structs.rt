//! The questions to structs of operations by their interfaces, whose answers are those of the op set.
ghost use Rattle.plir_core.specs.ContextView.{IsLive};
ghost use Rattle.plir_core.specs.declared.ptr.IRNode.{IRNode as AnyNode};

use crate::flow_sets::asking::put_edges;
use plir_flow::{BranchOpInterface, CallOpCallable, CallOpInterface, RegionBranchOpInterface};
use plir_flow_sets::{BranchSet, CallSet, RegionEdgeSet, ToldBranch, ToldCall, ToldRegionEdges};
use plir_iface::Op;
use plir_scripts::{Bench, Line, Stop, number};

/// `as-call OP` writes what a call calls, and how many arguments it passes, as the set tells.
pub fn ask_call<D: CallSet, C: ToldCall<D>>(bench: &mut Bench<D>, call: &C) -> Result<(), Stop>
    requires { IsLive bench.old.ctx (AnyNode.Operation (C.pointer call.now)) }
{
    let (alloc, ctx, made, answer) = (bench.alloc, &bench.ctx, &bench.made, &mut bench.answer);
    if call.verify_call_layout(alloc, ctx).is_err() {
        return Err(Stop::Refused);
    }
    call.call_is_told(ctx);
    match call.callee(alloc, ctx)? {
        CallOpCallable::Direct(name) => answer.put(name.as_str()),
        CallOpCallable::Indirect(value) => made.put_value(answer, value),
    }
    answer.put(" /");
    for place in 0..call.args(alloc, ctx)?.len() {
        made.put_value(answer, D::argument(ctx, call.get_operation(), place));
    }
    Ok(())
}

/// `as-branch OP SUCCESSOR` writes the values that a successor gets, as the set tells.
pub fn ask_branch<D: BranchSet, B: ToldBranch<D>>(
    bench: &mut Bench<D>,
    branch: &B,
    line: Line<'_>,
) -> Result<(), Stop>
    requires { IsLive bench.old.ctx (AnyNode.Operation (B.pointer branch.now)) }
{
    let (alloc, ctx, made, answer) = (bench.alloc, &bench.ctx, &bench.made, &mut bench.answer);
    let (op, successor) = (branch.get_operation(), number(line.second)?);
    if branch.verify_successor_operand_layout(alloc, ctx).is_err()
        || successor >= op.get_num_successors(ctx)
    {
        return Err(Stop::Refused);
    }
    branch.branch_is_told(ctx);
    for place in 0..branch.successor_operands(alloc, ctx, successor)?.len() {
        made.put_value(answer, D::forwarded(ctx, op, successor, place));
    }
    Ok(())
}

/// `add OP SUCCESSOR VALUE` and `drop OP SUCCESSOR PLACE` forward one value more, or one less.
pub fn edit_branch<D: BranchSet, B: ToldBranch<D>>(
    bench: &mut Bench<D>,
    branch: &B,
    line: Line<'_>,
) -> Result<(), Stop>
    requires { IsLive bench.old.ctx (AnyNode.Operation (B.pointer branch.now)) }
{
    let (alloc, ctx, made, answer) = (bench.alloc, &mut bench.ctx, &bench.made, &mut bench.answer);
    let successor = number(line.second)?;
    if branch.verify_successor_operand_layout(alloc, ctx).is_err()
        || successor >= branch.get_operation().get_num_successors(ctx)
    {
        return Err(Stop::Refused);
    }
    let count = branch.successor_operands(alloc, ctx, successor)?.len();
    if line.command == "drop" {
        let place = number(line.third)?;
        if place >= count {
            return Err(Stop::Refused);
        }
        let value = branch.remove_successor_operand(ctx, successor, place);
        made.put_value(answer, value);
        return Ok(());
    }
    let value = made.value(ctx, line.third)?;
    if count >= 1000 {
        return Err(Stop::Refused);
    }
    let place = branch.add_successor_operand(ctx, successor, value)?;
    answer.put_number(place);
    Ok(())
}

/// `as-scope OP` writes the edges of a scope.
pub fn ask_scope<D: RegionEdgeSet, S: ToldRegionEdges<D>>(
    bench: &mut Bench<D>,
    scope: &S,
) -> Result<(), Stop>
    requires { IsLive bench.old.ctx (AnyNode.Operation (S.pointer scope.now)) }
{
    if scope
        .verify_region_edges_layout(bench.alloc, &bench.ctx)
        .is_err()
    {
        return Err(Stop::Refused);
    }
    scope.edges_are_told(&bench.ctx);
    let edges = scope.region_edges(bench.alloc, &bench.ctx)?;
    put_edges(&bench.made, &mut bench.answer, edges.as_slice());
    Ok(())
}
