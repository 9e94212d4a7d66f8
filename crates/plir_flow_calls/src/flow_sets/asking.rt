//! The questions to an op set, whatever set it is.
ghost use Rattle.plir_core.specs.ContextView.{IsLive};
ghost use Rattle.plir_core.specs.declared.ptr.IRNode.{IRNode as AnyNode};

use plir_core::{Context, Operation, Ptr};
use plir_data::Identifier;
use plir_flow::{CallOpCallable, RegionBranchPoint, RegionEdge, RegionSuccessor};
use plir_flow_sets::{BranchSet, CallSet, RegionEdgeSet, call_sites};
use plir_scripts::{Answer, Bench, Line, Made, Stop, number};
use std::alloc::Global;
use std::ops::Range;

/// `call OP` writes what an operation calls, and the arguments.
pub fn ask_call<D: CallSet>(bench: &mut Bench<D>, op: Ptr<Operation>) -> Result<(), Stop>
    requires { IsLive bench.old.ctx (AnyNode.Operation op) }
{
    let (alloc, ctx, made, answer) = (bench.alloc, &bench.ctx, &bench.made, &mut bench.answer);
    let Some(call) = D::call(ctx, op) else {
        answer.put("none");
        return Ok(());
    };
    match call.callee.to_callable(alloc)? {
        CallOpCallable::Direct(name) => answer.put(name.as_str()),
        CallOpCallable::Indirect(value) => made.put_value(answer, value),
    }
    answer.put(" /");
    for place in 0..D::num_arguments(ctx, op) {
        made.put_value(answer, D::argument(ctx, op, place));
    }
    Ok(())
}

// Writes places.
fn put_places(answer: &mut Answer, range: Option<Range<usize>>) {
    match range {
        Some(range) => {
            let (start, end) = (range.start, range.end);
            answer.put_number(start);
            answer.put(" to ");
            answer.put_number(end);
        }
        None => answer.put("none"),
    }
}

/// `returned OP` writes the places of what an operation hands back.
pub fn ask_returned<D: CallSet>(bench: &mut Bench<D>, op: Ptr<Operation>)
    requires { IsLive bench.old.ctx (AnyNode.Operation op) }
{
    put_places(&mut bench.answer, D::returned_range(&bench.ctx, op));
}

/// `forwarded OP SUCCESSOR` writes the places of what a successor gets, and the values.
pub fn ask_forwarded<D: BranchSet>(
    bench: &mut Bench<D>,
    op: Ptr<Operation>,
    line: Line<'_>,
) -> Result<(), Stop>
    requires { IsLive bench.old.ctx (AnyNode.Operation op) }
{
    let (ctx, made, answer) = (&bench.ctx, &bench.made, &mut bench.answer);
    let successor = number(line.second)?;
    if successor >= op.get_num_successors(ctx) {
        return Err(Stop::Refused);
    }
    put_places(answer, D::forwarded_range(ctx, op, successor));
    answer.put(" /");
    for place in 0..D::num_forwarded(ctx, op, successor) {
        made.put_value(answer, D::forwarded(ctx, op, successor, place));
    }
    Ok(())
}

/// `sites OP NAME` writes the operations that call the function of a name.
pub fn ask_sites<D: CallSet>(
    bench: &mut Bench<D>,
    op: Ptr<Operation>,
    line: Line<'_>,
) -> Result<(), Stop>
    requires { IsLive bench.old.ctx (AnyNode.Operation op) }
{
    let name = Identifier::try_new(bench.alloc, line.second)?;
    let sites = call_sites(bench.alloc, &bench.ctx, op, &name)?;
    for site in &sites {
        bench.made.put_op(&mut bench.answer, Some(*site));
    }
    Ok(())
}

// Writes an edge: from where, to where, and the values that receive.
fn put_edge(made: &Made, answer: &mut Answer, edge: &RegionEdge) {
    match edge.from {
        RegionBranchPoint::Parent => answer.put("parent ->"),
        RegionBranchPoint::Terminator(end) => {
            made.put_op(answer, Some(end));
            answer.put(" ->");
        }
    }
    match edge.to {
        RegionSuccessor::Region(region) => made.put_region(answer, Some(region)),
        RegionSuccessor::After => answer.put(" after"),
    }
    for (_, receiver) in &edge.flows {
        made.put_value(answer, *receiver);
    }
}

/// Writes edges.
pub fn put_edges(made: &Made, answer: &mut Answer, edges: &[RegionEdge]) {
    for edge in edges {
        put_edge(made, answer, edge);
        answer.put(";");
    }
}

/// `edges OP` writes the edges of an operation.
pub fn ask_edges<D: RegionEdgeSet>(bench: &mut Bench<D>, op: Ptr<Operation>) -> Result<(), Stop>
    requires { IsLive bench.old.ctx (AnyNode.Operation op) }
{
    match D::region_edges(bench.alloc, &bench.ctx, op)? {
        Some(edges) => put_edges(&bench.made, &mut bench.answer, edges.as_slice()),
        None => bench.answer.put("none"),
    }
    Ok(())
}
