//! The calls on region edges.
ghost use Rattle.plir_core.specs.ContextView.{IsLive};
ghost use Rattle.plir_core.specs.declared.ptr.IRNode.{IRNode as AnyNode};

use crate::flow::edge_reading::{point_of, region_of, successor_of};
use crate::flow::grouping::{put_values, put_verdict};
use plir_core::{Context, Ptr, Region, Use, Value};
use plir_data::OpSet;
use plir_flow::{RegionBranchOpInterface, RegionBranchPoint, RegionEdge, RegionSuccessor};
use plir_scripts::{Answer, Line, Made, Stop, split_word};
use std::alloc::Global;

// Writes the name of an operand's operation, and the operand's place.
fn put_use(made: &Made, answer: &mut Answer, read: Use<Value>) {
    made.put_op(answer, Some(read.user_op()));
    answer.put("/");
    answer.put_number(read.opd_idx());
}

fn put_uses(made: &Made, answer: &mut Answer, reads: &[Use<Value>]) {
    for read in reads {
        put_use(made, answer, *read);
    }
}

fn put_flows(made: &Made, answer: &mut Answer, flows: &[(Use<Value>, Value)]) {
    for flow in flows {
        put_use(made, answer, flow.0);
        answer.put(" into");
        made.put_value(answer, flow.1);
    }
}

fn put_regions(made: &Made, answer: &mut Answer, regions: &[Ptr<Region>]) {
    for region in regions {
        made.put_region(answer, Some(*region));
    }
}

// Writes what edges start at and lead to.
fn put_edges(made: &Made, answer: &mut Answer, edges: &[RegionEdge]) {
    for edge in edges {
        match edge.from {
            RegionBranchPoint::Parent => answer.put(" parent"),
            RegionBranchPoint::Terminator(op) => made.put_op(answer, Some(op)),
        }
        answer.put(" to");
        match edge.to {
            RegionSuccessor::Region(region) => made.put_region(answer, Some(region)),
            RegionSuccessor::After => answer.put(" after"),
        }
        answer.put(";");
    }
}

/// `edges OP same` writes for each edge whether a copy of it is equal to the first.
pub fn put_same(alloc: Global, answer: &mut Answer, edges: &[RegionEdge]) -> Result<(), Stop> {
    let Some(first) = edges.first() else {
        return Err(Stop::Refused);
    };
    for edge in edges {
        let copy = edge.try_clone(alloc)?;
        answer.put(if copy == *first { " yes" } else { " no" });
    }
    Ok(())
}

/// The questions about region edges: `verify`, and those about a region, what flows, or one end of edges.
pub fn ask_edges<D: OpSet, O: RegionBranchOpInterface<D>>(
    alloc: Global,
    ctx: &Context<D>,
    made: &Made,
    answer: &mut Answer,
    op: &O,
    line: Line<'_>,
) -> Result<(), Stop>
    requires { IsLive ctx.now (AnyNode.Operation (O.pointer op.now)) }
{
    let question = line.second;
    if question == "verify" {
        put_verdict(answer, op.verify(alloc, ctx));
        return Ok(());
    }
    if op.verify_region_edges_layout(alloc, ctx).is_err() {
        return Err(Stop::Refused);
    }
    let (name, _) = split_word(line.tail);
    match question {
        "reachable" | "reached" | "repetitive" | "successors" | "reads" => {
            ask_region(alloc, ctx, made, answer, op, question, name)
        }
        "flows" | "incoming" => ask_flows(alloc, ctx, made, answer, op, question, name),
        _ => ask_end(alloc, ctx, made, answer, op, question, name),
    }
}

// The questions about one region.
fn ask_region<D: OpSet, O: RegionBranchOpInterface<D>>(
    alloc: Global,
    ctx: &Context<D>,
    made: &Made,
    answer: &mut Answer,
    op: &O,
    question: &str,
    name: &str,
) -> Result<(), Stop>
    requires live { IsLive ctx.now (AnyNode.Operation (O.pointer op.now)) }
    requires layout { O.has_edges_layout op.now ctx.now }
{
    let region = region_of(made, name)?;
    match question {
        "reached" => answer.put_number(op.reachable_regions(alloc, ctx, region)?.len()),
        "reachable" => put_regions(made, answer, &op.reachable_regions(alloc, ctx, region)?),
        "repetitive" => answer.put_truth(op.is_repetitive_region(alloc, ctx, region)?),
        "successors" => put_regions(made, answer, &op.successor_regions(alloc, ctx, region)?),
        _ => put_uses(
            made,
            answer,
            &op.operands_read_from_region(alloc, ctx, region)?,
        ),
    }
    Ok(())
}

// The questions about edges from a point, or to a successor.
fn ask_end<D: OpSet, O: RegionBranchOpInterface<D>>(
    alloc: Global,
    ctx: &Context<D>,
    made: &Made,
    answer: &mut Answer,
    op: &O,
    question: &str,
    name: &str,
) -> Result<(), Stop>
    requires live { IsLive ctx.now (AnyNode.Operation (O.pointer op.now)) }
    requires layout { O.has_edges_layout op.now ctx.now }
{
    match question {
        "from" => put_edges(
            made,
            answer,
            &op.edges_from(alloc, ctx, point_of(made, name)?)?,
        ),
        "to" => put_edges(
            made,
            answer,
            &op.edges_to(alloc, ctx, successor_of(made, name)?)?,
        ),
        "read-from" => {
            let reads = op.operands_read_from(alloc, ctx, point_of(made, name)?)?;
            put_uses(made, answer, &reads);
        }
        "read-to" => {
            let reads = op.operands_read_to(alloc, ctx, successor_of(made, name)?)?;
            put_uses(made, answer, &reads);
        }
        _ => {
            let receivers = op.successor_receivers(alloc, ctx, successor_of(made, name)?)?;
            put_values(made, answer, &receivers);
        }
    }
    Ok(())
}

// The questions about what flows: all of it, or into one value.
fn ask_flows<D: OpSet, O: RegionBranchOpInterface<D>>(
    alloc: Global,
    ctx: &Context<D>,
    made: &Made,
    answer: &mut Answer,
    op: &O,
    question: &str,
    name: &str,
) -> Result<(), Stop>
    requires live { IsLive ctx.now (AnyNode.Operation (O.pointer op.now)) }
    requires layout { O.has_edges_layout op.now ctx.now }
{
    if question == "flows" {
        put_flows(made, answer, &op.region_flows(alloc, ctx)?);
        return Ok(());
    }
    let receiver = made.value(ctx, name)?;
    put_uses(made, answer, &op.incoming_operands(alloc, ctx, receiver)?);
    Ok(())
}

/// `loop OP REGION BLOCK END` verifies a loop, and writes its edges where it stands as they want it.
pub fn verify_loop<D: OpSet, O: RegionBranchOpInterface<D>>(
    alloc: Global,
    ctx: &Context<D>,
    made: &Made,
    answer: &mut Answer,
    any: &O,
) -> Result<(), Stop>
    requires { IsLive ctx.now (AnyNode.Operation (O.pointer any.now)) }
{
    put_verdict(answer, any.verify(alloc, ctx));
    if any.verify_region_edges_layout(alloc, ctx).is_ok() {
        put_edges(made, answer, &any.region_edges(alloc, ctx)?);
    }
    Ok(())
}
