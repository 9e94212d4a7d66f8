//! From an edge between an operation and its regions to its text.
ghost use Rattle.std.specs.Prelude.{◌≡◌, All, IfOk, OnOk, string_bytes};
ghost use Rattle.plir_core.specs.declared.ptr.IRNode.{IRNode as AnyNode};
ghost use Rattle.plir_core.specs.ContextView.{IsLive};
ghost use Rattle.plir_core.specs.WellFormed.{IsWellFormed};
ghost use Rattle.plir_flow.specs.RegionEdges.{IsEdgeLive, IsFlowLive, IsPointLive, IsSuccessorLive, IsUseLive};
ghost use Rattle.plir_data.specs.TextParts.{Puts};
ghost use Rattle.plir_print.specs.EdgeText.{HasPointHeader, edge_text, flow_text, flows_text, passing_text, point_text};
ghost use Rattle.plir_print.specs.EdgeText.{reads_text, region_place, successor_text, use_text};

use crate::children::stands;
use crate::headers::put_header;
use crate::names::put_value;
use plir_core::{Context, Ptr, Region, Use, Value};
use plir_data::put::{put, put_between};
use plir_data::{Memory, OpSet};
use plir_flow::{RegionBranchPoint, RegionEdge, RegionSuccessor};
use std::alloc::Global;
use std::fmt::Write;

// Puts where an edge starts.
fn put_point<D: OpSet>(
    out: &mut String,
    alloc: Global,
    ctx: &Context<D>,
    point: RegionBranchPoint,
) -> Result<(), Memory>
    requires live { IsPointLive ctx.now point }
    requires header { HasPointHeader ctx.now point }
    ensures { OnOk result (Puts out.old out.new (point_text D.OpSet ctx.now point)) }
{
    match point {
        RegionBranchPoint::Parent => put(out, "parent"),
        RegionBranchPoint::Terminator(op) => put_header(out, alloc, ctx, op),
    }
}

// The index of a region among those of its operation, which each region has.
fn place_of<D: OpSet>(ctx: &Context<D>, region: Ptr<Region>) -> usize
    requires { IsLive ctx.now (AnyNode.Region region) }
    ensures { result ≡ region_place ctx.now region }
{
    stands(ctx);
    match region.get_parent_op(ctx) {
        Some(_) => region.find_index_in_parent(ctx),
        None => 0,
    }
}

// Puts where an edge leads.
fn put_target<D: OpSet>(
    out: &mut String,
    ctx: &Context<D>,
    target: RegionSuccessor,
) -> Result<(), Memory>
    requires { IsSuccessorLive ctx.now target }
    ensures { OnOk result (Puts out.old out.new (successor_text ctx.now target)) }
{
    match target {
        RegionSuccessor::Region(region) => {
            let place = place_of(ctx, region);
            write!(out, "region {place}")?;
            Ok(())
        }
        RegionSuccessor::After => put(out, "after"),
    }
}

// Puts the name of the operand that a use is of.
fn put_use<D: OpSet>(out: &mut String, ctx: &Context<D>, operand: Use<Value>) -> Result<(), Memory>
    requires { IsUseLive ctx.now operand }
    ensures { OnOk result (Puts out.old out.new (use_text ctx.now operand)) }
{
    put_value(out, ctx, operand.get_def(ctx))
}

// Puts an operand that flows and the value that receives it.
fn put_flow<D: OpSet>(
    out: &mut String,
    ctx: &Context<D>,
    flow: (Use<Value>, Value),
) -> Result<(), Memory>
    requires { IsFlowLive ctx.now flow }
    ensures { OnOk result (Puts out.old out.new (flow_text ctx.now flow)) }
{
    put_use(out, ctx, flow.0)?;
    put(out, " -> ")?;
    put_value(out, ctx, flow.1)?;
    Ok(())
}

// Puts what flows, with a comma and a space between two flows.
fn put_flows<D: OpSet>(
    out: &mut String,
    ctx: &Context<D>,
    flows: &[(Use<Value>, Value)],
) -> Result<(), Memory>
    requires { All (IsFlowLive ctx.now) flows.now }
    ensures { OnOk result (Puts out.old out.new (flows_text ctx.now flows.now)) }
{
    let mut is_first = true;
    'flows: for flow in flows {
        put_between(out, is_first, ", ")?;
        put_flow(out, ctx, *flow)?;
        is_first = false;
    }
    Ok(())
}

// Puts the operands that are read, with a comma and a space between them.
fn put_reads<D: OpSet>(
    out: &mut String,
    ctx: &Context<D>,
    reads: &[Use<Value>],
) -> Result<(), Memory>
    requires { All (IsUseLive ctx.now) reads.now }
    ensures { OnOk result (Puts out.old out.new (reads_text ctx.now reads.now)) }
{
    let mut is_first = true;
    'reads: for operand in reads {
        put_between(out, is_first, ", ")?;
        put_use(out, ctx, *operand)?;
        is_first = false;
    }
    Ok(())
}

// Puts what flows and what is read.
fn put_passing<D: OpSet>(
    out: &mut String,
    ctx: &Context<D>,
    edge: &RegionEdge,
) -> Result<(), Memory>
    requires { IsEdgeLive ctx.now edge.now }
    ensures { OnOk result (Puts out.old out.new (passing_text ctx.now edge.now)) }
{
    put(out, ": [")?;
    put_flows(out, ctx, edge.flows.as_slice())?;
    put(out, "], reads: [")?;
    put_reads(out, ctx, edge.reads.as_slice())?;
    put(out, "]")?;
    Ok(())
}

/// The text of an edge, as `parent -> region 0: [op1v1_res0 -> block1v1_arg0], reads: [op1v1_res0]`: where it starts,
/// `parent` or the header of the terminator; where it leads, `after` or `region` with its index in its
/// operation; the operands that flow, each with the value that receives it; and the operands that may be read. What it
/// takes is linear in the text and in the regions of that operation.
pub fn print_edge<D: OpSet>(
    alloc: Global,
    ctx: &Context<D>,
    edge: &RegionEdge,
) -> Result<String, Memory>
    requires live { IsEdgeLive ctx.now edge.now }
    requires header { HasPointHeader ctx.now edge.now.from }
    ensures text { IfOk result (λ s. string_bytes s ≡ edge_text D.OpSet ctx.now edge.now) }
    ensures whole { IsWellFormed D.attr_handles ctx.now }
{
    ctx.stands();
    let mut out = String::new(alloc);
    put_point(&mut out, alloc, ctx, edge.from)?;
    put(&mut out, " -> ")?;
    put_target(&mut out, ctx, edge.to)?;
    put_passing(&mut out, ctx, edge)?;
    Ok(out)
}
