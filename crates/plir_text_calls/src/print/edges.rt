//! Edges as a script writes them: `FROM TO FLOWS READS`. An edge starts at `parent` or at an operation, and leads to a
//! region or to `after`; what flows is written as `o0/1>b0.0`, what is read as `o0/1`, both parted by commas, or `-`.
ghost use Rattle.std.specs.Prelude.{All, IfOk};
ghost use Rattle.plir_flow.specs.RegionEdges.{IsEdgeLive, IsFlowLive, IsPointLive, IsSuccessorLive, IsUseLive};

use plir_core::{Context, IRNode, Use, Value};
use plir_data::OpSet;
use plir_flow::{RegionBranchPoint, RegionEdge, RegionSuccessor};
use plir_scripts::{Made, Stop, number, split_word};
use std::alloc::Global;

// What an edge starts at.
fn point_of<D: OpSet>(ctx: &Context<D>, made: &Made, name: &str) -> Result<RegionBranchPoint, Stop>
    ensures { IfOk result (IsPointLive ctx.now) }
{
    match name {
        "parent" => Ok(RegionBranchPoint::Parent),
        _ => Ok(RegionBranchPoint::Terminator(made.op(ctx, name)?)),
    }
}

// What an edge leads to.
fn successor_of<D: OpSet>(
    ctx: &Context<D>,
    made: &Made,
    name: &str,
) -> Result<RegionSuccessor, Stop>
    ensures { IfOk result (IsSuccessorLive ctx.now) }
{
    if name == "after" {
        return Ok(RegionSuccessor::After);
    }
    match made.live(ctx, name)? {
        IRNode::Region(region) => Ok(RegionSuccessor::Region(region)),
        _ => Err(Stop::Refused),
    }
}

// The operand that `o0/1` names.
fn use_of<D: OpSet>(ctx: &Context<D>, made: &Made, word: &str) -> Result<Use<Value>, Stop>
    ensures { IfOk result (IsUseLive ctx.now) }
{
    let (name, place) = word.split_once('/').ok_or(Stop::Refused)?;
    let op = made.op(ctx, name)?;
    let place = number(place)?;
    if place >= op.get_num_operands(ctx) {
        return Err(Stop::Refused);
    }
    Ok(Use::new(op, place))
}

// The operand and the receiver that `o0/1>b0.0` names.
fn flow_of<D: OpSet>(ctx: &Context<D>, made: &Made, word: &str) -> Result<(Use<Value>, Value), Stop>
    ensures { IfOk result (IsFlowLive ctx.now) }
{
    let (operand, receiver) = word.split_once('>').ok_or(Stop::Refused)?;
    let operand = use_of(ctx, made, operand)?;
    let receiver = made.value(ctx, receiver)?;
    Ok((operand, receiver))
}

// What words parted by commas say flows.
fn flows_of<D: OpSet>(
    alloc: Global,
    ctx: &Context<D>,
    made: &Made,
    words: &str,
) -> Result<Vec<(Use<Value>, Value)>, Stop>
    ensures { IfOk result (λ flows. All (IsFlowLive ctx.now) flows.items) }
{
    let mut flows = Vec::new(alloc);
    'words: for word in words.split(',') {
        if word != "-" {
            flows.push(flow_of(ctx, made, word)?)?;
        }
    }
    Ok(flows)
}

// The operands that words parted by commas name.
fn reads_of<D: OpSet>(
    alloc: Global,
    ctx: &Context<D>,
    made: &Made,
    words: &str,
) -> Result<Vec<Use<Value>>, Stop>
    ensures { IfOk result (λ reads. All (IsUseLive ctx.now) reads.items) }
{
    let mut reads = Vec::new(alloc);
    'words: for word in words.split(',') {
        if word != "-" {
            reads.push(use_of(ctx, made, word)?)?;
        }
    }
    Ok(reads)
}

/// The edge of a text, of which all is there.
pub fn edge_of<D: OpSet>(
    alloc: Global,
    ctx: &Context<D>,
    made: &Made,
    text: &str,
) -> Result<RegionEdge, Stop>
    ensures { IfOk result (λ edge. IsEdgeLive ctx.now edge) }
{
    let (from, text) = split_word(text);
    let (to, text) = split_word(text);
    let (flows, reads) = split_word(text);
    Ok(RegionEdge {
        from: point_of(ctx, made, from)?,
        to: successor_of(ctx, made, to)?,
        flows: flows_of(alloc, ctx, made, flows)?,
        reads: reads_of(alloc, ctx, made, reads)?,
    })
}
