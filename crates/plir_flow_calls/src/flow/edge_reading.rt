//! Edges as a script writes them: `FROM TO FLOWS READS`. An edge starts at `parent` or at an operation, and leads to a
//! region or to `after`; what flows is written as `o0/1>b0.0`, what is read as `o0/1`, both parted by commas, or `-`.
use plir_core::{Context, IRNode, Ptr, Region, Use, Value};
use plir_data::OpSet;
use plir_flow::{RegionBranchPoint, RegionEdge, RegionSuccessor};
use plir_scripts::{Made, Stop, number, split_word};
use std::alloc::Global;

/// The region of a name.
pub fn region_of(made: &Made, name: &str) -> Result<Ptr<Region>, Stop> {
    match made.node(name)? {
        IRNode::Region(region) => Ok(region),
        _ => Err(Stop::Refused),
    }
}

/// What an edge starts at.
pub fn point_of(made: &Made, name: &str) -> Result<RegionBranchPoint, Stop> {
    if name == "parent" {
        return Ok(RegionBranchPoint::Parent);
    }
    match made.node(name)? {
        IRNode::Operation(op) => Ok(RegionBranchPoint::Terminator(op)),
        _ => Err(Stop::Refused),
    }
}

/// What an edge leads to.
pub fn successor_of(made: &Made, name: &str) -> Result<RegionSuccessor, Stop> {
    if name == "after" {
        return Ok(RegionSuccessor::After);
    }
    Ok(RegionSuccessor::Region(region_of(made, name)?))
}

// The operand that `o0/1` names.
fn use_of(made: &Made, word: &str) -> Result<Use<Value>, Stop> {
    let (op, place) = word.split_once('/').ok_or(Stop::Refused)?;
    match made.node(op)? {
        IRNode::Operation(op) => Ok(Use::new(op, number(place)?)),
        _ => Err(Stop::Refused),
    }
}

// The operands that words parted by commas name.
fn reads_of(alloc: Global, made: &Made, words: &str) -> Result<Vec<Use<Value>>, Stop> {
    let mut reads = Vec::new(alloc);
    if words == "-" {
        return Ok(reads);
    }
    for word in words.split(',') {
        reads.push(use_of(made, word)?)?;
    }
    Ok(reads)
}

// What words parted by commas say flows.
fn flows_of<D: OpSet>(
    alloc: Global,
    ctx: &Context<D>,
    made: &Made,
    words: &str,
) -> Result<Vec<(Use<Value>, Value)>, Stop> {
    let mut flows = Vec::new(alloc);
    if words == "-" {
        return Ok(flows);
    }
    for word in words.split(',') {
        let (operand, receiver) = word.split_once('>').ok_or(Stop::Refused)?;
        flows.push((use_of(made, operand)?, made.value(ctx, receiver)?))?;
    }
    Ok(flows)
}

// The edge of a text.
fn edge_of<D: OpSet>(
    alloc: Global,
    ctx: &Context<D>,
    made: &Made,
    text: &str,
) -> Result<RegionEdge, Stop> {
    let (from, text) = split_word(text);
    let (to, text) = split_word(text);
    let (flows, reads) = split_word(text);
    Ok(RegionEdge {
        from: point_of(made, from)?,
        to: successor_of(made, to)?,
        flows: flows_of(alloc, ctx, made, flows)?,
        reads: reads_of(alloc, made, reads)?,
    })
}

/// The edges of a text, parted by `; `.
pub fn edges_of<D: OpSet>(
    alloc: Global,
    ctx: &Context<D>,
    made: &Made,
    text: &str,
) -> Result<Vec<RegionEdge>, Stop> {
    let mut edges = Vec::new(alloc);
    for part in text.split("; ") {
        edges.push(edge_of(alloc, ctx, made, part)?)?;
    }
    Ok(edges)
}
