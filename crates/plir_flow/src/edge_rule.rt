//! Whether an edge is right, and which point it breaks.
ghost use Rattle.std.specs.Prelude.{◌≡◌, ◌↔◌, ◌<◌, ◌+◌, [], All, IsTrue, IsNone, IfSome, IfOk, length};
ghost use Rattle.std.specs.List.{HoldsAt};
ghost use Rattle.plir_core.specs.ContextView.{IsValueLive, type_of_value};
ghost use Rattle.plir_core.specs.WellFormed.{IsWellFormed};
ghost use Rattle.plir_flow.specs.RegionEdges.{IsPointLive, IsSuccessorLive, IsFlowLive, IsUseLive, IsEdgeLive};
ghost use Rattle.plir_flow.specs.RegionEdges.{AreEdgesLive};
ghost use Rattle.plir_flow.specs.RegionRule.{source_at, type_of_use, no_receiver, IsOfOtherType, IsOwnPoint, IsOwnRead};
ghost use Rattle.plir_flow.specs.RegionRule.{IsOwnSuccessor, IsReceiver, IsEdgeRight, IsFaultOfEdges};
ghost use Rattle.plir_flow.specs.EdgeVerdicts.{IsFlowVerdict, IsFlowsVerdict, IsEdgeVerdict, IsEdgesVerdict};
ghost use Rattle.plir_flow.specs.EdgeVerdicts.{AreFirsts, first_place, NamesLive};

use crate::edge_ends::{RegionBranchPoint, RegionEdge, RegionSuccessor};
use crate::once::Once;
use crate::receiver_sets::keeps_receivers;
use crate::region_edge_errors::EdgeFault;
use plir_core::{Context, DefiningEntity, Interface, Operation, Ptr, Region, Use, Value, op_impls};
use plir_data::{Memory, OpSet};
use std::alloc::Global;
use std::collections::HashMap;

// Whether a terminator at a point is of a kind of terminators, and stands in a region of the operation.
fn is_own_point<D: OpSet>(ctx: &Context<D>, op: Ptr<Operation>, point: RegionBranchPoint) -> bool
    requires { IsPointLive ctx.now point }
    ensures value { IsTrue result ↔ IsOwnPoint D.is_terminator ctx.now op point }
    ensures whole { IsWellFormed D.attr_handles ctx.now }
{
    ctx.stands();
    match point {
        RegionBranchPoint::Parent => true,
        RegionBranchPoint::Terminator(terminator) => {
            terminator.get_parent_op(ctx) == Some(op)
                && op_impls(ctx, terminator, Interface::Terminator)
        }
    }
}

// The operation at a point.
fn source_of(op: Ptr<Operation>, point: RegionBranchPoint) -> Ptr<Operation>
    ensures { result ≡ source_at op point }
{
    match point {
        RegionBranchPoint::Parent => op,
        RegionBranchPoint::Terminator(terminator) => terminator,
    }
}

// Whether an operand that is read is one of the operation, or of the one at the point.
fn is_own_read(op: Ptr<Operation>, point: RegionBranchPoint, read: Use<Value>) -> bool
    ensures { IsTrue result ↔ IsOwnRead op point read }
{
    read.user_op() == op || read.user_op() == source_of(op, point)
}

// Whether all operands that are read are.
fn are_own_reads(op: Ptr<Operation>, point: RegionBranchPoint, reads: &[Use<Value>]) -> bool
    ensures { IsTrue result ↔ All (IsOwnRead op point) reads.now }
{
    reads.iter().all(|read| is_own_read(op, point, *read))
}

// Whether a region that an edge leads to is one of the operation.
fn is_own_successor<D: OpSet>(
    ctx: &Context<D>,
    op: Ptr<Operation>,
    successor: RegionSuccessor,
) -> bool
    requires { IsSuccessorLive ctx.now successor }
    ensures value { IsTrue result ↔ IsOwnSuccessor ctx.now op successor }
    ensures whole { IsWellFormed D.attr_handles ctx.now }
{
    ctx.stands();
    match successor {
        RegionSuccessor::After => true,
        RegionSuccessor::Region(region) => region.get_parent_op(ctx) == Some(op),
    }
}

// Whether a value may receive at the end of an edge.
fn is_receiver<D: OpSet>(
    ctx: &Context<D>,
    op: Ptr<Operation>,
    successor: RegionSuccessor,
    receiver: Value,
) -> bool
    requires { IsSuccessorLive ctx.now successor }
    ensures value { IsTrue result ↔ IsReceiver ctx.now op successor receiver }
    ensures whole { IsWellFormed D.attr_handles ctx.now }
{
    ctx.stands();
    match (successor, receiver.defining_entity()) {
        (RegionSuccessor::Region(region), DefiningEntity::Block(block)) => {
            region.get_entry_block(ctx) == Some(block)
        }
        (RegionSuccessor::After, DefiningEntity::Op(owner)) => owner == op,
        _ => false,
    }
}

// The fault of a value that may not receive at the end of an edge.
fn receiver_fault(successor: RegionSuccessor) -> EdgeFault
    ensures { result ≡ no_receiver successor }
{
    match successor {
        RegionSuccessor::Region(_) => EdgeFault::NoArgument,
        RegionSuccessor::After => EdgeFault::NoResult,
    }
}

// How the types of an operand and of what receives it differ.
fn find_type_fault<D: OpSet>(
    ctx: &Context<D>,
    operand: Use<Value>,
    receiver: Value,
) -> Option<EdgeFault>
    requires operand_live { IsUseLive ctx.now operand }
    requires receiver_live { IsValueLive ctx.now receiver }
    ensures none { IsNone result → type_of_use ctx.now operand ≡ type_of_value ctx.now receiver }
    ensures some { IfSome result (IsOfOtherType ctx.now operand receiver) }
    ensures live { IfSome result (NamesLive ctx.now) }
    ensures whole { IsWellFormed D.attr_handles ctx.now }
{
    ctx.stands();
    let given = operand.get_def(ctx).get_type(ctx);
    let wanted = receiver.get_type(ctx);
    if given == wanted {
        return None;
    }
    Some(EdgeFault::OtherType(given, wanted))
}

// The point that what flows breaks, if it breaks one; `received` has those that received on the edge.
fn find_flow_fault<D: OpSet>(
    ctx: &Context<D>,
    op: Ptr<Operation>,
    point: RegionBranchPoint,
    successor: RegionSuccessor,
    flow: (Use<Value>, Value),
    received: &mut Once<Value>,
) -> Result<Option<EdgeFault>, Memory>
    requires successor_live { IsSuccessorLive ctx.now successor }
    requires flow_live { IsFlowLive ctx.now flow }
    ensures reported { IfOk result (IsFlowVerdict ctx.now op point successor flow received.old received.new) }
    ensures live { IfOk result (λ f. IfSome f (NamesLive ctx.now)) }
    ensures whole { IsWellFormed D.attr_handles ctx.now }
{
    ctx.stands();
    let (operand, receiver) = flow;
    if operand.user_op() != source_of(op, point) {
        return Ok(Some(EdgeFault::ForeignOperand));
    }
    if !is_receiver(ctx, op, successor, receiver) {
        return Ok(Some(receiver_fault(successor)));
    }
    if !received.add(receiver)? {
        return Ok(Some(EdgeFault::ReceivedTwice));
    }
    Ok(find_type_fault(ctx, operand, receiver))
}

// The point that what flows on an edge breaks first, if it breaks one.
fn find_flows_fault<D: OpSet>(
    ctx: &Context<D>,
    op: Ptr<Operation>,
    edge: &RegionEdge,
    received: &mut Once<Value>,
) -> Result<Option<EdgeFault>, Memory>
    requires live { IsEdgeLive ctx.now edge.now }
    requires empty { received.old ≡ [] }
    ensures reported { IfOk result (IsFlowsVerdict D.is_terminator ctx.now op edge.now) }
    ensures live { IfOk result (λ f. IfSome f (NamesLive ctx.now)) }
    ensures whole { IsWellFormed D.attr_handles ctx.now }
{
    ctx.stands();
    for flow in &edge.flows {
        let found = find_flow_fault(ctx, op, edge.from, edge.to, *flow, received)?;
        if found.is_some() {
            return Ok(found);
        }
    }
    Ok(None)
}

/// The first of the points that speak of one edge that an edge breaks, if it breaks one.
pub(crate) fn find_edge_fault<D: OpSet>(
    alloc: Global,
    ctx: &Context<D>,
    op: Ptr<Operation>,
    edge: &RegionEdge,
) -> Result<Option<EdgeFault>, Memory>
    requires { IsEdgeLive ctx.now edge.now }
    ensures reported { IfOk result (IsEdgeVerdict D.is_terminator ctx.now op edge.now) }
    ensures live { IfOk result (λ f. IfSome f (NamesLive ctx.now)) }
    ensures whole { IsWellFormed D.attr_handles ctx.now }
{
    ctx.stands();
    if !is_own_point(ctx, op, edge.from) {
        return Ok(Some(EdgeFault::ForeignTerminator));
    }
    if !are_own_reads(op, edge.from, &edge.reads) {
        return Ok(Some(EdgeFault::ForeignRead));
    }
    if !is_own_successor(ctx, op, edge.to) {
        return Ok(Some(EdgeFault::ForeignRegion));
    }
    let mut received = Once::new(alloc);
    find_flows_fault(ctx, op, edge, &mut received)
}

/// The point that the edge at an index breaks, if it breaks one. `firsts` has the index of the first edge with each
/// target.
fn find_fault_at<D: OpSet>(
    alloc: Global,
    ctx: &Context<D>,
    op: Ptr<Operation>,
    edges: &[RegionEdge],
    place: usize,
    firsts: &mut HashMap<Option<Ptr<Region>>, usize>,
) -> Result<Option<EdgeFault>, Memory>
    requires live { AreEdgesLive ctx.now edges.now }
    requires below { place < length edges.now }
    requires firsts { AreFirsts edges.now place (first_place firsts.old) }
    ensures next { IfOk result (λ f. IsNone f → AreFirsts edges.now (place + 1) (first_place firsts.new)) }
    ensures right { IfOk result (λ f. IsNone f → HoldsAt (IsEdgeRight D.is_terminator ctx.now op) edges.now place) }
    ensures broken { IfOk result (λ f. IfSome f (IsFaultOfEdges D.is_terminator ctx.now op edges.now)) }
    ensures live { IfOk result (λ f. IfSome f (NamesLive ctx.now)) }
    ensures whole { IsWellFormed D.attr_handles ctx.now }
{
    ctx.stands();
    if !keeps_receivers(alloc, edges, place, firsts)? {
        return Ok(Some(EdgeFault::OtherReceivers));
    }
    find_edge_fault(alloc, ctx, op, &edges[place])
}

// The point that the edges break first, if they break one.
fn find_faults<D: OpSet>(
    alloc: Global,
    ctx: &Context<D>,
    op: Ptr<Operation>,
    edges: &[RegionEdge],
    firsts: &mut HashMap<Option<Ptr<Region>>, usize>,
) -> Result<Option<EdgeFault>, Memory>
    requires live { AreEdgesLive ctx.now edges.now }
    requires firsts { AreFirsts edges.now 0 (first_place firsts.old) }
    ensures reported { IfOk result (IsEdgesVerdict D.is_terminator ctx.now op edges.now) }
    ensures live { IfOk result (λ f. IfSome f (NamesLive ctx.now)) }
    ensures whole { IsWellFormed D.attr_handles ctx.now }
{
    ctx.stands();
    for place in 0..edges.len() {
        let found = find_fault_at(alloc, ctx, op, edges, place, firsts)?;
        if found.is_some() {
            return Ok(found);
        }
    }
    Ok(None)
}

/// The point that the edges break first, if they break one.
pub(crate) fn find_fault<D: OpSet>(
    alloc: Global,
    ctx: &Context<D>,
    op: Ptr<Operation>,
    edges: &[RegionEdge],
) -> Result<Option<EdgeFault>, Memory>
    requires { AreEdgesLive ctx.now edges.now }
    ensures reported { IfOk result (IsEdgesVerdict D.is_terminator ctx.now op edges.now) }
    ensures live { IfOk result (λ f. IfSome f (NamesLive ctx.now)) }
    ensures whole { IsWellFormed D.attr_handles ctx.now }
{
    let mut firsts = HashMap::new(alloc);
    find_faults(alloc, ctx, op, edges, &mut firsts)
}
