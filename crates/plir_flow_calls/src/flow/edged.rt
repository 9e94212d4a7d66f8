//! An operation with edges between its regions that are told with it.
ghost use Rattle.std.specs.Prelude.{◌↔◌, All, IsTrue, IfOk, ◌≡◌};
ghost use Rattle.plir_core.specs.ContextView.{IsValueLive};
ghost use Rattle.plir_flow.specs.RegionEdges.{IsEdgeLive, AreEdgesLive, IsFlowLive, IsPointLive, IsSuccessorLive};
ghost use Rattle.plir_flow.specs.RegionEdges.{IsUseLive};

use crate::flow::refusing::Refusing;
use plir_core::{Context, IRNode, Operation, Ptr, Use, Value};
use plir_data::{Memory, OpSet, VerifyErr};
use plir_flow::{RegionBranchOpInterface, RegionBranchPoint, RegionEdge, RegionSuccessor};
use plir_iface::Op;
use std::alloc::Global;

/// An operation, and the edges along which control passes between its regions.
#[derive(Clone, Copy)]
pub struct Edged<'a> {
    pub op: Ptr<Operation>,
    pub edges: &'a [RegionEdge],
}

impl<D: OpSet> Op<D> for Edged<'_> {
    ghost pointer = { λ o. o.op };

    fn get_operation(&self) -> Ptr<Operation> {
        self.op
    }
}

// Whether what stands at the start of an edge is live.
fn is_point_live<D: OpSet>(ctx: &Context<D>, point: RegionBranchPoint) -> bool
    ensures { IsTrue result ↔ IsPointLive ctx.now point }
{
    match point {
        RegionBranchPoint::Parent => true,
        RegionBranchPoint::Terminator(op) => op.is_live(ctx),
    }
}

// Whether what an edge leads to is live.
fn is_successor_live<D: OpSet>(ctx: &Context<D>, successor: RegionSuccessor) -> bool
    ensures { IsTrue result ↔ IsSuccessorLive ctx.now successor }
{
    match successor {
        RegionSuccessor::Region(region) => region.is_live(ctx),
        RegionSuccessor::After => true,
    }
}

// Whether there is such an operand.
fn is_use_live<D: OpSet>(ctx: &Context<D>, read: Use<Value>) -> bool
    ensures { IsTrue result ↔ IsUseLive ctx.now read }
{
    read.user_op().is_live(ctx) && read.opd_idx() < read.user_op().get_num_operands(ctx)
}

// Whether there are the operands that flow.
fn are_sources_live<D: OpSet>(ctx: &Context<D>, flows: &[(Use<Value>, Value)]) -> bool
    ensures { IsTrue result ↔ All (λ f. IsUseLive ctx.now f.0) flows.now }
{
    flows.iter().all(|flow| is_use_live(ctx, flow.0))
}

// Whether there are the values that receive them.
fn are_receivers_live<D: OpSet>(ctx: &Context<D>, flows: &[(Use<Value>, Value)]) -> bool
    ensures { IsTrue result ↔ All (λ f. IsValueLive ctx.now f.1) flows.now }
{
    flows.iter().all(|flow| flow.1.is_live(ctx))
}

// Whether all that flows is there.
fn are_flows_live<D: OpSet>(ctx: &Context<D>, flows: &[(Use<Value>, Value)]) -> bool
    ensures { IsTrue result ↔ All (IsFlowLive ctx.now) flows.now }
{
    if !are_sources_live(ctx, flows) {
        return false;
    }
    are_receivers_live(ctx, flows)
}

// Whether all that is read is there.
fn are_reads_live<D: OpSet>(ctx: &Context<D>, reads: &[Use<Value>]) -> bool
    ensures { IsTrue result ↔ All (IsUseLive ctx.now) reads.now }
{
    reads.iter().all(|read| is_use_live(ctx, *read))
}

// Whether all that an edge names is there.
fn is_edge_live<D: OpSet>(ctx: &Context<D>, edge: &RegionEdge) -> bool
    ensures { IsTrue result ↔ IsEdgeLive ctx.now edge.now }
{
    if !is_point_live(ctx, edge.from) || !is_successor_live(ctx, edge.to) {
        return false;
    }
    if !are_flows_live(ctx, edge.flows.as_slice()) {
        return false;
    }
    are_reads_live(ctx, edge.reads.as_slice())
}

// Whether all that edges name is there.
fn are_edges_live<D: OpSet>(ctx: &Context<D>, edges: &[RegionEdge]) -> bool
    ensures { IsTrue result ↔ AreEdgesLive ctx.now edges.now }
{
    edges.iter().all(|edge| is_edge_live(ctx, edge))
}

// Edges like these.
fn copy_edges(alloc: Global, edges: &[RegionEdge]) -> Result<Vec<RegionEdge>, Memory>
    ensures { IfOk result (λ es. es.items ≡ edges.now) }
{
    let mut copies = Vec::new(alloc);
    for edge in edges {
        copies.push(edge.try_clone(alloc)?)?;
    }
    Ok(copies)
}

impl<D: Refusing> RegionBranchOpInterface<D> for Edged<'_> {
    ghost use Rattle.plir_flow.specs.RegionEdges.{AreEdgesLive};

    ghost has_edges_layout = { λ o s. AreEdgesLive s o.edges.now };

    ghost refuses_edges_layout = { λ _ _ _. Unit {0} };

    ghost edges = { λ o _. o.edges.now };

    // A refusal takes memory here, for a text that isn't used.
    fn verify_region_edges_layout(
        &self,
        alloc: Global,
        ctx: &Context<D>,
    ) -> Result<(), VerifyErr<D::Err>> {
        if are_edges_live(ctx, self.edges) {
            return Ok(());
        }
        if String::from_str(alloc, "not marked").is_err() {
            return Err(VerifyErr::Memory);
        }
        Err(VerifyErr::Refused {
            loc: self.op.loc(ctx),
            err: D::refusal(),
        })
    }

    fn region_edges(&self, alloc: Global, _ctx: &Context<D>) -> Result<Vec<RegionEdge>, Memory> {
        copy_edges(alloc, self.edges)
    }
}
