//! The interface of operations that pass control between their regions.
ghost use Rattle.std.specs.Prelude.{◌≡◌, ◌↔◌, All, IsTrue, IfOk, IfErr, OnOk};
ghost use Rattle.std.specs.List.{flat_map};
ghost use Rattle.plir_core.specs.declared.ptr.Ptr.{Ptr as PtrTo};
ghost use Rattle.plir_core.specs.declared.ptr.Region.{Region as RegionKind};
ghost use Rattle.plir_core.specs.declared.ptr.IRNode.{IRNode};
ghost use Rattle.plir_store.specs.Members.{Has, Distinct};
ghost use Rattle.plir_core.specs.ContextView.{IsLive, IsValueLive};
ghost use Rattle.plir_core.specs.WellFormed.{IsWellFormed};
ghost use Rattle.plir_flow.specs.Taken.{AreThose, AreTakenOnce};
ghost use Rattle.plir_flow.specs.Layout.{IsLayoutRefusal};
ghost use Rattle.plir_flow.specs.RegionEdges.{IsFrom, IsTo, IsFromRegion, IsUseLive, IsFlowLive, AreEdgesLive};
ghost use Rattle.plir_flow.specs.RegionEdges.{AreOperandsInto};
ghost use Rattle.plir_flow.specs.RegionEdges.{flows_on, reads_on, receivers_on, regions_on, Reach};
ghost use Rattle.plir_flow.specs.RegionRule.{HasEdgeRule, IsEdgeRuleRefusal};

use crate::edge_ends::{RegionBranchPoint, RegionEdge, RegionSuccessor};
use crate::edge_lists::{keep_from, keep_to, taken, taken_in};
use crate::edge_parts::{Reads, Receivers, Regions};
use crate::edge_refusals::{as_edges_layout, verify_edges};
use crate::flow_lists::{flows, keep_into, operands};
use crate::hops::{is_among, reachable};
use crate::region_edge_errors::RegionBranchOpInterfaceVerifyErr;
use plir_core::{Context, Ptr, Region, Use, Value};
use plir_data::{Memory, OpSet, VerifyErr};
use plir_iface::Op;
use std::alloc::Global;

/// Operations whose regions are entered and left along known edges, with known operands that flow along each.
///
/// What an implementer says of its operation holds by its layout: that its regions, their terminators and the operands
/// stand as it wants them. The check of the layout accepts exactly where a predicate of the context and the operation
/// holds, memory aside, and the edges are a function of these two. They name live nodes and values, and operands that
/// there are.
///
/// Lists of edges, of what flows and of operands that flow into a value have these in the order of
/// [`Self::region_edges`]; lists of what is read, of receivers and of regions have each once, in the order in which
/// they first come. All calls answer `Memory` only where a growth was refused.
pub trait RegionBranchOpInterface<D: OpSet>: Op<D> {
    ghost use Rattle.std.specs.Prelude.{List as Several};
    ghost use Rattle.plir_core.specs.ContextView.{ContextView};
    ghost use Rattle.plir_flow.specs.RegionEdges.{EdgeView as Edge};

    // The operation stands as its edges want it, and what a refusal reports where it doesn't.
    ghost has_edges_layout: { Self → ContextView D.Kind D.Attr D.Ty → Type 0 };

    ghost refuses_edges_layout: { Self → ContextView D.Kind D.Attr D.Ty → D.Err → Type 0 };

    // The edges.
    ghost edges: { Self → ContextView D.Kind D.Attr D.Ty → Several Edge };

    /// Accepts exactly where the operation stands as its edges want it.
    fn verify_region_edges_layout(
        &self,
        alloc: Global,
        ctx: &Context<D>,
    ) -> Result<(), VerifyErr<D::Err>>
        requires { IsLive ctx.now (IRNode.Operation (Self.pointer self.now)) }
        ensures ok { OnOk result (has_edges_layout self.now ctx.now) }
        ensures refused { IfErr result (IsLayoutRefusal (has_edges_layout self.now) (refuses_edges_layout self.now)
            ctx.now (Self.pointer self.now)) };

    /// The edges along which control passes: into the regions, between them and out of them.
    fn region_edges(&self, alloc: Global, ctx: &Context<D>) -> Result<Vec<RegionEdge>, Memory>
        requires live { IsLive ctx.now (IRNode.Operation (Self.pointer self.now)) }
        requires layout { has_edges_layout self.now ctx.now }
        ensures value { IfOk result (λ es. es.items ≡ edges self.now ctx.now) }
        ensures live { AreEdgesLive ctx.now (edges self.now ctx.now) };

    /// The edges that start at a point.
    final fn edges_from(
        &self,
        alloc: Global,
        ctx: &Context<D>,
        point: RegionBranchPoint,
    ) -> Result<Vec<RegionEdge>, Memory>
        requires live { IsLive ctx.now (IRNode.Operation (Self.pointer self.now)) }
        requires layout { has_edges_layout self.now ctx.now }
        ensures value { IfOk result (λ es. AreThose (IsFrom point) (edges self.now ctx.now) es.items) }
        ensures live { IfOk result (λ es. AreEdgesLive ctx.now es.items) }
    {
        Ok(keep_from(self.region_edges(alloc, ctx)?, point))
    }

    /// The edges that lead to a successor.
    final fn edges_to(
        &self,
        alloc: Global,
        ctx: &Context<D>,
        successor: RegionSuccessor,
    ) -> Result<Vec<RegionEdge>, Memory>
        requires live { IsLive ctx.now (IRNode.Operation (Self.pointer self.now)) }
        requires layout { has_edges_layout self.now ctx.now }
        ensures value { IfOk result (λ es. AreThose (IsTo successor) (edges self.now ctx.now) es.items) }
        ensures live { IfOk result (λ es. AreEdgesLive ctx.now es.items) }
    {
        Ok(keep_to(self.region_edges(alloc, ctx)?, successor))
    }

    /// The operands that are read on edges from a point, each once.
    final fn operands_read_from(
        &self,
        alloc: Global,
        ctx: &Context<D>,
        point: RegionBranchPoint,
    ) -> Result<Vec<Use<Value>>, Memory>
        requires live { IsLive ctx.now (IRNode.Operation (Self.pointer self.now)) }
        requires layout { has_edges_layout self.now ctx.now }
        ensures value { IfOk result (λ us. AreTakenOnce (IsFrom point) reads_on (edges self.now ctx.now) us.items) }
        ensures live { IfOk result (λ us. All (IsUseLive ctx.now) us.items) }
    {
        let edges = self.edges_from(alloc, ctx, point)?;
        taken::<Reads, _>(alloc, &edges)
    }

    /// The operands that are read on edges to a successor, each once.
    final fn operands_read_to(
        &self,
        alloc: Global,
        ctx: &Context<D>,
        successor: RegionSuccessor,
    ) -> Result<Vec<Use<Value>>, Memory>
        requires live { IsLive ctx.now (IRNode.Operation (Self.pointer self.now)) }
        requires layout { has_edges_layout self.now ctx.now }
        ensures value { IfOk result (λ us. AreTakenOnce (IsTo successor) reads_on (edges self.now ctx.now) us.items) }
        ensures live { IfOk result (λ us. All (IsUseLive ctx.now) us.items) }
    {
        let edges = self.edges_to(alloc, ctx, successor)?;
        taken::<Reads, _>(alloc, &edges)
    }

    /// The operands that are read on edges from the terminators in a region, each once.
    final fn operands_read_from_region(
        &self,
        alloc: Global,
        ctx: &Context<D>,
        region: Ptr<Region>,
    ) -> Result<Vec<Use<Value>>, Memory>
        requires live { IsLive ctx.now (IRNode.Operation (Self.pointer self.now)) }
        requires layout { has_edges_layout self.now ctx.now }
        ensures value { IfOk result (λ us. AreTakenOnce (IsFromRegion ctx.now region) reads_on (edges self.now ctx.now)
            us.items) }
        ensures live { IfOk result (λ us. All (IsUseLive ctx.now) us.items) }
    {
        let edges = self.region_edges(alloc, ctx)?;
        taken_in::<D, Reads, _>(alloc, ctx, &edges, region)
    }

    /// What flows on all edges: operands, each with the value that receives it.
    final fn region_flows(
        &self,
        alloc: Global,
        ctx: &Context<D>,
    ) -> Result<Vec<(Use<Value>, Value)>, Memory>
        requires live { IsLive ctx.now (IRNode.Operation (Self.pointer self.now)) }
        requires layout { has_edges_layout self.now ctx.now }
        ensures value { IfOk result (λ fs. fs.items ≡ flat_map flows_on (edges self.now ctx.now)) }
        ensures live { IfOk result (λ fs. All (IsFlowLive ctx.now) fs.items) }
    {
        let edges = self.region_edges(alloc, ctx)?;
        flows(alloc, &edges)
    }

    /// The values that receive operands on edges to a successor, each once.
    final fn successor_receivers(
        &self,
        alloc: Global,
        ctx: &Context<D>,
        successor: RegionSuccessor,
    ) -> Result<Vec<Value>, Memory>
        requires live { IsLive ctx.now (IRNode.Operation (Self.pointer self.now)) }
        requires layout { has_edges_layout self.now ctx.now }
        ensures value { IfOk result (λ vs. AreTakenOnce (IsTo successor) receivers_on (edges self.now ctx.now)
            vs.items) }
        ensures live { IfOk result (λ vs. All (IsValueLive ctx.now) vs.items) }
    {
        let edges = self.edges_to(alloc, ctx, successor)?;
        taken::<Receivers, _>(alloc, &edges)
    }

    /// The operands that flow into a value.
    final fn incoming_operands(
        &self,
        alloc: Global,
        ctx: &Context<D>,
        receiver: Value,
    ) -> Result<Vec<Use<Value>>, Memory>
        requires live { IsLive ctx.now (IRNode.Operation (Self.pointer self.now)) }
        requires layout { has_edges_layout self.now ctx.now }
        ensures value { IfOk result (λ us. AreOperandsInto receiver (edges self.now ctx.now) us.items) }
        ensures live { IfOk result (λ us. All (IsUseLive ctx.now) us.items) }
    {
        let flows = keep_into(self.region_flows(alloc, ctx)?, receiver);
        operands(alloc, &flows)
    }

    /// The regions that edges from the terminators in a region lead to, each once.
    final fn successor_regions(
        &self,
        alloc: Global,
        ctx: &Context<D>,
        region: Ptr<Region>,
    ) -> Result<Vec<Ptr<Region>>, Memory>
        requires live { IsLive ctx.now (IRNode.Operation (Self.pointer self.now)) }
        requires layout { has_edges_layout self.now ctx.now }
        ensures value { IfOk result (λ rs. AreTakenOnce (IsFromRegion ctx.now region) regions_on
            (edges self.now ctx.now) rs.items) }
        ensures live { IfOk result (λ rs. All (λ r. IsLive ctx.now (IRNode.Region r)) rs.items) }
    {
        let edges = self.region_edges(alloc, ctx)?;
        taken_in::<D, Regions, _>(alloc, ctx, &edges, region)
    }
    /// The regions that paths of one edge or more between regions lead to from a region, each once; the region itself
    /// is among them only if it is on a cycle. Their order is open. What this takes is linear in the regions and edges.
    final fn reachable_regions(
        &self,
        alloc: Global,
        ctx: &Context<D>,
        region: Ptr<Region>,
    ) -> Result<Vec<Ptr<Region>>, Memory>
        requires live { IsLive ctx.now (IRNode.Operation (Self.pointer self.now)) }
        requires layout { has_edges_layout self.now ctx.now }
        ensures all { IfOk result (λ rs. (b : PtrTo RegionKind) →
            Has rs.items b ↔ Reach ctx.now (edges self.now ctx.now) region b) }
        ensures once { IfOk result (λ rs. Distinct rs.items) }
        ensures live { IfOk result (λ rs. All (λ r. IsLive ctx.now (IRNode.Region r)) rs.items) }
    {
        let edges = self.region_edges(alloc, ctx)?;
        reachable(alloc, ctx, &edges, region)
    }

    /// Whether a path of one edge or more between regions leads from a region back to it, as in the body of a loop.
    final fn is_repetitive_region(
        &self,
        alloc: Global,
        ctx: &Context<D>,
        region: Ptr<Region>,
    ) -> Result<bool, Memory>
        requires live { IsLive ctx.now (IRNode.Operation (Self.pointer self.now)) }
        requires layout { has_edges_layout self.now ctx.now }
        ensures { IfOk result (λ b. IsTrue b ↔ Reach ctx.now (edges self.now ctx.now) region region) }
    {
        let reached = self.reachable_regions(alloc, ctx, region)?;
        Ok(is_among(&reached, region))
    }
    /// Accepts exactly where the operation stands as its edges want it and the edges have their rule: two edges with
    /// one target have one set of receivers; edges start at the operation or at terminators in its regions, lead to its
    /// regions or behind it, read operands of the operation or of the one at their start, and pass operands of the one
    /// at their start to arguments of the entry block or to results, each once and of the same type. Else it reports
    /// the refusal of the layout, or the point that the first edge breaks that breaks one.
    final fn verify(
        &self,
        alloc: Global,
        ctx: &Context<D>,
    ) -> Result<(), VerifyErr<RegionBranchOpInterfaceVerifyErr<D::Err>>>
        requires { IsLive ctx.now (IRNode.Operation (Self.pointer self.now)) }
        ensures layout { OnOk result (has_edges_layout self.now ctx.now) }
        ensures rule { OnOk result (HasEdgeRule D.is_terminator ctx.now (Self.pointer self.now)
            (edges self.now ctx.now)) }
        ensures refused { IfErr result (IsEdgeRuleRefusal D.OpSet (has_edges_layout self.now)
            (refuses_edges_layout self.now) (edges self.now) ctx.now (Self.pointer self.now)) }
        ensures whole { IsWellFormed D.attr_handles ctx.now }
    {
        let op = self.get_operation();
        let _live = op.is_live(ctx);
        match self.verify_region_edges_layout(alloc, ctx) {
            Err(refused) => Err(as_edges_layout(refused)),
            Ok(()) => match self.region_edges(alloc, ctx) {
                Err(_) => Err(VerifyErr::Memory),
                Ok(edges) => verify_edges(alloc, ctx, op, &edges),
            },
        }
    }
}
