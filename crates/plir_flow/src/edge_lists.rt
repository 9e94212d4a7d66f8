//! What stands on the edges of a list.
ghost use Rattle.std.specs.Prelude.{◌↔◌, IfOk, IsTrue};
ghost use Rattle.std.specs.List.{flat_map};
ghost use Rattle.plir_core.specs.WellFormed.{IsWellFormed};
ghost use Rattle.plir_flow.specs.Taken.{AreThose, IsOnceEach, AreTakenOnce};
ghost use Rattle.plir_flow.specs.RegionEdges.{IsFrom, IsTo, IsPointIn, IsPointLive, IsFromRegion, AreEdgesLive};

use crate::edge_ends::{RegionBranchPoint, RegionEdge, RegionSuccessor};
use crate::edge_parts::EdgePart;
use crate::once::Once;
use plir_core::{Context, Ptr, Region};
use plir_data::{Memory, OpSet};
use std::alloc::Global;
use std::hash::Hash;

// Whether an edge starts at a point.
fn is_from(edge: &RegionEdge, point: RegionBranchPoint) -> bool
    ensures { IsTrue result ↔ IsFrom point edge.now }
{
    edge.from == point
}

// Whether an edge leads to a successor.
fn is_to(edge: &RegionEdge, successor: RegionSuccessor) -> bool
    ensures { IsTrue result ↔ IsTo successor edge.now }
{
    edge.to == successor
}

/// Those edges that start at a point.
pub(crate) fn keep_from(mut edges: Vec<RegionEdge>, point: RegionBranchPoint) -> Vec<RegionEdge>
    ensures { AreThose (IsFrom point) edges.items result.items }
{
    edges.retain(|edge| is_from(edge, point));
    edges
}

/// Those edges that lead to a successor.
pub(crate) fn keep_to(mut edges: Vec<RegionEdge>, successor: RegionSuccessor) -> Vec<RegionEdge>
    ensures { AreThose (IsTo successor) edges.items result.items }
{
    edges.retain(|edge| is_to(edge, successor));
    edges
}

/// A part of edges, each value of it once.
pub(crate) fn taken<P: EdgePart<T>, T: Copy + Eq + Hash + Drop>(
    alloc: Global,
    edges: &[RegionEdge],
) -> Result<Vec<T>, Memory>
    ensures { IfOk result (λ xs. IsOnceEach (flat_map P.on edges.now) xs.items) }
{
    let mut seen = Once::new(alloc);
    for edge in edges {
        P::add(edge, &mut seen)?;
    }
    Ok(seen.into_list())
}

// Whether a terminator whose parent region this is stands at a point.
fn is_point_in<D: OpSet>(ctx: &Context<D>, point: RegionBranchPoint, region: Ptr<Region>) -> bool
    requires { IsPointLive ctx.now point }
    ensures value { IsTrue result ↔ IsPointIn ctx.now region point }
    ensures whole { IsWellFormed D.attr_handles ctx.now }
{
    ctx.stands();
    match point {
        RegionBranchPoint::Parent => false,
        RegionBranchPoint::Terminator(terminator) => {
            terminator.get_parent_region(ctx) == Some(region)
        }
    }
}

/// A part of the edges from a region, each value of it once.
pub(crate) fn taken_in<D: OpSet, P: EdgePart<T>, T: Copy + Eq + Hash + Drop>(
    alloc: Global,
    ctx: &Context<D>,
    edges: &[RegionEdge],
    region: Ptr<Region>,
) -> Result<Vec<T>, Memory>
    requires { AreEdgesLive ctx.now edges.now }
    ensures taken { IfOk result (λ xs. AreTakenOnce (IsFromRegion ctx.now region) P.on edges.now xs.items) }
    ensures whole { IsWellFormed D.attr_handles ctx.now }
{
    ctx.stands();
    let mut seen = Once::new(alloc);
    for edge in edges {
        if is_point_in(ctx, edge.from, region) {
            P::add(edge, &mut seen)?;
        }
    }
    Ok(seen.into_list())
}
