//! Steps from region to region, so linked that those from one region are found one after another.
ghost use Rattle.std.specs.Prelude.{◌≡◌, ◌↔◌, ◌⊎◌, [], IfOk, OnOk, Some, None, IsTrue};
ghost use Rattle.std.specs.HashMap.{get};
ghost use Rattle.plir_core.specs.declared.ptr.Ptr.{Ptr as PtrTo};
ghost use Rattle.plir_core.specs.declared.ptr.Region.{Region as RegionKind};
ghost use Rattle.plir_store.specs.Members.{Has, Distinct};
ghost use Rattle.plir_core.specs.WellFormed.{IsWellFormed};
ghost use Rattle.plir_flow.specs.Paths.{LeadsTo};
ghost use Rattle.plir_flow.specs.RegionEdges.{AreEdgesLive, IsStep, IsStepOn, IsPointLive, Reach};
ghost use Rattle.plir_flow.specs.Hops.{IsHop, AreLinked, AreHeads, IsReachedMore, same_region};

use crate::edge_ends::{RegionBranchPoint, RegionEdge, RegionSuccessor};
use crate::once::Once;
use plir_core::{Context, Ptr, Region};
use plir_data::{Memory, OpSet};
use std::alloc::Global;
use std::collections::HashMap;

/// An edge from region to region, with the index of the one before it from the same region.
#[derive(Clone, Copy)]
pub(crate) struct Hop {
    pub(crate) from: Ptr<Region>,
    pub(crate) to: Ptr<Region>,
    pub(crate) earlier: Option<usize>,
}

// Puts the regions that hops lead to from a region behind those that are reached.
fn add_targets(
    heads: &HashMap<Ptr<Region>, usize>,
    hops: &[Hop],
    region: Ptr<Region>,
    reached: &mut Once<Ptr<Region>>,
) -> Result<(), Memory>
    requires linked { AreLinked hops.now }
    requires heads { AreHeads hops.now (get same_region heads.now) }
    ensures { OnOk result (IsReachedMore (IsHop hops.now region) reached.old reached.new) }
{
    let mut at = heads.get(&region).copied();
    while let Some(place) = at {
        let hop = hops[place];
        reached.add(hop.to)?;
        at = hop.earlier;
    }
    Ok(())
}

// Puts a hop behind the others.
fn add_hop(
    heads: &mut HashMap<Ptr<Region>, usize>,
    hops: &mut Vec<Hop>,
    from: Ptr<Region>,
    to: Ptr<Region>,
) -> Result<(), Memory>
    requires linked { AreLinked hops.old.items }
    requires heads { AreHeads hops.old.items (get same_region heads.old) }
    ensures linked { OnOk result (AreLinked hops.new.items) }
    ensures heads { OnOk result (AreHeads hops.new.items (get same_region heads.new)) }
    ensures more { OnOk result ((a b : PtrTo RegionKind) →
        IsHop hops.new.items a b ↔ (IsHop hops.old.items a b ⊎ ((from ≡ a) × (to ≡ b)))) }
{
    let place = hops.len();
    let earlier = heads.insert(from, place)?;
    hops.push(Hop { from, to, earlier })?;
    Ok(())
}

// The regions that an edge leads from and to, if it leads from one to one.
fn step_of<D: OpSet>(ctx: &Context<D>, edge: &RegionEdge) -> Option<(Ptr<Region>, Ptr<Region>)>
    requires { IsPointLive ctx.now edge.now.from }
    ensures value { (a b : PtrTo RegionKind) → (result ≡ Some (a, b)) ↔ IsStepOn ctx.now edge.now a b }
    ensures whole { IsWellFormed D.attr_handles ctx.now }
{
    ctx.stands();
    match (edge.from, edge.to) {
        (RegionBranchPoint::Terminator(terminator), RegionSuccessor::Region(to)) => {
            match terminator.get_parent_region(ctx) {
                Some(from) => Some((from, to)),
                None => None,
            }
        }
        _ => None,
    }
}

// Puts the hop that an edge is behind the others, if it leads from region to region.
fn add_edge<D: OpSet>(
    ctx: &Context<D>,
    edge: &RegionEdge,
    heads: &mut HashMap<Ptr<Region>, usize>,
    hops: &mut Vec<Hop>,
) -> Result<(), Memory>
    requires live { IsPointLive ctx.now edge.now.from }
    requires linked { AreLinked hops.old.items }
    requires heads { AreHeads hops.old.items (get same_region heads.old) }
    ensures linked { OnOk result (AreLinked hops.new.items) }
    ensures heads { OnOk result (AreHeads hops.new.items (get same_region heads.new)) }
    ensures more { OnOk result ((a b : PtrTo RegionKind) →
        IsHop hops.new.items a b ↔ (IsHop hops.old.items a b ⊎ IsStepOn ctx.now edge.now a b)) }
    ensures whole { IsWellFormed D.attr_handles ctx.now }
{
    match step_of(ctx, edge) {
        None => Ok(()),
        Some((from, to)) => add_hop(heads, hops, from, to),
    }
}

// The hops that edges are.
fn add_edges<D: OpSet>(
    ctx: &Context<D>,
    edges: &[RegionEdge],
    heads: &mut HashMap<Ptr<Region>, usize>,
    hops: &mut Vec<Hop>,
) -> Result<(), Memory>
    requires live { AreEdgesLive ctx.now edges.now }
    requires no_hops { hops.old.items ≡ [] }
    requires no_heads { (r : PtrTo RegionKind) → get same_region heads.old r ≡ None }
    ensures linked { OnOk result (AreLinked hops.new.items) }
    ensures heads { OnOk result (AreHeads hops.new.items (get same_region heads.new)) }
    ensures steps { OnOk result ((a b : PtrTo RegionKind) → IsHop hops.new.items a b ↔ IsStep ctx.now edges.now a b) }
    ensures whole { IsWellFormed D.attr_handles ctx.now }
{
    ctx.stands();
    for edge in edges {
        add_edge(ctx, edge, heads, hops)?;
    }
    Ok(())
}

// The regions that paths of hops lead to from a region, each once.
fn add_reached(
    heads: &HashMap<Ptr<Region>, usize>,
    hops: &[Hop],
    start: Ptr<Region>,
    reached: &mut Once<Ptr<Region>>,
) -> Result<(), Memory>
    requires linked { AreLinked hops.now }
    requires heads { AreHeads hops.now (get same_region heads.now) }
    requires empty { reached.old ≡ [] }
    ensures all { OnOk result ((b : PtrTo RegionKind) → Has reached.new b ↔ LeadsTo (IsHop hops.now) start b) }
    ensures once { OnOk result (Distinct reached.new) }
{
    add_targets(heads, hops, start, reached)?;
    let mut next = 0;
    while next < reached.len() {
        let region = reached.as_slice()[next];
        add_targets(heads, hops, region, reached)?;
        next += 1;
    }
    Ok(())
}

// The regions that paths of hops lead to from a region, each once.
fn list_reached(
    alloc: Global,
    heads: &HashMap<Ptr<Region>, usize>,
    hops: &[Hop],
    start: Ptr<Region>,
) -> Result<Vec<Ptr<Region>>, Memory>
    requires linked { AreLinked hops.now }
    requires heads { AreHeads hops.now (get same_region heads.now) }
    ensures all { IfOk result (λ rs. (b : PtrTo RegionKind) → Has rs.items b ↔ LeadsTo (IsHop hops.now) start b) }
    ensures once { IfOk result (λ rs. Distinct rs.items) }
{
    let mut reached = Once::new(alloc);
    add_reached(heads, hops, start, &mut reached)?;
    Ok(reached.into_list())
}

/// The regions that paths of one edge or more lead to from a region, each once.
pub(crate) fn reachable<D: OpSet>(
    alloc: Global,
    ctx: &Context<D>,
    edges: &[RegionEdge],
    start: Ptr<Region>,
) -> Result<Vec<Ptr<Region>>, Memory>
    requires { AreEdgesLive ctx.now edges.now }
    ensures all { IfOk result (λ rs. (b : PtrTo RegionKind) → Has rs.items b ↔ Reach ctx.now edges.now start b) }
    ensures once { IfOk result (λ rs. Distinct rs.items) }
    ensures whole { IsWellFormed D.attr_handles ctx.now }
{
    ctx.stands();
    let mut heads = HashMap::new(alloc);
    let mut hops = Vec::new(alloc);
    add_edges(ctx, edges, &mut heads, &mut hops)?;
    list_reached(alloc, &heads, &hops, start)
}

/// Whether a region is among some.
pub(crate) fn is_among(regions: &[Ptr<Region>], region: Ptr<Region>) -> bool
    ensures { IsTrue result ↔ Has regions.now region }
{
    regions.contains(&region)
}
