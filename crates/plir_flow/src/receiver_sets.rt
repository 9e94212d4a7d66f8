//! Whether edges with one target have one set of receivers.
ghost use Rattle.std.specs.Prelude.{◌≡◌, ◌↔◌, ◌<◌, ◌+◌, All, IsTrue, IfOk, length, map};
ghost use Rattle.plir_store.specs.Members.{Has};
ghost use Rattle.plir_flow.specs.RegionRule.{SameReceivers, HaveOtherReceivers};
ghost use Rattle.plir_flow.specs.EdgeVerdicts.{AreFirsts, target_region, first_place};

use crate::edge_ends::{RegionEdge, RegionSuccessor};
use crate::edge_parts::add_receivers;
use crate::once::Once;
use plir_core::{Ptr, Region, Use, Value};
use plir_data::Memory;
use std::alloc::Global;
use std::collections::HashMap;

// Whether what flows goes to values of a set alone.
fn are_received(flows: &[(Use<Value>, Value)], among: &Once<Value>) -> bool
    ensures { IsTrue result ↔ All (λ f. Has among.now f.1) flows.now }
{
    flows.iter().all(|flow| among.has(flow.1))
}

// Whether what flows goes to receivers of others alone.
fn receive_among(
    alloc: Global,
    flows: &[(Use<Value>, Value)],
    others: &[(Use<Value>, Value)],
) -> Result<bool, Memory>
    ensures { IfOk result (λ b. IsTrue b ↔ All (λ f. Has (map (λ o. o.1) others.now) f.1) flows.now) }
{
    let mut among = Once::new(alloc);
    add_receivers(&mut among, others)?;
    Ok(are_received(flows, &among))
}

// Whether two edges have one set of receivers.
fn have_same_receivers(
    alloc: Global,
    first: &RegionEdge,
    other: &RegionEdge,
) -> Result<bool, Memory>
    ensures { IfOk result (λ b. IsTrue b ↔ SameReceivers first.now other.now) }
{
    if !receive_among(alloc, &first.flows, &other.flows)? {
        return Ok(false);
    }
    receive_among(alloc, &other.flows, &first.flows)
}

// The region that an edge leads to.
fn region_of(successor: RegionSuccessor) -> Option<Ptr<Region>>
    ensures { result ≡ target_region successor }
{
    match successor {
        RegionSuccessor::Region(region) => Some(region),
        RegionSuccessor::After => None,
    }
}

/// Whether the edge at an index has the receivers of the first one with its target. Each first one's index is kept.
pub(crate) fn keeps_receivers(
    alloc: Global,
    edges: &[RegionEdge],
    place: usize,
    firsts: &mut HashMap<Option<Ptr<Region>>, usize>,
) -> Result<bool, Memory>
    requires below { place < length edges.now }
    requires firsts { AreFirsts edges.now place (first_place firsts.old) }
    ensures { IfOk result (λ b. (IsTrue b → AreFirsts edges.now (place + 1) (first_place firsts.new)) ×
        ((IsTrue b → ⊥) → HaveOtherReceivers edges.now)) }
{
    let edge = &edges[place];
    let target = region_of(edge.to);
    match firsts.get(&target).copied() {
        Some(first) => have_same_receivers(alloc, &edges[first], edge),
        None => {
            firsts.insert(target, place)?;
            Ok(true)
        }
    }
}
