//! Parts of edges: what is read, the values that receive and the regions that they lead to.
ghost use Rattle.std.specs.Prelude.{◌++◌, List, OnOk, map};
ghost use Rattle.plir_flow.specs.Taken.{IsOnceEach};
ghost use Rattle.plir_flow.specs.RegionEdges.{reads_on, receivers_on, regions_on};

use crate::edge_ends::{RegionEdge, RegionSuccessor};
use crate::once::Once;
use plir_core::{Ptr, Region, Use, Value};
use plir_data::Memory;
use std::hash::Hash;

/// A part of an edge, which is a list.
pub(crate) trait EdgePart<T: Copy + Eq + Hash + Drop> {
    ghost use Rattle.std.specs.Prelude.{List};
    ghost use Rattle.plir_flow.specs.RegionEdges.{EdgeView};

    // That part of an edge.
    ghost on: { EdgeView → List T };

    /// Puts that part of an edge behind what was seen, each once.
    fn add(edge: &RegionEdge, seen: &mut Once<T>) -> Result<(), Memory>
        ensures { OnOk result ((xs : List T) → IsOnceEach xs seen.old → IsOnceEach (xs ++ on edge.now) seen.new) };
}

/// What is read on an edge.
pub(crate) struct Reads;

impl EdgePart<Use<Value>> for Reads {
    ghost on = { reads_on };

    fn add(edge: &RegionEdge, seen: &mut Once<Use<Value>>) -> Result<(), Memory> {
        seen.add_all(&edge.reads)
    }
}

/// The values that receive on an edge.
pub(crate) struct Receivers;

impl EdgePart<Value> for Receivers {
    ghost on = { receivers_on };

    fn add(edge: &RegionEdge, seen: &mut Once<Value>) -> Result<(), Memory> {
        add_receivers(seen, &edge.flows)
    }
}

/// Puts the values that receive behind those that did, each once.
pub(crate) fn add_receivers(
    seen: &mut Once<Value>,
    flows: &[(Use<Value>, Value)],
) -> Result<(), Memory>
    ensures { OnOk result ((vs : List _) → IsOnceEach vs seen.old →
        IsOnceEach (vs ++ map (λ f. f.1) flows.now) seen.new) }
{
    for flow in flows {
        seen.add(flow.1)?;
    }
    Ok(())
}

/// The region that an edge leads to, if it leads to one.
pub(crate) struct Regions;

impl EdgePart<Ptr<Region>> for Regions {
    ghost on = { regions_on };

    fn add(edge: &RegionEdge, seen: &mut Once<Ptr<Region>>) -> Result<(), Memory> {
        if let RegionSuccessor::Region(region) = edge.to {
            seen.add(region)?;
        }
        Ok(())
    }
}
