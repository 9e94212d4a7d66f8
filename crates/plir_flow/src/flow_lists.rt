//! What flows on the edges of a list.
ghost use Rattle.std.specs.Prelude.{◌≡◌, ◌↔◌, IsTrue, IfOk, map};
ghost use Rattle.std.specs.List.{flat_map};
ghost use Rattle.plir_flow.specs.Taken.{AreThose};
ghost use Rattle.plir_flow.specs.RegionEdges.{IsInto, flows_on};

use crate::edge_ends::RegionEdge;
use plir_core::{Use, Value};
use plir_data::Memory;
use std::alloc::Global;

/// What flows on edges, in order.
pub(crate) fn flows(alloc: Global, edges: &[RegionEdge]) -> Result<Vec<(Use<Value>, Value)>, Memory>
    ensures { IfOk result (λ fs. fs.items ≡ flat_map flows_on edges.now) }
{
    let mut all = Vec::new(alloc);
    for edge in edges {
        all.extend_from_slice(&edge.flows)?;
    }
    Ok(all)
}

// Whether what flows goes to a value.
fn is_into(flow: &(Use<Value>, Value), receiver: Value) -> bool
    ensures { IsTrue result ↔ IsInto receiver flow.now }
{
    flow.1 == receiver
}

/// What flows into a value, in order.
pub(crate) fn keep_into(
    mut flows: Vec<(Use<Value>, Value)>,
    receiver: Value,
) -> Vec<(Use<Value>, Value)>
    ensures { AreThose (IsInto receiver) flows.items result.items }
{
    flows.retain(|flow| is_into(flow, receiver));
    flows
}

/// The operands that flow, in order.
pub(crate) fn operands(
    alloc: Global,
    flows: &[(Use<Value>, Value)],
) -> Result<Vec<Use<Value>>, Memory>
    ensures { IfOk result (λ us. us.items ≡ map (λ f. f.0) flows.now) }
{
    let operands = flows.iter().map(|flow| flow.0).collect(alloc)?;
    Ok(operands)
}
