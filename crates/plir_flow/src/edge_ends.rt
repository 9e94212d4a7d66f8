//! Edges along which control passes between an operation and its regions.
ghost use Rattle.std.specs.Prelude.{◌≡◌, ◌↔◌, IsTrue, IfOk};

use plir_core::{Operation, Ptr, Region, Use, Value};
use plir_data::Memory;
use std::alloc::Global;
use std::marker::Model;

/// Where an edge starts.
#[derive(Clone, Copy, PartialEq, Eq, Hash, Debug)]
pub enum RegionBranchPoint {
    /// At the operation itself, as control comes to it.
    Parent,
    /// At a terminator in one of its regions.
    Terminator(Ptr<Operation>),
}

/// Where an edge leads.
#[derive(Clone, Copy, PartialEq, Eq, Hash, Debug)]
pub enum RegionSuccessor {
    /// To the entry block of a region, whose arguments receive values.
    Region(Ptr<Region>),
    /// To what comes behind the operation, whose results receive values.
    After,
}

/// An edge along which control passes, with what flows and what is read as it does.
#[derive(Drop)]
pub struct RegionEdge {
    /// Where the edge starts.
    pub from: RegionBranchPoint,
    /// Where it leads.
    pub to: RegionSuccessor,
    /// The operands at its start that flow, each with the value that receives it.
    pub flows: Vec<(Use<Value>, Value)>,
    /// The operands that may be read before control comes to its end.
    pub reads: Vec<Use<Value>>,
}

impl Model for RegionEdge {
    ghost use Rattle.plir_flow.specs.RegionEdges.{EdgeView};

    ghost Value = { EdgeView };

    ghost use Rattle.std.specs.Coded.{codes};

    ghost coded = { Prim.hlevel codes };

    ghost view = { λ e. record {
      from = e.from;
      to = e.to;
      flows = e.flows.items;
      reads = e.reads.items;
    } };
}

impl PartialEq for RegionEdge {
    ghost use Rattle.std.specs.Cmp as Cmp;
    ghost use Rattle.plir_flow.specs.EdgeEquality.{same_edge, edge-equiv};

    ghost eq = { same_edge };

    ghost laws = { Cmp.partial_equiv_from_equiv edge-equiv };

    fn eq(&self, other: &Self) -> bool {
        if self.from != other.from || self.to != other.to {
            return false;
        }
        are_same_flows(self.flows.as_slice(), other.flows.as_slice())
            && are_same_reads(self.reads.as_slice(), other.reads.as_slice())
    }
}

impl Eq for RegionEdge {
    ghost use Rattle.plir_flow.specs.EdgeEquality.{edge-equiv};

    ghost laws = { edge-equiv };
}

// Whether the same flows, in the same order.
fn are_same_flows(flows: &[(Use<Value>, Value)], others: &[(Use<Value>, Value)]) -> bool
    ensures { IsTrue result ↔ (flows.now ≡ others.now) }
{
    flows == others
}

// Whether the same is read, in the same order.
fn are_same_reads(reads: &[Use<Value>], others: &[Use<Value>]) -> bool
    ensures { IsTrue result ↔ (reads.now ≡ others.now) }
{
    reads == others
}

impl RegionEdge {
    /// An equal edge.
    pub fn try_clone(&self, alloc: Global) -> Result<RegionEdge, Memory>
        ensures { IfOk result (λ e. e ≡ self.now) }
    {
        let flows = Vec::from_slice(alloc, self.flows.as_slice())?;
        let reads = Vec::from_slice(alloc, self.reads.as_slice())?;
        Ok(RegionEdge {
            from: self.from,
            to: self.to,
            flows,
            reads,
        })
    }
}
