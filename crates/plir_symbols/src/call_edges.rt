//! Call graphs as they are read.
ghost use Rattle.std.specs.Prelude.{◌≡◌, [], ◌++◌, IfOk, OnOk, map};
ghost use Rattle.std.specs.List.{cons_option, filter_map};
ghost use Rattle.plir_symbols.specs.CallGraph.{callees_in, callers_in};
ghost use Rattle.plir_symbols.specs.Chained.{AreChains, at_end, beyond, found_by};

use crate::chains::Chains;
use plir_core::{Operation, Ptr};
use plir_data::Memory;
use std::alloc::Global;
use std::marker::Model;

/// An edge of a call graph: a name that an operation uses, and what bears it.
#[derive(Clone, Copy, PartialEq, Eq, Debug)]
pub struct CallEdge {
    /// The operation that uses the name.
    pub user: Ptr<Operation>,
    /// The symbol that was found under the name in the nearest table at or above the user, if one was.
    pub symbol: Option<Ptr<Operation>>,
}

/// An end of an edge.
#[derive(Clone, Copy)]
pub(crate) enum End {
    /// The operation that uses the name.
    User,
    /// The symbol that bears it.
    Symbol,
}

impl CallEdge {
    // What the edge has at its other end.
    fn beyond(&self, end: End) -> Option<Ptr<Operation>>
        ensures { result ≡ beyond end self.now }
    {
        match end {
            End::User => self.symbol,
            End::Symbol => Some(self.user),
        }
    }
}

// Adds what is found, if anything is.
fn put_found(all: &mut Vec<Ptr<Operation>>, found: Option<Ptr<Operation>>) -> Result<(), Memory>
    ensures { OnOk result (all.new.items ≡ all.old.items ++ cons_option found []) }
{
    match found {
        Some(op) => {
            all.push(op)?;
            Ok(())
        }
        None => Ok(()),
    }
}

// What edges that have an operation at an end have at the other one, found along the chain of that operation.
fn found_along(
    alloc: Global,
    edges: &[CallEdge],
    chains: &Chains,
    end: End,
    op: Ptr<Operation>,
) -> Result<Vec<Ptr<Operation>>, Memory>
    requires { AreChains (map (at_end end) edges.now) chains.now }
    ensures { IfOk result (λ r. r.items ≡ filter_map (found_by end op) edges.now) }
{
    let mut found = Vec::new(alloc);
    let mut at = chains.last(op);
    'chain: while let Some(place) = at {
        let edge = edges[place];
        put_found(&mut found, edge.beyond(end))?;
        at = chains.before(place);
    }
    found.reverse();
    Ok(found)
}

/// A call graph: which operations use which symbols. It is a list of edges, one for each use, and the edges at one
/// operation are found without a look at the others.
#[derive(Drop)]
pub struct CallGraph {
    edges: Vec<CallEdge>,
    by_user: Chains,
    by_symbol: Chains,
}

impl Model for CallGraph {
    ghost use Rattle.std.specs.Prelude.{List, map};
    ghost use Rattle.plir_symbols.specs.declared.call_edges.CallEdge.{CallEdge as Edge};
    ghost use Rattle.plir_symbols.specs.declared.call_edges.End.TheVariants as ends;
    ghost use Rattle.plir_symbols.specs.CallGraph.{edges_code};
    ghost use Rattle.plir_symbols.specs.Chained.{AreChains, at_end};

    ghost Value = { List Edge };

    ghost coded = { edges_code };

    ghost view = { λ g. g.edges.items };

    ghost invariant = { λ g. AreChains (map (at_end ends.User) g.edges.items) g.by_user ×
        AreChains (map (at_end ends.Symbol) g.edges.items) g.by_symbol };
}

impl CallGraph {
    // The graph with these edges.
    pub(crate) fn new(alloc: Global, edges: Vec<CallEdge>) -> Result<CallGraph, Memory>
        ensures { IfOk result (λ g. g ≡ edges.items) }
    {
        let mut by_user = Chains::new(alloc);
        let mut by_symbol = Chains::new(alloc);
        for edge in &edges {
            by_user.put(Some(edge.user))?;
            by_symbol.put(edge.symbol)?;
        }
        Ok(CallGraph {
            edges,
            by_user,
            by_symbol,
        })
    }

    /// The edges, in the order of their users' places, and for one user in the order of its names.
    pub fn edges(&self) -> &[CallEdge]
        ensures { result.now ≡ self.now }
    {
        self.edges.as_slice()
    }

    /// The symbols that an operation uses, one for each use whose name something bears, in the order of the edges. This
    /// takes time for the edges from the operation alone.
    pub fn callees(
        &self,
        alloc: Global,
        user: Ptr<Operation>,
    ) -> Result<Vec<Ptr<Operation>>, Memory>
        ensures { IfOk result (λ r. r.items ≡ callees_in user self.now) }
    {
        let edges = self.edges.as_slice();
        found_along(alloc, edges, &self.by_user, End::User, user)
    }

    /// The operations that use a symbol, one for each use, in the order of the edges. This takes time for the edges to
    /// the symbol alone.
    pub fn callers(
        &self,
        alloc: Global,
        symbol: Ptr<Operation>,
    ) -> Result<Vec<Ptr<Operation>>, Memory>
        ensures { IfOk result (λ r. r.items ≡ callers_in symbol self.now) }
    {
        let edges = self.edges.as_slice();
        found_along(alloc, edges, &self.by_symbol, End::Symbol, symbol)
    }
}
