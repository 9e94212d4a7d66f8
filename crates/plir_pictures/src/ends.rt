//! Where the arrows of a call graph end.
ghost use Rattle.std.specs.Prelude.{◌≡◌, ◌||◌, IfOk, OnOk};
ghost use Rattle.plir_core.specs.declared.ptr.Operation.{Operation as OperationKind};
ghost use Rattle.plir_core.specs.declared.ptr.Ptr.{Ptr as AnyPtr};
ghost use Rattle.plir_symbols.specs.CallGraph.{is_found};
ghost use Rattle.plir_pictures.specs.Ends.{has_end};
ghost use Rattle.plir_pictures.specs.DrawnCalls.{is_end};

use plir_core::{Operation, Ptr};
use plir_symbols::CallEdge;
use std::alloc::{AllocError, Global};
use std::collections::HashSet;

/// The operations at which some arrows end.
#[derive(Drop)]
pub struct Ends {
    marks: HashSet<Ptr<Operation>>,
}

impl Ends {
    /// Those at which the arrows of edges end.
    pub fn of(alloc: Global, edges: &[CallEdge]) -> Result<Ends, AllocError>
        ensures { IfOk result (λ x. (p : AnyPtr OperationKind) → has_end x p ≡ is_end edges.now p) }
    {
        let mut ends = Ends {
            marks: HashSet::new(alloc),
        };
        for edge in edges {
            ends.put(edge.symbol)?;
        }
        Ok(ends)
    }

    // Adds an operation, if there is one.
    fn put(&mut self, symbol: Option<Ptr<Operation>>) -> Result<(), AllocError>
        ensures { OnOk result ((p : AnyPtr OperationKind) →
            has_end self.new p ≡ (has_end self.old p || is_found p symbol)) }
    {
        if let Some(op) = symbol {
            self.marks.insert(op)?;
        }
        Ok(())
    }

    /// Whether an arrow ends at an operation.
    pub fn has(&self, op: Ptr<Operation>) -> bool
        ensures { result ≡ has_end self.now op }
    {
        self.marks.contains(&op)
    }
}
