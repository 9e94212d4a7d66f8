//! Operations that are marked.
ghost use Rattle.std.specs.Prelude.{◌≡◌, ◌<◌, [], Some, OnOk, length, slice_get};
ghost use Rattle.plir_passes.specs.Marked.{IsGrown, IsWhole, is_among, ops_of};

use plir_core::{Operation, Ptr};
use plir_data::Memory;
use std::alloc::Global;
use std::collections::HashSet;

/// Operations that are marked, in the order in which they were, each once.
#[derive(Drop)]
pub(crate) struct Marks {
    ops: Vec<Ptr<Operation>>,
    set: HashSet<Ptr<Operation>>,
}

impl Marks {
    /// None.
    pub(crate) fn new(alloc: Global) -> Marks
        ensures none { result.ops.items ≡ [] }
        ensures whole { IsWhole result }
    {
        Marks {
            ops: Vec::new(alloc),
            set: HashSet::new(alloc),
        }
    }

    /// How many there are.
    pub(crate) fn len(&self) -> usize
        ensures { result ≡ length self.now.ops.items }
    {
        self.ops.len()
    }

    /// The one at a place, from 0.
    pub(crate) fn at(&self, place: usize) -> Ptr<Operation>
        requires { place < length self.now.ops.items }
        ensures { slice_get self.now.ops.items place ≡ Some result }
    {
        self.ops[place]
    }

    /// Whether an operation is marked.
    pub(crate) fn contains(&self, op: Ptr<Operation>) -> bool
        requires { IsWhole self.now }
        ensures { result ≡ is_among (ops_of self.now) op }
    {
        self.set.contains(&op)
    }

    /// Marks an operation, behind the others, if it is not marked.
    pub(crate) fn put(&mut self, op: Ptr<Operation>) -> Result<(), Memory>
        ensures { OnOk result (IsGrown (λ q. q ≡ op) self.old self.new) }
    {
        let fresh = self.set.insert(op)?;
        if !fresh {
            return Ok(());
        }
        self.ops.push(op)?;
        Ok(())
    }
}
