//! Operations that are reached.
ghost use Rattle.std.specs.Prelude.{◌≡◌, ◌<◌, [], Some, OnOk, length, slice_get};
ghost use Rattle.plir_symbols.specs.Reaching.{IsGrown, IsWhole, is_among, ops_of};

use plir_core::{Operation, Ptr};
use plir_data::Memory;
use std::alloc::Global;
use std::collections::HashSet;

/// Operations that are reached, in the order in which they were, each once.
#[derive(Drop)]
pub(crate) struct Reached {
    ops: Vec<Ptr<Operation>>,
    marks: HashSet<Ptr<Operation>>,
}

impl Reached {
    /// None.
    pub(crate) fn new(alloc: Global) -> Reached
        ensures none { result.ops.items ≡ [] }
        ensures whole { IsWhole result }
    {
        Reached {
            ops: Vec::new(alloc),
            marks: HashSet::new(alloc),
        }
    }

    /// How many there are.
    pub(crate) fn len(&self) -> usize
        ensures { result ≡ length self.now.ops.items }
    {
        self.ops.len()
    }

    /// The one at a place, from 0.
    pub(crate) fn at(&self, place: usize) -> Ptr<Operation>
        requires { place < length self.now.ops.items }
        ensures { slice_get self.now.ops.items place ≡ Some result }
    {
        self.ops[place]
    }

    /// Whether an operation is reached.
    pub(crate) fn contains(&self, op: Ptr<Operation>) -> bool
        requires { IsWhole self.now }
        ensures { result ≡ is_among (ops_of self.now) op }
    {
        self.marks.contains(&op)
    }

    /// Adds an operation behind the others, if it is not among them.
    pub(crate) fn put(&mut self, op: Ptr<Operation>) -> Result<(), Memory>
        ensures { OnOk result (IsGrown (λ q. q ≡ op) self.old self.new) }
    {
        let fresh = self.marks.insert(op)?;
        if !fresh {
            return Ok(());
        }
        self.ops.push(op)?;
        Ok(())
    }
}
