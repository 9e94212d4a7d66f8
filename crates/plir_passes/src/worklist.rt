//! Operations that a pass has to look at.
ghost use Rattle.std.specs.Prelude.{◌≡◌, ◌++◌, [], None, OnOk, option_to_list};
ghost use Rattle.plir_passes.specs.Worklists.{AreListed, WaitAgain};

use plir_core::{Operation, Ptr};
use plir_data::Memory;
use std::alloc::Global;
use std::collections::HashSet;

/// Operations that are listed, and those that wait to be looked at: the one that was put last is taken first. It may
/// wait more than once.
#[derive(Drop)]
pub(crate) struct Worklist {
    listed: HashSet<Ptr<Operation>>,
    waiting: Vec<Ptr<Operation>>,
}

impl Worklist {
    /// None is listed, and none waits.
    pub(crate) fn new(alloc: Global) -> Worklist
        ensures listed { result.listed.keys ≡ [] }
        ensures waiting { result.waiting.items ≡ [] }
    {
        Worklist {
            listed: HashSet::new(alloc),
            waiting: Vec::new(alloc),
        }
    }

    /// Lists an operation, and lets it wait.
    pub(crate) fn put(&mut self, op: Ptr<Operation>) -> Result<(), Memory>
        ensures { OnOk result (AreListed (λ p. p ≡ op) self.old self.new) }
    {
        self.listed.insert(op)?;
        self.waiting.push(op)?;
        Ok(())
    }

    /// Lets an operation wait once more, if it is listed.
    pub(crate) fn put_again(&mut self, op: Ptr<Operation>) -> Result<(), Memory>
        ensures { OnOk result (WaitAgain (λ p. p ≡ op) self.old self.new) }
    {
        if self.listed.contains(&op) {
            self.waiting.push(op)?;
        }
        Ok(())
    }

    /// Takes the operation that was put last, if one waits.
    pub(crate) fn take(&mut self) -> Option<Ptr<Operation>>
        ensures listed { self.new.listed.keys ≡ self.old.listed.keys }
        ensures waiting { self.old.waiting.items ≡ self.new.waiting.items ++ option_to_list result }
        ensures none { result ≡ None → self.old.waiting.items ≡ [] }
    {
        self.waiting.pop()
    }
}
