//! Places in a list, so linked that those of one operation are found one after another.
ghost use Rattle.std.specs.Prelude.{◌≡◌, ◌<◌, [], ◌∷◌, ◌++◌, IfOk, OnOk, Some, if◌then◌else◌, length, option_and_then};
ghost use Rattle.std.specs.Prelude.{slice_get};
ghost use Rattle.std.specs.HashMap.{get};
ghost use Rattle.plir_symbols.specs.CallGraph.{is_found};
ghost use Rattle.plir_symbols.specs.Chained.{AreChains};
ghost use Rattle.plir_symbols.specs.Reaching.{ptr_eq};

use plir_core::{Operation, Ptr};
use plir_data::Memory;
use std::alloc::Global;
use std::collections::HashMap;

/// The places of operations in a list: the last one of each operation, and from each place the one before it of the
/// same operation.
#[derive(Drop)]
pub(crate) struct Chains {
    latest: HashMap<Ptr<Operation>, usize>,
    earlier: Vec<Option<usize>>,
}

// Makes a place the last one of an operation, if there is one, and tells which was that before.
fn put_last(
    latest: &mut HashMap<Ptr<Operation>, usize>,
    op: Option<Ptr<Operation>>,
    place: usize,
) -> Result<Option<usize>, Memory>
    ensures before { IfOk result (λ o. o ≡ option_and_then (get ptr_eq latest.old) op) }
    ensures updates { OnOk result ((p : _) →
        get ptr_eq latest.new p ≡ (if is_found p op then Some place else get ptr_eq latest.old p)) }
{
    match op {
        Some(op) => {
            let before = latest.insert(op, place)?;
            Ok(before)
        }
        None => Ok(None),
    }
}

impl Chains {
    /// Those of an empty list.
    pub(crate) fn new(alloc: Global) -> Chains
        ensures { AreChains [] result }
    {
        Chains {
            latest: HashMap::new(alloc),
            earlier: Vec::new(alloc),
        }
    }

    /// The last place of an operation, if it has one.
    pub(crate) fn last(&self, op: Ptr<Operation>) -> Option<usize>
        ensures { result ≡ get ptr_eq self.now.latest op }
    {
        self.latest.get(&op).copied()
    }

    /// The place of the same operation before one, if it has one there.
    pub(crate) fn before(&self, place: usize) -> Option<usize>
        requires { place < length self.now.earlier.items }
        ensures { slice_get self.now.earlier.items place ≡ Some result }
    {
        self.earlier[place]
    }

    /// Puts the next place, of an operation or of none.
    pub(crate) fn put(&mut self, op: Option<Ptr<Operation>>) -> Result<(), Memory>
        ensures { OnOk result ((ops : _) → AreChains ops self.old → AreChains (ops ++ op ∷ []) self.new) }
    {
        let place = self.earlier.len();
        let before = put_last(&mut self.latest, op, place)?;
        self.earlier.push(before)?;
        Ok(())
    }
}
