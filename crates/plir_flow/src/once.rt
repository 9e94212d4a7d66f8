//! Lists that have each of their elements once.
ghost use Rattle.std.specs.Prelude.{◌≡◌, ◌↔◌, ◌∷◌, ◌++◌, List, [], IsTrue, IfOk, OnOk, true, false, length};
ghost use Rattle.std.specs.Bool.{Decides};
ghost use Rattle.plir_store.specs.Members.{Has};
ghost use Rattle.plir_flow.specs.Taken.{IsOnceEach, put_once};

use plir_data::Memory;
use std::alloc::Global;
use std::collections::HashSet;
use std::hash::Hash;
use std::marker::Model;

/// Values in order of arrival, each once.
#[derive(Drop)]
pub(crate) struct Once<T: Eq + Hash> {
    values: Vec<T>,
    // The same values, for look-ups.
    known: HashSet<T>,
}

impl<T: Eq + Hash> Model for Once<T> {
    ghost use Rattle.std.specs.Prelude.{◌≡◌, List};
    ghost use Rattle.std.specs.List.{list_any};
    ghost use Rattle.std.specs.HashSet.{contains};

    ghost Value = { List T };

    ghost view = { λ o. o.values.items };

    ghost invariant = { λ o. (x : T) → contains T.eq o.known x ≡ list_any (T.eq x) o.values.items };
}

impl<T: Copy + Eq + Hash + Drop> Once<T> {
    /// No values.
    pub(crate) fn new(alloc: Global) -> Once<T>
        ensures { result ≡ [] }
    {
        Once {
            values: Vec::new(alloc),
            known: HashSet::new(alloc),
        }
    }

    /// The number of values.
    pub(crate) fn len(&self) -> usize
        ensures { result ≡ length self.now }
    {
        self.values.len()
    }

    /// The values, in order.
    pub(crate) fn as_slice(&self) -> &[T]
        ensures { result.now ≡ self.now }
    {
        self.values.as_slice()
    }

    /// The values, in order, as a list of their own.
    pub(crate) fn into_list(self) -> Vec<T>
        ensures { result.items ≡ self }
    {
        let Once {
            values,
            known: _known,
        } = self;
        values
    }

    /// Puts a value behind those that are there, if it is not there yet, and says whether it was not.
    pub(crate) fn add(&mut self, value: T) -> Result<bool, Memory>
        requires { (a b : T) → Decides (T.eq a b) (a ≡ b) }
        ensures once { OnOk result ((xs : List T) → IsOnceEach xs self.old → IsOnceEach (xs ++ value ∷ []) self.new) }
        ensures put { OnOk result (self.new ≡ put_once T.eq self.old value) }
        ensures fresh { IfOk result (λ b. b ≡ true → Has self.old value → ⊥) }
        ensures twice { IfOk result (λ b. b ≡ false → Has self.old value) }
        ensures last { IfOk result (λ b. b ≡ true → self.new ≡ self.old ++ value ∷ []) }
    {
        self.values.reserve(1)?;
        if !self.known.insert(value)? {
            return Ok(false);
        }
        self.values.push(value)?;
        Ok(true)
    }

    /// Whether a value is among them.
    pub(crate) fn has(&self, value: T) -> bool
        requires { (a b : T) → Decides (T.eq a b) (a ≡ b) }
        ensures { IsTrue result ↔ Has self.now value }
    {
        self.known.contains(&value)
    }

    /// Puts those of some values that are not there yet behind those that are, each once.
    pub(crate) fn add_all(&mut self, values: &[T]) -> Result<(), Memory>
        requires { (a b : T) → Decides (T.eq a b) (a ≡ b) }
        ensures { OnOk result ((xs : List T) → IsOnceEach xs self.old → IsOnceEach (xs ++ values.now) self.new) }
    {
        for value in values {
            self.add(*value)?;
        }
        Ok(())
    }
}
