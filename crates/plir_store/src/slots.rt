//! Numbered slots whose numbers are used again, each time under a new version.
ghost use Rattle.std.specs.Prelude.{◌≡◌, ℕ, ◌+◌, ◌-◌, ◌<◌, ◌≤◌, ◌^◌, List, [], ◌∷◌, ◌++◌, length, Option, Some, None};
ghost use Rattle.std.specs.Prelude.{OnOk, OnErr, IfOk, IfErr, IsSome};
ghost use Rattle.std.specs.Borrow.{Lends, sem};
ghost use Rattle.plir_store.specs.Places.{link_of, content_of};
ghost use Rattle.plir_store.specs.Table.{Table, content_at, version_at, is_live_at, next_slot, num_full, with_new};
ghost use Rattle.plir_store.specs.Table.{without_slot, is_nil, IsTable};

use crate::hop::Hop;
use std::alloc::Global;
use std::marker::Model;
use std::mem;

// What a slot holds: a value, or the number of the slot freed before it.
#[derive(Drop)]
enum Place<T> {
    Vacant(Hop),
    Full(T),
}

/// Values in numbered slots.
///
/// A slot that is freed is used again, the one freed last first. Each value that a slot gets raises its version,
/// from 1 for the first, so that a slot's number and a version together stand for one value for ever. A slot
/// whose version is 4294967295 is not used again.
///
/// The versions lie apart from the values, so that reading a version touches no value.
#[derive(Drop)]
pub struct Slots<T> {
    versions: Vec<u32>,
    places: Vec<Place<T>>,
    // The slot freed last, which names the one freed before it.
    free: Hop,
    // How many places are full.
    live: u32,
}

impl<T> Model for Slots<T> {
    ghost use Rattle.plir_store.specs.Table.{Table};

    ghost Value = { Table T };

    ghost use Rattle.plir_store.specs.Places.{table_of, IsSound};

    ghost view = { λ s. table_of s.versions.items s.places.items s.free };

    ghost invariant = { λ s. IsSound s.versions.items s.places.items s.free s.live };
}

impl<T> Place<T> {
    ghost use Rattle.plir_store.specs.contracts.slots.Place.{the_row};

    // Takes the value out of a full place, and notes the slot freed before it.
    fn vacate(&mut self, next: Hop) -> T
        requires { IsSome (content_of self.old) }
        ensures place { self.new ≡ Place.Vacant next }
        ensures value { content_of self.old ≡ Some result }
    {
        match mem::replace(self, Place::Vacant(next)) {
            Place::Full(value) => value,
            Place::Vacant(_) => unreachable!(),
        }
    }

    // The value of a full place.
    fn value(self) -> T
        requires { IsSome (content_of self) }
        ensures { content_of self ≡ Some result }
    {
        match self {
            Place::Full(value) => value,
            Place::Vacant(_) => unreachable!(),
        }
    }

    // The value of a full place, for writing.
    fn value_mut(&mut self) -> &mut T
        requires { IsSome (content_of self.old) }
        ensures* writes_back { sem 𝓛 (Lends (the_row T.row) T.row self.entry result Place.Full) }
        ensures value { content_of self.old ≡ Some result.now }
    {
        match self {
            Place::Full(value) => value,
            Place::Vacant(_) => unreachable!(),
        }
    }
}

impl<T: Drop> Place<T> {
    // Puts a value into a place, and returns the slot that it named.
    fn fill(&mut self, value: T) -> Hop
        ensures place { self.new ≡ Place.Full value }
        ensures next { result ≡ link_of self.old }
    {
        match mem::replace(self, Place::Full(value)) {
            Place::Vacant(next) => next,
            Place::Full(_) => Hop::none(),
        }
    }
}

// One more slot, which holds the value, or gives the value back where memory runs out.
fn push_slot<T: Drop>(
    versions: &mut Vec<u32>,
    places: &mut Vec<Place<T>>,
    value: T,
) -> Result<(), T>
    ensures versions { OnOk result (versions.new.items ≡ versions.old.items ++ 1 ∷ []) }
    ensures places { OnOk result (places.new.items ≡ places.old.items ++ Place.Full value ∷ []) }
    ensures same_versions { OnErr result (versions.new.items ≡ versions.old.items) }
    ensures same_places { OnErr result (places.new.items ≡ places.old.items) }
    ensures back { IfErr result (λ v. v ≡ value) }
{
    if versions.push(1).is_err() {
        return Err(value);
    }
    match places.push(Place::Full(value)) {
        Ok(()) => Ok(()),
        Err(failed) => {
            versions.pop();
            Err(failed.value.value())
        }
    }
}

impl<T> Slots<T> {
    ghost use Rattle.plir_store.specs.Lends.{LendsContent};

    /// No slot yet, and no memory taken.
    pub fn new(alloc: Global) -> Self
        ensures empty { result ≡ record { slots = []; free = [] } }
        ensures whole { IsTable result }
    {
        Slots {
            versions: Vec::new(alloc),
            places: Vec::new(alloc),
            free: Hop::none(),
            live: 0,
        }
    }

    /// How many slots there are, free ones among them.
    pub fn len(&self) -> usize
        ensures value { result ≡ length self.now.slots }
        ensures whole { IsTable self.now }
    {
        self.places.len()
    }

    /// How many slots hold a value.
    pub fn live(&self) -> u32
        ensures value { result ≡ num_full self.now }
        ensures whole { IsTable self.now }
    {
        self.live
    }

    /// Whether the slot holds the value that it got under this version.
    pub fn is_live(&self, index: u32, version: u32) -> bool
        ensures value { result ≡ is_live_at self.now index version }
        ensures whole { IsTable self.now }
    {
        if index as usize >= self.versions.len() {
            return false;
        }
        if self.versions[index as usize] != version {
            return false;
        }
        match self.places[index as usize] {
            Place::Vacant(_) => false,
            Place::Full(_) => true,
        }
    }

    /// How many values the slot has held.
    pub fn version(&self, index: u32) -> u32
        requires { index < length self.now.slots }
        ensures value { result ≡ version_at self.now index }
        ensures whole { IsTable self.now }
    {
        self.versions[index as usize]
    }

    /// The value that the slot holds.
    pub fn get(&self, index: u32) -> &T
        requires { IsSome (content_at self.now index) }
        ensures value { content_at self.now index ≡ Some result.now }
        ensures whole { IsTable self.now }
    {
        match &self.places[index as usize] {
            Place::Vacant(_) => unreachable!(),
            Place::Full(value) => value,
        }
    }

    /// The value that the slot holds, for writing. The slot keeps its version, and no other slot changes.
    pub fn get_mut(&mut self, index: u32) -> &mut T
        requires { IsSome (content_at self.old index) }
        ensures* writes_back { sem 𝓛 (LendsContent T.row self.entry index result) }
        ensures value { content_at self.old index ≡ Some result.now }
        ensures whole { IsTable self.old }
    {
        self.places[index as usize].value_mut()
    }

    /// The slot that the next value gets.
    pub fn next_slot(&self) -> usize
        ensures value { result ≡ next_slot self.now }
        ensures within { result ≤ length self.now.slots }
        ensures whole { IsTable self.now }
    {
        match self.free.get() {
            Some(index) => index as usize,
            None => self.places.len(),
        }
    }

    /// Whether the next value needs a new slot.
    pub fn needs_slot(&self) -> bool
        ensures value { result ≡ is_nil self.now.free }
        ensures whole { IsTable self.now }
    {
        self.free.get().is_none()
    }

    /// Takes the value out of its slot, which is then the next to be used, or never again after its last version.
    pub fn remove(&mut self, index: u32) -> T
        requires { IsSome (content_at self.old index) }
        ensures value { content_at self.old index ≡ Some result }
        ensures after { self.new ≡ without_slot self.old index }
        ensures count { num_full self.new + 1 ≡ num_full self.old }
        ensures whole { IsTable self.new }
    {
        let value = self.places[index as usize].vacate(self.free);
        self.live -= 1;
        let is_retired = self.versions[index as usize] == u32::MAX;
        if !is_retired {
            self.free = Hop::to(index);
        }
        value
    }
}

impl<T: Drop> Slots<T> {
    /// Puts a value into a slot, or gives it back where memory runs out.
    pub fn insert(&mut self, value: T) -> Result<u32, T>
        requires room { next_slot self.old < 2 ^ 32 - 1 }
        requires count { num_full self.old < 2 ^ 32 - 1 }
        ensures slot { IfOk result (λ i. i ≡ next_slot self.old) }
        ensures ok { OnOk result (self.new ≡ with_new self.old value) }
        ensures err { OnErr result (self.new ≡ self.old) }

        ensures here { OnOk result (content_at self.new (next_slot self.old) ≡ Some value) }
        ensures back { IfErr result (λ v. v ≡ value) }

        // Only a new slot takes memory.
        ensures full { OnErr result (self.old.free ≡ []) }
        ensures vacant { content_at self.old (next_slot self.old) ≡ None }
        ensures count { OnOk result (num_full self.new ≡ num_full self.old + 1) }
        ensures whole { IsTable self.new }
    {
        match self.free.get() {
            Some(index) => {
                let next = self.places[index as usize].fill(value);
                self.versions[index as usize] += 1;
                self.free = next;
                self.live += 1;
                Ok(index)
            }
            None => {
                let index = self.places.len() as u32;
                match push_slot(&mut self.versions, &mut self.places, value) {
                    Ok(()) => {
                        self.live += 1;
                        Ok(index)
                    }
                    Err(value) => Err(value),
                }
            }
        }
    }
}
