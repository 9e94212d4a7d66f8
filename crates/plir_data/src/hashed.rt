//! Lists that have each of their values once, with a look-up by hashes.

ghost use Rattle.std.specs.Prelude.{◌≡◌, ◌++◌, ◌∷◌, ℕ, [], IsTrue, OnOk, Some, IfSome, IfNone, IfOk, OnErr, length, slice_get};
ghost use Rattle.plir_data.specs.Hashed.{StandsAt, hash_from};
ghost use Rattle.plir_data.specs.Types.{IsGrown};

use crate::memory::Memory;
use std::alloc::Global;
use std::collections::HashMap;
use std::hash::{FoldHasher, Hash, Hasher};
use std::marker::Model;

// Values in order of arrival, each once. Those with one hash are chained: from the last that came to
// those before it.
#[derive(Drop)]
pub(crate) struct HashedList<T: Eq + Hash> {
    values: Vec<T>,
    // Beside each value the place of the last one before it that has the same hash.
    earlier: Vec<Option<usize>>,
    // The place of the last value of each hash.
    latest: HashMap<u64, usize>,
}

impl<T: Eq + Hash> Model for HashedList<T> {
    ghost use Rattle.std.specs.Prelude.{List, nat_eq};
    ghost use Rattle.std.specs.HashMap.{get};
    ghost use Rattle.plir_data.specs.Hashed.{Hashed, hash_from};

    ghost Value = { List T };

    ghost view = { λ h. h.values.items };

    ghost invariant = { λ h. Hashed (λ x. hash_from (T.hash_input x)) h.values.items h.earlier.items
        (get nat_eq h.latest) };
}

// The hash of a value, by the hasher that std's maps have.
fn hash_of<T: Hash>(value: &T) -> u64
    ensures { result ≡ hash_from (T.hash_input value.now) }
{
    let mut hasher = FoldHasher::default();
    value.hash(&mut hasher);
    hasher.finish()
}

impl<T: Eq + Hash + Drop> HashedList<T> {
    // No values.
    pub(crate) fn new(alloc: Global) -> HashedList<T>
        ensures { result ≡ [] }
    {
        HashedList {
            values: Vec::new(alloc),
            earlier: Vec::new(alloc),
            latest: HashMap::new(alloc),
        }
    }

    // The number of values.
    pub(crate) fn len(&self) -> usize
        ensures { result ≡ length self.now }
    {
        self.values.len()
    }

    // The values, in order.
    pub(crate) fn as_slice(&self) -> &[T]
        ensures { result.now ≡ self.now }
    {
        self.values.as_slice()
    }

    // The place of a value that is equal to one of this hash, looked for down its chain.
    fn find(&self, hash: u64, value: &T) -> Option<usize>
        requires { hash ≡ hash_from (T.hash_input value.now) }
        ensures found { IfSome result (StandsAt (λ x. IsTrue (T.eq value.now x)) self.now) }
        ensures absent { IfNone result ((i : ℕ) → StandsAt (λ x. IsTrue (T.eq value.now x)) self.now i → ⊥) }
    {
        let mut at = self.latest.get(&hash).copied();
        while let Some(place) = at {
            if *value == self.values[place] {
                return Some(place);
            }
            at = self.earlier[place];
        }
        None
    }

    // Puts a value of this hash last. There is room in both lists before anything has changed.
    fn put_last(&mut self, hash: u64, value: T) -> Result<usize, Memory>
        requires { hash ≡ hash_from (T.hash_input value) }
        ensures place { IfOk result (λ i. i ≡ length self.old) }
        ensures ok { OnOk result (self.new ≡ self.old ++ value ∷ []) }
        ensures err { OnErr result (self.new ≡ self.old) }
    {
        let place = self.values.len();
        self.values.reserve(1)?;
        self.earlier.reserve(1)?;
        let before = self.latest.insert(hash, place)?;
        self.earlier.push(before)?;
        self.values.push(value)?;
        Ok(place)
    }

    // The place of a value; one that isn't there yet comes last.
    pub(crate) fn insert_full(&mut self, value: T) -> Result<usize, Memory>
        requires { (a b : T) → IsTrue (T.eq a b) → a ≡ b }
        ensures place { IfOk result (λ i. slice_get self.new i ≡ Some value) }
        ensures grown { IsGrown self.old value self.new }
        ensures err { OnErr result (self.new ≡ self.old) }
    {
        let hash = hash_of(&value);
        if let Some(place) = self.find(hash, &value) {
            return Ok(place);
        }
        self.put_last(hash, value)
    }
}
