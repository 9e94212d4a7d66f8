//! Entries in ascending order of their keys' bytes: where a key stands, and edits at that place.

ghost use Rattle.std.specs.Prelude.{◌≡◌, ◌<◌, ◌≤◌, OnOk, OnErr, slice_index_or, slice_set, vec_len};
ghost use Rattle.std.specs.List.{insert};
ghost use Rattle.plir_data.specs.Places.{IsPlace, KeysAscend};

use crate::identifier::Identifier;
use crate::memory::Memory;
use std::cmp::Ordering;
use std::mem::replace;

/// Where a key is, or else, as an `Err`, where it would stand.
pub(crate) fn place_of<V>(entries: &[(Identifier, V)], key: &str) -> Result<usize, usize>
    requires { KeysAscend (λ e. e.0) entries.now }
    ensures { IsPlace (λ e. e.0) entries.now key.now result }
{
    let mut low = 0;
    let mut high = entries.len();
    'halves: while low < high {
        let middle = low + (high - low) / 2;
        match key.cmp(entries[middle].0.as_str()) {
            Ordering::Less => high = middle,
            Ordering::Equal => return Ok(middle),
            Ordering::Greater => low = middle + 1,
        }
    }
    Err(low)
}

/// Puts a value in place of the one that stands at a place, and answers that one.
pub(crate) fn put_at<V>(entries: &mut Vec<(Identifier, V)>, at: usize, value: V) -> V
    requires { at < vec_len entries.old }
    ensures taken { (d : _) → result ≡ (slice_index_or entries.old.items at d).1 }
    ensures put { (d : _) → entries.new.items ≡ slice_set entries.old.items at
        ((slice_index_or entries.old.items at d).0, value) }
{
    replace(&mut entries[at].1, value)
}

/// Puts a new entry at a place, before those from there on.
pub(crate) fn insert_at<V: Drop>(
    entries: &mut Vec<(Identifier, V)>,
    at: usize,
    key: Identifier,
    value: V,
) -> Result<(), Memory>
    requires { at ≤ vec_len entries.old }
    ensures ok { OnOk result (entries.new.items ≡ insert entries.old.items at (key, value)) }
    ensures err { OnErr result (entries.new.items ≡ entries.old.items) }
{
    make_room(entries)?;
    entries.insert(at, (key, value))?;
    Ok(())
}

// Makes room for one more entry: room for one at first, and then for as many again as there are.
fn make_room<V>(entries: &mut Vec<(Identifier, V)>) -> Result<(), Memory>
    ensures { entries.new.items ≡ entries.old.items }
{
    if entries.len() == entries.capacity() {
        entries.reserve_exact(entries.len().max(1))?;
    }
    Ok(())
}
