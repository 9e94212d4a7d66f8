//! Edits of a list of names.
ghost use Rattle.std.specs.Prelude.{◌≡◌, OnOk, OnErr, length, take};
ghost use Rattle.plir_walk.specs.GivenNames.{all_unset, padded, remove_name};
ghost use Rattle.plir_walk.specs.Placing.{placed_name};

use plir_data::{Identifier, Memory};

/// How a name comes among the others.
#[derive(Clone, Copy)]
pub(crate) enum Placing {
    /// In place of the one at its place.
    Replacing,
    /// Before the one at its place: that and the later ones move up.
    Shifting,
}

// Puts unset names at the end, so that there are `count` at least.
fn pad(names: &mut Vec<Option<Identifier>>, count: usize) -> Result<(), Memory>
    ensures ok { OnOk result (names.new.items ≡ padded names.old.items count) }
    ensures err { OnErr result (take (length names.old.items) names.new.items ≡ names.old.items) }
{
    while names.len() < count {
        names.push(None)?;
    }
    Ok(())
}

// Puts a name among the others. After a refusal there may be unset names at the end.
fn pad_and_place(
    names: &mut Vec<Option<Identifier>>,
    i: usize,
    name: Option<Identifier>,
    placing: Placing,
) -> Result<(), Memory>
    ensures ok { OnOk result (names.new.items ≡ placed_name placing names.old.items i name) }
    ensures err { OnErr result (take (length names.old.items) names.new.items ≡ names.old.items) }
{
    pad(names, i)?;
    match placing {
        Placing::Replacing if i < names.len() => names[i] = name,
        _ => names.insert(i, name)?,
    }
    Ok(())
}

/// Puts a name among the others, behind unset ones if there are fewer. After a refusal all are as before.
pub(crate) fn place_name(
    names: &mut Vec<Option<Identifier>>,
    i: usize,
    name: Option<Identifier>,
    placing: Placing,
) -> Result<(), Memory>
    ensures ok { OnOk result (names.new.items ≡ placed_name placing names.old.items i name) }
    ensures err { OnErr result (names.new.items ≡ names.old.items) }
{
    let count = names.len();
    let placed = pad_and_place(names, i, name, placing);
    if placed.is_err() {
        names.truncate(count);
    }
    placed
}

/// Whether no name is set.
pub(crate) fn are_all_unset(names: &[Option<Identifier>]) -> bool
    ensures { result ≡ all_unset names.now }
{
    names.iter().all(|name| name.is_none())
}

/// Takes the name at a place out, if there are so many; those behind it move down.
pub(crate) fn remove_from(names: &mut Vec<Option<Identifier>>, i: usize)
    ensures { names.new.items ≡ remove_name names.old.items i }
{
    if i < names.len() {
        let _name = names.remove(i);
    }
}
