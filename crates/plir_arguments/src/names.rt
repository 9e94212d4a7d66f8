//! The names of the arguments of a block, in its attributes.
ghost use Rattle.std.specs.Prelude.{◌≡◌, IfOk, OnOk, option_and_then, option_map};
ghost use Rattle.plir_data.specs.AttrSeen.{attr_view};
ghost use Rattle.plir_data.specs.Dictionary.{dict_get};
ghost use Rattle.plir_data.specs.Keys.{names_key};
ghost use Rattle.plir_walk.specs.GivenNames.{all_unset, names_of as names_in, remove_name};
ghost use Rattle.plir_arguments.specs.Dropped.{names_left, without_name};

use plir_data::keys::ATTR_KEY_GIVEN_NAMES;
use plir_data::{AttrObj, AttributeDict, GivenNamesAttr, Identifier, Memory, OpSet};
use std::alloc::Global;

// The names in an attribute of names.
fn names_of<D: OpSet>(attribute: &AttrObj<D>) -> Option<&GivenNamesAttr>
    ensures { option_map (λ names. names.now) result ≡ names_in (attr_view attribute.now) }
{
    match attribute {
        AttrObj::GivenNames(names) => Some(names),
        _ => None,
    }
}

// The names that are given in attributes, if they are.
fn given_names<D: OpSet>(attributes: &AttributeDict<D>) -> Option<&GivenNamesAttr>
    ensures { option_map (λ names. names.now) result ≡ option_and_then names_in
        (dict_get attributes.now names_key) }
{
    names_of(attributes.get(ATTR_KEY_GIVEN_NAMES)?)
}

// Takes the name at a place out, if there are so many; those behind it move down.
fn remove_from(names: &mut Vec<Option<Identifier>>, i: usize)
    ensures { names.new.items ≡ remove_name names.old.items i }
{
    if i < names.len() {
        let _name = names.remove(i);
    }
}

// Whether no name is set.
fn are_all_unset(names: &[Option<Identifier>]) -> bool
    ensures { result ≡ all_unset names.now }
{
    names.iter().all(|name| name.is_none())
}

// The names that are left where names are given, without that at a place.
fn names_without<D: OpSet>(
    alloc: Global,
    attributes: &AttributeDict<D>,
    i: usize,
) -> Result<Option<GivenNamesAttr>, Memory>
    ensures { IfOk result (λ names. names ≡ names_left attributes.now i) }
{
    let Some(names) = given_names(attributes) else {
        return Ok(None);
    };
    let mut left = names.try_clone(alloc)?;
    remove_from(left.names_mut(), i);
    Ok(Some(left))
}

/// Takes the name of the argument at a place, from 0, out of attributes, if names are given there: those behind it move
/// down. Where no name is left that is set, the attribute of names goes.
pub(crate) fn drop_name<D: OpSet>(
    alloc: Global,
    attributes: &mut AttributeDict<D>,
    i: usize,
) -> Result<(), Memory>
    ensures { OnOk result (attributes.new ≡ without_name attributes.old i) }
{
    let Some(names) = names_without(alloc, attributes, i)? else {
        return Ok(());
    };
    if are_all_unset(names.names()) {
        let _names = attributes.remove(ATTR_KEY_GIVEN_NAMES);
    } else {
        let _replaced = attributes.replace(ATTR_KEY_GIVEN_NAMES, AttrObj::GivenNames(names));
    }
    Ok(())
}
