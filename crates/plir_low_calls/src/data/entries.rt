//! The calls on the entries of a dictionary, which is written by its text.
ghost use Rattle.std.specs.Prelude.{◌≡◌, None, IsSome};
ghost use Rattle.plir_data.specs.AttrView.{leaf, unit};
ghost use Rattle.plir_data.specs.Dictionary.{dict_get, dict_put};

use crate::data::values::put_value;
use plir_data::laws::equal_dictionaries_hash_alike;
use plir_data::{AttrObj, AttributeDict, DictAttr, Identifier, OpSet, UnitAttr};
use plir_scripts::{Bench, Line, OwnSet, Stop, split_word, value_of};
use std::hash::{DefaultHasher, Hasher};

// The dictionary that is written so.
fn dict_of<D: OwnSet>(bench: &mut Bench<D>, written: &str) -> Result<DictAttr<D>, Stop> {
    match value_of(bench, written)? {
        AttrObj::Dict(dict) => Ok(dict),
        _ => Err(Stop::Refused),
    }
}

/// `put KEY ATTR | DICT`: writes the dictionary with the entry put into it.
pub fn put<D: OwnSet>(bench: &mut Bench<D>, line: Line<'_>) -> Result<(), Stop> {
    let (entry, written) = line.text.split_once(" | ").ok_or(Stop::Refused)?;
    let (key, value) = split_word(entry);
    let value = value_of(bench, value)?;
    let dict = with_entry(bench, written, key, value)?;
    put_value(bench, &dict)
}

// The dictionary that is written so, with an entry put into it.
fn with_entry<D: OwnSet>(
    bench: &mut Bench<D>,
    written: &str,
    key: &str,
    value: AttrObj<D>,
) -> Result<AttrObj<D>, Stop> {
    let mut dict = dict_of(bench, written)?;
    let key = Identifier::try_new(bench.alloc, key)?;
    dict.insert(bench.alloc, &key, value)?;
    Ok(AttrObj::Dict(dict))
}

/// `lookup KEY DICT`, `lend KEY DICT`, `without KEY DICT` or `take KEY DICT`: what stands under a key, and what becomes
/// of the dictionary.
pub fn on_entry<D: OwnSet>(bench: &mut Bench<D>, line: Line<'_>) -> Result<(), Stop> {
    let (_, written) = split_word(line.text);
    let key = Identifier::try_new(bench.alloc, line.first)?;
    let mut dict = dict_of(bench, written)?;
    if has_changed(bench, line.command, &mut dict, &key)? {
        put_value(bench, &AttrObj::Dict(dict))
    } else {
        Ok(())
    }
}

// Does what a command says; false where its answer is written then.
fn has_changed<D: OpSet>(
    bench: &mut Bench<D>,
    command: &str,
    dict: &mut DictAttr<D>,
    key: &Identifier,
) -> Result<bool, Stop> {
    match command {
        "lend" => put_unit(dict, key),
        "without" => dict.remove(key),
        "lookup" => {
            put_found(bench, dict, key)?;
            return Ok(false);
        }
        _ => {
            take(bench, &mut dict.0, key.as_str())?;
            return Ok(false);
        }
    }
    Ok(true)
}

// Writes the attribute under a key, or `none`.
fn put_found<D: OpSet>(
    bench: &mut Bench<D>,
    dict: &DictAttr<D>,
    key: &Identifier,
) -> Result<(), Stop> {
    match dict.lookup(key) {
        Some(found) => put_value(bench, found),
        None => {
            bench.answer.put("none");
            Ok(())
        }
    }
}

// Where the key is there, its attribute becomes the one of no information; else nothing changes.
fn put_unit<D: OpSet>(dict: &mut DictAttr<D>, key: &Identifier)
    ensures found { IsSome (dict_get dict.old key.now) → dict.new ≡ dict_put dict.old key.now (leaf unit) }
    ensures absent { dict_get dict.old key.now ≡ None → dict.new ≡ dict.old }
{
    if let Some(place) = dict.lookup_mut(key) {
        *place = AttrObj::Unit(UnitAttr::new());
    }
}

// Takes the entry of a key out: writes its attribute, or `none`, and how many are left.
fn take<D: OpSet>(
    bench: &mut Bench<D>,
    entries: &mut AttributeDict<D>,
    key: &str,
) -> Result<(), Stop> {
    put_taken(bench, entries.remove(key))?;
    let answer = &mut bench.answer;
    answer.put(", left ");
    answer.put_number(entries.len());
    answer.put(if entries.is_empty() { ", empty" } else { "" });
    Ok(())
}

fn put_taken<D: OpSet>(bench: &mut Bench<D>, taken: Option<AttrObj<D>>) -> Result<(), Stop> {
    match &taken {
        Some(taken) => put_value(bench, taken),
        None => {
            bench.answer.put("none");
            Ok(())
        }
    }
}

/// `hash-alike DICT | DICT`: writes whether the two are equal, if they then hash alike.
pub fn compare_hashes<D: OwnSet>(bench: &mut Bench<D>, line: Line<'_>) -> Result<(), Stop> {
    let (one, other) = line.text.split_once(" | ").ok_or(Stop::Refused)?;
    let one = dict_of(bench, one)?;
    let other = dict_of(bench, other)?;
    bench.answer.put_truth(hash_alike(&one, &other));
    Ok(())
}

fn hash_alike<D: OpSet>(one: &DictAttr<D>, other: &DictAttr<D>) -> bool {
    let (mut first, mut second) = (DefaultHasher::new(), DefaultHasher::new());
    let are_equal = equal_dictionaries_hash_alike(one, other, &mut first, &mut second);
    are_equal && first.finish() == second.finish()
}
