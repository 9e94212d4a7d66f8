//! The calls on attributes, which are written as `value_of` of the interpreter has them.
use plir_data::{AttrObj, DictAttr, OpSet, TypeHandle, VerifyErr};
use plir_scripts::{Answer, Bench, Line, OwnSet, Stop, put_attr, put_type_name, value_of};
use std::alloc::Global;
use std::hash::{DefaultHasher, Hash, Hasher};

// The two attributes that are written in a line.
fn two_values<D: OwnSet>(
    bench: &mut Bench<D>,
    line: Line<'_>,
) -> Result<(AttrObj<D>, AttrObj<D>), Stop> {
    let (one, other) = line.text.split_once(" | ").ok_or(Stop::Refused)?;
    Ok((value_of(bench, one)?, value_of(bench, other)?))
}

fn hash_of<D: OpSet>(attr: &AttrObj<D>) -> u64 {
    let mut state = DefaultHasher::new();
    attr.hash(&mut state);
    state.finish()
}

/// Writes the text of an attribute.
pub fn put_value<D: OpSet>(bench: &mut Bench<D>, attr: &AttrObj<D>) -> Result<(), Stop> {
    if !attr.is_live(&bench.ctx) {
        return Err(Stop::Refused);
    }
    put_attr(bench.alloc, &bench.ctx, &mut bench.answer, attr);
    Ok(())
}

/// `copy ATTR`: writes the text of a copy, `another` before it if it isn't equal or hashes otherwise, and its id.
pub fn copy<D: OwnSet>(bench: &mut Bench<D>, line: Line<'_>) -> Result<(), Stop> {
    let attr = value_of(bench, line.text)?;
    let copy = attr.try_clone(bench.alloc)?;
    put_copy(bench, &attr, &copy)
}

fn put_copy<D: OpSet>(
    bench: &mut Bench<D>,
    attr: &AttrObj<D>,
    copy: &AttrObj<D>,
) -> Result<(), Stop> {
    if copy != attr || hash_of(copy) != hash_of(attr) {
        bench.answer.put("another ");
    }
    put_value(bench, copy)?;
    bench.answer.put(" of ");
    bench.answer.put(copy.get_attr_id());
    Ok(())
}

/// `copy-inside ATTR`: writes the text of a copy that the list or the dictionary makes of itself.
pub fn copy_inside<D: OwnSet>(bench: &mut Bench<D>, line: Line<'_>) -> Result<(), Stop> {
    let attr = value_of(bench, line.text)?;
    let copy = inside_of(bench.alloc, &attr)?;
    put_value(bench, &copy)
}

fn inside_of<D: OpSet>(alloc: Global, attr: &AttrObj<D>) -> Result<AttrObj<D>, Stop> {
    match attr {
        AttrObj::Vec(list) => Ok(AttrObj::Vec(list.try_clone(alloc)?)),
        AttrObj::Dict(dict) => Ok(AttrObj::Dict(dict.try_clone(alloc)?)),
        _ => Err(Stop::Refused),
    }
}

/// `copy-entries ATTR`: writes the text of a dictionary of a copy that the entries make of themselves.
pub fn copy_entries<D: OwnSet>(bench: &mut Bench<D>, line: Line<'_>) -> Result<(), Stop> {
    let attr = value_of(bench, line.text)?;
    let copy = entries_of(bench.alloc, &attr)?;
    put_value(bench, &copy)
}

fn entries_of<D: OpSet>(alloc: Global, attr: &AttrObj<D>) -> Result<AttrObj<D>, Stop> {
    match attr {
        AttrObj::Dict(dict) => Ok(AttrObj::Dict(DictAttr(dict.0.try_clone(alloc)?))),
        _ => Err(Stop::Refused),
    }
}

/// `same ATTR | ATTR`: writes whether the two are equal, each asked about the other; equal ones hash alike.
pub fn compare<D: OwnSet>(bench: &mut Bench<D>, line: Line<'_>) -> Result<(), Stop> {
    let (one, other) = two_values(bench, line)?;
    put_comparison(&mut bench.answer, &one, &other);
    Ok(())
}

fn put_comparison<D: OpSet>(answer: &mut Answer, one: &AttrObj<D>, other: &AttrObj<D>) {
    answer.put_truth(one == other);
    if (other == one) != (one == other) {
        answer.put(", but not the other way");
    }
    if one == other && hash_of(one) != hash_of(other) {
        answer.put(", but hashed otherwise");
    }
}

/// `outlined ATTR`: writes whether it is printed once.
pub fn ask_outlined<D: OwnSet>(bench: &mut Bench<D>, line: Line<'_>) -> Result<(), Stop> {
    let attr = value_of(bench, line.text)?;
    bench.answer.put_truth(attr.outline());
    Ok(())
}

/// `type-of ATTR`: writes the name of its type, or `none`.
pub fn ask_type<D: OwnSet>(bench: &mut Bench<D>, line: Line<'_>) -> Result<(), Stop> {
    bench.made.types.reserve(1)?;
    let found = value_of(bench, line.text)?.typed();
    put_found(bench, found)
}

/// `held-type ATTR`: writes the name of the type that it holds as an attribute of a type, or `none`.
pub fn ask_held_type<D: OwnSet>(bench: &mut Bench<D>, line: Line<'_>) -> Result<(), Stop> {
    bench.made.types.reserve(1)?;
    let found = value_of(bench, line.text)?.as_type();
    put_found(bench, found)
}

// Writes the name of a type, or `none`.
fn put_found<D: OwnSet>(bench: &mut Bench<D>, found: Option<TypeHandle>) -> Result<(), Stop> {
    match found {
        Some(handle) => put_type_name(&mut bench.made, &mut bench.answer, handle),
        None => {
            bench.answer.put("none");
            Ok(())
        }
    }
}

/// `verdict ATTR`: writes `valid`, or the text of the refusal.
pub fn verify<D: OwnSet>(bench: &mut Bench<D>, line: Line<'_>) -> Result<(), Stop> {
    let attr = value_of(bench, line.text)?;
    put_verdict(bench, &attr)
}

fn put_verdict<D: OpSet>(bench: &mut Bench<D>, attr: &AttrObj<D>) -> Result<(), Stop> {
    if !attr.is_live(&bench.ctx) {
        return Err(Stop::Refused);
    }
    match attr.verify(bench.alloc, &bench.ctx) {
        Ok(()) => bench.answer.put("valid"),
        Err(VerifyErr::Memory) => return Err(Stop::Memory),
        Err(refusal) => bench.answer.put_shown(&refusal),
    }
    Ok(())
}
