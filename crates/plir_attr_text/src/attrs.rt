//! From a text to an attribute.

ghost use Rattle.std.specs.Prelude.{◌≡◌, IfOk};
ghost use Rattle.plir_data.specs.AttrSeen.{attr_view};
ghost use Rattle.plir_data.specs.DictSeen.{pairs_view};
ghost use Rattle.plir_data.specs.Dictionary.{dict_of};
ghost use Rattle.plir_data.specs.AttrView.{leaf, identifier, string, bool, operand_segment_sizes, given_names};
ghost use Rattle.plir_attr_text.specs.MeantBy.{IsMeantBy, AreMeantBy, IsEntryMeantBy};
ghost use Rattle.plir_attr_text.specs.AttrReading.{name_at, text_at, bool_at, size_at, given_name_at, entry_at};
ghost use Rattle.plir_attr_text.specs.AttrReading.{attr_body, attr_at};
ghost use Rattle.plir_attr_text.specs.TypesIn.{IsInEntry, IsInAttr, IsBehindId};
ghost use Rattle.plir_attr_text.specs.{Terms.entries_of, Names.Adds, Meaning.IsDictMeant, Reading.Gives};
ghost use Rattle.plir_attr_text.specs.{Reading.ReadsFirst, Steps.read_as, Lists.items_at};

use crate::attr_words::{
    AttrKind, read_attr_head, read_bool, read_given_names, read_name, read_sizes, read_text,
    read_value,
};
use crate::fault::Stop;
use crate::types::read_type_at;
use crate::words::{begin_level, past_sign, read_separator, read_sign};
use plir_data::{
    AttrObj, AttributeDict, BoolAttr, DictAttr, GivenNamesAttr, Identifier, IdentifierAttr,
    IntegerAttr, IntegerType, Memory, OpSet, OperandSegmentSizesAttr, StringAttr, TypeAttr,
    TypeStore, UnitAttr, VecAttr,
};
use std::alloc::Global;

// An identifier as an attribute.
fn read_identifier_attr<D: OpSet>(alloc: Global, bytes: &[u8]) -> Result<(AttrObj<D>, &[u8]), Stop>
    ensures { Gives (λ x. (attr_view x.0, x.1.now)) result (read_as (λ w. leaf (identifier w)) (name_at bytes.now)) }
{
    let (name, rest) = read_name(alloc, bytes)?;
    Ok((AttrObj::Identifier(IdentifierAttr::new(name)), rest))
}

// A string as an attribute.
fn read_string_attr<D: OpSet>(alloc: Global, bytes: &[u8]) -> Result<(AttrObj<D>, &[u8]), Stop>
    ensures { Gives (λ x. (attr_view x.0, x.1.now)) result (read_as (λ w. leaf (string w)) (text_at bytes.now)) }
{
    let (text, rest) = read_text(alloc, bytes)?;
    Ok((AttrObj::String(StringAttr::new(text)), rest))
}

// A truth value as an attribute.
fn read_bool_attr<D: OpSet>(bytes: &[u8]) -> Result<(AttrObj<D>, &[u8]), Stop>
    ensures { Gives (λ x. (attr_view x.0, x.1.now)) result (read_as (λ w. leaf (bool w)) (bool_at bytes.now)) }
{
    let (value, rest) = read_bool(bytes)?;
    Ok((AttrObj::Bool(BoolAttr::new(value)), rest))
}

// Sizes of segments as an attribute.
fn read_sizes_attr<D: OpSet>(alloc: Global, bytes: &[u8]) -> Result<(AttrObj<D>, &[u8]), Stop>
    ensures { Gives (λ x. (attr_view x.0, x.1.now)) result (read_as (λ w. leaf (operand_segment_sizes w))
        (items_at 91 93 size_at bytes.now)) }
{
    let (sizes, rest) = read_sizes(alloc, bytes)?;
    Ok((
        AttrObj::OperandSegmentSizes(OperandSegmentSizesAttr(sizes)),
        rest,
    ))
}

// Given names as an attribute.
fn read_names_attr<D: OpSet>(alloc: Global, bytes: &[u8]) -> Result<(AttrObj<D>, &[u8]), Stop>
    ensures { Gives (λ x. (attr_view x.0, x.1.now)) result (read_as (λ w. leaf (given_names w))
        (items_at 91 93 given_name_at bytes.now)) }
{
    let (names, rest) = read_given_names(alloc, bytes)?;
    Ok((AttrObj::GivenNames(GivenNamesAttr::from_names(names)), rest))
}

// An integer, with at most this many levels in it.
fn read_integer_attr<'a, D: OpSet, C: TypeStore<D>>(
    ctx: &mut C,
    levels: usize,
    bytes: &'a [u8],
) -> Result<(AttrObj<D>, &'a [u8]), Stop>
    ensures read { ReadsFirst (IsMeantBy (C.types ctx.new)) result (attr_body levels (attr_at levels) AttrKind.Integer
        bytes.now) }
    ensures kept { Adds C.types C.same_besides (IsBehindId levels AttrKind.Integer bytes.now) ctx.old ctx.new }
{
    let ((ty, value), rest) = read_value(levels, bytes)?;
    let handle = IntegerType::get(ctx, ty.1, ty.0)?;
    Ok((AttrObj::Integer(IntegerAttr::new(handle, value)), rest))
}

// A type as an attribute, with at most this many levels in it.
fn read_type_attr<'a, D: OpSet, C: TypeStore<D>>(
    alloc: Global,
    ctx: &mut C,
    levels: usize,
    bytes: &'a [u8],
) -> Result<(AttrObj<D>, &'a [u8]), Stop>
    ensures read { ReadsFirst (IsMeantBy (C.types ctx.new)) result (attr_body levels (attr_at levels) AttrKind.TypeOf
        bytes.now) }
    ensures kept { Adds C.types C.same_besides (IsBehindId levels AttrKind.TypeOf bytes.now) ctx.old ctx.new }
{
    match read_type_at(alloc, ctx, levels, bytes) {
        Ok(read) => Ok((AttrObj::Type(TypeAttr::new(read.0)), read.1)),
        Err(stop) => Err(stop),
    }
}

// A key and its attribute.
#[cycle(attrs)]
#[tactic(auto, unfolding(crate::specs::AttrReading::entry_at))]
fn read_entry<'a, D: OpSet, C: TypeStore<D>>(
    alloc: Global,
    ctx: &mut C,
    levels: usize,
    bytes: &'a [u8],
) -> Result<((Identifier, AttrObj<D>), &'a [u8]), Stop>
    ensures read { ReadsFirst (IsEntryMeantBy (C.types ctx.new)) result (entry_at (attr_at levels) bytes.now) }
    ensures kept { Adds C.types C.same_besides (IsInEntry (IsInAttr levels) bytes.now) ctx.old ctx.new }
{
    let (key, rest) = read_name(alloc, bytes)?;
    let behind = read_sign(rest, b'=')?;
    match read_attr_at(alloc, ctx, levels, behind) {
        Ok(read) => Ok(((key, read.0), read.1)),
        Err(stop) => Err(stop),
    }
}

// The dictionary of entries, sorted once.
fn dictionary_of<D: OpSet>(
    alloc: Global,
    entries: Vec<(Identifier, AttrObj<D>)>,
) -> Result<AttributeDict<D>, Memory>
    ensures { IfOk result (λ d. d ≡ dict_of (pairs_view entries.items)) }
{
    let dict = DictAttr::new(alloc, entries)?;
    Ok(dict.0)
}

// Entries in brackets; of a key that comes again the last counts.
#[cycle(attrs)]
pub fn read_entries<'a, D: OpSet, C: TypeStore<D>>(
    alloc: Global,
    ctx: &mut C,
    levels: usize,
    bytes: &'a [u8],
) -> Result<(AttributeDict<D>, &'a [u8]), Stop>
    ensures read { ReadsFirst (λ es ts. IsDictMeant (C.types ctx.new) (entries_of ts) es) result
        (items_at 91 93 (entry_at (attr_at levels)) bytes.now) }
    ensures kept { Adds C.types C.same_besides (IsBehindId levels AttrKind.Dict bytes.now) ctx.old ctx.new }
{
    let start = read_sign(bytes, b'[')?;
    let mut entries = Vec::new(alloc);
    if let Some(rest) = past_sign(start, b']') {
        return Ok((AttributeDict::new(alloc), rest));
    }
    let mut rest = start;
    'entries: loop {
        let ((key, value), after) = match read_entry(alloc, ctx, levels, rest) {
            Ok(read) => read,
            Err(stop) => return Err(stop),
        };
        entries.push((key, value))?;
        let (goes_on, behind) = read_separator(after, b']')?;
        if goes_on {
            rest = behind;
        } else {
            return Ok((dictionary_of(alloc, entries)?, behind));
        }
    }
}

// Attributes in brackets.
#[cycle(attrs)]
fn read_items<'a, D: OpSet, C: TypeStore<D>>(
    alloc: Global,
    ctx: &mut C,
    levels: usize,
    bytes: &'a [u8],
) -> Result<(Vec<AttrObj<D>>, &'a [u8]), Stop>
    ensures read { ReadsFirst (λ xs ts. AreMeantBy (C.types ctx.new) xs.items ts) result
        (items_at 91 93 (attr_at levels) bytes.now) }
    ensures kept { Adds C.types C.same_besides (IsBehindId levels AttrKind.Vec bytes.now) ctx.old ctx.new }
{
    let start = read_sign(bytes, b'[')?;
    let mut items = Vec::new(alloc);
    if let Some(rest) = past_sign(start, b']') {
        return Ok((items, rest));
    }
    let mut rest = start;
    'items: loop {
        let (item, after) = match read_attr_at(alloc, ctx, levels, rest) {
            Ok(read) => read,
            Err(stop) => return Err(stop),
        };
        items.push(item)?;
        let (goes_on, behind) = read_separator(after, b']')?;
        if goes_on {
            rest = behind;
        } else {
            return Ok((items, behind));
        }
    }
}

// A dictionary, with at most this many levels in it.
#[cycle(attrs)]
fn read_dict_attr<'a, D: OpSet, C: TypeStore<D>>(
    alloc: Global,
    ctx: &mut C,
    levels: usize,
    bytes: &'a [u8],
) -> Result<(AttrObj<D>, &'a [u8]), Stop>
    ensures read { ReadsFirst (IsMeantBy (C.types ctx.new)) result (attr_body levels (attr_at levels) AttrKind.Dict
        bytes.now) }
    ensures kept { Adds C.types C.same_besides (IsBehindId levels AttrKind.Dict bytes.now) ctx.old ctx.new }
{
    match read_entries(alloc, ctx, levels, bytes) {
        Ok(read) => Ok((AttrObj::Dict(DictAttr(read.0)), read.1)),
        Err(stop) => Err(stop),
    }
}

// A list, with at most this many levels in it.
#[cycle(attrs)]
fn read_list_attr<'a, D: OpSet, C: TypeStore<D>>(
    alloc: Global,
    ctx: &mut C,
    levels: usize,
    bytes: &'a [u8],
) -> Result<(AttrObj<D>, &'a [u8]), Stop>
    ensures read { ReadsFirst (IsMeantBy (C.types ctx.new)) result (attr_body levels (attr_at levels) AttrKind.Vec
        bytes.now) }
    ensures kept { Adds C.types C.same_besides (IsBehindId levels AttrKind.Vec bytes.now) ctx.old ctx.new }
{
    match read_items(alloc, ctx, levels, bytes) {
        Ok(read) => Ok((AttrObj::Vec(VecAttr::new(read.0)), read.1)),
        Err(stop) => Err(stop),
    }
}

// An attribute, with at most this many levels open.
#[cycle(attrs)]
#[tactic(auto, unfolding(crate::specs::AttrReading::attr_at))]
pub fn read_attr_at<'a, D: OpSet, C: TypeStore<D>>(
    alloc: Global,
    ctx: &mut C,
    levels: usize,
    bytes: &'a [u8],
) -> Result<(AttrObj<D>, &'a [u8]), Stop>
    ensures read { ReadsFirst (IsMeantBy (C.types ctx.new)) result (attr_at levels bytes.now) }
    ensures kept { Adds C.types C.same_besides (IsInAttr levels bytes.now) ctx.old ctx.new }
{
    begin_level(levels, bytes)?;
    let (kind, rest) = read_attr_head(bytes)?;
    match kind {
        AttrKind::Identifier => read_identifier_attr(alloc, rest),
        AttrKind::String => read_string_attr(alloc, rest),
        AttrKind::Bool => read_bool_attr(rest),
        AttrKind::Integer => read_integer_attr(ctx, levels - 1, rest),
        AttrKind::Dict => read_dict_attr(alloc, ctx, levels - 1, rest),
        AttrKind::Vec => read_list_attr(alloc, ctx, levels - 1, rest),
        AttrKind::Unit => Ok((AttrObj::Unit(UnitAttr::new()), rest)),
        AttrKind::TypeOf => read_type_attr(alloc, ctx, levels - 1, rest),
        AttrKind::OperandSegmentSizes => read_sizes_attr(alloc, rest),
        AttrKind::GivenNames => read_names_attr(alloc, rest),
    }
}
