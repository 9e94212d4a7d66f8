//! The parts of attributes that hold no other.

ghost use Rattle.std.specs.Prelude.{◌≡◌, ◌≤◌, ◌^◌, ◌⊎◌, IfOk, IfErr, true, false, string_bytes};
ghost use Rattle.plir_attr_text.specs.declared.fault.Stop.TheVariants.{OutOfMemory, At};
ghost use Rattle.plir_attr_text.specs.AttrReading.{attr_kind, attr_head, name_at, bool_at, text_at, size_at};
ghost use Rattle.plir_attr_text.specs.AttrReading.{given_name_at, literal_at, bits_of, value_of, value_at};
ghost use Rattle.plir_attr_text.specs.{Bytes.value_after, Reading.Gives, Lists.items_at};
ghost use Rattle.plir_data.specs.Identifier.{is_identifier};

use crate::fault::{Fault, Stop};
use crate::strings::{read_quoted, text_of};
use crate::tokens::{Piece, left_at, look, magnitude, unread_id_at};
use crate::words::{begin_level, past_sign, read_integer, read_separator, read_sign, read_word};
use plir_data::{APInt, Identifier, IdentifierErr, Signedness};
use std::alloc::Global;

// What the id of an attribute names.
#[derive(Clone, Copy)]
pub enum AttrKind {
    Identifier,
    String,
    Bool,
    Integer,
    Dict,
    Vec,
    Unit,
    TypeOf,
    OperandSegmentSizes,
    GivenNames,
}

// What the id of an attribute names, with `rest` behind it and this many bytes left where it stands.
#[tactic(auto, unfolding(crate::specs::AttrReading::attr_kind))]
fn attr_kind(word: &[u8], rest: &[u8], left: usize) -> Result<AttrKind, Stop>
    ensures { Gives (λ k. k) result (attr_kind word.now) }
{
    if word == b"builtin.identifier".as_slice() {
        Ok(AttrKind::Identifier)
    } else if word == b"builtin.string".as_slice() {
        Ok(AttrKind::String)
    } else if word == b"builtin.bool".as_slice() {
        Ok(AttrKind::Bool)
    } else if word == b"builtin.integer".as_slice() {
        Ok(AttrKind::Integer)
    } else if word == b"builtin.dict".as_slice() {
        Ok(AttrKind::Dict)
    } else if word == b"builtin.vec".as_slice() {
        Ok(AttrKind::Vec)
    } else if word == b"builtin.unit".as_slice() {
        Ok(AttrKind::Unit)
    } else if word == b"builtin.type".as_slice() {
        Ok(AttrKind::TypeOf)
    } else if word == b"builtin.operand_segment_sizes".as_slice() {
        Ok(AttrKind::OperandSegmentSizes)
    } else if word == b"builtin.given_names".as_slice() {
        Ok(AttrKind::GivenNames)
    } else {
        Err(Stop::At(Fault::Unexpected, unread_id_at(word, rest, left)))
    }
}

// The id of an attribute.
#[tactic(auto, unfolding(crate::specs::AttrReading::attr_head))]
pub fn read_attr_head(bytes: &[u8]) -> Result<(AttrKind, &[u8]), Stop>
    ensures { Gives (λ x. (x.0, x.1.now)) result (attr_head bytes.now) }
{
    let (word, rest) = read_word(bytes)?;
    let kind = attr_kind(word, rest, left_at(bytes))?;
    Ok((kind, rest))
}

// The identifier of a word, with this many bytes left where it stands.
pub fn identifier_of(alloc: Global, word: &[u8], left: usize) -> Result<Identifier, Stop>
    ensures made { IfOk result (λ i. i ≡ word.now) }
    ensures formed { IfOk result (λ i. is_identifier word.now ≡ true) }
    ensures refused { IfErr result (λ stop. (stop ≡ OutOfMemory) ⊎ ((stop ≡ At Fault.Unexpected left) ×
        (is_identifier word.now ≡ false))) }
{
    let Ok(text) = str::from_utf8(word) else {
        return Err(Stop::At(Fault::Unexpected, left));
    };
    match Identifier::try_new(alloc, text) {
        Ok(name) => Ok(name),
        Err(IdentifierErr::Malformed) => Err(Stop::At(Fault::Unexpected, left)),
        Err(IdentifierErr::Memory) => Err(Stop::OutOfMemory),
    }
}

// An identifier.
#[tactic(auto, unfolding(crate::specs::AttrReading::name_at))]
pub fn read_name(alloc: Global, bytes: &[u8]) -> Result<(Identifier, &[u8]), Stop>
    ensures { Gives (λ x. (x.0, x.1.now)) result (name_at bytes.now) }
{
    let (word, rest) = read_word(bytes)?;
    let name = identifier_of(alloc, word, left_at(bytes))?;
    Ok((name, rest))
}

// A truth value.
#[tactic(auto, unfolding(crate::specs::AttrReading::bool_at))]
pub fn read_bool(bytes: &[u8]) -> Result<(bool, &[u8]), Stop>
    ensures { Gives (λ x. (x.0, x.1.now)) result (bool_at bytes.now) }
{
    let (word, rest) = read_word(bytes)?;
    if word == b"true".as_slice() {
        Ok((true, rest))
    } else if word == b"false".as_slice() {
        Ok((false, rest))
    } else {
        Err(Stop::At(Fault::Unexpected, left_at(bytes)))
    }
}

// A string.
#[tactic(auto, unfolding(crate::specs::AttrReading::text_at))]
pub fn read_text(alloc: Global, bytes: &[u8]) -> Result<(String, &[u8]), Stop>
    ensures { Gives (λ x. (string_bytes x.0, x.1.now)) result (text_at bytes.now) }
{
    let inside = read_sign(bytes, b'"')?;
    let (content, rest) = read_quoted(alloc, inside)?;
    let Some(text) = text_of(content) else {
        return Err(Stop::At(Fault::Unexpected, left_at(bytes)));
    };
    Ok((text, rest))
}

// The size of a segment.
#[tactic(auto, unfolding(crate::specs::AttrReading::size_at))]
fn read_size(bytes: &[u8]) -> Result<(u32, &[u8]), Stop>
    ensures { Gives (λ x. (x.0, x.1.now)) result (size_at bytes.now) }
{
    let (piece, rest) = look(bytes)?;
    let Piece::Digits(digits) = piece else {
        return Err(Stop::At(Fault::Unexpected, left_at(bytes)));
    };
    match magnitude(digits) {
        Some(size) if size < 0x1_0000_0000 => Ok((size as u32, rest)),
        _ => Err(Stop::At(Fault::IntegerOutOfRange, left_at(bytes))),
    }
}

// A given name, or none at `?`.
#[tactic(auto, unfolding(crate::specs::AttrReading::given_name_at))]
fn read_given_name(alloc: Global, bytes: &[u8]) -> Result<(Option<Identifier>, &[u8]), Stop>
    ensures { Gives (λ x. (x.0, x.1.now)) result (given_name_at bytes.now) }
{
    if let Some(rest) = past_sign(bytes, b'?') {
        return Ok((None, rest));
    }
    let (name, rest) = read_name(alloc, bytes)?;
    Ok((Some(name), rest))
}

// Sizes of segments in brackets.
pub fn read_sizes(alloc: Global, bytes: &[u8]) -> Result<(Vec<u32>, &[u8]), Stop>
    ensures { Gives (λ x. (x.0.items, x.1.now)) result (items_at 91 93 size_at bytes.now) }
{
    let start = read_sign(bytes, b'[')?;
    let mut sizes = Vec::new(alloc);
    if let Some(rest) = past_sign(start, b']') {
        return Ok((sizes, rest));
    }
    let mut rest = start;
    'sizes: loop {
        let (size, after) = read_size(rest)?;
        sizes.push(size)?;
        let (goes_on, behind) = read_separator(after, b']')?;
        if goes_on {
            rest = behind;
        } else {
            return Ok((sizes, behind));
        }
    }
}

// Given names in brackets.
pub fn read_given_names(
    alloc: Global,
    bytes: &[u8],
) -> Result<(Vec<Option<Identifier>>, &[u8]), Stop>
    ensures { Gives (λ x. (x.0.items, x.1.now)) result (items_at 91 93 given_name_at bytes.now) }
{
    let start = read_sign(bytes, b'[')?;
    let mut names = Vec::new(alloc);
    if let Some(rest) = past_sign(start, b']') {
        return Ok((names, rest));
    }
    let mut rest = start;
    'names: loop {
        let (name, after) = read_given_name(alloc, rest)?;
        names.push(name)?;
        let (goes_on, behind) = read_separator(after, b']')?;
        if goes_on {
            rest = behind;
        } else {
            return Ok((names, behind));
        }
    }
}

// A literal: whether it is negative, and its digits.
#[tactic(auto, unfolding(crate::specs::AttrReading::literal_at))]
fn read_literal(bytes: &[u8]) -> Result<((bool, &[u8]), &[u8]), Stop>
    ensures { Gives (λ x. ((x.0.0, value_after 0 x.0.1.now), x.1.now)) result (literal_at bytes.now) }
{
    let (piece, rest) = look(bytes)?;
    match piece {
        Piece::Digits(digits) => Ok(((false, digits), rest)),
        Piece::Signed(negative, digits) => Ok(((negative, digits), rest)),
        _ => Err(Stop::At(
            Fault::Unexpected,
            left_at(bytes).saturating_sub(mark_length(piece)),
        )),
    }
}

// How many bytes a sign takes that has no digits behind it.
fn mark_length(piece: Piece<'_>) -> usize {
    match piece {
        Piece::Arrow => 1,
        Piece::Sign(byte) => { if byte == b'-' || byte == b'+' { 1 } else { 0 } }
        _ => 0,
    }
}

// Two to a width.
fn two_to(width: u32) -> u128
    requires { width ≤ 64 }
    ensures { result ≡ 2 ^ width }
{
    1u128 << width
}

// The bits of a literal in a width, with this many bytes left where the literal stands.
#[tactic(auto, unfolding(crate::specs::AttrReading::bits_of))]
fn bits_of(negative: bool, digits: &[u8], width: u32, left: usize) -> Result<u64, Stop>
    requires some { 1 ≤ width }
    requires few { width ≤ 64 }
    ensures { Gives (λ x. x) result (bits_of negative (value_after 0 digits.now) width) }
{
    let Some(number) = magnitude(digits) else {
        return Err(Stop::At(Fault::IntegerOutOfRange, left));
    };
    let number = u128::from(number);
    let all = two_to(width);
    if negative {
        if number > two_to(width - 1) {
            return Err(Stop::At(Fault::IntegerOutOfRange, left));
        }
        Ok(((all - number) % all) as u64)
    } else {
        if number >= all {
            return Err(Stop::At(Fault::IntegerOutOfRange, left));
        }
        Ok(number as u64)
    }
}

// The value of a literal in a width, with this many bytes left where the type and the literal stand.
#[tactic(auto, unfolding(crate::specs::AttrReading::value_of))]
fn value_of(
    negative: bool,
    digits: &[u8],
    width: u32,
    type_left: usize,
    left: usize,
) -> Result<APInt, Stop>
    ensures value { Gives (λ n. n.bits) result (value_of negative (value_after 0 digits.now) width) }
    ensures width { IfOk result (λ n. n.width ≡ width) }
{
    if width < 1 || width > 64 {
        return Err(Stop::At(Fault::IntegerWidthUnsupported, type_left));
    }
    let bits = bits_of(negative, digits, width, left)?;
    let Some(value) = APInt::from_u64(bits, width) else {
        return Err(Stop::At(Fault::IntegerWidthUnsupported, type_left));
    };
    Ok(value)
}

// `<V: T>`: the type, which is a level, and the value, with at most this many levels in it.
#[tactic(auto, unfolding(crate::specs::AttrReading::value_at))]
pub fn read_value(levels: usize, bytes: &[u8]) -> Result<(((Signedness, u32), APInt), &[u8]), Stop>
    ensures value { Gives (λ x. ((x.0.0, x.0.1.bits), x.1.now)) result (value_at levels bytes.now) }
    ensures width { IfOk result (λ x. x.0.1.width ≡ x.0.0.1) }
{
    let start = read_sign(bytes, b'<')?;
    let ((negative, digits), rest) = read_literal(start)?;
    let colon = read_sign(rest, b':')?;
    begin_level(levels, colon)?;
    let (ty, rest) = read_integer(colon)?;
    let end = read_sign(rest, b'>')?;
    let value = value_of(negative, digits, ty.1, left_at(colon), left_at(start))?;
    Ok(((ty, value), end))
}
