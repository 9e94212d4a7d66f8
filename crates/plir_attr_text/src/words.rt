//! Words, signs and lists' separators.

ghost use Rattle.std.specs.Prelude.{◌≡◌, ◌≤◌, OnOk, option_map, nat_eq};
ghost use Rattle.plir_attr_text.specs.Lists.{is_sign, sign_at, past_sign, separator_at};
ghost use Rattle.plir_attr_text.specs.TypeReading.{word_at, arrow_at, type_kind, width_of, integer_of, integer_at};
ghost use Rattle.plir_attr_text.specs.TypeReading.{type_head};
ghost use Rattle.plir_attr_text.specs.{Pieces.token_of, Reading.Gives, Levels.if_level, Levels.level_at};

use crate::fault::{Fault, Stop};
use crate::tokens::{
    Piece, all_digits, begins_byte, begins_digit, begins_letter, front_digits, left_at, look,
    magnitude, past_blank, token_at, unread_arrow_at, unread_id_at,
};
use plir_data::Signedness;

// What the id of a type names.
#[derive(Clone, Copy)]
pub enum TypeKind {
    Integer,
    Function,
    Unit,
}

// The first word.
#[tactic(auto, unfolding(crate::specs::TypeReading::word_at))]
pub fn read_word(bytes: &[u8]) -> Result<(&[u8], &[u8]), Stop>
    ensures { Gives (λ x. (x.0.now, x.1.now)) result (word_at bytes.now) }
{
    let (piece, rest) = look(bytes)?;
    match piece {
        Piece::Word(word) => Ok((word, rest)),
        _ => Err(Stop::At(Fault::Unexpected, left_at(bytes))),
    }
}

// One level more is left, which begins here.
#[tactic(auto, unfolding(crate::specs::Levels::if_level))]
fn if_level(levels: usize, bytes: &[u8]) -> Result<(), Stop>
    ensures read { Gives (λ u. u) result (if_level levels) }
    ensures some { OnOk result (1 ≤ levels) }
{
    if levels < 1 {
        return Err(Stop::At(Fault::TooDeep, left_at(bytes)));
    }
    Ok(())
}

// A level begins with the word that comes, and one more is left.
#[tactic(auto, unfolding(crate::specs::Levels::level_at))]
pub fn begin_level(levels: usize, bytes: &[u8]) -> Result<(), Stop>
    ensures read { Gives (λ u. u) result (level_at levels bytes.now) }
    ensures some { OnOk result (1 ≤ levels) }
{
    let rest = past_blank(bytes);
    if !begins_letter(rest) {
        return Err(Stop::At(Fault::Unexpected, rest.len()));
    }
    if_level(levels, rest)
}

fn is_sign(piece: Piece<'_>, sign: u8) -> bool
    ensures { result ≡ is_sign sign (token_of piece.entry) }
{
    match piece {
        Piece::Sign(byte) => byte == sign,
        _ => false,
    }
}

// What stands behind a sign.
#[tactic(auto, unfolding(crate::specs::Lists::sign_at))]
pub fn read_sign(bytes: &[u8], sign: u8) -> Result<&[u8], Stop>
    ensures { Gives (λ x. x.now) result (sign_at sign bytes.now) }
{
    let (piece, rest) = look(bytes)?;
    if !is_sign(piece, sign) {
        return Err(Stop::At(Fault::Unexpected, left_at(bytes)));
    }
    Ok(rest)
}

// What stands behind `->`.
#[tactic(auto, unfolding(crate::specs::TypeReading::arrow_at))]
pub fn read_arrow(bytes: &[u8]) -> Result<&[u8], Stop>
    ensures { Gives (λ x. x.now) result (arrow_at bytes.now) }
{
    let (piece, rest) = look(bytes)?;
    match piece {
        Piece::Arrow => Ok(rest),
        _ => Err(Stop::At(Fault::Unexpected, unread_arrow_at(bytes))),
    }
}

// What stands behind a sign, if it comes next.
#[tactic(auto, unfolding(crate::specs::Lists::past_sign, crate::specs::Tokens::look))]
pub fn past_sign(bytes: &[u8], sign: u8) -> Option<&[u8]>
    ensures { option_map (λ x. x.now) result ≡ past_sign sign bytes.now }
{
    let rest = past_blank(bytes);
    if !begins_byte(rest, sign) {
        return None;
    }
    match token_at(rest) {
        Ok((piece, behind)) => {
            if is_sign(piece, sign) {
                Some(behind)
            } else {
                None
            }
        }
        Err(_) => None,
    }
}

// What stands behind an item, and whether a comma is in between, after which the list goes on.
#[tactic(auto, unfolding(crate::specs::Lists::separator_at))]
pub fn read_separator(bytes: &[u8], close: u8) -> Result<(bool, &[u8]), Stop>
    ensures { Gives (λ x. (x.0, x.1.now)) result (separator_at close bytes.now) }
{
    let (piece, rest) = look(bytes)?;
    if is_sign(piece, close) {
        Ok((false, rest))
    } else if is_sign(piece, b',') {
        Ok((true, rest))
    } else {
        Err(Stop::At(Fault::Unexpected, left_at(bytes)))
    }
}

// What the id of a type names, with `rest` behind it and this many bytes left where it stands.
#[tactic(auto, unfolding(crate::specs::TypeReading::type_kind))]
fn type_kind(word: &[u8], rest: &[u8], left: usize) -> Result<TypeKind, Stop>
    ensures { Gives (λ k. k) result (type_kind word.now) }
{
    if word == b"builtin.integer".as_slice() {
        Ok(TypeKind::Integer)
    } else if word == b"builtin.function".as_slice() {
        Ok(TypeKind::Function)
    } else if word == b"builtin.unit".as_slice() {
        Ok(TypeKind::Unit)
    } else {
        Err(Stop::At(Fault::Unexpected, unread_id_at(word, rest, left)))
    }
}

// The id of a type.
#[tactic(auto, unfolding(crate::specs::TypeReading::type_head))]
pub fn read_type_head(bytes: &[u8]) -> Result<(TypeKind, &[u8]), Stop>
    ensures { Gives (λ x. (x.0, x.1.now)) result (type_head bytes.now) }
{
    let (word, rest) = read_word(bytes)?;
    let kind = type_kind(word, rest, left_at(bytes))?;
    Ok((kind, rest))
}

// A width, with this many bytes left where its digits begin.
#[tactic(auto, unfolding(crate::specs::TypeReading::width_of))]
fn width_of(signedness: Signedness, word: &[u8], left: usize) -> Result<(Signedness, u32), Stop>
    ensures { Gives (λ x. x) result (width_of signedness word.now) }
{
    if !begins_digit(word) {
        return Err(Stop::At(Fault::Unexpected, left));
    }
    let digits = front_digits(word);
    match magnitude(digits) {
        Some(width) if width < 0x1_0000_0000 => {
            if !all_digits(word) {
                let behind = left.saturating_sub(digits.len());
                return Err(Stop::At(Fault::Unexpected, behind));
            }
            Ok((signedness, width as u32))
        }
        _ => Err(Stop::At(Fault::IntegerOutOfRange, left)),
    }
}

// A word that is an integer type without its id, with this many bytes left where it stands.
#[tactic(auto, unfolding(crate::specs::TypeReading::integer_of))]
fn integer_of(word: &[u8], left: usize) -> Result<(Signedness, u32), Stop>
    ensures { Gives (λ x. x) result (integer_of word.now) }
{
    match word {
        [] => Err(Stop::At(Fault::Unexpected, left)),
        [letter] => Err(Stop::At(Fault::Unexpected, unread_letter_at(*letter, left))),
        [first, second, digits @ ..] => {
            if *first == b'i' {
                width_of(Signedness::Signless, &word[1..], left.saturating_sub(1))
            } else if *second != b'i' {
                Err(Stop::At(Fault::Unexpected, left))
            } else if *first == b's' {
                width_of(Signedness::Signed, digits, left.saturating_sub(2))
            } else if *first == b'u' {
                width_of(Signedness::Unsigned, digits, left.saturating_sub(2))
            } else {
                Err(Stop::At(Fault::Unexpected, left))
            }
        }
    }
}

// How many bytes are left where an integer type has its fault that is one letter alone, with `left` where it stands:
// behind an
// `i`, where its digits are wanting; at the text's end, if that is cut in `si` or `ui`.
fn unread_letter_at(letter: u8, left: usize) -> usize {
    if letter == b'i' || (left == 1 && (letter == b's' || letter == b'u')) {
        left.saturating_sub(1)
    } else {
        left
    }
}

// An integer type without its id.
#[tactic(auto, unfolding(crate::specs::TypeReading::integer_at))]
pub fn read_integer(bytes: &[u8]) -> Result<((Signedness, u32), &[u8]), Stop>
    ensures { Gives (λ x. (x.0, x.1.now)) result (integer_at bytes.now) }
{
    let (word, rest) = read_word(bytes)?;
    let ty = integer_of(word, left_at(bytes))?;
    Ok((ty, rest))
}
