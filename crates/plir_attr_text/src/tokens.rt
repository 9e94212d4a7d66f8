//! The tokens of a text.

ghost use Rattle.std.specs.Prelude.{◌≡◌, ◌≤◌, ◌^◌, ◌+◌, ◌-◌, ◌*◌, ◌≢◌, MatchOption, IfErr, nat_eq};
ghost use Rattle.plir_attr_text.specs.declared.fault.Stop.TheVariants.{OutOfMemory};
ghost use Rattle.plir_attr_text.specs.Bytes.{is_blank, is_in_name, front, past, word_past, begins, all_pass};
ghost use Rattle.plir_attr_text.specs.Bytes.{value_after};
ghost use Rattle.plir_attr_text.specs.{Tokens.look, Tokens.token_at, Tokens.is_mark, Pieces.token_of, Reading.Gives};
ghost use Rattle.plir_data.specs.Identifier.{is_letter, is_digit};

use crate::fault::{Fault, Stop};

// A token, as it stands in the text.
#[derive(Clone, Copy)]
pub enum Piece<'a> {
    Word(&'a [u8]),
    Digits(&'a [u8]),
    Signed(bool, &'a [u8]),
    Arrow,
    Sign(u8),
}

pub fn is_letter(byte: u8) -> bool
    ensures { result ≡ is_letter byte }
{
    matches!(byte, b'a'..=b'z' | b'A'..=b'Z' | b'_')
}

pub fn is_digit(byte: u8) -> bool
    ensures { result ≡ is_digit byte }
{
    matches!(byte, b'0'..=b'9')
}

fn is_blank(byte: u8) -> bool
    ensures { result ≡ is_blank byte }
{
    byte == b' ' || byte == b'\t' || byte == b'\n' || byte == b'\r'
}

fn is_in_name(byte: u8) -> bool
    ensures { result ≡ is_in_name byte }
{
    is_letter(byte) || is_digit(byte)
}

fn is_mark(byte: u8) -> bool
    ensures { result ≡ is_mark byte }
{
    byte == b'-' || byte == b'+'
}

// What stands behind white space.
pub fn past_blank(bytes: &[u8]) -> &[u8]
    ensures { result.now ≡ past is_blank bytes.now }
{
    let mut rest = bytes;
    while let [byte, tail @ ..] = rest {
        if !is_blank(*byte) {
            break;
        }
        rest = tail;
    }
    rest
}

fn past_name(bytes: &[u8]) -> &[u8]
    ensures { result.now ≡ past is_in_name bytes.now }
{
    let mut rest = bytes;
    while let [byte, tail @ ..] = rest {
        if !is_in_name(*byte) {
            break;
        }
        rest = tail;
    }
    rest
}

// What stands behind a word: an id has one point and a name behind it, so another point is no part of a word.
fn past_word(bytes: &[u8]) -> &[u8]
    ensures { result.now ≡ word_past bytes.now }
{
    let mut rest = bytes;
    while let [byte, tail @ ..] = rest {
        if !is_in_name(*byte) {
            let goes_on = *byte == b'.' && begins_letter(tail);
            return if goes_on { past_name(tail) } else { rest };
        }
        rest = tail;
    }
    rest
}

pub fn past_digits(bytes: &[u8]) -> &[u8]
    ensures { result.now ≡ past is_digit bytes.now }
{
    let mut rest = bytes;
    while let [byte, tail @ ..] = rest {
        if !is_digit(*byte) {
            break;
        }
        rest = tail;
    }
    rest
}

// The digits at the front.
pub fn front_digits(bytes: &[u8]) -> &[u8]
    ensures { result.now ≡ front is_digit bytes.now }
{
    let rest = past_digits(bytes);
    &bytes[..bytes.len() - rest.len()]
}

pub fn begins_digit(bytes: &[u8]) -> bool
    ensures { result ≡ begins is_digit bytes.now }
{
    match bytes {
        [] => false,
        [byte, ..] => is_digit(*byte),
    }
}

pub fn begins_letter(bytes: &[u8]) -> bool
    ensures { result ≡ begins is_letter bytes.now }
{
    match bytes {
        [] => false,
        [byte, ..] => is_letter(*byte),
    }
}

pub fn begins_byte(bytes: &[u8], sign: u8) -> bool
    ensures { result ≡ begins (λ c. nat_eq c sign) bytes.now }
{
    match bytes {
        [] => false,
        [byte, ..] => *byte == sign,
    }
}

// How many bytes are left where the next token begins.
pub fn left_at(bytes: &[u8]) -> usize {
    past_blank(bytes).len()
}

// Whether a text ends at a point, or before one.
pub fn ends_at_point(rest: &[u8]) -> bool {
    rest.is_empty() || rest == b".".as_slice()
}

// How many bytes are left where a word has its fault that is no id which may come there, with `rest` behind it and
// `left` where it stands: where the text is cut in the id the fault stands at the text's end, else at the word's first
// character.
pub fn unread_id_at(word: &[u8], rest: &[u8], left: usize) -> usize {
    if ends_at_point(rest) && !word.contains(&b'.') {
        0
    } else {
        left
    }
}

// How many bytes are left where a token has its fault that is no `->`: at the text's end, if that is cut behind the
// `-`.
pub fn unread_arrow_at(bytes: &[u8]) -> usize {
    let rest = past_blank(bytes);
    if rest == b"-".as_slice() {
        0
    } else {
        rest.len()
    }
}

// The token that begins at the first byte, and what stands behind it.
pub fn token_at(bytes: &[u8]) -> Result<(Piece<'_>, &[u8]), Stop>
    ensures found { Gives (λ x. (token_of x.0, x.1.now)) result (token_at bytes.now) }
    ensures steady { IfErr result (λ stop. stop ≢ OutOfMemory) }
{
    let [first, more @ ..] = bytes else {
        return Err(Stop::At(Fault::Unexpected, 0));
    };
    if is_letter(*first) {
        let rest = past_word(more);
        let word = &bytes[..bytes.len() - rest.len()];
        Ok((Piece::Word(word), rest))
    } else if is_digit(*first) {
        Ok((Piece::Digits(front_digits(bytes)), past_digits(bytes)))
    } else if is_mark(*first) && begins_digit(more) {
        Ok((
            Piece::Signed(*first == b'-', front_digits(more)),
            past_digits(more),
        ))
    } else if *first == b'-' && begins_byte(more, b'>') {
        Ok((Piece::Arrow, &more[1..]))
    } else {
        Ok((Piece::Sign(*first), more))
    }
}

// The first token, and what stands behind it.
#[tactic(auto, unfolding(crate::specs::Tokens::look))]
pub fn look(bytes: &[u8]) -> Result<(Piece<'_>, &[u8]), Stop>
    ensures found { Gives (λ x. (token_of x.0, x.1.now)) result (look bytes.now) }
    ensures steady { IfErr result (λ stop. stop ≢ OutOfMemory) }
{
    token_at(past_blank(bytes))
}

// Whether these are digits alone.
pub fn all_digits(bytes: &[u8]) -> bool
    ensures { result ≡ all_pass is_digit bytes.now }
{
    let mut rest = bytes;
    while let [byte, tail @ ..] = rest {
        if !is_digit(*byte) {
            return false;
        }
        rest = tail;
    }
    true
}

// The number that digits write, below two to the power of 64.
pub fn magnitude(digits: &[u8]) -> Option<u64>
    ensures { MatchOption result (2 ^ 64 ≤ value_after 0 digits.now) (λ n. n ≡ value_after 0 digits.now) }
{
    let mut number: u64 = 0;
    let mut rest = digits;
    while let [digit, tail @ ..] = rest {
        let Some(more) = with_digit(number, *digit) else {
            return None;
        };
        number = more;
        rest = tail;
    }
    Some(number)
}

fn with_digit(number: u64, digit: u8) -> Option<u64>
    ensures { MatchOption result (2 ^ 64 ≤ 10 * number + (digit - 48)) (λ m. m ≡ 10 * number + (digit - 48)) }
{
    number
        .checked_mul(10)?
        .checked_add(u64::from(digit.saturating_sub(48)))
}
