//! Strings: what stands between two `"`, with escapes.

ghost use Rattle.std.specs.Prelude.{◌≡◌, ◌≤◌, ◌<◌, ◌^◌, ◌++◌, ◌+◌, ◌*◌, MatchOption, OnOk, encode_utf8, length};
ghost use Rattle.std.specs.Prelude.{option_map, true, false, string_bytes};
ghost use Rattle.std.specs.Str.{is_utf8};
ghost use Rattle.plir_attr_text.specs.Bytes.{is_hex, front, past, hex_value, hex_after};
ghost use Rattle.plir_attr_text.specs.Strings.{is_code, code_at, escape_at, unit_at, string_at};
ghost use Rattle.plir_attr_text.specs.{Units.bytes_of, Reading.Gives};

use crate::fault::{Fault, Stop};
use crate::tokens::is_digit;
use plir_data::Memory;
use std::alloc::Global;

// One step in a string: a byte that stands for itself, or a character that an escape means.
#[derive(Clone, Copy)]
pub enum Step {
    Byte(u8),
    Char(char),
}

fn is_hex(byte: u8) -> bool
    ensures { result ≡ is_hex byte }
{
    is_digit(byte) || matches!(byte, b'a'..=b'f' | b'A'..=b'F')
}

fn past_hex(bytes: &[u8]) -> &[u8]
    ensures { result.now ≡ past is_hex bytes.now }
{
    let mut rest = bytes;
    while let [byte, tail @ ..] = rest {
        if !is_hex(*byte) {
            break;
        }
        rest = tail;
    }
    rest
}

// The hexadecimal digits at the front.
fn front_hex(bytes: &[u8]) -> &[u8]
    ensures { result.now ≡ front is_hex bytes.now }
{
    let rest = past_hex(bytes);
    &bytes[..bytes.len() - rest.len()]
}

// What a hexadecimal digit counts.
fn hex_value(digit: u8) -> u8
    ensures { result ≡ hex_value digit }
{
    if digit <= b'9' {
        digit.saturating_sub(48)
    } else if digit <= b'F' {
        digit.saturating_sub(55)
    } else {
        digit.saturating_sub(87)
    }
}

// The number that hexadecimal digits write, if it is below two to the power of 32.
fn hex_number(digits: &[u8]) -> Option<u32>
    ensures { MatchOption result (2 ^ 32 ≤ hex_after 0 digits.now) (λ n. n ≡ hex_after 0 digits.now) }
{
    let mut number: u32 = 0;
    let mut rest = digits;
    while let [digit, tail @ ..] = rest {
        let Some(more) = with_hex(number, *digit) else {
            return None;
        };
        number = more;
        rest = tail;
    }
    Some(number)
}

fn with_hex(number: u32, digit: u8) -> Option<u32>
    ensures { MatchOption result (2 ^ 32 ≤ 16 * number + hex_value digit) (λ m. m ≡ 16 * number + hex_value digit) }
{
    number
        .checked_mul(16)?
        .checked_add(u32::from(hex_value(digit)))
}

// The character whose number one to six hexadecimal digits write.
fn code_char(digits: &[u8]) -> Option<char>
    ensures { MatchOption result (is_code digits.now ≡ false) (λ c. (c ≡ hex_after 0 digits.now) ×
        (is_code digits.now ≡ true)) }
{
    if digits.is_empty() || digits.len() > 6 {
        return None;
    }
    char::from_u32(hex_number(digits)?)
}

// What stands behind `\u`, with this many bytes left where the escape begins.
#[tactic(auto, unfolding(crate::specs::Strings::code_at))]
fn read_code(bytes: &[u8], left: usize) -> Result<(char, &[u8]), Stop>
    ensures { Gives (λ x. (x.0, x.1.now)) result (code_at bytes.now) }
{
    let [open, more @ ..] = bytes else {
        return Err(Stop::At(Fault::Unexpected, 0));
    };
    if *open != b'{' {
        return Err(Stop::At(Fault::BadEscape, left));
    }
    let code = code_char(front_hex(more));
    let [close, rest @ ..] = past_hex(more) else {
        return Err(Stop::At(Fault::Unexpected, 0));
    };
    if *close != b'}' {
        return Err(Stop::At(Fault::BadEscape, left));
    }
    match code {
        Some(code) => Ok((code, rest)),
        None => Err(Stop::At(Fault::BadEscape, left)),
    }
}

// What stands behind a `\`, with this many bytes left where that stands.
#[tactic(auto, unfolding(crate::specs::Strings::escape_at))]
fn read_escape(bytes: &[u8], left: usize) -> Result<(char, &[u8]), Stop>
    ensures { Gives (λ x. (x.0, x.1.now)) result (escape_at bytes.now) }
{
    let [byte, rest @ ..] = bytes else {
        return Err(Stop::At(Fault::Unexpected, 0));
    };
    if *byte == b'"' {
        Ok(('"', rest))
    } else if *byte == b'\\' {
        Ok(('\\', rest))
    } else if *byte == b'n' {
        Ok(('\n', rest))
    } else if *byte == b't' {
        Ok(('\t', rest))
    } else if *byte == b'r' {
        Ok(('\r', rest))
    } else if *byte == b'0' {
        Ok(('\0', rest))
    } else if *byte == b'u' {
        read_code(rest, left)
    } else {
        Err(Stop::At(Fault::BadEscape, left))
    }
}

// One step in a string; none at the `"` that ends it.
#[tactic(auto, unfolding(crate::specs::Strings::unit_at))]
fn read_step(bytes: &[u8]) -> Result<(Option<Step>, &[u8]), Stop>
    ensures { Gives (λ x. (option_map bytes_of x.0, x.1.now)) result (unit_at bytes.now) }
{
    let [byte, rest @ ..] = bytes else {
        return Err(Stop::At(Fault::Unexpected, 0));
    };
    if *byte == b'"' {
        Ok((None, rest))
    } else if *byte == b'\\' {
        let (code, behind) = read_escape(rest, bytes.len())?;
        Ok((Some(Step::Char(code)), behind))
    } else {
        Ok((Some(Step::Byte(*byte)), rest))
    }
}

fn put_char(out: &mut Vec<u8>, code: char) -> Result<(), Memory>
    ensures { OnOk result (out.new.items ≡ out.old.items ++ encode_utf8 code) }
{
    let mut buffer = [0; 4];
    let text = code.encode_utf8(&mut buffer);
    out.extend_from_slice(text.as_bytes())?;
    Ok(())
}

fn put_step(out: &mut Vec<u8>, step: Step) -> Result<(), Memory>
    ensures { OnOk result (out.new.items ≡ out.old.items ++ bytes_of step) }
{
    match step {
        Step::Byte(byte) => {
            out.push(byte)?;
            Ok(())
        }
        Step::Char(code) => put_char(out, code),
    }
}

// What is quoted behind a `"`, and what stands behind that.
#[tactic(auto, unfolding(crate::specs::Strings::string_at))]
pub fn read_quoted(alloc: Global, bytes: &[u8]) -> Result<(Vec<u8>, &[u8]), Stop>
    ensures { Gives (λ x. (x.0.items, x.1.now)) result (string_at bytes.now) }
{
    let mut content = Vec::new(alloc);
    let mut rest = bytes;
    'steps: loop {
        let (step, behind) = read_step(rest)?;
        let Some(step) = step else {
            return Ok((content, behind));
        };
        put_step(&mut content, step)?;
        rest = behind;
    }
}

// The text of these bytes, if they are UTF-8.
pub fn text_of(bytes: Vec<u8>) -> Option<String>
    ensures { MatchOption result (is_utf8 bytes.items ≡ false) (λ s. (string_bytes s ≡ bytes.items) ×
        (is_utf8 bytes.items ≡ true)) }
{
    match String::from_utf8(bytes) {
        Ok(text) => Some(text),
        Err(_) => None,
    }
}
