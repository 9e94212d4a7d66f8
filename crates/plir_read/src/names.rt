//! Names in texts, and the suffixes that they are printed with.
ghost use Rattle.std.specs.Prelude.{◌≡◌, IfErr, IfOk, option_map};
ghost use Rattle.plir_attr_text.specs.declared.fault.Stop.TheVariants.{OutOfMemory};
ghost use Rattle.plir_read.specs.Suffixes.{behind_letters, behind_digits, behind_number, behind_pointer, behind_place};
ghost use Rattle.plir_read.specs.Suffixes.{is_nothing, is_suffix, is_joined_suffix, before_suffix, given_name};

use plir_attr_text::attr_words::identifier_of;
use plir_attr_text::fault::Stop;
use plir_attr_text::tokens::{begins_digit, past_digits};
use plir_data::Identifier;
use std::alloc::Global;

// Whose name has a suffix.
#[derive(Clone, Copy)]
pub enum Suffix {
    Block,
    Argument,
    OpResult,
}

// What stands behind letters.
#[tactic(auto, unfolding(crate::specs::Suffixes::behind_letters))]
fn behind_letters<'a>(letters: &[u8], word: &'a [u8]) -> Option<&'a [u8]>
    ensures { option_map (λ x. x.now) result ≡ behind_letters letters.now word.now }
{
    word.strip_prefix(letters)
}

// What stands behind one digit or more.
#[tactic(auto, unfolding(crate::specs::Suffixes::behind_digits))]
fn behind_digits(word: &[u8]) -> Option<&[u8]>
    ensures { option_map (λ x. x.now) result ≡ behind_digits word.now }
{
    if begins_digit(word) {
        Some(past_digits(word))
    } else {
        None
    }
}

// What stands behind letters and a number.
#[tactic(auto, unfolding(crate::specs::Suffixes::behind_number))]
fn behind_number<'a>(letters: &[u8], word: &'a [u8]) -> Option<&'a [u8]>
    ensures { option_map (λ x. x.now) result ≡ behind_number letters.now word.now }
{
    match behind_letters(letters, word) {
        Some(rest) => behind_digits(rest),
        None => None,
    }
}

// What stands behind a pointer, as `block2v1` or `op3v1`.
#[tactic(auto, unfolding(crate::specs::Suffixes::behind_pointer))]
fn behind_pointer<'a>(letters: &[u8], word: &'a [u8]) -> Option<&'a [u8]>
    ensures { option_map (λ x. x.now) result ≡ behind_pointer letters.now word.now }
{
    match behind_number(letters, word) {
        Some(rest) => behind_number(b"v".as_slice(), rest),
        None => None,
    }
}

// What stands behind a pointer, letters and a number, as `block2v1_arg0` or `op3v1_res0`.
#[tactic(auto, unfolding(crate::specs::Suffixes::behind_place))]
fn behind_place<'a>(letters: &[u8], place: &[u8], word: &'a [u8]) -> Option<&'a [u8]>
    ensures { option_map (λ x. x.now) result ≡ behind_place letters.now place.now word.now }
{
    match behind_pointer(letters, word) {
        Some(rest) => behind_number(place, rest),
        None => None,
    }
}

// Whether nothing stands behind a suffix.
fn is_whole(rest: Option<&[u8]>) -> bool
    ensures { result ≡ is_nothing (option_map (λ x. x.now) rest.entry) }
{
    match rest {
        Some(end) => end.is_empty(),
        None => false,
    }
}

// Whether this is a suffix.
#[tactic(auto, unfolding(crate::specs::Suffixes::is_suffix))]
fn is_suffix(suffix: Suffix, word: &[u8]) -> bool
    ensures { result ≡ is_suffix suffix word.now }
{
    match suffix {
        Suffix::Block => is_whole(behind_pointer(b"block".as_slice(), word)),
        Suffix::Argument => {
            is_whole(behind_place(b"block".as_slice(), b"_arg".as_slice(), word))
        }
        Suffix::OpResult => is_whole(behind_place(b"op".as_slice(), b"_res".as_slice(), word)),
    }
}

// Whether this is `_` and a suffix.
fn is_joined_suffix(suffix: Suffix, word: &[u8]) -> bool
    ensures { result ≡ is_joined_suffix suffix word.now }
{
    match word {
        [] => false,
        [byte, tail @ ..] => *byte == b'_' && is_suffix(suffix, tail),
    }
}

// What stands before `_` and a suffix.
fn before_suffix(suffix: Suffix, word: &[u8]) -> Option<&[u8]>
    ensures { option_map (λ x. x.now) result ≡ before_suffix suffix word.now }
{
    let mut rest = word;
    'bytes: while let [_, tail @ ..] = rest {
        if is_joined_suffix(suffix, rest) {
            return Some(&word[..word.len() - rest.len()]);
        }
        rest = tail;
    }
    None
}

// The name that is given.
#[tactic(auto, unfolding(crate::specs::Suffixes::given_name))]
pub fn given_name(
    alloc: Global,
    suffix: Suffix,
    name: Identifier,
) -> Result<Option<Identifier>, Stop>
    ensures given { IfOk result (λ given. given ≡ given_name suffix name) }
    ensures refused { IfErr result (λ stop. stop ≡ OutOfMemory) }
{
    let word = name.as_str().as_bytes();
    if is_suffix(suffix, word) {
        return Ok(None);
    }
    match before_suffix(suffix, word) {
        None => Ok(Some(name)),
        Some([]) => Ok(None),
        Some(front) => Ok(Some(identifier_of(alloc, front, 0)?)),
    }
}
