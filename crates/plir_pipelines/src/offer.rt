//! Which passes a command line can offer.
ghost use Rattle.std.specs.Prelude.{◌≡◌, IfErr, OnOk};
ghost use Rattle.std.specs.List.{list_all};
ghost use Rattle.plir_pipelines.specs.Offers.{CanBeOffered, CanFollow, IsClash, IsOfferRefusal, is_in_option};
ghost use Rattle.plir_pipelines.specs.Offers.{is_option_name, is_own_word, is_small_letter};
ghost use Rattle.plir_pipelines.specs.FlagOffers.{AreFlagsRefused, CanBeFlag, CanBeFlags, IsFlagClash};
ghost use Rattle.plir_pipelines.specs.FlagOffers.{is_flag};

use crate::flags::Flag;
use crate::offered::Offered;
use crate::passes::pass_of;
use crate::words::OWN_WORDS;
use thiserror::Error;

/// Why a command line can't offer some passes.
#[derive(Clone, Copy, Debug, Error)]
pub enum OfferErr {
    /// An option can't have a pass's name: it is a small letter, and then small letters, digits and dashes.
    #[error("'{name}' can be no option: a small letter, and then small letters, digits and dashes")]
    Malformed { name: &'static str },
    /// A pass's name is a word of the command line that is the driver's own.
    #[error("'{name}' is no name for a pass: it is an option of each program")]
    Own { name: &'static str },
    /// Two passes have one name.
    #[error("two passes have the name '{name}'")]
    Twice { name: &'static str },
}

/// Why a command line can't offer the options of some passes.
#[derive(Clone, Copy, Debug, Error)]
pub enum FlagErr<'a> {
    /// An option of a command line can't have the name.
    #[error("'{flag}' can be no option: a small letter, and then small letters, digits and dashes")]
    Malformed { flag: &'a str },
    /// The name is a word of the command line that is the driver's own.
    #[error("'{flag}' is no name for an option: it is an option of each program")]
    Own { flag: &'a str },
    /// The name is that of a pass.
    #[error("'{flag}' is no name for an option: it is that of a pass")]
    OfPass { flag: &'a str },
    /// Two options have the name.
    #[error("two options have the name '{flag}'")]
    Twice { flag: &'a str },
}

// Whether a byte is a small letter.
fn is_small_letter(byte: u8) -> bool
    ensures { result ≡ is_small_letter byte }
{
    matches!(byte, b'a'..=b'z')
}

// Whether a byte may stand in the name of an option.
fn is_in_option(byte: u8) -> bool
    ensures { result ≡ is_in_option byte }
{
    is_small_letter(byte) || matches!(byte, b'0'..=b'9' | b'-')
}

// Whether all bytes may.
fn are_in_option(bytes: &[u8]) -> bool
    ensures { result ≡ list_all is_in_option bytes.now }
{
    bytes.iter().all(|&byte| is_in_option(byte))
}

// Whether an option can have a name.
fn is_option_name(name: &str) -> bool
    ensures { result ≡ is_option_name name.now }
{
    match name.as_bytes() {
        [] => false,
        [first, rest @ ..] => is_small_letter(*first) && are_in_option(rest),
    }
}

// Whether a name is a word of the driver's own.
fn is_own_word(name: &str) -> bool
    ensures { result ≡ is_own_word name.now }
{
    OWN_WORDS.iter().any(|&word| word == name)
}

// Whether a pass can be offered behind others.
fn check_behind<P: Offered>(front: &[P], pass: P) -> Result<(), OfferErr>
    ensures offered { OnOk result (CanFollow P.pass_name front.now pass) }
    ensures refused { IfErr result (IsClash P.pass_name front.now pass) }
{
    let name = pass.name();
    if !is_option_name(name) {
        return Err(OfferErr::Malformed { name });
    }
    if is_own_word(name) {
        return Err(OfferErr::Own { name });
    }
    match pass_of(front, name) {
        Some(_) => Err(OfferErr::Twice { name }),
        None => Ok(()),
    }
}

/// Whether a command line can offer some passes, each by an option of its own name.
///
/// # Errors
///
/// The first of them whose name an option can't have, is a word of the driver's own, or is that of a pass in front of
/// it.
pub fn check_offer<P: Offered>(passes: &[P]) -> Result<(), OfferErr>
    ensures offered { OnOk result (CanBeOffered P.pass_name passes.now) }
    ensures refused { IfErr result (IsOfferRefusal P.pass_name passes.now) }
{
    for place in 0..passes.len() {
        check_behind(&passes[..place], passes[place])?;
    }
    Ok(())
}

// Whether one of some flags has a name.
fn is_flag(flags: &[Flag], text: &str) -> bool
    ensures { result ≡ is_flag flags.now text.now }
{
    flags.iter().any(|flag| flag.text.as_str() == text)
}

// Whether a flag can be offered behind others.
fn check_flag<'a, P: Offered>(
    passes: &[P],
    front: &[Flag],
    flag: &'a str,
) -> Result<(), FlagErr<'a>>
    ensures offered { OnOk result (CanBeFlag P.pass_name passes.now front.now flag.entry.now) }
    ensures refused { IfErr result (IsFlagClash P.pass_name passes.now front.now flag.entry.now) }
{
    if !is_option_name(flag) {
        return Err(FlagErr::Malformed { flag });
    }
    if is_own_word(flag) {
        return Err(FlagErr::Own { flag });
    }
    if pass_of(passes, flag).is_some() {
        return Err(FlagErr::OfPass { flag });
    }
    if is_flag(front, flag) {
        return Err(FlagErr::Twice { flag });
    }
    Ok(())
}

/// Whether a command line can offer the options of some passes, each by its flag.
///
/// # Errors
///
/// The first flag whose name an option can't have, is a word of the driver's own, a pass's name, or that of a flag in
/// front of it.
pub fn check_flags<'a, P: Offered>(passes: &[P], flags: &'a [Flag]) -> Result<(), FlagErr<'a>>
    ensures offered { OnOk result (CanBeFlags P.pass_name passes.now flags.entry.now) }
    ensures refused { IfErr result (AreFlagsRefused P.pass_name passes.now flags.entry.now) }
{
    for place in 0..flags.len() {
        check_flag(passes, &flags[..place], flags[place].text.as_str())?;
    }
    Ok(())
}
