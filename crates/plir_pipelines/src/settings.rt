//! Options with their numbers: `NAME=NUMBER`, with blanks between them.
ghost use Rattle.std.specs.Prelude.{◌≡◌, IfErr, IfOk, map};
ghost use Rattle.plir_pipelines.specs.Settings.{AreRefused, AreSettings, IsMalformed, IsSetting};
ghost use Rattle.plir_pipelines.specs.Settings.{IsNumberRead, is_set, setting_words};

use crate::step::{Setting, StepErr};
use std::alloc::{AllocError, Global};

/// The number that a text is: digits in decimal, with a plus in front or none; none where the text is something else,
/// or the number is 2^64 or more.
pub fn read_number(text: &str) -> Option<u64>
    ensures { IsNumberRead text.now result }
{
    text.parse::<u64>().ok()
}

/// The option and the number that a word is.
///
/// # Errors
///
/// `NoSetting` where it has no `=`; `NoNumber` where what stands behind the first one is no number, as
/// [`read_number`] tells.
pub fn read_setting<'a>(word: &'a str) -> Result<Setting<'a>, StepErr<'a>>
    ensures read { IfOk result (IsSetting word.entry.now) }
    ensures refused { IfErr result (IsMalformed word.entry.now) }
{
    match word.split_once('=') {
        None => Err(StepErr::NoSetting { word }),
        Some((name, number)) => match read_number(number) {
            Some(value) => Ok(Setting { name, value }),
            None => Err(StepErr::NoNumber { name, number }),
        },
    }
}

// Whether one of some settings is of an option.
fn is_set(settings: &[Setting<'_>], name: &str) -> bool
    ensures { result ≡ is_set settings.now name.now }
{
    settings.iter().any(|setting| setting.name == name)
}

// What stands between the blanks of a text, without what is empty.
fn words_of<'a>(alloc: Global, text: &'a str) -> Result<Vec<&'a str>, AllocError>
    ensures { IfOk result (λ v. map (λ w. w.now) v.items ≡ setting_words text.entry.now) }
{
    text.split(' ')
        .filter(|word| !word.is_empty())
        .collect(alloc)
}

// The options and numbers that words are, none of them twice.
fn settings_in<'a>(alloc: Global, words: &[&'a str]) -> Result<Vec<Setting<'a>>, StepErr<'a>>
    ensures read { IfOk result (λ v. AreSettings (map (λ w. w.now) words.now) v.items) }
    ensures refused { IfErr result (AreRefused (map (λ w. w.now) words.now)) }
{
    let mut settings = Vec::new(alloc);
    for word in words {
        let setting = read_setting(word)?;
        if is_set(settings.as_slice(), setting.name) {
            return Err(StepErr::Twice { name: setting.name });
        }
        settings.push(setting)?;
    }
    Ok(settings)
}

/// The options and numbers that stand in a text, in their order, with blanks between them.
///
/// # Errors
///
/// The first word that is no option with a number, or whose option has one in front of it; or memory was wanting.
pub fn read_settings<'a>(alloc: Global, text: &'a str) -> Result<Vec<Setting<'a>>, StepErr<'a>>
    ensures read { IfOk result (λ v. AreSettings (setting_words text.entry.now) v.items) }
    ensures refused { IfErr result (AreRefused (setting_words text.entry.now)) }
{
    let words = words_of(alloc, text)?;
    settings_in(alloc, words.as_slice())
}
