//! Which errors a text says must come.
ghost use Rattle.std.specs.Prelude.{◌≡◌, ◌≤◌, ◌^◌, IfErr, IfOk, MatchResult, map, option_map};
ghost use Rattle.plir_checks.specs.Expecting.{IsToldOf, first_refusal, read_told, readings, seen_expected};
ghost use Rattle.plir_checks.specs.Expecting.{word_and_text};
ghost use Rattle.plir_checks.specs.Lines.{lines_of};

use crate::lines::{said, split_line, trimmed};
use crate::places::line_meant;
use std::alloc::{AllocError, AllocFailed, Global};
use thiserror::Error;

/// What an expected error is told behind.
const EXPECTED: &str = "expected-error";

/// What the text of an expected error stands behind.
const OPEN: &str = "{{";

/// What the text of an expected error ends at.
const CLOSE: &str = "}}";

/// An error that must come: a comment `expected-error {{TEXT}}`, or with `@+N`, `@-N`, `@above` or `@below` before
/// the braces, which says how many lines behind or before the comment it must come.
#[derive(Clone, Copy, Debug)]
pub struct Expected<'a> {
    /// The number of the line that it must come at, from 1.
    pub line: usize,
    /// The number of the comment's line, from 1.
    pub told_at: usize,
    /// What its message must have in it.
    pub text: &'a str,
}

/// Why the expected errors of a text could not be read.
#[derive(Clone, Copy, Debug, PartialEq, Eq, Error)]
pub enum ExpectedErr {
    /// The comment of a line begins with `expected-error`, and what follows is no place and text.
    #[error("line {line}: no expected error: `// expected-error @+1 {{{{text}}}}` is one")]
    Malformed { line: usize },
    /// The error of a line's comment would be expected before the first line.
    #[error("line {line}: an error is expected before the first line")]
    NoSuchLine { line: usize },
    /// Memory was refused.
    #[error("out of memory")]
    Memory,
}

impl From<AllocError> for ExpectedErr {
    ghost use Rattle.std.specs.Prelude.{◌≡◌};
    ghost use Rattle.plir_checks.specs.declared.expected.ExpectedErr.TheVariants as Variants;

    ghost from_gives = { λ _ e. e ≡ Variants.Memory };

    fn from(_refused: AllocError) -> ExpectedErr {
        ExpectedErr::Memory
    }
}

impl<T: Drop> From<AllocFailed<T>> for ExpectedErr {
    ghost use Rattle.std.specs.Prelude.{◌≡◌};
    ghost use Rattle.plir_checks.specs.declared.expected.ExpectedErr.TheVariants as Variants;

    ghost from_gives = { λ _ e. e ≡ Variants.Memory };

    fn from(_refused: AllocFailed<T>) -> ExpectedErr {
        ExpectedErr::Memory
    }
}

/// The errors that a text says must come, in the order of their comments. Other lines say nothing. The first comment
/// that begins with `expected-error` and tells none is refused, and so is one whose error would come before the first
/// line.
pub fn read_expected<'a>(alloc: Global, text: &'a str) -> Result<Vec<Expected<'a>>, ExpectedErr>
    ensures read { IfOk result (λ v. map (λ e. Ok (seen_expected e)) v.items ≡ readings 1 (lines_of text.now)) }
    ensures err { IfErr result (λ e. IsToldOf (first_refusal (readings 1 (lines_of text.now))) e) }
{
    let mut expected = Vec::new(alloc);
    let mut rest = text;
    let mut number = 1usize;
    loop {
        let (line, behind) = split_line(rest);
        if let Some(told) = said(line, EXPECTED) {
            expected.push(read_told(told, number)?)?;
        }
        match behind {
            None => return Ok(expected),
            Some(others) => rest = others,
        }
        number += 1;
    }
}

// The expected error that stands behind `expected-error` in a line of a number.
fn read_told<'a>(told: &'a str, number: usize) -> Result<Expected<'a>, ExpectedErr>
    requires { number ≤ 2 ^ 63 }
    ensures { MatchResult result (λ e. read_told number told.entry.now ≡ Ok (seen_expected e))
        (λ e. read_told number told.entry.now ≡ Err e) }
{
    let (word, text) = match word_and_text(told) {
        None => return Err(ExpectedErr::Malformed { line: number }),
        Some(parts) => parts,
    };
    match line_meant(number, word) {
        None => Err(ExpectedErr::Malformed { line: number }),
        Some(0) => Err(ExpectedErr::NoSuchLine { line: number }),
        Some(line) => Ok(Expected {
            line,
            told_at: number,
            text,
        }),
    }
}

// What stands before the braces, without blanks around it, and what stands between them, if nothing stands behind.
fn word_and_text(told: &str) -> Option<(&str, &str)>
    ensures { option_map (λ p. (p.0.now, p.1.now)) result ≡ word_and_text told.now }
{
    let (word, behind) = told.split_once(OPEN)?;
    let (text, tail) = behind.split_once(CLOSE)?;
    if tail.is_empty() {
        Some((trimmed(word), text))
    } else {
        None
    }
}
