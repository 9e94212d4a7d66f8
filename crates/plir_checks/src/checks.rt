//! What a text says must be printed of it.
ghost use Rattle.std.specs.Prelude.{◌≡◌, IfErr, IfOk, None, OnOk, Some, map, option_map, true};
ghost use Rattle.plir_checks.specs.Checks.{IsToldOf, check_of, checks_in, fault_of, first_fault, seen_check};
ghost use Rattle.plir_checks.specs.Checks.{told_check};
ghost use Rattle.std.specs.Option.{option_and_then};
ghost use Rattle.plir_checks.specs.Lines.{lines_of};

use crate::lines::{said, split_line};
use std::alloc::{AllocError, AllocFailed, Global};
use thiserror::Error;

/// What the text of a line that must come somewhere stands behind.
const CHECK: &str = "CHECK:";

/// What the text of a line that must come next stands behind.
const CHECK_NEXT: &str = "CHECK-NEXT:";

/// Where the text of a check must be printed.
#[derive(Clone, Copy, Debug, PartialEq, Eq)]
pub enum CheckKind {
    /// In a line behind that of the check before.
    Behind,
    /// In the line right behind that of the check before.
    Next,
}

/// A text that must be printed: a comment `CHECK: TEXT` or `CHECK-NEXT: TEXT`.
#[derive(Clone, Copy, Debug)]
pub struct Check<'a> {
    /// The number of its line, from 1.
    pub line: usize,
    /// Where the text must be printed.
    pub kind: CheckKind,
    /// The text, without the blanks around it.
    pub text: &'a str,
}

/// Why the checks of a text could not be read.
#[derive(Clone, Copy, Debug, PartialEq, Eq, Error)]
pub enum CheckErr {
    /// The check of a line has no text, which any line would have.
    #[error("line {line}: a check with no text")]
    NoText { line: usize },
    /// The first check is one for the next line.
    #[error("line {line}: CHECK-NEXT with no CHECK before it")]
    NothingBefore { line: usize },
    /// Memory was refused.
    #[error("out of memory")]
    Memory,
}

impl From<AllocError> for CheckErr {
    ghost use Rattle.std.specs.Prelude.{◌≡◌};
    ghost use Rattle.plir_checks.specs.declared.checks.CheckErr.TheVariants as Variants;

    ghost from_gives = { λ _ e. e ≡ Variants.Memory };

    fn from(_refused: AllocError) -> CheckErr {
        CheckErr::Memory
    }
}

impl<T: Drop> From<AllocFailed<T>> for CheckErr {
    ghost use Rattle.std.specs.Prelude.{◌≡◌};
    ghost use Rattle.plir_checks.specs.declared.checks.CheckErr.TheVariants as Variants;

    ghost from_gives = { λ _ e. e ≡ Variants.Memory };

    fn from(_refused: AllocFailed<T>) -> CheckErr {
        CheckErr::Memory
    }
}

/// The checks of a text, in the order of their lines. Lines that are no checks say nothing. The first line that is at
/// fault is refused: a check with no text, or one for the next line with no check before it.
pub fn read_checks<'a>(alloc: Global, text: &'a str) -> Result<Vec<Check<'a>>, CheckErr>
    ensures read { IfOk result (λ v. map seen_check v.items ≡ checks_in 1 (lines_of text.now)) }
    ensures ok { OnOk result (first_fault true (checks_in 1 (lines_of text.now)) ≡ None) }
    ensures err { IfErr result (λ e. IsToldOf (first_fault true (checks_in 1 (lines_of text.now))) e) }
{
    let mut checks = Vec::new(alloc);
    let mut rest = text;
    let mut number = 1usize;
    loop {
        let (line, behind) = split_line(rest);
        if let Some(check) = read_check(line, number, checks.is_empty())? {
            checks.push(check)?;
        }
        match behind {
            None => return Ok(checks),
            Some(others) => rest = others,
        }
        number += 1;
    }
}

// The check of a line, if it is one, by the line's number and whether it would be the first check.
fn read_check<'a>(
    line: &'a str,
    number: usize,
    is_first: bool,
) -> Result<Option<Check<'a>>, CheckErr>
    ensures read { IfOk result (λ o. option_map seen_check o ≡ check_of number line.entry.now) }
    ensures ok { OnOk result (option_and_then (fault_of is_first) (check_of number line.entry.now) ≡ None) }
    ensures err { IfErr result (λ e. option_and_then (fault_of is_first) (check_of number line.entry.now) ≡ Some e) }
{
    let (kind, text) = match told_check(line) {
        None => return Ok(None),
        Some(told) => told,
    };
    if text.is_empty() {
        return Err(CheckErr::NoText { line: number });
    }
    if is_first && kind == CheckKind::Next {
        return Err(CheckErr::NothingBefore { line: number });
    }
    Ok(Some(Check {
        line: number,
        kind,
        text,
    }))
}

// The kind and the text of a check, if a line is one.
fn told_check(line: &str) -> Option<(CheckKind, &str)>
    ensures { option_map (λ p. (p.0, p.1.now)) result ≡ told_check line.now }
{
    if let Some(text) = said(line, CHECK) {
        return Some((CheckKind::Behind, text));
    }
    match said(line, CHECK_NEXT) {
        Some(text) => Some((CheckKind::Next, text)),
        None => None,
    }
}
