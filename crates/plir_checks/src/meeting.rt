//! Whether a text that was printed meets checks.
ghost use Rattle.std.specs.Prelude.{◌≡◌, ◌≢◌, ◌<◌, ◌∷◌, ℕ, List, [], IfErr, MatchOption, OnErr, OnOk, length};
ghost use Rattle.plir_checks.specs.Blanks.{begins, has_text, squeezed};
ghost use Rattle.plir_checks.specs.Lines.{behind_blanks, lines_left, lines_of};
ghost use Rattle.plir_checks.specs.Meeting.{AreMet, IsMetBehind, IsMissed, IsUnmet};

use crate::checks::{Check, CheckKind};
use crate::lines::split_line;
use thiserror::Error;

/// The first check that a text does not meet. Lines count from 1.
#[derive(Clone, Copy, Debug, PartialEq, Eq, Error)]
#[error("line {check}: the check is not met, from line {from} of what is printed on")]
pub struct Unmet {
    /// The number of the check's line in the text that it was read from.
    pub check: usize,
    /// The number of the line of the printed text from which on it was sought: the one behind that of the check before.
    /// It may be one more than there are lines.
    pub from: usize,
}

/// Whether a text that was printed meets checks, each in a line of its own, in their order: a check of kind `Behind` is
/// met by the first line behind that of the check before that has its text, and one of kind `Next` by the line right
/// behind that of the check before, if it has its text. A line has a text where, from some character on, it begins with
/// it, and each run of blanks counts as one space in both. The first check is sought from the first line on. No second
/// way is tried: where the first line with a check's text isn't followed by the next check's, a later one is no help.
pub fn meets(checks: &[Check], printed: &str) -> Result<(), Unmet>
    ensures met { OnOk result (AreMet checks.now (lines_of printed.now)) }
    ensures none { OnErr result (¬ (AreMet checks.now (lines_of printed.now))) }
    ensures unmet { IfErr result (λ u. IsUnmet checks.now (lines_of printed.now) 1 u) }
{
    let mut left = Some(printed);
    let mut from = 1usize;
    for check in checks {
        match seek(check, left) {
            None => return Err(Unmet {
                check: check.line,
                from,
            }),
            Some((past, behind)) => {
                left = behind;
                from += past;
            }
        }
    }
    Ok(())
}

// How many lines stand up to the one that meets a check, among those that are left, and what is left behind it.
fn seek<'a>(check: &Check, left: Option<&'a str>) -> Option<(usize, Option<&'a str>)>
    ensures { MatchOption result (IsMissed check.now.kind check.now.text.now (lines_left left.entry))
        (λ p. IsMetBehind check.now.kind check.now.text.now (lines_left left.entry) p.0 (lines_left p.1)) }
{
    let text = left?;
    match check.kind {
        CheckKind::Next => {
            let (line, behind) = split_line(text);
            if has_text(line, check.text) {
                Some((1, behind))
            } else {
                None
            }
        }
        CheckKind::Behind => seek_behind(check.text, text),
    }
}

// How many lines a text has up to the first that has what is sought, and what stands behind that.
fn seek_behind<'a>(sought: &str, text: &'a str) -> Option<(usize, Option<&'a str>)>
    ensures { MatchOption result (IsMissed CheckKind.Behind sought.now (lines_of text.entry.now))
        (λ p. IsMetBehind CheckKind.Behind sought.now (lines_of text.entry.now) p.0 (lines_left p.1)) }
{
    let mut rest = text;
    let mut lines = 1usize;
    loop {
        let (line, behind) = split_line(rest);
        if has_text(line, sought) {
            return Some((lines, behind));
        }
        match behind {
            None => return None,
            Some(others) => rest = others,
        }
        lines += 1;
    }
}

// Whether a line has a text, where each run of blanks counts as one space in both.
fn has_text(line: &str, text: &str) -> bool
    ensures { result ≡ has_text line.now text.now }
{
    let bytes = line.as_bytes();
    for start in 0..bytes.len() {
        if begins(&bytes[start..], text.as_bytes()) {
            return true;
        }
    }
    begins(b"", text.as_bytes())
}

// Whether bytes begin with a text, where each run of blanks counts as one space in both.
fn begins(line: &[u8], text: &[u8]) -> bool
    ensures { result ≡ begins line.now text.now }
{
    let mut rest = line;
    let mut sought = text;
    while let Some((wanted, others)) = next_shown(sought) {
        match next_if(rest, wanted) {
            None => return false,
            Some(behind) => rest = behind,
        }
        sought = others;
    }
    true
}

// The first byte, a space for a blank, and what stands behind it and the blanks that go with it.
fn next_shown(bytes: &[u8]) -> Option<(u8, &[u8])>
    ensures { MatchOption result (squeezed bytes.now ≡ []) (λ p. (squeezed bytes.now ≡ p.0 ∷ squeezed p.1.now) ×
        (length p.1.now < length bytes.now)) }
{
    match bytes {
        [] => None,
        [first, rest @ ..] => {
            if first.is_ascii_whitespace() {
                Some((b' ', behind_blanks(rest)))
            } else {
                Some((*first, rest))
            }
        }
    }
}

// What stands behind the first byte and the blanks that go with it, if it is what is wanted: a space for a blank.
fn next_if(bytes: &[u8], wanted: u8) -> Option<&[u8]>
    ensures { MatchOption result ((rest : List ℕ) → squeezed bytes.now ≢ wanted ∷ rest)
        (λ r. squeezed bytes.now ≡ wanted ∷ squeezed r.now) }
{
    match bytes {
        [] => None,
        [first, rest @ ..] => {
            if first.is_ascii_whitespace() {
                if wanted == b' ' {
                    Some(behind_blanks(rest))
                } else {
                    None
                }
            } else if *first == wanted {
                Some(rest)
            } else {
                None
            }
        }
    }
}

// What stands behind the blanks at the front.
fn behind_blanks(bytes: &[u8]) -> &[u8]
    ensures { result.now ≡ behind_blanks bytes.now }
{
    bytes.trim_ascii_start()
}
