//! Whether the errors that came are those that were expected.
ghost use Rattle.std.specs.Prelude.{◌≡◌, ◌<◌, IfErr, MatchOption, OnOk, length, remove};
ghost use Rattle.plir_checks.specs.Comparing.{AreMatched, IsToldOf, difference, is_met, left_by};

use crate::expected::Expected;
use std::alloc::{AllocError, Global};
use thiserror::Error;

/// An error that came.
#[derive(Clone, Copy, Debug)]
pub struct Came<'a> {
    /// The number of the line that it came at, from 1.
    pub line: usize,
    /// What it says.
    pub message: &'a str,
}

/// The first difference between the errors that came and those that were expected.
#[derive(Clone, Copy, Debug, PartialEq, Eq, Error)]
pub enum CompareErr {
    /// An error came that was not expected: the line that it came at, and its place among those that came, from 0.
    #[error("line {line}: an error came that is not expected")]
    Unexpected { line: usize, place: usize },
    /// An error was expected and did not come: the line that it was expected at, and that of its comment.
    #[error("line {line}: the error that line {told_at} expects did not come")]
    Missing { line: usize, told_at: usize },
    /// Memory was refused.
    #[error("out of memory")]
    Memory,
}

impl From<AllocError> for CompareErr {
    ghost use Rattle.std.specs.Prelude.{◌≡◌};
    ghost use Rattle.plir_checks.specs.declared.comparing.CompareErr.TheVariants as Variants;

    ghost from_gives = { λ _ e. e ≡ Variants.Memory };

    fn from(_refused: AllocError) -> CompareErr {
        CompareErr::Memory
    }
}

/// Whether the errors that came are those that were expected, each counted once. In the order in which they came, each
/// takes, of the expected ones that none has taken yet, the first in their order that is meant for its line and whose
/// text its message has in it. The first that takes none came unexpected; where each takes one, the first expected one
/// that none took did not come. It takes as many steps as there are pairs of one that came and one that was expected.
pub fn compare(alloc: Global, expected: &[Expected], came: &[Came]) -> Result<(), CompareErr>
    ensures ok { OnOk result (difference 0 expected.now came.now ≡ None) }
    ensures matched { OnOk result (AreMatched expected.now came.now) }
    ensures err { IfErr result (λ e. IsToldOf (difference 0 expected.now came.now) e) }
{
    let mut left = Vec::from_slice(alloc, expected)?;
    for (place, error) in came.iter().enumerate() {
        match first_met(left.as_slice(), error) {
            None => return Err(CompareErr::Unexpected {
                line: error.line,
                place,
            }),
            Some(met) => {
                left.remove(met);
            }
        }
    }
    match left.as_slice() {
        [] => Ok(()),
        [first, ..] => Err(CompareErr::Missing {
            line: first.line,
            told_at: first.told_at,
        }),
    }
}

// The place of the first expected error that one that came meets.
fn first_met(expected: &[Expected], came: &Came) -> Option<usize>
    ensures { MatchOption result (left_by came.now expected.now ≡ None) (λ k. (k < length expected.now) ×
        (left_by came.now expected.now ≡ Some (remove expected.now k))) }
{
    for (place, error) in expected.iter().enumerate() {
        if is_met(error, came) {
            return Some(place);
        }
    }
    None
}

// Whether an error that came meets an expected one.
fn is_met(expected: &Expected, came: &Came) -> bool
    ensures { result ≡ is_met came.now expected.now }
{
    expected.line == came.line && came.message.contains(expected.text)
}
