//! Whether a text meets what its comments say must come of it.
use crate::choices::Tests;
use crate::stop::Stop;
use crate::telling::place_of;
use plir_checks::{
    Came, CheckErr, CompareErr, Expected, ExpectedErr, Unmet, compare, meets, read_checks,
    read_expected,
};
use std::alloc::{AllocError, Global};
use std::error::Error as StdError;
use thiserror::Error;

/// Why a text doesn't meet what its comments say.
#[derive(Clone, Copy, Debug, Drop, Error)]
pub enum TestErr {
    /// A refusal came that no comment expects.
    #[error("no comment expects this refusal")]
    Unexpected,
    /// What it expects can't be read.
    #[error("{err}")]
    NotExpected { err: ExpectedErr },
    /// A refusal that it expects did not come: the line at which, and that of its comment.
    #[error("line {line}: the refusal that line {told_at} expects did not come")]
    Missing { line: usize, told_at: usize },
    /// What must be printed can't be read.
    #[error("{err}")]
    NoCheck { err: CheckErr },
    /// Nothing must be printed.
    #[error("no comment says what must be printed")]
    NoChecks,
    /// A check isn't met: its line, and the line of what is printed from which on it was sought.
    #[error("line {check}: no line has its text from line {from} of what is printed on")]
    Unmet { check: usize, from: usize },
    /// A growth was refused.
    #[error("out of memory")]
    OutOfMemory,
}

impl From<AllocError> for TestErr {
    ghost use Rattle.std.specs.Prelude.{◌≡◌};
    ghost use Rattle.plir_driver.specs.declared.judging.TestErr.TheVariants as Variants;

    ghost from_gives = { λ _ e. e ≡ Variants.OutOfMemory };

    fn from(_error: AllocError) -> TestErr {
        TestErr::OutOfMemory
    }
}

impl From<ExpectedErr> for TestErr {
    fn from(error: ExpectedErr) -> TestErr {
        match error {
            ExpectedErr::Memory => TestErr::OutOfMemory,
            err => TestErr::NotExpected { err },
        }
    }
}

impl From<CheckErr> for TestErr {
    fn from(error: CheckErr) -> TestErr {
        match error {
            CheckErr::Memory => TestErr::OutOfMemory,
            err => TestErr::NoCheck { err },
        }
    }
}

impl From<CompareErr> for TestErr {
    fn from(error: CompareErr) -> TestErr {
        match error {
            CompareErr::Unexpected { .. } => TestErr::Unexpected,
            CompareErr::Missing { line, told_at } => TestErr::Missing { line, told_at },
            CompareErr::Memory => TestErr::OutOfMemory,
        }
    }
}

impl From<Unmet> for TestErr {
    fn from(error: Unmet) -> TestErr {
        let Unmet { check, from } = error;
        TestErr::Unmet { check, from }
    }
}

// The line at which a refusal came; 0, where that isn't known.
fn line_of<E: StdError>(stop: &Stop<E>) -> usize {
    match place_of(stop) {
        Some((line, _)) => line,
        None => 0,
    }
}

// Compares a refusal with those that are expected.
fn compare_stop<E: StdError>(
    alloc: Global,
    expected: &[Expected],
    stop: &Stop<E>,
) -> Result<(), TestErr> {
    let message = stop.to_string(alloc)?;
    let came = [Came {
        line: line_of(stop),
        message: message.as_str(),
    }];
    compare(alloc, expected, &came)?;
    Ok(())
}

// Compares what would be printed with what must be.
fn compare_printed(alloc: Global, text: &str, printed: &str) -> Result<(), TestErr> {
    let checks = read_checks(alloc, text)?;
    if checks.is_empty() {
        return Err(TestErr::NoChecks);
    }
    meets(checks.as_slice(), printed)?;
    Ok(())
}

/// Whether a text meets what its comments say, of which there came what would be printed, or a refusal.
///
/// # Errors
///
/// Where refusals are compared: `NotExpected` where it can't be told which are expected, `Unexpected` for one that is
/// not, and `Missing` for one that did not come. Where they aren't, each refusal is `Unexpected`. Where what would be
/// printed is compared, and no refusal came: `NoCheck` where it can't be told what must be printed, `NoChecks` where
/// that is nothing, and `Unmet` for the first that isn't. `OutOfMemory`.
pub fn judge<E: StdError>(
    alloc: Global,
    tests: Tests,
    text: &str,
    printed: &Result<String, Stop<E>>,
) -> Result<(), TestErr> {
    if tests.diagnostics {
        let expected = read_expected(alloc, text)?;
        match printed {
            Ok(_) => compare(alloc, expected.as_slice(), &[])?,
            Err(stop) => return compare_stop(alloc, expected.as_slice(), stop),
        }
    }
    match printed {
        Ok(printed) if tests.checks => compare_printed(alloc, text, printed.as_str()),
        Ok(_) => Ok(()),
        Err(_) => Err(TestErr::Unexpected),
    }
}
