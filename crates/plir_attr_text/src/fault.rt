//! Why a text could not be read.

ghost use Rattle.std.specs.Prelude.{◌≡◌};
ghost use Rattle.plir_attr_text.specs.declared.fault.Stop.TheVariants.{OutOfMemory};

use plir_data::Memory;
use std::alloc::{AllocError, AllocFailed};
use thiserror::Error;

/// What is wrong with a text.
#[derive(Clone, Copy, Debug, PartialEq, Eq, Error)]
pub enum Fault {
    /// A token that can't stand there, or the end of the text.
    #[error("no token that can stand there")]
    Unexpected,
    /// A `\` in a string with nothing behind it that it could stand for.
    #[error("no escape")]
    BadEscape,
    /// A literal, a width or a size past its limit.
    #[error("integer out of range")]
    IntegerOutOfRange,
    /// An integer whose type has no bit, or more than 64.
    #[error("no values of integers of this width")]
    IntegerWidthUnsupported,
    /// More than 200 levels are open.
    #[error("more than 200 levels")]
    TooDeep,
    /// A forward reference, which stands for a value while a text is read and in no text.
    #[error("builtin.forward_ref is a temporary Op during parsing. It must not exit in a well-formed program.")]
    ForwardRefOpExistenceErr,
    /// An operation has so many results, and another number of names for them: both numbers.
    #[error("Expected {0} result(s), but found {1} results")]
    NResultsVerifyErr(usize, usize),
    /// Nothing is wrong with the text: a growth was refused.
    #[error("out of memory")]
    Memory,
    /// Nothing is wrong with the text: there is no room for one more node.
    #[error("too many nodes")]
    TooManyNodes,
}

/// A fault, and where it stands: lines and columns count from 1, columns in characters. Both are 0 for `Memory` and
/// `TooManyNodes`.
#[derive(Clone, Copy, Debug, PartialEq, Eq, Error)]
#[error("Parse error at line: {line}, column: {column}")]
pub struct ReadErr {
    /// The line.
    pub line: usize,
    /// The column.
    pub column: usize,
    /// The fault.
    pub fault: Fault,
}

// Why reading stopped: memory or room for a node is wanting, or a fault, with so many bytes of the text left where it
// stands.
#[derive(Debug, Drop)]
pub enum Stop {
    OutOfMemory,
    Crowded,
    At(Fault, usize),
}

impl From<AllocError> for Stop {
    ghost from_gives = { λ _ e. e ≡ OutOfMemory };

    fn from(_refused: AllocError) -> Stop {
        Stop::OutOfMemory
    }
}

impl<T: Drop> From<AllocFailed<T>> for Stop {
    ghost from_gives = { λ _ e. e ≡ OutOfMemory };

    fn from(_refused: AllocFailed<T>) -> Stop {
        Stop::OutOfMemory
    }
}

impl From<Memory> for Stop {
    ghost from_gives = { λ _ e. e ≡ OutOfMemory };

    fn from(_refused: Memory) -> Stop {
        Stop::OutOfMemory
    }
}
