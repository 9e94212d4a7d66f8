//! Refusals of branches and of numbers of successors.
use plir_data::TypeHandle;
use std::error::Error as StdError;
use thiserror::Error;

/// How the values that a branch forwards don't fit its successors.
#[derive(Drop, Debug, Error)]
#[error_bound(E: StdError)]
pub enum BranchOpInterfaceVerifyErr<E> {
    /// The operands are not laid out as the branch wants them: the refusal of its own check.
    #[error("{0}")]
    Layout(E),
    /// A block gets another number of values than it has arguments.
    #[error("Branch Op is passing {provided} arguments, but target block expects {expected}")]
    SuccessorOperandsMismatch {
        provided: usize,
        expected: usize,
    },
    /// A value has another type than the argument at its index: the index, and the texts of the types.
    #[error("Forwarded operand at {idx} is of type {forwarded}, but should've been {expected}")]
    SuccessorOperandTypeMismatch {
        idx: usize,
        forwarded: String,
        expected: String,
    },
}

/// An operation has another number of successors than is asked for: how many are, and how many there are.
#[derive(Clone, Copy, PartialEq, Eq, Debug, Error)]
#[error("Expected {0} successor(s), but found {1}")]
pub struct NSuccsVerifyErr(pub usize, pub usize);

/// How the types of some values differ from those of a block's arguments.
#[derive(Clone, Copy)]
pub(crate) enum Mismatch {
    /// There are so many values, but so many arguments.
    Count(usize, usize),
    /// At an index there are these types of the value and of the argument.
    Differ(usize, TypeHandle, TypeHandle),
}
