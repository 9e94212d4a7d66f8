//! Why a script ends before its input does.
use plir_builtin::SymbolTableErr;
use plir_core::NodeErr;
use plir_data::{IdentifierErr, Memory};
use std::alloc::{AllocError, AllocFailed};

/// What ends a script before the end of its input.
#[derive(Clone, Copy, Debug, PartialEq, Eq)]
pub enum Stop {
    /// The line is no command, or what it asks for can't be done.
    Refused,
    OutOfMemory,
    ReadFailed,
    WriteFailed,
}

impl From<AllocError> for Stop {
    fn from(_error: AllocError) -> Stop {
        Stop::OutOfMemory
    }
}

impl<T: Drop> From<AllocFailed<T>> for Stop {
    fn from(_error: AllocFailed<T>) -> Stop {
        Stop::OutOfMemory
    }
}

impl From<Memory> for Stop {
    fn from(_error: Memory) -> Stop {
        Stop::OutOfMemory
    }
}

impl From<IdentifierErr> for Stop {
    fn from(error: IdentifierErr) -> Stop {
        match error {
            IdentifierErr::Malformed => Stop::Refused,
            IdentifierErr::Memory => Stop::OutOfMemory,
        }
    }
}

impl From<NodeErr> for Stop {
    fn from(error: NodeErr) -> Stop {
        match error {
            NodeErr::TooManyNodes => Stop::Refused,
            NodeErr::Memory => Stop::OutOfMemory,
        }
    }
}

impl From<SymbolTableErr> for Stop {
    fn from(error: SymbolTableErr) -> Stop {
        match error {
            SymbolTableErr::Memory => Stop::OutOfMemory,
            _ => Stop::Refused,
        }
    }
}
