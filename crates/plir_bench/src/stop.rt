//! What stops the program.
use plir_builtin::SymbolTableErr;
use plir_core::NodeErr;
use plir_data::{IdentifierErr, Memory};
use plir_inliner::InlineErr;
use std::alloc::{AllocError, AllocFailed};
use std::io;

/// What stops the program before the end of its input.
#[derive(Clone, Copy)]
pub enum Stop {
    /// The line is no command, or what it asks for can't be done.
    Refused,
    /// Memory is wanting, or room for a node.
    NotMade,
    /// A line can't be read or written.
    NoLine,
}

impl From<AllocError> for Stop {
    fn from(_error: AllocError) -> Stop {
        Stop::NotMade
    }
}

impl<T: Drop> From<AllocFailed<T>> for Stop {
    fn from(_error: AllocFailed<T>) -> Stop {
        Stop::NotMade
    }
}

impl From<Memory> for Stop {
    fn from(_error: Memory) -> Stop {
        Stop::NotMade
    }
}

impl From<NodeErr> for Stop {
    fn from(_error: NodeErr) -> Stop {
        Stop::NotMade
    }
}

impl From<IdentifierErr> for Stop {
    fn from(error: IdentifierErr) -> Stop {
        match error {
            IdentifierErr::Malformed => Stop::Refused,
            IdentifierErr::Memory => Stop::NotMade,
        }
    }
}

impl From<SymbolTableErr> for Stop {
    fn from(_error: SymbolTableErr) -> Stop {
        Stop::Refused
    }
}

impl From<InlineErr> for Stop {
    fn from(_error: InlineErr) -> Stop {
        Stop::Refused
    }
}

impl From<io::Error> for Stop {
    fn from(_error: io::Error) -> Stop {
        Stop::NoLine
    }
}
