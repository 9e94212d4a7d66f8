//! What stops the tour.
use plir_builtin::OpVerifyErr;
use plir_core::NodeErr;
use plir_data::{IdentifierErr, Memory, VerifyErr};
use std::io;

/// What stops the tour.
#[derive(Clone, Copy, Debug, PartialEq, Eq)]
pub enum Stop {
    /// Memory is wanting, or room for a node.
    NotMade,
    /// A text is no identifier.
    Malformed,
    /// The module breaks a rule.
    Refused,
    /// A line can't be written.
    NotWritten,
}

impl From<Memory> for Stop {
    fn from(_error: Memory) -> Stop {
        Stop::NotMade
    }
}

impl From<NodeErr> for Stop {
    fn from(_error: NodeErr) -> Stop {
        Stop::NotMade
    }
}

impl From<IdentifierErr> for Stop {
    fn from(error: IdentifierErr) -> Stop {
        match error {
            IdentifierErr::Malformed => Stop::Malformed,
            IdentifierErr::Memory => Stop::NotMade,
        }
    }
}

impl<E: Drop> From<VerifyErr<OpVerifyErr<E>>> for Stop {
    fn from(_error: VerifyErr<OpVerifyErr<E>>) -> Stop {
        Stop::Refused
    }
}

impl From<io::Error> for Stop {
    fn from(_error: io::Error) -> Stop {
        Stop::NotWritten
    }
}
