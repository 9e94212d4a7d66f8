//! Why a line of a script isn't carried out.
use plir_attr_text::{Fault, ReadErr};
use plir_core::NodeErr;
use plir_data::{IdentifierErr, Memory};
use std::alloc::{AllocError, AllocFailed};

/// What stops a line of a script.
#[derive(Clone, Copy, Debug)]
pub enum Stop {
    /// The line is no call, or the condition of its call doesn't hold.
    Refused,
    TooManyNodes,
    Memory,
}

impl From<Memory> for Stop {
    fn from(_error: Memory) -> Stop {
        Stop::Memory
    }
}

impl From<AllocError> for Stop {
    fn from(_error: AllocError) -> Stop {
        Stop::Memory
    }
}

impl<T: Drop> From<AllocFailed<T>> for Stop {
    fn from(_error: AllocFailed<T>) -> Stop {
        Stop::Memory
    }
}

impl From<IdentifierErr> for Stop {
    fn from(error: IdentifierErr) -> Stop {
        match error {
            IdentifierErr::Malformed => Stop::Refused,
            IdentifierErr::Memory => Stop::Memory,
        }
    }
}

impl From<NodeErr> for Stop {
    fn from(error: NodeErr) -> Stop {
        match error {
            NodeErr::TooManyNodes => Stop::TooManyNodes,
            NodeErr::Memory => Stop::Memory,
        }
    }
}

impl From<ReadErr> for Stop {
    fn from(error: ReadErr) -> Stop {
        match error.fault {
            Fault::Memory => Stop::Memory,
            _ => Stop::Refused,
        }
    }
}
