//! Why a text of operations could not be read.
ghost use Rattle.std.specs.Prelude.{◌≡◌};
ghost use Rattle.plir_read_ir.specs.IrFaults.{HasNoPlace, IsTold, fault_of};

use plir_attr_text::fault::Stop;
use plir_attr_text::{Fault, place};
use thiserror::Error;

/// What is wrong with a text.
#[derive(Clone, Copy, Debug, PartialEq, Eq, Error)]
pub enum IrFault {
    /// A fault that is met from left to right, or none of the text: memory or room for a node is wanting.
    #[error("{0}")]
    Text(Fault),
    /// The name of an operand that no value bears where it is looked up, or a label that no block of the region bears.
    #[error("no value or block of this name")]
    UnknownName,
    /// A name or a label that two values or blocks bear, or more.
    #[error("several values or blocks of this name")]
    AmbiguousName,
    /// The type of an operand as it is written is not that of the value that its name means.
    #[error("another type than that of the value")]
    TypeMismatch,
}

/// A fault, and where it stands: lines and columns count from 1, columns in characters. Both are 0 where memory or room
/// for a node is wanting.
#[derive(Clone, Copy, Debug, PartialEq, Eq, Error)]
#[error("Parse error at line: {line}, column: {column}")]
pub struct IrErr {
    /// The line.
    pub line: usize,
    /// The column.
    pub column: usize,
    /// The fault.
    pub fault: IrFault,
}

// Why reading stopped: as the readers of parts stop, or at a use, with so many bytes of the text left where that fault
// stands.
#[derive(Debug, Drop)]
pub enum IrStop {
    Reading(Stop),
    Use(IrFault, usize),
}

// Why a text was not read, and where.
pub fn placed(bytes: &[u8], stop: IrStop) -> IrErr
    ensures fault { result.fault ≡ fault_of stop }
    ensures placeless { IsTold stop → HasNoPlace result }
{
    match stop {
        IrStop::Reading(stop) => {
            let at = place::placed(bytes, stop);
            IrErr {
                line: at.line,
                column: at.column,
                fault: IrFault::Text(at.fault),
            }
        }
        IrStop::Use(fault, left) => {
            let at = place::placed(bytes, Stop::At(Fault::Unexpected, left));
            IrErr {
                line: at.line,
                column: at.column,
                fault,
            }
        }
    }
}
