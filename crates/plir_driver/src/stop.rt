//! Why nothing is printed.
use crate::pass_err::PassErr;
use plir_attr_text::Fault;
use plir_builtin::SymbolTableErr;
use plir_data::{Location, Memory, VerifyErr};
use plir_read_ir::{IrErr, IrFault};
use plir_verify::TreeVerifyErr;
use std::alloc::{AllocError, AllocFailed};
use std::error::Error as StdError;
use thiserror::Error;

/// Why nothing is printed. The text is what is told behind the file's name and the place.
#[derive(Debug, Drop, Error)]
#[error_bound(E: StdError)]
pub enum Stop<E: StdError> {
    /// The bytes are no text.
    #[error("not UTF-8")]
    NoText,
    /// The text can't be read: where the fault stands, counted from 1, and which it is.
    #[error("{fault}")]
    Unread {
        line: usize,
        column: usize,
        fault: IrFault,
    },
    /// A verifier refuses an operation: where it stands, and why.
    #[error("{err}")]
    Refused {
        loc: Location,
        err: TreeVerifyErr<E>,
    },
    /// A symbol table is refused, as where the operation is none.
    #[error("{err}")]
    NoTable {
        err: SymbolTableErr,
    },
    /// A pass can't be run over the operation: what stands against it.
    #[error("{why}")]
    Unfit {
        why: &'static str,
    },
    /// An operation lacks an attribute that its text tells.
    #[error("an operation lacks an attribute that its text tells")]
    Unprintable,
    /// The context has no room for one more node, or there are more than a pass may visit.
    #[error("too many nodes")]
    TooManyNodes,
    /// A growth was refused.
    #[error("out of memory")]
    OutOfMemory,
}

impl<E: StdError> From<IrErr> for Stop<E> {
    ghost use Rattle.std.specs.Prelude.{◌≡◌};
    ghost use Rattle.plir_driver.specs.StopOf.{of_reader};

    ghost from_gives = { λ e s. s ≡ of_reader e };

    fn from(error: IrErr) -> Stop<E> {
        let IrErr {
            line,
            column,
            fault,
        } = error;
        match fault {
            IrFault::Text(Fault::Memory) => Stop::OutOfMemory,
            IrFault::Text(Fault::TooManyNodes) => Stop::TooManyNodes,
            _ => Stop::Unread {
                line,
                column,
                fault,
            },
        }
    }
}

impl<E: StdError> From<VerifyErr<TreeVerifyErr<E>>> for Stop<E> {
    ghost use Rattle.std.specs.Prelude.{◌≡◌};
    ghost use Rattle.plir_driver.specs.StopOf.{of_verifier};

    ghost from_gives = { λ e s. s ≡ of_verifier e };

    fn from(error: VerifyErr<TreeVerifyErr<E>>) -> Stop<E> {
        match error {
            VerifyErr::Refused { loc, err } => Stop::Refused { loc, err },
            VerifyErr::Memory => Stop::OutOfMemory,
        }
    }
}

impl<E: StdError> From<SymbolTableErr> for Stop<E> {
    ghost use Rattle.std.specs.Prelude.{◌≡◌};
    ghost use Rattle.plir_driver.specs.StopOf.{of_table};

    ghost from_gives = { λ e s. s ≡ of_table e };

    fn from(error: SymbolTableErr) -> Stop<E> {
        match error {
            SymbolTableErr::Memory => Stop::OutOfMemory,
            err => Stop::NoTable { err },
        }
    }
}

impl<E: StdError> From<PassErr> for Stop<E> {
    ghost use Rattle.std.specs.Prelude.{◌≡◌};
    ghost use Rattle.plir_driver.specs.StopOf.{of_pass};

    ghost from_gives = { λ e s. s ≡ of_pass e };

    fn from(error: PassErr) -> Stop<E> {
        match error {
            PassErr::NoTable { err } => Stop::NoTable { err },
            PassErr::Unfit { why } => Stop::Unfit { why },
            PassErr::TooManyNodes => Stop::TooManyNodes,
            PassErr::OutOfMemory => Stop::OutOfMemory,
        }
    }
}

impl<E: StdError> From<Memory> for Stop<E> {
    ghost use Rattle.std.specs.Prelude.{◌≡◌};
    ghost use Rattle.plir_driver.specs.declared.stop.Stop.TheVariants as Variants;

    ghost from_gives = { λ _ s. s ≡ Variants.OutOfMemory };

    fn from(_error: Memory) -> Stop<E> {
        Stop::OutOfMemory
    }
}

impl<E: StdError> From<AllocError> for Stop<E> {
    ghost use Rattle.std.specs.Prelude.{◌≡◌};
    ghost use Rattle.plir_driver.specs.declared.stop.Stop.TheVariants as Variants;

    ghost from_gives = { λ _ s. s ≡ Variants.OutOfMemory };

    fn from(_error: AllocError) -> Stop<E> {
        Stop::OutOfMemory
    }
}

impl<E: StdError, T: Drop> From<AllocFailed<T>> for Stop<E> {
    ghost use Rattle.std.specs.Prelude.{◌≡◌};
    ghost use Rattle.plir_driver.specs.declared.stop.Stop.TheVariants as Variants;

    ghost from_gives = { λ _ s. s ≡ Variants.OutOfMemory };

    fn from(_error: AllocFailed<T>) -> Stop<E> {
        Stop::OutOfMemory
    }
}
