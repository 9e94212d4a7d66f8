//! Why a pass stops.
use plir_builtin::SymbolTableErr;
use plir_data::Memory;
use std::alloc::{AllocError, AllocFailed};
use thiserror::Error;

/// Why a pass stops. The text is what is told of it.
#[derive(Debug, Drop, Error)]
pub enum PassErr {
    /// A symbol table is refused, as where the operation is none.
    #[error("{err}")]
    NoTable { err: SymbolTableErr },
    /// The pass can't be run over the operation: what stands against it.
    #[error("{why}")]
    Unfit { why: &'static str },
    /// There are more nodes than the pass may visit, or than the context has room for.
    #[error("too many nodes")]
    TooManyNodes,
    /// A growth was refused.
    #[error("out of memory")]
    OutOfMemory,
}

impl From<SymbolTableErr> for PassErr {
    ghost use Rattle.std.specs.Prelude.{◌≡◌};
    ghost use Rattle.plir_driver.specs.StopOf.{of_table_in_pass};

    ghost from_gives = { λ e s. s ≡ of_table_in_pass e };

    fn from(error: SymbolTableErr) -> PassErr {
        match error {
            SymbolTableErr::Memory => PassErr::OutOfMemory,
            err => PassErr::NoTable { err },
        }
    }
}

impl From<Memory> for PassErr {
    ghost use Rattle.std.specs.Prelude.{◌≡◌};
    ghost use Rattle.plir_driver.specs.declared.pass_err.PassErr.TheVariants as Variants;

    ghost from_gives = { λ _ s. s ≡ Variants.OutOfMemory };

    fn from(_error: Memory) -> PassErr {
        PassErr::OutOfMemory
    }
}

impl From<AllocError> for PassErr {
    ghost use Rattle.std.specs.Prelude.{◌≡◌};
    ghost use Rattle.plir_driver.specs.declared.pass_err.PassErr.TheVariants as Variants;

    ghost from_gives = { λ _ s. s ≡ Variants.OutOfMemory };

    fn from(_error: AllocError) -> PassErr {
        PassErr::OutOfMemory
    }
}

impl<T: Drop> From<AllocFailed<T>> for PassErr {
    ghost use Rattle.std.specs.Prelude.{◌≡◌};
    ghost use Rattle.plir_driver.specs.declared.pass_err.PassErr.TheVariants as Variants;

    ghost from_gives = { λ _ s. s ≡ Variants.OutOfMemory };

    fn from(_error: AllocFailed<T>) -> PassErr {
        PassErr::OutOfMemory
    }
}
