//! Why a symbol table refuses.
use crate::symbols::SymbolOpInterfaceErr;
use plir_data::Memory;
use plir_iface::{NRegionsVerifyErr, SingleBlockRegionVerifyErr};
use std::alloc::AllocError;
use thiserror::Error;

/// Why a symbol table, or a collection of them, refuses.
#[derive(Debug, Drop, Error)]
pub enum SymbolTableErr {
    /// The operation is no symbol table.
    #[error("Op does not implement SymbolTableInterface")]
    DoesNotImplementSymbolTableInterface,
    /// The operation is no symbol.
    #[error("Op does not implement SymbolOpInterface")]
    DoesNotImplementSymbolOpInterface,
    /// Another symbol has the name that is reported.
    #[error("Symbol redefined: {0}")]
    SymbolRedefined(String),
    /// The symbol, whose name is reported, stands in another block.
    #[error("Symbol Op cannot be inserted as it is already in another symbol table")]
    SymbolOpAlreadyInAnotherTable(String),
    /// The insertion point is not in the table's body.
    #[error("Insertion point must already be inside the same symbol table")]
    InsertionPointNotInSameTable,
    /// The symbol does not stand in the table's body.
    #[error("Symbol op does not belong to the symbol table op")]
    SymbolOpNotInTableOp,
    /// The table's operation has no region, or more than one.
    #[error("{0}")]
    Regions(NRegionsVerifyErr),
    /// The table's region has no block, or more than one.
    #[error("{0}")]
    Body(SingleBlockRegionVerifyErr),
    /// A symbol has no name.
    #[error("{0}")]
    Unnamed(SymbolOpInterfaceErr),
    /// Memory that was asked for was refused.
    #[error("out of memory")]
    Memory,
}

impl From<Memory> for SymbolTableErr {
    ghost use Rattle.std.specs.Prelude.{◌≡◌};
    ghost use Rattle.plir_builtin.specs.declared.symbol_table_err.SymbolTableErr.TheVariants as Variants;

    ghost from_gives = { λ _ e. e ≡ Variants.Memory };

    fn from(_refused: Memory) -> SymbolTableErr {
        SymbolTableErr::Memory
    }
}

impl From<AllocError> for SymbolTableErr {
    ghost use Rattle.std.specs.Prelude.{◌≡◌};
    ghost use Rattle.plir_builtin.specs.declared.symbol_table_err.SymbolTableErr.TheVariants as Variants;

    ghost from_gives = { λ _ e. e ≡ Variants.Memory };

    fn from(_refused: AllocError) -> SymbolTableErr {
        SymbolTableErr::Memory
    }
}
