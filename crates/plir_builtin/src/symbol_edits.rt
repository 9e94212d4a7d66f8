//! Edits of symbols over cached tables.
use crate::symbol_table_err::SymbolTableErr;
use plir_core::{OpInsertionPoint, Operation, Ptr};
use thiserror::Error;

/// An edit of the symbols of a table.
#[derive(Clone, Copy, Debug)]
pub enum SymbolEdit {
    /// Inserts a symbol, as [`crate::SymbolTable::insert`] does.
    Insert {
        /// The table's operation.
        table: Ptr<Operation>,
        /// The symbol.
        op: Ptr<Operation>,
        /// Where it is put; without a point before the terminator of the body, if there is one, else last.
        point: Option<OpInsertionPoint>,
    },
    /// Takes a symbol out of the body, as [`crate::SymbolTable::remove`] does.
    Remove {
        /// The table's operation.
        table: Ptr<Operation>,
        /// The symbol.
        op: Ptr<Operation>,
    },
    /// Takes a symbol out of the body and erases it with all below it, as [`crate::SymbolTable::erase`] does.
    Erase {
        /// The table's operation.
        table: Ptr<Operation>,
        /// The symbol.
        op: Ptr<Operation>,
    },
}

/// Why an edit is refused.
#[derive(Debug, Drop, Error)]
pub enum SymbolEditErr {
    /// Something that the edit names is dead.
    #[error("the edit names a node that is not live")]
    DeadPointer,
    /// The operation is the table's own, or stands above it.
    #[error("the operation would stand below itself")]
    WouldNest,
    /// Something outside the operation uses a value or a block of it.
    #[error("the operation is still used")]
    StillUsed,
    /// The table refuses.
    #[error("{0}")]
    Table(SymbolTableErr),
}

impl From<SymbolTableErr> for SymbolEditErr {
    ghost use Rattle.std.specs.Prelude.{◌≡◌};
    ghost use Rattle.plir_builtin.specs.declared.symbol_edits.SymbolEditErr.TheVariants as Variants;

    ghost from_gives = { λ x e. e ≡ Variants.Table x };

    fn from(refused: SymbolTableErr) -> SymbolEditErr {
        SymbolEditErr::Table(refused)
    }
}
