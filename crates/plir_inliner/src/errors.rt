//! Why inlining is refused.
use plir_builtin::SymbolTableErr;
use plir_core::NodeErr;
use plir_data::Memory;
use thiserror::Error;

/// Why inlining is refused.
#[derive(Debug, Drop, Error)]
pub enum InlineErr {
    /// Memory that was asked for was refused.
    #[error("out of memory")]
    Memory,
    /// There is no room for the nodes of a copy.
    #[error("too many nodes")]
    TooManyNodes,
    /// The nearest symbol table of a call is refused, so that what the call means is not known.
    #[error("{0}")]
    Table(SymbolTableErr),
}

impl From<Memory> for InlineErr {
    ghost use Rattle.std.specs.Prelude.{◌≡◌};
    ghost use Rattle.plir_inliner.specs.declared.errors.InlineErr.TheVariants as Variants;

    ghost from_gives = { λ _ e. e ≡ Variants.Memory };

    fn from(_refused: Memory) -> InlineErr {
        InlineErr::Memory
    }
}

impl From<NodeErr> for InlineErr {
    ghost use Rattle.std.specs.Prelude.{◌≡◌};
    ghost use Rattle.plir_inliner.specs.Steps.{of_nodes};

    ghost from_gives = { λ refused e. e ≡ of_nodes refused };

    fn from(refused: NodeErr) -> InlineErr {
        match refused {
            NodeErr::Memory => InlineErr::Memory,
            NodeErr::TooManyNodes => InlineErr::TooManyNodes,
        }
    }
}

impl From<SymbolTableErr> for InlineErr {
    ghost use Rattle.std.specs.Prelude.{◌≡◌};
    ghost use Rattle.plir_inliner.specs.Steps.{of_table};

    ghost from_gives = { λ refused e. e ≡ of_table refused };

    fn from(refused: SymbolTableErr) -> InlineErr {
        match refused {
            SymbolTableErr::Memory => InlineErr::Memory,
            other => InlineErr::Table(other),
        }
    }
}
