//! A set of own kinds, one of which asks for two operands.
use plir_builtin::{SymbolTableCollection, SymbolUses};
use plir_core::{Context, Operation, Ptr};
use plir_data::{KindSet, OpKind, OwnKind, VerifyErr};
use plir_verify::VerifyKind;
use std::alloc::Global;
use thiserror::Error;

/// The kinds.
#[derive(Clone, Copy, PartialEq, Eq, Debug)]
pub enum PairKind {
    /// Asks for two operands.
    Pair,
    /// Asks for nothing.
    Free,
}

/// An operation that asks for two operands has not two.
#[derive(Clone, Copy, PartialEq, Eq, Debug, Error)]
#[error("not a pair")]
pub struct NotAPair;

impl OwnKind for PairKind {
    ghost use Rattle.std.specs.Prelude.{false};
    ghost use Rattle.plir_builtin_calls.specs.Pairs.{id_of};

    type Err = NotAPair;

    ghost is_terminator = { λ _. false };

    ghost is_symbol = { λ _. false };

    ghost is_symbol_table = { λ _. false };

    ghost is_symbol_user = { λ _. false };

    ghost id = { id_of };

    fn is_terminator(self) -> bool {
        false
    }

    fn is_symbol(self) -> bool {
        false
    }

    fn is_symbol_table(self) -> bool {
        false
    }

    fn is_symbol_user(self) -> bool {
        false
    }

    fn id(self) -> &'static str {
        match self {
            PairKind::Pair => "test.pair",
            PairKind::Free => "test.free",
        }
    }
}

impl SymbolUses<KindSet<PairKind>> for PairKind {
    ghost use Rattle.std.specs.Prelude.{⊤};

    ghost uses_hold = { λ _ _. ⊤ };

    ghost use_refusal = { λ _ _ _ _. ⊥ };

    fn verify_symbol_uses(
        _ctx: &Context<KindSet<PairKind>>,
        _op: Ptr<Operation>,
        _tables: &mut SymbolTableCollection,
    ) -> Result<(), VerifyErr<NotAPair>> {
        Ok(())
    }
}

impl VerifyKind<KindSet<PairKind>> for PairKind {
    ghost use Rattle.std.specs.Prelude.{◌≡◌, Some};
    ghost use Rattle.plir_core.specs.ContextView.{location_of};
    ghost use Rattle.plir_builtin_calls.specs.Pairs.{IsRight};

    ghost rule = { IsRight };

    ghost rule_refusal = { λ s op loc e. location_of s op ≡ Some loc };

    fn verify_op(
        _alloc: Global,
        ctx: &Context<KindSet<PairKind>>,
        op: Ptr<Operation>,
    ) -> Result<(), VerifyErr<NotAPair>> {
        match op.kind(ctx) {
            OpKind::Own(PairKind::Pair) => {
                if op.get_num_operands(ctx) == 2 {
                    return Ok(());
                }
                Err(VerifyErr::Refused {
                    loc: op.loc(ctx),
                    err: NotAPair,
                })
            }
            _ => Ok(()),
        }
    }
}
