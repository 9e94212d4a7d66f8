//! A dialect of kinds alone, as a crate of its own would have it: sums and negations.
use plir_core::{Context, Operation, Ptr};
use plir_data::{IntegerAttr, OpSet, OwnKind, VerifyErr};
use plir_dialect::{Dialect, NamesAsBuiltin, NoUses, OwnRules};
use plir_folding::{FoldKind, wrapping_sum};
use plir_passes::EffectKind;
use std::alloc::Global;
use thiserror::Error;

/// The kinds.
#[derive(Clone, Copy, PartialEq, Eq, Debug)]
pub enum ToyKind {
    /// Adds two values.
    Add,
    /// Negates a value.
    Neg,
}

/// An operation that adds two values has not two operands.
#[derive(Clone, Copy, PartialEq, Eq, Debug, Error)]
#[error("adds not two values")]
pub struct NotTwoValues;

/// The dialect.
pub type Toy = Dialect<ToyKind>;

impl OwnKind for ToyKind {
    ghost use Rattle.std.specs.Prelude.{false};
    ghost use Rattle.joined_dialects.specs.Toy.{id_of};

    type Err = NotTwoValues;

    ghost is_terminator = { λ _. false };

    ghost is_symbol = { λ _. false };

    ghost is_symbol_table = { λ _. false };

    ghost is_symbol_user = { λ _. false };

    ghost id = { id_of };

    fn is_terminator(self) -> bool {
        false
    }

    fn is_symbol(self) -> bool {
        false
    }

    fn is_symbol_table(self) -> bool {
        false
    }

    fn is_symbol_user(self) -> bool {
        false
    }

    fn id(self) -> &'static str {
        match self {
            ToyKind::Add => "toy.add",
            ToyKind::Neg => "toy.neg",
        }
    }
}

impl EffectKind for ToyKind {
    ghost use Rattle.std.specs.Prelude.{false};

    ghost has_effect = { λ _. false };

    fn has_effect(self) -> bool {
        false
    }
}

impl FoldKind for ToyKind {
    ghost use Rattle.joined_dialects.specs.Toy.{fold_of};

    ghost fold = { fold_of };

    fn fold(self, left: &IntegerAttr, right: &IntegerAttr) -> Option<IntegerAttr> {
        match self {
            ToyKind::Add => wrapping_sum(left, right),
            ToyKind::Neg => None,
        }
    }
}

impl NoUses for ToyKind {}

impl NamesAsBuiltin for ToyKind {}

impl<D: OpSet> OwnRules<D> for ToyKind {
    ghost use Rattle.std.specs.Prelude.{◌≡◌, Some};
    ghost use Rattle.plir_core.specs.ContextView.{location_of};
    ghost use Rattle.joined_dialects.specs.Toy.{IsRight};

    ghost rule = { IsRight };

    ghost rule_refusal = { λ _ s op loc _. location_of s op ≡ Some loc };

    fn verify_op(
        self,
        _alloc: Global,
        ctx: &Context<D>,
        op: Ptr<Operation>,
    ) -> Result<(), VerifyErr<NotTwoValues>> {
        match self {
            ToyKind::Add if op.get_num_operands(ctx) != 2 => Err(VerifyErr::Refused {
                loc: op.loc(ctx),
                err: NotTwoValues,
            }),
            _ => Ok(()),
        }
    }
}
