//! A toy op set: own kinds of operations, and nothing else.
use plir_data::{IntegerAttr, NeverRefused, OwnKind};
use plir_folding::{FoldKind, IdentityKind, Side, is_zero, wrapping_sum};

/// The toy's kinds of operations.
#[derive(Clone, Copy, PartialEq, Eq, Debug)]
pub enum ToyKind {
    /// Adds two integers.
    Add,
    /// Subtracts one integer from another one.
    Sub,
    /// Uses values.
    Use,
    /// Ends a block.
    Yield,
}

impl OwnKind for ToyKind {
    ghost use Rattle.std.specs.Prelude.{false};
    ghost use Rattle.plir_passes_calls.specs.SummingKinds.{is_yield, id_of};

    type Err = NeverRefused;

    ghost is_terminator = { is_yield };

    ghost is_symbol = { λ _. false };

    ghost is_symbol_table = { λ _. false };

    ghost is_symbol_user = { λ _. false };

    ghost id = { id_of };

    fn is_terminator(self) -> bool {
        matches!(self, ToyKind::Yield)
    }

    fn is_symbol(self) -> bool {
        false
    }

    fn is_symbol_table(self) -> bool {
        false
    }

    fn is_symbol_user(self) -> bool {
        false
    }

    fn id(self) -> &'static str {
        match self {
            ToyKind::Add => "toy.add",
            ToyKind::Sub => "toy.sub",
            ToyKind::Use => "toy.use",
            ToyKind::Yield => "toy.yield",
        }
    }
}

impl FoldKind for ToyKind {
    ghost use Rattle.plir_passes_calls.specs.SummingKinds.{fold_of};

    ghost fold = { fold_of };

    fn fold(self, left: &IntegerAttr, right: &IntegerAttr) -> Option<IntegerAttr> {
        match self {
            ToyKind::Add => wrapping_sum(left, right),
            ToyKind::Sub | ToyKind::Use | ToyKind::Yield => None,
        }
    }
}

impl IdentityKind for ToyKind {
    ghost use Rattle.plir_passes_calls.specs.SummingKinds.{identity_of};

    ghost is_identity = { identity_of };

    fn is_identity(self, side: Side, constant: &IntegerAttr) -> bool {
        match (self, side) {
            (ToyKind::Add, _) => is_zero(constant),
            (ToyKind::Sub, Side::Right) => is_zero(constant),
            (ToyKind::Sub, Side::Left) => false,
            (ToyKind::Use | ToyKind::Yield, _) => false,
        }
    }
}
