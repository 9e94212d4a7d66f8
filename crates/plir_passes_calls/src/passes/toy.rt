//! A toy op set: own kinds of operations, and nothing else.
use plir_data::{NeverRefused, OwnKind};
use plir_passes::EffectKind;

/// The toy's kinds of operations.
#[derive(Clone, Copy, PartialEq, Eq, Debug)]
pub enum ToyKind {
    /// Adds values.
    Add,
    /// Loads a value, which may fail.
    Load,
    /// Calls a function.
    Call,
    /// Ends a block.
    Yield,
    /// Is to be replaced by [`ToyKind::New`].
    Old,
    /// Stands where [`ToyKind::Old`] stood.
    New,
}

impl OwnKind for ToyKind {
    ghost use Rattle.std.specs.Prelude.{false};
    ghost use Rattle.plir_passes_calls.specs.EffectKinds.{is_yield, is_call, id_of};

    type Err = NeverRefused;

    ghost is_terminator = { is_yield };

    ghost is_symbol = { λ _. false };

    ghost is_symbol_table = { λ _. false };

    ghost is_symbol_user = { is_call };

    ghost id = { id_of };

    fn is_terminator(self) -> bool {
        matches!(self, ToyKind::Yield)
    }

    fn is_symbol(self) -> bool {
        false
    }

    fn is_symbol_table(self) -> bool {
        false
    }

    fn is_symbol_user(self) -> bool {
        matches!(self, ToyKind::Call)
    }

    fn id(self) -> &'static str {
        match self {
            ToyKind::Add => "toy.add",
            ToyKind::Load => "toy.load",
            ToyKind::Call => "toy.call",
            ToyKind::Yield => "toy.yield",
            ToyKind::Old => "toy.old",
            ToyKind::New => "toy.new",
        }
    }
}

impl EffectKind for ToyKind {
    ghost use Rattle.plir_passes_calls.specs.EffectKinds.{has_effect as has_effect_of};

    ghost has_effect = { has_effect_of };

    fn has_effect(self) -> bool {
        !matches!(self, ToyKind::Add | ToyKind::Yield)
    }
}
