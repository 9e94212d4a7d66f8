//! Kinds of operations, and the op set of them.
use plir_data::{KindSet, NeverRefused, OwnKind};

/// The kinds.
#[derive(Clone, Copy, PartialEq, Eq, Debug)]
pub enum ArithKind {
    /// Adds two values.
    Add,
    /// Negates a value.
    Neg,
    /// Subtracts a value from another one.
    Sub,
}

/// The builtin operations, and those of arithmetic.
pub type ArithSet = KindSet<ArithKind>;

impl OwnKind for ArithKind {
    ghost use Rattle.std.specs.Prelude.{false};
    ghost use Rattle.sample_lowering.specs.Kinds.{id_of};

    type Err = NeverRefused;

    ghost is_terminator = { λ _. false };

    ghost is_symbol = { λ _. false };

    ghost is_symbol_table = { λ _. false };

    ghost is_symbol_user = { λ _. false };

    ghost id = { id_of };

    fn is_terminator(self) -> bool {
        false
    }

    fn is_symbol(self) -> bool {
        false
    }

    fn is_symbol_table(self) -> bool {
        false
    }

    fn is_symbol_user(self) -> bool {
        false
    }

    fn id(self) -> &'static str {
        match self {
            ArithKind::Add => "arith.add",
            ArithKind::Neg => "arith.neg",
            ArithKind::Sub => "arith.sub",
        }
    }
}
