//! Which operations hand on one of their operands.
ghost use Rattle.std.specs.Prelude.{◌≡◌, Bool};
ghost use Rattle.plir_folding.specs.declared.identity_set.Side.{Side as AnySide};
ghost use Rattle.plir_folding.specs.Worth.{Integer, integer_of};

use plir_data::{IntegerAttr, KindSet, NoMeaning, OpSet, OwnKind};

/// One of the two operands of an operation.
#[derive(Clone, Copy, PartialEq, Eq, Debug)]
pub enum Side {
    /// The first operand.
    Left,
    /// The second operand.
    Right,
}

/// An op set that tells of operations of its kinds with two operands, one of which is a constant integer, whether their
/// result is the other operand.
pub trait IdentitySet: OpSet {
    // Whether the result of an operation of the kind is its other operand, where the one at this side is the integer.
    ghost is_identity: { Self.Kind → AnySide → Integer → Bool };

    /// Whether the result of an operation of the kind is its other operand, where the one at this side is the integer:
    /// of one that adds, 0 at either side, and of one that subtracts, 0 at the right one.
    fn is_identity(kind: Self::Kind, side: Side, constant: &IntegerAttr) -> bool
        ensures { result ≡ is_identity kind side (integer_of constant.now) };
}

/// Kinds of a user's own that tell whether the result of an operation is one of its operands: the op set of them,
/// [`KindSet`], then tells it.
pub trait IdentityKind: OwnKind {
    // Whether the result of an operation of the kind is its other operand, where the one at this side is the integer.
    ghost is_identity: { Self → AnySide → Integer → Bool };

    /// Whether the result of an operation of the kind is its other operand, where the one at this side is the integer.
    fn is_identity(self, side: Side, constant: &IntegerAttr) -> bool
        ensures { result ≡ is_identity self side (integer_of constant.now) };
}

impl<K: IdentityKind> IdentitySet for KindSet<K> {
    ghost is_identity = { K.is_identity };

    fn is_identity(kind: K, side: Side, constant: &IntegerAttr) -> bool {
        kind.is_identity(side, constant)
    }
}

impl IdentityKind for NoMeaning {
    ghost use Rattle.std.specs.Prelude.{false};

    ghost is_identity = { λ _ _ _. false };

    /// Answers no: no builtin operation is of this kind.
    fn is_identity(self, _side: Side, _constant: &IntegerAttr) -> bool {
        false
    }
}
