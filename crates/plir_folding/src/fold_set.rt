//! What operations make of integers.
ghost use Rattle.std.specs.Prelude.{◌≡◌, Option, option_map};
ghost use Rattle.plir_folding.specs.Worth.{Integer, integer_of};

use plir_data::{IntegerAttr, KindSet, NoMeaning, OpSet, OwnKind};

/// An op set that tells what operations of its kinds make of two integers.
pub trait FoldSet: OpSet {
    // What an operation of the kind makes of two integers, where that is known.
    ghost fold: { Self.Kind → Integer → Integer → Option Integer };

    /// What an operation of the kind makes of two integers; none, where it is not to be folded, as where it is of
    /// another kind, or the integers are of widths that do not fit.
    fn fold(kind: Self::Kind, left: &IntegerAttr, right: &IntegerAttr) -> Option<IntegerAttr>
        ensures { option_map integer_of result ≡ fold kind (integer_of left.now) (integer_of right.now) };
}

/// Kinds of a user's own that tell what they make of two integers: the op set of them, [`KindSet`], then tells it.
pub trait FoldKind: OwnKind {
    // What an operation of the kind makes of two integers, where that is known.
    ghost fold: { Self → Integer → Integer → Option Integer };

    /// What an operation of the kind makes of two integers; none, where it is not to be folded.
    fn fold(self, left: &IntegerAttr, right: &IntegerAttr) -> Option<IntegerAttr>
        ensures { option_map integer_of result ≡ fold self (integer_of left.now) (integer_of right.now) };
}

impl<K: FoldKind> FoldSet for KindSet<K> {
    ghost fold = { K.fold };

    fn fold(kind: K, left: &IntegerAttr, right: &IntegerAttr) -> Option<IntegerAttr> {
        kind.fold(left, right)
    }
}

impl FoldKind for NoMeaning {
    ghost use Rattle.std.specs.Prelude.{None};

    ghost fold = { λ _ _ _. None };

    /// Answers none: no builtin operation is of this kind.
    fn fold(self, _left: &IntegerAttr, _right: &IntegerAttr) -> Option<IntegerAttr> {
        None
    }
}
