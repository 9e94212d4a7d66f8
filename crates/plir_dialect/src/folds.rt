//! What operations make of integers, and which of their operands they hand on, for folding.
use crate::dialect::Dialect;
use crate::one_of::OneOf;
use crate::own_attr::OwnAttr;
use crate::own_type::OwnType;
use plir_data::IntegerAttr;
use plir_folding::{FoldKind, FoldSet, IdentityKind, IdentitySet, Side};

impl<K: FoldKind, A: OwnAttr, T: OwnType> FoldSet for Dialect<K, A, T> {
    ghost fold = { K.fold };

    fn fold(kind: K, left: &IntegerAttr, right: &IntegerAttr) -> Option<IntegerAttr> {
        kind.fold(left, right)
    }
}

impl<A: FoldKind, B: FoldKind> FoldKind for OneOf<A, B> {
    ghost use Rattle.plir_dialect.specs.Sides.{at_side};

    ghost fold = { at_side A.fold B.fold };

    fn fold(self, left: &IntegerAttr, right: &IntegerAttr) -> Option<IntegerAttr> {
        match self {
            OneOf::First(kind) => kind.fold(left, right),
            OneOf::Second(kind) => kind.fold(left, right),
        }
    }
}

impl<K: IdentityKind, A: OwnAttr, T: OwnType> IdentitySet for Dialect<K, A, T> {
    ghost is_identity = { K.is_identity };

    fn is_identity(kind: K, side: Side, constant: &IntegerAttr) -> bool {
        kind.is_identity(side, constant)
    }
}

impl<A: IdentityKind, B: IdentityKind> IdentityKind for OneOf<A, B> {
    ghost use Rattle.plir_dialect.specs.Sides.{at_side};

    ghost is_identity = { at_side A.is_identity B.is_identity };

    fn is_identity(self, side: Side, constant: &IntegerAttr) -> bool {
        match self {
            OneOf::First(kind) => kind.is_identity(side, constant),
            OneOf::Second(kind) => kind.is_identity(side, constant),
        }
    }
}
