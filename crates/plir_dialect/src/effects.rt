//! Which kinds of operations have an effect, for passes that remove dead code.
use crate::dialect::Dialect;
use crate::one_of::OneOf;
use crate::own_attr::OwnAttr;
use crate::own_type::OwnType;
use plir_passes::{EffectKind, EffectSet};

impl<K: EffectKind, A: OwnAttr, T: OwnType> EffectSet for Dialect<K, A, T> {
    ghost has_effect = { K.has_effect };

    fn has_effect(kind: K) -> bool {
        kind.has_effect()
    }
}

impl<K: EffectKind, A: OwnAttr, T: OwnType> dce::EffectSet for Dialect<K, A, T> {
    ghost has_effect = { K.has_effect };

    fn has_effect(kind: K) -> bool {
        kind.has_effect()
    }
}

impl<A: EffectKind, B: EffectKind> EffectKind for OneOf<A, B> {
    ghost use Rattle.plir_dialect.specs.Sides.{at_side};

    ghost has_effect = { at_side A.has_effect B.has_effect };

    fn has_effect(self) -> bool {
        match self {
            OneOf::First(kind) => kind.has_effect(),
            OneOf::Second(kind) => kind.has_effect(),
        }
    }
}
