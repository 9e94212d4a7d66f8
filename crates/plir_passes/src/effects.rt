//! Which kinds of operations have an effect.
ghost use Rattle.std.specs.Prelude.{◌≡◌, Bool};
ghost use Rattle.plir_passes.specs.Dead.{is_removable};

use plir_data::{KindSet, NoMeaning, OpKind, OpSet, OwnKind};

/// An op set that tells which of its kinds have an effect.
pub trait EffectSet: OpSet {
    // Whether an operation of the kind does something besides its results.
    ghost has_effect: { Self.Kind → Bool };

    /// Whether an operation of the kind does something besides its results.
    fn has_effect(kind: Self::Kind) -> bool
        ensures { result ≡ has_effect kind };
}

/// Kinds of a user's own that tell whether they have an effect: the op set of them, [`KindSet`], then tells it.
pub trait EffectKind: OwnKind {
    // Whether an operation of the kind does something besides its results.
    ghost has_effect: { Self → Bool };

    /// Whether an operation of the kind does something besides its results.
    fn has_effect(self) -> bool
        ensures { result ≡ has_effect self };
}

impl<K: EffectKind> EffectSet for KindSet<K> {
    ghost has_effect = { K.has_effect };

    fn has_effect(kind: K) -> bool {
        kind.has_effect()
    }
}

impl EffectKind for NoMeaning {
    ghost use Rattle.std.specs.Prelude.{true};

    ghost has_effect = { λ _. true };

    /// Answers yes: no builtin operation is of this kind.
    fn has_effect(self) -> bool {
        true
    }
}

/// Whether an operation of a kind may go where nothing uses its results: a constant may, and of the user's own kinds
/// one that has no effect and ends no block.
pub fn is_removable<D: EffectSet>(kind: OpKind<D::Kind>) -> bool
    ensures { result ≡ is_removable D.has_effect D.is_terminator kind }
{
    match kind {
        OpKind::Constant => true,
        OpKind::Own(kind) => !D::has_effect(kind) && !D::is_terminator(kind),
        OpKind::Module | OpKind::Func | OpKind::ForwardRef => false,
    }
}
