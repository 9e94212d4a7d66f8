//! Which operations have an effect, and which may go.
ghost use Rattle.std.specs.Prelude.{◌≡◌, Bool};
ghost use Rattle.plir_core.specs.ContextView.{IsLive, kind_of};
ghost use Rattle.plir_core.specs.declared.ptr.IRNode.{IRNode as AnyNode};
ghost use Rattle.dce.specs.Swept.{is_removable};

use plir_core::{Context, Operation, Ptr};
use plir_data::{KindSet, OpKind, OpSet, OwnKind};

/// An op set that tells which of its kinds have an effect.
pub trait EffectSet: OpSet {
    // Whether an operation of the kind does something besides its results.
    ghost has_effect: { Self.Kind → Bool };

    /// Whether an operation of the kind does something besides its results.
    fn has_effect(kind: Self::Kind) -> bool
        ensures { result ≡ has_effect kind };
}

/// Kinds of a user's own that tell whether they have an effect: the op set of them, [`KindSet`], then tells it.
pub trait EffectKind: OwnKind {
    // Whether an operation of the kind does something besides its results.
    ghost has_effect: { Self → Bool };

    /// Whether an operation of the kind does something besides its results.
    fn has_effect(self) -> bool
        ensures { result ≡ has_effect self };
}

impl<K: EffectKind> EffectSet for KindSet<K> {
    ghost has_effect = { K.has_effect };

    fn has_effect(kind: K) -> bool {
        kind.has_effect()
    }
}

/// Whether an operation may go where nothing uses its results: constants may, and of the user's own kinds those that
/// have no effect and end no block.
pub(crate) fn is_removable<D: EffectSet>(ctx: &Context<D>, op: Ptr<Operation>) -> bool
    requires { IsLive ctx.now (AnyNode.Operation op) }
    ensures { result ≡ is_removable D.has_effect D.is_terminator (kind_of ctx.now op) }
{
    match op.kind(ctx) {
        OpKind::Constant => true,
        OpKind::Own(kind) => !D::has_effect(kind) && !D::is_terminator(kind),
        OpKind::Module | OpKind::Func | OpKind::ForwardRef => false,
    }
}
