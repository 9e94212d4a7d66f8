//! Walkers whose callback may stop the walk, or leave out what is below its node.
#![tactic(auto)]

ghost use Rattle.std.specs.Prelude.{◌≡◌, true};
ghost use Rattle.plir_walk.specs.declared.interruptible.WalkContinue.TheVariants.{Advance, Skip};
ghost use Rattle.std.specs.declared.ops.ControlFlow.TheVariants.{Continue, Break};

use std::ops::ControlFlow;

pub mod immutable;
pub mod mutable;

/// How a walk goes on.
#[derive(Clone, Copy, PartialEq, Eq, Debug)]
pub enum WalkContinue {
    /// It goes on as it stands.
    Advance,
    /// After a PreOrder call it leaves out all nodes below the called one; after a PostOrder call this is
    /// [`WalkContinue::Advance`].
    Skip,
}

impl WalkContinue {
    /// Is this [`WalkContinue::Advance`]?
    pub fn is_advance(&self) -> bool
        ensures yes { self.now ≡ Advance → result ≡ true }
        ensures no { result ≡ true → self.now ≡ Advance }
    {
        matches!(self, WalkContinue::Advance)
    }

    /// Is this [`WalkContinue::Skip`]?
    pub fn is_skip(&self) -> bool
        ensures yes { self.now ≡ Skip → result ≡ true }
        ensures no { result ≡ true → self.now ≡ Skip }
    {
        matches!(self, WalkContinue::Skip)
    }
}

/// What a callback answers: break the walk off with a value, or go on. A walker answers `Continue(Advance)`, or the
/// `Break` of its last call.
pub type WalkResult<B> = ControlFlow<B, WalkContinue>;

/// The answer that breaks a walk off with `value`.
pub fn walk_break<B>(value: B) -> WalkResult<B>
    ensures { result ≡ Break value }
{
    ControlFlow::Break(value)
}

/// The answer with which a walk goes on.
pub fn walk_advance<B>() -> WalkResult<B>
    ensures { result ≡ Continue Advance }
{
    ControlFlow::Continue(WalkContinue::Advance)
}

/// The answer with which a walk leaves out what is below a PreOrder node.
pub fn walk_skip<B>() -> WalkResult<B>
    ensures { result ≡ Continue Skip }
{
    ControlFlow::Continue(WalkContinue::Skip)
}
