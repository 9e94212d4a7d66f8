//! What a pass says of its end.
ghost use Rattle.std.specs.Prelude.{◌≡◌, ◌≢◌};
ghost use Rattle.plir_core.specs.ContextView.{ContextView, num_live};
ghost use Rattle.plir_walk.specs.Thinned.{IsThinned};
ghost use Rattle.plir_driver.specs.PassEnds.{IsEnd};

use plir_core::Context;
use plir_data::OpSet;

/// Whether a pass has changed anything, as it says at its end.
#[derive(Clone, Copy, Debug, PartialEq, Eq)]
pub enum PassEnd {
    /// Something may have changed.
    Changed,
    /// Nothing has: all nodes stand where they stood and hold what they held, and so do the types.
    Unchanged,
}

/// What a pass says at its end that did nothing but erase nodes, with how many nodes were live as it began: that
/// something has changed exactly where there are fewer.
pub fn end_of_erasures<D: OpSet>(ctx: &Context<D>, live_before: u32) -> PassEnd
    ensures end { (s : ContextView D.Kind D.Attr D.Ty) → num_live s ≡ live_before → IsThinned s ctx.now →
        IsEnd s ctx.now result }
    ensures exact { (s : ContextView D.Kind D.Attr D.Ty) → num_live s ≡ live_before → result ≡ PassEnd.Changed →
        ctx.now ≢ s }
{
    if ctx.num_live() == live_before {
        PassEnd::Unchanged
    } else {
        PassEnd::Changed
    }
}
