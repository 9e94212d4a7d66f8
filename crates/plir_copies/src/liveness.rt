//! Whether what a map has put in place of values and blocks is live.
ghost use Rattle.std.specs.Prelude.{◌≡◌, ◌↔◌, IsTrue, Some};
ghost use Rattle.std.specs.HashMap.{get};
ghost use Rattle.plir_data.specs.declared.location.Location.{Location as AnyLocation};
ghost use Rattle.plir_core.specs.ContextView.{ContextView, IsLive, IsValueLive};
ghost use Rattle.plir_core.specs.Made.{KeepsLive};
ghost use Rattle.plir_core.specs.SameValue.{same_ptr, same_value};
ghost use Rattle.plir_core.specs.declared.ptr.BasicBlock.{BasicBlock as BlockKind};
ghost use Rattle.plir_core.specs.declared.ptr.IRNode.{IRNode as AnyNode};
ghost use Rattle.plir_core.specs.declared.ptr.Ptr.{Ptr as AnyPtr};
ghost use Rattle.plir_core.specs.declared.value.Value.{Value as AnyValue};
ghost use Rattle.plir_copies.specs.Images.{AreImagesLive, Images, for_call, images, no_images, with_block};
ghost use Rattle.plir_copies.specs.Images.{with_value};

use crate::value_map::ValueMap;
use plir_core::{BasicBlock, Context, Ptr, Value};
use plir_data::OpSet;
use std::collections::HashMap;

// Whether all values of a map are live.
fn are_values_live<D: OpSet>(ctx: &Context<D>, values: &HashMap<Value, Value>) -> bool
    ensures { IsTrue result ↔ ((v w : AnyValue) → get same_value values.now v ≡ Some w → IsValueLive ctx.now w) }
{
    ctx.stands();
    'entries: for (_from, to) in values {
        if !to.is_live(ctx) {
            return false;
        }
    }
    true
}

// Whether all blocks of a map are live.
fn are_blocks_live<D: OpSet>(
    ctx: &Context<D>,
    blocks: &HashMap<Ptr<BasicBlock>, Ptr<BasicBlock>>,
) -> bool
    ensures { IsTrue result ↔ ((b c : AnyPtr BlockKind) → get same_ptr blocks.now b ≡ Some c →
        IsLive ctx.now (AnyNode.BasicBlock c)) }
{
    ctx.stands();
    'entries: for (_from, to) in blocks {
        if !to.is_live(ctx) {
            return false;
        }
    }
    true
}

impl ValueMap {
    /// Whether all that was put in place of values and blocks is live: the condition of a copy under the map.
    pub fn is_live<D: OpSet>(&self, ctx: &Context<D>) -> bool
        ensures { IsTrue result ↔ AreImagesLive ctx.now (images self.now) }
    {
        if !are_values_live(ctx, &self.values) {
            return false;
        }
        are_blocks_live(ctx, &self.blocks)
    }
}

/// What is put in place of values and blocks stays live where live ones are put there, whatever call copies stand in
/// place of, and where what was live stays so.
pub fn images_stay_live<D: OpSet>()
    ensures none { (s : ContextView D.Kind D.Attr D.Ty) → AreImagesLive s no_images }
    ensures value { (s : ContextView D.Kind D.Attr D.Ty) (m : Images) (v w : AnyValue) → AreImagesLive s m →
        IsValueLive s w → AreImagesLive s (with_value m v w) }
    ensures block { (s : ContextView D.Kind D.Attr D.Ty) (m : Images) (b c : AnyPtr BlockKind) → AreImagesLive s m →
        IsLive s (AnyNode.BasicBlock c) → AreImagesLive s (with_block m b c) }
    ensures call { (s : ContextView D.Kind D.Attr D.Ty) (m : Images) (loc : AnyLocation) → AreImagesLive s m →
        AreImagesLive s (for_call m loc) }
    ensures kept { (s t : ContextView D.Kind D.Attr D.Ty) (m : Images) → KeepsLive s.nodes t.nodes →
        AreImagesLive s m → AreImagesLive t m }
{}
