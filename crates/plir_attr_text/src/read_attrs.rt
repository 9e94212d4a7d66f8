//! The reader of texts of attributes.

ghost use Rattle.std.specs.Prelude.{IfErr};
ghost use Rattle.plir_data.specs.AttrSeen.{attr_view};
ghost use Rattle.plir_attr_text.specs.{AttrAnswer.IsAttrRead, Names.Adds, Meaning.IsMeant, Faults.HasNoPlace};
ghost use Rattle.plir_attr_text.specs.{Reading.Reads, AttrReading.attr_at, TypesIn.IsInAttr, Wholes.whole};

use crate::attrs::read_attr_at;
use crate::fault::{ReadErr, Stop};
use crate::place::{ended, with_place};
use crate::read_types::MAX_LEVELS;
use plir_data::{AttrObj, OpSet, TypeStore};
use std::alloc::Global;

fn whole_attr<D: OpSet, C: TypeStore<D>>(
    alloc: Global,
    ctx: &mut C,
    bytes: &[u8],
) -> Result<AttrObj<D>, Stop>
    ensures read { Reads (λ a x. IsMeant (C.types ctx.new) x (attr_view a)) result (whole (attr_at 200) bytes.now) }
    ensures kept { Adds C.types C.same_besides (IsInAttr 200 bytes.now) ctx.old ctx.new }
{
    match read_attr_at(alloc, ctx, MAX_LEVELS, bytes) {
        Ok(read) => ended(read.0, read.1),
        Err(stop) => Err(stop),
    }
}

/// The attribute that a text stands for, as `builtin.vec [builtin.bool true]`. Types that the text names
/// come into the table last, also where it is refused; nothing else changes.
pub fn read_attr<D: OpSet, C: TypeStore<D>>(
    alloc: Global,
    ctx: &mut C,
    text: &str,
) -> Result<AttrObj<D>, ReadErr>
    ensures read { IsAttrRead D.attr_handles (C.types ctx.old) text.now result (C.types ctx.new) }
    ensures placeless { IfErr result HasNoPlace }
    ensures rest { C.same_besides ctx.old ctx.new }
{
    let bytes = text.as_bytes();
    let read = whole_attr(alloc, ctx, bytes);
    with_place(bytes, read)
}
