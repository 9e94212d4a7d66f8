//! What stands behind the id of an own operation, up to its regions.
ghost use Rattle.std.specs.Prelude.{◌≡◌, length};
ghost use Rattle.plir_attr_text.specs.Names.{Adds};
ghost use Rattle.plir_attr_text.specs.Reading.{Gives, ReadsFirst};
ghost use Rattle.plir_attr_text.specs.TypesWritten.{IsWrittenIn};
ghost use Rattle.plir_read_own.specs.OwnTerms.{Signature, num_types};
ghost use Rattle.plir_read_ir.specs.IrMeaning.{AreParts};
ghost use Rattle.plir_read_ir.specs.IrReading.{counted, parts_at};
ghost use Rattle.plir_read_ir.specs.Spelling.{uses_of};

use crate::uses::{SpelledUses, read_spelled_uses};
use plir_attr_text::fault::Stop;
use plir_data::{OpSet, TypeStore};
use plir_read_own::headers::{Typed, expect_names, expect_types, read_typed};
use std::alloc::Global;

// What an own operation uses, and its attributes and types.
#[derive(Drop)]
pub struct OwnParts<'a, D: OpSet> {
    pub uses: SpelledUses<'a>,
    pub typed: Typed<D>,
}

// Whether there is a type for each operand and for each of so many names of results, with this many bytes left where
// the id stands.
#[tactic(auto, unfolding(crate::specs::IrReading::counted))]
fn expect_counts<D: OpSet>(
    uses: &SpelledUses<'_>,
    typed: &Typed<D>,
    names: usize,
    left: usize,
) -> Result<(), Stop>
    ensures { (t : Signature) → num_types t.operand_types ≡ length typed.now.signature.operand_types.items →
        num_types t.result_types ≡ length typed.now.signature.result_types.items →
        Gives (λ u. u) result (counted names (uses_of uses.now) t) }
{
    let types = &typed.signature;
    expect_types(uses.operands.len(), types.operand_types.len(), typed.left)?;
    expect_names(types.result_types.len(), names, left)
}

// What stands behind an id up to the regions, with so many names before the id and this many bytes left there.
#[tactic(auto, unfolding(crate::specs::IrReading::parts_at))]
pub fn read_own_parts<'a, D: OpSet, C: TypeStore<D>>(
    alloc: Global,
    ctx: &mut C,
    levels: usize,
    names: usize,
    left: usize,
    bytes: &'a [u8],
) -> Result<(OwnParts<'a, D>, &'a [u8]), Stop>
    ensures read { ReadsFirst (λ x. AreParts (C.types ctx.new) x.uses x.typed.attributes x.typed.signature) result
        (parts_at levels names bytes.now) }
    ensures kept { Adds C.types C.same_besides (IsWrittenIn bytes.now) ctx.old ctx.new }
{
    let (uses, rest) = read_spelled_uses(alloc, bytes)?;
    let (typed, end) = match read_typed(alloc, ctx, levels, rest) {
        Ok(read) => read,
        Err(stop) => return Err(stop),
    };
    expect_counts(&uses, &typed, names, left)?;
    Ok((OwnParts { uses, typed }, end))
}
