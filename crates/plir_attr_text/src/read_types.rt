//! The readers of texts of types.

ghost use Rattle.std.specs.Prelude.{◌≡◌, ◌≢◌, ◌⊎◌, ℕ, IfOk, IfErr};
ghost use Rattle.plir_data.specs.declared.types.Signedness.{Signedness};
ghost use Rattle.plir_attr_text.specs.Terms.{TypeTerm, TypeTerms, integer_type, function_type};
ghost use Rattle.plir_attr_text.specs.TypeGrammar.{IsText, TypeWithin, IsInteger, FunctionWithin};
ghost use Rattle.plir_attr_text.specs.Names.{Adds, AreNamed, Grows, Names, StandsForType, StandsForInteger};
ghost use Rattle.plir_attr_text.specs.Names.{StandsForFunction};
ghost use Rattle.plir_attr_text.specs.TypeReading.{integer_at, function_at, type_at};
ghost use Rattle.plir_attr_text.specs.TypesIn.{IsInInteger, IsInFunction, IsInType};
ghost use Rattle.plir_attr_text.specs.TypesWritten.{IsWrittenIn, IsWrittenBare};
ghost use Rattle.plir_attr_text.specs.{Parts.IsPartOf, Faults.HasNoPlace, Reading.Reads, Wholes.whole};

use crate::fault::{Fault, ReadErr, Stop};
use crate::place::{ended, with_place};
use crate::types::{read_function, read_integer_handle, read_type_at};
use plir_data::{OpSet, TypeHandle, TypeStore};
use std::alloc::Global;

// How many levels of a text may be open at one place.
pub const MAX_LEVELS: usize = 200;

fn whole_type<D: OpSet, C: TypeStore<D>>(
    alloc: Global,
    ctx: &mut C,
    bytes: &[u8],
) -> Result<TypeHandle, Stop>
    ensures read { Reads (λ h t. Names (C.types ctx.new) h t) result (whole (type_at 200) bytes.now) }
    ensures kept { Adds C.types C.same_besides (IsInType 200 bytes.now) ctx.old ctx.new }
{
    match read_type_at(alloc, ctx, MAX_LEVELS, bytes) {
        Ok(read) => ended(read.0, read.1),
        Err(stop) => Err(stop),
    }
}

fn whole_integer<D: OpSet, C: TypeStore<D>>(ctx: &mut C, bytes: &[u8]) -> Result<TypeHandle, Stop>
    ensures read { Reads (λ h x. Names (C.types ctx.new) h (integer_type x.0 x.1)) result (whole integer_at bytes.now) }
    ensures kept { Adds C.types C.same_besides (IsInInteger bytes.now) ctx.old ctx.new }
{
    match read_integer_handle(ctx, bytes) {
        Ok(read) => ended(read.0, read.1),
        Err(stop) => Err(stop),
    }
}

fn whole_function<D: OpSet, C: TypeStore<D>>(
    alloc: Global,
    ctx: &mut C,
    bytes: &[u8],
) -> Result<TypeHandle, Stop>
    ensures read { Reads (λ h x. Names (C.types ctx.new) h (function_type x.0 x.1)) result
        (whole (function_at (type_at 199)) bytes.now) }
    ensures kept { Adds C.types C.same_besides (IsInFunction 199 bytes.now) ctx.old ctx.new }
{
    match read_function(alloc, ctx, MAX_LEVELS - 1, bytes) {
        Ok(read) => ended(read.0, read.1),
        Err(stop) => Err(stop),
    }
}

/// The type that a text stands for, as `builtin.function <(builtin.integer si32)->()>`. Types that the
/// text names come into the table last, also where it is refused; nothing else changes.
pub fn read_type<D: OpSet, C: TypeStore<D>>(
    alloc: Global,
    ctx: &mut C,
    text: &str,
) -> Result<TypeHandle, ReadErr>
    ensures found { IfOk result (λ h. StandsForType 200 (C.types ctx.new) text.now h) }
    ensures refused { IfErr result (λ e. e.fault ≢ Fault.Memory → (t : TypeTerm) → IsText (TypeWithin 200) text.now t →
        ⊥) }
    ensures placeless { IfErr result HasNoPlace }
    ensures grown { Grows (C.types ctx.old) (C.types ctx.new) }
    ensures named { AreNamed (IsWrittenIn text.now) (C.types ctx.old) (C.types ctx.new) }
    // The types that come are parts of the one that the text stands for.
    ensures held { (t : TypeTerm) → IsText (TypeWithin 200) text.now t →
        AreNamed (λ u. IsPartOf u t) (C.types ctx.old) (C.types ctx.new) }
    ensures rest { C.same_besides ctx.old ctx.new }
{
    let bytes = text.as_bytes();
    let read = whole_type(alloc, ctx, bytes);
    with_place(bytes, read)
}

/// The integer type that a text stands for, without its id, as `si32`.
pub fn read_integer_type<D: OpSet, C: TypeStore<D>>(
    ctx: &mut C,
    text: &str,
) -> Result<TypeHandle, ReadErr>
    ensures found { IfOk result (λ h. StandsForInteger (C.types ctx.new) text.now h) }
    ensures refused { IfErr result (λ e. e.fault ≢ Fault.Memory → (x : Signedness × ℕ) → IsText IsInteger text.now x →
        ⊥) }
    ensures placeless { IfErr result HasNoPlace }
    ensures grown { Grows (C.types ctx.old) (C.types ctx.new) }
    ensures named { AreNamed (IsWrittenBare text.now) (C.types ctx.old) (C.types ctx.new) }
    // Only the type that the text stands for comes.
    ensures held { (x : Signedness × ℕ) → IsText IsInteger text.now x →
        AreNamed (λ u. u ≡ integer_type x.0 x.1) (C.types ctx.old) (C.types ctx.new) }
    ensures rest { C.same_besides ctx.old ctx.new }
{
    let bytes = text.as_bytes();
    let read = whole_integer(ctx, bytes);
    with_place(bytes, read)
}

/// The function type that a text stands for, without its id, as `<(builtin.integer si32)->()>`.
pub fn read_function_type<D: OpSet, C: TypeStore<D>>(
    alloc: Global,
    ctx: &mut C,
    text: &str,
) -> Result<TypeHandle, ReadErr>
    ensures found { IfOk result (λ h. StandsForFunction 200 (C.types ctx.new) text.now h) }
    ensures refused { IfErr result (λ e. e.fault ≢ Fault.Memory → (x : TypeTerms × TypeTerms) →
        IsText (FunctionWithin 200) text.now x → ⊥) }
    ensures placeless { IfErr result HasNoPlace }
    ensures grown { Grows (C.types ctx.old) (C.types ctx.new) }
    ensures named { AreNamed (λ u. IsWrittenBare text.now u ⊎ IsWrittenIn text.now u) (C.types ctx.old) (C.types
        ctx.new) }
    // The types that come are parts of the one that the text stands for.
    ensures held { (x : TypeTerms × TypeTerms) → IsText (FunctionWithin 200) text.now x →
        AreNamed (λ u. IsPartOf u (function_type x.0 x.1)) (C.types ctx.old) (C.types ctx.new) }
    ensures rest { C.same_besides ctx.old ctx.new }
{
    let bytes = text.as_bytes();
    let read = whole_function(alloc, ctx, bytes);
    with_place(bytes, read)
}
