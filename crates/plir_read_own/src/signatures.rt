//! The types of operands and results.
ghost use Rattle.plir_attr_text.specs.Lists.{items_at};
ghost use Rattle.plir_attr_text.specs.Names.{Adds, NamesAll};
ghost use Rattle.plir_attr_text.specs.Reading.{ReadsFirst};
ghost use Rattle.plir_attr_text.specs.Terms.{types_of};
ghost use Rattle.plir_attr_text.specs.TypeReading.{type_at};
ghost use Rattle.plir_attr_text.specs.TypesWritten.{IsWrittenIn};
ghost use Rattle.plir_read_own.specs.OwnMeaning.{AreTypes};
ghost use Rattle.plir_read_own.specs.OwnReading.{signature_at};

use plir_attr_text::fault::Stop;
use plir_attr_text::types::read_type_at;
use plir_attr_text::words::{past_sign, read_arrow, read_separator, read_sign};
use plir_data::{OpSet, TypeHandle, TypeStore};
use std::alloc::Global;

/// The types of an operation's operands and results.
#[derive(Drop)]
pub struct OwnSignature {
    /// The types of its operands.
    pub operand_types: Vec<TypeHandle>,
    /// The types of its results.
    pub result_types: Vec<TypeHandle>,
}

// Types in parentheses.
fn read_types<'a, D: OpSet, C: TypeStore<D>>(
    alloc: Global,
    ctx: &mut C,
    levels: usize,
    bytes: &'a [u8],
) -> Result<(Vec<TypeHandle>, &'a [u8]), Stop>
    ensures read { ReadsFirst (λ hs ts. NamesAll (C.types ctx.new) hs.items (types_of ts)) result
        (items_at 40 41 (type_at levels) bytes.now) }
    ensures kept { Adds C.types C.same_besides (IsWrittenIn bytes.now) ctx.old ctx.new }
{
    let start = read_sign(bytes, b'(')?;
    let mut types = Vec::new(alloc);
    if let Some(rest) = past_sign(start, b')') {
        return Ok((types, rest));
    }
    let mut rest = start;
    'types: loop {
        let (handle, after) = match read_type_at(alloc, ctx, levels, rest) {
            Ok(read) => read,
            Err(stop) => return Err(stop),
        };
        types.push(handle)?;
        let (goes_on, behind) = read_separator(after, b')')?;
        if goes_on {
            rest = behind;
        } else {
            return Ok((types, behind));
        }
    }
}

// `<(TYPE, TYPE)->(TYPE)>`
#[tactic(auto, unfolding(crate::specs::OwnReading::signature_at, plir_attr_text::specs::TypeReading::function_at))]
pub fn read_signature<'a, D: OpSet, C: TypeStore<D>>(
    alloc: Global,
    ctx: &mut C,
    levels: usize,
    bytes: &'a [u8],
) -> Result<(OwnSignature, &'a [u8]), Stop>
    ensures read { ReadsFirst (AreTypes (C.types ctx.new)) result (signature_at levels bytes.now) }
    ensures kept { Adds C.types C.same_besides (IsWrittenIn bytes.now) ctx.old ctx.new }
{
    let start = read_sign(bytes, b'<')?;
    let (operand_types, rest) = match read_types(alloc, ctx, levels, start) {
        Ok(read) => read,
        Err(stop) => return Err(stop),
    };
    let behind = read_arrow(rest)?;
    let (result_types, rest) = match read_types(alloc, ctx, levels, behind) {
        Ok(read) => read,
        Err(stop) => return Err(stop),
    };
    let end = read_sign(rest, b'>')?;
    Ok((
        OwnSignature {
            operand_types,
            result_types,
        },
        end,
    ))
}
