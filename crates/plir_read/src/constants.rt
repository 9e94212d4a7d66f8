//! Constants.
ghost use Rattle.std.specs.Prelude.{IfOk, length};
ghost use Rattle.plir_data.specs.AttrSeen.{attr_view};
ghost use Rattle.plir_core.specs.Made.{IsMade};
ghost use Rattle.plir_core.specs.WellFormed.{IsWellFormed};
ghost use Rattle.plir_core.specs.declared.ptr.IRNode.{IRNode};
ghost use Rattle.plir_attr_text.specs.MeantBy.{IsMeantBy};
ghost use Rattle.plir_attr_text.specs.Names.{AreNamed, Grows};
ghost use Rattle.plir_attr_text.specs.Parts.{IsHeldBy};
ghost use Rattle.plir_attr_text.specs.Reading.{ReadsFirst};
ghost use Rattle.plir_attr_text.specs.TypesWritten.{IsWrittenIn};
ghost use Rattle.plir_read.specs.Heads.{IsConstant};
ghost use Rattle.plir_read.specs.HeldTypes.{IsHeldByConstant};
ghost use Rattle.plir_read.specs.Keeping.{KeepsOlder};
ghost use Rattle.plir_read.specs.OpReading.{value_at, constant_at, named_constant_at};
ghost use Rattle.plir_read.specs.OpsRead.{ReadsConstant, HoldsNew};
ghost use Rattle.plir_read.specs.Slots.{IsMadeInOrder};

use crate::making::make_constant;
use crate::openings::expect_names;
use plir_attr_text::attrs::read_attr_at;
use plir_attr_text::fault::Stop;
use plir_attr_text::types::read_type_at;
use plir_attr_text::words::read_sign;
use plir_core::{Context, Operation, Ptr};
use plir_data::{AttrObj, Identifier, OpSet, TypeHandle, TypeStore};
use std::alloc::Global;

// A constant's value, and the type of its result.
#[derive(Drop)]
pub struct ConstantData<D: OpSet> {
    pub value: AttrObj<D>,
    pub ty: TypeHandle,
}

// `<ATTR>`
#[tactic(auto, unfolding(crate::specs::OpReading::value_at))]
fn read_value<'a, D: OpSet, C: TypeStore<D>>(
    alloc: Global,
    ctx: &mut C,
    levels: usize,
    bytes: &'a [u8],
) -> Result<(AttrObj<D>, &'a [u8]), Stop>
    ensures read { ReadsFirst (IsMeantBy (C.types ctx.new)) result (value_at levels bytes.now) }
    ensures grown { Grows (C.types ctx.old) (C.types ctx.new) }
    ensures named { AreNamed (IsWrittenIn bytes.now) (C.types ctx.old) (C.types ctx.new) }
    ensures held { HoldsNew IsHeldBy result (value_at levels bytes.now) (C.types ctx.old) (C.types ctx.new) }
    ensures rest { C.same_besides ctx.old ctx.new }
{
    let start = read_sign(bytes, b'<')?;
    match read_attr_at(alloc, ctx, levels, start) {
        Ok(read) => {
            let end = read_sign(read.1, b'>')?;
            Ok((read.0, end))
        }
        Err(stop) => Err(stop),
    }
}

// `<ATTR> : TYPE`
#[tactic(auto, unfolding(crate::specs::OpReading::constant_at))]
fn read_typed_value<'a, D: OpSet, C: TypeStore<D>>(
    alloc: Global,
    ctx: &mut C,
    levels: usize,
    bytes: &'a [u8],
) -> Result<(ConstantData<D>, &'a [u8]), Stop>
    ensures read { ReadsFirst (λ x. IsConstant (C.types ctx.new) (attr_view x.value) x.ty) result
        (constant_at levels bytes.now) }
    ensures grown { Grows (C.types ctx.old) (C.types ctx.new) }
    ensures named { AreNamed (IsWrittenIn bytes.now) (C.types ctx.old) (C.types ctx.new) }
    ensures held { HoldsNew IsHeldByConstant result (constant_at levels bytes.now) (C.types ctx.old) (C.types ctx.new) }
    ensures rest { C.same_besides ctx.old ctx.new }
{
    let (value, rest) = match read_value(alloc, ctx, levels, bytes) {
        Ok(read) => read,
        Err(stop) => return Err(stop),
    };
    let colon = read_sign(rest, b':')?;
    match read_type_at(alloc, ctx, levels, colon) {
        Ok(read) => {
            let ty = read.0;
            Ok((ConstantData { value, ty }, read.1))
        }
        Err(stop) => Err(stop),
    }
}

// A constant in no block, whose result has these names, with this many bytes left where its id stands.
#[tactic(auto, unfolding(crate::specs::OpReading::named_constant_at))]
pub fn read_constant<'a, D: OpSet>(
    alloc: Global,
    ctx: &mut Context<D>,
    levels: usize,
    names: Vec<Option<Identifier>>,
    left: usize,
    bytes: &'a [u8],
) -> Result<(Ptr<Operation>, &'a [u8]), Stop>
    ensures read { ReadsConstant ctx.old ctx.new levels names.items bytes.now result }
    ensures made { IfOk result (λ x. IsMade ctx.old.nodes ctx.new.nodes (IRNode.Operation x.0)) }
    ensures slots { IfOk result (λ x. IsMadeInOrder ctx.old.nodes ctx.new.nodes (IRNode.Operation x.0)) }
    ensures kept { KeepsOlder ctx.old ctx.new }
    ensures named { AreNamed (IsWrittenIn bytes.now) ctx.old.types ctx.new.types }
    ensures held { HoldsNew IsHeldByConstant result (named_constant_at levels (length names.items) bytes.now)
        ctx.old.types ctx.new.types }
    ensures whole { IsWellFormed D.attr_handles ctx.new }
{
    ctx.stands();
    expect_names(1, names.len(), left)?;
    let read = read_typed_value(alloc, ctx, levels, bytes);
    ctx.stands();
    let (constant, rest) = read?;
    let op = make_constant(alloc, ctx, names, constant)?;
    Ok((op, rest))
}
