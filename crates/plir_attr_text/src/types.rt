//! From a text to a type.

ghost use Rattle.std.specs.Prelude.{◌≡◌, ◌++◌, ℕ, IfOk, OnErr};
ghost use Rattle.plir_data.specs.Types.{AllLive, IsInstantiated, function, unit};
ghost use Rattle.plir_attr_text.specs.Terms.{TypeTerm, integer_type, function_type, types_of};
ghost use Rattle.plir_attr_text.specs.TypeReading.{integer_at, function_at, type_at};
ghost use Rattle.plir_attr_text.specs.TypesIn.{IsInInteger, IsInTypes, IsInFunction, IsInType};
ghost use Rattle.plir_attr_text.specs.{Names.Adds, Names.Names, Names.NamesAll, Reading.Gives, Reading.ReadsFirst};
ghost use Rattle.plir_attr_text.specs.{Lists.items_at};

use crate::fault::Stop;
use crate::words::{
    TypeKind, begin_level, past_sign, read_arrow, read_integer, read_separator, read_sign,
    read_type_head,
};
use plir_data::{
    FunctionType, IntegerType, Memory, OpSet, TypeHandle, TypeStore, TypedHandle, UnitType,
};
use std::alloc::Global;

// An integer type without its id.
pub fn read_integer_handle<'a, D: OpSet, C: TypeStore<D>>(
    ctx: &mut C,
    bytes: &'a [u8],
) -> Result<(TypeHandle, &'a [u8]), Stop>
    ensures read { ReadsFirst (λ h y. Names (C.types ctx.new) h (integer_type y.0 y.1)) result (integer_at bytes.now) }
    ensures kept { Adds C.types C.same_besides (IsInInteger bytes.now) ctx.old ctx.new }
{
    let ((signedness, width), rest) = read_integer(bytes)?;
    let handle = IntegerType::get(ctx, width, signedness)?;
    Ok((handle.into(), rest))
}

// The unit type.
fn unit_handle<D: OpSet, C: TypeStore<D>>(ctx: &mut C) -> Result<TypeHandle, Memory>
    ensures ok { IfOk result (λ h. IsInstantiated (C.types ctx.old) unit h (C.types ctx.new)) }
    ensures err { OnErr result (C.types ctx.new ≡ C.types ctx.old) }
    ensures rest { C.same_besides ctx.old ctx.new }
{
    let handle = UnitType::get(ctx)?;
    Ok(handle.into())
}

// Types in parentheses.
#[cycle(types)]
#[tactic(auto, unfolding(crate::specs::Lists::items_at))]
fn read_types<'a, D: OpSet, C: TypeStore<D>>(
    alloc: Global,
    ctx: &mut C,
    levels: usize,
    bytes: &'a [u8],
) -> Result<(Vec<TypeHandle>, &'a [u8]), Stop>
    ensures read { ReadsFirst (λ hs ts. NamesAll (C.types ctx.new) hs.items (types_of ts)) result
        (items_at 40 41 (type_at levels) bytes.now) }
    ensures kept { Adds C.types C.same_besides (IsInTypes levels bytes.now) ctx.old ctx.new }
{
    let start = read_sign(bytes, b'(')?;
    let mut types = Vec::new(alloc);
    if let Some(rest) = past_sign(start, b')') {
        return Ok((types, rest));
    }
    let mut rest = start;
    'types: loop {
        let (handle, after) = match read_type_at(alloc, ctx, levels, rest) {
            Ok(read) => read,
            Err(stop) => return Err(stop),
        };
        types.push(handle)?;
        let (goes_on, behind) = read_separator(after, b')')?;
        if goes_on {
            rest = behind;
        } else {
            return Ok((types, behind));
        }
    }
}

// The function type of these argument and result types.
fn function_handle<D: OpSet, C: TypeStore<D>>(
    ctx: &mut C,
    arguments: Vec<TypeHandle>,
    results: Vec<TypeHandle>,
) -> Result<TypeHandle, Memory>
    requires { AllLive (C.types ctx.old) (arguments.items ++ results.items) }
    ensures ok { IfOk result (λ h. IsInstantiated (C.types ctx.old) (function arguments.items results.items) h
        (C.types ctx.new)) }
    ensures err { OnErr result (C.types ctx.new ≡ C.types ctx.old) }
    ensures rest { C.same_besides ctx.old ctx.new }
{
    let handle = FunctionType::get(ctx, arguments, results)?;
    Ok(handle.into())
}

// A function type without its id.
#[cycle(types)]
#[tactic(auto, unfolding(crate::specs::TypeReading::function_at))]
pub fn read_function<'a, D: OpSet, C: TypeStore<D>>(
    alloc: Global,
    ctx: &mut C,
    levels: usize,
    bytes: &'a [u8],
) -> Result<(TypeHandle, &'a [u8]), Stop>
    ensures read { ReadsFirst (λ h y. Names (C.types ctx.new) h (function_type y.0 y.1)) result
        (function_at (type_at levels) bytes.now) }
    ensures kept { Adds C.types C.same_besides (IsInFunction levels bytes.now) ctx.old ctx.new }
{
    let start = read_sign(bytes, b'<')?;
    let (arguments, rest) = read_types(alloc, ctx, levels, start)?;
    let behind = read_arrow(rest)?;
    let (results, rest) = read_types(alloc, ctx, levels, behind)?;
    let end = read_sign(rest, b'>')?;
    let handle = function_handle(ctx, arguments, results)?;
    Ok((handle, end))
}

// A type, with at most this many levels open.
#[cycle(types)]
#[tactic(auto, unfolding(crate::specs::TypeReading::type_at))]
pub fn read_type_at<'a, D: OpSet, C: TypeStore<D>>(
    alloc: Global,
    ctx: &mut C,
    levels: usize,
    bytes: &'a [u8],
) -> Result<(TypeHandle, &'a [u8]), Stop>
    ensures read { ReadsFirst (Names (C.types ctx.new)) result (type_at levels bytes.now) }
    ensures kept { Adds C.types C.same_besides (IsInType levels bytes.now) ctx.old ctx.new }
{
    begin_level(levels, bytes)?;
    let (kind, rest) = read_type_head(bytes)?;
    match kind {
        TypeKind::Integer => read_integer_handle(ctx, rest),
        TypeKind::Function => read_function(alloc, ctx, levels - 1, rest),
        TypeKind::Unit => {
            let handle = unit_handle(ctx)?;
            Ok((handle, rest))
        }
    }
}
