//! Heads of blocks.
ghost use Rattle.plir_attr_text.specs.Lists.{items_at};
ghost use Rattle.plir_attr_text.specs.Names.{AreNamed, Grows};
ghost use Rattle.plir_attr_text.specs.Parts.{IsPartOf};
ghost use Rattle.plir_attr_text.specs.Reading.{ReadsFirst};
ghost use Rattle.plir_attr_text.specs.TypesWritten.{IsWrittenIn};
ghost use Rattle.plir_read.specs.Heads.{AreArguments, IsArgument, IsBlockHead};
ghost use Rattle.plir_read.specs.HeldTypes.{IsHeldByArgument, IsHeldByBlockHead};
ghost use Rattle.plir_read.specs.OpReading.{argument_at, block_head_at};
ghost use Rattle.plir_read.specs.OpsRead.{HoldsNew};

use crate::names::{Suffix, given_name};
use plir_attr_text::attr_words::read_name;
use plir_attr_text::fault::Stop;
use plir_attr_text::types::read_type_at;
use plir_attr_text::words::{past_sign, read_separator, read_sign};
use plir_data::{Identifier, OpSet, TypeHandle, TypeStore};
use std::alloc::Global;

// The types of arguments, and their names.
#[derive(Drop)]
pub struct Arguments {
    pub types: Vec<TypeHandle>,
    pub names: Vec<Option<Identifier>>,
}

// What stands before the operations of a block.
#[derive(Drop)]
pub struct BlockHeadData {
    pub label: Option<Identifier>,
    pub arguments: Arguments,
}

// `name: TYPE`
#[tactic(auto, unfolding(crate::specs::OpReading::argument_at))]
fn read_argument<'a, D: OpSet, C: TypeStore<D>>(
    alloc: Global,
    ctx: &mut C,
    levels: usize,
    bytes: &'a [u8],
) -> Result<((Option<Identifier>, TypeHandle), &'a [u8]), Stop>
    ensures read { ReadsFirst (IsArgument (C.types ctx.new)) result (argument_at levels bytes.now) }
    ensures grown { Grows (C.types ctx.old) (C.types ctx.new) }
    ensures named { AreNamed (IsWrittenIn bytes.now) (C.types ctx.old) (C.types ctx.new) }
    ensures held { HoldsNew (λ t a. IsPartOf t a.1) result (argument_at levels bytes.now) (C.types ctx.old)
        (C.types ctx.new) }
    ensures rest { C.same_besides ctx.old ctx.new }
{
    let (name, rest) = read_name(alloc, bytes)?;
    let colon = read_sign(rest, b':')?;
    match read_type_at(alloc, ctx, levels, colon) {
        Ok(read) => {
            let given = given_name(alloc, Suffix::Argument, name)?;
            Ok(((given, read.0), read.1))
        }
        Err(stop) => Err(stop),
    }
}

// Arguments in parentheses.
fn read_arguments<'a, D: OpSet, C: TypeStore<D>>(
    alloc: Global,
    ctx: &mut C,
    levels: usize,
    bytes: &'a [u8],
) -> Result<(Arguments, &'a [u8]), Stop>
    ensures read { ReadsFirst (AreArguments (C.types ctx.new)) result (items_at 40 41 (argument_at levels) bytes.now) }
    ensures grown { Grows (C.types ctx.old) (C.types ctx.new) }
    ensures named { AreNamed (IsWrittenIn bytes.now) (C.types ctx.old) (C.types ctx.new) }
    ensures held { HoldsNew IsHeldByArgument result (items_at 40 41 (argument_at levels) bytes.now) (C.types ctx.old)
        (C.types ctx.new) }
    ensures rest { C.same_besides ctx.old ctx.new }
{
    let start = read_sign(bytes, b'(')?;
    let mut types = Vec::new(alloc);
    let mut names = Vec::new(alloc);
    if let Some(rest) = past_sign(start, b')') {
        return Ok((Arguments { types, names }, rest));
    }
    let mut rest = start;
    'arguments: loop {
        let (argument, after) = match read_argument(alloc, ctx, levels, rest) {
            Ok(read) => read,
            Err(stop) => return Err(stop),
        };
        names.push(argument.0)?;
        types.push(argument.1)?;
        let (goes_on, behind) = read_separator(after, b')')?;
        if goes_on {
            rest = behind;
        } else {
            return Ok((Arguments { types, names }, behind));
        }
    }
}

// `^name(argument, argument):`
#[tactic(auto, unfolding(crate::specs::OpReading::block_head_at))]
pub fn read_block_head<'a, D: OpSet, C: TypeStore<D>>(
    alloc: Global,
    ctx: &mut C,
    levels: usize,
    bytes: &'a [u8],
) -> Result<(BlockHeadData, &'a [u8]), Stop>
    ensures read { ReadsFirst (IsBlockHead (C.types ctx.new)) result (block_head_at levels bytes.now) }
    ensures grown { Grows (C.types ctx.old) (C.types ctx.new) }
    ensures named { AreNamed (IsWrittenIn bytes.now) (C.types ctx.old) (C.types ctx.new) }
    ensures held { HoldsNew IsHeldByBlockHead result (block_head_at levels bytes.now) (C.types ctx.old)
        (C.types ctx.new) }
    ensures rest { C.same_besides ctx.old ctx.new }
{
    let start = read_sign(bytes, b'^')?;
    let (name, rest) = read_name(alloc, start)?;
    match read_arguments(alloc, ctx, levels, rest) {
        Ok(read) => {
            let end = read_sign(read.1, b':')?;
            let label = given_name(alloc, Suffix::Block, name)?;
            Ok((
                BlockHeadData {
                    label,
                    arguments: read.0,
                },
                end,
            ))
        }
        Err(stop) => Err(stop),
    }
}
