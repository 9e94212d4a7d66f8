//! Heads of blocks, with their names as they stand in the text.
ghost use Rattle.plir_attr_text.specs.Lists.{items_at};
ghost use Rattle.plir_attr_text.specs.Names.{Adds};
ghost use Rattle.plir_attr_text.specs.Reading.{ReadsFirst};
ghost use Rattle.plir_attr_text.specs.TypesWritten.{IsWrittenIn};
ghost use Rattle.plir_read.specs.OpReading.{argument_at, block_head_at};
ghost use Rattle.plir_read_ir.specs.IrMeaning.{AreSpelledArguments, IsSpelledArgument, IsSpelledHead};

use crate::spelled::{Spelled, read_spelled, read_spelled_label};
use plir_attr_text::fault::Stop;
use plir_attr_text::types::read_type_at;
use plir_attr_text::words::{past_sign, read_separator, read_sign};
use plir_data::{Identifier, OpSet, TypeHandle, TypeStore};
use plir_read::arguments::{Arguments, BlockHeadData};
use plir_read::names::{Suffix, given_name};
use std::alloc::Global;

// Arguments, and their names as they stand in the text.
#[derive(Drop)]
pub struct SpelledArguments<'a> {
    pub arguments: Arguments,
    pub words: Vec<Spelled<'a>>,
}

// What stands before the operations of a block, and its label and the names of its arguments as they stand in the text.
#[derive(Drop)]
pub struct SpelledHead<'a> {
    pub head: BlockHeadData,
    pub label: Spelled<'a>,
    pub words: Vec<Spelled<'a>>,
}

// An argument: its name as it stands in the text, the name that is given, and its type.
#[derive(Drop)]
pub struct SpelledArgument<'a> {
    pub word: Spelled<'a>,
    pub given: Option<Identifier>,
    pub ty: TypeHandle,
}

// `name: TYPE`
#[tactic(auto, unfolding(plir_read::specs::OpReading::argument_at))]
fn read_argument<'a, D: OpSet, C: TypeStore<D>>(
    alloc: Global,
    ctx: &mut C,
    levels: usize,
    bytes: &'a [u8],
) -> Result<(SpelledArgument<'a>, &'a [u8]), Stop>
    ensures read { ReadsFirst (IsSpelledArgument (C.types ctx.new)) result (argument_at levels bytes.now) }
    ensures kept { Adds C.types C.same_besides (IsWrittenIn bytes.now) ctx.old ctx.new }
{
    let ((word, name), rest) = read_spelled(alloc, bytes)?;
    let colon = read_sign(rest, b':')?;
    match read_type_at(alloc, ctx, levels, colon) {
        Ok(read) => {
            let given = given_name(alloc, Suffix::Argument, name)?;
            let ty = read.0;
            Ok((SpelledArgument { word, given, ty }, read.1))
        }
        Err(stop) => Err(stop),
    }
}

// Arguments in parentheses.
fn read_arguments<'a, D: OpSet, C: TypeStore<D>>(
    alloc: Global,
    ctx: &mut C,
    levels: usize,
    bytes: &'a [u8],
) -> Result<(SpelledArguments<'a>, &'a [u8]), Stop>
    ensures read { ReadsFirst (AreSpelledArguments (C.types ctx.new)) result
        (items_at 40 41 (argument_at levels) bytes.now) }
    ensures kept { Adds C.types C.same_besides (IsWrittenIn bytes.now) ctx.old ctx.new }
{
    let start = read_sign(bytes, b'(')?;
    let mut types = Vec::new(alloc);
    let mut names = Vec::new(alloc);
    let mut words = Vec::new(alloc);
    if let Some(rest) = past_sign(start, b')') {
        let arguments = Arguments { types, names };
        return Ok((SpelledArguments { arguments, words }, rest));
    }
    let mut rest = start;
    'arguments: loop {
        let (argument, after) = match read_argument(alloc, ctx, levels, rest) {
            Ok(read) => read,
            Err(stop) => return Err(stop),
        };
        words.push(argument.word)?;
        names.push(argument.given)?;
        types.push(argument.ty)?;
        let (goes_on, behind) = read_separator(after, b')')?;
        if goes_on {
            rest = behind;
        } else {
            let arguments = Arguments { types, names };
            return Ok((SpelledArguments { arguments, words }, behind));
        }
    }
}

// `^name(argument, argument):`
#[tactic(auto, unfolding(plir_read::specs::OpReading::block_head_at, plir_read_own::specs::OwnReading::label_at))]
pub fn read_spelled_head<'a, D: OpSet, C: TypeStore<D>>(
    alloc: Global,
    ctx: &mut C,
    levels: usize,
    bytes: &'a [u8],
) -> Result<(SpelledHead<'a>, &'a [u8]), Stop>
    ensures read { ReadsFirst (IsSpelledHead (C.types ctx.new)) result (block_head_at levels bytes.now) }
    ensures kept { Adds C.types C.same_besides (IsWrittenIn bytes.now) ctx.old ctx.new }
{
    let ((word, name), rest) = read_spelled_label(alloc, bytes)?;
    match read_arguments(alloc, ctx, levels, rest) {
        Ok(read) => {
            let end = read_sign(read.1, b':')?;
            let label = given_name(alloc, Suffix::Block, name)?;
            let SpelledArguments { arguments, words } = read.0;
            let head = BlockHeadData { label, arguments };
            Ok((
                SpelledHead {
                    head,
                    label: word,
                    words,
                },
                end,
            ))
        }
        Err(stop) => Err(stop),
    }
}
