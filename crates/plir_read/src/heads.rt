//! Headers of operations and blocks.
ghost use Rattle.std.specs.Prelude.{◌≡◌, Ok};
ghost use Rattle.plir_attr_text.specs.Names.{AreNamed, Grows};
ghost use Rattle.plir_attr_text.specs.Reading.{ReadsFirst, Gives};
ghost use Rattle.plir_attr_text.specs.TypesWritten.{IsWrittenIn};
ghost use Rattle.plir_read.specs.Heads.{IsHead};
ghost use Rattle.plir_read.specs.HeldTypes.{IsHeldByHead};
ghost use Rattle.plir_read.specs.OpReading.{op_kind, op_id, symbol_at, head_at, ends_block, semicolon_at, brace_at};
ghost use Rattle.plir_read.specs.OpsRead.{HoldsNew};

use plir_attr_text::Fault;
use plir_attr_text::attr_words::read_name;
use plir_attr_text::fault::Stop;
use plir_attr_text::tokens::{left_at, unread_id_at};
use plir_attr_text::types::read_type_at;
use plir_attr_text::words::{past_sign, read_sign, read_word};
use plir_data::{Identifier, OpSet, TypeHandle, TypeStore};
use std::alloc::Global;

// Operations with a header and a body.
#[derive(Clone, Copy)]
pub enum BodyKind {
    Module,
    Func,
}

// What the id of an operation names.
#[derive(Clone, Copy)]
pub enum HeadKind {
    Bodied(BodyKind),
    Constant,
    ForwardRef,
}

// What stands before the dictionary: a name, and a function's type.
#[derive(Drop)]
pub enum HeadData {
    Module(Identifier),
    Func(Identifier, TypeHandle),
}

// What the id of an operation names, with `rest` behind it and this many bytes left where it stands.
#[tactic(auto, unfolding(crate::specs::OpReading::op_kind))]
fn op_kind(word: &[u8], rest: &[u8], left: usize) -> Result<HeadKind, Stop>
    ensures { Gives (λ k. k) result (op_kind word.now) }
{
    if word == b"builtin.module".as_slice() {
        Ok(HeadKind::Bodied(BodyKind::Module))
    } else if word == b"builtin.func".as_slice() {
        Ok(HeadKind::Bodied(BodyKind::Func))
    } else if word == b"builtin.constant".as_slice() {
        Ok(HeadKind::Constant)
    } else if word == b"builtin.forward_ref".as_slice() {
        Ok(HeadKind::ForwardRef)
    } else {
        Err(Stop::At(Fault::Unexpected, unread_id_at(word, rest, left)))
    }
}

// The id of an operation.
#[tactic(auto, unfolding(crate::specs::OpReading::op_id))]
pub fn read_op_id(bytes: &[u8]) -> Result<(HeadKind, &[u8]), Stop>
    ensures { Gives (λ x. (x.0, x.1.now)) result (op_id bytes.now) }
{
    let (word, rest) = read_word(bytes)?;
    let kind = op_kind(word, rest, left_at(bytes))?;
    Ok((kind, rest))
}

// `@name`
#[tactic(auto, unfolding(crate::specs::OpReading::symbol_at))]
fn read_symbol(alloc: Global, bytes: &[u8]) -> Result<(Identifier, &[u8]), Stop>
    ensures { Gives (λ x. (x.0, x.1.now)) result (symbol_at bytes.now) }
{
    let start = read_sign(bytes, b'@')?;
    read_name(alloc, start)
}

// Whether a semicolon comes next, and what stands behind it, or here.
#[tactic(auto, unfolding(crate::specs::OpReading::semicolon_at))]
pub fn past_semicolon(bytes: &[u8]) -> (bool, &[u8])
    ensures { semicolon_at bytes.now ≡ Ok (result.0, result.1.now) }
{
    match past_sign(bytes, b';') {
        Some(rest) => (true, rest),
        None => (false, bytes),
    }
}

// Whether no closing brace comes next, and what stands behind it, or here.
#[tactic(auto, unfolding(crate::specs::OpReading::brace_at))]
pub fn past_brace(bytes: &[u8]) -> (bool, &[u8])
    ensures { brace_at bytes.now ≡ Ok (result.0, result.1.now) }
{
    match past_sign(bytes, b'}') {
        Some(rest) => (false, rest),
        None => (true, bytes),
    }
}

// Whether a block ends here: another one, or the closing brace, comes next.
#[tactic(auto, unfolding(crate::specs::OpReading::ends_block))]
pub fn ends_block(bytes: &[u8]) -> bool
    ensures { result ≡ ends_block bytes.now }
{
    past_sign(bytes, b'^').is_some() || past_sign(bytes, b'}').is_some()
}

// What stands behind an id up to the dictionary, with at most this many levels in it.
#[tactic(auto, unfolding(crate::specs::OpReading::head_at))]
pub fn read_head<'a, D: OpSet, C: TypeStore<D>>(
    alloc: Global,
    ctx: &mut C,
    levels: usize,
    kind: BodyKind,
    bytes: &'a [u8],
) -> Result<(HeadData, &'a [u8]), Stop>
    ensures read { ReadsFirst (IsHead (C.types ctx.new)) result (head_at levels kind bytes.now) }
    ensures grown { Grows (C.types ctx.old) (C.types ctx.new) }
    ensures named { AreNamed (IsWrittenIn bytes.now) (C.types ctx.old) (C.types ctx.new) }
    ensures held { HoldsNew IsHeldByHead result (head_at levels kind bytes.now) (C.types ctx.old) (C.types ctx.new) }
    ensures rest { C.same_besides ctx.old ctx.new }
{
    match kind {
        BodyKind::Module => {
            let (name, rest) = read_symbol(alloc, bytes)?;
            Ok((HeadData::Module(name), rest))
        }
        BodyKind::Func => {
            let (name, rest) = read_symbol(alloc, bytes)?;
            let colon = read_sign(rest, b':')?;
            match read_type_at(alloc, ctx, levels, colon) {
                Ok(read) => Ok((HeadData::Func(name, read.0), read.1)),
                Err(stop) => Err(stop),
            }
        }
    }
}
