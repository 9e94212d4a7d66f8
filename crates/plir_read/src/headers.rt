//! Headers with their dictionaries.
ghost use Rattle.plir_attr_text.specs.Meaning.{IsDictMeant};
ghost use Rattle.plir_attr_text.specs.Names.{AreNamed, Grows};
ghost use Rattle.plir_attr_text.specs.Parts.{IsHeldByEntry};
ghost use Rattle.plir_attr_text.specs.Reading.{ReadsFirst};
ghost use Rattle.plir_attr_text.specs.TypesWritten.{IsWrittenIn};
ghost use Rattle.plir_read.specs.Heads.{IsHeader};
ghost use Rattle.plir_read.specs.HeldTypes.{IsHeldByHeader};
ghost use Rattle.plir_read.specs.OpReading.{dictionary_at, header_at};
ghost use Rattle.plir_read.specs.OpsRead.{HoldsNew};

use crate::heads::{BodyKind, HeadData, read_head};
use plir_attr_text::attrs::read_entries;
use plir_attr_text::fault::Stop;
use plir_attr_text::words::past_sign;
use plir_data::{AttributeDict, OpSet, TypeStore};
use std::alloc::Global;

// A header: what stands before the dictionary, and the entries of that.
#[derive(Drop)]
pub struct HeaderData<D: OpSet> {
    pub head: HeadData,
    pub entries: AttributeDict<D>,
}

// A dictionary in brackets, if one comes next; else one without entries.
#[tactic(auto, unfolding(crate::specs::OpReading::dictionary_at))]
fn read_dictionary<'a, D: OpSet, C: TypeStore<D>>(
    alloc: Global,
    ctx: &mut C,
    levels: usize,
    bytes: &'a [u8],
) -> Result<(AttributeDict<D>, &'a [u8]), Stop>
    ensures read { ReadsFirst (λ x y. IsDictMeant (C.types ctx.new) y x) result (dictionary_at levels bytes.now) }
    ensures grown { Grows (C.types ctx.old) (C.types ctx.new) }
    ensures named { AreNamed (IsWrittenIn bytes.now) (C.types ctx.old) (C.types ctx.new) }
    ensures held { HoldsNew IsHeldByEntry result (dictionary_at levels bytes.now) (C.types ctx.old) (C.types ctx.new) }
    ensures rest { C.same_besides ctx.old ctx.new }
{
    match past_sign(bytes, b'[') {
        None => Ok((AttributeDict::new(alloc), bytes)),
        Some(_) => match read_entries(alloc, ctx, levels, bytes) {
            Ok(read) => Ok((read.0, read.1)),
            Err(stop) => Err(stop),
        },
    }
}

// What stands behind an id up to the body, with at most this many levels in it.
#[tactic(auto, unfolding(crate::specs::OpReading::header_at))]
pub fn read_header<'a, D: OpSet, C: TypeStore<D>>(
    alloc: Global,
    ctx: &mut C,
    levels: usize,
    kind: BodyKind,
    bytes: &'a [u8],
) -> Result<(HeaderData<D>, &'a [u8]), Stop>
    ensures read { ReadsFirst (λ x. IsHeader (C.types ctx.new) x.head x.entries) result
        (header_at levels kind bytes.now) }
    ensures grown { Grows (C.types ctx.old) (C.types ctx.new) }
    ensures named { AreNamed (IsWrittenIn bytes.now) (C.types ctx.old) (C.types ctx.new) }
    ensures held { HoldsNew IsHeldByHeader result (header_at levels kind bytes.now) (C.types ctx.old)
        (C.types ctx.new) }
    ensures rest { C.same_besides ctx.old ctx.new }
{
    let (head, rest) = match read_head(alloc, ctx, levels, kind, bytes) {
        Ok(read) => read,
        Err(stop) => return Err(stop),
    };
    match read_dictionary(alloc, ctx, levels, rest) {
        Ok(read) => {
            let entries = read.0;
            Ok((HeaderData { head, entries }, read.1))
        }
        Err(stop) => Err(stop),
    }
}
