//! What an operation begins with: names of its results, and its id.
ghost use Rattle.std.specs.Prelude.{◌≡◌, []};
ghost use Rattle.plir_attr_text.specs.Reading.{Gives, ReadsFirst};
ghost use Rattle.plir_read_own.specs.OwnReading.{names_at, names_before};
ghost use Rattle.plir_read_ir.specs.IrMeaning.{AreResultNames, IsIrOpening};
ghost use Rattle.plir_read_ir.specs.IrReading.{ir_kind_at, ir_opening_at};

use crate::spelled::{Spelled, read_spelled};
use plir_attr_text::fault::Stop;
use plir_attr_text::tokens::left_at;
use plir_attr_text::words::read_separator;
use plir_data::Identifier;
use plir_read::heads::{HeadKind, read_op_id};
use plir_read::names::{Suffix, given_name};
use plir_read_own::ReadSet;
use plir_read_own::openings::{read_kind, unread_name_at};
use std::alloc::Global;

// Names of results: as they stand in the text, and as they are given.
#[derive(Drop)]
pub struct ResultNames<'a> {
    pub spelled: Vec<Spelled<'a>>,
    pub given: Vec<Option<Identifier>>,
}

// What the id of an operation names: an operation of the builtin dialect, or a kind of the set.
#[derive(Clone, Copy)]
pub enum IrKind<K> {
    Builtin(HeadKind),
    Own(K),
}

// Names of results, and what the id behind them names, with this many bytes left where the id stands.
#[derive(Drop)]
pub struct IrOpening<'a, K> {
    pub names: ResultNames<'a>,
    pub kind: IrKind<K>,
    pub left: usize,
}

// Names up to `=`.
fn read_names<'a>(alloc: Global, bytes: &'a [u8]) -> Result<(ResultNames<'a>, &'a [u8]), Stop>
    ensures { ReadsFirst AreResultNames result (names_at bytes.now) }
{
    let mut spelled = Vec::new(alloc);
    let mut given = Vec::new(alloc);
    let mut rest = bytes;
    'names: loop {
        let ((word, name), after) = read_spelled(alloc, rest)?;
        let named = given_name(alloc, Suffix::OpResult, name)?;
        given.push(named)?;
        spelled.push(word)?;
        let (goes_on, behind) = read_separator(after, b'=')?;
        if goes_on {
            rest = behind;
        } else {
            return Ok((ResultNames { spelled, given }, behind));
        }
    }
}

// No names.
fn no_names<'a>(alloc: Global) -> ResultNames<'a>
    ensures { AreResultNames result [] }
{
    ResultNames {
        spelled: Vec::new(alloc),
        given: Vec::new(alloc),
    }
}

// The names that stand before an id, if a name comes first.
#[tactic(auto, unfolding(plir_read_own::specs::OwnReading::names_before))]
fn read_names_before<'a>(
    alloc: Global,
    bytes: &'a [u8],
) -> Result<(ResultNames<'a>, &'a [u8]), Stop>
    ensures { ReadsFirst AreResultNames result (names_before bytes.now) }
{
    match read_spelled(alloc, bytes) {
        Ok((_, after)) => match read_names(alloc, bytes) {
            Err(Stop::At(fault, left)) => Err(Stop::At(fault, unread_name_at(after, left))),
            answer => answer,
        },
        Err(Stop::At(_, _)) => Ok((no_names(alloc), bytes)),
        Err(stop) => Err(stop),
    }
}

// What an id names.
#[tactic(auto, unfolding(crate::specs::IrReading::ir_kind_at))]
fn read_ir_kind<D: ReadSet>(bytes: &[u8]) -> Result<(IrKind<D::Kind>, &[u8]), Stop>
    ensures { Gives (λ x. (x.0, x.1.now)) result (ir_kind_at D.find_kind bytes.now) }
{
    match read_op_id(bytes) {
        Ok((kind, rest)) => Ok((IrKind::Builtin(kind), rest)),
        Err(Stop::At(_, _)) => {
            let (kind, rest) = read_kind::<D>(bytes)?;
            Ok((IrKind::Own(kind), rest))
        }
        Err(stop) => Err(stop),
    }
}

// Names of results, and the id.
#[tactic(auto, unfolding(crate::specs::IrReading::ir_opening_at))]
pub fn read_ir_opening<'a, D: ReadSet>(
    alloc: Global,
    bytes: &'a [u8],
) -> Result<(IrOpening<'a, D::Kind>, &'a [u8]), Stop>
    ensures { ReadsFirst IsIrOpening result (ir_opening_at D.find_kind bytes.now) }
{
    let (names, rest) = read_names_before(alloc, bytes)?;
    let (kind, behind) = read_ir_kind::<D>(rest)?;
    let left = left_at(rest);
    Ok((IrOpening { names, kind, left }, behind))
}
