//! What an operation begins with: names of its results, and its id.
ghost use Rattle.std.specs.Prelude.{◌≡◌, length};
ghost use Rattle.plir_attr_text.specs.Reading.{ReadsFirst, Gives};
ghost use Rattle.plir_read.specs.Heads.{IsOpening, result_names};
ghost use Rattle.plir_read.specs.OpReading.{names_at, names_before, start_at, named};

use crate::heads::{HeadKind, read_op_id};
use crate::names::{Suffix, given_name};
use plir_attr_text::Fault;
use plir_attr_text::attr_words::read_name;
use plir_attr_text::fault::Stop;
use plir_attr_text::tokens::{ends_at_point, left_at};
use plir_attr_text::words::read_separator;
use plir_data::Identifier;
use std::alloc::Global;

// Names that are given to results, and what the id behind them names, with this many bytes left where the id stands.
#[derive(Drop)]
pub struct Opening {
    pub names: Vec<Option<Identifier>>,
    pub kind: HeadKind,
    pub left: usize,
}

// Names up to `=`, as they are given to results.
fn read_names(alloc: Global, bytes: &[u8]) -> Result<(Vec<Option<Identifier>>, &[u8]), Stop>
    ensures { ReadsFirst (λ x ws. x.items ≡ result_names ws) result (names_at bytes.now) }
{
    let mut names = Vec::new(alloc);
    let mut rest = bytes;
    'names: loop {
        let (name, after) = read_name(alloc, rest)?;
        let given = given_name(alloc, Suffix::OpResult, name)?;
        names.push(given)?;
        let (goes_on, behind) = read_separator(after, b'=')?;
        if goes_on {
            rest = behind;
        } else {
            return Ok((names, behind));
        }
    }
}

// The names that stand before an id, if a name comes first.
#[tactic(auto, unfolding(crate::specs::OpReading::names_before))]
fn read_names_before(alloc: Global, bytes: &[u8]) -> Result<(Vec<Option<Identifier>>, &[u8]), Stop>
    ensures { ReadsFirst (λ x ws. x.items ≡ result_names ws) result (names_before bytes.now) }
{
    match read_name(alloc, bytes) {
        Ok((_, after)) => match read_names(alloc, bytes) {
            Err(Stop::At(fault, left)) => Err(Stop::At(fault, unread_name_at(after, left))),
            answer => answer,
        },
        Err(Stop::At(_, _)) => Ok((Vec::new(alloc), bytes)),
        Err(stop) => Err(stop),
    }
}

// How many bytes are left where names have their fault, with `after` behind the first and `left` where it was met:
// where the text is cut behind that one it may be cut in an id, and the fault stands at the text's end.
fn unread_name_at(after: &[u8], left: usize) -> usize {
    if ends_at_point(after) { 0 } else { left }
}

// Names of results, and the id.
#[tactic(auto, unfolding(crate::specs::OpReading::start_at))]
pub fn read_opening(alloc: Global, bytes: &[u8]) -> Result<(Opening, &[u8]), Stop>
    ensures { ReadsFirst IsOpening result (start_at bytes.now) }
{
    let (names, rest) = read_names_before(alloc, bytes)?;
    let (kind, behind) = read_op_id(rest)?;
    let left = left_at(rest);
    Ok((Opening { names, kind, left }, behind))
}

// Whether as many names stand there as there are results, with this many bytes left where the id stands.
#[tactic(auto, unfolding(crate::specs::OpReading::named))]
pub fn expect_names(expected: usize, found: usize, left: usize) -> Result<(), Stop>
    ensures { Gives (λ u. u) result (named expected found) }
{
    if expected == found {
        Ok(())
    } else {
        Err(Stop::At(Fault::NResultsVerifyErr(expected, found), left))
    }
}
