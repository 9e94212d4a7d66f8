//! What an own operation begins with: names of its results, and its id.
ghost use Rattle.std.specs.Prelude.{◌≡◌, nat_eq};
ghost use Rattle.std.specs.List.{list_any};
ghost use Rattle.plir_attr_text.specs.Reading.{Gives};
ghost use Rattle.plir_read_own.specs.OwnGrammar.{has_point};
ghost use Rattle.plir_read_own.specs.OwnReading.{names_at, names_before, kind_of, kind_at, opening_at};

use crate::read_set::ReadSet;
use plir_attr_text::Fault;
use plir_attr_text::attr_words::read_name;
use plir_attr_text::fault::Stop;
use plir_attr_text::tokens::{ends_at_point, left_at, unread_id_at};
use plir_attr_text::words::{read_separator, read_word};
use plir_data::Identifier;
use std::alloc::Global;

// Names of results, and the kind that the id behind them names, with this many bytes left where the id stands.
#[derive(Drop)]
pub struct Opening<K> {
    pub names: Vec<Identifier>,
    pub kind: K,
    pub left: usize,
}

// Names up to `=`.
fn read_names(alloc: Global, bytes: &[u8]) -> Result<(Vec<Identifier>, &[u8]), Stop>
    ensures { Gives (λ x. (x.0.items, x.1.now)) result (names_at bytes.now) }
{
    let mut names = Vec::new(alloc);
    let mut rest = bytes;
    'names: loop {
        let (name, after) = read_name(alloc, rest)?;
        names.push(name)?;
        let (goes_on, behind) = read_separator(after, b'=')?;
        if goes_on {
            rest = behind;
        } else {
            return Ok((names, behind));
        }
    }
}

// How many bytes are left where names have their fault, with `after` behind the first and `left` where it was met:
// where the text is cut behind that one it may be cut in an id, and the fault stands at the text's end.
pub fn unread_name_at(after: &[u8], left: usize) -> usize {
    if ends_at_point(after) { 0 } else { left }
}

// The names that stand before an id, if a name comes first.
#[tactic(auto, unfolding(crate::specs::OwnReading::names_before))]
fn read_names_before(alloc: Global, bytes: &[u8]) -> Result<(Vec<Identifier>, &[u8]), Stop>
    ensures { Gives (λ x. (x.0.items, x.1.now)) result (names_before bytes.now) }
{
    match read_name(alloc, bytes) {
        Ok((_, after)) => match read_names(alloc, bytes) {
            Err(Stop::At(fault, left)) => Err(Stop::At(fault, unread_name_at(after, left))),
            answer => answer,
        },
        Err(Stop::At(_, _)) => Ok((Vec::new(alloc), bytes)),
        Err(stop) => Err(stop),
    }
}

// Whether a word has a point in it, as an id has.
fn has_point(word: &[u8]) -> bool
    ensures { result ≡ has_point word.now }
{
    word.iter().any(|byte| *byte == b'.')
}

// The kind that a word names, with `rest` behind it and this many bytes left where it stands.
#[tactic(auto, unfolding(crate::specs::OwnReading::kind_of))]
fn kind_of<D: ReadSet>(word: &[u8], rest: &[u8], left: usize) -> Result<D::Kind, Stop>
    ensures { Gives (λ k. k) result (kind_of D.find_kind word.now) }
{
    if has_point(word) {
        if let Some(kind) = D::find_kind(word) {
            return Ok(kind);
        }
    }
    Err(Stop::At(Fault::Unexpected, unread_id_at(word, rest, left)))
}

// The id of a kind.
#[tactic(auto, unfolding(crate::specs::OwnReading::kind_at))]
pub fn read_kind<D: ReadSet>(bytes: &[u8]) -> Result<(D::Kind, &[u8]), Stop>
    ensures { Gives (λ x. (x.0, x.1.now)) result (kind_at D.find_kind bytes.now) }
{
    let (word, rest) = read_word(bytes)?;
    let kind = kind_of::<D>(word, rest, left_at(bytes))?;
    Ok((kind, rest))
}

// Names of results, and the id.
#[tactic(auto, unfolding(crate::specs::OwnReading::opening_at))]
pub fn read_opening<D: ReadSet>(
    alloc: Global,
    bytes: &[u8],
) -> Result<(Opening<D::Kind>, &[u8]), Stop>
    ensures { Gives (λ x. ((x.0.names.items, x.0.kind), x.1.now)) result (opening_at D.find_kind bytes.now) }
{
    let (names, rest) = read_names_before(alloc, bytes)?;
    let (kind, behind) = read_kind::<D>(rest)?;
    let left = left_at(rest);
    Ok((Opening { names, kind, left }, behind))
}
