//! Operands and successors by their names, as they stand in the text.
ghost use Rattle.plir_attr_text.specs.Reading.{Gives};
ghost use Rattle.plir_read_own.specs.OwnReading.{list_at, listed_at, uses_at};
ghost use Rattle.plir_read_ir.specs.Spelling.{uses_of, word_of, words};

use crate::spelled::{Spelled, read_spelled, read_spelled_label};
use plir_attr_text::fault::Stop;
use plir_attr_text::words::{past_sign, read_separator, read_sign};
use plir_read_own::uses::{NameList, closing_of, opening_of};
use std::alloc::Global;

// The names of what an operation uses.
#[derive(Drop)]
pub struct SpelledUses<'a> {
    pub operands: Vec<Spelled<'a>>,
    pub successors: Vec<Spelled<'a>>,
}

// One name of a list.
fn read_listed<'a>(
    alloc: Global,
    list: NameList,
    bytes: &'a [u8],
) -> Result<(Spelled<'a>, &'a [u8]), Stop>
    ensures { Gives (λ x. (word_of x.0, x.1.now)) result (listed_at list bytes.now) }
{
    let read = match list {
        NameList::Operands => read_spelled(alloc, bytes),
        NameList::Successors => read_spelled_label(alloc, bytes),
    };
    match read {
        Ok(((word, _name), rest)) => Ok((word, rest)),
        Err(stop) => Err(stop),
    }
}

// The names of a list.
#[tactic(auto, unfolding(plir_read_own::specs::OwnReading::list_at))]
fn read_list<'a>(
    alloc: Global,
    list: NameList,
    bytes: &'a [u8],
) -> Result<(Vec<Spelled<'a>>, &'a [u8]), Stop>
    ensures { Gives (λ x. (words x.0.items, x.1.now)) result (list_at list bytes.now) }
{
    let close = closing_of(list);
    let start = read_sign(bytes, opening_of(list))?;
    let mut names = Vec::new(alloc);
    if let Some(rest) = past_sign(start, close) {
        return Ok((names, rest));
    }
    let mut rest = start;
    'names: loop {
        let (name, after) = read_listed(alloc, list, rest)?;
        names.push(name)?;
        let (goes_on, behind) = read_separator(after, close)?;
        if goes_on {
            rest = behind;
        } else {
            return Ok((names, behind));
        }
    }
}

// `(operand, operand) [^label, ^label]`
#[tactic(auto, unfolding(plir_read_own::specs::OwnReading::uses_at))]
pub fn read_spelled_uses<'a>(
    alloc: Global,
    bytes: &'a [u8],
) -> Result<(SpelledUses<'a>, &'a [u8]), Stop>
    ensures { Gives (λ x. (uses_of x.0, x.1.now)) result (uses_at bytes.now) }
{
    let (operands, rest) = read_list(alloc, NameList::Operands, bytes)?;
    let (successors, end) = read_list(alloc, NameList::Successors, rest)?;
    Ok((
        SpelledUses {
            operands,
            successors,
        },
        end,
    ))
}
