//! Operands and successors by their names.
ghost use Rattle.std.specs.Prelude.{◌≡◌};
ghost use Rattle.plir_attr_text.specs.Reading.{Gives};
ghost use Rattle.plir_read_own.specs.OwnMeaning.{uses_of};
ghost use Rattle.plir_read_own.specs.OwnReading.{closing_of, label_at, list_at, listed_at, opening_of, uses_at};

use plir_attr_text::attr_words::read_name;
use plir_attr_text::fault::Stop;
use plir_attr_text::words::{past_sign, read_separator, read_sign};
use plir_data::Identifier;
use std::alloc::Global;

/// The names of what an operation uses.
#[derive(Drop)]
pub struct OwnUses {
    /// The names of its operands.
    pub operands: Vec<Identifier>,
    /// The labels of its successors.
    pub successors: Vec<Identifier>,
}

// What a list of names names.
#[derive(Clone, Copy)]
pub enum NameList {
    Operands,
    Successors,
}

// The sign that a list begins with.
pub fn opening_of(list: NameList) -> u8
    ensures { result ≡ opening_of list }
{
    match list {
        NameList::Operands => b'(',
        NameList::Successors => b'[',
    }
}

// The sign that a list ends with.
pub fn closing_of(list: NameList) -> u8
    ensures { result ≡ closing_of list }
{
    match list {
        NameList::Operands => b')',
        NameList::Successors => b']',
    }
}

// `^label`
#[tactic(auto, unfolding(crate::specs::OwnReading::label_at))]
fn read_label(alloc: Global, bytes: &[u8]) -> Result<(Identifier, &[u8]), Stop>
    ensures { Gives (λ x. (x.0, x.1.now)) result (label_at bytes.now) }
{
    let start = read_sign(bytes, b'^')?;
    read_name(alloc, start)
}

// One name of a list.
fn read_listed(alloc: Global, list: NameList, bytes: &[u8]) -> Result<(Identifier, &[u8]), Stop>
    ensures { Gives (λ x. (x.0, x.1.now)) result (listed_at list bytes.now) }
{
    match list {
        NameList::Operands => read_name(alloc, bytes),
        NameList::Successors => read_label(alloc, bytes),
    }
}

// The names of a list.
#[tactic(auto, unfolding(crate::specs::OwnReading::list_at))]
fn read_list(alloc: Global, list: NameList, bytes: &[u8]) -> Result<(Vec<Identifier>, &[u8]), Stop>
    ensures { Gives (λ x. (x.0.items, x.1.now)) result (list_at list bytes.now) }
{
    let close = closing_of(list);
    let start = read_sign(bytes, opening_of(list))?;
    let mut names = Vec::new(alloc);
    if let Some(rest) = past_sign(start, close) {
        return Ok((names, rest));
    }
    let mut rest = start;
    'names: loop {
        let (name, after) = read_listed(alloc, list, rest)?;
        names.push(name)?;
        let (goes_on, behind) = read_separator(after, close)?;
        if goes_on {
            rest = behind;
        } else {
            return Ok((names, behind));
        }
    }
}

// `(operand, operand) [^label, ^label]`
#[tactic(auto, unfolding(crate::specs::OwnReading::uses_at))]
pub fn read_uses(alloc: Global, bytes: &[u8]) -> Result<(OwnUses, &[u8]), Stop>
    ensures { Gives (λ x. (uses_of x.0, x.1.now)) result (uses_at bytes.now) }
{
    let (operands, rest) = read_list(alloc, NameList::Operands, bytes)?;
    let (successors, end) = read_list(alloc, NameList::Successors, rest)?;
    Ok((
        OwnUses {
            operands,
            successors,
        },
        end,
    ))
}
