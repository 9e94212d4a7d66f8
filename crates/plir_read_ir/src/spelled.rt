//! Names as they stand in a text.
ghost use Rattle.std.specs.Prelude.{◌≡◌, IfOk};
ghost use Rattle.plir_attr_text.specs.{AttrReading.name_at, Reading.Gives};
ghost use Rattle.plir_read_own.specs.OwnReading.{label_at};

use plir_attr_text::attr_words::identifier_of;
use plir_attr_text::fault::Stop;
use plir_attr_text::tokens::left_at;
use plir_attr_text::words::{read_sign, read_word};
use plir_data::Identifier;
use std::alloc::Global;

// A name as it stands in the text, with this many bytes left where it stands.
#[derive(Clone, Copy)]
pub struct Spelled<'a> {
    pub word: &'a [u8],
    pub left: usize,
}

// A name, as it stands there and by itself.
#[tactic(auto, unfolding(plir_attr_text::specs::AttrReading::name_at))]
pub fn read_spelled(alloc: Global, bytes: &[u8]) -> Result<((Spelled<'_>, Identifier), &[u8]), Stop>
    ensures read { Gives (λ x. (x.0.0.word.now, x.1.now)) result (name_at bytes.now) }
    ensures name { IfOk result (λ x. x.0.1 ≡ x.0.0.word.now) }
{
    let left = left_at(bytes);
    let (word, rest) = read_word(bytes)?;
    let name = identifier_of(alloc, word, left)?;
    Ok(((Spelled { word, left }, name), rest))
}

// `^label`
#[tactic(auto, unfolding(plir_read_own::specs::OwnReading::label_at))]
pub fn read_spelled_label(
    alloc: Global,
    bytes: &[u8],
) -> Result<((Spelled<'_>, Identifier), &[u8]), Stop>
    ensures read { Gives (λ x. (x.0.0.word.now, x.1.now)) result (label_at bytes.now) }
    ensures name { IfOk result (λ x. x.0.1 ≡ x.0.0.word.now) }
{
    let start = read_sign(bytes, b'^')?;
    read_spelled(alloc, start)
}
