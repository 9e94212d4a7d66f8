//! Long texts of parts in any order, by a fixed seed: each is read, or refused where something stands behind it.
use crate::read::mutated::{Seen, Sequence, any_words, read_each};
use plir_core::Context;
use plir_data::OpSet;
use plir_scripts::{InContext, SampleSet, Stop, in_new_context};
use std::alloc::Global;

/// How many parts a long text has.
const PARTS: usize = 20_000;

/// A text around many parts: what stands before them, between two of them, and behind them, and the parts to choose
/// from.
struct Frame {
    front: &'static str,
    between: &'static str,
    back: &'static str,
    parts: [&'static str; 4],
}

const MODULE: Frame = Frame {
    front: "builtin.module @m {^b(): ",
    between: "; ",
    back: "}",
    parts: [
        "builtin.func @f: builtin.function <()->()> {^entry():}",
        "builtin.module @n [a = builtin.unit] {^b(x: builtin.integer si8):}",
        "c = builtin.constant <builtin.integer <7: ui32>> : builtin.integer ui32",
        "builtin.module @o {}",
    ],
};

const LIST: Frame = Frame {
    front: "builtin.vec [",
    between: ", ",
    back: "]",
    parts: [
        "builtin.unit",
        "builtin.integer <-1: si8>",
        "builtin.dict [a = builtin.bool true, b = builtin.string \"c\"]",
        "builtin.given_names [x, ?]",
    ],
};

const SIGNATURE: Frame = Frame {
    front: "builtin.function <(",
    between: ", ",
    back: ")->()>",
    parts: [
        "builtin.unit",
        "builtin.integer si64",
        "builtin.function <()->()>",
        "builtin.integer i1",
    ],
};

// The text of many parts in any order in a frame, with some words behind it.
fn long_text(
    alloc: Global,
    numbers: &mut Sequence,
    frame: &Frame,
    behind: &str,
) -> Result<String, Stop> {
    let mut text = String::from_str(alloc, frame.front)?;
    text.push_str(numbers.pick(&frame.parts))?;
    for _ in 1..PARTS {
        text.push_str(frame.between)?;
        text.push_str(numbers.pick(&frame.parts))?;
    }
    text.push_str(frame.back)?;
    text.push_str(behind)?;
    Ok(text)
}

// Hands the text to each reader, first as it is and then with words in any order behind it; answers whether one read
// it.
fn is_read<D: OpSet>(
    alloc: Global,
    ctx: &mut Context<D>,
    frame: &Frame,
    seed: u64,
) -> Result<bool, Stop> {
    let mut numbers = Sequence { last: seed };
    let mut seen = Seen {
        some_read: false,
        some_refused: false,
    };
    let text = long_text(alloc, &mut numbers, frame, "")?;
    read_each(alloc, ctx, text.as_str(), &mut seen);
    let words = any_words(alloc, &mut numbers)?;
    let text = long_text(alloc, &mut numbers, frame, words.as_str())?;
    read_each(alloc, ctx, text.as_str(), &mut seen);
    Ok(seen.some_read && seen.some_refused)
}

// Does so with each frame.
fn are_read<D: OpSet>(alloc: Global, ctx: &mut Context<D>) -> Result<bool, Stop> {
    let modules = is_read(alloc, ctx, &MODULE, 1)?;
    let lists = is_read(alloc, ctx, &LIST, 2)?;
    let signatures = is_read(alloc, ctx, &SIGNATURE, 3)?;
    Ok(modules && lists && signatures)
}

// Does so in a new context.
#[derive(Drop)]
struct ReadsLong {
    alloc: Global,
}

impl<D: OpSet> InContext<D> for ReadsLong {
    type Answer = Result<bool, Stop>;

    fn run(self, ctx: &mut Context<D>) -> Result<bool, Stop> {
        are_read(self.alloc, ctx)
    }
}

/// Whether long texts are read or refused.
pub fn long_are_read(alloc: Global) -> Result<bool, Stop> {
    in_new_context::<SampleSet, _>(alloc, ReadsLong { alloc })
}
