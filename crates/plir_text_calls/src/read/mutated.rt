//! A hundred thousand texts that nobody meant, by a fixed seed: each is read or refused, and what was there before
//! stays.
use crate::read::refused::{read_again, text_of};
use plir_attr_text::{read_attr, read_function_type, read_integer_type, read_type};
use plir_core::Context;
use plir_data::OpSet;
use plir_read::read_op;
use plir_scripts::{InContext, SampleSet, Stop, in_new_context};
use std::alloc::Global;

/// Texts that are read, before they are changed.
const GOOD: [&'static str; 6] = [
    "builtin.module @m [a = builtin.unit] {^b(x: builtin.integer si8): y = builtin.constant <builtin.unit> : builtin.unit; builtin.func @f: builtin.function <()->()> {^entry():}}",
    "builtin.func @f: builtin.function <(builtin.integer si32)->(builtin.unit)> {^entry(a_block1v1_arg0: builtin.integer si32):}",
    "builtin.dict [a = builtin.string \"\\u{7f}\\n\", b = builtin.vec [builtin.integer <-1: si8>], c = builtin.given_names [x, ?]]",
    "builtin.operand_segment_sizes [1, 2, 4294967295]",
    "builtin.function <(builtin.integer si32, builtin.unit)->(builtin.function <()->()>)>",
    "<(builtin.integer ui64)->()>",
];

/// Words and signs of texts, and some that belong in none.
const WORDS: [&'static str; 32] = [
    "builtin",
    ".",
    "module",
    "func",
    "constant",
    "function",
    "integer",
    "unit",
    "dict",
    "vec",
    "string",
    "si32",
    " ",
    "@",
    "m",
    "^b",
    "(",
    ")",
    "{",
    "}",
    "[",
    "]",
    "<",
    ">",
    "->",
    ":",
    ";",
    ",",
    "=",
    "\"",
    "\\u{",
    "99999999999999999999",
];

/// A fixed sequence of numbers, each from the one before by a product and a sum.
#[derive(Drop)]
pub struct Sequence {
    pub last: u64,
}

impl Sequence {
    /// The next number, below `bound`.
    pub fn below(&mut self, bound: usize) -> usize {
        self.last = self
            .last
            .wrapping_mul(6_364_136_223_846_793_005)
            .wrapping_add(1_442_695_040_888_963_407);
        let number = (self.last >> 33) as usize;
        number.checked_rem(bound).unwrap_or(0)
    }

    /// One of some texts.
    pub fn pick(&mut self, texts: &[&'static str]) -> &'static str {
        let number = self.below(texts.len());
        texts.get(number).copied().unwrap_or("")
    }
}

/// A text of up to twenty words in any order.
pub fn any_words(alloc: Global, numbers: &mut Sequence) -> Result<String, Stop> {
    let mut text = String::new(alloc);
    for _ in 0..numbers.below(20) {
        text.push_str(numbers.pick(&WORDS))?;
    }
    Ok(text)
}

// A good text in which up to three characters have made room for a word.
fn changed(alloc: Global, numbers: &mut Sequence) -> Result<String, Stop> {
    let good = numbers.pick(&GOOD);
    let (front, rest) = good
        .split_at_checked(numbers.below(good.len()))
        .ok_or(Stop::Refused)?;
    let (_, back) = rest
        .split_at_checked(numbers.below(4))
        .unwrap_or(("", rest));
    let mut text = String::from_str(alloc, front)?;
    text.push_str(numbers.pick(&WORDS))?;
    text.push_str(back)?;
    Ok(text)
}

/// What became of some texts.
#[derive(Drop)]
pub struct Seen {
    pub some_read: bool,
    pub some_refused: bool,
}

impl Seen {
    fn note(&mut self, is_read: bool) {
        self.some_read = self.some_read || is_read;
        self.some_refused = self.some_refused || !is_read;
    }
}

/// Hands a text to each reader.
pub fn read_each<D: OpSet>(alloc: Global, ctx: &mut Context<D>, text: &str, seen: &mut Seen) {
    seen.note(read_op(alloc, ctx, text).is_ok());
    seen.note(read_attr::<D, _>(alloc, ctx, text).is_ok());
    seen.note(read_type::<D, _>(alloc, ctx, text).is_ok());
    seen.note(read_function_type::<D, _>(alloc, ctx, text).is_ok());
    seen.note(read_integer_type::<D, _>(ctx, text).is_ok());
}

// Hands a thousand texts to each reader; answers whether some were read, some refused, and an older operation has the
// text that it had.
fn read_thousand<D: OpSet>(alloc: Global, ctx: &mut Context<D>, seed: u64) -> Result<bool, Stop> {
    let older = read_again(
        alloc,
        ctx,
        "c = builtin.constant <builtin.string \"k\"> : builtin.unit",
    )?;
    let before = text_of(alloc, ctx, older)?;
    let mut numbers = Sequence { last: seed };
    let mut seen = Seen {
        some_read: false,
        some_refused: false,
    };
    for _ in 0..500 {
        let text = any_words(alloc, &mut numbers)?;
        read_each(alloc, ctx, text.as_str(), &mut seen);
        let text = changed(alloc, &mut numbers)?;
        read_each(alloc, ctx, text.as_str(), &mut seen);
    }
    let after = text_of(alloc, ctx, older)?;
    Ok(seen.some_read && seen.some_refused && before.as_str() == after.as_str())
}

// Does so in a new context.
#[derive(Drop)]
struct ReadsThousand {
    alloc: Global,
    seed: u64,
}

impl<D: OpSet> InContext<D> for ReadsThousand {
    type Answer = Result<bool, Stop>;

    fn run(self, ctx: &mut Context<D>) -> Result<bool, Stop> {
        read_thousand(self.alloc, ctx, self.seed)
    }
}

// Does so a hundred times, each time in a new context.
fn read_hundred_thousand<D: OpSet>(alloc: Global) -> Result<bool, Stop> {
    for seed in 0..100 {
        if !in_new_context::<D, _>(alloc, ReadsThousand { alloc, seed })? {
            return Ok(false);
        }
    }
    Ok(true)
}

/// Whether texts that nobody meant are read or refused.
pub fn mutated_are_read(alloc: Global) -> Result<bool, Stop> {
    read_hundred_thousand::<SampleSet>(alloc)
}
