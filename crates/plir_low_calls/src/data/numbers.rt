//! The calls on integers of some bits, and on identifiers.
use plir_data::{APInt, Identifier, OpSet, is_identifier};
use plir_scripts::{Answer, Bench, Line, Stop, split_word};
use std::alloc::Global;

// The width in bits that a word is.
fn width_of(word: &str) -> Result<u32, Stop> {
    word.parse::<u32>().map_err(|_| Stop::Refused)
}

// The integer of a number without a sign, or of one with a sign.
fn integer_of(is_signed: bool, value: &str, width: &str) -> Result<Option<APInt>, Stop> {
    let width = width_of(width)?;
    if is_signed {
        let value = value.parse::<i64>().map_err(|_| Stop::Refused)?;
        return Ok(APInt::from_i64(value, width));
    }
    let value = value.parse::<u64>().map_err(|_| Stop::Refused)?;
    Ok(APInt::from_u64(value, width))
}

/// `unsigned VALUE WIDTH` or `signed VALUE WIDTH`: writes what is kept in so many bits, `none` where no integer has
/// them.
pub fn keep_bits<D: OpSet>(bench: &mut Bench<D>, line: Line<'_>) -> Result<(), Stop> {
    let answer = &mut bench.answer;
    match integer_of(line.command == "signed", line.first, line.second)? {
        Some(kept) => put_bits(bench.alloc, answer, kept),
        None => answer.put("none"),
    }
    Ok(())
}

// Writes the width, the number read with a sign and without, each as a number and by its digits, and whether it is
// zero.
fn put_bits(alloc: Global, answer: &mut Answer, kept: APInt) {
    answer.put_shown(&kept.bw());
    answer.put(" bits ");
    answer.put_shown(&kept.to_i64());
    answer.put(" ");
    answer.put_shown(&kept.to_u64());
    answer.put(", digits ");
    answer.put_made(kept.to_string_decimal(alloc, true));
    answer.put(" ");
    answer.put_made(kept.to_string_decimal(alloc, false));
    answer.put(if kept.is_zero() { ", zero" } else { "" });
}

/// `same-bits VALUE WIDTH VALUE WIDTH`: writes whether the two integers are equal.
pub fn compare_bits<D: OpSet>(bench: &mut Bench<D>, line: Line<'_>) -> Result<(), Stop> {
    let (value, width) = split_word(line.tail);
    let one = integer_of(false, line.first, line.second)?;
    let other = integer_of(false, value, width)?;
    bench.answer.put_truth(one == other);
    Ok(())
}

/// `is-identifier TEXT`: writes whether the text is an identifier.
pub fn ask_identifier<D: OpSet>(bench: &mut Bench<D>, line: Line<'_>) -> Result<(), Stop> {
    bench.answer.put_truth(is_identifier(line.text));
    Ok(())
}

/// `identifier TEXT`: makes an identifier and a copy of it; writes the text of the copy.
pub fn copy_identifier<D: OpSet>(bench: &mut Bench<D>, line: Line<'_>) -> Result<(), Stop> {
    let name = Identifier::try_new(bench.alloc, line.text)?;
    let copy = name.try_clone(bench.alloc)?;
    let answer = &mut bench.answer;
    if copy != name || copy.as_str() != line.text {
        answer.put("not ");
    }
    answer.put(copy.as_str());
    Ok(())
}

/// `comes-before NAME NAME`: writes whether the first identifier is the lesser one.
pub fn compare_identifiers<D: OpSet>(bench: &mut Bench<D>, line: Line<'_>) -> Result<(), Stop> {
    let one = Identifier::try_new(bench.alloc, line.first)?;
    let other = Identifier::try_new(bench.alloc, line.second)?;
    bench.answer.put_truth(one < other);
    Ok(())
}
