//! Texts in lines of scripts, and the faults of texts that are read.
use crate::answer::Answer;
use crate::line::{Line, number, split_word};
use crate::stop::Stop;
use plir_attr_text::{Fault, ReadErr};
use std::alloc::{AllocError, Global};

/// A text as a line of a script writes it: `¶` stands for the end of a line, and `·` for a space.
pub fn unfold(alloc: Global, written: &str) -> Result<String, AllocError> {
    let mut text = String::new(alloc);
    for character in written.chars() {
        text.push(match character {
            '¶' => '\n',
            '·' => ' ',
            other => other,
        })?;
    }
    Ok(text)
}

/// Writes a text of some lines in one line: `¶` stands for the end of each.
pub fn put_folded(answer: &mut Answer, text: &str) {
    for (place, part) in text.split('\n').enumerate() {
        if 0 < place {
            answer.put("¶");
        }
        answer.put(part);
    }
}

/// Writes a fault and its place.
pub fn put_fault(answer: &mut Answer, found: ReadErr) -> Result<(), Stop> {
    let (line, column) = (found.line, found.column);
    if found.fault == Fault::Memory && line == 0 && column == 0 {
        return Err(Stop::Memory);
    }
    answer.put_debug(&found.fault);
    answer.put(" at ");
    answer.put_number(line);
    answer.put(":");
    answer.put_number(column);
    Ok(())
}

/// The text of `COUNT HEAD | BEFORE | MIDDLE | BEHIND`: the head, so many times what is before, the middle, and so many
/// times what is behind.
pub fn nested_text(alloc: Global, line: Line<'_>) -> Result<String, Stop> {
    let count = number(line.first)?;
    let (_, rest) = split_word(line.text);
    let mut parts = rest.split('|');
    let mut text = String::new(alloc);
    push_times(alloc, &mut text, 1, parts.next().unwrap_or(""))?;
    push_times(alloc, &mut text, count, parts.next().unwrap_or(""))?;
    push_times(alloc, &mut text, 1, parts.next().unwrap_or(""))?;
    push_times(alloc, &mut text, count, parts.next().unwrap_or(""))?;
    Ok(text)
}

fn push_times(
    alloc: Global,
    text: &mut String,
    count: usize,
    part: &str,
) -> Result<(), AllocError> {
    let part = unfold(alloc, part.trim())?;
    for _ in 0..count {
        text.push_str(part.as_str())?;
    }
    Ok(())
}
