//! An input of several parts.
ghost use Rattle.std.specs.Prelude.{◌≡◌, IfOk, map};
ghost use Rattle.std.specs.List.{join_with_byte, slice_split};
ghost use Rattle.plir_driver.specs.Parts.{is_mark, lines_of, parts_of};

use std::alloc::{AllocError, Global};

/// The line between two parts.
pub const MARK: &str = "// -----";

/// A part of an input.
#[derive(Drop)]
pub struct Part {
    /// The number of its first line in the input, from 1.
    pub line: usize,
    /// What it holds.
    pub bytes: Vec<u8>,
}

// The lines of an input.
fn lines_of<'a>(alloc: Global, bytes: &'a [u8]) -> Result<Vec<&'a [u8]>, AllocError>
    ensures { IfOk result (λ v. map (λ l. l.now) v.items ≡ lines_of bytes.entry.now) }
{
    bytes.split(|byte| *byte == b'\n').collect(alloc)
}

// Whether a line stands between two parts.
fn is_mark(line: &[u8]) -> bool
    ensures { result ≡ is_mark line.now }
{
    line == MARK.as_bytes()
}

// The lines of each part.
fn cut<'a, 'b>(alloc: Global, lines: &'b [&'a [u8]]) -> Result<Vec<&'b [&'a [u8]]>, AllocError>
    ensures { IfOk result (λ v. map (λ p. p.now) v.items ≡ slice_split (λ l. is_mark l.now) lines.entry.now) }
{
    lines.split(|line| is_mark(line)).collect(alloc)
}

// Lines with line feeds between them.
fn joined(alloc: Global, lines: &[&[u8]]) -> Result<Vec<u8>, AllocError>
    ensures { IfOk result (λ v. v.items ≡ join_with_byte 10 (map (λ l. l.now) lines.now)) }
{
    let mut bytes = Vec::new(alloc);
    for (place, line) in lines.iter().enumerate() {
        if place > 0 {
            bytes.push(b'\n')?;
        }
        bytes.extend_from_slice(line)?;
    }
    Ok(bytes)
}

// The parts, each of the lines of one.
fn parts_in(alloc: Global, cuts: &[&[&[u8]]]) -> Result<Vec<Part>, AllocError>
    ensures { IfOk result (λ v. map (λ p. p.bytes.items) v.items ≡
        map (λ p. join_with_byte 10 (map (λ l. l.now) p.now)) cuts.now) }
{
    let mut parts = Vec::new(alloc);
    let mut line = 1usize;
    for lines in cuts {
        let bytes = joined(alloc, lines)?;
        parts.push(Part { line, bytes })?;
        line = line.saturating_add(lines.len()).saturating_add(1);
    }
    Ok(parts)
}

/// The parts of an input: what stands between the lines that are marks.
pub fn parts_of(alloc: Global, bytes: &[u8]) -> Result<Vec<Part>, AllocError>
    ensures { IfOk result (λ v. map (λ p. p.bytes.items) v.items ≡ parts_of bytes.now) }
{
    let lines = lines_of(alloc, bytes)?;
    let cuts = cut(alloc, lines.as_slice())?;
    parts_in(alloc, cuts.as_slice())
}
