//! Comments as blanks.
ghost use Rattle.std.specs.Prelude.{◌≡◌, ◌++◌, IfOk, OnOk, chars, length, map, string_bytes};
ghost use Rattle.plir_checks.specs.Comments.{blanked, blanked_line, spaces};
ghost use Rattle.plir_checks.specs.Lines.{lines_of};

use crate::lines::{comment_of, split_line};
use std::alloc::{AllocError, Global};

/// The text in which each line that is a comment is replaced by as many spaces as it has characters. All else stays at
/// its place, and a text with no comment comes back as it is. An `Err` says that memory was refused.
pub fn blank_comments(alloc: Global, text: &str) -> Result<String, AllocError>
    ensures text { IfOk result (λ s. string_bytes s ≡ blanked text.now) }
    ensures lines { IfOk result (λ s. lines_of (string_bytes s) ≡ map blanked_line (lines_of text.now)) }
{
    let mut out = String::new(alloc);
    let mut rest = text;
    loop {
        let (line, behind) = split_line(rest);
        put_line(&mut out, line)?;
        match behind {
            None => return Ok(out),
            Some(others) => {
                out.push_str("\n")?;
                rest = others;
            }
        }
    }
}

// Puts a line, or blanks for a comment.
fn put_line(out: &mut String, line: &str) -> Result<(), AllocError>
    ensures { OnOk result (string_bytes out.new ≡ string_bytes out.old ++ blanked_line line.now) }
{
    if comment_of(line).is_some() {
        put_spaces(out, characters_of(line))
    } else {
        out.push_str(line)
    }
}

// How many characters a line has.
fn characters_of(line: &str) -> usize
    ensures { result ≡ length (chars line.now) }
{
    line.chars().count()
}

// Puts so many spaces.
fn put_spaces(out: &mut String, count: usize) -> Result<(), AllocError>
    ensures { OnOk result (string_bytes out.new ≡ string_bytes out.old ++ spaces count) }
{
    for _ in 0..count {
        out.push_str(" ")?;
    }
    Ok(())
}
