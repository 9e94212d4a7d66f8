//! A line of a text, and a caret below one of its columns.
ghost use Rattle.std.specs.Prelude.{◌≡◌, ◌++◌, IfOk, OnOk, chars, string_bytes, take};
ghost use Rattle.std.specs.List.{flat_map};
ghost use Rattle.plir_driver.specs.Excerpt.{behind, below, columns_of, excerpt_of, first_line, spaces};

use std::alloc::{AllocError, Global};
use unicode_width::UnicodeWidthChar;

/// The line of a number from 1, a caret below the character of a number from 1 on the next line, and a line feed. Below
/// a tab stands a tab, below any other character as many spaces as a terminal gives it columns. Past the line's last
/// character the caret stands right behind it.
pub fn excerpt(alloc: Global, text: &str, line: usize, column: usize) -> Result<String, AllocError>
    ensures { IfOk result (λ s. string_bytes s ≡ excerpt_of text.now line column) }
{
    let shown = first_line(behind(text, line.saturating_sub(1)));
    let mut lines = String::from_str(alloc, shown)?;
    lines.push_str("\n")?;
    put_below(&mut lines, shown, column.saturating_sub(1))?;
    lines.push_str("^\n")?;
    Ok(lines)
}

// What stands behind so many line feeds; nothing, where there are fewer.
#[tactic(auto, using(crate::proofs::Lines::feeds))]
fn behind(text: &str, feeds: usize) -> &str
    ensures { result.now ≡ behind feeds text.now }
{
    let mut rest = text;
    for _ in 0..feeds {
        match rest.split_once('\n') {
            Some((_, others)) => rest = others,
            None => return "",
        }
    }
    rest
}

// What stands before the first line feed.
fn first_line(text: &str) -> &str
    ensures { result.now ≡ first_line text.now }
{
    match text.split_once('\n') {
        Some((line, _)) => line,
        None => text,
    }
}

// Puts what stands below so many characters of a line.
fn put_below(out: &mut String, line: &str, characters: usize) -> Result<(), AllocError>
    ensures { OnOk result (string_bytes out.new ≡ string_bytes out.old ++
        flat_map below (take characters (chars line.now))) }
{
    let mut left = characters;
    'chars: for c in line.chars() {
        if left == 0 {
            return Ok(());
        }
        left -= 1;
        put_below_one(out, c)?;
    }
    Ok(())
}

// Puts what stands below a character.
fn put_below_one(out: &mut String, c: char) -> Result<(), AllocError>
    ensures { OnOk result (string_bytes out.new ≡ string_bytes out.old ++ below c) }
{
    if c == '\t' {
        out.push_str("\t")
    } else {
        put_spaces(out, columns_of(c))
    }
}

// Puts so many spaces.
fn put_spaces(out: &mut String, count: usize) -> Result<(), AllocError>
    ensures { OnOk result (string_bytes out.new ≡ string_bytes out.old ++ spaces count) }
{
    for _ in 0..count {
        out.push_str(" ")?;
    }
    Ok(())
}

// How many columns a terminal gives a character: none to one that is put over the one before it, two to a wide one. A
// control character counts one.
fn columns_of(c: char) -> usize
    ensures { result ≡ columns_of c }
{
    c.width().unwrap_or(1)
}
