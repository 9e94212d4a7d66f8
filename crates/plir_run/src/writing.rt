//! The lines that a script writes.
use crate::stop::Stop;
use std::io::Write;

/// Writes a line.
pub fn print_line<W: Write>(writer: &mut W, line: &str) -> Result<(), Stop> {
    match writeln!(writer, "{line}") {
        Ok(()) => Ok(()),
        Err(_) => Err(Stop::WriteFailed),
    }
}

/// Writes a line of a word and a name.
pub fn print_named<W: Write>(writer: &mut W, word: &str, name: &str) -> Result<(), Stop> {
    match writeln!(writer, "{word} {name}") {
        Ok(()) => Ok(()),
        Err(_) => Err(Stop::WriteFailed),
    }
}
