//! Where what is printed goes.
use std::fs;
use std::io::{self, Write};
use std::rt::Files;

/// Whether the standard output is meant: no file is named, or `-` is.
pub fn is_standard(file: Option<&str>) -> bool {
    match file {
        Some(path) => path == "-",
        None => true,
    }
}

/// Writes a text to a file in place of what it held, or to the standard output where that is meant.
pub fn write_output<R: Files + Print>(rt: &R, file: Option<&str>, text: &str) -> io::Result<()> {
    match file {
        Some(path) if path != "-" => fs::write(rt, path, text),
        _ => io::writer(rt).write_all(text.as_bytes()),
    }
}
