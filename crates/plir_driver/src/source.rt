//! Where a text comes from.
use std::fs;
use std::io::{self, Read};
use std::rt::Files;

/// The bytes of a file, or those of the standard input.
pub fn read_source<R: Files + Input + AllocGlobal>(
    rt: &R,
    file: Option<&str>,
) -> io::Result<Vec<u8>> {
    match file {
        Some(path) => fs::read(rt, path),
        None => {
            let mut bytes = Vec::new(rt.alloc());
            rt.reader().read_to_end(&mut bytes)?;
            Ok(bytes)
        }
    }
}
