//! Lines of bounded length from a reader of bytes.
use crate::stop::Stop;
use std::alloc::{AllocError, Global};
use std::io::Read;

/// The most bytes of a line, without its line feed.
pub const MAX_LINE: usize = 1024;

/// A reader's lines, of which one at a time is held.
#[derive(Drop)]
pub struct Lines<R: Read + Drop> {
    bytes: std::io::Bytes<R>,
    line: Vec<u8>,
    /// How many lines were begun.
    number: u64,
}

impl<R: Read + Drop> Lines<R> {
    /// Takes all the memory that reading needs.
    pub fn new(alloc: Global, reader: R) -> Result<Self, AllocError> {
        let line = Vec::with_capacity(alloc, MAX_LINE)?;
        Ok(Lines {
            bytes: reader.bytes(),
            line,
            number: 0,
        })
    }

    /// The number of the line that was read last, from 1; 0 before the first.
    pub fn number(&self) -> u64 {
        self.number
    }

    /// The next line without its line feed, which the last line may lack; `None` at the end.
    ///
    /// Refused where the line has more than [`MAX_LINE`] bytes or is not UTF-8.
    pub fn next_line(&mut self) -> Result<Option<&str>, Stop> {
        self.line.clear();
        let mut ended = false;
        for byte in self.bytes.by_ref() {
            match byte {
                Err(_) => return Err(Stop::ReadFailed),
                Ok(b'\n') => {
                    ended = true;
                    break;
                }
                Ok(byte) => {
                    if self.line.len() >= MAX_LINE {
                        self.number = self.number.saturating_add(1);
                        return Err(Stop::Refused);
                    }
                    self.line.push(byte)?;
                }
            }
        }
        if !ended && self.line.is_empty() {
            return Ok(None);
        }
        self.number = self.number.saturating_add(1);
        match str::from_utf8(self.line.as_slice()) {
            Ok(line) => Ok(Some(line)),
            Err(_) => Err(Stop::Refused),
        }
    }
}
