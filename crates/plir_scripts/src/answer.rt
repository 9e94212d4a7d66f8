//! The answer of a call, as it is written.

use crate::stop::Stop;
use plir_data::{Memory, VerifyErr};
use std::alloc::Global;
use std::fmt::{Debug, Display, Write};

/// The answer of a call. What can't be written for want of memory is left out, and the answer is whole no more: so a
/// call writes its answer to the end, and is asked once whether it is whole.
#[derive(Drop)]
pub struct Answer {
    text: String,
    is_whole: bool,
}

impl Answer {
    /// An answer in which nothing is written yet.
    pub fn new(alloc: Global) -> Self {
        Answer {
            text: String::new(alloc),
            is_whole: true,
        }
    }

    /// Takes back all that was written, and makes room for so many bytes.
    pub fn begin(&mut self, bytes: usize) -> Result<(), Stop> {
        self.text.clear();
        self.is_whole = true;
        self.text.reserve(bytes)?;
        Ok(())
    }

    /// Writes a text.
    pub fn put(&mut self, text: &str) {
        if self.text.push_str(text).is_err() {
            self.note_lost();
        }
    }

    /// Writes a text that took memory to be made.
    pub fn put_made(&mut self, made: Result<String, Memory>) {
        match made {
            Ok(text) => self.put(&text),
            Err(Memory) => self.note_lost(),
        }
    }

    /// Notes that there was no memory for something.
    pub fn note_lost(&mut self) {
        self.is_whole = false;
    }

    /// Writes a number, in decimal digits.
    pub fn put_number(&mut self, number: usize) {
        if write!(self.text, "{number}").is_err() {
            self.note_lost();
        }
    }

    /// Writes what a value shows.
    pub fn put_shown<T: Display>(&mut self, value: &T) {
        if write!(self.text, "{value}").is_err() {
            self.note_lost();
        }
    }

    /// Writes what a value shows to a programmer.
    pub fn put_debug<T: Debug>(&mut self, value: &T) {
        if write!(self.text, "{value:?}").is_err() {
            self.note_lost();
        }
    }

    /// Writes `ok`, or the text of the refusal.
    pub fn put_verdict<E: Display + Drop>(&mut self, verdict: Result<(), VerifyErr<E>>) {
        match verdict {
            Ok(()) => self.put("ok"),
            Err(VerifyErr::Refused { err, .. }) => self.put_shown(&err),
            Err(VerifyErr::Memory) => self.note_lost(),
        }
    }

    /// Writes `yes` or `no`.
    pub fn put_truth(&mut self, truth: bool) {
        self.put(if truth { "yes" } else { "no" });
    }

    /// Whether the same is written as in another one.
    pub fn is_same(&self, other: &Answer) -> Result<bool, Stop> {
        Ok(self.text()? == other.text()?)
    }

    /// What is written.
    pub fn text(&self) -> Result<&str, Stop> {
        if self.is_whole {
            Ok(&self.text)
        } else {
            Err(Stop::Memory)
        }
    }
}
