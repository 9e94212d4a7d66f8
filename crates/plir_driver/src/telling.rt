//! How a refusal is told.
ghost use Rattle.std.specs.Prelude.{◌≡◌, [], IfOk, None, OnOk, Some, string_bytes};
ghost use Rattle.std.specs.Io.KnownBytes.{Appends};
ghost use Rattle.plir_driver.specs.Told.{IsTold, IsToldBy, excerpt_at, place_of, told_text};

use crate::excerpt::excerpt;
use crate::stop::Stop;
use plir_data::Location;
use std::alloc::{AllocError, Global};
use std::error::Error;
use std::io::{self, Write};

/// Tells why nothing is printed: `NAME: WHAT`, or where a place is known `NAME:LINE:COLUMN: WHAT`, and then the line of
/// the text and a caret below the character. Where memory is wanting for that, `out of memory` is told.
pub fn tell<W: Write, E: Error>(
    alloc: Global,
    writer: &mut W,
    name: &str,
    bytes: &[u8],
    stop: &Stop<E>,
) -> io::Result<()>
    ensures { OnOk result (IsToldBy name.now bytes.now stop.now (Appends (W.contents writer.old)
        (W.contents writer.new))) }
{
    match told(alloc, name, bytes, stop) {
        Ok(text) => writer.write_all(text.as_bytes()),
        Err(_) => writer.write_all(b"out of memory\n"),
    }
}

// What is told.
fn told<E: Error>(
    alloc: Global,
    name: &str,
    bytes: &[u8],
    stop: &Stop<E>,
) -> Result<String, AllocError>
    ensures { IfOk result (λ t. IsTold name.now bytes.now stop.now (string_bytes t)) }
{
    let what = stop.to_string(alloc)?;
    match place_of(stop) {
        Some(place) => told_at(alloc, name, place, what.as_str(), bytes),
        None => told_alone(alloc, name, what.as_str()),
    }
}

// `NAME: WHAT`
fn told_alone(alloc: Global, name: &str, what: &str) -> Result<String, AllocError>
    ensures { IfOk result (λ t. string_bytes t ≡ told_text name.now [] what.now None) }
{
    format!(in alloc; "{name}: {what}\n")
}

// `NAME:LINE:COLUMN: WHAT`, the line of the text, and a caret.
fn told_at(
    alloc: Global,
    name: &str,
    place: (usize, usize),
    what: &str,
    bytes: &[u8],
) -> Result<String, AllocError>
    ensures { IfOk result (λ t. string_bytes t ≡ told_text name.now bytes.now what.now (Some place)) }
{
    let (line, column) = place;
    let shown = excerpt_at(alloc, bytes, line, column)?;
    let shown = shown.as_str();
    format!(in alloc; "{name}:{line}:{column}: {what}\n{shown}")
}

// The line of a number from 1 and a caret below the character of a number from 1, where bytes are a text.
fn excerpt_at(alloc: Global, bytes: &[u8], line: usize, column: usize) -> Result<String, AllocError>
    ensures { IfOk result (λ t. string_bytes t ≡ excerpt_at bytes.now line column) }
{
    match str::from_utf8(bytes) {
        Ok(text) => excerpt(alloc, text, line, column),
        Err(_) => Ok(String::new(alloc)),
    }
}

/// Where a refusal stands in the text, if that is known: of an operation that stands in place of a call, where it was
/// written.
pub fn place_of<E: Error>(stop: &Stop<E>) -> Option<(usize, usize)>
    ensures { result ≡ place_of stop.now }
{
    match stop {
        Stop::Unread { line, column, .. } => Some((*line, *column)),
        Stop::Refused {
            loc: Location::SrcPos { line, column },
            ..
        } => Some((*line as usize, *column as usize)),
        Stop::Refused {
            loc: Location::CallSite { line, column, .. },
            ..
        } => Some((*line as usize, *column as usize)),
        _ => None,
    }
}
