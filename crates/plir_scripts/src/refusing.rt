//! How a test says when all memory is to be refused.
use crate::stop::Stop;
use std::alloc::Global;

// Sizes of requests that are never granted. A library that is preloaded takes a request of the first size as the word
// to refuse all requests from then on, and one of the second as the word to refuse no more. Without it nothing else
// happens.
const BYTES_TO_REFUSE: usize = (1 << 62) + 1;

const BYTES_TO_GRANT: usize = (1 << 62) + 2;

/// From now on all memory is refused, if a library is preloaded that does so.
///
/// # Errors
///
/// `Refused` if there is as much memory as no machine has.
pub fn refuse_memory(alloc: Global) -> Result<(), Stop> {
    ask_in_vain(alloc, BYTES_TO_REFUSE)
}

/// From now on memory is refused no more.
///
/// # Errors
///
/// `Refused` if there is as much memory as no machine has.
pub fn grant_memory(alloc: Global) -> Result<(), Stop> {
    ask_in_vain(alloc, BYTES_TO_GRANT)
}

// Asks for so many bytes, which are not there.
fn ask_in_vain(alloc: Global, bytes: usize) -> Result<(), Stop> {
    match Vec::<u8>::with_capacity(alloc, bytes) {
        Ok(_) => Err(Stop::Refused),
        Err(_) => Ok(()),
    }
}
