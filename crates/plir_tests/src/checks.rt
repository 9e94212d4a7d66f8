//! Texts with comments, and what they say, in worked rows.
mod checks;
mod comments;
mod errors;

use std::fmt::Debug;
use std::process::Abort;

// Two values are the same.
fn equal<T: PartialEq + Debug + Drop>(rt: &impl Abort, found: T, wanted: T) {
    assert_eq!(rt; found, wanted);
}
