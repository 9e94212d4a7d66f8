//! What no clause says: worked values, printed texts, and that each call succeeds.
//!
//! A call that takes memory is made once more where its first try was refused, so a test ends the
//! same way whichever request is refused.

// A call, made once more where it was refused.
macro_rules! again {
    ($call:expr) => {
        match $call {
            Ok(made) => made,
            Err(_) => $call?,
        }
    };
}

mod conversions;
mod holders;
