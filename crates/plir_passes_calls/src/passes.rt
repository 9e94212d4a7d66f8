//! The calls of scripts on passes, over a toy op set and a conversion of it, and how such a script is played.
mod calls;
mod renewing;
mod toy;

pub use calls::play_in;
pub use renewing::{Renew, RenewErr};
pub use toy::ToyKind;
