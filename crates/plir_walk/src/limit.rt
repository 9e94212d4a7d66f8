//! The end of a walk with a limit.
#![tactic(auto)]

use thiserror::Error;

/// A mutable walk made as many calls as its limit allows, none broke it, and another call was due.
#[derive(Debug, Drop, Error)]
#[error("the walk is at its limit of calls")]
pub struct CallLimit;
