//! What is told of passes as they run.
use plir_pipelines::PassTime;
use std::alloc::Global;

/// What is told of passes as they run.
#[derive(Drop)]
pub struct Log {
    /// What is told in front of them and behind them.
    pub text: String,
    /// How long each took.
    pub times: Vec<PassTime>,
}

impl Log {
    /// A log in which nothing is told.
    pub fn new(alloc: Global) -> Log {
        Log {
            text: String::new(alloc),
            times: Vec::new(alloc),
        }
    }
}
