//! How far an inlining has come.

/// What an inlining has done.
#[derive(Clone, Copy, PartialEq, Eq, Debug)]
pub struct Inlining {
    /// How many calls were inlined.
    pub calls: usize,
    /// How many operations were copied, the last one of each body counted. That one is gone again, so `copied - calls`
    /// operations have come.
    pub copied: usize,
    /// Whether it ended at a call that can be inlined, but costs more than was left of the budget.
    pub stopped: bool,
}

/// How far it has come until now.
#[derive(Clone, Copy)]
pub(crate) struct Tally {
    /// How many calls were inlined.
    pub(crate) calls: usize,
    /// How many operations may still be copied.
    pub(crate) left: usize,
}
