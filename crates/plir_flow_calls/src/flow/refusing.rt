//! Op sets with a refusal to give.
use plir_scripts::{NotMarked, SampleSet, ScriptSet};

/// An op set whose own refusals include one that operations of these tests give. They are generic in it: over the op
/// set itself, whose parts are all written out in a proof, calls take several times as long to prove.
pub trait Refusing: ScriptSet {
    /// The refusal.
    fn refusal() -> Self::Err;
}

impl Refusing for SampleSet {
    fn refusal() -> NotMarked {
        NotMarked
    }
}
