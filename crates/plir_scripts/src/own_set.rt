//! An op set's own types and attributes, as scripts make them.
use crate::sample_set::{SampleAttr, SampleSet, SampleType};
use crate::script_set::ScriptSet;

/// An op set with a type that may be wide, and an attribute that may be marked. The calls are generic in it: over the
/// op set itself, whose parts are all written out in a proof, they take several times as long to prove.
pub trait OwnSet: ScriptSet {
    /// The type, wide or not.
    fn own_type(is_wide: bool) -> Self::Ty;

    /// The attribute, marked or not.
    fn own_attr(is_marked: bool) -> Self::Attr;
}

impl OwnSet for SampleSet {
    fn own_type(is_wide: bool) -> SampleType {
        SampleType(is_wide)
    }

    fn own_attr(is_marked: bool) -> SampleAttr {
        SampleAttr(is_marked)
    }
}
