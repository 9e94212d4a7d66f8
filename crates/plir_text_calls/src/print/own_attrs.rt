//! Attributes of the user's own in the dictionaries of operations.
use plir_data::{AttrObj, Identifier};
use plir_scripts::{Bench, Line, SampleAttr, SampleSet, ScriptSet, Stop};

/// An op set with an attribute that is left out of texts where it is marked. The calls are generic in it: over the op
/// set itself they take several times as long to prove.
pub trait MarkedSet: ScriptSet {
    /// The attribute, marked or not.
    fn own_attr(is_marked: bool) -> Self::Attr;
}

impl MarkedSet for SampleSet {
    fn own_attr(is_marked: bool) -> SampleAttr {
        SampleAttr(is_marked)
    }
}

/// `own OPERATION KEY marked` or `own OPERATION KEY`: puts the own attribute under the key.
pub fn set_own<D: MarkedSet>(bench: &mut Bench<D>, line: Line<'_>) -> Result<(), Stop> {
    let key = Identifier::try_new(bench.alloc, line.second)?;
    let op = bench.made.op(&bench.ctx, line.first)?;
    let value = AttrObj::Own(D::own_attr(line.third == "marked"));
    if !value.is_live(&bench.ctx) {
        return Err(Stop::Refused);
    }
    op.set_attr(&mut bench.ctx, key, value)?;
    Ok(())
}
