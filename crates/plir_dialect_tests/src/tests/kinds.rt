//! An op set that both crates' kinds are a part of.
use crate::joined::Both;
use crate::view::ViewKind;
use joined_dialects::toy::ToyKind;
use plir_data::OpSet;
use plir_dialect::OneOf;

/// An op set with the kinds of both crates. What the tests do is generic in it: over the joined set itself, whose parts
/// are all written out in a proof, it takes several times as long to prove.
pub trait HasBoth: OpSet {
    /// A kind of the first.
    fn toy(kind: ToyKind) -> Self::Kind;

    /// A kind of the second.
    fn view(kind: ViewKind) -> Self::Kind;
}

impl HasBoth for Both {
    fn toy(kind: ToyKind) -> OneOf<ToyKind, ViewKind> {
        OneOf::First(kind)
    }

    fn view(kind: ViewKind) -> OneOf<ToyKind, ViewKind> {
        OneOf::Second(kind)
    }
}
