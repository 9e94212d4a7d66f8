//! Hashes of attributes: equal ones hash alike.

ghost use Rattle.std.specs.Prelude.{◌≡◌};
ghost use Rattle.std.specs.List.{fold};
ghost use Rattle.plir_data.specs.AttrHash.{attr_words, items_words, entries_words, mark};
ghost use Rattle.plir_data.specs.AttrSeen.{attr_view};
ghost use Rattle.plir_data.specs.AttrView.{items_of, entries_of};

use crate::attribute_dict::AttributeDict;
use crate::attributes::{AttrObj, DictAttr, VecAttr};
use crate::op_set::OpSet;
use std::hash::{Hash, Hasher};

// What comes behind the last item or entry.
const END: u8 = 255;

impl<D: OpSet> Hash for AttrObj<D> {
    ghost use Rattle.std.proofs.Common.{ap};
    ghost use Rattle.plir_data.specs.AttrHash.{attr_words};
    ghost use Rattle.plir_data.specs.AttrLaws.{same_attr};
    ghost use Rattle.plir_data.specs.AttrSeen.{attr_view};

    ghost hash_input = { λ x. attr_words D.Attr.hash_input (attr_view x) };

    ghost respects_eq = { λ x y e. ap (attr_words D.Attr.hash_input) (same_attr D.Attr.eq D.attr_eq_exact (attr_view x)
        (attr_view y) e) };

    fn hash<H: Hasher>(&self, state: &mut H) {
        self.feed(state);
    }
}

impl<D: OpSet> Hash for AttributeDict<D> {
    ghost use Rattle.std.proofs.Common.{ap};
    ghost use Rattle.plir_data.specs.AttrHash.{entries_words};
    ghost use Rattle.plir_data.specs.AttrLaws.{same_entries};
    ghost use Rattle.plir_data.specs.AttrView.{entries_of};

    ghost hash_input = { λ x. entries_words D.Attr.hash_input (entries_of x) };

    ghost respects_eq = { λ x y e. ap (entries_words D.Attr.hash_input) (same_entries D.Attr.eq D.attr_eq_exact
        (entries_of x) (entries_of y) e) };

    fn hash<H: Hasher>(&self, state: &mut H) {
        self.feed(state);
    }
}

impl<D: OpSet> Hash for DictAttr<D> {
    ghost use Rattle.std.proofs.Common.{ap};
    ghost use Rattle.plir_data.specs.AttrHash.{entries_words};
    ghost use Rattle.plir_data.specs.AttrLaws.{same_entries};
    ghost use Rattle.plir_data.specs.AttrView.{entries_of};

    ghost hash_input = { λ x. entries_words D.Attr.hash_input (entries_of x) };

    ghost respects_eq = { λ x y e. ap (entries_words D.Attr.hash_input) (same_entries D.Attr.eq D.attr_eq_exact
        (entries_of x) (entries_of y) e) };

    fn hash<H: Hasher>(&self, state: &mut H) {
        self.0.feed(state);
    }
}

impl<D: OpSet> Hash for VecAttr<D> {
    ghost use Rattle.std.proofs.Common.{ap};
    ghost use Rattle.plir_data.specs.AttrHash.{items_words};
    ghost use Rattle.plir_data.specs.AttrLaws.{same_items};
    ghost use Rattle.plir_data.specs.AttrView.{items_of};

    ghost hash_input = { λ x. items_words D.Attr.hash_input (items_of x) };

    ghost respects_eq = { λ x y e. ap (items_words D.Attr.hash_input) (same_items D.Attr.eq D.attr_eq_exact (items_of x)
        (items_of y) e) };

    fn hash<H: Hasher>(&self, state: &mut H) {
        self.feed(state);
    }
}

impl<D: OpSet> AttrObj<D> {
    #[cycle(feed)]
    fn feed<H: Hasher>(&self, state: &mut H)
        ensures { state.new ≡ fold H.write state.old (attr_words D.Attr.hash_input (attr_view self.now)) }
    {
        state.write_u8(mark_of(self));
        match self {
            AttrObj::Identifier(value) => value.hash(state),
            AttrObj::String(value) => value.hash(state),
            AttrObj::Bool(value) => value.hash(state),
            AttrObj::Integer(value) => value.hash(state),
            AttrObj::Dict(value) => value.0.feed(state),
            AttrObj::Vec(value) => value.feed(state),
            AttrObj::Unit(_) => {}
            AttrObj::Type(value) => value.hash(state),
            AttrObj::OperandSegmentSizes(value) => value.hash(state),
            AttrObj::GivenNames(value) => value.hash(state),
            AttrObj::Own(value) => value.hash(state),
        }
    }
}

impl<D: OpSet> VecAttr<D> {
    #[cycle(feed)]
    fn feed<H: Hasher>(&self, state: &mut H)
        ensures { state.new ≡ fold H.write state.old (items_words D.Attr.hash_input (items_of self.now)) }
    {
        let items = self.0.as_slice();
        'items: for item in items {
            item.feed(state);
        }
        state.write_u8(END);
    }
}

impl<D: OpSet> AttributeDict<D> {
    #[cycle(feed)]
    fn feed<H: Hasher>(&self, state: &mut H)
        ensures { state.new ≡ fold H.write state.old (entries_words D.Attr.hash_input (entries_of self.now)) }
    {
        'entries: for (key, value) in self.iter() {
            key.hash(state);
            value.feed(state);
        }
        state.write_u8(END);
    }
}

// The mark of an attribute's kind.
fn mark_of<D: OpSet>(attr: &AttrObj<D>) -> u8
    ensures { result ≡ mark (attr_view attr.now) }
{
    match attr {
        AttrObj::Identifier(_) => 0,
        AttrObj::String(_) => 1,
        AttrObj::Bool(_) => 2,
        AttrObj::Integer(_) => 3,
        AttrObj::Dict(_) => 4,
        AttrObj::Vec(_) => 5,
        AttrObj::Unit(_) => 6,
        AttrObj::Type(_) => 7,
        AttrObj::OperandSegmentSizes(_) => 8,
        AttrObj::GivenNames(_) => 9,
        AttrObj::Own(_) => 10,
    }
}
