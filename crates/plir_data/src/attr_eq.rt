//! Equality of attributes: by value, a dictionary by its map.

ghost use Rattle.std.specs.Prelude.{◌≡◌, map};
ghost use Rattle.plir_data.specs.AttrEq.{attr_eq, leaves_eq, items_eq, entries_eq};
ghost use Rattle.plir_data.specs.AttrSeen.{attr_view};
ghost use Rattle.plir_data.specs.AttrView.{items_of, entries_of};

use crate::attribute_dict::AttributeDict;
use crate::attributes::{AttrObj, DictAttr, VecAttr};
use crate::op_set::OpSet;

impl<D: OpSet> PartialEq for AttrObj<D> {
    ghost use Rattle.std.specs.Cmp as Cmp;
    ghost use Rattle.plir_data.specs.AttrEq.{attr_eq};
    ghost use Rattle.plir_data.specs.AttrLaws.{attr_equivalence};
    ghost use Rattle.plir_data.specs.AttrSeen.{attr_view};

    ghost eq = { λ x y. attr_eq D.Attr.eq (attr_view x) (attr_view y) };

    ghost laws = { Cmp.on_per attr_view (Cmp.partial_equiv_from_equiv (attr_equivalence D.Attr.eq D.attr_eq_exact
        D.Attr.Eq.laws)) };

    fn eq(&self, other: &Self) -> bool {
        is_same(self, other)
    }
}

impl<D: OpSet> Eq for AttrObj<D> {
    ghost use Rattle.std.specs.Cmp as Cmp;
    ghost use Rattle.plir_data.specs.AttrLaws.{attr_equivalence};
    ghost use Rattle.plir_data.specs.AttrSeen.{attr_view};

    ghost laws = { Cmp.on_equiv attr_view (attr_equivalence D.Attr.eq D.attr_eq_exact D.Attr.Eq.laws) };
}

impl<D: OpSet> PartialEq for AttributeDict<D> {
    ghost use Rattle.std.specs.Cmp as Cmp;
    ghost use Rattle.plir_data.specs.AttrEq.{entries_eq};
    ghost use Rattle.plir_data.specs.AttrLaws.{entries_equivalence};
    ghost use Rattle.plir_data.specs.AttrView.{entries_of};

    ghost eq = { λ x y. entries_eq D.Attr.eq (entries_of x) (entries_of y) };

    ghost laws = { Cmp.on_per entries_of (Cmp.partial_equiv_from_equiv (entries_equivalence D.Attr.eq D.attr_eq_exact
        D.Attr.Eq.laws)) };

    fn eq(&self, other: &Self) -> bool {
        are_same_dicts(self, other)
    }
}

impl<D: OpSet> Eq for AttributeDict<D> {
    ghost use Rattle.std.specs.Cmp as Cmp;
    ghost use Rattle.plir_data.specs.AttrLaws.{entries_equivalence};
    ghost use Rattle.plir_data.specs.AttrView.{entries_of};

    ghost laws = { Cmp.on_equiv entries_of (entries_equivalence D.Attr.eq D.attr_eq_exact D.Attr.Eq.laws) };
}

impl<D: OpSet> PartialEq for DictAttr<D> {
    ghost use Rattle.std.specs.Cmp as Cmp;
    ghost use Rattle.plir_data.specs.AttrEq.{entries_eq};
    ghost use Rattle.plir_data.specs.AttrLaws.{entries_equivalence};
    ghost use Rattle.plir_data.specs.AttrView.{entries_of};

    ghost eq = { λ x y. entries_eq D.Attr.eq (entries_of x) (entries_of y) };

    ghost laws = { Cmp.on_per entries_of (Cmp.partial_equiv_from_equiv (entries_equivalence D.Attr.eq D.attr_eq_exact
        D.Attr.Eq.laws)) };

    fn eq(&self, other: &Self) -> bool {
        are_same_dicts(&self.0, &other.0)
    }
}

impl<D: OpSet> Eq for DictAttr<D> {
    ghost use Rattle.std.specs.Cmp as Cmp;
    ghost use Rattle.plir_data.specs.AttrLaws.{entries_equivalence};
    ghost use Rattle.plir_data.specs.AttrView.{entries_of};

    ghost laws = { Cmp.on_equiv entries_of (entries_equivalence D.Attr.eq D.attr_eq_exact D.Attr.Eq.laws) };
}

impl<D: OpSet> PartialEq for VecAttr<D> {
    ghost use Rattle.std.specs.Cmp as Cmp;
    ghost use Rattle.plir_data.specs.AttrEq.{items_eq};
    ghost use Rattle.plir_data.specs.AttrLaws.{items_equivalence};
    ghost use Rattle.plir_data.specs.AttrView.{items_of};

    ghost eq = { λ x y. items_eq D.Attr.eq (items_of x) (items_of y) };

    ghost laws = { Cmp.on_per items_of (Cmp.partial_equiv_from_equiv (items_equivalence D.Attr.eq D.attr_eq_exact
        D.Attr.Eq.laws)) };

    fn eq(&self, other: &Self) -> bool {
        are_same_items(self.0.as_slice(), other.0.as_slice())
    }
}

impl<D: OpSet> Eq for VecAttr<D> {
    ghost use Rattle.std.specs.Cmp as Cmp;
    ghost use Rattle.plir_data.specs.AttrLaws.{items_equivalence};
    ghost use Rattle.plir_data.specs.AttrView.{items_of};

    ghost laws = { Cmp.on_equiv items_of (items_equivalence D.Attr.eq D.attr_eq_exact D.Attr.Eq.laws) };
}

#[cycle(same)]
fn is_same<D: OpSet>(one: &AttrObj<D>, other: &AttrObj<D>) -> bool
    ensures { result ≡ attr_eq D.Attr.eq (attr_view one.now) (attr_view other.now) }
{
    match one {
        AttrObj::Dict(one) => match other {
            AttrObj::Dict(other) => are_same_dicts(&one.0, &other.0),
            _ => false,
        },
        AttrObj::Vec(one) => match other {
            AttrObj::Vec(other) => are_same_items(one.0.as_slice(), other.0.as_slice()),
            _ => false,
        },
        _ => is_same_leaf(one, other),
    }
}

#[cycle(same)]
fn are_same_items<D: OpSet>(ones: &[AttrObj<D>], others: &[AttrObj<D>]) -> bool
    ensures { result ≡ items_eq D.Attr.eq (items_of (map attr_view ones.now)) (items_of (map attr_view others.now)) }
{
    let mut left = others;
    'items: for one in ones {
        match left {
            [other, more @ ..] if is_same(one, other) => left = more,
            _ => return false,
        }
    }
    left.is_empty()
}

#[cycle(same)]
fn are_same_dicts<D: OpSet>(ones: &AttributeDict<D>, others: &AttributeDict<D>) -> bool
    ensures { result ≡ entries_eq D.Attr.eq (entries_of ones.now) (entries_of others.now) }
{
    let mut left = others.iter();
    'entries: for (key, one) in ones.iter() {
        match left.next() {
            Some((name, other)) if key == name && is_same(one, other) => {}
            _ => return false,
        }
    }
    left.next().is_none()
}

// Whether two attributes are equal, neither of which holds others.
fn is_same_leaf<D: OpSet>(one: &AttrObj<D>, other: &AttrObj<D>) -> bool
    ensures { result ≡ leaves_eq D.Attr.eq (attr_view one.now) (attr_view other.now) }
{
    match one {
        AttrObj::Identifier(one) => matches!(other, AttrObj::Identifier(other) if one == other),
        AttrObj::String(one) => matches!(other, AttrObj::String(other) if one == other),
        AttrObj::Bool(one) => matches!(other, AttrObj::Bool(other) if one == other),
        AttrObj::Integer(one) => matches!(other, AttrObj::Integer(other) if one == other),
        AttrObj::Dict(_) | AttrObj::Vec(_) => false,
        AttrObj::Unit(_) => matches!(other, AttrObj::Unit(_)),
        AttrObj::Type(one) => matches!(other, AttrObj::Type(other) if one == other),
        AttrObj::OperandSegmentSizes(one) => {
            matches!(other, AttrObj::OperandSegmentSizes(other) if one == other)
        }
        AttrObj::GivenNames(one) => matches!(other, AttrObj::GivenNames(other) if one == other),
        AttrObj::Own(one) => matches!(other, AttrObj::Own(other) if one == other),
    }
}
