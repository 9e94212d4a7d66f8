//! The entries of a dictionary, one after another.

ghost use Rattle.std.specs.Prelude.{◌≡◌, length};
ghost use Rattle.std.specs.Iterator.{at_most};
ghost use Rattle.std.specs.Map.Iter.{TakesFirst, deref_pair};

use crate::attributes::AttrObj;
use crate::identifier::Identifier;
use crate::op_set::OpSet;
use std::marker::Model;

/// The keys of a dictionary with their attributes, seen as those that are left.
#[derive(Drop)]
pub struct Entries<'a, D: OpSet> {
    pub(crate) left: &'a [(Identifier, AttrObj<D>)],
}

impl<'a, D: OpSet> Model for Entries<'a, D> {
    ghost use Rattle.std.specs.Prelude.{List, ℕ};
    ghost use Rattle.plir_data.specs.declared.attributes.AttrObj.{AttrObj};

    ghost Value = { List (List ℕ × AttrObj D D.Kind D.Attr D.Ty D.Err) };

    ghost use Rattle.std.specs.Coded.{codes};
    ghost use Rattle.plir_data.specs.AttrCode.{attr_code};

    ghost coded = { Prim.hlevel (codes, attr_code) };

    ghost view = { λ e. e.left.now };
}

impl<'a, D: OpSet> Iterator for Entries<'a, D> {
    type Item = (&'a Identifier, &'a AttrObj<D>);

    ghost next_gives = { TakesFirst deref_pair };

    ghost remaining = { λ s. at_most (length s) };

    fn next(&mut self) -> Option<(&'a Identifier, &'a AttrObj<D>)> {
        match self.left {
            [] => None,
            [first, rest @ ..] => {
                self.left = rest;
                Some((&first.0, &first.1))
            }
        }
    }
}
