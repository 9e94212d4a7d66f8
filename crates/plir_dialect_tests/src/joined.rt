//! The dialects of two crates in one op set.
use crate::view::View;
use joined_dialects::toy::Toy;
use plir_dialect::{Joined, Joining};

/// The pair of the two dialects.
pub struct ToyAndView;

/// The op set of both.
pub type Both = Joined<ToyAndView>;

impl Joining for ToyAndView {
    ghost use Rattle.std.proofs.Common.{rules};

    type First = Toy;

    type Second = View;

    ghost kind_ids_differ = { λ k l e. Prim.search rules };

    ghost attr_ids_differ = { λ a b e. e };

    ghost type_ids_differ = { λ t u e. e };
}
