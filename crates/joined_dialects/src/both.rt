//! Two of the dialects in one op set, and all three.
use crate::my::{HasMy, My, MyKind};
use crate::note::{Note, NoteKind};
use crate::toy::{Toy, ToyKind};
use plir_dialect::{Joined, Joining, OneOf};

/// The pair of the two dialects.
pub struct ToyAndMy;

/// The op set of both.
pub type Both = Joined<ToyAndMy>;

impl Joining for ToyAndMy {
    ghost use Rattle.std.proofs.Common.{rules};

    type First = Toy;

    type Second = My;

    ghost kind_ids_differ = { λ k l e. Prim.search rules };

    ghost attr_ids_differ = { λ a b e. Prim.search rules };

    ghost type_ids_differ = { λ t u e. Prim.search rules };
}

/// The pair of those two and the third.
pub struct BothAndNote;

/// The op set of all three.
pub type All = Joined<BothAndNote>;

impl Joining for BothAndNote {
    ghost use Rattle.std.proofs.Common.{rules};

    type First = Both;

    type Second = Note;

    ghost kind_ids_differ = { λ k l e. Prim.search rules };

    ghost attr_ids_differ = { λ a b e. Prim.search rules };

    ghost type_ids_differ = { λ t u e. Prim.search rules };
}

impl HasMy for All {
    ghost use Rattle.plir_dialect.specs.declared.one_of.OneOf.TheVariants.{First, Second};

    ghost of_my = { λ kind. First (Second kind) };

    fn of_my(kind: MyKind) -> OneOf<OneOf<ToyKind, MyKind>, NoteKind> {
        OneOf::First(OneOf::Second(kind))
    }
}
