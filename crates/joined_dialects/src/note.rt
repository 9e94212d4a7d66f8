//! A dialect that asks nothing of its operations, as a crate of its own would have it: notes.
use plir_data::{NeverRefused, OwnKind};
use plir_dialect::{Dialect, NamesAsBuiltin, NoRules, NoUses};
use plir_passes::EffectKind;

/// The one kind: a note, which stays where it is.
#[derive(Clone, Copy, PartialEq, Eq, Debug)]
pub struct NoteKind;

/// The dialect.
pub type Note = Dialect<NoteKind>;

impl OwnKind for NoteKind {
    ghost use Rattle.std.specs.Prelude.{false, codes};

    type Err = NeverRefused;

    ghost is_terminator = { λ _. false };

    ghost is_symbol = { λ _. false };

    ghost is_symbol_table = { λ _. false };

    ghost is_symbol_user = { λ _. false };

    ghost id = { λ _. codes "note.here" };

    fn is_terminator(self) -> bool {
        false
    }

    fn is_symbol(self) -> bool {
        false
    }

    fn is_symbol_table(self) -> bool {
        false
    }

    fn is_symbol_user(self) -> bool {
        false
    }

    fn id(self) -> &'static str {
        "note.here"
    }
}

impl EffectKind for NoteKind {
    ghost use Rattle.std.specs.Prelude.{true};

    ghost has_effect = { λ _. true };

    fn has_effect(self) -> bool {
        true
    }
}

impl NoRules for NoteKind {}

impl NoUses for NoteKind {}

impl NamesAsBuiltin for NoteKind {}
