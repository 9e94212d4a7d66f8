//! The op set of operations that are read back: kinds that texts name, one that names can't look out of, and kinds that
//! no text names; with the attribute and the type of the scripts' own set.
use plir_data::{Location, Memory, OpSet, OwnText, TypeHandle, TypeStore, VerifyErr};
use plir_read_own::ReadSet;
use plir_scripts::{NotMarked, OwnSet, SampleAttr, SampleType, ScriptSet};
use std::alloc::Global;

/// A kind of operations.
#[derive(Clone, Copy)]
pub enum TextKind {
    /// Texts name it.
    Plain,
    /// The same, and names in its regions mean nothing that stands outside.
    Closed,
    /// Its id has no point.
    Pointless,
    /// Its id finds no kind.
    Unfound,
    /// Its id is that of a builtin operation.
    Builtin,
}

/// The set.
#[derive(Clone, Copy, PartialEq, Eq, Debug)]
pub struct TextSet;

impl OpSet for TextSet {
    ghost use Rattle.std.specs.Prelude.{[], None, false, codes, ⊤};
    ghost use Rattle.std.proofs.Common.{rules};
    ghost use Rattle.plir_text_calls.specs.TextKinds.{id_of};

    type Kind = TextKind;

    type Attr = SampleAttr;

    type Ty = SampleType;

    type Err = NotMarked;

    ghost is_terminator = { λ _. false };

    ghost is_symbol = { λ _. false };

    ghost is_symbol_table = { λ _. false };

    ghost is_symbol_user = { λ _. false };

    ghost kind_id = { λ k. id_of k };

    ghost attr_id = { λ _. codes "sample.attr" };

    ghost attr_text = { λ _. [] };

    ghost attr_type = { λ _. None };

    ghost attr_outlined = { λ a. a.0 };

    ghost type_id = { λ _. codes "sample.type" };

    ghost type_body_text = { λ _. [] };

    ghost function_sig = { λ _. None };

    ghost attr_is_valid = { λ _ a. a.0 };

    ghost attr_refusal = { λ _ _ _. ⊤ };

    ghost attr_handles = { λ _. [] };

    ghost type_handles = { λ _. [] };

    fn is_terminator(_kind: TextKind) -> bool {
        false
    }

    fn is_symbol(_kind: TextKind) -> bool {
        false
    }

    fn is_symbol_table(_kind: TextKind) -> bool {
        false
    }

    fn is_symbol_user(_kind: TextKind) -> bool {
        false
    }

    fn kind_id(kind: TextKind) -> &'static str {
        match kind {
            TextKind::Plain => "sample.plain",
            TextKind::Closed => "sample.closed",
            TextKind::Pointless => "pointless",
            TextKind::Unfound => "sample.unfound",
            TextKind::Builtin => "builtin.func",
        }
    }

    fn attr_id(_attr: &SampleAttr) -> &'static str {
        "sample.attr"
    }

    fn attr_text(alloc: Global, _attr: &SampleAttr) -> Result<OwnText, Memory> {
        Ok(OwnText::new(alloc))
    }

    fn attr_type(_attr: &SampleAttr) -> Option<TypeHandle> {
        None
    }

    fn attr_outlined(attr: &SampleAttr) -> bool {
        attr.0
    }

    fn verify_attr<C: TypeStore<Self>>(
        _alloc: Global,
        attr: &SampleAttr,
        _ctx: &C,
    ) -> Result<(), VerifyErr<NotMarked>> {
        if attr.0 {
            return Ok(());
        }
        Err(VerifyErr::Refused {
            loc: Location::Unknown,
            err: NotMarked,
        })
    }

    fn clone_attr(_alloc: Global, attr: &SampleAttr) -> Result<SampleAttr, Memory> {
        Ok(*attr)
    }

    fn is_attr_live<C: TypeStore<Self>>(_attr: &SampleAttr, _ctx: &C) -> bool {
        true
    }

    fn type_id(_ty: &SampleType) -> &'static str {
        "sample.type"
    }

    fn type_body_text(alloc: Global, _ty: &SampleType) -> Result<OwnText, Memory> {
        Ok(OwnText::new(alloc))
    }

    fn function_sig(_ty: &SampleType) -> Option<(&[TypeHandle], &[TypeHandle])> {
        None
    }

    fn is_type_live<C: TypeStore<Self>>(_ty: &SampleType, _ctx: &C) -> bool {
        true
    }

    ghost use Rattle.std.proofs.lemmas.Option.{none-some};

    ghost attr_eq_exact = { λ a b e. Prim.search rules };

    ghost type_eq_exact = { λ a b e. Prim.search rules };

    ghost attr_type_held = { λ a h e. absurd (none-some h e) };

    ghost arguments_held = { λ t p h e m. absurd (none-some p e) };

    ghost results_held = { λ t p h e m. absurd (none-some p e) };

    ghost attr_text_held = { λ a h m. m };

    ghost type_body_text_held = { λ t h m. m };
}

impl ReadSet for TextSet {
    ghost use Rattle.plir_text_calls.specs.TextKinds.{is_closed, kind_of};
    ghost use Rattle.plir_text_calls.specs.TextIds.{finds_it, has_its_id};

    ghost find_kind = { kind_of };

    fn find_kind(id: &[u8]) -> Option<TextKind> {
        if id == b"sample.plain".as_slice() {
            Some(TextKind::Plain)
        } else if id == b"sample.closed".as_slice() {
            Some(TextKind::Closed)
        } else if id == b"pointless".as_slice() {
            Some(TextKind::Pointless)
        } else if id == b"builtin.func".as_slice() {
            Some(TextKind::Builtin)
        } else {
            None
        }
    }

    ghost is_isolated = { is_closed };

    fn is_isolated(kind: TextKind) -> bool {
        matches!(kind, TextKind::Closed)
    }

    ghost found_has_id = { has_its_id };

    ghost found_by_its_id = { finds_it };
}

impl ScriptSet for TextSet {
    fn own_kind(word: &str) -> Option<TextKind> {
        match word {
            "plain" => Some(TextKind::Plain),
            "closed" => Some(TextKind::Closed),
            "pointless" => Some(TextKind::Pointless),
            "unfound" => Some(TextKind::Unfound),
            "builtin" => Some(TextKind::Builtin),
            _ => None,
        }
    }
}

impl OwnSet for TextSet {
    fn own_type(is_wide: bool) -> SampleType {
        SampleType(is_wide)
    }

    fn own_attr(is_marked: bool) -> SampleAttr {
        SampleAttr(is_marked)
    }
}
