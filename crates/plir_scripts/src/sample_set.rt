//! The op set of the tests: a kind that ends its block and one that doesn't, an attribute that is valid only if it is
//! marked, and a type that may have a body text.
use crate::script_set::ScriptSet;
use plir_data::{
    Location, Memory, OpSet, OutlinedAttr, OwnText, PrintOnceAttr, TypeHandle, TypeStore, VerifyErr,
};
use std::alloc::Global;
use thiserror::Error;

/// A kind of operations: `Yield` ends its block.
#[derive(Clone, Copy)]
pub enum SampleKind {
    Plain,
    Yield,
}

/// An attribute that is valid, and left out of the text of an operation, only if it is marked.
#[derive(Clone, Copy, PartialEq, Eq, Hash, Debug)]
pub struct SampleAttr(pub bool);

/// A type, wide or not.
#[derive(Clone, Copy, PartialEq, Eq, Hash, Debug)]
pub struct SampleType(pub bool);

/// The refusal of an attribute that isn't marked.
#[derive(Clone, Copy, PartialEq, Eq, Debug, Error)]
#[error("not marked")]
pub struct NotMarked;

/// The set.
#[derive(Clone, Copy, PartialEq, Eq, Debug)]
pub struct SampleSet;

impl OpSet for SampleSet {
    ghost use Rattle.std.specs.Prelude.{[], ◌∷◌, Contains, None, true, false, codes, cond, ⊤};
    ghost use Rattle.plir_data.specs.OwnParts.{chars, held_in};
    ghost use Rattle.std.proofs.Common.{rules};
    ghost use Rattle.plir_scripts.specs.Kinds.{ends_block, id_of};

    type Kind = SampleKind;

    type Attr = SampleAttr;

    type Ty = SampleType;

    type Err = NotMarked;

    ghost is_terminator = { λ k. ends_block k };

    ghost is_symbol = { λ _. false };

    ghost is_symbol_table = { λ _. false };

    ghost is_symbol_user = { λ _. false };

    ghost kind_id = { λ k. id_of k };

    ghost attr_id = { λ _. codes "sample.attr" };

    ghost attr_text = { λ a. cond a.0 (chars (codes "marked") ∷ []) [] };

    ghost attr_type = { λ _. None };

    ghost attr_outlined = { λ a. a.0 };

    ghost type_id = { λ _. codes "sample.type" };

    ghost type_body_text = { λ t. cond t.0 (chars (codes "wide") ∷ []) [] };

    ghost function_sig = { λ _. None };

    ghost attr_is_valid = { λ _ a. a.0 };

    ghost attr_refusal = { λ _ _ _. ⊤ };

    ghost attr_handles = { λ _. [] };

    ghost type_handles = { λ _. [] };

    fn is_terminator(kind: SampleKind) -> bool {
        matches!(kind, SampleKind::Yield)
    }

    fn is_symbol(_kind: SampleKind) -> bool {
        false
    }

    fn is_symbol_table(_kind: SampleKind) -> bool {
        false
    }

    fn is_symbol_user(_kind: SampleKind) -> bool {
        false
    }

    fn kind_id(kind: SampleKind) -> &'static str {
        match kind {
            SampleKind::Plain => "sample.plain",
            SampleKind::Yield => "sample.yield",
        }
    }

    fn attr_id(_attr: &SampleAttr) -> &'static str {
        "sample.attr"
    }

    fn attr_text(alloc: Global, attr: &SampleAttr) -> Result<OwnText, Memory> {
        let mut text = OwnText::new(alloc);
        if attr.0 {
            text.text("marked")?;
        }
        Ok(text)
    }

    fn attr_type(_attr: &SampleAttr) -> Option<TypeHandle> {
        None
    }

    fn attr_outlined(attr: &SampleAttr) -> bool {
        attr.0
    }

    // A refusal takes memory here, for a text that isn't used.
    fn verify_attr<C: TypeStore<Self>>(
        alloc: Global,
        attr: &SampleAttr,
        _ctx: &C,
    ) -> Result<(), VerifyErr<NotMarked>> {
        if attr.0 {
            return Ok(());
        }
        if String::from_str(alloc, "not marked").is_err() {
            return Err(VerifyErr::Memory);
        }
        Err(VerifyErr::Refused {
            loc: Location::Unknown,
            err: NotMarked,
        })
    }

    // A copy takes memory here, for a text that isn't used.
    fn clone_attr(alloc: Global, attr: &SampleAttr) -> Result<SampleAttr, Memory> {
        if String::from_str(alloc, "copied").is_err() {
            return Err(Memory);
        }
        Ok(*attr)
    }

    fn is_attr_live<C: TypeStore<Self>>(_attr: &SampleAttr, _ctx: &C) -> bool {
        true
    }

    fn type_id(_ty: &SampleType) -> &'static str {
        "sample.type"
    }

    fn type_body_text(alloc: Global, ty: &SampleType) -> Result<OwnText, Memory> {
        let mut text = OwnText::new(alloc);
        if ty.0 {
            text.text("wide")?;
        }
        Ok(text)
    }

    fn function_sig(_ty: &SampleType) -> Option<(&[TypeHandle], &[TypeHandle])> {
        None
    }

    fn is_type_live<C: TypeStore<Self>>(_ty: &SampleType, _ctx: &C) -> bool {
        true
    }

    ghost use Rattle.std.proofs.lemmas.Option.{none-some};

    ghost attr_eq_exact = { λ a b e. Prim.search rules };

    ghost type_eq_exact = { λ a b e. Prim.search rules };

    ghost attr_type_held = { λ a h e. absurd (none-some h e) };

    ghost arguments_held = { λ t p h e m. absurd (none-some p e) };

    ghost results_held = { λ t p h e m. absurd (none-some p e) };

    ghost attr_text_held = { λ a h m. elim a.0 as (λ b. Contains (held_in (cond b (chars (codes "marked") ∷ []) [])) h →
        Contains [] h) [ true ↦ λ e. e | false ↦ λ e. e ] m };

    ghost type_body_text_held = { λ t h m. elim t.0 as (λ b. Contains (held_in (cond b (chars (codes "wide") ∷ []) [])) h →
        Contains [] h) [ true ↦ λ e. e | false ↦ λ e. e ] m };
}

impl OutlinedAttr<SampleSet> for SampleAttr {
    ghost use Rattle.plir_data.specs.AttrView.{leaf, own};

    ghost seen = { λ a. leaf (own a) };

    fn outline(&self) -> bool {
        self.0
    }
}

impl PrintOnceAttr<SampleSet> for SampleAttr {}

impl ScriptSet for SampleSet {
    fn own_kind(word: &str) -> Option<SampleKind> {
        match word {
            "plain" => Some(SampleKind::Plain),
            "yield" => Some(SampleKind::Yield),
            _ => None,
        }
    }
}
