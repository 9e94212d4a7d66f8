//! Op sets for users who add kinds of operations and nothing else.

ghost use Rattle.std.specs.Prelude.{◌≡◌, ℕ, List, Bool};

use crate::location::VerifyErr;
use crate::memory::Memory;
use crate::op_set::OpSet;
use crate::own_text::OwnText;
use crate::type_store::TypeStore;
use crate::types::TypeHandle;
use std::alloc::Global;
use std::error::Error as StdError;
use std::marker::PhantomData;
use thiserror::Error;

/// Kinds of operations of a user's own: [`KindSet`] makes an op set of them.
pub trait OwnKind: Copy {
    /// Refusals of the kinds' own verifiers: [`NeverRefused`], where they never refuse.
    type Err: StdError;

    // What each query answers.
    ghost is_terminator: { Self → Bool };

    ghost is_symbol: { Self → Bool };

    ghost is_symbol_table: { Self → Bool };

    ghost is_symbol_user: { Self → Bool };

    ghost id: { Self → List ℕ };

    /// Whether an operation of the kind ends its block.
    fn is_terminator(self) -> bool
        ensures { result ≡ is_terminator self };

    /// Whether an operation of the kind is a symbol.
    fn is_symbol(self) -> bool
        ensures { result ≡ is_symbol self };

    /// Whether an operation of the kind is a symbol table.
    fn is_symbol_table(self) -> bool
        ensures { result ≡ is_symbol_table self };

    /// Whether an operation of the kind uses symbols.
    fn is_symbol_user(self) -> bool
        ensures { result ≡ is_symbol_user self };

    /// The id of the kind, as `dialect.name`.
    fn id(self) -> &'static str
        ensures { result.now ≡ id self };
}

/// Stands where an op set has operation kinds, attributes and types of its own: it has no meaning, and the library
/// makes none.
#[derive(Clone, Copy, PartialEq, Eq, Hash, Debug)]
pub struct NoMeaning;

/// The refusal of own verifiers that never refuse.
#[derive(Clone, Copy, PartialEq, Eq, Debug, Error)]
#[error("never given")]
pub struct NeverRefused;

/// The op set that adds kinds of operations to the builtin dialect, and no attributes and types.
pub struct KindSet<K> {
    kinds: PhantomData<K>,
}

/// The builtin operations, attributes and types alone, for programs and tests that need no others.
pub type BuiltinSet = KindSet<NoMeaning>;

impl OwnKind for NoMeaning {
    ghost use Rattle.std.specs.Prelude.{false, codes};

    type Err = NeverRefused;

    ghost is_terminator = { λ _. false };

    ghost is_symbol = { λ _. false };

    ghost is_symbol_table = { λ _. false };

    ghost is_symbol_user = { λ _. false };

    ghost id = { λ _. codes "none.meaning" };

    fn is_terminator(self) -> bool {
        false
    }

    fn is_symbol(self) -> bool {
        false
    }

    fn is_symbol_table(self) -> bool {
        false
    }

    fn is_symbol_user(self) -> bool {
        false
    }

    fn id(self) -> &'static str {
        "none.meaning"
    }
}

impl<K: OwnKind> OpSet for KindSet<K> {
    ghost use Rattle.std.specs.Prelude.{[], None, true, false, refl, codes};

    type Kind = K;

    type Attr = NoMeaning;

    type Ty = NoMeaning;

    type Err = K::Err;

    ghost is_terminator = { K.is_terminator };

    ghost is_symbol = { K.is_symbol };

    ghost is_symbol_table = { K.is_symbol_table };

    ghost is_symbol_user = { K.is_symbol_user };

    ghost kind_id = { K.id };

    ghost attr_id = { λ _. codes "none.meaning" };

    ghost attr_text = { λ _. [] };

    ghost attr_type = { λ _. None };

    ghost attr_outlined = { λ _. false };

    ghost type_id = { λ _. codes "none.meaning" };

    ghost type_body_text = { λ _. [] };

    ghost function_sig = { λ _. None };

    ghost attr_is_valid = { λ _ _. true };

    ghost attr_refusal = { λ _ _ _. ⊥ };

    ghost attr_handles = { λ _. [] };

    ghost type_handles = { λ _. [] };

    fn is_terminator(kind: K) -> bool {
        kind.is_terminator()
    }

    fn is_symbol(kind: K) -> bool {
        kind.is_symbol()
    }

    fn is_symbol_table(kind: K) -> bool {
        kind.is_symbol_table()
    }

    fn is_symbol_user(kind: K) -> bool {
        kind.is_symbol_user()
    }

    fn kind_id(kind: K) -> &'static str {
        kind.id()
    }

    fn attr_id(_attr: &NoMeaning) -> &'static str {
        "none.meaning"
    }

    fn attr_text(alloc: Global, _attr: &NoMeaning) -> Result<OwnText, Memory> {
        Ok(OwnText::new(alloc))
    }

    fn attr_type(_attr: &NoMeaning) -> Option<TypeHandle> {
        None
    }

    fn attr_outlined(_attr: &NoMeaning) -> bool {
        false
    }

    fn verify_attr<C: TypeStore<Self>>(
        _alloc: Global,
        _attr: &NoMeaning,
        _ctx: &C,
    ) -> Result<(), VerifyErr<K::Err>> {
        Ok(())
    }

    fn clone_attr(_alloc: Global, _attr: &NoMeaning) -> Result<NoMeaning, Memory> {
        Ok(NoMeaning)
    }

    fn is_attr_live<C: TypeStore<Self>>(_attr: &NoMeaning, _ctx: &C) -> bool {
        true
    }

    fn type_id(_ty: &NoMeaning) -> &'static str {
        "none.meaning"
    }

    fn type_body_text(alloc: Global, _ty: &NoMeaning) -> Result<OwnText, Memory> {
        Ok(OwnText::new(alloc))
    }

    fn function_sig(_ty: &NoMeaning) -> Option<(&[TypeHandle], &[TypeHandle])> {
        None
    }

    fn is_type_live<C: TypeStore<Self>>(_ty: &NoMeaning, _ctx: &C) -> bool {
        true
    }

    ghost use Rattle.std.proofs.lemmas.Option.{none-some};

    ghost attr_eq_exact = { λ a b e. refl };

    ghost type_eq_exact = { λ a b e. refl };

    ghost attr_type_held = { λ a h e. absurd (none-some h e) };

    ghost arguments_held = { λ t p h e m. absurd (none-some p e) };

    ghost results_held = { λ t p h e m. absurd (none-some p e) };

    ghost attr_text_held = { λ a h m. m };

    ghost type_body_text_held = { λ t h m. m };
}
