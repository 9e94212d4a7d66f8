//! Attributes of a user's own, by what their values tell.

ghost use Rattle.std.specs.Prelude.{◌≡◌, ◌↔◌, ℕ, List, Bool, Option, Some, IfOk, IsTrue, Contains, All};
ghost use Rattle.plir_data.specs.OwnParts.{Part, held_in};
ghost use Rattle.plir_data.specs.Verify.{IsVerdict};

use crate::live_types::LiveTypes;
use plir_data::{Memory, NeverRefused, NoMeaning, OwnText, TypeHandle, VerifyErr};
use std::alloc::Global;
use std::error::Error;
use std::fmt::Debug;
use std::hash::Hash;

/// Attributes of a user's own: [`crate::Dialect`] makes an op set of them. None of them knows in which op set it is, so
/// the context is asked for the types that handles name through [`LiveTypes`] alone.
///
/// Only what takes an allocator may answer `Memory`, and only where a growth was refused.
pub trait OwnAttr: Eq + Hash + Debug + Drop {
    /// Refusals: [`NeverRefused`], where each value is valid.
    type Err: Error;

    // What each query answers.
    ghost id: { Self → List ℕ };

    ghost text: { Self → List Part };

    ghost get_type: { Self → Option ℕ };

    ghost is_outlined: { Self → Bool };

    // Whether a value is accepted, and the refusals that may be given for one that is not.
    ghost is_valid: { Self → Bool };

    ghost refusal: { Self → Self.Err → Type 0 };

    // The type handles that a value holds.
    ghost handles: { Self → List ℕ };

    /// The id, as `dialect.name`.
    fn id(&self) -> &'static str
        ensures { result.now ≡ id self.now };

    /// The text behind the id, in parts; there may be none.
    fn text(&self, alloc: Global) -> Result<OwnText, Memory>
        ensures { IfOk result (λ parts. parts ≡ text self.now) };

    /// The type of an attribute that has one.
    fn get_type(&self) -> Option<TypeHandle>
        ensures { result ≡ get_type self.now };

    /// Whether the attribute is left out of the text of an operation.
    fn is_outlined(&self) -> bool
        ensures { result ≡ is_outlined self.now };

    /// Whether the attribute is valid: the refusal if it isn't, its place `Unknown`.
    fn verify(&self, alloc: Global) -> Result<(), VerifyErr<Self::Err>>
        ensures { IsVerdict (is_valid self.now) (refusal self.now) result };

    /// An equal attribute.
    fn try_clone(&self, alloc: Global) -> Result<Self, Memory>
        ensures { IfOk result (λ copy. copy ≡ self.now) };

    /// Whether all type handles that the attribute holds name types.
    fn is_live<L: LiveTypes>(&self, types: &L) -> bool
        requires { L.can_tell types.now }
        ensures { IsTrue result ↔ All (L.is_live types.now) (handles self.now) };

    // Equality tells values apart exactly as contracts do, and what a query hands out is among the handles held. So is
    // what a text writes out.
    ghost eq_exact: { (a b : Self) → IsTrue (Self.eq a b) → a ≡ b };

    ghost type_held: { (a : Self) (h : ℕ) → get_type a ≡ Some h → Contains (handles a) h };

    ghost text_held: { (a : Self) (h : ℕ) → Contains (held_in (text a)) h → Contains (handles a) h };
}

impl OwnAttr for NoMeaning {
    ghost use Rattle.std.specs.Prelude.{[], None, true, false, refl, codes};
    ghost use Rattle.std.proofs.lemmas.Option.{none-some};

    type Err = NeverRefused;

    ghost id = { λ _. codes "none.meaning" };

    ghost text = { λ _. [] };

    ghost get_type = { λ _. None };

    ghost is_outlined = { λ _. false };

    ghost is_valid = { λ _. true };

    ghost refusal = { λ _ _. ⊥ };

    ghost handles = { λ _. [] };

    fn id(&self) -> &'static str {
        "none.meaning"
    }

    fn text(&self, alloc: Global) -> Result<OwnText, Memory> {
        Ok(OwnText::new(alloc))
    }

    fn get_type(&self) -> Option<TypeHandle> {
        None
    }

    fn is_outlined(&self) -> bool {
        false
    }

    fn verify(&self, _alloc: Global) -> Result<(), VerifyErr<NeverRefused>> {
        Ok(())
    }

    fn try_clone(&self, _alloc: Global) -> Result<NoMeaning, Memory> {
        Ok(NoMeaning)
    }

    fn is_live<L: LiveTypes>(&self, _types: &L) -> bool {
        true
    }

    ghost eq_exact = { λ a b e. refl };

    ghost type_held = { λ a h e. absurd (none-some h e) };

    ghost text_held = { λ a h m. m };
}
