//! Types of a user's own, by what their values tell.

ghost use Rattle.std.specs.Prelude.{◌≡◌, ◌↔◌, ℕ, List, Option, Some, IfOk, IsTrue, Contains, All, option_map};
ghost use Rattle.plir_data.specs.OwnParts.{Part, held_in};

use crate::live_types::LiveTypes;
use plir_data::{Memory, NoMeaning, OwnText, TypeHandle};
use std::alloc::Global;
use std::fmt::Debug;
use std::hash::Hash;

/// Types of a user's own: [`crate::Dialect`] makes an op set of them. None of them knows in which op set it is, so the
/// context is asked for the types that handles name through [`LiveTypes`] alone.
pub trait OwnType: Eq + Hash + Debug + Drop {
    // What each query answers.
    ghost id: { Self → List ℕ };

    ghost text: { Self → List Part };

    ghost signature: { Self → Option (List ℕ × List ℕ) };

    // The type handles that a type holds.
    ghost handles: { Self → List ℕ };

    /// The id, as `dialect.name`.
    fn id(&self) -> &'static str
        ensures { result.now ≡ id self.now };

    /// The text behind the id, in parts; there may be none. `Memory` only where a growth was refused.
    fn text(&self, alloc: Global) -> Result<OwnText, Memory>
        ensures { IfOk result (λ parts. parts ≡ text self.now) };

    /// The types of arguments and results, of a type of functions.
    fn signature(&self) -> Option<(&[TypeHandle], &[TypeHandle])>
        ensures { option_map (λ p. (p.0.now, p.1.now)) result ≡ signature self.now };

    /// Whether all type handles that the type holds name types.
    fn is_live<L: LiveTypes>(&self, types: &L) -> bool
        requires { L.can_tell types.now }
        ensures { IsTrue result ↔ All (L.is_live types.now) (handles self.now) };

    // Equality tells values apart exactly as contracts do, and what a query hands out is among the handles held. So is
    // what a text writes out.
    ghost eq_exact: { (a b : Self) → IsTrue (Self.eq a b) → a ≡ b };

    ghost arguments_held: { (t : Self) (p : List ℕ × List ℕ) (h : ℕ) → signature t ≡ Some p → Contains p.0 h →
        Contains (handles t) h };

    ghost results_held: { (t : Self) (p : List ℕ × List ℕ) (h : ℕ) → signature t ≡ Some p → Contains p.1 h →
        Contains (handles t) h };

    ghost text_held: { (t : Self) (h : ℕ) → Contains (held_in (text t)) h → Contains (handles t) h };
}

impl OwnType for NoMeaning {
    ghost use Rattle.std.specs.Prelude.{[], None, refl, codes};
    ghost use Rattle.std.proofs.lemmas.Option.{none-some};

    ghost id = { λ _. codes "none.meaning" };

    ghost text = { λ _. [] };

    ghost signature = { λ _. None };

    ghost handles = { λ _. [] };

    fn id(&self) -> &'static str {
        "none.meaning"
    }

    fn text(&self, alloc: Global) -> Result<OwnText, Memory> {
        Ok(OwnText::new(alloc))
    }

    fn signature(&self) -> Option<(&[TypeHandle], &[TypeHandle])> {
        None
    }

    fn is_live<L: LiveTypes>(&self, _types: &L) -> bool {
        true
    }

    ghost eq_exact = { λ a b e. refl };

    ghost arguments_held = { λ t p h e m. absurd (none-some p e) };

    ghost results_held = { λ t p h e m. absurd (none-some p e) };

    ghost text_held = { λ t h m. m };
}
