//! Op sets whose operations are read.
ghost use Rattle.std.specs.Prelude.{◌≡◌, ℕ, List, Option, Some, Bool, IsTrue, is_some};

use plir_data::{KindSet, OpSet, OwnKind};

/// An op set whose operations can be read from texts.
///
/// An id names no kind but one that has it, and the id of a kind names that kind or none: so no two kinds that texts
/// name have one id. A kind that no text names is allowed: its id names none.
pub trait ReadSet: OpSet {
    // The kind that an id names.
    ghost find_kind: { List ℕ → Option Self.Kind };

    /// The kind that an id names, as `dialect.name`; none, if it names no kind of the set.
    fn find_kind(id: &[u8]) -> Option<Self::Kind>
        ensures { result ≡ find_kind id.now };

    // Whether names in an operation of the kind mean nothing outside it.
    ghost is_isolated: { Self.Kind → Bool };

    /// Whether the names in the regions of an operation of the kind are looked up in these alone, as they are in a
    /// module and in a function: nothing in them uses what stands outside.
    fn is_isolated(kind: Self::Kind) -> bool
        ensures { result ≡ is_isolated kind };

    // An id names no kind but one that has it.
    ghost found_has_id: { (i : List ℕ) (k : Self.Kind) → find_kind i ≡ Some k → Self.kind_id k ≡ i };

    // The id of a kind names that kind, if it names any.
    ghost found_by_its_id: { (k : Self.Kind) → IsTrue (is_some (find_kind (Self.kind_id k))) →
        find_kind (Self.kind_id k) ≡ Some k };
}

/// Kinds of operations that can be read from texts: [`KindSet`] makes a [`ReadSet`] of them.
///
/// An id names no kind but one that has it, and the id of a kind names that kind or none, as [`ReadSet`] says.
pub trait ReadKind: OwnKind {
    // The kind that an id names.
    ghost find: { List ℕ → Option Self };

    /// The kind that an id names, as `dialect.name`; none, if it names none of these.
    fn find(id: &[u8]) -> Option<Self>
        ensures { result ≡ find id.now };

    // Whether names in an operation of the kind mean nothing outside it.
    ghost is_isolated: { Self → Bool };

    /// Whether the names in the regions of an operation of the kind are looked up in these alone: nothing in them uses
    /// what stands outside.
    fn is_isolated(self) -> bool
        ensures { result ≡ is_isolated self };

    // An id names no kind but one that has it.
    ghost found_has_id: { (i : List ℕ) (k : Self) → find i ≡ Some k → Self.id k ≡ i };

    // The id of a kind names that kind, if it names any.
    ghost found_by_its_id: { (k : Self) → IsTrue (is_some (find (Self.id k))) → find (Self.id k) ≡ Some k };
}

impl<K: ReadKind> ReadSet for KindSet<K> {
    ghost find_kind = { K.find };

    fn find_kind(id: &[u8]) -> Option<K> {
        K::find(id)
    }

    ghost is_isolated = { K.is_isolated };

    fn is_isolated(kind: K) -> bool {
        kind.is_isolated()
    }

    ghost found_has_id = { K.found_has_id };

    ghost found_by_its_id = { K.found_by_its_id };
}
