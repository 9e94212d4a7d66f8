//! Where types are kept: each once, named by a handle.

ghost use Rattle.std.specs.Prelude.{◌≡◌, ◌↔◌, ℕ, List, Option, Some, OnErr, IfOk, IsTrue};
ghost use Rattle.plir_data.specs.Types.{TypeView, IsLive, AllLive, IsInstantiated, IsTypeTable, handles_of, type_at};
ghost use Rattle.plir_data.specs.TypeSeen.{type_view};

use crate::memory::Memory;
use crate::op_set::OpSet;
use crate::type_table::TypeTable;
use crate::types::{TypeHandle, TypeObj};

/// A type table, or what holds one.
pub trait TypeStore<D: OpSet> {
    // The types, in order of creation.
    ghost types: { Self → List (TypeView D.Ty) };

    // Nothing but the types may differ.
    ghost same_besides: { Self → Self → Type 0 };

    /// The table of types. No type stands in it twice: equal handles name equal types, and equal types have equal
    /// handles.
    fn types(&self) -> &TypeTable<D>
        ensures value { result.now ≡ types self.now }
        ensures whole { IsTypeTable D.type_handles (types self.now) };

    /// Whether a handle names a type. This and `holds_types` are for an own type or attribute that is asked whether
    /// the handles that it holds are live: the table that `types` hands out can't be asked there.
    fn holds_type(&self, handle: TypeHandle) -> bool
        ensures { IsTrue result ↔ IsLive (types self.now) handle };

    /// Whether all of these handles name types.
    fn holds_types(&self, handles: &[TypeHandle]) -> bool
        ensures { IsTrue result ↔ AllLive (types self.now) handles.now };

    /// The handle of a type: if the table hasn't it yet, it comes last. Nothing else changes, and after a refusal
    /// nothing at all.
    fn instantiate(&mut self, value: TypeObj<D>) -> Result<TypeHandle, Memory>
        requires { AllLive (types self.old) (handles_of D.type_handles (type_view value)) }
        ensures ok { IfOk result (λ h. IsInstantiated (types self.old) (type_view value) h (types self.new)) }
        ensures err { OnErr result (types self.new ≡ types self.old) }
        ensures rest { same_besides self.old self.new };

    ghost same_besides_itself: { (c : Self) → same_besides c c };

    ghost same_besides_on: { (a b c : Self) → same_besides a b → same_besides b c → same_besides a c };
}
