//! The table of types.

ghost use Rattle.std.specs.Prelude.{◌≡◌, ◌↔◌, ℕ, List, [], Option, Some, OnErr, IfOk, IsTrue, length, ⊤};
ghost use Rattle.plir_data.specs.Types.{TypeView, IsLive, AllLive, IsInstantiated, IsTypeTable, handles_of};
ghost use Rattle.plir_data.specs.Types.{type_at};
ghost use Rattle.plir_data.specs.TypeSeen.{type_view};

use crate::hashed::HashedList;
use crate::memory::Memory;
use crate::op_set::OpSet;
use crate::type_store::TypeStore;
use crate::types::{TypeHandle, TypeObj};
use std::alloc::Global;
use std::marker::Model;

/// Types, each once, in order of creation. A type is looked up by its hash.
#[derive(Drop)]
pub struct TypeTable<D: OpSet> {
    objects: HashedList<TypeObj<D>>,
}

impl<D: OpSet> Model for TypeTable<D> {
    ghost use Rattle.std.specs.Prelude.{List, map};
    ghost use Rattle.plir_data.specs.Types.{TypeView, IsTypeTable};
    ghost use Rattle.plir_data.specs.TypeSeen.{type_view};

    ghost Value = { List (TypeView D.Ty) };

    ghost view = { λ t. map type_view t.objects };

    ghost invariant = { λ t. IsTypeTable D.type_handles (map type_view t.objects) };
}

impl<D: OpSet> TypeTable<D> {
    /// No types.
    pub fn new(alloc: Global) -> TypeTable<D>
        ensures { result ≡ [] }
    {
        TypeTable {
            objects: HashedList::new(alloc),
        }
    }

    /// The number of types.
    pub fn len(&self) -> usize
        ensures value { result ≡ length self.now }
        ensures whole { IsTypeTable D.type_handles self.now }
    {
        self.objects.len()
    }

    /// Whether there is no type.
    pub fn is_empty(&self) -> bool
        ensures { IsTrue result ↔ (self.now ≡ []) }
    {
        self.len() == 0
    }

    /// Whether a handle names a type of this table.
    pub fn is_live(&self, handle: TypeHandle) -> bool
        ensures { IsTrue result ↔ IsLive self.now handle }
    {
        handle.index() < self.len()
    }

    /// Whether all of these handles name types of this table.
    pub fn are_live(&self, handles: &[TypeHandle]) -> bool
        ensures { IsTrue result ↔ AllLive self.now handles.now }
    {
        handles.iter().all(|&handle| self.is_live(handle))
    }

    /// The type that a handle names.
    pub fn get(&self, handle: TypeHandle) -> &TypeObj<D>
        requires { IsLive self.now handle }
        ensures found { type_at self.now handle ≡ Some (type_view result.now) }
        ensures whole { IsTypeTable D.type_handles self.now }
    {
        &self.objects.as_slice()[handle.index()]
    }
}

impl<D: OpSet> TypeStore<D> for TypeTable<D> {
    ghost use Rattle.std.specs.Prelude.{⊤};

    ghost types = { λ t. t };

    ghost same_besides = { λ _ _. ⊤ };

    // The length is read so that what a table keeps is known.
    fn types(&self) -> &TypeTable<D> {
        let _len = self.len();
        self
    }

    fn holds_type(&self, handle: TypeHandle) -> bool {
        self.is_live(handle)
    }

    fn holds_types(&self, handles: &[TypeHandle]) -> bool {
        self.are_live(handles)
    }

    fn instantiate(&mut self, value: TypeObj<D>) -> Result<TypeHandle, Memory>
        requires { AllLive self.old (handles_of D.type_handles (type_view value)) }
        ensures ok { IfOk result (λ h. IsInstantiated self.old (type_view value) h self.new) }
        ensures err { OnErr result (self.new ≡ self.old) }
        ensures rest { ⊤ }
    {
        let index = self.objects.insert_full(value)?;
        Ok(TypeHandle::new(index))
    }

    ghost same_besides_itself = { λ c. tt };

    ghost same_besides_on = { λ a b c p q. tt };
}
