//! The context: all nodes and types of an IR.
ghost use Rattle.std.specs.Prelude.{◌≡◌, ◌↔◌, ◌-◌, ◌^◌, [], IfOk, OnErr, IsTrue};
ghost use Rattle.plir_data.specs.Types.{IsLive as IsTypeLive, AllLive, IsInstantiated, IsTypeTable, handles_of};
ghost use Rattle.plir_data.specs.TypeSeen.{type_view};
ghost use Rattle.plir_core.specs.ContextView.{ContextView, num_live};
ghost use Rattle.plir_core.specs.Standing.{IsStanding};
ghost use Rattle.plir_core.specs.WellFormed.{IsWellFormed};
ghost use Rattle.plir_core.specs.Edits.{empty};

use crate::arena::Arena;
use crate::arena::contents::{BlockData, OpData};
use crate::uses::counts::UseCounts;
use plir_data::{Memory, OpSet, TypeHandle, TypeObj, TypeStore, TypeTable};
use std::alloc::Global;
use std::marker::Model;

/// All nodes and types of an IR.
#[derive(Drop)]
pub struct Context<D: OpSet> {
    pub(crate) nodes: Arena<OpData<D>, BlockData<D>>,
    pub(crate) types: TypeTable<D>,
    // How often the node in each slot is used: no contract sees it.
    pub(crate) uses: UseCounts,
}

impl<D: OpSet> Model for Context<D> {
    ghost use Rattle.plir_core.specs.ContextView.{ContextView};
    ghost use Rattle.plir_core.specs.Uses.{IsSound};

    ghost Value = { ContextView D.Kind D.Attr D.Ty };

    ghost use Rattle.std.specs.Coded.{codes};
    ghost use Rattle.plir_data.specs.AttrCode.{attr_code};

    ghost coded = { Prim.hlevel (codes, attr_code D.Attr.code) };

    ghost view = { λ c. record { nodes = c.nodes; types = c.types } };

    ghost invariant = { λ c. IsSound D.attr_handles (record { nodes = c.nodes; types = c.types }) c.uses };
}

impl<D: OpSet> Context<D> {
    /// An empty context with room for 4294967295 live nodes.
    pub fn new(alloc: Global) -> Context<D>
        ensures empty { result ≡ record { nodes = empty (2 ^ 32 - 1); types = [] } }
        ensures whole { IsWellFormed D.attr_handles result }
    {
        Self::with_limit(alloc, u32::MAX)
    }

    /// An empty context with room for so many live nodes.
    pub fn with_limit(alloc: Global, max_nodes: u32) -> Context<D>
        ensures empty { result ≡ record { nodes = empty max_nodes; types = [] } }
        ensures whole { IsWellFormed D.attr_handles result }
    {
        Context {
            nodes: Arena::new(alloc, max_nodes),
            types: TypeTable::new(alloc),
            uses: UseCounts::new(alloc),
        }
    }

    /// How many nodes are live.
    pub fn num_live(&self) -> u32
        ensures value { result ≡ num_live self.now }
        ensures whole { IsWellFormed D.attr_handles self.now }
    {
        self.nodes.num_live()
    }

    /// Does nothing: it tells a proof that the context is whole, and so that its nodes make a forest.
    pub fn stands(&self)
        ensures whole { IsWellFormed D.attr_handles self.now }
        ensures standing { IsStanding self.now }
    {
        let _count = self.num_live();
    }

    /// Whether a type handle names a type of this context.
    pub fn is_live(&self, handle: TypeHandle) -> bool
        ensures value { IsTrue result ↔ IsTypeLive self.now.types handle }
        ensures whole { IsWellFormed D.attr_handles self.now }
    {
        self.types.is_live(handle)
    }
}

impl<D: OpSet> TypeStore<D> for Context<D> {
    ghost use Rattle.std.specs.Prelude.{◌≡◌, refl};
    ghost use Rattle.std.proofs.Common.{◌∙◌};

    ghost types = { λ c. c.types };

    ghost same_besides = { λ a b. b.nodes ≡ a.nodes };

    fn types(&self) -> &TypeTable<D>
        ensures value { result.now ≡ self.now.types }
        ensures table { IsTypeTable D.type_handles self.now.types }
        ensures whole { IsWellFormed D.attr_handles self.now }
    {
        self.types.types()
    }

    fn holds_type(&self, handle: TypeHandle) -> bool {
        self.types.is_live(handle)
    }

    fn holds_types(&self, handles: &[TypeHandle]) -> bool {
        self.types.are_live(handles)
    }

    fn instantiate(&mut self, value: TypeObj<D>) -> Result<TypeHandle, Memory>
        requires { AllLive self.old.types (handles_of D.type_handles (type_view value)) }
        ensures ok { IfOk result (λ h. IsInstantiated self.old.types (type_view value) h self.new.types) }
        ensures err { OnErr result (self.new.types ≡ self.old.types) }
        ensures rest { self.new.nodes ≡ self.old.nodes }
        ensures whole { IsWellFormed D.attr_handles self.new }
    {
        let handle = self.types.instantiate(value)?;
        Ok(handle)
    }

    ghost same_besides_itself = { λ c. refl };

    ghost same_besides_on = { λ a b c p q. q ∙ p };
}
