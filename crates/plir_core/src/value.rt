//! Values: the results of operations and the arguments of blocks.
ghost use Rattle.std.specs.Prelude.{◌≡◌, ◌<◌, ◌↔◌, All, IsTrue, Some};
ghost use Rattle.plir_core.specs.ContextView.{entity_node, IsLive, IsValueLive, is_value_live, type_of_value};
ghost use Rattle.plir_data.specs.Types.{IsLive as IsTypeLive};
ghost use Rattle.plir_core.specs.WellFormed.{IsWellFormed};
ghost use Rattle.plir_core.specs.declared.ptr.IRNode.{IRNode};

use crate::context::Context;
use crate::ptr::{BasicBlock, IRNode, Operation, Ptr};
use plir_data::{OpSet, TypeHandle};

/// What a value comes from.
#[derive(Clone, Copy, PartialEq, Eq, Hash, Debug)]
pub enum DefiningEntity {
    /// The operation whose result it is.
    Op(Ptr<Operation>),
    /// The block whose argument it is.
    Block(Ptr<BasicBlock>),
}

/// A result of an operation, or an argument of a block, by its place among them.
#[derive(Clone, Copy, PartialEq, Eq, Hash, Debug)]
pub struct Value {
    entity: DefiningEntity,
    index: usize,
}

impl DefiningEntity {
    /// The operation or block as a node.
    pub(crate) fn node(self) -> IRNode
        ensures { result ≡ entity_node self }
    {
        match self {
            DefiningEntity::Op(op) => IRNode::Operation(op),
            DefiningEntity::Block(block) => IRNode::BasicBlock(block),
        }
    }

    // The slot of the operation or block.
    pub(crate) fn slot(self) -> u32 {
        match self {
            DefiningEntity::Op(op) => op.slot,
            DefiningEntity::Block(block) => block.slot,
        }
    }
}

impl Value {
    pub(crate) fn new(entity: DefiningEntity, index: usize) -> Value
        ensures { result ≡ record { entity = entity; index = index } }
    {
        Value { entity, index }
    }

    /// The operation or the block that the value comes from.
    pub fn defining_entity(self) -> DefiningEntity
        ensures { result ≡ self.entity }
    {
        self.entity
    }

    /// The place among the results or arguments, from 0.
    pub fn index(self) -> usize
        ensures { result ≡ self.index }
    {
        self.index
    }

    /// Whether the value is live: its operation or block is, and has a result or an argument at its place.
    pub fn is_live<D: OpSet>(self, ctx: &Context<D>) -> bool
        ensures value { result ≡ is_value_live ctx.now self }
        ensures whole { IsWellFormed D.attr_handles ctx.now }
    {
        match self.defining_entity() {
            DefiningEntity::Op(op) => op.is_live(ctx) && self.index() < op.get_num_results(ctx),
            DefiningEntity::Block(block) => {
                block.is_live(ctx) && self.index() < block.get_num_arguments(ctx)
            }
        }
    }

    /// The type of the value.
    pub fn get_type<D: OpSet>(self, ctx: &Context<D>) -> TypeHandle
        requires { IsValueLive ctx.now self }
        ensures value { type_of_value ctx.now self ≡ Some result }
        ensures live { IsTypeLive ctx.now.types result }
        ensures whole { IsWellFormed D.attr_handles ctx.now }
    {
        match self.defining_entity() {
            DefiningEntity::Op(op) => op.get_type(ctx, self.index()),
            DefiningEntity::Block(block) => block.get_type(ctx, self.index()),
        }
    }
}

impl<D: OpSet> Context<D> {
    // Whether each of some values is live.
    pub(crate) fn are_values_live(&self, values: &[Value]) -> bool
        ensures { IsTrue result ↔ All (IsValueLive self.now) values.now }
    {
        for value in values {
            if !value.is_live(self) {
                return false;
            }
        }
        true
    }

    // Whether each of some blocks is live.
    pub(crate) fn are_blocks_live(&self, blocks: &[Ptr<BasicBlock>]) -> bool
        ensures { IsTrue result ↔ All (λ b. IsLive self.now (IRNode.BasicBlock b)) blocks.now }
    {
        for block in blocks {
            if !block.is_live(self) {
                return false;
            }
        }
        true
    }
}
