//! What operations and blocks hold, place by place.
ghost use Rattle.std.specs.Prelude.{◌≡◌, ◌<◌, Some, length, slice_get, option_map};
ghost use Rattle.plir_data.specs.{AttrLive.HandlesLive, Types.IsLive as IsTypeLive};
ghost use Rattle.plir_core.specs.{WellFormed.IsWellFormed, declared.ptr.IRNode.IRNode};
ghost use Rattle.plir_core.specs.{declared.value.DefiningEntity.DefiningEntity};
ghost use Rattle.plir_core.specs.ContextView.{IsLive, kind_of, IsValueLive, arg_types_of, block_attributes_of};
ghost use Rattle.plir_core.specs.ContextView.{label_of, operands_of, result_types_of, successors_of, attributes_of};
ghost use Rattle.plir_core.specs.ContextView.{location_of};

use crate::context::Context;
use crate::ptr::{BasicBlock, Operation, Ptr};
use crate::value::{DefiningEntity, Value};
use plir_data::{AttributeDict, Identifier, Location, OpKind, OpSet, TypeHandle};

impl Ptr<Operation> {
    /// The kind of the operation.
    pub fn kind<D: OpSet>(self, ctx: &Context<D>) -> OpKind<D::Kind>
        requires { IsLive ctx.now (IRNode.Operation self) }
        ensures value { kind_of ctx.now self ≡ Some result }
        ensures whole { IsWellFormed D.attr_handles ctx.now }
    {
        prove!(self.is_live(ctx), "the operation is not live");
        ctx.nodes.op(self).kind
    }

    /// Where the operation stands in a source text.
    pub fn loc<D: OpSet>(self, ctx: &Context<D>) -> Location
        requires { IsLive ctx.now (IRNode.Operation self) }
        ensures value { location_of ctx.now self ≡ Some result }
        ensures whole { IsWellFormed D.attr_handles ctx.now }
    {
        prove!(self.is_live(ctx), "the operation is not live");
        ctx.nodes.op(self).location
    }

    /// How many results the operation has.
    pub fn get_num_results<D: OpSet>(self, ctx: &Context<D>) -> usize
        requires { IsLive ctx.now (IRNode.Operation self) }
        ensures value { result ≡ length (result_types_of ctx.now self) }
        ensures whole { IsWellFormed D.attr_handles ctx.now }
    {
        prove!(self.is_live(ctx), "the operation is not live");
        ctx.nodes.op(self).result_types.len()
    }

    /// The type of the result at a place, from 0.
    pub fn get_type<D: OpSet>(self, ctx: &Context<D>, i: usize) -> TypeHandle
        requires live { IsLive ctx.now (IRNode.Operation self) }
        requires below { i < length (result_types_of ctx.now self) }
        ensures value { slice_get (result_types_of ctx.now self) i ≡ Some result }
        ensures live { IsTypeLive ctx.now.types result }
        ensures whole { IsWellFormed D.attr_handles ctx.now }
    {
        prove!(self.is_live(ctx), "the operation is not live");
        prove!(i < self.get_num_results(ctx), "there is none at this place");
        ctx.nodes.op(self).result_types.get(i)
    }

    /// The result at a place, from 0.
    pub fn get_result<D: OpSet>(self, ctx: &Context<D>, i: usize) -> Value
        requires live { IsLive ctx.now (IRNode.Operation self) }
        requires below { i < length (result_types_of ctx.now self) }
        ensures value { result ≡ record { entity = DefiningEntity.Op self; index = i } }
        ensures live { IsValueLive ctx.now result }
        ensures whole { IsWellFormed D.attr_handles ctx.now }
    {
        prove!(self.is_live(ctx), "the operation is not live");
        prove!(i < self.get_num_results(ctx), "there is none at this place");
        let _types = &ctx.types;
        Value::new(DefiningEntity::Op(self), i)
    }

    /// How many operands the operation has.
    pub fn get_num_operands<D: OpSet>(self, ctx: &Context<D>) -> usize
        requires { IsLive ctx.now (IRNode.Operation self) }
        ensures value { result ≡ length (operands_of ctx.now self) }
        ensures whole { IsWellFormed D.attr_handles ctx.now }
    {
        prove!(self.is_live(ctx), "the operation is not live");
        ctx.nodes.op(self).operands.len()
    }

    /// The operand at a place, from 0.
    pub fn get_operand<D: OpSet>(self, ctx: &Context<D>, i: usize) -> Value
        requires live { IsLive ctx.now (IRNode.Operation self) }
        requires below { i < length (operands_of ctx.now self) }
        ensures value { slice_get (operands_of ctx.now self) i ≡ Some result }
        ensures live { IsValueLive ctx.now result }
        ensures whole { IsWellFormed D.attr_handles ctx.now }
    {
        prove!(self.is_live(ctx), "the operation is not live");
        prove!(
            i < self.get_num_operands(ctx),
            "there is none at this place"
        );
        ctx.nodes.op(self).operands[i]
    }

    /// How many successors the operation has.
    pub fn get_num_successors<D: OpSet>(self, ctx: &Context<D>) -> usize
        requires { IsLive ctx.now (IRNode.Operation self) }
        ensures value { result ≡ length (successors_of ctx.now self) }
        ensures whole { IsWellFormed D.attr_handles ctx.now }
    {
        prove!(self.is_live(ctx), "the operation is not live");
        ctx.nodes.op(self).successors.len()
    }

    /// The successor at a place, from 0.
    pub fn get_successor<D: OpSet>(self, ctx: &Context<D>, i: usize) -> Ptr<BasicBlock>
        requires live { IsLive ctx.now (IRNode.Operation self) }
        requires below { i < length (successors_of ctx.now self) }
        ensures value { slice_get (successors_of ctx.now self) i ≡ Some result }
        ensures live { IsLive ctx.now (IRNode.BasicBlock result) }
        ensures whole { IsWellFormed D.attr_handles ctx.now }
    {
        prove!(self.is_live(ctx), "the operation is not live");
        prove!(
            i < self.get_num_successors(ctx),
            "there is none at this place"
        );
        ctx.nodes.op(self).successors.get(i)
    }

    /// The attributes of the operation.
    pub fn attributes<D: OpSet>(self, ctx: &Context<D>) -> &AttributeDict<D>
        requires { IsLive ctx.now (IRNode.Operation self) }
        ensures value { result.now ≡ attributes_of ctx.now self }
        ensures live { HandlesLive D.attr_handles ctx.now.types (attributes_of ctx.now self) }
        ensures whole { IsWellFormed D.attr_handles ctx.now }
    {
        prove!(self.is_live(ctx), "the operation is not live");
        &ctx.nodes.op(self).attributes
    }
}

impl Ptr<BasicBlock> {
    /// The label of the block, if it has one.
    pub fn label<D: OpSet>(self, ctx: &Context<D>) -> Option<&Identifier>
        requires { IsLive ctx.now (IRNode.BasicBlock self) }
        ensures value { option_map (λ l. l.now) result ≡ label_of ctx.now self }
        ensures whole { IsWellFormed D.attr_handles ctx.now }
    {
        prove!(self.is_live(ctx), "the block is not live");
        ctx.nodes.block(self).label.as_ref()
    }

    /// How many arguments the block has.
    pub fn get_num_arguments<D: OpSet>(self, ctx: &Context<D>) -> usize
        requires { IsLive ctx.now (IRNode.BasicBlock self) }
        ensures value { result ≡ length (arg_types_of ctx.now self) }
        ensures whole { IsWellFormed D.attr_handles ctx.now }
    {
        prove!(self.is_live(ctx), "the block is not live");
        ctx.nodes.block(self).arg_types.len()
    }

    /// The type of the argument at a place, from 0.
    pub fn get_type<D: OpSet>(self, ctx: &Context<D>, i: usize) -> TypeHandle
        requires live { IsLive ctx.now (IRNode.BasicBlock self) }
        requires below { i < length (arg_types_of ctx.now self) }
        ensures value { slice_get (arg_types_of ctx.now self) i ≡ Some result }
        ensures live { IsTypeLive ctx.now.types result }
        ensures whole { IsWellFormed D.attr_handles ctx.now }
    {
        prove!(self.is_live(ctx), "the block is not live");
        prove!(
            i < self.get_num_arguments(ctx),
            "there is none at this place"
        );
        ctx.nodes.block(self).arg_types.get(i)
    }

    /// The argument at a place, from 0.
    pub fn get_argument<D: OpSet>(self, ctx: &Context<D>, i: usize) -> Value
        requires live { IsLive ctx.now (IRNode.BasicBlock self) }
        requires below { i < length (arg_types_of ctx.now self) }
        ensures value { result ≡ record { entity = DefiningEntity.Block self; index = i } }
        ensures live { IsValueLive ctx.now result }
        ensures whole { IsWellFormed D.attr_handles ctx.now }
    {
        prove!(self.is_live(ctx), "the block is not live");
        prove!(
            i < self.get_num_arguments(ctx),
            "there is none at this place"
        );
        let _types = &ctx.types;
        Value::new(DefiningEntity::Block(self), i)
    }

    /// The attributes of the block.
    pub fn attributes<D: OpSet>(self, ctx: &Context<D>) -> &AttributeDict<D>
        requires { IsLive ctx.now (IRNode.BasicBlock self) }
        ensures value { result.now ≡ block_attributes_of ctx.now self }
        ensures live { HandlesLive D.attr_handles ctx.now.types (block_attributes_of ctx.now self) }
        ensures whole { IsWellFormed D.attr_handles ctx.now }
    {
        prove!(self.is_live(ctx), "the block is not live");
        &ctx.nodes.block(self).attributes
    }
}
