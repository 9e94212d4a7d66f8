//! Calls that change what an operation or a block holds.
ghost use Rattle.std.specs.Prelude.{◌≡◌, IfSome, ◌<◌, Some, None, OnOk, OnErr, IfOk, length, slice_get, option_map};
ghost use Rattle.std.specs.Prelude.{IfErr, ◌≤◌, slice_set, insert, remove};
ghost use Rattle.plir_data.specs.{AttrLive.IsAttrLive, AttrSeen.attr_view};
ghost use Rattle.plir_core.specs.{Changes.with_block_edit, Changes.with_op_edit, WellFormed.IsWellFormed};
ghost use Rattle.plir_core.specs.{declared.ptr.IRNode.IRNode};
ghost use Rattle.plir_data.specs.Dictionary.{dict_put, dict_get, dict_without};
ghost use Rattle.plir_core.specs.ContextView.{IsLive, IsValueLive, block_attributes_of, operands_of, successors_of};
ghost use Rattle.plir_core.specs.ContextView.{attributes_of};

use crate::context::Context;
use crate::ptr::{BasicBlock, IRNode, Operation, Ptr};
use crate::value::Value;
use plir_data::{AttrObj, Identifier, Location, Memory, OpSet};

impl Ptr<Operation> {
    /// Puts a value at a place, from 0, among the operands; those from that place on move up. After a refusal all is as
    /// before.
    pub fn insert_operand<D: OpSet>(
        self,
        ctx: &mut Context<D>,
        i: usize,
        value: Value,
    ) -> Result<(), Memory>
        requires live { IsLive ctx.old (IRNode.Operation self) }
        requires within { i ≤ length (operands_of ctx.old self) }
        requires value_live { IsValueLive ctx.old value }
        ensures ok { OnOk result (ctx.new ≡ with_op_edit ctx.old self
            (λ o. record o { operands = insert o.operands i value })) }
        ensures err { OnErr result (ctx.new ≡ ctx.old) }
        ensures whole { IsWellFormed D.attr_handles ctx.new }
    {
        prove!(self.is_live(ctx), "the operation is not live");
        prove!(
            i <= self.get_num_operands(ctx),
            "there is none at this place"
        );
        prove!(value.is_live(ctx), "the value is not live");
        ctx.nodes.op_mut(self).operands.insert(i, value)?;
        ctx.uses.raise_value(value, self);
        Ok(())
    }

    /// Takes the operand at a place, from 0, out; later ones move down.
    pub fn remove_operand<D: OpSet>(self, ctx: &mut Context<D>, i: usize) -> Value
        requires live { IsLive ctx.old (IRNode.Operation self) }
        requires below { i < length (operands_of ctx.old self) }
        ensures value { slice_get (operands_of ctx.old self) i ≡ Some result }
        ensures live { IsValueLive ctx.new result }
        ensures after { ctx.new ≡ with_op_edit ctx.old self (λ o. record o { operands = remove o.operands i }) }
        ensures whole { IsWellFormed D.attr_handles ctx.new }
    {
        prove!(self.is_live(ctx), "the operation is not live");
        prove!(
            i < self.get_num_operands(ctx),
            "there is none at this place"
        );
        let value = ctx.nodes.op_mut(self).operands.remove(i);
        ctx.uses.lower_value(value);
        value
    }

    /// Puts a value in place of the operand at a place, from 0.
    pub fn replace_operand<D: OpSet>(self, ctx: &mut Context<D>, i: usize, value: Value)
        requires live { IsLive ctx.old (IRNode.Operation self) }
        requires below { i < length (operands_of ctx.old self) }
        requires value_live { IsValueLive ctx.old value }
        ensures after { ctx.new ≡ with_op_edit ctx.old self
            (λ o. record o { operands = slice_set o.operands i value }) }
        ensures whole { IsWellFormed D.attr_handles ctx.new }
    {
        prove!(self.is_live(ctx), "the operation is not live");
        prove!(
            i < self.get_num_operands(ctx),
            "there is none at this place"
        );
        prove!(value.is_live(ctx), "the value is not live");
        let replaced = self.get_operand(ctx, i);
        ctx.nodes.op_mut(self).operands[i] = value;
        ctx.uses.raise_value(value, self);
        ctx.uses.lower_value(replaced);
    }

    /// Puts a block in place of the successor at a place, from 0.
    pub fn set_successor<D: OpSet>(self, ctx: &mut Context<D>, i: usize, block: Ptr<BasicBlock>)
        requires live { IsLive ctx.old (IRNode.Operation self) }
        requires below { i < length (successors_of ctx.old self) }
        requires block_live { IsLive ctx.old (IRNode.BasicBlock block) }
        ensures after { ctx.new ≡ with_op_edit ctx.old self
            (λ o. record o { successors = slice_set o.successors i block }) }
        ensures whole { IsWellFormed D.attr_handles ctx.new }
    {
        prove!(self.is_live(ctx), "the operation is not live");
        prove!(
            i < self.get_num_successors(ctx),
            "there is none at this place"
        );
        prove!(block.is_live(ctx), "the block is not live");
        let replaced = self.get_successor(ctx, i);
        ctx.nodes.op_mut(self).successors.set(i, block);
        ctx.uses.raise_block(block, self);
        ctx.uses.lower(IRNode::BasicBlock(replaced));
    }

    /// Puts an attribute under a key, in place of what was there. After a refusal all is as before.
    pub fn set_attr<D: OpSet>(
        self,
        ctx: &mut Context<D>,
        key: Identifier,
        value: AttrObj<D>,
    ) -> Result<(), Memory>
        requires live { IsLive ctx.old (IRNode.Operation self) }
        requires handles { IsAttrLive D.attr_handles ctx.old.types (attr_view value) }
        ensures ok { OnOk result (ctx.new ≡ with_op_edit ctx.old self
            (λ o. record o { attributes = dict_put o.attributes key (attr_view value) })) }
        ensures attributes { OnOk result (attributes_of ctx.new self ≡ dict_put (attributes_of ctx.old self) key
            (attr_view value)) }
        ensures err { OnErr result (ctx.new ≡ ctx.old) }
        ensures whole { IsWellFormed D.attr_handles ctx.new }
    {
        prove!(self.is_live(ctx), "the operation is not live");
        ctx.nodes.op_mut(self).attributes.insert(key, value)?;
        Ok(())
    }

    /// Takes the attribute under a key out, if there is one.
    pub fn remove_attr<D: OpSet>(self, ctx: &mut Context<D>, key: &str) -> Option<AttrObj<D>>
        requires { IsLive ctx.old (IRNode.Operation self) }
        ensures taken { option_map attr_view result ≡ dict_get (attributes_of ctx.old self) key.now }
        ensures live { IfSome result (λ a. IsAttrLive D.attr_handles ctx.new.types (attr_view a)) }
        ensures after { ctx.new ≡ with_op_edit ctx.old self
            (λ o. record o { attributes = dict_without o.attributes key.now }) }
        ensures whole { IsWellFormed D.attr_handles ctx.new }
    {
        prove!(self.is_live(ctx), "the operation is not live");
        ctx.nodes.op_mut(self).attributes.remove(key)
    }

    /// Puts an attribute in place of the one under a key, and answers that one. Where there is none, the new one comes
    /// back and nothing has changed.
    pub fn swap_attr<D: OpSet>(
        self,
        ctx: &mut Context<D>,
        key: &str,
        value: AttrObj<D>,
    ) -> Result<AttrObj<D>, AttrObj<D>>
        requires live { IsLive ctx.old (IRNode.Operation self) }
        requires handles { IsAttrLive D.attr_handles ctx.old.types (attr_view value) }
        ensures found { IfOk result (λ a. dict_get (attributes_of ctx.old self) key.now ≡ Some (attr_view a)) }
        ensures live { IfOk result (λ a. IsAttrLive D.attr_handles ctx.new.types (attr_view a)) }
        ensures put { OnOk result (ctx.new ≡ with_op_edit ctx.old self
            (λ o. record o { attributes = dict_put o.attributes key.now (attr_view value) })) }
        ensures absent { OnErr result (dict_get (attributes_of ctx.old self) key.now ≡ None) }
        ensures handed_back { IfErr result (λ a. a ≡ value) }
        ensures same { OnErr result (ctx.new ≡ ctx.old) }
        ensures whole { IsWellFormed D.attr_handles ctx.new }
    {
        prove!(self.is_live(ctx), "the operation is not live");
        ctx.nodes.op_mut(self).attributes.replace(key, value)
    }

    /// Says where the operation stands in a source text.
    pub fn set_loc<D: OpSet>(self, ctx: &mut Context<D>, location: Location)
        requires { IsLive ctx.old (IRNode.Operation self) }
        ensures after { ctx.new ≡ with_op_edit ctx.old self (λ o. record o { location = location }) }
        ensures whole { IsWellFormed D.attr_handles ctx.new }
    {
        prove!(self.is_live(ctx), "the operation is not live");
        ctx.nodes.op_mut(self).location = location;
    }
}

impl Ptr<BasicBlock> {
    /// Gives the block a label in place of the one that it had, or takes that one.
    pub fn set_label<D: OpSet>(self, ctx: &mut Context<D>, label: Option<Identifier>)
        requires { IsLive ctx.old (IRNode.BasicBlock self) }
        ensures after { ctx.new ≡ with_block_edit ctx.old self (λ b. record b { label = label }) }
        ensures whole { IsWellFormed D.attr_handles ctx.new }
    {
        prove!(self.is_live(ctx), "the block is not live");
        ctx.nodes.block_mut(self).label = label;
    }

    /// Puts an attribute under a key, in place of what was there. After a refusal all is as before.
    pub fn set_attr<D: OpSet>(
        self,
        ctx: &mut Context<D>,
        key: Identifier,
        value: AttrObj<D>,
    ) -> Result<(), Memory>
        requires live { IsLive ctx.old (IRNode.BasicBlock self) }
        requires handles { IsAttrLive D.attr_handles ctx.old.types (attr_view value) }
        ensures ok { OnOk result (ctx.new ≡ with_block_edit ctx.old self
            (λ b. record b { attributes = dict_put b.attributes key (attr_view value) })) }
        ensures attributes { OnOk result (block_attributes_of ctx.new self ≡ dict_put
            (block_attributes_of ctx.old self) key (attr_view value)) }
        ensures err { OnErr result (ctx.new ≡ ctx.old) }
        ensures whole { IsWellFormed D.attr_handles ctx.new }
    {
        prove!(self.is_live(ctx), "the block is not live");
        ctx.nodes.block_mut(self).attributes.insert(key, value)?;
        Ok(())
    }

    /// Takes the attribute under a key out, if there is one.
    pub fn remove_attr<D: OpSet>(self, ctx: &mut Context<D>, key: &str) -> Option<AttrObj<D>>
        requires { IsLive ctx.old (IRNode.BasicBlock self) }
        ensures taken { option_map attr_view result ≡ dict_get (block_attributes_of ctx.old self) key.now }
        ensures live { IfSome result (λ a. IsAttrLive D.attr_handles ctx.new.types (attr_view a)) }
        ensures after { ctx.new ≡ with_block_edit ctx.old self
            (λ b. record b { attributes = dict_without b.attributes key.now }) }
        ensures whole { IsWellFormed D.attr_handles ctx.new }
    {
        prove!(self.is_live(ctx), "the block is not live");
        ctx.nodes.block_mut(self).attributes.remove(key)
    }

    /// Puts an attribute in place of the one under a key, and answers that one. Where there is none, the new one comes
    /// back and nothing has changed.
    pub fn swap_attr<D: OpSet>(
        self,
        ctx: &mut Context<D>,
        key: &str,
        value: AttrObj<D>,
    ) -> Result<AttrObj<D>, AttrObj<D>>
        requires live { IsLive ctx.old (IRNode.BasicBlock self) }
        requires handles { IsAttrLive D.attr_handles ctx.old.types (attr_view value) }
        ensures found { IfOk result (λ a. dict_get (block_attributes_of ctx.old self) key.now ≡ Some (attr_view a)) }
        ensures live { IfOk result (λ a. IsAttrLive D.attr_handles ctx.new.types (attr_view a)) }
        ensures put { OnOk result (ctx.new ≡ with_block_edit ctx.old self
            (λ b. record b { attributes = dict_put b.attributes key.now (attr_view value) })) }
        ensures absent { OnErr result (dict_get (block_attributes_of ctx.old self) key.now ≡ None) }
        ensures handed_back { IfErr result (λ a. a ≡ value) }
        ensures same { OnErr result (ctx.new ≡ ctx.old) }
        ensures whole { IsWellFormed D.attr_handles ctx.new }
    {
        prove!(self.is_live(ctx), "the block is not live");
        ctx.nodes.block_mut(self).attributes.replace(key, value)
    }
}
