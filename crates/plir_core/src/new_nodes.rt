//! Calls that make operations, blocks and regions.
ghost use Rattle.std.specs.Prelude.{◌≡◌, ◌<◌, ◌↔◌, [], Some, OnOk, OnErr, IfOk, true, false, All, ◌+◌};
ghost use Rattle.plir_store.specs.{Table.next_slot};
ghost use Rattle.plir_data.specs.{AttrLive.HandlesLive, Types.AllLive};
ghost use Rattle.plir_core.specs.{Changes.with_block, Changes.with_region, Contents.op_view, Made.IsMade};
ghost use Rattle.plir_core.specs.{Made.IsRegionAdded, NewOps.IsOpMade, NewOps.IsOpUnmade, Nodes.ptr_at};
ghost use Rattle.plir_core.specs.{WellFormed.IsWellFormed, declared.ptr.IRNode.IRNode};
ghost use Rattle.plir_core.specs.ContextView.{IsLive, IsValueLive, given_out, limit, children, block_at, num_live};
ghost use Rattle.plir_core.specs.Room.{IsFullForBlock, IsFullForOp, IsFullForRegion};

use crate::arena::contents::{BlockData, OpData};
use crate::arena::making::NodeErr;
use crate::context::Context;
use crate::ptr::{BasicBlock, IRNode, Operation, Ptr, Region};
use crate::value::Value;
use plir_data::{AttributeDict, Identifier, OpKind, OpSet, TypeHandle};
use std::alloc::Global;

impl Operation {
    /// A new operation in no block, with no attribute and so many new regions: `with_attributes` with an empty
    /// dictionary.
    pub fn new<D: OpSet>(
        alloc: Global,
        ctx: &mut Context<D>,
        kind: OpKind<D::Kind>,
        result_types: Vec<TypeHandle>,
        operands: Vec<Value>,
        successors: Vec<Ptr<BasicBlock>>,
        num_regions: usize,
    ) -> Result<Ptr<Operation>, NodeErr>
        requires types_live { AllLive ctx.old.types result_types.items }
        requires operands_live { All (IsValueLive ctx.old) operands.items }
        requires successors_live { All (λ b. IsLive ctx.old (IRNode.BasicBlock b)) successors.items }
        ensures made { IfOk result (IsOpMade ctx.old ctx.new
            (op_view kind result_types.items operands.items successors.items []) num_regions) }
        ensures unmade { OnErr result (IsOpUnmade ctx.old ctx.new
            (op_view kind result_types.items operands.items successors.items []) num_regions) }
        ensures given { (n : IRNode) → given_out ctx.old n ≡ true → given_out ctx.new n ≡ true }
        ensures too_many { limit ctx.old < num_live ctx.old + 1 + num_regions → result ≡ Err NodeErr.TooManyNodes }
        ensures too_many_only { result ≡ Err NodeErr.TooManyNodes → IsFullForOp ctx.old.nodes num_regions }
        ensures crowded { result ≡ Err NodeErr.TooManyNodes → IsFullForOp ctx.new.nodes num_regions }
        ensures whole { IsWellFormed D.attr_handles ctx.new }
    {
        let attributes = AttributeDict::new(alloc);
        Operation::with_attributes(
            ctx,
            kind,
            result_types,
            operands,
            successors,
            attributes,
            num_regions,
        )
    }

    /// A new operation in no block, with these attributes and so many new regions. `TooManyNodes` comes only where the
    /// limit of live nodes would be passed, or the slot numbers of operations or regions are spent, and then there is
    /// no room for it afterwards either. After a refusal no live node has changed, and the slots are as before or as
    /// where the operation and some of its regions were made and freed again.
    pub fn with_attributes<D: OpSet>(
        ctx: &mut Context<D>,
        kind: OpKind<D::Kind>,
        result_types: Vec<TypeHandle>,
        operands: Vec<Value>,
        successors: Vec<Ptr<BasicBlock>>,
        attributes: AttributeDict<D>,
        num_regions: usize,
    ) -> Result<Ptr<Operation>, NodeErr>
        requires types_live { AllLive ctx.old.types result_types.items }
        requires operands_live { All (IsValueLive ctx.old) operands.items }
        requires successors_live { All (λ b. IsLive ctx.old (IRNode.BasicBlock b)) successors.items }
        requires handles_live { HandlesLive D.attr_handles ctx.old.types attributes }
        ensures made { IfOk result (IsOpMade ctx.old ctx.new
            (op_view kind result_types.items operands.items successors.items attributes) num_regions) }
        ensures unmade { OnErr result (IsOpUnmade ctx.old ctx.new
            (op_view kind result_types.items operands.items successors.items attributes) num_regions) }
        ensures given { (n : IRNode) → given_out ctx.old n ≡ true → given_out ctx.new n ≡ true }
        ensures too_many { limit ctx.old < num_live ctx.old + 1 + num_regions → result ≡ Err NodeErr.TooManyNodes }
        ensures too_many_only { result ≡ Err NodeErr.TooManyNodes → IsFullForOp ctx.old.nodes num_regions }
        ensures crowded { result ≡ Err NodeErr.TooManyNodes → IsFullForOp ctx.new.nodes num_regions }
        ensures whole { IsWellFormed D.attr_handles ctx.new }
    {
        prove!(ctx.are_values_live(&operands), "an operand is not live");
        prove!(ctx.are_blocks_live(&successors), "a successor is not live");
        let data = OpData::new(
            &ctx.nodes,
            num_regions,
            kind,
            result_types,
            operands,
            successors,
            attributes,
        )?;
        let op = ctx.nodes.make_op_with_regions(data, num_regions)?;
        ctx.uses.begin(IRNode::Operation(op));
        ctx.uses.raise_new(ctx.nodes.op(op), op);
        Ok(op)
    }

    /// A new region with no block, the last one of an operation. `TooManyNodes` comes exactly where the limit of live
    /// nodes is reached or the regions' slot numbers are spent. After a refusal all is as before.
    pub fn add_region<D: OpSet>(
        op: Ptr<Operation>,
        ctx: &mut Context<D>,
    ) -> Result<Ptr<Region>, NodeErr>
        requires { IsLive ctx.old (IRNode.Operation op) }
        ensures ok { OnOk result (ctx.new ≡ with_region ctx.old op) }
        ensures pointer { IfOk result (λ p. p ≡ ptr_at ctx.new.nodes.regions (next_slot ctx.old.nodes.regions)) }
        ensures live { IfOk result (λ p. IsLive ctx.new (IRNode.Region p)) }
        ensures fresh { IfOk result (λ p. given_out ctx.old (IRNode.Region p) ≡ false) }
        ensures given { (n : IRNode) → given_out ctx.old n ≡ true → given_out ctx.new n ≡ true }
        ensures added { IfOk result (λ p. IsRegionAdded ctx.old.nodes ctx.new.nodes (IRNode.Operation op)
            (IRNode.Region p)) }
        ensures err { OnErr result (ctx.new ≡ ctx.old) }
        ensures too_many { (result ≡ Err NodeErr.TooManyNodes) ↔ IsFullForRegion ctx.old.nodes }
        ensures whole { IsWellFormed D.attr_handles ctx.new }
    {
        prove!(op.is_live(ctx), "the operation is not live");
        let region = ctx.nodes.make_region(op)?;
        Ok(region)
    }
}

impl BasicBlock {
    /// A new block in no region: its label, if it has one, and the types of its arguments. `TooManyNodes` comes exactly
    /// where the limit of live nodes is reached or the blocks' slot numbers are spent. After a refusal all is as
    /// before.
    pub fn new<D: OpSet>(
        alloc: Global,
        ctx: &mut Context<D>,
        label: Option<Identifier>,
        arg_types: Vec<TypeHandle>,
    ) -> Result<Ptr<BasicBlock>, NodeErr>
        requires { AllLive ctx.old.types arg_types.items }
        ensures ok { OnOk result (ctx.new ≡ with_block ctx.old
            (record { label = label; arg_types = arg_types.items; attributes = [] })) }
        ensures held { IfOk result (λ p. block_at ctx.new p ≡ Some
            (record { label = label; arg_types = arg_types.items; attributes = [] })) }
        ensures pointer { IfOk result (λ p. p ≡ ptr_at ctx.new.nodes.blocks (next_slot ctx.old.nodes.blocks)) }
        ensures live { IfOk result (λ p. IsLive ctx.new (IRNode.BasicBlock p)) }
        ensures fresh { IfOk result (λ p. given_out ctx.old (IRNode.BasicBlock p) ≡ false) }
        ensures given { (n : IRNode) → given_out ctx.old n ≡ true → given_out ctx.new n ≡ true }
        ensures made { IfOk result (λ p. IsMade ctx.old.nodes ctx.new.nodes (IRNode.BasicBlock p)) }
        ensures empty { IfOk result (λ p. children ctx.new (IRNode.BasicBlock p) ≡ []) }
        ensures err { OnErr result (ctx.new ≡ ctx.old) }
        ensures too_many { (result ≡ Err NodeErr.TooManyNodes) ↔ IsFullForBlock ctx.old.nodes }
        ensures whole { IsWellFormed D.attr_handles ctx.new }
    {
        let data = BlockData::new(alloc, &ctx.nodes, label, arg_types)?;
        let block = ctx.nodes.make_block(data)?;
        ctx.uses.begin(IRNode::BasicBlock(block));
        Ok(block)
    }
}
