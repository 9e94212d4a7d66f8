//! What operations and blocks hold beside their links.
ghost use Rattle.std.specs.Prelude.{◌≡◌, ◌+◌, ◌<◌, [], IfOk, ◌↔◌};
ghost use Rattle.plir_core.specs.Contents.{op_view};
ghost use Rattle.plir_core.specs.Nodes.{num_nodes};
ghost use Rattle.plir_core.specs.Room.{IsFullForBlock};

use crate::arena::Arena;
use crate::arena::making::NodeErr;
use crate::ptr::{BasicBlock, Ptr};
use crate::value::Value;
use plir_data::{AttributeDict, Identifier, Location, OpKind, OpSet, TypeHandle};
use plir_store::few::Few;
use std::alloc::Global;
use std::marker::Model;

/// What an operation holds.
#[derive(Drop)]
pub(crate) struct OpData<D: OpSet> {
    pub(crate) location: Location,
    pub(crate) kind: OpKind<D::Kind>,
    pub(crate) result_types: Few<TypeHandle>,
    pub(crate) operands: Vec<Value>,
    pub(crate) successors: Few<Ptr<BasicBlock>>,
    pub(crate) attributes: AttributeDict<D>,
}

impl<D: OpSet> Model for OpData<D> {
    ghost use Rattle.plir_core.specs.Contents.{OpView};

    ghost Value = { OpView D.Kind D.Attr };

    ghost use Rattle.std.specs.Coded.{codes};
    ghost use Rattle.plir_data.specs.AttrCode.{attr_code};

    ghost coded = { Prim.hlevel (codes, attr_code D.Attr.code) };

    ghost view = { λ o. record {
      kind = o.kind;
      result_types = o.result_types;
      operands = o.operands.items;
      successors = o.successors;
      attributes = o.attributes;
      location = o.location;
    } };
}

/// What a block holds.
#[derive(Drop)]
pub(crate) struct BlockData<D: OpSet> {
    pub(crate) label: Option<Identifier>,
    pub(crate) arg_types: Few<TypeHandle>,
    pub(crate) attributes: AttributeDict<D>,
}

impl<D: OpSet> Model for BlockData<D> {
    ghost use Rattle.plir_core.specs.Contents.{BlockView};

    ghost Value = { BlockView D.Attr };

    ghost use Rattle.std.specs.Coded.{codes};
    ghost use Rattle.plir_data.specs.AttrCode.{attr_code};

    ghost coded = { Prim.hlevel (codes, attr_code D.Attr.code) };

    ghost view = { λ b. record { label = b.label; arg_types = b.arg_types; attributes = b.attributes } };
}

impl<D: OpSet> OpData<D> {
    /// What a new operation holds, which is to have so many regions. The refusals are those of making it, before
    /// anything is made: that the limit of live nodes would be passed, and else that memory ran out.
    pub(crate) fn new(
        nodes: &Arena<OpData<D>, BlockData<D>>,
        num_regions: usize,
        kind: OpKind<D::Kind>,
        result_types: Vec<TypeHandle>,
        operands: Vec<Value>,
        successors: Vec<Ptr<BasicBlock>>,
        attributes: AttributeDict<D>,
    ) -> Result<OpData<D>, NodeErr>
        ensures held { IfOk result
            (λ o. o ≡ op_view kind result_types.items operands.items successors.items attributes) }
        ensures too_many { (result ≡ Err NodeErr.TooManyNodes) ↔
            (nodes.now.limit < num_nodes nodes.now + 1 + num_regions) }
    {
        nodes.check_room_for_op(num_regions)?;
        let result_types = Few::from_vec(result_types)?;
        let successors = Few::from_vec(successors)?;
        Ok(OpData {
            location: Location::Unknown,
            kind,
            result_types,
            operands,
            successors,
            attributes,
        })
    }
}

impl<D: OpSet> BlockData<D> {
    /// What a new block holds. The refusals are those of making it, before anything is made: that there is no room for
    /// a block, and else that memory ran out.
    pub(crate) fn new(
        alloc: Global,
        nodes: &Arena<OpData<D>, BlockData<D>>,
        label: Option<Identifier>,
        arg_types: Vec<TypeHandle>,
    ) -> Result<BlockData<D>, NodeErr>
        ensures held { IfOk result (λ b. b ≡ record { label = label; arg_types = arg_types.items; attributes = [] }) }
        ensures too_many { (result ≡ Err NodeErr.TooManyNodes) ↔ IsFullForBlock nodes.now }
    {
        nodes.check_room_for_block()?;
        Ok(BlockData {
            label,
            arg_types: Few::from_vec(arg_types)?,
            attributes: AttributeDict::new(alloc),
        })
    }
}
