//! The nodes of a context: their slots and their links.
ghost use Rattle.std.specs.Prelude.{◌≡◌, ◌+◌, ◌-◌, ◌<◌, length, Option, Some, None, true, option_map, slice_get};
ghost use Rattle.plir_store.specs.Lists.{children_at};
ghost use Rattle.plir_store.specs.Table.{content_at};
ghost use Rattle.plir_core.specs.Nodes.{Nodes, num_nodes, is_node_live, node_children, node_parent, node_first};
ghost use Rattle.plir_core.specs.Nodes.{node_last};
ghost use Rattle.plir_core.specs.Nodes.{node_next, node_prev};
ghost use Rattle.plir_core.specs.Stored.{IsStored};
ghost use Rattle.plir_core.specs.Lends.{LendsOp, LendsBlock};
ghost use Rattle.std.specs.Borrow.{sem};
ghost use Rattle.plir_core.specs.Edits.{empty};
ghost use Rattle.plir_core.specs.declared.ptr.IRNode.{IRNode};

pub(crate) mod contents;
mod index;
mod links;
pub(crate) mod making;
pub(crate) mod moving;
mod tree_walk;

use crate::ptr::{BasicBlock, IRNode, Operation, Ptr, Region};
use plir_store::chains::Chains;
use plir_store::slots::Slots;
use std::alloc::{AllocError, Global};
use std::marker::Model;

/// The slots of operations, regions and blocks, and what stands under what.
#[derive(Drop)]
pub(crate) struct Arena<O, B> {
    pub(crate) ops: Slots<O>,
    pub(crate) regions: Slots<Region>,
    pub(crate) blocks: Slots<B>,
    pub(crate) regions_in_op: Chains,
    pub(crate) blocks_in_region: Chains,
    pub(crate) ops_in_block: Chains,
    pub(crate) limit: u32,
}

impl<O, B> Model for Arena<O, B> {
    ghost use Rattle.plir_core.specs.Nodes.{Nodes};
    ghost use Rattle.plir_core.specs.Stored.{IsStored};

    ghost Value = { Nodes O B };

    ghost view = { λ c. record {
      ops = c.ops;
      regions = c.regions;
      blocks = c.blocks;
      regions_in_op = c.regions_in_op;
      blocks_in_region = c.blocks_in_region;
      ops_in_block = c.ops_in_block;
      limit = c.limit;
    } };

    ghost invariant = { λ c. IsStored (record {
      ops = c.ops;
      regions = c.regions;
      blocks = c.blocks;
      regions_in_op = c.regions_in_op;
      blocks_in_region = c.blocks_in_region;
      ops_in_block = c.ops_in_block;
      limit = c.limit;
    }) };
}

impl<O, B> Arena<O, B> {
    /// No nodes, and room for as many as `limit`.
    pub(crate) fn new(alloc: Global, limit: u32) -> Self
        ensures empty { result ≡ empty limit }
        ensures stored { IsStored result }
    {
        Arena {
            ops: Slots::new(alloc),
            regions: Slots::new(alloc),
            blocks: Slots::new(alloc),
            regions_in_op: Chains::new(alloc),
            blocks_in_region: Chains::new(alloc),
            ops_in_block: Chains::new(alloc),
            limit,
        }
    }

    /// How many nodes are live.
    pub(crate) fn num_live(&self) -> u32
        ensures value { result ≡ num_nodes self.now }
        ensures stored { IsStored self.now }
    {
        self.ops.live() + self.regions.live() + self.blocks.live()
    }

    /// Whether a node is live.
    pub(crate) fn is_live(&self, node: IRNode) -> bool
        ensures value { result ≡ is_node_live self.now node }
        ensures stored { IsStored self.now }
    {
        match node {
            IRNode::Operation(op) => self.ops.is_live(op.slot, op.version),
            IRNode::Region(region) => self.regions.is_live(region.slot, region.version),
            IRNode::BasicBlock(block) => self.blocks.is_live(block.slot, block.version),
        }
    }

    /// The block that an operation stands in.
    pub(crate) fn parent_of_op(&self, op: Ptr<Operation>) -> Option<Ptr<BasicBlock>>
        requires { is_node_live self.now (IRNode.Operation op) ≡ true }
        ensures { option_map IRNode.BasicBlock result ≡ node_parent self.now (IRNode.Operation op) }
    {
        match self.ops_in_block.parent(op.slot) {
            None => None,
            Some(slot) => Some(Ptr::new(slot, self.blocks.version(slot))),
        }
    }

    /// The operation right after an operation.
    pub(crate) fn next_op(&self, op: Ptr<Operation>) -> Option<Ptr<Operation>>
        requires { is_node_live self.now (IRNode.Operation op) ≡ true }
        ensures { option_map IRNode.Operation result ≡ node_next self.now (IRNode.Operation op) }
    {
        match self.ops_in_block.next(op.slot) {
            None => None,
            Some(slot) => Some(Ptr::new(slot, self.ops.version(slot))),
        }
    }

    /// The operation right before an operation.
    pub(crate) fn prev_op(&self, op: Ptr<Operation>) -> Option<Ptr<Operation>>
        requires { is_node_live self.now (IRNode.Operation op) ≡ true }
        ensures { option_map IRNode.Operation result ≡ node_prev self.now (IRNode.Operation op) }
    {
        match self.ops_in_block.prev(op.slot) {
            None => None,
            Some(slot) => Some(Ptr::new(slot, self.ops.version(slot))),
        }
    }

    /// The first operation of a block.
    pub(crate) fn first_op(&self, block: Ptr<BasicBlock>) -> Option<Ptr<Operation>>
        requires { is_node_live self.now (IRNode.BasicBlock block) ≡ true }
        ensures { option_map IRNode.Operation result ≡ node_first self.now (IRNode.BasicBlock block) }
    {
        match self.ops_in_block.first(block.slot) {
            None => None,
            Some(slot) => Some(Ptr::new(slot, self.ops.version(slot))),
        }
    }

    /// The last operation of a block.
    pub(crate) fn last_op(&self, block: Ptr<BasicBlock>) -> Option<Ptr<Operation>>
        requires { is_node_live self.now (IRNode.BasicBlock block) ≡ true }
        ensures { option_map IRNode.Operation result ≡ node_last self.now (IRNode.BasicBlock block) }
    {
        match self.ops_in_block.last(block.slot) {
            None => None,
            Some(slot) => Some(Ptr::new(slot, self.ops.version(slot))),
        }
    }

    /// The operation that a region stands in.
    pub(crate) fn parent_of_region(&self, region: Ptr<Region>) -> Option<Ptr<Operation>>
        requires { is_node_live self.now (IRNode.Region region) ≡ true }
        ensures { option_map IRNode.Operation result ≡ node_parent self.now (IRNode.Region region) }
    {
        match self.regions_in_op.parent(region.slot) {
            None => None,
            Some(slot) => Some(Ptr::new(slot, self.ops.version(slot))),
        }
    }

    /// The region right after a region.
    pub(crate) fn next_region(&self, region: Ptr<Region>) -> Option<Ptr<Region>>
        requires { is_node_live self.now (IRNode.Region region) ≡ true }
        ensures { option_map IRNode.Region result ≡ node_next self.now (IRNode.Region region) }
    {
        match self.regions_in_op.next(region.slot) {
            None => None,
            Some(slot) => Some(Ptr::new(slot, self.regions.version(slot))),
        }
    }

    /// The region right before a region.
    pub(crate) fn prev_region(&self, region: Ptr<Region>) -> Option<Ptr<Region>>
        requires { is_node_live self.now (IRNode.Region region) ≡ true }
        ensures { option_map IRNode.Region result ≡ node_prev self.now (IRNode.Region region) }
    {
        match self.regions_in_op.prev(region.slot) {
            None => None,
            Some(slot) => Some(Ptr::new(slot, self.regions.version(slot))),
        }
    }

    /// The first region of an operation.
    pub(crate) fn first_region(&self, op: Ptr<Operation>) -> Option<Ptr<Region>>
        requires { is_node_live self.now (IRNode.Operation op) ≡ true }
        ensures { option_map IRNode.Region result ≡ node_first self.now (IRNode.Operation op) }
    {
        match self.regions_in_op.first(op.slot) {
            None => None,
            Some(slot) => Some(Ptr::new(slot, self.regions.version(slot))),
        }
    }

    /// The last region of an operation.
    pub(crate) fn last_region(&self, op: Ptr<Operation>) -> Option<Ptr<Region>>
        requires { is_node_live self.now (IRNode.Operation op) ≡ true }
        ensures { option_map IRNode.Region result ≡ node_last self.now (IRNode.Operation op) }
    {
        match self.regions_in_op.last(op.slot) {
            None => None,
            Some(slot) => Some(Ptr::new(slot, self.regions.version(slot))),
        }
    }

    /// The region that a block stands in.
    pub(crate) fn parent_of_block(&self, block: Ptr<BasicBlock>) -> Option<Ptr<Region>>
        requires { is_node_live self.now (IRNode.BasicBlock block) ≡ true }
        ensures { option_map IRNode.Region result ≡ node_parent self.now (IRNode.BasicBlock block) }
    {
        match self.blocks_in_region.parent(block.slot) {
            None => None,
            Some(slot) => Some(Ptr::new(slot, self.regions.version(slot))),
        }
    }

    /// The block right after a block.
    pub(crate) fn next_block(&self, block: Ptr<BasicBlock>) -> Option<Ptr<BasicBlock>>
        requires { is_node_live self.now (IRNode.BasicBlock block) ≡ true }
        ensures { option_map IRNode.BasicBlock result ≡ node_next self.now (IRNode.BasicBlock block) }
    {
        match self.blocks_in_region.next(block.slot) {
            None => None,
            Some(slot) => Some(Ptr::new(slot, self.blocks.version(slot))),
        }
    }

    /// The block right before a block.
    pub(crate) fn prev_block(&self, block: Ptr<BasicBlock>) -> Option<Ptr<BasicBlock>>
        requires { is_node_live self.now (IRNode.BasicBlock block) ≡ true }
        ensures { option_map IRNode.BasicBlock result ≡ node_prev self.now (IRNode.BasicBlock block) }
    {
        match self.blocks_in_region.prev(block.slot) {
            None => None,
            Some(slot) => Some(Ptr::new(slot, self.blocks.version(slot))),
        }
    }

    /// The first block of a region.
    pub(crate) fn first_block(&self, region: Ptr<Region>) -> Option<Ptr<BasicBlock>>
        requires { is_node_live self.now (IRNode.Region region) ≡ true }
        ensures { option_map IRNode.BasicBlock result ≡ node_first self.now (IRNode.Region region) }
    {
        match self.blocks_in_region.first(region.slot) {
            None => None,
            Some(slot) => Some(Ptr::new(slot, self.blocks.version(slot))),
        }
    }

    /// The last block of a region.
    pub(crate) fn last_block(&self, region: Ptr<Region>) -> Option<Ptr<BasicBlock>>
        requires { is_node_live self.now (IRNode.Region region) ≡ true }
        ensures { option_map IRNode.BasicBlock result ≡ node_last self.now (IRNode.Region region) }
    {
        match self.blocks_in_region.last(region.slot) {
            None => None,
            Some(slot) => Some(Ptr::new(slot, self.blocks.version(slot))),
        }
    }

    /// What an operation holds.
    pub(crate) fn op(&self, op: Ptr<Operation>) -> &O
        requires { is_node_live self.now (IRNode.Operation op) ≡ true }
        ensures { content_at self.now.ops op.slot ≡ Some result.now }
    {
        self.ops.get(op.slot)
    }

    /// What a block holds.
    pub(crate) fn block(&self, block: Ptr<BasicBlock>) -> &B
        requires { is_node_live self.now (IRNode.BasicBlock block) ≡ true }
        ensures { content_at self.now.blocks block.slot ≡ Some result.now }
    {
        self.blocks.get(block.slot)
    }

    /// How many nodes may be live.
    pub(crate) fn limit(&self) -> u32
        ensures { result ≡ self.now.limit }
    {
        self.limit
    }

    /// What an operation holds, to be changed.
    pub(crate) fn op_mut(&mut self, op: Ptr<Operation>) -> &mut O
        requires { is_node_live self.old (IRNode.Operation op) ≡ true }
        ensures* writes_back { sem 𝓛 (LendsOp O.row B.row self.entry op result) }
        ensures value { content_at self.old.ops op.slot ≡ Some result.now }
    {
        self.ops.get_mut(op.slot)
    }

    /// What a block holds, to be changed.
    pub(crate) fn block_mut(&mut self, block: Ptr<BasicBlock>) -> &mut B
        requires { is_node_live self.old (IRNode.BasicBlock block) ≡ true }
        ensures* writes_back { sem 𝓛 (LendsBlock O.row B.row self.entry block result) }
        ensures value { content_at self.old.blocks block.slot ≡ Some result.now }
    {
        self.blocks.get_mut(block.slot)
    }

    /// How many regions an operation has.
    pub(crate) fn num_regions(&self, op: Ptr<Operation>) -> usize
        requires { is_node_live self.now (IRNode.Operation op) ≡ true }
        ensures { result ≡ length (node_children self.now (IRNode.Operation op)) }
    {
        count_children(&self.regions_in_op, op.slot)
    }

    /// The region at a place, from 0, among those of an operation.
    pub(crate) fn region(&self, op: Ptr<Operation>, place: usize) -> Ptr<Region>
        requires live { is_node_live self.now (IRNode.Operation op) ≡ true }
        requires below { place < length (node_children self.now (IRNode.Operation op)) }
        ensures { slice_get (node_children self.now (IRNode.Operation op)) place ≡ Some (IRNode.Region result) }
    {
        let slot = child_at(&self.regions_in_op, op.slot, place);
        Ptr::new(slot, self.regions.version(slot))
    }
}

// How many children a list has.
fn count_children(lists: &Chains, list: u32) -> usize
    requires { list < length lists.now.children }
    ensures { result ≡ length (children_at lists.now list) }
{
    let mut count = 0;
    let mut at = lists.first(list);
    while let Some(child) = at {
        count += 1;
        at = lists.next(child);
    }
    count
}

// The child at a place, from 0, of a list.
fn child_at(lists: &Chains, list: u32, place: usize) -> u32
    requires list_in { list < length lists.now.children }
    requires below { place < length (children_at lists.now list) }
    ensures { slice_get (children_at lists.now list) place ≡ Some result }
{
    let mut at = lists.first(list);
    for _i in 0..place {
        at = match at {
            Some(child) => lists.next(child),
            None => None,
        };
    }
    match at {
        Some(child) => child,
        None => unreachable!(),
    }
}
