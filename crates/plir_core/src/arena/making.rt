//! How nodes come into the arena.
ghost use Rattle.std.specs.Prelude.{◌≡◌, ◌+◌, ◌-◌, ◌<◌, ◌≤◌, ◌^◌, length, Some, OnOk, OnErr, IfOk, IfErr, ◌↔◌, ◌⊎◌};
ghost use Rattle.std.specs.Prelude.{true, false};
ghost use Rattle.plir_store.specs.Lists.{IsAgreed};
ghost use Rattle.plir_store.specs.Table.{content_at, num_full, next_slot};
ghost use Rattle.plir_core.specs.Room.{IsFullForOp, IsFullForBlock, IsFullForRegion};
ghost use Rattle.plir_core.specs.Nodes.{num_nodes, is_node_live, was_given_out, ptr_at};
ghost use Rattle.plir_core.specs.Stored.{IsStored};
ghost use Rattle.plir_core.specs.Edits.{IsFilled, SameNodes, room_child, room_list, with_new_op, with_new_block};
ghost use Rattle.plir_core.specs.Edits.{with_new_region, with_new_regions};
ghost use Rattle.plir_core.specs.Made.{IsMade, HasNewRegions};
ghost use Rattle.plir_core.specs.Refused.{IsUnmade};
ghost use Rattle.plir_core.specs.declared.ptr.IRNode.{IRNode};

use crate::arena::Arena;
use crate::ptr::{BasicBlock, IRNode, Operation, Ptr, Region};
use plir_data::Memory;
use plir_store::chains::Chains;
use plir_store::slots::Slots;
use std::alloc::{AllocError, AllocFailed};
use thiserror::Error;

/// Why a node was not made.
#[derive(Clone, Copy, PartialEq, Eq, Debug, Error)]
pub enum NodeErr {
    /// A growth that was asked for was refused.
    #[error("out of memory")]
    Memory,
    /// The limit of live nodes would be passed, or the slot numbers of a kind are spent.
    #[error("too many nodes")]
    TooManyNodes,
}

impl From<Memory> for NodeErr {
    ghost use Rattle.plir_core.specs.declared.arena.making.NodeErr.TheVariants as Variants;

    ghost from_gives = { λ _ e. e ≡ Variants.Memory };

    fn from(_refused: Memory) -> NodeErr {
        NodeErr::Memory
    }
}

impl From<AllocError> for NodeErr {
    ghost use Rattle.plir_core.specs.declared.arena.making.NodeErr.TheVariants as Variants;

    ghost from_gives = { λ _ e. e ≡ Variants.Memory };

    fn from(_refused: AllocError) -> NodeErr {
        NodeErr::Memory
    }
}

impl<T: Drop> From<AllocFailed<T>> for NodeErr {
    ghost use Rattle.plir_core.specs.declared.arena.making.NodeErr.TheVariants as Variants;

    ghost from_gives = { λ _ e. e ≡ Variants.Memory };

    fn from(_refused: AllocFailed<T>) -> NodeErr {
        NodeErr::Memory
    }
}

// Puts a value into a table whose slots are the parents in `below` and the children in `beside`, or changes nothing.
fn fill<T: Drop>(
    table: &mut Slots<T>,
    below: &mut Chains,
    beside: &mut Chains,
    value: T,
) -> Result<u32, NodeErr>
    requires parents { length below.old.children ≡ length table.old.slots }
    requires children { length beside.old.parents ≡ length table.old.slots }
    requires room { next_slot table.old < 2 ^ 32 - 1 }
    requires count { num_full table.old < 2 ^ 32 - 1 }
    ensures slot { IfOk result (λ i. i ≡ next_slot table.old) }
    ensures filled { OnOk result (IsFilled table.old table.new value) }
    ensures below { OnOk result (below.new ≡ room_list below.old table.old.free) }
    ensures beside { OnOk result (beside.new ≡ room_child beside.old table.old.free) }
    ensures same_table { OnErr result (table.new ≡ table.old) }
    ensures same_below { OnErr result (below.new ≡ below.old) }
    ensures same_beside { OnErr result (beside.new ≡ beside.old) }
    ensures below_agreed { OnOk result (IsAgreed below.new) }
    ensures beside_agreed { OnOk result (IsAgreed beside.new) }
    ensures memory { IfErr result (λ e. e ≡ NodeErr.Memory) }
{
    let grows = table.needs_slot();
    match below.add_list_if(grows) {
        Ok(()) => {}
        Err(_) => return Err(NodeErr::Memory),
    }
    match beside.add_child_if(grows) {
        Ok(()) => {}
        Err(_) => {
            if grows {
                below.drop_list();
            }
            return Err(NodeErr::Memory);
        }
    }
    match table.insert(value) {
        Ok(slot) => Ok(slot),
        Err(_value) => {
            below.drop_list();
            beside.drop_child();
            Err(NodeErr::Memory)
        }
    }
}

impl<O, B> Arena<O, B> {
    /// The refusal of an operation with so many regions, where the limit of live nodes would be passed.
    pub(crate) fn check_room_for_op(&self, count: usize) -> Result<(), NodeErr>
        ensures too_many { (result ≡ Err NodeErr.TooManyNodes) ↔ (self.now.limit < num_nodes self.now + 1 + count) }
        ensures only { IfErr result (λ e. e ≡ NodeErr.TooManyNodes) }
    {
        let live = self.num_live();
        if live == self.limit || count >= (self.limit - live) as usize {
            return Err(NodeErr::TooManyNodes);
        }
        Ok(())
    }

    /// The refusal of a block, where there is no room for one.
    pub(crate) fn check_room_for_block(&self) -> Result<(), NodeErr>
        ensures too_many { (result ≡ Err NodeErr.TooManyNodes) ↔ IsFullForBlock self.now }
        ensures only { IfErr result (λ e. e ≡ NodeErr.TooManyNodes) }
    {
        if self.num_live() == self.limit || self.blocks.next_slot() >= u32::MAX as usize {
            return Err(NodeErr::TooManyNodes);
        }
        Ok(())
    }

    /// A new region with no block, the last one of an operation. After a refusal all is as before.
    pub(crate) fn make_region(&mut self, op: Ptr<Operation>) -> Result<Ptr<Region>, NodeErr>
        requires { is_node_live self.old (IRNode.Operation op) ≡ true }
        ensures ok { OnOk result (self.new ≡ with_new_region self.old op.slot) }
        ensures pointer { IfOk result (λ p. p ≡ ptr_at self.new.regions (next_slot self.old.regions)) }
        ensures live { IfOk result (λ p. is_node_live self.new (IRNode.Region p) ≡ true) }
        ensures fresh { IfOk result (λ p. was_given_out self.old (IRNode.Region p) ≡ false) }
        ensures given { (n : IRNode) → was_given_out self.old n ≡ true → was_given_out self.new n ≡ true }
        ensures err { OnErr result (self.new ≡ self.old) }
        ensures too_many { (result ≡ Err NodeErr.TooManyNodes) ↔ IsFullForRegion self.old }
        ensures stored { IsStored self.new }
    {
        if self.num_live() == self.limit || self.regions.next_slot() >= u32::MAX as usize {
            return Err(NodeErr::TooManyNodes);
        }
        let slot = fill(
            &mut self.regions,
            &mut self.blocks_in_region,
            &mut self.regions_in_op,
            Region,
        )?;
        self.regions_in_op.push_back(op.slot, slot);
        Ok(Ptr::new(slot, self.regions.version(slot)))
    }
}

impl<O: Drop, B: Drop> Arena<O, B> {
    /// A new operation, in no block and with no region. After a refusal all is as before.
    pub(crate) fn make_op(&mut self, value: O) -> Result<Ptr<Operation>, NodeErr>
        ensures ok { OnOk result (self.new ≡ with_new_op self.old value) }
        ensures pointer { IfOk result (λ p. p ≡ ptr_at self.new.ops (next_slot self.old.ops)) }
        ensures live { IfOk result (λ p. is_node_live self.new (IRNode.Operation p) ≡ true) }
        ensures fresh { IfOk result (λ p. was_given_out self.old (IRNode.Operation p) ≡ false) }
        ensures given { (n : IRNode) → was_given_out self.old n ≡ true → was_given_out self.new n ≡ true }
        ensures err { OnErr result (self.new ≡ self.old) }
        ensures too_many { (result ≡ Err NodeErr.TooManyNodes) ↔
            ((num_nodes self.old ≡ self.old.limit) ⊎ (2 ^ 32 - 1 ≤ next_slot self.old.ops)) }
        ensures stored { IsStored self.new }
    {
        if self.num_live() == self.limit || self.ops.next_slot() >= u32::MAX as usize {
            return Err(NodeErr::TooManyNodes);
        }
        let slot = fill(
            &mut self.ops,
            &mut self.regions_in_op,
            &mut self.ops_in_block,
            value,
        )?;
        Ok(Ptr::new(slot, self.ops.version(slot)))
    }

    /// A new block, in no region and with no operation. After a refusal all is as before.
    pub(crate) fn make_block(&mut self, value: B) -> Result<Ptr<BasicBlock>, NodeErr>
        ensures ok { OnOk result (self.new ≡ with_new_block self.old value) }
        ensures pointer { IfOk result (λ p. p ≡ ptr_at self.new.blocks (next_slot self.old.blocks)) }
        ensures live { IfOk result (λ p. is_node_live self.new (IRNode.BasicBlock p) ≡ true) }
        ensures held { IfOk result (λ p. content_at self.new.blocks p.slot ≡ Some value) }
        ensures fresh { IfOk result (λ p. was_given_out self.old (IRNode.BasicBlock p) ≡ false) }
        ensures given { (n : IRNode) → was_given_out self.old n ≡ true → was_given_out self.new n ≡ true }
        ensures err { OnErr result (self.new ≡ self.old) }
        ensures too_many { (result ≡ Err NodeErr.TooManyNodes) ↔ IsFullForBlock self.old }
        ensures stored { IsStored self.new }
    {
        if self.num_live() == self.limit || self.blocks.next_slot() >= u32::MAX as usize {
            return Err(NodeErr::TooManyNodes);
        }
        let slot = fill(
            &mut self.blocks,
            &mut self.ops_in_block,
            &mut self.blocks_in_region,
            value,
        )?;
        Ok(Ptr::new(slot, self.blocks.version(slot)))
    }

    /// A new operation in no block, with so many new regions. After a refusal no live node has changed, and the slots
    /// are as before or as where the operation and some of its regions were made and freed again.
    pub(crate) fn make_op_with_regions(
        &mut self,
        value: O,
        count: usize,
    ) -> Result<Ptr<Operation>, NodeErr>
        ensures ok { OnOk result (self.new ≡ with_new_regions (with_new_op self.old value) (next_slot self.old.ops)
            count) }
        ensures pointer { IfOk result (λ p. p ≡ ptr_at self.new.ops (next_slot self.old.ops)) }
        ensures live { IfOk result (λ p. is_node_live self.new (IRNode.Operation p) ≡ true) }
        ensures fresh { IfOk result (λ p. was_given_out self.old (IRNode.Operation p) ≡ false) }
        ensures given { (n : IRNode) → was_given_out self.old n ≡ true → was_given_out self.new n ≡ true }
        ensures held { IfOk result (λ p. content_at self.new.ops p.slot ≡ Some value) }
        ensures made { IfOk result (λ p. IsMade self.old self.new (IRNode.Operation p)) }
        ensures regions { IfOk result (λ p. HasNewRegions self.new (IRNode.Operation p) count) }
        ensures err { OnErr result (SameNodes self.old self.new) }
        ensures slots { OnErr result (IsUnmade self.old self.new value count) }
        ensures too_many { self.old.limit < num_nodes self.old + 1 + count → result ≡ Err NodeErr.TooManyNodes }
        ensures too_many_only { result ≡ Err NodeErr.TooManyNodes → IsFullForOp self.old count }
        ensures crowded { result ≡ Err NodeErr.TooManyNodes → IsFullForOp self.new count }
        ensures stored { IsStored self.new }
    {
        let live = self.num_live();
        if live == self.limit || count >= (self.limit - live) as usize {
            return Err(NodeErr::TooManyNodes);
        }
        let op = self.make_op(value)?;
        for _i in 0..count {
            match self.make_region(op) {
                Ok(_) => {}
                Err(refusal) => {
                    self.erase(IRNode::Operation(op));
                    return Err(refusal);
                }
            }
        }
        Ok(op)
    }
}
