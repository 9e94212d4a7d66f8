//! Counts of uses: how many operands are values of an operation or a block, and how many successors are a block.
ghost use Rattle.std.specs.Prelude.{◌≡◌, ◌+◌, ◌<◌, ℕ, [], Some, IfSome, length, slice_get, true};
ghost use Rattle.plir_core.specs.ContextView.{entity_node};
ghost use Rattle.plir_core.specs.Stored.{Seat, seat_of};
ghost use Rattle.plir_core.specs.Uses.{Counts, IsBegun, IsRaisedBy, IsLoweredBy, UNKNOWN, raised, lowered};
ghost use Rattle.plir_core.specs.Uses.{with_use, without_use, values_from, blocks_in, uses_in, StaysCounted};
ghost use Rattle.plir_core.specs.Nodes.{is_node_live};
ghost use Rattle.plir_core.specs.Erase.{without_node};
ghost use Rattle.plir_core.specs.declared.ptr.IRNode.{IRNode as AnyNode};

use crate::arena::Arena;
use crate::arena::contents::{BlockData, OpData};
use crate::ptr::{BasicBlock, IRNode, Operation, Ptr};
use crate::uses::users::Users;
use crate::value::Value;
use plir_data::OpSet;
use std::alloc::Global;
use std::marker::Model;

/// How often the node in each slot is used. The count of a slot past the end, and one that is `u32::MAX`, is not
/// known: a count is never refused.
#[derive(Drop)]
pub(crate) struct UseCounts {
    ops: Vec<u32>,
    blocks: Vec<u32>,
    // Where users are looked for first: no contract sees it.
    users: Users,
}

impl Model for UseCounts {
    ghost use Rattle.plir_core.specs.Uses.{Uses};

    ghost Value = { Uses };

    ghost view = { λ u. record { ops = u.ops.items; blocks = u.blocks.items } };
}

// Counts one use more of a slot.
fn raise(counts: &mut Vec<u32>, slot: u32)
    ensures { counts.new.items ≡ raised counts.old.items slot }
{
    let i = slot as usize;
    if i < counts.len() {
        counts[i] = counts[i].saturating_add(1);
    }
}

// Counts one use fewer of a slot.
fn lower(counts: &mut Vec<u32>, slot: u32)
    ensures { counts.new.items ≡ lowered counts.old.items slot }
{
    let i = slot as usize;
    if i < counts.len() && counts[i] != u32::MAX {
        counts[i] = counts[i].saturating_sub(1);
    }
}

// Begins a count at 0. Where memory runs out, the count is not known.
fn begin(counts: &mut Vec<u32>, slot: u32)
    ensures { IsBegun counts.old.items counts.new.items slot }
{
    let i = slot as usize;
    if i < counts.len() {
        counts[i] = 0;
    } else if i == counts.len() {
        let _refused = counts.push(0).is_err();
    }
}

// The count of a slot, if it is known.
fn known(counts: &Vec<u32>, slot: u32) -> Option<u32>
    ensures { IfSome result (λ n. (slice_get counts.now.items slot ≡ Some n) × (n < UNKNOWN)) }
{
    let i = slot as usize;
    if i < counts.len() && counts[i] < u32::MAX {
        Some(counts[i])
    } else {
        None
    }
}

impl UseCounts {
    /// No counts.
    pub(crate) fn new(alloc: Global) -> UseCounts
        ensures { result ≡ record { ops = []; blocks = [] } }
    {
        UseCounts {
            ops: Vec::new(alloc),
            blocks: Vec::new(alloc),
            users: Users::new(alloc),
        }
    }

    /// How often a node is used, if that is known.
    pub(crate) fn known(&self, node: IRNode) -> Option<u32>
        ensures { (f : Seat → ℕ) → Counts self.now f → IfSome result (λ n. n ≡ f (seat_of node)) }
    {
        match node {
            IRNode::Operation(op) => known(&self.ops, op.slot),
            IRNode::Region(_) => None,
            IRNode::BasicBlock(block) => known(&self.blocks, block.slot),
        }
    }

    /// Begins the count of a node that nothing uses.
    pub(crate) fn begin(&mut self, node: IRNode)
        ensures { (f : Seat → ℕ) → f (seat_of node) ≡ 0 → Counts self.old f → Counts self.new f }
    {
        self.users.clear(node);
        match node {
            IRNode::Operation(op) => begin(&mut self.ops, op.slot),
            IRNode::Region(_) => {}
            IRNode::BasicBlock(block) => begin(&mut self.blocks, block.slot),
        }
    }

    /// Counts one use more of a node.
    fn raise(&mut self, node: IRNode)
        ensures { self.new ≡ with_use self.old node }
    {
        self.users.count_one();
        match node {
            IRNode::Operation(op) => raise(&mut self.ops, op.slot),
            IRNode::Region(_) => {}
            IRNode::BasicBlock(block) => raise(&mut self.blocks, block.slot),
        }
    }

    /// Counts one use fewer of a node.
    pub(crate) fn lower(&mut self, node: IRNode)
        ensures { self.new ≡ without_use self.old node }
    {
        self.users.count_off();
        match node {
            IRNode::Operation(op) => lower(&mut self.ops, op.slot),
            IRNode::Region(_) => {}
            IRNode::BasicBlock(block) => lower(&mut self.blocks, block.slot),
        }
    }

    // Counts the use of a value.
    fn count_value(&mut self, value: Value)
        ensures { self.new ≡ with_use self.old (entity_node value.entity) }
    {
        self.raise(value.defining_entity().node());
    }

    // Notes that an operation uses a value.
    fn note_value(&mut self, value: Value, user: Ptr<Operation>)
        ensures { self.new ≡ self.old }
    {
        self.users.note(value.defining_entity().node(), user.slot);
    }

    /// Counts the use of a value by an operation.
    pub(crate) fn raise_value(&mut self, value: Value, user: Ptr<Operation>)
        ensures { self.new ≡ with_use self.old (entity_node value.entity) }
    {
        self.note_value(value, user);
        self.count_value(value);
    }

    // Notes that an operation branches to a block.
    fn note_block(&mut self, block: Ptr<BasicBlock>, user: Ptr<Operation>)
        ensures { self.new ≡ self.old }
    {
        self.users.note(IRNode::BasicBlock(block), user.slot);
    }

    /// Counts a block that an operation branches to.
    pub(crate) fn raise_block(&mut self, block: Ptr<BasicBlock>, user: Ptr<Operation>)
        ensures { self.new ≡ with_use self.old (AnyNode.BasicBlock block) }
    {
        self.note_block(block, user);
        self.raise(IRNode::BasicBlock(block));
    }

    /// Takes the use of a value off.
    pub(crate) fn lower_value(&mut self, value: Value)
        ensures { self.new ≡ without_use self.old (entity_node value.entity) }
    {
        self.lower(value.defining_entity().node());
    }

    /// Counts the uses of values.
    fn raise_values(&mut self, values: &[Value])
        ensures { IsRaisedBy self.old self.new (λ at. values_from at values.now) }
    {
        for value in values {
            self.count_value(*value);
        }
    }

    // Notes that an operation uses values.
    fn note_values(&mut self, values: &[Value], user: Ptr<Operation>)
        ensures { self.new ≡ self.old }
    {
        for value in values {
            self.note_value(*value, user);
        }
    }

    /// Takes the uses of values off.
    fn lower_values(&mut self, values: &[Value])
        ensures { IsLoweredBy self.old self.new (λ at. values_from at values.now) }
    {
        for value in values {
            self.lower_value(*value);
        }
    }

    /// Counts the uses of blocks.
    fn raise_blocks(&mut self, blocks: &[Ptr<BasicBlock>])
        ensures { IsRaisedBy self.old self.new (λ at. blocks_in at blocks.now) }
    {
        for block in blocks {
            self.raise(IRNode::BasicBlock(*block));
        }
    }

    /// Takes the uses of blocks off.
    fn lower_blocks(&mut self, blocks: &[Ptr<BasicBlock>])
        ensures { IsLoweredBy self.old self.new (λ at. blocks_in at blocks.now) }
    {
        for block in blocks {
            self.lower(IRNode::BasicBlock(*block));
        }
    }

    // Counts what an operation uses.
    fn raise_op<D: OpSet>(&mut self, held: &OpData<D>)
        ensures { IsRaisedBy self.old self.new (λ at. uses_in at held.now) }
    {
        self.raise_values(&held.operands);
        self.raise_blocks(held.successors.as_slice());
    }

    // Notes that an operation branches to blocks.
    fn note_blocks(&mut self, blocks: &[Ptr<BasicBlock>], user: Ptr<Operation>)
        ensures { self.new ≡ self.old }
    {
        for block in blocks {
            self.note_block(*block, user);
        }
    }

    // Notes what an operation uses.
    fn note_op<D: OpSet>(&mut self, held: &OpData<D>, user: Ptr<Operation>)
        ensures { self.new ≡ self.old }
    {
        self.note_values(&held.operands, user);
        self.note_blocks(held.successors.as_slice(), user);
    }

    /// Counts what a new operation uses.
    pub(crate) fn raise_new<D: OpSet>(&mut self, held: &OpData<D>, user: Ptr<Operation>)
        ensures { IsRaisedBy self.old self.new (λ at. uses_in at held.now) }
    {
        self.note_op(held, user);
        self.raise_op(held);
    }

    /// Counts what an operation uses that has come to use a value.
    pub(crate) fn raise_again<D: OpSet>(
        &mut self,
        held: &OpData<D>,
        value: Value,
        user: Ptr<Operation>,
    )
        ensures { IsRaisedBy self.old self.new (λ at. uses_in at held.now) }
    {
        self.note_value(value, user);
        self.raise_op(held);
    }

    /// Where the first of those that came to use a node is noted, 0 if none is.
    pub(crate) fn first_user(&self, node: IRNode) -> u32 {
        self.users.first(node)
    }

    /// The slot of the operation that is noted there, and where the next one is, if one is.
    pub(crate) fn user(&self, at: u32) -> Option<(u32, u32)> {
        self.users.user(at)
    }

    /// The slots of the operations that are noted as users of a node, in ascending order.
    pub(crate) fn users(&self, node: IRNode) -> Vec<u32> {
        self.users.slots(node)
    }

    /// How many are noted in all, or more.
    pub(crate) fn num_noted(&self) -> usize {
        self.users.num_entries()
    }

    // Notes the operation in a slot, if there is one, as a user of its operands.
    fn note_in_slot<D: OpSet>(&mut self, nodes: &Arena<OpData<D>, BlockData<D>>, slot: u32)
        requires { slot < length nodes.now.ops.slots }
        ensures { self.new ≡ self.old }
    {
        match nodes.op_in_slot(slot) {
            None => {}
            Some(op) => self.note_op(nodes.op(op), op),
        }
    }

    /// Where the lists of users were let go, notes all of them again.
    pub(crate) fn note_again<D: OpSet>(&mut self, nodes: &Arena<OpData<D>, BlockData<D>>)
        ensures { self.new ≡ self.old }
    {
        if !self.users.is_let_go() {
            return;
        }
        self.users.begin_again();
        for slot in 0..nodes.num_op_slots() {
            self.note_in_slot(nodes, slot);
        }
    }

    /// Leaves no user of a node noted.
    pub(crate) fn clear_users(&mut self, node: IRNode)
        ensures { self.new ≡ self.old }
    {
        self.users.clear(node);
    }

    /// Takes what an operation uses off.
    pub(crate) fn lower_op<D: OpSet>(&mut self, held: &OpData<D>)
        ensures { IsLoweredBy self.old self.new (λ at. uses_in at held.now) }
    {
        self.lower_values(&held.operands);
        self.lower_blocks(held.successors.as_slice());
    }

    /// Takes what a node uses off, which is to be freed.
    pub(crate) fn forget<D: OpSet>(&mut self, nodes: &Arena<OpData<D>, BlockData<D>>, node: IRNode)
        requires { is_node_live nodes.now node ≡ true }
        ensures { StaysCounted self.old self.new nodes.now.ops (without_node nodes.now node).ops }
    {
        match node {
            IRNode::Operation(op) => self.lower_op(nodes.op(op)),
            IRNode::Region(_) => {}
            IRNode::BasicBlock(_) => {}
        }
    }
}
