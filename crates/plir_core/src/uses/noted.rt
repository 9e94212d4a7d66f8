//! How often a value is used, by a look at the operations that are noted as users.
ghost use Rattle.std.specs.Prelude.{◌≡◌, ◌<◌, ◌≤◌, length, IfSome};
ghost use Rattle.plir_store.specs.Table.{content_at};
ghost use Rattle.plir_core.specs.ContextView.{IsLive, entity_node, operands_of, op_at};
ghost use Rattle.plir_core.specs.Noted.{AreSeen, owner_uses_in};
ghost use Rattle.plir_core.specs.Stored.{seat_of};
ghost use Rattle.plir_core.specs.Uses.{blocks_in, is_seated, uses_held, values_from};
ghost use Rattle.plir_core.specs.ValueUses.{num_uses_of};
ghost use Rattle.plir_core.specs.declared.ptr.IRNode.{IRNode};

use crate::context::Context;
use crate::ptr::{BasicBlock, IRNode, Operation, Ptr};
use crate::value::Value;
use plir_data::OpSet;

// What was seen of the uses of a value and of its operation or block in the slots before an end.
#[derive(Clone, Copy)]
struct Seen {
    end: u32,
    owner: usize,
    own: usize,
}

// Whether two nodes have the same slot of operations, or of blocks.
fn is_seated(node: IRNode, other: IRNode) -> bool
    ensures { result ≡ is_seated (seat_of node) other }
{
    match (node, other) {
        (IRNode::Operation(op), IRNode::Operation(other)) => other.slot == op.slot,
        (IRNode::BasicBlock(block), IRNode::BasicBlock(other)) => other.slot == block.slot,
        _ => false,
    }
}

// How many of some values come from a node.
fn count_values(values: &[Value], node: IRNode) -> usize
    ensures { result ≡ values_from (seat_of node) values.now }
{
    let mut count = 0;
    for value in values {
        if is_seated(node, value.defining_entity().node()) {
            count += 1;
        }
    }
    count
}

// How many of some blocks are a node.
fn count_blocks(blocks: &[Ptr<BasicBlock>], node: IRNode) -> usize
    ensures { result ≡ blocks_in (seat_of node) blocks.now }
{
    let mut count = 0;
    for block in blocks {
        if is_seated(node, IRNode::BasicBlock(*block)) {
            count += 1;
        }
    }
    count
}

impl<D: OpSet> Context<D> {
    // How often an operation uses a node.
    fn num_node_uses_by(&self, op: Ptr<Operation>, node: IRNode) -> Option<usize>
        requires { IsLive self.now (IRNode.Operation op) }
        ensures { IfSome result (λ n. n ≡ uses_held (seat_of node) (op_at self.now op)) }
    {
        let data = self.nodes.op(op);
        let successors = count_blocks(data.successors.as_slice(), node);
        count_values(&data.operands, node).checked_add(successors)
    }

    /// How often the operation in a slot, if there is one, uses a node.
    pub(crate) fn num_node_uses_in_slot(&self, node: IRNode, slot: u32) -> Option<usize>
        requires { slot < length self.now.nodes.ops.slots }
        ensures { IfSome result (λ n. n ≡ uses_held (seat_of node) (content_at self.now.nodes.ops slot)) }
    {
        match self.nodes.op_in_slot(slot) {
            None => Some(0),
            Some(op) => self.num_node_uses_by(op, node),
        }
    }

    // What is seen with one slot more, which is passed over if it comes before the end or there is none such.
    fn see(&self, value: Value, seen: Seen, slot: u32) -> Option<Seen>
        requires { AreSeen self.now value seen.end seen.owner seen.own }
        ensures { IfSome result (λ x. AreSeen self.now value x.end x.owner x.own) }
    {
        if slot < seen.end || slot >= self.nodes.num_op_slots() {
            return Some(seen);
        }
        let node = value.defining_entity().node();
        let owner = self.num_node_uses_in_slot(node, slot)?;
        let own = self.num_uses_in_slot(value, slot);
        Some(Seen {
            end: slot + 1,
            owner: seen.owner.checked_add(owner)?,
            own: seen.own.checked_add(own)?,
        })
    }

    // What is seen in some slots, of which each is to come before those behind it.
    fn see_all(&self, value: Value, slots: &[u32]) -> Option<Seen>
        ensures { IfSome result (λ x. AreSeen self.now value x.end x.owner x.own) }
    {
        let mut seen = Seen {
            end: 0,
            owner: 0,
            own: 0,
        };
        for slot in slots {
            seen = self.see(value, seen, *slot)?;
        }
        Some(seen)
    }

    /// How many operands of live operations are a value, where those that are noted as users are all that there are:
    /// they use its operation or block as often as the count says that it is used in all.
    pub(crate) fn num_noted_uses(&self, value: Value) -> Option<usize>
        ensures { IfSome result (λ n. n ≡ num_uses_of self.now value) }
    {
        let node = value.defining_entity().node();
        let all = self.known_uses(node)?;
        let users = self.uses.users(node);
        let seen = self.see_all(value, &users)?;
        if seen.owner == all as usize {
            Some(seen.own)
        } else {
            None
        }
    }
}
