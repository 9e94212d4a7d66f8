//! Whether anything outside a tree of nodes uses what is in it.
ghost use Rattle.std.specs.Prelude.{◌≡◌, ◌<◌, ◌≤◌, ◌-◌, ◌^◌, min, length, true, IsTrue, ◌↔◌, All, Option, Some, None};
ghost use Rattle.std.specs.Prelude.{IfSome};
ghost use Rattle.std.specs.{List.sum_by};
ghost use Rattle.plir_store.specs.{Table.content_at};
ghost use Rattle.plir_core.specs.{Above.Reaches, ContextView.IsLive, ContextView.entity_node, Erase.tree_of};
ghost use Rattle.plir_core.specs.{Stored.seat_of, declared.ptr.IRNode.IRNode};
ghost use Rattle.plir_core.specs.Nodes.{is_node_live, node_parent, ptr_at};
ghost use Rattle.plir_core.specs.Unused.{UsesNoneOf, IsUnusedAt, IsUnusedOutside};
ghost use Rattle.plir_core.specs.Uses.{is_not_used, is_seated, places_in, uses_of, values_from, blocks_in, uses_within};
ghost use Rattle.plir_core.specs.Uses.{uses_of_tree, uses_inside};

use crate::arena::Arena;
use crate::context::Context;
use crate::ptr::{BasicBlock, IRNode, Operation, Ptr};
use crate::value::Value;
use plir_data::OpSet;

impl<O, B> Arena<O, B> {
    /// How many slots of operations there are, free ones among them.
    pub(crate) fn num_op_slots(&self) -> u32
        ensures { result ≡ length self.now.ops.slots }
    {
        self.ops.len() as u32
    }

    /// The operation in a slot, if there is one.
    pub(crate) fn op_in_slot(&self, slot: u32) -> Option<Ptr<Operation>>
        requires { slot < length self.now.ops.slots }
        ensures here { IfSome result (λ p. p ≡ ptr_at self.now.ops slot) }
        ensures live { IfSome result (λ p. is_node_live self.now (IRNode.Operation p) ≡ true) }
        ensures none { result ≡ None → content_at self.now.ops slot ≡ None }
    {
        let version = self.ops.version(slot);
        if self.ops.is_live(slot, version) {
            Some(Ptr::new(slot, version))
        } else {
            None
        }
    }

    // Whether a node stands in the tree under the root. Nothing but itself stands under a node without children.
    fn is_in_tree(&self, root: IRNode, node: IRNode) -> bool
        requires root { is_node_live self.now root ≡ true }
        requires node { is_node_live self.now node ≡ true }
        ensures { IsTrue result ↔ Reaches (node_parent self.now) node root }
    {
        let _limit = &self.limit;
        if self.first_child(root).is_none() {
            return node == root;
        }
        self.is_ancestor(root, node)
    }

    // How many places a live operation or block has in the tree under the root: one or none.
    fn num_places(&self, root: IRNode, node: IRNode) -> usize
        requires root { is_node_live self.now root ≡ true }
        requires node { is_node_live self.now node ≡ true }
        ensures places { is_seated (seat_of node) node ≡ true → result ≡ places_in self.now root node }
        ensures once { result ≤ 1 }
    {
        let _limit = &self.limit;
        if self.is_in_tree(root, node) { 1 } else { 0 }
    }

    // How many of some values come from nodes of the tree under the root.
    fn count_values_of(&self, root: IRNode, values: &[Value]) -> usize
        requires live { is_node_live self.now root ≡ true }
        requires values_live { All (λ v. is_node_live self.now (entity_node v.entity) ≡ true) values.now }
        ensures { result ≡ sum_by (λ n. values_from (seat_of n) values.now) (tree_of self.now root) }
    {
        let mut count = 0;
        for value in values {
            count += self.num_places(root, value.defining_entity().node());
        }
        count
    }

    // How many of some blocks stand in the tree under the root.
    fn count_blocks_of(&self, root: IRNode, blocks: &[Ptr<BasicBlock>]) -> usize
        requires live { is_node_live self.now root ≡ true }
        requires blocks_live { All (λ b. is_node_live self.now (IRNode.BasicBlock b) ≡ true) blocks.now }
        ensures { result ≡ sum_by (λ n. blocks_in (seat_of n) blocks.now) (tree_of self.now root) }
    {
        let mut count = 0;
        for block in blocks {
            count += self.num_places(root, IRNode::BasicBlock(*block));
        }
        count
    }

    // Whether none of the values comes from a node of the tree under the root.
    fn has_no_value_of(&self, root: IRNode, values: &[Value]) -> bool
        requires { All (λ v. is_node_live self.now (entity_node v.entity) ≡ true) values.now }
        ensures { IsTrue result ↔ All (λ v. Reaches (node_parent self.now) (entity_node v.entity) root → ⊥) values.now }
    {
        for value in values {
            if self.is_ancestor(root, value.defining_entity().node()) {
                return false;
            }
        }
        true
    }

    // Whether none of the blocks stands in the tree under the root.
    fn has_no_block_of(&self, root: IRNode, blocks: &[Ptr<BasicBlock>]) -> bool
        requires { All (λ b. is_node_live self.now (IRNode.BasicBlock b) ≡ true) blocks.now }
        ensures { IsTrue result ↔ All (λ b. Reaches (node_parent self.now) (IRNode.BasicBlock b) root → ⊥) blocks.now }
    {
        for block in blocks {
            if self.is_ancestor(root, IRNode::BasicBlock(*block)) {
                return false;
            }
        }
        true
    }
}

impl<D: OpSet> Context<D> {
    // Whether the operation uses no value and no block of the tree under the root.
    fn uses_none_of(&self, root: IRNode, op: Ptr<Operation>) -> bool
        requires { IsLive self.now (IRNode.Operation op) }
        ensures { IsTrue result ↔ UsesNoneOf self.now root op }
    {
        let data = self.nodes.op(op);
        self.nodes.has_no_value_of(root, &data.operands)
            && self.nodes.has_no_block_of(root, data.successors.as_slice())
    }

    // Whether the operation in a slot, if there is one, is in the tree under the root or uses nothing of it.
    fn is_unused_in_slot(&self, root: IRNode, slot: u32) -> bool
        requires { slot < length self.now.nodes.ops.slots }
        ensures { IsTrue result ↔ IsUnusedAt self.now root slot }
    {
        match self.nodes.op_in_slot(slot) {
            None => true,
            Some(op) => {
                self.uses_none_of(root, op) || self.nodes.is_ancestor(root, IRNode::Operation(op))
            }
        }
    }

    /// How often a node is used, if that is known. No region is ever used.
    pub(crate) fn known_uses(&self, node: IRNode) -> Option<u32>
        ensures { IfSome result (λ n. n ≡ uses_of self.now.nodes.ops (seat_of node)) }
    {
        match node {
            IRNode::Region(_) => Some(0),
            IRNode::Operation(_) | IRNode::BasicBlock(_) => self.uses.known(node),
        }
    }

    /// Whether a node is known to be used by nothing.
    pub(crate) fn is_known_unused(&self, node: IRNode) -> bool
        ensures { IsTrue result → is_not_used self.now node ≡ true }
    {
        self.known_uses(node) == Some(0)
    }

    // How often a node uses nodes of the tree under the root, or the greatest number.
    fn num_uses_within(&self, root: IRNode, node: IRNode) -> usize
        requires root { IsLive self.now root }
        requires node { IsLive self.now node }
        ensures { result ≡ min (uses_within self.now.nodes root node) (2 ^ 64 - 1) }
    {
        match node {
            IRNode::Operation(op) => {
                let data = self.nodes.op(op);
                let values = self.nodes.count_values_of(root, &data.operands);
                values.saturating_add(self.nodes.count_blocks_of(root, data.successors.as_slice()))
            }
            IRNode::Region(_) | IRNode::BasicBlock(_) => 0,
        }
    }

    // How often the nodes of the tree under the root are used in all, if each of their counts is known. A walk has no
    // more steps than there are live nodes.
    fn num_uses_of_tree(&self, root: IRNode) -> Option<usize>
        requires { IsLive self.now root }
        ensures sum { IfSome result (λ n. n ≡ uses_of_tree self.now.nodes root) }
        ensures fits { IfSome result (λ n. n < 2 ^ 64 - 1) }
    {
        let mut at = root;
        let mut uses: usize = 0;
        for _step in 0..self.nodes.num_live() {
            match self.known_uses(at) {
                Some(count) => uses += count as usize,
                None => return None,
            }
            match self.nodes.next_in_tree(root, at) {
                Some(next) => at = next,
                None => return Some(uses),
            }
        }
        None
    }

    // How often the nodes of the tree under the root use nodes of it in all, or the greatest number.
    fn num_uses_inside(&self, root: IRNode) -> Option<usize>
        requires { IsLive self.now root }
        ensures { IfSome result (λ n. n ≡ min (uses_inside self.now.nodes root) (2 ^ 64 - 1)) }
    {
        let mut at = root;
        let mut uses: usize = 0;
        for _step in 0..self.nodes.num_live() {
            uses = uses.saturating_add(self.num_uses_within(root, at));
            match self.nodes.next_in_tree(root, at) {
                Some(next) => at = next,
                None => return Some(uses),
            }
        }
        None
    }

    // Whether nothing outside the tree under the root uses what is in it, if each count in the tree is known: whether
    // its nodes are used as often as they use each other.
    fn is_tree_unused(&self, root: IRNode) -> Option<bool>
        ensures { IfSome result (λ b. IsTrue b ↔ IsUnusedOutside self.now root) }
    {
        if !self.nodes.is_live(root) {
            return None;
        }
        let uses = self.num_uses_of_tree(root)?;
        if uses == 0 {
            return Some(true);
        }
        let inside = self.num_uses_inside(root)?;
        Some(uses == inside)
    }

    // Whether no live operation outside the tree under the root uses a value or a block of the tree.
    pub(crate) fn is_unused_outside(&self, root: IRNode) -> bool
        ensures { IsTrue result ↔ IsUnusedOutside self.now root }
    {
        match self.is_tree_unused(root) {
            Some(answer) => answer,
            None => self.is_unused_by_all(root),
        }
    }

    // The same, by a look at all operations.
    fn is_unused_by_all(&self, root: IRNode) -> bool
        ensures { IsTrue result ↔ IsUnusedOutside self.now root }
    {
        for slot in 0..self.nodes.num_op_slots() {
            if !self.is_unused_in_slot(root, slot) {
                return false;
            }
        }
        true
    }
}
