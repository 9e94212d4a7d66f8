//! Links of a node of any kind, among the nodes.
ghost use Rattle.std.specs.Prelude.{◌≡◌, Option, true};
ghost use Rattle.plir_store.specs.Members.{head};
ghost use Rattle.plir_core.specs.Nodes.{is_node_live, node_children, node_parent, node_next};

use crate::arena::Arena;
use crate::ptr::IRNode;

impl<O, B> Arena<O, B> {
    /// The first child of a node of any kind.
    pub(crate) fn first_child(&self, node: IRNode) -> Option<IRNode>
        requires { is_node_live self.now node ≡ true }
        ensures { result ≡ head (node_children self.now node) }
    {
        match node {
            IRNode::Operation(op) => self.first_region(op).map(IRNode::Region),
            IRNode::Region(region) => self.first_block(region).map(IRNode::BasicBlock),
            IRNode::BasicBlock(block) => self.first_op(block).map(IRNode::Operation),
        }
    }

    /// The node right above a node of any kind.
    pub(crate) fn parent(&self, node: IRNode) -> Option<IRNode>
        requires { is_node_live self.now node ≡ true }
        ensures { result ≡ node_parent self.now node }
    {
        match node {
            IRNode::Operation(op) => self.parent_of_op(op).map(IRNode::BasicBlock),
            IRNode::Region(region) => self.parent_of_region(region).map(IRNode::Operation),
            IRNode::BasicBlock(block) => self.parent_of_block(block).map(IRNode::Region),
        }
    }

    /// The child right after a node of any kind.
    pub(crate) fn next(&self, node: IRNode) -> Option<IRNode>
        requires { is_node_live self.now node ≡ true }
        ensures { result ≡ node_next self.now node }
    {
        match node {
            IRNode::Operation(op) => self.next_op(op).map(IRNode::Operation),
            IRNode::Region(region) => self.next_region(region).map(IRNode::Region),
            IRNode::BasicBlock(block) => self.next_block(block).map(IRNode::BasicBlock),
        }
    }
}
