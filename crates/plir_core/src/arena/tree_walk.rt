//! A walk through a tree by its links, each node before those below it, with no recursion, and what stands above what.
ghost use Rattle.std.specs.Prelude.{◌≡◌, ◌↔◌, None, IfSome, IsTrue, true};
ghost use Rattle.plir_core.specs.{Above.Reaches, Nodes.is_node_live, Nodes.node_parent};
ghost use Rattle.plir_core.specs.Walked.{GoesOn, GoesOnBehind, Ends, EndsBehind};

use crate::arena::Arena;
use crate::ptr::IRNode;

impl<O, B> Arena<O, B> {
    // Where a walk through the tree of the root goes on after a node and all below it.
    fn next_after(&self, root: IRNode, node: IRNode) -> Option<IRNode>
        requires { is_node_live self.now node ≡ true }
        ensures on { IfSome result (GoesOnBehind self.now root node) }
        ensures done { result ≡ None → EndsBehind self.now root node }
    {
        let _limit = &self.limit;
        let mut at = node;
        while at != root {
            if let Some(next) = self.next(at) {
                return Some(next);
            }
            match self.parent(at) {
                Some(over) => at = over,
                None => return None,
            }
        }
        None
    }

    /// Where a walk through the tree of the root goes on after a node.
    pub(crate) fn next_in_tree(&self, root: IRNode, node: IRNode) -> Option<IRNode>
        requires { is_node_live self.now node ≡ true }
        ensures on { IfSome result (GoesOn self.now root node) }
        ensures done { result ≡ None → Ends self.now root node }
    {
        let _limit = &self.limit;
        match self.first_child(node) {
            Some(child) => Some(child),
            None => self.next_after(root, node),
        }
    }

    /// Whether a node is another one or stands above it.
    pub(crate) fn is_ancestor(&self, ancestor: IRNode, node: IRNode) -> bool
        requires { is_node_live self.now node ≡ true }
        ensures { IsTrue result ↔ Reaches (node_parent self.now) node ancestor }
    {
        let _limit = &self.limit;
        let mut at = Some(node);
        while let Some(current) = at {
            if current == ancestor {
                return true;
            }
            at = self.parent(current);
        }
        false
    }
}
