//! How a walk takes each kind of node.
#![tactic(auto)]

ghost use Rattle.std.specs.Prelude.{◌≡◌};
ghost use Rattle.plir_walk.specs.Config.{order_of, direction_of};

use plir_core::IRNode;

/// Whether a node's callback runs before or after the walk of what is below the node.
#[derive(Clone, Copy, PartialEq, Eq, Debug)]
pub enum Order {
    /// The callback runs before.
    PreOrder,
    /// The callback runs after.
    PostOrder,
}

/// How the children of a node are taken.
#[derive(Clone, Copy, PartialEq, Eq, Debug)]
pub enum Direction {
    /// From the first to the last.
    Forward,
    /// From the last to the first.
    Reverse,
}

/// How a walk takes each kind of node: when the callback of a parent of that kind runs, and how its children are taken.
#[derive(Clone, Copy, Debug)]
pub struct WalkConfig {
    /// An operation, and the regions in it.
    pub regions_in_op: (Order, Direction),
    /// A block, and the operations in it.
    pub ops_in_block: (Order, Direction),
    /// A region, and the blocks in it.
    pub blocks_in_region: (Order, Direction),
}

impl WalkConfig {
    /// The order and the direction for a node.
    pub fn pair(&self, node: IRNode) -> (Order, Direction)
        ensures order { result.0 ≡ order_of self.now node }
        ensures direction { result.1 ≡ direction_of self.now node }
    {
        match node {
            IRNode::Operation(_) => self.regions_in_op,
            IRNode::BasicBlock(_) => self.ops_in_block,
            IRNode::Region(_) => self.blocks_in_region,
        }
    }
}

/// Every callback runs before what is below its node, and children are taken from the first to the last.
pub const WALKCONFIG_PREORDER_FORWARD: WalkConfig = WalkConfig {
    regions_in_op: (Order::PreOrder, Direction::Forward),
    ops_in_block: (Order::PreOrder, Direction::Forward),
    blocks_in_region: (Order::PreOrder, Direction::Forward),
};

/// Every callback runs after what is below its node, and children are taken from the first to the last.
pub const WALKCONFIG_POSTORDER_FORWARD: WalkConfig = WalkConfig {
    regions_in_op: (Order::PostOrder, Direction::Forward),
    ops_in_block: (Order::PostOrder, Direction::Forward),
    blocks_in_region: (Order::PostOrder, Direction::Forward),
};

/// Every callback runs before what is below its node, and children are taken from the last to the first.
pub const WALKCONFIG_PREORDER_REVERSE: WalkConfig = WalkConfig {
    regions_in_op: (Order::PreOrder, Direction::Reverse),
    ops_in_block: (Order::PreOrder, Direction::Reverse),
    blocks_in_region: (Order::PreOrder, Direction::Reverse),
};

/// Every callback runs after what is below its node, and children are taken from the last to the first.
pub const WALKCONFIG_POSTORDER_REVERSE: WalkConfig = WalkConfig {
    regions_in_op: (Order::PostOrder, Direction::Reverse),
    ops_in_block: (Order::PostOrder, Direction::Reverse),
    blocks_in_region: (Order::PostOrder, Direction::Reverse),
};

impl Default for WalkConfig {
    ghost use Rattle.std.specs.Prelude.{◌≡◌};
    ghost use Rattle.plir_walk.specs.declared.config.TheConstants.{WALKCONFIG_PREORDER_FORWARD as preorder_forward};

    ghost is_default = { λ c. c ≡ preorder_forward };

    /// [`WALKCONFIG_PREORDER_FORWARD`].
    fn default() -> WalkConfig {
        WALKCONFIG_PREORDER_FORWARD
    }
}
