//! How nodes are linked and unlinked in the arena.
ghost use Rattle.std.specs.Prelude.{◌≡◌, ◌<◌, None, length, true};
ghost use Rattle.plir_store.specs.Lists.{IsAgreed, parent_at, without_child};
ghost use Rattle.plir_core.specs.Nodes.{is_node_live};
ghost use Rattle.plir_core.specs.Points.{CanBePut, IsPointIn, put_at, with_op_put, with_block_put};
ghost use Rattle.plir_core.specs.Stored.{IsStored};
ghost use Rattle.plir_core.specs.declared.ptr.IRNode.{IRNode};

use crate::arena::Arena;
use crate::ptr::{BasicBlock, Operation, Ptr, Region};
use plir_store::chains::Chains;

/// Where a node is put: among the children, of the kind `C`, of a node of the kind `P`.
#[derive(Clone, Copy)]
pub(crate) enum Point<P, C> {
    /// At the start of those of a node.
    AtFront(Ptr<P>),
    /// At the end of those of a node.
    AtBack(Ptr<P>),
    /// Right before a child, the mark.
    Before(Ptr<C>),
    /// Right after a child, the mark.
    After(Ptr<C>),
}

// Puts a child that is in no list at a point.
fn put<P, C>(lists: &mut Chains, child: u32, at: Point<P, C>)
    requires child_in { child < length lists.old.parents }
    requires point_in { IsPointIn lists.old at }
    requires loose { parent_at lists.old child ≡ None }
    ensures after { lists.new ≡ put_at lists.old child at }
    ensures agreed { IsAgreed lists.new }
{
    match at {
        Point::AtFront(parent) => lists.push_front(parent.slot, child),
        Point::AtBack(parent) => lists.push_back(parent.slot, child),
        Point::Before(mark) => lists.insert_before(child, mark.slot),
        Point::After(mark) => lists.insert_after(child, mark.slot),
    }
}

impl<O, B> Arena<O, B> {
    /// Puts an operation that is in no block at a point.
    pub(crate) fn put_op(&mut self, op: Ptr<Operation>, at: Point<BasicBlock, Operation>)
        requires { CanBePut self.old IRNode.BasicBlock IRNode.Operation op at }
        ensures after { self.new ≡ with_op_put self.old op at }
        ensures stored { IsStored self.new }
    {
        put(&mut self.ops_in_block, op.slot, at);
    }

    /// Puts a block that is in no region at a point.
    pub(crate) fn put_block(&mut self, block: Ptr<BasicBlock>, at: Point<Region, BasicBlock>)
        requires { CanBePut self.old IRNode.Region IRNode.BasicBlock block at }
        ensures after { self.new ≡ with_block_put self.old block at }
        ensures stored { IsStored self.new }
    {
        put(&mut self.blocks_in_region, block.slot, at);
    }

    /// Takes an operation out of its block, if it is in one.
    pub(crate) fn unlink_op(&mut self, op: Ptr<Operation>)
        requires { is_node_live self.old (IRNode.Operation op) ≡ true }
        ensures after { self.new ≡ record self.old { ops_in_block = without_child self.old.ops_in_block op.slot } }
        ensures stored { IsStored self.new }
    {
        self.ops_in_block.remove(op.slot);
    }

    /// Takes a block out of its region, if it is in one.
    pub(crate) fn unlink_block(&mut self, block: Ptr<BasicBlock>)
        requires { is_node_live self.old (IRNode.BasicBlock block) ≡ true }
        ensures after { self.new ≡ record self.old {
          blocks_in_region =
              without_child self.old.blocks_in_region block.slot;
        } }
        ensures stored { IsStored self.new }
    {
        self.blocks_in_region.remove(block.slot);
    }
}
