//! The place of a region among those of its operation.
ghost use Rattle.std.specs.Prelude.{◌≡◌, ◌<◌, Some, IfSome, length, slice_get, true};
ghost use Rattle.plir_store.specs.Lists.{children_at, parent_at};
ghost use Rattle.plir_core.specs.Nodes.{is_node_live, node_children, node_parent};
ghost use Rattle.plir_core.specs.declared.ptr.IRNode.{IRNode};

use crate::arena::Arena;
use crate::ptr::{Ptr, Region};
use plir_store::chains::Chains;

impl<O, B> Arena<O, B> {
    /// The place of a region, from 0, among those of its operation.
    pub(crate) fn place_of_region(&self, region: Ptr<Region>) -> usize
        requires { is_node_live self.now (IRNode.Region region) ≡ true }
        ensures { IfSome (node_parent self.now (IRNode.Region region))
            (λ n. slice_get (node_children self.now n) result ≡ Some (IRNode.Region region)) }
    {
        match self.regions_in_op.parent(region.slot) {
            Some(list) => place_of(&self.regions_in_op, list, region.slot),
            None => unreachable!(),
        }
    }
}

// The place of a child, from 0, in the list that it is in.
fn place_of(lists: &Chains, list: u32, child: u32) -> usize
    requires list_in { list < length lists.now.children }
    requires listed { parent_at lists.now child ≡ Some list }
    ensures { slice_get (children_at lists.now list) result ≡ Some child }
{
    let mut place = 0;
    let mut at = lists.first(list);
    while let Some(current) = at {
        if current == child {
            return place;
        }
        place += 1;
        at = lists.next(current);
    }
    unreachable!()
}
