//! Calls that erase nodes, and the tests that they ask for.
ghost use Rattle.std.specs.Prelude.{◌≡◌, ◌<◌, IsTrue, ◌↔◌, [], true, length, remove};
ghost use Rattle.plir_core.specs.{Nodes.is_node_live, Nodes.node_children, Stored.IsStored, Uses.StaysCounted};
ghost use Rattle.plir_core.specs.{WellFormed.IsWellFormed, declared.ptr.IRNode.IRNode};
ghost use Rattle.plir_core.specs.ContextView.{IsLive, IsAncestor, children};
ghost use Rattle.plir_core.specs.Erase.{without_node, erased, IsErased};
ghost use Rattle.plir_core.specs.Unused.{IsUnusedOutside, without_tree, child_at};

use crate::arena::Arena;
use crate::arena::contents::{BlockData, OpData};
use crate::context::Context;
use crate::ptr::{BasicBlock, IRNode, Operation, Ptr};
use crate::uses::counts::UseCounts;
use plir_data::OpSet;

impl IRNode {
    /// Whether the node is another one or stands above it.
    pub fn is_ancestor<D: OpSet>(self, ctx: &Context<D>, node: IRNode) -> bool
        requires { IsLive ctx.now node }
        ensures value { IsTrue result ↔ IsAncestor ctx.now self node }
        ensures whole { IsWellFormed D.attr_handles ctx.now }
    {
        prove!(node.is_live(ctx), "the node is not live");
        ctx.nodes.is_ancestor(self, node)
    }

    /// Whether no live operation outside the tree of this node, which is the node and all below it, has an operand that
    /// is a value of the tree or a successor in it. This goes through the tree, and where anything of it is used a
    /// second time, in which it climbs from the owner of each operand and from each successor if the tree is more than
    /// its root. It looks at all operations only where a count of uses is not known.
    pub fn is_unused_outside<D: OpSet>(self, ctx: &Context<D>) -> bool
        ensures value { IsTrue result ↔ IsUnusedOutside ctx.now self }
        ensures whole { IsWellFormed D.attr_handles ctx.now }
    {
        let _types = &ctx.types;
        ctx.is_unused_outside(self)
    }
}

impl<O: Drop, B: Drop> Arena<O, B> {
    /// Takes a node without children out of its list and frees its slot.
    pub(crate) fn free(&mut self, node: IRNode)
        requires live { is_node_live self.old node ≡ true }
        requires leaf { node_children self.old node ≡ [] }
        ensures after { self.new ≡ without_node self.old node }
        ensures stored { IsStored self.new }
    {
        match node {
            IRNode::Operation(op) => {
                self.ops_in_block.remove(op.slot);
                self.ops.remove(op.slot);
            }
            IRNode::Region(region) => {
                self.regions_in_op.remove(region.slot);
                self.regions.remove(region.slot);
            }
            IRNode::BasicBlock(block) => {
                self.blocks_in_region.remove(block.slot);
                self.blocks.remove(block.slot);
            }
        }
    }

    /// Erases a node with all that is below it: each node is freed after those below it, children in order.
    pub(crate) fn erase(&mut self, root: IRNode)
        requires { is_node_live self.old root ≡ true }
        ensures after { self.new ≡ erased self.old root }
        ensures tree { IsErased self.old self.new root }
    {
        let _limit = &self.limit;
        let mut at = root;
        loop {
            match self.first_child(at) {
                Some(child) => at = child,
                None => {
                    let over = self.parent(at);
                    self.free(at);
                    if at == root {
                        return;
                    }
                    match over {
                        Some(parent) => at = parent,
                        None => unreachable!(),
                    }
                }
            }
        }
    }
}

// Frees a node without children, and takes what it uses off.
fn free_node<D: OpSet>(
    nodes: &mut Arena<OpData<D>, BlockData<D>>,
    uses: &mut UseCounts,
    node: IRNode,
)
    requires live { is_node_live nodes.old node ≡ true }
    requires leaf { node_children nodes.old node ≡ [] }
    ensures after { nodes.new ≡ without_node nodes.old node }
    ensures stored { IsStored nodes.new }
    ensures counted { StaysCounted uses.old uses.new nodes.old.ops nodes.new.ops }
{
    uses.forget(nodes, node);
    nodes.free(node);
}

// Erases a node with all that is below it: each node is freed after those below it, children in order.
fn erase_nodes<D: OpSet>(
    nodes: &mut Arena<OpData<D>, BlockData<D>>,
    uses: &mut UseCounts,
    root: IRNode,
)
    requires { is_node_live nodes.old root ≡ true }
    ensures after { nodes.new ≡ erased nodes.old root }
    ensures tree { IsErased nodes.old nodes.new root }
    ensures counted { StaysCounted uses.old uses.new nodes.old.ops nodes.new.ops }
{
    let _limit = &nodes.limit;
    let mut at = root;
    loop {
        match nodes.first_child(at) {
            Some(child) => at = child,
            None => {
                let over = nodes.parent(at);
                free_node(nodes, uses, at);
                if at == root {
                    return;
                }
                match over {
                    Some(parent) => at = parent,
                    None => unreachable!(),
                }
            }
        }
    }
}

/// Erases the tree of a node.
pub(crate) fn erase_tree<D: OpSet>(node: IRNode, ctx: &mut Context<D>)
    requires live { IsLive ctx.old node }
    requires unused { IsUnusedOutside ctx.old node }
    ensures after { ctx.new ≡ without_tree ctx.old node }
    ensures tree { IsErased ctx.old.nodes ctx.new.nodes node }
    ensures whole { IsWellFormed D.attr_handles ctx.new }
{
    erase_nodes(&mut ctx.nodes, &mut ctx.uses, node);
}

impl Operation {
    /// Erases an operation with all below it, whose values and blocks nothing else uses (`IRNode::is_unused_outside`).
    /// It is taken out of its block, if it is in one. Each node is freed after those below it, children in order.
    pub fn erase<D: OpSet>(op: Ptr<Operation>, ctx: &mut Context<D>)
        requires live { IsLive ctx.old (IRNode.Operation op) }
        requires unused { IsUnusedOutside ctx.old (IRNode.Operation op) }
        ensures after { ctx.new ≡ without_tree ctx.old (IRNode.Operation op) }
        ensures tree { IsErased ctx.old.nodes ctx.new.nodes (IRNode.Operation op) }
        ensures whole { IsWellFormed D.attr_handles ctx.new }
    {
        prove!(op.is_live(ctx), "the operation is not live");
        erase_tree(IRNode::Operation(op), ctx);
    }

    /// Erases the region that `get_region` finds at a place, from 0, among those of an operation, with all below it,
    /// whose values and blocks nothing else uses (`IRNode::is_unused_outside`). Each node is freed after those below
    /// it, children in order. Later regions move down by one.
    pub fn erase_region<D: OpSet>(op: Ptr<Operation>, ctx: &mut Context<D>, i: usize)
        requires live { IsLive ctx.old (IRNode.Operation op) }
        requires below { i < length (children ctx.old (IRNode.Operation op)) }
        requires unused { IsUnusedOutside ctx.old (child_at ctx.old (IRNode.Operation op) i) }
        ensures after { ctx.new ≡ without_tree ctx.old (child_at ctx.old (IRNode.Operation op) i) }
        ensures tree { IsErased ctx.old.nodes ctx.new.nodes (child_at ctx.old (IRNode.Operation op) i) }
        ensures left { children ctx.new (IRNode.Operation op) ≡ remove (children ctx.old (IRNode.Operation op)) i }
        ensures whole { IsWellFormed D.attr_handles ctx.new }
    {
        prove!(op.is_live(ctx), "the operation is not live");
        let region = op.get_region(ctx, i);
        erase_tree(IRNode::Region(region), ctx);
    }
}

impl BasicBlock {
    /// Erases a block with all below it, whose values and blocks nothing else uses (`IRNode::is_unused_outside`). It is
    /// taken out of its region, if it is in one.
    pub fn erase<D: OpSet>(block: Ptr<BasicBlock>, ctx: &mut Context<D>)
        requires live { IsLive ctx.old (IRNode.BasicBlock block) }
        requires unused { IsUnusedOutside ctx.old (IRNode.BasicBlock block) }
        ensures after { ctx.new ≡ without_tree ctx.old (IRNode.BasicBlock block) }
        ensures tree { IsErased ctx.old.nodes ctx.new.nodes (IRNode.BasicBlock block) }
        ensures whole { IsWellFormed D.attr_handles ctx.new }
    {
        prove!(block.is_live(ctx), "the block is not live");
        erase_tree(IRNode::BasicBlock(block), ctx);
    }
}
