//! Names of nodes that a call has made.
ghost use Rattle.std.specs.Prelude.{IfSome};
ghost use Rattle.plir_core.specs.ContextView.{IsLive};

use plir_core::{Context, IRNode};
use plir_data::OpSet;
use plir_scripts::{Made, Stop};

// What a walk through the tree of a node comes to behind a node, if that is not the last.
fn node_behind<D: OpSet>(ctx: &Context<D>, root: IRNode, node: IRNode) -> Option<IRNode>
    requires { IsLive ctx.now node }
    ensures { IfSome result (IsLive ctx.now) }
{
    if let Some(child) = node.first_child(ctx) {
        return Some(child);
    }
    let mut at = node;
    'up: for _i in 0..ctx.num_live() {
        if at == root {
            return None;
        }
        if let Some(sibling) = at.next_sibling(ctx) {
            return Some(sibling);
        }
        at = at.parent(ctx)?;
    }
    None
}

/// Gives names to a node and to all that stands below it.
pub fn name_all<D: OpSet>(ctx: &Context<D>, made: &mut Made, root: IRNode) -> Result<(), Stop>
    requires { IsLive ctx.now root }
{
    let mut next = Some(root);
    'nodes: for _i in 0..ctx.num_live() {
        let Some(node) = next else {
            return Ok(());
        };
        match node {
            IRNode::Operation(op) => made.ops.push(op)?,
            IRNode::Region(region) => made.regions.push(region)?,
            IRNode::BasicBlock(block) => made.blocks.push(block)?,
        }
        next = node_behind(ctx, root, node);
    }
    Ok(())
}
