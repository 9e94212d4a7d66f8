//! Walks whose callbacks promise no more than the node calls that they make.
ghost use Rattle.std.specs.Prelude.{◌≡◌, ◌⊎◌};
ghost use Rattle.plir_core.specs.Changes.{with_block_edit};
ghost use Rattle.plir_core.specs.Contents.{BlockView};
ghost use Rattle.plir_core.specs.Made.{IsRegionAdded};
ghost use Rattle.plir_core.specs.ContextView.{IsLive};
ghost use Rattle.plir_core.specs.declared.ptr.BasicBlock.{BasicBlock as BlockKind};
ghost use Rattle.plir_core.specs.declared.ptr.IRNode.{IRNode as AnyNode};
ghost use Rattle.plir_core.specs.declared.ptr.Ptr.{Ptr as Pointer};

use crate::walk::changes::NOT_DONE;
use plir_core::{Context, IRNode, Operation, Ptr};
use plir_data::OpSet;
use plir_walk::interruptible::mutable::walk_op;
use plir_walk::interruptible::{WalkResult, walk_advance, walk_break};
use plir_walk::laws::lawful_changes;
use plir_walk::{CallLimit, WalkConfig};

/// Walks with a callback that notes its node, and gives a region to it if it is an operation. All that the callback
/// promises of the tree is what `Operation::add_region` promises.
pub fn grow<D: OpSet>(
    ctx: &mut Context<D>,
    config: &WalkConfig,
    root: Ptr<Operation>,
    called: &mut Vec<IRNode>,
) -> Result<WalkResult<u32>, CallLimit>
    requires { IsLive ctx.old (AnyNode.Operation root) }
{
    lawful_changes::<D>();
    let add = |ctx: &mut Context<D>, called: &mut Vec<IRNode>, node: IRNode| -> WalkResult<u32>
        requires { IsLive ctx.old node }
        ensures { (ctx.new ≡ ctx.old) ⊎ ((r : AnyNode) × IsRegionAdded ctx.old.nodes ctx.new.nodes node r) }
    {
        if called.push(node).is_err() {
            return walk_break(NOT_DONE);
        }
        match node {
            IRNode::Operation(op) => match Operation::add_region(op, ctx) {
                Ok(_) => walk_advance(),
                Err(_) => walk_break(NOT_DONE),
            },
            _ => walk_advance(),
        }
    };
    walk_op(ctx, called, config, root, 100, add)
}

/// Walks with a callback that notes its node, and takes the label from it if it is a block. All that the callback
/// promises of the tree is what `set_label` promises.
pub fn unlabel<D: OpSet>(
    ctx: &mut Context<D>,
    config: &WalkConfig,
    root: Ptr<Operation>,
    called: &mut Vec<IRNode>,
) -> Result<WalkResult<u32>, CallLimit>
    requires { IsLive ctx.old (AnyNode.Operation root) }
{
    lawful_changes::<D>();
    let clear = |ctx: &mut Context<D>, called: &mut Vec<IRNode>, node: IRNode| -> WalkResult<u32>
        requires { IsLive ctx.old node }
        ensures { (ctx.new ≡ ctx.old) ⊎ ((b : Pointer BlockKind) × (f : BlockView _ → BlockView _) ×
            (ctx.new ≡ with_block_edit ctx.old b f)) }
    {
        if called.push(node).is_err() {
            return walk_break(NOT_DONE);
        }
        if let IRNode::BasicBlock(block) = node {
            block.set_label(ctx, None);
        }
        walk_advance()
    };
    walk_op(ctx, called, config, root, 100, clear)
}
