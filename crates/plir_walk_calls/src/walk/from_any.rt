//! The mutable walkers from a node of any kind. They are generic in what is walked: a proof that calls a walker at a
//! context of its own is dear, so each such call is made once.
ghost use Rattle.std.specs.Prelude.{◌≡◌, true};
ghost use Rattle.plir_core.specs.declared.ptr.IRNode.{IRNode as AnyNode};
ghost use Rattle.plir_walk.specs.Lawful.{StandsUnder};
ghost use Rattle.plir_walk.specs.Calls.{Advancing, CallsBack};
ghost use Rattle.plir_walk.specs.Walked.{IsLawful};

use plir_core::IRNode;
use plir_walk::interruptible::WalkResult;
use plir_walk::{CallLimit, NodeLinks, WalkConfig, interruptible, uninterruptible};

/// Walks by a callback that may change what is below its node.
pub fn changing<C: NodeLinks, S, B, F: Fn(&mut C, &mut S, IRNode) -> WalkResult<B>>(
    ctx: &mut C,
    state: &mut S,
    config: &WalkConfig,
    root: IRNode,
    limit: u64,
    callback: F,
) -> Result<WalkResult<B>, CallLimit>
    requires root_live { (C.look ctx.old).live root ≡ true }
    requires callable { (c : _) (s : _) (n : AnyNode) → StandsUnder (C.look c.now) root n → F.pre callback c s n }
    requires lawful { IsLawful C.look root (CallsBack F.Fn callback) }
{
    use interruptible::mutable::{walk_block, walk_op, walk_region};
    match root {
        IRNode::Operation(op) => walk_op(ctx, state, config, op, limit, callback),
        IRNode::Region(region) => walk_region(ctx, state, config, region, limit, callback),
        IRNode::BasicBlock(block) => walk_block(ctx, state, config, block, limit, callback),
    }
}

/// The same by a callback that always advances.
pub fn changing_plainly<C: NodeLinks, S, F: Fn(&mut C, &mut S, IRNode)>(
    ctx: &mut C,
    state: &mut S,
    config: &WalkConfig,
    root: IRNode,
    limit: u64,
    callback: F,
) -> Result<(), CallLimit>
    requires root_live { (C.look ctx.old).live root ≡ true }
    requires callable { (c : _) (s : _) (n : AnyNode) → StandsUnder (C.look c.now) root n → F.pre callback c s n }
    requires lawful { IsLawful C.look root (Advancing (CallsBack F.Fn callback)) }
{
    use uninterruptible::mutable::{walk_block, walk_op, walk_region};
    match root {
        IRNode::Operation(op) => walk_op(ctx, state, config, op, limit, callback),
        IRNode::Region(region) => walk_region(ctx, state, config, region, limit, callback),
        IRNode::BasicBlock(block) => walk_block(ctx, state, config, block, limit, callback),
    }
}
