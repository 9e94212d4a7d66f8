//! Walks that count their calls.
ghost use Rattle.std.specs.Prelude.{◌≡◌};
ghost use Rattle.plir_core.specs.ContextView.{IsLive};
ghost use Rattle.plir_core.specs.declared.ptr.IRNode.{IRNode as AnyNode};

use crate::building::live_op;
use crate::kinds::BenchSet;
use crate::stop::Stop;
use plir_core::{Context, IRNode, Operation, Ptr};
use plir_walk::WALKCONFIG_PREORDER_FORWARD;
use plir_walk::interruptible::{WalkResult, walk_advance};
use plir_walk::laws::lawful_changes;
use plir_walk::operations::immutable::walk_ops;
use plir_walk::uninterruptible::{immutable, mutable};

/// Counts the nodes under a root, so many times.
pub fn walk_nodes(ctx: &Context<BenchSet>, root: Ptr<Operation>, rounds: u64) -> u64
    requires { IsLive ctx.now (AnyNode.Operation root) }
{
    let mut count = 0;
    for _ in 0..rounds {
        let visit = |_ctx: &Context<BenchSet>, count: &mut u64, _node: IRNode| {
            *count = count.wrapping_add(1);
        };
        immutable::walk_op(ctx, &mut count, &WALKCONFIG_PREORDER_FORWARD, root, visit);
    }
    count
}

fn count_operation(
    _ctx: &Context<BenchSet>,
    count: &mut u64,
    _op: Ptr<Operation>,
) -> WalkResult<u64> {
    *count = count.wrapping_add(1);
    walk_advance()
}

/// Counts the operations under a root, so many times.
pub fn walk_operations(ctx: &Context<BenchSet>, root: Ptr<Operation>, rounds: u64) -> u64
    requires { IsLive ctx.now (AnyNode.Operation root) }
{
    let mut count = 0;
    for _ in 0..rounds {
        let node = IRNode::Operation(root);
        let _end = walk_ops(
            ctx,
            &mut count,
            &WALKCONFIG_PREORDER_FORWARD,
            node,
            count_operation,
        );
    }
    count
}

/// Counts the nodes under a root, so many times, by walks whose calls could change what stands below their nodes.
pub fn walk_mutably(
    ctx: &mut Context<BenchSet>,
    root: Ptr<Operation>,
    rounds: u64,
) -> Result<u64, Stop> {
    let mut count = 0;
    for _ in 0..rounds {
        walk_once_mutably(ctx, root, &mut count)?;
    }
    Ok(count)
}

fn walk_once_mutably(
    ctx: &mut Context<BenchSet>,
    root: Ptr<Operation>,
    count: &mut u64,
) -> Result<(), Stop> {
    live_op(ctx, root)?;
    lawful_changes::<BenchSet>();
    let visit = |ctx: &mut Context<BenchSet>, count: &mut u64, _node: IRNode|
        ensures { ctx.new ≡ ctx.old }
    {
        *count = count.wrapping_add(1);
    };
    let config = WALKCONFIG_PREORDER_FORWARD;
    match mutable::walk_op(ctx, count, &config, root, u64::MAX, visit) {
        Ok(()) => Ok(()),
        Err(_) => Err(Stop::Refused),
    }
}
