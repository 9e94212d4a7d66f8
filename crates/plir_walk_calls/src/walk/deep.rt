//! Walks of a deep tree.
ghost use Rattle.std.specs.Prelude.{IfSome};
ghost use Rattle.plir_core.specs.ContextView.{IsLive};

use crate::walk::changes::{Nest, Refusal, make_nest};
use crate::walk::plan::Plan;
use crate::walk::walking::{change, look_at};
use plir_core::{Context, IRNode, NodeErr};
use plir_data::{OpKind, OpSet};
use plir_scripts::{InContext, SampleSet, in_new_context};
use plir_walk::{CallLimit, WALKCONFIG_POSTORDER_REVERSE, WALKCONFIG_PREORDER_FORWARD, WalkConfig};
use std::alloc::Global;

/// How many modules stand in one another.
const MODULES: usize = 10_000;

/// Notes an operation, its region and the block in it.
fn note(nodes: &mut Vec<IRNode>, nest: Nest) -> Result<(), Refusal> {
    let (op, region, block) = nest.nodes();
    for node in [op, region, block] {
        if nodes.push(node).is_err() {
            return Err(Refusal::NotMade(NodeErr::Memory));
        }
    }
    Ok(())
}

/// Makes modules that stand in one another; answers all nodes, each before what is below it.
fn make_modules<D: OpSet>(alloc: Global, ctx: &mut Context<D>) -> Result<Vec<IRNode>, Refusal> {
    let mut nodes = Vec::new(alloc);
    let mut inner = make_nest(alloc, ctx, OpKind::Module, None)?;
    note(&mut nodes, inner)?;
    for _ in 1..MODULES {
        inner = make_nest(alloc, ctx, OpKind::Module, Some(inner.block))?;
        note(&mut nodes, inner)?;
    }
    Ok(nodes)
}

/// The outermost of some nodes, if it is live.
fn outermost<D: OpSet>(ctx: &Context<D>, nodes: &[IRNode]) -> Option<IRNode>
    ensures { IfSome result (IsLive ctx.now) }
{
    nodes.first().copied().filter(|node| node.is_live(ctx))
}

/// A plan with no change, no skip and no break, and so many calls at most.
fn plain_plan(alloc: Global, limit: u64) -> Plan {
    Plan {
        changes: Vec::new(alloc),
        skips: Vec::new(alloc),
        stop: None,
        limit,
    }
}

/// Whether a walk from a live node is not broken and calls these nodes.
fn calls<D: OpSet>(
    alloc: Global,
    ctx: &Context<D>,
    config: &WalkConfig,
    root: IRNode,
    nodes: &[IRNode],
) -> bool
    requires { IsLive ctx.now root }
{
    let mut called = Vec::new(alloc);
    let plan = plain_plan(alloc, 0);
    let found = look_at(ctx, config, root, &plan, &mut called);
    found.is_continue() && called.as_slice() == nodes
}

// Whether walks down and up again call all nodes of modules that stand in one another.
fn walk_down_and_up<D: OpSet>(alloc: Global, ctx: &mut Context<D>) -> Result<bool, Refusal> {
    let mut nodes = make_modules(alloc, ctx)?;
    let Some(root) = outermost(ctx, nodes.as_slice()) else {
        return Ok(false);
    };
    let down = calls(
        alloc,
        ctx,
        &WALKCONFIG_PREORDER_FORWARD,
        root,
        nodes.as_slice(),
    );
    nodes.reverse();
    let up = calls(
        alloc,
        ctx,
        &WALKCONFIG_POSTORDER_REVERSE,
        root,
        nodes.as_slice(),
    );
    Ok(nodes.len() == 30_000 && down && up)
}

// Whether a walk with one call less than there are nodes calls all but the last, and says so.
fn walk_to_the_limit<D: OpSet>(alloc: Global, ctx: &mut Context<D>) -> Result<bool, Refusal> {
    let nodes = make_modules(alloc, ctx)?;
    let Some(root) = outermost(ctx, nodes.as_slice()) else {
        return Ok(false);
    };
    let plan = plain_plan(alloc, 29_999);
    let mut called = Vec::new(alloc);
    let found = change(
        alloc,
        ctx,
        &WALKCONFIG_PREORDER_FORWARD,
        root,
        &plan,
        &mut called,
    );
    let ended = matches!(found, Err(CallLimit));
    Ok(ended && called.len() == 29_999 && nodes.as_slice().starts_with(called.as_slice()))
}

// Walks in a new context: down and up, or to a limit.
#[derive(Drop)]
struct Walks {
    alloc: Global,
    is_limited: bool,
}

impl<D: OpSet> InContext<D> for Walks {
    type Answer = Result<bool, Refusal>;

    fn run(self, ctx: &mut Context<D>) -> Result<bool, Refusal> {
        if self.is_limited {
            walk_to_the_limit(self.alloc, ctx)
        } else {
            walk_down_and_up(self.alloc, ctx)
        }
    }
}

/// Whether a deep walk goes down and up, or ends at its limit.
pub fn walks_deep(alloc: Global, is_limited: bool) -> Result<bool, Refusal> {
    in_new_context::<SampleSet, _>(alloc, Walks { alloc, is_limited })
}
