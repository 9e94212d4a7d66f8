//! The walkers that call at operations alone.
ghost use Rattle.std.specs.Prelude.{◌≡◌, true};
ghost use Rattle.plir_core.specs.ContextView.{IsLive};
ghost use Rattle.plir_core.specs.declared.ptr.IRNode.{IRNode as AnyNode};
ghost use Rattle.plir_core.specs.Forest.{look};
ghost use Rattle.plir_walk.specs.Lawful.{Lawful};

use crate::walk::changes::{NOT_DONE, visit};
use crate::walk::plan::{Plan, read_plan};
use crate::walk::walking::{config_of, name_new, put_walk};
use plir_core::{Context, IRNode, Operation, Ptr};
use plir_data::OpSet;
use plir_scripts::{Bench, Line, Stop};
use plir_walk::interruptible::{WalkResult, walk_break};
use plir_walk::{CallLimit, NodeLinks, WalkConfig, operations};
use std::alloc::Global;

/// Does what a line says that walks and calls at operations alone: `look-ops SETTING ROOT PLAN` by a callback that only
/// reads, `change-ops SETTING ROOT PLAN` by one that follows the plan. Writes the called operations and the walk's
/// answer.
pub fn walk_ops<D: OpSet>(bench: &mut Bench<D>, line: Line<'_>) -> Result<(), Stop> {
    let mut called = bench.take_list()?;
    let config = config_of(line.first)?;
    let root = bench.made.live(&bench.ctx, line.second)?;
    let plan = read_plan(bench, line.tail)?;
    let found = match line.command {
        "look-ops" => Ok(look_at_ops(&bench.ctx, &config, root, &plan, &mut called)),
        _ => change_ops(
            bench.alloc,
            &mut bench.ctx,
            &config,
            root,
            &plan,
            &mut called,
        ),
    };
    name_new(&mut bench.made, called.as_slice())?;
    put_walk(&bench.made, &mut bench.answer, called.as_slice(), found);
    bench.give_back(called);
    Ok(())
}

// Walks with a callback that notes its operation and answers by the plan.
fn look_at_ops<C: NodeLinks>(
    ctx: &C,
    config: &WalkConfig,
    root: IRNode,
    plan: &Plan,
    called: &mut Vec<IRNode>,
) -> WalkResult<u32>
    requires { (C.look ctx.now).live root ≡ true }
{
    let note = |_ctx: &C, called: &mut Vec<IRNode>, op: Ptr<Operation>| -> WalkResult<u32> {
        let node = IRNode::Operation(op);
        match called.push(node) {
            Ok(()) => plan.answer(node),
            Err(_) => walk_break(NOT_DONE),
        }
    };
    operations::immutable::walk_ops(ctx, called, config, root, note)
}

// Walks with a callback that notes its operation and follows the plan.
fn change_ops<D: OpSet>(
    alloc: Global,
    ctx: &mut Context<D>,
    config: &WalkConfig,
    root: IRNode,
    plan: &Plan,
    called: &mut Vec<IRNode>,
) -> Result<WalkResult<u32>, CallLimit>
    requires { IsLive ctx.old root }
{
    let follow = |ctx: &mut Context<D>, called: &mut Vec<IRNode>, op: Ptr<Operation>| -> WalkResult<
        u32,
    >
        requires { IsLive ctx.old (AnyNode.Operation op) }
        ensures { Lawful (look ctx.old) (AnyNode.Operation op) (look ctx.new) }
    { visit(alloc, ctx, called, plan, IRNode::Operation(op)) };
    operations::mutable::walk_ops(ctx, called, config, root, plan.limit, follow)
}
