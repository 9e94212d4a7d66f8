//! The calls that walk a tree.
ghost use Rattle.std.specs.Prelude.{◌≡◌, true};
ghost use Rattle.plir_core.specs.ContextView.{IsLive};
ghost use Rattle.plir_core.specs.declared.ptr.IRNode.{IRNode as AnyNode};
ghost use Rattle.plir_core.specs.Forest.{look};
ghost use Rattle.plir_walk.specs.Lawful.{Lawful};

use crate::walk::changes::{NOT_DONE, visit};
use crate::walk::from_any::{changing, changing_plainly};
use crate::walk::growing::{grow, unlabel};
use crate::walk::pass::{module_with_function, note, reshape};
use crate::walk::plan::{Plan, read_plan};
use plir_core::{Context, IRNode};
use plir_data::OpSet;
use plir_scripts::{Answer, Bench, Line, Made, ScriptSet, Stop};
use plir_walk::interruptible::{WalkResult, walk_advance, walk_break};
use plir_walk::{
    CallLimit, Direction, NodeLinks, Order, WALKCONFIG_POSTORDER_FORWARD,
    WALKCONFIG_POSTORDER_REVERSE, WALKCONFIG_PREORDER_FORWARD, WALKCONFIG_PREORDER_REVERSE,
    WalkConfig, interruptible, uninterruptible,
};
use std::alloc::Global;
use std::ops::ControlFlow;

/// Does what a line says that walks: `look SETTING ROOT PLAN` and `plainly-look SETTING ROOT PLAN` by a callback that
/// only reads, `change SETTING ROOT PLAN` and `plainly-change SETTING ROOT PLAN` by one that follows the plan. Writes
/// the called nodes and the walk's answer. Nodes that the walk has made are named as they are called.
pub fn walk<D: OpSet>(bench: &mut Bench<D>, line: Line<'_>) -> Result<(), Stop> {
    let mut called = bench.take_list()?;
    let config = config_of(line.first)?;
    let root = bench.made.live(&bench.ctx, line.second)?;
    let plan = read_plan(bench, line.tail)?;
    let found = match line.command {
        "look" => Ok(look_at(&bench.ctx, &config, root, &plan, &mut called)),
        "plainly-look" => {
            look_plainly(&bench.ctx, &config, root, &mut called);
            Ok(walk_advance())
        }
        "change" => change(
            bench.alloc,
            &mut bench.ctx,
            &config,
            root,
            &plan,
            &mut called,
        ),
        _ => change_plainly(
            bench.alloc,
            &mut bench.ctx,
            &config,
            root,
            &plan,
            &mut called,
        ),
    };
    name_new(&mut bench.made, called.as_slice())?;
    put_walk(&bench.made, &mut bench.answer, called.as_slice(), found);
    bench.give_back(called);
    Ok(())
}

/// A setting: `pre-fwd` and its kin, or three of them for the regions of operations, the operations of blocks and the
/// blocks of regions, parted by `/`.
pub fn config_of(word: &str) -> Result<WalkConfig, Stop> {
    match word {
        "pre-fwd" => return Ok(WALKCONFIG_PREORDER_FORWARD),
        "post-fwd" => return Ok(WALKCONFIG_POSTORDER_FORWARD),
        "pre-rev" => return Ok(WALKCONFIG_PREORDER_REVERSE),
        "post-rev" => return Ok(WALKCONFIG_POSTORDER_REVERSE),
        _ => {}
    }
    let (regions, rest) = word.split_once('/').ok_or(Stop::Refused)?;
    let (ops, blocks) = rest.split_once('/').ok_or(Stop::Refused)?;
    Ok(WalkConfig {
        regions_in_op: pair_of(regions)?,
        ops_in_block: pair_of(ops)?,
        blocks_in_region: pair_of(blocks)?,
    })
}

fn pair_of(word: &str) -> Result<(Order, Direction), Stop> {
    match word {
        "pre-fwd" => Ok((Order::PreOrder, Direction::Forward)),
        "post-fwd" => Ok((Order::PostOrder, Direction::Forward)),
        "pre-rev" => Ok((Order::PreOrder, Direction::Reverse)),
        "post-rev" => Ok((Order::PostOrder, Direction::Reverse)),
        _ => Err(Stop::Refused),
    }
}

/// Does what a line says that walks under an operation: `grow SETTING OP` gives each called operation a region,
/// `unlabel SETTING OP` takes the label from each called block. Writes the called nodes and the walk's answer.
pub fn walk_plainly<D: OpSet>(bench: &mut Bench<D>, line: Line<'_>) -> Result<(), Stop> {
    let config = config_of(line.first)?;
    let root = bench.made.op(&bench.ctx, line.second)?;
    let mut called = Vec::new(bench.alloc);
    called.reserve(32)?;
    let found = match line.command {
        "grow" => grow(&mut bench.ctx, &config, root, &mut called),
        _ => unlabel(&mut bench.ctx, &config, root, &mut called),
    };
    name_new(&mut bench.made, called.as_slice())?;
    put_walk(&bench.made, &mut bench.answer, called.as_slice(), found);
    Ok(())
}

/// Walks with a callback that notes its node and answers by the plan.
pub fn look_at<C: NodeLinks>(
    ctx: &C,
    config: &WalkConfig,
    root: IRNode,
    plan: &Plan,
    called: &mut Vec<IRNode>,
) -> WalkResult<u32>
    requires { (C.look ctx.now).live root ≡ true }
{
    use interruptible::immutable::{walk_block, walk_op, walk_region};
    let note = |_ctx: &C, called: &mut Vec<IRNode>, node: IRNode| -> WalkResult<u32> {
        match called.push(node) {
            Ok(()) => plan.answer(node),
            Err(_) => walk_break(NOT_DONE),
        }
    };
    match root {
        IRNode::Operation(op) => walk_op(ctx, called, config, op, note),
        IRNode::Region(region) => walk_region(ctx, called, config, region, note),
        IRNode::BasicBlock(block) => walk_block(ctx, called, config, block, note),
    }
}

// The same with a callback that always advances, where the root is live.
fn look_plainly<C: NodeLinks>(
    ctx: &C,
    config: &WalkConfig,
    root: IRNode,
    called: &mut Vec<IRNode>,
) {
    use uninterruptible::immutable::{walk_block, walk_op, walk_region};
    if !ctx.is_node_live(root) {
        return;
    }
    let note = |_ctx: &C, called: &mut Vec<IRNode>, node: IRNode| {
        let _noted = called.push(node);
    };
    match root {
        IRNode::Operation(op) => walk_op(ctx, called, config, op, note),
        IRNode::Region(region) => walk_region(ctx, called, config, region, note),
        IRNode::BasicBlock(block) => walk_block(ctx, called, config, block, note),
    }
}

/// Walks with a callback that notes its node and follows the plan.
pub fn change<D: OpSet>(
    alloc: Global,
    ctx: &mut Context<D>,
    config: &WalkConfig,
    root: IRNode,
    plan: &Plan,
    called: &mut Vec<IRNode>,
) -> Result<WalkResult<u32>, CallLimit>
    requires { IsLive ctx.old root }
{
    let follow = |ctx: &mut Context<D>, called: &mut Vec<IRNode>, node: IRNode| -> WalkResult<u32>
        requires { IsLive ctx.old node }
        ensures { Lawful (look ctx.old) node (look ctx.new) }
    { visit(alloc, ctx, called, plan, node) };
    changing(ctx, called, config, root, plan.limit, follow)
}

// The same with a callback that always advances.
fn change_plainly<D: OpSet>(
    alloc: Global,
    ctx: &mut Context<D>,
    config: &WalkConfig,
    root: IRNode,
    plan: &Plan,
    called: &mut Vec<IRNode>,
) -> Result<WalkResult<u32>, CallLimit>
    requires { IsLive ctx.old root }
{
    let follow = |ctx: &mut Context<D>, called: &mut Vec<IRNode>, node: IRNode|
        requires { IsLive ctx.old node }
        ensures { Lawful (look ctx.old) node (look ctx.new) }
    {
        let _answer = visit(alloc, ctx, called, plan, node);
    };
    let found = changing_plainly(ctx, called, config, root, plan.limit, follow);
    found.map(|()| walk_advance())
}

/// Does what `pass KIND` says: makes a module with a function and an operation of an own kind in it, walks it by a
/// callback that reshapes it, and writes the called nodes, the walk's answer, and what the attribute `builtin.unit` on
/// the module prints.
pub fn run_pass<D: ScriptSet>(bench: &mut Bench<D>, line: Line<'_>) -> Result<(), Stop> {
    let kind = D::own_kind(line.first).ok_or(Stop::Refused)?;
    let mut called = Vec::new(bench.alloc);
    called.reserve(32)?;
    let module = module_with_function(bench.alloc, &mut bench.ctx, kind)?;
    let printed = note(bench.alloc, &mut bench.ctx, module, line.tail).ok_or(Stop::Refused)?;
    bench.answer.put(&printed);
    let found = reshape(bench.alloc, &mut bench.ctx, module, &mut called);
    name_new(&mut bench.made, called.as_slice())?;
    put_walk(&bench.made, &mut bench.answer, called.as_slice(), found);
    Ok(())
}

/// Names the called nodes that have no name.
pub fn name_new(made: &mut Made, called: &[IRNode]) -> Result<(), Stop> {
    for node in called {
        match node {
            IRNode::Operation(op) if !made.ops.contains(op) => made.ops.push(*op)?,
            IRNode::Region(region) if !made.regions.contains(region) => made.regions.push(*region)?,
            IRNode::BasicBlock(block) if !made.blocks.contains(block) => made.blocks.push(*block)?,
            _ => {}
        }
    }
    Ok(())
}

/// Writes the names of the called nodes, and the walk's answer.
pub fn put_walk(
    made: &Made,
    answer: &mut Answer,
    called: &[IRNode],
    found: Result<WalkResult<u32>, CallLimit>,
) {
    for node in called {
        made.put_node(answer, *node);
    }
    match found {
        Err(CallLimit) => answer.put(" limit"),
        Ok(ControlFlow::Break(value)) => {
            answer.put(" break ");
            answer.put_number(value as usize);
        }
        Ok(ControlFlow::Continue(how)) if how.is_advance() => answer.put(" advance"),
        Ok(ControlFlow::Continue(_)) => answer.put(" skip"),
    }
}
