//! How a walk of operations moves on: past the regions and blocks on its way down, where it calls nothing.
#![tactic(auto)]

ghost use Rattle.std.specs.Prelude.{◌≡◌, true};
ghost use Rattle.plir_core.specs.declared.ptr.IRNode.{IRNode as AnyNode};
ghost use Rattle.plir_walk.specs.OperationSteps.{IsOperationHop, Sinks, SinksIf};
ghost use Rattle.plir_walk.specs.Step.{goes_on as goes_on_at};

use crate::config::WalkConfig;
use crate::cursor::{cursor_at, goes_on, is_due, leave};
use crate::interruptible::WalkContinue;
use crate::links::NodeLinks;
use plir_core::{BasicBlock, IRNode, Operation, Ptr, Region};

/// Where the way down from a block leads: to its first operation, or to its end.
#[inline(always)]
fn sink_block<C: NodeLinks>(ctx: &C, config: &WalkConfig, block: Ptr<BasicBlock>) -> (IRNode, bool)
    requires { (C.look ctx.now).live (AnyNode.BasicBlock block) ≡ true }
    ensures sinks { Sinks config.now (C.look ctx.now) (AnyNode.BasicBlock block) result }
    ensures live { (C.look ctx.now).live result.0 ≡ true }
{
    ctx.forest();
    match ctx.first_taken(config, block) {
        Some(child) => (child, true),
        None => (IRNode::BasicBlock(block), false),
    }
}

/// Where the way down from a region leads, past its first block.
#[inline(always)]
fn sink_region<C: NodeLinks>(ctx: &C, config: &WalkConfig, region: Ptr<Region>) -> (IRNode, bool)
    requires { (C.look ctx.now).live (AnyNode.Region region) ≡ true }
    ensures sinks { Sinks config.now (C.look ctx.now) (AnyNode.Region region) result }
    ensures live { (C.look ctx.now).live result.0 ≡ true }
{
    ctx.forest();
    match ctx.first_taken(config, region) {
        Some(IRNode::BasicBlock(block)) => sink_block(ctx, config, block),
        Some(child) => (child, true),
        None => (IRNode::Region(region), false),
    }
}

/// Where the way down from an operation leads, past its first region and the first block there.
#[inline(always)]
fn sink_op<C: NodeLinks>(ctx: &C, config: &WalkConfig, op: Ptr<Operation>) -> (IRNode, bool)
    requires { (C.look ctx.now).live (AnyNode.Operation op) ≡ true }
    ensures sinks { Sinks config.now (C.look ctx.now) (AnyNode.Operation op) result }
    ensures live { (C.look ctx.now).live result.0 ≡ true }
{
    ctx.forest();
    match ctx.first_taken(config, op) {
        Some(IRNode::Region(region)) => sink_region(ctx, config, region),
        Some(child) => (child, true),
        None => (IRNode::Operation(op), false),
    }
}

/// Where the way down from a node leads, if what is below it comes next; else the node is left.
#[inline(always)]
fn sink_if<C: NodeLinks>(ctx: &C, config: &WalkConfig, node: IRNode, below: bool) -> (IRNode, bool)
    requires { (C.look ctx.now).live node ≡ true }
    ensures sinks { SinksIf below config.now (C.look ctx.now) node result }
    ensures live { (C.look ctx.now).live result.0 ≡ true }
{
    if !below {
        return (node, false);
    }
    match node {
        IRNode::Operation(op) => sink_op(ctx, config, op),
        IRNode::Region(region) => sink_region(ctx, config, region),
        IRNode::BasicBlock(block) => sink_block(ctx, config, block),
    }
}

/// Where a walk of operations stands next: what is below a node comes next, or the node is left.
#[inline(always)]
fn hop<C: NodeLinks>(
    ctx: &C,
    config: &WalkConfig,
    root: IRNode,
    node: IRNode,
    below: bool,
) -> Option<(IRNode, bool, bool)>
    requires { (C.look ctx.now).live node ≡ true }
    ensures { IsOperationHop config.now (C.look ctx.now) root node below result }
{
    let (low, entering) = sink_if(ctx, config, node, below);
    if below {
        if entering {
            return Some(cursor_at(config, low, true));
        }
        if is_due(config, low, false) {
            return Some((low, false, true));
        }
    }
    leave(ctx, config, root, low)
}

/// Where a walk of operations stands next that came to a node, where a call gave this answer, or none was due.
#[inline(always)]
pub fn onward<C: NodeLinks>(
    ctx: &C,
    config: &WalkConfig,
    root: IRNode,
    node: IRNode,
    entering: bool,
    answer: WalkContinue,
) -> Option<(IRNode, bool, bool)>
    requires { (C.look ctx.now).live node ≡ true }
    ensures { IsOperationHop config.now (C.look ctx.now) root node (goes_on_at entering answer) result }
{
    let below = goes_on(entering, answer);
    hop(ctx, config, root, node, below)
}
