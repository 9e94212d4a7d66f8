//! How a walk's cursor moves on.
#![tactic(auto)]

ghost use Rattle.std.specs.Prelude.{◌≡◌, true, false, option_map};
ghost use Rattle.plir_walk.specs.Config.{order_of};
ghost use Rattle.plir_walk.specs.Tree.{same};
ghost use Rattle.plir_walk.specs.Step.{cursor_at, due_at, entered, first_of, goes_on, next_of, IsHop};

use crate::config::{Order, WalkConfig};
use crate::interruptible::WalkContinue;
use crate::links::{NodeLinks, TypedNode};
use plir_core::IRNode;

/// Whether a node is called now: as it is entered in PreOrder, as it is left in PostOrder.
#[inline(always)]
pub fn is_due(config: &WalkConfig, node: IRNode, entering: bool) -> bool
    ensures { result ≡ due_at (order_of config.now node) entering }
{
    let (order, _) = config.pair(node);
    match order {
        Order::PreOrder => entering,
        Order::PostOrder => !entering,
    }
}

/// Whether what is below a node comes next after a call there with this answer, or after none.
#[inline(always)]
pub fn goes_on(entering: bool, answer: WalkContinue) -> bool
    ensures { result ≡ goes_on entering answer }
{
    match answer {
        WalkContinue::Advance => entering,
        WalkContinue::Skip => false,
    }
}

/// A cursor: the node, whether it is entered, and whether it is called now.
#[inline(always)]
pub fn cursor_at(config: &WalkConfig, node: IRNode, entering: bool) -> (IRNode, bool, bool)
    ensures { result ≡ cursor_at config.now (node, entering) }
{
    let due = is_due(config, node, entering);
    (node, entering, due)
}

/// Where a walk stands next that enters a node: there, if a call is due, else at its first child, or at its end.
#[inline(always)]
fn enter<C: NodeLinks, N: TypedNode>(ctx: &C, config: &WalkConfig, node: N) -> (IRNode, bool, bool)
    requires { (C.look ctx.now).live (N.node node) ≡ true }
    ensures { result ≡ cursor_at config.now (entered config.now (C.look ctx.now) (N.node node)) }
{
    match node.order(config) {
        Order::PreOrder => cursor_at(config, node.node(), true),
        Order::PostOrder => match ctx.first_taken(config, node) {
            Some(child) => cursor_at(config, child, true),
            None => cursor_at(config, node.node(), false),
        },
    }
}

/// Where a walk stands next that enters the sibling behind a node. None, if there is none.
#[inline(always)]
fn enter_next<C: NodeLinks, N: TypedNode>(
    ctx: &C,
    config: &WalkConfig,
    node: N,
) -> Option<(IRNode, bool, bool)>
    requires { (C.look ctx.now).live (N.node node) ≡ true }
    ensures { result ≡ option_map (cursor_at config.now)
        (option_map (entered config.now (C.look ctx.now)) (next_of config.now (C.look ctx.now) (N.node node))) }
{
    match ctx.next_taken(config, node) {
        Some(sibling) => {
            ctx.forest();
            Some(enter(ctx, config, sibling))
        }
        None => None,
    }
}

/// The same behind a node of any kind.
#[inline(always)]
fn enter_behind<C: NodeLinks>(
    ctx: &C,
    config: &WalkConfig,
    node: IRNode,
) -> Option<(IRNode, bool, bool)>
    requires { (C.look ctx.now).live node ≡ true }
    ensures { result ≡ option_map (cursor_at config.now)
        (option_map (entered config.now (C.look ctx.now)) (next_of config.now (C.look ctx.now) node)) }
{
    match node {
        IRNode::Operation(op) => enter_next(ctx, config, op),
        IRNode::Region(region) => enter_next(ctx, config, region),
        IRNode::BasicBlock(block) => enter_next(ctx, config, block),
    }
}

/// Whether two nodes are the same.
#[inline(always)]
fn is_same(one: IRNode, other: IRNode) -> bool
    ensures { result ≡ same one other }
{
    one == other
}

/// Where a walk stands next that leaves a node, and with it each node above that has no sibling behind it and is not
/// called. None, if one of them is the root.
#[inline(always)]
pub fn leave<C: NodeLinks>(
    ctx: &C,
    config: &WalkConfig,
    root: IRNode,
    node: IRNode,
) -> Option<(IRNode, bool, bool)>
    requires { (C.look ctx.now).live node ≡ true }
    ensures { IsHop config.now (C.look ctx.now) root node false result }
{
    ctx.forest();
    let mut here = node;
    'up: loop {
        if is_same(here, root) {
            return None;
        }
        if let Some(next) = enter_behind(ctx, config, here) {
            return Some(next);
        }
        let parent = ctx.parent(here)?;
        if is_due(config, parent, false) {
            return Some((parent, false, true));
        }
        here = parent;
    }
}

/// The child of a node of any kind that a walk enters first.
#[inline(always)]
fn first_below<C: NodeLinks>(ctx: &C, config: &WalkConfig, node: IRNode) -> Option<IRNode>
    requires { (C.look ctx.now).live node ≡ true }
    ensures { result ≡ first_of config.now (C.look ctx.now) node }
{
    match node {
        IRNode::Operation(op) => ctx.first_taken(config, op),
        IRNode::Region(region) => ctx.first_taken(config, region),
        IRNode::BasicBlock(block) => ctx.first_taken(config, block),
    }
}

/// Where a walk stands next: what is below a node comes next, first its first child, or the node is left.
#[inline(always)]
fn hop<C: NodeLinks>(
    ctx: &C,
    config: &WalkConfig,
    root: IRNode,
    node: IRNode,
    below: bool,
) -> Option<(IRNode, bool, bool)>
    requires { (C.look ctx.now).live node ≡ true }
    ensures { IsHop config.now (C.look ctx.now) root node below result }
{
    if below {
        if let Some(child) = first_below(ctx, config, node) {
            return Some(cursor_at(config, child, true));
        }
        if is_due(config, node, false) {
            return Some((node, false, true));
        }
    }
    leave(ctx, config, root, node)
}

/// Where a walk stands next that came to a node, entering or leaving it, where a call gave this answer, or none was
/// due.
#[inline(always)]
pub fn onward<C: NodeLinks>(
    ctx: &C,
    config: &WalkConfig,
    root: IRNode,
    node: IRNode,
    entering: bool,
    answer: WalkContinue,
) -> Option<(IRNode, bool, bool)>
    requires { (C.look ctx.now).live node ≡ true }
    ensures { IsHop config.now (C.look ctx.now) root node (goes_on entering answer) result }
{
    let below = goes_on(entering, answer);
    hop(ctx, config, root, node, below)
}
