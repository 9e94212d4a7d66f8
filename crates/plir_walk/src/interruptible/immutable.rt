//! Walkers whose callback reads the context.
#![tactic(auto)]

ghost use Rattle.std.specs.Prelude.{◌≡◌, true};
ghost use Rattle.plir_core.specs.declared.ptr.IRNode.{IRNode as AnyNode};
ghost use Rattle.plir_walk.specs.Lawful.{StandsUnder};
ghost use Rattle.plir_walk.specs.Calls.{ReadsBack};
ghost use Rattle.plir_walk.specs.Step.{IsVisited};
ghost use Rattle.plir_walk.specs.Walked.{WalkedOver};

use crate::config::WalkConfig;
use crate::cursor::{is_due, onward};
use crate::interruptible::{WalkContinue, WalkResult, walk_advance};
use crate::links::NodeLinks;
use plir_core::{BasicBlock, Context, IRNode, Operation, Ptr, Region};
use std::ops::ControlFlow;

/// A callback as a plain function.
pub type WalkerCallback<D, S, B> = fn(&Context<D>, &mut S, IRNode) -> WalkResult<B>;

/// Walks an operation and all that is below it, and calls `callback` at each node that no skip leaves out, in the order
/// of `config`. Answers `Break(b)` where the last call did, else `Continue(Advance)`. Takes no memory.
pub fn walk_op<C: NodeLinks, S, B, F: Fn(&C, &mut S, IRNode) -> WalkResult<B>>(
    ctx: &C,
    state: &mut S,
    config: &WalkConfig,
    root: Ptr<Operation>,
    callback: F,
) -> WalkResult<B>
    requires root_live { (C.look ctx.now).live (IRNode.Operation root) ≡ true }
    requires callable { (c : _) (s : _) (n : AnyNode) → c.now ≡ ctx.now →
        StandsUnder (C.look ctx.now) (IRNode.Operation root) n → F.pre callback c s n }
    ensures { WalkedOver C.look config.now (ReadsBack F.Fn callback) ctx.now state.old (IRNode.Operation root) result
        state.new }
{
    walk(ctx, state, config, IRNode::Operation(root), callback)
}

/// Walks a region and all that is below it, and calls `callback` at each node that no skip leaves out, in the order of
/// `config`. Answers `Break(b)` where the last call did, else `Continue(Advance)`. Takes no memory.
pub fn walk_region<C: NodeLinks, S, B, F: Fn(&C, &mut S, IRNode) -> WalkResult<B>>(
    ctx: &C,
    state: &mut S,
    config: &WalkConfig,
    root: Ptr<Region>,
    callback: F,
) -> WalkResult<B>
    requires root_live { (C.look ctx.now).live (IRNode.Region root) ≡ true }
    requires callable { (c : _) (s : _) (n : AnyNode) → c.now ≡ ctx.now →
        StandsUnder (C.look ctx.now) (IRNode.Region root) n → F.pre callback c s n }
    ensures { WalkedOver C.look config.now (ReadsBack F.Fn callback) ctx.now state.old (IRNode.Region root) result
        state.new }
{
    walk(ctx, state, config, IRNode::Region(root), callback)
}

/// Walks a block and all that is below it, and calls `callback` at each node that no skip leaves out, in the order of
/// `config`. Answers `Break(b)` where the last call did, else `Continue(Advance)`. Takes no memory.
pub fn walk_block<C: NodeLinks, S, B, F: Fn(&C, &mut S, IRNode) -> WalkResult<B>>(
    ctx: &C,
    state: &mut S,
    config: &WalkConfig,
    root: Ptr<BasicBlock>,
    callback: F,
) -> WalkResult<B>
    requires root_live { (C.look ctx.now).live (IRNode.BasicBlock root) ≡ true }
    requires callable { (c : _) (s : _) (n : AnyNode) → c.now ≡ ctx.now →
        StandsUnder (C.look ctx.now) (IRNode.BasicBlock root) n → F.pre callback c s n }
    ensures { WalkedOver C.look config.now (ReadsBack F.Fn callback) ctx.now state.old (IRNode.BasicBlock root) result
        state.new }
{
    walk(ctx, state, config, IRNode::BasicBlock(root), callback)
}

/// Calls the callback at a node where it is due; else the walk goes on.
#[inline(always)]
fn visit<C: NodeLinks, S, B, F: Fn(&C, &mut S, IRNode) -> WalkResult<B>>(
    ctx: &C,
    state: &mut S,
    root: IRNode,
    node: IRNode,
    due: bool,
    callback: &F,
) -> WalkResult<B>
    requires stands { StandsUnder (C.look ctx.now) root node }
    requires callable { (c : _) (s : _) (n : AnyNode) → c.now ≡ ctx.now → StandsUnder (C.look ctx.now) root n →
        F.pre callback.now c s n }
    ensures { IsVisited C.look (ReadsBack F.Fn callback.now) ctx.now state.old node due result ctx.now state.new }
{
    if !due {
        return walk_advance();
    }
    ctx.forest();
    callback(ctx, state, node)
}

/// The walk from a node of any kind, by one loop over the links: it stops as the root is left.
pub(crate) fn walk<C: NodeLinks, S, B, F: Fn(&C, &mut S, IRNode) -> WalkResult<B>>(
    ctx: &C,
    state: &mut S,
    config: &WalkConfig,
    root: IRNode,
    callback: F,
) -> WalkResult<B>
    requires root_live { (C.look ctx.now).live root ≡ true }
    requires callable { (c : _) (s : _) (n : AnyNode) → c.now ≡ ctx.now → StandsUnder (C.look ctx.now) root n →
        F.pre callback c s n }
    ensures { WalkedOver C.look config.now (ReadsBack F.Fn callback) ctx.now state.old root result state.new }
{
    ctx.forest();
    // A copy, which no callback can reach: where it is known, the loop has no branch on it.
    let setting = *config;
    let mut node = root;
    let mut entering = true;
    let mut due = is_due(&setting, root, true);
    'nodes: loop {
        let answer = match visit(ctx, state, root, node, due, &callback) {
            ControlFlow::Break(b) => return ControlFlow::Break(b),
            ControlFlow::Continue(answer) => answer,
        };
        match onward(ctx, &setting, root, node, entering, answer) {
            Some((next, enter, call)) => {
                node = next;
                entering = enter;
                due = call;
            }
            None => return ControlFlow::Continue(WalkContinue::Advance),
        }
    }
}
