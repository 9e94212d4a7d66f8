//! Walkers whose callback may change the context.
#![tactic(auto)]

ghost use Rattle.std.specs.Prelude.{◌≡◌, true};
ghost use Rattle.plir_core.specs.declared.ptr.IRNode.{IRNode as AnyNode};
ghost use Rattle.plir_walk.specs.Lawful.{StandsUnder};
ghost use Rattle.plir_walk.specs.Calls.{CallsBack};
ghost use Rattle.plir_walk.specs.Step.{IsVisited};
ghost use Rattle.plir_walk.specs.Walked.{IsLawful, Walked};

use crate::config::WalkConfig;
use crate::cursor::{is_due, onward};
use crate::interruptible::{WalkContinue, WalkResult, walk_advance};
use crate::limit::CallLimit;
use crate::links::NodeLinks;
use plir_core::{BasicBlock, Context, IRNode, Operation, Ptr, Region};
use std::ops::ControlFlow;

/// A callback as a plain function.
pub type WalkerCallback<D, S, B> = fn(&mut Context<D>, &mut S, IRNode) -> WalkResult<B>;

/// Walks an operation and all that is below it, and calls `callback` at each node that no skip leaves out, in the order
/// of `config`, at most `limit` times. A call may change the tree below its own node: the walk goes on over what stands
/// there after a PreOrder call. Answers `Break(b)` where the last call did, else `Continue(Advance)`. Takes no memory.
///
/// # Errors
///
/// [`CallLimit`] where `limit` calls were made, none broke the walk, and another one was due.
pub fn walk_op<C: NodeLinks, S, B, F: Fn(&mut C, &mut S, IRNode) -> WalkResult<B>>(
    ctx: &mut C,
    state: &mut S,
    config: &WalkConfig,
    root: Ptr<Operation>,
    limit: u64,
    callback: F,
) -> Result<WalkResult<B>, CallLimit>
    requires root_live { (C.look ctx.old).live (IRNode.Operation root) ≡ true }
    requires callable { (c : _) (s : _) (n : AnyNode) → StandsUnder (C.look c.now) (IRNode.Operation root) n →
        F.pre callback c s n }
    requires lawful { IsLawful C.look (IRNode.Operation root) (CallsBack F.Fn callback) }
    ensures { Walked C.look config.now (CallsBack F.Fn callback) ctx.old state.old (IRNode.Operation root) limit result
        ctx.new state.new }
{
    walk(ctx, state, config, IRNode::Operation(root), limit, callback)
}

/// Walks a region and all that is below it, and calls `callback` at each node that no skip leaves out, in the order of
/// `config`, at most `limit` times. A call may change the tree below its own node: the walk goes on over what stands
/// there after a PreOrder call. Answers `Break(b)` where the last call did, else `Continue(Advance)`. Takes no memory.
///
/// # Errors
///
/// [`CallLimit`] where `limit` calls were made, none broke the walk, and another one was due.
pub fn walk_region<C: NodeLinks, S, B, F: Fn(&mut C, &mut S, IRNode) -> WalkResult<B>>(
    ctx: &mut C,
    state: &mut S,
    config: &WalkConfig,
    root: Ptr<Region>,
    limit: u64,
    callback: F,
) -> Result<WalkResult<B>, CallLimit>
    requires root_live { (C.look ctx.old).live (IRNode.Region root) ≡ true }
    requires callable { (c : _) (s : _) (n : AnyNode) → StandsUnder (C.look c.now) (IRNode.Region root) n →
        F.pre callback c s n }
    requires lawful { IsLawful C.look (IRNode.Region root) (CallsBack F.Fn callback) }
    ensures { Walked C.look config.now (CallsBack F.Fn callback) ctx.old state.old (IRNode.Region root) limit result
        ctx.new state.new }
{
    walk(ctx, state, config, IRNode::Region(root), limit, callback)
}

/// Walks a block and all that is below it, and calls `callback` at each node that no skip leaves out, in the order of
/// `config`, at most `limit` times. A call may change the tree below its own node: the walk goes on over what stands
/// there after a PreOrder call. Answers `Break(b)` where the last call did, else `Continue(Advance)`. Takes no memory.
///
/// # Errors
///
/// [`CallLimit`] where `limit` calls were made, none broke the walk, and another one was due.
pub fn walk_block<C: NodeLinks, S, B, F: Fn(&mut C, &mut S, IRNode) -> WalkResult<B>>(
    ctx: &mut C,
    state: &mut S,
    config: &WalkConfig,
    root: Ptr<BasicBlock>,
    limit: u64,
    callback: F,
) -> Result<WalkResult<B>, CallLimit>
    requires root_live { (C.look ctx.old).live (IRNode.BasicBlock root) ≡ true }
    requires callable { (c : _) (s : _) (n : AnyNode) → StandsUnder (C.look c.now) (IRNode.BasicBlock root) n →
        F.pre callback c s n }
    requires lawful { IsLawful C.look (IRNode.BasicBlock root) (CallsBack F.Fn callback) }
    ensures { Walked C.look config.now (CallsBack F.Fn callback) ctx.old state.old (IRNode.BasicBlock root) limit
        result ctx.new state.new }
{
    let block = IRNode::BasicBlock(root);
    walk(ctx, state, config, block, limit, callback)
}

/// Calls the callback at a node where it is due; else the walk goes on. The node stays live.
#[inline(always)]
fn visit<C: NodeLinks, S, B, F: Fn(&mut C, &mut S, IRNode) -> WalkResult<B>>(
    ctx: &mut C,
    state: &mut S,
    root: IRNode,
    node: IRNode,
    due: bool,
    callback: &F,
) -> WalkResult<B>
    requires stands { StandsUnder (C.look ctx.old) root node }
    requires callable { (c : _) (s : _) (n : AnyNode) → StandsUnder (C.look c.now) root n → F.pre callback.now c s n }
    requires lawful { IsLawful C.look root (CallsBack F.Fn callback.now) }
    ensures visited { IsVisited C.look (CallsBack F.Fn callback.now) ctx.old state.old node due result ctx.new
        state.new }
    ensures live { (C.look ctx.new).live node ≡ true }
{
    if !due {
        return walk_advance();
    }
    let answer = callback(ctx, state, node);
    ctx.forest();
    let live = ctx.is_node_live(node);
    prove!(live, "a call erased its own node");
    answer
}

/// The walk from a node of any kind, by one loop over the links: it stops as the root is left.
pub(crate) fn walk<C: NodeLinks, S, B, F: Fn(&mut C, &mut S, IRNode) -> WalkResult<B>>(
    ctx: &mut C,
    state: &mut S,
    config: &WalkConfig,
    root: IRNode,
    limit: u64,
    callback: F,
) -> Result<WalkResult<B>, CallLimit>
    requires root_live { (C.look ctx.old).live root ≡ true }
    requires callable { (c : _) (s : _) (n : AnyNode) → StandsUnder (C.look c.now) root n → F.pre callback c s n }
    requires lawful { IsLawful C.look root (CallsBack F.Fn callback) }
    ensures { Walked C.look config.now (CallsBack F.Fn callback) ctx.old state.old root limit result ctx.new state.new }
{
    ctx.forest();
    // A copy, which no callback can reach: where it is known, the loop has no branch on it.
    let setting = *config;
    let mut left = limit;
    let mut node = root;
    let mut entering = true;
    let mut due = is_due(&setting, root, true);
    'nodes: loop {
        if due {
            if left == 0 {
                return Err(CallLimit);
            }
            left -= 1;
        }
        let answer = match visit(ctx, state, root, node, due, &callback) {
            ControlFlow::Break(b) => return Ok(ControlFlow::Break(b)),
            ControlFlow::Continue(answer) => answer,
        };
        match onward(ctx, &setting, root, node, entering, answer) {
            Some((next, enter, call)) => {
                node = next;
                entering = enter;
                due = call;
            }
            None => return Ok(ControlFlow::Continue(WalkContinue::Advance)),
        }
    }
}
