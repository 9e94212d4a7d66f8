//! A walker of operations whose callback reads the context.
#![tactic(auto)]

ghost use Rattle.std.specs.Prelude.{◌≡◌, true};
ghost use Rattle.plir_walk.specs.Lawful.{StandsUnder};
ghost use Rattle.plir_walk.specs.Calls.{ReadsBack};
ghost use Rattle.plir_walk.specs.OperationWalks.{AtEachNode, WalkedOperations};
ghost use Rattle.plir_walk.specs.Step.{IsVisited};

use crate::config::WalkConfig;
use crate::cursor::is_due;
use crate::interruptible::{WalkContinue, WalkResult, walk_advance};
use crate::links::NodeLinks;
use crate::operations::hop::onward;
use plir_core::{Context, IRNode, Operation, Ptr};
use std::ops::ControlFlow;

/// A callback as a plain function.
pub type OperationCallback<D, S, B> = fn(&Context<D>, &mut S, Ptr<Operation>) -> WalkResult<B>;

/// Calls the callback at an operation where it is due; else the walk goes on.
#[inline(always)]
fn visit<C: NodeLinks, S, B, F: Fn(&C, &mut S, Ptr<Operation>) -> WalkResult<B>>(
    ctx: &C,
    state: &mut S,
    root: IRNode,
    node: IRNode,
    due: bool,
    callback: &F,
) -> WalkResult<B>
    requires stands { StandsUnder (C.look ctx.now) root node }
    requires callable { (c : _) (s : _) (p : _) → c.now ≡ ctx.now →
        StandsUnder (C.look ctx.now) root (IRNode.Operation p) → F.pre callback.now c s p }
    ensures { IsVisited C.look (AtEachNode (ReadsBack F.Fn callback.now)) ctx.now state.old node due result ctx.now
        state.new }
{
    if !due {
        return walk_advance();
    }
    ctx.forest();
    match node {
        IRNode::Operation(op) => callback(ctx, state, op),
        IRNode::BasicBlock(_) | IRNode::Region(_) => walk_advance(),
    }
}

/// Walks a node and all that is below it, and calls `callback` at each operation that no skip leaves out, in the order
/// of `config`; at regions and blocks nothing is called. Answers `Break(b)` where the last call did, else
/// `Continue(Advance)`. Takes no memory.
pub fn walk_ops<C: NodeLinks, S, B, F: Fn(&C, &mut S, Ptr<Operation>) -> WalkResult<B>>(
    ctx: &C,
    state: &mut S,
    config: &WalkConfig,
    root: IRNode,
    callback: F,
) -> WalkResult<B>
    requires root_live { (C.look ctx.now).live root ≡ true }
    requires callable { (c : _) (s : _) (p : _) → c.now ≡ ctx.now →
        StandsUnder (C.look ctx.now) root (IRNode.Operation p) → F.pre callback c s p }
    ensures { WalkedOperations C.look config.now (ReadsBack F.Fn callback) ctx.now state.old root result state.new }
{
    ctx.forest();
    // A copy, which no callback can reach: where it is known, the loop has no branch on it.
    let setting = *config;
    let mut node = root;
    let mut entering = true;
    let mut due = is_due(&setting, root, true);
    'nodes: loop {
        let answer = match visit(ctx, state, root, node, due, &callback) {
            ControlFlow::Break(b) => return ControlFlow::Break(b),
            ControlFlow::Continue(answer) => answer,
        };
        match onward(ctx, &setting, root, node, entering, answer) {
            Some((next, enter, call)) => {
                node = next;
                entering = enter;
                due = call;
            }
            None => return ControlFlow::Continue(WalkContinue::Advance),
        }
    }
}
