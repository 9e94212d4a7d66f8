//! A walker of operations whose callback may change the context.
#![tactic(auto)]

ghost use Rattle.std.specs.Prelude.{◌≡◌, true};
ghost use Rattle.plir_walk.specs.Lawful.{StandsUnder};
ghost use Rattle.plir_walk.specs.Calls.{CallsBack};
ghost use Rattle.plir_walk.specs.OperationWalks.{AtEachNode, IsLawfulAtOperations, WalkedOperationsWithin};

use crate::config::WalkConfig;
use crate::interruptible::{self, WalkResult, walk_advance};
use crate::limit::CallLimit;
use crate::links::NodeLinks;
use plir_core::{Context, IRNode, Operation, Ptr};

/// A callback as a plain function.
pub type OperationCallback<D, S, B> = fn(&mut Context<D>, &mut S, Ptr<Operation>) -> WalkResult<B>;

/// Walks a node and all that is below it, and calls `callback` at each operation that no skip leaves out, in the order
/// of `config`; at regions and blocks nothing is called. It comes to at most `limit` nodes, of any kind. A call may
/// change the tree below its own operation: the walk goes on over what stands there after a PreOrder call. Answers
/// `Break(b)` where the last call did, else `Continue(Advance)`. Takes no memory.
///
/// # Errors
///
/// [`CallLimit`] where the walk came to `limit` nodes, no call broke it, and another node was due.
pub fn walk_ops<C: NodeLinks, S, B, F: Fn(&mut C, &mut S, Ptr<Operation>) -> WalkResult<B>>(
    ctx: &mut C,
    state: &mut S,
    config: &WalkConfig,
    root: IRNode,
    limit: u64,
    callback: F,
) -> Result<WalkResult<B>, CallLimit>
    requires root_live { (C.look ctx.old).live root ≡ true }
    requires callable { (c : _) (s : _) (p : _) → StandsUnder (C.look c.now) root (IRNode.Operation p) →
        F.pre callback c s p }
    requires lawful { IsLawfulAtOperations C.look root (CallsBack F.Fn callback) }
    ensures { WalkedOperationsWithin C.look config.now (CallsBack F.Fn callback) ctx.old state.old root limit result
        ctx.new state.new }
{
    let at_each_node = |c: &mut C, s: &mut S, node: IRNode| -> WalkResult<B>
        requires { (d : _) (t : _) (p : _) → d.now ≡ c.now → node ≡ IRNode.Operation p → F.pre callback d t p }
        ensures { AtEachNode (CallsBack F.Fn callback) c.old s.old node result c.new s.new }
    {
        match node {
            IRNode::Operation(op) => callback(c, s, op),
            IRNode::BasicBlock(_) | IRNode::Region(_) => walk_advance(),
        }
    };
    interruptible::mutable::walk(ctx, state, config, root, limit, at_each_node)
}
