//! Walkers whose callback may change the context.
#![tactic(auto)]

ghost use Rattle.std.specs.Prelude.{◌≡◌, true};
ghost use Rattle.std.specs.declared.ops.ControlFlow.TheVariants.{Continue};
ghost use Rattle.plir_core.specs.declared.ptr.IRNode.{IRNode as AnyNode};
ghost use Rattle.plir_walk.specs.Lawful.{StandsUnder};
ghost use Rattle.plir_walk.specs.declared.interruptible.WalkContinue.TheVariants.{Advance};
ghost use Rattle.plir_walk.specs.Calls.{Advancing, CallsBack};
ghost use Rattle.plir_walk.specs.Walked.{IsLawful, Walked, plain_answer};

use crate::config::WalkConfig;
use crate::interruptible::{self, WalkResult, walk_advance};
use crate::limit::CallLimit;
use crate::links::NodeLinks;
use plir_core::{BasicBlock, Context, IRNode, Operation, Ptr, Region};

/// A callback as a plain function.
pub type WalkerCallback<D, S> = fn(&mut Context<D>, &mut S, IRNode);

/// Walks an operation and all that is below it, and calls `callback` at each node, in the order of `config`, at most
/// `limit` times. A call may change the tree below its own node: the walk goes on over what stands there after a
/// PreOrder call. Takes no memory.
///
/// # Errors
///
/// [`CallLimit`] where `limit` calls were made, and another one was due.
pub fn walk_op<C: NodeLinks, S, F: Fn(&mut C, &mut S, IRNode)>(
    ctx: &mut C,
    state: &mut S,
    config: &WalkConfig,
    root: Ptr<Operation>,
    limit: u64,
    callback: F,
) -> Result<(), CallLimit>
    requires root_live { (C.look ctx.old).live (IRNode.Operation root) ≡ true }
    requires callable { (c : _) (s : _) (n : AnyNode) → StandsUnder (C.look c.now) (IRNode.Operation root) n →
        F.pre callback c s n }
    requires lawful { IsLawful C.look (IRNode.Operation root) (Advancing (CallsBack F.Fn callback)) }
    ensures { Walked C.look config.now (Advancing (CallsBack F.Fn callback)) ctx.old state.old (IRNode.Operation root)
        limit (plain_answer result) ctx.new state.new }
{
    walk(ctx, state, config, IRNode::Operation(root), limit, callback)
}

/// Walks a region and all that is below it, and calls `callback` at each node, in the order of `config`, at most
/// `limit` times. A call may change the tree below its own node: the walk goes on over what stands there after a
/// PreOrder call. Takes no memory.
///
/// # Errors
///
/// [`CallLimit`] where `limit` calls were made, and another one was due.
pub fn walk_region<C: NodeLinks, S, F: Fn(&mut C, &mut S, IRNode)>(
    ctx: &mut C,
    state: &mut S,
    config: &WalkConfig,
    root: Ptr<Region>,
    limit: u64,
    callback: F,
) -> Result<(), CallLimit>
    requires root_live { (C.look ctx.old).live (IRNode.Region root) ≡ true }
    requires callable { (c : _) (s : _) (n : AnyNode) → StandsUnder (C.look c.now) (IRNode.Region root) n →
        F.pre callback c s n }
    requires lawful { IsLawful C.look (IRNode.Region root) (Advancing (CallsBack F.Fn callback)) }
    ensures { Walked C.look config.now (Advancing (CallsBack F.Fn callback)) ctx.old state.old (IRNode.Region root)
        limit (plain_answer result) ctx.new state.new }
{
    walk(ctx, state, config, IRNode::Region(root), limit, callback)
}

/// Walks a block and all that is below it, and calls `callback` at each node, in the order of `config`, at most `limit`
/// times. A call may change the tree below its own node: the walk goes on over what stands there after a PreOrder call.
/// Takes no memory.
///
/// # Errors
///
/// [`CallLimit`] where `limit` calls were made, and another one was due.
pub fn walk_block<C: NodeLinks, S, F: Fn(&mut C, &mut S, IRNode)>(
    ctx: &mut C,
    state: &mut S,
    config: &WalkConfig,
    root: Ptr<BasicBlock>,
    limit: u64,
    callback: F,
) -> Result<(), CallLimit>
    requires root_live { (C.look ctx.old).live (IRNode.BasicBlock root) ≡ true }
    requires callable { (c : _) (s : _) (n : AnyNode) → StandsUnder (C.look c.now) (IRNode.BasicBlock root) n →
        F.pre callback c s n }
    requires lawful { IsLawful C.look (IRNode.BasicBlock root) (Advancing (CallsBack F.Fn callback)) }
    ensures { Walked C.look config.now (Advancing (CallsBack F.Fn callback)) ctx.old state.old (IRNode.BasicBlock root)
        limit (plain_answer result) ctx.new state.new }
{
    let block = IRNode::BasicBlock(root);
    walk(ctx, state, config, block, limit, callback)
}

/// The walk from a node of any kind: the interruptible one, whose callback always advances.
fn walk<C: NodeLinks, S, F: Fn(&mut C, &mut S, IRNode)>(
    ctx: &mut C,
    state: &mut S,
    config: &WalkConfig,
    root: IRNode,
    limit: u64,
    callback: F,
) -> Result<(), CallLimit>
    requires root_live { (C.look ctx.old).live root ≡ true }
    requires callable { (c : _) (s : _) (n : AnyNode) → StandsUnder (C.look c.now) root n → F.pre callback c s n }
    requires lawful { IsLawful C.look root (Advancing (CallsBack F.Fn callback)) }
    ensures { Walked C.look config.now (Advancing (CallsBack F.Fn callback)) ctx.old state.old root limit
        (plain_answer result) ctx.new state.new }
{
    let advancing = |c: &mut C, s: &mut S, n: IRNode| -> WalkResult<()>
        requires { (d : _) (t : _) → d.now ≡ c.now → F.pre callback d t n }
        ensures answer { result ≡ Continue Advance }
        ensures called { CallsBack F.Fn callback c.old s.old n tt c.new s.new }
    {
        callback(c, s, n);
        walk_advance()
    };
    match interruptible::mutable::walk(ctx, state, config, root, limit, advancing) {
        Ok(_) => Ok(()),
        Err(at_limit) => Err(at_limit),
    }
}
