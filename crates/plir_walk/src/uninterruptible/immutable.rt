//! Walkers whose callback reads the context.
#![tactic(auto)]

ghost use Rattle.std.specs.Prelude.{◌≡◌, true};
ghost use Rattle.std.specs.declared.ops.ControlFlow.TheVariants.{Continue};
ghost use Rattle.plir_core.specs.declared.ptr.IRNode.{IRNode as AnyNode};
ghost use Rattle.plir_walk.specs.Lawful.{StandsUnder};
ghost use Rattle.plir_walk.specs.declared.interruptible.WalkContinue.TheVariants.{Advance};
ghost use Rattle.plir_walk.specs.Calls.{Advancing, ReadsBack};
ghost use Rattle.plir_walk.specs.Walked.{WalkedOver};

use crate::config::WalkConfig;
use crate::interruptible::{self, WalkResult, walk_advance};
use crate::links::NodeLinks;
use plir_core::{BasicBlock, Context, IRNode, Operation, Ptr, Region};

/// A callback as a plain function.
pub type WalkerCallback<D, S> = fn(&Context<D>, &mut S, IRNode);

/// Walks an operation and all that is below it, and calls `callback` at each node, in the order of `config`. Takes no
/// memory.
pub fn walk_op<C: NodeLinks, S, F: Fn(&C, &mut S, IRNode)>(
    ctx: &C,
    state: &mut S,
    config: &WalkConfig,
    root: Ptr<Operation>,
    callback: F,
)
    requires root_live { (C.look ctx.now).live (IRNode.Operation root) ≡ true }
    requires callable { (c : _) (s : _) (n : AnyNode) → c.now ≡ ctx.now →
        StandsUnder (C.look ctx.now) (IRNode.Operation root) n → F.pre callback c s n }
    ensures { WalkedOver C.look config.now (Advancing (ReadsBack F.Fn callback)) ctx.now state.old
        (IRNode.Operation root) (Continue Advance) state.new }
{
    walk(ctx, state, config, IRNode::Operation(root), callback);
}

/// Walks a region and all that is below it, and calls `callback` at each node, in the order of `config`. Takes no
/// memory.
pub fn walk_region<C: NodeLinks, S, F: Fn(&C, &mut S, IRNode)>(
    ctx: &C,
    state: &mut S,
    config: &WalkConfig,
    root: Ptr<Region>,
    callback: F,
)
    requires root_live { (C.look ctx.now).live (IRNode.Region root) ≡ true }
    requires callable { (c : _) (s : _) (n : AnyNode) → c.now ≡ ctx.now →
        StandsUnder (C.look ctx.now) (IRNode.Region root) n → F.pre callback c s n }
    ensures { WalkedOver C.look config.now (Advancing (ReadsBack F.Fn callback)) ctx.now state.old (IRNode.Region root)
        (Continue Advance) state.new }
{
    walk(ctx, state, config, IRNode::Region(root), callback);
}

/// Walks a block and all that is below it, and calls `callback` at each node, in the order of `config`. Takes no
/// memory.
pub fn walk_block<C: NodeLinks, S, F: Fn(&C, &mut S, IRNode)>(
    ctx: &C,
    state: &mut S,
    config: &WalkConfig,
    root: Ptr<BasicBlock>,
    callback: F,
)
    requires root_live { (C.look ctx.now).live (IRNode.BasicBlock root) ≡ true }
    requires callable { (c : _) (s : _) (n : AnyNode) → c.now ≡ ctx.now →
        StandsUnder (C.look ctx.now) (IRNode.BasicBlock root) n → F.pre callback c s n }
    ensures { WalkedOver C.look config.now (Advancing (ReadsBack F.Fn callback)) ctx.now state.old
        (IRNode.BasicBlock root) (Continue Advance) state.new }
{
    walk(ctx, state, config, IRNode::BasicBlock(root), callback);
}

/// The walk from a node of any kind: the interruptible one, whose callback always advances.
fn walk<C: NodeLinks, S, F: Fn(&C, &mut S, IRNode)>(
    ctx: &C,
    state: &mut S,
    config: &WalkConfig,
    root: IRNode,
    callback: F,
)
    requires root_live { (C.look ctx.now).live root ≡ true }
    requires callable { (c : _) (s : _) (n : AnyNode) → c.now ≡ ctx.now → StandsUnder (C.look ctx.now) root n →
        F.pre callback c s n }
    ensures { WalkedOver C.look config.now (Advancing (ReadsBack F.Fn callback)) ctx.now state.old root
        (Continue Advance) state.new }
{
    let advancing = |c: &C, s: &mut S, n: IRNode| -> WalkResult<()>
        requires { (d : _) (t : _) → d.now ≡ c.now → F.pre callback d t n }
        ensures answer { result ≡ Continue Advance }
        ensures called { ReadsBack F.Fn callback c.now s.old n tt c.now s.new }
    {
        callback(c, s, n);
        walk_advance()
    };
    let _end = interruptible::immutable::walk(ctx, state, config, root, advancing);
}
