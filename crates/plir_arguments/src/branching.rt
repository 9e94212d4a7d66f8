//! Branches that are turned to another block.
ghost use Rattle.std.specs.Prelude.{◌≡◌, ◌<◌, ℕ, length, true};
ghost use Rattle.plir_core.specs.ContextView.{IsLive, arg_types_of};
ghost use Rattle.plir_core.specs.declared.ptr.IRNode.{IRNode as AnyNode};
ghost use Rattle.plir_core.specs.WellFormed.{IsWellFormed};
ghost use Rattle.plir_flow.specs.Branches.{num_successors};
ghost use Rattle.plir_flow_sets.specs.Branches.{forwarded_to};
ghost use Rattle.plir_arguments.specs.Dropped.{CanForwardLess};
ghost use Rattle.plir_arguments.specs.Removed.{IsOpChanged, is_told};
ghost use Rattle.plir_arguments.specs.Turned.{AreTurned, AreUses, GoesTo, IsTurned};

use crate::branch_edit_set::BranchEditSet;
use plir_core::laws::op_edits_keep_the_rest;
use plir_core::{BasicBlock, Context, Operation, Ptr, Use};

// Turns an operation from its successor at a place to another block, to which it forwards no value for the argument at
// `arg`.
fn turn_branch<D: BranchEditSet>(
    ctx: &mut Context<D>,
    op: Ptr<Operation>,
    place: usize,
    arg: usize,
    block: Ptr<BasicBlock>,
)
    requires live { IsLive ctx.old (AnyNode.Operation op) }
    requires block_live { IsLive ctx.old (AnyNode.BasicBlock block) }
    requires below { place < num_successors ctx.old op }
    requires removes { is_told (D.removes place) ctx.old op ≡ true }
    requires within { arg < length (forwarded_to D.forwards ctx.old op place) }
    ensures turned { IsOpChanged ctx.old ctx.new op (IsTurned D.layout_keys D.forwards block arg place) }
    ensures whole { IsWellFormed D.attr_handles ctx.new }
{
    D::remove_forwarded(ctx, op, place, arg);
    op_edits_keep_the_rest(ctx, op);
    op.set_successor(ctx, place, block);
}

// The same at a use of the block that it branched to.
fn turn_use<D: BranchEditSet>(
    ctx: &mut Context<D>,
    used: Use<Ptr<BasicBlock>>,
    arg: usize,
    block: Ptr<BasicBlock>,
)
    requires live { IsLive ctx.old (AnyNode.Operation used.op) }
    requires block_live { IsLive ctx.old (AnyNode.BasicBlock block) }
    requires below { used.index < num_successors ctx.old used.op }
    requires removes { is_told (D.removes used.index) ctx.old used.op ≡ true }
    requires within { arg < length (forwarded_to D.forwards ctx.old used.op used.index) }
    ensures turned { IsOpChanged ctx.old ctx.new used.op (IsTurned D.layout_keys D.forwards block arg used.index) }
    ensures whole { IsWellFormed D.attr_handles ctx.new }
{
    turn_branch(ctx, used.branch_op(), used.succ_idx(), arg, block);
}

/// Turns the operations that branch to a block to another one, to which they forward no value for the argument at
/// `arg`.
pub(crate) fn turn_branches<D: BranchEditSet>(
    ctx: &mut Context<D>,
    uses: &[Use<Ptr<BasicBlock>>],
    block: Ptr<BasicBlock>,
    arg: usize,
    other: Ptr<BasicBlock>,
)
    requires uses { AreUses ctx.old block uses.now }
    requires other_live { IsLive ctx.old (AnyNode.BasicBlock other) }
    requires below { arg < length (arg_types_of ctx.old block) }
    requires branches { (p : _) (k : ℕ) → IsLive ctx.old (AnyNode.Operation p) → GoesTo ctx.old p k block →
        CanForwardLess D.removes D.forwards ctx.old block p k }
    ensures turned { AreTurned D.layout_keys D.forwards ctx.old ctx.new block other arg }
    ensures whole { IsWellFormed D.attr_handles ctx.new }
{
    ctx.stands();
    for used in uses {
        turn_use(ctx, *used, arg, other);
    }
}
