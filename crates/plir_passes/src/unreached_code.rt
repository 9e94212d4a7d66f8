//! Elimination of operations that are not reached.
ghost use Rattle.std.specs.Prelude.{◌≡◌, ◌≢◌, [], None, OnErr, OnOk};
ghost use Rattle.plir_store.specs.Members.{Has};
ghost use Rattle.plir_core.specs.declared.ptr.IRNode.{IRNode as AnyNode};
ghost use Rattle.plir_core.specs.ContextView.{IsLive, operands_of, parent_of, successors_of};
ghost use Rattle.plir_core.specs.Forest.{look};
ghost use Rattle.plir_core.specs.Unused.{IsUnusedOutside};
ghost use Rattle.plir_walk.specs.Lawful.{Lawful};
ghost use Rattle.plir_passes.specs.Cutting.{AreErased, IsCut, IsLoose, UsesNothing};
ghost use Rattle.plir_passes.specs.Dead.{HasNoDead};
ghost use Rattle.plir_passes.specs.Marked.{IsWhole};
ghost use Rattle.plir_passes.specs.Reached.{AreAllReached, IsReachedLeft};

use crate::effects::EffectSet;
use crate::marks::Marks;
use crate::reaching::{ops_under, reached_ops};
use plir_core::laws::op_edits_keep_the_rest;
use plir_core::{BasicBlock, Context, Operation, Ptr};
use plir_data::Memory;
use plir_walk::laws::{erasures_thin, lawful_changes};
use std::alloc::Global;

// Takes all operands of an operation out.
fn drop_operands<D: EffectSet>(ctx: &mut Context<D>, op: Ptr<Operation>)
    requires { IsLive ctx.old (AnyNode.Operation op) }
    ensures cut { IsCut (λ q. q ≡ op) ctx.old ctx.new }
    ensures none { operands_of ctx.new op ≡ [] }
{
    let mut left = op.get_num_operands(ctx);
    'operands: while left > 0 {
        left -= 1;
        op_edits_keep_the_rest(ctx, op);
        op.remove_operand(ctx, left);
    }
}

// Puts one block in place of all successors of an operation.
fn turn_successors<D: EffectSet>(ctx: &mut Context<D>, op: Ptr<Operation>, block: Ptr<BasicBlock>)
    requires live { IsLive ctx.old (AnyNode.Operation op) }
    requires block_live { IsLive ctx.old (AnyNode.BasicBlock block) }
    ensures cut { IsCut (λ q. q ≡ op) ctx.old ctx.new }
    ensures all { (b : _) → Has (successors_of ctx.new op) b → b ≡ block }
    ensures operands { operands_of ctx.new op ≡ operands_of ctx.old op }
{
    let count = op.get_num_successors(ctx);
    for place in 0..count {
        op_edits_keep_the_rest(ctx, op);
        op.set_successor(ctx, place, block);
    }
}

// Lets an operation that stands in a block go of what it uses.
fn cut_op<D: EffectSet>(ctx: &mut Context<D>, op: Ptr<Operation>)
    requires live { IsLive ctx.old (AnyNode.Operation op) }
    requires in_block { parent_of ctx.old (AnyNode.Operation op) ≢ None }
    ensures cut { IsCut (λ q. q ≡ op) ctx.old ctx.new }
    ensures none { UsesNothing ctx.new op }
{
    drop_operands(ctx, op);
    match op.get_parent_block(ctx) {
        Some(block) => turn_successors(ctx, op, block),
        None => unreachable!(),
    }
}

// Lets those of some operations that are not reached go of what they use.
fn cut_all<D: EffectSet>(ctx: &mut Context<D>, under: &Marks, reached: &Marks)
    requires whole { IsWhole reached.now }
    requires live { (q : _) → IsLoose under.now reached.now q → IsLive ctx.old (AnyNode.Operation q) }
    requires in_block { (q : _) → IsLoose under.now reached.now q → parent_of ctx.old (AnyNode.Operation q) ≢ None }
    ensures cut { IsCut (IsLoose under.now reached.now) ctx.old ctx.new }
    ensures none { (q : _) → IsLoose under.now reached.now q → UsesNothing ctx.new q }
{
    for place in 0..under.len() {
        let op = under.at(place);
        if !reached.contains(op) {
            cut_op(ctx, op);
        }
    }
}

// Erases an operation with all below it, if it is live.
fn erase_live<D: EffectSet>(ctx: &mut Context<D>, op: Ptr<Operation>)
    requires { IsLive ctx.old (AnyNode.Operation op) → IsUnusedOutside ctx.old (AnyNode.Operation op) }
    ensures { AreErased (λ q. q ≡ op) ctx.old ctx.new }
{
    lawful_changes::<D>();
    erasures_thin(ctx);
    ctx.stands();
    if op.is_live(ctx) {
        Operation::erase(op, ctx);
    }
}

// Erases those of some operations that are not reached, each with all below it.
fn erase_all<D: EffectSet>(ctx: &mut Context<D>, under: &Marks, reached: &Marks)
    requires whole { IsWhole reached.now }
    requires unused { (q : _) → IsLoose under.now reached.now q → IsUnusedOutside ctx.old (AnyNode.Operation q) }
    ensures { AreErased (IsLoose under.now reached.now) ctx.old ctx.new }
{
    ctx.stands();
    for place in 0..under.len() {
        let op = under.at(place);
        if !reached.contains(op) {
            erase_live(ctx, op);
        }
    }
}

/// Erases what is not reached from an operation, of the operations below it, each with all that stands below that.
/// Reached is the operation itself, and each below it that does something besides its results; and of a reached one all
/// that it needs: what its operands come from, the operations whose blocks are its successors, the one that it stands
/// in, and what ends its blocks. So operations go in whose regions nothing has an effect, and operations that use one
/// another alone, also in a circle. All else stays as it was, in its order. In which order nodes are freed is left
/// open, and so is which free slot is used next.
///
/// Nothing outside may use a value or a block of the operation's tree, as `IRNode::is_unused_outside` tells. One walk
/// lists what stands below the operation, and each operation that is reached is looked at once. What goes lets go of
/// its operands and successors first, so that nothing has to be asked about uses.
///
/// # Errors
///
/// [`Memory`] where there is none for the lists of what stands below the operation and of what is reached; then nothing
/// has changed.
pub fn eliminate_unreached_code<D: EffectSet>(
    alloc: Global,
    ctx: &mut Context<D>,
    root: Ptr<Operation>,
) -> Result<(), Memory>
    requires live { IsLive ctx.old (AnyNode.Operation root) }
    requires unused { IsUnusedOutside ctx.old (AnyNode.Operation root) }
    ensures left { OnOk result (IsReachedLeft D.has_effect D.is_terminator ctx.old root ctx.new) }
    ensures clean { OnOk result (AreAllReached D.has_effect D.is_terminator ctx.new root) }
    ensures none_dead { OnOk result (HasNoDead D.has_effect D.is_terminator ctx.new (AnyNode.Operation root)) }
    ensures lawful { Lawful (look ctx.old) (AnyNode.Operation root) (look ctx.new) }
    ensures err { OnErr result (ctx.new ≡ ctx.old) }
{
    ctx.stands();
    lawful_changes::<D>();
    let under = ops_under(alloc, ctx, root)?;
    let reached = reached_ops(alloc, ctx, root, &under)?;
    cut_all(ctx, &under, &reached);
    erase_all(ctx, &under, &reached);
    ctx.stands();
    Ok(())
}
