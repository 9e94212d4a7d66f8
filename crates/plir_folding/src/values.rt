//! Folding of values: uses of results that stand for an operand become uses of that operand.
ghost use Rattle.std.specs.Prelude.{◌≡◌, None, IfOk, IfSome, OnOk, false};
ghost use Rattle.plir_core.specs.declared.ptr.IRNode.{IRNode as AnyNode};
ghost use Rattle.plir_core.specs.declared.value.Value.{Value as AnyValue};
ghost use Rattle.plir_core.specs.Forest.{look, IsBelow};
ghost use Rattle.plir_core.specs.ContextView.{IsLive};
ghost use Rattle.plir_core.specs.ValueUses.{HasUses};
ghost use Rattle.plir_core.specs.WellFormed.{IsWellFormed};
ghost use Rattle.plir_walk.specs.Lawful.{Lawful};
ghost use Rattle.plir_folding.specs.Folded.{result_of};
ghost use Rattle.plir_folding.specs.Identities.{ArePassed, IsLeft};
ghost use Rattle.plir_folding.specs.PassedOn.{IsLookedAt, IsPassedBelow, IsPassedOn};

use crate::identities::left_at;
use crate::identity_set::IdentitySet;
use crate::worklist::{Step, list_below};
use plir_core::laws::{contexts_stand, index_is_slot_and_one};
use plir_core::{Context, IRNode, Operation, Ptr};
use plir_data::Memory;
use plir_walk::WALKCONFIG_PREORDER_FORWARD;
use plir_walk::interruptible::{WalkResult, walk_advance, walk_break};
use plir_walk::laws::lawful_changes;
use plir_walk::operations::immutable::walk_ops;
use std::alloc::Global;
use std::ops::ControlFlow;

// Breaks a walk off at an operation below the root where something is left to be done.
fn look_at<D: IdentitySet>(
    ctx: &Context<D>,
    root: Ptr<Operation>,
    op: Ptr<Operation>,
) -> WalkResult<Ptr<Operation>>
    requires { IsLive ctx.now (AnyNode.Operation op) }
    ensures { IsLookedAt D.is_identity ctx.now root op result }
{
    if op == root {
        return walk_advance();
    }
    match left_at(ctx, op) {
        Some(_) => walk_break(op),
        None => walk_advance(),
    }
}

// An operation below a root where something is left to be done, if there is one.
fn next_left<D: IdentitySet>(ctx: &Context<D>, root: Ptr<Operation>) -> Option<Ptr<Operation>>
    requires { IsLive ctx.now (AnyNode.Operation root) }
    ensures below { IfSome result (λ p. IsBelow (look ctx.now) (AnyNode.Operation root) (AnyNode.Operation p)) }
    ensures left { IfSome result (λ p. (w : AnyValue) × IsLeft D.is_identity ctx.now p w) }
    ensures none { result ≡ None → ArePassed D.is_identity ctx.now (AnyNode.Operation root) }
{
    ctx.stands();
    let mut from = root;
    let look = |c: &Context<D>, r: &mut Ptr<Operation>, p: Ptr<Operation>| -> WalkResult<
        Ptr<Operation>,
    >
        requires { IsLive c.now (AnyNode.Operation p) }
        ensures { IsLookedAt D.is_identity c.now root p result }
    { look_at(c, root, p) };
    match walk_ops(
        ctx,
        &mut from,
        &WALKCONFIG_PREORDER_FORWARD,
        IRNode::Operation(root),
        look,
    ) {
        ControlFlow::Break(op) => Some(op),
        ControlFlow::Continue(_) => None,
    }
}

// Puts what the result of an operation stands for in its place, wherever it is used, if that is another value.
fn pass_on<D: IdentitySet>(ctx: &mut Context<D>, op: Ptr<Operation>)
    requires { IsLive ctx.old (AnyNode.Operation op) }
    ensures below { (n : AnyNode) → IsPassedBelow D.is_identity D.attr_handles ctx.old n ctx.new }
    ensures gone { (w : AnyValue) → IsLeft D.is_identity ctx.old op w → HasUses ctx.new (result_of op) → ⊥ }
{
    lawful_changes::<D>();
    ctx.stands();
    if let Some(value) = left_at(ctx, op) {
        op.get_result(ctx, 0).replace_all_uses_with(ctx, value);
    }
}

// Passes on the uses of the results of operations below a root, those of each behind those of what makes its operands.
fn pass_on_makers_first<D: IdentitySet>(
    alloc: Global,
    ctx: &mut Context<D>,
    root: Ptr<Operation>,
) -> Result<(), Memory>
    requires { IsLive ctx.old (AnyNode.Operation root) }
    ensures { IsPassedBelow D.is_identity D.attr_handles ctx.old (AnyNode.Operation root) ctx.new }
{
    lawful_changes::<D>();
    ctx.stands();
    let mut list = list_below(alloc, ctx, root)?;
    'steps: while let Some(step) = list.take() {
        match step {
            Step::Prepare(op) => list.prepare(ctx, op)?,
            Step::Fold(op) => pass_on(ctx, op),
        }
    }
    Ok(())
}

/// Folds values below an operation until none is left to be folded: where the result of an operation there stands for
/// another value, which is one of its operands, as that of `x + 0` for `x`, that value takes its place wherever it is
/// used. An operation of an own kind with two operands and one result stands for one of them where the other one is a
/// constant integer, its kind says that the identity holds at that ([`IdentitySet`]), and the types are the same. So
/// operands alone change, and each has become a value that the kinds say is the same one. The operations stay where
/// they are; those that nothing uses any more dead code elimination takes. In whatever order operations are laid out,
/// there are three walks of the tree at most: one finds an operation that is to be folded, then the operations are
/// listed and each is folded behind those that make its operands, and a last walk sees that all is done. What an
/// operation stands for is looked up by its operands alone, and a replacement looks at the users of the one value.
///
/// A result that stands for itself, by an operation that uses it, stays. Answers whether any operand has changed.
///
/// # Errors
///
/// [`Memory`] where there is none to list operations; what was folded before stays.
pub fn fold_values<D: IdentitySet>(
    alloc: Global,
    ctx: &mut Context<D>,
    root: Ptr<Operation>,
) -> Result<bool, Memory>
    requires { IsLive ctx.old (AnyNode.Operation root) }
    ensures unchanged { IfOk result (λ any. any ≡ false → ctx.new ≡ ctx.old) }
    ensures settled { OnOk result (ArePassed D.is_identity ctx.new (AnyNode.Operation root)) }
    ensures passed { IsPassedOn D.is_identity ctx.old ctx.new }
    ensures lawful { Lawful (look ctx.old) (AnyNode.Operation root) (look ctx.new) }
    ensures whole { IsWellFormed D.attr_handles ctx.new }
{
    lawful_changes::<D>();
    contexts_stand::<D>();
    ctx.stands();
    let mut any = false;
    'left: while let Some(op) = next_left(ctx, root) {
        index_is_slot_and_one(ctx);
        pass_on(ctx, op);
        pass_on_makers_first(alloc, ctx, root)?;
        any = true;
    }
    Ok(any)
}
