//! What results stand for: the operands that operations hand on.
ghost use Rattle.std.specs.Prelude.{◌≡◌, None, IfSome};
ghost use Rattle.plir_core.specs.declared.ptr.IRNode.{IRNode as AnyNode};
ghost use Rattle.plir_core.specs.ContextView.{IsLive, IsValueLive, op_at, operands_of};
ghost use Rattle.plir_folding.specs.Worth.{constant_of};
ghost use Rattle.plir_folding.specs.Identities.{is_met, kept_of, stands_in, IsLeft, IsPassed};

use crate::identity_set::{IdentitySet, Side};
use crate::reading::constant_of;
use plir_core::{Context, Operation, Ptr, Value};
use plir_data::OpKind;

// Whether an operand at a side is a constant at which the identity of a kind holds.
fn holds_at<D: IdentitySet>(ctx: &Context<D>, kind: D::Kind, side: Side, operand: Value) -> bool
    requires { IsValueLive ctx.now operand }
    ensures { result ≡ is_met (D.is_identity kind side) (constant_of ctx.now operand) }
{
    match constant_of(ctx, operand) {
        Some(constant) => D::is_identity(kind, side, &constant),
        None => false,
    }
}

// The operand that an operation of a kind hands on, if it does.
fn kept_operand<D: IdentitySet>(
    ctx: &Context<D>,
    op: Ptr<Operation>,
    kind: D::Kind,
) -> Option<Value>
    requires { IsLive ctx.now (AnyNode.Operation op) }
    ensures value { result ≡ kept_of (D.is_identity kind) (constant_of ctx.now) (operands_of ctx.now op) }
    ensures live { IfSome result (IsValueLive ctx.now) }
{
    if op.get_num_operands(ctx) != 2 {
        return None;
    }
    let (left, right) = (op.get_operand(ctx, 0), op.get_operand(ctx, 1));
    if holds_at(ctx, kind, Side::Right, right) {
        return Some(left);
    }
    if holds_at(ctx, kind, Side::Left, left) {
        return Some(right);
    }
    None
}

// What the result of an operation stands for, if it does.
fn stands_for<D: IdentitySet>(ctx: &Context<D>, op: Ptr<Operation>) -> Option<Value>
    requires { IsLive ctx.now (AnyNode.Operation op) }
    ensures value { result ≡ stands_in D.is_identity ctx.now (op_at ctx.now op) }
    ensures live { IfSome result (IsValueLive ctx.now) }
{
    let OpKind::Own(kind) = op.kind(ctx) else {
        return None;
    };
    let Some(value) = kept_operand(ctx, op, kind) else {
        return None;
    };
    if op.get_num_results(ctx) != 1 || op.get_type(ctx, 0) != value.get_type(ctx) {
        return None;
    }
    Some(value)
}

/// The other value that the result of an operation stands for, if it does, and is used.
pub(crate) fn left_at<D: IdentitySet>(ctx: &Context<D>, op: Ptr<Operation>) -> Option<Value>
    requires { IsLive ctx.now (AnyNode.Operation op) }
    ensures left { IfSome result (λ w. IsLeft D.is_identity ctx.now op w) }
    ensures live { IfSome result (IsValueLive ctx.now) }
    ensures none { result ≡ None → IsPassed D.is_identity ctx.now op }
{
    let Some(value) = stands_for(ctx, op) else {
        return None;
    };
    let result = op.get_result(ctx, 0);
    if value == result || !result.has_uses(ctx) {
        return None;
    }
    Some(value)
}
