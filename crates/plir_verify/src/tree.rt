//! Verifying an operation and all below it.
ghost use Rattle.std.specs.Prelude.{IfErr, OnOk};
ghost use Rattle.plir_core.specs.ContextView.{IsLive};
ghost use Rattle.plir_core.specs.declared.ptr.IRNode.{IRNode as AnyNode};
ghost use Rattle.plir_verify.specs.Rules.{AllHaveRules};
ghost use Rattle.plir_verify.specs.RuleRefusals.{IsCallVerdict, IsTreeRefusal};

use crate::holding::verify_held;
use crate::tree_err::TreeVerifyErr;
use crate::verify_set::VerifySet;
use plir_core::{Context, IRNode, Operation, Ptr};
use plir_data::{OpSet, VerifyErr};
use plir_walk::WALKCONFIG_PREORDER_FORWARD;
use plir_walk::interruptible::{WalkResult, walk_advance, walk_break};
use plir_walk::laws::before_is_a_total_order;
use plir_walk::operations::immutable::walk_ops;
use std::alloc::Global;
use std::ops::ControlFlow;

// Why an operation is refused, as a walk breaks with it.
#[derive(Drop)]
struct RefusedOp<D: OpSet> {
    why: VerifyErr<TreeVerifyErr<D::Err>>,
}

// Breaks a walk off at an operation that is refused.
fn look_at<D: VerifySet>(
    alloc: Global,
    ctx: &Context<D>,
    op: Ptr<Operation>,
) -> WalkResult<RefusedOp<D>>
    requires { IsLive ctx.now (AnyNode.Operation op) }
    ensures { IsCallVerdict D.OpSet D.uses_hold D.use_refusal D.rule D.rule_refusal ctx.now (λ r. r.why) op result }
{
    match verify_held(alloc, ctx, op) {
        Ok(()) => walk_advance(),
        Err(why) => walk_break(RefusedOp { why }),
    }
}

/// Verifies an operation and all below it, parents first: each by the verifier of its kind, builtin or own, and then
/// the attributes that it holds. Accepts exactly where all have their rules and hold valid attributes, memory aside.
/// Else reports the first refusal, in the order of the places, with the location of its operation.
pub fn verify_tree<D: VerifySet>(
    alloc: Global,
    ctx: &Context<D>,
    root: Ptr<Operation>,
) -> Result<(), VerifyErr<TreeVerifyErr<D::Err>>>
    requires { IsLive ctx.now (AnyNode.Operation root) }
    ensures ok { OnOk result (AllHaveRules D.OpSet D.uses_hold D.rule ctx.now root) }
    ensures refused { IfErr result (IsTreeRefusal D.OpSet D.uses_hold D.use_refusal D.rule D.rule_refusal ctx.now root) }
{
    before_is_a_total_order();
    let verify = |ctx: &Context<D>, alloc: &mut Global, op: Ptr<Operation>| -> WalkResult<
        RefusedOp<D>,
    >
        requires { IsLive ctx.now (AnyNode.Operation op) }
        ensures { IsCallVerdict D.OpSet D.uses_hold D.use_refusal D.rule D.rule_refusal ctx.now (λ r. r.why) op result }
    { look_at(*alloc, ctx, op) };
    let mut state = alloc;
    let config = WALKCONFIG_PREORDER_FORWARD;
    match walk_ops(ctx, &mut state, &config, IRNode::Operation(root), verify) {
        ControlFlow::Break(RefusedOp { why }) => Err(why),
        ControlFlow::Continue(_) => Ok(()),
    }
}
