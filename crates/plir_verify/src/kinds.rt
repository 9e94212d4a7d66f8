//! Verifying an operation by the verifier of its kind.
ghost use Rattle.std.specs.Prelude.{◌≡◌, Some};
ghost use Rattle.plir_data.specs.declared.op_set.OpKind.{OpKind as AnyKind};
ghost use Rattle.plir_core.specs.ContextView.{IsLive, kind_of};
ghost use Rattle.plir_core.specs.declared.ptr.IRNode.{IRNode as AnyNode};
ghost use Rattle.plir_verify.specs.RuleRefusals.{IsKindVerdict, IsOwn};

use crate::tree_err::{TreeVerifyErr, of_builtin, of_own};
use crate::verify_set::VerifySet;
use plir_builtin::{ConstantOp, ForwardRefOp, FuncOp, ModuleOp};
use plir_core::{Context, Operation, Ptr};
use plir_data::{OpKind, VerifyErr};
use std::alloc::Global;

// Verifies a module.
fn verify_module<D: VerifySet>(
    alloc: Global,
    ctx: &Context<D>,
    op: Ptr<Operation>,
) -> Result<(), VerifyErr<TreeVerifyErr<D::Err>>>
    requires live { IsLive ctx.now (AnyNode.Operation op) }
    requires of_kind { kind_of ctx.now op ≡ Some AnyKind.Module }
    ensures { IsKindVerdict D.OpSet D.uses_hold D.use_refusal D.rule D.rule_refusal ctx.now op result }
{
    match ModuleOp::from_operation(ctx, op) {
        Some(module) => of_builtin(module.verify_interfaces(alloc, ctx)),
        None => unreachable!(),
    }
}

// Verifies a function.
fn verify_func<D: VerifySet>(
    ctx: &Context<D>,
    op: Ptr<Operation>,
) -> Result<(), VerifyErr<TreeVerifyErr<D::Err>>>
    requires live { IsLive ctx.now (AnyNode.Operation op) }
    requires of_kind { kind_of ctx.now op ≡ Some AnyKind.Func }
    ensures { IsKindVerdict D.OpSet D.uses_hold D.use_refusal D.rule D.rule_refusal ctx.now op result }
{
    match FuncOp::from_operation(ctx, op) {
        Some(func) => of_builtin(func.verify_interfaces(ctx)),
        None => unreachable!(),
    }
}

// Verifies a constant.
fn verify_constant<D: VerifySet>(
    alloc: Global,
    ctx: &Context<D>,
    op: Ptr<Operation>,
) -> Result<(), VerifyErr<TreeVerifyErr<D::Err>>>
    requires live { IsLive ctx.now (AnyNode.Operation op) }
    requires of_kind { kind_of ctx.now op ≡ Some AnyKind.Constant }
    ensures { IsKindVerdict D.OpSet D.uses_hold D.use_refusal D.rule D.rule_refusal ctx.now op result }
{
    match ConstantOp::from_operation(ctx, op) {
        Some(constant) => of_builtin(constant.verify_interfaces(alloc, ctx)),
        None => unreachable!(),
    }
}

// Refuses a forward reference.
fn verify_forward_ref<D: VerifySet>(
    alloc: Global,
    ctx: &Context<D>,
    op: Ptr<Operation>,
) -> Result<(), VerifyErr<TreeVerifyErr<D::Err>>>
    requires live { IsLive ctx.now (AnyNode.Operation op) }
    requires of_kind { kind_of ctx.now op ≡ Some AnyKind.ForwardRef }
    ensures { IsKindVerdict D.OpSet D.uses_hold D.use_refusal D.rule D.rule_refusal ctx.now op result }
{
    match ForwardRefOp::from_operation(ctx, op) {
        Some(forward_ref) => of_builtin(forward_ref.verify_interfaces(alloc, ctx)),
        None => unreachable!(),
    }
}

// Verifies an operation of an own kind.
fn verify_own<D: VerifySet>(
    alloc: Global,
    ctx: &Context<D>,
    op: Ptr<Operation>,
) -> Result<(), VerifyErr<TreeVerifyErr<D::Err>>>
    requires live { IsLive ctx.now (AnyNode.Operation op) }
    requires of_kind { IsOwn ctx.now op }
    ensures { IsKindVerdict D.OpSet D.uses_hold D.use_refusal D.rule D.rule_refusal ctx.now op result }
{
    of_own(D::verify_op(alloc, ctx, op))
}

/// Verifies an operation by the verifier of its kind.
pub(crate) fn verify_kind<D: VerifySet>(
    alloc: Global,
    ctx: &Context<D>,
    op: Ptr<Operation>,
) -> Result<(), VerifyErr<TreeVerifyErr<D::Err>>>
    requires { IsLive ctx.now (AnyNode.Operation op) }
    ensures { IsKindVerdict D.OpSet D.uses_hold D.use_refusal D.rule D.rule_refusal ctx.now op result }
{
    match op.kind(ctx) {
        OpKind::Module => verify_module(alloc, ctx, op),
        OpKind::Func => verify_func(ctx, op),
        OpKind::Constant => verify_constant(alloc, ctx, op),
        OpKind::ForwardRef => verify_forward_ref(alloc, ctx, op),
        OpKind::Own(_) => verify_own(alloc, ctx, op),
    }
}
