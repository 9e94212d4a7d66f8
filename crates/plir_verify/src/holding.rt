//! Verifying the attributes that an operation holds, and the operation with them.
ghost use Rattle.plir_core.specs.ContextView.{IsLive};
ghost use Rattle.plir_core.specs.declared.ptr.IRNode.{IRNode as AnyNode};
ghost use Rattle.plir_verify.specs.RuleRefusals.{AreVerified, IsOpVerdict};

use crate::kinds::verify_kind;
use crate::tree_err::TreeVerifyErr;
use crate::verify_set::VerifySet;
use plir_core::{Context, Operation, Ptr};
use plir_data::{AttrVerifyErr, OpSet, VerifyErr};
use plir_iface::refusal;
use std::alloc::Global;

// Verifies the attributes that an operation holds: tells the refusal of the first that isn't valid.
fn verify_attributes<D: OpSet>(
    alloc: Global,
    ctx: &Context<D>,
    op: Ptr<Operation>,
) -> Result<(), VerifyErr<AttrVerifyErr<D::Err>>>
    requires { IsLive ctx.now (AnyNode.Operation op) }
    ensures { AreVerified D.OpSet ctx.now op result }
{
    ctx.stands();
    'entries: for (_, attribute) in op.attributes(ctx).iter() {
        match attribute.verify(alloc, ctx) {
            Ok(()) => {}
            Err(refused) => return Err(refused),
        }
    }
    Ok(())
}

/// Verifies an operation by the verifier of its kind, and then the attributes that it holds.
pub(crate) fn verify_held<D: VerifySet>(
    alloc: Global,
    ctx: &Context<D>,
    op: Ptr<Operation>,
) -> Result<(), VerifyErr<TreeVerifyErr<D::Err>>>
    requires { IsLive ctx.now (AnyNode.Operation op) }
    ensures { IsOpVerdict D.OpSet D.uses_hold D.use_refusal D.rule D.rule_refusal ctx.now op result }
{
    if let Err(refused) = verify_kind(alloc, ctx, op) {
        return Err(refused);
    }
    match verify_attributes(alloc, ctx, op) {
        Ok(()) => Ok(()),
        Err(VerifyErr::Refused { err, .. }) => Err(refusal(ctx, op, TreeVerifyErr::Attr(err))),
        Err(VerifyErr::Memory) => Err(VerifyErr::Memory),
    }
}
