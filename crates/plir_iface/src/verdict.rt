//! What a verifier answers.
ghost use Rattle.std.specs.Prelude.{◌≡◌, ◌↔◌, IsOk, IfErr, IsTrue};
ghost use Rattle.plir_core.specs.ContextView.{IsLive};
ghost use Rattle.plir_core.specs.WellFormed.{IsWellFormed};
ghost use Rattle.plir_core.specs.declared.ptr.IRNode.{IRNode};
ghost use Rattle.plir_iface.specs.Verdict.{IsRefusal};

use plir_core::{Context, Operation, Ptr};
use plir_data::{OpSet, VerifyErr};

/// Accepts where a rule holds, and else refuses by the error, at the operation's location.
pub fn accept_if<D: OpSet, E: Drop>(
    ctx: &Context<D>,
    op: Ptr<Operation>,
    holds: bool,
    err: E,
) -> Result<(), VerifyErr<E>>
    requires { IsLive ctx.now (IRNode.Operation op) }
    ensures ok { IsOk result ↔ IsTrue holds }
    ensures refused { IfErr result (IsRefusal ctx.now op (λ e. e ≡ err)) }
    ensures whole { IsWellFormed D.attr_handles ctx.now }
{
    ctx.stands();
    if holds {
        return Ok(());
    }
    Err(refusal(ctx, op, err))
}

/// The refusal by an error, at the operation's location.
pub fn refusal<D: OpSet, E: Drop>(ctx: &Context<D>, op: Ptr<Operation>, err: E) -> VerifyErr<E>
    requires { IsLive ctx.now (IRNode.Operation op) }
    ensures refused { IsRefusal ctx.now op (λ e. e ≡ err) result }
    ensures whole { IsWellFormed D.attr_handles ctx.now }
{
    ctx.stands();
    VerifyErr::Refused {
        loc: op.loc(ctx),
        err,
    }
}
