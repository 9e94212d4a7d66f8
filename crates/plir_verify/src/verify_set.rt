//! What operations of own kinds must meet.
ghost use Rattle.std.specs.Prelude.{IfErr, OnOk};
ghost use Rattle.plir_data.specs.declared.location.Location.{Location as AnyLocation};
ghost use Rattle.plir_core.specs.declared.ptr.IRNode.{IRNode as AnyNode};
ghost use Rattle.plir_core.specs.declared.ptr.Operation.{Operation as OperationKind};
ghost use Rattle.plir_core.specs.declared.ptr.Ptr.{Ptr as AnyPtr};
ghost use Rattle.plir_core.specs.ContextView.{ContextView, IsLive};
ghost use Rattle.plir_builtin.specs.SymbolUses.{IsUseRefusal};

use plir_builtin::{SymbolUserSet, SymbolUses};
use plir_core::{Context, Operation, Ptr};
use plir_data::{BuiltinSet, KindSet, NeverRefused, NoMeaning, OpSet, OwnKind, VerifyErr};
use std::alloc::Global;

/// An op set that verifies its own operations.
pub trait VerifySet: SymbolUserSet {
    // What an own operation must meet.
    ghost rule: { ContextView Self.Kind Self.Attr Self.Ty → AnyPtr OperationKind → Type 0 };

    // What may be reported of one that does not: a location, and an error.
    ghost rule_refusal: { ContextView Self.Kind Self.Attr Self.Ty → AnyPtr OperationKind → AnyLocation → Self.Err
        → Type 0 };

    /// Accepts exactly where an operation of an own kind meets what its kind asks, memory aside; else reports what the
    /// set may report of it.
    fn verify_op(
        alloc: Global,
        ctx: &Context<Self>,
        op: Ptr<Operation>,
    ) -> Result<(), VerifyErr<Self::Err>>
        requires { IsLive ctx.now (AnyNode.Operation op) }
        ensures ok { OnOk result (rule ctx.now op) }
        ensures refused { IfErr result (IsUseRefusal (rule ctx.now op) (rule_refusal ctx.now op)) };
}

/// Own kinds of operations that say what these must meet, in an op set `D`: what [`VerifySet`] is for the op set of
/// such kinds alone, `KindSet<Self>`.
pub trait VerifyKind<D: OpSet>: OwnKind {
    // What an operation of one of the kinds must meet.
    ghost rule: { ContextView D.Kind D.Attr D.Ty → AnyPtr OperationKind → Type 0 };

    // What may be reported of one that does not: a location, and an error.
    ghost rule_refusal: { ContextView D.Kind D.Attr D.Ty → AnyPtr OperationKind → AnyLocation → D.Err → Type 0 };

    /// Accepts exactly where an operation of one of the kinds meets what its kind asks, memory aside; else reports what
    /// the kinds may report of it.
    fn verify_op(
        alloc: Global,
        ctx: &Context<D>,
        op: Ptr<Operation>,
    ) -> Result<(), VerifyErr<D::Err>>
        requires { IsLive ctx.now (AnyNode.Operation op) }
        ensures ok { OnOk result (rule ctx.now op) }
        ensures refused { IfErr result (IsUseRefusal (rule ctx.now op) (rule_refusal ctx.now op)) };
}

impl VerifyKind<BuiltinSet> for NoMeaning {
    ghost use Rattle.std.specs.Prelude.{⊤};

    ghost rule = { λ _ _. ⊤ };

    ghost rule_refusal = { λ _ _ _ _. ⊥ };

    /// Accepts: no builtin operation is of this kind.
    fn verify_op(
        _alloc: Global,
        _ctx: &Context<BuiltinSet>,
        _op: Ptr<Operation>,
    ) -> Result<(), VerifyErr<NeverRefused>> {
        Ok(())
    }
}

impl<K: OwnKind + SymbolUses<KindSet<K>> + VerifyKind<KindSet<K>>> VerifySet for KindSet<K> {
    ghost rule = { K.rule };

    ghost rule_refusal = { K.rule_refusal };

    /// As the kind says.
    fn verify_op(
        alloc: Global,
        ctx: &Context<Self>,
        op: Ptr<Operation>,
    ) -> Result<(), VerifyErr<K::Err>> {
        <K as VerifyKind<KindSet<K>>>::verify_op(alloc, ctx, op)
    }
}
