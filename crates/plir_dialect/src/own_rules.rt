//! What operations of own kinds must meet.
ghost use Rattle.std.specs.Prelude.{IfErr, OnOk};
ghost use Rattle.plir_data.specs.declared.location.Location.{Location as AnyLocation};
ghost use Rattle.plir_core.specs.declared.ptr.IRNode.{IRNode as AnyNode};
ghost use Rattle.plir_core.specs.declared.ptr.Operation.{Operation as OperationKind};
ghost use Rattle.plir_core.specs.declared.ptr.Ptr.{Ptr as AnyPtr};
ghost use Rattle.plir_core.specs.ContextView.{ContextView, IsLive};
ghost use Rattle.plir_builtin.specs.SymbolUses.{IsUseRefusal};

use crate::dialect::{Dialect, DialectErr};
use crate::one_of::OneOf;
use crate::own_attr::OwnAttr;
use crate::own_type::OwnType;
use crate::own_uses::OwnUses;
use crate::verdicts::{of_first, of_kind, of_second};
use plir_core::{Context, Operation, Ptr};
use plir_data::{NoMeaning, OpKind, OpSet, OwnKind, VerifyErr};
use plir_verify::VerifySet;
use std::alloc::Global;

/// Own kinds of operations that say what these must meet, in an op set `D` that they are part of. Kinds that don't look
/// at attributes and types of that set say it for each `D`, and can be joined with others.
pub trait OwnRules<D: OpSet>: OwnKind {
    // What an operation of the kind must meet.
    ghost rule: { Self → ContextView D.Kind D.Attr D.Ty → AnyPtr OperationKind → Type 0 };

    // What may be reported of one that does not: a location, and an error.
    ghost rule_refusal: { Self → ContextView D.Kind D.Attr D.Ty → AnyPtr OperationKind → AnyLocation → Self.Err
        → Type 0 };

    /// Accepts exactly where an operation meets what the kind asks, memory aside; else reports what the kind may report
    /// of it.
    fn verify_op(
        self,
        alloc: Global,
        ctx: &Context<D>,
        op: Ptr<Operation>,
    ) -> Result<(), VerifyErr<Self::Err>>
        requires { IsLive ctx.now (AnyNode.Operation op) }
        ensures ok { OnOk result (rule self ctx.now op) }
        ensures refused { IfErr result (IsUseRefusal (rule self ctx.now op) (rule_refusal self ctx.now op)) };
}

/// Own kinds of operations that ask nothing of them: so they are [`OwnRules`] in each op set, without a word more.
pub trait NoRules: OwnKind {}

// No operation is of this kind.
impl NoRules for NoMeaning {}

impl<D: OpSet, K: NoRules> OwnRules<D> for K {
    ghost use Rattle.std.specs.Prelude.{⊤};

    ghost rule = { λ _ _ _. ⊤ };

    ghost rule_refusal = { λ _ _ _ _ _. ⊥ };

    /// Accepts.
    fn verify_op(
        self,
        _alloc: Global,
        _ctx: &Context<D>,
        _op: Ptr<Operation>,
    ) -> Result<(), VerifyErr<K::Err>> {
        Ok(())
    }
}

impl<D: OpSet, A: OwnRules<D>, B: OwnRules<D>> OwnRules<D> for OneOf<A, B> {
    ghost use Rattle.plir_dialect.specs.Sides.{AsksOfSide, ReportsOfSide};

    ghost rule = { AsksOfSide A.rule B.rule };

    ghost rule_refusal = { ReportsOfSide A.rule_refusal B.rule_refusal };

    /// As the kind's side says.
    fn verify_op(
        self,
        alloc: Global,
        ctx: &Context<D>,
        op: Ptr<Operation>,
    ) -> Result<(), VerifyErr<OneOf<A::Err, B::Err>>> {
        match self {
            OneOf::First(kind) => of_first(kind.verify_op(alloc, ctx, op)),
            OneOf::Second(kind) => of_second(kind.verify_op(alloc, ctx, op)),
        }
    }
}

impl<K: OwnUses<Dialect<K, A, T>> + OwnRules<Dialect<K, A, T>>, A: OwnAttr, T: OwnType> VerifySet
    for Dialect<K, A, T> {
    ghost use Rattle.plir_dialect.specs.OwnKinds.{AsksOfKind, ReportsOfKind};

    ghost rule = { AsksOfKind K.rule };

    ghost rule_refusal = { ReportsOfKind K.rule_refusal };

    /// As the operation's kind says.
    fn verify_op(
        alloc: Global,
        ctx: &Context<Self>,
        op: Ptr<Operation>,
    ) -> Result<(), VerifyErr<DialectErr<K::Err, A::Err>>> {
        match op.kind(ctx) {
            OpKind::Own(kind) => of_kind(kind.verify_op(alloc, ctx, op)),
            _ => Ok(()),
        }
    }
}
