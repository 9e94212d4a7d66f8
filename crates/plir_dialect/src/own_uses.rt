//! Which uses of symbols are right, of operations of own kinds.
ghost use Rattle.std.specs.Prelude.{IfErr, OnOk};
ghost use Rattle.plir_data.specs.declared.location.Location.{Location as AnyLocation};
ghost use Rattle.plir_core.specs.declared.ptr.IRNode.{IRNode as AnyNode};
ghost use Rattle.plir_core.specs.declared.ptr.Operation.{Operation as OperationKind};
ghost use Rattle.plir_core.specs.declared.ptr.Ptr.{Ptr as AnyPtr};
ghost use Rattle.plir_core.specs.ContextView.{ContextView, IsLive};
ghost use Rattle.plir_builtin.specs.Agree.{AllAgree, AreGivenOut};
ghost use Rattle.plir_builtin.specs.SymbolUses.{IsUseRefusal};

use crate::dialect::{Dialect, DialectErr};
use crate::one_of::OneOf;
use crate::own_attr::OwnAttr;
use crate::own_type::OwnType;
use crate::verdicts::{of_first, of_kind, of_second};
use plir_builtin::{SymbolTableCollection, SymbolUserSet};
use plir_core::{Context, Operation, Ptr};
use plir_data::{NoMeaning, OpKind, OpSet, OwnKind, VerifyErr};

/// Own kinds of operations that say which uses of symbols are right, in an op set `D` that they are part of. Kinds that
/// use no symbols accept. Kinds that don't look at attributes and types of that set say it for each `D`, and can be
/// joined with others.
pub trait OwnUses<D: OpSet>: OwnKind {
    // The uses of an operation of the kind are right.
    ghost uses_hold: { Self → ContextView D.Kind D.Attr D.Ty → AnyPtr OperationKind → Type 0 };

    // What may be reported of uses that are not right: a location, and an error.
    ghost use_refusal: { Self → ContextView D.Kind D.Attr D.Ty → AnyPtr OperationKind → AnyLocation → Self.Err
        → Type 0 };

    /// Accepts exactly where the uses of an operation are right, where all tables of the collection agree, memory
    /// aside; they agree afterwards. Else reports what the kind may report of these uses. The verifier of tables asks
    /// it of symbol users alone.
    fn verify_symbol_uses(
        self,
        ctx: &Context<D>,
        op: Ptr<Operation>,
        tables: &mut SymbolTableCollection,
    ) -> Result<(), VerifyErr<Self::Err>>
        requires { IsLive ctx.now (AnyNode.Operation op) }
        ensures ok { AllAgree D.is_symbol D.is_symbol_table ctx.now tables.old
            → OnOk result (uses_hold self ctx.now op) }
        ensures refused { AllAgree D.is_symbol D.is_symbol_table ctx.now tables.old
            → IfErr result (IsUseRefusal (uses_hold self ctx.now op) (use_refusal self ctx.now op)) }
        ensures agree { AllAgree D.is_symbol D.is_symbol_table ctx.now tables.old
            → AllAgree D.is_symbol D.is_symbol_table ctx.now tables.new }
        ensures given { AreGivenOut ctx.now tables.old → AreGivenOut ctx.now tables.new };
}

/// Own kinds of operations that use no symbols: so they are [`OwnUses`] in each op set, without a word more.
pub trait NoUses: OwnKind {}

// No operation is of this kind.
impl NoUses for NoMeaning {}

impl<D: OpSet, K: NoUses> OwnUses<D> for K {
    ghost use Rattle.std.specs.Prelude.{⊤};

    ghost uses_hold = { λ _ _ _. ⊤ };

    ghost use_refusal = { λ _ _ _ _ _. ⊥ };

    /// Accepts.
    fn verify_symbol_uses(
        self,
        _ctx: &Context<D>,
        _op: Ptr<Operation>,
        _tables: &mut SymbolTableCollection,
    ) -> Result<(), VerifyErr<K::Err>> {
        Ok(())
    }
}

impl<D: OpSet, A: OwnUses<D>, B: OwnUses<D>> OwnUses<D> for OneOf<A, B> {
    ghost use Rattle.plir_dialect.specs.Sides.{AsksOfSide, ReportsOfSide};

    ghost uses_hold = { AsksOfSide A.uses_hold B.uses_hold };

    ghost use_refusal = { ReportsOfSide A.use_refusal B.use_refusal };

    /// As the kind's side says.
    fn verify_symbol_uses(
        self,
        ctx: &Context<D>,
        op: Ptr<Operation>,
        tables: &mut SymbolTableCollection,
    ) -> Result<(), VerifyErr<OneOf<A::Err, B::Err>>> {
        match self {
            OneOf::First(kind) => of_first(kind.verify_symbol_uses(ctx, op, tables)),
            OneOf::Second(kind) => of_second(kind.verify_symbol_uses(ctx, op, tables)),
        }
    }
}

impl<K: OwnUses<Dialect<K, A, T>>, A: OwnAttr, T: OwnType> SymbolUserSet for Dialect<K, A, T> {
    ghost use Rattle.plir_dialect.specs.OwnKinds.{AsksOfKind, ReportsOfKind};

    ghost uses_hold = { AsksOfKind K.uses_hold };

    ghost use_refusal = { ReportsOfKind K.use_refusal };

    /// As the operation's kind says.
    fn verify_symbol_uses(
        ctx: &Context<Self>,
        op: Ptr<Operation>,
        tables: &mut SymbolTableCollection,
    ) -> Result<(), VerifyErr<DialectErr<K::Err, A::Err>>> {
        match op.kind(ctx) {
            OpKind::Own(kind) => of_kind(kind.verify_symbol_uses(ctx, op, tables)),
            _ => Ok(()),
        }
    }
}
