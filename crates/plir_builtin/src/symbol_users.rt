//! Operations that use symbols, and how an op set verifies their uses.
ghost use Rattle.std.specs.Prelude.{◌≡◌, true, length, IfErr, OnOk};
ghost use Rattle.plir_core.specs.declared.ptr.Operation.{Operation as OperationKind};
ghost use Rattle.plir_core.specs.declared.ptr.Ptr.{Ptr as AnyPtr};
ghost use Rattle.plir_core.specs.declared.ptr.IRNode.{IRNode as AnyNode};
ghost use Rattle.plir_core.specs.ContextView.{ContextView, IsLive, children, kind_of};
ghost use Rattle.plir_builtin.specs.Agree.{AllAgree, AreGivenOut};
ghost use Rattle.plir_builtin.specs.TableWalks.{is_table_at};
ghost use Rattle.plir_builtin.specs.SymbolUses.{is_user_kind, AllUsesHold, IsUseCheck, IsUseRefusal, IsUsesRefusal};
ghost use Rattle.plir_data.specs.declared.location.Location.{Location as AnyLocation};

use crate::collection::SymbolTableCollection;
use crate::walking::walk_symbol_table;
use plir_core::{Context, Interface, Operation, Ptr, kind_impls};
use plir_data::{BuiltinSet, KindSet, NeverRefused, NoMeaning, OpSet, OwnKind, VerifyErr};
use plir_walk::interruptible::{WalkResult, walk_advance, walk_break};
use plir_walk::laws::before_is_a_total_order;
use std::alloc::Global;
use std::ops::ControlFlow;

/// An op set that verifies the uses of symbols of its own operations: it sends each to the interface that it
/// implements.
pub trait SymbolUserSet: OpSet {
    // The uses of an operation are right.
    ghost uses_hold: { ContextView Self.Kind Self.Attr Self.Ty → AnyPtr OperationKind → Type 0 };

    // What may be reported of uses that are not right: a location, and an error.
    ghost use_refusal: { ContextView Self.Kind Self.Attr Self.Ty → AnyPtr OperationKind → AnyLocation → Self.Err
        → Type 0 };

    /// Accepts exactly where the uses of an operation are right, where all tables of the collection agree, memory
    /// aside; they agree afterwards. Else reports what the set may report of these uses. The verifier of tables asks it
    /// of symbol users alone.
    fn verify_symbol_uses(
        ctx: &Context<Self>,
        op: Ptr<Operation>,
        tables: &mut SymbolTableCollection,
    ) -> Result<(), VerifyErr<Self::Err>>
        requires { IsLive ctx.now (AnyNode.Operation op) }
        ensures ok { AllAgree Self.is_symbol Self.is_symbol_table ctx.now tables.old
            → OnOk result (uses_hold ctx.now op) }
        ensures refused { AllAgree Self.is_symbol Self.is_symbol_table ctx.now tables.old
            → IfErr result (IsUseRefusal (uses_hold ctx.now op) (use_refusal ctx.now op)) }
        ensures agree { AllAgree Self.is_symbol Self.is_symbol_table ctx.now tables.old
            → AllAgree Self.is_symbol Self.is_symbol_table ctx.now tables.new }
        ensures given { AreGivenOut ctx.now tables.old → AreGivenOut ctx.now tables.new };
}

/// Own kinds of operations that say which uses of symbols are right, in an op set `D`: what [`SymbolUserSet`] is for
/// the op set of such kinds alone, `KindSet<Self>`. Kinds that use no symbols accept; their `OwnKind::Err` may be
/// `NeverRefused`.
pub trait SymbolUses<D: OpSet>: OwnKind {
    // The uses of an operation are right.
    ghost uses_hold: { ContextView D.Kind D.Attr D.Ty → AnyPtr OperationKind → Type 0 };

    // What may be reported of uses that are not right: a location, and an error.
    ghost use_refusal: { ContextView D.Kind D.Attr D.Ty → AnyPtr OperationKind → AnyLocation → D.Err → Type 0 };

    /// Accepts exactly where the uses of an operation are right, where all tables of the collection agree, memory
    /// aside; they agree afterwards. Else reports what the kinds may report of these uses. The verifier of tables asks
    /// it of symbol users alone.
    fn verify_symbol_uses(
        ctx: &Context<D>,
        op: Ptr<Operation>,
        tables: &mut SymbolTableCollection,
    ) -> Result<(), VerifyErr<D::Err>>
        requires { IsLive ctx.now (AnyNode.Operation op) }
        ensures ok { AllAgree D.is_symbol D.is_symbol_table ctx.now tables.old → OnOk result (uses_hold ctx.now op) }
        ensures refused { AllAgree D.is_symbol D.is_symbol_table ctx.now tables.old
            → IfErr result (IsUseRefusal (uses_hold ctx.now op) (use_refusal ctx.now op)) }
        ensures agree { AllAgree D.is_symbol D.is_symbol_table ctx.now tables.old
            → AllAgree D.is_symbol D.is_symbol_table ctx.now tables.new }
        ensures given { AreGivenOut ctx.now tables.old → AreGivenOut ctx.now tables.new };
}

impl SymbolUses<BuiltinSet> for NoMeaning {
    ghost use Rattle.std.specs.Prelude.{⊤};

    ghost uses_hold = { λ _ _. ⊤ };

    ghost use_refusal = { λ _ _ _ _. ⊥ };

    /// Accepts: no builtin operation uses symbols.
    fn verify_symbol_uses(
        _ctx: &Context<BuiltinSet>,
        _op: Ptr<Operation>,
        _tables: &mut SymbolTableCollection,
    ) -> Result<(), VerifyErr<NeverRefused>> {
        Ok(())
    }
}

impl<K: OwnKind + SymbolUses<KindSet<K>>> SymbolUserSet for KindSet<K> {
    ghost uses_hold = { K.uses_hold };

    ghost use_refusal = { K.use_refusal };

    /// As the kinds say.
    fn verify_symbol_uses(
        ctx: &Context<Self>,
        op: Ptr<Operation>,
        tables: &mut SymbolTableCollection,
    ) -> Result<(), VerifyErr<K::Err>> {
        <K as SymbolUses<KindSet<K>>>::verify_symbol_uses(ctx, op, tables)
    }
}

/// Whether an operation is a symbol user.
pub(crate) fn is_user<D: OpSet>(ctx: &Context<D>, op: Ptr<Operation>) -> bool
    requires { IsLive ctx.now (AnyNode.Operation op) }
    ensures { result ≡ is_user_kind D.is_symbol_user (kind_of ctx.now op) }
{
    kind_impls::<D>(op.kind(ctx), Interface::SymbolUser)
}

/// What is reported of uses that are refused. (A walk's callback can't break with an `Err` of an op set that stands
/// alone.)
#[derive(Drop)]
struct RefusedUse<D: OpSet> {
    why: VerifyErr<D::Err>,
}

/// Verifies the uses of an operation, if it is a symbol user.
fn check_use<D: SymbolUserSet>(
    ctx: &Context<D>,
    op: Ptr<Operation>,
    tables: &mut SymbolTableCollection,
) -> WalkResult<RefusedUse<D>>
    requires { IsLive ctx.now (AnyNode.Operation op) }
    ensures { IsUseCheck D.is_symbol D.is_symbol_table D.is_symbol_user D.uses_hold
        D.use_refusal (λ r. r.why) ctx.now tables.old op result tables.new }
{
    if !is_user(ctx, op) {
        return walk_advance();
    }
    match D::verify_symbol_uses(ctx, op, tables) {
        Ok(()) => walk_advance(),
        Err(why) => walk_break(RefusedUse { why }),
    }
}

/// Accepts exactly where the uses of every symbol user hold that the walk of a table calls at; else reports what is
/// reported of the first whose uses don't.
pub(crate) fn verify_uses<D: SymbolUserSet>(
    alloc: Global,
    ctx: &Context<D>,
    op: Ptr<Operation>,
) -> Result<(), VerifyErr<D::Err>>
    requires op_live { IsLive ctx.now (AnyNode.Operation op) }
    requires table { is_table_at D.is_symbol_table ctx.now op ≡ true }
    requires one_region { length (children ctx.now (AnyNode.Operation op)) ≡ 1 }
    ensures ok { OnOk result (AllUsesHold D.is_symbol_table ctx.now D.is_symbol_user D.uses_hold op) }
    ensures refused { IfErr result (IsUsesRefusal D.is_symbol_table D.is_symbol_user D.uses_hold
        D.use_refusal ctx.now op) }
{
    before_is_a_total_order();
    let mut tables = SymbolTableCollection::new(alloc);
    let check = |c: &Context<D>, t: &mut SymbolTableCollection, p: Ptr<Operation>| -> WalkResult<
        RefusedUse<D>,
    >
        requires { IsLive c.now (AnyNode.Operation p) }
        ensures { IsUseCheck D.is_symbol D.is_symbol_table D.is_symbol_user D.uses_hold
            D.use_refusal (λ r. r.why) c.now t.old p result t.new }
    { check_use(c, p, t) };
    match walk_symbol_table(op, ctx, &mut tables, check) {
        ControlFlow::Break(RefusedUse { why }) => Err(why),
        ControlFlow::Continue(_) => Ok(()),
    }
}
