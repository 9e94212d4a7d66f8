//! Verifiers of types, for operands and results alike: an interface names its side, test, indices and error.
ghost use Rattle.std.specs.Prelude.{◌≡◌, ◌<◌, ◌≤◌, ◌↔◌, IsOk, IfErr, IfSome, IsNone, length};
ghost use Rattle.plir_core.specs.declared.ptr.IRNode.{IRNode};
ghost use Rattle.plir_core.specs.ContextView.{IsLive};
ghost use Rattle.plir_core.specs.WellFormed.{IsWellFormed};
ghost use Rattle.plir_iface.specs.Places.{IsCountable};
ghost use Rattle.plir_iface.specs.Sides.{types_on};
ghost use Rattle.plir_iface.specs.TypeRules.{AllPass, EachPasses, IsBetween, PassesAt};
ghost use Rattle.plir_iface.specs.TypeRefusals.{IsFault, ReportsTypeFault, IsMisfit, ReportsMisfit, ReportsOtherKind};
ghost use Rattle.plir_iface.specs.TypeRefusals.{id_in};
ghost use Rattle.plir_iface.specs.Verdict.{IsRefusal, IsRefusalMemoryAside};

use crate::ids::id_of_type;
use crate::places::Places;
use crate::side::Side;
use crate::type_errors::{OtherKind, TooFew, TypeFault, TypeMismatch};
use crate::type_tests::{OfType, TypeTest, first_failing};
use crate::verdict::refusal;
use plir_core::{Context, Operation, Ptr};
use plir_data::{OpSet, TypeMark, TypeStore, VerifyErr, type_text};
use std::alloc::Global;

/// The id of the type at an index.
pub fn id_at<D: OpSet>(ctx: &Context<D>, op: Ptr<Operation>, side: Side, i: usize) -> &'static str
    requires live { IsLive ctx.now (IRNode.Operation op) }
    requires below { i < length (types_on side ctx.now op) }
    ensures value { result.now ≡ id_in D.type_id ctx.now (types_on side ctx.now op) i }
    ensures whole { IsWellFormed D.attr_handles ctx.now }
{
    id_of_type(ctx.types().get(side.type_at(ctx, op, i)))
}

/// The first value, from the index `start` on and before `end`, whose type fails a test.
fn find_misfit<D: OpSet, Q: TypeTest<D>>(
    ctx: &Context<D>,
    op: Ptr<Operation>,
    side: Side,
    start: usize,
    end: usize,
) -> Option<TypeMismatch>
    requires live { IsLive ctx.now (IRNode.Operation op) }
    requires within { end ≤ length (types_on side ctx.now op) }
    ensures none { IsNone result ↔ AllPass Q.passes ctx.now (IsBetween start end) (types_on side ctx.now op) }
    ensures some { IfSome result (IsMisfit Q.passes Q.test_name D.type_id ctx.now side (IsBetween start end)
        (types_on side ctx.now op)) }
    ensures whole { IsWellFormed D.attr_handles ctx.now }
{
    let place = first_failing::<D, Q>(ctx, op, side, start, end)?;
    Some(TypeMismatch {
        side,
        place,
        wanted: Q::test_name(),
        found: id_at(ctx, op, side, place),
    })
}

/// How the types at some indices break the rule that there are enough of them and all pass a test.
fn find_fault<D: OpSet, Q: TypeTest<D>>(
    ctx: &Context<D>,
    op: Ptr<Operation>,
    side: Side,
    places: Places,
) -> Option<TypeFault>
    requires live { IsLive ctx.now (IRNode.Operation op) }
    requires countable { IsCountable places }
    ensures none { IsNone result ↔ PassesAt Q.passes ctx.now places (types_on side ctx.now op) }
    ensures some { IfSome result (IsFault Q.passes Q.test_name D.type_id ctx.now side places
        (types_on side ctx.now op)) }
    ensures whole { IsWellFormed D.attr_handles ctx.now }
{
    let found = side.len(ctx, op);
    match places.resolve(found) {
        Err(needed) => Some(TypeFault::Few(TooFew { found, needed })),
        Ok(span) => {
            let misfit = find_misfit::<D, Q>(ctx, op, side, span.start, span.end)?;
            Some(TypeFault::Wrong(misfit))
        }
    }
}

/// Accepts exactly where all types of a side pass a test; else refuses by the first that fails.
pub(crate) fn verify_each<D: OpSet, Q: TypeTest<D>, E: From<TypeMismatch> + Drop>(
    ctx: &Context<D>,
    op: Ptr<Operation>,
    side: Side,
) -> Result<(), VerifyErr<E>>
    requires { IsLive ctx.now (IRNode.Operation op) }
    ensures ok { IsOk result ↔ EachPasses Q.passes ctx.now (types_on side ctx.now op) }
    ensures refused { IfErr result (IsRefusal ctx.now op
        (ReportsMisfit Q.passes Q.test_name D.type_id ctx.now op side E.from_gives)) }
    ensures whole { IsWellFormed D.attr_handles ctx.now }
{
    let count = side.len(ctx, op);
    match find_misfit::<D, Q>(ctx, op, side, 0, count) {
        None => Ok(()),
        Some(misfit) => Err(refusal(ctx, op, E::from(misfit))),
    }
}

/// Accepts exactly where a side has types at some indices and all of them pass a test; else refuses by how they break
/// that.
pub(crate) fn verify_at<D: OpSet, Q: TypeTest<D>, E: From<TypeFault> + Drop>(
    ctx: &Context<D>,
    op: Ptr<Operation>,
    side: Side,
    places: Places,
) -> Result<(), VerifyErr<E>>
    requires live { IsLive ctx.now (IRNode.Operation op) }
    requires countable { IsCountable places }
    ensures ok { IsOk result ↔ PassesAt Q.passes ctx.now places (types_on side ctx.now op) }
    ensures refused { IfErr result (IsRefusal ctx.now op
        (ReportsTypeFault Q.passes Q.test_name D.type_id ctx.now op side places E.from_gives)) }
    ensures whole { IsWellFormed D.attr_handles ctx.now }
{
    match find_fault::<D, Q>(ctx, op, side, places) {
        None => Ok(()),
        Some(fault) => Err(refusal(ctx, op, E::from(fault))),
    }
}

/// Accepts exactly where all types of a side are a `T`; else refuses by the text of the first that is none.
pub(crate) fn verify_each_kind<D: OpSet, T: TypeMark<D>, E: From<OtherKind> + Drop>(
    alloc: Global,
    ctx: &Context<D>,
    op: Ptr<Operation>,
    side: Side,
) -> Result<(), VerifyErr<E>>
    requires { IsLive ctx.now (IRNode.Operation op) }
    ensures ok { IsOk result ↔ EachPasses T.marks ctx.now (types_on side ctx.now op) }
    ensures refused { IfErr result (IsRefusalMemoryAside ctx.now op
        (ReportsOtherKind T.marks T.NAME D.type_id ctx.now D.type_body_text op side E.from_gives)) }
    ensures whole { IsWellFormed D.attr_handles ctx.now }
{
    let count = side.len(ctx, op);
    let Some(misfit) = find_misfit::<D, OfType<T>>(ctx, op, side, 0, count) else {
        return Ok(());
    };
    let wanted = misfit.wanted;
    let Ok(found) = type_text(alloc, ctx, side.type_at(ctx, op, misfit.place)) else {
        return Err(VerifyErr::Memory);
    };
    Err(refusal(ctx, op, E::from(OtherKind { wanted, found })))
}
