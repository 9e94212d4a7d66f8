//! How uses get what their names mean, once all is read.
ghost use Rattle.std.specs.Prelude.{◌≡◌, ◌<◌, IfErr, IfOk, OnErr, OnOk, Some, insert, length};
ghost use Rattle.plir_core.specs.Changes.{with_op_edit};
ghost use Rattle.plir_core.specs.ContextView.{ContextView, IsLive, IsValueLive, operands_of, successors_of};
ghost use Rattle.plir_core.specs.ContextView.{type_of_value};
ghost use Rattle.plir_core.specs.WellFormed.{IsWellFormed};
ghost use Rattle.plir_core.specs.declared.ptr.IRNode.{IRNode};
ghost use Rattle.plir_read_ir.specs.IrFaults.{IsToldByUse};
ghost use Rattle.plir_read_ir.specs.Linking.{FailsUse, FailsUses, IsLinked, IsLinkedAt, LinksUse, LinksUses};
ghost use Rattle.plir_read_ir.specs.Linking.{TellsMeaning, TellsNoUse, TellsType};
ghost use Rattle.plir_read_ir.specs.Noting.{AreNew, AreReady, BearAll, IsPending, same_label, same_name};
ghost use Rattle.plir_read_ir.specs.Readings.{noted_operand, noted_successor, noted_use};

use crate::fault::{IrFault, IrStop};
use crate::notes::{Notes, PendingUse, Wanted};
use crate::spelled::Spelled;
use plir_attr_text::fault::Stop;
use plir_core::laws::{nodes_are_told_apart, op_edits_keep_the_rest};
use plir_core::{Context, Operation, Ptr, Region, Value};
use plir_data::{Memory, OpSet};
use plir_names::Meaning;

// What a name means, with this many bytes left where it stands.
fn expect_one<V>(meaning: Meaning<V>, left: usize) -> Result<V, IrStop>
    ensures found { IfOk result (λ v. meaning ≡ Meaning.Only v) }
    ensures none { IfErr result (TellsMeaning meaning) }
    ensures told { IfErr result IsToldByUse }
{
    match meaning {
        Meaning::Only(found) => Ok(found),
        Meaning::Unknown => Err(IrStop::Use(IrFault::UnknownName, left)),
        Meaning::Ambiguous => Err(IrStop::Use(IrFault::AmbiguousName, left)),
    }
}

// Whether a value has the type at a place of the table, with this many bytes left where the types are written.
fn expect_type<D: OpSet>(
    ctx: &Context<D>,
    value: Value,
    ty: usize,
    left: usize,
) -> Result<(), IrStop>
    requires { IsValueLive ctx.now value }
    ensures same { OnOk result (type_of_value ctx.now value ≡ Some ty) }
    ensures other { IfErr result (λ stop. TellsType stop × (type_of_value ctx.now value ≡ Some ty → ⊥)) }
    ensures told { IfErr result IsToldByUse }
{
    if value.get_type(ctx).index() == ty {
        Ok(())
    } else {
        Err(IrStop::Use(IrFault::TypeMismatch, left))
    }
}

// An operation gets one operand more, behind those that it has.
fn push_operand<D: OpSet>(
    ctx: &mut Context<D>,
    op: Ptr<Operation>,
    value: Value,
) -> Result<(), IrStop>
    requires live { IsLive ctx.old (IRNode.Operation op) }
    requires value_live { IsValueLive ctx.old value }
    ensures pushed { OnOk result (ctx.new ≡ with_op_edit ctx.old op
        (λ o. record o { operands = insert o.operands (length (operands_of ctx.old op)) value })) }
    ensures same { OnErr result (ctx.new ≡ ctx.old) }
    ensures memory { IfErr result TellsNoUse }
    ensures told { IfErr result IsToldByUse }
    ensures whole { IsWellFormed D.attr_handles ctx.new }
{
    let place = op.get_num_operands(ctx);
    match op.insert_operand(ctx, place, value) {
        Ok(()) => Ok(()),
        Err(Memory) => Err(IrStop::Reading(Stop::OutOfMemory)),
    }
}

// An operation gets what a name in a body means as its next operand, which must have the type at a place of the table,
// with this many bytes left where the types are written.
fn link_operand<'a, D: OpSet>(
    ctx: &mut Context<D>,
    notes: &Notes<'a>,
    op: Ptr<Operation>,
    name: (Option<Ptr<Operation>>, Spelled<'a>),
    ty: (usize, usize),
) -> Result<(), IrStop>
    requires live { IsLive ctx.old (IRNode.Operation op) }
    requires values { BearAll same_name (IsValueLive ctx.old) notes.now.values }
    ensures linked { IsLinkedAt ctx.old ctx.new op }
    ensures meant { OnOk result (LinksUse notes.now ctx.old ctx.new op
        (noted_operand (name.entry.0, name.entry.1.word.now) ty.0)) }
    ensures same { OnErr result (ctx.new ≡ ctx.old) }
    ensures unmeant { IfErr result (FailsUse notes.now ctx.old
        (noted_operand (name.entry.0, name.entry.1.word.now) ty.0)) }
    ensures told { IfErr result IsToldByUse }
    ensures whole { IsWellFormed D.attr_handles ctx.new }
{
    nodes_are_told_apart();
    op_edits_keep_the_rest(ctx, op);
    ctx.stands();
    let value = expect_one(notes.find_value(name.0, name.1), name.1.left)?;
    expect_type(ctx, value, ty.0, ty.1)?;
    match push_operand(ctx, op, value) {
        Ok(()) => Ok(()),
        Err(stop) => Err(stop),
    }
}

// An operation gets the block that a label means in a region in place of its successor at a place.
fn link_successor<'a, D: OpSet>(
    ctx: &mut Context<D>,
    notes: &Notes<'a>,
    op: Ptr<Operation>,
    region: Ptr<Region>,
    label: Spelled<'a>,
    place: usize,
) -> Result<(), IrStop>
    requires live { IsLive ctx.old (IRNode.Operation op) }
    requires below { place < length (successors_of ctx.old op) }
    requires labels { BearAll same_label (λ b. IsLive ctx.old (IRNode.BasicBlock b)) notes.now.labels }
    ensures linked { IsLinkedAt ctx.old ctx.new op }
    ensures meant { OnOk result (LinksUse notes.now ctx.old ctx.new op
        (noted_successor (Some region, label.entry.word.now) place)) }
    ensures same { OnErr result (ctx.new ≡ ctx.old) }
    ensures unmeant { IfErr result (FailsUse notes.now ctx.old
        (noted_successor (Some region, label.entry.word.now) place)) }
    ensures told { IfErr result IsToldByUse }
    ensures whole { IsWellFormed D.attr_handles ctx.new }
{
    nodes_are_told_apart();
    op_edits_keep_the_rest(ctx, op);
    ctx.stands();
    let block = expect_one(notes.find_block(region, label), label.left)?;
    op.set_successor(ctx, place, block);
    Ok(())
}

// A use gets what its name means.
fn link_use<'a, D: OpSet>(
    ctx: &mut Context<D>,
    notes: &Notes<'a>,
    pending: &PendingUse<'a>,
) -> Result<(), IrStop>
    requires pending { IsPending ctx.old pending.now }
    requires values { BearAll same_name (IsValueLive ctx.old) notes.now.values }
    requires labels { BearAll same_label (λ b. IsLive ctx.old (IRNode.BasicBlock b)) notes.now.labels }
    ensures linked { IsLinkedAt ctx.old ctx.new pending.now.op }
    ensures meant { OnOk result (LinksUse notes.now ctx.old ctx.new pending.now.op (noted_use pending.now)) }
    ensures same { OnErr result (ctx.new ≡ ctx.old) }
    ensures unmeant { IfErr result (FailsUse notes.now ctx.old (noted_use pending.now)) }
    ensures told { IfErr result IsToldByUse }
    ensures whole { IsWellFormed D.attr_handles ctx.new }
{
    ctx.stands();
    let op = pending.op;
    let name = pending.name;
    match pending.wanted {
        Wanted::Operand(body, ty, left) => link_operand(ctx, notes, op, (body, name), (ty, left)),
        Wanted::Successor(region, place) => link_successor(ctx, notes, op, region, name, place),
        Wanted::Nothing => Err(IrStop::Use(IrFault::UnknownName, name.left)),
    }
}

// All uses get what their names mean, in the order of the text.
pub fn link_uses<'a, D: OpSet>(ctx: &mut Context<D>, notes: &Notes<'a>) -> Result<(), IrStop>
    requires { AreReady ctx.old notes.now }
    ensures linked { (first : ContextView D.Kind D.Attr D.Ty) → AreNew first notes.now →
        IsLinked first ctx.old ctx.new }
    ensures meant { OnOk result (LinksUses notes.now ctx.old ctx.new notes.now.uses.items) }
    ensures unmeant { IfErr result (FailsUses notes.now ctx.old ctx.new notes.now.uses.items) }
    ensures told { IfErr result IsToldByUse }
    ensures whole { IsWellFormed D.attr_handles ctx.new }
{
    ctx.stands();
    'uses: for pending in notes.uses.as_slice() {
        link_use(ctx, notes, pending)?;
    }
    Ok(())
}
