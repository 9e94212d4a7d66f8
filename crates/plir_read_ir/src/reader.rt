//! The reader of texts of operations.
ghost use Rattle.std.specs.Prelude.{◌≡◌, [], IfErr, IfOk, None};
ghost use Rattle.plir_attr_text.specs.Faults.{IsOfText};
ghost use Rattle.plir_attr_text.specs.Names.{AreNamed};
ghost use Rattle.plir_attr_text.specs.Reading.{Ends};
ghost use Rattle.plir_attr_text.specs.TypeGrammar.{IsText};
ghost use Rattle.plir_attr_text.specs.TypesWritten.{IsWrittenIn};
ghost use Rattle.plir_attr_text.specs.Wholes.{whole};
ghost use Rattle.plir_core.specs.Made.{IsMade};
ghost use Rattle.plir_core.specs.WellFormed.{IsWellFormed};
ghost use Rattle.plir_core.specs.declared.ptr.IRNode.{IRNode};
ghost use Rattle.plir_read.specs.Keeping.{KeepsOlder};
ghost use Rattle.plir_read.specs.Slots.{IsMadeInOrder};
ghost use Rattle.plir_read_ir.specs.IrFaults.{HasNoPlace, IsMet, fault_of};
ghost use Rattle.plir_read_ir.specs.IrGrammar.{IrWithin};
ghost use Rattle.plir_read_ir.specs.IrOpReading.{MeetsIr, ir_op_at};
ghost use Rattle.plir_read_ir.specs.IrStanding.{StandsForIr};
ghost use Rattle.plir_read_ir.specs.IrTerms.{IrOp};
ghost use Rattle.plir_read_ir.specs.Noting.{AreReady, NotesOn};
ghost use Rattle.plir_read_ir.specs.Progress.{IsReading};
ghost use Rattle.plir_read_ir.specs.Readings.{ReadsText, SaysLabels, SaysValues};
ghost use Rattle.plir_read_ir.specs.UseFaults.{IsAtUse};

use crate::fault::{IrErr, IrFault, IrStop, placed};
use crate::linking::link_uses;
use crate::notes::{Notes, OUTSIDE};
use crate::ops::read_ir_op;
use plir_attr_text::Fault;
use plir_attr_text::fault::Stop;
use plir_attr_text::place::read_end;
use plir_attr_text::read_types::MAX_LEVELS;
use plir_core::laws::contexts_stand;
use plir_core::{Context, Operation, Ptr};
use plir_read_own::ReadSet;
use std::alloc::Global;

// The operation that the whole text stands for, but for what its operations use, which is noted.
fn read_noted<'a, D: ReadSet>(
    alloc: Global,
    ctx: &mut Context<D>,
    notes: &mut Notes<'a>,
    bytes: &'a [u8],
) -> Result<Ptr<Operation>, Stop>
    ensures made { IfOk result (λ p. IsMade ctx.old.nodes ctx.new.nodes (IRNode.Operation p)) }
    ensures slots { IfOk result (λ p. IsMadeInOrder ctx.old.nodes ctx.new.nodes (IRNode.Operation p)) }
    ensures kept { IsReading bytes.now None ctx.old ctx.new }
    ensures noted { IfOk result (λ x. NotesOn ctx.old notes.old ctx.new notes.new) }
    ensures stands { IfOk result (λ p. AreReady ctx.old notes.old → ReadsText D.find_kind D.is_isolated 200 bytes.now
        ctx.old ctx.new notes.old notes.new (IRNode.Operation p)) }
    ensures met { IfErr result (λ stop. Ends (Unit {0}) stop (whole (ir_op_at D.find_kind 200) bytes.now)) }
    ensures whole { IsWellFormed D.attr_handles ctx.new }
{
    let (op, rest) = match read_ir_op(alloc, ctx, notes, MAX_LEVELS, OUTSIDE, bytes) {
        Ok(read) => read,
        Err(stop) => return Err(stop),
    };
    read_end(rest)?;
    Ok(op)
}

// The operation that the whole text stands for, where nothing is noted yet.
fn read_and_link<'a, D: ReadSet>(
    alloc: Global,
    ctx: &mut Context<D>,
    notes: &mut Notes<'a>,
    bytes: &'a [u8],
) -> Result<Ptr<Operation>, IrStop>
    requires ready { AreReady ctx.old notes.old }
    requires none { notes.old.uses.items ≡ [] }
    requires no_value { SaysValues notes.old.values [] }
    requires no_label { SaysLabels notes.old.labels [] }
    ensures stands { IfOk result (λ p. StandsForIr D.find_kind D.is_isolated 200 ctx.new bytes.now
        (IRNode.Operation p)) }
    ensures unmeant { IfErr result (λ stop. IsAtUse D.find_kind D.is_isolated 200 ctx.new bytes.now (fault_of stop)) }
    ensures made { IfOk result (λ p. IsMade ctx.old.nodes ctx.new.nodes (IRNode.Operation p)) }
    ensures slots { IfOk result (λ p. IsMadeInOrder ctx.old.nodes ctx.new.nodes (IRNode.Operation p)) }
    ensures kept { IsReading bytes.now None ctx.old ctx.new }
    ensures met { IfErr result (IsMet D.find_kind 200 bytes.now) }
    ensures whole { IsWellFormed D.attr_handles ctx.new }
{
    contexts_stand::<D>();
    let op = match read_noted(alloc, ctx, notes, bytes) {
        Ok(op) => op,
        Err(stop) => return Err(IrStop::Reading(stop)),
    };
    match link_uses(ctx, notes) {
        Ok(()) => Ok(op),
        Err(stop) => Err(stop),
    }
}

fn read_linked<D: ReadSet>(
    alloc: Global,
    ctx: &mut Context<D>,
    bytes: &[u8],
) -> Result<Ptr<Operation>, IrStop>
    ensures stands { IfOk result (λ p. StandsForIr D.find_kind D.is_isolated 200 ctx.new bytes.now
        (IRNode.Operation p)) }
    ensures unmeant { IfErr result (λ stop. IsAtUse D.find_kind D.is_isolated 200 ctx.new bytes.now (fault_of stop)) }
    ensures made { IfOk result (λ p. IsMade ctx.old.nodes ctx.new.nodes (IRNode.Operation p)) }
    ensures slots { IfOk result (λ p. IsMadeInOrder ctx.old.nodes ctx.new.nodes (IRNode.Operation p)) }
    ensures kept { IsReading bytes.now None ctx.old ctx.new }
    ensures met { IfErr result (IsMet D.find_kind 200 bytes.now) }
    ensures whole { IsWellFormed D.attr_handles ctx.new }
{
    let mut notes = Notes::new(alloc);
    read_and_link(alloc, ctx, &mut notes, bytes)
}

/// The operation that a text stands for, made anew with all below it: what `print_op` writes of a constant, a module, a
/// function or an operation of one of the set's own kinds, where attributes and types are builtin ones.
///
/// The name of an operand means the result or the argument that bears that name as it stands in the text, with the
/// suffix that it is printed with, in the innermost module, function or operation of an isolated kind around the use;
/// it may stand before the use or behind it. The label of a successor means the block that bears it in the region that
/// the operation stands in. Where none bears it, or two do, the fault is at the use; names that nothing uses may be
/// borne by several. The type of an operand as it is written must be that of the value, else the fault is where the
/// operation's types begin.
///
/// Nodes are made in the order of their first characters in the text, each in the next slot of its kind. A refused text
/// may leave new nodes that stand nowhere, and types; what was there before is as it was.
///
/// A fault is the first that the text meets from left to right; where all is read, the first of a use in their order.
/// It stands at the text's end where the text ends within a token or before one, and at the first character of a token
/// that can't stand there; the first character of a level that is one too many comes before any fault inside it. A
/// forward reference is refused at its id, and so is an operation before which another number of names stands than it
/// has results; where an own operation has more or fewer types than operands, the fault is where its types begin.
pub fn read_ir<D: ReadSet>(
    alloc: Global,
    ctx: &mut Context<D>,
    text: &str,
) -> Result<Ptr<Operation>, IrErr>
    ensures found { IfOk result (λ p. StandsForIr D.find_kind D.is_isolated 200 ctx.new text.now
        (IRNode.Operation p)) }
    ensures refused { IfErr result (λ e. (f : Fault) → e.fault ≡ IrFault.Text f → IsOfText f → (o : IrOp D.Kind) →
        IsText (IrWithin D.find_kind 200) text.now o → ⊥) }
    ensures met { IfErr result (λ e. (f : Fault) → e.fault ≡ IrFault.Text f → IsOfText f →
        MeetsIr D.find_kind 200 text.now f) }
    ensures unmeant { IfErr result (λ e. IsAtUse D.find_kind D.is_isolated 200 ctx.new text.now e.fault) }
    ensures made { IfOk result (λ p. IsMade ctx.old.nodes ctx.new.nodes (IRNode.Operation p)) }
    ensures slots { IfOk result (λ p. IsMadeInOrder ctx.old.nodes ctx.new.nodes (IRNode.Operation p)) }
    ensures kept { KeepsOlder ctx.old ctx.new }
    ensures named { AreNamed (IsWrittenIn text.now) ctx.old.types ctx.new.types }
    ensures placeless { IfErr result HasNoPlace }
    ensures whole { IsWellFormed D.attr_handles ctx.new }
{
    let bytes = text.as_bytes();
    match read_linked(alloc, ctx, bytes) {
        Ok(op) => Ok(op),
        Err(stop) => Err(placed(bytes, stop)),
    }
}
