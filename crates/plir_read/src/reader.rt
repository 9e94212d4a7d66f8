//! The reader of texts of operations.
ghost use Rattle.std.specs.Prelude.{◌≡◌, Ok, IfOk, IfErr};
ghost use Rattle.plir_core.specs.Made.{IsMade};
ghost use Rattle.plir_core.specs.WellFormed.{IsWellFormed};
ghost use Rattle.plir_core.specs.declared.ptr.IRNode.{IRNode};
ghost use Rattle.plir_core.specs.Room.{HaveCome, IsFullFor};
ghost use Rattle.plir_attr_text.specs.Faults.{IsOfText, HasNoPlace};
ghost use Rattle.plir_attr_text.specs.Names.{AreNamed};
ghost use Rattle.plir_attr_text.specs.TypeGrammar.{IsText};
ghost use Rattle.plir_attr_text.specs.TypesWritten.{IsWrittenIn};
ghost use Rattle.plir_attr_text.specs.Wholes.{whole};
ghost use Rattle.plir_read.specs.FaultsMet.{Meets};
ghost use Rattle.plir_read.specs.HeldTypes.{IsHeldByOp};
ghost use Rattle.plir_read.specs.Keeping.{KeepsOlder};
ghost use Rattle.plir_read.specs.OpGrammar.{OpWithin};
ghost use Rattle.plir_read.specs.OpReading.{op_at};
ghost use Rattle.plir_read.specs.OpTerms.{OpTerm};
ghost use Rattle.plir_read.specs.OpsRead.{ReadsWhole};
ghost use Rattle.plir_read.specs.OpsStanding.{StandsForOp};
ghost use Rattle.plir_read.specs.Room.{BeginsTooMany, op_count};
ghost use Rattle.plir_read.specs.Slots.{IsMadeInOrder};

use crate::ops::read_op_at;
use plir_attr_text::fault::Stop;
use plir_attr_text::place::{placed, read_end};
use plir_attr_text::read_types::MAX_LEVELS;
use plir_attr_text::{Fault, ReadErr};
use plir_core::{Context, Operation, Ptr};
use plir_data::OpSet;
use std::alloc::Global;

#[tactic(auto, unfolding(plir_attr_text::specs::Wholes::whole))]
fn whole_op<D: OpSet>(
    alloc: Global,
    ctx: &mut Context<D>,
    bytes: &[u8],
) -> Result<Ptr<Operation>, Stop>
    ensures read { ReadsWhole ctx.old ctx.new 200 bytes.now result }
    ensures made { IfOk result (λ p. IsMade ctx.old.nodes ctx.new.nodes (IRNode.Operation p)) }
    ensures slots { IfOk result (λ p. IsMadeInOrder ctx.old.nodes ctx.new.nodes (IRNode.Operation p)) }
    ensures kept { KeepsOlder ctx.old ctx.new }
    ensures named { AreNamed (IsWrittenIn bytes.now) ctx.old.types ctx.new.types }
    ensures held { IfOk result (λ p. (w : OpTerm) → whole (op_at 200) bytes.now ≡ Ok w →
        AreNamed (λ t. IsHeldByOp t w) ctx.old.types ctx.new.types) }
    ensures whole { IsWellFormed D.attr_handles ctx.new }
{
    let (op, rest) = match read_op_at(alloc, ctx, MAX_LEVELS, bytes) {
        Ok(read) => read,
        Err(stop) => return Err(stop),
    };
    read_end(rest)?;
    Ok(op)
}

/// The operation that a text stands for, made anew with all below it: a constant, a module or a function. Nodes are
/// made in the order of their first characters in the text, each in the next slot of its kind. The name and the type in
/// a header win over those in its dictionary. A refused text may leave new nodes that stand nowhere, and types; what
/// was there before is as it was. Types that are new are held by the operation that was read; where the text is
/// refused, they are written in it. `TooManyNodes` comes only where the text, as far as it is read, has more nodes than
/// the context had room for: one of them would pass the limit, or the slot numbers of its kind are spent.
///
/// A fault is the first that the text meets. It stands at the text's end where the text ends within a token or before
/// one, and at the first character of a token that can't stand there; the first character of a level that is one too
/// many comes before any fault inside it. A forward reference is refused at its id, and so is an operation before which
/// another number of names stands than it has results.
pub fn read_op<D: OpSet>(
    alloc: Global,
    ctx: &mut Context<D>,
    text: &str,
) -> Result<Ptr<Operation>, ReadErr>
    ensures found { IfOk result (λ p. StandsForOp 200 ctx.new text.now (IRNode.Operation p)) }
    ensures made { IfOk result (λ p. IsMade ctx.old.nodes ctx.new.nodes (IRNode.Operation p)) }
    ensures slots { IfOk result (λ p. IsMadeInOrder ctx.old.nodes ctx.new.nodes (IRNode.Operation p)) }
    ensures refused { IfErr result (λ e. IsOfText e.fault → (w : OpTerm) → IsText (OpWithin 200) text.now w → ⊥) }
    ensures met { IfErr result (λ e. IsOfText e.fault → Meets 200 text.now e.fault) }
    ensures placeless { IfErr result HasNoPlace }
    ensures come { IfOk result (λ p. (w : OpTerm) → IsText (OpWithin 200) text.now w →
        HaveCome ctx.old.nodes ctx.new.nodes (op_count w)) }
    ensures begins { IfErr result (λ e. e.fault ≡ Fault.TooManyNodes →
        BeginsTooMany op_count (OpWithin 200) ctx.old.nodes text.now) }
    ensures too_many_only { IfErr result (λ e. e.fault ≡ Fault.TooManyNodes → (w : OpTerm) →
        IsText (OpWithin 200) text.now w → IsFullFor ctx.old.nodes (op_count w)) }
    ensures kept { KeepsOlder ctx.old ctx.new }
    ensures named { AreNamed (IsWrittenIn text.now) ctx.old.types ctx.new.types }
    ensures held { IfOk result (λ p. (w : OpTerm) → IsText (OpWithin 200) text.now w →
        AreNamed (λ t. IsHeldByOp t w) ctx.old.types ctx.new.types) }
    ensures whole { IsWellFormed D.attr_handles ctx.new }
{
    let bytes = text.as_bytes();
    match whole_op(alloc, ctx, bytes) {
        Ok(op) => Ok(op),
        Err(stop) => Err(placed(bytes, stop)),
    }
}
