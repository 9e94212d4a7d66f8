//! Ways to read texts into operations.
ghost use Rattle.std.specs.Prelude.{◌≡◌, ℕ, List, IfErr, IfOk, OnOk};
ghost use Rattle.plir_core.specs.ContextView.{ContextView, IsLive};
ghost use Rattle.plir_core.specs.Edits.{empty};
ghost use Rattle.plir_core.specs.declared.ptr.IRNode.{IRNode as AnyNode};
ghost use Rattle.plir_core.specs.declared.ptr.Operation.{Operation as OperationKind};
ghost use Rattle.plir_core.specs.declared.ptr.Ptr.{Ptr as AnyPtr};
ghost use Rattle.plir_read_ir.specs.declared.fault.IrFault.{IrFault as AnyFault};
ghost use Rattle.plir_driver.specs.Reading.{IsMadeOfText, IsBuiltinRefusal, IsPlacedOnce, no_nodes};
ghost use Rattle.plir_places.specs.OpPlaces.{op_places};
ghost use Rattle.plir_places.specs.Placed.{ArePlaced};
ghost use Rattle.plir_read.specs.OpsStanding.{StandsForOp};

use plir_attr_text::Fault;
use plir_core::{Context, Operation, Ptr};
use plir_data::{Memory, OpSet};
use plir_places::place_operations;
use plir_read::read_op;
use plir_read_ir::{IrErr, IrFault, read_ir};
use plir_read_own::ReadSet;
use std::alloc::Global;

/// A way to read texts into operations of an op set `D`, as a type: [`opt_main`](crate::opt_main) takes one. What a
/// program promises of the texts that it reads is what its way promises here.
pub trait TextReader<D: OpSet> {
    // What holds of an operation that was read into a new context: the text, the context after it, the operation.
    ghost stands: { List ℕ → ContextView D.Kind D.Attr D.Ty → AnyPtr OperationKind → Type 0 };

    // When a text is refused, and with which fault.
    ghost refuses: { List ℕ → AnyFault → Type 0 };

    /// Reads a text into a new context: the operation that it stands for.
    ///
    /// # Errors
    ///
    /// As the way says: the fault, and where it stands.
    fn read(alloc: Global, ctx: &mut Context<D>, text: &str) -> Result<Ptr<Operation>, IrErr>
        requires { ctx.old.nodes ≡ no_nodes }
        ensures read { IfOk result (λ p. stands text.now ctx.new p) }
        ensures live { IfOk result (λ p. IsLive ctx.new (AnyNode.Operation p)) }
        ensures refused { IfErr result (λ e. refuses text.now e.fault) };
}

// An operation that was read from a text, and the operations below it, get their places there.
fn place<D: OpSet>(
    alloc: Global,
    ctx: &mut Context<D>,
    op: Ptr<Operation>,
    text: &str,
) -> Result<(), IrErr>
    requires { IsLive ctx.old (AnyNode.Operation op) }
    ensures placed { OnOk result (ArePlaced ctx.old ctx.new op (op_places text.now)) }
    ensures live { IsLive ctx.new (AnyNode.Operation op) }
    ensures refused { IfErr result (λ e. e.fault ≡ IrFault.Text Fault.Memory) }
{
    match place_operations(alloc, ctx, op, text) {
        Ok(()) => Ok(()),
        Err(Memory) => Err(IrErr {
            line: 0,
            column: 0,
            fault: IrFault::Text(Fault::Memory),
        }),
    }
}

/// Texts of builtin operations, over any op set, as [`read_op`] reads them: operations of its own kinds are refused.
/// Each operation that is read has its place in the text.
#[derive(Clone, Copy, Debug)]
pub struct BuiltinTexts;

impl<D: OpSet> TextReader<D> for BuiltinTexts {
    ghost stands = { IsPlacedOnce (λ text s p. StandsForOp 200 s text (AnyNode.Operation p)) };

    ghost refuses = { IsBuiltinRefusal D.Kind D.Attr };

    fn read(alloc: Global, ctx: &mut Context<D>, text: &str) -> Result<Ptr<Operation>, IrErr> {
        match read_op(alloc, ctx, text) {
            Ok(op) => {
                place(alloc, ctx, op, text)?;
                Ok(op)
            }
            Err(error) => Err(IrErr {
                line: error.line,
                column: error.column,
                fault: IrFault::Text(error.fault),
            }),
        }
    }
}

/// Texts of all operations of an op set whose kinds are found by their ids, as [`read_ir`] reads them. So far it is
/// said of what was read that it was made anew, in an empty context, and that each operation has its place in the text,
/// and of a refusal nothing but that.
#[derive(Clone, Copy, Debug)]
pub struct OwnTexts;

impl<D: ReadSet> TextReader<D> for OwnTexts {
    ghost stands = { IsPlacedOnce (λ text s p. IsMadeOfText s text (AnyNode.Operation p)) };

    ghost refuses = { λ _ _. Unit {0} };

    fn read(alloc: Global, ctx: &mut Context<D>, text: &str) -> Result<Ptr<Operation>, IrErr> {
        let op = read_ir(alloc, ctx, text)?;
        place(alloc, ctx, op, text)?;
        Ok(op)
    }
}
