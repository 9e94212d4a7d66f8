//! Reading where a request for memory is refused: what was there stays, and the same text is read once more.

use plir_attr_text::Fault;
use plir_core::{Context, Operation, Ptr};
use plir_data::OpSet;
use plir_print::{is_printable, print_op};
use plir_read::read_op;
use plir_scripts::{InContext, SampleSet, Stop, in_new_context};
use std::alloc::Global;

// Reads a text, and once more where it is refused for want of memory.
pub(super) fn read_again<D: OpSet>(
    alloc: Global,
    ctx: &mut Context<D>,
    text: &str,
) -> Result<Ptr<Operation>, Stop> {
    match read_op(alloc, ctx, text) {
        Ok(op) => Ok(op),
        Err(found) if found.fault == Fault::Memory => Ok(read_op(alloc, ctx, text)?),
        Err(_) => Err(Stop::Refused),
    }
}

// The text of an operation, asked for once more where memory is refused.
pub(super) fn text_of<D: OpSet>(
    alloc: Global,
    ctx: &Context<D>,
    op: Ptr<Operation>,
) -> Result<String, Stop> {
    if !op.is_live(ctx) || !is_printable(ctx, op) {
        return Err(Stop::Refused);
    }
    match print_op(alloc, ctx, op) {
        Ok(text) => Ok(text),
        Err(_) => Ok(print_op(alloc, ctx, op)?),
    }
}

// Reads a constant, and then a module; answers whether the constant's text is as before.
fn keeps_older<D: OpSet>(alloc: Global, ctx: &mut Context<D>) -> Result<bool, Stop> {
    let constant = "c = builtin.constant <builtin.string \"k\"> : builtin.unit";
    let older = read_again(alloc, ctx, constant)?;
    let before = text_of(alloc, ctx, older)?;
    let module =
        "builtin.module @m [a = builtin.unit] {^b(x: builtin.integer si8): y = builtin.constant <builtin.unit> : builtin.unit}";
    let read = read_again(alloc, ctx, module)?;
    let after = text_of(alloc, ctx, older)?;
    Ok(read.is_live(ctx) && before.as_str() == after.as_str())
}

// Does so in a new context.
#[derive(Drop)]
struct Keeps {
    alloc: Global,
}

impl<D: OpSet> InContext<D> for Keeps {
    type Answer = Result<bool, Stop>;

    fn run(self, ctx: &mut Context<D>) -> Result<bool, Stop> {
        keeps_older(self.alloc, ctx)
    }
}

/// Whether operations are read where memory is refused.
pub fn older_are_kept(alloc: Global) -> Result<bool, Stop> {
    in_new_context::<SampleSet, _>(alloc, Keeps { alloc })
}
