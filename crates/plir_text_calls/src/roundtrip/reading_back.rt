//! A module that is printed, and read back.
use plir_core::{Context, Operation, Ptr};
use plir_data::OpSet;
use plir_print::{is_printable, print_op};
use plir_read::read_op;
use plir_roundtrip::laws::op_is_read_back;
use plir_scripts::{InContext, SampleSet, Stop, in_new_context};
use std::alloc::Global;

// A module with a dictionary, a function with blocks, labels and arguments, and constants.
const MODULE: &str =
    "builtin.module @m [a = builtin.unit, b = builtin.vec [builtin.bool true]] {^top(): builtin.func @f: builtin.function <(builtin.integer si8)->()> [c = builtin.string \"x\"] {^entry(n: builtin.integer si8): y = builtin.constant <builtin.integer <-3: si8>> : builtin.integer si8; op1v1_res0 = builtin.constant <builtin.unit> : builtin.unit ^last(block1v1_arg0: builtin.unit):}}";

// The text of an operation.
fn text_of<D: OpSet>(alloc: Global, ctx: &Context<D>, op: Ptr<Operation>) -> Result<String, Stop> {
    if !op.is_live(ctx) || !is_printable(ctx, op) {
        return Err(Stop::Refused);
    }
    Ok(print_op(alloc, ctx, op)?)
}

// Reads the text of an operation, and takes the law of what was read.
fn read_back<D: OpSet>(
    alloc: Global,
    ctx: &mut Context<D>,
    text: &str,
) -> Result<Ptr<Operation>, Stop> {
    let read = read_op(alloc, ctx, text);
    op_is_read_back::<D>(text, &read);
    Ok(read?)
}

// The text that an operation is printed as when its text was read.
fn printed<D: OpSet>(alloc: Global, ctx: &mut Context<D>, text: &str) -> Result<String, Stop> {
    let op = read_back(alloc, ctx, text)?;
    text_of(alloc, ctx, op)
}

// The text that an operation is printed as when its text was read into a new context.
#[derive(Drop)]
struct Prints<'a> {
    alloc: Global,
    text: &'a str,
}

impl<D: OpSet> InContext<D> for Prints<'_> {
    type Answer = Result<String, Stop>;

    fn run(self, ctx: &mut Context<D>) -> Result<String, Stop> {
        printed(self.alloc, ctx, self.text)
    }
}

// Whether the text of a module is read back: printed once more, with other numbers in the context that it was read
// into, and with the same in an empty one.
fn is_read_back<D: OpSet>(alloc: Global, ctx: &mut Context<D>) -> Result<bool, Stop> {
    let first = printed(alloc, ctx, MODULE)?;
    let again = printed(alloc, ctx, first.as_str())?;
    let text = first.as_str();
    let alone = in_new_context::<D, _>(alloc, Prints { alloc, text })?;
    let has_other_numbers = again.as_str() != first.as_str();
    Ok(
        has_other_numbers
            && again.as_str().len() == first.as_str().len()
            && alone.as_str() == first.as_str(),
    )
}

// Does so in a new context.
#[derive(Drop)]
struct ReadsBack {
    alloc: Global,
}

impl<D: OpSet> InContext<D> for ReadsBack {
    type Answer = Result<bool, Stop>;

    fn run(self, ctx: &mut Context<D>) -> Result<bool, Stop> {
        is_read_back(self.alloc, ctx)
    }
}

/// Whether a module is read back.
pub fn module_is_read_back(alloc: Global) -> Result<bool, Stop> {
    in_new_context::<SampleSet, _>(alloc, ReadsBack { alloc })
}
