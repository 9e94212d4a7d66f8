//! The values that an operation or a block has.
ghost use Rattle.std.specs.Prelude.{◌≡◌, ◌<◌, Some, length, slice_get};
ghost use Rattle.plir_core.specs.ContextView.{IsLive, IsValueLive};
ghost use Rattle.plir_print.specs.ValueLists.{holder, values_in};

use plir_core::{BasicBlock, Context, Operation, Ptr, Value};
use plir_data::OpSet;

/// Values in order.
#[derive(Clone, Copy)]
pub(crate) enum ValueList {
    /// The operands of an operation.
    Operands(Ptr<Operation>),
    /// The results of an operation.
    Results(Ptr<Operation>),
    /// The arguments of a block.
    Arguments(Ptr<BasicBlock>),
}

/// How many values there are.
pub(crate) fn num_values<D: OpSet>(ctx: &Context<D>, list: ValueList) -> usize
    requires { IsLive ctx.now (holder list) }
    ensures { result ≡ length (values_in ctx.now list) }
{
    match list {
        ValueList::Operands(op) => op.get_num_operands(ctx),
        ValueList::Results(op) => op.get_num_results(ctx),
        ValueList::Arguments(block) => block.get_num_arguments(ctx),
    }
}

/// The value at an index.
pub(crate) fn value_at<D: OpSet>(ctx: &Context<D>, list: ValueList, place: usize) -> Value
    requires live { IsLive ctx.now (holder list) }
    requires below { place < length (values_in ctx.now list) }
    ensures value { slice_get (values_in ctx.now list) place ≡ Some result }
    ensures live { IsValueLive ctx.now result }
{
    match list {
        ValueList::Operands(op) => op.get_operand(ctx, place),
        ValueList::Results(op) => op.get_result(ctx, place),
        ValueList::Arguments(block) => block.get_argument(ctx, place),
    }
}
