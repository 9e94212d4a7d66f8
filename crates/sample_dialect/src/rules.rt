//! How the dialect's operations stand.
ghost use Rattle.std.specs.Prelude.{◌↔◌, ◌+◌, ◌<◌, IsTrue, length};
ghost use Rattle.plir_core.specs.ContextView.{IsLive, arg_types_of, operands_of};
ghost use Rattle.plir_core.specs.declared.ptr.IRNode.{IRNode as AnyNode};
ghost use Rattle.sample_dialect.specs.Rules.{BecomeArguments, BecomesArgument, GoesOn, IsSum};

use crate::add_op::AddOp;
use crate::kinds::SampleSet;
use plir_core::{BasicBlock, Context, Operation, Ptr};
use plir_data::OpSet;
use plir_iface::{NOpdsInterface, NResultsInterface, SameOperandsAndResultType, SameOperandsType};

/// Whether an operation has two operands and one result, all of one type.
pub fn is_sum(ctx: &Context<SampleSet>, op: Ptr<Operation>) -> bool
    requires { IsLive ctx.now (AnyNode.Operation op) }
    ensures { IsTrue result ↔ IsSum ctx.now op }
{
    let sum = AddOp::at(op);
    NOpdsInterface::<SampleSet, 2>::verify(&sum, ctx).is_ok()
        && NResultsInterface::<SampleSet, 1>::verify(&sum, ctx).is_ok()
        && SameOperandsType::verify(&sum, ctx).is_ok()
        && SameOperandsAndResultType::verify(&sum, ctx).is_ok()
}

// Whether the operand so many places behind a first one is of the type of the argument at that place of a block.
fn becomes_argument<D: OpSet>(
    ctx: &Context<D>,
    op: Ptr<Operation>,
    first: usize,
    block: Ptr<BasicBlock>,
    i: usize,
) -> bool
    requires live { IsLive ctx.now (AnyNode.Operation op) }
    requires block_live { IsLive ctx.now (AnyNode.BasicBlock block) }
    requires within { first + i < length (operands_of ctx.now op) }
    requires below { i < length (arg_types_of ctx.now block) }
    ensures { IsTrue result ↔ BecomesArgument first ctx.now op block i }
{
    let _count = op.get_num_operands(ctx);
    op.get_operand(ctx, first + i).get_type(ctx) == block.get_type(ctx, i)
}

// Whether the operands from a first one on become the arguments of a block: as many, of their types.
fn become_arguments<D: OpSet>(
    ctx: &Context<D>,
    op: Ptr<Operation>,
    first: usize,
    block: Ptr<BasicBlock>,
) -> bool
    requires live { IsLive ctx.now (AnyNode.Operation op) }
    requires block_live { IsLive ctx.now (AnyNode.BasicBlock block) }
    ensures { IsTrue result ↔ BecomeArguments first ctx.now op block }
{
    let (operands, arguments) = (op.get_num_operands(ctx), block.get_num_arguments(ctx));
    if operands < first || operands - first != arguments {
        return false;
    }
    for i in 0..arguments {
        if !becomes_argument(ctx, op, first, block, i) {
            return false;
        }
    }
    true
}

/// Whether an operation has so many successors, and its operands from a first one on become the arguments of each.
pub fn goes_on<D: OpSet>(ctx: &Context<D>, op: Ptr<Operation>, count: usize, first: usize) -> bool
    requires { IsLive ctx.now (AnyNode.Operation op) }
    ensures { IsTrue result ↔ GoesOn first ctx.now op count }
{
    if op.get_num_successors(ctx) != count {
        return false;
    }
    for i in 0..count {
        if !become_arguments(ctx, op, first, op.get_successor(ctx, i)) {
            return false;
        }
    }
    true
}
