//! Values given in place of the results of an operation or the arguments of a block.
ghost use Rattle.std.specs.Prelude.{◌≡◌, ◌<◌, length};
ghost use Rattle.plir_core.specs.ContextView.{IsLive, IsValueLive, entity_node, operands_of, types_from};
ghost use Rattle.plir_core.specs.WellFormed.{IsWellFormed};
ghost use Rattle.plir_core.specs.declared.ptr.IRNode.{IRNode as AnyNode};
ghost use Rattle.plir_copies.specs.Copied.{value_at};
ghost use Rattle.plir_inline.specs.Given.{IsGiven, NoneFrom, given};

use plir_core::{Context, DefiningEntity, Operation, Ptr, Value};
use plir_data::OpSet;

/// The value of an operation or a block at a place, from 0.
pub(crate) fn value_of<D: OpSet>(ctx: &Context<D>, owner: DefiningEntity, i: usize) -> Value
    requires live { IsLive ctx.now (entity_node owner) }
    requires below { i < length (types_from ctx.now owner) }
    ensures value { result ≡ value_at owner i }
    ensures live { IsValueLive ctx.now result }
    ensures whole { IsWellFormed D.attr_handles ctx.now }
{
    match owner {
        DefiningEntity::Op(op) => op.get_result(ctx, i),
        DefiningEntity::Block(block) => block.get_argument(ctx, i),
    }
}

/// Gives the results of an operation, or the arguments of a block, the operands of another operation, each the one at
/// its place: wherever one was used, what it was given is.
pub(crate) fn give_operands<D: OpSet>(
    ctx: &mut Context<D>,
    owner: DefiningEntity,
    giver: Ptr<Operation>,
)
    requires live { IsLive ctx.old (entity_node owner) }
    requires giver_live { IsLive ctx.old (AnyNode.Operation giver) }
    requires as_many { length (operands_of ctx.old giver) ≡ length (types_from ctx.old owner) }
    requires none_own { NoneFrom owner (operands_of ctx.old giver) }
    ensures given { IsGiven ctx.old ctx.new (given owner (operands_of ctx.old giver)) }
    ensures whole { IsWellFormed D.attr_handles ctx.new }
{
    ctx.stands();
    for i in 0..giver.get_num_operands(ctx) {
        let operand = giver.get_operand(ctx, i);
        value_of(ctx, owner, i).replace_all_uses_with(ctx, operand);
    }
}
