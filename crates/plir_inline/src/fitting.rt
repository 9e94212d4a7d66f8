//! Whether the operands of an operation can come in place of other values.
ghost use Rattle.std.specs.Prelude.{◌≡◌, ◌↔◌, IsTrue, length};
ghost use Rattle.plir_core.specs.ContextView.{IsLive, entity_node, operands_of, types_from};
ghost use Rattle.plir_core.specs.declared.ptr.IRNode.{IRNode as AnyNode};
ghost use Rattle.plir_core.specs.declared.value.DefiningEntity.{DefiningEntity as AnyEntity};
ghost use Rattle.plir_inline.specs.Given.{NoneFrom};
ghost use Rattle.plir_inline.specs.Inlined.{AreOfTypes};

use crate::values::value_of;
use plir_core::{Context, DefiningEntity, Operation, Ptr, Value};
use plir_data::OpSet;

// Whether a value is a result of an operation.
fn is_result_of(value: Value, op: Ptr<Operation>) -> bool
    ensures { IsTrue result ↔ (value.entity ≡ AnyEntity.Op op) }
{
    match value.defining_entity() {
        DefiningEntity::Op(from) => from == op,
        DefiningEntity::Block(_) => false,
    }
}

/// Whether no operand of an operation is a result of another one.
pub(crate) fn uses_none_of<D: OpSet>(
    ctx: &Context<D>,
    op: Ptr<Operation>,
    other: Ptr<Operation>,
) -> bool
    requires { IsLive ctx.now (AnyNode.Operation op) }
    ensures { IsTrue result ↔ NoneFrom (AnyEntity.Op other) (operands_of ctx.now op) }
{
    for i in 0..op.get_num_operands(ctx) {
        if is_result_of(op.get_operand(ctx, i), other) {
            return false;
        }
    }
    true
}

// How many values an operation or a block has.
fn num_values<D: OpSet>(ctx: &Context<D>, owner: DefiningEntity) -> usize
    requires { IsLive ctx.now (entity_node owner) }
    ensures { result ≡ length (types_from ctx.now owner) }
{
    match owner {
        DefiningEntity::Op(op) => op.get_num_results(ctx),
        DefiningEntity::Block(block) => block.get_num_arguments(ctx),
    }
}

/// Whether the operands of an operation are as many as the results of an operation, or the arguments of a block, and of
/// their types.
pub(crate) fn fits<D: OpSet>(ctx: &Context<D>, giver: Ptr<Operation>, owner: DefiningEntity) -> bool
    requires giver_live { IsLive ctx.now (AnyNode.Operation giver) }
    requires live { IsLive ctx.now (entity_node owner) }
    ensures { IsTrue result ↔ AreOfTypes ctx.now (operands_of ctx.now giver) (types_from ctx.now owner) }
{
    let count = giver.get_num_operands(ctx);
    if count != num_values(ctx, owner) {
        return false;
    }
    for i in 0..count {
        let given = giver.get_operand(ctx, i).get_type(ctx);
        if given != value_of(ctx, owner, i).get_type(ctx) {
            return false;
        }
    }
    true
}
