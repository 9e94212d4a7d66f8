//! What a copy of an operation is made of: types, operands, and what stands in place of successors.
ghost use Rattle.std.specs.Prelude.{◌≡◌, All, IfOk};
ghost use Rattle.plir_data.specs.Types.{AllLive};
ghost use Rattle.plir_core.specs.ContextView.{IsLive, IsValueLive, operands_of, result_types_of, successors_of};
ghost use Rattle.plir_core.specs.WellFormed.{IsWellFormed};
ghost use Rattle.plir_core.specs.declared.ptr.IRNode.{IRNode as AnyNode};
ghost use Rattle.plir_copies.specs.Images.{AreImagesLive, blocks_in, images};

use crate::value_map::ValueMap;
use plir_core::{BasicBlock, Context, Operation, Ptr, Value};
use plir_data::{Memory, OpSet, TypeHandle};
use std::alloc::Global;

/// The types of the results of an operation.
pub(crate) fn result_types<D: OpSet>(
    alloc: Global,
    ctx: &Context<D>,
    op: Ptr<Operation>,
) -> Result<Vec<TypeHandle>, Memory>
    requires { IsLive ctx.now (AnyNode.Operation op) }
    ensures value { IfOk result (λ ts. ts.items ≡ result_types_of ctx.now op) }
    ensures live { IfOk result (λ ts. AllLive ctx.now.types ts.items) }
    ensures whole { IsWellFormed D.attr_handles ctx.now }
{
    ctx.stands();
    let mut types = Vec::new(alloc);
    for i in 0..op.get_num_results(ctx) {
        types.push(op.get_type(ctx, i))?;
    }
    Ok(types)
}

/// The operands of an operation.
pub(crate) fn operands<D: OpSet>(
    alloc: Global,
    ctx: &Context<D>,
    op: Ptr<Operation>,
) -> Result<Vec<Value>, Memory>
    requires { IsLive ctx.now (AnyNode.Operation op) }
    ensures value { IfOk result (λ vs. vs.items ≡ operands_of ctx.now op) }
    ensures live { IfOk result (λ vs. All (IsValueLive ctx.now) vs.items) }
    ensures whole { IsWellFormed D.attr_handles ctx.now }
{
    ctx.stands();
    let mut operands = Vec::new(alloc);
    for i in 0..op.get_num_operands(ctx) {
        operands.push(op.get_operand(ctx, i))?;
    }
    Ok(operands)
}

/// What stands in place of the successors of an operation in a map.
pub(crate) fn successors_under<D: OpSet>(
    alloc: Global,
    ctx: &Context<D>,
    map: &ValueMap,
    op: Ptr<Operation>,
) -> Result<Vec<Ptr<BasicBlock>>, Memory>
    requires live { IsLive ctx.now (AnyNode.Operation op) }
    requires images_live { AreImagesLive ctx.now (images map.now) }
    ensures value { IfOk result (λ bs. bs.items ≡ blocks_in (images map.now) (successors_of ctx.now op)) }
    ensures live { IfOk result (λ bs. All (λ b. IsLive ctx.now (AnyNode.BasicBlock b)) bs.items) }
    ensures whole { IsWellFormed D.attr_handles ctx.now }
{
    ctx.stands();
    let mut successors = Vec::new(alloc);
    for i in 0..op.get_num_successors(ctx) {
        successors.push(map.block(op.get_successor(ctx, i)))?;
    }
    Ok(successors)
}
