//! Copies of operations.
ghost use Rattle.std.specs.Prelude.{◌≡◌, [], Err, IfOk, OnErr, OnOk, option_map, true, length};
ghost use Rattle.plir_core.specs.Changes.{SameLive};
ghost use Rattle.plir_core.specs.ContextView.{IsLive, children, given_out, op_at, result_types_of};
ghost use Rattle.plir_core.specs.Held.{IsOpEdited};
ghost use Rattle.plir_core.specs.Made.{IsMade};
ghost use Rattle.plir_core.specs.Room.{IsFullForOp};
ghost use Rattle.plir_core.specs.WellFormed.{IsWellFormed};
ghost use Rattle.plir_core.specs.declared.ptr.IRNode.{IRNode as AnyNode};
ghost use Rattle.plir_core.specs.declared.value.DefiningEntity.{DefiningEntity};
ghost use Rattle.plir_core.specs.Room.{HaveCome, IsFullFor, no_node, one_op};
ghost use Rattle.plir_copies.specs.Images.{AreImagesLive, images};
ghost use Rattle.plir_copies.specs.Copied.{bare_under, op_under, with_operands_in, with_values_of};

use crate::reading::{operands, result_types, successors_under};
use crate::value_map::ValueMap;
use plir_core::laws::{growth, op_edits_keep_the_rest, what_was_made_is_unused};
use plir_core::{Context, NodeErr, Operation, Ptr};
use plir_data::{Memory, OpSet};
use std::alloc::Global;

/// An operation in no block that holds what another one holds, but for what stands in place of its successors in a map,
/// and for the call of the map in place of which it stands. It has no region.
pub(crate) fn copy_bare<D: OpSet>(
    alloc: Global,
    ctx: &mut Context<D>,
    map: &ValueMap,
    op: Ptr<Operation>,
) -> Result<Ptr<Operation>, NodeErr>
    requires live { IsLive ctx.old (AnyNode.Operation op) }
    requires images_live { AreImagesLive ctx.old (images map.now) }
    ensures made { IfOk result (λ p. IsMade ctx.old.nodes ctx.new.nodes (AnyNode.Operation p)) }
    ensures held { IfOk result (λ p. op_at ctx.new p ≡ option_map (bare_under (images map.now)) (op_at ctx.old op)) }
    ensures leaf { IfOk result (λ p. children ctx.new (AnyNode.Operation p) ≡ []) }
    ensures types { ctx.new.types ≡ ctx.old.types }
    ensures given { (n : AnyNode) → given_out ctx.old n ≡ true → given_out ctx.new n ≡ true }
    ensures err { OnErr result (SameLive ctx.old ctx.new) }
    ensures too_many_only { result ≡ Err NodeErr.TooManyNodes → IsFullForOp ctx.old.nodes 0 }
    ensures full { result ≡ Err NodeErr.TooManyNodes → IsFullFor ctx.old.nodes one_op }
    ensures come { OnOk result (HaveCome ctx.old.nodes ctx.new.nodes one_op) }
    ensures whole { IsWellFormed D.attr_handles ctx.new }
{
    ctx.stands();
    let kind = op.kind(ctx);
    let location = op.loc(ctx).inlined_at(map.call());
    let types = result_types(alloc, ctx, op)?;
    let operands = operands(alloc, ctx, op)?;
    let successors = successors_under(alloc, ctx, map, op)?;
    let attributes = op.attributes(ctx).try_clone(alloc)?;
    let copy = Operation::with_attributes(ctx, kind, types, operands, successors, attributes, 0)?;
    op_edits_keep_the_rest(ctx, copy);
    copy.set_loc(ctx, location);
    Ok(copy)
}

/// Puts in place of each operand of an operation what stands in its place in a map.
pub(crate) fn change_operands<D: OpSet>(ctx: &mut Context<D>, map: &ValueMap, op: Ptr<Operation>)
    requires live { IsLive ctx.old (AnyNode.Operation op) }
    requires images_live { AreImagesLive ctx.old (images map.now) }
    ensures edited { IsOpEdited ctx.old ctx.new op (with_operands_in (images map.now)) }
    ensures none_come { HaveCome ctx.old.nodes ctx.new.nodes no_node }
    ensures whole { IsWellFormed D.attr_handles ctx.new }
{
    ctx.stands();
    for i in 0..op.get_num_operands(ctx) {
        op_edits_keep_the_rest(ctx, op);
        let operand = op.get_operand(ctx, i);
        op.replace_operand(ctx, i, map.value(operand));
    }
}

/// Puts the results of the copy of an operation in place of those of the operation.
pub(crate) fn map_results<D: OpSet>(
    ctx: &Context<D>,
    map: &mut ValueMap,
    op: Ptr<Operation>,
    copy: Ptr<Operation>,
) -> Result<(), Memory>
    requires live { IsLive ctx.now (AnyNode.Operation op) }
    requires copy_live { IsLive ctx.now (AnyNode.Operation copy) }
    requires same { result_types_of ctx.now copy ≡ result_types_of ctx.now op }
    ensures ok { OnOk result (images map.new ≡ with_values_of (images map.old) (DefiningEntity.Op op)
        (DefiningEntity.Op copy) (length (result_types_of ctx.now op))) }
    ensures whole { IsWellFormed D.attr_handles ctx.now }
{
    ctx.stands();
    for i in 0..op.get_num_results(ctx) {
        map.map_value(op.get_result(ctx, i), copy.get_result(ctx, i))?;
    }
    Ok(())
}

// Puts the results of the copy of an operation in place of those of the operation, or changes nothing.
fn map_results_in_whole<D: OpSet>(
    alloc: Global,
    ctx: &Context<D>,
    map: &mut ValueMap,
    op: Ptr<Operation>,
    copy: Ptr<Operation>,
) -> Result<(), Memory>
    requires live { IsLive ctx.now (AnyNode.Operation op) }
    requires copy_live { IsLive ctx.now (AnyNode.Operation copy) }
    requires same { result_types_of ctx.now copy ≡ result_types_of ctx.now op }
    ensures ok { OnOk result (images map.new ≡ with_values_of (images map.old) (DefiningEntity.Op op)
        (DefiningEntity.Op copy) (length (result_types_of ctx.now op))) }
    ensures err { OnErr result (images map.new ≡ images map.old) }
{
    let mut results = ValueMap::new(alloc);
    map_results(ctx, &mut results, op, copy)?;
    map.extend(&results)?;
    Ok(())
}

/// A copy of an operation without what stands below it, in no block: the same kind, result types and attributes, and
/// what stands in place of its operands and successors in a map. Its location is the operation's, with the place of the
/// call in place of which copies stand, if the map has one. Its results are put in place of those of the operation, and
/// count for operands too. `TooManyNodes` comes only where there is no room for an operation. After a refusal no live
/// node has changed, and the map is as before.
pub fn clone_op_into<D: OpSet>(
    alloc: Global,
    ctx: &mut Context<D>,
    op: Ptr<Operation>,
    map: &mut ValueMap,
) -> Result<Ptr<Operation>, NodeErr>
    requires live { IsLive ctx.old (AnyNode.Operation op) }
    requires images_live { AreImagesLive ctx.old (images map.old) }
    ensures made { IfOk result (λ p. IsMade ctx.old.nodes ctx.new.nodes (AnyNode.Operation p)) }
    ensures held { IfOk result (λ p. op_at ctx.new p ≡ option_map (op_under (images map.new)) (op_at ctx.old op)) }
    ensures leaf { IfOk result (λ p. children ctx.new (AnyNode.Operation p) ≡ []) }
    ensures mapped { IfOk result (λ p. images map.new ≡ with_values_of (images map.old) (DefiningEntity.Op op)
        (DefiningEntity.Op p) (length (result_types_of ctx.old op))) }
    ensures images_live { AreImagesLive ctx.new (images map.new) }
    ensures types { ctx.new.types ≡ ctx.old.types }
    ensures given { (n : AnyNode) → given_out ctx.old n ≡ true → given_out ctx.new n ≡ true }
    ensures err { OnErr result (SameLive ctx.old ctx.new) }
    ensures same_map { OnErr result (images map.new ≡ images map.old) }
    ensures too_many_only { result ≡ Err NodeErr.TooManyNodes → IsFullForOp ctx.old.nodes 0 }
    ensures come { OnOk result (HaveCome ctx.old.nodes ctx.new.nodes one_op) }
    ensures whole { IsWellFormed D.attr_handles ctx.new }
{
    ctx.stands();
    growth(ctx);
    what_was_made_is_unused(ctx);
    let copy = copy_bare(alloc, ctx, map, op)?;
    match map_results_in_whole(alloc, ctx, map, op, copy) {
        Ok(()) => {
            change_operands(ctx, map, copy);
            Ok(copy)
        }
        Err(Memory) => {
            Operation::erase(copy, ctx);
            Err(NodeErr::Memory)
        }
    }
}
