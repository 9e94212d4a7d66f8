//! Edits of one segment: the operand and the size change together, and nothing else does.
ghost use Rattle.std.specs.Prelude.{◌≡◌, ◌<◌, ◌≤◌, ◌+◌, ◌-◌, ◌^◌, ◌∷◌, ◌++◌, [], Some, IfOk, OnOk, OnErr, insert};
ghost use Rattle.std.specs.Prelude.{remove, take, length, slice_get};
ghost use Rattle.plir_core.specs.declared.ptr.IRNode.{IRNode};
ghost use Rattle.plir_core.specs.ContextView.{IsLive, IsValueLive, operands_of};
ghost use Rattle.plir_core.specs.WellFormed.{IsWellFormed};
ghost use Rattle.plir_flow.specs.Segments.{segment_at, edit_at, segments_of, num_segments, segment_size};
ghost use Rattle.plir_flow.specs.Segments.{segment_places};
ghost use Rattle.plir_flow.specs.Segments.{IsSegmented, IsResegmented, IsOperandPutAt};

use crate::segment_sizes::{place_among, set_size, size_of};
use plir_core::{Context, Operation, Ptr, Value, laws};
use plir_data::{Memory, OpSet};

/// Puts a value into a segment at an index. The growth comes before the first change.
pub(crate) fn insert_at<D: OpSet>(
    ctx: &mut Context<D>,
    op: Ptr<Operation>,
    seg: usize,
    place: usize,
    operand: Value,
) -> Result<(), Memory>
    requires live { IsLive ctx.old (IRNode.Operation op) }
    requires segmented { IsSegmented ctx.old op }
    requires below { seg < num_segments ctx.old op }
    requires within { place ≤ segment_size ctx.old op seg }
    requires room { segment_size ctx.old op seg < 2 ^ 32 - 1 }
    requires operand_live { IsValueLive ctx.old operand }
    ensures ok { OnOk result (IsResegmented ctx.old ctx.new op
        (edit_at seg (λ xs. insert xs place operand) (segments_of ctx.old op))) }
    ensures operands { OnOk result (IsOperandPutAt ctx.old ctx.new op seg place operand) }
    ensures err { OnErr result (ctx.new ≡ ctx.old) }
    ensures whole { IsWellFormed D.attr_handles ctx.new }
{
    laws::op_edits_join(ctx, op);
    laws::op_edits_keep_the_rest(ctx, op);
    let among = place_among(ctx, op, seg, place);
    let size = size_of(ctx, op, seg);
    op.insert_operand(ctx, among, operand)?;
    set_size(ctx, op, seg, size + 1);
    Ok(())
}

/// Takes the value at an index out of a segment. Takes no memory.
pub(crate) fn remove_at<D: OpSet>(
    ctx: &mut Context<D>,
    op: Ptr<Operation>,
    seg: usize,
    place: usize,
) -> Value
    requires live { IsLive ctx.old (IRNode.Operation op) }
    requires segmented { IsSegmented ctx.old op }
    requires below { seg < num_segments ctx.old op }
    requires within { place < segment_size ctx.old op seg }
    ensures value { slice_get (segment_at (segments_of ctx.old op) seg) place ≡ Some result }
    ensures after { IsResegmented ctx.old ctx.new op (edit_at seg (λ xs. remove xs place) (segments_of ctx.old op)) }
    ensures operands { operands_of ctx.new op ≡ remove (operands_of ctx.old op)
        ((segment_places ctx.old op seg).0 + place) }
    ensures whole { IsWellFormed D.attr_handles ctx.new }
{
    laws::op_edits_join(ctx, op);
    laws::op_edits_keep_the_rest(ctx, op);
    let among = place_among(ctx, op, seg, place);
    let size = size_of(ctx, op, seg);
    let operand = op.remove_operand(ctx, among);
    set_size(ctx, op, seg, size - 1);
    operand
}

/// Puts a value at the end of a segment, and answers its index there. The growth comes before the first change.
pub(crate) fn push_last<D: OpSet>(
    ctx: &mut Context<D>,
    op: Ptr<Operation>,
    seg: usize,
    operand: Value,
) -> Result<usize, Memory>
    requires live { IsLive ctx.old (IRNode.Operation op) }
    requires segmented { IsSegmented ctx.old op }
    requires below { seg < num_segments ctx.old op }
    requires room { segment_size ctx.old op seg < 2 ^ 32 - 1 }
    requires operand_live { IsValueLive ctx.old operand }
    ensures index { IfOk result (λ i. i ≡ segment_size ctx.old op seg) }
    ensures ok { OnOk result (IsResegmented ctx.old ctx.new op
        (edit_at seg (λ xs. xs ++ operand ∷ []) (segments_of ctx.old op))) }
    ensures operands { OnOk result (operands_of ctx.new op ≡ insert (operands_of ctx.old op)
        (segment_places ctx.old op seg).1 operand) }
    ensures err { OnErr result (ctx.new ≡ ctx.old) }
    ensures whole { IsWellFormed D.attr_handles ctx.new }
{
    let size = size_of(ctx, op, seg) as usize;
    insert_at(ctx, op, seg, size, operand)?;
    Ok(size)
}

/// Takes the last value out of a segment that isn't empty. Takes no memory.
pub(crate) fn pop_last<D: OpSet>(ctx: &mut Context<D>, op: Ptr<Operation>, seg: usize) -> Value
    requires live { IsLive ctx.old (IRNode.Operation op) }
    requires segmented { IsSegmented ctx.old op }
    requires below { seg < num_segments ctx.old op }
    requires filled { 0 < segment_size ctx.old op seg }
    ensures value { slice_get (segment_at (segments_of ctx.old op) seg) (segment_size ctx.old op seg - 1)
        ≡ Some result }
    ensures after { IsResegmented ctx.old ctx.new op (edit_at seg (λ xs. take (length xs - 1) xs)
        (segments_of ctx.old op)) }
    ensures operands { operands_of ctx.new op
        ≡ remove (operands_of ctx.old op) ((segment_places ctx.old op seg).1 - 1) }
    ensures whole { IsWellFormed D.attr_handles ctx.new }
{
    let size = size_of(ctx, op, seg) as usize;
    remove_at(ctx, op, seg, size - 1)
}
