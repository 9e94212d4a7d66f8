//! The sizes of an operation's segments, in its attributes.
ghost use Rattle.std.specs.Prelude.{◌≡◌, ◌<◌, ◌≤◌, ◌+◌, length, sum, slice_set, option_map, IsSome};
ghost use Rattle.plir_data.specs.AttrSeen.{attr_view};
ghost use Rattle.plir_data.specs.AttrView.{leaf, unit};
ghost use Rattle.plir_data.specs.Dictionary.{dict_get};
ghost use Rattle.plir_core.specs.declared.ptr.IRNode.{IRNode};
ghost use Rattle.plir_core.specs.ContextView.{IsLive, operands_of, attributes_of};
ghost use Rattle.plir_core.specs.WellFormed.{IsWellFormed};
ghost use Rattle.plir_core.specs.Changes.{with_op_edit};
ghost use Rattle.plir_flow.specs.Segments.{sizes_in, sizes_under, sizes_of, sizes_key, sizes_attr, with_sizes};
ghost use Rattle.plir_flow.specs.Segments.{num_segments, segment_size, segments_of, start_in, IsSegmented};

use plir_core::{Context, Operation, Ptr, laws};
use plir_data::{AttrObj, OpSet, OperandSegmentSizesAttr, UnitAttr};

/// The key under which the sizes of segments stand.
pub const ATTR_KEY_OPERAND_SEGMENT_SIZES: &'static str = "builtin_operand_segment_sizes";

/// The sum of sizes, which may be more than a `u32` holds.
pub(crate) fn total(sizes: &[u32]) -> u128
    ensures { result ≡ sum sizes.now }
{
    let mut total: u128 = 0;
    for size in sizes {
        total += u128::from(*size);
    }
    total
}

// The sizes in an attribute of sizes.
fn sizes_in<D: OpSet>(attribute: &AttrObj<D>) -> Option<&OperandSegmentSizesAttr>
    ensures { option_map (λ sizes. sizes.now) result ≡ sizes_in (attr_view attribute.now) }
{
    match attribute {
        AttrObj::OperandSegmentSizes(sizes) => Some(sizes),
        _ => None,
    }
}

/// The sizes of an operation's segments, if it has them.
pub(crate) fn find_sizes<D: OpSet>(
    ctx: &Context<D>,
    op: Ptr<Operation>,
) -> Option<&OperandSegmentSizesAttr>
    requires { IsLive ctx.now (IRNode.Operation op) }
    ensures value { option_map (λ sizes. sizes.now) result ≡ sizes_under ctx.now op }
    ensures whole { IsWellFormed D.attr_handles ctx.now }
{
    let attribute = op.attributes(ctx).get(ATTR_KEY_OPERAND_SEGMENT_SIZES)?;
    sizes_in(attribute)
}

/// The sizes of an operation's segments, which it has.
pub(crate) fn sizes_of<D: OpSet>(ctx: &Context<D>, op: Ptr<Operation>) -> &OperandSegmentSizesAttr
    requires live { IsLive ctx.now (IRNode.Operation op) }
    requires present { IsSome (sizes_under ctx.now op) }
    ensures value { result.now ≡ sizes_of ctx.now op }
    ensures whole { IsWellFormed D.attr_handles ctx.now }
{
    find_sizes(ctx, op).unwrap()
}

/// How many operands stand before a segment, from 0; past the last segment, how many there are.
pub(crate) fn start_of<D: OpSet>(ctx: &Context<D>, op: Ptr<Operation>, seg: usize) -> usize
    requires live { IsLive ctx.now (IRNode.Operation op) }
    requires segmented { IsSegmented ctx.now op }
    requires within { seg ≤ num_segments ctx.now op }
    ensures value { result ≡ start_in (sizes_of ctx.now op) seg }
    ensures inside { result + segment_size ctx.now op seg ≤ length (operands_of ctx.now op) }
    ensures whole { IsWellFormed D.attr_handles ctx.now }
{
    let _count = op.get_num_operands(ctx);
    let sizes = sizes_of(ctx, op).0.as_slice();
    total(&sizes[..seg]) as usize
}

/// The index among all operands of the one at an index of a segment.
pub(crate) fn place_among<D: OpSet>(
    ctx: &Context<D>,
    op: Ptr<Operation>,
    seg: usize,
    place: usize,
) -> usize
    requires live { IsLive ctx.now (IRNode.Operation op) }
    requires segmented { IsSegmented ctx.now op }
    requires below { seg < num_segments ctx.now op }
    requires within { place ≤ segment_size ctx.now op seg }
    ensures value { result ≡ start_in (sizes_of ctx.now op) seg + place }
    ensures inside { result + segment_size ctx.now op seg ≤ length (operands_of ctx.now op) + place }
    ensures whole { IsWellFormed D.attr_handles ctx.now }
{
    let _count = op.get_num_operands(ctx);
    start_of(ctx, op, seg) + place
}

/// The size of a segment, from 0; past the last one it is 0.
pub(crate) fn size_of<D: OpSet>(ctx: &Context<D>, op: Ptr<Operation>, seg: usize) -> u32
    requires live { IsLive ctx.now (IRNode.Operation op) }
    requires present { IsSome (sizes_under ctx.now op) }
    ensures value { result ≡ segment_size ctx.now op seg }
    ensures whole { IsWellFormed D.attr_handles ctx.now }
{
    let sizes = sizes_of(ctx, op).0.as_slice();
    if seg < sizes.len() { sizes[seg] } else { 0 }
}

// Takes the sizes out, so that they can be edited; something else stands under their key until they are put back.
fn take_sizes<D: OpSet>(ctx: &mut Context<D>, op: Ptr<Operation>) -> OperandSegmentSizesAttr
    requires live { IsLive ctx.old (IRNode.Operation op) }
    requires present { IsSome (sizes_under ctx.old op) }
    ensures value { result ≡ sizes_of ctx.old op }
    ensures after { ctx.new ≡ with_op_edit ctx.old op (with_sizes (leaf unit)) }
    ensures whole { IsWellFormed D.attr_handles ctx.new }
{
    match op.swap_attr(ctx, ATTR_KEY_OPERAND_SEGMENT_SIZES, AttrObj::Unit(UnitAttr)) {
        Ok(AttrObj::OperandSegmentSizes(sizes)) => sizes,
        _ => unreachable!(),
    }
}

// Puts sizes in place of what stands under their key.
fn restore_sizes<D: OpSet>(ctx: &mut Context<D>, op: Ptr<Operation>, sizes: OperandSegmentSizesAttr)
    requires live { IsLive ctx.old (IRNode.Operation op) }
    requires present { IsSome (dict_get (attributes_of ctx.old op) sizes_key) }
    ensures after { ctx.new ≡ with_op_edit ctx.old op (with_sizes (sizes_attr sizes)) }
    ensures whole { IsWellFormed D.attr_handles ctx.new }
{
    let sizes = AttrObj::OperandSegmentSizes(sizes);
    let _placeholder = op.swap_attr(ctx, ATTR_KEY_OPERAND_SEGMENT_SIZES, sizes);
}

/// Gives a segment, from 0, another size. Takes no memory.
pub(crate) fn set_size<D: OpSet>(ctx: &mut Context<D>, op: Ptr<Operation>, seg: usize, size: u32)
    requires live { IsLive ctx.old (IRNode.Operation op) }
    requires present { IsSome (sizes_under ctx.old op) }
    requires below { seg < num_segments ctx.old op }
    ensures after { ctx.new ≡ with_op_edit ctx.old op (with_sizes
        (sizes_attr (slice_set (sizes_of ctx.old op) seg size))) }
    ensures whole { IsWellFormed D.attr_handles ctx.new }
{
    laws::op_edits_join(ctx, op);
    laws::op_edits_keep_the_rest(ctx, op);
    let mut sizes = take_sizes(ctx, op);
    sizes.0[seg] = size;
    restore_sizes(ctx, op, sizes);
}

/// How many segments an operation has.
pub(crate) fn count_of<D: OpSet>(ctx: &Context<D>, op: Ptr<Operation>) -> usize
    requires live { IsLive ctx.now (IRNode.Operation op) }
    requires present { IsSome (sizes_under ctx.now op) }
    ensures value { result ≡ num_segments ctx.now op }
    ensures count { result ≡ length (segments_of ctx.now op) }
    ensures whole { IsWellFormed D.attr_handles ctx.now }
{
    sizes_of(ctx, op).0.len()
}
