//! The operands at indices in a row.
ghost use Rattle.std.specs.Prelude.{◌≡◌, ◌≤◌, All, IfOk, length, slice_range};
ghost use Rattle.plir_core.specs.declared.ptr.IRNode.{IRNode};
ghost use Rattle.plir_core.specs.ContextView.{IsLive, IsValueLive, operands_of};
ghost use Rattle.plir_core.specs.WellFormed.{IsWellFormed};

use plir_core::{Context, Operation, Ptr, Value};
use plir_data::{Memory, OpSet};
use std::alloc::Global;
use std::ops::Range;

/// The operands of an operation in a range of indices, in order.
pub(crate) fn operands_in<D: OpSet>(
    alloc: Global,
    ctx: &Context<D>,
    op: Ptr<Operation>,
    range: Range<usize>,
) -> Result<Vec<Value>, Memory>
    requires live { IsLive ctx.now (IRNode.Operation op) }
    requires ordered { range.start ≤ range.end }
    requires inside { range.end ≤ length (operands_of ctx.now op) }
    ensures value { IfOk result (λ vs. vs.items ≡ slice_range (operands_of ctx.now op) range.start range.end) }
    ensures live { IfOk result (λ vs. All (IsValueLive ctx.now) vs.items) }
    ensures whole { IsWellFormed D.attr_handles ctx.now }
{
    let _count = op.get_num_operands(ctx);
    let (start, end) = (range.start, range.end);
    let mut values = Vec::new(alloc);
    for place in start..end {
        values.push(op.get_operand(ctx, place))?;
    }
    Ok(values)
}
