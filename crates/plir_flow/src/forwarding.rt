//! The values that a branch forwards, beside the arguments of the block that gets them.
ghost use Rattle.std.specs.Prelude.{◌≡◌, ◌↔◌, ◌≤◌, Some, IsNone, IfSome, length};
ghost use Rattle.plir_core.specs.declared.ptr.IRNode.{IRNode};
ghost use Rattle.plir_core.specs.ContextView.{IsLive, operands_of};
ghost use Rattle.plir_core.specs.WellFormed.{IsWellFormed};
ghost use Rattle.plir_iface.specs.Verdict.{IsRefusalMemoryAside};
ghost use Rattle.plir_flow.specs.Branches.{types_within, argument_types, AgreesThroughout, IsMismatch};
ghost use Rattle.plir_flow.specs.Branches.{IsFirstMismatch, IsOfTypes, NamesLive, ReportsMismatch, in_branch};

use crate::branch_errors::{BranchOpInterfaceVerifyErr, Mismatch};
use crate::branches::BranchOpInterface;
use plir_core::{BasicBlock, Context, Operation, Ptr};
use plir_data::{OpSet, VerifyErr, type_text};
use plir_iface::{Op, refusal};
use std::alloc::Global;
use std::ops::Range;

// How the types of the operands in a range differ from those of a block's arguments.
fn find_mismatch<D: OpSet>(
    ctx: &Context<D>,
    op: Ptr<Operation>,
    range: Range<usize>,
    block: Ptr<BasicBlock>,
) -> Option<Mismatch>
    requires live { IsLive ctx.now (IRNode.Operation op) }
    requires ordered { range.start ≤ range.end }
    requires inside { range.end ≤ length (operands_of ctx.now op) }
    requires block_live { IsLive ctx.now (IRNode.BasicBlock block) }
    ensures none { IsNone result ↔ (types_within ctx.now op (range.start, range.end) ≡ argument_types ctx.now block) }
    ensures some { IfSome result (IsMismatch (types_within ctx.now op (range.start, range.end))
        (argument_types ctx.now block)) }
    ensures live { IfSome result (NamesLive ctx.now) }
    ensures whole { IsWellFormed D.attr_handles ctx.now }
{
    let _count = op.get_num_operands(ctx);
    let (start, end) = (range.start, range.end);
    let (provided, expected) = (end - start, block.get_num_arguments(ctx));
    if provided != expected {
        return Some(Mismatch::Count(provided, expected));
    }
    for idx in 0..expected {
        let forwarded = op.get_operand(ctx, start + idx).get_type(ctx);
        let wanted = block.get_type(ctx, idx);
        if forwarded != wanted {
            return Some(Mismatch::Differ(idx, forwarded, wanted));
        }
    }
    None
}

/// How the types of what the first successor gets that doesn't get the right ones differ from those of its arguments.
pub(crate) fn find_first_mismatch<D: OpSet, O: BranchOpInterface<D>>(
    ctx: &Context<D>,
    branch: &O,
) -> Option<Mismatch>
    requires live { IsLive ctx.now (IRNode.Operation (O.pointer branch.now)) }
    requires layout { O.has_layout branch.now ctx.now }
    ensures none { IsNone result ↔ AgreesThroughout ctx.now (O.pointer branch.now) (O.forwards branch.now ctx.now) }
    ensures some { IfSome result (IsFirstMismatch ctx.now (O.pointer branch.now) (O.forwards branch.now ctx.now)) }
    ensures live { IfSome result (NamesLive ctx.now) }
    ensures whole { IsWellFormed D.attr_handles ctx.now }
{
    let op = branch.get_operation();
    for i in 0..op.get_num_successors(ctx) {
        let range = branch.successor_operand_range(ctx, i);
        let found = find_mismatch(ctx, op, range, op.get_successor(ctx, i));
        if found.is_some() {
            return found;
        }
    }
    None
}

/// The refusal that reports a mismatch. Memory is wanted for the texts of types alone.
pub(crate) fn report<D: OpSet>(
    alloc: Global,
    ctx: &Context<D>,
    op: Ptr<Operation>,
    mismatch: Mismatch,
) -> VerifyErr<BranchOpInterfaceVerifyErr<D::Err>>
    requires live { IsLive ctx.now (IRNode.Operation op) }
    requires names_live { NamesLive ctx.now mismatch }
    ensures reported { IsRefusalMemoryAside ctx.now op (ReportsMismatch D.type_id D.type_body_text ctx.now mismatch)
        result }
    ensures memory { result ≡ VerifyErr.Memory → IsOfTypes mismatch }
    ensures whole { IsWellFormed D.attr_handles ctx.now }
{
    ctx.stands();
    let err = match mismatch {
        Mismatch::Count(provided, expected) => {
            BranchOpInterfaceVerifyErr::SuccessorOperandsMismatch { provided, expected }
        }
        Mismatch::Differ(idx, forwarded, expected) => {
            let Ok(forwarded) = type_text(alloc, ctx, forwarded) else {
                return VerifyErr::Memory;
            };
            let Ok(expected) = type_text(alloc, ctx, expected) else {
                return VerifyErr::Memory;
            };
            BranchOpInterfaceVerifyErr::SuccessorOperandTypeMismatch {
                idx,
                forwarded,
                expected,
            }
        }
    };
    refusal(ctx, op, err)
}

/// The refusal of a layout as that of a branch, at the same location.
pub(crate) fn as_layout<E>(refused: VerifyErr<E>) -> VerifyErr<BranchOpInterfaceVerifyErr<E>>
    ensures { result ≡ in_branch refused }
{
    match refused {
        VerifyErr::Refused { loc, err } => VerifyErr::Refused {
            loc,
            err: BranchOpInterfaceVerifyErr::Layout(err),
        },
        VerifyErr::Memory => VerifyErr::Memory,
    }
}
