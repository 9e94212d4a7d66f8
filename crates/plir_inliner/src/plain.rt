//! Whether a body is plain, and what its copy costs.
ghost use Rattle.std.specs.Prelude.{◌↔◌, IfOk, IsTrue};
ghost use Rattle.plir_core.specs.declared.ptr.IRNode.{IRNode as AnyNode};
ghost use Rattle.plir_core.specs.declared.ptr.Operation.{Operation as OperationKind};
ghost use Rattle.plir_core.specs.declared.ptr.Ptr.{Ptr as AnyPtr};
ghost use Rattle.plir_core.specs.ContextView.{IsLive};
ghost use Rattle.plir_store.specs.Members.{Has};
ghost use Rattle.plir_inliner.specs.Known.{IsTold};
ghost use Rattle.plir_inliner.specs.Plain.{IsQuiet, MayStand, ReturnsAll};

use crate::listing::ops_below;
use crate::meaning::calls_by_name;
use plir_builtin::is_symbol;
use plir_core::laws::last_child_is_back;
use plir_core::{BasicBlock, Context, IRNode, Operation, Ptr};
use plir_data::Memory;
use plir_flow_sets::CallSet;
use std::alloc::Global;

// Whether an operation calls no function by its name, and is no symbol.
fn is_quiet<D: CallSet>(ctx: &Context<D>, op: Ptr<Operation>) -> bool
    requires { IsLive ctx.now (AnyNode.Operation op) }
    ensures { IsTrue result ↔ IsQuiet D.is_symbol D.call D.returned ctx.now op }
{
    if calls_by_name(ctx, op) {
        return false;
    }
    !is_symbol(ctx, op)
}

// Whether an operation hands all of its operands back.
fn returns_all<D: CallSet>(ctx: &Context<D>, op: Ptr<Operation>) -> bool
    requires { IsLive ctx.now (AnyNode.Operation op) }
    ensures { IsTrue result ↔ ReturnsAll D.is_symbol D.call D.returned ctx.now op }
{
    match D::returned_range(ctx, op) {
        Some(places) => places.start == 0 && places.end == op.get_num_operands(ctx),
        None => false,
    }
}

// Whether an operation may stand below a block that ends with another one, or is that one.
fn may_stand<D: CallSet>(ctx: &Context<D>, last: Ptr<Operation>, op: Ptr<Operation>) -> bool
    requires { IsLive ctx.now (AnyNode.Operation op) }
    ensures { IsTrue result ↔ MayStand D.is_symbol D.call D.returned ctx.now last op }
{
    if !is_quiet(ctx, op) {
        return false;
    }
    op == last || D::returned_range(ctx, op).is_none()
}

// Whether each of some operations may stand below a block that ends with one of them.
fn may_all_stand<D: CallSet>(ctx: &Context<D>, last: Ptr<Operation>, ops: &[Ptr<Operation>]) -> bool
    requires { (p : AnyPtr OperationKind) → Has ops.now p → IsLive ctx.now (AnyNode.Operation p) }
    ensures { IsTrue result ↔ ((p : AnyPtr OperationKind) → Has ops.now p →
        MayStand D.is_symbol D.call D.returned ctx.now last p) }
{
    for op in ops {
        if !may_stand(ctx, last, *op) {
            return false;
        }
    }
    true
}

/// What a copy of a block costs, if the block is plain. This looks at all operations below the block.
pub(crate) fn plain_cost<D: CallSet>(
    alloc: Global,
    ctx: &Context<D>,
    block: Ptr<BasicBlock>,
) -> Result<Option<usize>, Memory>
    requires { IsLive ctx.now (AnyNode.BasicBlock block) }
    ensures { IfOk result (IsTold D.is_symbol D.call D.returned ctx.now block) }
{
    ctx.stands();
    last_child_is_back(ctx, IRNode::BasicBlock(block));
    let Some(last) = block.get_tail(ctx) else {
        return Ok(None);
    };
    if !returns_all(ctx, last) {
        return Ok(None);
    }
    let ops = ops_below(alloc, ctx, block)?;
    if !may_all_stand(ctx, last, &ops) {
        return Ok(None);
    }
    Ok(Some(ops.len()))
}
