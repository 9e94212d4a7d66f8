//! Chains of operations of which each uses the one that was made before it.
ghost use Rattle.std.specs.Prelude.{OnOk};
ghost use Rattle.plir_data.specs.Types.{AllLive};
ghost use Rattle.plir_core.specs.ContextView.{IsLive};
ghost use Rattle.plir_core.specs.declared.ptr.IRNode.{IRNode as AnyNode};

use crate::building::{add_op, build_root, first_result};
use crate::kinds::{BenchKind, BenchSet};
use crate::order::Order;
use crate::stop::Stop;
use crate::types::value_type;
use plir_core::{BasicBlock, Context, Operation, Ptr};
use plir_data::{OpKind, TypeHandle};
use std::alloc::Global;

/// A module of two chains of so many constants, of which each uses the one before; the last of the first chain is used
/// by an operation that stays, and the second chain is dead.
pub fn build_chains(
    alloc: Global,
    ctx: &mut Context<BenchSet>,
    number: u64,
    order: Order,
) -> Result<Ptr<Operation>, Stop> {
    let (root, body) = build_root(alloc, ctx)?;
    let last = add_chain(alloc, ctx, body, OpKind::Constant, None, number, order)?;
    add_user(alloc, ctx, body, OpKind::Func, &[], last, order)?;
    add_chain(alloc, ctx, body, OpKind::Constant, None, number, order)?;
    Ok(root)
}

/// A module of a chain of so many forward references, of which each uses the one before.
pub fn build_references(
    alloc: Global,
    ctx: &mut Context<BenchSet>,
    number: u64,
    order: Order,
) -> Result<Ptr<Operation>, Stop> {
    let (root, body) = build_root(alloc, ctx)?;
    add_chain(alloc, ctx, body, OpKind::ForwardRef, None, number, order)?;
    Ok(root)
}

/// Puts so many operations with a result each into a block, of which each uses the one before it, and the first one
/// another one, if one is given. Answers the last.
pub fn add_chain(
    alloc: Global,
    ctx: &mut Context<BenchSet>,
    body: Ptr<BasicBlock>,
    kind: OpKind<BenchKind>,
    first: Option<Ptr<Operation>>,
    number: u64,
    order: Order,
) -> Result<Option<Ptr<Operation>>, Stop>
    requires { IsLive ctx.old (AnyNode.BasicBlock body) }
    ensures { OnOk result (IsLive ctx.new (AnyNode.BasicBlock body)) }
{
    let mut last = first;
    for _ in 0..number {
        last = Some(add_value(alloc, ctx, body, kind, last, order)?);
    }
    Ok(last)
}

/// Puts an operation with a result into a block, which uses the first result of another one, if one is given.
pub fn add_value(
    alloc: Global,
    ctx: &mut Context<BenchSet>,
    body: Ptr<BasicBlock>,
    kind: OpKind<BenchKind>,
    used: Option<Ptr<Operation>>,
    order: Order,
) -> Result<Ptr<Operation>, Stop>
    requires { IsLive ctx.old (AnyNode.BasicBlock body) }
    ensures { OnOk result (IsLive ctx.new (AnyNode.BasicBlock body)) }
{
    let ty = value_type(ctx)?;
    add_user(alloc, ctx, body, kind, &[ty], used, order)
}

/// Puts an operation into a block, which uses the first result of another one, if one is given.
pub fn add_user(
    alloc: Global,
    ctx: &mut Context<BenchSet>,
    body: Ptr<BasicBlock>,
    kind: OpKind<BenchKind>,
    types: &[TypeHandle],
    used: Option<Ptr<Operation>>,
    order: Order,
) -> Result<Ptr<Operation>, Stop>
    requires body_live { IsLive ctx.old (AnyNode.BasicBlock body) }
    requires types_live { AllLive ctx.old.types types.now }
    ensures { OnOk result (IsLive ctx.new (AnyNode.BasicBlock body)) }
{
    match used {
        None => add_op(alloc, ctx, body, kind, types, &[], order),
        Some(op) => {
            let value = first_result(ctx, op)?;
            add_op(alloc, ctx, body, kind, types, &[value], order)
        }
    }
}
