//! Calls of a function.
ghost use Rattle.std.specs.Prelude.{IfOk};
ghost use Rattle.plir_core.specs.ContextView.{IsLive, IsValueLive};
ghost use Rattle.plir_core.specs.declared.ptr.IRNode.{IRNode as AnyNode};

use crate::building::{add_function, add_op, add_plain_function, body_of, build_root, live_block};
use crate::chains::{add_chain, add_user, add_value};
use crate::flow::ATTR_KEY_CALLEE;
use crate::kinds::{BenchKind, BenchSet};
use crate::naming::put_name;
use crate::order::Order;
use crate::stop::Stop;
use crate::types::value_type;
use plir_core::{BasicBlock, Context, Operation, Ptr, Value};
use plir_data::OpKind;
use std::alloc::Global;

// How many operations stand in the function that is called behind the first one, besides what hands back.
const MORE: u64 = 9;

/// A module of a function that hands on its argument through ten constants, and of one that calls it so many times,
/// with what the call before handed back, and uses the last.
pub fn build_calls(
    alloc: Global,
    ctx: &mut Context<BenchSet>,
    number: u64,
    order: Order,
) -> Result<Ptr<Operation>, Stop> {
    let (root, body) = build_callee(alloc, ctx, order)?;
    add_caller(alloc, ctx, body, 1, number, order)?;
    Ok(root)
}

/// A module of that function, and of so many that call it once each.
pub fn build_callers(
    alloc: Global,
    ctx: &mut Context<BenchSet>,
    number: u64,
    order: Order,
) -> Result<Ptr<Operation>, Stop> {
    let (root, body) = build_callee(alloc, ctx, order)?;
    for place in 0..number {
        add_caller(alloc, ctx, body, place + 1, 1, order)?;
    }
    Ok(root)
}

// A module of the function that is called, and the module's body.
fn build_callee(
    alloc: Global,
    ctx: &mut Context<BenchSet>,
    order: Order,
) -> Result<(Ptr<Operation>, Ptr<BasicBlock>), Stop> {
    let (root, body) = build_root(alloc, ctx)?;
    let ty = value_type(ctx)?;
    let arguments = Vec::from_slice(alloc, &[ty])?;
    let results = Vec::from_slice(alloc, &[ty])?;
    let callee = add_function(alloc, ctx, body, 0, arguments, results, order)?;
    fill_callee(alloc, ctx, callee)?;
    Ok((root, body))
}

// Puts ten constants into a function, of which the first one uses its argument and each other one the one before, and
// what hands the last one back.
fn fill_callee(
    alloc: Global,
    ctx: &mut Context<BenchSet>,
    callee: Ptr<Operation>,
) -> Result<(), Stop> {
    let ty = value_type(ctx)?;
    let entry = body_of(ctx, callee)?;
    let argument = first_argument(ctx, entry)?;
    let (kind, along) = (OpKind::Constant, Order::Along);
    let first = add_op(alloc, ctx, entry, kind, &[ty], &[argument], along)?;
    let last = add_chain(alloc, ctx, entry, kind, Some(first), MORE, along)?;
    let back = OpKind::Own(BenchKind::Return);
    add_user(alloc, ctx, entry, back, &[], last, along)?;
    Ok(())
}

// The first argument of a block.
fn first_argument(ctx: &Context<BenchSet>, block: Ptr<BasicBlock>) -> Result<Value, Stop>
    requires { IsLive ctx.now (AnyNode.BasicBlock block) }
    ensures { IfOk result (IsValueLive ctx.now) }
{
    if block.get_num_arguments(ctx) == 0 {
        return Err(Stop::Refused);
    }
    Ok(block.get_argument(ctx, 0))
}

// Puts the function of a number into a block, with a constant, so many calls, and an operation that uses the last.
fn add_caller(
    alloc: Global,
    ctx: &mut Context<BenchSet>,
    body: Ptr<BasicBlock>,
    number: u64,
    calls: u64,
    order: Order,
) -> Result<(), Stop> {
    live_block(ctx, body)?;
    let caller = add_plain_function(alloc, ctx, body, number, order)?;
    let entry = body_of(ctx, caller)?;
    let mut last = add_value(alloc, ctx, entry, OpKind::Constant, None, Order::Along)?;
    for _ in 0..calls {
        last = add_call(alloc, ctx, entry, last)?;
    }
    live_block(ctx, entry)?;
    add_user(
        alloc,
        ctx,
        entry,
        OpKind::Func,
        &[],
        Some(last),
        Order::Along,
    )?;
    Ok(())
}

// Puts a call of the function of number 0 at the end of a block, with the result of another operation.
fn add_call(
    alloc: Global,
    ctx: &mut Context<BenchSet>,
    entry: Ptr<BasicBlock>,
    used: Ptr<Operation>,
) -> Result<Ptr<Operation>, Stop> {
    live_block(ctx, entry)?;
    let kind = OpKind::Own(BenchKind::Call);
    let call = add_value(alloc, ctx, entry, kind, Some(used), Order::Along)?;
    put_name(alloc, ctx, call, ATTR_KEY_CALLEE, 0)?;
    Ok(call)
}
