//! Chains of sums, of constants and of zeros.
ghost use Rattle.std.specs.Prelude.{OnOk};
ghost use Rattle.plir_core.specs.ContextView.{IsLive};
ghost use Rattle.plir_core.specs.declared.ptr.IRNode.{IRNode as AnyNode};

use crate::building::{add_op, build_root, first_result};
use crate::chains::{add_user, add_value};
use crate::kinds::{BenchKind, BenchSet};
use crate::order::{Order, put_op};
use crate::stop::Stop;
use crate::types::{WIDTH, integer_type, value_type};
use plir_builtin::MaterializableAttr;
use plir_core::{BasicBlock, Context, Operation, Ptr};
use plir_data::{APInt, IntegerAttr, OpKind};
use std::alloc::Global;

/// A module of a constant of one and so many sums, each of which adds it to the operation before, from the constant
/// itself on; and of an operation that uses the last sum.
pub fn build_sums(
    alloc: Global,
    ctx: &mut Context<BenchSet>,
    number: u64,
    order: Order,
) -> Result<Ptr<Operation>, Stop> {
    let (root, body) = build_root(alloc, ctx)?;
    let one = add_constant(alloc, ctx, body, 1, order)?;
    add_sums(alloc, ctx, body, one, one, number, order)?;
    Ok(root)
}

/// A module of an integer that is not known and so many sums, each of which adds a constant of zero to the operation
/// before; and of an operation that uses the last sum.
pub fn build_zeros(
    alloc: Global,
    ctx: &mut Context<BenchSet>,
    number: u64,
    order: Order,
) -> Result<Ptr<Operation>, Stop> {
    let (root, body) = build_root(alloc, ctx)?;
    let zero = add_constant(alloc, ctx, body, 0, order)?;
    let unknown = add_value(alloc, ctx, body, OpKind::Func, None, order)?;
    add_sums(alloc, ctx, body, unknown, zero, number, order)?;
    Ok(root)
}

// Puts so many sums into a block, each of which adds the result of an operation to the one before, the first one to
// that of another operation, and an operation that uses the last.
fn add_sums(
    alloc: Global,
    ctx: &mut Context<BenchSet>,
    body: Ptr<BasicBlock>,
    first: Ptr<Operation>,
    added: Ptr<Operation>,
    number: u64,
    order: Order,
) -> Result<(), Stop>
    requires { IsLive ctx.old (AnyNode.BasicBlock body) }
{
    let mut last = first;
    for _ in 0..number {
        last = add_sum(alloc, ctx, body, last, added, order)?;
    }
    add_user(alloc, ctx, body, OpKind::Func, &[], Some(last), order)?;
    Ok(())
}

// Puts a constant integer into a block.
fn add_constant(
    alloc: Global,
    ctx: &mut Context<BenchSet>,
    body: Ptr<BasicBlock>,
    number: u64,
    order: Order,
) -> Result<Ptr<Operation>, Stop>
    requires { IsLive ctx.old (AnyNode.BasicBlock body) }
    ensures { OnOk result (IsLive ctx.new (AnyNode.BasicBlock body)) }
{
    let ty = integer_type(ctx, WIDTH)?;
    let bits = APInt::from_u64(number, WIDTH).ok_or(Stop::Refused)?;
    let value = IntegerAttr::new(ty, bits);
    let constant = MaterializableAttr::<BenchSet>::materialize(&value, alloc, ctx)?;
    put_op(ctx, body, constant, order);
    Ok(constant)
}

// Puts an operation into a block that adds the first result of an operation to that of another one.
fn add_sum(
    alloc: Global,
    ctx: &mut Context<BenchSet>,
    body: Ptr<BasicBlock>,
    left: Ptr<Operation>,
    right: Ptr<Operation>,
    order: Order,
) -> Result<Ptr<Operation>, Stop>
    requires { IsLive ctx.old (AnyNode.BasicBlock body) }
    ensures { OnOk result (IsLive ctx.new (AnyNode.BasicBlock body)) }
{
    let ty = value_type(ctx)?;
    let values = [first_result(ctx, left)?, first_result(ctx, right)?];
    let sum = OpKind::Own(BenchKind::Sum);
    add_op(alloc, ctx, body, sum, &[ty], &values, order)
}
