//! Chains of blocks.
ghost use Rattle.std.specs.Prelude.{IsSome, OnOk};
ghost use Rattle.plir_core.specs.ContextView.{IsLive, parent_of};
ghost use Rattle.plir_core.specs.declared.ptr.IRNode.{IRNode as AnyNode};

use crate::building::{body_of, build_functions, live_block, make_block, make_op};
use crate::chains::{add_user, add_value};
use crate::kinds::BenchSet;
use crate::order::{Order, first_op, put_op};
use crate::stop::Stop;
use plir_core::{BasicBlock, Context, Operation, Ptr};
use plir_data::OpKind;
use std::alloc::Global;

// A block, with its two constants.
#[derive(Clone, Copy)]
struct Step {
    block: Ptr<BasicBlock>,
    kept: Ptr<Operation>,
    dead: Ptr<Operation>,
}

/// A module of a function, in which control passes from its entry block through so many others, one after the other.
/// Each has two constants and a branch. The first constant uses the first one of the block before, and the second the
/// second; an operation that stays uses the last first one. Against the order, each block but the entry stands before
/// the one that control comes from.
pub fn build_blocks(
    alloc: Global,
    ctx: &mut Context<BenchSet>,
    number: u64,
    order: Order,
) -> Result<Ptr<Operation>, Stop> {
    let root = build_functions(alloc, ctx, 1)?;
    let entry = first_entry(ctx, root)?;
    let mut last = fill_block(alloc, ctx, entry, None)?;
    for _ in 0..number {
        last = add_step(alloc, ctx, entry, last, order)?;
    }
    live_block(ctx, last.block)?;
    let (kind, kept) = (OpKind::Func, Some(last.kept));
    add_user(alloc, ctx, last.block, kind, &[], kept, Order::Along)?;
    Ok(root)
}

// The entry block of the first function of a module.
fn first_entry(ctx: &Context<BenchSet>, root: Ptr<Operation>) -> Result<Ptr<BasicBlock>, Stop> {
    let body = body_of(ctx, root)?;
    let func = first_op(ctx, body).ok_or(Stop::Refused)?;
    body_of(ctx, func)
}

// Puts a block behind the last one, or right behind the entry, and lets control pass to it from the last one.
fn add_step(
    alloc: Global,
    ctx: &mut Context<BenchSet>,
    entry: Ptr<BasicBlock>,
    last: Step,
    order: Order,
) -> Result<Step, Stop> {
    let mark = match order {
        Order::Along => last.block,
        Order::Against => entry,
    };
    let block = add_block_behind(alloc, ctx, mark)?;
    add_branch(alloc, ctx, last.block, block)?;
    fill_block(alloc, ctx, block, Some(last))
}

// Refuses a block that is not live or stands in no region.
fn placed_block(ctx: &Context<BenchSet>, block: Ptr<BasicBlock>) -> Result<(), Stop>
    ensures live { OnOk result (IsLive ctx.now (AnyNode.BasicBlock block)) }
    ensures linked { OnOk result (IsSome (parent_of ctx.now (AnyNode.BasicBlock block))) }
{
    live_block(ctx, block)?;
    if block.get_parent_region(ctx).is_none() {
        return Err(Stop::Refused);
    }
    Ok(())
}

// A new block right behind another one.
fn add_block_behind(
    alloc: Global,
    ctx: &mut Context<BenchSet>,
    mark: Ptr<BasicBlock>,
) -> Result<Ptr<BasicBlock>, Stop> {
    live_block(ctx, mark)?;
    let block = make_block(alloc, ctx)?;
    placed_block(ctx, mark)?;
    block.insert_after(ctx, mark);
    Ok(block)
}

// Puts an operation at the end of a block that lets control pass to another one.
fn add_branch(
    alloc: Global,
    ctx: &mut Context<BenchSet>,
    from: Ptr<BasicBlock>,
    to: Ptr<BasicBlock>,
) -> Result<(), Stop> {
    live_block(ctx, from)?;
    live_block(ctx, to)?;
    let successors = Vec::from_slice(alloc, &[to])?;
    let (types, operands) = (Vec::new(alloc), Vec::new(alloc));
    let branch = make_op(alloc, ctx, OpKind::Func, types, operands, successors, 0)?;
    put_op(ctx, from, branch, Order::Along);
    Ok(())
}

// Puts two constants at the end of a block, which use those of the step before it, if there is one.
fn fill_block(
    alloc: Global,
    ctx: &mut Context<BenchSet>,
    block: Ptr<BasicBlock>,
    before: Option<Step>,
) -> Result<Step, Stop> {
    Ok(Step {
        block,
        kept: add_constant(alloc, ctx, block, before.map(|step| step.kept))?,
        dead: add_constant(alloc, ctx, block, before.map(|step| step.dead))?,
    })
}

// Puts a constant at the end of a block, which uses the first result of an operation, if there is one.
fn add_constant(
    alloc: Global,
    ctx: &mut Context<BenchSet>,
    block: Ptr<BasicBlock>,
    used: Option<Ptr<Operation>>,
) -> Result<Ptr<Operation>, Stop> {
    live_block(ctx, block)?;
    add_value(alloc, ctx, block, OpKind::Constant, used, Order::Along)
}
