//! The modules that are measured.
ghost use Rattle.std.specs.Prelude.{All, IfOk, OnOk};
ghost use Rattle.plir_data.specs.Types.{AllLive};
ghost use Rattle.plir_core.specs.Made.{IsMade};
ghost use Rattle.plir_core.specs.ContextView.{IsLive, IsValueLive};
ghost use Rattle.plir_core.specs.declared.ptr.IRNode.{IRNode as AnyNode};

use crate::kinds::{BenchKind, BenchSet};
use crate::order::{Order, put_op};
use crate::stop::Stop;
use plir_builtin::{FuncOp, ModuleOp};
use plir_core::{BasicBlock, Context, Operation, Ptr, Region, Value};
use plir_data::{FunctionType, Identifier, OpKind, TypeHandle};
use std::alloc::Global;

/// The name of the function of a number.
pub fn name_of(alloc: Global, number: u64) -> Result<Identifier, Stop> {
    let name = format!(in alloc; "f{number}")?;
    Ok(Identifier::try_new(alloc, name.as_str())?)
}

/// A module of functions without arguments and results, named by their numbers from 0.
pub fn build_functions(
    alloc: Global,
    ctx: &mut Context<BenchSet>,
    functions: u64,
) -> Result<Ptr<Operation>, Stop> {
    let (root, body) = build_root(alloc, ctx)?;
    for number in 0..functions {
        add_plain_function(alloc, ctx, body, number, Order::Along)?;
    }
    Ok(root)
}

/// A module of operations without attributes, each with a region and a block.
pub fn build_bare(
    alloc: Global,
    ctx: &mut Context<BenchSet>,
    operations: u64,
) -> Result<Ptr<Operation>, Stop> {
    let (root, body) = build_root(alloc, ctx)?;
    for _ in 0..operations {
        add_bare(alloc, ctx, body)?;
    }
    Ok(root)
}

/// A module, and its body.
pub fn build_root(
    alloc: Global,
    ctx: &mut Context<BenchSet>,
) -> Result<(Ptr<Operation>, Ptr<BasicBlock>), Stop>
    ensures { IfOk result (λ x. IsLive ctx.new (AnyNode.BasicBlock x.1)) }
{
    let name = Identifier::try_new(alloc, "root")?;
    let module = ModuleOp::new(alloc, ctx, name)?;
    let root = module.operation();
    let body = body_of(ctx, root)?;
    Ok((root, body))
}

/// Puts the function of a number into a block, without arguments and results.
pub fn add_plain_function(
    alloc: Global,
    ctx: &mut Context<BenchSet>,
    body: Ptr<BasicBlock>,
    number: u64,
    order: Order,
) -> Result<Ptr<Operation>, Stop>
    requires { IsLive ctx.old (AnyNode.BasicBlock body) }
    ensures { OnOk result (IsLive ctx.new (AnyNode.BasicBlock body)) }
{
    add_function(
        alloc,
        ctx,
        body,
        number,
        Vec::new(alloc),
        Vec::new(alloc),
        order,
    )
}

/// Puts the function of a number into a block, with arguments and results of these types.
pub fn add_function(
    alloc: Global,
    ctx: &mut Context<BenchSet>,
    body: Ptr<BasicBlock>,
    number: u64,
    arguments: Vec<TypeHandle>,
    results: Vec<TypeHandle>,
    order: Order,
) -> Result<Ptr<Operation>, Stop>
    requires body_live { IsLive ctx.old (AnyNode.BasicBlock body) }
    requires arguments_live { AllLive ctx.old.types arguments.items }
    requires results_live { AllLive ctx.old.types results.items }
    ensures { OnOk result (IsLive ctx.new (AnyNode.BasicBlock body)) }
{
    let func = make_function(alloc, ctx, number, arguments, results)?;
    put_op(ctx, body, func, order);
    Ok(func)
}

// The function of a number in no block, with arguments and results of these types.
fn make_function(
    alloc: Global,
    ctx: &mut Context<BenchSet>,
    number: u64,
    arguments: Vec<TypeHandle>,
    results: Vec<TypeHandle>,
) -> Result<Ptr<Operation>, Stop>
    requires arguments_live { AllLive ctx.old.types arguments.items }
    requires results_live { AllLive ctx.old.types results.items }
    ensures { IfOk result (λ p. IsMade ctx.old.nodes ctx.new.nodes (AnyNode.Operation p)) }
{
    let ty = FunctionType::get(ctx, arguments, results)?;
    let name = name_of(alloc, number)?;
    let func = FuncOp::new(alloc, ctx, name, ty)?;
    Ok(func.operation())
}

// Puts an operation with a region and a block behind all that stands in a block.
fn add_bare(alloc: Global, ctx: &mut Context<BenchSet>, body: Ptr<BasicBlock>) -> Result<(), Stop>
    requires { IsLive ctx.old (AnyNode.BasicBlock body) }
    ensures { OnOk result (IsLive ctx.new (AnyNode.BasicBlock body)) }
{
    let types = Vec::new(alloc);
    let operands = Vec::new(alloc);
    let successors = Vec::new(alloc);
    let op = make_op(alloc, ctx, OpKind::Func, types, operands, successors, 1)?;
    put_op(ctx, body, op, Order::Along);
    add_block(alloc, ctx, op)
}

// Puts a block into the first region of an operation.
fn add_block(alloc: Global, ctx: &mut Context<BenchSet>, op: Ptr<Operation>) -> Result<(), Stop>
    ensures { OnOk result ((n : AnyNode) → IsLive ctx.old n → IsLive ctx.new n) }
{
    let region = region_of(ctx, op)?;
    let block = make_block(alloc, ctx)?;
    block.insert_at_back(ctx, region);
    Ok(())
}

/// A new block without arguments, in no region.
pub fn make_block(alloc: Global, ctx: &mut Context<BenchSet>) -> Result<Ptr<BasicBlock>, Stop>
    ensures { IfOk result (λ p. IsMade ctx.old.nodes ctx.new.nodes (AnyNode.BasicBlock p)) }
{
    Ok(BasicBlock::new(alloc, ctx, None, Vec::new(alloc))?)
}

/// A new operation in no block, with so many regions.
pub fn make_op(
    alloc: Global,
    ctx: &mut Context<BenchSet>,
    kind: OpKind<BenchKind>,
    types: Vec<TypeHandle>,
    operands: Vec<Value>,
    successors: Vec<Ptr<BasicBlock>>,
    regions: usize,
) -> Result<Ptr<Operation>, Stop>
    requires types_live { AllLive ctx.old.types types.items }
    requires operands_live { All (IsValueLive ctx.old) operands.items }
    requires successors_live { All (λ b. IsLive ctx.old (AnyNode.BasicBlock b)) successors.items }
    ensures { IfOk result (λ p. IsMade ctx.old.nodes ctx.new.nodes (AnyNode.Operation p)) }
{
    Ok(Operation::new(alloc, ctx, kind, types, operands, successors, regions)?)
}

/// Puts an operation without regions and successors into a block, as the order of its operations asks.
pub fn add_op(
    alloc: Global,
    ctx: &mut Context<BenchSet>,
    body: Ptr<BasicBlock>,
    kind: OpKind<BenchKind>,
    types: &[TypeHandle],
    operands: &[Value],
    order: Order,
) -> Result<Ptr<Operation>, Stop>
    requires body_live { IsLive ctx.old (AnyNode.BasicBlock body) }
    requires types_live { AllLive ctx.old.types types.now }
    requires operands_live { All (IsValueLive ctx.old) operands.now }
    ensures { OnOk result (IsLive ctx.new (AnyNode.BasicBlock body)) }
{
    let types = Vec::from_slice(alloc, types)?;
    let operands = Vec::from_slice(alloc, operands)?;
    let op = make_op(alloc, ctx, kind, types, operands, Vec::new(alloc), 0)?;
    put_op(ctx, body, op, order);
    Ok(op)
}

/// The first block of an operation that is live.
pub fn body_of(ctx: &Context<BenchSet>, op: Ptr<Operation>) -> Result<Ptr<BasicBlock>, Stop>
    ensures { IfOk result (λ block. IsLive ctx.now (AnyNode.BasicBlock block)) }
{
    let region = region_of(ctx, op)?;
    region.get_head(ctx).ok_or(Stop::Refused)
}

// The first region of an operation that is live.
fn region_of(ctx: &Context<BenchSet>, op: Ptr<Operation>) -> Result<Ptr<Region>, Stop>
    ensures { IfOk result (λ region. IsLive ctx.now (AnyNode.Region region)) }
{
    live_op(ctx, op)?;
    op.first_region(ctx).ok_or(Stop::Refused)
}

/// The first result of an operation that is live.
pub fn first_result(ctx: &Context<BenchSet>, op: Ptr<Operation>) -> Result<Value, Stop>
    ensures { IfOk result (IsValueLive ctx.now) }
{
    live_op(ctx, op)?;
    if op.get_num_results(ctx) == 0 {
        return Err(Stop::Refused);
    }
    Ok(op.get_result(ctx, 0))
}

/// Refuses an operation that is not live.
pub fn live_op(ctx: &Context<BenchSet>, op: Ptr<Operation>) -> Result<(), Stop>
    ensures { OnOk result (IsLive ctx.now (AnyNode.Operation op)) }
{
    if op.is_live(ctx) {
        Ok(())
    } else {
        Err(Stop::Refused)
    }
}

/// Refuses a block that is not live.
pub fn live_block(ctx: &Context<BenchSet>, block: Ptr<BasicBlock>) -> Result<(), Stop>
    ensures { OnOk result (IsLive ctx.now (AnyNode.BasicBlock block)) }
{
    if block.is_live(ctx) {
        Ok(())
    } else {
        Err(Stop::Refused)
    }
}
