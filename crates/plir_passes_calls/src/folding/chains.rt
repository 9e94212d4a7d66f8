//! Long chains of sums and of differences, laid out against their order.
ghost use Rattle.std.specs.Prelude.{◌≡◌, All, IfOk};
ghost use Rattle.plir_data.specs.Types.{AllLive, IsLive as IsTypeLive};
ghost use Rattle.plir_core.specs.ContextView.{IsValueLive};

use crate::folding::ToyKind;
use crate::folding::calls::bits_of;
use plir_builtin::MaterializableAttr;
use plir_core::{BasicBlock, Context, IRNode, Operation, Ptr, Region, Value};
use plir_data::{
    APInt, IntegerAttr, IntegerType, KindSet, OpKind, Signedness, TypeHandle, TypedHandle,
};
use plir_folding::{fold_constants, fold_values};
use plir_scripts::{InContext, Stop, in_new_context};
use std::alloc::Global;

/// The links of a chain.
const LINKS: usize = 4_000;

// The op set that the chains are of.
type ToySet = KindSet<ToyKind>;

/// What the links of a chain are.
#[derive(Clone, Copy, Debug)]
pub enum Links {
    /// Each adds 1 to the one before, from 1 on: constants fold.
    Ones,
    /// Each adds 0 to the one before, from 0 on: values fold.
    Zeros,
    /// Each subtracts the one before from 0, from 0 on: values fold, and each one shows that the next one does.
    Differences,
}

/// Where each link of a chain stands.
#[derive(Clone, Copy, Debug)]
pub enum Layout {
    /// Before the one that it uses, in the same block.
    OneBlock,
    /// In a block of its own, before that of the one that it uses.
    Blocks,
    /// Before all others and behind them, in turn, in one block.
    Zigzag,
}

// The type of the integers of a chain.
fn integer_type(ctx: &mut Context<ToySet>) -> Result<TypedHandle<IntegerType>, Stop>
    ensures live { IfOk result (IsTypeLive ctx.new.types) }
    ensures nodes { ctx.new.nodes ≡ ctx.old.nodes }
{
    Ok(IntegerType::get(ctx, 64, Signedness::Signed)?)
}

// A list of one type, that of the integers of a chain.
fn integer_types(alloc: Global, ctx: &mut Context<ToySet>) -> Result<Vec<TypeHandle>, Stop>
    ensures types { IfOk result (λ ts. AllLive ctx.new.types ts.items) }
    ensures nodes { ctx.new.nodes ≡ ctx.old.nodes }
{
    let ty = integer_type(ctx)?;
    let mut types = Vec::new(alloc);
    types.push(ty.into())?;
    Ok(types)
}

// Two operands, if they are live.
fn pair(alloc: Global, ctx: &Context<ToySet>, left: Value, right: Value) -> Result<Vec<Value>, Stop>
    ensures { IfOk result (λ vs. All (IsValueLive ctx.now) vs.items) }
{
    let mut values = Vec::new(alloc);
    if left.is_live(ctx) && right.is_live(ctx) {
        values.push(left)?;
        values.push(right)?;
    }
    Ok(values)
}

// A new constant of some bits, which stands nowhere.
fn make_constant(
    alloc: Global,
    ctx: &mut Context<ToySet>,
    bits: u64,
) -> Result<Ptr<Operation>, Stop> {
    let ty = integer_type(ctx)?;
    let value = APInt::from_u64(bits, 64).ok_or(Stop::Refused)?;
    let attr = IntegerAttr::new(ty, value);
    Ok(MaterializableAttr::<ToySet>::materialize(&attr, alloc, ctx)?)
}

// A new operation of a kind on two values, with one result, which stands nowhere.
fn make_op(
    alloc: Global,
    ctx: &mut Context<ToySet>,
    kind: ToyKind,
    left: Value,
    right: Value,
) -> Result<Ptr<Operation>, Stop> {
    let types = integer_types(alloc, ctx)?;
    let operands = pair(alloc, ctx, left, right)?;
    let successors = Vec::new(alloc);
    Ok(Operation::new(
        alloc,
        ctx,
        OpKind::Own(kind),
        types,
        operands,
        successors,
        0,
    )?)
}

// A new link behind a value, over the constant that a chain starts from. It stands nowhere.
fn make_link(
    alloc: Global,
    ctx: &mut Context<ToySet>,
    links: Links,
    value: Value,
    start: Value,
) -> Result<Ptr<Operation>, Stop> {
    match links {
        Links::Ones | Links::Zeros => make_op(alloc, ctx, ToyKind::Add, value, start),
        Links::Differences => make_op(alloc, ctx, ToyKind::Sub, start, value),
    }
}

// A new operation with a region, which stands nowhere.
fn make_root(alloc: Global, ctx: &mut Context<ToySet>) -> Result<Ptr<Operation>, Stop> {
    let results = Vec::new(alloc);
    let operands = Vec::new(alloc);
    let successors = Vec::new(alloc);
    Ok(Operation::new(alloc, ctx, OpKind::Func, results, operands, successors, 1)?)
}

// The region of an operation, if it is live and has one.
fn region_of(ctx: &Context<ToySet>, op: Ptr<Operation>) -> Result<Ptr<Region>, Stop> {
    if !op.is_live(ctx) {
        return Err(Stop::Refused);
    }
    op.first_region(ctx).ok_or(Stop::Refused)
}

// Puts a new block before all others of a region.
fn put_block(
    alloc: Global,
    ctx: &mut Context<ToySet>,
    region: Ptr<Region>,
) -> Result<Ptr<BasicBlock>, Stop> {
    let block = BasicBlock::new(alloc, ctx, None, Vec::new(alloc))?;
    if !region.is_live(ctx) || IRNode::BasicBlock(block).is_ancestor(ctx, IRNode::Region(region)) {
        return Err(Stop::Refused);
    }
    block.insert_at_front(ctx, region);
    Ok(block)
}

// Puts an operation that stands nowhere into a block, before all others or behind them. Answers its first result.
fn put_op(
    ctx: &mut Context<ToySet>,
    op: Ptr<Operation>,
    block: Ptr<BasicBlock>,
    is_first: bool,
) -> Result<Value, Stop> {
    if !op.is_live(ctx) || !block.is_live(ctx) || op.get_num_results(ctx) == 0 {
        return Err(Stop::Refused);
    }
    if op.get_parent_block(ctx).is_some()
        || IRNode::Operation(op).is_ancestor(ctx, IRNode::BasicBlock(block))
    {
        return Err(Stop::Refused);
    }
    let value = op.get_result(ctx, 0);
    if is_first {
        op.insert_at_front(ctx, block);
    } else {
        op.insert_at_back(ctx, block);
    }
    Ok(value)
}

// Puts a link where the layout has it.
fn put_link(
    alloc: Global,
    ctx: &mut Context<ToySet>,
    block: Ptr<BasicBlock>,
    region: Ptr<Region>,
    layout: Layout,
    op: Ptr<Operation>,
    place: usize,
) -> Result<Value, Stop> {
    match layout {
        Layout::OneBlock => put_op(ctx, op, block, true),
        Layout::Zigzag => put_op(ctx, op, block, place % 2 == 0),
        Layout::Blocks => {
            let own = put_block(alloc, ctx, region)?;
            put_op(ctx, op, own, true)
        }
    }
}

// Puts a chain into a region: the constant that it starts from, and its links. Answers the last.
fn put_chain(
    alloc: Global,
    ctx: &mut Context<ToySet>,
    region: Ptr<Region>,
    layout: Layout,
    links: Links,
) -> Result<Ptr<Operation>, Stop> {
    let bits = if matches!(links, Links::Ones) { 1 } else { 0 };
    let block = put_block(alloc, ctx, region)?;
    let mut last = make_constant(alloc, ctx, bits)?;
    let start = put_op(ctx, last, block, false)?;
    let mut value = start;
    for place in 0..LINKS {
        last = make_link(alloc, ctx, links, value, start)?;
        value = put_link(alloc, ctx, block, region, layout, last, place)?;
    }
    Ok(last)
}

// The bits of the integer that an operand of an operation is a constant of.
fn bits_at(ctx: &Context<ToySet>, op: Ptr<Operation>, place: usize) -> Option<u64> {
    if !op.is_live(ctx) || op.get_num_operands(ctx) <= place {
        return None;
    }
    bits_of(ctx, op.get_operand(ctx, place))
}

// Folds what its links ask for below an operation.
fn fold_below(
    alloc: Global,
    ctx: &mut Context<ToySet>,
    root: Ptr<Operation>,
    links: Links,
) -> Result<(), Stop> {
    if !root.is_live(ctx) {
        return Err(Stop::Refused);
    }
    let _any = match links {
        Links::Ones => fold_constants(alloc, ctx, root)?,
        Links::Zeros | Links::Differences => fold_values(alloc, ctx, root)?,
    };
    Ok(())
}

// Folds a chain: whether the last link of sums then adds one to a constant, and each other one but the first has one;
// and of values whether the last one then has what the chain starts from, and nothing has come.
fn fold_chain(
    alloc: Global,
    ctx: &mut Context<ToySet>,
    layout: Layout,
    links: Links,
) -> Result<bool, Stop> {
    let root = make_root(alloc, ctx)?;
    let region = region_of(ctx, root)?;
    let last = put_chain(alloc, ctx, region, layout, links)?;
    let built = ctx.num_live() as usize;
    fold_below(alloc, ctx, root, links)?;
    let made = (ctx.num_live() as usize).saturating_sub(built);
    Ok(match links {
        Links::Ones => made == LINKS - 1 && bits_at(ctx, last, 0) == Some(LINKS as u64),
        Links::Zeros => made == 0 && bits_at(ctx, last, 0) == Some(0),
        Links::Differences => made == 0 && bits_at(ctx, last, 1) == Some(0),
    })
}

// Folds in a new context.
#[derive(Drop)]
struct Chain {
    alloc: Global,
    layout: Layout,
    links: Links,
}

impl InContext<ToySet> for Chain {
    type Answer = Result<bool, Stop>;

    fn run(self, ctx: &mut Context<ToySet>) -> Result<bool, Stop> {
        fold_chain(self.alloc, ctx, self.layout, self.links)
    }
}

/// Whether a long chain of links that is laid out so folds.
pub fn folds(alloc: Global, layout: Layout, links: Links) -> Result<bool, Stop> {
    in_new_context(
        alloc,
        Chain {
            alloc,
            layout,
            links,
        },
    )
}
