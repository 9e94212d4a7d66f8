//! Large trees are erased whole.
ghost use Rattle.std.specs.Prelude.{IfOk};
ghost use Rattle.plir_core.specs.ContextView.{IsLive};
ghost use Rattle.plir_core.specs.declared.ptr.IRNode.{IRNode as AnyNode};

use plir_core::{BasicBlock, Context, IRNode, Operation, Ptr};
use plir_data::{BuiltinSet, OpKind};
use plir_scripts::{InContext, Stop, in_new_context};
use std::alloc::Global;
use std::test::Fail;

// A new module with one region and no block.
fn make_module(alloc: Global, ctx: &mut Context<BuiltinSet>) -> Result<Ptr<Operation>, Stop>
    ensures { IfOk result (λ op. IsLive ctx.new (AnyNode.Operation op)) }
{
    let results = Vec::new(alloc);
    let operands = Vec::new(alloc);
    let successors = Vec::new(alloc);
    let op = Operation::new(alloc, ctx, OpKind::Module, results, operands, successors, 1)?;
    Ok(op)
}

// A new block in the first region of an operation.
fn add_block(
    alloc: Global,
    ctx: &mut Context<BuiltinSet>,
    op: Ptr<Operation>,
) -> Result<Ptr<BasicBlock>, Stop> {
    let block = BasicBlock::new(alloc, ctx, None, Vec::new(alloc))?;
    if !op.is_live(ctx) || block.get_parent_region(ctx).is_some() {
        return Err(Stop::Refused);
    }
    let Some(region) = op.first_region(ctx) else {
        return Err(Stop::Refused);
    };
    if !region.is_live(ctx) || IRNode::BasicBlock(block).is_ancestor(ctx, IRNode::Region(region)) {
        return Err(Stop::Refused);
    }
    block.insert_at_back(ctx, region);
    Ok(block)
}

// Puts an operation at the end of a block.
fn append(
    ctx: &mut Context<BuiltinSet>,
    op: Ptr<Operation>,
    block: Ptr<BasicBlock>,
) -> Result<(), Stop> {
    if !op.is_live(ctx) || !block.is_live(ctx) || op.get_parent_block(ctx).is_some() {
        return Err(Stop::Refused);
    }
    if IRNode::Operation(op).is_ancestor(ctx, IRNode::BasicBlock(block)) {
        return Err(Stop::Refused);
    }
    op.insert_at_back(ctx, block);
    Ok(())
}

// Erases an operation with all below it.
fn erase(ctx: &mut Context<BuiltinSet>, op: Ptr<Operation>) -> Result<(), Stop> {
    if !op.is_live(ctx) || !IRNode::Operation(op).is_unused_outside(ctx) {
        return Err(Stop::Refused);
    }
    Operation::erase(op, ctx);
    Ok(())
}

// So many modules, each in the block of the next, with a block in each; answers the outermost.
fn nest(
    alloc: Global,
    ctx: &mut Context<BuiltinSet>,
    count: usize,
) -> Result<Ptr<Operation>, Stop> {
    let mut outermost = make_module(alloc, ctx)?;
    add_block(alloc, ctx, outermost)?;
    for _ in 1..count {
        let outer = make_module(alloc, ctx)?;
        let block = add_block(alloc, ctx, outer)?;
        append(ctx, outermost, block)?;
        outermost = outer;
    }
    Ok(outermost)
}

// So many operations in the block of a module, which is answered.
fn fill(
    alloc: Global,
    ctx: &mut Context<BuiltinSet>,
    count: usize,
) -> Result<Ptr<Operation>, Stop> {
    let module = make_module(alloc, ctx)?;
    let block = add_block(alloc, ctx, module)?;
    for _ in 0..count {
        let op = make_module(alloc, ctx)?;
        append(ctx, op, block)?;
    }
    Ok(module)
}

// Makes so many modules in one another, or so many operations in the block of one, in a new context, and erases the
// outermost; answers how many nodes were live before that and after it.
#[derive(Drop)]
struct MakesAndErases {
    alloc: Global,
    is_nested: bool,
    count: usize,
}

impl InContext<BuiltinSet> for MakesAndErases {
    type Answer = Result<(u32, u32), Stop>;

    fn run(self, ctx: &mut Context<BuiltinSet>) -> Result<(u32, u32), Stop> {
        let outermost = if self.is_nested {
            nest(self.alloc, ctx, self.count)?
        } else {
            fill(self.alloc, ctx, self.count)?
        };
        let made = ctx.num_live();
        erase(ctx, outermost)?;
        Ok((made, ctx.num_live()))
    }
}

#[test]
fn ten_thousand_modules_in_one_another(rt: HostRuntime) -> Result<(), Fail> {
    let alloc = rt.alloc();
    let task = MakesAndErases {
        alloc,
        is_nested: true,
        count: 10_000,
    };
    let live = in_new_context(alloc, task)?;
    assert!(rt; live == (30_000, 0));
    Ok(())
}

#[test]
fn a_hundred_thousand_operations_in_a_block(rt: HostRuntime) -> Result<(), Fail> {
    let alloc = rt.alloc();
    let task = MakesAndErases {
        alloc,
        is_nested: false,
        count: 100_000,
    };
    let live = in_new_context(alloc, task)?;
    assert!(rt; live == (200_003, 0));
    Ok(())
}

// Erases the operations of a block one by one, the last one first.
fn erase_one_by_one(
    ctx: &mut Context<BuiltinSet>,
    block: Ptr<BasicBlock>,
    count: usize,
) -> Result<(), Stop> {
    for _ in 0..count {
        if !block.is_live(ctx) {
            return Err(Stop::Refused);
        }
        let Some(op) = block.get_tail(ctx) else {
            return Err(Stop::Refused);
        };
        erase(ctx, op)?;
    }
    Ok(())
}

// Puts so many operations into a block of a new context, and erases them one by one; answers how many nodes were live
// before that and after it.
#[derive(Drop)]
struct ErasesOneByOne {
    alloc: Global,
    count: usize,
}

impl InContext<BuiltinSet> for ErasesOneByOne {
    type Answer = Result<(u32, u32), Stop>;

    fn run(self, ctx: &mut Context<BuiltinSet>) -> Result<(u32, u32), Stop> {
        let module = make_module(self.alloc, ctx)?;
        let block = add_block(self.alloc, ctx, module)?;
        for _ in 0..self.count {
            let op = make_module(self.alloc, ctx)?;
            append(ctx, op, block)?;
        }
        let made = ctx.num_live();
        erase_one_by_one(ctx, block, self.count)?;
        Ok((made, ctx.num_live()))
    }
}

#[test]
fn a_hundred_thousand_operations_one_by_one(rt: HostRuntime) -> Result<(), Fail> {
    let alloc = rt.alloc();
    let task = ErasesOneByOne {
        alloc,
        count: 100_000,
    };
    let live = in_new_context(alloc, task)?;
    assert!(rt; live == (200_003, 3));
    Ok(())
}
