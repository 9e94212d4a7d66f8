//! The call of copies.
ghost use Rattle.plir_core.specs.ContextView.{IsLive};
ghost use Rattle.plir_core.specs.declared.ptr.IRNode.{IRNode as AnyNode};
ghost use Rattle.plir_copies.specs.Images.{AreImagesLive, images};

use crate::new_names::name_all;
use plir_copies::{
    ValueMap, clone_block_into, clone_block_tree_into, clone_op_into, clone_tree_into,
};
use plir_core::{BasicBlock, Context, IRNode, Operation, Ptr};
use plir_data::OpSet;
use plir_scripts::{Answer, Bench, Line, Made, Stop};
use std::alloc::Global;

/// Does what a line says that copies: `copy NODE PAIRS`, where the node is an operation or a block, and a pair is
/// `FROM=TO`, two values or two blocks, or `call=OP`, the call in place of which the copy stands. Writes the name of
/// the copy, and then what each result of the operation, or each argument of the block, has become.
pub fn copy<D: OpSet>(bench: &mut Bench<D>, line: Line<'_>) -> Result<(), Stop> {
    let (_, pairs) = line.text.split_once(' ').unwrap_or(("", ""));
    let mut map = read_map(bench.alloc, &bench.ctx, &bench.made, pairs)?;
    let node = bench.made.live(&bench.ctx, line.first)?;
    if !map.is_live(&bench.ctx) {
        return Err(Stop::Refused);
    }
    match node {
        IRNode::Operation(op) => copy_op(bench, op, &mut map),
        IRNode::BasicBlock(block) => copy_block(bench, block, &mut map),
        IRNode::Region(_) => Err(Stop::Refused),
    }
}

fn copy_op<D: OpSet>(
    bench: &mut Bench<D>,
    op: Ptr<Operation>,
    map: &mut ValueMap,
) -> Result<(), Stop>
    requires live { IsLive bench.old.ctx (AnyNode.Operation op) }
    requires images_live { AreImagesLive bench.old.ctx (images map.old) }
{
    bench.made.ops.reserve(1)?;
    let copy = clone_op_into(bench.alloc, &mut bench.ctx, op, map)?;
    bench.made.ops.push(copy)?;
    bench.made.put_op(&mut bench.answer, Some(copy));
    put_results(&bench.ctx, &bench.made, &mut bench.answer, map, op);
    Ok(())
}

fn copy_block<D: OpSet>(
    bench: &mut Bench<D>,
    block: Ptr<BasicBlock>,
    map: &mut ValueMap,
) -> Result<(), Stop>
    requires live { IsLive bench.old.ctx (AnyNode.BasicBlock block) }
    requires images_live { AreImagesLive bench.old.ctx (images map.old) }
{
    bench.made.blocks.reserve(1)?;
    let copy = clone_block_into(bench.alloc, &mut bench.ctx, block, map)?;
    bench.made.blocks.push(copy)?;
    bench
        .made
        .put_block(&mut bench.answer, Some(map.block(block)));
    put_arguments(&bench.ctx, &bench.made, &mut bench.answer, map, block);
    Ok(())
}

/// Does what a line says that copies trees: `clone NODE PAIRS`, where the node is an operation or a block. Writes the
/// name of the copy; all that was made has names of its own from then on, each node before those below it.
pub fn clone_tree<D: OpSet>(bench: &mut Bench<D>, line: Line<'_>) -> Result<(), Stop> {
    let (_, pairs) = line.text.split_once(' ').unwrap_or(("", ""));
    let mut map = read_map(bench.alloc, &bench.ctx, &bench.made, pairs)?;
    let node = bench.made.live(&bench.ctx, line.first)?;
    if !map.is_live(&bench.ctx) {
        return Err(Stop::Refused);
    }
    let room = bench.ctx.num_live() as usize;
    bench.made.ops.reserve(room)?;
    bench.made.regions.reserve(room)?;
    bench.made.blocks.reserve(room)?;
    let copy = match node {
        IRNode::Operation(op) => IRNode::Operation(clone_tree_into(
            bench.alloc,
            &mut bench.ctx,
            op,
            &mut map,
        )?),
        IRNode::BasicBlock(block) => {
            IRNode::BasicBlock(clone_block_tree_into(bench.alloc, &mut bench.ctx, block, &mut map)?)
        }
        IRNode::Region(_) => return Err(Stop::Refused),
    };
    name_all(&bench.ctx, &mut bench.made, copy)?;
    bench.made.put_node(&mut bench.answer, copy);
    Ok(())
}

// The map that pairs make.
fn read_map<D: OpSet>(
    alloc: Global,
    ctx: &Context<D>,
    made: &Made,
    pairs: &str,
) -> Result<ValueMap, Stop> {
    let mut map = ValueMap::new(alloc);
    for pair in pairs.split_whitespace() {
        let Some((from, to)) = pair.split_once('=') else {
            return Err(Stop::Refused);
        };
        if from == "call" {
            map.set_call(made.op(ctx, to)?.loc(ctx));
        } else if from.contains('.') {
            map.map_value(made.value(ctx, from)?, made.value(ctx, to)?)?;
        } else {
            map.map_block(made.block(ctx, from)?, made.block(ctx, to)?)?;
        }
    }
    Ok(map)
}

// Writes what each result of an operation has become.
fn put_results<D: OpSet>(
    ctx: &Context<D>,
    made: &Made,
    answer: &mut Answer,
    map: &ValueMap,
    op: Ptr<Operation>,
)
    requires { IsLive ctx.now (AnyNode.Operation op) }
{
    for place in 0..op.get_num_results(ctx) {
        made.put_value(answer, map.value(op.get_result(ctx, place)));
    }
}

// Writes what each argument of a block has become.
fn put_arguments<D: OpSet>(
    ctx: &Context<D>,
    made: &Made,
    answer: &mut Answer,
    map: &ValueMap,
    block: Ptr<BasicBlock>,
)
    requires { IsLive ctx.now (AnyNode.BasicBlock block) }
{
    for place in 0..block.get_num_arguments(ctx) {
        made.put_value(answer, map.value(block.get_argument(ctx, place)));
    }
}
