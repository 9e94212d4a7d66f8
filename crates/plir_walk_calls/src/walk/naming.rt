//! The calls on names of results and arguments.
ghost use Rattle.plir_core.specs.ContextView.{IsLive};
ghost use Rattle.plir_core.specs.declared.ptr.IRNode.{IRNode as AnyNode};

use plir_core::{BasicBlock, Context, IRNode, Operation, Ptr};
use plir_data::{Identifier, OpSet};
use plir_scripts::{Bench, Line, Stop, label_of, number};
use plir_walk::GivenNamesErr;
use plir_walk::given_names::{
    erase_given_names, get_block_arg_name, get_operation_result_name, insert_block_arg_name,
    insert_operation_result_name, remove_block_arg_name, remove_operation_result_name,
    set_block_arg_name, set_operation_result_name,
};
use std::alloc::Global;

/// Does what a line says of names: `set-name NODE PLACE NAME`, `insert-name NODE PLACE NAME`, where `-` unsets,
/// `remove-name NODE PLACE`, `names NODE`, which writes the first four, or `erase-names OP`.
pub fn name<D: OpSet>(bench: &mut Bench<D>, line: Line<'_>) -> Result<(), Stop> {
    match line.command {
        "erase-names" => {
            let op = bench.made.op(&bench.ctx, line.first)?;
            erase_given_names(&mut bench.ctx, op);
            Ok(())
        }
        "names" => put_names(bench, line),
        _ => match edit_names(bench, line)? {
            Ok(()) => Ok(()),
            Err(GivenNamesErr::GivenNamesIncorrect) => {
                bench.answer.put("incorrect");
                Ok(())
            }
            Err(GivenNamesErr::Memory) => Err(Stop::Memory),
        },
    }
}

fn edit_names<D: OpSet>(
    bench: &mut Bench<D>,
    line: Line<'_>,
) -> Result<Result<(), GivenNamesErr>, Stop> {
    match bench.made.live(&bench.ctx, line.first)? {
        IRNode::Operation(op) => edit_op(bench.alloc, &mut bench.ctx, op, line),
        IRNode::BasicBlock(block) => edit_block(bench.alloc, &mut bench.ctx, block, line),
        IRNode::Region(_) => Err(Stop::Refused),
    }
}

fn edit_op<D: OpSet>(
    alloc: Global,
    ctx: &mut Context<D>,
    op: Ptr<Operation>,
    line: Line<'_>,
) -> Result<Result<(), GivenNamesErr>, Stop>
    requires { IsLive ctx.old (AnyNode.Operation op) }
{
    let place = number(line.second)?;
    let name = label_of(alloc, line.third)?;
    let count = op.get_num_results(ctx);
    match line.command {
        "set-name" if place < count => {
            Ok(set_operation_result_name(alloc, ctx, op, place, name))
        }
        "insert-name" if place <= count => {
            Ok(insert_operation_result_name(alloc, ctx, op, place, name))
        }
        "remove-name" if place < count => Ok(remove_operation_result_name(ctx, op, place).map_err(
            |_| GivenNamesErr::GivenNamesIncorrect,
        )),
        _ => Err(Stop::Refused),
    }
}

fn edit_block<D: OpSet>(
    alloc: Global,
    ctx: &mut Context<D>,
    block: Ptr<BasicBlock>,
    line: Line<'_>,
) -> Result<Result<(), GivenNamesErr>, Stop>
    requires { IsLive ctx.old (AnyNode.BasicBlock block) }
{
    let place = number(line.second)?;
    let name = label_of(alloc, line.third)?;
    let count = block.get_num_arguments(ctx);
    match line.command {
        "set-name" if place < count => Ok(set_block_arg_name(alloc, ctx, block, place, name)),
        "insert-name" if place <= count => Ok(insert_block_arg_name(
            alloc, ctx, block, place, name,
        )),
        "remove-name" if place < count => Ok(remove_block_arg_name(ctx, block, place).map_err(
            |_| GivenNamesErr::GivenNamesIncorrect,
        )),
        _ => Err(Stop::Refused),
    }
}

// Writes the first four names of results or arguments, `-` for one that isn't set.
fn put_names<D: OpSet>(bench: &mut Bench<D>, line: Line<'_>) -> Result<(), Stop> {
    let (ctx, made, answer) = (&bench.ctx, &bench.made, &mut bench.answer);
    let node = made.live(ctx, line.first)?;
    for place in 0..4 {
        answer.put(" ");
        answer.put(name_at(ctx, node, place).map_or("-", |name| name.as_str()));
    }
    Ok(())
}

// The name at a place.
fn name_at<D: OpSet>(ctx: &Context<D>, node: IRNode, place: usize) -> Option<&Identifier>
    requires { IsLive ctx.now node }
{
    match node {
        IRNode::Operation(op) => get_operation_result_name(ctx, op, place),
        IRNode::BasicBlock(block) => get_block_arg_name(ctx, block, place),
        IRNode::Region(_) => None,
    }
}
