//! The calls that ask.
ghost use Rattle.std.specs.Prelude.{IfOk};
ghost use Rattle.plir_core.specs.InsertionPoint.{IsPointLive};
ghost use Rattle.plir_core.specs.ContextView.{IsLive};
ghost use Rattle.plir_core.specs.declared.ptr.IRNode.{IRNode as AnyNode};

use crate::answer::Answer;
use crate::bench::Bench;
use crate::in_context::{InContext, in_new_context};
use crate::line::{Line, number};
use crate::made::Made;
use crate::question::{OfContents, OfNode, OfTypes, OfUses, Question};
use crate::showing::{put_attr, put_type, show};
use crate::stop::Stop;
use plir_core::{
    BasicBlock, Context, IRNode, Interface, OpInsertionPoint, Operation, Ptr, Use, Value,
    kind_impls, op_impls,
};
use plir_data::{GivenNamesAttr, OpSet};
use std::alloc::Global;

/// Writes what a line asks for.
pub fn ask<D: OpSet>(bench: &mut Bench<D>, question: Question, line: Line<'_>) -> Result<(), Stop> {
    match question {
        Question::Node(asked) => ask_node(bench, asked, line),
        Question::Uses(asked) => ask_uses(bench, asked, line),
        Question::Contents(asked) => ask_contents(bench, asked, line),
        Question::Types(asked) => ask_types(bench, asked, line),
        Question::Show => show_node(bench, line),
        Question::Fresh => {
            fresh::<D>(bench.alloc, &mut bench.answer);
            Ok(())
        }
    }
}

fn ask_node<D: OpSet>(bench: &mut Bench<D>, asked: OfNode, line: Line<'_>) -> Result<(), Stop> {
    let (ctx, made, answer) = (&bench.ctx, &bench.made, &mut bench.answer);
    match asked {
        OfNode::Live => answer.put_truth(made.node(line.first)?.is_live(ctx)),
        OfNode::Number => put_pointer(answer, made.node(line.first)?),
        OfNode::Above => above(ctx, made, answer, line)?,
        OfNode::Count => answer.put_number(ctx.num_live() as usize),
    }
    Ok(())
}

fn ask_uses<D: OpSet>(bench: &mut Bench<D>, asked: OfUses, line: Line<'_>) -> Result<(), Stop> {
    let (alloc, ctx, made, answer) = (bench.alloc, &bench.ctx, &bench.made, &mut bench.answer);
    match asked {
        OfUses::Unused => answer.put_truth(made.live(ctx, line.first)?.is_unused_outside(ctx)),
        OfUses::Used => answer.put_truth(made.value(ctx, line.first)?.has_uses(ctx)),
        OfUses::Count => answer.put_number(made.value(ctx, line.first)?.num_uses(ctx)),
        OfUses::Users => users(alloc, ctx, made, answer, made.value(ctx, line.first)?)?,
        OfUses::Branches => branches(alloc, ctx, made, answer, made.block(ctx, line.first)?)?,
    }
    Ok(())
}

fn show_node<D: OpSet>(bench: &mut Bench<D>, line: Line<'_>) -> Result<(), Stop> {
    let node = bench.made.live(&bench.ctx, line.first)?;
    show(
        bench.alloc,
        &bench.ctx,
        &bench.made,
        &mut bench.answer,
        node,
    );
    Ok(())
}

fn ask_contents<D: OpSet>(
    bench: &mut Bench<D>,
    asked: OfContents,
    line: Line<'_>,
) -> Result<(), Stop> {
    let (ctx, made, answer) = (&bench.ctx, &bench.made, &mut bench.answer);
    match asked {
        OfContents::Get => get(bench.alloc, ctx, made, answer, line),
        OfContents::Interfaces => interfaces(ctx, answer, made.op(ctx, line.first)?),
        OfContents::Use => show_use(ctx, made, answer, line),
        OfContents::Point => {
            made.put_block(answer, point(ctx, made, line)?.get_insertion_block(ctx));
            Ok(())
        }
    }
}

fn ask_types<D: OpSet>(bench: &mut Bench<D>, asked: OfTypes, line: Line<'_>) -> Result<(), Stop> {
    let (ctx, made, answer) = (&bench.ctx, &bench.made, &mut bench.answer);
    let handle = match asked {
        OfTypes::Text => made.type_named(ctx, line.first)?,
        OfTypes::Typed => made.value(ctx, line.first)?.get_type(ctx),
        OfTypes::OfValues => return types(bench.alloc, ctx, made, answer, line),
    };
    put_type(bench.alloc, ctx, answer, handle);
    Ok(())
}

// Counts the live nodes of a context.
#[derive(Drop)]
struct CountsLive;

impl<D: OpSet> InContext<D> for CountsLive {
    type Answer = u32;

    fn run(self, ctx: &mut Context<D>) -> u32 {
        ctx.num_live()
    }
}

// How many nodes a new context holds, and how many names a new list of names.
fn fresh<D: OpSet>(alloc: Global, answer: &mut Answer) {
    answer.put_number(in_new_context::<D, _>(alloc, CountsLive) as usize);
    answer.put(" ");
    answer.put_number(GivenNamesAttr::new(alloc).names().len());
}

// Writes the attribute under a key, or `none`.
fn get<D: OpSet>(
    alloc: Global,
    ctx: &Context<D>,
    made: &Made,
    answer: &mut Answer,
    line: Line<'_>,
) -> Result<(), Stop> {
    let attributes = match made.live(ctx, line.first)? {
        IRNode::Operation(op) => op.attributes(ctx),
        IRNode::BasicBlock(block) => block.attributes(ctx),
        IRNode::Region(_) => return Err(Stop::Refused),
    };
    match attributes.get(line.second) {
        Some(attr) if attr.is_live(ctx) => put_attr(alloc, ctx, answer, attr),
        Some(_) => return Err(Stop::Refused),
        None => answer.put("none"),
    }
    Ok(())
}

// Writes the kind of a node, its slot and its version.
fn put_pointer(answer: &mut Answer, node: IRNode) {
    let (kind, index, version) = match node {
        IRNode::Operation(op) => ("op", op.index(), op.version()),
        IRNode::Region(region) => ("region", region.index(), region.version()),
        IRNode::BasicBlock(block) => ("block", block.index(), block.version()),
    };
    answer.put(kind);
    answer.put_number(index as usize);
    answer.put("v");
    answer.put_number(version as usize);
}

// Whether a node stands above another one.
fn above<D: OpSet>(
    ctx: &Context<D>,
    made: &Made,
    answer: &mut Answer,
    line: Line<'_>,
) -> Result<(), Stop> {
    let node = made.live(ctx, line.second)?;
    answer.put_truth(made.node(line.first)?.is_ancestor(ctx, node));
    Ok(())
}

// Whether an operation ends its block, has a name, holds a table of names, uses names.
fn interfaces<D: OpSet>(
    ctx: &Context<D>,
    answer: &mut Answer,
    op: Ptr<Operation>,
) -> Result<(), Stop>
    requires { IsLive ctx.now (AnyNode.Operation op) }
{
    for (interface, word) in [
        (Interface::Terminator, " terminator"),
        (Interface::Symbol, " symbol"),
        (Interface::SymbolTable, " symbol_table"),
        (Interface::SymbolUser, " symbol_user"),
    ] {
        if op_impls(ctx, op, interface) != kind_impls::<D>(op.kind(ctx), interface) {
            return Err(Stop::Refused);
        }
        if op_impls(ctx, op, interface) {
            answer.put(word);
        }
    }
    Ok(())
}

// Where a point is.
#[derive(Clone, Copy)]
enum PointSide {
    Unset,
    Start,
    End,
    Before,
    After,
}

impl PointSide {
    fn of(word: &str) -> Result<Self, Stop> {
        match word {
            "unset" => Ok(PointSide::Unset),
            "start" => Ok(PointSide::Start),
            "end" => Ok(PointSide::End),
            "before" => Ok(PointSide::Before),
            "after" => Ok(PointSide::After),
            _ => Err(Stop::Refused),
        }
    }
}

// The insertion point that a line names.
fn point<D: OpSet>(ctx: &Context<D>, made: &Made, line: Line<'_>) -> Result<OpInsertionPoint, Stop>
    ensures { IfOk result (λ point. IsPointLive ctx.now point) }
{
    let name = line.second;
    match PointSide::of(line.first)? {
        PointSide::Unset => Ok(OpInsertionPoint::Unset),
        PointSide::Start => Ok(OpInsertionPoint::AtBlockStart(made.block(ctx, name)?)),
        PointSide::End => Ok(OpInsertionPoint::AtBlockEnd(made.block(ctx, name)?)),
        PointSide::Before => Ok(OpInsertionPoint::BeforeOperation(made.op(ctx, name)?)),
        PointSide::After => Ok(OpInsertionPoint::AfterOperation(made.op(ctx, name)?)),
    }
}

// The operation of a use, its place there, and the value that it uses.
fn show_use<D: OpSet>(
    ctx: &Context<D>,
    made: &Made,
    answer: &mut Answer,
    line: Line<'_>,
) -> Result<(), Stop> {
    let op = made.op(ctx, line.first)?;
    let place = number(line.second)?;
    if place >= op.get_num_operands(ctx) {
        return Err(Stop::Refused);
    }
    let used = Use::new(op, place);
    made.put_op(answer, Some(used.user_op()));
    answer.put(" ");
    answer.put_number(used.opd_idx());
    made.put_value(answer, used.get_def(ctx));
    Ok(())
}

// Writes an operation and one of its places.
fn put_place(made: &Made, answer: &mut Answer, op: Ptr<Operation>, place: usize) {
    made.put_op(answer, Some(op));
    answer.put(":");
    answer.put_number(place);
}

// The operations that use a value, each with the place where it does.
fn users<D: OpSet>(
    alloc: Global,
    ctx: &Context<D>,
    made: &Made,
    answer: &mut Answer,
    value: Value,
) -> Result<(), Stop> {
    for used in value.uses(alloc, ctx)? {
        put_place(made, answer, used.user_op(), used.opd_idx());
    }
    Ok(())
}

// The operations that branch to a block, each with the place of that successor.
fn branches<D: OpSet>(
    alloc: Global,
    ctx: &Context<D>,
    made: &Made,
    answer: &mut Answer,
    block: Ptr<BasicBlock>,
) -> Result<(), Stop> {
    for used in block.uses(alloc, ctx)? {
        put_place(made, answer, used.branch_op(), used.succ_idx());
    }
    Ok(())
}

// The texts of the types of an operation's results or of a block's arguments.
fn types<D: OpSet>(
    alloc: Global,
    ctx: &Context<D>,
    made: &Made,
    answer: &mut Answer,
    line: Line<'_>,
) -> Result<(), Stop> {
    match made.live(ctx, line.first)? {
        IRNode::Operation(op) => result_types(alloc, ctx, answer, op),
        IRNode::BasicBlock(block) => argument_types(alloc, ctx, answer, block),
        IRNode::Region(_) => return Err(Stop::Refused),
    }
    Ok(())
}

fn result_types<D: OpSet>(alloc: Global, ctx: &Context<D>, answer: &mut Answer, op: Ptr<Operation>)
    requires { IsLive ctx.now (AnyNode.Operation op) }
{
    for place in 0..op.get_num_results(ctx) {
        put_type(alloc, ctx, answer, op.get_type(ctx, place));
    }
}

fn argument_types<D: OpSet>(
    alloc: Global,
    ctx: &Context<D>,
    answer: &mut Answer,
    block: Ptr<BasicBlock>,
)
    requires { IsLive ctx.now (AnyNode.BasicBlock block) }
{
    for place in 0..block.get_num_arguments(ctx) {
        put_type(alloc, ctx, answer, block.get_type(ctx, place));
    }
}
