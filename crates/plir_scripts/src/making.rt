//! The calls that make nodes and types.
ghost use Rattle.std.specs.Prelude.{IfOk};
ghost use Rattle.plir_core.specs.ContextView.{IsLive};
ghost use Rattle.plir_core.specs.declared.ptr.IRNode.{IRNode as AnyNode};

use crate::answer::Answer;
use crate::bench::Bench;
use crate::line::{Line, number, split_word};
use crate::made::Made;
use crate::script_set::ScriptSet;
use crate::stop::Stop;
use plir_attr_text::read_type;
use plir_core::{BasicBlock, Context, Operation, Ptr};
use plir_data::{Identifier, OpKind, OpSet, TypeHandle};
use std::alloc::{AllocError, Global};

/// What a line makes.
#[derive(Clone, Copy)]
pub enum Making {
    /// `op KIND REGIONS RESULT_TYPES < OPERANDS > SUCCESSORS`, where `<` and `>` may be left out.
    Op,
    /// `block LABEL ARGUMENT_TYPES`, where `-` is no label.
    Block,
    /// `split OP`: the block behind an operation.
    Split,
    /// `region OP`.
    Region,
    /// `type TEXT`.
    Type,
}

impl Making {
    /// What a word makes.
    pub fn of(word: &str) -> Option<Self> {
        match word {
            "op" => Some(Making::Op),
            "block" => Some(Making::Block),
            "split" => Some(Making::Split),
            "region" => Some(Making::Region),
            "type" => Some(Making::Type),
            _ => None,
        }
    }
}

/// Makes what a line says, and writes its name.
pub fn make<D: ScriptSet>(
    bench: &mut Bench<D>,
    making: Making,
    line: Line<'_>,
) -> Result<(), Stop> {
    match making {
        Making::Op => make_op(bench, line),
        Making::Block => make_block(bench, line),
        Making::Split => split_block(bench, line),
        Making::Region => make_region(bench, line),
        Making::Type => make_type(bench, line),
    }
}

// The kind that a word names.
fn kind_of<D: ScriptSet>(word: &str) -> Result<OpKind<D::Kind>, Stop> {
    match word {
        "module" => Ok(OpKind::Module),
        "func" => Ok(OpKind::Func),
        "constant" => Ok(OpKind::Constant),
        "forward_ref" => Ok(OpKind::ForwardRef),
        _ => D::own_kind(word).map(OpKind::Own).ok_or(Stop::Refused),
    }
}

fn make_op<D: ScriptSet>(bench: &mut Bench<D>, line: Line<'_>) -> Result<(), Stop> {
    let kind = kind_of::<D>(line.first)?;
    let count = number(line.second)?;
    bench.made.ops.reserve(1)?;
    bench.made.regions.reserve(count)?;
    let op = new_op(bench, kind, line.tail, count)?;
    bench.made.ops.push(op)?;
    note_regions(&bench.ctx, &mut bench.made, op)?;
    bench.made.put_op(&mut bench.answer, Some(op));
    Ok(())
}

// A new operation with the results, operands and successors of a text.
fn new_op<D: OpSet>(
    bench: &mut Bench<D>,
    kind: OpKind<D::Kind>,
    parts: &str,
    count: usize,
) -> Result<Ptr<Operation>, Stop>
    ensures { IfOk result (λ op. IsLive bench.new.ctx (AnyNode.Operation op)) }
{
    let (alloc, ctx, made) = (bench.alloc, &mut bench.ctx, &bench.made);
    let (front, successors) = parts.split_once('>').unwrap_or((parts, ""));
    let (results, operands) = front.split_once('<').unwrap_or((front, ""));
    let results = made.types_named(alloc, ctx, results)?;
    let operands = made.values_named(alloc, ctx, operands)?;
    let successors = made.blocks_named(alloc, ctx, successors)?;
    let op = Operation::new(alloc, ctx, kind, results, operands, successors, count)?;
    Ok(op)
}

// Notes the regions of a new operation.
fn note_regions<D: OpSet>(
    ctx: &Context<D>,
    made: &mut Made,
    op: Ptr<Operation>,
) -> Result<(), AllocError>
    requires { IsLive ctx.now (AnyNode.Operation op) }
{
    for place in 0..op.num_regions(ctx) {
        made.regions.push(op.get_region(ctx, place))?;
    }
    Ok(())
}

fn make_block<D: OpSet>(bench: &mut Bench<D>, line: Line<'_>) -> Result<(), Stop> {
    let (word, types) = split_word(line.text);
    let label = label_of(bench.alloc, word)?;
    bench.made.blocks.reserve(1)?;
    let types = bench.made.types_named(bench.alloc, &bench.ctx, types)?;
    let block = BasicBlock::new(bench.alloc, &mut bench.ctx, label, types)?;
    bench.made.blocks.push(block)?;
    bench.made.put_block(&mut bench.answer, Some(block));
    Ok(())
}

// Splits the block of an operation before it.
fn split_block<D: OpSet>(bench: &mut Bench<D>, line: Line<'_>) -> Result<(), Stop> {
    let op = bench.made.op(&bench.ctx, line.first)?;
    bench.made.blocks.reserve(1)?;
    let Some(block) = op.get_parent_block(&bench.ctx) else {
        return Err(Stop::Refused);
    };
    if block.get_parent_region(&bench.ctx).is_none() {
        return Err(Stop::Refused);
    }
    let new = block.split_block(bench.alloc, &mut bench.ctx, op)?;
    bench.made.blocks.push(new)?;
    bench.made.put_block(&mut bench.answer, Some(new));
    Ok(())
}

/// The label that a word is; none for `-` and for an empty word.
pub fn label_of(alloc: Global, word: &str) -> Result<Option<Identifier>, Stop> {
    if word.is_empty() || word == "-" {
        return Ok(None);
    }
    let label = Identifier::try_new(alloc, word)?;
    Ok(Some(label))
}

fn make_region<D: OpSet>(bench: &mut Bench<D>, line: Line<'_>) -> Result<(), Stop> {
    let op = bench.made.op(&bench.ctx, line.first)?;
    bench.made.regions.reserve(1)?;
    let region = Operation::add_region(op, &mut bench.ctx)?;
    bench.made.regions.push(region)?;
    bench.made.put_region(&mut bench.answer, Some(region));
    Ok(())
}

fn make_type<D: OpSet>(bench: &mut Bench<D>, line: Line<'_>) -> Result<(), Stop> {
    bench.made.types.reserve(1)?;
    let handle = read_type(bench.alloc, &mut bench.ctx, line.text)?;
    put_type_name(&mut bench.made, &mut bench.answer, handle)
}

/// Writes the name of a type. One that was named before keeps its name, since equal types have equal handles.
pub fn put_type_name(made: &mut Made, answer: &mut Answer, handle: TypeHandle) -> Result<(), Stop> {
    let place = match made.types.iter().position(|other| *other == handle) {
        Some(place) => place,
        None => {
            made.types.push(handle)?;
            made.types.len() - 1
        }
    };
    answer.put("t");
    answer.put_number(place);
    Ok(())
}
