//! The calls that change what nodes hold.
ghost use Rattle.std.specs.Prelude.{[], IfOk};
ghost use Rattle.plir_data.specs.AttrLive.{IsAttrLive};
ghost use Rattle.plir_data.specs.AttrSeen.{attr_view};
ghost use Rattle.plir_core.specs.ContextView.{IsLive};

use crate::bench::Bench;
use crate::line::{Line, number};
use crate::making::label_of;
use crate::stop::Stop;
use plir_attr_text::read_attr;
use plir_core::{Context, IRNode};
use plir_data::{AttrObj, Identifier, Location, OpSet};
use std::alloc::Global;

/// How a line changes contents.
#[derive(Clone, Copy)]
pub enum Changing {
    /// `insert OP PLACE VALUE`.
    Insert,
    /// `remove OP PLACE`.
    Remove,
    /// `replace OP PLACE VALUE`.
    Replace,
    /// `replace-all VALUE VALUE`.
    ReplaceAll,
    /// `redirect OP PLACE BLOCK`.
    Redirect,
    /// `set NODE KEY ATTRIBUTE`.
    Set,
    /// `swap NODE KEY ATTRIBUTE`.
    Swap,
    /// `take NODE KEY`.
    Take,
    /// `label BLOCK NAME` or `label BLOCK`.
    Label,
    /// `at OP LINE COLUMN`.
    At,
}

impl Changing {
    /// How a word changes contents.
    pub fn of(word: &str) -> Option<Self> {
        match word {
            "insert" => Some(Changing::Insert),
            "remove" => Some(Changing::Remove),
            "replace" => Some(Changing::Replace),
            "replace-all" => Some(Changing::ReplaceAll),
            "redirect" => Some(Changing::Redirect),
            "set" => Some(Changing::Set),
            "swap" => Some(Changing::Swap),
            "take" => Some(Changing::Take),
            "label" => Some(Changing::Label),
            "at" => Some(Changing::At),
            _ => None,
        }
    }
}

/// Changes contents as a line says.
pub fn change<D: OpSet>(
    bench: &mut Bench<D>,
    changing: Changing,
    line: Line<'_>,
) -> Result<(), Stop> {
    match changing {
        Changing::Insert => insert_operand(bench, line),
        Changing::Remove => remove_operand(bench, line),
        Changing::Replace => replace_operand(bench, line),
        Changing::ReplaceAll => replace_all(bench, line),
        Changing::Redirect => set_successor(bench, line),
        Changing::Set => set(bench, line),
        Changing::Swap => swap(bench, line),
        Changing::Take => take(bench, line),
        Changing::Label => label(bench, line),
        Changing::At => set_location(bench, line),
    }
}

fn insert_operand<D: OpSet>(bench: &mut Bench<D>, line: Line<'_>) -> Result<(), Stop> {
    let (ctx, made) = (&mut bench.ctx, &bench.made);
    let op = made.op(ctx, line.first)?;
    let place = number(line.second)?;
    let value = made.value(ctx, line.third)?;
    if place > op.get_num_operands(ctx) {
        return Err(Stop::Refused);
    }
    op.insert_operand(ctx, place, value)?;
    Ok(())
}

// Writes the value that is taken out.
fn remove_operand<D: OpSet>(bench: &mut Bench<D>, line: Line<'_>) -> Result<(), Stop> {
    let op = bench.made.op(&bench.ctx, line.first)?;
    let place = number(line.second)?;
    if place >= op.get_num_operands(&bench.ctx) {
        return Err(Stop::Refused);
    }
    let value = op.remove_operand(&mut bench.ctx, place);
    bench.made.put_value(&mut bench.answer, value);
    Ok(())
}

fn replace_operand<D: OpSet>(bench: &mut Bench<D>, line: Line<'_>) -> Result<(), Stop> {
    let (ctx, made) = (&mut bench.ctx, &bench.made);
    let op = made.op(ctx, line.first)?;
    let place = number(line.second)?;
    let value = made.value(ctx, line.third)?;
    if place >= op.get_num_operands(ctx) {
        return Err(Stop::Refused);
    }
    op.replace_operand(ctx, place, value);
    Ok(())
}

// Puts a value in place of another one everywhere.
fn replace_all<D: OpSet>(bench: &mut Bench<D>, line: Line<'_>) -> Result<(), Stop> {
    let (ctx, made) = (&mut bench.ctx, &bench.made);
    let value = made.value(ctx, line.first)?;
    let other = made.value(ctx, line.second)?;
    value.replace_all_uses_with(ctx, other);
    Ok(())
}

// Puts a block in place of a successor.
fn set_successor<D: OpSet>(bench: &mut Bench<D>, line: Line<'_>) -> Result<(), Stop> {
    let (ctx, made) = (&mut bench.ctx, &bench.made);
    let op = made.op(ctx, line.first)?;
    let place = number(line.second)?;
    let block = made.block(ctx, line.third)?;
    if place >= op.get_num_successors(ctx) {
        return Err(Stop::Refused);
    }
    op.set_successor(ctx, place, block);
    Ok(())
}

/// The attribute of a text.
pub fn attr_of<D: OpSet>(
    alloc: Global,
    ctx: &mut Context<D>,
    text: &str,
) -> Result<AttrObj<D>, Stop>
    ensures { IfOk result (λ attr. IsAttrLive D.attr_handles ctx.new.types (attr_view attr)) }
{
    match read_attr(alloc, ctx, text) {
        Ok(attr) => Ok(attr),
        Err(fault) => Err(Stop::from(fault)),
    }
}

fn set<D: OpSet>(bench: &mut Bench<D>, line: Line<'_>) -> Result<(), Stop> {
    let value = attr_of(bench.alloc, &mut bench.ctx, line.tail)?;
    let node = bench.made.live(&bench.ctx, line.first)?;
    let key = Identifier::try_new(bench.alloc, line.second)?;
    set_at(&mut bench.ctx, node, key, value)
}

fn set_at<D: OpSet>(
    ctx: &mut Context<D>,
    node: IRNode,
    key: Identifier,
    value: AttrObj<D>,
) -> Result<(), Stop>
    requires live { IsLive ctx.old node }
    requires value { IsAttrLive D.attr_handles ctx.old.types (attr_view value) }
{
    match node {
        IRNode::Operation(op) => Ok(op.set_attr(ctx, key, value)?),
        IRNode::BasicBlock(block) => Ok(block.set_attr(ctx, key, value)?),
        IRNode::Region(_) => Err(Stop::Refused),
    }
}

// The truth value that an attribute is, or else its id.
fn word_of<D: OpSet>(attr: &AttrObj<D>) -> &'static str {
    match attr {
        AttrObj::Bool(truth) if bool::from(*truth) => "true",
        AttrObj::Bool(_) => "false",
        _ => attr.get_attr_id(),
    }
}

// Writes `was` and the word of the attribute that stood there, or `back` and that of the one that is handed back.
fn swap<D: OpSet>(bench: &mut Bench<D>, line: Line<'_>) -> Result<(), Stop> {
    let value = attr_of(bench.alloc, &mut bench.ctx, line.tail)?;
    let node = bench.made.live(&bench.ctx, line.first)?;
    let (word, attr) = match swap_at(&mut bench.ctx, node, line.second, value)? {
        Ok(old) => ("was ", old),
        Err(new) => ("back ", new),
    };
    bench.answer.put(word);
    bench.answer.put(word_of(&attr));
    Ok(())
}

fn swap_at<D: OpSet>(
    ctx: &mut Context<D>,
    node: IRNode,
    key: &str,
    value: AttrObj<D>,
) -> Result<Result<AttrObj<D>, AttrObj<D>>, Stop>
    requires live { IsLive ctx.old node }
    requires value { IsAttrLive D.attr_handles ctx.old.types (attr_view value) }
{
    match node {
        IRNode::Operation(op) => Ok(op.swap_attr(ctx, key, value)),
        IRNode::BasicBlock(block) => Ok(block.swap_attr(ctx, key, value)),
        IRNode::Region(_) => Err(Stop::Refused),
    }
}

// Writes the word of the attribute that is taken out, or `none`.
fn take<D: OpSet>(bench: &mut Bench<D>, line: Line<'_>) -> Result<(), Stop> {
    let node = bench.made.live(&bench.ctx, line.first)?;
    match take_at(&mut bench.ctx, node, line.second)? {
        Some(attr) => bench.answer.put(word_of(&attr)),
        None => bench.answer.put("none"),
    }
    Ok(())
}

fn take_at<D: OpSet>(
    ctx: &mut Context<D>,
    node: IRNode,
    key: &str,
) -> Result<Option<AttrObj<D>>, Stop>
    requires { IsLive ctx.old node }
{
    match node {
        IRNode::Operation(op) => Ok(op.remove_attr(ctx, key)),
        IRNode::BasicBlock(block) => Ok(block.remove_attr(ctx, key)),
        IRNode::Region(_) => Err(Stop::Refused),
    }
}

fn label<D: OpSet>(bench: &mut Bench<D>, line: Line<'_>) -> Result<(), Stop> {
    let label = label_of(bench.alloc, line.second)?;
    let block = bench.made.block(&bench.ctx, line.first)?;
    block.set_label(&mut bench.ctx, label);
    Ok(())
}

fn set_location<D: OpSet>(bench: &mut Bench<D>, line: Line<'_>) -> Result<(), Stop> {
    let op = bench.made.op(&bench.ctx, line.first)?;
    let (Ok(line), Ok(column)) = (line.second.parse::<u32>(), line.third.parse::<u32>()) else {
        return Err(Stop::Refused);
    };
    op.set_loc(&mut bench.ctx, Location::SrcPos { line, column });
    Ok(())
}
