//! From a text to operations in a context.
ghost use Rattle.std.specs.Prelude.{◌≡◌, Some, None, [], IfOk};
ghost use Rattle.plir_core.specs.Grown.{IsGrown};
ghost use Rattle.plir_core.specs.Made.{IsMade};
ghost use Rattle.plir_core.specs.ContextView.{IsLive, children};
ghost use Rattle.plir_core.specs.WellFormed.{IsWellFormed};
ghost use Rattle.plir_core.specs.declared.ptr.IRNode.{IRNode};
ghost use Rattle.plir_attr_text.specs.Names.{AreNamed};
ghost use Rattle.plir_attr_text.specs.TypesWritten.{IsWrittenIn};
ghost use Rattle.plir_read.specs.HeldTypes.{IsHeldByBlock, IsHeldByBlocks, IsHeldByOp, IsHeldByOps};
ghost use Rattle.plir_read.specs.Keeping.{KeepsBut, KeepsOlder};
ghost use Rattle.plir_read.specs.OpReading.{op_at, bodied_at, ops_at, block_at, blocks_at};
ghost use Rattle.plir_read.specs.OpTerms.{ops_of, blocks_of};
ghost use Rattle.plir_read.specs.OpsRead.{ReadsOp, ReadsBodied, ReadsBlock, ReadsOps, ReadsBody, HoldsNew};
ghost use Rattle.plir_read.specs.Slots.{IsMadeInOrder, IsGrownInOrder};

use crate::arguments::read_block_head;
use crate::constants::read_constant;
use crate::headers::read_header;
use crate::heads::{BodyKind, HeadKind, ends_block, past_brace, past_semicolon};
use crate::making::{make_block, make_op};
use crate::openings::{Opening, expect_names, read_opening};
use plir_attr_text::Fault;
use plir_attr_text::fault::Stop;
use plir_attr_text::words::{begin_level, past_sign, read_sign};
use plir_core::laws::{contexts_stand, growth};
use plir_core::{BasicBlock, Context, Operation, Ptr, Region};
use plir_data::OpSet;
use std::alloc::Global;

// The operations of a block that has none.
#[cycle(ops)]
fn read_ops<'a, D: OpSet>(
    alloc: Global,
    ctx: &mut Context<D>,
    levels: usize,
    block: Ptr<BasicBlock>,
    bytes: &'a [u8],
) -> Result<&'a [u8], Stop>
    requires live { IsLive ctx.old (IRNode.BasicBlock block) }
    requires empty { children ctx.old (IRNode.BasicBlock block) ≡ [] }
    ensures read { ReadsOps ctx.old ctx.new levels block bytes.now result }
    ensures grown { IfOk result (λ x. IsGrown ctx.old.nodes ctx.new.nodes (IRNode.BasicBlock block)) }
    ensures slots { IfOk result (λ x. IsGrownInOrder ctx.old.nodes ctx.new.nodes (IRNode.BasicBlock block)) }
    ensures kept { KeepsBut ctx.old ctx.new (Some (IRNode.BasicBlock block)) }
    ensures named { AreNamed (IsWrittenIn bytes.now) ctx.old.types ctx.new.types }
    ensures held { HoldsNew (λ t os. IsHeldByOps t (ops_of os)) result (ops_at (op_at levels) bytes.now) ctx.old.types
        ctx.new.types }
    ensures whole { IsWellFormed D.attr_handles ctx.new }
{
    contexts_stand::<D>();
    growth(ctx);
    ctx.stands();
    if ends_block(bytes) {
        return Ok(bytes);
    }
    let mut rest = bytes;
    'ops: loop {
        growth(ctx);
        let (op, after) = match read_op_at(alloc, ctx, levels, rest) {
            Ok(read) => read,
            Err(stop) => return Err(stop),
        };
        op.insert_at_back(ctx, block);
        let (goes_on, behind) = past_semicolon(after);
        if goes_on {
            rest = behind;
        } else {
            return Ok(behind);
        }
    }
}

// A block in no region.
#[cycle(ops)]
fn read_block<'a, D: OpSet>(
    alloc: Global,
    ctx: &mut Context<D>,
    levels: usize,
    bytes: &'a [u8],
) -> Result<(Ptr<BasicBlock>, &'a [u8]), Stop>
    ensures read { ReadsBlock ctx.old ctx.new levels bytes.now result }
    ensures made { IfOk result (λ x. IsMade ctx.old.nodes ctx.new.nodes (IRNode.BasicBlock x.0)) }
    ensures slots { IfOk result (λ x. IsMadeInOrder ctx.old.nodes ctx.new.nodes (IRNode.BasicBlock x.0)) }
    ensures kept { KeepsOlder ctx.old ctx.new }
    ensures named { AreNamed (IsWrittenIn bytes.now) ctx.old.types ctx.new.types }
    ensures held { HoldsNew IsHeldByBlock result
        (block_at (op_at levels) levels bytes.now) ctx.old.types ctx.new.types }
    ensures whole { IsWellFormed D.attr_handles ctx.new }
{
    contexts_stand::<D>();
    ctx.stands();
    let read = read_block_head(alloc, ctx, levels, bytes);
    growth(ctx);
    ctx.stands();
    let (head, rest) = read?;
    let block = make_block(alloc, ctx, head)?;
    match read_ops(alloc, ctx, levels, block, rest) {
        Ok(end) => Ok((block, end)),
        Err(stop) => Err(stop),
    }
}

// The blocks of a region that has none.
#[cycle(ops)]
fn read_body<'a, D: OpSet>(
    alloc: Global,
    ctx: &mut Context<D>,
    levels: usize,
    region: Ptr<Region>,
    bytes: &'a [u8],
) -> Result<&'a [u8], Stop>
    requires live { IsLive ctx.old (IRNode.Region region) }
    requires empty { children ctx.old (IRNode.Region region) ≡ [] }
    ensures read { ReadsBody ctx.old ctx.new levels region bytes.now result }
    ensures grown { IfOk result (λ x. IsGrown ctx.old.nodes ctx.new.nodes (IRNode.Region region)) }
    ensures slots { IfOk result (λ x. IsGrownInOrder ctx.old.nodes ctx.new.nodes (IRNode.Region region)) }
    ensures kept { KeepsBut ctx.old ctx.new (Some (IRNode.Region region)) }
    ensures named { AreNamed (IsWrittenIn bytes.now) ctx.old.types ctx.new.types }
    ensures held { HoldsNew (λ t bs. IsHeldByBlocks t (blocks_of bs)) result
        (blocks_at (op_at levels) levels bytes.now) ctx.old.types ctx.new.types }
    ensures whole { IsWellFormed D.attr_handles ctx.new }
{
    contexts_stand::<D>();
    growth(ctx);
    ctx.stands();
    let start = read_sign(bytes, b'{')?;
    if let Some(rest) = past_sign(start, b'}') {
        return Ok(rest);
    }
    let mut rest = start;
    'inner: loop {
        growth(ctx);
        let (block, after) = match read_block(alloc, ctx, levels, rest) {
            Ok(read) => read,
            Err(stop) => return Err(stop),
        };
        block.insert_at_back(ctx, region);
        let (goes_on, behind) = past_brace(after);
        if goes_on {
            rest = behind;
        } else {
            return Ok(behind);
        }
    }
}

// A module or a function in no block, behind its id, with so many names before that and this many bytes left there.
#[cycle(ops)]
#[tactic(auto, unfolding(crate::specs::OpReading::bodied_at))]
fn read_bodied<'a, D: OpSet>(
    alloc: Global,
    ctx: &mut Context<D>,
    levels: usize,
    kind: BodyKind,
    names: usize,
    left: usize,
    bytes: &'a [u8],
) -> Result<(Ptr<Operation>, &'a [u8]), Stop>
    ensures read { ReadsBodied ctx.old ctx.new levels kind names bytes.now result }
    ensures made { IfOk result (λ x. IsMade ctx.old.nodes ctx.new.nodes (IRNode.Operation x.0)) }
    ensures slots { IfOk result (λ x. IsMadeInOrder ctx.old.nodes ctx.new.nodes (IRNode.Operation x.0)) }
    ensures kept { KeepsOlder ctx.old ctx.new }
    ensures named { AreNamed (IsWrittenIn bytes.now) ctx.old.types ctx.new.types }
    ensures held { HoldsNew IsHeldByOp result (bodied_at (op_at levels) levels kind names bytes.now) ctx.old.types
        ctx.new.types }
    ensures whole { IsWellFormed D.attr_handles ctx.new }
{
    contexts_stand::<D>();
    ctx.stands();
    expect_names(0, names, left)?;
    let read = read_header(alloc, ctx, levels, kind, bytes);
    growth(ctx);
    ctx.stands();
    let (header, behind) = read?;
    let (op, region) = make_op(alloc, ctx, header)?;
    match read_body(alloc, ctx, levels, region, behind) {
        Ok(end) => Ok((op, end)),
        Err(stop) => Err(stop),
    }
}

// An operation in no block, with at most this many levels open.
#[cycle(ops)]
#[tactic(auto, unfolding(crate::specs::OpReading::op_at))]
pub fn read_op_at<'a, D: OpSet>(
    alloc: Global,
    ctx: &mut Context<D>,
    levels: usize,
    bytes: &'a [u8],
) -> Result<(Ptr<Operation>, &'a [u8]), Stop>
    ensures read { ReadsOp ctx.old ctx.new levels bytes.now result }
    ensures made { IfOk result (λ x. IsMade ctx.old.nodes ctx.new.nodes (IRNode.Operation x.0)) }
    ensures slots { IfOk result (λ x. IsMadeInOrder ctx.old.nodes ctx.new.nodes (IRNode.Operation x.0)) }
    ensures kept { KeepsOlder ctx.old ctx.new }
    ensures named { AreNamed (IsWrittenIn bytes.now) ctx.old.types ctx.new.types }
    ensures held { HoldsNew IsHeldByOp result (op_at levels bytes.now) ctx.old.types ctx.new.types }
    ensures whole { IsWellFormed D.attr_handles ctx.new }
{
    ctx.stands();
    begin_level(levels, bytes)?;
    let (opening, rest) = read_opening(alloc, bytes)?;
    let Opening { names, kind, left } = opening;
    match kind {
        HeadKind::Bodied(body) => {
            read_bodied(alloc, ctx, levels - 1, body, names.len(), left, rest)
        }
        HeadKind::Constant => read_constant(alloc, ctx, levels - 1, names, left, rest),
        HeadKind::ForwardRef => Err(Stop::At(Fault::ForwardRefOpExistenceErr, left)),
    }
}
