//! From a text to operations in a context, whose uses are noted.
ghost use Rattle.std.specs.Prelude.{◌≡◌, ◌<◌, [], ℕ, List, IfOk, None, Some, length, if◌then◌else◌};
ghost use Rattle.plir_core.specs.ContextView.{IsLive, children};
ghost use Rattle.plir_core.specs.WellFormed.{IsWellFormed};
ghost use Rattle.plir_core.specs.declared.ptr.IRNode.{IRNode};
ghost use Rattle.plir_read.specs.OpReading.{block_head_at, named_constant_at};
ghost use Rattle.plir_read_ir.specs.IrMeaning.{AreResultNames};
ghost use Rattle.plir_read_ir.specs.IrOpReading.{ReadsUpTo, block_at, bodied_at, ir_op_at, ops_at, own_at, region_at};
ghost use Rattle.plir_read_ir.specs.IrOpReading.{regions_at};
ghost use Rattle.plir_read_ir.specs.IrReading.{parts_at};
ghost use Rattle.plir_read_ir.specs.Mentions.{Scope};
ghost use Rattle.plir_read_ir.specs.Noting.{AreReady, IsPlaceLive, NotesOn};
ghost use Rattle.plir_read_ir.specs.Progress.{HasFront, HasGrown, HasRead, IsReading};
ghost use Rattle.plir_read_ir.specs.Readings.{ReadsBehind, ReadsBlock, ReadsBody, ReadsHead, ReadsIr, ReadsOps};
ghost use Rattle.plir_read_ir.specs.Readings.{ReadsOwnFront, ReadsRegions, scope_of};
ghost use Rattle.plir_read_ir.specs.Spelling.{words};

use crate::heads::{SpelledHead, read_spelled_head};
use crate::making::{make_own, stand_ins};
use crate::notes::{Notes, Place, block_of};
use crate::openings::{IrKind, IrOpening, ResultNames, read_ir_opening};
use crate::own::{OwnParts, read_own_parts};
use plir_attr_text::Fault;
use plir_attr_text::fault::Stop;
use plir_attr_text::words::{begin_level, past_sign, read_sign};
use plir_core::laws::{contexts_stand, growth};
use plir_core::{BasicBlock, Context, Operation, Ptr, Region};
use plir_read::constants::read_constant;
use plir_read::headers::read_header;
use plir_read::heads::{BodyKind, HeadKind, ends_block, past_brace, past_semicolon};
use plir_read::making::{make_block, make_op, stop_of};
use plir_read::openings::expect_names;
use plir_read_own::ReadSet;
use std::alloc::Global;

// The operations of a block that has none.
#[cycle(ops)]
fn read_ops<'a, D: ReadSet>(
    alloc: Global,
    ctx: &mut Context<D>,
    notes: &mut Notes<'a>,
    levels: usize,
    at: Place,
    block: Ptr<BasicBlock>,
    bytes: &'a [u8],
) -> Result<&'a [u8], Stop>
    requires live { IsLive ctx.old (IRNode.BasicBlock block) }
    requires at_live { IsPlaceLive ctx.old at }
    requires empty { children ctx.old (IRNode.BasicBlock block) ≡ [] }
    ensures grown { IfOk result (λ x. HasGrown bytes.now x.now ctx.old ctx.new (IRNode.BasicBlock block)) }
    ensures kept { IsReading bytes.now (Some (IRNode.BasicBlock block)) ctx.old ctx.new }
    ensures noted { IfOk result (λ x. NotesOn ctx.old notes.old ctx.new notes.new) }
    ensures stands { IfOk result (λ x. AreReady ctx.old notes.old → ReadsOps D.find_kind D.is_isolated levels
        bytes.now x.now ctx.old ctx.new notes.old notes.new (scope_of at) (IRNode.BasicBlock block)) }
    ensures met { ReadsUpTo (λ x. x.now) result (ops_at (ir_op_at D.find_kind levels) bytes.now) }
    ensures whole { IsWellFormed D.attr_handles ctx.new }
{
    contexts_stand::<D>();
    growth(ctx);
    ctx.stands();
    if ends_block(bytes) {
        return Ok(bytes);
    }
    let mut rest = bytes;
    'ops: loop {
        growth(ctx);
        let (op, after) = match read_ir_op(alloc, ctx, notes, levels, at, rest) {
            Ok(read) => read,
            Err(stop) => return Err(stop),
        };
        op.insert_at_back(ctx, block);
        let (goes_on, behind) = past_semicolon(after);
        if goes_on {
            rest = behind;
        } else {
            return Ok(behind);
        }
    }
}

// A block of a region, in no region yet, without its operations, with its label and its arguments noted.
fn read_block_front<'a, D: ReadSet>(
    alloc: Global,
    ctx: &mut Context<D>,
    notes: &mut Notes<'a>,
    levels: usize,
    body: Option<Ptr<Operation>>,
    region: Ptr<Region>,
    bytes: &'a [u8],
) -> Result<(Ptr<BasicBlock>, &'a [u8]), Stop>
    ensures read { IfOk result (λ x. HasFront bytes.now x.1.now ctx.old ctx.new (IRNode.BasicBlock x.0)) }
    ensures shorter { IfOk result (λ x. length x.1.now < length bytes.now) }
    ensures kept { IsReading bytes.now None ctx.old ctx.new }
    ensures noted { IfOk result (λ x. NotesOn ctx.old notes.old ctx.new notes.new) }
    ensures stands { IfOk result (λ x. ReadsHead D.find_kind D.is_isolated levels bytes.now x.1.now ctx.old ctx.new
        notes.old notes.new (record { body = body; region = Some region }) (IRNode.BasicBlock x.0)) }
    ensures met { ReadsUpTo (λ x. x.1.now) result (block_head_at levels bytes.now) }
    ensures whole { IsWellFormed D.attr_handles ctx.new }
{
    ctx.stands();
    let read = read_spelled_head(alloc, ctx, levels, bytes);
    ctx.stands();
    let (front, rest) = read?;
    let SpelledHead { head, label, words } = front;
    let block = make_block(alloc, ctx, head)?;
    notes.bear_label(region, block, label)?;
    notes.bear_arguments(ctx, body, block, words.as_slice())?;
    Ok((block, rest))
}

// A block of a region, in no region yet.
#[cycle(ops)]
fn read_block<'a, D: ReadSet>(
    alloc: Global,
    ctx: &mut Context<D>,
    notes: &mut Notes<'a>,
    levels: usize,
    body: Option<Ptr<Operation>>,
    region: Ptr<Region>,
    bytes: &'a [u8],
) -> Result<(Ptr<BasicBlock>, &'a [u8]), Stop>
    ensures read { IfOk result (λ x. HasRead bytes.now x.1.now ctx.old ctx.new (IRNode.BasicBlock x.0)) }
    ensures shorter { IfOk result (λ x. length x.1.now < length bytes.now) }
    ensures kept { IsReading bytes.now None ctx.old ctx.new }
    ensures noted { IfOk result (λ x. NotesOn ctx.old notes.old ctx.new notes.new) }
    ensures stands { IfOk result (λ x. AreReady ctx.old notes.old → ReadsBlock D.find_kind D.is_isolated levels
        bytes.now x.1.now ctx.old ctx.new notes.old notes.new (record { body = body; region = Some region })
        (IRNode.BasicBlock x.0)) }
    ensures met { ReadsUpTo (λ x. x.1.now) result (block_at (ir_op_at D.find_kind levels) levels bytes.now) }
    ensures whole { IsWellFormed D.attr_handles ctx.new }
{
    contexts_stand::<D>();
    ctx.stands();
    growth(ctx);
    let (block, rest) = match read_block_front(alloc, ctx, notes, levels, body, region, bytes) {
        Ok(read) => read,
        Err(stop) => return Err(stop),
    };
    let at = Place {
        body,
        block: Some((region, block)),
    };
    match read_ops(alloc, ctx, notes, levels, at, block, rest) {
        Ok(end) => Ok((block, end)),
        Err(stop) => Err(stop),
    }
}

// The blocks of a region that has none.
#[cycle(ops)]
fn read_body<'a, D: ReadSet>(
    alloc: Global,
    ctx: &mut Context<D>,
    notes: &mut Notes<'a>,
    levels: usize,
    body: Option<Ptr<Operation>>,
    region: Ptr<Region>,
    bytes: &'a [u8],
) -> Result<&'a [u8], Stop>
    requires live { IsLive ctx.old (IRNode.Region region) }
    requires empty { children ctx.old (IRNode.Region region) ≡ [] }
    ensures grown { IfOk result (λ x. HasGrown bytes.now x.now ctx.old ctx.new (IRNode.Region region)) }
    ensures shorter { IfOk result (λ x. length x.now < length bytes.now) }
    ensures kept { IsReading bytes.now (Some (IRNode.Region region)) ctx.old ctx.new }
    ensures noted { IfOk result (λ x. NotesOn ctx.old notes.old ctx.new notes.new) }
    ensures stands { IfOk result (λ x. AreReady ctx.old notes.old → ReadsBody D.find_kind D.is_isolated levels
        bytes.now x.now ctx.old ctx.new notes.old notes.new (record { body = body; region = Some region })
        (IRNode.Region region)) }
    ensures met { ReadsUpTo (λ x. x.now) result (region_at (ir_op_at D.find_kind levels) levels bytes.now) }
    ensures whole { IsWellFormed D.attr_handles ctx.new }
{
    contexts_stand::<D>();
    growth(ctx);
    ctx.stands();
    let start = read_sign(bytes, b'{')?;
    if let Some(rest) = past_sign(start, b'}') {
        return Ok(rest);
    }
    let mut rest = start;
    'inner: loop {
        growth(ctx);
        let (block, after) = match read_block(alloc, ctx, notes, levels, body, region, rest) {
            Ok(read) => read,
            Err(stop) => return Err(stop),
        };
        block.insert_at_back(ctx, region);
        let (goes_on, behind) = past_brace(after);
        if goes_on {
            rest = behind;
        } else {
            return Ok(behind);
        }
    }
}

// The regions of an operation that has none.
#[cycle(ops)]
fn read_regions<'a, D: ReadSet>(
    alloc: Global,
    ctx: &mut Context<D>,
    notes: &mut Notes<'a>,
    levels: usize,
    body: Option<Ptr<Operation>>,
    op: Ptr<Operation>,
    bytes: &'a [u8],
) -> Result<&'a [u8], Stop>
    requires live { IsLive ctx.old (IRNode.Operation op) }
    requires empty { children ctx.old (IRNode.Operation op) ≡ [] }
    ensures grown { IfOk result (λ x. HasGrown bytes.now x.now ctx.old ctx.new (IRNode.Operation op)) }
    ensures kept { IsReading bytes.now (Some (IRNode.Operation op)) ctx.old ctx.new }
    ensures noted { IfOk result (λ x. NotesOn ctx.old notes.old ctx.new notes.new) }
    ensures stands { IfOk result (λ x. AreReady ctx.old notes.old → ReadsRegions D.find_kind D.is_isolated levels
        bytes.now x.now ctx.old ctx.new notes.old notes.new body (IRNode.Operation op)) }
    ensures met { ReadsUpTo (λ x. x.now) result (regions_at (ir_op_at D.find_kind levels) levels bytes.now) }
    ensures whole { IsWellFormed D.attr_handles ctx.new }
{
    contexts_stand::<D>();
    growth(ctx);
    ctx.stands();
    let mut rest = bytes;
    'regions: while past_sign(rest, b'{').is_some() {
        growth(ctx);
        let region = match Operation::add_region(op, ctx) {
            Ok(region) => region,
            Err(refused) => return Err(stop_of(refused)),
        };
        match read_body(alloc, ctx, notes, levels, body, region, rest) {
            Ok(behind) => rest = behind,
            Err(stop) => return Err(stop),
        }
    }
    Ok(rest)
}

// A module or a function in no block, behind its id, with so many names before that and this many bytes left there.
#[cycle(ops)]
fn read_bodied<'a, D: ReadSet>(
    alloc: Global,
    ctx: &mut Context<D>,
    notes: &mut Notes<'a>,
    levels: usize,
    kind: BodyKind,
    names: usize,
    left: usize,
    bytes: &'a [u8],
) -> Result<(Ptr<Operation>, &'a [u8]), Stop>
    ensures read { IfOk result (λ x. HasRead bytes.now x.1.now ctx.old ctx.new (IRNode.Operation x.0)) }
    ensures kept { IsReading bytes.now None ctx.old ctx.new }
    ensures noted { IfOk result (λ x. NotesOn ctx.old notes.old ctx.new notes.new) }
    ensures stands { IfOk result (λ x. AreReady ctx.old notes.old → (ws : List (List ℕ)) → length ws ≡ names →
        (at : Scope) → ReadsBehind D.find_kind D.is_isolated levels ws bytes.now x.1.now ctx.old ctx.new notes.old
        notes.new (IrKind.Builtin (HeadKind.Bodied kind)) at (IRNode.Operation x.0)) }
    ensures met { ReadsUpTo (λ x. x.1.now) result (bodied_at (ir_op_at D.find_kind levels) levels kind names
        bytes.now) }
    ensures whole { IsWellFormed D.attr_handles ctx.new }
{
    contexts_stand::<D>();
    ctx.stands();
    expect_names(0, names, left)?;
    let read = read_header(alloc, ctx, levels, kind, bytes);
    growth(ctx);
    ctx.stands();
    let (header, behind) = read?;
    let (op, region) = make_op(alloc, ctx, header)?;
    match read_body(alloc, ctx, notes, levels, Some(op), region, behind) {
        Ok(end) => Ok((op, end)),
        Err(stop) => Err(stop),
    }
}

// A constant that stands at a place, behind its id.
fn read_named_constant<'a, D: ReadSet>(
    alloc: Global,
    ctx: &mut Context<D>,
    notes: &mut Notes<'a>,
    levels: usize,
    at: Place,
    names: ResultNames<'a>,
    left: usize,
    bytes: &'a [u8],
) -> Result<(Ptr<Operation>, &'a [u8]), Stop>
    requires as_many { length names.spelled.items ≡ length names.given.items }
    ensures read { IfOk result (λ x. HasRead bytes.now x.1.now ctx.old ctx.new (IRNode.Operation x.0)) }
    ensures kept { IsReading bytes.now None ctx.old ctx.new }
    ensures noted { IfOk result (λ x. NotesOn ctx.old notes.old ctx.new notes.new) }
    ensures stands { IfOk result (λ x. AreReady ctx.old notes.old → (ws : List (List ℕ)) →
        AreResultNames names.entry ws → ReadsBehind D.find_kind D.is_isolated levels ws bytes.now x.1.now ctx.old
        ctx.new notes.old notes.new (IrKind.Builtin HeadKind.Constant) (scope_of at) (IRNode.Operation x.0)) }
    ensures met { ReadsUpTo (λ x. x.1.now) result (named_constant_at levels (length names.entry.given.items)
        bytes.now) }
    ensures whole { IsWellFormed D.attr_handles ctx.new }
{
    contexts_stand::<D>();
    ctx.stands();
    let ResultNames { spelled, given } = names;
    let (op, end) = match read_constant(alloc, ctx, levels, given, left, bytes) {
        Ok(read) => read,
        Err(stop) => return Err(stop),
    };
    notes.bear_results(ctx, at.body, op, spelled.as_slice())?;
    Ok((op, end))
}

// An own operation without its regions, behind its id, with its results and its uses noted.
fn read_own_front<'a, D: ReadSet>(
    alloc: Global,
    ctx: &mut Context<D>,
    notes: &mut Notes<'a>,
    levels: usize,
    at: Place,
    kind: D::Kind,
    names: ResultNames<'a>,
    left: usize,
    bytes: &'a [u8],
) -> Result<(Ptr<Operation>, &'a [u8]), Stop>
    requires at_live { IsPlaceLive ctx.old at }
    ensures read { IfOk result (λ x. HasFront bytes.now x.1.now ctx.old ctx.new (IRNode.Operation x.0)) }
    ensures kept { IsReading bytes.now None ctx.old ctx.new }
    ensures noted { IfOk result (λ x. NotesOn ctx.old notes.old ctx.new notes.new) }
    ensures stands { IfOk result (λ x. AreReady ctx.old notes.old → (ws : List (List ℕ)) →
        AreResultNames names.entry ws → ReadsOwnFront D.find_kind D.is_isolated levels ws bytes.now x.1.now ctx.old
        ctx.new notes.old notes.new kind (scope_of at) (IRNode.Operation x.0)) }
    ensures met { ReadsUpTo (λ x. x.1.now) result (parts_at levels (length names.entry.spelled.items) bytes.now) }
    ensures whole { IsWellFormed D.attr_handles ctx.new }
{
    contexts_stand::<D>();
    ctx.stands();
    let ResultNames { spelled, given } = names;
    let read = read_own_parts(alloc, ctx, levels, spelled.len(), left, bytes);
    ctx.stands();
    let (parts, behind) = read?;
    let OwnParts { uses, typed } = parts;
    let successors = stand_ins(alloc, block_of(at), uses.successors.len())?;
    let types = typed.signature;
    let op = make_own(
        alloc,
        ctx,
        kind,
        given,
        typed.attributes,
        types.result_types,
        successors,
    )?;
    notes.bear_results(ctx, at.body, op, spelled.as_slice())?;
    notes.note_uses(op, at, &uses, types.operand_types.as_slice(), typed.left)?;
    Ok((op, behind))
}

// The operation whose body the regions of an operation of a kind stand in.
fn body_in<D: ReadSet>(
    kind: D::Kind,
    op: Ptr<Operation>,
    around: Option<Ptr<Operation>>,
) -> Option<Ptr<Operation>>
    ensures { result ≡ (if D.is_isolated kind then Some op else around) }
{
    if D::is_isolated(kind) {
        Some(op)
    } else {
        around
    }
}

// An own operation in no block, behind its id.
#[cycle(ops)]
fn read_own<'a, D: ReadSet>(
    alloc: Global,
    ctx: &mut Context<D>,
    notes: &mut Notes<'a>,
    levels: usize,
    at: Place,
    kind: D::Kind,
    names: ResultNames<'a>,
    left: usize,
    bytes: &'a [u8],
) -> Result<(Ptr<Operation>, &'a [u8]), Stop>
    requires at_live { IsPlaceLive ctx.old at }
    ensures read { IfOk result (λ x. HasRead bytes.now x.1.now ctx.old ctx.new (IRNode.Operation x.0)) }
    ensures kept { IsReading bytes.now None ctx.old ctx.new }
    ensures noted { IfOk result (λ x. NotesOn ctx.old notes.old ctx.new notes.new) }
    ensures stands { IfOk result (λ x. AreReady ctx.old notes.old → (ws : List (List ℕ)) →
        AreResultNames names.entry ws → ReadsBehind D.find_kind D.is_isolated levels ws bytes.now x.1.now ctx.old
        ctx.new notes.old notes.new (IrKind.Own kind) (scope_of at) (IRNode.Operation x.0)) }
    ensures met { ReadsUpTo (λ x. x.1.now) result (own_at (ir_op_at D.find_kind levels) levels
        (words names.entry.spelled.items) kind bytes.now) }
    ensures whole { IsWellFormed D.attr_handles ctx.new }
{
    contexts_stand::<D>();
    ctx.stands();
    growth(ctx);
    let (op, behind) = match read_own_front(
        alloc, ctx, notes, levels, at, kind, names, left, bytes,
    ) {
        Ok(read) => read,
        Err(stop) => return Err(stop),
    };
    let body = body_in::<D>(kind, op, at.body);
    match read_regions(alloc, ctx, notes, levels, body, op, behind) {
        Ok(end) => Ok((op, end)),
        Err(stop) => Err(stop),
    }
}

// An operation in no block, which will stand at a place, with at most this many levels open.
#[cycle(ops)]
pub fn read_ir_op<'a, D: ReadSet>(
    alloc: Global,
    ctx: &mut Context<D>,
    notes: &mut Notes<'a>,
    levels: usize,
    at: Place,
    bytes: &'a [u8],
) -> Result<(Ptr<Operation>, &'a [u8]), Stop>
    requires at_live { IsPlaceLive ctx.old at }
    ensures read { IfOk result (λ x. HasRead bytes.now x.1.now ctx.old ctx.new (IRNode.Operation x.0)) }
    ensures shorter { IfOk result (λ x. length x.1.now < length bytes.now) }
    ensures kept { IsReading bytes.now None ctx.old ctx.new }
    ensures noted { IfOk result (λ x. NotesOn ctx.old notes.old ctx.new notes.new) }
    ensures stands { IfOk result (λ x. AreReady ctx.old notes.old → ReadsIr D.find_kind D.is_isolated levels
        bytes.now x.1.now ctx.old ctx.new notes.old notes.new (scope_of at) (IRNode.Operation x.0)) }
    ensures met { ReadsUpTo (λ x. x.1.now) result (ir_op_at D.find_kind levels bytes.now) }
    ensures whole { IsWellFormed D.attr_handles ctx.new }
{
    contexts_stand::<D>();
    ctx.stands();
    begin_level(levels, bytes)?;
    let (opening, rest) = read_ir_opening::<D>(alloc, bytes)?;
    let IrOpening { names, kind, left } = opening;
    match kind {
        IrKind::Builtin(HeadKind::Bodied(body)) => {
            let count = names.spelled.len();
            read_bodied(alloc, ctx, notes, levels - 1, body, count, left, rest)
        }
        IrKind::Builtin(HeadKind::Constant) => {
            read_named_constant(alloc, ctx, notes, levels - 1, at, names, left, rest)
        }
        IrKind::Builtin(HeadKind::ForwardRef) => {
            Err(Stop::At(Fault::ForwardRefOpExistenceErr, left))
        }
        IrKind::Own(kind) => read_own(alloc, ctx, notes, levels - 1, at, kind, names, left, rest),
    }
}
