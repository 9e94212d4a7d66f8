//! Long lists of edits, beside the same edits made by plain calls on nodes, with scans.
ghost use Rattle.std.specs.Prelude.{IfOk, IfSome};
ghost use Rattle.plir_core.specs.ContextView.{IsLive};
ghost use Rattle.plir_core.specs.declared.ptr.IRNode.{IRNode as AnyNode};

use crate::builtin::around::{scan, symbol_name};
use crate::builtin::link_set::LinkSet;
use crate::builtin::sessions::is_unused;
use crate::builtin::tables::make_edits;
use plir_builtin::{FuncOp, ModuleOp, SymbolEdit, SymbolTableCollection};
use plir_core::{BasicBlock, Context, IRNode, Operation, Ptr};
use plir_data::{FunctionType, Identifier, OpSet};
use plir_iface::Op;
use plir_scripts::{InContext, Stop, in_new_context};
use std::alloc::Global;
use std::fmt::Write;

/// A letter and a number, as a name.
pub fn numbered(alloc: Global, letter: &str, number: usize) -> Result<Identifier, Stop> {
    let mut name = String::from_str(alloc, letter)?;
    if write!(name, "{number}").is_err() {
        return Err(Stop::Memory);
    }
    Ok(Identifier::try_new(alloc, &name)?)
}

// A new module.
fn new_module<D: OpSet>(
    alloc: Global,
    ctx: &mut Context<D>,
    number: usize,
) -> Result<Ptr<Operation>, Stop> {
    let name = numbered(alloc, "m", number)?;
    let module = ModuleOp::new(alloc, ctx, name)?;
    Ok(Op::<D>::get_operation(&module))
}

/// A new function.
pub fn new_func<D: OpSet>(
    alloc: Global,
    ctx: &mut Context<D>,
    number: usize,
) -> Result<Ptr<Operation>, Stop>
    ensures { IfOk result (λ op. IsLive ctx.new (AnyNode.Operation op)) }
{
    let name = numbered(alloc, "s", number)?;
    let (arguments, results) = (Vec::new(alloc), Vec::new(alloc));
    let ty = FunctionType::get(ctx, arguments, results)?;
    let func = FuncOp::new(alloc, ctx, name, ty)?;
    Ok(Op::<D>::get_operation(&func))
}

// The block of a live module.
fn body<D: OpSet>(ctx: &Context<D>, table: Ptr<Operation>) -> Option<Ptr<BasicBlock>>
    ensures { IfSome result (λ block. IsLive ctx.now (AnyNode.BasicBlock block)) }
{
    if !table.is_live(ctx) {
        return None;
    }
    if ModuleOp::from_operation(ctx, table).is_none() {
        return None;
    }
    table.first_region(ctx)?.get_head(ctx)
}

// Whether a scan of a table, if it is live, finds no other symbol with the name of this one.
fn is_free<D: OpSet>(ctx: &Context<D>, table: Ptr<Operation>, op: Ptr<Operation>) -> bool
    requires { IsLive ctx.now (AnyNode.Operation op) }
{
    let Some(name) = symbol_name(ctx, op) else {
        return false;
    };
    if !table.is_live(ctx) {
        return true;
    }
    match scan(ctx, table, name) {
        Some(found) => found == op,
        None => true,
    }
}

// Puts a symbol last into the block of a table by plain calls, where it may be put; answers whether it stands there.
fn insert<D: OpSet>(ctx: &mut Context<D>, table: Ptr<Operation>, op: Ptr<Operation>) -> bool {
    let Some(block) = body(ctx, table) else {
        return false;
    };
    if !op.is_live(ctx) || !is_free(ctx, table, op) {
        return false;
    }
    if IRNode::Operation(op).is_ancestor(ctx, IRNode::BasicBlock(block)) {
        return false;
    }
    match op.get_parent_block(ctx) {
        Some(over) => over == block,
        None => {
            op.insert_at_back(ctx, block);
            true
        }
    }
}

// Whether a live operation stands in the block of a table.
fn is_in<D: OpSet>(ctx: &Context<D>, table: Ptr<Operation>, op: Ptr<Operation>) -> bool {
    match body(ctx, table) {
        Some(block) => op.is_live(ctx) && op.get_parent_block(ctx) == Some(block),
        None => false,
    }
}

// Makes an edit by plain calls, where it may be made; answers whether it was.
fn edit_plainly<D: OpSet>(ctx: &mut Context<D>, edit: SymbolEdit) -> bool {
    match edit {
        SymbolEdit::Insert { table, op, .. } => insert(ctx, table, op),
        SymbolEdit::Remove { table, op } => {
            if !is_in(ctx, table, op) || !op.is_live(ctx) {
                return false;
            }
            op.unlink(ctx);
            true
        }
        SymbolEdit::Erase { table, op } => is_in(ctx, table, op) && erase(ctx, op),
    }
}

// Erases an operation whose values are used in it alone.
fn erase<D: OpSet>(ctx: &mut Context<D>, op: Ptr<Operation>) -> bool {
    if !op.is_live(ctx) || !is_unused(ctx, op) {
        return false;
    }
    Operation::erase(op, ctx);
    true
}

// Numbers that look random.
#[derive(Drop)]
struct Numbers {
    seed: u32,
}

impl Numbers {
    fn below(&mut self, limit: usize) -> usize {
        self.seed = self
            .seed
            .wrapping_mul(1_664_525)
            .wrapping_add(1_013_904_223);
        match ((self.seed >> 8) as usize).checked_rem(limit) {
            Some(number) => number,
            None => 0,
        }
    }

    // One of the last forty operations, and one of the last five modules, each of which seven functions follow.
    fn pick(&mut self, ops: &[Ptr<Operation>]) -> Option<Ptr<Operation>> {
        let back = self.below(40);
        ops.iter().rev().nth(back).copied()
    }

    fn pick_module(&mut self, ops: &[Ptr<Operation>]) -> Option<Ptr<Operation>> {
        let back = self.below(5);
        ops.iter().rev().skip(7).step_by(8).nth(back).copied()
    }

    // An edit: one in sixteen erases a symbol, five take one out of the table that it stands in, if it stands in one.
    fn edit<D: OpSet>(&mut self, ctx: &Context<D>, ops: &[Ptr<Operation>]) -> Option<SymbolEdit> {
        let op = self.pick(ops)?;
        let module = self.pick_module(ops)?;
        let over = if op.is_live(ctx) {
            op.get_parent_op(ctx)
        } else {
            None
        };
        let table = over.unwrap_or(module);
        Some(match self.below(16) {
            0 => SymbolEdit::Erase { table, op },
            1..=5 => SymbolEdit::Remove { table, op },
            _ => SymbolEdit::Insert {
                table: module,
                op,
                point: None,
            },
        })
    }
}

// Adds a module and seven functions to two contexts in which the same was done before, so that they get the same
// numbers.
fn add<D: OpSet>(
    alloc: Global,
    cached: &mut Context<D>,
    plain: &mut Context<D>,
    ops: &mut Vec<Ptr<Operation>>,
    round: usize,
) -> Result<bool, Stop> {
    let module = new_module(alloc, cached, round % 5)?;
    let mut same = module == new_module(alloc, plain, round % 5)?;
    ops.push(module)?;
    for number in 0..7 {
        let func = new_func(alloc, cached, round.wrapping_add(number) % 12)?;
        same = same && func == new_func(alloc, plain, round.wrapping_add(number) % 12)?;
        ops.push(func)?;
    }
    Ok(same)
}

// Edits at random.
fn random_edits<D: OpSet>(
    alloc: Global,
    numbers: &mut Numbers,
    ctx: &Context<D>,
    ops: &[Ptr<Operation>],
) -> Result<Vec<SymbolEdit>, Stop> {
    let mut edits = Vec::new(alloc);
    for _ in 0..100 {
        if let Some(edit) = numbers.edit(ctx, ops) {
            edits.push(edit)?;
        }
    }
    Ok(edits)
}

// Makes edits through cached tables in one context, and by plain calls in the other; answers how many were made, if the
// same ones were.
fn edit_both<D: OpSet>(
    alloc: Global,
    cached: &mut Context<D>,
    plain: &mut Context<D>,
    edits: Vec<SymbolEdit>,
) -> Result<Option<usize>, Stop> {
    let copies = Vec::from_slice(alloc, edits.as_slice())?;
    let replies = make_edits(alloc, cached, copies)?;
    for (edit, reply) in edits.iter().zip(&replies) {
        if edit_plainly(plain, *edit) != reply.is_ok() {
            return Ok(None);
        }
    }
    Ok(Some(replies.iter().filter(|reply| reply.is_ok()).count()))
}

// Whether an operation is live in both contexts, and stands at the same place, or in neither.
fn stands_alike<D: OpSet>(a: &Context<D>, b: &Context<D>, op: Ptr<Operation>) -> bool {
    if !op.is_live(a) || !op.is_live(b) {
        return op.is_live(a) == op.is_live(b);
    }
    op.get_parent_block(a) == op.get_parent_block(b) && op.get_next(a) == op.get_next(b)
}

// Whether that is so of each of some operations.
fn stand_alike<D: OpSet>(a: &Context<D>, b: &Context<D>, ops: &[Ptr<Operation>]) -> bool {
    for op in ops {
        if !stands_alike(a, b, *op) {
            return false;
        }
    }
    true
}

// Makes a hundred rounds of random edits in both contexts; answers how many were made, if the contexts stayed alike.
fn random_rounds<D: OpSet>(
    alloc: Global,
    cached: &mut Context<D>,
    plain: &mut Context<D>,
) -> Result<Option<usize>, Stop> {
    let mut ops = Vec::new(alloc);
    let mut numbers = Numbers { seed: 20_261_124 };
    let mut total: usize = 0;
    for round in 0..100 {
        let added = add(alloc, cached, plain, &mut ops, round)?;
        let edits = random_edits(alloc, &mut numbers, cached, ops.as_slice())?;
        let made = edit_both(alloc, cached, plain, edits)?;
        if !added || !stand_alike(cached, plain, ops.as_slice()) {
            return Ok(None);
        }
        match made {
            Some(made) => total = total.wrapping_add(made),
            None => return Ok(None),
        }
    }
    Ok(Some(total))
}

// Does so in two new contexts.
#[derive(Drop)]
struct MakesRounds {
    alloc: Global,
}

impl<D: OpSet> InContext<D> for MakesRounds {
    type Answer = Result<Option<usize>, Stop>;

    fn run(self, ctx: &mut Context<D>) -> Result<Option<usize>, Stop> {
        let alloc = self.alloc;
        in_new_context(alloc, MakesRoundsBeside { alloc, cached: ctx })
    }
}

// Does so in a context and a new one.
#[derive(Drop)]
struct MakesRoundsBeside<'a, D: OpSet> {
    alloc: Global,
    cached: &'a mut Context<D>,
}

impl<D: OpSet> InContext<D> for MakesRoundsBeside<'_, D> {
    type Answer = Result<Option<usize>, Stop>;

    fn run(self, ctx: &mut Context<D>) -> Result<Option<usize>, Stop> {
        random_rounds(self.alloc, self.cached, ctx)
    }
}

/// Whether thousands of edits at random are made as scans say.
pub fn are_as_scans_say(alloc: Global) -> Result<bool, Stop> {
    let made = in_new_context::<LinkSet, _>(alloc, MakesRounds { alloc })?;
    Ok(2500 < made.unwrap_or(0))
}

// New functions whose numbers are below a thousand, the even ones alone or all.
fn new_funcs<D: OpSet>(
    alloc: Global,
    ctx: &mut Context<D>,
    evens: bool,
) -> Result<Vec<Ptr<Operation>>, Stop> {
    let mut funcs = Vec::new(alloc);
    for number in 0..1000 {
        if !evens || number % 2 == 0 {
            funcs.push(new_func(alloc, ctx, number)?)?;
        }
    }
    Ok(funcs)
}

// Edits that insert operations into a table, or erase them.
fn edits_of(
    alloc: Global,
    table: Ptr<Operation>,
    ops: &[Ptr<Operation>],
    erases: bool,
) -> Result<Vec<SymbolEdit>, Stop> {
    let mut edits = Vec::new(alloc);
    for op in ops {
        edits.push(if erases {
            SymbolEdit::Erase { table, op: *op }
        } else {
            SymbolEdit::Insert {
                table,
                op: *op,
                point: None,
            }
        })?;
    }
    Ok(edits)
}

// Makes edits through cached tables; answers how many were made.
fn apply<D: OpSet>(
    alloc: Global,
    ctx: &mut Context<D>,
    edits: Vec<SymbolEdit>,
) -> Result<usize, Stop> {
    let replies = make_edits(alloc, ctx, edits)?;
    Ok(replies.iter().filter(|reply| reply.is_ok()).count())
}

// Which of the names below a thousand are found in a table.
fn found<D: OpSet>(
    alloc: Global,
    ctx: &Context<D>,
    table: Ptr<Operation>,
) -> Result<Vec<bool>, Stop> {
    let mut tables = SymbolTableCollection::new(alloc);
    let mut found = Vec::new(alloc);
    for number in 0..1000 {
        let name = numbered(alloc, "s", number)?;
        if !table.is_live(ctx) {
            return Err(Stop::Refused);
        }
        let Ok(symbol) = tables.lookup_symbol_in_table(ctx, table, &name) else {
            return Err(Stop::Refused);
        };
        found.push(symbol.is_some())?;
    }
    Ok(found)
}

// Which edits of a thousand symbols were made, and which names were found after the erasures and in the end.
#[derive(Drop)]
struct ComeAndGone {
    inserted: usize,
    erased: usize,
    left: Vec<bool>,
    come: usize,
    all: Vec<bool>,
}

// Inserts a thousand functions, erases every second one, and inserts five hundred new ones of the same names.
fn come_and_go<D: OpSet>(alloc: Global, ctx: &mut Context<D>) -> Result<ComeAndGone, Stop> {
    let table = new_module(alloc, ctx, 0)?;
    let funcs = new_funcs(alloc, ctx, false)?;
    let inserted = apply(alloc, ctx, edits_of(alloc, table, funcs.as_slice(), false)?)?;
    let halves = every_second(alloc, funcs.as_slice())?;
    let erased = apply(alloc, ctx, edits_of(alloc, table, halves.as_slice(), true)?)?;
    let left = found(alloc, ctx, table)?;
    let funcs = new_funcs(alloc, ctx, true)?;
    let come = apply(alloc, ctx, edits_of(alloc, table, funcs.as_slice(), false)?)?;
    let all = found(alloc, ctx, table)?;
    Ok(ComeAndGone {
        inserted,
        erased,
        left,
        come,
        all,
    })
}

fn every_second(alloc: Global, ops: &[Ptr<Operation>]) -> Result<Vec<Ptr<Operation>>, Stop> {
    let mut halves = Vec::new(alloc);
    for op in ops.iter().step_by(2) {
        halves.push(*op)?;
    }
    Ok(halves)
}

// Does so in a new context.
#[derive(Drop)]
struct ComesAndGoes {
    alloc: Global,
}

impl<D: OpSet> InContext<D> for ComesAndGoes {
    type Answer = Result<ComeAndGone, Stop>;

    fn run(self, ctx: &mut Context<D>) -> Result<ComeAndGone, Stop> {
        come_and_go(self.alloc, ctx)
    }
}

/// Whether a thousand symbols come and go.
pub fn thousand_come_and_go(alloc: Global) -> Result<bool, Stop> {
    let seen = in_new_context::<LinkSet, _>(alloc, ComesAndGoes { alloc })?;
    let are_all = seen.all.iter().all(|is_found| *is_found);
    let counts = (seen.inserted, seen.erased, seen.come);
    Ok(counts == (1000, 500, 500) && are_odd(seen.left.as_slice()) && are_all)
}

// Whether what stands at odd places is true, and the rest is not.
fn are_odd(found: &[bool]) -> bool {
    found
        .iter()
        .enumerate()
        .all(|(number, is_found)| *is_found == (number % 2 == 1))
}
