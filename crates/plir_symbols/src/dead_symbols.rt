//! Dead symbol elimination.
ghost use Rattle.std.specs.Prelude.{◌≡◌, ◌↔◌, Some, IfErr, IsSome, IsTrue, OnOk, false, not};
ghost use Rattle.plir_store.specs.Members.{Has};
ghost use Rattle.plir_core.specs.declared.ptr.IRNode.{IRNode as AnyNode};
ghost use Rattle.plir_core.specs.ContextView.{IsLive, children, parent_of};
ghost use Rattle.plir_core.specs.Standing.{IsStanding};
ghost use Rattle.plir_builtin.specs.Agree.{Agrees, AllAgree, AreGivenOut};
ghost use Rattle.plir_builtin.specs.Refusals.{IsTableRefusal, Reports, reported};
ghost use Rattle.plir_builtin.specs.Symbols.{body, IsGood};
ghost use Rattle.plir_symbols.specs.CachedTables.{IsOwnCached, IsOwnCachedOrSame};
ghost use Rattle.plir_symbols.specs.DeadSymbols.{HasNoDead, MayGo};
ghost use Rattle.plir_symbols.specs.Reaching.{IsWhole, is_among, ops_of};
ghost use Rattle.plir_symbols.specs.SweptSymbols.{AreScansLeft, AreSweeps, AreSwept};
ghost use Rattle.plir_symbols.specs.Sweeping.{IsRound, IsSweptAt, IsTableKept};

use crate::reached::Reached;
use crate::reaching::reached_symbols;
use crate::symbol_names::SymbolNames;
use plir_builtin::{SymbolTable, SymbolTableCollection, SymbolTableErr, body_of};
use plir_core::laws::{first_child_is_front, next_is_behind};
use plir_core::{BasicBlock, Context, IRNode, Operation, Ptr};
use plir_data::{Memory, OpSet};
use plir_walk::laws::erasures_thin;
use std::alloc::Global;

// Erases a symbol in the body of a table, unless it is reached. Answers whether it did, or another one was erased
// before.
fn sweep_symbol<D: SymbolNames>(
    ctx: &mut Context<D>,
    table: &mut SymbolTable,
    reached: &Reached,
    op: Ptr<Operation>,
    erased: bool,
) -> bool
    requires table_live { IsLive ctx.old (AnyNode.Operation table.old.op) }
    requires at_body { IsSome (body ctx.old table.old.op) }
    requires op_live { IsLive ctx.old (AnyNode.Operation op) }
    requires here { parent_of ctx.old (AnyNode.Operation op) ≡ body ctx.old table.old.op }
    requires whole { IsWhole reached.now }
    requires may_go { is_among (ops_of reached.now) op ≡ false → MayGo D.is_symbol D.is_private ctx.old op }
    ensures { IsSweptAt D.is_symbol D.is_symbol_table ctx.old table.old (not (is_among (ops_of reached.now) op)) erased
        op result ctx.new table.new }
{
    erasures_thin(ctx);
    if reached.contains(op) {
        return erased;
    }
    match table.erase(ctx, op) {
        Ok(()) => true,
        Err(_) => unreachable!(),
    }
}

// Erases the symbols in the body of a table that are not reached, the first one first. Answers whether there were any.
fn sweep_body<D: SymbolNames>(
    ctx: &mut Context<D>,
    table: &mut SymbolTable,
    reached: &Reached,
    block: Ptr<BasicBlock>,
) -> bool
    requires table_live { IsLive ctx.old (AnyNode.Operation table.old.op) }
    requires body { body ctx.old table.old.op ≡ Some (AnyNode.BasicBlock block) }
    requires whole { IsWhole reached.now }
    requires may_go { (p : _) → Has (children ctx.old (AnyNode.BasicBlock block)) (AnyNode.Operation p) →
        is_among (ops_of reached.now) p ≡ false → MayGo D.is_symbol D.is_private ctx.old p }
    ensures { IsRound D.is_symbol D.is_symbol_table D.is_private ctx.old table.old block
        (λ p. not (is_among (ops_of reached.now) p)) result ctx.new table.new }
{
    ctx.stands();
    erasures_thin(ctx);
    first_child_is_front(ctx, IRNode::BasicBlock(block));
    let mut erased = false;
    let mut at = block.get_head(ctx);
    'symbols: while let Some(op) = at {
        next_is_behind(ctx, IRNode::Operation(op));
        at = op.get_next(ctx);
        erased = sweep_symbol(ctx, table, reached, op, erased);
        ctx.stands();
    }
    erased
}

// Erases the dead symbols of a table, round after round, until none is left.
fn sweep_table<D: SymbolNames>(
    alloc: Global,
    ctx: &mut Context<D>,
    table: &mut SymbolTable,
) -> Result<(), Memory>
    requires live { IsLive ctx.old (AnyNode.Operation table.old.op) }
    requires at_body { IsSome (body ctx.old table.old.op) }
    ensures swept { AreSwept D.is_symbol D.is_private ctx.old ctx.new }
    ensures sweeps { Agrees D.is_symbol D.is_symbol_table ctx.old table.old →
        (ms : _) × AreSweeps D.is_symbol D.is_private D.is_symbol_table D.names_used table.old.op ctx.old ms ctx.new }
    ensures clean { Agrees D.is_symbol D.is_symbol_table ctx.old table.old →
        OnOk result (HasNoDead D.is_symbol D.is_private D.is_symbol_table D.names_used ctx.new table.old.op) }
    ensures kept { IsTableKept D.is_symbol D.is_symbol_table ctx.old table.old ctx.new table.new }
    ensures body { body ctx.new table.old.op ≡ body ctx.old table.old.op }
    ensures stands { IsStanding ctx.new }
    ensures live { IsLive ctx.new (AnyNode.Operation table.old.op) }
{
    ctx.stands();
    erasures_thin(ctx);
    let block = body_of(ctx, table.get_operation());
    'rounds: loop {
        let reached = reached_symbols(alloc, ctx, table, block)?;
        let erased = sweep_body(ctx, table, &reached, block);
        if !erased {
            return Ok(());
        }
    }
}

// Whether a table is that of an operation, which is live and has a body. Where all tables agree, that is so for each
// that is cached for a live operation.
fn is_ready<D: OpSet>(ctx: &Context<D>, cached: &SymbolTable, op: Ptr<Operation>) -> bool
    ensures { IsTrue result ↔ ((cached.now.op ≡ op) × IsLive ctx.now (AnyNode.Operation cached.now.op) ×
        IsSome (body ctx.now cached.now.op)) }
{
    cached.get_operation() == op && cached.has_body(ctx)
}

/// Erases the dead symbols of a table, each with all below it, until none is left: those in its body that are private,
/// of whose tree nothing outside uses a value or a block, and that are not reached. Reached is what does not go by
/// itself, what the table's own operation uses, and what operations use that stand at or below what is reached: so
/// symbols go that use themselves or one another alone. A name means the symbol that a scan of the nearest table finds
/// at its use, so it is no use of a symbol here where a nested table is nearer. All else stays as it was, in its order.
/// The table is then cached, all others are cached as they were, and where all tables of the collection agreed they do
/// still.
///
/// The symbols that are dead go in the order in which they stand. A symbol of which another one uses a value or a block
/// is reached, and may be dead once that one is gone: so this is done again until nothing is dead. A round takes one
/// walk of what is reached, and one look at each symbol, which goes through its tree, and over all operations of the
/// context only where a count of uses is not known.
///
/// # Errors
///
/// As [`SymbolTable::new`], where no table is cached: then nothing has changed. `Memory` also midway: then symbols may
/// be gone that were dead. `DoesNotImplementSymbolTableInterface` also where the table that is cached is another
/// operation's, or there is no body, which no collection in agreement meets; then too nothing has changed.
pub fn eliminate_dead_symbols<D: SymbolNames>(
    alloc: Global,
    ctx: &mut Context<D>,
    tables: &mut SymbolTableCollection,
    table: Ptr<Operation>,
) -> Result<(), SymbolTableErr>
    requires live { IsLive ctx.old (AnyNode.Operation table) }
    ensures live { IsLive ctx.new (AnyNode.Operation table) }
    ensures swept { AreSwept D.is_symbol D.is_private ctx.old ctx.new }
    ensures sweeps { AllAgree D.is_symbol D.is_symbol_table ctx.old tables.old →
        (ms : _) × AreSweeps D.is_symbol D.is_private D.is_symbol_table D.names_used table ctx.old ms ctx.new }
    ensures clean { AllAgree D.is_symbol D.is_symbol_table ctx.old tables.old →
        OnOk result (HasNoDead D.is_symbol D.is_private D.is_symbol_table D.names_used ctx.new table) }
    ensures good { AllAgree D.is_symbol D.is_symbol_table ctx.old tables.old →
        OnOk result (IsGood D.is_symbol D.is_symbol_table ctx.old table ×
        IsGood D.is_symbol D.is_symbol_table ctx.new table) }
    ensures scans { IsGood D.is_symbol D.is_symbol_table ctx.old table →
        AreScansLeft D.is_symbol ctx.old table ctx.new }
    ensures agree { AllAgree D.is_symbol D.is_symbol_table ctx.old tables.old →
        AllAgree D.is_symbol D.is_symbol_table ctx.new tables.new }
    ensures given { AreGivenOut ctx.old tables.old → AreGivenOut ctx.new tables.new }
    ensures refused { AllAgree D.is_symbol D.is_symbol_table ctx.old tables.old →
        IfErr result (Reports (IsTableRefusal D.is_symbol D.is_symbol_table ctx.old table)) }
    ensures same { IfErr result (λ e. IsSome (reported e) → (ctx.new ≡ ctx.old) × (tables.new ≡ tables.old)) }
    ensures cached { OnOk result (IsOwnCached tables.old table tables.new) }
    ensures others { IsOwnCachedOrSame tables.old table tables.new }
{
    ctx.stands();
    erasures_thin(ctx);
    let cached = tables.get_symbol_table(ctx, table)?;
    if !is_ready(ctx, cached, table) {
        return Err(SymbolTableErr::DoesNotImplementSymbolTableInterface);
    }
    sweep_table(alloc, ctx, cached)?;
    Ok(())
}
