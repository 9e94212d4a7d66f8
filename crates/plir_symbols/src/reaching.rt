//! Which symbols of a table are reached.
ghost use Rattle.std.specs.Prelude.{◌≡◌, ◌↔◌, Some, false, IfOk, IsTrue, OnOk};
ghost use Rattle.std.specs.FinMap as map;
ghost use Rattle.plir_store.specs.Members.{Has};
ghost use Rattle.plir_core.specs.declared.ptr.IRNode.{IRNode as AnyNode};
ghost use Rattle.plir_core.specs.ContextView.{IsLive, children, kind_of};
ghost use Rattle.plir_builtin.specs.Agree.{Agrees};
ghost use Rattle.plir_builtin.specs.Symbols.{body, is_table_kind};
ghost use Rattle.plir_symbols.specs.DeadSymbols.{IsInBody, IsReached, MayGo};
ghost use Rattle.plir_symbols.specs.Reaching.{IsGrown, IsKept, IsReachedAt, IsTold, IsToldUnder, IsWhole};
ghost use Rattle.plir_symbols.specs.Reaching.{Tells, is_among, ops_of};

use crate::reached::Reached;
use crate::symbol_names::SymbolNames;
use plir_builtin::{SymbolTable, is_symbol, symbol_name};
use plir_core::laws::{first_child_is_front, next_is_behind};
use plir_core::{BasicBlock, Context, IRNode, Interface, Operation, Ptr, kind_impls};
use plir_data::{Identifier, Memory, OpSet};
use plir_walk::WALKCONFIG_PREORDER_FORWARD;
use plir_walk::interruptible::{WalkResult, walk_advance, walk_break, walk_skip};
use plir_walk::operations::immutable::walk_ops;
use std::alloc::Global;
use std::ops::ControlFlow;

// Whether an operation is a symbol table.
fn is_table<D: OpSet>(ctx: &Context<D>, op: Ptr<Operation>) -> bool
    requires { IsLive ctx.now (AnyNode.Operation op) }
    ensures { result ≡ is_table_kind D.is_symbol_table (kind_of ctx.now op) }
{
    kind_impls::<D>(op.kind(ctx), Interface::SymbolTable)
}

// Reaches the symbol that a table has under a name, if it has one, and that is live.
fn reach_name<D: OpSet>(
    ctx: &Context<D>,
    table: &SymbolTable,
    name: &Identifier,
    reached: &mut Reached,
) -> Result<(), Memory>
    ensures { OnOk result (IsGrown (λ q. IsLive ctx.now (AnyNode.Operation q) ×
        (map.get table.now.names name.now ≡ Some q)) reached.old reached.new) }
{
    let Some(symbol) = table.lookup(name) else {
        return Ok(());
    };
    if !symbol.is_live(ctx) {
        return Ok(());
    }
    reached.put(symbol)?;
    Ok(())
}

// Reaches the symbols that a table has under the names that an operation uses.
fn reach_used<D: SymbolNames>(
    alloc: Global,
    ctx: &Context<D>,
    table: &SymbolTable,
    op: Ptr<Operation>,
    reached: &mut Reached,
) -> Result<(), Memory>
    requires { IsLive ctx.now (AnyNode.Operation op) }
    ensures { OnOk result (IsGrown (IsTold D.is_symbol_table D.names_used ctx.now table.now op) reached.old
        reached.new) }
{
    let names = D::used_names(alloc, ctx, op)?;
    for name in &names {
        reach_name(ctx, table, name, reached)?;
    }
    Ok(())
}

// Reaches what an operation uses by names in the table that is searched, or leaves out what is below another table; or
// breaks the walk off for want of memory.
fn reach_at<D: SymbolNames>(
    alloc: Global,
    ctx: &Context<D>,
    table: &SymbolTable,
    reached: &mut Reached,
    op: Ptr<Operation>,
) -> WalkResult<Memory>
    requires { IsLive ctx.now (AnyNode.Operation op) }
    ensures { IsReachedAt D.is_symbol_table D.names_used ctx.now table.now reached.old op result reached.new }
{
    if is_table(ctx, op) {
        return walk_skip();
    }
    match reach_used(alloc, ctx, table, op, reached) {
        Ok(()) => walk_advance(),
        Err(refused) => walk_break(refused),
    }
}

// Reaches what operations at or below a root use by names in the table, where no other table is nearer.
fn reach_below<D: SymbolNames>(
    alloc: Global,
    ctx: &Context<D>,
    table: &SymbolTable,
    root: Ptr<Operation>,
    reached: &mut Reached,
) -> Result<(), Memory>
    requires { IsLive ctx.now (AnyNode.Operation root) }
    ensures { OnOk result (IsGrown (IsToldUnder D.is_symbol_table D.names_used ctx.now table.now root) reached.old
        reached.new) }
{
    ctx.stands();
    let reach = |c: &Context<D>, r: &mut Reached, p: Ptr<Operation>| -> WalkResult<Memory>
        requires { IsLive c.now (AnyNode.Operation p) }
        ensures { IsReachedAt D.is_symbol_table D.names_used c.now table.entry.now r.old p result r.new }
    { reach_at(alloc, c, table, r, p) };
    match walk_ops(
        ctx,
        reached,
        &WALKCONFIG_PREORDER_FORWARD,
        IRNode::Operation(root),
        reach,
    ) {
        ControlFlow::Continue(_) => Ok(()),
        ControlFlow::Break(refused) => Err(refused),
    }
}

// Whether an operation is a private symbol with a name, and nothing outside its tree uses a value or a block of the
// tree.
fn may_go<D: SymbolNames>(ctx: &Context<D>, op: Ptr<Operation>) -> bool
    requires { IsLive ctx.now (AnyNode.Operation op) }
    ensures { IsTrue result ↔ MayGo D.is_symbol D.is_private ctx.now op }
{
    if !is_symbol(ctx, op) {
        return false;
    }
    if !D::is_private(ctx, op) {
        return false;
    }
    let Some(_name) = symbol_name(ctx, op) else {
        return false;
    };
    IRNode::Operation(op).is_unused_outside(ctx)
}

// Reaches an operation, unless it may go.
fn reach_kept<D: SymbolNames>(
    ctx: &Context<D>,
    op: Ptr<Operation>,
    reached: &mut Reached,
) -> Result<(), Memory>
    requires { IsLive ctx.now (AnyNode.Operation op) }
    ensures grown { OnOk result (IsGrown (λ q. (q ≡ op) × (MayGo D.is_symbol D.is_private ctx.now q → ⊥)) reached.old
        reached.new) }
    ensures tells { OnOk result (Tells (MayGo D.is_symbol D.is_private ctx.now op)) }
{
    if may_go(ctx, op) {
        return Ok(());
    }
    reached.put(op)?;
    Ok(())
}

// Reaches the operations of a block that may not go.
fn reach_all_kept<D: SymbolNames>(
    ctx: &Context<D>,
    block: Ptr<BasicBlock>,
    reached: &mut Reached,
) -> Result<(), Memory>
    requires { IsLive ctx.now (AnyNode.BasicBlock block) }
    ensures grown { OnOk result (IsGrown (IsKept D.is_symbol D.is_private ctx.now block) reached.old reached.new) }
    ensures tells { OnOk result ((p : _) → Has (children ctx.now (AnyNode.BasicBlock block)) (AnyNode.Operation p) →
        Tells (MayGo D.is_symbol D.is_private ctx.now p)) }
{
    ctx.stands();
    first_child_is_front(ctx, IRNode::BasicBlock(block));
    let mut at = block.get_head(ctx);
    'ops: while let Some(op) = at {
        next_is_behind(ctx, IRNode::Operation(op));
        reach_kept(ctx, op, reached)?;
        at = op.get_next(ctx);
    }
    Ok(())
}

/// The operations in the body of a table that are reached: those that may not go, and those whose names the table's
/// own operation uses, or an operation at or below one that is reached.
pub(crate) fn reached_symbols<D: SymbolNames>(
    alloc: Global,
    ctx: &Context<D>,
    table: &SymbolTable,
    block: Ptr<BasicBlock>,
) -> Result<Reached, Memory>
    requires live { IsLive ctx.now (AnyNode.Operation table.now.op) }
    requires body { body ctx.now table.now.op ≡ Some (AnyNode.BasicBlock block) }
    ensures whole { IfOk result IsWhole }
    ensures kept { IfOk result (λ r. (p : _) → Has (children ctx.now (AnyNode.BasicBlock block)) (AnyNode.Operation p) →
        is_among (ops_of r) p ≡ false → MayGo D.is_symbol D.is_private ctx.now p) }
    ensures exact { Agrees D.is_symbol D.is_symbol_table ctx.now table.now → IfOk result (λ r. (p : _) →
        IsInBody ctx.now table.now.op p → IsTrue (is_among (ops_of r) p) ↔ IsReached D.is_symbol D.is_private
        D.is_symbol_table D.names_used ctx.now table.now.op p) }
{
    ctx.stands();
    let mut reached = Reached::new(alloc);
    reach_used(alloc, ctx, table, table.get_operation(), &mut reached)?;
    reach_all_kept(ctx, block, &mut reached)?;
    let mut next = 0;
    'ops: while next < reached.len() {
        reach_below(alloc, ctx, table, reached.at(next), &mut reached)?;
        next += 1;
    }
    Ok(reached)
}
