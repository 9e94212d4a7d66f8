//! Call graphs as they are made: each name that an operation uses is looked up in the nearest table.
ghost use Rattle.std.specs.Prelude.{◌≡◌, ◌<◌, [], ◌∷◌, ◌++◌, IfErr, IfOk, OnOk, Some, length};
ghost use Rattle.plir_core.specs.declared.ptr.IRNode.{IRNode as AnyNode};
ghost use Rattle.plir_core.specs.ContextView.{IsLive, op_at};
ghost use Rattle.plir_builtin.specs.Agree.{AllAgree, AreGivenOut};
ghost use Rattle.plir_builtin.specs.Nearest.{IsNearest};
ghost use Rattle.plir_symbols.specs.CachedTables.{AreBrought, IsNearestCached};
ghost use Rattle.plir_symbols.specs.CallGraph.{AreAllCached, AreUsers, IsAsked, IsCallGraph, IsEdge, IsGraphRefusal};
ghost use Rattle.plir_symbols.specs.CallGraph.{IsUserRefusal};
ghost use Rattle.plir_symbols.specs.Calling.{AreEdgesPut, IsUserPut};
ghost use Rattle.plir_symbols.specs.SymbolNames.{names_in};

use crate::call_edges::{CallEdge, CallGraph};
use crate::symbol_names::SymbolNames;
use plir_builtin::{SymbolTableCollection, SymbolTableErr};
use plir_core::{Context, IRNode, Operation, Ptr};
use plir_data::{Identifier, Memory};
use plir_walk::WALKCONFIG_PREORDER_FORWARD;
use plir_walk::interruptible::{WalkResult, walk_advance, walk_break};
use plir_walk::operations::immutable::walk_ops;
use std::alloc::Global;
use std::ops::ControlFlow;

// Adds an operation to those that use names, if it uses one, or breaks the walk off for want of memory.
fn put_user<D: SymbolNames>(
    ctx: &Context<D>,
    users: &mut Vec<Ptr<Operation>>,
    op: Ptr<Operation>,
) -> WalkResult<Memory>
    requires { IsLive ctx.now (AnyNode.Operation op) }
    ensures { IsUserPut D.names_used ctx.now users.old.items op result users.new.items }
{
    if D::num_used_names(ctx, op) == 0 {
        return walk_advance();
    }
    match users.push(op) {
        Ok(()) => walk_advance(),
        Err(refused) => walk_break(Memory::from(refused)),
    }
}

// The operations at or below a root that use names, in the order of their places, found by one walk.
fn users_below<D: SymbolNames>(
    alloc: Global,
    ctx: &Context<D>,
    root: Ptr<Operation>,
) -> Result<Vec<Ptr<Operation>>, Memory>
    requires { IsLive ctx.now (AnyNode.Operation root) }
    ensures { IfOk result (λ users. AreUsers D.names_used ctx.now root users.items) }
{
    ctx.stands();
    let mut users = Vec::new(alloc);
    let put = |c: &Context<D>, u: &mut Vec<Ptr<Operation>>, p: Ptr<Operation>| -> WalkResult<Memory>
        requires { IsLive c.now (AnyNode.Operation p) }
        ensures { IsUserPut D.names_used c.now u.old.items p result u.new.items }
    { put_user(c, u, p) };
    match walk_ops(
        ctx,
        &mut users,
        &WALKCONFIG_PREORDER_FORWARD,
        IRNode::Operation(root),
        put,
    ) {
        ControlFlow::Continue(_) => Ok(users),
        ControlFlow::Break(refused) => Err(refused),
    }
}

// The edge of a name that an operation uses.
fn edge_of<D: SymbolNames>(
    ctx: &Context<D>,
    tables: &mut SymbolTableCollection,
    user: Ptr<Operation>,
    name: &Identifier,
) -> Result<CallEdge, SymbolTableErr>
    requires { IsLive ctx.now (AnyNode.Operation user) }
    ensures edge { AllAgree D.is_symbol D.is_symbol_table ctx.now tables.old →
        IfOk result (IsEdge D.is_symbol D.is_symbol_table ctx.now (user, name.now)) }
    ensures agree { AllAgree D.is_symbol D.is_symbol_table ctx.now tables.old →
        AllAgree D.is_symbol D.is_symbol_table ctx.now tables.new }
    ensures given { AreGivenOut ctx.now tables.old → AreGivenOut ctx.now tables.new }
    ensures brought { AreBrought D.is_symbol_table ctx.now D.is_symbol
        (λ t. IsNearest D.is_symbol_table ctx.now user (Some t)) tables.old tables.new }
    ensures cached { OnOk result (IsNearestCached D.is_symbol_table ctx.now tables.new user) }
    ensures refused { IfErr result (IsUserRefusal D.is_symbol D.is_symbol_table ctx.now tables.old user) }
{
    let symbol = tables.lookup_symbol_in_nearest_table(ctx, user, name)?;
    Ok(CallEdge { user, symbol })
}

// Adds an edge.
fn put_edge(edges: &mut Vec<CallEdge>, edge: CallEdge) -> Result<(), Memory>
    ensures { OnOk result (edges.new.items ≡ edges.old.items ++ edge ∷ []) }
{
    edges.push(edge)?;
    Ok(())
}

// Adds the edges of an operation, one for each name that it uses.
fn put_edges<D: SymbolNames>(
    alloc: Global,
    ctx: &Context<D>,
    tables: &mut SymbolTableCollection,
    user: Ptr<Operation>,
    edges: &mut Vec<CallEdge>,
) -> Result<(), SymbolTableErr>
    requires { IsLive ctx.now (AnyNode.Operation user) }
    ensures put { AllAgree D.is_symbol D.is_symbol_table ctx.now tables.old →
        OnOk result (AreEdgesPut D.is_symbol D.is_symbol_table D.names_used ctx.now user edges.old.items
        edges.new.items) }
    ensures agree { AllAgree D.is_symbol D.is_symbol_table ctx.now tables.old →
        AllAgree D.is_symbol D.is_symbol_table ctx.now tables.new }
    ensures given { AreGivenOut ctx.now tables.old → AreGivenOut ctx.now tables.new }
    ensures brought { AreBrought D.is_symbol_table ctx.now D.is_symbol
        (λ t. IsNearest D.is_symbol_table ctx.now user (Some t)) tables.old tables.new }
    ensures cached { 0 < length (names_in D.names_used (op_at ctx.now user)) →
        OnOk result (IsNearestCached D.is_symbol_table ctx.now tables.new user) }
    ensures refused { IfErr result (IsUserRefusal D.is_symbol D.is_symbol_table ctx.now tables.old user) }
{
    let names = D::used_names(alloc, ctx, user)?;
    for name in &names {
        let edge = edge_of(ctx, tables, user, name)?;
        put_edge(edges, edge)?;
    }
    Ok(())
}

/// The call graph of an operation and all below it: an edge for each name that one of these operations uses, from that
/// operation to the symbol that a scan of its nearest table finds, or to none, where nothing there bears the name or
/// there is no table at or above it. The edges stand in the order of the operations' places, and those of one operation
/// in the order of its names. The nearest table of each operation that uses a name is cached then; what was cached is
/// as it was.
///
/// This takes one walk, and a look-up for each name.
///
/// # Errors
///
/// As [`SymbolTableCollection::lookup_symbol_in_nearest_table`]: where no table is cached for the nearest table of an
/// operation that uses a name, and [`plir_builtin::SymbolTable::new`] refuses it, or `Memory`. Some of the others may
/// be cached then that were not.
pub fn call_graph<D: SymbolNames>(
    alloc: Global,
    ctx: &Context<D>,
    tables: &mut SymbolTableCollection,
    root: Ptr<Operation>,
) -> Result<CallGraph, SymbolTableErr>
    requires { IsLive ctx.now (AnyNode.Operation root) }
    ensures graph { AllAgree D.is_symbol D.is_symbol_table ctx.now tables.old →
        IfOk result (IsCallGraph D.is_symbol D.is_symbol_table D.names_used ctx.now root) }
    ensures agree { AllAgree D.is_symbol D.is_symbol_table ctx.now tables.old →
        AllAgree D.is_symbol D.is_symbol_table ctx.now tables.new }
    ensures given { AreGivenOut ctx.now tables.old → AreGivenOut ctx.now tables.new }
    ensures brought { AreBrought D.is_symbol_table ctx.now D.is_symbol
        (IsAsked D.is_symbol D.is_symbol_table D.names_used ctx.now root) tables.old tables.new }
    ensures cached { OnOk result (AreAllCached D.is_symbol D.is_symbol_table D.names_used ctx.now root tables.new) }
    ensures refused { IfErr result (IsGraphRefusal D.is_symbol D.is_symbol_table D.names_used ctx.now root tables.old) }
{
    ctx.stands();
    let users = users_below(alloc, ctx, root)?;
    let mut edges = Vec::new(alloc);
    for user in &users {
        put_edges(alloc, ctx, tables, *user, &mut edges)?;
    }
    let graph = CallGraph::new(alloc, edges)?;
    Ok(graph)
}
