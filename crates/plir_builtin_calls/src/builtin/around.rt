//! Any operation, with the interfaces of symbols and of symbol tables.
ghost use Rattle.std.specs.Prelude.{◌↔◌, IsSome, IsTrue};
ghost use Rattle.plir_core.specs.ContextView.{IsLive};
ghost use Rattle.plir_core.specs.declared.ptr.IRNode.{IRNode as AnyNode};
ghost use Rattle.plir_iface.specs.Counts.{HasNRegions};
ghost use Rattle.plir_iface.specs.Regions.{HasSingleBlocks};
ghost use Rattle.plir_builtin_calls.specs.Links.{IsFoundIn};

use plir_builtin::{SymbolOpInterface, SymbolTableInterface};
use plir_core::{Context, Operation, Ptr};
use plir_data::{Identifier, Memory, OpSet};
use plir_iface::{OneRegionInterface, Op, SingleBlockRegionInterface};
use std::alloc::Global;

/// An operation, of whatever kind.
#[derive(Clone, Copy)]
pub struct Around {
    pub op: Ptr<Operation>,
}

impl<D: OpSet> Op<D> for Around {
    ghost pointer = { λ o. o.op };

    fn get_operation(&self) -> Ptr<Operation> {
        self.op
    }
}

impl<D: OpSet> OneRegionInterface<D> for Around {}

impl<D: OpSet> SingleBlockRegionInterface<D> for Around {}

impl<D: OpSet> SymbolOpInterface<D> for Around {}

impl<D: OpSet> SymbolTableInterface<D> for Around {}

/// Whether an operation has one region, of one block.
pub fn has_body<D: OpSet, T: SymbolTableInterface<D>>(ctx: &Context<D>, table: &T) -> bool
    requires { IsLive ctx.now (AnyNode.Operation (T.pointer table.now)) }
    ensures { IsTrue result ↔ (HasNRegions 1 ctx.now (T.pointer table.now) ×
        HasSingleBlocks ctx.now (T.pointer table.now)) }
{
    if OneRegionInterface::<D>::verify(table, ctx).is_err() {
        return false;
    }
    SingleBlockRegionInterface::<D>::verify(table, ctx).is_ok()
}

// The first symbol of a name in the body of an operation that has one region, of one block.
fn first_in<D: OpSet, T: SymbolTableInterface<D>>(
    ctx: &Context<D>,
    table: &T,
    name: &Identifier,
) -> Option<Ptr<Operation>>
    requires { IsLive ctx.now (AnyNode.Operation (T.pointer table.now)) }
    ensures { IsSome result ↔ IsFoundIn D.is_symbol ctx.now (T.pointer table.now) name.now }
{
    if !has_body(ctx, table) {
        return None;
    }
    SymbolTableInterface::<D>::lookup(table, ctx, name)
}

/// The first symbol of a name in the body of an operation that has one region, of one block, by a scan.
pub fn scan<D: OpSet>(
    ctx: &Context<D>,
    table: Ptr<Operation>,
    name: &Identifier,
) -> Option<Ptr<Operation>>
    requires { IsLive ctx.now (AnyNode.Operation table) }
    ensures { IsSome result ↔ IsFoundIn D.is_symbol ctx.now table name.now }
{
    first_in(ctx, &Around { op: table }, name)
}

// The name of a symbol, if it has one.
fn name_in<'a, D: OpSet, S: SymbolOpInterface<D>>(
    ctx: &'a Context<D>,
    symbol: &S,
) -> Option<&'a Identifier>
    requires { IsLive ctx.now (AnyNode.Operation (S.pointer symbol.now)) }
{
    if SymbolOpInterface::<D>::verify(symbol, ctx).is_err() {
        return None;
    }
    Some(SymbolOpInterface::<D>::get_symbol_name(symbol, ctx))
}

/// The name of a symbol, if it has one.
pub fn symbol_name<D: OpSet>(ctx: &Context<D>, op: Ptr<Operation>) -> Option<&Identifier>
    requires { IsLive ctx.now (AnyNode.Operation op) }
{
    name_in(ctx, &Around { op })
}

// Names a symbol.
fn rename<D: OpSet, S: SymbolOpInterface<D>>(
    alloc: Global,
    ctx: &mut Context<D>,
    symbol: &S,
    name: Identifier,
) -> Result<(), Memory>
    requires { IsLive ctx.old (AnyNode.Operation (S.pointer symbol.now)) }
{
    symbol.set_symbol_name(alloc, ctx, name)
}

/// Names a symbol.
pub fn set_symbol_name<D: OpSet>(
    alloc: Global,
    ctx: &mut Context<D>,
    op: Ptr<Operation>,
    name: Identifier,
) -> Result<(), Memory>
    requires { IsLive ctx.old (AnyNode.Operation op) }
{
    rename(alloc, ctx, &Around { op }, name)
}
