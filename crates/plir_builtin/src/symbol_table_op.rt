//! The interface of operations that are symbol tables.
ghost use Rattle.std.specs.Prelude.{◌≡◌, true, IfErr, OnOk, IsSome};
ghost use Rattle.plir_core.specs.declared.ptr.IRNode.{IRNode as AnyNode};
ghost use Rattle.plir_core.specs.ContextView.{IsLive, kind_of};
ghost use Rattle.plir_iface.specs.Counts.{HasNRegions};
ghost use Rattle.plir_iface.specs.Regions.{HasSingleBlocks};
ghost use Rattle.plir_builtin.specs.Refusals.{Reports};
ghost use Rattle.plir_builtin.specs.Reading.{IsFirstRefusalAt};
ghost use Rattle.plir_builtin.specs.Symbols.{IsGood, body, is_table_kind, scan, symbols};
ghost use Rattle.plir_builtin.specs.SymbolUses.{HasTableRule, IsSymbolsRefusal, IsTableRuleRefusal, use_reported};

use crate::reading::RefusedSymbol;
use crate::scanning::{count_symbols, find_symbol};
use crate::symbol_table::SymbolTable;
use crate::symbol_table_err::SymbolTableErr;
use crate::symbol_users::{SymbolUserSet, verify_uses};
use crate::symbols::SymbolOpInterfaceErr;
use crate::table_body::body_of;
use plir_core::{Context, Operation, Ptr};
use plir_data::{Identifier, OpSet, VerifyErr};
use plir_iface::{OneRegionInterface, SingleBlockRegionInterface};
use std::alloc::Global;
use std::error::Error as StdError;
use thiserror::Error;

/// Why a symbol table is not right.
#[derive(Debug, Drop, Error)]
#[error_bound(E: StdError)]
pub enum SymbolTableInterfaceErr<E> {
    /// A symbol has the name of an earlier one: the name.
    #[error("Multiple definitions of Symbol {0}")]
    SymbolRedefined(String),
    /// A symbol has no name.
    #[error("{0}")]
    Unnamed(SymbolOpInterfaceErr),
    /// A use of a symbol is not right.
    #[error("{0}")]
    Use(E),
}

/// What a verifier reports of a symbol that the table of an operation refuses.
fn report<D: OpSet>(
    ctx: &Context<D>,
    op: Ptr<Operation>,
    refused: RefusedSymbol,
) -> VerifyErr<SymbolTableInterfaceErr<D::Err>>
    requires op_live { IsLive ctx.now (AnyNode.Operation op) }
    requires symbol_live { IsLive ctx.now (AnyNode.Operation refused.op) }
    requires refused { Reports (IsFirstRefusalAt refused.op (symbols D.is_symbol ctx.now op)) refused.why }
    ensures { IsSymbolsRefusal D.is_symbol ctx.now op result }
{
    let RefusedSymbol { op: symbol, why } = refused;
    match why {
        SymbolTableErr::SymbolRedefined(name) => VerifyErr::Refused {
            loc: symbol.loc(ctx),
            err: SymbolTableInterfaceErr::SymbolRedefined(name),
        },
        SymbolTableErr::Unnamed(err) => VerifyErr::Refused {
            loc: op.loc(ctx),
            err: SymbolTableInterfaceErr::Unnamed(err),
        },
        _ => VerifyErr::Memory,
    }
}

/// Accepts exactly where all symbols in the body of a table have names, and no two the same.
fn verify_symbols<D: OpSet>(
    alloc: Global,
    ctx: &Context<D>,
    op: Ptr<Operation>,
) -> Result<(), VerifyErr<SymbolTableInterfaceErr<D::Err>>>
    requires live { IsLive ctx.now (AnyNode.Operation op) }
    requires table { is_table_kind D.is_symbol_table (kind_of ctx.now op) ≡ true }
    requires at_body { IsSome (body ctx.now op) }
    ensures ok { OnOk result (IsGood D.is_symbol D.is_symbol_table ctx.now op) }
    ensures refused { IfErr result (IsSymbolsRefusal D.is_symbol ctx.now op) }
{
    let block = body_of(ctx, op);
    let mut table = SymbolTable::unread(alloc, op);
    if table.reserve(count_symbols(ctx, block)).is_err() {
        return Err(VerifyErr::Memory);
    }
    match table.read(ctx, block) {
        Ok(()) => Ok(()),
        Err(refused) => Err(report(ctx, op, refused)),
    }
}

/// What a verifier reports of uses that are refused.
fn tell_use<E>(refused: VerifyErr<E>) -> VerifyErr<SymbolTableInterfaceErr<E>>
    ensures { result ≡ use_reported refused }
{
    match refused {
        VerifyErr::Refused { loc, err } => VerifyErr::Refused {
            loc,
            err: SymbolTableInterfaceErr::Use(err),
        },
        VerifyErr::Memory => VerifyErr::Memory,
    }
}

/// Accepts exactly where the rule of a symbol table holds.
fn verify_table<D: SymbolUserSet>(
    alloc: Global,
    ctx: &Context<D>,
    op: Ptr<Operation>,
) -> Result<(), VerifyErr<SymbolTableInterfaceErr<D::Err>>>
    requires live { IsLive ctx.now (AnyNode.Operation op) }
    requires table { is_table_kind D.is_symbol_table (kind_of ctx.now op) ≡ true }
    requires one_region { HasNRegions 1 ctx.now op }
    requires single_blocks { HasSingleBlocks ctx.now op }
    ensures ok { OnOk result (HasTableRule D.is_symbol D.is_symbol_table D.is_symbol_user D.uses_hold ctx.now op) }
    ensures refused { IfErr result (IsTableRuleRefusal D.is_symbol D.is_symbol_table D.is_symbol_user D.uses_hold
        D.use_refusal ctx.now op) }
{
    if let Err(refused) = verify_symbols(alloc, ctx, op) {
        return Err(refused);
    }
    match verify_uses(alloc, ctx, op) {
        Ok(()) => Ok(()),
        Err(refused) => Err(tell_use(refused)),
    }
}

/// Operations that are symbol tables: they have one region with one block, their body.
pub trait SymbolTableInterface<D: OpSet>: SingleBlockRegionInterface<D> + OneRegionInterface<D> {
    /// The first symbol in the body that has a name. It is sought symbol by symbol.
    final fn lookup(&self, ctx: &Context<D>, name: &Identifier) -> Option<Ptr<Operation>>
        requires live { IsLive ctx.now (AnyNode.Operation (Self.pointer self.now)) }
        requires one_region { HasNRegions 1 ctx.now (Self.pointer self.now) }
        requires single_blocks { HasSingleBlocks ctx.now (Self.pointer self.now) }
        ensures { result ≡ scan D.is_symbol ctx.now (Self.pointer self.now) name.now }
    {
        find_symbol(ctx, self.get_operation(), name)
    }

    /// Accepts exactly where all symbols in the body have names, no two the same, and the uses of every symbol user
    /// that the walk of the table calls at hold, memory aside: of nested tables too, but not of what stands in them.
    /// Reports the first symbol without a name, at the table's location, or that repeats a name, at the symbol's own;
    /// else the refusal of the first use, at the location that is reported there.
    final fn verify(
        &self,
        alloc: Global,
        ctx: &Context<D>,
    ) -> Result<(), VerifyErr<SymbolTableInterfaceErr<D::Err>>>
    where
        D: SymbolUserSet,
        requires live { IsLive ctx.now (AnyNode.Operation (Self.pointer self.now)) }
        requires table { is_table_kind D.is_symbol_table (kind_of ctx.now (Self.pointer self.now)) ≡ true }
        requires one_region { HasNRegions 1 ctx.now (Self.pointer self.now) }
        requires single_blocks { HasSingleBlocks ctx.now (Self.pointer self.now) }
        ensures ok { OnOk result (HasTableRule D.is_symbol D.is_symbol_table D.is_symbol_user D.uses_hold ctx.now
            (Self.pointer self.now)) }
        ensures refused { IfErr result (IsTableRuleRefusal D.is_symbol D.is_symbol_table D.is_symbol_user D.uses_hold
            D.use_refusal ctx.now (Self.pointer self.now)) }
    {
        verify_table(alloc, ctx, self.get_operation())
    }
}
