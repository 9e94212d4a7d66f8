//! Symbol tables: the symbols in the body of an operation, by their names.
ghost use Rattle.std.specs.Prelude.{◌≡◌, [], Some, None, OnOk, OnErr, IsSome, option_map};
ghost use Rattle.std.specs.Prelude.{IfOk, Err, IfErr, IfSome, true, false};
ghost use Rattle.std.specs.FinMap as map;
ghost use Rattle.plir_core.specs.declared.ptr.IRNode.{IRNode as AnyNode};
ghost use Rattle.plir_core.specs.ContextView.{IsLive, IsAncestor, parent_of};
ghost use Rattle.plir_core.specs.InsertionPoint.{IsPointLive};
ghost use Rattle.plir_core.specs.Changes.{with_op_unlinked};
ghost use Rattle.plir_core.specs.Erase.{IsErased};
ghost use Rattle.plir_core.specs.Unused.{IsUnusedOutside, without_tree};
ghost use Rattle.plir_builtin.specs.Symbols.{body};
ghost use Rattle.plir_builtin.specs.Agree.{Agrees, KeepsAgreement, KeepsAllAgree, KeepsGivenOut};
ghost use Rattle.plir_builtin.specs.Insertion.{inserted};
ghost use Rattle.plir_builtin.specs.Refusals.{Reports, ReportsOnly, IsSymbolNamed, IsPlaceable, IsInsertErr};
ghost use Rattle.plir_builtin.specs.Refusals.{IsRemoveRefusal};
ghost use Rattle.plir_builtin.specs.Refusals.{IsTableRefusal, IsTableWithBody};
ghost use Rattle.plir_builtin.specs.Reading.{IsRead};
ghost use Rattle.plir_builtin.specs.TableEdits.{IsRecorded, IsForgotten};

use crate::inserting::{Plan, carry_out};
use crate::scanning::count_symbols;
use crate::symbol_table_err::SymbolTableErr;
use crate::symbols::{SymbolOpInterfaceErr, is_symbol, is_table, symbol_name};
use crate::table_body::{body_of, find_body};
use plir_core::{BasicBlock, Context, OpInsertionPoint, Operation, Ptr};
use plir_data::{Identifier, Memory, OpSet};
use std::alloc::Global;
use std::collections::HashMap;
use std::marker::Model;

/// The symbols in the body of an operation, by their names.
#[derive(Drop)]
pub struct SymbolTable {
    pub(crate) op: Ptr<Operation>,
    pub(crate) names: HashMap<Identifier, Ptr<Operation>>,
    pub(crate) alloc: Global,
}

impl Model for SymbolTable {
    ghost use Rattle.std.specs.FinMap as map;
    ghost use Rattle.plir_builtin.specs.Table.{Table, table_code};

    ghost Value = { Table };

    ghost coded = { table_code };

    ghost view = { λ t. record { op = t.op; names = map.from_entries t.names.entries } };
}

impl SymbolTable {
    /// The operation that is recorded under a name.
    pub fn lookup(&self, name: &Identifier) -> Option<Ptr<Operation>>
        ensures { result ≡ map.get self.now.names name.now }
    {
        self.names.get(name).copied()
    }

    /// Records an operation under a name, and answers what was recorded there before.
    pub(crate) fn record_name(
        &mut self,
        name: Identifier,
        op: Ptr<Operation>,
    ) -> Result<Option<Ptr<Operation>>, Memory>
        ensures before { IfOk result (λ o. o ≡ map.get self.old.names name) }
        ensures ok { OnOk result (self.new ≡ record self.old { names = map.insert self.old.names name op }) }
        ensures err { OnErr result (self.new ≡ self.old) }
    {
        let before = self.names.insert(name, op)?;
        Ok(before)
    }

    /// Makes room for so many names more.
    pub(crate) fn reserve(&mut self, more: usize) -> Result<(), Memory>
        ensures { self.new ≡ self.old }
    {
        self.names.reserve(more)?;
        Ok(())
    }

    /// Takes the entry of a name out, if there is one.
    pub(crate) fn forget_name(&mut self, name: &Identifier)
        ensures { self.new ≡ record self.old { names = map.remove self.old.names name.now } }
    {
        let _op = self.names.remove(name);
    }
}

/// Whether an operation stands in a block.
fn stands_in<D: OpSet>(ctx: &Context<D>, op: Ptr<Operation>, block: Ptr<BasicBlock>) -> bool
    requires { IsLive ctx.now (AnyNode.Operation op) }
    ensures yes { result ≡ true → parent_of ctx.now (AnyNode.Operation op) ≡ Some (AnyNode.BasicBlock block) }
    ensures no { result ≡ false → parent_of ctx.now (AnyNode.Operation op) ≡ Some (AnyNode.BasicBlock block) → ⊥ }
{
    match op.get_parent_block(ctx) {
        Some(over) => over == block,
        None => false,
    }
}

/// The name of a symbol in the body of a table, or why it is not removed.
fn member_name<D: OpSet>(
    ctx: &Context<D>,
    table: Ptr<Operation>,
    op: Ptr<Operation>,
) -> Result<&Identifier, SymbolTableErr>
    requires table_live { IsLive ctx.now (AnyNode.Operation table) }
    requires at_body { IsSome (body ctx.now table) }
    requires op_live { IsLive ctx.now (AnyNode.Operation op) }
    ensures named { IfOk result (λ n. IsSymbolNamed D.is_symbol ctx.now op n.now) }
    ensures member { OnOk result (parent_of ctx.now (AnyNode.Operation op) ≡ body ctx.now table) }
    ensures refused { IfErr result (ReportsOnly (IsRemoveRefusal D.is_symbol ctx.now table op)) }
{
    if !is_symbol(ctx, op) {
        return Err(SymbolTableErr::DoesNotImplementSymbolOpInterface);
    }
    if !stands_in(ctx, op, body_of(ctx, table)) {
        return Err(SymbolTableErr::SymbolOpNotInTableOp);
    }
    match symbol_name(ctx, op) {
        Some(name) => Ok(name),
        None => Err(SymbolTableErr::Unnamed(SymbolOpInterfaceErr)),
    }
}

/// Whether a symbol stands in the body of a table, or why it is not removed.
pub(crate) fn is_member<D: OpSet>(
    ctx: &Context<D>,
    table: Ptr<Operation>,
    op: Ptr<Operation>,
) -> Result<(), SymbolTableErr>
    requires table_live { IsLive ctx.now (AnyNode.Operation table) }
    requires at_body { IsSome (body ctx.now table) }
    requires op_live { IsLive ctx.now (AnyNode.Operation op) }
    ensures named { OnOk result ((x : _) × IsSymbolNamed D.is_symbol ctx.now op x) }
    ensures member { OnOk result (parent_of ctx.now (AnyNode.Operation op) ≡ body ctx.now table) }
    ensures refused { IfErr result (ReportsOnly (IsRemoveRefusal D.is_symbol ctx.now table op)) }
{
    match member_name(ctx, table, op) {
        Ok(_name) => Ok(()),
        Err(refused) => Err(refused),
    }
}

impl SymbolTable {
    /// The table of an operation, before its symbols are read.
    pub(crate) fn unread(alloc: Global, op: Ptr<Operation>) -> SymbolTable
        ensures op { result.op ≡ op }
        ensures read { IsRead [] result }
    {
        SymbolTable {
            op,
            names: HashMap::new(alloc),
            alloc,
        }
    }

    /// The table of an operation, with the symbols that stand in its body. Refused by, in this order:
    /// `DoesNotImplementSymbolTableInterface`; `Regions`, where it has not one region; `Body`, where that has not one
    /// block; at the first symbol that has no name, or that of an earlier one, `Unnamed` or `SymbolRedefined`. `Memory`
    /// may come in place of the last two, and where the symbols are recorded.
    pub fn new<D: OpSet>(
        alloc: Global,
        ctx: &Context<D>,
        op: Ptr<Operation>,
    ) -> Result<SymbolTable, SymbolTableErr>
        requires { IsLive ctx.now (AnyNode.Operation op) }
        ensures op { IfOk result (λ t. t.op ≡ op) }
        ensures agrees { IfOk result (Agrees D.is_symbol D.is_symbol_table ctx.now) }
        ensures refused { IfErr result (Reports (IsTableRefusal D.is_symbol D.is_symbol_table ctx.now op)) }
        ensures memory { result ≡ Err SymbolTableErr.Memory → IsTableWithBody D.is_symbol_table ctx.now op }
    {
        if !is_table(ctx, op) {
            return Err(SymbolTableErr::DoesNotImplementSymbolTableInterface);
        }
        let block = find_body(ctx, op)?;
        let mut table = SymbolTable::unread(alloc, op);
        table.reserve(count_symbols(ctx, block))?;
        match table.read(ctx, block) {
            Ok(()) => Ok(table),
            Err(refused) => Err(refused.why),
        }
    }

    /// Inserts a symbol, and records its name. One that stands in the body stays where it is; one that stands in no
    /// block is put at the point, or without a point before the terminator, if the body's last operation is one, else
    /// last. Refused by, in this order: `DoesNotImplementSymbolOpInterface`; `Unnamed`; `SymbolRedefined`, where the
    /// name is recorded for another operation; `SymbolOpAlreadyInAnotherTable`, where it stands in a block that is not
    /// the body; `InsertionPointNotInSameTable`, where it stands in no block and the point is not in the body. `Memory`
    /// may come in place of the two that report the name, and after all of them, where the name is recorded. After a
    /// refusal all is as before.
    pub fn insert<D: OpSet>(
        &mut self,
        ctx: &mut Context<D>,
        op: Ptr<Operation>,
        point: Option<OpInsertionPoint>,
    ) -> Result<(), SymbolTableErr>
        requires table_live { IsLive ctx.old (AnyNode.Operation self.old.op) }
        requires at_body { IsSome (body ctx.old self.old.op) }
        requires op_live { IsLive ctx.old (AnyNode.Operation op) }
        requires point_live { IfSome point (IsPointLive ctx.old) }
        requires not_above { IsAncestor ctx.old (AnyNode.Operation op) (AnyNode.Operation self.old.op) → ⊥ }
        ensures recorded { OnOk result (IsRecorded D.is_symbol ctx.old self.old op self.new) }
        ensures after { OnOk result (ctx.new ≡ inserted D.is_terminator ctx.old self.old.op op point) }
        ensures placeable { OnOk result (IsPlaceable D.is_symbol ctx.old self.old.op op point) }
        ensures refused { IfErr result (IsInsertErr D.is_symbol ctx.old (map.get self.old.names) self.old.op op point) }
        ensures same { OnErr result ((ctx.new ≡ ctx.old) × (self.new ≡ self.old)) }
        ensures agrees { OnOk result (KeepsAgreement D.is_symbol D.is_symbol_table ctx.old self.old ctx.new self.new) }
        ensures all_agree { OnOk result
            (KeepsAllAgree D.is_symbol D.is_symbol_table ctx.old self.old ctx.new self.new) }
        ensures given { OnOk result (KeepsGivenOut ctx.old self.old ctx.new self.new) }
    {
        let Plan { name, body, place } = self.plan(ctx, op, point)?;
        ctx.stands();
        self.record_name(name, op)?;
        carry_out(ctx, op, place, body);
        Ok(())
    }

    /// Takes the name of a symbol in the body out of the table, or reports why the symbol is not removed.
    fn forget<D: OpSet>(
        &mut self,
        ctx: &Context<D>,
        op: Ptr<Operation>,
    ) -> Result<(), SymbolTableErr>
        requires table_live { IsLive ctx.now (AnyNode.Operation self.old.op) }
        requires at_body { IsSome (body ctx.now self.old.op) }
        requires op_live { IsLive ctx.now (AnyNode.Operation op) }
        ensures forgotten { OnOk result (IsForgotten D.is_symbol ctx.now self.old op self.new) }
        ensures refused { IfErr result (ReportsOnly (IsRemoveRefusal D.is_symbol ctx.now self.old.op op)) }
        ensures same { OnErr result (self.new ≡ self.old) }
    {
        let name = member_name(ctx, self.op, op)?;
        self.forget_name(name);
        Ok(())
    }

    /// Takes a symbol out of the body, and its name out of the table. Refused by, in this order:
    /// `DoesNotImplementSymbolOpInterface`; `SymbolOpNotInTableOp`, where it does not stand in the body; `Unnamed`.
    /// After a refusal all is as before.
    pub fn remove<D: OpSet>(
        &mut self,
        ctx: &mut Context<D>,
        op: Ptr<Operation>,
    ) -> Result<(), SymbolTableErr>
        requires table_live { IsLive ctx.old (AnyNode.Operation self.old.op) }
        requires at_body { IsSome (body ctx.old self.old.op) }
        requires op_live { IsLive ctx.old (AnyNode.Operation op) }
        ensures forgotten { OnOk result (IsForgotten D.is_symbol ctx.old self.old op self.new) }
        ensures after { OnOk result (ctx.new ≡ with_op_unlinked ctx.old op) }
        ensures refused { IfErr result (ReportsOnly (IsRemoveRefusal D.is_symbol ctx.old self.old.op op)) }
        ensures same { OnErr result ((ctx.new ≡ ctx.old) × (self.new ≡ self.old)) }
        ensures agrees { OnOk result (KeepsAgreement D.is_symbol D.is_symbol_table ctx.old self.old ctx.new self.new) }
        ensures all_agree { OnOk result
            (KeepsAllAgree D.is_symbol D.is_symbol_table ctx.old self.old ctx.new self.new) }
        ensures given { OnOk result (KeepsGivenOut ctx.old self.old ctx.new self.new) }
    {
        self.forget(ctx, op)?;
        ctx.stands();
        op.unlink(ctx);
        ctx.stands();
        Ok(())
    }

    /// Takes a symbol out of the body and erases it with all below it, whose values and blocks nothing else uses
    /// (`IRNode::is_unused_outside`). Refused as [`SymbolTable::remove`]; after a refusal all is as before.
    pub fn erase<D: OpSet>(
        &mut self,
        ctx: &mut Context<D>,
        op: Ptr<Operation>,
    ) -> Result<(), SymbolTableErr>
        requires table_live { IsLive ctx.old (AnyNode.Operation self.old.op) }
        requires at_body { IsSome (body ctx.old self.old.op) }
        requires op_live { IsLive ctx.old (AnyNode.Operation op) }
        requires unused { IsUnusedOutside ctx.old (AnyNode.Operation op) }
        ensures forgotten { OnOk result (IsForgotten D.is_symbol ctx.old self.old op self.new) }
        ensures after { OnOk result (ctx.new ≡ without_tree ctx.old (AnyNode.Operation op)) }
        ensures tree { OnOk result (IsErased ctx.old.nodes ctx.new.nodes (AnyNode.Operation op)) }
        ensures refused { IfErr result (ReportsOnly (IsRemoveRefusal D.is_symbol ctx.old self.old.op op)) }
        ensures same { OnErr result ((ctx.new ≡ ctx.old) × (self.new ≡ self.old)) }
        ensures agrees { OnOk result (KeepsAgreement D.is_symbol D.is_symbol_table ctx.old self.old ctx.new self.new) }
        ensures all_agree { OnOk result
            (KeepsAllAgree D.is_symbol D.is_symbol_table ctx.old self.old ctx.new self.new) }
        ensures given { OnOk result (KeepsGivenOut ctx.old self.old ctx.new self.new) }
    {
        self.forget(ctx, op)?;
        ctx.stands();
        Operation::erase(op, ctx);
        ctx.stands();
        Ok(())
    }
}
