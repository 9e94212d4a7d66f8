//! Edits of symbols over cached tables, one after another.
ghost use Rattle.std.specs.Prelude.{◌≡◌, Some, None, IfOk, IfErr, IfSome, IsSome, IsTrue, OnOk, OnErr, ◌↔◌, true};
ghost use Rattle.std.specs.Prelude.{false, [], IsOk};
ghost use Rattle.std.specs.FinMap as map;
ghost use Rattle.plir_core.specs.declared.ptr.IRNode.{IRNode as AnyNode};
ghost use Rattle.plir_core.specs.InsertionPoint.{IsPointLive};
ghost use Rattle.plir_core.specs.ContextView.{IsLive, IsAncestor};
ghost use Rattle.plir_core.specs.Unused.{IsUnusedOutside};
ghost use Rattle.plir_builtin.specs.Agree.{AllAgree, AreGivenOut, IsBrought, IsReady};
ghost use Rattle.plir_builtin.specs.Applied.{IsCalled, IsSeenTo};
ghost use Rattle.plir_builtin.specs.SymbolEdits.{IsStep, AreEdited};
ghost use Rattle.plir_builtin.specs.declared.symbol_edits.SymbolEdit.{SymbolEdit as Edit};

use crate::collection::SymbolTableCollection;
use crate::symbol_edits::{SymbolEdit, SymbolEditErr};
use crate::symbol_table::is_member;
use crate::symbol_table_err::SymbolTableErr;
use crate::table_body::has_body;
use plir_core::{Context, IRNode, OpInsertionPoint, Operation, Ptr};
use plir_data::{Memory, OpSet};

impl SymbolTableCollection {
    /// Whether the table that is cached for an operation is its own, and the operation has a body. Where all tables
    /// agree, that is so for each that is cached for a live operation.
    fn is_ready<D: OpSet>(&self, ctx: &Context<D>, op: Ptr<Operation>) -> bool
        requires { IsLive ctx.now (AnyNode.Operation op) }
        ensures { IsTrue result ↔ IsReady ctx.now self.now op }
    {
        match self.owner(op) {
            Some(owner) => owner == op && has_body(ctx, op),
            None => false,
        }
    }

    /// Sees to it that a table is cached for an operation, which may be edited.
    fn see_to<D: OpSet>(
        &mut self,
        ctx: &Context<D>,
        op: Ptr<Operation>,
    ) -> Result<(), SymbolTableErr>
        requires { IsLive ctx.now (AnyNode.Operation op) }
        ensures ready { OnOk result (IsReady ctx.now self.new op) }
        ensures brought { OnOk result (IsBrought D.is_symbol D.is_symbol_table ctx.now self.old op self.new) }
        ensures seen { AllAgree D.is_symbol D.is_symbol_table ctx.now self.old →
            IsSeenTo D.is_terminator D.is_symbol D.is_symbol_table ctx.now self.old op result self.new }
        ensures given { AreGivenOut ctx.now self.old → AreGivenOut ctx.now self.new }
    {
        if self.is_ready(ctx, op) {
            return Ok(());
        }
        self.bring(ctx, op)?;
        if !self.is_ready(ctx, op) {
            return Err(SymbolTableErr::DoesNotImplementSymbolTableInterface);
        }
        Ok(())
    }

    /// Inserts an operation through the table that is cached.
    fn insert_in<D: OpSet>(
        &mut self,
        ctx: &mut Context<D>,
        table: Ptr<Operation>,
        op: Ptr<Operation>,
        point: Option<OpInsertionPoint>,
    ) -> Result<(), SymbolTableErr>
        requires table_live { IsLive ctx.old (AnyNode.Operation table) }
        requires op_live { IsLive ctx.old (AnyNode.Operation op) }
        requires point_live { IfSome point (IsPointLive ctx.old) }
        requires ready { IsReady ctx.old self.old table }
        requires not_above { IsAncestor ctx.old (AnyNode.Operation op) (AnyNode.Operation table) → ⊥ }
        ensures called { AllAgree D.is_symbol D.is_symbol_table ctx.old self.old →
            IsCalled D.is_terminator D.is_symbol D.is_symbol_table ctx.old self.old (Edit.Insert table op point) result
            ctx.new self.new }
        ensures given { AreGivenOut ctx.old self.old → AreGivenOut ctx.new self.new }
    {
        match self.cached(table) {
            Some(cached) => cached.insert(ctx, op, point),
            None => unreachable!(),
        }
    }

    /// Removes an operation through the table that is cached.
    fn remove_in<D: OpSet>(
        &mut self,
        ctx: &mut Context<D>,
        table: Ptr<Operation>,
        op: Ptr<Operation>,
    ) -> Result<(), SymbolTableErr>
        requires table_live { IsLive ctx.old (AnyNode.Operation table) }
        requires op_live { IsLive ctx.old (AnyNode.Operation op) }
        requires ready { IsReady ctx.old self.old table }
        ensures called { AllAgree D.is_symbol D.is_symbol_table ctx.old self.old →
            IsCalled D.is_terminator D.is_symbol D.is_symbol_table ctx.old self.old (Edit.Remove table op) result
            ctx.new self.new }
        ensures given { AreGivenOut ctx.old self.old → AreGivenOut ctx.new self.new }
    {
        match self.cached(table) {
            Some(cached) => cached.remove(ctx, op),
            None => unreachable!(),
        }
    }

    /// Erases an operation through the table that is cached.
    fn erase_in<D: OpSet>(
        &mut self,
        ctx: &mut Context<D>,
        table: Ptr<Operation>,
        op: Ptr<Operation>,
    ) -> Result<(), SymbolTableErr>
        requires table_live { IsLive ctx.old (AnyNode.Operation table) }
        requires op_live { IsLive ctx.old (AnyNode.Operation op) }
        requires ready { IsReady ctx.old self.old table }
        requires unused { IsUnusedOutside ctx.old (AnyNode.Operation op) }
        ensures called { AllAgree D.is_symbol D.is_symbol_table ctx.old self.old →
            IsCalled D.is_terminator D.is_symbol D.is_symbol_table ctx.old self.old (Edit.Erase table op) result
            ctx.new self.new }
        ensures given { AreGivenOut ctx.old self.old → AreGivenOut ctx.new self.new }
    {
        match self.cached(table) {
            Some(cached) => cached.erase(ctx, op),
            None => unreachable!(),
        }
    }
}

/// Whether two operations are live.
fn are_live<D: OpSet>(ctx: &Context<D>, table: Ptr<Operation>, op: Ptr<Operation>) -> bool
    ensures yes { result ≡ true → IsLive ctx.now (AnyNode.Operation table) × IsLive ctx.now (AnyNode.Operation op) }
    ensures no { result ≡ false → IsLive ctx.now (AnyNode.Operation table) → IsLive ctx.now (AnyNode.Operation op) → ⊥ }
{
    table.is_live(ctx) && op.is_live(ctx)
}

/// Whether what a point names is live.
fn is_point_live<D: OpSet>(ctx: &Context<D>, point: Option<OpInsertionPoint>) -> bool
    ensures yes { result ≡ true → IfSome point (IsPointLive ctx.now) }
    ensures no { result ≡ false → IfSome point (IsPointLive ctx.now) → ⊥ }
{
    match point {
        None => true,
        Some(point) => point.is_live(ctx),
    }
}

impl SymbolTableCollection {
    fn apply_insert<D: OpSet>(
        &mut self,
        ctx: &mut Context<D>,
        table: Ptr<Operation>,
        op: Ptr<Operation>,
        point: Option<OpInsertionPoint>,
    ) -> Result<(), SymbolEditErr>
        ensures step { AllAgree D.is_symbol D.is_symbol_table ctx.old self.old →
            IsStep D.is_terminator D.is_symbol D.is_symbol_table ctx.old self.old (Edit.Insert table op point) result
            ctx.new self.new }
        ensures given { AreGivenOut ctx.old self.old → AreGivenOut ctx.new self.new }
    {
        if !are_live(ctx, table, op) {
            return Err(SymbolEditErr::DeadPointer);
        }
        if !is_point_live(ctx, point) {
            return Err(SymbolEditErr::DeadPointer);
        }
        if let Err(refused) = self.see_to(ctx, table) {
            return Err(SymbolEditErr::Table(refused));
        }
        if IRNode::Operation(op).is_ancestor(ctx, IRNode::Operation(table)) {
            return Err(SymbolEditErr::WouldNest);
        }
        match self.insert_in(ctx, table, op, point) {
            Ok(()) => Ok(()),
            Err(refused) => Err(SymbolEditErr::Table(refused)),
        }
    }

    fn apply_remove<D: OpSet>(
        &mut self,
        ctx: &mut Context<D>,
        table: Ptr<Operation>,
        op: Ptr<Operation>,
    ) -> Result<(), SymbolEditErr>
        ensures step { AllAgree D.is_symbol D.is_symbol_table ctx.old self.old →
            IsStep D.is_terminator D.is_symbol D.is_symbol_table ctx.old self.old (Edit.Remove table op) result ctx.new
            self.new }
        ensures given { AreGivenOut ctx.old self.old → AreGivenOut ctx.new self.new }
    {
        if !are_live(ctx, table, op) {
            return Err(SymbolEditErr::DeadPointer);
        }
        if let Err(refused) = self.see_to(ctx, table) {
            return Err(SymbolEditErr::Table(refused));
        }
        match self.remove_in(ctx, table, op) {
            Ok(()) => Ok(()),
            Err(refused) => Err(SymbolEditErr::Table(refused)),
        }
    }

    fn apply_erase<D: OpSet>(
        &mut self,
        ctx: &mut Context<D>,
        table: Ptr<Operation>,
        op: Ptr<Operation>,
    ) -> Result<(), SymbolEditErr>
        ensures step { AllAgree D.is_symbol D.is_symbol_table ctx.old self.old →
            IsStep D.is_terminator D.is_symbol D.is_symbol_table ctx.old self.old (Edit.Erase table op) result ctx.new
            self.new }
        ensures given { AreGivenOut ctx.old self.old → AreGivenOut ctx.new self.new }
    {
        if !are_live(ctx, table, op) {
            return Err(SymbolEditErr::DeadPointer);
        }
        if let Err(refused) = self.see_to(ctx, table) {
            return Err(SymbolEditErr::Table(refused));
        }
        if !IRNode::Operation(op).is_unused_outside(ctx) {
            if let Err(refused) = is_member(ctx, table, op) {
                return Err(SymbolEditErr::Table(refused));
            }
            return Err(SymbolEditErr::StillUsed);
        }
        match self.erase_in(ctx, table, op) {
            Ok(()) => Ok(()),
            Err(refused) => Err(SymbolEditErr::Table(refused)),
        }
    }

    /// Makes one edit, or refuses it.
    fn apply<D: OpSet>(
        &mut self,
        ctx: &mut Context<D>,
        edit: SymbolEdit,
    ) -> Result<(), SymbolEditErr>
        ensures step { AllAgree D.is_symbol D.is_symbol_table ctx.old self.old →
            IsStep D.is_terminator D.is_symbol D.is_symbol_table ctx.old self.old edit result ctx.new self.new }
        ensures given { AreGivenOut ctx.old self.old → AreGivenOut ctx.new self.new }
    {
        match edit {
            SymbolEdit::Insert { table, op, point } => { self.apply_insert(ctx, table, op, point) }
            SymbolEdit::Remove { table, op } => self.apply_remove(ctx, table, op),
            SymbolEdit::Erase { table, op } => self.apply_erase(ctx, table, op),
        }
    }

    /// Makes edits one after another and answers each. `Memory` comes before the first edit, if there is one. While all
    /// tables agree, each edit is answered and made as scans of the bodies say, whatever is cached, and all tables
    /// agree after it. A refused edit changes no node and no table that was cached; its own table may have been newly
    /// cached.
    pub fn apply_all<D: OpSet>(
        &mut self,
        ctx: &mut Context<D>,
        edits: Vec<SymbolEdit>,
    ) -> Result<Vec<Result<(), SymbolEditErr>>, Memory>
        ensures edited { AllAgree D.is_symbol D.is_symbol_table ctx.old self.old →
            IfOk result (λ rs. AreEdited D.is_terminator D.is_symbol D.is_symbol_table ctx.old self.old edits.items
            rs.items ctx.new self.new) }
        ensures agree { AllAgree D.is_symbol D.is_symbol_table ctx.old self.old →
            AllAgree D.is_symbol D.is_symbol_table ctx.new self.new }
        ensures given { AreGivenOut ctx.old self.old → AreGivenOut ctx.new self.new }
        ensures same { OnErr result ((ctx.new ≡ ctx.old) × (self.new ≡ self.old)) }
        ensures none { edits.items ≡ [] → IsOk result }
    {
        let mut replies = Vec::with_capacity(self.alloc, edits.len())?;
        for edit in &edits {
            let reply = self.apply(ctx, *edit);
            replies.push_reserved(reply);
        }
        Ok(replies)
    }
}
