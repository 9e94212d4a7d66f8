//! How a table puts operations into its body.
ghost use Rattle.std.specs.Prelude.{◌≡◌, true, false, Some, None, Ok, IfOk, IfErr, IfSome, IsSome, OnOk, option_map};
ghost use Rattle.std.specs.FinMap as map;
ghost use Rattle.plir_core.specs.declared.ptr.IRNode.{IRNode as AnyNode};
ghost use Rattle.plir_core.specs.Standing.{IsStanding};
ghost use Rattle.plir_core.specs.ContextView.{IsLive, IsAncestor, parent_of};
ghost use Rattle.plir_core.specs.InsertionPoint.{IsPointLive, insertion_block};
ghost use Rattle.plir_core.specs.Terminator.{terminator_of};
ghost use Rattle.plir_builtin.specs.Symbols.{body};
ghost use Rattle.plir_builtin.specs.Insertion.{put_at, before_or_last, IsPutInto};
ghost use Rattle.plir_builtin.specs.Refusals.{Reports, elsewhere, IsSymbolNamed, IsNotOthers, IsInsertErr};
ghost use Rattle.plir_builtin.specs.Plan.{IsPlace, IsPlanned};

use crate::reading::redefined;
use crate::symbol_table::SymbolTable;
use crate::symbol_table_err::SymbolTableErr;
use crate::symbols::{SymbolOpInterfaceErr, is_symbol, symbol_name};
use crate::table_body::body_of;
use plir_core::{BasicBlock, Context, OpInsertionPoint, Operation, Ptr};
use plir_data::{Identifier, OpSet};
use std::alloc::Global;

/// Puts an operation at a point of a block.
pub(crate) fn put_at<D: OpSet>(
    ctx: &mut Context<D>,
    op: Ptr<Operation>,
    point: OpInsertionPoint,
    block: Ptr<BasicBlock>,
)
    requires live { IsLive ctx.old (AnyNode.Operation op) }
    requires block_live { IsLive ctx.old (AnyNode.BasicBlock block) }
    requires unlinked { parent_of ctx.old (AnyNode.Operation op) ≡ None }
    requires point_live { IsPointLive ctx.old point }
    requires into { insertion_block ctx.old point ≡ Some (AnyNode.BasicBlock block) }
    requires not_above { IsAncestor ctx.old (AnyNode.Operation op) (AnyNode.BasicBlock block) → ⊥ }
    ensures after { ctx.new ≡ put_at ctx.old op point }
    ensures put { IsPutInto ctx.old ctx.new op (AnyNode.BasicBlock block) }
{
    ctx.stands();
    match point {
        OpInsertionPoint::Unset => unreachable!(),
        OpInsertionPoint::AtBlockStart(b) => op.insert_at_front(ctx, b),
        OpInsertionPoint::AtBlockEnd(b) => op.insert_at_back(ctx, b),
        OpInsertionPoint::BeforeOperation(mark) => op.insert_before(ctx, mark),
        OpInsertionPoint::AfterOperation(mark) => op.insert_after(ctx, mark),
    }
}

/// The point before the terminator of a block, if its last operation is one, else at its end.
fn end_of<D: OpSet>(ctx: &Context<D>, block: Ptr<BasicBlock>) -> OpInsertionPoint
    requires { IsLive ctx.now (AnyNode.BasicBlock block) }
    ensures live { IsPointLive ctx.now result }
    ensures into { insertion_block ctx.now result ≡ Some (AnyNode.BasicBlock block) }
    ensures put { (o : _) → put_at ctx.now o result ≡ before_or_last ctx.now o (Some (AnyNode.BasicBlock block))
        (terminator_of D.is_terminator ctx.now block) }
{
    match block.get_terminator(ctx) {
        Some(mark) => OpInsertionPoint::BeforeOperation(mark),
        None => OpInsertionPoint::AtBlockEnd(block),
    }
}

/// The refusal of a symbol that stands in another block.
fn elsewhere(alloc: Global, name: &Identifier) -> SymbolTableErr
    ensures { Reports (λ r. r ≡ elsewhere name.now) result }
{
    match String::from_str(alloc, name.as_str()) {
        Ok(text) => SymbolTableErr::SymbolOpAlreadyInAnotherTable(text),
        Err(_) => SymbolTableErr::Memory,
    }
}

impl SymbolTable {
    /// Whether another operation is recorded under a name.
    fn has_other(&self, name: &Identifier, op: Ptr<Operation>) -> bool
        ensures no { result ≡ false → (q : _) → map.get self.now.names name.now ≡ Some q → q ≡ op }
        ensures yes { result ≡ true → (q : _) × (map.get self.now.names name.now ≡ Some q) × (q ≡ op → ⊥) }
    {
        match self.lookup(name) {
            None => false,
            Some(other) => other != op,
        }
    }
}

/// What is to be done for an insertion.
#[derive(Drop)]
pub(crate) struct Plan {
    pub(crate) name: Identifier,
    pub(crate) body: Ptr<BasicBlock>,
    pub(crate) place: Option<OpInsertionPoint>,
}

impl SymbolTable {
    /// Where an operation is put: nowhere, if it stands in the body.
    fn place<D: OpSet>(
        &self,
        ctx: &Context<D>,
        op: Ptr<Operation>,
        name: &Identifier,
        point: Option<OpInsertionPoint>,
        block: Ptr<BasicBlock>,
    ) -> Result<Option<OpInsertionPoint>, SymbolTableErr>
        requires op_live { IsLive ctx.now (AnyNode.Operation op) }
        requires block_live { IsLive ctx.now (AnyNode.BasicBlock block) }
        requires at_body { body ctx.now self.now.op ≡ Some (AnyNode.BasicBlock block) }
        requires named { IsSymbolNamed D.is_symbol ctx.now op name.now }
        requires point_live { IfSome point (IsPointLive ctx.now) }
        ensures free { OnOk result (IsNotOthers D.is_symbol ctx.now (map.get self.now.names) op name.now) }
        ensures place { IfOk result (IsPlace D.is_terminator ctx.now self.now.op op point block) }
        ensures refused { IfErr result (IsInsertErr D.is_symbol ctx.now (map.get self.now.names) self.now.op op point) }
    {
        if self.has_other(name, op) {
            return Err(redefined(self.alloc, name));
        }
        if let Some(over) = op.get_parent_block(ctx) {
            if over == block {
                return Ok(None);
            }
            return Err(elsewhere(self.alloc, name));
        }
        let Some(point) = point else {
            return Ok(Some(end_of(ctx, block)));
        };
        match point.get_insertion_block(ctx) {
            Some(into) if into == block => Ok(Some(point)),
            _ => Err(SymbolTableErr::InsertionPointNotInSameTable),
        }
    }

    /// What is to be done to insert an operation, or why it is refused.
    pub(crate) fn plan<D: OpSet>(
        &self,
        ctx: &Context<D>,
        op: Ptr<Operation>,
        point: Option<OpInsertionPoint>,
    ) -> Result<Plan, SymbolTableErr>
        requires table_live { IsLive ctx.now (AnyNode.Operation self.now.op) }
        requires at_body { IsSome (body ctx.now self.now.op) }
        requires op_live { IsLive ctx.now (AnyNode.Operation op) }
        requires point_live { IfSome point (IsPointLive ctx.now) }
        ensures ok { IfOk result (λ p. IsPlanned D.is_terminator D.is_symbol ctx.now (map.get self.now.names)
            self.now.op op point p.name p.body p.place) }
        ensures refused { IfErr result (IsInsertErr D.is_symbol ctx.now (map.get self.now.names) self.now.op op point) }
    {
        if !is_symbol(ctx, op) {
            return Err(SymbolTableErr::DoesNotImplementSymbolOpInterface);
        }
        let Some(name) = symbol_name(ctx, op) else {
            return Err(SymbolTableErr::Unnamed(SymbolOpInterfaceErr));
        };
        let body = body_of(ctx, self.op);
        let place = self.place(ctx, op, name, point, body)?;
        let name = name.try_clone(self.alloc)?;
        Ok(Plan { name, body, place })
    }
}

/// Carries an insertion out.
pub(crate) fn carry_out<D: OpSet>(
    ctx: &mut Context<D>,
    op: Ptr<Operation>,
    place: Option<OpInsertionPoint>,
    block: Ptr<BasicBlock>,
)
    requires live { IsLive ctx.old (AnyNode.Operation op) }
    requires block_live { IsLive ctx.old (AnyNode.BasicBlock block) }
    requires place { IfSome place (λ q. (parent_of ctx.old (AnyNode.Operation op) ≡ None) × IsPointLive ctx.old q ×
        (insertion_block ctx.old q ≡ Some (AnyNode.BasicBlock block))) }
    requires not_above { IsAncestor ctx.old (AnyNode.Operation op) (AnyNode.BasicBlock block) → ⊥ }
    ensures stays { place ≡ None → ctx.new ≡ ctx.old }
    ensures put { IfSome place (λ q. (ctx.new ≡ put_at ctx.old op q) ×
        IsPutInto ctx.old ctx.new op (AnyNode.BasicBlock block)) }
    ensures stood { IsStanding ctx.old }
    ensures stands { IsStanding ctx.new }
{
    ctx.stands();
    if let Some(point) = place {
        put_at(ctx, op, point, block);
    }
    ctx.stands();
}
