//! The body of a table: the one block of its one region.
ghost use Rattle.std.specs.Prelude.{◌≡◌, ◌↔◌, Some, IfOk, Err, IfErr, IfSome, IsSome, IsTrue, option_map};
ghost use Rattle.plir_core.specs.declared.ptr.IRNode.{IRNode as AnyNode};
ghost use Rattle.plir_core.specs.ContextView.{IsLive, children};
ghost use Rattle.plir_builtin.specs.Symbols.{body, only};
ghost use Rattle.plir_builtin.specs.Refusals.{Reports, IsBodyRefusal};

use crate::symbol_table::SymbolTable;
use crate::symbol_table_err::SymbolTableErr;
use plir_core::laws::{first_child_is_front, next_is_behind};
use plir_core::{BasicBlock, Context, IRNode, Operation, Ptr, Region};
use plir_data::{OpSet, VerifyErr};
use plir_iface::{OneRegionInterface, Op, SingleBlockRegionInterface};

/// Any operation, as one whose one region has one block.
#[derive(Clone, Copy)]
struct AnyOp {
    op: Ptr<Operation>,
}

impl<D: OpSet> Op<D> for AnyOp {
    ghost pointer = { λ o. o.op };

    fn get_operation(&self) -> Ptr<Operation> {
        self.op
    }
}

impl<D: OpSet> OneRegionInterface<D> for AnyOp {}

impl<D: OpSet> SingleBlockRegionInterface<D> for AnyOp {}

/// The region of an operation that has no other.
fn only_region<D: OpSet>(ctx: &Context<D>, op: Ptr<Operation>) -> Option<Ptr<Region>>
    requires { IsLive ctx.now (AnyNode.Operation op) }
    ensures only { option_map AnyNode.Region result ≡ only (children ctx.now (AnyNode.Operation op)) }
    ensures live { IfSome result (λ r. IsLive ctx.now (AnyNode.Region r)) }
{
    first_child_is_front(ctx, IRNode::Operation(op));
    let Some(region) = op.first_region(ctx) else {
        return None;
    };
    next_is_behind(ctx, IRNode::Region(region));
    match region.get_next(ctx) {
        Some(_) => None,
        None => Some(region),
    }
}

/// The block of a region that has no other.
fn only_block<D: OpSet>(ctx: &Context<D>, region: Ptr<Region>) -> Option<Ptr<BasicBlock>>
    requires { IsLive ctx.now (AnyNode.Region region) }
    ensures only { option_map AnyNode.BasicBlock result ≡ only (children ctx.now (AnyNode.Region region)) }
    ensures live { IfSome result (λ b. IsLive ctx.now (AnyNode.BasicBlock b)) }
{
    first_child_is_front(ctx, IRNode::Region(region));
    let Some(block) = region.get_head(ctx) else {
        return None;
    };
    next_is_behind(ctx, IRNode::BasicBlock(block));
    match block.get_next(ctx) {
        Some(_) => None,
        None => Some(block),
    }
}

/// The body of an operation, if it has one.
fn sole_block<D: OpSet>(ctx: &Context<D>, op: Ptr<Operation>) -> Option<Ptr<BasicBlock>>
    requires { IsLive ctx.now (AnyNode.Operation op) }
    ensures body { option_map AnyNode.BasicBlock result ≡ body ctx.now op }
    ensures live { IfSome result (λ b. IsLive ctx.now (AnyNode.BasicBlock b)) }
{
    match only_region(ctx, op) {
        Some(region) => only_block(ctx, region),
        None => None,
    }
}

/// The body of an operation that has one.
pub fn body_of<D: OpSet>(ctx: &Context<D>, op: Ptr<Operation>) -> Ptr<BasicBlock>
    requires live { IsLive ctx.now (AnyNode.Operation op) }
    requires at_body { IsSome (body ctx.now op) }
    ensures body { body ctx.now op ≡ Some (AnyNode.BasicBlock result) }
    ensures live { IsLive ctx.now (AnyNode.BasicBlock result) }
{
    match sole_block(ctx, op) {
        Some(block) => block,
        None => unreachable!(),
    }
}

/// The body of an operation, or why it has none.
pub(crate) fn find_body<D: OpSet>(
    ctx: &Context<D>,
    op: Ptr<Operation>,
) -> Result<Ptr<BasicBlock>, SymbolTableErr>
    requires { IsLive ctx.now (AnyNode.Operation op) }
    ensures body { IfOk result (λ b. body ctx.now op ≡ Some (AnyNode.BasicBlock b)) }
    ensures live { IfOk result (λ b. IsLive ctx.now (AnyNode.BasicBlock b)) }
    ensures refused { IfErr result (Reports (IsBodyRefusal ctx.now op)) }
    ensures sure { result ≡ Err SymbolTableErr.Memory → ⊥ }
{
    let any = AnyOp { op };
    match OneRegionInterface::<D>::verify(&any, ctx) {
        Ok(()) => {}
        Err(VerifyErr::Refused { err, .. }) => return Err(SymbolTableErr::Regions(err)),
        Err(VerifyErr::Memory) => unreachable!(),
    }
    match SingleBlockRegionInterface::<D>::verify(&any, ctx) {
        Ok(()) => Ok(body_of(ctx, op)),
        Err(VerifyErr::Refused { err, .. }) => Err(SymbolTableErr::Body(err)),
        Err(VerifyErr::Memory) => unreachable!(),
    }
}

/// Whether an operation has a body.
pub(crate) fn has_body<D: OpSet>(ctx: &Context<D>, op: Ptr<Operation>) -> bool
    requires { IsLive ctx.now (AnyNode.Operation op) }
    ensures { IsTrue result ↔ IsSome (body ctx.now op) }
{
    sole_block(ctx, op).is_some()
}

impl SymbolTable {
    /// The operation whose table this is.
    pub fn get_operation(&self) -> Ptr<Operation>
        ensures { result ≡ self.now.op }
    {
        self.op
    }

    /// Whether the table's operation is live and has a body, as [`SymbolTable::insert`], [`SymbolTable::remove`] and
    /// [`SymbolTable::erase`] ask.
    pub fn has_body<D: OpSet>(&self, ctx: &Context<D>) -> bool
        ensures { IsTrue result ↔ (IsLive ctx.now (AnyNode.Operation self.now.op) × IsSome (body ctx.now self.now.op)) }
    {
        self.op.is_live(ctx) && has_body(ctx, self.op)
    }
}
