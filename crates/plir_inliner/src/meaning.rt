//! Which function a call means.
ghost use Rattle.std.specs.Prelude.{◌≡◌, ◌↔◌, IfErr, IfOk, IfSome, IsTrue, Some, None, List, ℕ, option_map};
ghost use Rattle.plir_core.specs.declared.ptr.IRNode.{IRNode as AnyNode};
ghost use Rattle.plir_core.specs.declared.ptr.BasicBlock.{BasicBlock as BlockKind};
ghost use Rattle.plir_core.specs.declared.ptr.Operation.{Operation as OperationKind};
ghost use Rattle.plir_core.specs.declared.ptr.Ptr.{Ptr as AnyPtr};
ghost use Rattle.plir_core.specs.ContextView.{IsLive, children};
ghost use Rattle.plir_builtin.specs.Symbols.{body, only};
ghost use Rattle.plir_inliner.specs.Known.{AreSure};
ghost use Rattle.plir_inliner.specs.Meaning.{IsBodyOf, IsCalleeRefusal, Means, PassesAll, calls_by_name};

use plir_builtin::{SymbolTableCollection, SymbolTableErr};
use plir_core::laws::{first_child_is_front, next_is_behind};
use plir_core::{BasicBlock, Context, IRNode, Operation, Ptr, Region};
use plir_data::{Identifier, OpKind, OpSet};
use plir_flow_sets::{CallSet, Callee};

/// Whether an operation calls the function of a name.
pub(crate) fn calls_by_name<D: CallSet>(ctx: &Context<D>, op: Ptr<Operation>) -> bool
    requires { IsLive ctx.now (AnyNode.Operation op) }
    ensures { result ≡ calls_by_name D.call ctx.now op }
{
    match D::call(ctx, op) {
        Some(call) => matches!(call.callee, Callee::Direct(_)),
        None => false,
    }
}

/// The name of the function that an operation calls, if it passes all of its operands to it.
pub(crate) fn name_passed_to<D: CallSet>(
    ctx: &Context<D>,
    op: Ptr<Operation>,
) -> Option<&Identifier>
    requires { IsLive ctx.now (AnyNode.Operation op) }
    ensures some { IfSome result (λ n. PassesAll D.call ctx.now op n.now) }
    ensures none { result ≡ None → (name : List ℕ) → PassesAll D.call ctx.now op name → ⊥ }
{
    let call = D::call(ctx, op)?;
    if call.arguments.start != 0 || call.arguments.end != op.get_num_operands(ctx) {
        return None;
    }
    match call.callee {
        Callee::Direct(name) => Some(name),
        Callee::Indirect(_) => None,
    }
}

// The region of an operation that has no other.
fn only_region<D: OpSet>(ctx: &Context<D>, op: Ptr<Operation>) -> Option<Ptr<Region>>
    requires { IsLive ctx.now (AnyNode.Operation op) }
    ensures only { option_map AnyNode.Region result ≡ only (children ctx.now (AnyNode.Operation op)) }
    ensures live { IfSome result (λ r. IsLive ctx.now (AnyNode.Region r)) }
{
    first_child_is_front(ctx, IRNode::Operation(op));
    let Some(region) = op.first_region(ctx) else {
        return None;
    };
    next_is_behind(ctx, IRNode::Region(region));
    match region.get_next(ctx) {
        Some(_) => None,
        None => Some(region),
    }
}

// The block of a region that has no other.
fn only_block<D: OpSet>(ctx: &Context<D>, region: Ptr<Region>) -> Option<Ptr<BasicBlock>>
    requires { IsLive ctx.now (AnyNode.Region region) }
    ensures only { option_map AnyNode.BasicBlock result ≡ only (children ctx.now (AnyNode.Region region)) }
    ensures live { IfSome result (λ b. IsLive ctx.now (AnyNode.BasicBlock b)) }
{
    first_child_is_front(ctx, IRNode::Region(region));
    let Some(block) = region.get_head(ctx) else {
        return None;
    };
    next_is_behind(ctx, IRNode::BasicBlock(block));
    match block.get_next(ctx) {
        Some(_) => None,
        None => Some(block),
    }
}

// The one block of the one region of an operation, if it has that.
fn sole_block<D: OpSet>(ctx: &Context<D>, op: Ptr<Operation>) -> Option<Ptr<BasicBlock>>
    requires { IsLive ctx.now (AnyNode.Operation op) }
    ensures body { option_map AnyNode.BasicBlock result ≡ body ctx.now op }
    ensures live { IfSome result (λ b. IsLive ctx.now (AnyNode.BasicBlock b)) }
{
    match only_region(ctx, op) {
        Some(region) => only_block(ctx, region),
        None => None,
    }
}

/// The body of a function, if an operation is one and its only region has one block alone.
pub(crate) fn function_body<D: OpSet>(
    ctx: &Context<D>,
    op: Ptr<Operation>,
) -> Option<Ptr<BasicBlock>>
    ensures some { IfSome result (IsBodyOf ctx.now op) }
    ensures none { result ≡ None → (b : AnyPtr BlockKind) → IsBodyOf ctx.now op b → ⊥ }
    ensures live { IfSome result (λ b. IsLive ctx.now (AnyNode.BasicBlock b)) }
{
    if !op.is_live(ctx) {
        return None;
    }
    match op.kind(ctx) {
        OpKind::Func => sole_block(ctx, op),
        _ => None,
    }
}

/// The operation that a call means, by the nearest table at or above it, if it passes all of its operands to the
/// function of a name and something there bears that name.
pub(crate) fn callee_of<D: CallSet>(
    ctx: &Context<D>,
    tables: &mut SymbolTableCollection,
    call: Ptr<Operation>,
) -> Result<Option<Ptr<Operation>>, SymbolTableErr>
    requires live { IsLive ctx.now (AnyNode.Operation call) }
    requires sure { AreSure D.is_symbol D.is_symbol_table ctx.now tables.old }
    ensures some { IfOk result (λ r. IfSome r (Means D.is_symbol D.is_symbol_table D.call ctx.now call)) }
    ensures none { IfOk result (λ r. r ≡ None → (f : AnyPtr OperationKind) →
        Means D.is_symbol D.is_symbol_table D.call ctx.now call f → ⊥) }
    ensures sure { AreSure D.is_symbol D.is_symbol_table ctx.now tables.new }
    ensures refused { IfErr result (IsCalleeRefusal D.is_symbol D.is_symbol_table D.call ctx.now call) }
{
    let Some(name) = name_passed_to(ctx, call) else {
        return Ok(None);
    };
    tables.lookup_symbol_in_nearest_table(ctx, call, name)
}
