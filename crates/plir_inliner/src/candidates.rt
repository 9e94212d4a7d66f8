//! Calls that can be inlined.
ghost use Rattle.std.specs.Prelude.{◌≡◌, IfErr, IfOk, IfSome, None, OnOk};
ghost use Rattle.plir_core.specs.declared.ptr.IRNode.{IRNode as AnyNode};
ghost use Rattle.plir_core.specs.declared.ptr.BasicBlock.{BasicBlock as BlockKind};
ghost use Rattle.plir_core.specs.declared.ptr.Operation.{Operation as OperationKind};
ghost use Rattle.plir_core.specs.declared.ptr.Ptr.{Ptr as AnyPtr};
ghost use Rattle.plir_core.specs.ContextView.{IsLive};
ghost use Rattle.plir_store.specs.Members.{Has};
ghost use Rattle.plir_inliner.specs.Calls.{CanInlineCall};
ghost use Rattle.plir_inliner.specs.Known.{AreRight, AreSure};
ghost use Rattle.plir_inliner.specs.Meaning.{IsAnyRefusal, IsBodyMeant, IsCalleeRefusal, IsMeaningRefusal};
ghost use Rattle.plir_inliner.specs.Steps.{CanStep};

use crate::bodies::Bodies;
use crate::errors::InlineErr;
use crate::meaning::{callee_of, function_body};
use plir_builtin::{SymbolTableCollection, SymbolTableErr, is_symbol};
use plir_core::{BasicBlock, Context, Operation, Ptr};
use plir_flow_sets::CallSet;
use plir_inline::can_inline;
use std::alloc::Global;

/// A call that can be inlined, the block of which a copy can come in its place, and what that costs.
#[derive(Clone, Copy)]
pub(crate) struct Step {
    pub(crate) call: Ptr<Operation>,
    pub(crate) block: Ptr<BasicBlock>,
    pub(crate) cost: usize,
}

// The body of the function that a call means.
fn body_meant<D: CallSet>(
    ctx: &Context<D>,
    tables: &mut SymbolTableCollection,
    call: Ptr<Operation>,
) -> Result<Option<Ptr<BasicBlock>>, SymbolTableErr>
    requires live { IsLive ctx.now (AnyNode.Operation call) }
    requires sure { AreSure D.is_symbol D.is_symbol_table ctx.now tables.old }
    ensures some { IfOk result (λ r. IfSome r (IsBodyMeant D.is_symbol D.is_symbol_table D.call ctx.now call)) }
    ensures none { IfOk result (λ r. r ≡ None → (b : AnyPtr BlockKind) →
        IsBodyMeant D.is_symbol D.is_symbol_table D.call ctx.now call b → ⊥) }
    ensures live { IfOk result (λ r. IfSome r (λ b. IsLive ctx.now (AnyNode.BasicBlock b))) }
    ensures sure { AreSure D.is_symbol D.is_symbol_table ctx.now tables.new }
    ensures refused { IfErr result (IsCalleeRefusal D.is_symbol D.is_symbol_table D.call ctx.now call) }
{
    match callee_of(ctx, tables, call)? {
        Some(callee) => Ok(function_body(ctx, callee)),
        None => Ok(None),
    }
}

/// How a call can be inlined, if it can.
pub(crate) fn step_at<D: CallSet>(
    alloc: Global,
    ctx: &Context<D>,
    tables: &mut SymbolTableCollection,
    bodies: &mut Bodies,
    call: Ptr<Operation>,
) -> Result<Option<Step>, InlineErr>
    requires live { IsLive ctx.now (AnyNode.Operation call) }
    requires sure { AreSure D.is_symbol D.is_symbol_table ctx.now tables.old }
    requires right { AreRight D.is_symbol D.call D.returned ctx.now bodies.old }
    ensures at_call { IfOk result (λ r. IfSome r (λ x. x.call ≡ call)) }
    ensures some { IfOk result (λ r. IfSome r (CanStep D.is_symbol D.is_symbol_table D.call D.returned ctx.now)) }
    ensures none { IfOk result (λ r. r ≡ None → (b : AnyPtr BlockKind) →
        CanInlineCall D.is_symbol D.is_symbol_table D.call D.returned ctx.now call b → ⊥) }
    ensures sure { AreSure D.is_symbol D.is_symbol_table ctx.now tables.new }
    ensures right { OnOk result (AreRight D.is_symbol D.call D.returned ctx.now bodies.new) }
    ensures refused { IfErr result (IsMeaningRefusal D.is_symbol D.is_symbol_table D.call ctx.now call) }
{
    if is_symbol(ctx, call) {
        return Ok(None);
    }
    let Some(block) = body_meant(ctx, tables, call)? else {
        return Ok(None);
    };
    let Some(cost) = bodies.cost(alloc, ctx, block)? else {
        return Ok(None);
    };
    if !can_inline(ctx, call, block) {
        return Ok(None);
    }
    Ok(Some(Step { call, block, cost }))
}

/// How the first of some calls can be inlined that can be and is not the root, if there is one. Each body is looked at
/// once.
pub(crate) fn first_step<D: CallSet>(
    alloc: Global,
    ctx: &Context<D>,
    tables: &mut SymbolTableCollection,
    root: Ptr<Operation>,
    calls: &[Ptr<Operation>],
) -> Result<Option<Step>, InlineErr>
    requires live { (p : AnyPtr OperationKind) → Has calls.now p → IsLive ctx.now (AnyNode.Operation p) }
    requires sure { AreSure D.is_symbol D.is_symbol_table ctx.now tables.old }
    ensures among { IfOk result (λ r. IfSome r (λ x. Has calls.now x.call)) }
    ensures other { IfOk result (λ r. IfSome r (λ x. x.call ≡ root → ⊥)) }
    ensures some { IfOk result (λ r. IfSome r (CanStep D.is_symbol D.is_symbol_table D.call D.returned ctx.now)) }
    ensures none { IfOk result (λ r. r ≡ None → (p : AnyPtr OperationKind) → (b : AnyPtr BlockKind) →
        Has calls.now p → (p ≡ root → ⊥) →
        CanInlineCall D.is_symbol D.is_symbol_table D.call D.returned ctx.now p b → ⊥) }
    ensures sure { AreSure D.is_symbol D.is_symbol_table ctx.now tables.new }
    ensures refused { IfErr result (IsAnyRefusal D.is_symbol D.is_symbol_table D.call ctx.now root calls.now) }
{
    let mut bodies = Bodies::new(alloc, ctx);
    for call in calls {
        if *call == root {
            continue;
        }
        if let Some(step) = step_at(alloc, ctx, tables, &mut bodies, *call)? {
            return Ok(Some(step));
        }
    }
    Ok(None)
}
