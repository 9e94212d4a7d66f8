//! Passes over what was built.
ghost use Rattle.std.specs.Prelude.{OnOk};
ghost use Rattle.plir_core.specs.ContextView.{IsLive};
ghost use Rattle.plir_core.specs.Unused.{IsUnusedOutside};
ghost use Rattle.plir_core.specs.declared.ptr.IRNode.{IRNode as AnyNode};

use crate::building::live_op;
use crate::command::Pass;
use crate::converting::convert_references;
use crate::kinds::BenchSet;
use crate::stop::Stop;
use plir_builtin::SymbolTableCollection;
use plir_core::{Context, IRNode, Operation, Ptr};
use plir_folding::{fold_constants, fold_values};
use plir_inliner::inline_calls;
use plir_passes::{eliminate_dead_code, eliminate_unreached_code};
use plir_symbols::eliminate_dead_symbols;
use std::alloc::Global;

/// Runs a pass over an operation and all below it once, and answers that.
pub fn run_pass(
    alloc: Global,
    ctx: &mut Context<BenchSet>,
    root: Ptr<Operation>,
    pass: Pass,
) -> Result<u64, Stop>
    requires { IsLive ctx.old (AnyNode.Operation root) }
{
    match pass {
        Pass::Sweep => sweep(alloc, ctx, root)?,
        Pass::Prune => prune(alloc, ctx, root)?,
        Pass::Fold => fold_and_sweep(alloc, ctx, root)?,
        Pass::PassOn => pass_on_and_sweep(alloc, ctx, root)?,
        Pass::Convert => convert_references(alloc, ctx, root)?,
        Pass::DropSymbols => drop_symbols(alloc, ctx, root)?,
        Pass::Inline => inline_all(alloc, ctx, root)?,
    }
    Ok(1)
}

/// Refuses an operation that is not live, or of which something is used outside of it.
pub fn unused_op(ctx: &Context<BenchSet>, op: Ptr<Operation>) -> Result<(), Stop>
    ensures live { OnOk result (IsLive ctx.now (AnyNode.Operation op)) }
    ensures unused { OnOk result (IsUnusedOutside ctx.now (AnyNode.Operation op)) }
{
    live_op(ctx, op)?;
    if IRNode::Operation(op).is_unused_outside(ctx) {
        Ok(())
    } else {
        Err(Stop::Refused)
    }
}

// Erases what is not reached.
fn prune(alloc: Global, ctx: &mut Context<BenchSet>, root: Ptr<Operation>) -> Result<(), Stop> {
    unused_op(ctx, root)?;
    eliminate_unreached_code(alloc, ctx, root)?;
    Ok(())
}

// Folds constants, and erases what is dead then.
fn fold_and_sweep(
    alloc: Global,
    ctx: &mut Context<BenchSet>,
    root: Ptr<Operation>,
) -> Result<(), Stop>
    requires { IsLive ctx.old (AnyNode.Operation root) }
{
    fold_constants(alloc, ctx, root)?;
    sweep(alloc, ctx, root)
}

// Puts values in place of sums that add zero, and erases what is dead then.
fn pass_on_and_sweep(
    alloc: Global,
    ctx: &mut Context<BenchSet>,
    root: Ptr<Operation>,
) -> Result<(), Stop>
    requires { IsLive ctx.old (AnyNode.Operation root) }
{
    fold_values(alloc, ctx, root)?;
    sweep(alloc, ctx, root)
}

// Erases what is dead below an operation that is live.
fn sweep(alloc: Global, ctx: &mut Context<BenchSet>, root: Ptr<Operation>) -> Result<(), Stop> {
    live_op(ctx, root)?;
    eliminate_dead_code(alloc, ctx, root)?;
    Ok(())
}

// Erases the dead symbols of a table.
fn drop_symbols(
    alloc: Global,
    ctx: &mut Context<BenchSet>,
    root: Ptr<Operation>,
) -> Result<(), Stop>
    requires { IsLive ctx.old (AnyNode.Operation root) }
{
    let mut tables = SymbolTableCollection::new(alloc);
    eliminate_dead_symbols(alloc, ctx, &mut tables, root)?;
    Ok(())
}

// Inlines all calls.
fn inline_all(alloc: Global, ctx: &mut Context<BenchSet>, root: Ptr<Operation>) -> Result<(), Stop>
    requires { IsLive ctx.old (AnyNode.Operation root) }
{
    inline_calls(alloc, ctx, root, usize::MAX)?;
    Ok(())
}
