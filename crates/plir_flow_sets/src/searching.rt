//! Which operations call a function.
ghost use Rattle.std.specs.Prelude.{◌≡◌, IfOk};
ghost use Rattle.plir_core.specs.declared.ptr.IRNode.{IRNode as AnyNode};
ghost use Rattle.plir_core.specs.ContextView.{IsLive};
ghost use Rattle.plir_flow_sets.specs.Finding.{IsSitePut, is_call_of};
ghost use Rattle.plir_flow_sets.specs.Sites.{AreCallSites};
ghost use Rattle.plir_flow_sets.specs.Told.{told_of};

use crate::call_set::{CallSet, Callee};
use plir_core::{Context, IRNode, Operation, Ptr};
use plir_data::{Identifier, Memory};
use plir_walk::WALKCONFIG_PREORDER_FORWARD;
use plir_walk::interruptible::{WalkResult, walk_advance, walk_break};
use plir_walk::operations::immutable::walk_ops;
use std::alloc::Global;
use std::ops::ControlFlow;

// Whether an operation calls the function of a name.
fn is_call_of<D: CallSet>(ctx: &Context<D>, op: Ptr<Operation>, name: &Identifier) -> bool
    requires { IsLive ctx.now (AnyNode.Operation op) }
    ensures { result ≡ is_call_of name.now (told_of D.call ctx.now op) }
{
    let Some(call) = D::call(ctx, op) else {
        return false;
    };
    match call.callee {
        Callee::Direct(called) => called == name,
        Callee::Indirect(_) => false,
    }
}

// Adds an operation to those that call the function of a name, if it does, or breaks the walk off for want of memory.
fn put_site<D: CallSet>(
    ctx: &Context<D>,
    sites: &mut Vec<Ptr<Operation>>,
    op: Ptr<Operation>,
    name: &Identifier,
) -> WalkResult<Memory>
    requires { IsLive ctx.now (AnyNode.Operation op) }
    ensures { IsSitePut D.call name.now ctx.now sites.old.items op result sites.new.items }
{
    if !is_call_of(ctx, op, name) {
        return walk_advance();
    }
    match sites.push(op) {
        Ok(()) => walk_advance(),
        Err(refused) => walk_break(Memory::from(refused)),
    }
}

/// The operations at or below a root that call the function of a name, each once, in the order of their places
/// (PreOrder, Forward). What calls a value is none of them. This takes one walk.
pub fn call_sites<D: CallSet>(
    alloc: Global,
    ctx: &Context<D>,
    root: Ptr<Operation>,
    name: &Identifier,
) -> Result<Vec<Ptr<Operation>>, Memory>
    requires { IsLive ctx.now (AnyNode.Operation root) }
    ensures { IfOk result (λ sites. AreCallSites D.call name.now ctx.now root sites.items) }
{
    ctx.stands();
    let mut sites = Vec::new(alloc);
    let put = |c: &Context<D>, u: &mut Vec<Ptr<Operation>>, p: Ptr<Operation>| -> WalkResult<Memory>
        requires { IsLive c.now (AnyNode.Operation p) }
        ensures { IsSitePut D.call name.entry.now c.now u.old.items p result u.new.items }
    { put_site(c, u, p, name) };
    match walk_ops(
        ctx,
        &mut sites,
        &WALKCONFIG_PREORDER_FORWARD,
        IRNode::Operation(root),
        put,
    ) {
        ControlFlow::Continue(_) => Ok(sites),
        ControlFlow::Break(refused) => Err(refused),
    }
}
