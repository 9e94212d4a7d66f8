//! A callback whose own growth is refused.
ghost use Rattle.plir_core.specs.ContextView.{IsLive};
ghost use Rattle.plir_core.specs.declared.ptr.IRNode.{IRNode as AnyNode};

use crate::walk::changes::{NOT_DONE, Nest, make_nest};
use crate::walk::plan::{Change, Plan};
use crate::walk::walking::change;
use plir_core::{Context, IRNode};
use plir_data::{OpKind, OpSet};
use plir_scripts::{InContext, SampleSet, in_new_context};
use plir_walk::interruptible::WalkResult;
use plir_walk::{CallLimit, WALKCONFIG_PREORDER_FORWARD};
use std::alloc::Global;
use std::ops::ControlFlow;

// A plan by which a function is appended to a block.
fn appending(alloc: Global, node: IRNode) -> Option<Plan> {
    let mut changes = Vec::new(alloc);
    changes.push((node, Change::AppendFunc)).ok()?;
    Some(Plan {
        changes,
        skips: Vec::new(alloc),
        stop: None,
        limit: 6,
    })
}

// The nodes of a tree of a module that holds at most one function, in the order of their places.
fn nodes_in<D: OpSet>(ctx: &Context<D>, nest: Nest) -> [Option<IRNode>; 6]
    requires { IsLive ctx.now (AnyNode.BasicBlock nest.block) }
{
    let (root, region, block) = nest.nodes();
    let func = nest.block.get_head(ctx);
    let inner = match func {
        None => None,
        Some(op) => op.first_region(ctx),
    };
    let body = match inner {
        None => None,
        Some(region) => region.get_head(ctx),
    };
    [
        Some(root),
        Some(region),
        Some(block),
        func.map(IRNode::Operation),
        inner.map(IRNode::Region),
        body.map(IRNode::BasicBlock),
    ]
}

// Whether the called nodes are the first ones of these.
fn are_first(called: &[IRNode], nodes: [Option<IRNode>; 6]) -> bool {
    called.len() <= 6
        && called
            .iter()
            .zip(nodes)
            .all(|(called, node)| Some(*called) == node)
}

// Whether a walk that its callback ends, or that goes to its end, has called the nodes that it should have called.
fn is_expected(called: &[IRNode], answer: Result<WalkResult<u32>, CallLimit>) -> bool {
    match answer {
        Ok(ControlFlow::Break(value)) => value == NOT_DONE,
        Ok(ControlFlow::Continue(_)) => called.len() == 6,
        Err(_) => false,
    }
}

// Walks a module with a callback that appends a function to its block. Where memory is refused the callback breaks the
// walk; the called nodes are the first ones of the tree all the same.
fn append_in_walk<D: OpSet>(alloc: Global, ctx: &mut Context<D>, nest: Nest) -> bool {
    let (root, _, block) = nest.nodes();
    let Some(plan) = appending(alloc, block) else {
        return true;
    };
    if !root.is_live(ctx) {
        return false;
    }
    let mut called = Vec::new(alloc);
    let answer = change(
        alloc,
        ctx,
        &WALKCONFIG_PREORDER_FORWARD,
        root,
        &plan,
        &mut called,
    );
    if !nest.block.is_live(ctx) {
        return false;
    }
    are_first(called.as_slice(), nodes_in(ctx, nest)) && is_expected(called.as_slice(), answer)
}

// The same, in a new module, where there is memory for one.
fn append_in_new<D: OpSet>(alloc: Global, ctx: &mut Context<D>) -> bool {
    match make_nest(alloc, ctx, OpKind::Module, None) {
        Ok(nest) => append_in_walk(alloc, ctx, nest),
        Err(_) => true,
    }
}

// Does so in a new context.
#[derive(Drop)]
struct Appends {
    alloc: Global,
}

impl<D: OpSet> InContext<D> for Appends {
    type Answer = bool;

    fn run(self, ctx: &mut Context<D>) -> bool {
        append_in_new(self.alloc, ctx)
    }
}

/// Whether a walk breaks and its calls stay where memory is refused.
pub fn breaks_and_stays(alloc: Global) -> bool {
    in_new_context::<SampleSet, _>(alloc, Appends { alloc })
}
