//! A line for each call of a walk's callback.
ghost use Rattle.std.specs.Prelude.{◌≡◌, ◌++◌, IfOk, OnOk, string_bytes};
ghost use Rattle.plir_core.specs.ContextView.{IsLive};
ghost use Rattle.plir_core.specs.declared.ptr.IRNode.{IRNode as AnyNode};
ghost use Rattle.plir_driver.specs.Traces.{AreCallsPut, IsCallPut, IsTraced, call_line, config_for, next_call};

use plir_core::{Context, IRNode, Operation, Ptr};
use plir_data::OpSet;
use plir_pictures::put_node;
use plir_walk::interruptible::immutable::walk_op;
use plir_walk::interruptible::{WalkResult, walk_advance, walk_break};
use plir_walk::{
    Direction, Order, WALKCONFIG_POSTORDER_FORWARD, WALKCONFIG_POSTORDER_REVERSE,
    WALKCONFIG_PREORDER_FORWARD, WALKCONFIG_PREORDER_REVERSE, WalkConfig,
};
use std::alloc::{AllocError, Global};
use std::ops::ControlFlow;

// What is told of the calls so far, and how many there were.
#[derive(Drop)]
struct Trace {
    text: String,
    calls: usize,
}

// Puts the line of a call at a node: its number from 1, and the node's name.
fn put_call<D: OpSet>(trace: &mut Trace, ctx: &Context<D>, node: IRNode) -> Result<(), AllocError>
    requires { IsLive ctx.now node }
    ensures { OnOk result ((trace.new.calls ≡ next_call trace.old.calls) ×
        (string_bytes trace.new.text ≡ string_bytes trace.old.text ++
        call_line D.kind_id ctx.now (next_call trace.old.calls) node)) }
{
    let call = trace.calls.saturating_add(1);
    trace.calls = call;
    write!(trace.text, "{call} ")?;
    put_node(&mut trace.text, ctx, node)?;
    trace.text.push_str("\n")?;
    Ok(())
}

// Puts the line of a call, or breaks the walk off for want of memory.
fn put_call_at<D: OpSet>(
    ctx: &Context<D>,
    trace: &mut Trace,
    node: IRNode,
) -> WalkResult<AllocError>
    requires { IsLive ctx.now node }
    ensures { IsCallPut D.kind_id ctx.now trace.old node result trace.new }
{
    match put_call(trace, ctx, node) {
        Ok(()) => walk_advance(),
        Err(error) => walk_break(error),
    }
}

// How a walk of an order and a direction takes each kind of node.
fn config_of(order: Order, direction: Direction) -> WalkConfig
    ensures { result ≡ config_for order direction }
{
    match order {
        Order::PreOrder => match direction {
            Direction::Forward => WALKCONFIG_PREORDER_FORWARD,
            Direction::Reverse => WALKCONFIG_PREORDER_REVERSE,
        },
        Order::PostOrder => match direction {
            Direction::Forward => WALKCONFIG_POSTORDER_FORWARD,
            Direction::Reverse => WALKCONFIG_POSTORDER_REVERSE,
        },
    }
}

// Puts the line of each call.
fn put_calls<D: OpSet>(
    trace: &mut Trace,
    ctx: &Context<D>,
    config: &WalkConfig,
    root: Ptr<Operation>,
) -> Result<(), AllocError>
    requires { IsLive ctx.now (AnyNode.Operation root) }
    ensures { OnOk result (AreCallsPut D.kind_id ctx.now config.now root trace.old trace.new) }
{
    ctx.stands();
    let put = |c: &Context<D>, t: &mut Trace, n: IRNode| -> WalkResult<AllocError>
        requires { IsLive c.now n }
        ensures { IsCallPut D.kind_id c.now t.old n result t.new }
    { put_call_at(c, t, n) };
    match walk_op(ctx, trace, config, root, put) {
        ControlFlow::Break(error) => Err(error),
        ControlFlow::Continue(_) => Ok(()),
    }
}

/// A line for each node at or under an operation, in the order in which a walk of an order and a direction calls its
/// callback, with the number of the call from 1 and the node's name.
pub fn trace_walk<D: OpSet>(
    alloc: Global,
    ctx: &Context<D>,
    order: Order,
    direction: Direction,
    root: Ptr<Operation>,
) -> Result<String, AllocError>
    requires { IsLive ctx.now (AnyNode.Operation root) }
    ensures { IfOk result (λ t.
        IsTraced D.kind_id ctx.now (config_for order direction) root (string_bytes t)) }
{
    let mut trace = Trace {
        text: String::new(alloc),
        calls: 0,
    };
    put_calls(&mut trace, ctx, &config_of(order, direction), root)?;
    Ok(trace.text)
}
