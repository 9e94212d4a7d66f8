//! How many operations there are.
ghost use Rattle.std.specs.Prelude.{◌≡◌, ◌++◌, false, true, Ok, OnOk, string_bytes};
ghost use Rattle.plir_core.specs.ContextView.{IsLive};
ghost use Rattle.plir_core.specs.declared.ptr.IRNode.{IRNode as AnyNode};
ghost use Rattle.plir_driver.specs.Counts.{IsCount, IsCounted, counts_line, told_end};

use crate::pass_end::PassEnd;
use plir_core::{Context, IRNode, Operation, Ptr};
use plir_data::OpSet;
use plir_walk::WALKCONFIG_PREORDER_FORWARD;
use plir_walk::uninterruptible::immutable::walk_op;
use std::alloc::AllocError;

// Counts a node, if it is an operation.
fn count_node(count: &mut usize, node: IRNode)
    ensures { IsCounted count.old node count.new }
{
    if let IRNode::Operation(_) = node {
        *count = count.saturating_add(1);
    }
}

// How many operations there are: the one that is named, and those below it.
fn count_operations<D: OpSet>(ctx: &Context<D>, root: Ptr<Operation>) -> usize
    requires { IsLive ctx.now (AnyNode.Operation root) }
    ensures { IsCount ctx.now root result }
{
    ctx.stands();
    let mut count = 0usize;
    let add = |_c: &Context<D>, n: &mut usize, node: IRNode|
        ensures { IsCounted n.old node n.new }
    { count_node(n, node) };
    walk_op(ctx, &mut count, &WALKCONFIG_PREORDER_FORWARD, root, add);
    count
}

/// How many operations there are, where that is asked for.
pub fn count_if<D: OpSet>(is_asked: bool, ctx: &Context<D>, root: Ptr<Operation>) -> usize
    requires { IsLive ctx.now (AnyNode.Operation root) }
    ensures { is_asked ≡ true → IsCount ctx.now root result }
{
    if is_asked {
        count_operations(ctx, root)
    } else {
        0
    }
}

// What is told behind the numbers of a pass that ends so.
fn told_end(end: PassEnd) -> &'static str
    ensures { result.now ≡ told_end end }
{
    match end {
        PassEnd::Changed => "",
        PassEnd::Unchanged => ", nothing changed",
    }
}

// Puts two numbers of operations behind the name of a pass, and whether it has changed nothing.
fn put_line(
    log: &mut String,
    name: &str,
    before: usize,
    after: usize,
    end: PassEnd,
) -> Result<(), AllocError>
    ensures { OnOk result (string_bytes log.new ≡ string_bytes log.old ++ counts_line name.now before after end) }
{
    let told = told_end(end);
    writeln!(
        log,
        "{name}: {before} operations before, {after} after{told}"
    )
}

/// Puts how many operations there were in front of a pass, how many there are behind it, and whether it says that
/// nothing has changed, where that is asked for.
pub fn put_counts(
    log: &mut String,
    is_asked: bool,
    name: &str,
    before: usize,
    after: usize,
    end: PassEnd,
) -> Result<(), AllocError>
    ensures asked { is_asked ≡ true →
        OnOk result (string_bytes log.new ≡ string_bytes log.old ++ counts_line name.now before after end) }
    ensures unasked { is_asked ≡ false → (result ≡ Ok tt) × (log.new ≡ log.old) }
{
    if !is_asked {
        return Ok(());
    }
    put_line(log, name, before, after, end)
}
