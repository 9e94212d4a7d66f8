//! The call of an inlining below a root.
ghost use Rattle.plir_core.specs.ContextView.{IsLive};
ghost use Rattle.plir_core.specs.declared.ptr.IRNode.{IRNode as AnyNode};

use plir_core::{Context, IRNode, Operation, Ptr};
use plir_data::OpSet;
use plir_flow_sets::CallSet;
use plir_inliner::{InlineErr, Inlining, inline_calls};
use plir_scripts::{Answer, Bench, Line, Made, Stop, number};
use plir_walk::WALKCONFIG_PREORDER_FORWARD;
use plir_walk::interruptible::immutable::walk_op;
use plir_walk::interruptible::{WalkResult, walk_advance, walk_break};
use std::ops::ControlFlow;

// How many new nodes of each kind get names at most without asking for memory.
const MAX_NEW: usize = 100;

/// Does what a line says that inlines: `inline-below ROOT BUDGET` writes how many calls were inlined and how many
/// operations copied, and `inline-all-below ROOT BUDGET` only whether it was stopped; that one is made once more where
/// memory was refused, since what is inlined until then stays. What is new has names of its own from then on, in the
/// order in which it stands, each node before those below it.
pub fn inline_below<D: CallSet>(bench: &mut Bench<D>, line: Line<'_>) -> Result<(), Stop> {
    let root = bench.made.op(&bench.ctx, line.first)?;
    let budget = number(line.second)?;
    bench.made.ops.reserve(MAX_NEW)?;
    bench.made.regions.reserve(MAX_NEW)?;
    bench.made.blocks.reserve(MAX_NEW)?;
    let mut end = inline_calls(bench.alloc, &mut bench.ctx, root, budget);
    let is_again = line.command == "inline-all-below" && matches!(end, Err(InlineErr::Memory));
    if is_again {
        let root = bench.made.op(&bench.ctx, line.first)?;
        end = inline_calls(bench.alloc, &mut bench.ctx, root, budget);
    }
    let root = bench.made.op(&bench.ctx, line.first)?;
    name_new(&bench.ctx, &mut bench.made, root)?;
    put_end(&mut bench.answer, line.command == "inline-below", end)
}

// Writes how an inlining has ended, with or without its numbers.
fn put_end(
    answer: &mut Answer,
    with_numbers: bool,
    end: Result<Inlining, InlineErr>,
) -> Result<(), Stop> {
    match end {
        Ok(done) => {
            if with_numbers {
                answer.put_number(done.calls);
                answer.put(" calls ");
                answer.put_number(done.copied);
                answer.put(" operations ");
            }
            answer.put(if done.stopped { "stopped" } else { "all" });
            Ok(())
        }
        Err(InlineErr::Memory) => Err(Stop::Memory),
        Err(refused) => {
            answer.put_shown(&refused);
            Ok(())
        }
    }
}

/// Gives names to the nodes at and below an operation that have none.
pub fn name_new<D: OpSet>(
    ctx: &Context<D>,
    made: &mut Made,
    root: Ptr<Operation>,
) -> Result<(), Stop>
    requires { IsLive ctx.now (AnyNode.Operation root) }
{
    ctx.stands();
    let note = |_c: &Context<D>, named: &mut Made, node: IRNode| -> WalkResult<Stop> {
        match name(named, node) {
            Ok(()) => walk_advance(),
            Err(stop) => walk_break(stop),
        }
    };
    match walk_op(ctx, made, &WALKCONFIG_PREORDER_FORWARD, root, note) {
        ControlFlow::Continue(_) => Ok(()),
        ControlFlow::Break(stop) => Err(stop),
    }
}

// Gives a name to a node that has none.
fn name(made: &mut Made, node: IRNode) -> Result<(), Stop> {
    match node {
        IRNode::Operation(op) if !made.ops.contains(&op) => made.ops.push(op)?,
        IRNode::Region(region) if !made.regions.contains(&region) => made.regions.push(region)?,
        IRNode::BasicBlock(block) if !made.blocks.contains(&block) => made.blocks.push(block)?,
        _ => {}
    }
    Ok(())
}
