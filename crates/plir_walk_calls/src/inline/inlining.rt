//! The call of an inlining.
ghost use Rattle.std.specs.Prelude.{IfSome};
ghost use Rattle.plir_core.specs.ContextView.{IsLive};
ghost use Rattle.plir_core.specs.declared.ptr.IRNode.{IRNode as AnyNode};

use crate::new_names::name_all;
use plir_core::{BasicBlock, Context, IRNode, Operation, Ptr};
use plir_data::OpSet;
use plir_inline::{can_inline, inline_block};
use plir_scripts::{Bench, Line, Made, Stop};

/// Does what a line says that inlines: `inline CALL BLOCK`. What is new has names of its own from then on, in the order
/// in which it stands, each node before those below it.
pub fn inline<D: OpSet>(bench: &mut Bench<D>, line: Line<'_>) -> Result<(), Stop> {
    let call = bench.made.op(&bench.ctx, line.first)?;
    let block = bench.made.block(&bench.ctx, line.second)?;
    if !can_inline(&bench.ctx, call, block) {
        return Err(Stop::Refused);
    }
    let room = bench.ctx.num_live() as usize;
    bench.made.ops.reserve(room)?;
    bench.made.regions.reserve(room)?;
    bench.made.blocks.reserve(room)?;
    let over = call.get_parent_block(&bench.ctx);
    let before = call.get_prev(&bench.ctx);
    let behind = call.get_next(&bench.ctx);
    inline_block(bench.alloc, &mut bench.ctx, call, block)?;
    let first = first_behind(&bench.ctx, over, before);
    name_up_to(&bench.ctx, &mut bench.made, first, behind)
}

// What stands behind an operation, or first in a block where that is none.
fn first_behind<D: OpSet>(
    ctx: &Context<D>,
    over: Option<Ptr<BasicBlock>>,
    before: Option<Ptr<Operation>>,
) -> Option<Ptr<Operation>>
    ensures { IfSome result (λ op. IsLive ctx.now (AnyNode.Operation op)) }
{
    match (before, over) {
        (Some(op), _) if op.is_live(ctx) => op.get_next(ctx),
        (None, Some(block)) if block.is_live(ctx) => block.get_head(ctx),
        _ => None,
    }
}

// Gives names to the operations from one on, up to another one, and to all that stands below them.
fn name_up_to<D: OpSet>(
    ctx: &Context<D>,
    made: &mut Made,
    first: Option<Ptr<Operation>>,
    end: Option<Ptr<Operation>>,
) -> Result<(), Stop>
    requires { IfSome first (λ op. IsLive ctx.now (AnyNode.Operation op)) }
{
    let mut next = first;
    'ops: for _i in 0..ctx.num_live() {
        let Some(op) = next else {
            return Ok(());
        };
        if matches!(end, Some(last) if last == op) {
            return Ok(());
        }
        name_all(ctx, made, IRNode::Operation(op))?;
        next = op.get_next(ctx);
    }
    Ok(())
}
