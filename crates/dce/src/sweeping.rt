//! Sweeping out dead operations.
ghost use Rattle.std.specs.Prelude.{◌≡◌, true, [], Some, IsTrue};
ghost use Rattle.plir_core.specs.ContextView.{ContextView, IsLive, children, parent_of, kind_of};
ghost use Rattle.plir_core.specs.WellFormed.{IsWellFormed};
ghost use Rattle.plir_core.specs.declared.ptr.IRNode.{IRNode as AnyNode};
ghost use Rattle.plir_core.specs.Unused.{IsUnusedOutside};
ghost use Rattle.dce.specs.Swept.{IsOpOf, IsSweptBelow, is_removable as is_kind_removable};

use crate::effects::{EffectSet, is_removable};
use plir_core::laws::neighbours_outlast_an_erasure;
use plir_core::{BasicBlock, Context, IRNode, Operation, Ptr};
use plir_walk::laws::{lawful_changes, leaves_thin};
use plir_walk::uninterruptible::mutable::walk_op;
use plir_walk::{CallLimit, WALKCONFIG_POSTORDER_REVERSE};

/// Erases the operations below an operation that have no effect and no regions and end no block, and whose results
/// nothing uses, from the last one on. The contract tells what may go, and that nothing else changes: to do nothing
/// would be proved too.
///
/// # Errors
///
/// [`CallLimit`] where there are more nodes than a walk may visit; what was erased until then is gone.
pub fn sweep<D: EffectSet>(ctx: &mut Context<D>, root: Ptr<Operation>) -> Result<(), CallLimit>
    requires { IsLive ctx.old (AnyNode.Operation root) }
    ensures swept { IsSweptBelow D.has_effect D.is_terminator (AnyNode.Operation root) ctx.old ctx.new }
    ensures whole { IsWellFormed D.attr_handles ctx.new }
{
    lawful_changes::<D>();
    ctx.stands();
    let sweep_node = |ctx: &mut Context<D>, _state: &mut (), node: IRNode|
        requires { IsLive ctx.old node }
        ensures { IsSweptBelow D.has_effect D.is_terminator node ctx.old ctx.new }
    {
        sweep_below(ctx, node);
    };
    let config = WALKCONFIG_POSTORDER_REVERSE;
    let end = walk_op(ctx, &mut (), &config, root, u64::from(u32::MAX), sweep_node);
    ctx.stands();
    end
}

// What is done at each node: a block is swept, nothing else is.
fn sweep_below<D: EffectSet>(ctx: &mut Context<D>, node: IRNode)
    requires { IsLive ctx.old node }
    ensures { IsSweptBelow D.has_effect D.is_terminator node ctx.old ctx.new }
{
    let last = last_op(ctx, node);
    sweep_ops(ctx, node, last);
}

/// Erases the operations of a block that have no effect and no regions and do not end it, and whose results nothing
/// uses, from the last one on. The contract tells what may go, and that nothing else changes: to do nothing would be
/// proved too.
pub fn sweep_block<D: EffectSet>(ctx: &mut Context<D>, block: Ptr<BasicBlock>)
    requires { IsLive ctx.old (AnyNode.BasicBlock block) }
    ensures swept { IsSweptBelow D.has_effect D.is_terminator (AnyNode.BasicBlock block) ctx.old ctx.new }
    ensures whole { IsWellFormed D.attr_handles ctx.new }
{
    sweep_below(ctx, IRNode::BasicBlock(block));
    ctx.stands();
}

// The last operation of a node, if it is a block that has one.
fn last_op<D: EffectSet>(ctx: &Context<D>, node: IRNode) -> Option<Ptr<Operation>>
    requires { IsLive ctx.now node }
    ensures { IsOpOf ctx.now node result }
{
    match node {
        IRNode::BasicBlock(block) => block.get_tail(ctx),
        IRNode::Operation(_) | IRNode::Region(_) => None,
    }
}

// Sweeps the operations of a node, if it is a block, the last one first.
fn sweep_ops<D: EffectSet>(ctx: &mut Context<D>, node: IRNode, last: Option<Ptr<Operation>>)
    requires live { IsLive ctx.old node }
    requires here { IsOpOf ctx.old node last }
    ensures { IsSweptBelow D.has_effect D.is_terminator node ctx.old ctx.new }
{
    leaves_thin(ctx);
    ctx.stands();
    let mut at = last;
    'ops: for _i in 0..ctx.num_live() {
        let Some(op) = at else {
            break;
        };
        at = sweep_op(ctx, node, op);
    }
}

// Erases an operation of a block, if it is dead, and answers the one before it. What was swept so far below the block,
// from any context on, still is with it.
fn sweep_op<D: EffectSet>(
    ctx: &mut Context<D>,
    node: IRNode,
    op: Ptr<Operation>,
) -> Option<Ptr<Operation>>
    requires live { IsLive ctx.old (AnyNode.Operation op) }
    requires here { parent_of ctx.old (AnyNode.Operation op) ≡ Some node }
    ensures swept { (s : ContextView D.Kind D.Attr D.Ty) → IsSweptBelow D.has_effect D.is_terminator node s ctx.old →
        IsSweptBelow D.has_effect D.is_terminator node s ctx.new }
    ensures before { IsOpOf ctx.new node result }
{
    leaves_thin(ctx);
    neighbours_outlast_an_erasure(ctx, op);
    let before = op.get_prev(ctx);
    if is_dead(ctx, op) {
        Operation::erase(op, ctx);
    }
    before
}

// Whether an operation may go by its kind, has no region, and nothing else uses it.
fn is_dead<D: EffectSet>(ctx: &Context<D>, op: Ptr<Operation>) -> bool
    requires { IsLive ctx.now (AnyNode.Operation op) }
    ensures removable { IsTrue result →
        is_kind_removable D.has_effect D.is_terminator (kind_of ctx.now op) ≡ true }
    ensures leaf { IsTrue result → children ctx.now (AnyNode.Operation op) ≡ [] }
    ensures unused { IsTrue result → IsUnusedOutside ctx.now (AnyNode.Operation op) }
{
    if !is_removable(ctx, op) || !has_no_region(ctx, op) {
        return false;
    }
    IRNode::Operation(op).is_unused_outside(ctx)
}

// Whether an operation has no region.
#[tactic(auto, using(std::proofs::lemmas::List::nil_from_length))]
fn has_no_region<D: EffectSet>(ctx: &Context<D>, op: Ptr<Operation>) -> bool
    requires { IsLive ctx.now (AnyNode.Operation op) }
    ensures { IsTrue result → children ctx.now (AnyNode.Operation op) ≡ [] }
{
    if op.num_regions(ctx) > 0 {
        return false;
    }
    true
}
