//! A block that stands alone, put in place of a call.
ghost use Rattle.std.specs.Prelude.{◌≡◌, ◌∷◌, ◌++◌, [], List};
ghost use Rattle.plir_core.specs.ContextView.{IsLive, children};
ghost use Rattle.plir_core.specs.Results.{HasNoUsedResult};
ghost use Rattle.plir_core.specs.Unused.{IsUnusedOutside};
ghost use Rattle.plir_core.specs.WellFormed.{IsWellFormed};
ghost use Rattle.plir_core.specs.declared.ptr.IRNode.{IRNode as AnyNode};
ghost use Rattle.plir_core.specs.declared.ptr.Operation.{Operation as OperationKind};
ghost use Rattle.plir_core.specs.declared.ptr.Ptr.{Ptr as AnyPtr};
ghost use Rattle.plir_inline.specs.Given.{IsGiven};
ghost use Rattle.plir_inline.specs.Put.{CanPut, IsPut, put};
ghost use Rattle.plir_inline.specs.Taken.{IsTaken};

use crate::values::give_operands;
use plir_core::laws::{
    contexts_stand, last_child_is_back, nothing_stands_below_a_leaf, unused_results_can_be_erased,
};
use plir_core::{BasicBlock, Context, DefiningEntity, IRNode, Operation, Ptr};
use plir_data::OpSet;

// The last operation of a block.
fn last_op<D: OpSet>(ctx: &Context<D>, block: Ptr<BasicBlock>) -> Ptr<Operation>
    requires live { IsLive ctx.now (AnyNode.BasicBlock block) }
    requires ends { (body : List AnyNode) × (last : AnyPtr OperationKind) ×
        (children ctx.now (AnyNode.BasicBlock block) ≡ body ++ AnyNode.Operation last ∷ []) }
    ensures { (body : List AnyNode) (last : AnyPtr OperationKind) →
        children ctx.now (AnyNode.BasicBlock block) ≡ body ++ AnyNode.Operation last ∷ [] → result ≡ last }
{
    last_child_is_back(ctx, IRNode::BasicBlock(block));
    match block.get_tail(ctx) {
        Some(last) => last,
        None => unreachable!(),
    }
}

// Gives the arguments of a block the operands of a call, and then the results of the call the operands of the block's
// last operation.
fn give_values<D: OpSet>(
    ctx: &mut Context<D>,
    call: Ptr<Operation>,
    block: Ptr<BasicBlock>,
    last: Ptr<Operation>,
)
    requires { (ready : CanPut ctx.old call block) × (ready.last ≡ last) }
    ensures given { IsGiven ctx.old ctx.new (put ctx.old call block last) }
    ensures whole { IsWellFormed D.attr_handles ctx.new }
{
    ctx.stands();
    contexts_stand::<D>();
    give_operands(ctx, DefiningEntity::Block(block), call);
    give_operands(ctx, DefiningEntity::Op(call), last);
}

// Erases an operation without regions, whose results nothing uses.
fn take_op<D: OpSet>(ctx: &mut Context<D>, op: Ptr<Operation>)
    requires live { IsLive ctx.old (AnyNode.Operation op) }
    requires leaf { children ctx.old (AnyNode.Operation op) ≡ [] }
    requires unused { HasNoUsedResult ctx.old op }
    ensures taken { IsTaken ctx.old ctx.new (AnyNode.Operation op) }
    ensures whole { IsWellFormed D.attr_handles ctx.new }
{
    unused_results_can_be_erased(ctx, op);
    nothing_stands_below_a_leaf(ctx, IRNode::Operation(op));
    Operation::erase(op, ctx);
}

// Erases a block without operations, of which nothing uses an argument, and to which nothing branches.
fn take_block<D: OpSet>(ctx: &mut Context<D>, block: Ptr<BasicBlock>)
    requires live { IsLive ctx.old (AnyNode.BasicBlock block) }
    requires leaf { children ctx.old (AnyNode.BasicBlock block) ≡ [] }
    requires unused { IsUnusedOutside ctx.old (AnyNode.BasicBlock block) }
    ensures taken { IsTaken ctx.old ctx.new (AnyNode.BasicBlock block) }
    ensures whole { IsWellFormed D.attr_handles ctx.new }
{
    nothing_stands_below_a_leaf(ctx, IRNode::BasicBlock(block));
    BasicBlock::erase(block, ctx);
}

/// Puts the operations of a block that stands alone, but for the last one, in place of a call: the call's operands come
/// in place of the block's arguments, and what the last operation hands back in place of the call's results. The call,
/// the block and its last operation are gone then.
pub(crate) fn put_in_place<D: OpSet>(
    ctx: &mut Context<D>,
    call: Ptr<Operation>,
    block: Ptr<BasicBlock>,
)
    requires { CanPut ctx.old call block }
    ensures put { (last : AnyPtr OperationKind) → (body : List AnyNode) →
        children ctx.old (AnyNode.BasicBlock block) ≡ body ++ AnyNode.Operation last ∷ [] →
        IsPut ctx.old call block last ctx.new }
    ensures whole { IsWellFormed D.attr_handles ctx.new }
{
    ctx.stands();
    contexts_stand::<D>();
    let last = last_op(ctx, block);
    give_values(ctx, call, block, last);
    take_op(ctx, last);
    block.splice_before(ctx, call);
    take_op(ctx, call);
    nothing_stands_below_a_leaf(ctx, IRNode::BasicBlock(block));
    take_block(ctx, block);
}
