//! In which order chains are laid out, and at which end of a block that puts an operation.
ghost use Rattle.std.specs.Prelude.{◌≡◌, None, IfSome};
ghost use Rattle.plir_core.specs.ContextView.{IsAncestor, IsLive, parent_of};
ghost use Rattle.plir_core.specs.declared.ptr.IRNode.{IRNode as AnyNode};

use crate::kinds::BenchSet;
use plir_core::{BasicBlock, Context, Operation, Ptr};

/// In which order operations stand in a block of which each uses the one that was made before it.
#[derive(Clone, Copy)]
pub enum Order {
    /// Each behind the one that it uses.
    Along,
    /// Each before the one that it uses.
    Against,
}

/// Puts an operation that is in no block behind all that stands in a block, or before all that.
pub fn put_op(ctx: &mut Context<BenchSet>, body: Ptr<BasicBlock>, op: Ptr<Operation>, order: Order)
    requires live { IsLive ctx.old (AnyNode.Operation op) }
    requires body_live { IsLive ctx.old (AnyNode.BasicBlock body) }
    requires unlinked { parent_of ctx.old (AnyNode.Operation op) ≡ None }
    requires not_above { IsAncestor ctx.old (AnyNode.Operation op) (AnyNode.BasicBlock body) → ⊥ }
    ensures { (n : AnyNode) → IsLive ctx.old n → IsLive ctx.new n }
{
    match order {
        Order::Along => op.insert_at_back(ctx, body),
        Order::Against => op.insert_at_front(ctx, body),
    }
}

/// The first operation of a block, if there is one.
pub fn first_op(ctx: &Context<BenchSet>, body: Ptr<BasicBlock>) -> Option<Ptr<Operation>>
    requires { IsLive ctx.now (AnyNode.BasicBlock body) }
    ensures { IfSome result (λ op. IsLive ctx.now (AnyNode.Operation op)) }
{
    body.get_head(ctx)
}
