//! Conversion: operations of illegal kinds are replaced until none is left.
ghost use Rattle.std.specs.Prelude.{◌≡◌, ◌≢◌, Bool, true, false, Some, Result as AnyResult, OnOk, IfOk};
ghost use Rattle.plir_data.specs.declared.op_set.OpKind.{OpKind as AnyKind};
ghost use Rattle.plir_store.specs.Members.{Has};
ghost use Rattle.plir_core.specs.declared.ptr.Ptr.{Ptr as AnyPtr};
ghost use Rattle.plir_core.specs.declared.ptr.Operation.{Operation as OperationKind};
ghost use Rattle.plir_core.specs.declared.ptr.BasicBlock.{BasicBlock as BasicBlockKind};
ghost use Rattle.plir_core.specs.declared.ptr.IRNode.{IRNode as AnyNode};
ghost use Rattle.plir_core.specs.Forest.{look, IsBelow, IsForest};
ghost use Rattle.plir_core.specs.ContextView.{ContextView, IsLive, children, parent_of, kind_of};
ghost use Rattle.plir_walk.specs.Lawful.{Lawful};
ghost use Rattle.plir_passes.specs.Legal.{is_kind, is_illegal, HasLegalChildren};
ghost use Rattle.plir_passes.specs.Rewritten.{IsRewriting, IsReplaced, IsConverted};
ghost use Rattle.plir_passes.specs.Rewrites.{IsBlockConverted, IsConversion};
ghost use Rattle.plir_passes.specs.Converted.{IsConvertedAt};
ghost use Rattle.plir_passes.specs.Passing.{IsPassed, IsHanded};

use plir_core::laws::{contexts_stand, first_child_is_front, next_is_behind};
use plir_core::{BasicBlock, Context, IRNode, Operation, Ptr};
use plir_data::{OpKind, OpSet};
use plir_walk::WALKCONFIG_PREORDER_FORWARD;
use plir_walk::interruptible::mutable::walk_op;
use plir_walk::interruptible::{WalkResult, walk_advance, walk_break};
use plir_walk::laws::{before_is_a_total_order, lawful_changes};
use std::ops::ControlFlow;

/// Which kinds of operations are illegal, and how one operation of such a kind is replaced.
pub trait Conversion<D: OpSet> {
    /// Why an operation was not replaced.
    type Err: Drop;

    // Whether a kind is illegal.
    ghost illegal: { Self → AnyKind D.Kind → Bool };

    // What a call of `rewrite` leaves, besides what each has to leave: the context before it, the block, the operation,
    // the answer, the context after it. What a conversion has done is told in these words.
    ghost rewrites: { Self → ContextView D.Kind D.Attr D.Ty → AnyPtr BasicBlockKind → AnyPtr OperationKind →
        AnyResult (Unit {0}) Self.Err → ContextView D.Kind D.Attr D.Ty → Type 0 };

    /// Whether a kind is illegal.
    fn is_illegal(&self, kind: OpKind<D::Kind>) -> bool
        ensures { result ≡ illegal self.now kind };

    /// Replaces an illegal operation of a block by others, which stand in its place. It changes the tree below the
    /// block alone, and what stands apart from the operation is as it was, but for operands that were values of its
    /// tree. It puts no illegal operation right under an older node; in what it makes there may be some, which are
    /// replaced later. Types keep their handles, and as many nodes may be live.
    fn rewrite(
        &self,
        ctx: &mut Context<D>,
        block: Ptr<BasicBlock>,
        op: Ptr<Operation>,
    ) -> Result<(), Self::Err>
        requires live { IsLive ctx.old (AnyNode.Operation op) }
        requires here { parent_of ctx.old (AnyNode.Operation op) ≡ Some (AnyNode.BasicBlock block) }
        requires due { is_kind (illegal self.now) (kind_of ctx.old op) ≡ true }
        ensures told { rewrites self.now ctx.old block op result ctx.new }
        ensures rewriting { IsRewriting (illegal self.now) ctx.old ctx.new block op }
        ensures done { OnOk result (IsReplaced ctx.old ctx.new block op) };
}

// Replaces an operation of a block, if it is illegal. Answers the operation that stood behind it.
fn convert_op<D: OpSet, C: Conversion<D>>(
    ctx: &mut Context<D>,
    conversion: &C,
    block: Ptr<BasicBlock>,
    op: Ptr<Operation>,
) -> Result<Option<Ptr<Operation>>, C::Err>
    requires live { IsLive ctx.old (AnyNode.Operation op) }
    requires here { parent_of ctx.old (AnyNode.Operation op) ≡ Some (AnyNode.BasicBlock block) }
    ensures lawful { Lawful (look ctx.old) (AnyNode.BasicBlock block) (look ctx.new) }
    ensures converted { IsConverted (C.illegal conversion.now) ctx.old ctx.new }
    ensures passed { IfOk result (λ next. IsPassed (C.illegal conversion.now) ctx.old ctx.new block op next) }
    ensures handed { IsHanded (C.illegal conversion.now) (C.rewrites conversion.now) ctx.old block op result ctx.new }
    ensures beside { (a : AnyNode) → Has (children ctx.old (AnyNode.BasicBlock block)) a → a ≢ AnyNode.Operation op →
        is_illegal (C.illegal conversion.now) ctx.new a ≡ is_illegal (C.illegal conversion.now) ctx.old a }
    ensures stands { OnOk result (IsForest (look ctx.new)) }
{
    lawful_changes::<D>();
    ctx.stands();
    next_is_behind(ctx, IRNode::Operation(op));
    let next = op.get_next(ctx);
    let kind = op.kind(ctx);
    if !conversion.is_illegal(kind) {
        return Ok(next);
    }
    conversion.rewrite(ctx, block, op)?;
    ctx.stands();
    Ok(next)
}

/// Replaces the illegal operations that stand in a block, from the first one on: each is handed to the conversion's
/// `rewrite`, and nothing else is done. Those that come before a refusal are replaced.
///
/// # Errors
///
/// The conversion's own refusal, where an operation was not replaced.
pub fn convert_block<D: OpSet, C: Conversion<D>>(
    ctx: &mut Context<D>,
    conversion: &C,
    block: Ptr<BasicBlock>,
) -> Result<(), C::Err>
    requires { IsLive ctx.old (AnyNode.BasicBlock block) }
    ensures lawful { Lawful (look ctx.old) (AnyNode.BasicBlock block) (look ctx.new) }
    ensures converted { IsConverted (C.illegal conversion.now) ctx.old ctx.new }
    ensures legal { OnOk result (HasLegalChildren (C.illegal conversion.now) ctx.new (AnyNode.BasicBlock block)) }
    ensures handed { IsBlockConverted (C.illegal conversion.now) (C.rewrites conversion.now) ctx.old block result
        ctx.new }
    ensures idle { HasLegalChildren (C.illegal conversion.now) ctx.old (AnyNode.BasicBlock block) →
        ctx.new ≡ ctx.old }
{
    lawful_changes::<D>();
    ctx.stands();
    first_child_is_front(ctx, IRNode::BasicBlock(block));
    let mut at = block.get_head(ctx);
    'ops: while let Some(op) = at {
        let next = convert_op(ctx, conversion, block, op)?;
        at = next;
    }
    Ok(())
}

// What is done at each node: in a block the illegal operations are replaced, elsewhere nothing is done.
fn convert_below<D: OpSet, C: Conversion<D>>(
    ctx: &mut Context<D>,
    conversion: &C,
    node: IRNode,
) -> WalkResult<C::Err>
    requires { IsLive ctx.old node }
    ensures { IsConvertedAt (C.illegal conversion.now) (C.rewrites conversion.now) ctx.old node result ctx.new }
{
    lawful_changes::<D>();
    match node {
        IRNode::Operation(_) => walk_advance(),
        IRNode::Region(_) => walk_advance(),
        IRNode::BasicBlock(block) => match convert_block(ctx, conversion, block) {
            Ok(()) => walk_advance(),
            Err(refusal) => walk_break(refusal),
        },
    }
}

/// Replaces the illegal operations below an operation, until none is left there: also those that stand in what was made
/// in place of others. The blocks are taken in the order of a walk, PreOrder Forward, and in each its illegal
/// operations are handed to the conversion's `rewrite`; nothing else is done. Takes no memory but for what the
/// conversion makes.
///
/// # Errors
///
/// The conversion's own refusal, where an operation was not replaced.
pub fn convert<D: OpSet, C: Conversion<D>>(
    ctx: &mut Context<D>,
    conversion: &C,
    root: Ptr<Operation>,
) -> Result<(), C::Err>
    requires { IsLive ctx.old (AnyNode.Operation root) }
    ensures legal { OnOk result ((n : AnyNode) → IsBelow (look ctx.new) (AnyNode.Operation root) n →
        is_illegal (C.illegal conversion.now) ctx.new n ≡ false) }
    ensures converted { IsConverted (C.illegal conversion.now) ctx.old ctx.new }
    ensures lawful { Lawful (look ctx.old) (AnyNode.Operation root) (look ctx.new) }
    ensures handed { IsConversion (C.illegal conversion.now) (C.rewrites conversion.now) ctx.old
        (AnyNode.Operation root) result ctx.new }
    ensures idle { ((n : AnyNode) → IsBelow (look ctx.old) (AnyNode.Operation root) n →
        is_illegal (C.illegal conversion.now) ctx.old n ≡ false) → ctx.new ≡ ctx.old }
{
    lawful_changes::<D>();
    before_is_a_total_order();
    contexts_stand::<D>();
    ctx.stands();
    let convert_node = |ctx: &mut Context<D>, _state: &mut (), node: IRNode| -> WalkResult<C::Err>
        requires { IsLive ctx.old node }
        ensures { IsConvertedAt (C.illegal conversion.entry.now) (C.rewrites conversion.entry.now) ctx.old node result
            ctx.new }
    { convert_below(ctx, conversion, node) };
    let config = WALKCONFIG_PREORDER_FORWARD;
    let end = walk_op(
        ctx,
        &mut (),
        &config,
        root,
        u64::from(u32::MAX),
        convert_node,
    );
    ctx.stands();
    match end {
        Ok(ControlFlow::Continue(_)) => Ok(()),
        Ok(ControlFlow::Break(refusal)) => Err(refusal),
        Err(_) => unreachable!(),
    }
}
