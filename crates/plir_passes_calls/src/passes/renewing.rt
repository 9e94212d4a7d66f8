//! A conversion of the toy: each `toy.old` is replaced by a `toy.new`.
ghost use Rattle.std.specs.Prelude.{◌≡◌, true, false, IfOk, OnErr, OnOk};
ghost use Rattle.plir_core.specs.Changes.{SameLive};
ghost use Rattle.plir_core.specs.Made.{IsMade};
ghost use Rattle.plir_core.specs.ContextView.{given_out};
ghost use Rattle.plir_core.specs.declared.ptr.IRNode.{IRNode as AnyNode};
ghost use Rattle.plir_passes.specs.Legal.{is_illegal};
ghost use Rattle.plir_passes.specs.Replacing.{IsReplacedByNew};
ghost use Rattle.plir_passes_calls.specs.EffectKinds.{is_old};

use crate::passes::toy::ToyKind;
use plir_core::{BasicBlock, Context, IRNode, NodeErr, Operation, Ptr};
use plir_data::{KindSet, OpKind};
use plir_passes::Conversion;
use plir_passes::laws::replacements;
use std::alloc::Global;

/// Replaces each `toy.old` that nothing else uses by a `toy.new` without operands, results and regions.
#[derive(Drop)]
pub struct Renew {
    /// What new operations are made with.
    pub alloc: Global,
}

/// Why an operation was not replaced.
#[derive(Clone, Copy, Debug)]
pub enum RenewErr {
    /// The new one was not made.
    Node(NodeErr),
    /// The old one is used. The new one stands before it.
    Used,
}

impl From<NodeErr> for RenewErr {
    fn from(refusal: NodeErr) -> RenewErr {
        RenewErr::Node(refusal)
    }
}

// A new `toy.new`, in no block.
fn make_new(alloc: Global, ctx: &mut Context<KindSet<ToyKind>>) -> Result<Ptr<Operation>, RenewErr>
    ensures made { IfOk result (λ p. IsMade ctx.old.nodes ctx.new.nodes (AnyNode.Operation p)) }
    ensures legal { IfOk result (λ p. is_illegal is_old ctx.new (AnyNode.Operation p) ≡ false) }
    ensures refused { OnErr result (SameLive ctx.old ctx.new) }
    ensures given { (n : AnyNode) → given_out ctx.old n ≡ true → given_out ctx.new n ≡ true }
    ensures types { ctx.new.types ≡ ctx.old.types }
{
    let (results, operands, successors) = (Vec::new(alloc), Vec::new(alloc), Vec::new(alloc));
    let kind = OpKind::Own(ToyKind::New);
    let new = Operation::new(alloc, ctx, kind, results, operands, successors, 0)?;
    Ok(new)
}

impl Conversion<KindSet<ToyKind>> for Renew {
    type Err = RenewErr;

    ghost illegal = { λ _. is_old };

    // On Ok the operation was replaced by one that was made.
    ghost rewrites = { λ _ s _ op answer t. OnOk answer (IsReplacedByNew s t op) };

    fn is_illegal(&self, kind: OpKind<ToyKind>) -> bool
        ensures { result ≡ is_old kind }
    {
        matches!(kind, OpKind::Own(ToyKind::Old))
    }

    fn rewrite(
        &self,
        ctx: &mut Context<KindSet<ToyKind>>,
        _block: Ptr<BasicBlock>,
        op: Ptr<Operation>,
    ) -> Result<(), RenewErr> {
        replacements::<KindSet<ToyKind>>();
        ctx.stands();
        let new = make_new(self.alloc, ctx)?;
        new.insert_before(ctx, op);
        if !IRNode::Operation(op).is_unused_outside(ctx) {
            return Err(RenewErr::Used);
        }
        Operation::erase(op, ctx);
        Ok(())
    }
}
