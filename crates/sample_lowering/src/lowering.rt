//! The lowering: the sum of a and b is the difference of a and the negation of b.
ghost use Rattle.std.specs.Prelude.{◌≡◌, IsTrue, length};
ghost use Rattle.plir_core.specs.ContextView.{IsLive, children, operands_of, result_types_of};
ghost use Rattle.plir_core.specs.declared.ptr.IRNode.{IRNode as AnyNode};
ghost use Rattle.sample_lowering.specs.Kinds.{is_sum};
ghost use Rattle.sample_lowering.specs.Lowered.{IsAnswered, is_sum_of_two};

use crate::kinds::{ArithKind, ArithSet};
use plir_core::{BasicBlock, Context, NodeErr, Operation, Ptr};
use plir_data::OpKind;
use plir_passes::laws::replacements;
use plir_passes::{Conversion, put_before, replace_op};
use std::alloc::Global;

/// Lowers each sum of two values.
#[derive(Drop)]
pub struct LowerAdd {
    /// What new operations are made with.
    pub alloc: Global,
}

/// Why a sum was not lowered.
#[derive(Clone, Copy, PartialEq, Eq, Debug)]
pub enum LowerErr {
    /// A new operation was not made.
    Node(NodeErr),
    /// It has not two operands, one result and no region.
    Malformed,
}

impl From<NodeErr> for LowerErr {
    ghost use Rattle.sample_lowering.specs.declared.lowering.LowerErr.TheVariants as Variants;

    ghost from_gives = { λ refusal e. e ≡ Variants.Node refusal };

    fn from(refusal: NodeErr) -> LowerErr {
        LowerErr::Node(refusal)
    }
}

// Whether an operation has two operands, one result and no region.
fn is_of_two(ctx: &Context<ArithSet>, op: Ptr<Operation>) -> bool
    requires { IsLive ctx.now (AnyNode.Operation op) }
    ensures value { result ≡ is_sum_of_two ctx.now op }
    ensures operands { IsTrue result → length (operands_of ctx.now op) ≡ 2 }
    ensures results { IsTrue result → length (result_types_of ctx.now op) ≡ 1 }
    ensures regions { IsTrue result → length (children ctx.now (AnyNode.Operation op)) ≡ 0 }
{
    op.get_num_operands(ctx) == 2 && op.get_num_results(ctx) == 1 && op.num_regions(ctx) == 0
}

impl Conversion<ArithSet> for LowerAdd {
    type Err = LowerErr;

    ghost illegal = { λ _. is_sum };

    ghost rewrites = { λ _ s block op answer t. IsAnswered s block op answer t };

    fn is_illegal(&self, kind: OpKind<ArithKind>) -> bool
        ensures { result ≡ is_sum kind }
    {
        matches!(kind, OpKind::Own(ArithKind::Add))
    }

    fn rewrite(
        &self,
        ctx: &mut Context<ArithSet>,
        _block: Ptr<BasicBlock>,
        op: Ptr<Operation>,
    ) -> Result<(), LowerErr> {
        replacements::<ArithSet>();
        ctx.stands();
        if !is_of_two(ctx, op) {
            return Err(LowerErr::Malformed);
        }
        let left = op.get_operand(ctx, 0);
        let right = op.get_operand(ctx, 1);
        let ty = op.get_type(ctx, 0);
        let (neg, sub) = (OpKind::Own(ArithKind::Neg), OpKind::Own(ArithKind::Sub));
        let negated = put_before(self.alloc, ctx, op, neg, ty, &[right])?;
        let difference = put_before(self.alloc, ctx, op, sub, ty, &[left, negated])?;
        replace_op(ctx, op, difference);
        Ok(())
    }
}
