//! A conditional branch: an operation with two successors, whose operands stand in three segments.
use crate::flow::refusing::Refusing;
use plir_core::{Context, Operation, Ptr, Value};
use plir_data::{Memory, OpSet, VerifyErr};
use plir_flow::{
    BranchOpInterface, NSuccsInterface, OneSuccInterface, OperandSegmentInterface, laws,
};
use plir_iface::{IsTerminatorInterface, Op};
use std::alloc::Global;
use std::ops::Range;

/// A conditional branch. The first segment of its operands is the condition, the second and the third are what the two
/// successors get.
#[derive(Clone, Copy)]
pub struct CondBranch {
    pub op: Ptr<Operation>,
}

impl<D: OpSet> Op<D> for CondBranch {
    ghost pointer = { λ o. o.op };

    fn get_operation(&self) -> Ptr<Operation> {
        self.op
    }
}

impl<D: OpSet> IsTerminatorInterface<D> for CondBranch {}

impl<D: OpSet> OperandSegmentInterface<D> for CondBranch {
    ghost use Rattle.std.specs.Prelude.{Some, refl};

    ghost expected = { λ _ _. Some 3 };

    fn expected_num_segments(&self, _ctx: &Context<D>) -> Option<usize> {
        Some(3)
    }

    ghost expected_kept = { λ o s t segs live edited. refl };
}

impl<D: Refusing> BranchOpInterface<D> for CondBranch {
    ghost use Rattle.std.specs.Prelude.{Some, [], ◌∷◌, ◌+◌};
    ghost use Rattle.plir_flow.specs.Segments.{HasSegments, segment_places, sizes_key};
    ghost use Rattle.plir_flow.specs.Branches.{HasNSuccs};

    ghost has_layout = { λ o s. HasSegments (Some 3) s o.op × HasNSuccs 2 s o.op };

    ghost refuses_layout = { λ _ _ _. Unit {0} };

    ghost layout_wants_memory = { λ o s. (HasSegments (Some 3) s o.op × HasNSuccs 2 s o.op) → ⊥ };

    ghost layout_keys = { λ _. sizes_key ∷ [] };

    ghost forwards = { λ o s i. segment_places s o.op (i + 1) };

    // A refusal takes memory here, for a text that isn't used.
    fn verify_successor_operand_layout(
        &self,
        alloc: Global,
        ctx: &Context<D>,
    ) -> Result<(), VerifyErr<D::Err>> {
        let has_segments = OperandSegmentInterface::<D>::verify(self, ctx).is_ok();
        if has_segments && self.op.get_num_successors(ctx) == 2 {
            return Ok(());
        }
        if String::from_str(alloc, "not marked").is_err() {
            return Err(VerifyErr::Memory);
        }
        Err(VerifyErr::Refused {
            loc: self.op.loc(ctx),
            err: D::refusal(),
        })
    }

    fn successor_operand_range(&self, ctx: &Context<D>, succ: usize) -> Range<usize> {
        self.segment_range(ctx, succ + 1)
    }

    fn add_successor_operand(
        &self,
        ctx: &mut Context<D>,
        succ: usize,
        operand: Value,
    ) -> Result<usize, Memory> {
        laws::segments_stand_in_a_row(ctx, self.op);
        laws::edits_of_one_segment();
        self.push_to_segment(ctx, succ + 1, operand)
    }

    fn remove_successor_operand(&self, ctx: &mut Context<D>, succ: usize, arg: usize) -> Value {
        laws::segments_stand_in_a_row(ctx, self.op);
        laws::edits_of_one_segment();
        self.remove_from_segment(ctx, succ + 1, arg)
    }
}

impl<D: Refusing> NSuccsInterface<D, 2> for CondBranch {}

impl<D: Refusing> OneSuccInterface<D> for CondBranch {}
