//! A switch: an operation whose operands stand in one segment more than it has successors.
use crate::flow::refusing::Refusing;
use plir_core::{Context, Operation, Ptr, Value};
use plir_data::{Memory, OpSet, VerifyErr};
use plir_flow::{BranchOpInterface, OperandSegmentInterface, laws};
use plir_iface::{IsTerminatorInterface, Op};
use std::alloc::Global;
use std::ops::Range;

/// A switch. The first segment of its operands is what it looks at, and each other one is what a successor gets.
#[derive(Clone, Copy)]
pub struct Switch {
    pub op: Ptr<Operation>,
}

impl<D: OpSet> Op<D> for Switch {
    ghost pointer = { λ o. o.op };

    fn get_operation(&self) -> Ptr<Operation> {
        self.op
    }
}

impl<D: OpSet> IsTerminatorInterface<D> for Switch {}

impl<D: OpSet> OperandSegmentInterface<D> for Switch {
    ghost use Rattle.std.specs.Prelude.{Some, ◌+◌, ◌-◌, ◌^◌, min, length};
    ghost use Rattle.std.proofs.Common.{ap};
    ghost use Rattle.plir_flow.specs.Branches.{num_successors};

    ghost expected = { λ o s. Some (min (num_successors s o.op + 1) (2 ^ 64 - 1)) };

    fn expected_num_segments(&self, ctx: &Context<D>) -> Option<usize> {
        Some(self.op.get_num_successors(ctx).saturating_add(1))
    }

    ghost expected_kept = { λ o s t segs live edited. ap (λ bs. Some (min (length bs + 1) (2 ^ 64 - 1)))
        edited.successors };
}

impl<D: Refusing> BranchOpInterface<D> for Switch {
    ghost use Rattle.std.specs.Prelude.{Some, [], ◌∷◌, ◌+◌, ◌-◌, ◌^◌, ◌<◌, min};
    ghost use Rattle.plir_flow.specs.Segments.{HasSegments, num_segments, segment_places, sizes_key};
    ghost use Rattle.plir_flow.specs.Branches.{num_successors};

    ghost has_layout = { λ o s. HasSegments (Some (min (num_successors s o.op + 1) (2 ^ 64 - 1))) s o.op ×
        (num_successors s o.op < num_segments s o.op) };

    ghost refuses_layout = { λ _ _ _. Unit {0} };

    ghost layout_wants_memory = { λ _ _. ⊥ };

    ghost layout_keys = { λ _. sizes_key ∷ [] };

    ghost forwards = { λ o s i. segment_places s o.op (i + 1) };

    fn verify_successor_operand_layout(
        &self,
        _alloc: Global,
        ctx: &Context<D>,
    ) -> Result<(), VerifyErr<D::Err>> {
        let has_segments = OperandSegmentInterface::<D>::verify(self, ctx).is_ok();
        if has_segments && self.op.get_num_successors(ctx) < self.num_segments(ctx) {
            return Ok(());
        }
        Err(VerifyErr::Refused {
            loc: self.op.loc(ctx),
            err: D::refusal(),
        })
    }

    fn successor_operand_range(&self, ctx: &Context<D>, succ: usize) -> Range<usize> {
        let _count = self.op.get_num_successors(ctx);
        self.segment_range(ctx, succ + 1)
    }

    fn add_successor_operand(
        &self,
        ctx: &mut Context<D>,
        succ: usize,
        operand: Value,
    ) -> Result<usize, Memory> {
        laws::segments_stand_in_a_row(ctx, self.op);
        laws::edits_of_one_segment();
        let _count = self.op.get_num_successors(ctx);
        let place = self.push_to_segment(ctx, succ + 1, operand)?;
        Ok(place)
    }

    fn remove_successor_operand(&self, ctx: &mut Context<D>, succ: usize, arg: usize) -> Value {
        laws::segments_stand_in_a_row(ctx, self.op);
        laws::edits_of_one_segment();
        let _count = self.op.get_num_successors(ctx);
        self.remove_from_segment(ctx, succ + 1, arg)
    }
}
