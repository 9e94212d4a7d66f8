//! Conditional branches.
ghost use Rattle.std.specs.Prelude.{◌↔◌, IsTrue};
ghost use Rattle.plir_core.specs.declared.ptr.IRNode.{IRNode as AnyNode};
ghost use Rattle.plir_core.specs.ContextView.{IsLive};
ghost use Rattle.flow_dialect.specs.FlowBranches.{IsLaidOut};

use crate::kinds::{FlowKind, FlowSet, WrongLayout};
use plir_core::{Context, Operation, Ptr, Value};
use plir_data::{Memory, OpKind, OpSet, VerifyErr};
use plir_flow::{BranchOpInterface, OperandSegmentInterface, laws};
use plir_flow_sets::{BranchKind, ToldBranch};
use plir_iface::{IsTerminatorInterface, Op};
use std::alloc::Global;
use std::ops::Range;

/// A branch to the first or to the second of two successors. The first segment of its operands is the condition, the
/// second and the third are what the two successors get.
#[derive(Clone, Copy)]
pub struct CondBranch {
    /// The operation.
    pub op: Ptr<Operation>,
}

impl<D: OpSet> Op<D> for CondBranch {
    ghost pointer = { λ o. o.op };

    fn get_operation(&self) -> Ptr<Operation> {
        self.op
    }
}

impl<D: OpSet> OperandSegmentInterface<D> for CondBranch {
    ghost use Rattle.std.specs.Prelude.{Some, refl};

    ghost expected = { λ _ _. Some 3 };

    fn expected_num_segments(&self, _ctx: &Context<D>) -> Option<usize> {
        Some(3)
    }

    ghost expected_kept = { λ o s t segs live edited. refl };
}

impl CondBranch {
    // Whether its operands stand in three segments, and it has two successors.
    fn is_laid_out<D: OpSet>(self, ctx: &Context<D>) -> bool
        requires { IsLive ctx.now (AnyNode.Operation self.op) }
        ensures { IsTrue result ↔ IsLaidOut ctx.now self.op }
    {
        OperandSegmentInterface::<D>::verify(&self, ctx).is_ok()
            && self.op.get_num_successors(ctx) == 2
    }
}

impl<D: OpSet> BranchKind<D> for FlowKind {
    ghost use Rattle.flow_dialect.specs.FlowBranches.{forwards_of};

    ghost forwards = { λ kind i held. forwards_of held kind i };

    fn forwarded_range(
        self,
        ctx: &Context<D>,
        op: Ptr<Operation>,
        successor: usize,
    ) -> Option<Range<usize>> {
        let branch = CondBranch { op };
        match self {
            FlowKind::CondBranch if branch.is_laid_out(ctx) => {
                Some(OperandSegmentInterface::<D>::segment_range(&branch, ctx, successor + 1))
            }
            _ => None,
        }
    }
}

impl IsTerminatorInterface<FlowSet> for CondBranch {}

impl BranchOpInterface<FlowSet> for CondBranch {
    ghost use Rattle.std.specs.Prelude.{[], ◌∷◌, ◌+◌};
    ghost use Rattle.plir_flow.specs.Segments.{segment_places, sizes_key};
    ghost use Rattle.flow_dialect.specs.FlowBranches.{IsCondBranch};

    ghost has_layout = { λ o s. IsCondBranch s o.op };

    ghost refuses_layout = { λ _ _ _. Unit {0} };

    ghost layout_wants_memory = { λ _ _. ⊥ };

    ghost layout_keys = { λ _. sizes_key ∷ [] };

    ghost forwards = { λ o s i. segment_places s o.op (i + 1) };

    fn verify_successor_operand_layout(
        &self,
        _alloc: Global,
        ctx: &Context<FlowSet>,
    ) -> Result<(), VerifyErr<WrongLayout>> {
        let is_branch = matches!(self.op.kind(ctx), OpKind::Own(FlowKind::CondBranch));
        if is_branch && self.is_laid_out(ctx) {
            return Ok(());
        }
        Err(VerifyErr::Refused {
            loc: self.op.loc(ctx),
            err: WrongLayout,
        })
    }

    fn successor_operand_range(&self, ctx: &Context<FlowSet>, succ: usize) -> Range<usize> {
        self.segment_range(ctx, succ + 1)
    }

    fn add_successor_operand(
        &self,
        ctx: &mut Context<FlowSet>,
        succ: usize,
        operand: Value,
    ) -> Result<usize, Memory> {
        laws::segments_stand_in_a_row(ctx, self.op);
        laws::edits_of_one_segment();
        self.push_to_segment(ctx, succ + 1, operand)
    }

    fn remove_successor_operand(
        &self,
        ctx: &mut Context<FlowSet>,
        succ: usize,
        arg: usize,
    ) -> Value {
        laws::segments_stand_in_a_row(ctx, self.op);
        laws::edits_of_one_segment();
        self.remove_from_segment(ctx, succ + 1, arg)
    }
}

impl ToldBranch<FlowSet> for CondBranch {
    ghost use Rattle.flow_dialect.specs.FlowLaws.{cond_branch_told};

    ghost branch_told = { λ o s layout. cond_branch_told s o.op layout };
}
