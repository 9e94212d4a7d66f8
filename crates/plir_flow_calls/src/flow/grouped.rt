//! An operation whose operands stand in segments, of which a number may be expected.
use plir_core::{Context, Operation, Ptr};
use plir_data::{FunctionTypeMark, OpSet, UnitType};
use plir_flow::{OperandSegmentInterface, SegmentNImplsTy, SegmentNOfType};
use plir_iface::Op;

/// An operation whose operands stand in segments: so many, or any number of them.
#[derive(Clone, Copy)]
pub struct Grouped {
    pub op: Ptr<Operation>,
    pub expected: Option<usize>,
}

impl<D: OpSet> Op<D> for Grouped {
    ghost pointer = { λ o. o.op };

    fn get_operation(&self) -> Ptr<Operation> {
        self.op
    }
}

impl<D: OpSet> OperandSegmentInterface<D> for Grouped {
    ghost use Rattle.std.specs.Prelude.{refl};

    ghost expected = { λ o _. o.expected };

    fn expected_num_segments(&self, _ctx: &Context<D>) -> Option<usize> {
        self.expected
    }

    ghost expected_kept = { λ o s t segs live edited. refl };
}

impl<D: OpSet> SegmentNOfType<D, 2, UnitType> for Grouped {}

impl<D: OpSet> SegmentNOfType<D, 1, UnitType> for Grouped {}

impl<D: OpSet> SegmentNImplsTy<D, 1, FunctionTypeMark> for Grouped {}
