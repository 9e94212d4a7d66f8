//! An operation that has every interface.
use plir_core::{Operation, Ptr};
use plir_data::{FunctionTypeMark, IntegerType, OpSet, UnitType};
use plir_iface::{
    AllOperandsImplsTy, AllOperandsOfType, AllResultsImplsTy, AllResultsOfType,
    AtLeastNOpdsInterface, AtLeastNResultsInterface, AtMostNOpdsInterface, AtMostNRegionsInterface,
    AtMostNResultsInterface, AtMostOneRegionInterface, IsTerminatorInterface,
    IsolatedFromAboveInterface, NOpdsInterface, NRegionsInterface, NResultsInterface,
    NoTerminatorInterface, OneOpdInterface, OneRegionInterface, OneResultInterface, Op,
    OperandNImplsTy, OperandNOfType, OperandsMNImplsTy, OperandsMNOfType, OptionalOpdInterface,
    OptionalResultInterface, RegionKind, RegionKindInterface, ResultNImplsTy, ResultNOfType,
    ResultsMNImplsTy, ResultsMNOfType, SameOperandsAndResultType, SameOperandsType,
    SameResultsType, SingleBlockRegionInterface,
};

/// An operation that has every interface, so that each can be tried.
#[derive(Clone, Copy)]
pub struct AnyOp {
    pub op: Ptr<Operation>,
}

impl<D: OpSet> Op<D> for AnyOp {
    ghost pointer = { λ o. o.op };

    fn get_operation(&self) -> Ptr<Operation> {
        self.op
    }
}

impl<D: OpSet> NRegionsInterface<D, 2> for AnyOp {}

impl<D: OpSet> OneRegionInterface<D> for AnyOp {}

impl<D: OpSet> AtMostNRegionsInterface<D, 1> for AnyOp {}

impl<D: OpSet> AtMostOneRegionInterface<D> for AnyOp {}

impl<D: OpSet> SingleBlockRegionInterface<D> for AnyOp {}

impl<D: OpSet> NoTerminatorInterface<D> for AnyOp {}

impl<D: OpSet> IsTerminatorInterface<D> for AnyOp {}

impl<D: OpSet> IsolatedFromAboveInterface<D> for AnyOp {}

impl<D: OpSet> RegionKindInterface<D> for AnyOp {
    ghost use Rattle.std.specs.Prelude.{◌==◌, if◌then◌else◌};
    ghost use Rattle.plir_iface.specs.declared.kinds.RegionKind.TheVariants.{Graph, SSACFG};

    ghost region_kind = { λ _ i. if i == 0 then Graph else SSACFG };

    fn get_region_kind(&self, region: usize) -> RegionKind {
        if region == 0 {
            RegionKind::Graph
        } else {
            RegionKind::SSACFG
        }
    }
}

impl<D: OpSet> NResultsInterface<D, 2> for AnyOp {}

impl<D: OpSet> AtMostNResultsInterface<D, 2> for AnyOp {}

impl<D: OpSet> OptionalResultInterface<D> for AnyOp {}

impl<D: OpSet> AtLeastNResultsInterface<D, 2> for AnyOp {}

impl<D: OpSet> OneResultInterface<D> for AnyOp {}

impl<D: OpSet> NOpdsInterface<D, 2> for AnyOp {}

impl<D: OpSet> AtMostNOpdsInterface<D, 2> for AnyOp {}

impl<D: OpSet> OptionalOpdInterface<D> for AnyOp {}

impl<D: OpSet> AtLeastNOpdsInterface<D, 2> for AnyOp {}

impl<D: OpSet> OneOpdInterface<D> for AnyOp {}

impl<D: OpSet> SameOperandsType<D> for AnyOp {}

impl<D: OpSet> SameResultsType<D> for AnyOp {}

impl<D: OpSet> SameOperandsAndResultType<D> for AnyOp {}

impl<D: OpSet> AllOperandsOfType<D, UnitType> for AnyOp {}

impl<D: OpSet> AllResultsOfType<D, UnitType> for AnyOp {}

impl<D: OpSet> AllOperandsImplsTy<D, FunctionTypeMark> for AnyOp {}

impl<D: OpSet> AllResultsImplsTy<D, FunctionTypeMark> for AnyOp {}

impl<D: OpSet> OperandNOfType<D, 0, UnitType> for AnyOp {}

impl<D: OpSet> ResultNOfType<D, 0, UnitType> for AnyOp {}

impl<D: OpSet> OperandNImplsTy<D, 1, FunctionTypeMark> for AnyOp {}

impl<D: OpSet> ResultNImplsTy<D, 1, FunctionTypeMark> for AnyOp {}

impl<D: OpSet> OperandsMNOfType<D, 1, 4294967295, IntegerType> for AnyOp {}

impl<D: OpSet> OperandsMNOfType<D, 0, 2, IntegerType> for AnyOp {}

impl<D: OpSet> ResultsMNOfType<D, 0, 2, IntegerType> for AnyOp {}

impl<D: OpSet> OperandsMNImplsTy<D, 0, 1, FunctionTypeMark> for AnyOp {}

impl<D: OpSet> ResultsMNImplsTy<D, 0, 4294967295, FunctionTypeMark> for AnyOp {}
