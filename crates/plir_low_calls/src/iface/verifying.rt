//! The verifiers, by the names of their interfaces.
ghost use Rattle.plir_core.specs.ContextView.{IsLive};
ghost use Rattle.plir_core.specs.declared.ptr.IRNode.{IRNode as AnyNode};

use plir_core::Context;
use plir_data::{FunctionTypeMark, IntegerType, Memory, OpSet, UnitType, VerifyErr};
use plir_iface::{
    AllOperandsImplsTy, AllOperandsOfType, AllResultsImplsTy, AllResultsOfType,
    AtLeastNOpdsInterface, AtLeastNResultsInterface, AtMostNOpdsInterface, AtMostNRegionsInterface,
    AtMostNResultsInterface, AtMostOneRegionInterface, IsTerminatorInterface,
    IsolatedFromAboveInterface, NOpdsInterface, NRegionsInterface, NResultsInterface,
    NoTerminatorInterface, OneOpdInterface, OneRegionInterface, OneResultInterface,
    OperandNImplsTy, OperandNOfType, OperandsMNImplsTy, OperandsMNOfType, OptionalOpdInterface,
    OptionalResultInterface, RegionKindInterface, ResultNImplsTy, ResultNOfType, ResultsMNImplsTy,
    ResultsMNOfType, SameOperandsAndResultType, SameOperandsType, SameResultsType,
    SingleBlockRegionInterface,
};
use plir_scripts::{Answer, Stop};
use std::alloc::Global;
use std::fmt::Display;

// Writes `ok`, or the text of the refusal.
fn put_verdict<E: Display + Drop>(answer: &mut Answer, verdict: Result<(), VerifyErr<E>>) {
    match verdict {
        Ok(()) => answer.put("ok"),
        Err(VerifyErr::Refused { err, .. }) => answer.put_shown(&err),
        Err(VerifyErr::Memory) => answer.note_lost(),
    }
}

// Writes `ok` for an interface without a rule.
fn put_free(answer: &mut Answer, verdict: Result<(), Memory>) {
    match verdict {
        Ok(()) => answer.put("ok"),
        Err(Memory) => answer.note_lost(),
    }
}

/// Interfaces of numbers of results and operands, and of regions.
pub fn verify_counts<
    D: OpSet,
    O: NResultsInterface<D, 2>
        + OneResultInterface<D>
        + AtMostNResultsInterface<D, 2>
        + OptionalResultInterface<D>
        + AtLeastNResultsInterface<D, 2>
        + NOpdsInterface<D, 2>
        + OneOpdInterface<D>
        + AtMostNOpdsInterface<D, 2>
        + OptionalOpdInterface<D>
        + AtLeastNOpdsInterface<D, 2>
        + NRegionsInterface<D, 2>
        + OneRegionInterface<D>
        + AtMostOneRegionInterface<D>
        + RegionKindInterface<D>
        + IsTerminatorInterface<D>
        + NoTerminatorInterface<D>
        + IsolatedFromAboveInterface<D>,
>(ctx: &Context<D>, answer: &mut Answer, op: &O, name: &str) -> Result<(), Stop>
    requires { IsLive ctx.now (AnyNode.Operation (O.pointer op.now)) }
{
    match name {
        "NResults<2>" => put_verdict(answer, NResultsInterface::<D, 2>::verify(op, ctx)),
        "OneResult" => put_verdict(answer, OneResultInterface::<D>::verify(op, ctx)),
        "AtMostNResults<2>" => put_verdict(
            answer,
            AtMostNResultsInterface::<D, 2>::verify(op, ctx),
        ),
        "OptionalResult" => put_verdict(answer, OptionalResultInterface::<D>::verify(op, ctx)),
        "AtLeastNResults<2>" => put_verdict(
            answer,
            AtLeastNResultsInterface::<D, 2>::verify(op, ctx),
        ),
        "NOpds<2>" => put_verdict(answer, NOpdsInterface::<D, 2>::verify(op, ctx)),
        "OneOpd" => put_verdict(answer, OneOpdInterface::<D>::verify(op, ctx)),
        "AtMostNOpds<2>" => put_verdict(answer, AtMostNOpdsInterface::<D, 2>::verify(op, ctx)),
        "OptionalOpd" => put_verdict(answer, OptionalOpdInterface::<D>::verify(op, ctx)),
        "AtLeastNOpds<2>" => put_verdict(answer, AtLeastNOpdsInterface::<D, 2>::verify(op, ctx)),
        "NRegions<2>" => put_verdict(answer, NRegionsInterface::<D, 2>::verify(op, ctx)),
        "OneRegion" => put_verdict(answer, OneRegionInterface::<D>::verify(op, ctx)),
        "AtMostNRegions<1>" => put_verdict(
            answer,
            AtMostNRegionsInterface::<D, 1>::verify(op, ctx),
        ),
        "SingleBlockRegion" => put_verdict(
            answer,
            SingleBlockRegionInterface::<D>::verify(op, ctx),
        ),
        "AtMostOneRegion" => put_free(answer, AtMostOneRegionInterface::<D>::verify(op, ctx)),
        "RegionKind" => put_free(answer, RegionKindInterface::<D>::verify(op, ctx)),
        "IsTerminator" => put_free(answer, IsTerminatorInterface::<D>::verify(op, ctx)),
        "NoTerminator" => put_free(answer, NoTerminatorInterface::<D>::verify(op, ctx)),
        "IsolatedFromAbove" => put_free(answer, IsolatedFromAboveInterface::<D>::verify(op, ctx)),
        _ => return Err(Stop::Refused),
    }
    Ok(())
}

/// Interfaces of types of all operands and results.
pub fn verify_types<
    D: OpSet,
    O: SameOperandsAndResultType<D>
        + AllOperandsOfType<D, UnitType>
        + AllResultsOfType<D, UnitType>
        + AllOperandsImplsTy<D, FunctionTypeMark>
        + AllResultsImplsTy<D, FunctionTypeMark>,
>(alloc: Global, ctx: &Context<D>, answer: &mut Answer, op: &O, name: &str) -> Result<(), Stop>
    requires { IsLive ctx.now (AnyNode.Operation (O.pointer op.now)) }
{
    match name {
        "SameOperandsType" => put_verdict(answer, SameOperandsType::<D>::verify(op, ctx)),
        "SameResultsType" => put_verdict(answer, SameResultsType::<D>::verify(op, ctx)),
        "SameOperandsAndResultType" => put_verdict(
            answer,
            SameOperandsAndResultType::<D>::verify(op, ctx),
        ),
        "AllOperandsOfType<Unit>" => put_verdict(
            answer,
            AllOperandsOfType::<D, UnitType>::verify(op, alloc, ctx),
        ),
        "AllResultsOfType<Unit>" => put_verdict(
            answer,
            AllResultsOfType::<D, UnitType>::verify(op, alloc, ctx),
        ),
        "AllOperandsImplsTy<Function>" => put_verdict(
            answer,
            AllOperandsImplsTy::<D, FunctionTypeMark>::verify(op, ctx),
        ),
        "AllResultsImplsTy<Function>" => put_verdict(
            answer,
            AllResultsImplsTy::<D, FunctionTypeMark>::verify(op, ctx),
        ),
        _ => return Err(Stop::Refused),
    }
    Ok(())
}

/// Interfaces of types at places.
pub fn verify_places<
    D: OpSet,
    O: OperandNOfType<D, 0, UnitType>
        + ResultNOfType<D, 0, UnitType>
        + OperandNImplsTy<D, 1, FunctionTypeMark>
        + ResultNImplsTy<D, 1, FunctionTypeMark>
        + OperandsMNOfType<D, 1, 4294967295, IntegerType>
        + OperandsMNOfType<D, 0, 2, IntegerType>
        + ResultsMNOfType<D, 0, 2, IntegerType>
        + OperandsMNImplsTy<D, 0, 1, FunctionTypeMark>
        + ResultsMNImplsTy<D, 0, 4294967295, FunctionTypeMark>,
>(ctx: &Context<D>, answer: &mut Answer, op: &O, name: &str) -> Result<(), Stop>
    requires { IsLive ctx.now (AnyNode.Operation (O.pointer op.now)) }
{
    match name {
        "OperandNOfType<0, Unit>" => put_verdict(
            answer,
            OperandNOfType::<D, 0, UnitType>::verify(op, ctx),
        ),
        "ResultNOfType<0, Unit>" => put_verdict(
            answer,
            ResultNOfType::<D, 0, UnitType>::verify(op, ctx),
        ),
        "OperandNImplsTy<1, Function>" => put_verdict(
            answer,
            OperandNImplsTy::<D, 1, FunctionTypeMark>::verify(op, ctx),
        ),
        "ResultNImplsTy<1, Function>" => put_verdict(
            answer,
            ResultNImplsTy::<D, 1, FunctionTypeMark>::verify(op, ctx),
        ),
        "OperandsMNOfType<1, -1, Integer>" => put_verdict(
            answer,
            OperandsMNOfType::<D, 1, 4294967295, IntegerType>::verify(op, ctx),
        ),
        "OperandsMNOfType<0, 2, Integer>" => put_verdict(
            answer,
            OperandsMNOfType::<D, 0, 2, IntegerType>::verify(op, ctx),
        ),
        "ResultsMNOfType<0, 2, Integer>" => put_verdict(
            answer,
            ResultsMNOfType::<D, 0, 2, IntegerType>::verify(op, ctx),
        ),
        "OperandsMNImplsTy<0, 1, Function>" => put_verdict(
            answer,
            OperandsMNImplsTy::<D, 0, 1, FunctionTypeMark>::verify(op, ctx),
        ),
        "ResultsMNImplsTy<0, -1, Function>" => put_verdict(
            answer,
            ResultsMNImplsTy::<D, 0, 4294967295, FunctionTypeMark>::verify(op, ctx),
        ),
        _ => return Err(Stop::Refused),
    }
    Ok(())
}
