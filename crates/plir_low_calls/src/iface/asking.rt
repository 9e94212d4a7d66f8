//! The accessors of the interfaces, by their names.
ghost use Rattle.plir_core.specs.ContextView.{IsLive};
ghost use Rattle.plir_core.specs.declared.ptr.IRNode.{IRNode as AnyNode};

use plir_core::{Context, LessThanN, Value};
use plir_data::{OpSet, TypeHandle};
use plir_iface::{
    AtMostOneRegionInterface, NOpdsInterface, NRegionsInterface, NResultsInterface,
    OneOpdInterface, OneRegionInterface, OneResultInterface, OptionalOpdInterface,
    OptionalResultInterface, RegionKindInterface, SameOperandsAndResultType, SameOperandsType,
    SameResultsType, SingleBlockRegionInterface, verify_get_operand_n, verify_get_result_n,
};
use plir_scripts::{Answer, Made, Stop};

// Writes the name of a type, or `-` for none.
fn put_type(made: &Made, answer: &mut Answer, handle: Option<TypeHandle>) {
    let Some(handle) = handle else {
        answer.put("-");
        return;
    };
    match made.types.iter().position(|other| *other == handle) {
        None => answer.put("unknown"),
        Some(place) => {
            answer.put("t");
            answer.put_number(place);
        }
    }
}

// Writes the name of a value, or `-` for none.
fn put_value(made: &Made, answer: &mut Answer, value: Option<Value>) {
    match value {
        None => answer.put("-"),
        Some(value) => made.put_value(answer, value),
    }
}

/// The accessors of two results or operands and of one: the last of two.
pub fn ask_counted<
    D: OpSet,
    O: NResultsInterface<D, 2> + NOpdsInterface<D, 2> + OneResultInterface<D> + OneOpdInterface<D>,
>(ctx: &Context<D>, made: &Made, answer: &mut Answer, op: &O, name: &str) -> Result<(), Stop>
    requires { IsLive ctx.now (AnyNode.Operation (O.pointer op.now)) }
{
    let last: LessThanN<2> = LessThanN::new(1).ok_or(Stop::Refused)?;
    match name {
        "OneResult.get_result" if OneResultInterface::<D>::verify(op, ctx).is_ok() => {
            made.put_value(answer, OneResultInterface::<D>::get_result(op, ctx))
        }
        "OneOpd.get_operand" if OneOpdInterface::<D>::verify(op, ctx).is_ok() => {
            made.put_value(answer, OneOpdInterface::<D>::get_operand(op, ctx))
        }
        "OneResult.result_type" if OneResultInterface::<D>::verify(op, ctx).is_ok() => {
            put_type(
                made,
                answer,
                Some(OneResultInterface::<D>::result_type(op, ctx)),
            )
        }
        "OneOpd.operand_type" if OneOpdInterface::<D>::verify(op, ctx).is_ok() => {
            put_type(
                made,
                answer,
                Some(OneOpdInterface::<D>::operand_type(op, ctx)),
            )
        }
        "NResults<2>.get_result_i" if NResultsInterface::<D, 2>::verify(op, ctx).is_ok() => {
            made.put_value(
                answer,
                NResultsInterface::<D, 2>::get_result_i(op, ctx, last),
            )
        }
        "NOpds<2>.get_operand_i" if NOpdsInterface::<D, 2>::verify(op, ctx).is_ok() => {
            made.put_value(answer, NOpdsInterface::<D, 2>::get_operand_i(op, ctx, last))
        }
        "NResults<2>.result_type_i" if NResultsInterface::<D, 2>::verify(op, ctx).is_ok() => {
            put_type(
                made,
                answer,
                Some(NResultsInterface::<D, 2>::result_type_i(op, ctx, last)),
            )
        }
        "NOpds<2>.operand_type_i" if NOpdsInterface::<D, 2>::verify(op, ctx).is_ok() => {
            put_type(
                made,
                answer,
                Some(NOpdsInterface::<D, 2>::operand_type_i(op, ctx, last)),
            )
        }
        _ => return Err(Stop::Refused),
    }
    Ok(())
}

/// The accessors of regions.
pub fn ask_regions<
    D: OpSet,
    O: OneRegionInterface<D> + NRegionsInterface<D, 2> + SingleBlockRegionInterface<D>,
>(ctx: &Context<D>, made: &Made, answer: &mut Answer, op: &O, name: &str) -> Result<(), Stop>
    requires { IsLive ctx.now (AnyNode.Operation (O.pointer op.now)) }
{
    let last: LessThanN<2> = LessThanN::new(1).ok_or(Stop::Refused)?;
    let region = match name {
        "OneRegion.get_region" if OneRegionInterface::<D>::verify(op, ctx).is_ok() => {
            OneRegionInterface::<D>::get_region(op, ctx)
        }
        "NRegions<2>.get_region_i" if NRegionsInterface::<D, 2>::verify(op, ctx).is_ok() => {
            NRegionsInterface::<D, 2>::get_region_i(op, ctx, last)
        }
        "SingleBlockRegion.get_body" => {
            if SingleBlockRegionInterface::<D>::verify(op, ctx).is_err()
                || op.get_operation().num_regions(ctx) == 0
            {
                return Err(Stop::Refused);
            }
            let body = SingleBlockRegionInterface::<D>::get_body(op, ctx, 0);
            made.put_block(answer, Some(body));
            return Ok(());
        }
        _ => return Err(Stop::Refused),
    };
    made.put_region(answer, Some(region));
    Ok(())
}

/// The accessors that have no condition.
pub fn ask_freely<
    D: OpSet,
    O: OptionalResultInterface<D>
        + OptionalOpdInterface<D>
        + SameOperandsAndResultType<D>
        + AtMostOneRegionInterface<D>
        + RegionKindInterface<D>,
>(ctx: &Context<D>, made: &Made, answer: &mut Answer, op: &O, name: &str) -> Result<(), Stop>
    requires { IsLive ctx.now (AnyNode.Operation (O.pointer op.now)) }
{
    match name {
        "OptionalResult.get_result_opt" => put_value(made, answer, op.get_result_opt(ctx)),
        "OptionalOpd.get_operand_opt" => put_value(made, answer, op.get_operand_opt(ctx)),
        "common_operand_type" => put_type(made, answer, op.common_operand_type(ctx)),
        "common_result_type" => put_type(made, answer, op.common_result_type(ctx)),
        "common_type" => put_type(made, answer, op.common_type(ctx)),
        "AtMostOneRegion.get_region" => made.put_region(
            answer,
            AtMostOneRegionInterface::<D>::get_region(op, ctx),
        ),
        "has_ssa_dominance(0)" => answer.put_truth(RegionKindInterface::<D>::has_ssa_dominance(
            op, 0,
        )),
        "has_ssa_dominance(1)" => answer.put_truth(RegionKindInterface::<D>::has_ssa_dominance(
            op, 1,
        )),
        "verify_get_operand_n<2>" => match verify_get_operand_n::<D, 2>(op.get_operation(), ctx) {
            Ok(value) => made.put_value(answer, value),
            Err(refusal) => answer.put_shown(&refusal),
        },
        "verify_get_result_n<0>" => match verify_get_result_n::<D, 0>(op.get_operation(), ctx) {
            Ok(value) => made.put_value(answer, value),
            Err(refusal) => answer.put_shown(&refusal),
        },
        _ => return Err(Stop::Refused),
    }
    Ok(())
}
