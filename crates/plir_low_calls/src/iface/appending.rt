//! An operation that is put into a body.
use crate::iface::any_op::AnyOp;
use plir_core::IRNode;
use plir_data::OpSet;
use plir_iface::SingleBlockRegionInterface;
use plir_scripts::{Bench, Line, Stop};

/// `append OP OTHER`: puts the other operation at the end of the body.
pub fn append<D: OpSet>(bench: &mut Bench<D>, line: Line<'_>) -> Result<(), Stop> {
    let ctx = &mut bench.ctx;
    let module = bench.made.op(ctx, line.first)?;
    let op = bench.made.op(ctx, line.second)?;
    let any = AnyOp { op: module };
    if SingleBlockRegionInterface::<D>::verify(&any, ctx).is_err() || module.num_regions(ctx) == 0 {
        return Err(Stop::Refused);
    }
    let body = SingleBlockRegionInterface::<D>::get_body(&any, ctx, 0);
    if op.get_parent_block(ctx).is_some()
        || IRNode::Operation(op).is_ancestor(ctx, IRNode::BasicBlock(body))
    {
        return Err(Stop::Refused);
    }
    SingleBlockRegionInterface::<D>::append_operation(&any, ctx, op, 0);
    Ok(())
}
