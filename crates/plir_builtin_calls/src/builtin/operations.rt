//! The calls on builtin operations.
ghost use Rattle.std.specs.Prelude.{◌≡◌, IfOk, IfSome};
ghost use Rattle.plir_data.specs.AttrLive.{IsAttrLive};
ghost use Rattle.plir_data.specs.AttrSeen.{attr_view};
ghost use Rattle.plir_data.specs.AttrView.{leaf, integer};
ghost use Rattle.plir_core.specs.ContextView.{IsLive};
ghost use Rattle.plir_core.specs.declared.ptr.IRNode.{IRNode as AnyNode};

use crate::builtin::symbols::put_verdict;
use plir_attr_text::read_attr;
use plir_builtin::{ConstantOp, ForwardRefOp, FuncOp, MaterializableAttr, ModuleOp};
use plir_core::{Operation, Ptr};
use plir_data::{AttrObj, FunctionType, Identifier, IntegerAttr, OpSet, TypeHandle, Typed};
use plir_iface::Op;
use plir_scripts::{Bench, Line, Stop};

/// Does what a line says of builtin operations: `module NAME`, `func NAME`, `constant TEXT`, `materialize TEXT` and
/// `forward-ref` make one, `rule OP` tells whether its own rule holds, and `typed OP` whether a function has one type,
/// however it is asked for.
pub fn operation<D: OpSet>(bench: &mut Bench<D>, line: Line<'_>) -> Result<(), Stop> {
    match line.command {
        "module" => make_module(bench, line.first),
        "func" => make_func(bench, line),
        "constant" => make_constant(bench, line),
        "materialize" => materialize(bench, line),
        "forward-ref" => make_forward_ref(bench),
        "typed" => tell_typed(bench, line),
        _ => verify(bench, line),
    }
}

/// Makes a module of a name.
pub fn make_module<D: OpSet>(bench: &mut Bench<D>, name: &str) -> Result<(), Stop> {
    make_room(bench)?;
    let name = Identifier::try_new(bench.alloc, name)?;
    let module = ModuleOp::new(bench.alloc, &mut bench.ctx, name)?;
    put_tree(bench, Op::<D>::get_operation(&module))
}

fn make_func<D: OpSet>(bench: &mut Bench<D>, line: Line<'_>) -> Result<(), Stop> {
    make_room(bench)?;
    let name = Identifier::try_new(bench.alloc, line.first)?;
    let arguments = Vec::new(bench.alloc);
    let results = Vec::new(bench.alloc);
    let ty = FunctionType::get(&mut bench.ctx, arguments, results)?;
    let func = FuncOp::new(bench.alloc, &mut bench.ctx, name, ty)?;
    put_tree(bench, Op::<D>::get_operation(&func))
}

fn make_constant<D: OpSet>(bench: &mut Bench<D>, line: Line<'_>) -> Result<(), Stop> {
    make_room(bench)?;
    let value = attribute(bench, line)?;
    if value.typed().is_none() {
        return Err(Stop::Refused);
    }
    let constant = ConstantOp::new(bench.alloc, &mut bench.ctx, value)?;
    put_tree(bench, Op::<D>::get_operation(&constant))
}

fn materialize<D: OpSet>(bench: &mut Bench<D>, line: Line<'_>) -> Result<(), Stop> {
    make_room(bench)?;
    let value = attribute(bench, line)?;
    let integer = integer_in(&value).ok_or(Stop::Refused)?;
    MaterializableAttr::<D>::verify(&integer, &bench.ctx)?;
    let op = integer.materialize(bench.alloc, &mut bench.ctx)?;
    put_tree(bench, op)
}

// The integer that an attribute is.
fn integer_in<D: OpSet>(value: &AttrObj<D>) -> Option<IntegerAttr>
    ensures { IfSome result (λ i. attr_view value.now ≡ leaf (integer i.ty i.value.width i.value.bits)) }
{
    match value {
        AttrObj::Integer(integer) => Some(*integer),
        _ => None,
    }
}

// The attribute that the text of a line stands for.
fn attribute<D: OpSet>(bench: &mut Bench<D>, line: Line<'_>) -> Result<AttrObj<D>, Stop>
    ensures { IfOk result (λ attr. IsAttrLive D.attr_handles bench.new.ctx.types (attr_view attr)) }
{
    match read_attr(bench.alloc, &mut bench.ctx, line.text) {
        Ok(attr) => Ok(attr),
        Err(fault) => Err(Stop::from(fault)),
    }
}

fn make_forward_ref<D: OpSet>(bench: &mut Bench<D>) -> Result<(), Stop> {
    make_room(bench)?;
    let reference = ForwardRefOp::new(bench.alloc, &mut bench.ctx)?;
    put_tree(bench, Op::<D>::get_operation(&reference))
}

// Makes room for the names of a new tree, so that none is left without a name where memory is refused.
fn make_room<D: OpSet>(bench: &mut Bench<D>) -> Result<(), Stop> {
    bench.made.ops.reserve(1)?;
    bench.made.regions.reserve(1)?;
    bench.made.blocks.reserve(1)?;
    Ok(())
}

// Names a new operation, its first region and that one's first block, and writes the name of the operation.
fn put_tree<D: OpSet>(bench: &mut Bench<D>, op: Ptr<Operation>) -> Result<(), Stop>
    requires { IsLive bench.old.ctx (AnyNode.Operation op) }
{
    let (ctx, made) = (&bench.ctx, &mut bench.made);
    made.ops.push(op)?;
    if let Some(region) = op.first_region(ctx) {
        made.regions.push(region)?;
        if let Some(block) = region.get_head(ctx) {
            made.blocks.push(block)?;
        }
    }
    bench.made.put_op(&mut bench.answer, Some(op));
    Ok(())
}

fn tell_typed<D: OpSet>(bench: &mut Bench<D>, line: Line<'_>) -> Result<(), Stop> {
    let (ctx, answer) = (&bench.ctx, &mut bench.answer);
    let op = bench.made.op(ctx, line.first)?;
    let func = FuncOp::from_operation(ctx, op).ok_or(Stop::Refused)?;
    if func.verify(ctx).is_err() {
        return Err(Stop::Refused);
    }
    let ty: TypeHandle = func.get_type(ctx).into();
    answer.put_truth(Typed::get_type(&func, ctx) == ty);
    Ok(())
}

fn verify<D: OpSet>(bench: &mut Bench<D>, line: Line<'_>) -> Result<(), Stop> {
    let (alloc, ctx, answer) = (bench.alloc, &bench.ctx, &mut bench.answer);
    let op = bench.made.op(ctx, line.first)?;
    if let Some(module) = ModuleOp::from_operation(ctx, op) {
        module.verify(ctx)?;
        answer.put("holds");
        return Ok(());
    }
    if let Some(func) = FuncOp::from_operation(ctx, op) {
        return put_verdict(answer, func.verify(ctx));
    }
    if let Some(reference) = ForwardRefOp::from_operation(ctx, op) {
        return put_verdict(answer, reference.verify(alloc, ctx));
    }
    let Some(constant) = ConstantOp::from_operation(ctx, op) else {
        return Err(Stop::Refused);
    };
    if op.get_num_results(ctx) != 1 {
        return Err(Stop::Refused);
    }
    put_verdict(answer, constant.verify(alloc, ctx))
}
