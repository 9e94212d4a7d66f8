//! The calls that make builtin operations and name values.
ghost use Rattle.std.specs.Prelude.{IfOk};
ghost use Rattle.plir_core.specs.ContextView.{IsLive};
ghost use Rattle.plir_core.specs.declared.ptr.IRNode.{IRNode as AnyNode};

use plir_attr_text::read_attr;
use plir_builtin::{ConstantOp, FuncOp, ModuleOp};
use plir_core::{DefiningEntity, Operation, Ptr};
use plir_data::{FunctionType, Identifier, OpSet, TypedHandle};
use plir_iface::Op;
use plir_scripts::{Bench, Line, Stop};
use plir_walk::GivenNamesErr;
use plir_walk::given_names::{set_block_arg_name, set_operation_result_name};

/// Makes what a line says and writes its name: `module NAME`, `func NAME TYPE` or `constant ATTRIBUTE`.
pub fn make<D: OpSet>(bench: &mut Bench<D>, line: Line<'_>) -> Result<(), Stop> {
    bench.made.ops.reserve(1)?;
    bench.made.regions.reserve(1)?;
    bench.made.blocks.reserve(1)?;
    let op = match line.command {
        "module" => new_module(bench, line)?,
        "func" => new_func(bench, line)?,
        _ => new_constant(bench, line)?,
    };
    note_tree(bench, op)?;
    bench.made.put_op(&mut bench.answer, Some(op));
    Ok(())
}

fn new_module<D: OpSet>(bench: &mut Bench<D>, line: Line<'_>) -> Result<Ptr<Operation>, Stop>
    ensures { IfOk result (λ op. IsLive bench.new.ctx (AnyNode.Operation op)) }
{
    let name = Identifier::try_new(bench.alloc, line.first)?;
    let module = ModuleOp::new(bench.alloc, &mut bench.ctx, name)?;
    Ok(Op::<D>::get_operation(&module))
}

fn new_func<D: OpSet>(bench: &mut Bench<D>, line: Line<'_>) -> Result<Ptr<Operation>, Stop>
    ensures { IfOk result (λ op. IsLive bench.new.ctx (AnyNode.Operation op)) }
{
    let name = Identifier::try_new(bench.alloc, line.first)?;
    let handle = bench.made.type_named(&bench.ctx, line.second)?;
    let ty: TypedHandle<FunctionType> = TypedHandle::from_handle(handle, &bench.ctx).ok_or(
        Stop::Refused,
    )?;
    let func = FuncOp::new(bench.alloc, &mut bench.ctx, name, ty)?;
    Ok(Op::<D>::get_operation(&func))
}

fn new_constant<D: OpSet>(bench: &mut Bench<D>, line: Line<'_>) -> Result<Ptr<Operation>, Stop>
    ensures { IfOk result (λ op. IsLive bench.new.ctx (AnyNode.Operation op)) }
{
    let value = read_attr(bench.alloc, &mut bench.ctx, line.text)?;
    if value.typed().is_none() {
        return Err(Stop::Refused);
    }
    let constant = ConstantOp::new(bench.alloc, &mut bench.ctx, value)?;
    Ok(Op::<D>::get_operation(&constant))
}

// Notes a new operation, its first region and that one's first block.
fn note_tree<D: OpSet>(bench: &mut Bench<D>, op: Ptr<Operation>) -> Result<(), Stop>
    requires { IsLive bench.old.ctx (AnyNode.Operation op) }
{
    let (ctx, made) = (&bench.ctx, &mut bench.made);
    made.ops.push(op)?;
    let Some(region) = op.first_region(ctx) else {
        return Ok(());
    };
    made.regions.push(region)?;
    if let Some(block) = region.get_head(ctx) {
        made.blocks.push(block)?;
    }
    Ok(())
}

/// Names a result or an argument: `name VALUE NAME`.
pub fn name<D: OpSet>(bench: &mut Bench<D>, line: Line<'_>) -> Result<(), Stop> {
    let (alloc, ctx) = (bench.alloc, &mut bench.ctx);
    let value = bench.made.value(ctx, line.first)?;
    let place = value.index();
    let name = Some(Identifier::try_new(alloc, line.second)?);
    let named = match value.defining_entity() {
        DefiningEntity::Op(op) => set_operation_result_name(alloc, ctx, op, place, name),
        DefiningEntity::Block(block) => set_block_arg_name(alloc, ctx, block, place, name),
    };
    match named {
        Ok(()) => Ok(()),
        Err(GivenNamesErr::Memory) => Err(Stop::Memory),
        Err(GivenNamesErr::GivenNamesIncorrect) => Err(Stop::Refused),
    }
}
