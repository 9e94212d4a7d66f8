//! Calls that build a tree, and test the conditions of what they call.
ghost use Rattle.std.specs.Prelude.{All, IfOk};
ghost use Rattle.plir_core.specs.ContextView.{IsValueLive};

use super::kinds::HasBoth;
use crate::view::ViewKind;
use joined_dialects::toy::ToyKind;
use plir_builtin::{ConstantOp, FuncOp, ModuleOp};
use plir_core::{BasicBlock, Context, IRNode, Operation, Ptr, Value};
use plir_data::{
    APInt, AttrObj, FunctionType, Identifier, IdentifierAttr, IntegerAttr, IntegerType, OpKind,
    OpSet, Signedness, TypeHandle, TypeStore, TypedHandle,
};
use plir_scripts::Stop;
use std::alloc::Global;

/// A module, its block, and the type of results: a byte.
#[derive(Drop)]
pub struct Place {
    pub module: Ptr<Operation>,
    pub block: Ptr<BasicBlock>,
    pub ty: TypeHandle,
}

// A new module, and the block in it.
fn new_module<D: OpSet>(
    alloc: Global,
    ctx: &mut Context<D>,
) -> Result<(Ptr<Operation>, Ptr<BasicBlock>), Stop> {
    let name = Identifier::try_new(alloc, "m")?;
    let module = ModuleOp::new(alloc, ctx, name)?.operation();
    let Some(region) = module.first_region(ctx) else {
        return Err(Stop::Refused);
    };
    match region.get_head(ctx) {
        Some(block) => Ok((module, block)),
        None => Err(Stop::Refused),
    }
}

/// A module to build in.
pub fn make_place<D: OpSet>(alloc: Global, ctx: &mut Context<D>) -> Result<Place, Stop> {
    let (module, block) = again!(new_module(alloc, ctx));
    let ty = again!(IntegerType::get(ctx, 8, Signedness::Signed)).into();
    Ok(Place { module, block, ty })
}

// The one result of each of some operations.
fn results_of<D: OpSet>(
    alloc: Global,
    ctx: &Context<D>,
    taken: &[Ptr<Operation>],
) -> Result<Vec<Value>, Stop>
    ensures { IfOk result (λ values. All (IsValueLive ctx.now) values.items) }
{
    let mut values = Vec::new(alloc);
    for op in taken {
        if !op.is_live(ctx) || op.get_num_results(ctx) != 1 {
            return Err(Stop::Refused);
        }
        values.push(op.get_result(ctx, 0))?;
    }
    Ok(values)
}

// A new operation that takes the one result of some, and has one result of a type, if there is one.
fn new_op<D: OpSet>(
    alloc: Global,
    ctx: &mut Context<D>,
    kind: D::Kind,
    ty: Option<TypeHandle>,
    taken: &[Ptr<Operation>],
) -> Result<Ptr<Operation>, Stop> {
    let mut types = Vec::new(alloc);
    if let Some(ty) = ty {
        types.push(ty)?;
    }
    let operands = results_of(alloc, ctx, taken)?;
    if !ctx.holds_types(types.as_slice()) {
        return Err(Stop::Refused);
    }
    let kind = OpKind::Own(kind);
    let blocks = Vec::new(alloc);
    Ok(Operation::new(alloc, ctx, kind, types, operands, blocks, 0)?)
}

// Puts an operation at the end of a block.
fn append<D: OpSet>(
    ctx: &mut Context<D>,
    op: Ptr<Operation>,
    block: Ptr<BasicBlock>,
) -> Result<(), Stop> {
    if !op.is_live(ctx) || !block.is_live(ctx) || op.get_parent_block(ctx).is_some() {
        return Err(Stop::Refused);
    }
    if IRNode::Operation(op).is_ancestor(ctx, IRNode::BasicBlock(block)) {
        return Err(Stop::Refused);
    }
    op.insert_at_back(ctx, block);
    Ok(())
}

/// A new operation at the end of the block, with the results of others as its operands and one result.
pub fn add<D: OpSet>(
    alloc: Global,
    ctx: &mut Context<D>,
    place: &Place,
    kind: D::Kind,
    taken: &[Ptr<Operation>],
) -> Result<Ptr<Operation>, Stop> {
    let op = again!(new_op(alloc, ctx, kind, Some(place.ty), taken));
    append(ctx, op, place.block)?;
    Ok(op)
}

/// The same without a result.
pub fn add_last<D: OpSet>(
    alloc: Global,
    ctx: &mut Context<D>,
    place: &Place,
    kind: D::Kind,
    taken: &[Ptr<Operation>],
) -> Result<Ptr<Operation>, Stop> {
    let op = again!(new_op(alloc, ctx, kind, None, taken));
    append(ctx, op, place.block)?;
    Ok(op)
}

// A new constant, of one byte.
fn new_constant<D: OpSet>(
    alloc: Global,
    ctx: &mut Context<D>,
    value: u64,
) -> Result<Ptr<Operation>, Stop> {
    let byte = IntegerType::get(ctx, 8, Signedness::Signed)?;
    let value = APInt::from_u64(value, 8).ok_or(Stop::Refused)?;
    let value: AttrObj<D> = AttrObj::Integer(IntegerAttr::new(byte, value));
    if !value.is_live(ctx) || value.typed().is_none() {
        return Err(Stop::Refused);
    }
    Ok(ConstantOp::new(alloc, ctx, value)?.operation())
}

/// A new constant at the end of the block.
pub fn add_constant<D: OpSet>(
    alloc: Global,
    ctx: &mut Context<D>,
    place: &Place,
    value: u64,
) -> Result<Ptr<Operation>, Stop> {
    let op = again!(new_constant(alloc, ctx, value));
    append(ctx, op, place.block)?;
    Ok(op)
}

/// Takes an operation away that no other uses.
pub fn erase<D: OpSet>(ctx: &mut Context<D>, op: Ptr<Operation>) -> Result<(), Stop> {
    if !op.is_live(ctx) {
        return Err(Stop::Refused);
    }
    if !IRNode::Operation(op).is_unused_outside(ctx) {
        return Err(Stop::Refused);
    }
    Operation::erase(op, ctx);
    Ok(())
}

/// A module that shows the sum of a value and the same value, and that sum.
pub fn build<D: HasBoth>(
    alloc: Global,
    ctx: &mut Context<D>,
) -> Result<(Place, Ptr<Operation>), Stop> {
    let place = make_place(alloc, ctx)?;
    let value = add(alloc, ctx, &place, D::toy(ToyKind::Neg), &[])?;
    let same = add(alloc, ctx, &place, D::view(ViewKind::Same), &[value])?;
    let sum = add(alloc, ctx, &place, D::toy(ToyKind::Add), &[value, same])?;
    add_last(alloc, ctx, &place, D::view(ViewKind::Show), &[sum])?;
    Ok((place, sum))
}

// A new function.
fn new_func<D: OpSet>(
    alloc: Global,
    ctx: &mut Context<D>,
    name: &str,
) -> Result<Ptr<Operation>, Stop> {
    let ty = FunctionType::get(ctx, Vec::new(alloc), Vec::new(alloc))?;
    let name = Identifier::try_new(alloc, name)?;
    Ok(FuncOp::new(alloc, ctx, name, ty)?.operation())
}

/// A new function at the end of the block.
pub fn add_func<D: OpSet>(
    alloc: Global,
    ctx: &mut Context<D>,
    place: &Place,
    name: &str,
) -> Result<Ptr<Operation>, Stop> {
    let op = again!(new_func(alloc, ctx, name));
    append(ctx, op, place.block)?;
    Ok(op)
}

/// Has an operation name what stands elsewhere.
pub fn set_name<D: OpSet>(
    alloc: Global,
    ctx: &mut Context<D>,
    op: Ptr<Operation>,
    name: &str,
) -> Result<(), Stop> {
    let key = Identifier::try_new(alloc, "to")?;
    let attr: AttrObj<D> = AttrObj::Identifier(IdentifierAttr::new(Identifier::try_new(
        alloc, name,
    )?));
    if !op.is_live(ctx) || !attr.is_live(ctx) {
        return Err(Stop::Refused);
    }
    Ok(op.set_attr(ctx, key, attr)?)
}
