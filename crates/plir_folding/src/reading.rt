//! What is known of values: constants, and what operations on constants fold to.
ghost use Rattle.std.specs.Prelude.{◌≡◌, IfSome, option_map};
ghost use Rattle.std.specs.Option.{unwrap_or};
ghost use Rattle.plir_data.specs.declared.location.Location.TheVariants as locations;
ghost use Rattle.plir_data.specs.AttrSeen.{attr_view};
ghost use Rattle.plir_data.specs.Types.{IsLive as IsTypeLive};
ghost use Rattle.plir_core.specs.declared.ptr.IRNode.{IRNode as AnyNode};
ghost use Rattle.plir_core.specs.ContextView.{IsLive, IsValueLive, op_at, operands_of};
ghost use Rattle.plir_folding.specs.Worth.{constant_in, constant_of, folded, folded_in, integer_of, maker_of};
ghost use Rattle.plir_folding.specs.Worth.{integer_in, of_both, of_two};
ghost use Rattle.plir_folding.specs.Folded.{written_at};

use crate::fold_set::FoldSet;
use plir_builtin::ATTR_KEY_CONSTANT_VALUE;
use plir_core::{Context, DefiningEntity, Operation, Ptr, Value};
use plir_data::{AttrObj, IntegerAttr, Location, OpKind, OpSet};

/// The operation whose first result a value is, if it is one.
pub fn maker_of<D: OpSet>(ctx: &Context<D>, value: Value) -> Option<Ptr<Operation>>
    requires { IsValueLive ctx.now value }
    ensures maker { result ≡ maker_of value }
    ensures live { IfSome result (λ op. IsLive ctx.now (AnyNode.Operation op)) }
{
    let _live = value.is_live(ctx);
    match value.defining_entity() {
        DefiningEntity::Op(op) if value.index() == 0 => Some(op),
        _ => None,
    }
}

/// Where the operation was written whose first result a value is, if it is one and that is known.
pub(crate) fn written_at<D: OpSet>(ctx: &Context<D>, value: Value) -> Location
    requires { IsValueLive ctx.now value }
    ensures { result ≡ unwrap_or (written_at ctx.now value) locations.Unknown }
{
    match maker_of(ctx, value) {
        Some(op) => op.loc(ctx),
        None => Location::Unknown,
    }
}

// The integer that an attribute is, if it is one.
fn integer_in<D: OpSet>(attr: &AttrObj<D>) -> Option<IntegerAttr>
    ensures { option_map integer_of result ≡ integer_in (attr_view attr.now) }
{
    match attr {
        AttrObj::Integer(held) => Some(*held),
        _ => None,
    }
}

// The integer that an operation is a constant of, if it is one.
pub(crate) fn constant_in<D: OpSet>(ctx: &Context<D>, op: Ptr<Operation>) -> Option<IntegerAttr>
    requires { IsLive ctx.now (AnyNode.Operation op) }
    ensures { option_map integer_of result ≡ constant_in (op_at ctx.now op) }
{
    if !matches!(op.kind(ctx), OpKind::Constant) {
        return None;
    }
    match op.attributes(ctx).get(ATTR_KEY_CONSTANT_VALUE) {
        Some(attr) => integer_in(attr),
        None => None,
    }
}

/// The integer that a value is a constant of, if it is one.
pub(crate) fn constant_of<D: OpSet>(ctx: &Context<D>, value: Value) -> Option<IntegerAttr>
    requires { IsValueLive ctx.now value }
    ensures { option_map integer_of result ≡ constant_of ctx.now value }
{
    match maker_of(ctx, value) {
        Some(op) => constant_in(ctx, op),
        None => None,
    }
}

// What an operation of a kind makes of its operands, if these are two constants.
fn folded_operands<D: FoldSet>(
    ctx: &Context<D>,
    op: Ptr<Operation>,
    kind: D::Kind,
) -> Option<IntegerAttr>
    requires { IsLive ctx.now (AnyNode.Operation op) }
    ensures { option_map integer_of result ≡ of_two (λ x y. of_both (D.fold kind) (constant_of ctx.now x)
        (constant_of ctx.now y)) (operands_of ctx.now op) }
{
    if op.get_num_operands(ctx) != 2 {
        return None;
    }
    let Some(left) = constant_of(ctx, op.get_operand(ctx, 0)) else {
        return None;
    };
    let Some(right) = constant_of(ctx, op.get_operand(ctx, 1)) else {
        return None;
    };
    D::fold(kind, &left, &right)
}

// What the result of an operation folds to, if it does.
fn folded_in<D: FoldSet>(ctx: &Context<D>, op: Ptr<Operation>) -> Option<IntegerAttr>
    requires { IsLive ctx.now (AnyNode.Operation op) }
    ensures value { option_map integer_of result ≡ folded_in D.fold (constant_of ctx.now) (op_at ctx.now op) }
    ensures live { IfSome result (λ a. IsTypeLive ctx.now.types a.ty) }
{
    let OpKind::Own(kind) = op.kind(ctx) else {
        return None;
    };
    let Some(held) = folded_operands(ctx, op, kind) else {
        return None;
    };
    if op.get_num_results(ctx) != 1 || op.get_type(ctx, 0) != held.get_type().into() {
        return None;
    }
    Some(held)
}

/// What a value folds to, if it does.
pub fn folded<D: FoldSet>(ctx: &Context<D>, value: Value) -> Option<IntegerAttr>
    requires { IsValueLive ctx.now value }
    ensures value { option_map integer_of result ≡ folded D.fold ctx.now value }
    ensures live { IfSome result (λ a. IsTypeLive ctx.now.types a.ty) }
{
    match maker_of(ctx, value) {
        Some(op) => folded_in(ctx, op),
        None => None,
    }
}
