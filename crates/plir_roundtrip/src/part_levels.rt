//! How many levels the parts of an operation have as they are written. Each test asks for fewer levels than `left`,
//! since the operation itself is a level.
ghost use Rattle.std.specs.Prelude.{◌≡◌, ◌↔◌, ◌<◌, ◌≤◌, IsTrue, Some};
ghost use Rattle.plir_data.specs.AttrLive.{HandlesLive, IsAttrLive};
ghost use Rattle.plir_data.specs.AttrSeen.{attr_view};
ghost use Rattle.plir_data.specs.TypeTree.{tree_of};
ghost use Rattle.plir_data.specs.Types.{IsLive as IsTypeLive};
ghost use Rattle.plir_core.specs.declared.ptr.IRNode.{IRNode as AnyNode};
ghost use Rattle.plir_data.specs.declared.op_set.OpKind.{OpKind};
ghost use Rattle.plir_core.specs.ContextView.{IsLive, entity_node, kind_of, operands_of};
ghost use Rattle.plir_attr_text.specs.Terms.{entries_levels, levels, type_levels};
ghost use Rattle.plir_attr_text.specs.Writable.{type_term};
ghost use Rattle.plir_builtin.specs.BuiltinOps.{func_type_of, value_of};
ghost use Rattle.plir_print.specs.Dictionaries.{is_shown};
ghost use Rattle.plir_print.specs.ValueNames.{values_from};
ghost use Rattle.plir_read.specs.OpTerms.{head_levels, header_levels};
ghost use Rattle.plir_read_own.specs.OwnTerms.{header_levels as own_levels};
ghost use Rattle.plir_read_ir.specs.IrTerms.{front_levels};
ghost use Rattle.plir_roundtrip.specs.IrWritten.{front_of, own_header};
ghost use Rattle.plir_roundtrip.specs.Written.{some_type_term, some_attr_term};
ghost use Rattle.plir_roundtrip.specs.Written.{head_term, header_term, dictionary_term};
ghost use Rattle.plir_roundtrip.specs.WrittenLevels.{entry_level, result_levels, shown_levels, value_levels};

use crate::values::{num_values, type_at};
use plir_attr_text::is_within_levels;
use plir_builtin::find_func_type;
use plir_core::{Context, DefiningEntity, Operation, Ptr};
use plir_data::{AttrObj, AttributeDict, OpKind, OpSet, TypeAttr, TypeHandle};
use plir_print::{find_value, is_shown};

// A type: as an attribute it has one level more.
fn is_type_below<D: OpSet>(ctx: &Context<D>, handle: TypeHandle, left: usize) -> bool
    requires { IsTypeLive ctx.now.types handle }
    ensures { IsTrue result ↔ (type_levels (type_term (tree_of ctx.now.types handle)) < left) }
{
    let attr = AttrObj::Type(TypeAttr::new(handle));
    is_within_levels(ctx, &attr, left)
}

// The type of a function.
fn is_func_type_below<D: OpSet>(ctx: &Context<D>, op: Ptr<Operation>, left: usize) -> bool
    requires { IsLive ctx.now (AnyNode.Operation op) }
    ensures { IsTrue result ↔ (type_levels (some_type_term ctx.now.types (func_type_of ctx.now op)) < left) }
{
    match find_func_type(ctx, op) {
        Some(handle) => is_type_below(ctx, handle, left),
        None => left > 1,
    }
}

// The type of the first result.
fn is_result_below<D: OpSet>(ctx: &Context<D>, op: Ptr<Operation>, left: usize) -> bool
    requires { IsLive ctx.now (AnyNode.Operation op) }
    ensures { IsTrue result ↔ (result_levels ctx.now op < left) }
{
    if op.get_num_results(ctx) > 0 {
        is_type_below(ctx, op.get_type(ctx, 0), left)
    } else {
        left > 1
    }
}

// The value of a constant.
fn is_value_below<D: OpSet>(ctx: &Context<D>, op: Ptr<Operation>, left: usize) -> bool
    requires live { IsLive ctx.now (AnyNode.Operation op) }
    requires some { 0 < left }
    ensures { IsTrue result ↔ (levels (some_attr_term ctx.now.types (value_of ctx.now op)) < left) }
{
    match find_value(ctx, op) {
        Some(value) => is_within_levels(ctx, value, left - 1),
        None => left > 1,
    }
}

// The value of a constant, and the type of its result.
fn is_constant_below<D: OpSet>(ctx: &Context<D>, op: Ptr<Operation>, left: usize) -> bool
    requires live { IsLive ctx.now (AnyNode.Operation op) }
    requires some { 0 < left }
    ensures { IsTrue result ↔ (front_levels (front_of D.OpSet ctx.now (Some OpKind.Constant) op) < left) }
{
    let is_value = is_value_below(ctx, op, left);
    let is_result = is_result_below(ctx, op, left);
    is_value && is_result
}

// An entry, which has no level where it is not printed.
fn is_entry_below<D: OpSet>(
    ctx: &Context<D>,
    kind: OpKind<D::Kind>,
    key: &str,
    value: &AttrObj<D>,
    left: usize,
) -> bool
    requires live { IsAttrLive D.attr_handles ctx.now.types (attr_view value.now) }
    requires some { 0 < left }
    ensures { IsTrue result ↔ (entry_level D.OpSet ctx.now.types (Some kind) (key.now, attr_view value.now) < left) }
{
    if !is_shown(kind, key, value) {
        return true;
    }
    is_within_levels(ctx, value, left - 1)
}

// The entries of the dictionary that is printed.
fn are_shown_below<D: OpSet>(
    ctx: &Context<D>,
    kind: OpKind<D::Kind>,
    dict: &AttributeDict<D>,
    left: usize,
) -> bool
    requires live { HandlesLive D.attr_handles ctx.now.types dict.now }
    requires some { 0 < left }
    ensures { IsTrue result ↔ (shown_levels D.OpSet ctx.now.types (Some kind) dict.now < left) }
{
    'entries: for (key, value) in dict.iter() {
        if !is_entry_below(ctx, kind, key.as_str(), value, left) {
            return false;
        }
    }
    true
}

// The dictionary of a module or a function.
fn is_dictionary_below<D: OpSet>(ctx: &Context<D>, op: Ptr<Operation>, left: usize) -> bool
    requires live { IsLive ctx.now (AnyNode.Operation op) }
    requires some { 0 < left }
    ensures { IsTrue result ↔ (entries_levels (dictionary_term D.OpSet ctx.now op) < left) }
{
    are_shown_below(ctx, op.kind(ctx), op.attributes(ctx), left)
}

// What stands before the dictionary of a module or a function.
fn is_head_below<D: OpSet>(ctx: &Context<D>, op: Ptr<Operation>, left: usize) -> bool
    requires live { IsLive ctx.now (AnyNode.Operation op) }
    requires some { 0 < left }
    ensures { IsTrue result ↔ (head_levels (head_term ctx.now (kind_of ctx.now op) op) < left) }
{
    match op.kind(ctx) {
        OpKind::Module => true,
        OpKind::Func => is_func_type_below(ctx, op, left),
        OpKind::Constant => true,
        OpKind::ForwardRef => true,
        OpKind::Own(_) => true,
    }
}

// What stands before the blocks of a module or a function.
fn is_header_below<D: OpSet>(ctx: &Context<D>, op: Ptr<Operation>, left: usize) -> bool
    requires live { IsLive ctx.now (AnyNode.Operation op) }
    requires some { 0 < left }
    ensures { IsTrue result ↔ (header_levels (header_term D.OpSet ctx.now (kind_of ctx.now op) op) < left) }
{
    let is_head = is_head_below(ctx, op, left);
    let is_dictionary = is_dictionary_below(ctx, op, left);
    is_head && is_dictionary
}

/// The types of results or arguments.
pub(crate) fn are_types_below<D: OpSet>(
    ctx: &Context<D>,
    entity: DefiningEntity,
    left: usize,
) -> bool
    requires live { IsLive ctx.now (entity_node entity) }
    requires some { 0 < left }
    ensures { IsTrue result ↔ (value_levels ctx.now (values_from ctx.now entity) < left) }
{
    'places: for place in 0..num_values(ctx, entity) {
        if !is_type_below(ctx, type_at(ctx, entity, place), left) {
            return false;
        }
    }
    true
}

// The types of operands.
fn are_operands_below<D: OpSet>(ctx: &Context<D>, op: Ptr<Operation>, left: usize) -> bool
    requires live { IsLive ctx.now (AnyNode.Operation op) }
    requires some { 0 < left }
    ensures { IsTrue result ↔ (value_levels ctx.now (operands_of ctx.now op) < left) }
{
    'operands: for place in 0..op.get_num_operands(ctx) {
        if !is_type_below(ctx, op.get_operand(ctx, place).get_type(ctx), left) {
            return false;
        }
    }
    true
}

// What stands before the regions of an operation of one's own kind.
fn is_own_header_below<D: OpSet>(
    ctx: &Context<D>,
    kind: D::Kind,
    op: Ptr<Operation>,
    left: usize,
) -> bool
    requires live { IsLive ctx.now (AnyNode.Operation op) }
    requires some { 0 < left }
    ensures { IsTrue result ↔ (own_levels (own_header D.OpSet ctx.now kind op) < left) }
{
    let is_dictionary = is_dictionary_below(ctx, op, left);
    let are_operands = are_operands_below(ctx, op, left);
    let are_results = are_types_below(ctx, DefiningEntity::Op(op), left);
    is_dictionary && are_operands && are_results
}

/// What stands before the regions of an operation.
pub(crate) fn is_front_below<D: OpSet>(ctx: &Context<D>, op: Ptr<Operation>, left: usize) -> bool
    requires live { IsLive ctx.now (AnyNode.Operation op) }
    requires some { 0 < left }
    ensures { IsTrue result ↔ (front_levels (front_of D.OpSet ctx.now (kind_of ctx.now op) op) < left) }
{
    match op.kind(ctx) {
        OpKind::Module => is_header_below(ctx, op, left),
        OpKind::Func => is_header_below(ctx, op, left),
        OpKind::Constant => is_constant_below(ctx, op, left),
        OpKind::ForwardRef => true,
        OpKind::Own(kind) => is_own_header_below(ctx, kind, op, left),
    }
}
