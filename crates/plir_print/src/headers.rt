//! The headers of operations.
ghost use Rattle.std.specs.Prelude.{◌≡◌, true, Some, OnOk, is_some};
ghost use Rattle.plir_data.specs.TypeText.{type_text};
ghost use Rattle.plir_data.specs.Types.{IsLive as IsTypeLive};
ghost use Rattle.plir_data.specs.declared.op_set.OpKind.{OpKind as AnyKind};
ghost use Rattle.plir_core.specs.declared.ptr.IRNode.{IRNode as AnyNode};
ghost use Rattle.plir_core.specs.ContextView.{IsLive, IsValueLive, op_at};
ghost use Rattle.plir_builtin.specs.Symbols.{name_held};
ghost use Rattle.plir_print.specs.HeaderAttrs.{HasHeader, has_header_of};
ghost use Rattle.plir_print.specs.Headers.{header, header_of, names_text, signature_text, successor_text};
ghost use Rattle.plir_print.specs.Headers.{successors_text, symbol_text, types_text, uses_text, value_type_text};
ghost use Rattle.plir_data.specs.TextParts.{Puts};
ghost use Rattle.plir_print.specs.ValueLists.{holder, values_in};

use crate::dictionaries::{put_attr, put_dictionary};
use crate::header_attrs::find_value;
use crate::names::{put_block_name, put_value};
use crate::values::{ValueList, num_values, value_at};
use plir_builtin::{find_func_type, symbol_name};
use plir_core::{BasicBlock, Context, Operation, Ptr, Value};
use plir_data::put::{put, put_between};
use plir_data::{Memory, OpKind, OpSet, TypeHandle, type_text};
use std::alloc::Global;

// Puts the text of a type.
fn put_type<D: OpSet>(
    out: &mut String,
    alloc: Global,
    ctx: &Context<D>,
    handle: TypeHandle,
) -> Result<(), Memory>
    requires { IsTypeLive ctx.now.types handle }
    ensures { OnOk result (Puts out.old out.new (type_text D.type_id D.type_body_text ctx.now.types handle)) }
{
    let text = type_text(alloc, ctx, handle)?;
    put(out, text.as_str())
}

/// Puts the text of the type of a value.
pub(crate) fn put_value_type<D: OpSet>(
    out: &mut String,
    alloc: Global,
    ctx: &Context<D>,
    value: Value,
) -> Result<(), Memory>
    requires { IsValueLive ctx.now value }
    ensures { OnOk result (Puts out.old out.new (value_type_text D.OpSet ctx.now value)) }
{
    put_type(out, alloc, ctx, value.get_type(ctx))
}

/// Puts the names of values, with a comma and a space between them.
pub(crate) fn put_names<D: OpSet>(
    out: &mut String,
    ctx: &Context<D>,
    list: ValueList,
) -> Result<(), Memory>
    requires { IsLive ctx.now (holder list) }
    ensures { OnOk result (Puts out.old out.new (names_text ctx.now (values_in ctx.now list))) }
{
    let mut is_first = true;
    'names: for place in 0..num_values(ctx, list) {
        put_between(out, is_first, ", ")?;
        put_value(out, ctx, value_at(ctx, list, place))?;
        is_first = false;
    }
    Ok(())
}

// Puts the types of values, with a comma and a space between them.
fn put_types<D: OpSet>(
    out: &mut String,
    alloc: Global,
    ctx: &Context<D>,
    list: ValueList,
) -> Result<(), Memory>
    requires { IsLive ctx.now (holder list) }
    ensures { OnOk result (Puts out.old out.new (types_text D.OpSet ctx.now (values_in ctx.now list))) }
{
    let mut is_first = true;
    'types: for place in 0..num_values(ctx, list) {
        put_between(out, is_first, ", ")?;
        put_value_type(out, alloc, ctx, value_at(ctx, list, place))?;
        is_first = false;
    }
    Ok(())
}

// Puts a successor.
fn put_successor<D: OpSet>(
    out: &mut String,
    ctx: &Context<D>,
    block: Ptr<BasicBlock>,
) -> Result<(), Memory>
    requires { IsLive ctx.now (AnyNode.BasicBlock block) }
    ensures { OnOk result (Puts out.old out.new (successor_text ctx.now block)) }
{
    put(out, "^")?;
    put_block_name(out, ctx, block)?;
    Ok(())
}

// Puts the successors of an operation, with a comma and a space between them.
fn put_successors<D: OpSet>(
    out: &mut String,
    ctx: &Context<D>,
    op: Ptr<Operation>,
) -> Result<(), Memory>
    requires { IsLive ctx.now (AnyNode.Operation op) }
    ensures { OnOk result (Puts out.old out.new (successors_text ctx.now op)) }
{
    let mut is_first = true;
    'successors: for place in 0..op.get_num_successors(ctx) {
        put_between(out, is_first, ", ")?;
        put_successor(out, ctx, op.get_successor(ctx, place))?;
        is_first = false;
    }
    Ok(())
}

// Puts an id, the operands and the successors.
fn put_uses<D: OpSet>(
    out: &mut String,
    ctx: &Context<D>,
    id: &str,
    op: Ptr<Operation>,
) -> Result<(), Memory>
    requires { IsLive ctx.now (AnyNode.Operation op) }
    ensures { OnOk result (Puts out.old out.new (uses_text ctx.now id.now op)) }
{
    put(out, id)?;
    put(out, " (")?;
    put_names(out, ctx, ValueList::Operands(op))?;
    put(out, ") [")?;
    put_successors(out, ctx, op)?;
    put(out, "] ")?;
    Ok(())
}

// Puts the types of the operands and of the results.
fn put_signature<D: OpSet>(
    out: &mut String,
    alloc: Global,
    ctx: &Context<D>,
    op: Ptr<Operation>,
) -> Result<(), Memory>
    requires { IsLive ctx.now (AnyNode.Operation op) }
    ensures { OnOk result (Puts out.old out.new (signature_text D.OpSet ctx.now op)) }
{
    put(out, "<(")?;
    put_types(out, alloc, ctx, ValueList::Operands(op))?;
    put(out, ")->(")?;
    put_types(out, alloc, ctx, ValueList::Results(op))?;
    put(out, ")>")?;
    Ok(())
}

// Puts `@` and the name of a module or a function.
fn put_symbol<D: OpSet>(
    out: &mut String,
    ctx: &Context<D>,
    op: Ptr<Operation>,
) -> Result<(), Memory>
    requires live { IsLive ctx.now (AnyNode.Operation op) }
    requires named { is_some (name_held (op_at ctx.now op)) ≡ true }
    ensures { OnOk result (Puts out.old out.new (symbol_text ctx.now op)) }
{
    let name = symbol_name(ctx, op).unwrap();
    put(out, "@")?;
    put(out, name.as_str())?;
    Ok(())
}

fn put_func<D: OpSet>(
    out: &mut String,
    alloc: Global,
    ctx: &Context<D>,
    op: Ptr<Operation>,
) -> Result<(), Memory>
    requires live { IsLive ctx.now (AnyNode.Operation op) }
    requires header { has_header_of ctx.now (Some AnyKind.Func) op ≡ true }
    ensures { OnOk result (Puts out.old out.new (header_of D.OpSet ctx.now (Some AnyKind.Func) op)) }
{
    let ty = find_func_type(ctx, op).unwrap();
    put(out, "builtin.func ")?;
    put_symbol(out, ctx, op)?;
    put(out, ": ")?;
    put_type(out, alloc, ctx, ty)?;
    Ok(())
}

fn put_constant<D: OpSet>(
    out: &mut String,
    alloc: Global,
    ctx: &Context<D>,
    op: Ptr<Operation>,
) -> Result<(), Memory>
    requires live { IsLive ctx.now (AnyNode.Operation op) }
    requires header { has_header_of ctx.now (Some AnyKind.Constant) op ≡ true }
    ensures { OnOk result (Puts out.old out.new (header_of D.OpSet ctx.now (Some AnyKind.Constant) op)) }
{
    let value = find_value(ctx, op).unwrap();
    put(out, "builtin.constant <")?;
    put_attr(out, alloc, ctx, value)?;
    put(out, "> : ")?;
    put_type(out, alloc, ctx, op.get_type(ctx, 0))?;
    Ok(())
}

// Puts the header of an operation of the user's own.
fn put_own<D: OpSet>(
    out: &mut String,
    alloc: Global,
    ctx: &Context<D>,
    kind: D::Kind,
    op: Ptr<Operation>,
) -> Result<(), Memory>
    requires { IsLive ctx.now (AnyNode.Operation op) }
    ensures { OnOk result (Puts out.old out.new (header_of D.OpSet ctx.now (Some (AnyKind.Own kind)) op)) }
{
    put_uses(out, ctx, D::kind_id(kind), op)?;
    put_dictionary(out, alloc, ctx, op)?;
    put(out, ": ")?;
    put_signature(out, alloc, ctx, op)?;
    Ok(())
}

// Puts the header of an operation of a kind.
fn put_header_of<D: OpSet>(
    out: &mut String,
    alloc: Global,
    ctx: &Context<D>,
    kind: OpKind<D::Kind>,
    op: Ptr<Operation>,
) -> Result<(), Memory>
    requires live { IsLive ctx.now (AnyNode.Operation op) }
    requires header { has_header_of ctx.now (Some kind) op ≡ true }
    ensures { OnOk result (Puts out.old out.new (header_of D.OpSet ctx.now (Some kind) op)) }
{
    match kind {
        OpKind::Module => {
            put(out, "builtin.module ")?;
            put_symbol(out, ctx, op)?;
            Ok(())
        }
        OpKind::Func => put_func(out, alloc, ctx, op),
        OpKind::Constant => put_constant(out, alloc, ctx, op),
        OpKind::ForwardRef => put(out, "builtin.forward_ref"),
        OpKind::Own(kind) => put_own(out, alloc, ctx, kind, op),
    }
}

/// Puts the header of an operation, without a space at its end.
pub(crate) fn put_header<D: OpSet>(
    out: &mut String,
    alloc: Global,
    ctx: &Context<D>,
    op: Ptr<Operation>,
) -> Result<(), Memory>
    requires live { IsLive ctx.now (AnyNode.Operation op) }
    requires header { HasHeader ctx.now op }
    ensures { OnOk result (Puts out.old out.new (header D.OpSet ctx.now op)) }
{
    put_header_of(out, alloc, ctx, op.kind(ctx), op)
}
