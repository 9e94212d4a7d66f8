//! What stands in the text of an operation before its regions, and in that of a block before its operations.
ghost use Rattle.std.specs.Prelude.{◌<◌, ◌^◌, OnOk};
ghost use Rattle.plir_core.specs.declared.ptr.IRNode.{IRNode as AnyNode};
ghost use Rattle.plir_core.specs.ContextView.{IsLive, IsValueLive};
ghost use Rattle.plir_data.specs.TextParts.{Puts};
ghost use Rattle.plir_print.specs.HeaderAttrs.{HasHeader};
ghost use Rattle.plir_print.specs.OpText.{argument_text, arguments_text, block_front, op_front};
ghost use Rattle.plir_print.specs.OpText.{dictionary_apart, dictionary_line, results_text, space_text};

use crate::dictionaries::{put_dictionary, shows_some};
use crate::headers::{put_header, put_names, put_value_type};
use crate::layout::put_line;
use crate::names::{put_block_name, put_value};
use crate::values::{ValueList, num_values, value_at};
use plir_core::{BasicBlock, Context, Operation, Ptr, Value};
use plir_data::put::{put, put_between};
use plir_data::{Memory, OpKind, OpSet};
use std::alloc::Global;

// Puts the names of the results and ` = `, where there are results.
fn put_results<D: OpSet>(
    out: &mut String,
    ctx: &Context<D>,
    op: Ptr<Operation>,
) -> Result<(), Memory>
    requires { IsLive ctx.now (AnyNode.Operation op) }
    ensures { OnOk result (Puts out.old out.new (results_text ctx.now op)) }
{
    put_names(out, ctx, ValueList::Results(op))?;
    if op.get_num_results(ctx) > 0 {
        put(out, " = ")?;
    }
    Ok(())
}

// Puts the space behind a header.
fn put_space<D: OpSet>(out: &mut String, ctx: &Context<D>, op: Ptr<Operation>) -> Result<(), Memory>
    requires { IsLive ctx.now (AnyNode.Operation op) }
    ensures { OnOk result (Puts out.old out.new (space_text ctx.now op)) }
{
    match op.kind(ctx) {
        OpKind::Module => put(out, " "),
        OpKind::Func => put(out, " "),
        OpKind::Constant => Ok(()),
        OpKind::ForwardRef => Ok(()),
        OpKind::Own(_) => match op.first_region(ctx) {
            Some(_) => put(out, " "),
            None => Ok(()),
        },
    }
}

// Puts the dictionary of an operation on a line of its own, if it has entries.
fn put_dictionary_line<D: OpSet>(
    out: &mut String,
    alloc: Global,
    ctx: &Context<D>,
    indent: usize,
    op: Ptr<Operation>,
) -> Result<(), Memory>
    requires live { IsLive ctx.now (AnyNode.Operation op) }
    requires fits { indent < 2 ^ 40 }
    ensures { OnOk result (Puts out.old out.new (dictionary_line D.OpSet ctx.now indent op)) }
{
    if shows_some(op.kind(ctx), op.attributes(ctx)) {
        put_line(out, indent + 2)?;
        put_dictionary(out, alloc, ctx, op)?;
    }
    Ok(())
}

// Puts the dictionary of a module or a function.
fn put_dictionary_apart<D: OpSet>(
    out: &mut String,
    alloc: Global,
    ctx: &Context<D>,
    indent: usize,
    op: Ptr<Operation>,
) -> Result<(), Memory>
    requires live { IsLive ctx.now (AnyNode.Operation op) }
    requires fits { indent < 2 ^ 40 }
    ensures { OnOk result (Puts out.old out.new (dictionary_apart D.OpSet ctx.now indent op)) }
{
    match op.kind(ctx) {
        OpKind::Module => put_dictionary_line(out, alloc, ctx, indent, op),
        OpKind::Func => put_dictionary_line(out, alloc, ctx, indent, op),
        OpKind::Constant => Ok(()),
        OpKind::ForwardRef => Ok(()),
        OpKind::Own(_) => Ok(()),
    }
}

/// Puts what stands before the regions of an operation.
pub(crate) fn put_op_front<D: OpSet>(
    out: &mut String,
    alloc: Global,
    ctx: &Context<D>,
    indent: usize,
    op: Ptr<Operation>,
) -> Result<(), Memory>
    requires live { IsLive ctx.now (AnyNode.Operation op) }
    requires header { HasHeader ctx.now op }
    requires fits { indent < 2 ^ 40 }
    ensures { OnOk result (Puts out.old out.new (op_front D.OpSet ctx.now indent op)) }
{
    put_results(out, ctx, op)?;
    put_header(out, alloc, ctx, op)?;
    put_space(out, ctx, op)?;
    put_dictionary_apart(out, alloc, ctx, indent, op)?;
    Ok(())
}

// Puts an argument with its type.
fn put_argument<D: OpSet>(
    out: &mut String,
    alloc: Global,
    ctx: &Context<D>,
    argument: Value,
) -> Result<(), Memory>
    requires { IsValueLive ctx.now argument }
    ensures { OnOk result (Puts out.old out.new (argument_text D.OpSet ctx.now argument)) }
{
    put_value(out, ctx, argument)?;
    put(out, ": ")?;
    put_value_type(out, alloc, ctx, argument)?;
    Ok(())
}

// Puts the arguments of a block, with a comma and a space between them.
fn put_arguments<D: OpSet>(
    out: &mut String,
    alloc: Global,
    ctx: &Context<D>,
    block: Ptr<BasicBlock>,
) -> Result<(), Memory>
    requires { IsLive ctx.now (AnyNode.BasicBlock block) }
    ensures { OnOk result (Puts out.old out.new (arguments_text D.OpSet ctx.now block)) }
{
    let arguments = ValueList::Arguments(block);
    let mut is_first = true;
    'arguments: for place in 0..num_values(ctx, arguments) {
        put_between(out, is_first, ", ")?;
        put_argument(out, alloc, ctx, value_at(ctx, arguments, place))?;
        is_first = false;
    }
    Ok(())
}

/// Puts what stands before the operations of a block, as `^block1v1():`.
pub(crate) fn put_block_front<D: OpSet>(
    out: &mut String,
    alloc: Global,
    ctx: &Context<D>,
    block: Ptr<BasicBlock>,
) -> Result<(), Memory>
    requires { IsLive ctx.now (AnyNode.BasicBlock block) }
    ensures { OnOk result (Puts out.old out.new (block_front D.OpSet ctx.now block)) }
{
    put(out, "^")?;
    put_block_name(out, ctx, block)?;
    put(out, "(")?;
    put_arguments(out, alloc, ctx, block)?;
    put(out, "):")?;
    Ok(())
}
