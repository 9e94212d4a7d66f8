//! The names of values and blocks.
ghost use Rattle.std.specs.Prelude.{OnOk, option_map};
ghost use Rattle.plir_core.specs.declared.ptr.IRNode.{IRNode as AnyNode};
ghost use Rattle.plir_core.specs.ContextView.{IsLive, IsValueLive};
ghost use Rattle.plir_builtin.specs.ResultNames.{given_first, result_name};
ghost use Rattle.plir_data.specs.TextParts.{Puts};
ghost use Rattle.plir_print.specs.ValueNames.{argument_name, block_name, value_name};

use plir_core::{BasicBlock, Context, DefiningEntity, Operation, Ptr, Value};
use plir_data::put::put;
use plir_data::{Identifier, Memory, OpSet};
use plir_walk::given_names::{get_block_arg_name, get_operation_result_name};
use std::fmt::Write;

// Puts a given name or a label and `_`, if there is one.
fn put_given(out: &mut String, name: Option<&Identifier>) -> Result<(), Memory>
    ensures { OnOk result (Puts out.old out.new (given_first (option_map (λ n. n.now) name.entry))) }
{
    if let Some(name) = name {
        put(out, name.as_str())?;
        put(out, "_")?;
    }
    Ok(())
}

// Puts the name of a result: the given name, the pointer, `_res` and the index.
fn put_result<D: OpSet>(
    out: &mut String,
    ctx: &Context<D>,
    op: Ptr<Operation>,
    place: usize,
) -> Result<(), Memory>
    requires { IsLive ctx.now (AnyNode.Operation op) }
    ensures { OnOk result (Puts out.old out.new (result_name ctx.now op place)) }
{
    put_given(out, get_operation_result_name(ctx, op, place))?;
    write!(out, "{op}_res{place}")?;
    Ok(())
}

// Puts the name of an argument: the given name, the pointer of the block, `_arg` and the index.
fn put_argument<D: OpSet>(
    out: &mut String,
    ctx: &Context<D>,
    block: Ptr<BasicBlock>,
    place: usize,
) -> Result<(), Memory>
    requires { IsLive ctx.now (AnyNode.BasicBlock block) }
    ensures { OnOk result (Puts out.old out.new (argument_name ctx.now block place)) }
{
    put_given(out, get_block_arg_name(ctx, block, place))?;
    write!(out, "{block}_arg{place}")?;
    Ok(())
}

/// Puts the name of a value.
pub(crate) fn put_value<D: OpSet>(
    out: &mut String,
    ctx: &Context<D>,
    value: Value,
) -> Result<(), Memory>
    requires { IsValueLive ctx.now value }
    ensures { OnOk result (Puts out.old out.new (value_name ctx.now value)) }
{
    match value.defining_entity() {
        DefiningEntity::Op(op) => put_result(out, ctx, op, value.index()),
        DefiningEntity::Block(block) => put_argument(out, ctx, block, value.index()),
    }
}

/// Puts the name of a block: its label and the pointer.
pub(crate) fn put_block_name<D: OpSet>(
    out: &mut String,
    ctx: &Context<D>,
    block: Ptr<BasicBlock>,
) -> Result<(), Memory>
    requires { IsLive ctx.now (AnyNode.BasicBlock block) }
    ensures { OnOk result (Puts out.old out.new (block_name ctx.now block)) }
{
    put_given(out, block.label(ctx))?;
    write!(out, "{block}")?;
    Ok(())
}
