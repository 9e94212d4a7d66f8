//! What stands at the head of a block's box, as its text has it: its name, and its arguments with their types.
ghost use Rattle.std.specs.Prelude.{◌≡◌, ◌<◌, IfOk, OnOk, length, option_map, string_bytes};
ghost use Rattle.plir_core.specs.ContextView.{IsLive, IsValueLive, arg_types_of};
ghost use Rattle.plir_core.specs.declared.ptr.IRNode.{IRNode as AnyNode};
ghost use Rattle.plir_core.specs.declared.value.DefiningEntity.{DefiningEntity as AnyEntity};
ghost use Rattle.plir_builtin.specs.ResultNames.{given_first};
ghost use Rattle.plir_data.specs.TextParts.{Puts};
ghost use Rattle.plir_print.specs.Headers.{value_type_text};
ghost use Rattle.plir_print.specs.OpText.{argument_text, arguments_text, block_front};
ghost use Rattle.plir_print.specs.ValueNames.{argument_name, block_name};

use plir_core::{BasicBlock, Context, Ptr, Value};
use plir_data::put::{put, put_between};
use plir_data::{Identifier, Memory, OpSet, type_text};
use plir_walk::given_names::get_block_arg_name;
use std::alloc::Global;
use std::fmt::Write;

// Puts a given name or a label and `_`, if there is one.
fn put_given(out: &mut String, name: Option<&Identifier>) -> Result<(), Memory>
    ensures { OnOk result (Puts out.old out.new (given_first (option_map (λ n. n.now) name.entry))) }
{
    if let Some(name) = name {
        put(out, name.as_str())?;
        put(out, "_")?;
    }
    Ok(())
}

// Puts the name of a block: its label and the pointer.
fn put_name<D: OpSet>(
    out: &mut String,
    ctx: &Context<D>,
    block: Ptr<BasicBlock>,
) -> Result<(), Memory>
    requires { IsLive ctx.now (AnyNode.BasicBlock block) }
    ensures { OnOk result (Puts out.old out.new (block_name ctx.now block)) }
{
    put_given(out, block.label(ctx))?;
    write!(out, "{block}")?;
    Ok(())
}

// Puts the name of an argument: the given name, the pointer of the block, `_arg` and the index.
fn put_argument_name<D: OpSet>(
    out: &mut String,
    ctx: &Context<D>,
    block: Ptr<BasicBlock>,
    place: usize,
) -> Result<(), Memory>
    requires { IsLive ctx.now (AnyNode.BasicBlock block) }
    ensures { OnOk result (Puts out.old out.new (argument_name ctx.now block place)) }
{
    put_given(out, get_block_arg_name(ctx, block, place))?;
    write!(out, "{block}_arg{place}")?;
    Ok(())
}

// Puts the type of a value.
fn put_type<D: OpSet>(
    out: &mut String,
    alloc: Global,
    ctx: &Context<D>,
    value: Value,
) -> Result<(), Memory>
    requires { IsValueLive ctx.now value }
    ensures { OnOk result (Puts out.old out.new (value_type_text D.OpSet ctx.now value)) }
{
    let text = type_text(alloc, ctx, value.get_type(ctx))?;
    put(out, text.as_str())
}

// Puts an argument with its type.
fn put_argument<D: OpSet>(
    out: &mut String,
    alloc: Global,
    ctx: &Context<D>,
    block: Ptr<BasicBlock>,
    place: usize,
) -> Result<(), Memory>
    requires live { IsLive ctx.now (AnyNode.BasicBlock block) }
    requires below { place < length (arg_types_of ctx.now block) }
    ensures { OnOk result (Puts out.old out.new
        (argument_text D.OpSet ctx.now (record { entity = AnyEntity.Block block; index = place }))) }
{
    put_argument_name(out, ctx, block, place)?;
    put(out, ": ")?;
    put_type(out, alloc, ctx, block.get_argument(ctx, place))?;
    Ok(())
}

// Puts the arguments of a block, with a comma and a space between them.
fn put_arguments<D: OpSet>(
    out: &mut String,
    alloc: Global,
    ctx: &Context<D>,
    block: Ptr<BasicBlock>,
) -> Result<(), Memory>
    requires { IsLive ctx.now (AnyNode.BasicBlock block) }
    ensures { OnOk result (Puts out.old out.new (arguments_text D.OpSet ctx.now block)) }
{
    let mut is_first = true;
    'arguments: for place in 0..block.get_num_arguments(ctx) {
        put_between(out, is_first, ", ")?;
        put_argument(out, alloc, ctx, block, place)?;
        is_first = false;
    }
    Ok(())
}

/// What stands before the operations of a block, as `^block1v1():`.
pub(crate) fn front_of<D: OpSet>(
    alloc: Global,
    ctx: &Context<D>,
    block: Ptr<BasicBlock>,
) -> Result<String, Memory>
    requires { IsLive ctx.now (AnyNode.BasicBlock block) }
    ensures { IfOk result (λ t. string_bytes t ≡ block_front D.OpSet ctx.now block) }
{
    let mut out = String::from_str(alloc, "^")?;
    put_name(&mut out, ctx, block)?;
    put(&mut out, "(")?;
    put_arguments(&mut out, alloc, ctx, block)?;
    put(&mut out, "):")?;
    Ok(out)
}
