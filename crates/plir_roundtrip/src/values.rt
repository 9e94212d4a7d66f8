//! Whether the results of an operation, or the arguments of a block, can be read.
ghost use Rattle.std.specs.Prelude.{◌≡◌, ◌↔◌, ◌<◌, IsTrue, Some, length, option_map, slice_get};
ghost use Rattle.plir_data.specs.TypeTree.{tree_of};
ghost use Rattle.plir_data.specs.Types.{IsLive as IsTypeLive};
ghost use Rattle.plir_core.specs.ContextView.{IsLive, entity_node, types_from};
ghost use Rattle.plir_attr_text.specs.Writable.{IsBuiltin, IsNameOrMark};
ghost use Rattle.plir_walk.specs.GivenNames.{names_at, name_at};
ghost use Rattle.plir_roundtrip.specs.Readable.{AreValuesReadable};
ghost use Rattle.plir_roundtrip.specs.ReadableParts.{IsValueReadable};

use plir_attr_text::is_writable;
use plir_core::{Context, DefiningEntity};
use plir_data::{AttrObj, Identifier, OpSet, TypeAttr, TypeHandle};
use plir_walk::given_names::{get_block_arg_name, get_operation_result_name};

// Whether a type is made of builtin types alone: the attribute of a type can be written just then.
fn is_type_builtin<D: OpSet>(ctx: &Context<D>, handle: TypeHandle) -> bool
    requires { IsTypeLive ctx.now.types handle }
    ensures { IsTrue result ↔ IsBuiltin (tree_of ctx.now.types handle) }
{
    let attr = AttrObj::Type(TypeAttr::new(handle));
    is_writable(ctx, &attr)
}

/// Whether a name, if there is one, is an identifier. It is always: an identifier is formed as one.
pub(crate) fn is_name_or_none(name: Option<&Identifier>) -> bool
    ensures { IsTrue result ↔ IsNameOrMark (option_map (λ n. n.now) name.entry) }
{
    if let Some(name) = name {
        let _text = name.as_str();
    }
    true
}

// Whether the name of a result or an argument is one.
fn is_value_named<D: OpSet>(ctx: &Context<D>, entity: DefiningEntity, place: usize) -> bool
    requires { IsLive ctx.now (entity_node entity) }
    ensures { IsTrue result ↔ IsNameOrMark (name_at (names_at ctx.now entity) place) }
{
    match entity {
        DefiningEntity::Op(op) => is_name_or_none(get_operation_result_name(ctx, op, place)),
        DefiningEntity::Block(block) => is_name_or_none(get_block_arg_name(ctx, block, place)),
    }
}

/// How many results or arguments there are.
pub(crate) fn num_values<D: OpSet>(ctx: &Context<D>, entity: DefiningEntity) -> usize
    requires { IsLive ctx.now (entity_node entity) }
    ensures { result ≡ length (types_from ctx.now entity) }
{
    match entity {
        DefiningEntity::Op(op) => op.get_num_results(ctx),
        DefiningEntity::Block(block) => block.get_num_arguments(ctx),
    }
}

/// The type of a result or an argument.
pub(crate) fn type_at<D: OpSet>(
    ctx: &Context<D>,
    entity: DefiningEntity,
    place: usize,
) -> TypeHandle
    requires live { IsLive ctx.now (entity_node entity) }
    requires below { place < length (types_from ctx.now entity) }
    ensures value { slice_get (types_from ctx.now entity) place ≡ Some result }
    ensures live { IsTypeLive ctx.now.types result }
{
    match entity {
        DefiningEntity::Op(op) => op.get_type(ctx, place),
        DefiningEntity::Block(block) => block.get_type(ctx, place),
    }
}

/// Whether a result or an argument can be read.
pub(crate) fn is_value_readable<D: OpSet>(
    ctx: &Context<D>,
    entity: DefiningEntity,
    place: usize,
) -> bool
    requires live { IsLive ctx.now (entity_node entity) }
    requires below { place < length (types_from ctx.now entity) }
    ensures { IsTrue result ↔ IsValueReadable ctx.now entity place }
{
    let handle = type_at(ctx, entity, place);
    let is_builtin = is_type_builtin(ctx, handle);
    let is_named = is_value_named(ctx, entity, place);
    is_builtin && is_named
}

/// Whether the results of an operation, or the arguments of a block, have builtin types, and names that are
/// identifiers, if any.
pub(crate) fn are_values_readable<D: OpSet>(ctx: &Context<D>, entity: DefiningEntity) -> bool
    requires { IsLive ctx.now (entity_node entity) }
    ensures { IsTrue result ↔ AreValuesReadable ctx.now entity }
{
    'places: for place in 0..num_values(ctx, entity) {
        if !is_value_readable(ctx, entity, place) {
            return false;
        }
    }
    true
}
