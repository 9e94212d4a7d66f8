//! Whether a text can stand for an attribute.

ghost use Rattle.std.specs.Prelude.{◌≡◌, ◌↔◌, ◌^◌, ◌<◌, All, IsTrue, map, true};
ghost use Rattle.std.specs.Str.{IsUtf8};
ghost use Rattle.plir_data.specs.AttrLive.{IsAttrLive, AreItemsLive, AreEntriesLive};
ghost use Rattle.plir_data.specs.AttrView.{dict, integer, items_of, entries_of, is_leaf};
ghost use Rattle.plir_data.specs.TypeTree.{trees_of, tree_of};
ghost use Rattle.plir_data.specs.{AttrSeen.attr_view, Identifier.is_identifier, Types.IsLive, Types.AllLive};
ghost use Rattle.plir_attr_text.specs.Writable.{IsBuiltin, AreBuiltin, IsNameOrMark, IsLeafWritable, IsWritable};
ghost use Rattle.plir_attr_text.specs.Writable.{AreItemsWritable};

use plir_data::laws::tree_of_a_handle;
use plir_data::{
    AttrObj, AttributeDict, FunctionTypeInterface, Identifier, IntegerAttr, IntegerType, OpSet,
    OperandSegmentSizesAttr, StringAttr, TypeHandle, TypeObj, TypeStore, TypeTable,
};

/// Whether a text can stand for an attribute, so that what is printed is read back: nothing in it is of the
/// user's own, also no type, and its integers have the widths of their types.
pub fn is_writable<D: OpSet, C: TypeStore<D>>(ctx: &C, attr: &AttrObj<D>) -> bool
    requires { IsAttrLive D.attr_handles (C.types ctx.now) (attr_view attr.now) }
    ensures { IsTrue result ↔ IsWritable (C.types ctx.now) (attr_view attr.now) }
{
    is_attr_writable(ctx.types(), attr)
}

#[cycle(writable)]
fn is_attr_writable<D: OpSet>(types: &TypeTable<D>, attr: &AttrObj<D>) -> bool
    requires { IsAttrLive D.attr_handles types.now (attr_view attr.now) }
    ensures { IsTrue result ↔ IsWritable types.now (attr_view attr.now) }
{
    match attr {
        AttrObj::Dict(value) => is_dict_writable(types, &value.0),
        AttrObj::Vec(value) => are_items_writable(types, &value.0),
        _ => is_leaf_writable(types, attr),
    }
}

// The same of an attribute that holds no others.
fn is_leaf_writable<D: OpSet>(types: &TypeTable<D>, attr: &AttrObj<D>) -> bool
    requires leaf { is_leaf (attr_view attr.now) ≡ true }
    requires live { IsAttrLive D.attr_handles types.now (attr_view attr.now) }
    ensures { IsTrue result ↔ IsWritable types.now (attr_view attr.now) }
{
    match attr {
        AttrObj::Identifier(value) => is_name(value.as_ref()),
        AttrObj::String(value) => is_text(value),
        AttrObj::Bool(_) | AttrObj::Unit(_) => true,
        AttrObj::Integer(value) => is_integer_writable(types, value),
        AttrObj::Dict(_) | AttrObj::Vec(_) => unreachable!(),
        AttrObj::Type(value) => is_builtin(types, value.get_type()),
        AttrObj::OperandSegmentSizes(value) => are_sizes(value),
        AttrObj::GivenNames(value) => are_names(value.names()),
        AttrObj::Own(_) => false,
    }
}

// Of a dictionary the attributes alone are asked: its keys are identifiers and ascend always.
#[cycle(writable)]
fn is_dict_writable<D: OpSet>(types: &TypeTable<D>, attrs: &AttributeDict<D>) -> bool
    requires { AreEntriesLive D.attr_handles types.now (entries_of attrs.now) }
    ensures { IsTrue result ↔ IsWritable types.now (dict (entries_of attrs.now)) }
{
    'entries: for (key, value) in attrs.iter() {
        if !is_attr_writable(types, value) {
            return false;
        }
    }
    true
}

// The attributes of a list.
#[cycle(writable)]
fn are_items_writable<D: OpSet>(types: &TypeTable<D>, list: &Vec<AttrObj<D>>) -> bool
    requires { AreItemsLive D.attr_handles types.now (items_of (map attr_view list.now.items)) }
    ensures { IsTrue result ↔ AreItemsWritable types.now (items_of (map attr_view list.now.items)) }
{
    'items: for item in list {
        if !is_attr_writable(types, item) {
            return false;
        }
    }
    true
}

// The type of an integer has the width of its value.
fn is_integer_writable<D: OpSet>(types: &TypeTable<D>, value: &IntegerAttr) -> bool
    requires { IsLive types.now value.now.ty }
    ensures { IsTrue result ↔ IsLeafWritable {A = D.Attr} types.now (integer value.now.ty value.now.value.width
        value.now.value.bits) }
{
    let bits = value.value();
    match types.get(value.get_type().into()) {
        TypeObj::Integer(ty) => ty.width() == bits.bw(),
        _ => false,
    }
}

// Whether a type is made of builtin types alone.
#[cycle(builtin)]
fn is_builtin<D: OpSet>(types: &TypeTable<D>, handle: TypeHandle) -> bool
    requires { IsLive types.now handle }
    ensures { IsTrue result ↔ IsBuiltin (tree_of types.now handle) }
{
    tree_of_a_handle::<D>();
    match types.get(handle) {
        TypeObj::Integer(ty) => is_width(ty),
        TypeObj::Function(ty) => {
            are_builtin(types, ty.arg_types()) && are_builtin(types, ty.res_types())
        }
        TypeObj::Unit(_) => true,
        TypeObj::Own(_) => false,
    }
}

// Whether each of some types is.
#[cycle(builtin)]
fn are_builtin<D: OpSet>(types: &TypeTable<D>, handles: &[TypeHandle]) -> bool
    requires { AllLive types.now handles.now }
    ensures { IsTrue result ↔ AreBuiltin (trees_of (map (tree_of types.now) handles.now)) }
{
    'handles: for handle in handles {
        if !is_builtin(types, *handle) {
            return false;
        }
    }
    true
}

// Below, what holds always: a width fits 32 bits.
fn is_width(ty: &IntegerType) -> bool
    ensures { IsTrue result ↔ (ty.now.width < 2 ^ 32) }
{
    let _width = ty.width();
    true
}

// A text is UTF-8.
fn is_text(value: &StringAttr) -> bool
    ensures { IsTrue result ↔ IsUtf8 value.now }
{
    let _text = value.as_str();
    true
}

// Sizes of segments fit 32 bits.
fn are_sizes(value: &OperandSegmentSizesAttr) -> bool
    ensures { IsTrue result ↔ All (λ n. n < 2 ^ 32) value.now }
{
    are_u32(value.0.as_slice())
}

fn are_u32(sizes: &[u32]) -> bool
    ensures { IsTrue result ↔ All (λ n. n < 2 ^ 32) sizes.now }
{
    true
}

// An identifier is formed as one.
fn is_name(name: &Identifier) -> bool
    ensures { IsTrue result ↔ (is_identifier name.now ≡ true) }
{
    let _text = name.as_str();
    true
}

fn is_name_or_mark(name: &Option<Identifier>) -> bool
    ensures { IsTrue result ↔ IsNameOrMark name.now }
{
    match name {
        Some(name) => is_name(name),
        None => true,
    }
}

// Names that are set are identifiers.
fn are_names(names: &[Option<Identifier>]) -> bool
    ensures { IsTrue result ↔ All IsNameOrMark names.now }
{
    'names: for name in names {
        if !is_name_or_mark(name) {
            return false;
        }
    }
    true
}
