//! From an attribute to its text.

ghost use Rattle.std.specs.Prelude.{◌≡◌, IfOk, OnOk, map, string_bytes, true};
ghost use Rattle.plir_data.specs.AttrLive.{IsAttrLive, AreItemsLive, AreEntriesLive};
ghost use Rattle.plir_data.specs.AttrView.{integer, own, type_of, dict as dict_view, vec, items_of, entries_of};
ghost use Rattle.plir_data.specs.AttrView.{is_leaf};
ghost use Rattle.plir_data.specs.Types.{IsLive, AllLive, type_at};
ghost use Rattle.plir_data.specs.{AttrSeen.attr_view, Integers.literal, TypeText.type_text, TextParts.Puts};
ghost use Rattle.plir_attr_text.specs.AttrText.{is_signed, bare_text};
ghost use Rattle.plir_attr_text.specs.OpSetTexts.{attribute_text, plain_text, attributes_text, pairs_text};

use crate::put::{put_bool, put_given_names, put_identifier, put_segments, put_string};
use plir_data::put::{put, put_between, put_integer_text};
use plir_data::{
    APInt, AttrObj, AttributeDict, IntegerAttr, Memory, OpSet, TypeAttr, TypeHandle, TypeObj,
    TypeStore, TypeTable, put_own_text, type_text,
};
use std::alloc::Global;

/// The text of an attribute, as `builtin.vec [builtin.bool true]`: its id, and what stands behind it. Of a
/// dictionary the keys ascend by their bytes.
pub fn print_attr<D: OpSet, C: TypeStore<D>>(
    alloc: Global,
    ctx: &C,
    attr: &AttrObj<D>,
) -> Result<String, Memory>
    requires { IsAttrLive D.attr_handles (C.types ctx.now) (attr_view attr.now) }
    ensures { IfOk result (λ s. string_bytes s ≡ attribute_text D.OpSet (C.types ctx.now) (attr_view attr.now)) }
{
    let mut out = String::new(alloc);
    put_attr(&mut out, alloc, ctx.types(), attr)?;
    Ok(out)
}

#[cycle(print)]
fn put_attr<D: OpSet>(
    out: &mut String,
    alloc: Global,
    types: &TypeTable<D>,
    attr: &AttrObj<D>,
) -> Result<(), Memory>
    requires { IsAttrLive D.attr_handles types.now (attr_view attr.now) }
    ensures { OnOk result (Puts out.old out.new (attribute_text D.OpSet types.now (attr_view attr.now))) }
{
    match attr {
        AttrObj::Dict(value) => put_dict(out, alloc, types, &value.0),
        AttrObj::Vec(value) => put_list(out, alloc, types, &value.0),
        _ => put_leaf(out, alloc, types, attr),
    }
}

// An attribute that holds no others.
fn put_leaf<D: OpSet>(
    out: &mut String,
    alloc: Global,
    types: &TypeTable<D>,
    attr: &AttrObj<D>,
) -> Result<(), Memory>
    requires leaf { is_leaf (attr_view attr.now) ≡ true }
    requires live { IsAttrLive D.attr_handles types.now (attr_view attr.now) }
    ensures { OnOk result (Puts out.old out.new (attribute_text D.OpSet types.now (attr_view attr.now))) }
{
    match attr {
        AttrObj::Identifier(value) => put_identifier(out, value),
        AttrObj::String(value) => put_string(out, value),
        AttrObj::Bool(value) => put_bool(out, *value),
        AttrObj::Integer(value) => put_integer(out, alloc, types, value),
        AttrObj::Dict(_) | AttrObj::Vec(_) => unreachable!(),
        AttrObj::Unit(_) => put(out, "builtin.unit"),
        AttrObj::Type(value) => put_type_attr(out, alloc, types, *value),
        AttrObj::OperandSegmentSizes(value) => put_segments(out, value),
        AttrObj::GivenNames(value) => put_given_names(out, value),
        AttrObj::Own(value) => put_own(out, alloc, types, value),
    }
}

// A dictionary.
#[cycle(print)]
fn put_dict<D: OpSet>(
    out: &mut String,
    alloc: Global,
    types: &TypeTable<D>,
    dict: &AttributeDict<D>,
) -> Result<(), Memory>
    requires { AreEntriesLive D.attr_handles types.now (entries_of dict.now) }
    ensures { OnOk result (Puts out.old out.new (attribute_text D.OpSet types.now (dict_view (entries_of dict.now)))) }
{
    put(out, "builtin.dict [")?;
    put_entries(out, alloc, types, dict)?;
    put(out, "]")?;
    Ok(())
}

// Keys with their attributes, with a comma and a space between them.
#[cycle(print)]
fn put_entries<D: OpSet>(
    out: &mut String,
    alloc: Global,
    types: &TypeTable<D>,
    dict: &AttributeDict<D>,
) -> Result<(), Memory>
    requires { AreEntriesLive D.attr_handles types.now (entries_of dict.now) }
    ensures { OnOk result (Puts out.old out.new (pairs_text D.OpSet types.now (entries_of dict.now))) }
{
    let mut is_first = true;
    'entries: for (key, value) in dict.iter() {
        put_between(out, is_first, ", ")?;
        put(out, key.as_str())?;
        put(out, " = ")?;
        put_attr(out, alloc, types, value)?;
        is_first = false;
    }
    Ok(())
}

// A list.
#[cycle(print)]
fn put_list<D: OpSet>(
    out: &mut String,
    alloc: Global,
    types: &TypeTable<D>,
    list: &Vec<AttrObj<D>>,
) -> Result<(), Memory>
    requires { AreItemsLive D.attr_handles types.now (items_of (map attr_view list.now.items)) }
    ensures { OnOk result (Puts out.old out.new (attribute_text D.OpSet types.now
        (vec (items_of (map attr_view list.now.items))))) }
{
    put(out, "builtin.vec [")?;
    put_items(out, alloc, types, list)?;
    put(out, "]")?;
    Ok(())
}

// Attributes, with a comma and a space between them.
#[cycle(print)]
fn put_items<D: OpSet>(
    out: &mut String,
    alloc: Global,
    types: &TypeTable<D>,
    list: &Vec<AttrObj<D>>,
) -> Result<(), Memory>
    requires { AreItemsLive D.attr_handles types.now (items_of (map attr_view list.now.items)) }
    ensures { OnOk result (Puts out.old out.new (attributes_text D.OpSet types.now
        (items_of (map attr_view list.now.items)))) }
{
    let mut is_first = true;
    'items: for item in list {
        put_between(out, is_first, ", ")?;
        put_attr(out, alloc, types, item)?;
        is_first = false;
    }
    Ok(())
}

// Whether values of a type are written with a sign.
fn is_signed<D: OpSet>(types: &TypeTable<D>, handle: TypeHandle) -> bool
    requires { IsLive types.now handle }
    ensures { result ≡ is_signed (type_at types.now handle) }
{
    match types.get(handle) {
        TypeObj::Integer(ty) => ty.prints_as_signed(),
        _ => false,
    }
}

// The type of an integer, without its id.
fn put_bare_type<D: OpSet>(
    out: &mut String,
    alloc: Global,
    types: &TypeTable<D>,
    handle: TypeHandle,
) -> Result<(), Memory>
    requires { IsLive types.now handle }
    ensures { OnOk result (Puts out.old out.new (bare_text (type_text D.type_id D.type_body_text types.now handle)
        (type_at types.now handle))) }
{
    match types.get(handle) {
        TypeObj::Integer(ty) => put_integer_text(out, ty),
        _ => put_type(out, alloc, types, handle),
    }
}

fn put_type<D: OpSet>(
    out: &mut String,
    alloc: Global,
    types: &TypeTable<D>,
    handle: TypeHandle,
) -> Result<(), Memory>
    requires { IsLive types.now handle }
    ensures { OnOk result (Puts out.old out.new (type_text D.type_id D.type_body_text types.now handle)) }
{
    let text = type_text(alloc, types, handle)?;
    put(out, text.as_str())
}

fn put_literal(out: &mut String, alloc: Global, value: APInt, signed: bool) -> Result<(), Memory>
    ensures { OnOk result (Puts out.old out.new (literal signed value.width value.bits)) }
{
    let text = value.to_string_decimal(alloc, signed)?;
    put(out, text.as_str())
}

// An integer.
fn put_integer<D: OpSet>(
    out: &mut String,
    alloc: Global,
    types: &TypeTable<D>,
    value: &IntegerAttr,
) -> Result<(), Memory>
    requires { IsLive types.now value.now.ty }
    ensures { OnOk result (Puts out.old out.new
        (plain_text D.OpSet types.now (integer value.now.ty value.now.value.width value.now.value.bits))) }
{
    let handle = value.get_type().into();
    put(out, "builtin.integer <")?;
    put_literal(out, alloc, value.value(), is_signed(types, handle))?;
    put(out, ": ")?;
    put_bare_type(out, alloc, types, handle)?;
    put(out, ">")?;
    Ok(())
}

// A type as an attribute.
fn put_type_attr<D: OpSet>(
    out: &mut String,
    alloc: Global,
    types: &TypeTable<D>,
    value: TypeAttr,
) -> Result<(), Memory>
    requires { IsLive types.now value.0 }
    ensures { OnOk result (Puts out.old out.new (plain_text D.OpSet types.now (type_of value.0))) }
{
    put(out, "builtin.type ")?;
    put_type(out, alloc, types, value.get_type())?;
    Ok(())
}

// An attribute of the user's own.
fn put_own<D: OpSet>(
    out: &mut String,
    alloc: Global,
    types: &TypeTable<D>,
    value: &D::Attr,
) -> Result<(), Memory>
    requires { AllLive types.now (D.attr_handles value.now) }
    ensures { OnOk result (Puts out.old out.new (plain_text D.OpSet types.now (own value.now))) }
{
    let text = D::attr_text(alloc, value)?;
    put(out, D::attr_id(value))?;
    put_own_text(out, alloc, types, &text)?;
    Ok(())
}
