//! How many levels the text of an attribute has.

ghost use Rattle.std.specs.Prelude.{◌↔◌, ◌≤◌, ◌++◌, IsTrue, map};
ghost use Rattle.plir_data.specs.AttrLive.{IsAttrLive, AreItemsLive, AreEntriesLive};
ghost use Rattle.plir_data.specs.AttrView.{items_of, entries_of};
ghost use Rattle.plir_data.specs.{AttrSeen.attr_view, TypeTree.tree_of, Types.IsLive, Types.AllLive};
ghost use Rattle.plir_attr_text.specs.Terms.{levels, attrs_levels, entries_levels, type_levels};
ghost use Rattle.plir_attr_text.specs.Writable.{attr_term, attr_terms, entry_terms, type_term, handles_levels};

use plir_data::laws::tree_of_a_handle;
use plir_data::{
    AttrObj, AttributeDict, FunctionType, FunctionTypeInterface, OpSet, TypeHandle, TypeObj,
    TypeStore, TypeTable,
};

/// Whether the text of an attribute has at most so many levels at its deepest place. `read_attr` reads texts with at
/// most 200.
pub fn is_within_levels<D: OpSet, C: TypeStore<D>>(ctx: &C, attr: &AttrObj<D>, most: usize) -> bool
    requires { IsAttrLive D.attr_handles (C.types ctx.now) (attr_view attr.now) }
    ensures { IsTrue result ↔ (levels (attr_term (C.types ctx.now) (attr_view attr.now)) ≤ most) }
{
    is_attr_within(ctx.types(), attr, most)
}

#[cycle(within)]
fn is_attr_within<D: OpSet>(types: &TypeTable<D>, attr: &AttrObj<D>, most: usize) -> bool
    requires { IsAttrLive D.attr_handles types.now (attr_view attr.now) }
    ensures { IsTrue result ↔ (levels (attr_term types.now (attr_view attr.now)) ≤ most) }
{
    if most == 0 {
        return false;
    }
    match attr {
        AttrObj::Integer(_) => most > 1,
        AttrObj::Type(value) => is_type_within(types, value.get_type(), most - 1),
        AttrObj::Dict(value) => are_entries_within(types, &value.0, most - 1),
        AttrObj::Vec(value) => are_items_within(types, &value.0, most - 1),
        _ => true,
    }
}

// The attributes of a dictionary.
#[cycle(within)]
fn are_entries_within<D: OpSet>(types: &TypeTable<D>, attrs: &AttributeDict<D>, most: usize) -> bool
    requires { AreEntriesLive D.attr_handles types.now (entries_of attrs.now) }
    ensures { IsTrue result ↔ (entries_levels (entry_terms types.now (entries_of attrs.now)) ≤ most) }
{
    'entries: for (key, value) in attrs.iter() {
        if !is_attr_within(types, value, most) {
            return false;
        }
    }
    true
}

// The attributes of a list.
#[cycle(within)]
fn are_items_within<D: OpSet>(types: &TypeTable<D>, list: &Vec<AttrObj<D>>, most: usize) -> bool
    requires { AreItemsLive D.attr_handles types.now (items_of (map attr_view list.now.items)) }
    ensures { IsTrue result ↔ (attrs_levels (attr_terms types.now (items_of (map attr_view list.now.items))) ≤ most) }
{
    'items: for item in list {
        if !is_attr_within(types, item, most) {
            return false;
        }
    }
    true
}

// A type, written out.
#[cycle(types_within)]
fn is_type_within<D: OpSet>(types: &TypeTable<D>, handle: TypeHandle, most: usize) -> bool
    requires { IsLive types.now handle }
    ensures { IsTrue result ↔ (type_levels (type_term (tree_of types.now handle)) ≤ most) }
{
    if most == 0 {
        return false;
    }
    tree_of_a_handle::<D>();
    match types.get(handle) {
        TypeObj::Function(ty) => is_function_within(types, ty, most - 1),
        _ => true,
    }
}

// The types of arguments and results.
#[cycle(types_within)]
fn is_function_within<D: OpSet>(types: &TypeTable<D>, ty: &FunctionType, most: usize) -> bool
    requires { AllLive types.now (ty.now.0.0 ++ ty.now.0.1) }
    ensures { IsTrue result ↔ ((handles_levels types.now ty.now.0.0 ≤ most) × (handles_levels types.now ty.now.0.1 ≤
        most)) }
{
    are_types_within(types, ty.arg_types(), most) && are_types_within(types, ty.res_types(), most)
}

// Each of some types.
#[cycle(types_within)]
fn are_types_within<D: OpSet>(types: &TypeTable<D>, handles: &[TypeHandle], most: usize) -> bool
    requires { AllLive types.now handles.now }
    ensures { IsTrue result ↔ (handles_levels types.now handles.now ≤ most) }
{
    'handles: for handle in handles {
        if !is_type_within(types, *handle, most) {
            return false;
        }
    }
    true
}
