//! Whether the type handles in attributes and types name types of a table.

ghost use Rattle.std.specs.Prelude.{◌↔◌, ◌++◌, IsTrue};
ghost use Rattle.plir_data.specs.AttrLive.{IsAttrLive, AreItemsLive, AreEntriesLive, HandlesLive};
ghost use Rattle.plir_data.specs.AttrSeen.{attr_view};
ghost use Rattle.plir_data.specs.AttrView.{items_of, entries_of};
ghost use Rattle.plir_data.specs.TypeSeen.{type_view};
ghost use Rattle.plir_data.specs.Types.{AllLive, handles_of};

use crate::attribute_dict::AttributeDict;
use crate::attributes::{AttrObj, VecAttr};
use crate::op_set::OpSet;
use crate::type_store::TypeStore;
use crate::type_table::TypeTable;
use crate::types::{FunctionType, FunctionTypeInterface, TypeObj};

impl<D: OpSet> TypeObj<D> {
    /// Whether all type handles that the type holds name types of the context.
    pub fn is_live<C: TypeStore<D>>(&self, ctx: &C) -> bool
        ensures { IsTrue result ↔ AllLive (C.types ctx.now) (handles_of D.type_handles (type_view self.now)) }
    {
        match self {
            TypeObj::Function(function) => is_function_live(ctx.types(), function),
            TypeObj::Own(own) => D::is_type_live(own, ctx),
            TypeObj::Integer(_) | TypeObj::Unit(_) => true,
        }
    }
}

fn is_function_live<D: OpSet>(types: &TypeTable<D>, function: &FunctionType) -> bool
    ensures { IsTrue result ↔ AllLive types.now (function.now.0.0 ++ function.now.0.1) }
{
    types.are_live(function.arg_types()) && types.are_live(function.res_types())
}

impl<D: OpSet> AttrObj<D> {
    /// Whether all type handles in the attribute name types of the context.
    #[cycle(live)]
    pub fn is_live<C: TypeStore<D>>(&self, ctx: &C) -> bool
        ensures { IsTrue result ↔ IsAttrLive D.attr_handles (C.types ctx.now) (attr_view self.now) }
    {
        match self {
            AttrObj::Integer(value) => ctx.types().is_live(value.get_type().into()),
            AttrObj::Type(value) => ctx.types().is_live(value.get_type()),
            AttrObj::Dict(value) => value.0.holds_live(ctx),
            AttrObj::Vec(value) => value.is_live(ctx),
            AttrObj::Own(value) => D::is_attr_live(value, ctx),
            _ => true,
        }
    }
}

impl<D: OpSet> VecAttr<D> {
    /// Whether all type handles in the attributes of the list name types of the context.
    #[cycle(live)]
    pub fn is_live<C: TypeStore<D>>(&self, ctx: &C) -> bool
        ensures { IsTrue result ↔ AreItemsLive D.attr_handles (C.types ctx.now) (items_of self.now) }
    {
        let items = self.0.as_slice();
        'items: for item in items {
            if !item.is_live(ctx) {
                return false;
            }
        }
        true
    }
}

impl<D: OpSet> AttributeDict<D> {
    /// Whether all type handles in the attributes of the dictionary name types of the context.
    pub fn is_live<C: TypeStore<D>>(&self, ctx: &C) -> bool
        ensures { IsTrue result ↔ HandlesLive D.attr_handles (C.types ctx.now) self.now }
    {
        self.holds_live(ctx)
    }

    /// The same, entry by entry.
    #[cycle(live)]
    fn holds_live<C: TypeStore<D>>(&self, ctx: &C) -> bool
        ensures { IsTrue result ↔ AreEntriesLive D.attr_handles (C.types ctx.now) (entries_of self.now) }
    {
        'entries: for (_, value) in self.iter() {
            if !value.is_live(ctx) {
                return false;
            }
        }
        true
    }
}
