//! What can be asked of an attribute, whatever its kind.

ghost use Rattle.std.specs.Prelude.{◌≡◌, ℕ, Bool, true, Option, Some, IfSome, Ok, ⊤};
ghost use Rattle.plir_data.specs.AttrView.{AttrView};
ghost use Rattle.plir_data.specs.AttrLive.{IsHeldLive};
ghost use Rattle.plir_data.specs.AttrSeen.{attr_view};
ghost use Rattle.plir_data.specs.AttrCalls.{attr_id, attr_type, is_outlined, type_in_attr};

use crate::attributes::{AttrObj, GivenNamesAttr};
use crate::memory::Memory;
use crate::op_set::OpSet;
use crate::plain_attrs::{IntegerAttr, TypeAttr};
use crate::types::TypeHandle;

impl<D: OpSet> AttrObj<D> {
    /// The id of the attribute's kind, as `dialect.name`.
    pub fn get_attr_id(&self) -> &'static str
        ensures { result.now ≡ attr_id D.attr_id (attr_view self.now) }
    {
        match self {
            AttrObj::Identifier(_) => "builtin.identifier",
            AttrObj::String(_) => "builtin.string",
            AttrObj::Bool(_) => "builtin.bool",
            AttrObj::Integer(_) => "builtin.integer",
            AttrObj::Dict(_) => "builtin.dict",
            AttrObj::Vec(_) => "builtin.vec",
            AttrObj::Unit(_) => "builtin.unit",
            AttrObj::Type(_) => "builtin.type",
            AttrObj::OperandSegmentSizes(_) => "builtin.operand_segment_sizes",
            AttrObj::GivenNames(_) => "builtin.given_names",
            AttrObj::Own(value) => D::attr_id(value),
        }
    }

    /// The type, if the attribute has one: integers, types and some of the user's own.
    pub fn typed(&self) -> Option<TypeHandle>
        ensures value { result ≡ attr_type D.attr_type (attr_view self.now) }
        ensures live { IfSome result (IsHeldLive D.Ty D.attr_handles (attr_view self.now)) }
    {
        match self {
            AttrObj::Integer(value) => Some(value.get_type().into()),
            AttrObj::Type(value) => Some(value.get_type()),
            AttrObj::Own(value) => D::attr_type(value),
            _ => None,
        }
    }

    /// The type that the attribute holds, if it is an attribute of a type.
    pub fn as_type(&self) -> Option<TypeHandle>
        ensures value { result ≡ type_in_attr (attr_view self.now) }
        ensures live { IfSome result (IsHeldLive D.Ty D.attr_handles (attr_view self.now)) }
    {
        match self {
            AttrObj::Type(value) => Some(value.get_type()),
            _ => None,
        }
    }

    /// Whether the attribute is left out of an operation's text.
    pub fn outline(&self) -> bool
        ensures { result ≡ is_outlined D.attr_outlined (attr_view self.now) }
    {
        match self {
            AttrObj::GivenNames(_) => true,
            AttrObj::Own(value) => D::attr_outlined(value),
            _ => false,
        }
    }
}

/// What has a type; where the type is looked up in a context, the context is asked.
pub trait Typed<C> {
    // Where there is a type to be had, and which.
    ghost has_type: { C → Self → Type 0 } = { λ _ _. ⊤ };

    ghost type_of: { C → Self → ℕ };

    /// The type.
    fn get_type(&self, ctx: &C) -> TypeHandle
        requires { has_type ctx.now self.now }
        ensures { result ≡ type_of ctx.now self.now };
}

impl<C> Typed<C> for IntegerAttr {
    ghost type_of = { λ _ a. a.ty };

    fn get_type(&self, _ctx: &C) -> TypeHandle {
        self.get_type().into()
    }
}

impl<C> Typed<C> for TypeAttr {
    ghost type_of = { λ _ a. a.0 };

    fn get_type(&self, _ctx: &C) -> TypeHandle {
        self.get_type()
    }
}

/// Attributes that have a type: those for which `typed` answers one.
pub trait TypedAttrInterface<D: OpSet> {
    // How an attribute of this kind is seen among all attributes.
    ghost seen: { Self → AttrView D.Attr };

    /// The type.
    fn get_type(&self) -> TypeHandle
        ensures { attr_type D.attr_type (seen self.now) ≡ Some result };

    /// Accepts always.
    final fn verify<C>(&self, _ctx: &C) -> Result<(), Memory>
        ensures { result ≡ Ok tt }
    {
        Ok(())
    }
}

impl<D: OpSet> TypedAttrInterface<D> for IntegerAttr {
    ghost use Rattle.plir_data.specs.AttrView.{leaf, integer};

    ghost seen = { λ a. leaf (integer a.ty a.value.width a.value.bits) };

    fn get_type(&self) -> TypeHandle {
        self.get_type().into()
    }
}

impl<D: OpSet> TypedAttrInterface<D> for TypeAttr {
    ghost use Rattle.plir_data.specs.AttrView.{leaf, type_of};

    ghost seen = { λ a. leaf (type_of a.0) };

    fn get_type(&self) -> TypeHandle {
        self.get_type()
    }
}

/// Attributes that may be left out of an operation's text: whether they are is what `outline` of an `AttrObj` answers.
pub trait OutlinedAttr<D: OpSet> {
    // How an attribute of this kind is seen among all attributes.
    ghost seen: { Self → AttrView D.Attr };

    /// Whether the attribute is left out.
    fn outline(&self) -> bool
        ensures { result ≡ is_outlined D.attr_outlined (seen self.now) };

    /// Accepts always.
    final fn verify<C>(&self, _ctx: &C) -> Result<(), Memory>
        ensures { result ≡ Ok tt }
    {
        Ok(())
    }
}

impl<D: OpSet> OutlinedAttr<D> for GivenNamesAttr {
    ghost use Rattle.plir_data.specs.AttrView.{leaf, given_names};

    ghost seen = { λ a. leaf (given_names a) };

    fn outline(&self) -> bool {
        true
    }
}

/// Outlined attributes that are printed once.
pub trait PrintOnceAttr<D: OpSet>: OutlinedAttr<D> {
    /// Accepts always.
    final fn verify<C>(&self, _ctx: &C) -> Result<(), Memory>
        ensures { result ≡ Ok tt }
    {
        Ok(())
    }
}
