//! Attributes that are one value: a truth value, an integer, a type, or nothing.

ghost use Rattle.std.specs.Prelude.{◌≡◌};

use crate::ap_int::APInt;
use crate::typed_handle::TypedHandle;
use crate::types::{IntegerType, TypeHandle};

/// A truth value.
#[derive(Clone, Copy, PartialEq, Eq, Hash, Debug)]
pub struct BoolAttr(bool);

impl BoolAttr {
    /// The attribute of a truth value.
    pub fn new(value: bool) -> BoolAttr
        ensures { result.0 ≡ value }
    {
        BoolAttr(value)
    }
}

impl From<bool> for BoolAttr {
    ghost from_gives = { λ b a. a.0 ≡ b };

    fn from(value: bool) -> BoolAttr {
        BoolAttr(value)
    }
}

impl From<BoolAttr> for bool {
    ghost from_gives = { λ a b. b ≡ a.0 };

    fn from(value: BoolAttr) -> bool {
        value.0
    }
}

/// An integer of an integer type.
#[derive(Clone, Copy, PartialEq, Eq, Hash, Debug)]
pub struct IntegerAttr {
    ty: TypedHandle<IntegerType>,
    value: APInt,
}

impl IntegerAttr {
    /// The attribute of a value of an integer type. That their widths agree is for `verify` to say.
    pub fn new(ty: TypedHandle<IntegerType>, value: APInt) -> IntegerAttr
        ensures ty { result.ty ≡ ty }
        ensures value { result.value ≡ value }
    {
        IntegerAttr { ty, value }
    }

    /// The value.
    pub fn value(&self) -> APInt
        ensures { result ≡ self.now.value }
    {
        self.value
    }

    /// The type.
    pub fn get_type(&self) -> TypedHandle<IntegerType>
        ensures { result ≡ self.now.ty }
    {
        self.ty
    }
}

impl From<IntegerAttr> for APInt {
    ghost from_gives = { λ a n. n ≡ a.value };

    fn from(value: IntegerAttr) -> APInt {
        value.value
    }
}

/// No information.
#[derive(Clone, Copy, PartialEq, Eq, Hash, Debug, Default)]
pub struct UnitAttr;

impl UnitAttr {
    /// The attribute of no information.
    pub fn new() -> UnitAttr {
        UnitAttr
    }
}

/// A type.
#[derive(Clone, Copy, PartialEq, Eq, Hash, Debug)]
pub struct TypeAttr(TypeHandle);

impl TypeAttr {
    /// The attribute of a type.
    pub fn new(ty: TypeHandle) -> TypeAttr
        ensures { result.0 ≡ ty }
    {
        TypeAttr(ty)
    }

    /// The type.
    pub fn get_type(&self) -> TypeHandle
        ensures { result ≡ self.now.0 }
    {
        self.0
    }
}

impl From<TypeHandle> for TypeAttr {
    ghost from_gives = { λ t a. a.0 ≡ t };

    fn from(value: TypeHandle) -> TypeAttr {
        TypeAttr(value)
    }
}

impl From<TypeAttr> for TypeHandle {
    ghost from_gives = { λ a t. t ≡ a.0 };

    fn from(value: TypeAttr) -> TypeHandle {
        value.0
    }
}
