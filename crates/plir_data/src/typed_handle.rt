//! Handles of types that are known to be of one kind, and the marks of kinds.

ghost use Rattle.std.specs.Prelude.{◌≡◌, ◌↔◌, IsTrue, ℕ, List, Bool, true, Some, IfSome, IsSome, is_some, option_map};
ghost use Rattle.plir_data.specs.Types.{TypeView, integer, function, unit, IsLive, IsMarked, type_at, signature_of};
ghost use Rattle.plir_data.specs.Types.{AllLive, handles_of};
ghost use Rattle.plir_data.specs.Types.{is_integer, is_function, is_unit, type_id};
ghost use Rattle.plir_data.specs.TypeSeen.{type_view};

use crate::op_set::OpSet;
use crate::type_store::TypeStore;
use crate::types::{FunctionType, IntegerType, TypeHandle, TypeObj, UnitType};
use std::marker::{Model, PhantomData};

/// The handle of a type that is known to be a `T`.
#[derive_where(Clone, Copy, PartialEq, Eq, Hash, Debug)]
pub struct TypedHandle<T> {
    handle: TypeHandle,
    marker: PhantomData<T>,
}

impl<T> Model for TypedHandle<T> {
    ghost use Rattle.std.specs.Prelude.{ℕ};

    ghost Value = { ℕ };

    ghost view = { λ h. h.handle };

    ghost inverse = { λ n. record { handle = n; marker = record {} } };
}

impl<T> TypedHandle<T> {
    pub(crate) fn new(handle: TypeHandle) -> TypedHandle<T>
        ensures { result ≡ handle }
    {
        TypedHandle {
            handle,
            marker: PhantomData,
        }
    }

    /// The handle, without what is known of its type.
    pub fn into(self) -> TypeHandle
        ensures { result ≡ self }
    {
        self.handle
    }

    /// The handle as that of a `T`, if the type that it names is one.
    pub fn from_handle<D: OpSet, C: TypeStore<D>>(
        handle: TypeHandle,
        ctx: &C,
    ) -> Option<TypedHandle<T>>
    where
        T: TypeMark<D>,
        requires { IsLive (C.types ctx.now) handle }
        ensures found { IsSome result ↔ IsMarked T.marks (C.types ctx.now) handle }
        ensures same { IfSome result (λ h. h ≡ handle) }
        ensures live { IfSome result (IsLive (C.types ctx.now)) }
    {
        match T::project(ctx.types().get(handle)) {
            Some(_) => Some(TypedHandle::new(handle)),
            None => None,
        }
    }

    /// The type itself.
    pub fn deref<'a, D: OpSet + 'a, C: TypeStore<D>>(self, ctx: &'a C) -> &'a T
    where
        T: TypeMark<D> + 'a,
        requires live { IsLive (C.types ctx.now) self }
        requires marked { IsMarked T.marks (C.types ctx.now) self }
        ensures value { type_at (C.types ctx.now) self ≡ Some (T.seen result.now) }
        ensures live { AllLive (C.types ctx.now) (handles_of D.type_handles (T.seen result.now)) }
    {
        T::project(ctx.types().get(self.handle)).unwrap()
    }
}

/// The name of a kind of types or of an interface of types, as refusals tell it.
#[derive(Debug, Drop)]
pub struct MarkName(pub &'static str);

impl Model for MarkName {
    ghost use Rattle.std.specs.Prelude.{List, ℕ};

    ghost Value = { List ℕ };

    ghost view = { λ n. n.0.now };
}

impl MarkName {
    /// The text of the name.
    pub fn as_str(&self) -> &'static str
        ensures { result.now ≡ self.now }
    {
        self.0
    }
}

/// The mark of one kind of type: its name, and the test of a type value.
pub trait TypeMark<D: OpSet>: Sized {
    // The types that are of this kind, and how a type of this kind is seen among all types.
    ghost marks: { TypeView D.Ty → Bool };

    ghost seen: { Self → TypeView D.Ty };

    ghost NAME: { List ℕ };

    /// The name of the kind: the id of its types.
    const NAME: MarkName;

    /// The type as one of this kind, if it is one.
    fn project(ty: &TypeObj<D>) -> Option<&Self>
        ensures test { is_some result ≡ marks (type_view ty.now) }
        ensures value { IfSome result (λ t. seen t.now ≡ type_view ty.now) };

    // The name is the id of each type of this kind.
    ghost named_by_id: { (t : TypeView D.Ty) → marks t ≡ true → type_id D.type_id t ≡ NAME };
}

/// The mark of an interface of types: its name, and the test of a type value.
pub trait TypeInterfaceMark<D: OpSet> {
    // The types that implement the interface.
    ghost marks: { TypeView D.Ty → Bool };

    ghost NAME: { List ℕ };

    /// The name of the interface.
    const NAME: MarkName;

    /// Whether a type implements the interface.
    fn is_implemented_by(ty: &TypeObj<D>) -> bool
        ensures { result ≡ marks (type_view ty.now) };
}

impl<D: OpSet> TypeMark<D> for IntegerType {
    ghost use Rattle.std.specs.Prelude.{codes};

    ghost marks = { is_integer };

    ghost seen = { λ t. integer t.signedness t.width };

    ghost NAME = { codes "builtin.integer" };

    const NAME: MarkName = MarkName("builtin.integer");

    fn project(ty: &TypeObj<D>) -> Option<&IntegerType> {
        match ty {
            TypeObj::Integer(integer) => Some(integer),
            _ => None,
        }
    }

    ghost use Rattle.plir_data.specs.TypeNames.{integer_named};

    ghost named_by_id = { integer_named D.type_id };
}

impl<D: OpSet> TypeMark<D> for FunctionType {
    ghost use Rattle.std.specs.Prelude.{codes};

    ghost marks = { is_function };

    ghost seen = { λ t. function t.0.0 t.0.1 };

    ghost NAME = { codes "builtin.function" };

    const NAME: MarkName = MarkName("builtin.function");

    fn project(ty: &TypeObj<D>) -> Option<&FunctionType> {
        match ty {
            TypeObj::Function(function) => Some(function),
            _ => None,
        }
    }

    ghost use Rattle.plir_data.specs.TypeNames.{function_named};

    ghost named_by_id = { function_named D.type_id };
}

impl<D: OpSet> TypeMark<D> for UnitType {
    ghost use Rattle.std.specs.Prelude.{codes};

    ghost marks = { is_unit };

    ghost seen = { λ _. unit };

    ghost NAME = { codes "builtin.unit" };

    const NAME: MarkName = MarkName("builtin.unit");

    fn project(ty: &TypeObj<D>) -> Option<&UnitType> {
        match ty {
            TypeObj::Unit(unit) => Some(unit),
            _ => None,
        }
    }

    ghost use Rattle.plir_data.specs.TypeNames.{unit_named};

    ghost named_by_id = { unit_named D.type_id };
}

/// The mark of types of functions.
#[derive(Clone, Copy, PartialEq, Eq, Debug)]
pub struct FunctionTypeMark;

impl<D: OpSet> TypeInterfaceMark<D> for FunctionTypeMark {
    ghost use Rattle.std.specs.Prelude.{codes, is_some};

    ghost marks = { λ t. is_some (signature_of D.function_sig t) };

    ghost NAME = { codes "FunctionTypeInterface" };

    const NAME: MarkName = MarkName("FunctionTypeInterface");

    fn is_implemented_by(ty: &TypeObj<D>) -> bool {
        ty.function_sig().is_some()
    }
}
