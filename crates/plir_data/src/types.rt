//! Types: integers of some bits, functions, the unit type, and the user's own.

ghost use Rattle.std.specs.Prelude.{◌≡◌, ◌↔◌, ℕ, List, ◌++◌, IfOk, OnErr, IsTrue, option_map};
ghost use Rattle.plir_data.specs.Types.{AllLive, IsInstantiated, prints_as_signed, signature_of, integer, function};
ghost use Rattle.plir_data.specs.Types.{unit};
ghost use Rattle.plir_data.specs.TypeSeen.{type_view};

use crate::memory::Memory;
use crate::op_set::OpSet;
use crate::type_store::TypeStore;
use crate::typed_handle::TypedHandle;
use std::hash::{Hash, Hasher};
use std::marker::Model;

/// Names a type of a type table. Equal handles of one table name equal types, and equal types have equal handles.
#[derive(Clone, Copy, PartialEq, Eq, Hash, Debug)]
pub struct TypeHandle {
    index: usize,
}

impl Model for TypeHandle {
    ghost use Rattle.std.specs.Prelude.{ℕ};

    ghost Value = { ℕ };

    ghost view = { λ h. h.index };

    ghost inverse = { λ n. record { index = n } };
}

impl TypeHandle {
    pub(crate) fn new(index: usize) -> TypeHandle
        ensures { result ≡ index }
    {
        TypeHandle { index }
    }

    /// The place of the type in its table, counted from 0 in order of creation.
    pub fn index(self) -> usize
        ensures { result ≡ self }
    {
        self.index
    }
}

/// Whether an integer type has a sign.
#[derive(Clone, Copy, PartialEq, Eq, Hash, Debug)]
pub enum Signedness {
    Signed,
    Unsigned,
    Signless,
}

/// An integer type: its width in bits, from 0 to 4294967295, and its signedness.
#[derive(Clone, Copy, PartialEq, Eq, Hash, Debug)]
pub struct IntegerType {
    width: u32,
    signedness: Signedness,
}

/// A signature: the types of arguments and of results, in order.
#[derive(Debug, Drop)]
pub struct TypeSig {
    /// The types of the arguments.
    pub arguments: Vec<TypeHandle>,
    /// The types of the results.
    pub results: Vec<TypeHandle>,
}

impl Model for TypeSig {
    ghost use Rattle.std.specs.Prelude.{ℕ, List};

    ghost Value = { List ℕ × List ℕ };

    ghost view = { λ f. (f.arguments.items, f.results.items) };
}

impl PartialEq for TypeSig {
    ghost use Rattle.std.specs.Prelude.{nat_eq, ◌&&◌};
    ghost use Rattle.std.specs.Cmp.Lexicographic.{pointwise};
    ghost use Rattle.std.specs.Cmp.Rules.{comparing};
    ghost use Rattle.std.proofs.Common.{rules};

    ghost eq = { λ f g. pointwise nat_eq f.0 g.0 && pointwise nat_eq f.1 g.1 };

    ghost laws = { Prim.search (comparing, rules) };

    fn eq(&self, other: &Self) -> bool {
        self.arguments.as_slice() == other.arguments.as_slice()
            && self.results.as_slice() == other.results.as_slice()
    }
}

impl Eq for TypeSig {
    ghost use Rattle.std.specs.Cmp.Rules.{comparing};
    ghost use Rattle.std.proofs.Common.{rules};

    ghost laws = { Prim.search (comparing, rules) };
}

impl Hash for TypeSig {
    ghost use Rattle.std.specs.Prelude.{◌++◌};
    ghost use Rattle.std.specs.Hash as fed;
    ghost use Rattle.std.specs.Cmp.Rules.{hashing};
    ghost use Rattle.std.proofs.Common.{rules};

    ghost hash_input = { λ f. fed.slice fed.usize f.0 ++ fed.slice fed.usize f.1 };

    ghost respects_eq = { Prim.search (hashing, rules) };

    fn hash<H: Hasher>(&self, state: &mut H) {
        self.arguments.as_slice().hash(state);
        self.results.as_slice().hash(state);
    }
}

/// A function type.
#[derive(PartialEq, Eq, Hash, Debug, Drop)]
pub struct FunctionType(TypeSig);

/// The type of no information.
#[derive(Clone, Copy, PartialEq, Eq, Hash, Debug)]
pub struct UnitType;

/// A type.
#[derive(Drop)]
#[derive_where(PartialEq, Eq, Hash, Debug)]
pub enum TypeObj<D: OpSet> {
    Integer(IntegerType),
    Function(FunctionType),
    Unit(UnitType),
    /// One of the user's own.
    Own(D::Ty),
}

impl IntegerType {
    /// The integer type of a width, from 0 to 4294967295 bits, and a signedness.
    pub fn get<D: OpSet, C: TypeStore<D>>(
        ctx: &mut C,
        width: u32,
        signedness: Signedness,
    ) -> Result<TypedHandle<IntegerType>, Memory>
        ensures ok { IfOk result (λ h. IsInstantiated (C.types ctx.old) (integer signedness width) h
            (C.types ctx.new)) }
        ensures err { OnErr result (C.types ctx.new ≡ C.types ctx.old) }
        ensures rest { C.same_besides ctx.old ctx.new }
    {
        let handle = ctx.instantiate(TypeObj::Integer(IntegerType { width, signedness }))?;
        Ok(TypedHandle::new(handle))
    }

    /// The width in bits.
    pub fn width(&self) -> u32
        ensures { result ≡ self.now.width }
    {
        self.width
    }

    /// The signedness.
    pub fn signedness(&self) -> Signedness
        ensures { result ≡ self.now.signedness }
    {
        self.signedness
    }

    /// Whether the type is signed.
    pub fn is_signed(&self) -> bool
        ensures { IsTrue result ↔ (self.now.signedness ≡ Signedness.Signed) }
    {
        matches!(self.signedness, Signedness::Signed)
    }

    /// Whether the type is unsigned.
    pub fn is_unsigned(&self) -> bool
        ensures { IsTrue result ↔ (self.now.signedness ≡ Signedness.Unsigned) }
    {
        matches!(self.signedness, Signedness::Unsigned)
    }

    /// Whether the type is neither signed nor unsigned.
    pub fn is_signless(&self) -> bool
        ensures { IsTrue result ↔ (self.now.signedness ≡ Signedness.Signless) }
    {
        matches!(self.signedness, Signedness::Signless)
    }

    /// Whether values of the type are written with a sign: signed ones are, unsigned ones are not,
    /// signless ones are if they have more than one bit.
    pub fn prints_as_signed(&self) -> bool
        ensures { result ≡ prints_as_signed self.now.signedness self.now.width }
    {
        match self.signedness {
            Signedness::Signed => true,
            Signedness::Unsigned => false,
            Signedness::Signless => self.width > 1,
        }
    }
}

impl FunctionType {
    /// The function type of these argument and result types.
    pub fn get<D: OpSet, C: TypeStore<D>>(
        ctx: &mut C,
        arguments: Vec<TypeHandle>,
        results: Vec<TypeHandle>,
    ) -> Result<TypedHandle<FunctionType>, Memory>
        requires { AllLive (C.types ctx.old) (arguments.items ++ results.items) }
        ensures ok { IfOk result (λ h. IsInstantiated (C.types ctx.old) (function arguments.items results.items) h
            (C.types ctx.new)) }
        ensures err { OnErr result (C.types ctx.new ≡ C.types ctx.old) }
        ensures rest { C.same_besides ctx.old ctx.new }
    {
        let signature = TypeSig { arguments, results };
        let handle = ctx.instantiate(TypeObj::Function(FunctionType(signature)))?;
        Ok(TypedHandle::new(handle))
    }

    /// The signature.
    pub fn signature(&self) -> &TypeSig
        ensures { result.now ≡ self.now.0 }
    {
        &self.0
    }
}

impl UnitType {
    /// The unit type.
    pub fn get<D: OpSet, C: TypeStore<D>>(ctx: &mut C) -> Result<TypedHandle<UnitType>, Memory>
        ensures ok { IfOk result (λ h. IsInstantiated (C.types ctx.old) unit h (C.types ctx.new)) }
        ensures err { OnErr result (C.types ctx.new ≡ C.types ctx.old) }
        ensures rest { C.same_besides ctx.old ctx.new }
    {
        let handle = ctx.instantiate(TypeObj::Unit(UnitType))?;
        Ok(TypedHandle::new(handle))
    }
}

impl<D: OpSet> TypeObj<D> {
    /// The types of arguments and results, if this is a type of functions.
    pub fn function_sig(&self) -> Option<(&[TypeHandle], &[TypeHandle])>
        ensures { option_map (λ p. (p.0.now, p.1.now)) result ≡ signature_of D.function_sig (type_view self.now) }
    {
        match self {
            TypeObj::Function(function) => Some((function.arg_types(), function.res_types())),
            TypeObj::Own(own) => D::function_sig(own),
            TypeObj::Integer(_) | TypeObj::Unit(_) => None,
        }
    }
}

/// Types of functions.
pub trait FunctionTypeInterface {
    // The types of arguments and results.
    ghost signature: { Self → List ℕ × List ℕ };

    /// The types of the arguments.
    fn arg_types(&self) -> &[TypeHandle]
        ensures { result.now ≡ (signature self.now).0 };

    /// The types of the results.
    fn res_types(&self) -> &[TypeHandle]
        ensures { result.now ≡ (signature self.now).1 };

    /// Accepts always.
    final fn verify<C>(&self, _ctx: &C) -> Result<(), Memory>
        ensures { result ≡ Ok tt }
    {
        Ok(())
    }
}

impl FunctionTypeInterface for FunctionType {
    ghost signature = { λ f. f.0 };

    fn arg_types(&self) -> &[TypeHandle] {
        self.0.arguments.as_slice()
    }

    fn res_types(&self) -> &[TypeHandle] {
        self.0.results.as_slice()
    }
}
