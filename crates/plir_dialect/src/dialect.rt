//! An op set of small parts.

ghost use Rattle.std.specs.Prelude.{◌↔◌, IsTrue};
ghost use Rattle.plir_data.specs.Types.{IsLive};

use crate::live_types::ByTest;
use crate::own_attr::OwnAttr;
use crate::own_type::OwnType;
use crate::verdicts::of_attr;
use plir_data::{Memory, NoMeaning, OpSet, OwnKind, OwnText, TypeHandle, TypeStore, VerifyErr};
use std::alloc::Global;
use std::error::Error as StdError;
use std::marker::PhantomData;
use thiserror::Error;

/// The op set that adds kinds of operations, attributes and types to the builtin dialect. [`NoMeaning`] stands where
/// there are none to add.
pub struct Dialect<K, A = NoMeaning, T = NoMeaning> {
    parts: PhantomData<(K, A, T)>,
}

/// Refusals of a dialect's own verifiers: of an operation, by its kind, or of an attribute.
#[derive(PartialEq, Eq, Drop, Debug, Error)]
#[error_bound(K: StdError, A: StdError)]
pub enum DialectErr<K, A> {
    /// That of a kind of operations.
    #[error("{0}")]
    Kind(K),
    /// That of an attribute.
    #[error("{0}")]
    Attr(A),
}

impl<K: OwnKind, A: OwnAttr, T: OwnType> OpSet for Dialect<K, A, T> {
    ghost use Rattle.plir_dialect.specs.Errors.{IsOfAttr};

    type Kind = K;

    type Attr = A;

    type Ty = T;

    type Err = DialectErr<K::Err, A::Err>;

    ghost is_terminator = { K.is_terminator };

    ghost is_symbol = { K.is_symbol };

    ghost is_symbol_table = { K.is_symbol_table };

    ghost is_symbol_user = { K.is_symbol_user };

    ghost kind_id = { K.id };

    ghost attr_id = { A.id };

    ghost attr_text = { A.text };

    ghost attr_type = { A.get_type };

    ghost attr_outlined = { A.is_outlined };

    ghost type_id = { T.id };

    ghost type_body_text = { T.text };

    ghost function_sig = { T.signature };

    ghost attr_is_valid = { λ _. A.is_valid };

    ghost attr_refusal = { λ _ attr. IsOfAttr (A.refusal attr) };

    ghost attr_handles = { A.handles };

    ghost type_handles = { T.handles };

    fn is_terminator(kind: K) -> bool {
        kind.is_terminator()
    }

    fn is_symbol(kind: K) -> bool {
        kind.is_symbol()
    }

    fn is_symbol_table(kind: K) -> bool {
        kind.is_symbol_table()
    }

    fn is_symbol_user(kind: K) -> bool {
        kind.is_symbol_user()
    }

    fn kind_id(kind: K) -> &'static str {
        kind.id()
    }

    fn attr_id(attr: &A) -> &'static str {
        attr.id()
    }

    fn attr_text(alloc: Global, attr: &A) -> Result<OwnText, Memory> {
        attr.text(alloc)
    }

    fn attr_type(attr: &A) -> Option<TypeHandle> {
        attr.get_type()
    }

    fn attr_outlined(attr: &A) -> bool {
        attr.is_outlined()
    }

    fn verify_attr<C: TypeStore<Self>>(
        alloc: Global,
        attr: &A,
        _ctx: &C,
    ) -> Result<(), VerifyErr<DialectErr<K::Err, A::Err>>> {
        of_attr(attr.verify(alloc))
    }

    fn clone_attr(alloc: Global, attr: &A) -> Result<A, Memory> {
        attr.try_clone(alloc)
    }

    fn is_attr_live<C: TypeStore<Self>>(attr: &A, ctx: &C) -> bool {
        let test = |handle: TypeHandle| -> bool
            ensures { IsTrue result ↔ IsLive (C.types ctx.entry.now) handle }
        { ctx.holds_type(handle) };
        attr.is_live(&ByTest { test })
    }

    fn type_id(ty: &T) -> &'static str {
        ty.id()
    }

    fn type_body_text(alloc: Global, ty: &T) -> Result<OwnText, Memory> {
        ty.text(alloc)
    }

    fn function_sig(ty: &T) -> Option<(&[TypeHandle], &[TypeHandle])> {
        ty.signature()
    }

    fn is_type_live<C: TypeStore<Self>>(ty: &T, ctx: &C) -> bool {
        let test = |handle: TypeHandle| -> bool
            ensures { IsTrue result ↔ IsLive (C.types ctx.entry.now) handle }
        { ctx.holds_type(handle) };
        ty.is_live(&ByTest { test })
    }

    ghost attr_eq_exact = { A.eq_exact };

    ghost type_eq_exact = { T.eq_exact };

    ghost attr_type_held = { A.type_held };

    ghost arguments_held = { T.arguments_held };

    ghost results_held = { T.results_held };

    ghost attr_text_held = { A.text_held };

    ghost type_body_text_held = { T.text_held };
}
