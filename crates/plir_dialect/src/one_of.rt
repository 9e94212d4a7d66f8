//! A thing of one of two dialects.

use crate::live_types::LiveTypes;
use crate::own_attr::OwnAttr;
use crate::own_type::OwnType;
use crate::verdicts::{of_first, of_second};
use plir_data::{Memory, OwnKind, OwnText, TypeHandle, VerifyErr};
use std::alloc::Global;
use std::error::Error as StdError;
use thiserror::Error;

/// A thing of the first dialect or of the second: a kind of operations, an attribute, a type or a refusal. What is
/// asked of it is answered by its own side.
#[derive(Clone, Copy, PartialEq, Eq, Hash, Drop, Debug, Error)]
#[error_bound(A: StdError, B: StdError)]
pub enum OneOf<A, B> {
    /// Of the first.
    #[error("{0}")]
    First(A),
    /// Of the second.
    #[error("{0}")]
    Second(B),
}

impl<A: OwnKind, B: OwnKind> OwnKind for OneOf<A, B> {
    ghost use Rattle.plir_dialect.specs.Sides.{at_side};

    type Err = OneOf<A::Err, B::Err>;

    ghost is_terminator = { at_side A.is_terminator B.is_terminator };

    ghost is_symbol = { at_side A.is_symbol B.is_symbol };

    ghost is_symbol_table = { at_side A.is_symbol_table B.is_symbol_table };

    ghost is_symbol_user = { at_side A.is_symbol_user B.is_symbol_user };

    ghost id = { at_side A.id B.id };

    fn is_terminator(self) -> bool {
        match self {
            OneOf::First(kind) => kind.is_terminator(),
            OneOf::Second(kind) => kind.is_terminator(),
        }
    }

    fn is_symbol(self) -> bool {
        match self {
            OneOf::First(kind) => kind.is_symbol(),
            OneOf::Second(kind) => kind.is_symbol(),
        }
    }

    fn is_symbol_table(self) -> bool {
        match self {
            OneOf::First(kind) => kind.is_symbol_table(),
            OneOf::Second(kind) => kind.is_symbol_table(),
        }
    }

    fn is_symbol_user(self) -> bool {
        match self {
            OneOf::First(kind) => kind.is_symbol_user(),
            OneOf::Second(kind) => kind.is_symbol_user(),
        }
    }

    fn id(self) -> &'static str {
        match self {
            OneOf::First(kind) => kind.id(),
            OneOf::Second(kind) => kind.id(),
        }
    }
}

impl<A: OwnAttr, B: OwnAttr> OwnAttr for OneOf<A, B> {
    ghost use Rattle.plir_dialect.specs.Sides.{at_side, IsSidesRefusal};

    type Err = OneOf<A::Err, B::Err>;

    ghost id = { at_side A.id B.id };

    ghost text = { at_side A.text B.text };

    ghost get_type = { at_side A.get_type B.get_type };

    ghost is_outlined = { at_side A.is_outlined B.is_outlined };

    ghost is_valid = { at_side A.is_valid B.is_valid };

    ghost refusal = { IsSidesRefusal A.refusal B.refusal };

    ghost handles = { at_side A.handles B.handles };

    fn id(&self) -> &'static str {
        match self {
            OneOf::First(attr) => attr.id(),
            OneOf::Second(attr) => attr.id(),
        }
    }

    fn text(&self, alloc: Global) -> Result<OwnText, Memory> {
        match self {
            OneOf::First(attr) => attr.text(alloc),
            OneOf::Second(attr) => attr.text(alloc),
        }
    }

    fn get_type(&self) -> Option<TypeHandle> {
        match self {
            OneOf::First(attr) => attr.get_type(),
            OneOf::Second(attr) => attr.get_type(),
        }
    }

    fn is_outlined(&self) -> bool {
        match self {
            OneOf::First(attr) => attr.is_outlined(),
            OneOf::Second(attr) => attr.is_outlined(),
        }
    }

    fn verify(&self, alloc: Global) -> Result<(), VerifyErr<OneOf<A::Err, B::Err>>> {
        match self {
            OneOf::First(attr) => of_first(attr.verify(alloc)),
            OneOf::Second(attr) => of_second(attr.verify(alloc)),
        }
    }

    fn try_clone(&self, alloc: Global) -> Result<OneOf<A, B>, Memory> {
        match self {
            OneOf::First(attr) => Ok(OneOf::First(attr.try_clone(alloc)?)),
            OneOf::Second(attr) => Ok(OneOf::Second(attr.try_clone(alloc)?)),
        }
    }

    fn is_live<L: LiveTypes>(&self, types: &L) -> bool {
        match self {
            OneOf::First(attr) => attr.is_live(types),
            OneOf::Second(attr) => attr.is_live(types),
        }
    }

    ghost use Rattle.std.proofs.Common.{ap, sym, true≢false};
    ghost use Rattle.plir_dialect.specs.declared.one_of.OneOf.TheVariants.{First, Second};

    ghost eq_exact = { elim [
      | First a ↦ elim [ First b ↦ λ e. ap First (A.eq_exact a b e) | Second b ↦ λ e. absurd (true≢false (sym e)) ]
      | Second a ↦ elim [ First b ↦ λ e. absurd (true≢false (sym e)) | Second b ↦ λ e. ap Second (B.eq_exact a b e) ]
    ] };

    ghost type_held = { elim [ First a ↦ A.type_held a | Second b ↦ B.type_held b ] };

    ghost text_held = { elim [ First a ↦ A.text_held a | Second b ↦ B.text_held b ] };
}

impl<A: OwnType, B: OwnType> OwnType for OneOf<A, B> {
    ghost use Rattle.plir_dialect.specs.Sides.{at_side};

    ghost id = { at_side A.id B.id };

    ghost text = { at_side A.text B.text };

    ghost signature = { at_side A.signature B.signature };

    ghost handles = { at_side A.handles B.handles };

    fn id(&self) -> &'static str {
        match self {
            OneOf::First(ty) => ty.id(),
            OneOf::Second(ty) => ty.id(),
        }
    }

    fn text(&self, alloc: Global) -> Result<OwnText, Memory> {
        match self {
            OneOf::First(ty) => ty.text(alloc),
            OneOf::Second(ty) => ty.text(alloc),
        }
    }

    fn signature(&self) -> Option<(&[TypeHandle], &[TypeHandle])> {
        match self {
            OneOf::First(ty) => ty.signature(),
            OneOf::Second(ty) => ty.signature(),
        }
    }

    fn is_live<L: LiveTypes>(&self, types: &L) -> bool {
        match self {
            OneOf::First(ty) => ty.is_live(types),
            OneOf::Second(ty) => ty.is_live(types),
        }
    }

    ghost use Rattle.std.proofs.Common.{ap, sym, true≢false};
    ghost use Rattle.plir_dialect.specs.declared.one_of.OneOf.TheVariants.{First, Second};

    ghost eq_exact = { elim [
      | First a ↦ elim [ First b ↦ λ e. ap First (A.eq_exact a b e) | Second b ↦ λ e. absurd (true≢false (sym e)) ]
      | Second a ↦ elim [ First b ↦ λ e. absurd (true≢false (sym e)) | Second b ↦ λ e. ap Second (B.eq_exact a b e) ]
    ] };

    ghost arguments_held = { elim [ First a ↦ A.arguments_held a | Second b ↦ B.arguments_held b ] };

    ghost results_held = { elim [ First a ↦ A.results_held a | Second b ↦ B.results_held b ] };

    ghost text_held = { elim [ First a ↦ A.text_held a | Second b ↦ B.text_held b ] };
}
