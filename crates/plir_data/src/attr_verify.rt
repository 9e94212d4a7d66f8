//! Which attributes are valid.

ghost use Rattle.std.specs.Prelude.{◌≡◌, ⊤, Ok};
ghost use Rattle.plir_data.specs.AttrLive.{IsAttrLive, AreItemsLive};
ghost use Rattle.plir_data.specs.AttrSeen.{attr_view};
ghost use Rattle.plir_data.specs.AttrVerify.{is_of_width, attr_is_valid, items_are_valid, IsLeafRefusal, IsRefusal};
ghost use Rattle.plir_data.specs.AttrVerify.{IsFirstRefusal};
ghost use Rattle.plir_data.specs.AttrView.{items_of, own};
ghost use Rattle.plir_data.specs.Types.{IsLive, AllLive, type_at};
ghost use Rattle.plir_data.specs.Verify.{IsVerdict, IsSureVerdict};
ghost use Rattle.plir_data.specs.declared.attr_verify.AttrVerifyErr.TheVariants.{IntegerAttrBitwidth};

use crate::attributes::{AttrObj, DictAttr, GivenNamesAttr, OperandSegmentSizesAttr, VecAttr};
use crate::location::{Location, VerifyErr};
use crate::memory::Memory;
use crate::op_set::OpSet;
use crate::plain_attrs::IntegerAttr;
use crate::type_store::TypeStore;
use crate::types::TypeObj;
use std::alloc::Global;
use std::error::Error;
use thiserror::Error;

/// The type of an integer and its value differ in width.
#[derive(Clone, Copy, PartialEq, Eq, Debug, Error)]
#[error("The bitwidth type does not match the bitwidth of the value.")]
pub struct IntegerAttrBitwidthErr;

/// Why an attribute is not valid.
#[derive(PartialEq, Eq, Debug, Drop, Error)]
pub enum AttrVerifyErr<E: Error> {
    #[error(transparent)]
    IntegerAttrBitwidth(IntegerAttrBitwidthErr),
    #[error(transparent)]
    Own(E),
}

impl IntegerAttr {
    /// Whether the type of the integer has the width of its value: the refusal if it hasn't, its place `Unknown`.
    pub fn verify<D: OpSet, C: TypeStore<D>>(
        &self,
        ctx: &C,
    ) -> Result<(), VerifyErr<IntegerAttrBitwidthErr>>
        requires { IsLive (C.types ctx.now) self.now.ty }
        ensures { IsSureVerdict (is_of_width self.now.value.width (type_at (C.types ctx.now) self.now.ty)) (λ _. ⊤)
            result }
    {
        if self.is_of_type_width(ctx) {
            return Ok(());
        }
        Err(VerifyErr::Refused {
            loc: Location::Unknown,
            err: IntegerAttrBitwidthErr,
        })
    }

    fn is_of_type_width<D: OpSet, C: TypeStore<D>>(&self, ctx: &C) -> bool
        requires { IsLive (C.types ctx.now) self.now.ty }
        ensures { result ≡ is_of_width self.now.value.width (type_at (C.types ctx.now) self.now.ty) }
    {
        match ctx.types().get(self.get_type().into()) {
            TypeObj::Integer(ty) => ty.width() == self.value().bw(),
            _ => false,
        }
    }
}

impl<D: OpSet> AttrObj<D> {
    /// Whether the attribute is valid: a refusal if it isn't, its place `Unknown`.
    ///
    /// An integer's type has the width of its value; all of a list are valid, and the refusal is of
    /// the first that isn't; of the user's own the op set decides; the others are valid, a
    /// dictionary whatever it holds.
    #[cycle(verify)]
    pub fn verify<C: TypeStore<D>>(
        &self,
        alloc: Global,
        ctx: &C,
    ) -> Result<(), VerifyErr<AttrVerifyErr<D::Err>>>
        requires { IsAttrLive D.attr_handles (C.types ctx.now) (attr_view self.now) }
        ensures { IsVerdict (attr_is_valid (D.attr_is_valid (C.types ctx.now)) (C.types ctx.now) (attr_view self.now))
            (IsRefusal (D.attr_is_valid (C.types ctx.now)) (D.attr_refusal (C.types ctx.now)) (C.types ctx.now)
            (attr_view self.now)) result }
    {
        match self {
            AttrObj::Integer(value) => verify_integer(value, ctx),
            AttrObj::Vec(value) => value.verify(alloc, ctx),
            AttrObj::Own(value) => verify_own(alloc, value, ctx),
            _ => Ok(()),
        }
    }
}

impl<D: OpSet> DictAttr<D> {
    /// Accepts whatever the dictionary holds.
    pub fn verify<C>(&self, _ctx: &C) -> Result<(), Memory>
        ensures { result ≡ Ok tt }
    {
        Ok(())
    }
}

impl OperandSegmentSizesAttr {
    /// Accepts always.
    pub fn verify<C>(&self, _ctx: &C) -> Result<(), Memory>
        ensures { result ≡ Ok tt }
    {
        Ok(())
    }
}

impl GivenNamesAttr {
    /// Accepts always.
    pub fn verify<C>(&self, _ctx: &C) -> Result<(), Memory>
        ensures { result ≡ Ok tt }
    {
        Ok(())
    }
}

impl<D: OpSet> VecAttr<D> {
    /// Whether all attributes of the list are valid: a refusal of the first that isn't, its place `Unknown`.
    #[cycle(verify)]
    pub fn verify<C: TypeStore<D>>(
        &self,
        alloc: Global,
        ctx: &C,
    ) -> Result<(), VerifyErr<AttrVerifyErr<D::Err>>>
        requires { AreItemsLive D.attr_handles (C.types ctx.now) (items_of self.now) }
        ensures { IsVerdict (items_are_valid (D.attr_is_valid (C.types ctx.now)) (C.types ctx.now) (items_of self.now))
            (IsFirstRefusal (D.attr_is_valid (C.types ctx.now)) (D.attr_refusal (C.types ctx.now)) (C.types ctx.now)
            (items_of self.now)) result }
    {
        let items = self.0.as_slice();
        'items: for item in items {
            if let Err(refusal) = item.verify(alloc, ctx) {
                return Err(refusal);
            }
        }
        Ok(())
    }
}

fn verify_integer<D: OpSet, C: TypeStore<D>>(
    value: &IntegerAttr,
    ctx: &C,
) -> Result<(), VerifyErr<AttrVerifyErr<D::Err>>>
    requires { IsLive (C.types ctx.now) value.now.ty }
    ensures { IsVerdict (is_of_width value.now.value.width (type_at (C.types ctx.now) value.now.ty))
        (λ err. err ≡ IntegerAttrBitwidth (record {})) result }
{
    if value.is_of_type_width(ctx) {
        return Ok(());
    }
    Err(VerifyErr::Refused {
        loc: Location::Unknown,
        err: AttrVerifyErr::IntegerAttrBitwidth(IntegerAttrBitwidthErr),
    })
}

fn verify_own<D: OpSet, C: TypeStore<D>>(
    alloc: Global,
    value: &D::Attr,
    ctx: &C,
) -> Result<(), VerifyErr<AttrVerifyErr<D::Err>>>
    requires { AllLive (C.types ctx.now) (D.attr_handles value.now) }
    ensures { IsVerdict (D.attr_is_valid (C.types ctx.now) value.now) (IsLeafRefusal (D.attr_refusal (C.types ctx.now))
        (own value.now)) result }
{
    match D::verify_attr(alloc, value, ctx) {
        Ok(()) => Ok(()),
        Err(VerifyErr::Refused { loc, err }) => {
            let err = AttrVerifyErr::Own(err);
            Err(VerifyErr::Refused { loc, err })
        }
        Err(VerifyErr::Memory) => Err(VerifyErr::Memory),
    }
}
