//! Copies of attributes.

ghost use Rattle.std.specs.Prelude.{◌≡◌, IfOk, map, true};
ghost use Rattle.plir_data.specs.AttrSeen.{attr_view};
ghost use Rattle.plir_data.specs.AttrView.{is_leaf};

use crate::attribute_dict::AttributeDict;
use crate::attributes::{AttrObj, DictAttr, VecAttr};
use crate::memory::Memory;
use crate::op_set::OpSet;
use std::alloc::Global;

impl<D: OpSet> AttrObj<D> {
    /// An equal attribute.
    pub fn try_clone(&self, alloc: Global) -> Result<AttrObj<D>, Memory>
        ensures { IfOk result (λ a. attr_view a ≡ attr_view self.now) }
    {
        copy_of(alloc, self)
    }
}

impl<D: OpSet> DictAttr<D> {
    /// An equal attribute.
    pub fn try_clone(&self, alloc: Global) -> Result<DictAttr<D>, Memory>
        ensures { IfOk result (λ a. a ≡ self.now) }
    {
        Ok(DictAttr(self.0.try_clone(alloc)?))
    }
}

impl<D: OpSet> AttributeDict<D> {
    /// Equal attributes under the same keys.
    pub fn try_clone(&self, alloc: Global) -> Result<AttributeDict<D>, Memory>
        ensures { IfOk result (λ d. d ≡ self.now) }
    {
        copy_of_dict(alloc, self)
    }
}

impl<D: OpSet> VecAttr<D> {
    /// An equal attribute.
    pub fn try_clone(&self, alloc: Global) -> Result<VecAttr<D>, Memory>
        ensures { IfOk result (λ a. a ≡ self.now) }
    {
        Ok(VecAttr(copy_of_items(alloc, &self.0)?))
    }
}

#[cycle(copy)]
fn copy_of<D: OpSet>(alloc: Global, attr: &AttrObj<D>) -> Result<AttrObj<D>, Memory>
    ensures { IfOk result (λ a. attr_view a ≡ attr_view attr.now) }
{
    match attr {
        AttrObj::Dict(value) => Ok(AttrObj::Dict(DictAttr(copy_of_dict(alloc, &value.0)?))),
        AttrObj::Vec(value) => Ok(AttrObj::Vec(VecAttr(copy_of_items(alloc, &value.0)?))),
        _ => copy_of_leaf(alloc, attr),
    }
}

// The same of an attribute that holds no others.
fn copy_of_leaf<D: OpSet>(alloc: Global, attr: &AttrObj<D>) -> Result<AttrObj<D>, Memory>
    requires { is_leaf (attr_view attr.now) ≡ true }
    ensures { IfOk result (λ a. attr_view a ≡ attr_view attr.now) }
{
    match attr {
        AttrObj::Identifier(value) => Ok(AttrObj::Identifier(value.try_clone(alloc)?)),
        AttrObj::String(value) => Ok(AttrObj::String(value.try_clone(alloc)?)),
        AttrObj::Bool(value) => Ok(AttrObj::Bool(*value)),
        AttrObj::Integer(value) => Ok(AttrObj::Integer(*value)),
        AttrObj::Dict(_) | AttrObj::Vec(_) => unreachable!(),
        AttrObj::Unit(value) => Ok(AttrObj::Unit(*value)),
        AttrObj::Type(value) => Ok(AttrObj::Type(*value)),
        AttrObj::OperandSegmentSizes(value) => {
            Ok(AttrObj::OperandSegmentSizes(value.try_clone(alloc)?))
        }
        AttrObj::GivenNames(value) => Ok(AttrObj::GivenNames(value.try_clone(alloc)?)),
        AttrObj::Own(value) => Ok(AttrObj::Own(D::clone_attr(alloc, value)?)),
    }
}

#[cycle(copy)]
fn copy_of_items<D: OpSet>(
    alloc: Global,
    items: &Vec<AttrObj<D>>,
) -> Result<Vec<AttrObj<D>>, Memory>
    ensures { IfOk result (λ v. map attr_view v.items ≡ map attr_view items.now.items) }
{
    let mut copies = Vec::with_capacity(alloc, items.len())?;
    'items: for item in items {
        copies.push(copy_of(alloc, item)?)?;
    }
    Ok(copies)
}

#[cycle(copy)]
fn copy_of_dict<D: OpSet>(
    alloc: Global,
    dict: &AttributeDict<D>,
) -> Result<AttributeDict<D>, Memory>
    ensures { IfOk result (λ d. d ≡ dict.now) }
{
    let mut entries = Vec::with_capacity(alloc, dict.len())?;
    'entries: for (key, value) in dict.iter() {
        let name = key.try_clone(alloc)?;
        let copy = copy_of(alloc, value)?;
        entries.push((name, copy))?;
    }
    Ok(AttributeDict { entries })
}
