//! Types and attributes that hold types, in use.
use crate::holder_set::{Dense, HolderSet, HolderType, Tensor};
use plir_attr_text::print_attr;
use plir_data::{
    AttrObj, IntegerType, Memory, Signedness, TypeHandle, TypeObj, TypeSig, TypeStore, TypeTable,
    VecAttr, type_text,
};
use std::alloc::Global;
use std::test::Fail;

type Types = TypeTable<HolderSet>;

// An own type, put into the table.
fn put(types: &mut Types, value: HolderType) -> Result<TypeHandle, Memory> {
    let value = TypeObj::Own(value);
    if !value.is_live(types) {
        return Err(Memory);
    }
    types.instantiate(value)
}

// A tensor of a type.
fn tensor(types: &mut Types, length: u32, element: TypeHandle) -> Result<TypeHandle, Memory> {
    put(types, HolderType::Tensor(Tensor { length, element }))
}

// The routine from two types to the first of them.
fn routine(
    alloc: Global,
    types: &mut Types,
    first: TypeHandle,
    second: TypeHandle,
) -> Result<TypeHandle, Memory> {
    let arguments = Vec::from_array(alloc, [first, second])?;
    let results = Vec::from_array(alloc, [first])?;
    put(types, HolderType::Routine(TypeSig { arguments, results }))
}

// The text of a type that the table holds.
fn text_of(alloc: Global, types: &Types, ty: TypeHandle) -> Result<String, Memory> {
    if !types.holds_type(ty) {
        return Err(Memory);
    }
    Ok(again!(type_text(alloc, types, ty)))
}

// The text of an attribute whose handles name types of the table.
fn text_of_attr(alloc: Global, types: &Types, attr: &AttrObj<HolderSet>) -> Result<String, Memory> {
    if !attr.is_live(types) {
        return Err(Memory);
    }
    Ok(again!(print_attr(alloc, types, attr)))
}

// An integer type of 8 bits with a sign.
fn si8(types: &mut Types) -> Result<TypeHandle, Memory> {
    Ok(IntegerType::get(types, 8, Signedness::Signed)?.into())
}

// The text of a tensor of tensors, and of a routine from a tensor.
fn type_texts(alloc: Global, types: &mut Types) -> Result<(String, String), Memory> {
    let byte = again!(si8(types));
    let row = again!(tensor(types, 4, byte));
    let table = again!(tensor(types, 2, row));
    let called = again!(routine(alloc, types, row, byte));
    let text = text_of(alloc, types, table)?;
    Ok((text, text_of(alloc, types, called)?))
}

#[test]
fn writes_the_types_that_a_type_holds_where_memory_is_refused(rt: HostRuntime) -> Result<(), Fail> {
    let alloc = rt.alloc();
    let mut types: Types = TypeTable::new(alloc);
    let (table, called) = type_texts(alloc, &mut types)?;
    assert!(rt; table.as_str() == "holder.tensor <2 x holder.tensor <4 x builtin.integer si8>>");
    let routine = "holder.routine from holder.tensor <4 x builtin.integer si8> builtin.integer si8 \
        to holder.tensor <4 x builtin.integer si8>";
    assert!(rt; called.as_str() == routine);
    Ok(())
}

// The text of an own attribute with a type.
fn dense_text(alloc: Global, types: &mut Types) -> Result<String, Memory> {
    let byte = again!(si8(types));
    let ty = again!(tensor(types, 4, byte));
    text_of_attr(alloc, types, &AttrObj::Own(Dense { value: 7, ty }))
}

#[test]
fn writes_the_type_that_an_attribute_holds_where_memory_is_refused(
    rt: HostRuntime,
) -> Result<(), Fail> {
    let alloc = rt.alloc();
    let mut types: Types = TypeTable::new(alloc);
    let text = dense_text(alloc, &mut types)?;
    assert!(rt; text.as_str() == "holder.dense <7> : holder.tensor <4 x builtin.integer si8>");
    Ok(())
}

// A list of two own attributes, each with a type.
fn pair(alloc: Global, ty: TypeHandle) -> Result<AttrObj<HolderSet>, Memory> {
    let seven = AttrObj::Own(Dense { value: 7, ty });
    let eight = AttrObj::Own(Dense { value: 8, ty });
    let items = Vec::from_array(alloc, [seven, eight])?;
    Ok(AttrObj::Vec(VecAttr::new(items)))
}

// The text of such a list.
fn list_text(alloc: Global, types: &mut Types) -> Result<String, Memory> {
    let byte = again!(si8(types));
    let list = again!(pair(alloc, byte));
    text_of_attr(alloc, types, &list)
}

#[test]
fn writes_the_own_attributes_of_a_list_where_memory_is_refused(
    rt: HostRuntime,
) -> Result<(), Fail> {
    let alloc = rt.alloc();
    let mut types: Types = TypeTable::new(alloc);
    let text = list_text(alloc, &mut types)?;
    let written =
        "builtin.vec [holder.dense <7> : builtin.integer si8, holder.dense <8> : builtin.integer si8]";
    assert!(rt; text.as_str() == written);
    Ok(())
}

#[test]
fn tells_which_type_an_attribute_has(rt: HostRuntime) -> Result<(), Fail> {
    let mut types: Types = TypeTable::new(rt.alloc());
    let ty = again!(si8(&mut types));
    let attr: AttrObj<HolderSet> = AttrObj::Own(Dense { value: 7, ty });
    assert!(rt; attr.typed() == Some(ty));
    Ok(())
}

#[test]
fn tells_whether_what_it_holds_is_live(rt: HostRuntime) -> Result<(), Fail> {
    let alloc = rt.alloc();
    let mut types: Types = TypeTable::new(alloc);
    let empty: Types = TypeTable::new(alloc);
    let si8 = again!(IntegerType::get(&mut types, 8, Signedness::Signed)).into();
    let row = TypeObj::Own(HolderType::Tensor(Tensor {
        length: 4,
        element: si8,
    }));
    assert!(rt; row.is_live(&types));
    assert!(rt; !row.is_live(&empty));
    let attr: AttrObj<HolderSet> = AttrObj::Own(Dense { value: 7, ty: si8 });
    assert!(rt; !attr.is_live(&empty));
    Ok(())
}
