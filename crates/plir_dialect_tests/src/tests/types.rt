//! The types and attributes of a dialect: what is written of them, copied and refused, in the dialect itself and in one
//! that it is joined to.
use joined_dialects::both::Both;
use joined_dialects::my::{Dense, My, Tensor};
use plir_attr_text::print_attr;
use plir_data::{
    AttrObj, IntegerType, OpSet, Signedness, TypeHandle, TypeObj, TypeStore, TypeTable, VerifyErr,
    type_text,
};
use plir_dialect::OneOf;
use plir_scripts::Stop;
use std::alloc::Global;
use std::test::Fail;

/// An op set that tensors and what fills them are a part of.
trait HasTensors: OpSet {
    /// A tensor, as a type of the set.
    fn tensor(ty: Tensor) -> Self::Ty;

    /// What fills a tensor, as an attribute of the set.
    fn dense(attr: Dense) -> Self::Attr;
}

impl HasTensors for My {
    fn tensor(ty: Tensor) -> Tensor {
        ty
    }

    fn dense(attr: Dense) -> Dense {
        attr
    }
}

impl HasTensors for Both {
    fn tensor(ty: Tensor) -> Self::Ty {
        OneOf::Second(ty)
    }

    fn dense(attr: Dense) -> Self::Attr {
        OneOf::Second(attr)
    }
}

// The type of four elements of a type.
fn four_of<D: HasTensors>(
    types: &mut TypeTable<D>,
    element: TypeHandle,
) -> Result<TypeHandle, Stop> {
    let ty = TypeObj::Own(D::tensor(Tensor { length: 4, element }));
    if !ty.is_live(types) {
        return Err(Stop::Refused);
    }
    Ok(types.instantiate(ty)?)
}

// The type of four bytes, in a table.
fn four_bytes<D: HasTensors>(types: &mut TypeTable<D>) -> Result<TypeHandle, Stop> {
    let byte = again!(IntegerType::get(types, 8, Signedness::Signed)).into();
    four_of(types, byte)
}

// The text of four tensors of four bytes.
fn type_written<D: HasTensors>(alloc: Global, types: &mut TypeTable<D>) -> Result<String, Stop> {
    let row = again!(four_bytes(types));
    let rows = again!(four_of(types, row));
    if !types.holds_type(rows) {
        return Err(Stop::Refused);
    }
    Ok(again!(type_text(alloc, types, rows)))
}

// The text of a copy of what fills a tensor with a number.
fn copy_written<D: HasTensors>(
    alloc: Global,
    types: &mut TypeTable<D>,
    value: u32,
) -> Result<String, Stop> {
    let ty = again!(four_bytes(types));
    let attr: AttrObj<D> = AttrObj::Own(D::dense(Dense { value, ty }));
    let copy = again!(attr.try_clone(alloc));
    if !copy.is_live(types) || copy.typed() != Some(ty) {
        return Err(Stop::Refused);
    }
    Ok(again!(print_attr(alloc, types, &copy)))
}

// What the verifier says of what fills a tensor with a number: `nothing` where it accepts, or the text of its refusal.
fn verdict<D: HasTensors>(
    alloc: Global,
    types: &mut TypeTable<D>,
    value: u32,
) -> Result<String, Stop> {
    let ty = again!(four_bytes(types));
    let attr: AttrObj<D> = AttrObj::Own(D::dense(Dense { value, ty }));
    if !attr.is_live(types) {
        return Err(Stop::Refused);
    }
    match attr.verify(alloc, types) {
        Ok(()) => Ok(again!(format!(in alloc; "nothing"))),
        Err(VerifyErr::Refused { err, .. }) => Ok(again!(format!(in alloc; "{err}"))),
        Err(VerifyErr::Memory) => Err(Stop::Memory),
    }
}

// What is asked in a new table of types.
#[derive(Clone, Copy)]
enum Question {
    // How a type is written.
    Type,
    // How a copy of what fills a tensor with a number is written.
    Copy(u32),
    // What the verifier says of what fills a tensor with a number.
    Verdict(u32),
}

// What is answered.
fn answer<D: HasTensors>(alloc: Global, question: Question) -> Result<String, Stop> {
    let mut types: TypeTable<D> = TypeTable::new(alloc);
    match question {
        Question::Type => type_written(alloc, &mut types),
        Question::Copy(value) => copy_written(alloc, &mut types, value),
        Question::Verdict(value) => verdict(alloc, &mut types, value),
    }
}

// What is answered in the dialect itself.
fn answer_alone(alloc: Global, question: Question) -> Result<String, Stop> {
    answer::<My>(alloc, question)
}

// What is answered in the set that it is joined to.
fn answer_joined(alloc: Global, question: Question) -> Result<String, Stop> {
    answer::<Both>(alloc, question)
}

#[test]
fn types_are_written_where_memory_is_refused(rt: HostRuntime) -> Result<(), Fail> {
    let written = "my.tensor <4 x my.tensor <4 x builtin.integer si8>>";
    assert!(rt; answer_alone(rt.alloc(), Question::Type)?.as_str() == written);
    assert!(rt; answer_joined(rt.alloc(), Question::Type)?.as_str() == written);
    Ok(())
}

#[test]
fn attributes_are_copied_and_written_where_memory_is_refused(rt: HostRuntime) -> Result<(), Fail> {
    let written = "my.dense <7> : my.tensor <4 x builtin.integer si8>";
    assert!(rt; answer_alone(rt.alloc(), Question::Copy(7))?.as_str() == written);
    assert!(rt; answer_joined(rt.alloc(), Question::Copy(7))?.as_str() == written);
    Ok(())
}

#[test]
fn attributes_are_verified_where_memory_is_refused(rt: HostRuntime) -> Result<(), Fail> {
    assert!(rt; answer_alone(rt.alloc(), Question::Verdict(255))?.as_str() == "nothing");
    assert!(rt; answer_alone(rt.alloc(), Question::Verdict(256))?.as_str() == "more than 255");
    assert!(rt; answer_joined(rt.alloc(), Question::Verdict(255))?.as_str() == "nothing");
    assert!(rt; answer_joined(rt.alloc(), Question::Verdict(256))?.as_str() == "more than 255");
    Ok(())
}
