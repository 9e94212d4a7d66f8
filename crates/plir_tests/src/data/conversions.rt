//! Conversions, bounds, and given names, which no text has.
ghost use Rattle.std.specs.Prelude.{◌≡◌, []};

use plir_data::{
    APInt, BoolAttr, GivenNamesAttr, Identifier, IdentifierAttr, IntegerAttr, IntegerType, OpSet,
    PrintOnceAttr, Signedness, StringAttr, TypeAttr, TypeHandle, TypeTable, Typed,
    TypedAttrInterface, TypedHandle, UnitAttr, VerifyErr,
};
use plir_scripts::{NotMarked, SampleAttr, SampleSet};
use std::convert::AsStr;
use std::fmt::Write;
use std::process::Abort;
use std::test::Fail;

// The names are gone once the list that was lent is cleared.
fn clear(names: &mut GivenNamesAttr)
    ensures { names.new ≡ [] }
{
    names.names_mut().clear();
}

#[test]
fn lends_its_names_where_memory_is_refused(rt: HostRuntime) -> Result<(), Fail> {
    let alloc = rt.alloc();
    let mut names = GivenNamesAttr::new(alloc);
    let first = again!(Identifier::try_new(alloc, "first"));
    again!(names.names_mut().reserve(2));
    names.names_mut().push(Some(first))?;
    names.names_mut().push(None)?;
    assert_eq!(rt; names.names().len(), 2);
    let copy = again!(names.try_clone(alloc));
    assert!(rt; copy == names);
    clear(&mut names);
    assert!(rt; names == GivenNamesAttr::new(alloc));
    assert!(rt; copy != names);
    Ok(())
}

// The type of what has one, through the bound.
fn type_of<D: OpSet, T: TypedAttrInterface<D>>(attr: &T) -> TypeHandle {
    attr.get_type()
}

// The type of what has one in some context, through the bound.
fn type_in<C, T: Typed<C>>(ctx: &C, value: &T) -> TypeHandle
    requires { T.has_type ctx.now value.now }
{
    value.get_type(ctx)
}

// Whether an attribute that is printed once is left out, through the bound.
fn is_left_out<T: PrintOnceAttr<SampleSet>>(attr: &T) -> bool {
    attr.outline()
}

// An integer has this type.
fn integer_has<D: OpSet>(rt: &impl Abort, table: &TypeTable<D>, ty: TypedHandle<IntegerType>) {
    let seven = IntegerAttr::new(ty, APInt::from_u64(7, 8).expect(rt, "a width"));
    assert!(rt; type_of::<D, _>(&seven) == ty.into());
    assert!(rt; type_in(table, &seven) == ty.into());
}

// The attribute of a type has it, and becomes it again.
fn type_has<D: OpSet>(rt: &impl Abort, table: &TypeTable<D>, handle: TypeHandle) {
    let ty = TypeAttr::from(handle);
    assert!(rt; type_of::<D, _>(&ty) == handle);
    assert!(rt; type_in(table, &ty) == handle);
    assert!(rt; TypeHandle::from(ty) == handle);
}

// What is of a type has it.
fn has_its_type<D: OpSet>(rt: &impl Abort, table: &mut TypeTable<D>) -> Result<(), Fail> {
    let si8 = again!(IntegerType::get(table, 8, Signedness::Signed));
    integer_has(rt, table, si8);
    type_has(rt, table, si8.into());
    Ok(())
}

#[test]
fn has_a_type(rt: HostRuntime) -> Result<(), Fail> {
    let mut table: TypeTable<SampleSet> = TypeTable::new(rt.alloc());
    has_its_type(&rt, &mut table)
}

#[test]
fn is_left_out_where_printed_once(rt: HostRuntime) {
    assert!(rt; is_left_out(&SampleAttr(true)));
    assert!(rt; !is_left_out(&SampleAttr(false)));
    assert!(rt; PrintOnceAttr::<SampleSet>::verify(&SampleAttr(true), &()) == Ok(()));
}

#[test]
fn converts(rt: HostRuntime) -> Result<(), Fail> {
    let alloc = rt.alloc();
    assert!(rt; bool::from(BoolAttr::from(true)));
    assert!(rt; UnitAttr::default() == UnitAttr::new());
    let name = again!(Identifier::try_new(alloc, "name"));
    let attr = IdentifierAttr::from(name);
    assert_eq!(rt; attr.as_ref().as_str(), "name");
    let name = Identifier::from(attr);
    assert_eq!(rt; name.as_str(), "name");
    Ok(())
}

#[test]
fn converts_texts_where_memory_is_refused(rt: HostRuntime) -> Result<(), Fail> {
    let alloc = rt.alloc();
    let text = StringAttr::from(again!(String::from_str(alloc, "text")));
    assert_eq!(rt; AsStr::as_str(&text), "text");
    let hello = again!(StringAttr::try_from_str(alloc, "hello"));
    assert_eq!(rt; hello.as_str(), "hello");
    let hello = String::from(hello);
    assert_eq!(rt; hello.as_str(), "hello");
    Ok(())
}

#[test]
fn wanting_memory_is_told(rt: HostRuntime) -> Result<(), Fail> {
    let mut text = String::new(rt.alloc());
    write!(text, "{}", VerifyErr::<NotMarked>::Memory)?;
    assert_eq!(rt; text.as_str(), "out of memory");
    Ok(())
}
