//! Headers of own operations that are read, and the faults of others.
use crate::kinds::TestKind;
use plir_attr_text::{Fault, ReadErr};
use plir_data::put::{put, put_between};
use plir_data::{Identifier, KindSet, Memory, OwnKind, TypeTable};
use plir_read_own::{OwnHeader, read_own_header};
use std::alloc::Global;
use std::process::Abort;
use std::test::Fail;

type Kinds = KindSet<TestKind>;

// Puts names with a space between them, and a bar behind them.
fn put_names(out: &mut String, names: &[Identifier]) -> Result<(), Memory> {
    let mut is_first = true;
    for name in names {
        put_between(out, is_first, " ")?;
        put(out, name.as_str())?;
        is_first = false;
    }
    put(out, "|")
}

// Puts as many stars as there are things, and a bar behind them.
fn put_count(out: &mut String, count: usize) -> Result<(), Memory> {
    for _ in 0..count {
        put(out, "*")?;
    }
    put(out, "|")
}

// A header in one line: names, id, operands, successors, and stars for attributes and types.
fn shown(alloc: Global, header: &OwnHeader<Kinds>) -> Result<String, Memory> {
    let mut out = String::new(alloc);
    put_names(&mut out, header.names.as_slice())?;
    put(&mut out, header.kind.id())?;
    put(&mut out, "|")?;
    put_names(&mut out, header.uses.operands.as_slice())?;
    put_names(&mut out, header.uses.successors.as_slice())?;
    put_count(&mut out, header.attributes.len())?;
    put_count(&mut out, header.signature.operand_types.len())?;
    put_count(&mut out, header.signature.result_types.len())?;
    Ok(out)
}

// Reads a header, once more where memory is refused.
fn read_again(
    alloc: Global,
    table: &mut TypeTable<Kinds>,
    text: &str,
) -> Result<OwnHeader<Kinds>, ReadErr> {
    match read_own_header(alloc, table, text) {
        Err(found) if found.fault == Fault::Memory => read_own_header(alloc, table, text),
        answer => answer,
    }
}

// A text is read as this header.
fn reads(rt: &impl Abort, alloc: Global, text: &str, wanted: &str) -> Result<(), Fail> {
    let mut table = TypeTable::new(alloc);
    let header = read_again(alloc, &mut table, text)?;
    let line = match shown(alloc, &header) {
        Ok(line) => line,
        Err(Memory) => shown(alloc, &header)?,
    };
    assert_eq!(rt; line.as_str(), wanted);
    Ok(())
}

// A text has this fault at a place.
fn refuses(
    rt: &impl Abort,
    alloc: Global,
    text: &str,
    fault: Fault,
    line: usize,
    column: usize,
) -> Result<(), Fail> {
    let mut table = TypeTable::new(alloc);
    let wanted = ReadErr {
        line,
        column,
        fault,
    };
    assert_eq!(rt; read_again(alloc, &mut table, text).err(), Some(wanted));
    Ok(())
}

#[test]
fn headers_as_they_are_printed_where_memory_is_refused(rt: HostRuntime) -> Result<(), Fail> {
    let alloc = rt.alloc();
    reads(
        &rt,
        alloc,
        "c_op3v1_res0 = test.value (a_op1v1_res0, b_op2v1_res0) [] []: <(builtin.integer si32, builtin.integer si32)->(builtin.integer si32)>",
        "c_op3v1_res0|test.value|a_op1v1_res0 b_op2v1_res0|||**|*|",
    )?;
    reads(
        &rt,
        alloc,
        "test.open () [^block1v1, ^end_block2v1] [k = builtin.unit, l = builtin.vec []]: <()->()>",
        "|test.open||block1v1 end_block2v1|**|||",
    )?;
    reads(
        &rt,
        alloc,
        " x,y=test.open()[][]:<()->(builtin.unit,builtin.function <()->()>)> ",
        "x y|test.open|||||**|",
    )?;
    Ok(())
}

#[test]
fn what_is_wrong_with_a_header(rt: HostRuntime) -> Result<(), Fail> {
    let alloc = rt.alloc();
    refuses(&rt, alloc, "", Fault::Unexpected, 1, 1)?;
    refuses(
        &rt,
        alloc,
        "test.sub () [] []: <()->()>",
        Fault::Unexpected,
        1,
        1,
    )?;
    refuses(
        &rt,
        alloc,
        "add () [] []: <()->()>",
        Fault::Unexpected,
        1,
        5,
    )?;
    refuses(
        &rt,
        alloc,
        "test.value (a.b) [] []: <()->()>",
        Fault::Unexpected,
        1,
        13,
    )?;
    refuses(
        &rt,
        alloc,
        "test.open () [b] []: <()->()>",
        Fault::Unexpected,
        1,
        15,
    )?;
    refuses(
        &rt,
        alloc,
        "test.open () [] : <()->()>",
        Fault::Unexpected,
        1,
        17,
    )?;
    refuses(
        &rt,
        alloc,
        "test.open () [] []: <()->()> {}",
        Fault::Unexpected,
        1,
        30,
    )?;
    Ok(())
}

#[test]
fn a_type_for_each_operand_and_each_result(rt: HostRuntime) -> Result<(), Fail> {
    let alloc = rt.alloc();
    let text = "test.value (a, b) [] []: <(builtin.unit)->()>";
    refuses(&rt, alloc, text, Fault::Unexpected, 1, 26)?;
    let text = "test.value () [] []: <(builtin.unit)->()>";
    refuses(&rt, alloc, text, Fault::Unexpected, 1, 22)?;
    let text = "x = test.value () [] []: <()->()>";
    refuses(&rt, alloc, text, Fault::NResultsVerifyErr(0, 1), 1, 5)?;
    let text = "test.value () [] []: <()->(builtin.unit)>";
    refuses(&rt, alloc, text, Fault::NResultsVerifyErr(1, 0), 1, 1)?;
    Ok(())
}

// Each proper beginning of a text is refused as one that is cut: at its end.
#[test]
fn headers_that_are_cut(rt: HostRuntime) -> Result<(), Fail> {
    let alloc = rt.alloc();
    let text =
        "x = test.value (a, b) [^l] [k = builtin.unit]: <(builtin.unit, builtin.unit)->(builtin.unit)>";
    for count in 0..text.len() {
        let front = text.get(..count).unwrap_or("");
        let mut table: TypeTable<Kinds> = TypeTable::new(alloc);
        let found = match read_again(alloc, &mut table, front) {
            Ok(_) => None,
            Err(found) => Some(found.fault),
        };
        assert_eq!(rt; found, Some(Fault::Unexpected));
    }
    Ok(())
}
