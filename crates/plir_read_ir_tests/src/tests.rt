//! Texts that are read and printed alike, and the faults of others.
use crate::kinds::TestKind;
use plir_attr_text::Fault;
use plir_core::{Context, Operation, Ptr};
use plir_data::put::{put, put_between};
use plir_data::{KindSet, Memory};
use plir_print::{is_printable, print_op};
use plir_read::read_op;
use plir_read_ir::{IrErr, IrFault, read_ir};
use std::alloc::Global;
use std::fmt::Write;
use std::process::Abort;
use std::test::Fail;

type Kinds = KindSet<TestKind>;

// A text, and how the operation that it stands for is printed.
struct Row {
    text: &'static str,
    printed: &'static str,
}

// A text, and its fault with line and column.
struct Refused {
    text: &'static str,
    fault: IrFault,
    line: usize,
    column: usize,
}

// Reads a text and prints what it stands for.
fn print_read(alloc: Global, ctx: &mut Context<Kinds>, text: &str) -> Result<String, IrErr> {
    let op = read_ir(alloc, ctx, text)?;
    printed(alloc, ctx, op)
}

// An operation as it is printed, where it can be.
fn printed(alloc: Global, ctx: &Context<Kinds>, op: Ptr<Operation>) -> Result<String, IrErr> {
    if !op.is_live(ctx) || !is_printable(ctx, op) {
        return Ok(String::new(alloc));
    }
    match print_op(alloc, ctx, op) {
        Ok(text) => Ok(text),
        Err(Memory) => Err(IrErr {
            line: 0,
            column: 0,
            fault: IrFault::Text(Fault::Memory),
        }),
    }
}

// The same in a new context.
fn print_new(alloc: Global, text: &str) -> Result<String, IrErr> {
    let mut ctx = Context::new(alloc);
    print_read(alloc, &mut ctx, text)
}

// What `read_op` reads, as it is printed.
fn print_other(alloc: Global, ctx: &mut Context<Kinds>, text: &str) -> Result<String, Fail> {
    let op = read_op(alloc, ctx, text)?;
    Ok(printed(alloc, ctx, op)?)
}

// The same in a new context.
fn other_new(alloc: Global, text: &str) -> Result<String, Fail> {
    let mut ctx = Context::new(alloc);
    print_other(alloc, &mut ctx, text)
}

// The fault of a text, if it has one.
fn fault_in(alloc: Global, ctx: &mut Context<Kinds>, text: &str) -> Option<IrErr> {
    read_ir(alloc, ctx, text).err()
}

// The same in a new context.
fn err_new(alloc: Global, text: &str) -> Option<IrErr> {
    let mut ctx = Context::new(alloc);
    fault_in(alloc, &mut ctx, text)
}

fn fault_new(alloc: Global, text: &str) -> Option<IrFault> {
    err_new(alloc, text).map(|err| err.fault)
}

// A text stands for an operation that is printed so, also where memory is refused once.
fn reads(rt: &impl Abort, alloc: Global, text: &str, wanted: &str) -> Result<(), Fail> {
    let printed = match print_new(alloc, text) {
        Err(found) if found.fault == IrFault::Text(Fault::Memory) => print_new(alloc, text)?,
        Err(found) => return Err(found.into()),
        Ok(printed) => printed,
    };
    assert_eq!(rt; printed.as_str(), wanted);
    Ok(())
}

// A text has this fault at a place.
fn refuses(rt: &impl Abort, alloc: Global, row: &Refused) -> Result<(), Fail> {
    let wanted = IrErr {
        line: row.line,
        column: row.column,
        fault: row.fault,
    };
    assert_eq!(rt; err_new(alloc, row.text), Some(wanted), "of {}", row.text);
    Ok(())
}

// One operation that uses the next one and the one before.
fn put_link(text: &mut String, number: usize, count: usize) -> Result<(), Memory> {
    let behind = number.saturating_add(1);
    let next = if behind < count { behind } else { 0 };
    let last = if number == 0 { count } else { number };
    let before = last.saturating_sub(1);
    put_between(text, number == 0, "; ")?;
    write!(
        text,
        "x{number} = test.value (x{next}, x{before}) [^b] []: "
    )?;
    put(text, "<(builtin.unit, builtin.unit)->(builtin.unit)>")
}

// So many operations in a circle, in one block.
fn chain_text(alloc: Global, count: usize) -> Result<String, Memory> {
    let mut text = String::new(alloc);
    put(&mut text, "test.open () [] []: <()->()> {^b(): ")?;
    for number in 0..count {
        put_link(&mut text, number, count)?;
    }
    put(&mut text, "}")?;
    Ok(text)
}

// So many operations, each in the one before.
fn nested_text(alloc: Global, count: usize) -> Result<String, Memory> {
    let mut text = String::new(alloc);
    for _ in 1..count {
        put(&mut text, "test.open () [] []: <()->()> {^b(): ")?;
    }
    put(&mut text, "test.open () [] []: <()->()>")?;
    for _ in 1..count {
        put(&mut text, "}")?;
    }
    Ok(text)
}

// Whether what is read first is printed as before when each text that is refused was read behind it.
fn keeps_older(alloc: Global, ctx: &mut Context<Kinds>) -> Result<bool, Fail> {
    let op = read_ir(alloc, ctx, ROWS[1].text)?;
    let before = printed(alloc, ctx, op)?;
    for row in &REFUSED {
        let _refused = fault_in(alloc, ctx, row.text);
    }
    let behind = printed(alloc, ctx, op)?;
    Ok(before.as_str() == behind.as_str())
}

// The same in a new context.
fn keeps_new(alloc: Global) -> Result<bool, Fail> {
    let mut ctx = Context::new(alloc);
    keeps_older(alloc, &mut ctx)
}

const BUILTIN: [&'static str; 2] = [
    "builtin.module @m [a = builtin.unit] {^b(x: builtin.integer si8): y = builtin.constant <builtin.unit> : builtin.unit; builtin.func @f: builtin.function <()->()> {^entry():}}",
    "builtin.func @f: builtin.function <(builtin.integer si32)->(builtin.unit)> {^entry(a_block1v1_arg0: builtin.integer si32):}",
];

const ROWS: [Row; 9] = [
    Row {
        text: "test.open () [] []: <()->()> {^b(): y = test.value (x) [] []: <(builtin.unit)->(builtin.unit)>; x = test.value (x, y) [] []: <(builtin.unit, builtin.unit)->(builtin.unit)>}",
        printed: "test.open () [] []: <()->()> \n{\n  ^b_block1v1():\n    y_op2v1_res0 = test.value (x_op3v1_res0) [] []: <(builtin.unit)->(builtin.unit)>;\n    x_op3v1_res0 = test.value (x_op3v1_res0, y_op2v1_res0) [] []: <(builtin.unit, builtin.unit)->(builtin.unit)>\n}",
    },
    Row {
        text: "builtin.func @f: builtin.function <(builtin.integer si32)->()> {\n  ^entry(n: builtin.integer si32):\n    p, q = test.open (n) [] [a = builtin.unit]: <(builtin.integer si32)->(builtin.unit, builtin.integer si32)> {\n      ^b(): i = test.value (n, q, j) [] []: <(builtin.integer si32, builtin.integer si32, builtin.unit)->(builtin.unit)>\n    } {} {^c(j: builtin.unit): test.value (p) [] []: <(builtin.unit)->()>};\n    test.value (i) [] []: <(builtin.unit)->()>\n}",
        printed: "builtin.func @f: builtin.function <(builtin.integer si32)->()> \n{\n  ^entry_block1v1(n_block1v1_arg0: builtin.integer si32):\n    p_op2v1_res0, q_op2v1_res1 = test.open (n_block1v1_arg0) [] [a = builtin.unit]: <(builtin.integer si32)->(builtin.unit, builtin.integer si32)> \n    {\n      ^b_block2v1():\n        i_op3v1_res0 = test.value (n_block1v1_arg0, q_op2v1_res1, j_block3v1_arg0) [] []: <(builtin.integer si32, builtin.integer si32, builtin.unit)->(builtin.unit)>\n    }\n    {\n    }\n    {\n      ^c_block3v1(j_block3v1_arg0: builtin.unit):\n        test.value (p_op2v1_res0) [] []: <(builtin.unit)->()>\n    };\n    test.value (i_op3v1_res0) [] []: <(builtin.unit)->()>\n}",
    },
    Row {
        text: "test.open () [] []: <()->()> {\n  ^a(): test.branch () [^b, ^c, ^b] []: <()->()>\n  ^b(): test.branch () [^b] []: <()->()>\n  ^c(): test.branch () [^a, ^b] []: <()->()>\n}",
        printed: "test.open () [] []: <()->()> \n{\n  ^a_block1v1():\n    test.branch () [^b_block2v1, ^c_block3v1, ^b_block2v1] []: <()->()>\n  ^b_block2v1():\n    test.branch () [^b_block2v1] []: <()->()>\n  ^c_block3v1():\n    test.branch () [^a_block1v1, ^b_block2v1] []: <()->()>\n}",
    },
    Row {
        text: "builtin.module @m {^b():\n  x = builtin.constant <builtin.unit> : builtin.unit;\n  x = builtin.constant <builtin.unit> : builtin.unit;\n  builtin.func @f: builtin.function <()->()> {^b(): x = test.value () [] []: <()->(builtin.unit)>; test.branch (x) [^b] []: <(builtin.unit)->()>};\n  test.closed () [] []: <()->()> {^b(x: builtin.unit): test.branch (x) [^b] []: <(builtin.unit)->()> ^c(): }\n}",
        printed: "builtin.module @m \n{\n  ^b_block1v1():\n    x_op2v1_res0 = builtin.constant <builtin.unit> : builtin.unit;\n    x_op3v1_res0 = builtin.constant <builtin.unit> : builtin.unit;\n    builtin.func @f: builtin.function <()->()> \n    {\n      ^b_block2v1():\n        x_op5v1_res0 = test.value () [] []: <()->(builtin.unit)>;\n        test.branch (x_op5v1_res0) [^b_block2v1] []: <(builtin.unit)->()>\n    };\n    test.closed () [] []: <()->()> \n    {\n      ^b_block3v1(x_block3v1_arg0: builtin.unit):\n        test.branch (x_block3v1_arg0) [^b_block3v1] []: <(builtin.unit)->()>\n      ^c_block4v1():\n    }\n}",
    },
    Row {
        text: "test.open () [] []: <()->()> {^block7v1(x_block7v1_arg0: builtin.unit, x_block7v1_arg1: builtin.unit): op9v1_res0 = test.value (x_block7v1_arg1, op9v1_res0) [^block7v1] []: <(builtin.unit, builtin.unit)->(builtin.unit)>}",
        printed: "test.open () [] []: <()->()> \n{\n  ^block1v1(x_block1v1_arg0: builtin.unit, x_block1v1_arg1: builtin.unit):\n    op2v1_res0 = test.value (x_block1v1_arg1, op2v1_res0) [^block1v1] []: <(builtin.unit, builtin.unit)->(builtin.unit)>\n}",
    },
    Row {
        text: "test.open () [] []: <()->()> {^b(x: builtin.unit): y = test.closed (x) [] []: <(builtin.unit)->(builtin.unit)> {^c(): y = test.value () [] []: <()->(builtin.unit)>}; test.value (y) [] []: <(builtin.unit)->()>}",
        printed: "test.open () [] []: <()->()> \n{\n  ^b_block1v1(x_block1v1_arg0: builtin.unit):\n    y_op2v1_res0 = test.closed (x_block1v1_arg0) [] []: <(builtin.unit)->(builtin.unit)> \n    {\n      ^c_block2v1():\n        y_op3v1_res0 = test.value () [] []: <()->(builtin.unit)>\n    };\n    test.value (y_op2v1_res0) [] []: <(builtin.unit)->()>\n}",
    },
    Row {
        text: "builtin.module @bar [k = builtin.bool true] {^b(): builtin.func @foo: builtin.function <()->(builtin.integer si64)> {^entry(): c0 = builtin.constant <builtin.integer <0: si64>> : builtin.integer si64}}",
        printed: "builtin.module @bar \n  [k = builtin.bool true]\n{\n  ^b_block1v1():\n    builtin.func @foo: builtin.function <()->(builtin.integer si64)> \n    {\n      ^entry_block2v1():\n        c0_op3v1_res0 = builtin.constant <builtin.integer <0: si64>> : builtin.integer si64\n    }\n}",
    },
    Row {
        text: "x, op4v1_res7 = test.value (x, op4v1_res7) [] [builtin_given_names = builtin.given_names [a, b]]: <(builtin.unit, builtin.integer i1)->(builtin.unit, builtin.integer i1)>",
        printed: "x_op1v1_res0, op1v1_res1 = test.value (x_op1v1_res0, op1v1_res1) [] []: <(builtin.unit, builtin.integer i1)->(builtin.unit, builtin.integer i1)>",
    },
    Row {
        text: "op4v1_res7 = test.value () [] [builtin_given_names = builtin.given_names [a]]: <()->(builtin.unit)>",
        printed: "a_op1v1_res0 = test.value () [] []: <()->(builtin.unit)>",
    },
];

const REFUSED: [Refused; 30] = [
    Refused {
        text: "builtin.module @m {^b(): builtin.func @f: builtin.function <()->()> {^e(x: builtin.unit): }; test.value (x) [] []: <(builtin.unit)->()>}",
        fault: IrFault::UnknownName,
        line: 1,
        column: 106,
    },
    Refused {
        text: "builtin.module @m {^b(x: builtin.unit): builtin.func @f: builtin.function <()->()> {^e(): test.value (x) [] []: <(builtin.unit)->()>}}",
        fault: IrFault::UnknownName,
        line: 1,
        column: 103,
    },
    Refused {
        text: "test.open () [] []: <()->()> {^b(x: builtin.unit): test.closed () [] []: <()->()> {^e(): test.open () [] []: <()->()> {^e(): test.value (x) [] []: <(builtin.unit)->()>}}}",
        fault: IrFault::UnknownName,
        line: 1,
        column: 138,
    },
    Refused {
        text: "x = test.value (y) [] []: <(builtin.unit)->(builtin.unit)>",
        fault: IrFault::UnknownName,
        line: 1,
        column: 17,
    },
    Refused {
        text: "y_op1v1_res0 = test.value (y) [] []: <(builtin.unit)->(builtin.unit)>",
        fault: IrFault::UnknownName,
        line: 1,
        column: 28,
    },
    Refused {
        text: "test.open () [] []: <()->()> {^b(x: builtin.unit): test.value (x) [] []: <(builtin.unit)->()>; x = test.value () [] []: <()->(builtin.unit)>}",
        fault: IrFault::AmbiguousName,
        line: 1,
        column: 64,
    },
    Refused {
        text: "x, x = test.value (x) [] []: <(builtin.unit)->(builtin.unit, builtin.unit)>",
        fault: IrFault::AmbiguousName,
        line: 1,
        column: 20,
    },
    Refused {
        text: "test.branch () [^b] []: <()->()>",
        fault: IrFault::UnknownName,
        line: 1,
        column: 18,
    },
    Refused {
        text: "test.open () [] []: <()->()> {^b(): test.branch () [^b, ^c] []: <()->()>}",
        fault: IrFault::UnknownName,
        line: 1,
        column: 58,
    },
    Refused {
        text: "test.open () [] []: <()->()> {^b(): test.open () [] []: <()->()> {^c(): test.branch () [^b] []: <()->()>}}",
        fault: IrFault::UnknownName,
        line: 1,
        column: 90,
    },
    Refused {
        text: "test.open () [] []: <()->()> {^b(): test.branch () [^c] []: <()->()>} {^c(): }",
        fault: IrFault::UnknownName,
        line: 1,
        column: 54,
    },
    Refused {
        text: "test.open () [] []: <()->()> {^b(): test.branch () [^c] []: <()->()> ^c(): ^c(): }",
        fault: IrFault::AmbiguousName,
        line: 1,
        column: 54,
    },
    Refused {
        text: "test.open () [] []: <()->()> {^b(x: builtin.unit): test.value (x) [] []: <(builtin.integer si8)->()>}",
        fault: IrFault::TypeMismatch,
        line: 1,
        column: 74,
    },
    Refused {
        text: "test.open () [] []: <()->()> {^b(x: builtin.unit, y: builtin.integer si8):\n test.value (x, y) [] []: <(builtin.unit, builtin.unit)->()>}",
        fault: IrFault::TypeMismatch,
        line: 2,
        column: 27,
    },
    Refused {
        text: "test.open () [] []: <()->()> {^b(): test.value (x) [] []: <(builtin.unit)->()>}}",
        fault: IrFault::Text(Fault::Unexpected),
        line: 1,
        column: 80,
    },
    Refused {
        text: "test.open () [] []: <()->()> {^b(x: builtin.unit): test.value (x) [] []: <(builtin.integer si8)->()>; test.value (y) [] []: <(builtin.unit)->()>}",
        fault: IrFault::TypeMismatch,
        line: 1,
        column: 74,
    },
    Refused {
        text: "test.open () [] []: <()->()> {^b(x: builtin.unit): test.value (y, x) [] []: <(builtin.unit, builtin.integer si8)->()>}",
        fault: IrFault::UnknownName,
        line: 1,
        column: 64,
    },
    Refused {
        text: "test.branch (y) [^b] []: <(builtin.unit)->()>",
        fault: IrFault::UnknownName,
        line: 1,
        column: 14,
    },
    Refused {
        text: "test.other () [] []: <()->()>",
        fault: IrFault::Text(Fault::Unexpected),
        line: 1,
        column: 1,
    },
    Refused {
        text: "test.value (a) [] []: <()->()>",
        fault: IrFault::Text(Fault::Unexpected),
        line: 1,
        column: 23,
    },
    Refused {
        text: "x = test.value () [] []: <()->()>",
        fault: IrFault::Text(Fault::NResultsVerifyErr(0, 1)),
        line: 1,
        column: 5,
    },
    Refused {
        text: "x = builtin.module @m {}",
        fault: IrFault::Text(Fault::NResultsVerifyErr(0, 1)),
        line: 1,
        column: 5,
    },
    Refused {
        text: "x = builtin.forward_ref",
        fault: IrFault::Text(Fault::ForwardRefOpExistenceErr),
        line: 1,
        column: 5,
    },
    Refused {
        text: "test.value () [] []: <()->()> x",
        fault: IrFault::Text(Fault::Unexpected),
        line: 1,
        column: 31,
    },
    Refused {
        text: "test.value () [] []: <()->()> {^b(): 2}",
        fault: IrFault::Text(Fault::Unexpected),
        line: 1,
        column: 38,
    },
    Refused {
        text: "test.value (2) [] []: <()->()>",
        fault: IrFault::Text(Fault::Unexpected),
        line: 1,
        column: 13,
    },
    Refused {
        text: "test.value (a.b) [] []: <()->()>",
        fault: IrFault::Text(Fault::Unexpected),
        line: 1,
        column: 13,
    },
    Refused {
        text: "test.value () [b] []: <()->()>",
        fault: IrFault::Text(Fault::Unexpected),
        line: 1,
        column: 16,
    },
    Refused {
        text: "test.value () [] : <()->()>",
        fault: IrFault::Text(Fault::Unexpected),
        line: 1,
        column: 18,
    },
    Refused {
        text: "",
        fault: IrFault::Text(Fault::Unexpected),
        line: 1,
        column: 1,
    },
];

#[test]
fn texts_are_read_and_printed_where_memory_is_refused(rt: HostRuntime) -> Result<(), Fail> {
    for row in &ROWS {
        reads(&rt, rt.alloc(), row.text, row.printed)?;
    }
    Ok(())
}

// What is printed is read as what is printed alike.
#[test]
fn printed_texts_are_read_back(rt: HostRuntime) -> Result<(), Fail> {
    for row in &ROWS {
        reads(&rt, rt.alloc(), row.printed, row.printed)?;
    }
    Ok(())
}

#[test]
fn what_is_wrong_with_a_text(rt: HostRuntime) -> Result<(), Fail> {
    for row in &REFUSED {
        refuses(&rt, rt.alloc(), row)?;
    }
    Ok(())
}

// Whether a text that is cut is refused as one.
fn refuses_cut(rt: &impl Abort, alloc: Global, text: &str) -> Result<(), Fail> {
    for count in 0..text.len() {
        let front = text.get(..count).unwrap_or("");
        let found = fault_new(alloc, front);
        assert_eq!(rt;
            found,
            Some(IrFault::Text(Fault::Unexpected)),
            "of {}",
            front
        );
    }
    Ok(())
}

// Each proper beginning of a text is refused as one that is cut.
#[test]
fn texts_that_are_cut(rt: HostRuntime) -> Result<(), Fail> {
    refuses_cut(&rt, rt.alloc(), ROWS[1].text)?;
    refuses_cut(&rt, rt.alloc(), ROWS[3].text)?;
    Ok(())
}

// Builtin texts are read as `read_op` reads them.
#[test]
fn builtin_texts_are_read_as_by_read_op(rt: HostRuntime) -> Result<(), Fail> {
    for text in &BUILTIN {
        let wanted = other_new(rt.alloc(), *text)?;
        reads(&rt, rt.alloc(), *text, wanted.as_str())?;
    }
    Ok(())
}

// Twenty thousand operations that use each other, the next and the one before.
#[test]
fn long_texts_are_read(rt: HostRuntime) -> Result<(), Fail> {
    let text = chain_text(rt.alloc(), 20_000)?;
    assert_eq!(&rt; fault_new(rt.alloc(), text.as_str()), None);
    Ok(())
}

#[test]
fn levels_within_two_hundred_are_read(rt: HostRuntime) -> Result<(), Fail> {
    let text = nested_text(rt.alloc(), 200)?;
    assert_eq!(&rt; fault_new(rt.alloc(), text.as_str()), None);
    let text = nested_text(rt.alloc(), 201)?;
    assert_eq!(&rt;
        fault_new(rt.alloc(), text.as_str()),
        Some(IrFault::Text(Fault::TooDeep))
    );
    let text = nested_text(rt.alloc(), 20_000)?;
    assert_eq!(&rt;
        fault_new(rt.alloc(), text.as_str()),
        Some(IrFault::Text(Fault::TooDeep))
    );
    Ok(())
}

// After refusals what was there before is as it was.
#[test]
fn older_operations_are_kept(rt: HostRuntime) -> Result<(), Fail> {
    assert_eq!(&rt; keeps_new(rt.alloc())?, true);
    Ok(())
}
