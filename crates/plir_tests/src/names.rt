//! Names in bodies, by the number of the body and a word: what they mean, and that the calls succeed.
use plir_names::{Meaning, NameTable};
use std::alloc::AllocError;
use std::process::Abort;
use std::test::Fail;

// Something bears a name, once more where memory was refused: then all was as before.
fn bear<'a>(
    rt: &impl Abort,
    table: &mut NameTable<(usize, &'a str), u32>,
    body: usize,
    word: &'a str,
    value: u32,
) -> Result<(), AllocError> {
    let before = table.find((body, word));
    if table.bear((body, word), value).is_err() {
        assert_eq!(rt; table.find((body, word)), before);
        table.bear((body, word), value)?;
    }
    Ok(())
}

#[test]
fn a_name_means_what_alone_bears_it(rt: HostRuntime) -> Result<(), Fail> {
    let mut table = NameTable::new(rt.alloc());
    assert_eq!(rt; table.find((0, "x")), Meaning::Unknown);
    bear(&rt, &mut table, 0, "x", 7)?;
    bear(&rt, &mut table, 0, "y", 8)?;
    assert_eq!(rt; table.find((0, "x")), Meaning::Only(7));
    assert_eq!(rt; table.find((0, "y")), Meaning::Only(8));
    assert_eq!(rt; table.find((0, "z")), Meaning::Unknown);
    Ok(())
}

#[test]
fn two_of_one_name_leave_it_without_meaning_where_memory_is_refused(
    rt: HostRuntime,
) -> Result<(), Fail> {
    let mut table = NameTable::new(rt.alloc());
    bear(&rt, &mut table, 0, "x", 7)?;
    bear(&rt, &mut table, 0, "x", 7)?;
    assert_eq!(rt; table.find((0, "x")), Meaning::Ambiguous);
    bear(&rt, &mut table, 0, "x", 9)?;
    assert_eq!(rt; table.find((0, "x")), Meaning::Ambiguous);
    Ok(())
}

#[test]
fn a_name_in_another_body_is_another_name(rt: HostRuntime) -> Result<(), Fail> {
    let mut table = NameTable::new(rt.alloc());
    bear(&rt, &mut table, 1, "x", 7)?;
    bear(&rt, &mut table, 2, "x", 8)?;
    assert_eq!(rt; table.find((0, "x")), Meaning::Unknown);
    assert_eq!(rt; table.find((1, "x")), Meaning::Only(7));
    assert_eq!(rt; table.find((2, "x")), Meaning::Only(8));
    Ok(())
}

#[test]
fn names_that_are_numbers(rt: HostRuntime) -> Result<(), Fail> {
    let mut table = NameTable::new(rt.alloc());
    for number in 0..1000u32 {
        if table.bear(number, number).is_err() {
            table.bear(number, number)?;
        }
    }
    assert_eq!(rt; table.find(0), Meaning::Only(0));
    assert_eq!(rt; table.find(999), Meaning::Only(999));
    assert_eq!(rt; table.find(1000), Meaning::Unknown);
    Ok(())
}
