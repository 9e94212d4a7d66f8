//! Checks of what is printed.
use super::equal;
use plir_checks::{Check, CheckErr, CheckKind, Unmet, meets, read_checks};
use std::alloc::Global;
use std::process::Abort;
use std::test::Fail;

// The checks of a text, asked for once more where memory was refused.
fn checks_of<'a>(alloc: Global, text: &'a str) -> Result<Vec<Check<'a>>, CheckErr> {
    match read_checks(alloc, text) {
        Err(CheckErr::Memory) => read_checks(alloc, text),
        answer => answer,
    }
}

// A text has these checks: the line, whether it is one for the next line, and the text of each.
fn has(
    rt: &impl Abort,
    alloc: Global,
    text: &str,
    wanted: &[(usize, bool, &str)],
) -> Result<(), Fail> {
    let checks = checks_of(alloc, text)?;
    equal(rt, checks.len(), wanted.len());
    for (check, one) in checks.as_slice().iter().zip(wanted) {
        equal(rt, check.line, one.0);
        equal(rt, check.kind == CheckKind::Next, one.1);
        equal(rt, check.text, one.2);
    }
    Ok(())
}

// The checks of a text are refused.
fn is_refused(rt: &impl Abort, alloc: Global, text: &str, wanted: CheckErr) -> Result<(), Fail> {
    match checks_of(alloc, text) {
        Ok(_) => Err(Fail::from("no fault")),
        Err(found) => {
            equal(rt, found, wanted);
            Ok(())
        }
    }
}

// What is printed meets the checks of a text, or which check it doesn't, and from which line on it was sought.
fn meet(
    rt: &impl Abort,
    text: &str,
    printed: &str,
    wanted: Option<(usize, usize)>,
    alloc: Global,
) -> Result<(), Fail> {
    let checks = checks_of(alloc, text)?;
    match meets(checks.as_slice(), printed) {
        Ok(()) => equal(rt, None, wanted),
        Err(Unmet { check, from }) => equal(rt, Some((check, from)), wanted),
    }
    Ok(())
}

#[test]
fn checks_are_read_where_memory_is_refused(rt: HostRuntime) -> Result<(), Fail> {
    let alloc = rt.alloc();
    let text =
        "x\n// CHECK: a  b \r\n  //CHECK-NEXT:c\n// CHECKED: d\ny // CHECK: e\n//\tCHECK:\té";
    has(
        &rt,
        alloc,
        text,
        &[(2, false, "a  b"), (3, true, "c"), (6, false, "é")],
    )?;
    has(&rt, alloc, "", &[])?;
    has(
        &rt,
        alloc,
        "// CHECK-NOT: a\n// check: a\n// a CHECK: b",
        &[],
    )?;
    has(&rt, alloc, "// CHECK: CHECK: a", &[(1, false, "CHECK: a")])?;
    Ok(())
}

#[test]
fn the_first_fault_is_told(rt: HostRuntime) -> Result<(), Fail> {
    let rows = [
        ("// CHECK: \r\n", CheckErr::NoText { line: 1 }),
        ("\n// CHECK-NEXT: a", CheckErr::NothingBefore { line: 2 }),
        ("// CHECK-NEXT:\n// CHECK:", CheckErr::NoText { line: 1 }),
        ("// CHECK: a\n// CHECK-NEXT:", CheckErr::NoText { line: 2 }),
        (
            "// CHECK-NEXT: a\n// CHECK:",
            CheckErr::NothingBefore { line: 1 },
        ),
    ];
    for (text, wanted) in rows {
        is_refused(&rt, rt.alloc(), text, wanted)?;
    }
    Ok(())
}

#[test]
fn what_is_printed_meets_checks(rt: HostRuntime) -> Result<(), Fail> {
    let rows = [
        ("", ""),
        ("// CHECK: b", "a\nabc\n"),
        ("// CHECK: a\n// CHECK: a", "a\nb\na"),
        ("// CHECK: a\n// CHECK-NEXT: b", "x\na\r\nb\r\n"),
        ("// CHECK: a b", "  a \t b"),
        ("// CHECK: a \t  b", "xa bx"),
        ("// CHECK: 😀 é", "é 😀  é"),
        ("// CHECK: aab", "aaab"),
        ("// CHECK: a\n\n// CHECK-NEXT: b\n// CHECK: d", "a\nb\nc\nd"),
    ];
    for (text, printed) in rows {
        meet(&rt, text, printed, None, rt.alloc())?;
    }
    Ok(())
}

#[test]
fn the_first_check_that_is_not_met_is_told(rt: HostRuntime) -> Result<(), Fail> {
    let rows = [
        ("// CHECK: a", "", (1, 1)),
        ("\n// CHECK: a", "b\nA", (2, 1)),
        ("// CHECK: a\n// CHECK: a", "x\na", (2, 3)),
        ("// CHECK: a\n// CHECK: b", "a b", (2, 2)),
        ("// CHECK: ab", "a b", (1, 1)),
        ("// CHECK: a b", "ab", (1, 1)),
        ("// CHECK: a\n// CHECK-NEXT: b", "a\nc\nb", (2, 2)),
        ("// CHECK: a\n// CHECK-NEXT: b", "a\na\nb", (2, 2)),
        ("// CHECK: a\n// CHECK: b", "b\na", (2, 3)),
    ];
    for (text, printed, wanted) in rows {
        meet(&rt, text, printed, Some(wanted), rt.alloc())?;
    }
    Ok(())
}

#[test]
fn faults_have_texts(rt: HostRuntime) -> Result<(), Fail> {
    let no_text = format!(in rt.alloc(); "{}", CheckErr::NoText { line: 3 })?;
    equal(&rt, no_text.as_str(), "line 3: a check with no text");
    let nothing = format!(in rt.alloc(); "{}", CheckErr::NothingBefore { line: 3 })?;
    equal(
        &rt,
        nothing.as_str(),
        "line 3: CHECK-NEXT with no CHECK before it",
    );
    let unmet = format!(in rt.alloc(); "{}", Unmet { check: 3, from: 2 })?;
    let one = "line 3: the check is not met, from line 2 of what is printed on";
    equal(&rt, unmet.as_str(), one);
    Ok(())
}
