//! Errors that are expected, and those that come.
use super::equal;
use plir_checks::{Came, CompareErr, Expected, ExpectedErr, compare, read_expected};
use std::alloc::Global;
use std::process::Abort;
use std::test::Fail;

// The errors that a text says must come, asked for once more where memory was refused.
fn expected_of<'a>(alloc: Global, text: &'a str) -> Result<Vec<Expected<'a>>, ExpectedErr> {
    match read_expected(alloc, text) {
        Err(ExpectedErr::Memory) => read_expected(alloc, text),
        answer => answer,
    }
}

// A text says that these errors must come: the line, that of the comment, and the text of each.
fn expects(
    rt: &impl Abort,
    alloc: Global,
    text: &str,
    wanted: &[(usize, usize, &str)],
) -> Result<(), Fail> {
    let expected = expected_of(alloc, text)?;
    equal(rt, expected.len(), wanted.len());
    for (error, one) in expected.as_slice().iter().zip(wanted) {
        equal(rt, error.line, one.0);
        equal(rt, error.told_at, one.1);
        equal(rt, error.text, one.2);
    }
    Ok(())
}

// The expected errors of a text are refused.
fn is_refused(rt: &impl Abort, alloc: Global, text: &str, wanted: ExpectedErr) -> Result<(), Fail> {
    match expected_of(alloc, text) {
        Ok(_) => Err(Fail::from("no refusal")),
        Err(found) => {
            equal(rt, found, wanted);
            Ok(())
        }
    }
}

// Compares what came with what a text expects, once more where memory was refused.
fn compares(
    rt: &impl Abort,
    alloc: Global,
    text: &str,
    came: &[Came],
    wanted: Result<(), CompareErr>,
) -> Result<(), Fail> {
    let expected = expected_of(alloc, text)?;
    let found = match compare(alloc, expected.as_slice(), came) {
        Err(CompareErr::Memory) => compare(alloc, expected.as_slice(), came),
        answer => answer,
    };
    equal(rt, found, wanted);
    Ok(())
}

#[test]
fn expected_errors_are_read_where_memory_is_refused(rt: HostRuntime) -> Result<(), Fail> {
    let alloc = rt.alloc();
    let text =
        "// expected-error {{a}}\n//expected-error@+2 {{b c}} \r\n x // expected-error {{d}}\n\
                \t// expected-error  @-3  {{ é }}\n// expected-error @above {{}}\n// expected-error @below{{{f}}";
    expects(
        &rt,
        alloc,
        text,
        &[
            (1, 1, "a"),
            (4, 2, "b c"),
            (1, 4, " é "),
            (4, 5, ""),
            (7, 6, "{f"),
        ],
    )?;
    expects(&rt, alloc, "", &[])?;
    expects(
        &rt,
        alloc,
        "// expected error {{a}}\nexpected-error {{a}}",
        &[],
    )?;
    expects(
        &rt,
        alloc,
        "// expected-error @+999999999 {{a}}",
        &[(1_000_000_000, 1, "a")],
    )?;
    expects(&rt, alloc, "// expected-error @-0 {{a}}", &[(1, 1, "a")])?;
    Ok(())
}

#[test]
fn the_first_refusal_is_told(rt: HostRuntime) -> Result<(), Fail> {
    let rows = [
        "",
        " {a}",
        " {{a}",
        " {{a}} b",
        " {{a}} {{b}}",
        "s {{a}}",
        " @ {{a}}",
        " @+ {{a}}",
        " @+1a {{a}}",
        " @++1 {{a}}",
        " @+1 1 {{a}}",
        " @+1000000000 {{a}}",
        " @beside {{a}}",
        " +1 {{a}}",
    ];
    for rest in rows {
        let text = format!(in rt.alloc(); "// expected-error{rest}\n// expected-error")?;
        is_refused(
            &rt,
            rt.alloc(),
            text.as_str(),
            ExpectedErr::Malformed { line: 1 },
        )?;
    }
    Ok(())
}

#[test]
fn no_error_comes_before_the_first_line(rt: HostRuntime) -> Result<(), Fail> {
    for place in ["@above", "@-1", "@-9", "@-999999999"] {
        let text = format!(in rt.alloc();
            "// expected-error {place} {{{{a}}}}\n// expected-error"
        )?;
        is_refused(
            &rt,
            rt.alloc(),
            text.as_str(),
            ExpectedErr::NoSuchLine { line: 1 },
        )?;
    }
    Ok(())
}

#[test]
fn errors_are_compared_where_memory_is_refused(rt: HostRuntime) -> Result<(), Fail> {
    let alloc = rt.alloc();
    let text = "// expected-error @+2 {{a}}\n// expected-error @+1 {{ab}}\nx";
    let a = Came {
        line: 3,
        message: "xay",
    };
    let ab = Came {
        line: 3,
        message: "ab",
    };
    compares(&rt, alloc, "", &[], Ok(()))?;
    compares(&rt, alloc, text, &[a, ab], Ok(()))?;
    compares(&rt, alloc, text, &[ab, ab], Ok(()))?;
    compares(
        &rt,
        alloc,
        text,
        &[],
        Err(CompareErr::Missing {
            line: 3,
            told_at: 1,
        }),
    )?;
    compares(
        &rt,
        alloc,
        text,
        &[a],
        Err(CompareErr::Missing {
            line: 3,
            told_at: 2,
        }),
    )?;
    compares(
        &rt,
        alloc,
        text,
        &[ab],
        Err(CompareErr::Missing {
            line: 3,
            told_at: 2,
        }),
    )?;
    Ok(())
}

#[test]
fn an_error_that_is_not_expected_is_told(rt: HostRuntime) -> Result<(), Fail> {
    let text = "// expected-error @+2 {{a}}\n// expected-error @+1 {{ab}}\nx";
    let a = Came {
        line: 3,
        message: "xay",
    };
    let ab = Came {
        line: 3,
        message: "ab",
    };
    let elsewhere = Came {
        line: 2,
        message: "a",
    };
    let alloc = rt.alloc();
    compares(
        &rt,
        alloc,
        text,
        &[ab, a],
        Err(CompareErr::Unexpected { line: 3, place: 1 }),
    )?;
    compares(
        &rt,
        alloc,
        text,
        &[ab, ab, ab],
        Err(CompareErr::Unexpected { line: 3, place: 2 }),
    )?;
    compares(
        &rt,
        alloc,
        text,
        &[a, elsewhere],
        Err(CompareErr::Unexpected { line: 2, place: 1 }),
    )?;
    compares(
        &rt,
        alloc,
        "",
        &[a],
        Err(CompareErr::Unexpected { line: 3, place: 0 }),
    )?;
    Ok(())
}

#[test]
fn refusals_have_texts(rt: HostRuntime) -> Result<(), Fail> {
    let malformed = format!(in rt.alloc(); "{}", ExpectedErr::Malformed { line: 3 })?;
    let one = "line 3: no expected error: `// expected-error @+1 {{text}}` is one";
    equal(&rt, malformed.as_str(), one);
    let before = format!(in rt.alloc(); "{}", ExpectedErr::NoSuchLine { line: 3 })?;
    equal(
        &rt,
        before.as_str(),
        "line 3: an error is expected before the first line",
    );
    let missing = format!(in rt.alloc();
        "{}",
        CompareErr::Missing {
            line: 3,
            told_at: 2
        }
    )?;
    equal(
        &rt,
        missing.as_str(),
        "line 3: the error that line 2 expects did not come",
    );
    let unexpected = format!(in rt.alloc(); "{}", CompareErr::Unexpected { line: 3, place: 0 })?;
    equal(
        &rt,
        unexpected.as_str(),
        "line 3: an error came that is not expected",
    );
    Ok(())
}
