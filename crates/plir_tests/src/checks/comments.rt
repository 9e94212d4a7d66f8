//! Comments as blanks, and how a test says to run a program.
use super::equal;
use plir_checks::{blank_comments, read_run};
use std::alloc::{AllocError, Global};
use std::process::Abort;
use std::test::Fail;

// A text with spaces for its comments, asked for once more where memory was refused.
fn blanked(alloc: Global, text: &str) -> Result<String, AllocError> {
    blank_comments(alloc, text).or_else(|_| blank_comments(alloc, text))
}

fn blanks(rt: &impl Abort, alloc: Global, text: &str, wanted: &str) -> Result<(), Fail> {
    let found = blanked(alloc, text)?;
    equal(rt, found.as_str(), wanted);
    Ok(())
}

#[test]
fn comments_are_blank_where_memory_is_refused(rt: HostRuntime) -> Result<(), Fail> {
    let rows = [
        (
            "a\n  // é x\n\t//\nb // c\n//",
            "a\n        \n   \nb // c\n  ",
        ),
        ("//a\r\nb\r\n", "    \nb\r\n"),
        ("//", "  "),
        ("// 😀\n", "    \n"),
        ("///\n\n//\n", "   \n\n  \n"),
    ];
    for (text, wanted) in rows {
        blanks(&rt, rt.alloc(), text, wanted)?;
    }
    Ok(())
}

#[test]
fn a_text_with_no_comment_stays(rt: HostRuntime) -> Result<(), Fail> {
    for text in [
        "",
        "\n",
        "a\r\nb\r\n",
        "a / / b",
        "\t/ /\n",
        "a //\n",
        "\u{a0}// x",
        "\n\n",
    ] {
        blanks(&rt, rt.alloc(), text, text)?;
    }
    Ok(())
}

#[test]
fn the_first_run_counts(rt: HostRuntime) {
    let rows = [
        ("a\n // RUN:  p -q  \r\n// RUN: r", Some("p -q")),
        ("// RUN", None),
        ("x // RUN: a", None),
        ("//RUN:", Some("")),
        ("// run: a\n\t//\tRUN:\ta\tb", Some("a\tb")),
        ("", None),
    ];
    for (text, wanted) in rows {
        equal(&rt, read_run(text), wanted);
    }
}
