//! Worked cases of literals, by the calls that read them without a parser.

use rustc_parse_format::literal::{is_source_literal, read_content};
use std::alloc::AllocError;
use std::process::Abort;

#[test]
fn refuses_what_is_no_content(rt: HostRuntime) -> Result<(), AllocError> {
    for content in [
        "\\x80",
        "\\u{D800}",
        "\\u{110000}",
        "\\u{}",
        "\\u{_1}",
        "\\u{0000041}",
        "\\q",
        "\\",
        "\"",
        "\r",
    ] {
        assert!(rt; read_content(rt.alloc(), content)?.is_none(), "{content}");
    }
    Ok(())
}

/// Whether a snippet is the source literal of an input.
fn check_source(
    rt: &impl Abort,
    style: Option<usize>,
    snippet: &str,
    input: &str,
    appended: bool,
    wanted: bool,
) {
    let found = is_source_literal(input, style, snippet, appended);
    assert_eq!(rt; found, wanted, "{snippet}");
}

#[test]
fn decides_source_literals(rt: HostRuntime) {
    check_source(&rt, None, "\"\"", "", false, true);
    check_source(&rt, None, "\"foo\\n\"", "foo\n", false, true);
    check_source(&rt, None, "\"foo\\n\"", "foo\n", true, false);
    check_source(&rt, None, "\"a\\\n b\"", "ab", false, true);
    check_source(&rt, None, "\"a\"b\"", "a\"b", false, false);
    check_source(&rt, None, "\"a\\\"", "a\"", false, false);
    check_source(&rt, None, "\"foo\"x", "foo", false, false);
    check_source(&rt, Some(0), "r\"\"", "", false, true);
    check_source(&rt, Some(0), "r\"\"", "", true, false);
    check_source(&rt, Some(0), "r\"a\"b\"", "a\"b", false, true);
    check_source(&rt, Some(1), "r##\"\"##", "", false, false);
    check_source(&rt, Some(1), "r#\"a\"#", "a\n", true, true);
    check_source(&rt, Some(0), "r\"a\"", "ab", true, false);
}

/// A snippet is not the source literal of this input.
fn check_foreign(rt: &impl Abort, style: Option<usize>, snippet: &str) {
    assert!(rt;
        !is_source_literal("foo", style, snippet, false),
        "{snippet}"
    );
}

#[test]
fn refuses_foreign_snippets(rt: HostRuntime) {
    check_foreign(&rt, None, "");
    check_foreign(&rt, None, "\"");
    check_foreign(&rt, None, "\"foo");
    check_foreign(&rt, None, "foo\"");
    check_foreign(&rt, None, "\"foo\\\"");
    check_foreign(&rt, None, "\"fo\\u{6f\"");
    check_foreign(&rt, None, "'foo'");
    check_foreign(&rt, Some(0), "");
    check_foreign(&rt, Some(0), "r");
    check_foreign(&rt, Some(0), "r\"");
    check_foreign(&rt, Some(0), "\"foo\"");
    check_foreign(&rt, Some(0), "r\"foo");
    check_foreign(&rt, Some(1), "r#\"foo\"");
    check_foreign(&rt, Some(1), "r#\"foo\"##");
    check_foreign(&rt, Some(1), "r\"foo\"");
    check_foreign(&rt, Some(1), "r#\"");
    check_foreign(&rt, Some(2), "r\"");
    check_foreign(&rt, Some(usize::MAX), "r#\"foo\"#");
}
