//! Literals and their fixes.

use fault_fixes::{Edit, FixedLiteral, edits, errors_of, fix};
use rustc_parse_format::ParseMode;
use std::alloc::{AllocError, Global};
use std::process::Abort;
use std::test::Fail;

/// A text, the hashes of its literal if that is raw, the literal, whether a newline was appended to
/// the text, the literal with its fixes, and the text of that. A literal that is not fixed has none
/// of both.
type Row<'a> = (&'a str, Option<usize>, &'a str, bool, &'a str, &'a str);

/// Returns whether a literal was fixed to this literal, which stands for this text.
fn is_fixed_to(fixed: &Option<FixedLiteral>, literal: &str, text: &str) -> bool {
    match fixed {
        Some(fixed) => fixed.snippet.as_str() == literal && fixed.text.as_str() == text,
        None => literal.is_empty(),
    }
}

/// The literal of the row is fixed as the row says.
fn check(rt: &impl Abort, alloc: Global, mode: ParseMode, row: Row<'_>) -> Result<(), AllocError> {
    let (text, style, literal, appended, wanted, wanted_text) = row;
    assert!(rt; text.len() < 1_000 && style.unwrap_or(0) < 1_000);
    let fixed = fix(alloc, text, style, literal, appended, mode)?;
    assert!(rt; is_fixed_to(&fixed, wanted, wanted_text), "{literal}");
    Ok(())
}

/// The text, in an ordinary literal, is fixed to this text.
fn check_text(
    rt: &impl Abort,
    alloc: Global,
    mode: ParseMode,
    text: &str,
    wanted: &str,
) -> Result<(), AllocError> {
    let literal = format!(in alloc; "\"{text}\"")?;
    let fixed = format!(in alloc; "\"{wanted}\"")?;
    check(
        rt,
        alloc,
        mode,
        (text, None, &literal, false, &fixed, wanted),
    )
}

/// Texts, and those that they are fixed to.
const TEXTS: &[(&str, &str)] = &[
    ("{r#type}", "{type}"),
    ("{r#a:>5}", "{a:>5}"),
    ("{a?}", "{a:?}"),
    ("{?}", "{:?}"),
    ("{a ?}", "{a :?}"),
    ("{:?#}", "{:#?}"),
    ("{:?x}", "{:x?}"),
    ("{a:>?X}", "{a:>X?}"),
    ("{:#05.2?x}", "{:#05.2x?}"),
    ("한{r#a}한", "한{a}한"),
    // several suggestions
    ("{r#a:?x} {b?} {:?#}", "{a:x?} {b:?} {:#?}"),
    ("} {r#a} } {b?}", "} {a} } {b:?}"),
    // a fault that the edit leaves
    ("{a.:?#}", "{a.:#?}"),
    // a suggestion that another one makes possible
    ("{r#r#a}", "{a}"),
    ("{:?#x}", "{:#x?}"),
    // eight rounds, and no more
    ("{r#r#r#r#r#r#r#r#a}", "{a}"),
    ("{r#r#r#r#r#r#r#r#r#a}", "{r#a}"),
];

#[test]
fn of_texts(rt: HostRuntime) -> Result<(), Fail> {
    for (text, wanted) in TEXTS {
        check_text(&rt, rt.alloc(), ParseMode::Format, text, wanted)?;
    }
    let mode = ParseMode::DiagnosticNamed;
    check_text(&rt, rt.alloc(), mode, "{r#a} {a?}", "{a} {a?}")?;
    Ok(())
}

/// In these modes nothing is suggested for these texts, or it leads to new faults.
#[test]
fn texts_without_a_fix_stay(rt: HostRuntime) -> Result<(), Fail> {
    for (mode, text) in [
        (ParseMode::InlineAsm, "{a?} {r#a}"),
        (ParseMode::DiagnosticNamed, "{a?} {a:?#}"),
        (ParseMode::Format, "{a?}}"),
        (ParseMode::Format, "{a:?#}}"),
        (ParseMode::Format, "{:?#?}"),
        (ParseMode::Format, "{:5?#}"),
        (ParseMode::Format, "{:#?#}"),
        (ParseMode::Format, "{:x??}"),
        (ParseMode::Format, "{r#r#a=}"),
        (ParseMode::Format, "{r#a.r#b}"),
        (ParseMode::Diagnostic, "{r#a} {b?}}"),
    ] {
        let literal = format!(in rt.alloc(); "\"{text}\"")?;
        let found = fix(rt.alloc(), text, None, &literal, false, mode)?;
        assert!(rt; found.is_none());
    }
    Ok(())
}

/// Literals that are fixed, or not.
const LITERALS: &[Row<'static>] = &[
    ("{r#a}", Some(0), "r\"{r#a}\"", false, "r\"{a}\"", "{a}"),
    (
        "{a?}",
        Some(1),
        "r#\"{a?}\"#",
        false,
        "r#\"{a:?}\"#",
        "{a:?}",
    ),
    // the `r#` and the text between its two characters go
    (
        "{r#a}",
        None,
        "\"{\\x72\\\n  #a}\"",
        false,
        "\"{a}\"",
        "{a}",
    ),
    (
        "{r#a}",
        None,
        "\"{\\\n  r#\\\n  a}\"",
        false,
        "\"{\\\n  \\\n  a}\"",
        "{a}",
    ),
    (
        "\t{a?}",
        None,
        "\"\\t{a\\u{3f}}\"",
        false,
        "\"\\t{a:\\u{3f}}\"",
        "\t{a:?}",
    ),
    (
        "{:?#}\"",
        None,
        "\"{:?\\x23}\\\"\"",
        false,
        "\"{:#?}\\\"\"",
        "{:#?}\"",
    ),
    // rustc 1.95 crashes here: it takes the literal for one of another text
    (
        "\u{a0}{?}한",
        None,
        "\"\\\n\u{a0}{?}한\"",
        false,
        "\"\\\n\u{a0}{:?}한\"",
        "\u{a0}{:?}한",
    ),
    // with an appended newline
    ("{r#a}\n", None, "\"{r#a}\"", true, "\"{a}\"", "{a}\n"),
    (
        "{a?}\n",
        Some(0),
        "r\"{a?}\"",
        true,
        "r\"{a:?}\"",
        "{a:?}\n",
    ),
    // no suggestion that can be applied without the arguments of the call
    ("{}", None, "\"{}\"", false, "", ""),
    ("{_}", None, "\"{_}\"", false, "", ""),
    ("{a=}", None, "\"{a=}\"", false, "", ""),
    ("{a.b}", None, "\"{a.b}\"", false, "", ""),
    // snippets that are not the source literal of the input
    ("{r#a}", None, "r\"{r#a}\"", false, "", ""),
    ("{r#a}", Some(0), "\"{r#a}\"", false, "", ""),
    ("{r#a}", None, "\"{r#b}\"", false, "", ""),
    ("{r#a}", None, "concat!(\"{r#\", \"a}\")", false, "", ""),
    // the no-break space after the continued line belongs to the text
    ("{?}한", None, "\"\\\n\u{a0}{?}한\"", false, "", ""),
];

#[test]
fn of_literals(rt: HostRuntime) -> Result<(), Fail> {
    for row in LITERALS {
        check(&rt, rt.alloc(), ParseMode::Format, *row)?;
    }
    Ok(())
}

/// Edits, a line for each.
fn listed(alloc: Global, edits: &[Edit<'_>]) -> Result<String, AllocError> {
    let mut lines = String::new(alloc);
    for edit in edits {
        write!(
            lines,
            "{}..{} `{}`\n",
            edit.span.start, edit.span.end, edit.text
        )?;
    }
    Ok(lines)
}

#[test]
fn of_edits_in_order(rt: HostRuntime) -> Result<(), Fail> {
    let alloc = rt.alloc();
    let errors = errors_of(alloc, "{r#a:?x}{b?}", None, None, false, ParseMode::Format)?;
    let found = edits(alloc, ParseMode::Format, &errors)?;
    let lines = listed(alloc, &found)?;
    assert!(rt; lines.as_str() == "2..4 ``\n6..8 `x?`\n11..11 `:`\n");
    Ok(())
}
