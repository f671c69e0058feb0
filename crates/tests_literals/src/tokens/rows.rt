//! The tokens of source literals.

use format_tokens::Kind::{self, *};
use format_tokens::{Token, tokens};
use rustc_parse_format::ParseMode;
use std::alloc::Global;
use std::process::Abort;
use std::test::Fail;

/// The tokens have these kinds and start at these bytes, and each ends where the next one starts.
pub fn check(rt: &impl Abort, found: &[Token], expected: &[(Kind, usize)], end: usize) {
    assert!(rt; found.len() == expected.len());
    for i in 0..expected.len() {
        let next = if i + 1 < expected.len() {
            expected[i + 1].1
        } else {
            end
        };
        assert!(rt; i < found.len() && found[i].kind == expected[i].0);
        assert!(rt; found[i].span.start == expected[i].1 && found[i].span.end == next);
    }
}

/// Checks the tokens of an ordinary literal.
fn check_literal(
    rt: &impl Abort,
    alloc: Global,
    mode: ParseMode,
    input: &str,
    literal: &str,
    expected: &[(Kind, usize)],
) -> Result<(), Fail> {
    assert!(rt; input.len() < 1000);
    let snippet = String::from_str(alloc, literal)?;
    let found = tokens(alloc, input, None, Some(snippet), false, mode)?;
    check(rt, found.as_slice(), expected, literal.len());
    Ok(())
}

#[test]
fn each_kind_of_a_format_string(rt: HostRuntime) -> Result<(), Fail> {
    let row = [
        (Quote, 0),
        (Text, 1),
        (OpenBrace, 4),
        (RawPrefix, 5),
        (Identifier, 7),
        (Whitespace, 8),
        (Colon, 9),
        (Fill, 10),
        (Alignment, 11),
        (Sign, 12),
        (NumberSign, 13),
        (Zero, 14),
        (Integer, 15),
        (DollarSign, 16),
        (Dot, 17),
        (Asterisk, 18),
        (Type, 19),
        (Whitespace, 21),
        (CloseBrace, 22),
        (EscapedBrace, 23),
        (Text, 25),
        (Unexpected, 26),
        (Quote, 27),
    ];
    let input = "hi {r#a :*>+#01$.*x? }{{b}";
    check_literal(
        &rt,
        rt.alloc(),
        ParseMode::Format,
        input,
        "\"hi {r#a :*>+#01$.*x? }{{b}\"",
        &row,
    )
}

#[test]
fn a_template_and_a_diagnostic(rt: HostRuntime) -> Result<(), Fail> {
    let template = [
        (Quote, 0),
        (OpenBrace, 1),
        (Integer, 2),
        (Colon, 3),
        (Modifier, 4),
        (CloseBrace, 5),
        (Quote, 6),
    ];
    check_literal(
        &rt,
        rt.alloc(),
        ParseMode::InlineAsm,
        "{0:e}",
        "\"{0:e}\"",
        &template,
    )?;
    let message = [
        (Quote, 0),
        (OpenBrace, 1),
        (Identifier, 2),
        (Colon, 3),
        (DiagnosticText, 4),
        (CloseBrace, 6),
        (Quote, 7),
    ];
    check_literal(
        &rt,
        rt.alloc(),
        ParseMode::Diagnostic,
        "{T:a }",
        "\"{T:a }\"",
        &message,
    )
}

#[test]
fn what_recovery_takes(rt: HostRuntime) -> Result<(), Fail> {
    let row = [
        (Quote, 0),
        (OpenBrace, 1),
        (Identifier, 2),
        (Unexpected, 3),
        (CloseBrace, 4),
        (Quote, 5),
    ];
    check_literal(&rt, rt.alloc(), ParseMode::Format, "{a?}", "\"{a?}\"", &row)?;
    let field = [
        (Quote, 0),
        (OpenBrace, 1),
        (Identifier, 2),
        (Unexpected, 3),
        (CloseBrace, 5),
        (Quote, 6),
    ];
    check_literal(
        &rt,
        rt.alloc(),
        ParseMode::Format,
        "{a.b}",
        "\"{a.b}\"",
        &field,
    )
}

#[test]
fn escapes_and_continued_lines(rt: HostRuntime) -> Result<(), Fail> {
    let row = [
        (Quote, 0),
        (EscapeSequence, 1),
        (OpenBrace, 3),
        (Identifier, 7),
        (EscapeSequence, 8),
        (CloseBrace, 11),
        (Quote, 12),
    ];
    check_literal(
        &rt,
        rt.alloc(),
        ParseMode::Format,
        "{a}",
        "\"\\\n\\x7ba\\\n }\"",
        &row,
    )
}

#[test]
fn escapes_in_text(rt: HostRuntime) -> Result<(), Fail> {
    let row = [
        (Quote, 0),
        (Text, 1),
        (EscapeSequence, 2),
        (EscapeSequence, 4),
        (EscapeSequence, 10),
        (EscapeSequence, 13),
        (OpenBrace, 15),
        (CloseBrace, 19),
        (Text, 20),
        (Quote, 21),
    ];
    check_literal(
        &rt,
        rt.alloc(),
        ParseMode::Format,
        "a\té{}b",
        "\"a\\t\\u{e9}\\\n \\\n\\x7b}b\"",
        &row,
    )
}

/// Checks the tokens of a text in a mode.
fn check_text(
    rt: &impl Abort,
    alloc: Global,
    mode: ParseMode,
    input: &str,
    expected: &[(Kind, usize)],
) -> Result<(), Fail> {
    assert!(rt; input.len() < 1000);
    let found = tokens(alloc, input, None, None, false, mode)?;
    check(rt, found.as_slice(), expected, input.len());
    Ok(())
}

#[test]
fn culprits(rt: HostRuntime) -> Result<(), Fail> {
    let alloc = rt.alloc();
    let inside = [
        (OpenBrace, 0),
        (Identifier, 1),
        (Whitespace, 2),
        (Unexpected, 3),
        (CloseBrace, 4),
    ];
    check_text(&rt, alloc, ParseMode::Format, "{a b}", &inside)?;
    let alone = [
        (Unexpected, 0),
        (Identifier, 1),
        (Whitespace, 2),
        (OpenBrace, 3),
        (CloseBrace, 4),
    ];
    check_text(&rt, alloc, ParseMode::Format, "{a {}", &alone)?;
    let underscore = [(OpenBrace, 0), (Unexpected, 1), (CloseBrace, 2)];
    check_text(&rt, alloc, ParseMode::Format, "{_}", &underscore)?;
    let fits = [(OpenBrace, 0), (Integer, 1), (CloseBrace, 6)];
    check_text(&rt, alloc, ParseMode::Format, "{65535}", &fits)?;
    let above = [(OpenBrace, 0), (Unexpected, 1), (CloseBrace, 6)];
    check_text(&rt, alloc, ParseMode::Format, "{65536}", &above)?;
    let unnamed = [(Unexpected, 0), (Unexpected, 1)];
    check_text(&rt, alloc, ParseMode::DiagnosticNamed, "{}", &unnamed)
}
