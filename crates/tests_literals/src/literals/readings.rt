//! String literals as they stand in a program, read as format strings. The listings are those of
//! `replay/cases`; the other expected values are worked out by hand from the Rust Reference.

use super::fixes::fixed_literal;
use format_literal::Literal;
use piece_listing::{put_piece, put_span};
use rustc_parse_format::{ParseError, ParseMode, Piece, Reading};
use std::alloc::{AllocError, Global};
use std::test::Fail;

/// Appends the lines of pieces and of errors, as `formatread` prints them.
fn put_lines(
    out: &mut String,
    pieces: &[Piece<'_>],
    errors: &[ParseError],
) -> Result<(), AllocError> {
    for piece in pieces {
        put_piece(out, piece)?;
    }
    for error in errors {
        out.push_str("fault")?;
        put_span(out, ' ', &error.span)?;
        out.push(' ')?;
        out.push_str(error.description.as_str())?;
        out.push('\n')?;
    }
    Ok(())
}

/// Returns the lines of a literal, or none if the text is no literal.
fn lines(alloc: Global, source: &str, mode: ParseMode) -> Result<String, AllocError> {
    let mut out = String::new(alloc);
    if let Some(literal) = Literal::read(alloc, source, mode)? {
        let Reading { pieces, parser } = literal.read_all(alloc)?;
        put_lines(&mut out, &pieces, parser.errors())?;
    }
    Ok(out)
}

#[test]
fn listings(rt: HostRuntime) -> Result<(), Fail> {
    let rows = [
        (
            ParseMode::Format,
            "r##\"{_x$:\\0.0$e}{{\"';$\"##",
            "arg name _x 5..7\nlit \"$:\\\\0.0$e\"\nfault 7..7 expected `}`, found `$`\n\
             fault 15..16 unmatched `}` found\n",
        ),
        (
            ParseMode::Format,
            "\"\\u{7B}:?\\x23}{a\"",
            "arg implicit 0 7..7 ty=\"?\"\nlit \"#\"\nfault 9..13 expected `}`, found `#`\n\
             fault 9..9 expected `}`, found `#`\nfault 13..14 unmatched `}` found\n",
        ),
        (
            ParseMode::InlineAsm,
            "r##\"{width:r\n}{42}\n   \n   nop\"##",
            "arg name width 5..10 ty=\"r\"@11..12\narg index 42 15..17\n\
             lit \"\\n   \\n   nop\"\n",
        ),
        (
            ParseMode::DiagnosticNamed,
            "r#\"\u{663}#y}}{p:x0bbb\u{205f}}\"#",
            "lit \"\u{663}#y\"\nlit \"}\"\narg name p 10..11 ty=\"x0bbb\u{205f}\"@11..20\n\
             fault 11..20 format specifiers are not allowed\n",
        ),
    ];
    for (mode, source, wanted) in rows {
        assert_eq!(&rt; lines(rt.alloc(), source, mode)?.as_str(), wanted);
    }
    Ok(())
}

#[test]
fn no_literals(rt: HostRuntime) -> Result<(), Fail> {
    let texts = [
        "",
        "a",
        "\"",
        "\"a",
        "a\"",
        "r\"a",
        "r#\"a\"",
        "r\"a\"#",
        "b\"a\"",
        "c\"a\"",
        "br\"a\"",
        "\"a\"u8",
        " \"a\"",
        "\"a\" ",
        "\"\\q\"",
        "\"\\x80\"",
        "\"\\u{d800}\"",
        "\"a\"b\"",
        "'a'",
        "\"a\r\n\"",
        "r\"a\r\n\"",
        "r\"a\"b\"",
        "r#\"a\"#\"#",
        "\"a\" + \"b\"",
        "concat!(\"a\")",
    ];
    for text in texts {
        let read = Literal::read(rt.alloc(), text, ParseMode::Format)?;
        assert!(&rt; read.is_none(), "{text}");
    }
    Ok(())
}

#[test]
fn methods(rt: HostRuntime) -> Result<(), Fail> {
    let alloc = rt.alloc();
    let source = "\"{\\x61} {0} {2}\"";
    let literal = Literal::read(alloc, source, ParseMode::Format)?.ok_or("no literal")?;
    assert!(&rt; literal.snippet == source && literal.style.is_none());
    assert!(&rt; literal.parser(alloc)?.is_source_literal());
    assert_eq!(&rt; literal.tokens(alloc)?.len(), 13);
    let report = literal.check(alloc, 2, &["b"])?;
    assert!(&rt; report.missing_name.first() == Some(&"a") && report.missing_name.len() == 1);
    assert!(&rt; report.missing_index.first() == Some(&2) && report.missing_index.len() == 1);
    assert!(&rt; report.unused_index.first() == Some(&1) && report.unused_index.len() == 1);
    assert!(&rt; report.unused_name.first() == Some(&"b") && report.unused_name.len() == 1);
    Ok(())
}

#[test]
fn newlines(rt: HostRuntime) -> Result<(), Fail> {
    let alloc = rt.alloc();
    let read = Literal::read(alloc, "r\"{\"", ParseMode::Format)?.ok_or("no literal")?;
    assert!(&rt; read.text.as_str() == "{" && !read.appended_newline);
    let once = read.with_newline()?;
    assert!(&rt; once.text.as_str() == "{\n" && once.appended_newline);
    let twice = once.with_newline()?;
    assert!(&rt; twice.text.as_str() == "{\n" && twice.appended_newline);
    Ok(())
}

#[test]
fn fixes(rt: HostRuntime) -> Result<(), Fail> {
    let rows = [
        ("\"{\\x61?}\"", "\"{\\x61:?}\""),
        ("r#\"{r#a} {}\"#", "r#\"{a} {}\"#"),
        ("\"{a}\"", ""),
        ("\"{a?}", ""),
    ];
    for (source, wanted) in rows {
        let fixed = fixed_literal(rt.alloc(), source)?;
        assert!(&rt; fixed.as_deref().unwrap_or("") == wanted, "{source}");
    }
    Ok(())
}
