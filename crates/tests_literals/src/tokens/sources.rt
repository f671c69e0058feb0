//! The tokens of inputs with other sources than an ordinary literal, and of a long one.

use super::rows::check;
use format_tokens::Kind::*;
use format_tokens::{Token, tokens};
use rustc_parse_format::ParseMode;
use std::alloc::{AllocError, Global};
use std::process::Abort;
use std::test::Fail;

/// The tokens of a short input with this snippet.
pub fn tokens_of(
    rt: &impl Abort,
    alloc: Global,
    input: &str,
    style: Option<usize>,
    snippet: &str,
    appended_newline: bool,
) -> Result<Vec<Token>, AllocError> {
    assert!(rt; input.len() < 1000 && style.unwrap_or(0) < 1000);
    let snippet = String::from_str(alloc, snippet)?;
    tokens(
        alloc,
        input,
        style,
        Some(snippet),
        appended_newline,
        ParseMode::Format,
    )
}

#[test]
fn a_raw_literal(rt: HostRuntime) -> Result<(), Fail> {
    let row = [
        (Quote, 0),
        (Text, 4),
        (OpenBrace, 5),
        (Identifier, 6),
        (CloseBrace, 7),
        (Quote, 8),
    ];
    let found = tokens_of(&rt, rt.alloc(), "a{b}", Some(2), "r##\"a{b}\"##", false)?;
    check(&rt, found.as_slice(), &row, 11);
    Ok(())
}

#[test]
fn an_appended_newline(rt: HostRuntime) -> Result<(), Fail> {
    // it is a token of its own, which is left out
    let row = [
        (Quote, 0),
        (OpenBrace, 1),
        (Identifier, 2),
        (CloseBrace, 3),
        (Quote, 4),
    ];
    let found = tokens_of(&rt, rt.alloc(), "{a}\n", None, "\"{a}\"", true)?;
    check(&rt, found.as_slice(), &row, 5);
    Ok(())
}

#[test]
fn a_newline_after_text(rt: HostRuntime) -> Result<(), Fail> {
    // the token ends before it
    let row = [(Quote, 0), (Text, 1), (Quote, 3)];
    let found = tokens_of(&rt, rt.alloc(), "hi\n", None, "\"hi\"", true)?;
    check(&rt, found.as_slice(), &row, 4);
    Ok(())
}

#[test]
fn a_snippet_that_is_not_the_literal(rt: HostRuntime) -> Result<(), Fail> {
    // no quotes, and the ranges are those of the input
    let row = [(OpenBrace, 0), (Identifier, 1), (CloseBrace, 2)];
    let found = tokens_of(&rt, rt.alloc(), "{a}", None, "stringify!({a})", false)?;
    check(&rt, found.as_slice(), &row, 3);
    Ok(())
}

#[test]
fn an_appended_newline_without_the_literal(rt: HostRuntime) -> Result<(), Fail> {
    // the first character has two bytes
    let row = [(Text, 0), (OpenBrace, 2), (CloseBrace, 3)];
    let found = tokens_of(&rt, rt.alloc(), "é{}\n", Some(1), "concat!(\"é{}\")", true)?;
    check(&rt, found.as_slice(), &row, 4);
    Ok(())
}

#[test]
fn no_snippet_of_a_raw_literal(rt: HostRuntime) -> Result<(), Fail> {
    let row = [(Text, 0), (OpenBrace, 1), (CloseBrace, 2)];
    let found = tokens(rt.alloc(), "a{}", Some(2), None, false, ParseMode::Format)?;
    check(&rt, found.as_slice(), &row, 3);
    Ok(())
}

#[test]
fn a_mebibyte(rt: HostRuntime) -> Result<(), Fail> {
    let mut input = String::new(rt.alloc());
    for _ in 0..149_797 {
        input.push_str("{a:>8} ")?;
    }
    assert!(rt; input.len() == 1_048_579);
    let found = tokens(
        rt.alloc(),
        input.as_str(),
        None,
        None,
        false,
        ParseMode::Format,
    )?;
    assert!(rt; found.len() == input.len());
    let kinds = [
        OpenBrace, Identifier, Colon, Alignment, Integer, CloseBrace, Text,
    ];
    let mut at = 0;
    for (i, token) in found.iter().enumerate() {
        assert!(rt; token.kind == kinds[i % 7]);
        assert!(rt; token.span.start == at);
        at = token.span.end;
    }
    assert!(rt; at == input.len());
    Ok(())
}
