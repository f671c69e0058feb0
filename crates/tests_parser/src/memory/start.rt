//! The beginning and the end of reading a row.

use super::listing::{put_errors, put_kept, put_number, shown};
use super::rows::Row;
use super::sheet::Sheet;
use rustc_parse_format::Parser;
use std::alloc::{AllocError, Global};
use std::fmt;
use std::fmt::Write;
use std::io::Print;
use std::process::Abort;
use std::test::Fail;

fn snippet_of(alloc: Global, row: Row) -> Result<Option<String>, AllocError> {
    Ok(match row.snippet {
        Some(text) => Some(String::from_str(alloc, text)?),
        None => None,
    })
}

/// A snippet of its own, made once more where that is refused memory.
pub fn snippet_again(rt: &impl Print, alloc: Global, row: Row) -> Result<Option<String>, Fail> {
    if let Ok(snippet) = snippet_of(alloc, row) {
        return Ok(snippet);
    }
    println!(rt; "refused")?;
    Ok(snippet_of(alloc, row)?)
}

/// A parser at the start of the row's input. Making it takes no memory.
pub fn start(rt: &(impl Abort + Print), alloc: Global, row: Row) -> Result<Parser<'static>, Fail> {
    let snippet = snippet_again(rt, alloc, row)?;
    assert!(rt; row.input.len() < 10000 && row.style.unwrap_or(0) < 10000);
    Ok(Parser::new(alloc, row.input, row.style, snippet, false, row.mode)?)
}

/// A parser shows the same again.
pub fn check_shown(rt: &impl Abort, parser: &Parser<'_>, before: &Sheet) -> Result<(), Fail> {
    let after = shown(parser)?;
    assert_eq!(rt; after.text(), before.text());
    Ok(())
}

/// Neither a call of a parser nor an iterator of it gives a piece.
fn gives_nothing(parser: &mut Parser<'_>) -> bool {
    matches!(parser.next(), Ok(None)) && parser.pieces().next().is_none()
}

/// A parser that has read all is at the end, where a call of it takes no memory and changes
/// nothing.
fn check_end(rt: &impl Abort, parser: &mut Parser<'_>) -> Result<(), Fail> {
    let before = shown(parser)?;
    assert!(rt; parser.peek().is_none());
    assert!(rt; gives_nothing(parser));
    check_shown(rt, parser, &before)
}

/// The errors that a parser has.
fn held(parser: &Parser<'_>) -> Result<Sheet, fmt::Error> {
    let mut held = Sheet::new();
    put_errors(&mut held, parser.errors())?;
    Ok(held)
}

/// The errors that are taken out of a parser.
fn taken_errors(parser: &mut Parser<'_>) -> Result<Sheet, fmt::Error> {
    let mut errors = Sheet::new();
    put_errors(&mut errors, parser.take_errors().as_slice())?;
    Ok(errors)
}

/// Adds the errors that a parser has, which are then taken out.
pub fn put_taken_errors(
    rt: &impl Abort,
    parser: &mut Parser<'_>,
    out: &mut Sheet,
) -> Result<(), Fail> {
    let held = held(parser)?;
    let errors = taken_errors(parser)?;
    assert_eq!(rt; errors.text(), held.text());
    assert!(rt; parser.errors().is_empty());
    out.write_str(errors.text())?;
    Ok(())
}

/// The pieces on the sheet, and the parser that is left, are what the row says. Errors that stand
/// one after the other in the row may have been taken out.
pub fn check_row(
    rt: &impl Abort,
    row: Row,
    out: &mut Sheet,
    taken_errors: &Sheet,
    parser: &mut Parser<'_>,
) -> Result<(), Fail> {
    check_end(rt, parser)?;
    put_number(out, parser)?;
    put_taken_errors(rt, parser, out)?;
    put_kept(out, parser)?;
    let (front, back) = row
        .lines
        .split_once(taken_errors.text())
        .unwrap_or(("", ""));
    assert_eq!(rt; out.text().strip_prefix(front), Some(back));
    Ok(())
}
