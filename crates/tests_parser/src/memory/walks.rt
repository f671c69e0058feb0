//! Calls one after the other, each made again if an allocation fails.

use super::listing::{put_piece, shown};
use super::rows::{Row, rows};
use super::sheet::Sheet;
use super::spare::{check_spare, touch};
use super::start::{check_row, check_shown, put_taken_errors, start};
use rustc_parse_format::{Parser, Piece};
use std::alloc::{AllocError, Global};
use std::io::Print;
use std::process::Abort;
use std::test::Fail;

/// How a piece is requested.
#[derive(Clone, Copy)]
enum Way {
    /// By `next`.
    Next,
    /// As the first item of a new iterator. Where it is refused memory, all errors are taken out
    /// before the next call.
    Item,
}

/// The next piece.
fn call<'input>(
    parser: &mut Parser<'input>,
    way: Way,
) -> Result<Option<Piece<'input>>, AllocError> {
    match way {
        Way::Next => parser.next(),
        Way::Item => match parser.pieces().next() {
            Some(Ok(piece)) => Ok(Some(piece)),
            Some(Err(error)) => Err(error),
            None => Ok(None),
        },
    }
}

/// Calls that take no memory, which change nothing.
pub fn check_unchanged(
    rt: &impl Abort,
    alloc: Global,
    parser: &mut Parser<'_>,
    before: &Sheet,
) -> Result<(), Fail> {
    check_shown(rt, parser, before)?;
    check_spare(rt, alloc)?;
    touch(parser);
    check_shown(rt, parser, before)
}

/// The second of two calls, of which the first was refused memory. Its result needs memory.
fn second_call<'input>(
    rt: &impl Abort,
    parser: &mut Parser<'input>,
    way: Way,
) -> Result<Option<Piece<'input>>, Fail> {
    let was_at_end = parser.peek().is_none();
    let lines = parser.line_spans().len();
    let piece = call(parser, way)?;
    let needs_memory = match &piece {
        Some(Piece::NextArgument(_)) => true,
        Some(Piece::Lit(text)) => parser.is_source_literal() && text.contains('\n'),
        None => !was_at_end || parser.line_spans().len() > lines,
    };
    assert!(rt; needs_memory);
    Ok(piece)
}

/// One call, and one more where it is refused memory, which changes nothing.
fn call_again<'input>(
    rt: &(impl Abort + Print),
    alloc: Global,
    parser: &mut Parser<'input>,
    way: Way,
    taken_errors: &mut Sheet,
) -> Result<Option<Piece<'input>>, Fail> {
    let before = shown(parser)?;
    check_unchanged(rt, alloc, parser, &before)?;
    if let Ok(piece) = call(parser, way) {
        return Ok(piece);
    }
    println!(rt; "refused")?;
    check_unchanged(rt, alloc, parser, &before)?;
    if matches!(way, Way::Item) {
        put_taken_errors(rt, parser, taken_errors)?;
    }
    second_call(rt, parser, way)
}

/// Reads a row from its start, by this parser, up to the first call without a piece.
fn walk_from(
    rt: &(impl Abort + Print),
    alloc: Global,
    row: Row,
    way: Way,
    parser: &mut Parser<'_>,
) -> Result<(), Fail> {
    let mut out = Sheet::new();
    let mut taken_errors = Sheet::new();
    for _ in 0..row.input.len() {
        match call_again(rt, alloc, parser, way, &mut taken_errors)? {
            Some(piece) => put_piece(&mut out, &piece)?,
            None => break,
        }
    }
    check_row(rt, row, &mut out, &taken_errors, parser)
}

/// Reads a row up to the first call without a piece.
fn walk(rt: &(impl Abort + Print), alloc: Global, row: Row, way: Way) -> Result<(), Fail> {
    let mut parser = start(rt, alloc, row)?;
    walk_from(rt, alloc, row, way, &mut parser)
}

/// Reads each row.
fn walk_all(rt: &(impl Abort + Print), alloc: Global, way: Way) -> Result<(), Fail> {
    for row in rows() {
        walk(rt, alloc, *row, way)?;
    }
    Ok(())
}

#[test]
fn next_out_of_memory_changes_nothing(rt: HostRuntime) -> Result<(), Fail> {
    walk_all(&rt, rt.alloc(), Way::Next)
}

#[test]
fn an_item_out_of_memory_changes_nothing(rt: HostRuntime) -> Result<(), Fail> {
    walk_all(&rt, rt.alloc(), Way::Item)
}
