//! Calls that read a placeholder into an argument of the caller, each made again if an allocation
//! fails.

use super::listing::{put_read, shown};
use super::rows::{Row, rows};
use super::sheet::Sheet;
use super::spare::next_is_read;
use super::start::{check_row, start};
use super::walks::check_unchanged;
use rustc_parse_format::{Argument, ParseMode, Parser, PieceKind};
use std::alloc::Global;
use std::io::Print;
use std::process::Abort;
use std::test::Fail;

/// How much a parser keeps.
fn kept(parser: &Parser<'_>) -> [usize; 3] {
    [
        parser.errors().len(),
        parser.arg_places().len(),
        parser.line_spans().len(),
    ]
}

/// The second of two calls, of which the first was refused memory. It adds to what the parser
/// keeps.
fn second_call<'input>(
    rt: &impl Abort,
    parser: &mut Parser<'input>,
    argument: &mut Argument<'input>,
) -> Result<Option<PieceKind<'input>>, Fail> {
    let before = kept(parser);
    let next = parser.next_into(argument)?;
    assert!(rt; kept(parser) != before);
    Ok(next.piece)
}

/// One call, and one more where it is refused memory, which changes nothing.
fn call_again<'input>(
    rt: &(impl Abort + Print),
    alloc: Global,
    parser: &mut Parser<'input>,
    argument: &mut Argument<'input>,
) -> Result<Option<PieceKind<'input>>, Fail> {
    let before = shown(parser)?;
    check_unchanged(rt, alloc, parser, &before)?;
    if let Ok(next) = parser.next_into(argument) {
        return Ok(next.piece);
    }
    println!(rt; "refused")?;
    check_unchanged(rt, alloc, parser, &before)?;
    second_call(rt, parser, argument)
}

/// Adds so many pieces at most, up to the first call without one. All placeholders are read into
/// one argument.
fn put_pieces(
    rt: &(impl Abort + Print),
    alloc: Global,
    parser: &mut Parser<'_>,
    most: usize,
    out: &mut Sheet,
) -> Result<(), Fail> {
    let mut argument = Argument::default();
    for _ in 0..most {
        match call_again(rt, alloc, parser, &mut argument)? {
            Some(kind) => put_read(out, &kind, &argument)?,
            None => break,
        }
    }
    Ok(())
}

/// A parser reads a row up to the first call without a piece.
fn check_walk(
    rt: &(impl Abort + Print),
    alloc: Global,
    row: Row,
    parser: &mut Parser<'_>,
) -> Result<(), Fail> {
    let mut out = Sheet::new();
    put_pieces(rt, alloc, parser, row.input.len(), &mut out)?;
    check_row(rt, row, &mut out, &Sheet::new(), parser)
}

fn walk(rt: &(impl Abort + Print), alloc: Global, row: Row) -> Result<(), Fail> {
    let mut parser = start(rt, alloc, row)?;
    check_walk(rt, alloc, row, &mut parser)
}

#[test]
fn next_into_out_of_memory_changes_nothing(rt: HostRuntime) -> Result<(), Fail> {
    for row in rows() {
        walk(&rt, rt.alloc(), *row)?;
    }
    Ok(())
}

/// So many calls give a placeholder, and then the input is at its end.
fn check_placeholders(rt: &impl Abort, parser: &mut Parser<'_>, count: usize) -> Result<(), Fail> {
    for _ in 0..count {
        let is_read = next_is_read(parser)?;
        assert!(rt; is_read);
    }
    assert!(rt; parser.peek().is_none());
    Ok(())
}

/// Reads an input of so many placeholders without faults, outside a source literal.
fn check_clean(
    rt: &impl Abort,
    alloc: Global,
    mode: ParseMode,
    input: &str,
    count: usize,
) -> Result<(), Fail> {
    assert!(rt; input.len() < 10000);
    let mut parser = Parser::new(alloc, input, Some(1), None, false, mode)?;
    check_placeholders(rt, &mut parser, count)
}

/// The first request of the whole is the one that is made at the end, so no placeholder takes
/// memory.
#[test]
fn placeholders_out_of_memory_are_read(rt: HostRuntime) -> Result<(), Fail> {
    let alloc = rt.alloc();
    check_clean(
        &rt,
        alloc,
        ParseMode::Format,
        "{}{0}{name }{:>9$.*}{a:*^+#08.b$x?}{:65535}",
        6,
    )?;
    check_clean(&rt, alloc, ParseMode::InlineAsm, "{}{a:x}", 2)?;
    check_clean(&rt, alloc, ParseMode::Diagnostic, "{:any\ntext}{a}", 2)?;
    check_clean(&rt, alloc, ParseMode::DiagnosticNamed, "{a}{b}", 2)?;
    if Box::new(alloc, 0u8).is_err() {
        println!(rt; "refused")?;
    }
    Ok(())
}
