//! Calls that leave their faults to the caller, each made again if an allocation fails.

use super::listing::{put_errors, put_read, shown};
use super::rows::{Row, rows};
use super::sheet::Sheet;
use super::start::{check_row, start};
use super::walks::check_unchanged;
use rustc_parse_format::{Argument, Fault, ParseError, Parser, PieceKind};
use std::alloc::Global;
use std::io::Print;
use std::process::Abort;
use std::test::Fail;

/// The error of a fault, made once more where that is refused memory.
fn error_again(
    rt: &(impl Abort + Print),
    alloc: Global,
    fault: &Fault<'_>,
) -> Result<ParseError, Fail> {
    if let Ok(error) = fault.error(alloc) {
        return Ok(error);
    }
    println!(rt; "refused")?;
    Ok(fault.error(alloc)?)
}

/// Adds the error of a fault, if this is one in front or one that is not.
fn put_fault(
    rt: &(impl Abort + Print),
    alloc: Global,
    fault: &Fault<'_>,
    is_front: bool,
    out: &mut Sheet,
) -> Result<(), Fail> {
    if fault.is_front() == is_front {
        let error = error_again(rt, alloc, fault)?;
        put_errors(out, &[error])?;
    }
    Ok(())
}

/// Adds the errors of all faults in the order of a parser: of those in front the last is first.
fn put_faults(
    rt: &(impl Abort + Print),
    alloc: Global,
    faults: &[Fault<'_>],
    out: &mut Sheet,
) -> Result<(), Fail> {
    for fault in faults.iter().rev() {
        put_fault(rt, alloc, fault, true, out)?;
    }
    for fault in faults {
        put_fault(rt, alloc, fault, false, out)?;
    }
    Ok(())
}

/// The errors of all faults.
fn listed(rt: &(impl Abort + Print), alloc: Global, faults: &[Fault<'_>]) -> Result<Sheet, Fail> {
    let mut out = Sheet::new();
    put_faults(rt, alloc, faults, &mut out)?;
    Ok(out)
}

/// One call, and one more where it is refused memory, which changes neither the parser nor the
/// list of faults.
fn call_again<'input>(
    rt: &(impl Abort + Print),
    alloc: Global,
    parser: &mut Parser<'input>,
    argument: &mut Argument<'input>,
    faults: &mut Vec<Fault<'input>>,
) -> Result<Option<PieceKind<'input>>, Fail> {
    let (before, errors) = (shown(parser)?, listed(rt, alloc, faults)?);
    check_unchanged(rt, alloc, parser, &before)?;
    if let Ok(kind) = parser.next_with_faults(argument, faults) {
        return Ok(kind);
    }
    println!(rt; "refused")?;
    check_unchanged(rt, alloc, parser, &before)?;
    assert_eq!(rt; listed(rt, alloc, faults)?.text(), errors.text());
    Ok(parser.next_with_faults(argument, faults)?)
}

/// Adds so many pieces at most, up to the first call without one. All faults go to one list.
fn put_pieces<'input>(
    rt: &(impl Abort + Print),
    alloc: Global,
    parser: &mut Parser<'input>,
    most: usize,
    faults: &mut Vec<Fault<'input>>,
    out: &mut Sheet,
) -> Result<(), Fail> {
    let mut argument = Argument::default();
    for _ in 0..most {
        match call_again(rt, alloc, parser, &mut argument, faults)? {
            Some(kind) => put_read(out, &kind, &argument)?,
            None => break,
        }
    }
    Ok(())
}

/// A parser reads a row up to the first call without a piece, and has no errors. Those of the row
/// are those of its faults.
fn check_walk(
    rt: &(impl Abort + Print),
    alloc: Global,
    row: Row,
    parser: &mut Parser<'static>,
    faults: &mut Vec<Fault<'static>>,
) -> Result<(), Fail> {
    let mut out = Sheet::new();
    put_pieces(rt, alloc, parser, row.input.len(), faults, &mut out)?;
    let errors = listed(rt, alloc, faults)?;
    assert!(rt; parser.errors().is_empty());
    check_row(rt, row, &mut out, &errors, parser)
}

fn walk(rt: &(impl Abort + Print), alloc: Global, row: Row) -> Result<(), Fail> {
    let mut parser = start(rt, alloc, row)?;
    check_walk(rt, alloc, row, &mut parser, &mut Vec::new(alloc))
}

#[test]
fn next_with_faults_out_of_memory_changes_nothing(rt: HostRuntime) -> Result<(), Fail> {
    for row in rows() {
        walk(&rt, rt.alloc(), *row)?;
    }
    Ok(())
}
