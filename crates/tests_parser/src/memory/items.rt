//! The pieces of a parser as an iterator, which ends and stays at its end after an allocation
//! failure.

use super::listing::put_piece;
use super::rows::{Row, rows};
use super::sheet::Sheet;
use super::spare::{check_spare, touch};
use super::start::{check_row, start};
use rustc_parse_format::{Parser, Pieces};
use std::alloc::Global;
use std::io::Print;
use std::process::Abort;
use std::test::Fail;

/// There is no item any more, however often `next` is called.
fn check_ended(rt: &impl Abort, pieces: &mut Pieces<'_, '_>) {
    for _ in 0..3 {
        assert!(rt; pieces.next().is_none());
    }
}

/// Adds so many items at most, up to the end or a refusal, after which none comes. Returns whether
/// one was refused.
fn put_items(
    rt: &(impl Abort + Print),
    pieces: &mut Pieces<'_, '_>,
    most: usize,
    out: &mut Sheet,
) -> Result<bool, Fail> {
    let mut is_refused = false;
    for _ in 0..most {
        match pieces.next() {
            Some(Ok(piece)) => put_piece(out, &piece)?,
            Some(Err(_)) => {
                println!(rt; "refused")?;
                is_refused = true;
                break;
            }
            None => break,
        }
    }
    check_ended(rt, pieces);
    Ok(is_refused)
}

/// Where an item was refused memory, another iterator goes on to the end.
fn go_on(
    rt: &(impl Abort + Print),
    alloc: Global,
    parser: &mut Parser<'_>,
    most: usize,
    out: &mut Sheet,
) -> Result<(), Fail> {
    check_spare(rt, alloc)?;
    touch(parser);
    let is_refused = put_items(rt, &mut parser.pieces(), most, out)?;
    assert!(rt; !is_refused);
    Ok(())
}

/// Adds all items, by one iterator, or by two where an item is refused memory.
fn put_all(
    rt: &(impl Abort + Print),
    alloc: Global,
    parser: &mut Parser<'_>,
    most: usize,
    out: &mut Sheet,
) -> Result<(), Fail> {
    check_spare(rt, alloc)?;
    if put_items(rt, &mut parser.pieces(), most, out)? {
        go_on(rt, alloc, parser, most, out)?;
    }
    Ok(())
}

/// Reads a row from its start, by this parser.
fn read_from(
    rt: &(impl Abort + Print),
    alloc: Global,
    row: Row,
    parser: &mut Parser<'_>,
) -> Result<(), Fail> {
    let mut out = Sheet::new();
    put_all(rt, alloc, parser, row.input.len(), &mut out)?;
    check_row(rt, row, &mut out, &Sheet::new(), parser)
}

/// Reads a row.
fn read(rt: &(impl Abort + Print), alloc: Global, row: Row) -> Result<(), Fail> {
    let mut parser = start(rt, alloc, row)?;
    read_from(rt, alloc, row, &mut parser)
}

#[test]
fn pieces_out_of_memory_go_on_in_another_iterator(rt: HostRuntime) -> Result<(), Fail> {
    for row in rows() {
        read(&rt, rt.alloc(), *row)?;
    }
    Ok(())
}
