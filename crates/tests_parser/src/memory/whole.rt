//! All pieces at once.

use super::listing::put_piece;
use super::rows::{Row, rows};
use super::sheet::Sheet;
use super::spare::check_spare;
use super::start::{check_row, snippet_again};
use rustc_parse_format::{Parser, Piece, Reading, read_all};
use std::alloc::{AllocError, Global};
use std::fmt;
use std::io::Print;
use std::process::Abort;
use std::test::Fail;

fn read(
    rt: &impl Abort,
    alloc: Global,
    row: Row,
    snippet: Option<String>,
) -> Result<Reading<'static>, AllocError> {
    assert!(rt; row.input.len() < 10000 && row.style.unwrap_or(0) < 10000);
    read_all(alloc, row.input, row.style, snippet, false, row.mode)
}

/// Reads a row, which may be refused memory.
fn try_read(
    rt: &(impl Abort + Print),
    alloc: Global,
    row: Row,
) -> Result<Result<Reading<'static>, AllocError>, Fail> {
    check_spare(rt, alloc)?;
    let snippet = snippet_again(rt, alloc, row)?;
    Ok(read(rt, alloc, row, snippet))
}

/// Reads a row, and once more where that is refused memory.
pub fn read_again(
    rt: &(impl Abort + Print),
    alloc: Global,
    row: Row,
) -> Result<Reading<'static>, Fail> {
    if let Ok(read) = try_read(rt, alloc, row)? {
        return Ok(read);
    }
    println!(rt; "refused")?;
    Ok(try_read(rt, alloc, row)??)
}

fn put_pieces(out: &mut Sheet, pieces: &[Piece<'_>]) -> fmt::Result {
    for piece in pieces {
        put_piece(out, piece)?;
    }
    Ok(())
}

/// These pieces, and the parser after them, are what the row says.
fn check_parts(
    rt: &impl Abort,
    row: Row,
    pieces: &[Piece<'_>],
    parser: &mut Parser<'_>,
) -> Result<(), Fail> {
    let mut out = Sheet::new();
    put_pieces(&mut out, pieces)?;
    check_row(rt, row, &mut out, &Sheet::new(), parser)
}

/// The pieces and errors that are read of a row are its own.
fn check_read(rt: &(impl Abort + Print), alloc: Global, row: Row) -> Result<(), Fail> {
    let Reading { pieces, mut parser } = read_again(rt, alloc, row)?;
    check_parts(rt, row, pieces.as_slice(), &mut parser)
}

#[test]
fn read_all_out_of_memory_is_called_again(rt: HostRuntime) -> Result<(), Fail> {
    for row in rows() {
        check_read(&rt, rt.alloc(), *row)?;
    }
    Ok(())
}
