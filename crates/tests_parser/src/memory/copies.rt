//! Clones of pieces.

use super::rows::STAR;
use super::spare::check_spare;
use super::whole::read_again;
use rustc_parse_format::Piece;
use std::alloc::Global;
use std::io::Print;
use std::process::Abort;
use std::test::Fail;

/// A clone of a piece, made once more where that is refused memory.
fn clone_again(
    rt: &(impl Abort + Print),
    alloc: Global,
    piece: &Piece<'static>,
) -> Result<Piece<'static>, Fail> {
    if let Ok(copy) = piece.clone(alloc) {
        return Ok(copy);
    }
    println!(rt; "refused")?;
    check_spare(rt, alloc)?;
    Ok(piece.clone(alloc)?)
}

/// A clone of a piece is equal to it but not to another.
fn check_clone(
    rt: &(impl Abort + Print),
    alloc: Global,
    piece: &Piece<'static>,
    other: &Piece<'static>,
) -> Result<(), Fail> {
    let copy = clone_again(rt, alloc, piece)?;
    assert!(rt; copy == *piece);
    assert!(rt; copy != *other);
    Ok(())
}

/// Of the pieces of the row, which are three, the second is cloned.
fn check_pieces(
    rt: &(impl Abort + Print),
    alloc: Global,
    pieces: &[Piece<'static>],
) -> Result<(), Fail> {
    assert_eq!(rt; pieces.len(), 3);
    check_clone(rt, alloc, &pieces[1], &pieces[0])
}

#[test]
fn clone_out_of_memory_is_called_again(rt: HostRuntime) -> Result<(), Fail> {
    let read = read_again(&rt, rt.alloc(), STAR)?;
    check_pieces(&rt, rt.alloc(), read.pieces.as_slice())
}
