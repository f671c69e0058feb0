//! The first allocation after that of the snippet. An escape is read without any; the placeholder
//! after it allocates its box.

use super::listing::{put_piece, shown};
use super::rows::ESCAPE;
use super::sheet::Sheet;
use super::spare::next_is;
use super::start::{check_shown, start};
use rustc_parse_format::{Parser, Piece};
use std::io::Print;
use std::process::Abort;
use std::test::Fail;

/// The next piece, by a second call where the first is refused memory, which changes nothing.
fn next_again<'input>(
    rt: &(impl Abort + Print),
    parser: &mut Parser<'input>,
) -> Result<Option<Piece<'input>>, Fail> {
    let before = shown(parser)?;
    if let Ok(piece) = parser.next() {
        return Ok(piece);
    }
    println!(rt; "refused")?;
    check_shown(rt, parser, &before)?;
    Ok(parser.next()?)
}

/// The escape is the next piece, and no want of memory stops it. Then comes the placeholder.
fn check_pieces(rt: &(impl Abort + Print), parser: &mut Parser<'_>) -> Result<(), Fail> {
    let is_escape = next_is(parser, "😀")?;
    assert!(rt; is_escape);
    let mut out = Sheet::new();
    match next_again(rt, parser)? {
        Some(piece) => put_piece(&mut out, &piece)?,
        None => panic!(rt; "there is no second piece"),
    }
    assert_eq!(rt; out.text(), "arg implicit 0 11..11\n");
    Ok(())
}

#[test]
fn a_placeholder_after_an_escape_out_of_memory_is_read_again(rt: HostRuntime) -> Result<(), Fail> {
    let mut parser = start(&rt, rt.alloc(), ESCAPE)?;
    check_pieces(&rt, &mut parser)
}
