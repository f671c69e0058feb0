//! Calls that do not allocate, so that they never return an allocation failure.

use rustc_parse_format::literal::is_source_literal;
use rustc_parse_format::{
    Argument, FormatSpec, ParseMode, Parser, Piece, PieceKind, Pieces, Position, read_all,
};
use std::alloc::{AllocError, Global};
use std::process::Abort;
use std::test::Fail;

fn is_text(piece: &Piece<'_>, text: &str) -> bool {
    match piece {
        Piece::Lit(it) => *it == text,
        Piece::NextArgument(_) => false,
    }
}

/// The next piece is this text.
pub fn next_is(parser: &mut Parser<'_>, text: &str) -> Result<bool, AllocError> {
    match parser.next()? {
        Some(piece) => Ok(is_text(&piece, text)),
        None => Ok(false),
    }
}

/// Such a parser reads its text, and comes to the end.
fn check_calls(rt: &impl Abort, parser: &mut Parser<'_>, text: &str) -> Result<(), Fail> {
    let is_first = next_is(parser, text)?;
    assert!(rt; is_first);
    let is_end = parser.next()?.is_none();
    assert!(rt; is_end);
    Ok(())
}

/// A new parser reads text.
fn check_text(rt: &impl Abort, alloc: Global) -> Result<(), Fail> {
    let mut parser = Parser::new(alloc, "ab\n", Some(1), None, true, ParseMode::Format)?;
    check_calls(rt, &mut parser, "ab\n")
}

/// The next item is this text.
fn item_is(pieces: &mut Pieces<'_, '_>, text: &str) -> bool {
    match pieces.next() {
        Some(Ok(piece)) => is_text(&piece, text),
        _ => false,
    }
}

/// The items of an iterator over its pieces are its text, and then none.
fn check_items(rt: &impl Abort, parser: &mut Parser<'_>, text: &str) {
    let mut pieces = parser.pieces();
    assert!(rt; item_is(&mut pieces, text));
    assert!(rt; pieces.next().is_none());
}

/// So does an iterator over its pieces.
fn check_item(rt: &impl Abort, alloc: Global) -> Result<(), Fail> {
    let mut parser = Parser::new(alloc, "}}ab", None, None, false, ParseMode::InlineAsm)?;
    check_items(rt, &mut parser, "}ab");
    Ok(())
}

/// Nothing was read.
fn check_empty(rt: &impl Abort, pieces: &[Piece<'_>], parser: &Parser<'_>) {
    assert!(rt; pieces.is_empty());
    assert!(rt; parser.errors().is_empty());
}

/// Such a parser comes to its end at once.
fn check_no_piece(rt: &impl Abort, parser: &mut Parser<'_>) -> Result<(), Fail> {
    let is_end = parser.next()?.is_none();
    assert!(rt; is_end);
    assert!(rt; parser.errors().is_empty());
    Ok(())
}

/// Nothing is read of nothing, by one call and by all.
fn check_nothing(rt: &impl Abort, alloc: Global) -> Result<(), Fail> {
    let mut parser = Parser::new(alloc, "", None, None, false, ParseMode::Format)?;
    check_no_piece(rt, &mut parser)?;
    let read = read_all(alloc, "", None, None, false, ParseMode::Diagnostic)?;
    check_empty(rt, read.pieces.as_slice(), &read.parser);
    Ok(())
}

/// A placeholder with a name and nothing else.
fn named() -> Argument<'static> {
    Argument {
        position: Position::ArgumentNamed("a"),
        position_span: 2..3,
        format: FormatSpec::default(),
    }
}

/// The next piece is a placeholder without a fault in front, which is read into an argument.
pub fn next_is_read(parser: &mut Parser<'_>) -> Result<bool, AllocError> {
    let next = parser.next_into(&mut Argument::default())?;
    Ok(matches!(next.piece, Some(PieceKind::NextArgument)) && next.front_errors == 0)
}

/// The next piece of such a parser is one.
fn check_next_is_read(rt: &impl Abort, parser: &mut Parser<'_>) -> Result<(), AllocError> {
    let is_read = next_is_read(parser)?;
    assert!(rt; is_read);
    Ok(())
}

/// A placeholder without fault, outside a source literal, is read into an argument.
fn check_read(rt: &impl Abort, alloc: Global) -> Result<(), AllocError> {
    let text = "{a:*^+#08.b$x?}";
    let mut parser = Parser::new(alloc, text, None, None, false, ParseMode::Format)?;
    check_next_is_read(rt, &mut parser)
}

/// The answers of its methods, and its clone.
fn check_argument(rt: &impl Abort, argument: &Argument<'static>) -> Result<(), Fail> {
    assert!(rt; argument.is_identifier());
    assert!(rt; argument.position.index().is_none());
    let copy = argument.clone()?;
    assert!(rt; copy == *argument);
    Ok(())
}

/// Values, their clones, and the answers of their methods.
fn check_values(rt: &impl Abort, alloc: Global) -> Result<(), Fail> {
    check_argument(rt, &named())?;
    let copy = Piece::Lit("a").clone(alloc)?;
    assert!(rt; copy == Piece::Lit("a"));
    assert!(rt; is_source_literal("a", None, "\"\\x61\"", false));
    Ok(())
}

/// The calls that need no parser.
pub fn check_spare(rt: &impl Abort, alloc: Global) -> Result<(), Fail> {
    check_text(rt, alloc)?;
    check_item(rt, alloc)?;
    check_nothing(rt, alloc)?;
    check_read(rt, alloc)?;
    check_values(rt, alloc)
}

/// A number that is set as it is, and an iterator that is let go. Nothing changes.
pub fn touch(parser: &mut Parser<'_>) {
    let number = parser.curarg();
    parser.set_curarg(number);
    let _pieces = parser.pieces();
}
