//! Pieces: they outlive their parser, and can be cloned.

use rustc_parse_format::{ParseMode, Parser, Piece, Position};
use std::alloc::{AllocError, Global};
use std::test::Fail;

/// The first piece of an input, whose parser is gone.
fn first_piece(alloc: Global, input: &'static str) -> Result<Option<Piece<'static>>, AllocError> {
    let mut parser = Parser::new(alloc, input, None, None, false, ParseMode::Format)?;
    parser.next()
}

#[test]
fn a_text_outlives_its_parser(rt: HostRuntime) -> Result<(), Fail> {
    let piece = first_piece(rt.alloc(), "text{}")?;
    assert!(rt; matches!(piece, Some(Piece::Lit("text"))));
    Ok(())
}

#[test]
fn an_argument_outlives_its_parser(rt: HostRuntime) -> Result<(), Fail> {
    let piece = first_piece(rt.alloc(), "{name}")?;
    assert!(rt;
        matches!(&piece,
            Some(Piece::NextArgument(it)) if it.position == Position::ArgumentNamed("name"))
    );
    Ok(())
}

/// The first piece of an input, and a clone of it.
fn cloned(alloc: Global, input: &'static str) -> Result<Option<Piece<'static>>, AllocError> {
    match first_piece(alloc, input)? {
        Some(piece) => Ok(Some(piece.clone(alloc)?)),
        None => Ok(None),
    }
}

#[test]
fn pieces_are_cloned(rt: HostRuntime) -> Result<(), Fail> {
    let argument = cloned(rt.alloc(), "{name}")?;
    assert!(rt; matches!(argument, Some(Piece::NextArgument(_))));
    let text = cloned(rt.alloc(), "text{}")?;
    assert!(rt; matches!(text, Some(Piece::Lit("text"))));
    Ok(())
}
