//! The names of the arguments that a format string uses.

use rustc_parse_format::{ArgumentNamed, ParseError, ParseMode, Piece, Reading, read_all};
use std::alloc::{AllocError, Global};

/// The names that the pieces of a text refer to, in order, or None for one with errors.
fn names_of<'a>(
    alloc: Global,
    pieces: &[Piece<'a>],
    errors: &[ParseError],
) -> Result<Option<Vec<&'a str>>, AllocError> {
    if !errors.is_empty() {
        return Ok(None);
    }
    let mut names = Vec::new(alloc);
    for piece in pieces {
        if let Piece::NextArgument(argument) = piece {
            if let ArgumentNamed(name) = argument.position {
                names.push(name)?;
            }
        }
    }
    Ok(Some(names))
}

/// The names in the placeholders of a format string, in order, or None for a text with a fault or
/// one that is too long.
pub fn names<'a>(alloc: Global, text: &'a str) -> Result<Option<Vec<&'a str>>, AllocError> {
    if text.len() > 1_000_000 {
        return Ok(None);
    }
    let Reading { pieces, parser } = read_all(alloc, text, None, None, false, ParseMode::Format)?;
    names_of(alloc, &pieces, parser.errors())
}
