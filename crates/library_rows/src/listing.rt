//! The results of calls as lines of text: pieces as `formatread` lists them, `none` for a call
//! without a piece, and then `curarg`, the errors, each with the lines `note`, `label`, `second`
//! and `suggest` that it has, and the byte ranges of placeholders and of lines.

use piece_listing::put_piece;
use rustc_parse_format::{ParseError, Parser, Piece, Suggestion};
use std::alloc::AllocError;
use std::ops::Range;

/// Adds whether the snippet is the source literal.
pub fn put_source(out: &mut String, is_source: bool) -> Result<(), AllocError> {
    out.push_str(if is_source {
        "source yes\n"
    } else {
        "source no\n"
    })
}

/// Adds a label, and after it a range.
pub fn put_range(out: &mut String, label: &str, range: &Range<usize>) -> Result<(), AllocError> {
    let (start, end) = (range.start, range.end);
    write!(out, "{label}{start}..{end}")
}

/// Adds the line of a piece.
pub fn put_line(out: &mut String, piece: &Piece<'_>) -> Result<(), AllocError> {
    put_piece(out, piece)
}

/// Adds what a call of `next` returns.
pub fn put_next(out: &mut String, parser: &mut Parser<'_>) -> Result<(), AllocError> {
    match parser.next()? {
        Some(piece) => put_line(out, &piece),
        None => out.push_str("none\n"),
    }
}

fn put_suggestion(out: &mut String, suggestion: &Suggestion) -> Result<(), AllocError> {
    match suggestion {
        Suggestion::None => return Ok(()),
        Suggestion::UsePositional => out.push_str("suggest positional")?,
        Suggestion::RemoveRawIdent(range) => put_range(out, "suggest raw ", range)?,
        Suggestion::ReorderFormatParameter(range, text) => {
            put_range(out, "suggest reorder ", range)?;
            let text = text.as_str();
            write!(out, " {text}")?;
        }
        Suggestion::AddMissingColon(range) => put_range(out, "suggest colon ", range)?,
        Suggestion::UseRustDebugPrintingMacro => out.push_str("suggest dbg")?,
    }
    out.push_str("\n")
}

/// Adds all that an error says, a line for each part.
pub fn put_error(out: &mut String, error: &ParseError) -> Result<(), AllocError> {
    put_range(out, "fault ", &error.span)?;
    let (description, label) = (error.description.as_str(), error.label.as_str());
    write!(out, " {description}\n")?;
    if let Some(note) = &error.note {
        let note = note.as_str();
        write!(out, "note {note}\n")?;
    }
    write!(out, "label {label}\n")?;
    if let Some((label, range)) = &error.secondary_label {
        put_range(out, "second ", range)?;
        let label = label.as_str();
        write!(out, " {label}\n")?;
    }
    put_suggestion(out, &error.suggestion)
}

/// Adds a line for each range.
fn put_ranges(out: &mut String, label: &str, ranges: &[Range<usize>]) -> Result<(), AllocError> {
    for range in ranges {
        put_range(out, label, range)?;
        out.push_str("\n")?;
    }
    Ok(())
}

/// Adds all that is kept beside the pieces.
pub fn put_end(out: &mut String, parser: &Parser<'_>) -> Result<(), AllocError> {
    let next = parser.curarg();
    write!(out, "curarg {next}\n")?;
    for error in parser.errors() {
        put_error(out, error)?;
    }
    put_ranges(out, "place ", parser.arg_places())?;
    put_ranges(out, "line ", parser.line_spans())
}
