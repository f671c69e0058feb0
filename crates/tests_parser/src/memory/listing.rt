//! Writes the pieces that were read, as lines, on a sheet.

use super::sheet::Sheet;
use rustc_parse_format::{
    Alignment, Argument, Count, DebugHex, FormatSpec, ParseError, Parser, Piece, PieceKind,
    Position, Sign, Suggestion,
};
use std::fmt;
use std::fmt::Write;
use std::ops::Range;

/// Adds a text in quotes. Of the characters that a listing escapes, the rows have newlines and
/// quotes alone.
fn put_quoted(out: &mut Sheet, text: &str) -> fmt::Result {
    out.write_str("\"")?;
    for c in text.chars() {
        match c {
            '\n' => out.write_str("\\n")?,
            '"' => out.write_str("\\\"")?,
            _ => out.write_char(c)?,
        }
    }
    out.write_str("\"")
}

fn put_range(out: &mut Sheet, label: &str, range: &Range<usize>) -> fmt::Result {
    let (start, end) = (range.start, range.end);
    write!(out, "{label}{start}..{end}")
}

fn put_optional_range(out: &mut Sheet, range: &Option<Range<usize>>) -> fmt::Result {
    match range {
        Some(range) => put_range(out, "@", range),
        None => Ok(()),
    }
}

/// The text of an alignment.
fn align_text(align: Alignment) -> &'static str {
    match align {
        Alignment::AlignLeft => " align=left",
        Alignment::AlignRight => " align=right",
        Alignment::AlignCenter => " align=center",
        Alignment::AlignUnknown => "",
    }
}

fn sign_text(sign: Option<Sign>) -> &'static str {
    match sign {
        Some(Sign::Plus) => " sign=+",
        Some(Sign::Minus) => " sign=-",
        None => "",
    }
}

fn hex_text(hex: Option<DebugHex>) -> &'static str {
    match hex {
        Some(DebugHex::Lower) => " hex=lower",
        Some(DebugHex::Upper) => " hex=upper",
        None => "",
    }
}

fn put_flags(out: &mut Sheet, spec: &FormatSpec<'_>) -> fmt::Result {
    if let Some(fill) = spec.fill {
        write!(out, " fill=\"{fill}\"")?;
    }
    put_optional_range(out, &spec.fill_span)?;
    out.write_str(align_text(spec.align))?;
    out.write_str(sign_text(spec.sign))?;
    out.write_str(if spec.alternate { " alt" } else { "" })?;
    out.write_str(if spec.zero_pad { " zero" } else { "" })
}

fn put_count(out: &mut Sheet, label: &str, count: &Count<'_>) -> fmt::Result {
    out.write_str(label)?;
    match count {
        Count::CountIs(n) => write!(out, "is:{n}"),
        Count::CountIsName(name, range) => {
            write!(out, "name:{name}")?;
            put_range(out, "@", range)
        }
        Count::CountIsParam(n) => write!(out, "param:{n}"),
        Count::CountIsStar(n) => write!(out, "star:{n}"),
        Count::CountImplied => out.write_str("implied"),
    }
}

fn put_values(out: &mut Sheet, spec: &FormatSpec<'_>) -> fmt::Result {
    if spec.width != Count::CountImplied {
        put_count(out, " width=", &spec.width)?;
    }
    put_optional_range(out, &spec.width_span)?;
    if spec.precision != Count::CountImplied || spec.precision_span.is_some() {
        put_count(out, " precision=", &spec.precision)?;
    }
    put_optional_range(out, &spec.precision_span)?;
    out.write_str(hex_text(spec.debug_hex))?;
    if !spec.ty.is_empty() || spec.ty_span.is_some() {
        out.write_str(" ty=")?;
        put_quoted(out, spec.ty)?;
    }
    put_optional_range(out, &spec.ty_span)
}

fn put_argument(out: &mut Sheet, argument: &Argument<'_>) -> fmt::Result {
    match &argument.position {
        Position::ArgumentImplicitlyIs(n) => write!(out, "arg implicit {n}")?,
        Position::ArgumentIs(n) => write!(out, "arg index {n}")?,
        Position::ArgumentNamed(name) => write!(out, "arg name {name}")?,
    }
    put_range(out, " ", &argument.position_span)?;
    put_flags(out, &argument.format)?;
    put_values(out, &argument.format)
}

fn put_literal(out: &mut Sheet, text: &str) -> fmt::Result {
    out.write_str("lit ")?;
    put_quoted(out, text)
}

/// Adds the line of a piece.
pub fn put_piece(out: &mut Sheet, piece: &Piece<'_>) -> fmt::Result {
    match piece {
        Piece::Lit(text) => put_literal(out, text)?,
        Piece::NextArgument(argument) => put_argument(out, argument)?,
    }
    out.write_str("\n")
}

/// Adds the line of a piece whose placeholder was read into an argument.
pub fn put_read(out: &mut Sheet, kind: &PieceKind<'_>, argument: &Argument<'_>) -> fmt::Result {
    match kind {
        PieceKind::Lit(text) => put_literal(out, text)?,
        PieceKind::NextArgument => put_argument(out, argument)?,
    }
    out.write_str("\n")
}

/// Adds a line of text after a label.
fn put_text(out: &mut Sheet, label: &str, text: &str) -> fmt::Result {
    out.write_str(label)?;
    out.write_str(text)?;
    out.write_str("\n")
}

/// Adds a line with a range after a label.
fn put_place(out: &mut Sheet, label: &str, range: &Range<usize>) -> fmt::Result {
    put_range(out, label, range)?;
    out.write_str("\n")
}

fn put_reorder(out: &mut Sheet, range: &Range<usize>, text: &str) -> fmt::Result {
    put_range(out, "suggest reorder ", range)?;
    put_text(out, " ", text)
}

fn put_suggestion(out: &mut Sheet, suggestion: &Suggestion) -> fmt::Result {
    match suggestion {
        Suggestion::None => Ok(()),
        Suggestion::UsePositional => out.write_str("suggest positional\n"),
        Suggestion::RemoveRawIdent(range) => put_place(out, "suggest raw ", range),
        Suggestion::ReorderFormatParameter(range, text) => put_reorder(out, range, text.as_str()),
        Suggestion::AddMissingColon(range) => put_place(out, "suggest colon ", range),
        Suggestion::UseRustDebugPrintingMacro => out.write_str("suggest dbg\n"),
    }
}

fn put_error(out: &mut Sheet, error: &ParseError) -> fmt::Result {
    put_range(out, "fault ", &error.span)?;
    put_text(out, " ", error.description.as_str())?;
    if let Some(note) = &error.note {
        put_text(out, "note ", note.as_str())?;
    }
    put_text(out, "label ", error.label.as_str())?;
    if let Some((label, range)) = &error.secondary_label {
        put_range(out, "second ", range)?;
        put_text(out, " ", label.as_str())?;
    }
    put_suggestion(out, &error.suggestion)
}

/// Adds the lines of each error.
pub fn put_errors(out: &mut Sheet, errors: &[ParseError]) -> fmt::Result {
    for error in errors {
        put_error(out, error)?;
    }
    Ok(())
}

/// Adds a line for each range.
fn put_ranges(out: &mut Sheet, label: &str, ranges: &[Range<usize>]) -> fmt::Result {
    for range in ranges {
        put_place(out, label, range)?;
    }
    Ok(())
}

/// Adds whether the snippet is the source literal, and the next number.
pub fn put_number(out: &mut Sheet, parser: &Parser<'_>) -> fmt::Result {
    out.write_str(if parser.is_source_literal() {
        "source yes\n"
    } else {
        "source no\n"
    })?;
    let next = parser.curarg();
    write!(out, "curarg {next}\n")
}

/// Adds the places of arguments and the lines.
pub fn put_kept(out: &mut Sheet, parser: &Parser<'_>) -> fmt::Result {
    put_ranges(out, "place ", parser.arg_places())?;
    put_ranges(out, "line ", parser.line_spans())
}

/// Adds one of the characters that come next.
fn put_peek(out: &mut Sheet, peek: Option<(Range<usize>, usize, char)>) -> fmt::Result {
    match peek {
        Some((range, at, c)) => {
            put_range(out, "next ", &range)?;
            write!(out, " at {at} {c}\n")
        }
        None => out.write_str("next none\n"),
    }
}

/// All that a parser shows of itself.
pub fn shown(parser: &Parser<'_>) -> Result<Sheet, fmt::Error> {
    let mut out = Sheet::new();
    put_peek(&mut out, parser.peek())?;
    put_peek(&mut out, parser.peek_ahead())?;
    put_number(&mut out, parser)?;
    put_errors(&mut out, parser.errors())?;
    put_kept(&mut out, parser)?;
    Ok(out)
}
