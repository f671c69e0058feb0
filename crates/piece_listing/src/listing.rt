//! The lines of pieces and of errors. Each function that returns a `Result` returns
//! `Err` if an allocation fails; `put_` in a name means that it appends to `out`.

ghost use Rattle.std.specs.Prelude.{◌≡◌, ◌++◌, [], IsOk, OnOk, map, chars, codes};
ghost use Rattle.std.specs.Prelude.{encode_utf8_all, flat_map, option_map, string_bytes};
ghost use Rattle.rustc_parse_format.specs.Escaping.{written_character};
ghost use Rattle.rustc_parse_format.specs.Views.{pair, seen_piece, seen_alignment, seen_count};
ghost use Rattle.rustc_parse_format.specs.Views.{seen_debug_hex, seen_error, seen_position};
ghost use Rattle.rustc_parse_format.specs.Views.{seen_sign, seen_spec};
ghost use Rattle.piece_listing.specs.Listing.{align_entry, at_entry, count_entry, count_text};
ghost use Rattle.piece_listing.specs.Listing.{fault_line, fill_entry, flag_entry, flag_entries};
ghost use Rattle.piece_listing.specs.Listing.{hex_entry};
ghost use Rattle.piece_listing.specs.Listing.{piece_line, position_text, precision_entry};
ghost use Rattle.piece_listing.specs.Listing.{quoted_text, sign_entry, span_text, type_entry};
ghost use Rattle.piece_listing.specs.Listing.{value_entries, width_entry};

use super::numbers::{put_number, put_span};
use rustc_parse_format::{
    Alignment, Argument, Count, DebugHex, FormatSpec, ParseError, Piece, Position, Sign,
    put_all_written, put_written,
};
use std::alloc::AllocError;
use std::ops::Range;

/// Adds a text, escaped, between quotes.
pub fn put_quoted(out: &mut String, text: &str) -> Result<(), AllocError>
    ensures { OnOk result (string_bytes out.new
        ≡ string_bytes out.old ++ quoted_text (chars text.now)) }
{
    out.push('"')?;
    put_all_written(out, text)?;
    out.push('"')?;
    Ok(())
}

/// Adds the line of a piece of literal text.
pub(crate) fn put_literal(out: &mut String, text: &str) -> Result<(), AllocError>
    ensures { OnOk result (string_bytes out.new ≡ string_bytes out.old ++
        (codes "lit " ++ (quoted_text (chars text.now) ++ codes "\n"))) }
{
    out.push_str("lit \"")?;
    put_all_written(out, text)?;
    out.push_str("\"\n")?;
    Ok(())
}

/// Adds a label and then a name, neither of them escaped.
#[inline(always)]
fn put_name(out: &mut String, label: &str, name: &str) -> Result<(), AllocError>
    ensures { OnOk result (string_bytes out.new ≡ string_bytes out.old ++
        (label.now ++ encode_utf8_all (chars name.now))) }
{
    out.push_str(label)?;
    out.push_str(name)?;
    Ok(())
}

/// Adds the span of the part before it, if that has one.
fn put_span_at(out: &mut String, span: &Option<Range<usize>>) -> Result<(), AllocError>
    ensures { OnOk result (string_bytes out.new ≡ string_bytes out.old ++
        at_entry (option_map pair span.now)) }
{
    if let Some(span) = span {
        put_span(out, '@', span)?;
    }
    Ok(())
}

/// Adds the first word of the line of a placeholder, and then its position.
fn put_position(out: &mut String, position: &Position<'_>) -> Result<(), AllocError>
    ensures { OnOk result (string_bytes out.new ≡ string_bytes out.old ++
        (codes "arg " ++ position_text (seen_position position.now))) }
{
    match position {
        Position::ArgumentImplicitlyIs(n) => put_number(out, "arg implicit ", *n)?,
        Position::ArgumentIs(n) => put_number(out, "arg index ", *n)?,
        Position::ArgumentNamed(name) => put_name(out, "arg name ", name)?,
    }
    Ok(())
}

/// Adds a fill character and its span, if there is one.
fn put_fill(
    out: &mut String,
    fill: Option<char>,
    span: &Option<Range<usize>>,
) -> Result<(), AllocError>
    ensures { OnOk result (string_bytes out.new ≡ string_bytes out.old ++
        fill_entry fill (option_map pair span.now)) }
{
    if let Some(c) = fill {
        out.push_str(" fill=\"")?;
        put_written(out, c)?;
        out.push('"')?;
        put_span_at(out, span)?;
    }
    Ok(())
}

/// Adds an alignment, if there is one.
fn put_alignment(out: &mut String, align: Alignment) -> Result<(), AllocError>
    ensures { OnOk result (string_bytes out.new ≡ string_bytes out.old ++
        align_entry (seen_alignment align)) }
{
    match align {
        Alignment::AlignLeft => out.push_str(" align=left")?,
        Alignment::AlignRight => out.push_str(" align=right")?,
        Alignment::AlignCenter => out.push_str(" align=center")?,
        Alignment::AlignUnknown => {}
    }
    Ok(())
}

/// Adds a sign flag, if there is one.
fn put_sign(out: &mut String, sign: Option<Sign>) -> Result<(), AllocError>
    ensures { OnOk result (string_bytes out.new ≡ string_bytes out.old ++
        sign_entry (option_map seen_sign sign)) }
{
    match sign {
        None => {}
        Some(Sign::Plus) => out.push_str(" sign=+")?,
        Some(Sign::Minus) => out.push_str(" sign=-")?,
    }
    Ok(())
}

/// Adds the name of a flag, if the flag is set.
fn put_flag(out: &mut String, name: &str, flag: bool) -> Result<(), AllocError>
    ensures { OnOk result (string_bytes out.new ≡ string_bytes out.old
        ++ flag_entry flag name.now) }
{
    if flag {
        out.push_str(name)?;
    }
    Ok(())
}

/// Adds the fill character, the alignment and the flags of a specification.
#[tactic(auto, unfolding(crate::specs::Listing::flag_entries))]
fn put_flags(out: &mut String, spec: &FormatSpec<'_>) -> Result<(), AllocError>
    ensures { OnOk result (string_bytes out.new ≡ string_bytes out.old ++
        flag_entries (seen_spec spec.now)) }
{
    put_fill(out, spec.fill, &spec.fill_span)?;
    put_alignment(out, spec.align)?;
    put_sign(out, spec.sign)?;
    put_flag(out, " alt", spec.alternate)?;
    put_flag(out, " zero", spec.zero_pad)?;
    Ok(())
}

/// Adds a width or a precision.
fn put_count(out: &mut String, count: &Count<'_>) -> Result<(), AllocError>
    ensures { OnOk result (string_bytes out.new ≡ string_bytes out.old ++
        count_text (seen_count count.now)) }
{
    match count {
        Count::CountIs(n) => put_number(out, "is:", usize::from(*n))?,
        Count::CountIsName(name, span) => {
            put_name(out, "name:", name)?;
            put_span(out, '@', span)?;
        }
        Count::CountIsParam(n) => put_number(out, "param:", *n)?,
        Count::CountIsStar(n) => put_number(out, "star:", *n)?,
        Count::CountImplied => out.push_str("implied")?,
    }
    Ok(())
}

/// Adds a part that is a width or a precision: its name, the count and its span.
#[inline(always)]
fn put_named_count(
    out: &mut String,
    name: &str,
    count: &Count<'_>,
    span: &Option<Range<usize>>,
) -> Result<(), AllocError>
    ensures { OnOk result (string_bytes out.new ≡ string_bytes out.old ++
        count_entry name.now (seen_count count.now) (option_map pair span.now)) }
{
    out.push_str(name)?;
    put_count(out, count)?;
    put_span_at(out, span)?;
    Ok(())
}

/// Adds a width, unless there is none.
fn put_width(
    out: &mut String,
    width: &Count<'_>,
    span: &Option<Range<usize>>,
) -> Result<(), AllocError>
    ensures { OnOk result (string_bytes out.new ≡ string_bytes out.old ++
        width_entry (seen_count width.now) (option_map pair span.now)) }
{
    if matches!(width, Count::CountImplied) {
        return Ok(());
    }
    put_named_count(out, " width=", width, span)?;
    Ok(())
}

/// Adds a precision, if it has a span.
fn put_precision(
    out: &mut String,
    precision: &Count<'_>,
    span: &Option<Range<usize>>,
) -> Result<(), AllocError>
    ensures { OnOk result (string_bytes out.new ≡ string_bytes out.old ++
        precision_entry (option_map pair span.now) (seen_count precision.now)) }
{
    if let Some(_) = span {
        put_named_count(out, " precision=", precision, span)?;
    }
    Ok(())
}

/// Adds the case of the hexadecimal digits of a debug format, if it has one.
fn put_hex(out: &mut String, hex: Option<DebugHex>) -> Result<(), AllocError>
    ensures { OnOk result (string_bytes out.new ≡ string_bytes out.old ++
        hex_entry (option_map seen_debug_hex hex)) }
{
    match hex {
        None => {}
        Some(DebugHex::Lower) => out.push_str(" hex=lower")?,
        Some(DebugHex::Upper) => out.push_str(" hex=upper")?,
    }
    Ok(())
}

/// Adds a type, unless it is empty and has no span.
fn put_type(out: &mut String, ty: &str, span: &Option<Range<usize>>) -> Result<(), AllocError>
    ensures { OnOk result (string_bytes out.new ≡ string_bytes out.old ++
        type_entry (option_map pair span.now) (chars ty.now)) }
{
    if span.is_none() && ty.is_empty() {
        return Ok(());
    }
    out.push_str(" ty=")?;
    put_quoted(out, ty)?;
    put_span_at(out, span)?;
    Ok(())
}

/// Adds the width, the precision and the type of a specification.
#[tactic(auto, unfolding(crate::specs::Listing::value_entries))]
fn put_values(out: &mut String, spec: &FormatSpec<'_>) -> Result<(), AllocError>
    ensures { OnOk result (string_bytes out.new ≡ string_bytes out.old ++
        value_entries (seen_spec spec.now)) }
{
    put_width(out, &spec.width, &spec.width_span)?;
    put_precision(out, &spec.precision, &spec.precision_span)?;
    put_hex(out, spec.debug_hex)?;
    put_type(out, spec.ty, &spec.ty_span)?;
    Ok(())
}

/// Adds the line of a placeholder.
pub(crate) fn put_argument(out: &mut String, argument: &Argument<'_>) -> Result<(), AllocError>
    ensures { OnOk result (string_bytes out.new ≡ string_bytes out.old ++
        (codes "arg " ++ (position_text (seen_position argument.now.position)
        ++ (codes " " ++ (span_text (pair argument.now.position_span)
        ++ (flag_entries (seen_spec argument.now.format)
        ++ (value_entries (seen_spec argument.now.format) ++ codes "\n"))))))) }
{
    put_position(out, &argument.position)?;
    put_span(out, ' ', &argument.position_span)?;
    put_flags(out, &argument.format)?;
    put_values(out, &argument.format)?;
    out.push('\n')?;
    Ok(())
}

/// Appends the line of a piece to `out`. Returns `Err` if an allocation fails; a part of the line
/// may then be in `out`.
pub fn put_piece(out: &mut String, piece: &Piece<'_>) -> Result<(), AllocError>
    ensures { OnOk result (string_bytes out.new ≡ string_bytes out.old
        ++ piece_line (seen_piece piece.now)) }
{
    match piece {
        Piece::Lit(text) => put_literal(out, text)?,
        Piece::NextArgument(argument) => put_argument(out, argument)?,
    }
    Ok(())
}

/// Adds the line of an error.
fn put_fault(out: &mut String, error: &ParseError) -> Result<(), AllocError>
    ensures { OnOk result (string_bytes out.new ≡ string_bytes out.old ++
        fault_line (seen_error error.now)) }
{
    out.push_str("fault")?;
    put_span(out, ' ', &error.span)?;
    out.push(' ')?;
    out.push_str(error.description.as_str())?;
    out.push('\n')?;
    Ok(())
}

/// Adds a line for each error, in their order.
pub(crate) fn put_faults(out: &mut String, errors: &[ParseError]) -> Result<(), AllocError>
    ensures lines { OnOk result (string_bytes out.new ≡ string_bytes out.old ++
        flat_map fault_line (map seen_error errors.now)) }
    ensures empty { errors.now ≡ [] → IsOk result }
{
    for error in errors {
        put_fault(out, error)?;
    }
    Ok(())
}
