//! Pieces as JSON. Each function of this module appends to a writer, and returns `Err` if an
//! allocation fails.

ghost use Rattle.std.specs.Prelude.{◌≡◌, ◌++◌, ◌∷◌, OnOk, chars, option_map};
ghost use Rattle.json.specs.Json.{boolean};
ghost use Rattle.json.specs.Token.{key};
ghost use Rattle.json.specs.Tree.{json_tokens};
ghost use Rattle.rustc_parse_format.specs.Views.{pair, seen_alignment, seen_argument, seen_count};
ghost use Rattle.rustc_parse_format.specs.Views.{seen_debug_hex, seen_position, seen_sign};
ghost use Rattle.rustc_parse_format.specs.Views.{seen_spec, seen_taken};
ghost use Rattle.listing_json.specs.Values.{align_value, count_value, fill_value, format_value};
ghost use Rattle.listing_json.specs.Values.{hex_value, maybe_value, piece_value, placeholder_value};
ghost use Rattle.listing_json.specs.Values.{position_value, run_value, sign_value, text_value};
ghost use Rattle.rustc_parse_format.specs.Types.{Is, Name};

use super::fields::{
    begin_kind, put_index, put_maybe_span, put_name, put_number, put_span_of, put_text,
};
use json::Writer;
use rustc_parse_format::{
    Alignment, Argument, Count, DebugHex, FormatSpec, PieceKind, Position, Sign,
};
use std::alloc::{AllocError, Global};
use std::ops::Range;

/// Appends a position.
fn put_position(writer: &mut Writer, position: &Position<'_>) -> Result<(), AllocError>
    ensures tokens { OnOk result (writer.new.tokens
        ≡ writer.old.tokens ++ json_tokens (position_value (seen_position position.now))) }
    ensures before { writer.new.before ≡ writer.old.before }
{
    match position {
        Position::ArgumentImplicitlyIs(n) => put_index(writer, "implicit", *n),
        Position::ArgumentIs(n) => put_index(writer, "index", *n),
        Position::ArgumentNamed(name) => put_name(writer, "name", name),
    }
}

/// Appends a count that is a number.
fn put_count_number(writer: &mut Writer, number: u16) -> Result<(), AllocError>
    ensures tokens { OnOk result (writer.new.tokens
        ≡ writer.old.tokens ++ json_tokens (count_value (Is number))) }
    ensures before { writer.new.before ≡ writer.old.before }
{
    begin_kind(writer, "number")?;
    put_number(writer, "value", usize::from(number))?;
    writer.end_object()?;
    Ok(())
}

/// Appends a count that is the value of an argument with a name.
fn put_count_name(writer: &mut Writer, name: &str, span: &Range<usize>) -> Result<(), AllocError>
    ensures tokens { OnOk result (writer.new.tokens ≡ writer.old.tokens
        ++ json_tokens (count_value (Name (chars name.now) (pair span.now)))) }
    ensures before { writer.new.before ≡ writer.old.before }
{
    begin_kind(writer, "name")?;
    writer.key("name")?;
    put_text(writer, name)?;
    put_span_of(writer, "span", span)?;
    writer.end_object()?;
    Ok(())
}

/// Appends a key and a width or a precision.
fn put_count(writer: &mut Writer, name: &str, count: &Count<'_>) -> Result<(), AllocError>
    ensures tokens { OnOk result (writer.new.tokens ≡ writer.old.tokens
        ++ key name.now ∷ json_tokens (count_value (seen_count count.now))) }
    ensures before { writer.new.before ≡ writer.old.before }
{
    writer.key(name)?;
    match count {
        Count::CountIs(number) => put_count_number(writer, *number)?,
        Count::CountIsName(name, span) => put_count_name(writer, name, span)?,
        Count::CountIsParam(n) => put_index(writer, "index", *n)?,
        Count::CountIsStar(n) => put_index(writer, "star", *n)?,
        Count::CountImplied => writer.null()?,
    }
    Ok(())
}

/// Appends a character as a string.
fn put_char(alloc: Global, writer: &mut Writer, c: char) -> Result<(), AllocError>
    ensures tokens { OnOk result (writer.new.tokens
        ≡ writer.old.tokens ++ json_tokens (fill_value c)) }
    ensures before { writer.new.before ≡ writer.old.before }
{
    let mut text = String::new(alloc);
    text.push(c)?;
    writer.string(text.as_str())?;
    Ok(())
}

/// Appends a fill character, or null if there is none.
fn put_fill(alloc: Global, writer: &mut Writer, fill: Option<char>) -> Result<(), AllocError>
    ensures tokens { OnOk result (writer.new.tokens
        ≡ writer.old.tokens ++ json_tokens (maybe_value fill_value fill)) }
    ensures before { writer.new.before ≡ writer.old.before }
{
    match fill {
        Some(c) => put_char(alloc, writer, c),
        None => writer.null(),
    }
}

/// Appends an alignment, or null if none is given.
fn put_align(writer: &mut Writer, align: Alignment) -> Result<(), AllocError>
    ensures tokens { OnOk result (writer.new.tokens
        ≡ writer.old.tokens ++ json_tokens (align_value (seen_alignment align))) }
    ensures before { writer.new.before ≡ writer.old.before }
{
    match align {
        Alignment::AlignLeft => writer.string("left"),
        Alignment::AlignRight => writer.string("right"),
        Alignment::AlignCenter => writer.string("center"),
        Alignment::AlignUnknown => writer.null(),
    }
}

/// Appends a sign flag, or null if there is none.
fn put_sign(writer: &mut Writer, sign: Option<Sign>) -> Result<(), AllocError>
    ensures tokens { OnOk result (writer.new.tokens
        ≡ writer.old.tokens ++ json_tokens (maybe_value sign_value (option_map seen_sign sign))) }
    ensures before { writer.new.before ≡ writer.old.before }
{
    match sign {
        Some(Sign::Plus) => writer.string("plus"),
        Some(Sign::Minus) => writer.string("minus"),
        None => writer.null(),
    }
}

/// Appends a key and whether a flag is present.
fn put_flag(writer: &mut Writer, name: &str, flag: bool) -> Result<(), AllocError>
    ensures tokens { OnOk result (writer.new.tokens
        ≡ writer.old.tokens ++ key name.now ∷ json_tokens (boolean flag)) }
    ensures before { writer.new.before ≡ writer.old.before }
{
    writer.key(name)?;
    writer.boolean(flag)?;
    Ok(())
}

/// Appends the case of hexadecimal digits, or null if it is not given.
fn put_hex(writer: &mut Writer, hex: Option<DebugHex>) -> Result<(), AllocError>
    ensures tokens { OnOk result (writer.new.tokens
        ≡ writer.old.tokens ++ json_tokens
        (maybe_value hex_value (option_map seen_debug_hex hex))) }
    ensures before { writer.new.before ≡ writer.old.before }
{
    match hex {
        Some(DebugHex::Lower) => writer.string("lower"),
        Some(DebugHex::Upper) => writer.string("upper"),
        None => writer.null(),
    }
}

/// Appends a format specification.
fn put_format(alloc: Global, writer: &mut Writer, format: &FormatSpec<'_>) -> Result<(), AllocError>
    ensures tokens { OnOk result (writer.new.tokens
        ≡ writer.old.tokens ++ json_tokens (format_value (seen_spec format.now))) }
    ensures before { OnOk result (writer.new.before ≡ writer.old.before) }
{
    writer.begin_object()?;
    writer.key("fill")?;
    put_fill(alloc, writer, format.fill)?;
    put_maybe_span(writer, "fill_span", &format.fill_span)?;
    writer.key("align")?;
    put_align(writer, format.align)?;
    writer.key("sign")?;
    put_sign(writer, format.sign)?;
    put_flag(writer, "alternate", format.alternate)?;
    put_flag(writer, "zero_pad", format.zero_pad)?;
    writer.key("debug_hex")?;
    put_hex(writer, format.debug_hex)?;
    put_count(writer, "precision", &format.precision)?;
    put_maybe_span(writer, "precision_span", &format.precision_span)?;
    put_count(writer, "width", &format.width)?;
    put_maybe_span(writer, "width_span", &format.width_span)?;
    writer.key("ty")?;
    put_text(writer, format.ty)?;
    put_maybe_span(writer, "ty_span", &format.ty_span)?;
    writer.end_object()?;
    Ok(())
}

/// Appends a run of text.
fn put_run(writer: &mut Writer, text: &str) -> Result<(), AllocError>
    ensures tokens { OnOk result (writer.new.tokens
        ≡ writer.old.tokens ++ json_tokens (run_value (chars text.now))) }
    ensures before { writer.new.before ≡ writer.old.before }
{
    begin_kind(writer, "text")?;
    writer.key("text")?;
    put_text(writer, text)?;
    writer.end_object()?;
    Ok(())
}

/// Appends a placeholder.
fn put_placeholder(
    alloc: Global,
    writer: &mut Writer,
    argument: &Argument<'_>,
) -> Result<(), AllocError>
    ensures tokens { OnOk result (writer.new.tokens
        ≡ writer.old.tokens ++ json_tokens (placeholder_value (seen_argument argument.now))) }
    ensures before { OnOk result (writer.new.before ≡ writer.old.before) }
{
    begin_kind(writer, "placeholder")?;
    writer.key("position")?;
    put_position(writer, &argument.position)?;
    put_span_of(writer, "position_span", &argument.position_span)?;
    writer.key("format")?;
    put_format(alloc, writer, &argument.format)?;
    writer.end_object()?;
    Ok(())
}

/// Appends a piece. A placeholder is in `argument`.
pub fn put_piece(
    alloc: Global,
    writer: &mut Writer,
    piece: &PieceKind<'_>,
    argument: &Argument<'_>,
) -> Result<(), AllocError>
    ensures tokens { OnOk result (writer.new.tokens ≡ writer.old.tokens
        ++ json_tokens (piece_value (seen_taken argument.now piece.now))) }
    ensures before { OnOk result (writer.new.before ≡ writer.old.before) }
{
    match piece {
        PieceKind::Lit(text) => put_run(writer, text),
        PieceKind::NextArgument => put_placeholder(alloc, writer, argument),
    }
}
