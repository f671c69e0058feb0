//! Characters as they are drawn, and the columns that they take. A function whose name begins with
//! `put_` appends to `out`, and returns `Err` if an allocation fails.

ghost use Rattle.std.specs.Prelude.{◌≡◌, ◌∷◌, ◌++◌, ◌<◌, ◌≤◌, ◌^◌, [], chars, drop, ◌*◌, ◌==◌};
ghost use Rattle.std.specs.Prelude.{List, length, take, IfOk, IfSome, MatchOption, OnOk};
ghost use Rattle.std.specs.Prelude.{encode_utf8_all, string_bytes};
ghost use Rattle.drawn_lines.specs.Glyphs.{IsHarmless, glyph, glyph_bytes, glyph_count, glyphs};
ghost use Rattle.drawn_lines.specs.Glyphs.{indent, is_bidi_control, run, width};
ghost use Rattle.drawn_lines.specs.Painting.{Piece, painted_text, piece, pieces_after};
ghost use Rattle.drawn_lines.specs.Places.{first_line};

use crate::paint::{Palette, Style, has_colours, put_change, put_closing, put_opening};
use crate::printable::{split_as_is, split_printable};
use std::alloc::AllocError;
use unicode_width::UnicodeWidthChar;

/// Returns the first character and the text after it, or `None` if the text is empty.
pub fn split_first(text: &str) -> Option<(char, &str)>
    ensures parts { MatchOption result (chars text.now ≡ [])
        (λ x. chars text.now ≡ x.0 ∷ chars x.1.now) }
    ensures shorter { IfSome result (λ x. length x.1.now < length text.now) }
{
    let mut rest = text.chars();
    let c = rest.next()?;
    Some((c, rest.as_str()))
}

/// Returns whether a character has Unicode's property `Bidi_Control`.
#[tactic(auto, unfolding(crate::specs::Glyphs::is_bidi_control))]
fn is_bidi_control(c: char) -> bool
    ensures { result ≡ is_bidi_control c }
{
    matches!(
        c,
        '\u{61c}' | '\u{200e}'..='\u{200f}' | '\u{202a}'..='\u{202e}' | '\u{2066}'..='\u{2069}'
    )
}

/// Returns the character that is drawn for a character.
#[tactic(auto, unfolding(crate::specs::Glyphs::glyph))]
pub fn glyph(c: char) -> char
    ensures { result ≡ glyph c }
{
    match c {
        '\t' => ' ',
        '\n' => '\n',
        '\0'..='\u{1f}' => char::from_u32(0x2400 + c as u32).unwrap_or(c),
        '\u{7f}' => '\u{2421}',
        '\u{80}'..='\u{9f}' => '\u{fffd}',
        _ if is_bidi_control(c) => '\u{fffd}',
        _ => c,
    }
}

/// Returns how often the glyph of a character is drawn.
#[tactic(auto, unfolding(crate::specs::Glyphs::glyph_count))]
pub fn glyph_count(c: char) -> usize
    ensures value { result ≡ glyph_count c }
    ensures few { result ≤ 4 }
{
    match c {
        '\t' => 4,
        '\u{200d}' => 0,
        _ => 1,
    }
}

/// Returns how many columns a character takes.
#[tactic(auto, unfolding(crate::specs::Glyphs::width))]
pub fn width(c: char) -> usize
    ensures value { result ≡ width c }
    ensures few { result ≤ 4 }
{
    match c {
        '\t' => 4,
        _ if is_bidi_control(c) => 1,
        _ => c.width().unwrap_or(1),
    }
}

/// Returns how many columns of the first line of a text are its indent, or `None` if that line is
/// blank. Reads no further than that line's first character that is no white space.
pub fn indent(text: &str) -> Option<usize>
    requires { length text.now < 2 ^ 60 }
    ensures value { result ≡ indent 0 (chars (first_line text.now)) }
    ensures few { IfSome result (λ n. n ≤ 4 * length text.now) }
{
    let mut rest = text;
    let mut columns = 0;
    while let Some((c, tail)) = split_first(rest) {
        if c == '\n' {
            return None;
        }
        if !c.is_whitespace() {
            return Some(columns);
        }
        columns += if c == '\t' { 4 } else { 1 };
        rest = tail;
    }
    None
}

/// Returns whether nothing is drawn of a text.
#[tactic(auto, using(crate::proofs::GlyphLemmas::drawn_first))]
pub fn draws_nothing(text: &str) -> bool
    ensures { result ≡ (length (encode_utf8_all (glyphs (chars text.now))) == 0) }
{
    let mut rest = text;
    while let Some((c, tail)) = split_first(rest) {
        if glyph_count(c) > 0 {
            return false;
        }
        rest = tail;
    }
    true
}

/// Returns 64 spaces.
fn row_of_spaces() -> &'static str
    ensures { result.now ≡ run 64 32 }
{
    "                                                                "
}

/// Returns so many spaces.
fn spaces(count: usize) -> &'static str
    requires { count ≤ 64 }
    ensures { result.now ≡ run count 32 }
{
    let row = row_of_spaces();
    &row[..count]
}

/// Adds spaces.
fn put_spaces(out: &mut String, count: usize) -> Result<(), AllocError>
    ensures { OnOk result (string_bytes out.new ≡ string_bytes out.old ++ run count 32) }
{
    let mut countdown = count;
    while countdown > 0 {
        let piece = countdown.min(64);
        out.push_str(spaces(piece))?;
        countdown -= piece;
    }
    Ok(())
}

/// Adds a character again and again.
pub fn put_run(out: &mut String, c: char, count: usize) -> Result<(), AllocError>
    ensures { OnOk result (string_bytes out.new ≡ string_bytes out.old ++ run count c) }
{
    if c == ' ' {
        return Ok(put_spaces(out, count)?);
    }
    for _ in 0..count {
        out.push(c)?;
    }
    Ok(())
}

/// Adds the printable prefix of a text, without its first `count` characters. Returns what is
/// after the prefix, and how many characters are still to skip.
fn put_printable<'a>(
    out: &mut String,
    text: &'a str,
    count: usize,
) -> Result<(&'a str, usize), AllocError>
    ensures whole { IfOk result (λ x. string_bytes out.new
        ++ encode_utf8_all (drop x.1 (glyphs (chars x.0.now)))
        ≡ string_bytes out.old ++ encode_utf8_all (drop count (glyphs (chars text.now)))) }
    ensures short { IfOk result (λ x. length x.0.now ≤ length text.now) }
{
    let (front, rest) = split_printable(text, text.len());
    let skip = count.min(front.len());
    out.push_str(&front[skip..])?;
    Ok((rest, count - skip))
}

/// Adds a prefix of a text that is drawn as it is, without its first `count` characters. Returns
/// what is after the prefix, and how many characters are still to skip.
fn put_as_is<'a>(
    out: &mut String,
    text: &'a str,
    count: usize,
) -> Result<(&'a str, usize), AllocError>
    ensures whole { IfOk result (λ x. string_bytes out.new
        ++ encode_utf8_all (drop x.1 (glyphs (chars x.0.now)))
        ≡ string_bytes out.old ++ encode_utf8_all (drop count (glyphs (chars text.now)))) }
    ensures short { IfOk result (λ x. length x.0.now ≤ length text.now) }
{
    if count > 0 {
        return Ok(put_printable(out, text, count)?);
    }
    let (front, rest) = split_as_is(text);
    out.push_str(front)?;
    Ok((rest, 0))
}

/// Appends a text as it is drawn in a terminal, without the first `count` characters of that, to
/// `out`: a tab becomes four spaces, another control character of ASCII but the line feed its
/// picture, U+200D nothing, and a control character from U+0080 on and one that changes the
/// direction of text U+FFFD. Returns `Err` if an allocation fails; a part of the text may then be
/// in `out`.
#[tactic(auto, using(crate::proofs::Harmless::harmless_glyphs))]
pub fn put_glyphs(out: &mut String, text: &str, count: usize) -> Result<(), AllocError>
    ensures drawn { OnOk result (string_bytes out.new ≡ string_bytes out.old ++
        encode_utf8_all (drop count (glyphs (chars text.now)))) }
    ensures harmless { IsHarmless (encode_utf8_all (drop count (glyphs (chars text.now)))) }
{
    let (front, rest_after) = split_printable(text, text.len());
    if count == 0 && rest_after.is_empty() {
        return Ok(out.push_str(front)?);
    }
    let (mut rest, mut skip) = put_printable(out, text, count)?;
    while let Some((c, tail)) = split_first(rest) {
        let count = glyph_count(c);
        put_run(out, glyph(c), count.saturating_sub(skip))?;
        let (rest_after, fewer) = put_as_is(out, tail, skip.saturating_sub(count))?;
        rest = rest_after;
        skip = fewer;
    }
    Ok(())
}

/// Adds a text as it is drawn, in a style.
#[tactic(auto, using(crate::proofs::Joining::without_colours))]
pub fn put_painted_glyphs(
    out: &mut String,
    palette: Palette,
    style: Style,
    text: &str,
) -> Result<(), AllocError>
    ensures { OnOk result (string_bytes out.new
        ≡ string_bytes out.old ++ painted_text palette style (glyph_bytes text.now)) }
{
    if !has_colours(palette) {
        return Ok(put_glyphs(out, text, 0)?);
    }
    if !draws_nothing(text) {
        put_opening(out, palette, style)?;
        put_glyphs(out, text, 0)?;
        put_closing(out, palette)?;
    }
    Ok(())
}

/// Adds a character again and again, in a style.
pub fn put_painted_run(
    out: &mut String,
    palette: Palette,
    style: Style,
    c: char,
    count: usize,
) -> Result<(), AllocError>
    ensures { OnOk result (string_bytes out.new
        ≡ string_bytes out.old ++ painted_text palette style (run count c)) }
{
    if count > 0 {
        put_opening(out, palette, style)?;
        put_run(out, c, count)?;
        put_closing(out, palette)?;
    }
    Ok(())
}

/// Adds a text as it is drawn, in the style `new`, where a text of the style `old` is before
/// it. Returns the style of the last text that is drawn.
pub fn put_glyphs_after(
    out: &mut String,
    palette: Palette,
    old: Style,
    new: Style,
    text: &str,
) -> Result<Style, AllocError>
    ensures { IfOk result (λ s. (xs : List Piece) → string_bytes out.new
        ++ pieces_after palette s xs ≡ string_bytes out.old ++ pieces_after palette old
        (piece new (glyph_bytes text.now) ∷ xs)) }
{
    if draws_nothing(text) {
        return Ok(old);
    }
    put_change(out, palette, old, new)?;
    put_glyphs(out, text, 0)?;
    Ok(new)
}
