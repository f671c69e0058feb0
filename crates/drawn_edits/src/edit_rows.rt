//! Rows of lines with edits. A function whose name begins with `put_` appends to `out`, and returns
//! `Err` if an allocation fails.

ghost use Rattle.std.specs.Prelude.{◌≡◌, ◌+◌, ◌++◌, ◌∷◌, ◌<◌, ◌^◌, ◌==◌, OnOk, false, length, map};
ghost use Rattle.std.specs.Prelude.{string_bytes};
ghost use Rattle.drawn_edits.specs.EditedLines.{seen_line, seen_part};
ghost use Rattle.drawn_edits.specs.Helps.{drawn_pieces, kept_ends, kept_lines, kept_row, kept_rows};
ghost use Rattle.drawn_edits.specs.Helps.{sign_row, sign_rows, spaced_text};
ghost use Rattle.drawn_lines.specs.Frames.{seen_frame};
ghost use Rattle.drawn_lines.specs.Painting.{piece, pieces, pieces_after, plain_text};
ghost use Rattle.drawn_lines.specs.declared.paint.Style.TheVariants.{Plain};

use crate::edited::{Line, Part};
use drawn_lines::{
    Frame, Palette, Style, draws_nothing, has_colours, put_glyphs, put_glyphs_after,
    put_line_number, put_number_bar, put_painted_text, put_reset, put_run, put_sign,
};
use std::alloc::AllocError;

/// Adds parts of a line without their colours.
fn put_plain_parts(out: &mut String, parts: &[Part<'_>]) -> Result<(), AllocError>
    ensures { OnOk result (string_bytes out.new ≡ string_bytes out.old
        ++ plain_text (drawn_pieces (map seen_part parts.now))) }
{
    for part in parts {
        put_glyphs(out, part.text, 0)?;
    }
    Ok(())
}

/// Adds parts of a line in colours, after a sign of this style.
fn put_coloured_parts(
    out: &mut String,
    palette: Palette,
    style: Style,
    sign: &str,
    parts: &[Part<'_>],
) -> Result<(), AllocError>
    requires { (length sign.now == 0) ≡ false }
    ensures { OnOk result (string_bytes out.new ≡ string_bytes out.old
        ++ pieces_after palette Plain (piece style sign.now
        ∷ drawn_pieces (map seen_part parts.now))) }
{
    put_sign(out, palette, style, sign)?;
    let mut last = style;
    for part in parts {
        last = put_glyphs_after(out, palette, last, part.style, part.text)?;
    }
    put_reset(out, last)?;
    Ok(())
}

/// Adds parts of a line, after a sign of this style.
fn put_parts(
    out: &mut String,
    palette: Palette,
    style: Style,
    sign: &str,
    parts: &[Part<'_>],
) -> Result<(), AllocError>
    requires { (length sign.now == 0) ≡ false }
    ensures { OnOk result (string_bytes out.new ≡ string_bytes out.old
        ++ pieces palette (piece style sign.now ∷ drawn_pieces (map seen_part parts.now))) }
{
    if has_colours(palette) {
        return Ok(put_coloured_parts(out, palette, style, sign, parts)?);
    }
    out.push_str(sign)?;
    put_plain_parts(out, parts)?;
    Ok(())
}

/// Adds the row of a line with a number, after a sign of this style.
#[tactic(auto, unfolding(crate::specs::Helps::sign_row))]
pub fn put_sign_row(
    out: &mut String,
    frame: &Frame<'_>,
    style: Style,
    sign: &str,
    number: usize,
    parts: &[Part<'_>],
) -> Result<(), AllocError>
    requires number { number < 2 ^ 61 }
    requires sign { (length sign.now == 0) ≡ false }
    ensures { OnOk result (string_bytes out.new ≡ string_bytes out.old
        ++ sign_row (seen_frame frame.now) style sign.now number (map seen_part parts.now)) }
{
    put_line_number(out, frame, number)?;
    out.push_str(" ")?;
    put_parts(out, frame.gutter.palette, style, sign, parts)?;
    out.push_str("\n")?;
    Ok(())
}

/// Adds the rows of lines after a sign of this style, from a number on.
pub fn put_sign_rows(
    out: &mut String,
    frame: &Frame<'_>,
    style: Style,
    sign: &str,
    number: usize,
    lines: &[Line<'_>],
) -> Result<(), AllocError>
    requires number { number + length lines.now < 2 ^ 61 }
    requires sign { (length sign.now == 0) ≡ false }
    ensures { OnOk result (string_bytes out.new ≡ string_bytes out.old
        ++ sign_rows (seen_frame frame.now) style sign.now number (map seen_line lines.now)) }
{
    for (index, line) in lines.iter().enumerate() {
        put_sign_row(out, frame, style, sign, number + index, &line.parts)?;
    }
    Ok(())
}

/// Returns whether nothing is drawn of parts of a line.
fn draw_nothing(parts: &[Part<'_>]) -> bool
    ensures { result ≡ (length (plain_text (drawn_pieces (map seen_part parts.now))) == 0) }
{
    for part in parts {
        if !draws_nothing(part.text) {
            return false;
        }
    }
    true
}

/// Adds the text after the bar of a line.
fn put_spaced_text(out: &mut String, parts: &[Part<'_>]) -> Result<(), AllocError>
    ensures { OnOk result (string_bytes out.new ≡ string_bytes out.old
        ++ spaced_text (plain_text (drawn_pieces (map seen_part parts.now)))) }
{
    if !draw_nothing(parts) {
        out.push_str(" ")?;
        put_plain_parts(out, parts)?;
    }
    Ok(())
}

/// Adds the row of a line with a number that no edit changes.
#[tactic(auto, unfolding(crate::specs::Helps::kept_row))]
pub fn put_kept_row(
    out: &mut String,
    frame: &Frame<'_>,
    number: usize,
    parts: &[Part<'_>],
) -> Result<(), AllocError>
    requires { number < 2 ^ 61 }
    ensures { OnOk result (string_bytes out.new ≡ string_bytes out.old
        ++ kept_row (seen_frame frame.now) number (map seen_part parts.now)) }
{
    put_number_bar(out, frame, number)?;
    put_spaced_text(out, parts)?;
    out.push_str("\n")?;
    Ok(())
}

/// Adds the rows of such lines, from a number on.
fn put_kept_rows(
    out: &mut String,
    frame: &Frame<'_>,
    number: usize,
    lines: &[Line<'_>],
) -> Result<(), AllocError>
    requires { number + length lines.now < 2 ^ 61 }
    ensures { OnOk result (string_bytes out.new ≡ string_bytes out.old
        ++ kept_rows (seen_frame frame.now) number (map seen_line lines.now)) }
{
    for (index, line) in lines.iter().enumerate() {
        put_kept_row(out, frame, number + index, &line.parts)?;
    }
    Ok(())
}

/// Adds the rows of lines from the number `n` on, and of others from `m` on, and dots between them.
fn put_kept_ends(
    out: &mut String,
    frame: &Frame<'_>,
    n: usize,
    m: usize,
    first: &[Line<'_>],
    last: &[Line<'_>],
) -> Result<(), AllocError>
    requires first { n + length first.now < 2 ^ 61 }
    requires last { m + length last.now < 2 ^ 61 }
    ensures { OnOk result (string_bytes out.new ≡ string_bytes out.old
        ++ kept_ends (seen_frame frame.now) n m (map seen_line first.now)
        (map seen_line last.now)) }
{
    put_kept_rows(out, frame, n, first)?;
    put_run(out, ' ', frame.gutter.columns.saturating_sub(3))?;
    put_painted_text(out, frame.gutter.palette, Style::Secondary, "...")?;
    out.push_str("\n")?;
    put_kept_rows(out, frame, m, last)?;
    Ok(())
}

/// Adds the rows of such lines in front of a changed one: of more than three the first and the last
/// one.
#[tactic(auto, unfolding(crate::specs::Helps::kept_lines))]
pub fn put_kept_lines(
    out: &mut String,
    frame: &Frame<'_>,
    number: usize,
    lines: &[Line<'_>],
) -> Result<(), AllocError>
    requires { number + length lines.now < 2 ^ 61 }
    ensures { OnOk result (string_bytes out.new ≡ string_bytes out.old
        ++ kept_lines (seen_frame frame.now) number (map seen_line lines.now)) }
{
    if lines.len() > 3 {
        let (first, _) = lines.split_at(1);
        let (_, last) = lines.split_at(lines.len() - 1);
        put_kept_ends(out, frame, number, number + (lines.len() - 1), first, last)?;
    } else {
        put_kept_rows(out, frame, number, lines)?;
    }
    Ok(())
}
