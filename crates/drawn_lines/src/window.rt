//! How lines of the source are cut to a width. A function whose name begins with `put_` appends to
//! `out`, and returns `Err` if an allocation fails.

ghost use Rattle.std.specs.Prelude.{◌≡◌, ◌+◌, ◌*◌, ◌++◌, ◌<◌, ◌≤◌, ◌^◌, OnOk, chars, length};
ghost use Rattle.std.specs.Prelude.{IfOk, encode_utf8_all, max, replicate, string_bytes};
ghost use Rattle.rustc_parse_format.specs.Characters.{Text};
ghost use Rattle.drawn_lines.specs.Frames.{seen_frame};
ghost use Rattle.drawn_lines.specs.Glyphs.{glyphs};
ghost use Rattle.drawn_lines.specs.Windows.{IsPartOf, after_dots, between_dots, columns};
ghost use Rattle.drawn_lines.specs.Windows.{cut_columns};
ghost use Rattle.drawn_lines.specs.Windows.{dots_before, dotted_part, in_window, left_out_columns};
ghost use Rattle.drawn_lines.specs.Windows.{past_columns};
ghost use Rattle.drawn_lines.specs.Windows.{shift, shown_line, up_to_dots, within_columns};
ghost use Rattle.drawn_lines.specs.declared.window.Window.{Window as WindowValue};

use crate::frame::Frame;
use crate::glyphs::{glyph, glyph_count, put_glyphs, put_run, split_first, width};
use crate::paint::{Palette, Style, put_painted_text};
use crate::places::line;
use crate::printable::split_printable;
use std::alloc::AllocError;

/// The columns of lines that are drawn.
#[derive(Clone, Copy)]
pub struct Window {
    /// How many columns at the start of each line are cut.
    pub start: usize,
    /// How many columns of a line are drawn right of these without a cut.
    pub room: usize,
    /// How many columns are drawn of a line that has more.
    pub limit: usize,
}

/// Returns how many columns a text takes.
pub fn columns(text: &str) -> usize
    requires { length text.now < 2 ^ 60 }
    ensures value { result ≡ columns (chars text.now) }
    ensures few { result ≤ 4 * length text.now }
{
    let (front, rest_after) = split_printable(text, text.len());
    let mut count = front.len();
    let mut rest = rest_after;
    while let Some((c, tail)) = split_first(rest) {
        let (front, rest_after) = split_printable(tail, tail.len());
        count += width(c) + front.len();
        rest = rest_after;
    }
    count
}

/// A text without its first columns.
#[derive(Clone, Copy)]
struct Cut<'a> {
    rest: &'a str,
    /// How many columns are left out.
    columns: usize,
}

/// Returns a text without its first `count` columns.
fn past_columns(text: &str, count: usize) -> Cut<'_>
    requires { length text.now < 2 ^ 60 }
    ensures rest { chars result.rest.now ≡ past_columns count (chars text.now) }
    ensures bytes { result.rest.now ≡ encode_utf8_all (past_columns count (chars text.now)) }
    ensures columns { result.columns ≡ left_out_columns count (chars text.now) }
    ensures short { length result.rest.now ≤ length text.now }
{
    let mut rest = text;
    let mut countdown = count;
    let mut columns = 0;
    while let Some((c, tail)) = split_first(rest) {
        if countdown == 0 {
            break;
        }
        columns += width(c);
        countdown = countdown.saturating_sub(width(c));
        rest = tail;
    }
    Cut { rest, columns }
}

/// Columns at the start of a text, some of which are left out.
#[derive(Clone, Copy)]
struct Countdown {
    /// How many are left out.
    columns: usize,
    /// How many are still to be left out.
    rest: usize,
}

/// Leaves out up to `count` columns of a character that stands `times` times at the start of a
/// text.
fn left_out_of_run(count: usize, times: usize, character: char) -> Countdown
    requires { times ≤ 4 }
    ensures value { (t : Text) → left_out_columns count (replicate times character ++ t)
        ≡ result.columns + left_out_columns result.rest t }
    ensures few { result.columns ≤ 16 }
{
    let mut countdown = count;
    let mut columns = 0;
    let mut rest = times;
    while rest > 0 && countdown > 0 {
        columns += width(character);
        countdown = countdown.saturating_sub(width(character));
        rest -= 1;
    }
    Countdown {
        columns,
        rest: countdown,
    }
}

/// Returns how many columns are left out if the first `count` columns of a text, as it is drawn,
/// are.
fn left_out_columns(text: &str, count: usize) -> usize
    requires { length text.now < 2 ^ 59 }
    ensures { result ≡ left_out_columns count (glyphs (chars text.now)) }
{
    let mut rest = text;
    let mut countdown = count;
    let mut columns = 0;
    while let Some((c, tail)) = split_first(rest) {
        if countdown == 0 {
            break;
        }
        let run = left_out_of_run(countdown, glyph_count(c), glyph(c));
        columns += run.columns;
        countdown = run.rest;
        rest = tail;
    }
    columns
}

/// Returns how many columns at the start of a line of the source are cut.
#[tactic(auto, unfolding(crate::specs::Windows::shift))]
pub fn shift(frame: &Frame<'_>, number: usize) -> usize
    requires { length frame.now.picture.now.source.now < 2 ^ 59 }
    ensures { result ≡ shift (seen_frame frame.now) number }
{
    if frame.window.start == 0 {
        return 0;
    }
    left_out_columns(line(frame.picture.source, number), frame.window.start)
}

/// Adds the first characters of a text, as many as end within `count` columns.
fn put_front_columns(out: &mut String, text: &str, count: usize) -> Result<(), AllocError>
    ensures { OnOk result (string_bytes out.new
        ≡ string_bytes out.old ++ encode_utf8_all (within_columns count (chars text.now))) }
{
    let mut rest = text;
    let mut countdown = count;
    while let Some((c, tail)) = split_first(rest) {
        if countdown < width(c) {
            break;
        }
        out.push(c)?;
        countdown -= width(c);
        rest = tail;
    }
    Ok(())
}

/// Adds the part of a line in the window.
fn put_in_window(
    out: &mut String,
    window: Window,
    is_wide: bool,
    row: &str,
) -> Result<(), AllocError>
    requires { length row.now < 2 ^ 60 }
    ensures { OnOk result (string_bytes out.new
        ≡ string_bytes out.old ++ encode_utf8_all (in_window window is_wide (chars row.now))) }
{
    let Cut { rest, .. } = past_columns(row, window.start);
    if is_wide {
        put_front_columns(out, rest, window.limit)?;
    } else {
        out.push_str(rest)?;
    }
    Ok(())
}

/// Adds the dots over the first characters of a part of a line, if the line is cut in front of it.
/// Returns the rest of the part.
fn put_dots_before<'a>(
    out: &mut String,
    palette: Palette,
    window: Window,
    part: &'a str,
) -> Result<&'a str, AllocError>
    requires { length part.now < 2 ^ 60 }
    ensures dots { OnOk result (string_bytes out.new
        ≡ string_bytes out.old ++ dots_before palette window (chars part.now)) }
    ensures rest { IfOk result (λ s. chars s.now ≡ after_dots window (chars part.now)) }
    ensures short { IfOk result (λ s. length s.now ≤ length part.now) }
{
    if window.start == 0 {
        return Ok(part);
    }
    let Cut { rest, columns } = past_columns(part, 3);
    put_painted_text(out, palette, Style::Secondary, "...")?;
    put_run(out, ' ', columns.saturating_sub(3))?;
    Ok(rest)
}

/// Adds this rest, with dots over its last characters if the line goes on.
fn put_up_to_dots(
    out: &mut String,
    palette: Palette,
    is_wide: bool,
    rest: &str,
) -> Result<(), AllocError>
    requires { length rest.now < 2 ^ 60 }
    ensures { OnOk result (string_bytes out.new
        ≡ string_bytes out.old ++ up_to_dots palette is_wide (chars rest.now)) }
{
    if !is_wide {
        return Ok(out.push_str(rest)?);
    }
    put_front_columns(out, rest, columns(rest).saturating_sub(3))?;
    put_painted_text(out, palette, Style::Secondary, "...")?;
    Ok(())
}

/// Adds a part of a line.
fn put_dotted_part(
    out: &mut String,
    palette: Palette,
    window: Window,
    is_wide: bool,
    part: &str,
) -> Result<(), AllocError>
    requires { length part.now < 2 ^ 60 }
    ensures { OnOk result (string_bytes out.new
        ≡ string_bytes out.old ++ dotted_part palette window is_wide (chars part.now)) }
{
    let rest = put_dots_before(out, palette, window, part)?;
    put_up_to_dots(out, palette, is_wide, rest)?;
    Ok(())
}

/// Adds a line, of which this is the text that is drawn, cut to the window.
fn put_cut(
    out: &mut String,
    palette: Palette,
    window: Window,
    is_wide: bool,
    row: &str,
) -> Result<(), AllocError>
    ensures { OnOk result (string_bytes out.new ≡ string_bytes out.old
        ++ dotted_part palette window is_wide (in_window window is_wide (chars row.now))) }
{
    if row.len() >= 1 << 59 {
        return Err(AllocError);
    }
    let mut part = String::new(*out.allocator());
    put_in_window(&mut part, window, is_wide, row)?;
    if part.len() >= 1 << 59 {
        return Err(AllocError);
    }
    put_dotted_part(out, palette, window, is_wide, part.as_str())?;
    Ok(())
}

/// Adds a line as it is drawn.
#[tactic(auto, using(crate::proofs::Cuts::theorems), unfolding(crate::specs::Windows::shown_line),)]
pub fn put_shown_line(
    out: &mut String,
    palette: Palette,
    window: Window,
    text: &str,
) -> Result<(), AllocError>
    ensures drawn { OnOk result (string_bytes out.new
        ≡ string_bytes out.old ++ shown_line palette window (chars text.now)) }
    // Between dots a part of the line is drawn. A line that is cut at its end takes with its dots
    // no more columns than it may, or a few if these are not enough for dots.
    ensures part { IsPartOf (between_dots window (chars text.now)) (glyphs (chars text.now)) }
    ensures narrow { cut_columns window (chars text.now) ≤ max window.limit 3 + 3 }
{
    if text.len() >= 1 << 59 {
        return Err(AllocError);
    }
    let (front, rest) = split_printable(text, text.len());
    if window.start == 0 && rest.is_empty() && front.len() <= window.room {
        return Ok(out.push_str(front)?);
    }
    let is_wide = columns(text).saturating_sub(window.start) > window.room;
    if window.start == 0 && !is_wide {
        return Ok(put_glyphs(out, text, 0)?);
    }
    let mut row = String::new(*out.allocator());
    put_glyphs(&mut row, text, 0)?;
    put_cut(out, palette, window, is_wide, row.as_str())?;
    Ok(())
}
