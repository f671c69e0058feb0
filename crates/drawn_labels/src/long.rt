//! A label over several lines. A function whose name begins with `put_` appends to `out`, and
//! returns `Err` if an allocation fails.

ghost use Rattle.std.specs.Prelude.{◌≡◌, ◌+◌, ◌-◌, ◌++◌, ◌<◌, ◌≤◌, ◌^◌, OnOk, chars, codes, false};
ghost use Rattle.std.specs.Prelude.{length, max, string_bytes};
ghost use Rattle.std.specs.Char.{is_whitespace};
ghost use Rattle.std.specs.List.{list_all};
ghost use Rattle.drawn_lines.specs.Glyphs.{glyph_bytes};
ghost use Rattle.drawn_lines.specs.Lines.{row_under};
ghost use Rattle.drawn_lines.specs.Frames.{seen_frame};
ghost use Rattle.drawn_labels.specs.Labels.{seen_label};
ghost use Rattle.drawn_labels.specs.Long.{bar_gap, bar_row, bar_rows, rows_between, end_text};
ghost use Rattle.drawn_labels.specs.Long.{first_rows, is_bare};
ghost use Rattle.drawn_labels.specs.Long.{is_bare_line, is_bracket, is_comment, is_plain_comment};
ghost use Rattle.drawn_labels.specs.Long.{last_rows, lead_text, long_rows, signed_row};
ghost use Rattle.drawn_labels.specs.Long.{without_bare};
ghost use Rattle.drawn_labels.specs.LongSigns.{AddsLong};
ghost use Rattle.drawn_lines.specs.Painting.{has_colours, painted_text};
ghost use Rattle.drawn_lines.specs.declared.paint.Style.TheVariants.{PrimaryText};

use crate::labels::Label;
use drawn_lines::{
    Frame, Gutter, Palette, Style, line, put_closing, put_gutter, put_number_bar, put_opening,
    put_painted_glyphs, put_painted_text, put_run, put_source, put_source_line, shift, split_first,
};
use std::alloc::AllocError;

/// Returns whether a character is a bracket.
fn is_bracket(c: char) -> bool
    ensures { result ≡ is_bracket c }
{
    c == '(' || c == ')' || c == '[' || c == ']' || c == '{' || c == '}'
}

/// Returns whether a line with this text after `//` is a comment, but no documentation.
fn is_plain_comment(text: &str) -> bool
    ensures { result ≡ is_plain_comment (chars text.now) }
{
    match split_first(text) {
        None => true,
        Some((c, _)) => c != '/' && c != '!',
    }
}

/// Returns whether a line with this text after `/` is a comment, but no documentation.
fn is_comment(text: &str) -> bool
    ensures { result ≡ is_comment (chars text.now) }
{
    match split_first(text) {
        None => false,
        Some((c, rest)) => c == '/' && is_plain_comment(rest),
    }
}

/// Returns whether a text is only white space.
fn is_blank(text: &str) -> bool
    ensures { result ≡ list_all is_whitespace (chars text.now) }
{
    let mut rest = text;
    while let Some((c, tail)) = split_first(rest) {
        if !c.is_whitespace() {
            return false;
        }
        rest = tail;
    }
    true
}

/// Returns whether a line is blank, a comment, or one bracket.
fn is_bare(line: &str) -> bool
    ensures { result ≡ is_bare (chars line.now) }
{
    let mut rest = line;
    while let Some((c, tail)) = split_first(rest) {
        if !c.is_whitespace() {
            if is_bracket(c) {
                return is_blank(tail);
            }
            return c == '/' && is_comment(tail);
        }
        rest = tail;
    }
    true
}

/// Returns whether the line of the source with a number is bare.
fn is_bare_line(frame: &Frame<'_>, number: usize) -> bool
    ensures { result ≡ is_bare_line (seen_frame frame.now) number }
{
    is_bare(line(frame.picture.source, number))
}

/// Returns how many of the lines after a line are left without the bare ones at their end.
fn without_bare(frame: &Frame<'_>, first: usize, count: usize) -> usize
    requires { first + count < 2 ^ 61 }
    ensures value { result ≡ without_bare (seen_frame frame.now) first count }
    ensures few { result ≤ count }
{
    let mut lines = count;
    while lines > 0 && is_bare_line(frame, first + lines) {
        lines -= 1;
    }
    lines
}

/// Adds a line of the source at the right of a sign of the label.
fn put_signed_row(
    out: &mut String,
    frame: &Frame<'_>,
    sign: &str,
    number: usize,
) -> Result<(), AllocError>
    requires number { number < 2 ^ 61 }
    ensures { OnOk result (string_bytes out.new ≡ string_bytes out.old
        ++ signed_row (seen_frame frame.now) sign.now number) }
{
    put_number_bar(out, frame, number)?;
    out.push_str(" ")?;
    put_painted_text(out, frame.gutter.palette, Style::Primary, sign)?;
    put_source_line(out, frame, " ", number)?;
    Ok(())
}

/// Adds a line between the first and the last one.
fn put_bar_row(out: &mut String, frame: &Frame<'_>, number: usize) -> Result<(), AllocError>
    requires number { number < 2 ^ 61 }
    ensures { OnOk result (string_bytes out.new ≡ string_bytes out.old
        ++ bar_row (seen_frame frame.now) number) }
{
    put_signed_row(out, frame, "|", number)?;
    Ok(())
}

/// Adds so many lines after a line.
fn put_bar_rows(
    out: &mut String,
    frame: &Frame<'_>,
    first: usize,
    count: usize,
) -> Result<(), AllocError>
    requires number { first + count < 2 ^ 60 }
    ensures { OnOk result (string_bytes out.new ≡ string_bytes out.old
        ++ bar_rows (seen_frame frame.now) first count) }
{
    for rest_after in 0..count {
        put_bar_row(out, frame, first + rest_after + 1)?;
    }
    Ok(())
}

/// Adds the rows between two lines of the label that are drawn.
#[tactic(auto, unfolding(crate::specs::Long::bar_gap))]
fn put_bar_gap(
    out: &mut String,
    frame: &Frame<'_>,
    first: usize,
    last: usize,
) -> Result<(), AllocError>
    requires number { first < 2 ^ 60 }
    ensures { OnOk result (string_bytes out.new ≡ string_bytes out.old
        ++ bar_gap (seen_frame frame.now) first last) }
{
    if last == first + 2 {
        put_bar_row(out, frame, first + 1)?;
    } else if last > first + 2 {
        put_painted_text(out, frame.gutter.palette, Style::Secondary, "...")?;
        put_run(out, ' ', frame.gutter.columns)?;
        put_painted_text(out, frame.gutter.palette, Style::Primary, "|")?;
        out.push_str("\n")?;
    }
    Ok(())
}

/// Adds a text, a line to a column after it, and the sign at its end.
fn put_lead(
    out: &mut String,
    palette: Palette,
    front: &str,
    columns: usize,
) -> Result<(), AllocError>
    requires { length front.now ≡ 1 }
    ensures { OnOk result (string_bytes out.new
        ≡ string_bytes out.old ++ lead_text palette front.now columns) }
{
    put_opening(out, palette, Style::Primary)?;
    out.push_str(front)?;
    put_run(out, '_', columns)?;
    out.push_str("^")?;
    put_closing(out, palette)?;
    Ok(())
}

/// Adds the row under the first line of a label.
fn put_start(out: &mut String, gutter: Gutter, columns: usize) -> Result<(), AllocError>
    ensures { OnOk result (string_bytes out.new ≡ string_bytes out.old
        ++ row_under gutter (lead_text gutter.palette (codes " ") columns)) }
{
    put_gutter(out, gutter)?;
    put_lead(out, gutter.palette, " ", columns)?;
    out.push_str("\n")?;
    Ok(())
}

/// Adds the first line of a label.
#[tactic(auto, unfolding(crate::specs::Long::first_rows))]
fn put_first_rows(out: &mut String, frame: &Frame<'_>, label: &Label<'_>) -> Result<(), AllocError>
    requires source { length frame.now.picture.now.source.now < 2 ^ 59 }
    requires number { label.now.extent.start.line < 2 ^ 60 }
    requires column { label.now.extent.start.column < 2 ^ 62 }
    ensures { OnOk result (string_bytes out.new ≡ string_bytes out.old
        ++ first_rows (seen_frame frame.now) (seen_label label.now)) }
{
    let start = label.extent.start;
    if start.is_indent {
        put_signed_row(out, frame, "/", start.line)?;
    } else {
        put_source(out, frame, "   ", start.line)?;
        let columns = start.column.saturating_sub(shift(frame, start.line)) + 1;
        put_start(out, frame.gutter, columns)?;
    }
    Ok(())
}

/// Adds the text of a label right of its sign, if it has one.
fn put_end_text(out: &mut String, palette: Palette, text: &str) -> Result<(), AllocError>
    ensures { OnOk result (string_bytes out.new
        ≡ string_bytes out.old ++ end_text palette text.now) }
{
    if text.is_empty() {
        return Ok(());
    }
    out.push_str(" ")?;
    put_painted_glyphs(out, palette, Style::PrimaryText, text)?;
    Ok(())
}

/// Adds the row under the last line of a label.
fn put_end(out: &mut String, gutter: Gutter, columns: usize, text: &str) -> Result<(), AllocError>
    ensures { OnOk result (string_bytes out.new ≡ string_bytes out.old
        ++ row_under gutter (lead_text gutter.palette (codes "|") columns
        ++ end_text gutter.palette text.now)) }
{
    put_gutter(out, gutter)?;
    put_lead(out, gutter.palette, "|", columns)?;
    put_end_text(out, gutter.palette, text)?;
    out.push_str("\n")?;
    Ok(())
}

/// Adds the last line of a label.
#[tactic(auto, unfolding(crate::specs::Long::last_rows))]
fn put_last_rows(out: &mut String, frame: &Frame<'_>, label: &Label<'_>) -> Result<(), AllocError>
    requires source { length frame.now.picture.now.source.now < 2 ^ 59 }
    requires number { label.now.extent.end.line < 2 ^ 60 }
    ensures { OnOk result (string_bytes out.new ≡ string_bytes out.old
        ++ last_rows (seen_frame frame.now) (seen_label label.now)) }
{
    let end = label.extent.end;
    let columns = end.column.saturating_sub(shift(frame, end.line)).max(1);
    put_bar_row(out, frame, end.line)?;
    put_end(out, frame.gutter, columns, label.text)?;
    Ok(())
}

/// Adds the rows between the first and the last line of a label.
#[tactic(auto, unfolding(crate::specs::Long::rows_between))]
fn put_rows_between(
    out: &mut String,
    frame: &Frame<'_>,
    first: usize,
    last: usize,
) -> Result<(), AllocError>
    requires first { first < 2 ^ 59 }
    requires last { last < 2 ^ 60 }
    ensures { OnOk result (string_bytes out.new ≡ string_bytes out.old
        ++ rows_between (seen_frame frame.now) first last) }
{
    let rest_after = last.saturating_sub(first).saturating_sub(1);
    let count = without_bare(frame, first, rest_after.min(3));
    put_bar_rows(out, frame, first, count)?;
    if last > first + 5 && !is_bare_line(frame, last - 1) {
        put_bar_gap(out, frame, first + count, last - 1)?;
        put_bar_row(out, frame, last - 1)?;
    } else {
        put_bar_gap(out, frame, first + count, last)?;
    }
    Ok(())
}

/// Adds the lines of a label over several lines.
#[tactic(auto, unfolding(crate::specs::Long::long_rows))]
pub fn put_long_label(
    out: &mut String,
    frame: &Frame<'_>,
    label: &Label<'_>,
) -> Result<(), AllocError>
    requires source { length frame.now.picture.now.source.now < 2 ^ 59 }
    requires number { label.now.extent.start.line < 2 ^ 59 }
    requires last { label.now.extent.end.line < 2 ^ 59 }
    requires column { label.now.extent.start.column < 2 ^ 62 }
    ensures rows { OnOk result (string_bytes out.new ≡ string_bytes out.old
        ++ long_rows (seen_frame frame.now) (seen_label label.now)) }
    // Without colours a sign is under the first and the last character of the label, a bar is in
    // the margin of each row between them, and no sign is elsewhere.
    ensures signs { OnOk result (has_colours frame.now.gutter.palette ≡ false
        → label.now.extent.start.line < label.now.extent.end.line
        → AddsLong (seen_frame frame.now) (seen_label label.now)
        (string_bytes out.old) (string_bytes out.new)) }
{
    put_first_rows(out, frame, label)?;
    put_rows_between(out, frame, label.extent.start.line, label.extent.end.line)?;
    put_last_rows(out, frame, label)?;
    Ok(())
}
