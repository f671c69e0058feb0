//! Lines of the source, and the gutter. A function whose name begins with `put_` appends to `out`,
//! and returns `Err` if an allocation fails.

ghost use Rattle.std.specs.Prelude.{◌≡◌, ◌++◌, ◌<◌, ◌^◌, OnOk, chars, codes, decimal, string_bytes};
ghost use Rattle.drawn_lines.specs.Frames.{seen_frame};
ghost use Rattle.drawn_lines.specs.Lines.{AddsLine, after_bar, blank_gutter, code_row, gap};
ghost use Rattle.drawn_lines.specs.Lines.{number_bar};
ghost use Rattle.drawn_lines.specs.Lines.{numbered_gutter};
ghost use Rattle.drawn_lines.specs.Lines.{parting, source_line, source_row};

use crate::frame::{Frame, digits};
use crate::glyphs::{draws_nothing, put_run};
use crate::paint::{
    Gutter, Palette, Style, put_closing, put_gutter_bar, put_opening, put_painted_text,
};
use crate::places::line;
use crate::window::{Window, put_shown_line};
use itoa::Buffer;
use std::alloc::AllocError;

/// Adds a number in decimal digits.
pub fn put_decimal(out: &mut String, number: usize) -> Result<(), AllocError>
    ensures { OnOk result (string_bytes out.new ≡ string_bytes out.old ++ decimal number) }
{
    let mut digits = Buffer::new();
    out.push_str(digits.format(number))?;
    Ok(())
}

/// Adds the gutter of a row that has no number.
pub fn put_blank(out: &mut String, gutter: Gutter) -> Result<(), AllocError>
    ensures { OnOk result (string_bytes out.new ≡ string_bytes out.old ++ blank_gutter gutter) }
{
    put_run(out, ' ', gutter.columns)?;
    put_gutter_bar(out, gutter.palette)?;
    Ok(())
}

/// Adds the gutter of a row under a line, and the space after it.
pub fn put_gutter(out: &mut String, gutter: Gutter) -> Result<(), AllocError>
    ensures { OnOk result (string_bytes out.new
        ≡ string_bytes out.old ++ (blank_gutter gutter ++ codes " ")) }
{
    put_blank(out, gutter)?;
    out.push_str(" ")?;
    Ok(())
}

/// Adds the row between two parts of the drawing.
#[tactic(auto, unfolding(crate::specs::Lines::parting))]
pub fn put_parting(out: &mut String, frame: &Frame<'_>) -> Result<(), AllocError>
    ensures { OnOk result (string_bytes out.new ≡ string_bytes out.old
        ++ parting (seen_frame frame.now)) }
{
    put_blank(out, frame.gutter)?;
    out.push_str("\n")?;
    Ok(())
}

/// Adds the number of a line of the source, at the right of its gutter.
#[tactic(auto, unfolding(crate::specs::Lines::numbered_gutter))]
pub fn put_line_number(out: &mut String, frame: &Frame<'_>, line: usize) -> Result<(), AllocError>
    requires { line < 2 ^ 61 }
    ensures { OnOk result (string_bytes out.new ≡ string_bytes out.old
        ++ numbered_gutter (seen_frame frame.now) line) }
{
    let number = frame.picture.line_start as usize + line;
    put_opening(out, frame.gutter.palette, Style::Secondary)?;
    put_run(
        out,
        ' ',
        frame.gutter.columns.saturating_sub(digits(number)),
    )?;
    put_decimal(out, number)?;
    put_closing(out, frame.gutter.palette)?;
    Ok(())
}

/// Adds the number of a line of the source, and the bar after it.
pub fn put_number_bar(out: &mut String, frame: &Frame<'_>, line: usize) -> Result<(), AllocError>
    requires { line < 2 ^ 61 }
    ensures { OnOk result (string_bytes out.new ≡ string_bytes out.old
        ++ number_bar (seen_frame frame.now) line) }
{
    put_line_number(out, frame, line)?;
    put_gutter_bar(out, frame.gutter.palette)?;
    Ok(())
}

/// Adds the text after a bar: a line, after a text in front of it.
fn put_after_bar(
    out: &mut String,
    palette: Palette,
    front: &str,
    text: &str,
    window: Window,
) -> Result<(), AllocError>
    ensures { OnOk result (string_bytes out.new
        ≡ string_bytes out.old ++ after_bar palette front.now window (chars text.now)) }
{
    if window.start > 0 || !draws_nothing(text) {
        out.push_str(front)?;
        put_shown_line(out, palette, window, text)?;
    }
    Ok(())
}

/// Adds a line of the source, after a text in front of it.
#[tactic(auto, unfolding(crate::specs::Lines::source_line))]
pub fn put_source_line(
    out: &mut String,
    frame: &Frame<'_>,
    front: &str,
    number: usize,
) -> Result<(), AllocError>
    ensures { OnOk result (string_bytes out.new ≡ string_bytes out.old
        ++ source_line (seen_frame frame.now) front.now number) }
{
    let line = line(frame.picture.source, number);
    put_after_bar(out, frame.gutter.palette, front, line, frame.window)?;
    out.push_str("\n")?;
    Ok(())
}

/// Adds a line of the source with its number, after a text in front of it.
pub fn put_source(
    out: &mut String,
    frame: &Frame<'_>,
    front: &str,
    number: usize,
) -> Result<(), AllocError>
    requires { number < 2 ^ 61 }
    ensures { OnOk result (string_bytes out.new ≡ string_bytes out.old
        ++ source_row (seen_frame frame.now) front.now number) }
{
    put_number_bar(out, frame, number)?;
    put_source_line(out, frame, front, number)?;
    Ok(())
}

/// Adds a line of the source.
#[tactic(auto, using(crate::proofs::PositionLaws::adds_line))]
pub fn put_code(out: &mut String, frame: &Frame<'_>, number: usize) -> Result<(), AllocError>
    requires { number < 2 ^ 61 }
    ensures row { OnOk result (string_bytes out.new ≡ string_bytes out.old
        ++ code_row (seen_frame frame.now) number) }
    // The line that the row shows is that line of the source.
    ensures line { OnOk result (AddsLine (seen_frame frame.now) (codes " ") number
        (string_bytes out.old) (string_bytes out.new)) }
{
    put_source(out, frame, " ", number)?;
    Ok(())
}

/// Adds the rows between two lines with labels.
#[tactic(auto, unfolding(crate::specs::Lines::gap))]
pub fn put_gap(
    out: &mut String,
    frame: &Frame<'_>,
    first: usize,
    last: usize,
) -> Result<(), AllocError>
    requires { first < 2 ^ 60 }
    ensures { OnOk result (string_bytes out.new ≡ string_bytes out.old
        ++ gap (seen_frame frame.now) first last) }
{
    if last == first + 2 {
        put_code(out, frame, first + 1)?;
    } else if last > first + 2 {
        put_painted_text(out, frame.gutter.palette, Style::Secondary, "...")?;
        out.push_str("\n")?;
    }
    Ok(())
}
