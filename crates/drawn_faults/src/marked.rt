//! Lines of the source with several labels. A function whose name begins with `put_` appends to
//! `out`, and returns `Err` if an allocation fails.

ghost use Rattle.std.specs.Prelude.{◌≡◌, ◌++◌, ◌<◌, ◌^◌, [], IfOk, IfSome, None, OnOk, length, map};
ghost use Rattle.std.specs.Prelude.{◌==◌, false, string_bytes, true, unwrap_or};
ghost use Rattle.std.specs.Option.{option_map_or};
ghost use Rattle.drawn_faults.specs.Diagnostics.{each_in_line, earlier_spot, first_spot, frame_of};
ghost use Rattle.drawn_faults.specs.Diagnostics.{gap_after, is_before, in_line, labels_rows};
ghost use Rattle.drawn_faults.specs.Diagnostics.{last_edit_line, last_label_line, line_rows};
ghost use Rattle.drawn_faults.specs.Diagnostics.{lower_indent};
ghost use Rattle.drawn_faults.specs.Diagnostics.{lowest_of_labels, marked_lines, next_line};
ghost use Rattle.drawn_faults.specs.Diagnostics.{single_rows};
ghost use Rattle.drawn_labels.specs.Labels.{mark_in, seen_label};
ghost use Rattle.drawn_edits.specs.EditedLines.{seen_edit};
ghost use Rattle.drawn_lines.specs.Frames.{seen_frame};
ghost use Rattle.drawn_labels.specs.Marks.{is_right_of, sorted_marks};
ghost use Rattle.drawn_lines.specs.Places.{seen_picture};
ghost use Rattle.drawn_labels.specs.Rows.{seen_mark};

use drawn_edits::Edit;
use drawn_labels::{
    Label, Mark, mark_in, marks_from_right, put_long_label, put_mark_rows, window_of,
};
use drawn_lines::{Frame, Gutter, ORIGIN, Picture, Spot, line_indent, put_code, put_gap};
use std::alloc::{AllocError, Global};

/// Returns the last line in which one of labels ends, or `last` if that is further down.
pub fn last_label_line(last: usize, labels: &[Label<'_>]) -> usize
    requires { last < 2 ^ 59 }
    ensures value { result ≡ last_label_line last (map seen_label labels.now) }
    ensures small { result < 2 ^ 59 }
{
    let mut line = last;
    for label in labels {
        line = line.max(label.extent.end.line);
    }
    line
}

/// Returns the last line in which one of edits ends, or `last` if that is further down.
pub fn last_edit_line(last: usize, edits: &[Edit<'_>]) -> usize
    requires { last < 2 ^ 59 }
    ensures value { result ≡ last_edit_line last (map seen_edit edits.now) }
    ensures small { result < 2 ^ 59 }
{
    let mut line = last;
    for edit in edits {
        line = line.max(edit.extent.end.line);
    }
    line
}

/// Returns the lower of two indents, of which a blank line has none.
fn lower_indent(m: Option<usize>, n: Option<usize>) -> Option<usize>
    ensures value { result ≡ lower_indent m n }
    ensures small { IfSome m (λ k. k < 2 ^ 62) → IfSome n (λ k. k < 2 ^ 62)
        → IfSome result (λ k. k < 2 ^ 62) }
{
    match (m, n) {
        (None, n) => n,
        (Some(m), None) => Some(m),
        (Some(m), Some(n)) => Some(m.min(n)),
    }
}

/// Returns the lowest indent of the lines in which labels begin and end, or `None` if these are
/// blank.
fn lowest_of_labels(picture: &Picture<'_>, labels: &[Label<'_>]) -> Option<usize>
    requires { length picture.now.source.now < 2 ^ 59 }
    ensures value { result ≡ lowest_of_labels (seen_picture picture.now) None
        (map seen_label labels.now) }
    ensures small { IfSome result (λ k. k < 2 ^ 62) }
{
    let mut least = None;
    for label in labels {
        let first = line_indent(picture, label.extent.start.line);
        let last = line_indent(picture, label.extent.end.line);
        least = lower_indent(lower_indent(least, first), last);
    }
    least
}

/// Returns the lowest indent of the lines in which labels begin and end, or 0 if these are blank.
fn lowest_indent(picture: &Picture<'_>, labels: &[Label<'_>]) -> usize
    requires { length picture.now.source.now < 2 ^ 59 }
    ensures value { result
        ≡ unwrap_or (lowest_of_labels (seen_picture picture.now) None
        (map seen_label labels.now)) 0 }
    ensures small { result < 2 ^ 62 }
{
    match lowest_of_labels(picture, labels) {
        None => 0,
        Some(indent) => indent,
    }
}

/// Returns the layout of labels.
#[tactic(auto, unfolding(crate::specs::Diagnostics::frame_of))]
pub fn frame_of<'a>(picture: &'a Picture<'a>, gutter: Gutter, labels: &[Label<'_>]) -> Frame<'a>
    requires { length picture.now.source.now < 2 ^ 59 }
    ensures value { seen_frame result
        ≡ frame_of (seen_picture picture.now) gutter (map seen_label labels.now) }
    ensures source { length result.picture.now.source.now < 2 ^ 59 }
{
    Frame {
        picture,
        gutter,
        window: window_of(picture, gutter, lowest_indent(picture, labels), labels),
    }
}

/// Returns whether a place is in a line above another one, or in front of it in the same line.
fn is_before(s: Spot, t: Spot) -> bool
    ensures { result ≡ is_before s t }
{
    s.line < t.line || (s.line == t.line && s.chars < t.chars)
}

/// Returns whether a place is in front of the one found before, if there is one.
fn is_first(first: Option<Spot>, start: Spot) -> bool
    ensures { result ≡ option_map_or (is_before start) first true }
{
    match first {
        None => true,
        Some(spot) => is_before(start, spot),
    }
}

/// Returns where a label begins, if it is primary and that is in front of `first`, and else
/// `first`.
fn earlier_spot(first: Option<Spot>, label: &Label<'_>) -> Option<Spot>
    requires line { IfSome first (λ s. s.line < 2 ^ 59) }
    requires chars { IfSome first (λ s. s.chars < 2 ^ 59) }
    ensures value { result ≡ earlier_spot first (seen_label label.now) }
    ensures line { IfSome result (λ s. s.line < 2 ^ 59) }
    ensures chars { IfSome result (λ s. s.chars < 2 ^ 59) }
{
    if label.sign == '^' && is_first(first, label.extent.start) {
        Some(label.extent.start)
    } else {
        first
    }
}

/// Returns the first place at which a primary one of labels begins, or the start of the source
/// without one.
pub fn first_spot(labels: &[Label<'_>]) -> Spot
    ensures value { result ≡ first_spot (map seen_label labels.now) }
    ensures line { result.line < 2 ^ 59 }
    ensures chars { result.chars < 2 ^ 59 }
{
    let mut spot = None;
    for label in labels {
        spot = earlier_spot(spot, label);
    }
    spot.unwrap_or(ORIGIN)
}

/// Returns labels in the lines in which they begin, in the order in which they are drawn. Returns
/// `Err` if an allocation fails.
fn marks_of<'a>(
    alloc: Global,
    frame: &Frame<'_>,
    labels: &[Label<'a>],
) -> Result<Vec<Mark<'a>>, AllocError>
    requires { length frame.now.picture.now.source.now < 2 ^ 59 }
    ensures { IfOk result (λ v. map seen_mark v.items ≡ sorted_marks is_right_of []
        (map (mark_in (seen_frame frame.now)) (map seen_label labels.now))) }
{
    let mut list = Vec::new(alloc);
    for label in labels {
        list.push(mark_in(frame, label))?;
    }
    marks_from_right(alloc, &list)
}

/// Returns those of labels that begin in a line. Returns `Err` if an allocation fails.
fn in_line<'a>(
    alloc: Global,
    number: usize,
    marks: &[Mark<'a>],
) -> Result<Vec<Mark<'a>>, AllocError>
    ensures { IfOk result (λ v. map seen_mark v.items
        ≡ in_line number (map seen_mark marks.now)) }
{
    let mut list = Vec::new(alloc);
    for mark in marks {
        if mark.line == number {
            list.push(*mark)?;
        }
    }
    Ok(list)
}

/// Adds the rows between a line that was drawn, if there is one, and the next one.
fn put_gap_after(
    out: &mut String,
    frame: &Frame<'_>,
    previous: Option<usize>,
    number: usize,
) -> Result<(), AllocError>
    requires source { length frame.now.picture.now.source.now < 2 ^ 59 }
    requires before { IfSome previous (λ n. n < 2 ^ 59) }
    ensures { OnOk result (string_bytes out.new ≡ string_bytes out.old
        ++ gap_after (seen_frame frame.now) previous number) }
{
    if let Some(previous) = previous {
        put_gap(out, frame, previous, number)?;
    }
    Ok(())
}

/// Adds a line and the rows under it.
fn put_line_rows(
    out: &mut String,
    frame: &Frame<'_>,
    number: usize,
    marks: &[Mark<'_>],
) -> Result<(), AllocError>
    requires source { length frame.now.picture.now.source.now < 2 ^ 59 }
    requires number { number < 2 ^ 59 }
    ensures { OnOk result (string_bytes out.new ≡ string_bytes out.old
        ++ line_rows (seen_frame frame.now) number (map seen_mark marks.now)) }
{
    put_code(out, frame, number)?;
    let marks = in_line(*out.allocator(), number, marks)?;
    put_mark_rows(out, frame.gutter, &marks)?;
    Ok(())
}

/// Returns whether a line was drawn before.
fn is_drawn(previous: Option<usize>, number: usize) -> bool
    ensures { result ≡ option_map_or (λ m. m == number) previous false }
{
    match previous {
        None => false,
        Some(line) => line == number,
    }
}

/// Adds a line with labels, unless it was drawn before.
fn put_next_line(
    out: &mut String,
    frame: &Frame<'_>,
    previous: Option<usize>,
    number: usize,
    marks: &[Mark<'_>],
) -> Result<(), AllocError>
    requires source { length frame.now.picture.now.source.now < 2 ^ 59 }
    requires before { IfSome previous (λ n. n < 2 ^ 59) }
    requires number { number < 2 ^ 59 }
    ensures { OnOk result (string_bytes out.new ≡ string_bytes out.old
        ++ next_line (seen_frame frame.now) previous number (map seen_mark marks.now)) }
{
    if is_drawn(previous, number) {
        return Ok(());
    }
    put_gap_after(out, frame, previous, number)?;
    put_line_rows(out, frame, number, marks)?;
    Ok(())
}

/// Adds the lines of labels, which are in the order in which they are drawn.
fn put_marked_lines(
    out: &mut String,
    frame: &Frame<'_>,
    marks: &[Mark<'_>],
) -> Result<(), AllocError>
    requires { length frame.now.picture.now.source.now < 2 ^ 59 }
    ensures { OnOk result (string_bytes out.new ≡ string_bytes out.old
        ++ marked_lines (seen_frame frame.now) None (map seen_mark marks.now)) }
{
    let mut previous_line = None;
    for (index, mark) in marks.iter().enumerate() {
        put_next_line(out, frame, previous_line, mark.line, &marks[index..])?;
        previous_line = Some(mark.line);
    }
    Ok(())
}

/// Adds the lines of labels, each in the line in which it begins.
fn put_each_in_line(
    out: &mut String,
    frame: &Frame<'_>,
    labels: &[Label<'_>],
) -> Result<(), AllocError>
    requires { length frame.now.picture.now.source.now < 2 ^ 59 }
    ensures { OnOk result (string_bytes out.new ≡ string_bytes out.old
        ++ each_in_line (seen_frame frame.now) (map seen_label labels.now)) }
{
    let marks = marks_of(*out.allocator(), frame, labels)?;
    put_marked_lines(out, frame, &marks)?;
    Ok(())
}

/// Adds the lines of a label that is alone.
fn put_single_label(
    out: &mut String,
    frame: &Frame<'_>,
    label: &Label<'_>,
) -> Result<(), AllocError>
    requires { length frame.now.picture.now.source.now < 2 ^ 59 }
    ensures { OnOk result (string_bytes out.new ≡ string_bytes out.old
        ++ single_rows (seen_frame frame.now) (seen_label label.now)) }
{
    if label.extent.start.line == label.extent.end.line {
        put_each_in_line(out, frame, &[*label])?;
    } else {
        put_long_label(out, frame, label)?;
    }
    Ok(())
}

/// Adds the lines of labels.
pub fn put_labels_rows(
    out: &mut String,
    frame: &Frame<'_>,
    labels: &[Label<'_>],
) -> Result<(), AllocError>
    requires { length frame.now.picture.now.source.now < 2 ^ 59 }
    ensures { OnOk result (string_bytes out.new ≡ string_bytes out.old
        ++ labels_rows (seen_frame frame.now) (map seen_label labels.now)) }
{
    match labels {
        [label] => put_single_label(out, frame, label)?,
        _ => put_each_in_line(out, frame, labels)?,
    }
    Ok(())
}
