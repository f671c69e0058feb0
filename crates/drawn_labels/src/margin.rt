//! Which columns of the lines are drawn.

ghost use Rattle.std.specs.Prelude.{◌≡◌, ◌+◌, ◌-◌, ◌<◌, ◌≤◌, ◌^◌, length, map};
ghost use Rattle.drawn_lines.specs.Places.{seen_picture};
ghost use Rattle.drawn_labels.specs.Labels.{mark, seen_label};
ghost use Rattle.drawn_labels.specs.Margins.{window_around, cut_of, is_long, joined_reach};
ghost use Rattle.drawn_labels.specs.Margins.{line_columns};
ghost use Rattle.drawn_labels.specs.Margins.{long_reach, mark_reach, reach_of, reach_on, room};
ghost use Rattle.drawn_labels.specs.Margins.{text_columns, window, window_at, window_of};
ghost use Rattle.drawn_labels.specs.Rows.{seen_mark};

use crate::labels::{Label, mark_of};
use crate::mark::Mark;
use drawn_lines::{Gutter, Picture, Window, columns, line};

/// Where labels are.
#[derive(Clone, Copy)]
pub struct Reach {
    /// The first column of a label.
    pub start: usize,
    /// The first column after all labels.
    pub end: usize,
    /// The first column after their texts.
    pub text_end: usize,
    /// How many columns the longest one of their lines has.
    pub longest: usize,
}

/// The most columns that the text of a label is counted for.
const MAX_TEXT_LEN: usize = 1 << 60;

/// Returns how many columns the text of a label with this sign is counted for, with the space in
/// front of it: that of a primary label counts only if there is one.
fn text_columns(sign: char, text: &str) -> usize
    ensures value { result ≡ text_columns sign text.now }
    ensures few { result ≤ 2 ^ 60 + 1 }
{
    if sign == '^' && text.is_empty() {
        0
    } else {
        1 + text.len().min(MAX_TEXT_LEN)
    }
}

/// Returns how many columns a line of the source has.
fn line_columns(source: &str, number: usize) -> usize
    requires { length source.now < 2 ^ 59 }
    ensures { result ≡ line_columns source.now number }
{
    columns(line(source, number))
}

/// A line of the source, and how many columns it has.
#[derive(Clone, Copy)]
struct MeasuredLine {
    line: usize,
    columns: usize,
}

/// Returns the line in which a label begins, and its columns.
fn start_line(source: &str, label: &Label<'_>) -> MeasuredLine
    requires { length source.now < 2 ^ 59 }
    ensures { result.columns ≡ line_columns source.now result.line }
{
    let line = label.extent.start.line;
    MeasuredLine {
        line,
        columns: line_columns(source, line),
    }
}

/// Returns how many columns a line of the source has. Most often it is the line `known_line`.
fn columns_of(source: &str, number: usize, known_line: MeasuredLine) -> usize
    requires small { length source.now < 2 ^ 59 }
    requires known { known_line.columns ≡ line_columns source.now known_line.line }
    ensures { result ≡ line_columns source.now number }
{
    if number == known_line.line {
        known_line.columns
    } else {
        line_columns(source, number)
    }
}

/// Returns the reach of a label in one line.
#[tactic(auto, unfolding(crate::specs::Margins::mark_reach))]
fn mark_reach(source: &str, known_line: MeasuredLine, mark: &Mark<'_>) -> Reach
    requires small { length source.now < 2 ^ 59 }
    requires known { known_line.columns ≡ line_columns source.now known_line.line }
    requires column { mark.now.end < 2 ^ 62 }
    ensures value { result ≡ mark_reach source.now (seen_mark mark.now) }
    ensures to { result.end < 2 ^ 62 }
    ensures end { result.text_end < 2 ^ 63 }
{
    Reach {
        start: mark.start,
        end: mark.end,
        text_end: mark.end + text_columns(mark.sign, mark.text),
        longest: columns_of(source, mark.line, known_line),
    }
}

/// Returns two reaches as one.
#[tactic(auto, unfolding(crate::specs::Margins::joined_reach))]
fn join_reaches(r: Reach, s: Reach) -> Reach
    requires first { r.end < 2 ^ 62 }
    requires first_end { r.text_end < 2 ^ 63 }
    requires second { s.end < 2 ^ 62 }
    requires second_end { s.text_end < 2 ^ 63 }
    ensures value { result ≡ joined_reach r s }
    ensures to { result.end < 2 ^ 62 }
    ensures end { result.text_end < 2 ^ 63 }
{
    Reach {
        start: r.start.min(s.start),
        end: r.end.max(s.end),
        text_end: r.text_end.max(s.text_end),
        longest: r.longest.max(s.longest),
    }
}

/// Returns whether a label has more than one line.
fn is_long(label: &Label<'_>) -> bool
    ensures { result ≡ is_long (seen_label label.now) }
{
    label.extent.start.line != label.extent.end.line
}

/// Returns the reach of a label over several lines.
#[tactic(auto, unfolding(crate::specs::Margins::long_reach))]
fn long_reach(source: &str, label: &Label<'_>) -> Reach
    requires small { length source.now < 2 ^ 59 }
    requires last { label.now.extent.end.line < 2 ^ 59 }
    requires column { label.now.extent.start.column < 2 ^ 61 }
    requires end_column { label.now.extent.end.column < 2 ^ 61 }
    ensures value { result ≡ long_reach source.now (seen_label label.now) }
    ensures to { result.end < 2 ^ 62 }
    ensures end { result.text_end < 2 ^ 63 }
{
    let start = label.extent.start;
    let end = label.extent.end;
    let first_column = if end.line > start.line + 1 {
        0
    } else {
        start.column.min(end.column.saturating_sub(1))
    };
    let first = line_columns(source, start.line);
    Reach {
        start: first_column,
        end: end.column.max(start.column + 1),
        text_end: (end.column + text_columns(label.sign, label.text)).max(start.column + 1),
        longest: first.max(line_columns(source, end.line)),
    }
}

/// Returns the reach of a label in the line in which it begins.
fn short_reach(source: &str, known_line: MeasuredLine, label: &Label<'_>) -> Reach
    requires small { length source.now < 2 ^ 59 }
    requires known { known_line.columns ≡ line_columns source.now known_line.line }
    ensures value { result ≡ mark_reach source.now (mark 0 (seen_label label.now)) }
    ensures to { result.end < 2 ^ 62 }
    ensures end { result.text_end < 2 ^ 63 }
{
    mark_reach(source, known_line, &mark_of(label, 0))
}

/// Returns the reach of labels, each in the line in which it begins, and of `first`.
fn reach_on(source: &str, known_line: MeasuredLine, first: Reach, labels: &[Label<'_>]) -> Reach
    requires small { length source.now < 2 ^ 59 }
    requires known { known_line.columns ≡ line_columns source.now known_line.line }
    requires to { first.end < 2 ^ 62 }
    requires end { first.text_end < 2 ^ 63 }
    ensures value { result ≡ reach_on source.now first (map seen_label labels.now) }
    ensures to { result.end < 2 ^ 62 }
    ensures end { result.text_end < 2 ^ 63 }
{
    let mut reach = first;
    for label in labels {
        reach = join_reaches(reach, short_reach(source, known_line, label));
    }
    reach
}

/// Returns the reach of labels.
fn reach_of(source: &str, labels: &[Label<'_>]) -> Reach
    requires { length source.now < 2 ^ 59 }
    ensures value { result ≡ reach_of source.now (map seen_label labels.now) }
    ensures to { result.end < 2 ^ 62 }
    ensures end { result.text_end < 2 ^ 63 }
{
    match labels {
        [] => Reach {
            start: 0,
            end: 0,
            text_end: 0,
            longest: 0,
        },
        [label] => {
            if is_long(label) {
                long_reach(source, label)
            } else {
                short_reach(source, start_line(source, label), label)
            }
        }
        [label, rest @ ..] => {
            let known_line = start_line(source, label);
            reach_on(
                source,
                known_line,
                short_reach(source, known_line, label),
                rest,
            )
        }
    }
}

/// Returns how many columns are left beside what is in front of a line of the source.
fn room(columns: usize, labels: &[Label<'_>]) -> usize
    ensures { result ≡ room columns (map seen_label labels.now) }
{
    match labels {
        [label] => columns.saturating_sub(if is_long(label) { 5 } else { 3 }),
        _ => columns.saturating_sub(3),
    }
}

/// Returns how many columns are cut of lines with an indent.
fn cut_of(indent: usize) -> usize
    ensures { result ≡ cut_of indent }
{
    if indent > 26 { indent - 22 } else { 0 }
}

/// Returns the window that begins after `start` columns.
fn window_at(start: usize, columns: usize) -> Window
    ensures { result ≡ window_at start columns }
{
    Window {
        start,
        room: columns,
        limit: columns,
    }
}

/// Returns the window around labels, of lines that do not fit into `room` columns.
#[tactic(auto, unfolding(crate::specs::Margins::window_around))]
fn window_around(room: usize, indent: usize, reach: Reach) -> Window
    requires to { reach.end < 2 ^ 62 }
    requires texts { reach.text_end < 2 ^ 63 }
    ensures value { result ≡ window_around room indent reach }
    // The labels are in the window, with room for dots at its start and at its end.
    ensures start { indent ≤ reach.start → result.start ≤ reach.start - 6 }
    ensures end { reach.end ≤ reach.text_end → reach.end + 6 ≤ result.start + result.limit }
{
    let start = reach.start.saturating_sub(6);
    let texts = (reach.text_end + 6).saturating_sub(start);
    let labels = (reach.end + 6).saturating_sub(start);
    let indent_start = indent.saturating_sub(6);
    if (reach.text_end + 6).saturating_sub(indent_start) <= room {
        window_at(indent_start, room)
    } else if texts <= room {
        window_at(start.saturating_sub((room - texts) / 2), room)
    } else if labels <= room {
        window_at(start.saturating_sub((room - labels) / 5 * 2), room)
    } else {
        window_at(start, labels)
    }
}

/// Returns the window of so much room for lines with labels of a reach and an indent.
#[tactic(auto, unfolding(crate::specs::Margins::window))]
fn window(room: usize, indent: usize, reach: Reach) -> Window
    requires to { reach.end < 2 ^ 62 }
    requires end { reach.text_end < 2 ^ 63 }
    ensures { result ≡ window room indent reach }
{
    let start = cut_of(indent);
    let limit = reach.longest.saturating_sub(start);
    if limit > room {
        return window_around(room, indent, reach);
    }
    Window { start, room, limit }
}

/// Returns the window for labels, of lines with this indent.
pub fn window_of(
    picture: &Picture<'_>,
    gutter: Gutter,
    indent: usize,
    labels: &[Label<'_>],
) -> Window
    requires { length picture.now.source.now < 2 ^ 59 }
    ensures { result
        ≡ window_of (seen_picture picture.now) gutter indent (map seen_label labels.now) }
{
    let columns = picture.width.saturating_sub(gutter.columns);
    window(
        room(columns, labels),
        indent,
        reach_of(picture.source, labels),
    )
}
