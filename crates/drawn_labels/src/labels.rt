//! Labels of ranges of the source.

ghost use Rattle.std.specs.Prelude.{◌≡◌, ◌<◌, ◌^◌, length};
ghost use Rattle.drawn_lines.specs.Frames.{seen_frame};
ghost use Rattle.drawn_labels.specs.Labels.{mark, mark_in, seen_label};
ghost use Rattle.drawn_labels.specs.Rows.{seen_mark};

use crate::mark::Mark;
use drawn_lines::{Extent, Frame, shift};

/// A label of a range of the source.
#[derive(Clone, Copy)]
pub struct Label<'a> {
    /// The sign under its columns.
    pub sign: char,
    /// Its text.
    pub text: &'a str,
    /// Where it is.
    pub extent: Extent,
}

/// Returns a label in the line in which it begins.
#[tactic(auto, unfolding(crate::specs::Labels::mark))]
pub fn mark_of<'a>(label: &Label<'a>, first: usize) -> Mark<'a>
    requires { label.now.extent.start.column < 2 ^ 61 }
    ensures value { seen_mark result ≡ mark first (seen_label label.now) }
    ensures line { result.line ≡ label.now.extent.start.line }
    ensures columns { result.end < 2 ^ 62 }
{
    let start = label.extent.start;
    let end = label.extent.end;
    let first_column = start.column.saturating_sub(first);
    let end_column = if end.line == start.line {
        end.column.saturating_sub(first)
    } else {
        0
    };
    Mark {
        line: start.line,
        start: first_column,
        end: end_column.max(first_column + 1),
        sign: label.sign,
        text: label.text,
    }
}

/// Returns a label as it is drawn in the line in which it begins.
pub fn mark_in<'a>(frame: &Frame<'_>, label: &Label<'a>) -> Mark<'a>
    requires source { length frame.now.picture.now.source.now < 2 ^ 59 }
    requires column { label.now.extent.start.column < 2 ^ 61 }
    ensures value { seen_mark result ≡ mark_in (seen_frame frame.now) (seen_label label.now) }
    ensures line { result.line ≡ label.now.extent.start.line }
{
    mark_of(label, shift(frame, label.extent.start.line))
}
