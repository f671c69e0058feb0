//! A file that was read, and what messages have of a finding in it.

ghost use Rattle.std.specs.Prelude.{◌≡◌};

use crate::message::{Level, Message, Span};
use rust_trees::Places;
use source_report::Finding;
use std::ops::Range;

/// A file that was read.
#[derive(Drop)]
pub struct File<'a> {
    /// The path that is shown.
    pub path: &'a str,
    /// Its text.
    pub text: &'a str,
    /// The places in it.
    pub places: Places<'a>,
}

/// Returns a range of a file as messages have it, without its lines, a label or a suggestion.
pub fn span_of<'a>(file: &File<'a>, range: &Range<usize>) -> Span<'a>
    requires { file.now.places ≡ file.now.text.now }
{
    let byte_start = file.text.floor_char_boundary(range.start);
    let byte_end = file.text.floor_char_boundary(range.end);
    Span {
        byte_start,
        byte_end,
        start: file.places.place_of(byte_start),
        end: file.places.place_of(byte_end),
        lines: None,
        is_primary: true,
        label: None,
        suggestion: None,
    }
}

/// Returns the level of a finding.
fn level_of(finding: &Finding) -> Level {
    if finding.is_warning {
        Level::Warning
    } else {
        Level::Error
    }
}

/// Returns a finding as messages of all forms have it.
pub fn message_of<'a>(file: &File<'a>, finding: &'a Finding) -> Message<'a>
    requires { file.now.places ≡ file.now.text.now }
{
    Message {
        level: level_of(finding),
        id: finding.id,
        title: finding.title.as_str(),
        path: file.path,
        primary: span_of(file, &finding.span),
    }
}
