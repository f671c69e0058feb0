//! A label as it is drawn in a line.

ghost use Rattle.std.specs.Prelude.{◌<◌, ◌^◌};

/// A label in one line.
#[derive(Clone, Copy)]
pub struct Mark<'a> {
    /// The number of the line, counted from 0.
    pub line: usize,
    /// The first column of the label.
    pub start: usize,
    /// The first column after the label.
    pub end: usize,
    /// The sign under its columns.
    pub sign: char,
    /// Its text.
    pub text: &'a str,
    ghost small_line: { line < 2 ^ 59 },
}
