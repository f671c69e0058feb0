//! Places in a source, and ranges between them.

ghost use Rattle.std.specs.Prelude.{◌<◌, ◌^◌};

/// A place in a source.
#[derive(Clone, Copy)]
pub struct Spot {
    /// The number of the line, counted from 0.
    pub line: usize,
    /// How many characters of the line are before the place.
    pub chars: usize,
    /// How many columns these take.
    pub column: usize,
    /// Whether these are all white space.
    pub is_indent: bool,
}

/// The places at which a range begins and ends.
#[derive(Clone, Copy)]
pub struct Extent {
    pub start: Spot,
    pub end: Spot,
    ghost small_line: { start.line < 2 ^ 59 },
    ghost small_end: { end.line < 2 ^ 59 },
    ghost small_chars: { start.chars < 2 ^ 59 },
    ghost small_column: { start.column < 2 ^ 61 },
    ghost small_end_column: { end.column < 2 ^ 61 },
}
