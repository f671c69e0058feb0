//! The source around a literal, its lines and places.

ghost use Rattle.std.specs.Prelude.{◌≡◌, ◌+◌, ◌*◌, ◌<◌, ◌≤◌, ◌^◌, [], chars, length, ℕ, false};
ghost use Rattle.std.specs.Prelude.{true, max};
ghost use Rattle.std.specs.List.{fold, list_all};
ghost use Rattle.rustc_parse_format.specs.Views.{pair};
ghost use Rattle.drawn_lines.specs.Glyphs.{is_printable};
ghost use Rattle.drawn_lines.specs.Places.{offset, after_lines, extent, first_line, line};
ghost use Rattle.drawn_lines.specs.Places.{spot_past};
ghost use Rattle.drawn_lines.specs.Places.{seen_extent, seen_picture, front_within};

use crate::extent::{Extent, Spot};
use crate::glyphs::{split_first, width};
use crate::printable::split_printable;
use std::ops::Range;

/// The source that a fault is drawn in: a whole file, or those lines of it that have the literal.
#[derive(Clone, Copy, Debug, Drop)]
pub struct Picture<'a> {
    /// The path of the file, as it is to be shown.
    pub path: &'a str,
    /// The source. Its lines end in line feeds.
    pub source: &'a str,
    /// The number of the first line of `source`.
    pub line_start: u32,
    /// The byte offset in `source` at which the literal begins.
    pub literal_start: usize,
    /// How many columns a row has with the number of its line, as rustc's `--diagnostic-width` says
    /// it. Longer lines are cut, but for those of a suggestion. [`WIDTH`] is rustc's default.
    pub width: usize,
    /// Whether the drawing has colours, as rustc gives them to a terminal.
    pub colours: bool,
}

/// How many columns a row has if nothing else is said.
pub const WIDTH: usize = 140;

/// The place at the start of a text.
pub const ORIGIN: Spot = Spot {
    line: 0,
    chars: 0,
    column: 0,
    is_indent: true,
};

/// Returns the place after a character.
#[tactic(auto, unfolding(crate::specs::Places::spot_past))]
fn spot_past(spot: Spot, c: char) -> Spot
    requires small_line { spot.line < 2 ^ 62 }
    requires small_chars { spot.chars < 2 ^ 62 }
    requires small_column { spot.column < 2 ^ 61 }
    ensures value { result ≡ spot_past spot c }
    ensures lines { result.line ≤ spot.line + 1 }
    ensures chars { result.chars ≤ spot.chars + 1 }
    ensures columns { result.column ≤ spot.column + 4 }
{
    if c == '\n' {
        return Spot {
            line: spot.line + 1,
            chars: 0,
            column: 0,
            is_indent: true,
        };
    }
    Spot {
        line: spot.line,
        chars: spot.chars + 1,
        column: spot.column + width(c),
        is_indent: spot.is_indent && c.is_whitespace(),
    }
}

/// Returns the place after printable characters.
fn past_printable(spot: Spot, front: &str) -> Spot
    requires printable { list_all is_printable front.now ≡ true }
    requires after_indent { spot.is_indent ≡ false }
    requires small_chars { spot.chars + length front.now < 2 ^ 62 }
    requires small_column { spot.column + length front.now < 2 ^ 62 }
    ensures value { result ≡ fold spot_past spot front.now }
    ensures line { result.line ≡ spot.line }
    ensures chars { result.chars ≡ spot.chars + length front.now }
    ensures column { result.column ≡ spot.column + length front.now }
{
    Spot {
        line: spot.line,
        chars: spot.chars + front.len(),
        column: spot.column + front.len(),
        is_indent: false,
    }
}

/// A text after some characters were passed.
#[derive(Clone, Copy)]
struct Rest<'a> {
    /// The place after these characters.
    spot: Spot,
    /// What is left of the text.
    text: &'a str,
    /// How many bytes are left to pass.
    width: usize,
}

/// Passes the printable characters at the start of a text that end within `width` bytes.
fn pass_printable(start: Spot, text: &str, width: usize) -> Rest<'_>
    requires after_indent { start.is_indent ≡ false }
    requires small_chars { start.chars + length text.now < 2 ^ 60 }
    requires small_column { start.column + 4 * length text.now < 2 ^ 61 }
    ensures value { fold spot_past result.spot (front_within result.width (chars result.text.now))
        ≡ fold spot_past start (front_within width (chars text.now)) }
    ensures on { (more : ℕ) → fold spot_past start (front_within (width + more) (chars text.now))
        ≡ fold spot_past result.spot (front_within (result.width + more) (chars result.text.now)) }
    ensures fewer { result.width ≤ width }
    ensures shorter { length result.text.now ≤ length text.now }
    ensures lines { result.spot.line + length result.text.now ≤ start.line + length text.now }
    ensures chars { result.spot.chars + length result.text.now ≤ start.chars + length text.now }
    ensures columns { result.spot.column + 4 * length result.text.now
        ≤ start.column + 4 * length text.now }
{
    let (front, rest) = split_printable(text, width);
    Rest {
        spot: past_printable(start, front),
        text: rest,
        width: width - front.len(),
    }
}

/// Passes the characters of a text that end within `width` bytes.
fn pass(start: Spot, text: &str, width: usize) -> Rest<'_>
    requires small_line { start.line + length text.now < 2 ^ 60 }
    requires small_chars { start.chars + length text.now < 2 ^ 60 }
    requires small_column { start.column + 4 * length text.now < 2 ^ 61 }
    ensures value { result.spot ≡ fold spot_past start (front_within width (chars text.now)) }
    ensures on { (more : ℕ) → fold spot_past start (front_within (width + more) (chars text.now))
        ≡ fold spot_past result.spot (front_within (result.width + more) (chars result.text.now)) }
    ensures fewer { result.width ≤ width }
    ensures lines { result.spot.line + length result.text.now ≤ start.line + length text.now }
    ensures chars { result.spot.chars + length result.text.now ≤ start.chars + length text.now }
    ensures columns { result.spot.column + 4 * length result.text.now
        ≤ start.column + 4 * length text.now }
{
    let mut at = start;
    let mut rest = text;
    let mut countdown = width;
    while let Some((c, tail)) = split_first(rest) {
        if countdown < c.len_utf8() {
            break;
        }
        countdown -= c.len_utf8();
        at = spot_past(at, c);
        rest = tail;
        if !at.is_indent {
            let next = pass_printable(at, rest, countdown);
            at = next.spot;
            rest = next.text;
            countdown = next.width;
        }
    }
    Rest {
        spot: at,
        text: rest,
        width: countdown,
    }
}

/// Returns the first line of a text, and the rest of the text after that line.
pub fn split_line(text: &str) -> (&str, &str)
    ensures line { result.0.now ≡ first_line text.now }
    ensures rest { result.1.now ≡ after_lines 1 text.now }
    ensures short_line { length result.0.now ≤ length text.now }
    ensures short { length result.1.now ≤ length text.now }
{
    match text.split_once('\n') {
        Some((line, rest)) => (line, rest),
        None => (text, ""),
    }
}

/// Returns the rest of a text after its first lines.
pub fn after_lines(text: &str, count: usize) -> &str
    ensures value { result.now ≡ after_lines count text.now }
    ensures short { length result.now ≤ length text.now }
{
    let mut rest = text;
    let mut countdown = count;
    while countdown > 0 {
        let (_, rest_after) = split_line(rest);
        rest = rest_after;
        countdown -= 1;
    }
    rest
}

/// Returns the line with a number, counted from 0, or an empty text after the last one.
#[tactic(auto, unfolding(crate::specs::Places::line))]
pub fn line(text: &str, number: usize) -> &str
    ensures value { result.now ≡ line number text.now }
    ensures short { length result.now ≤ length text.now }
{
    let (first, _) = split_line(after_lines(text, number));
    first
}

/// Returns the byte offsets in the source at which a range of the literal begins and ends.
pub fn offsets(picture: &Picture<'_>, range: &Range<usize>) -> (usize, usize)
    ensures start { result.0 ≡ offset (seen_picture picture.now) (pair range.now).0 }
    ensures end { result.1 ≡ max (offset (seen_picture picture.now) (pair range.now).0)
        (offset (seen_picture picture.now) (pair range.now).1) }
{
    let length = picture.source.len();
    let from = picture
        .literal_start
        .saturating_add(range.start)
        .min(length);
    let to = picture.literal_start.saturating_add(range.end).min(length);
    (from, to.max(from))
}

/// Returns where a range of the literal begins and ends.
#[tactic(auto, unfolding(crate::specs::Places::extent))]
pub fn extent_of(picture: &Picture<'_>, range: &Range<usize>) -> Extent
    requires { length picture.now.source.now < 2 ^ 59 }
    ensures value { seen_extent result ≡ extent (seen_picture picture.now) (pair range.now) }
    ensures small_line { result.start.line < 2 ^ 59 }
    ensures small_end { result.end.line < 2 ^ 59 }
    ensures small_chars { result.start.chars < 2 ^ 59 }
    ensures small_column { result.start.column < 2 ^ 61 }
    ensures small_end_column { result.end.column < 2 ^ 61 }
{
    let (from, to) = offsets(picture, range);
    let start_rest = pass(ORIGIN, picture.source, from);
    let end_rest = pass(
        start_rest.spot,
        start_rest.text,
        start_rest.width + (to - from),
    );
    Extent {
        start: start_rest.spot,
        end: end_rest.spot,
    }
}
