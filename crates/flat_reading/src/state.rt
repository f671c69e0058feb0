//! Writes the state of a parser as records.

ghost use Rattle.std.specs.Prelude.{◌≡◌, ◌<◌, ◌++◌, List, Option, Some, length};
ghost use Rattle.rustc_parse_format.specs.Characters.{after_first};
ghost use Rattle.rustc_parse_format.specs.Lines.{closed_in, place_list};
ghost use Rattle.rustc_parse_format.specs.Marks.{Span};
ghost use Rattle.rustc_parse_format.specs.World.{Place};
ghost use Rattle.flat_reading.specs.Events.{place_of_first, position};
ghost use Rattle.flat_reading.specs.Meaning.{maybe_place};
ghost use Rattle.flat_reading.specs.Progress.{IsSeen};

use crate::fields::{NOWHERE, put_extent};
use crate::records::{Extent, PIECE_NONE, POSITION_IMPLICIT, Peek, Step};
use rustc_parse_format::Parser;

/// A step without a piece and without a state.
pub const BLANK: Step = Step {
    kind: PIECE_NONE,
    position: POSITION_IMPLICIT,
    number: 0,
    text: NOWHERE,
    position_span: NOWHERE,
    spec: 0,
    has_place: 0,
    place: NOWHERE,
    offset: 0,
    next_index: 0,
    lines: 0,
};

/// Writes the byte ranges in the source of the next two characters.
#[inline(never)]
fn put_peek(parser: &Parser<'_>, peek: &mut Peek)
    ensures first { maybe_place peek.new.has_peek peek.new.peek
        ≡ place_of_first parser.now parser.now.rest }
    ensures second { maybe_place peek.new.has_peek_ahead peek.new.peek_ahead
        ≡ place_of_first parser.now (after_first parser.now.rest) }
{
    peek.has_peek = 0;
    peek.has_peek_ahead = 0;
    if let Some((place, _, _)) = parser.peek() {
        peek.has_peek = 1;
        put_extent(&place, &mut peek.peek);
    }
    if let Some((place, _, _)) = parser.peek_ahead() {
        peek.has_peek_ahead = 1;
        put_extent(&place, &mut peek.peek_ahead);
    }
}

/// Writes the byte ranges in the source of the next two characters into the record with this index,
/// if there is one.
#[inline(always)]
pub fn add_peek(parser: &Parser<'_>, number: usize, peeks: &mut [Peek])
    ensures { IsSeen parser.now number peeks.old peeks.new }
{
    if number < peeks.len() {
        put_peek(parser, &mut peeks[number]);
    }
}

/// Writes the byte range in the source of the placeholder that a call closed, or none. `old_count`
/// is the number of such ranges before the call; only a source literal has any.
#[inline(always)]
pub fn put_closed_place(
    parser: &Parser<'_>,
    old_count: usize,
    has_place: &mut u8,
    place: &mut Extent,
)
    ensures { (old : List Place) (k : Option Span) → old_count ≡ length old
        → parser.now.arg_places ≡ old ++ place_list (closed_in parser.now.world k)
        → maybe_place has_place.new place.new ≡ closed_in parser.now.world k }
{
    *has_place = 0;
    if parser.is_source_literal() {
        if let Some(closed) = parser.arg_places().get(old_count) {
            *has_place = 1;
            put_extent(closed, place);
        }
    }
}

/// Writes the byte offset up to which the input is read, the index of the next implicit argument,
/// and the number of lines.
#[inline(always)]
pub fn put_state(parser: &Parser<'_>, step: &mut Step)
    ensures offset { step.new.offset ≡ position parser.now.input parser.now.rest }
    ensures next_index { step.new.next_index ≡ parser.now.next }
    ensures lines { step.new.lines ≡ length parser.now.line_spans }
{
    step.offset = parser.position();
    step.next_index = parser.curarg();
    step.lines = parser.line_spans().len();
}
