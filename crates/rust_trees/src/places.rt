//! Places in a text as an editor shows them.

ghost use Rattle.std.specs.Prelude.{◌≡◌, ◌+◌, ◌<◌, ◌≤◌, ◌^◌, ◌++◌, IfOk, chars, length};
ghost use Rattle.std.specs.List.{All};
ghost use Rattle.std.specs.Str.{IsCharBoundary};
ghost use Rattle.rust_tokens.specs.Runs.{first_passes};
ghost use Rattle.rust_trees.specs.Places.{IsKnown, after_char, is_lf, place_after, place_of};
ghost use Rattle.rust_trees.specs.Places.{without_mark};

use rust_tokens::split_first;
use std::alloc::{AllocError, Global};
use std::marker::Model;

/// A line and a column of a text, both from 1. An LF ends a line, and a column counts characters,
/// but no CR before an LF and no byte order mark at the start.
#[derive(Clone, Copy)]
pub struct Place {
    /// The line.
    pub line: usize,
    /// The column.
    pub column: usize,
}

/// Returns whether an LF is the next character of two texts, one after the other.
fn is_lf_next(text: &str, back: &str) -> bool
    ensures { result ≡ first_passes is_lf (chars text.now ++ chars back.now) }
{
    match split_first(text) {
        Some((c, _)) => c == '\n',
        None => match split_first(back) {
            Some((c, _)) => c == '\n',
            None => false,
        },
    }
}

/// Returns the place after a character at this place, where an LF may follow.
fn after_char(place: Place, c: char, is_before_lf: bool) -> Place
    requires line { place.line + 1 < 2 ^ 64 }
    requires column { place.column + 1 < 2 ^ 64 }
    ensures { result ≡ after_char place c is_before_lf }
{
    if c == '\n' {
        Place {
            line: place.line + 1,
            column: 1,
        }
    } else if c == '\r' && is_before_lf {
        place
    } else {
        Place {
            line: place.line,
            column: place.column + 1,
        }
    }
}

/// Returns the place after a text at this place, where another text follows.
pub fn place_after(place: Place, front: &str, back: &str) -> Place
    requires line { place.line + length front.now < 2 ^ 64 }
    requires column { place.column + length front.now < 2 ^ 64 }
    ensures { result ≡ place_after place (chars front.now) (chars back.now) }
{
    let mut current_place = place;
    let mut rest = front;
    while let Some((c, more)) = split_first(rest) {
        current_place = after_char(current_place, c, is_lf_next(more, back));
        rest = more;
    }
    current_place
}

/// Returns the text without the byte order mark at its start.
fn without_mark(text: &str) -> &str
    ensures value { chars result.now ≡ without_mark (chars text.now) }
    ensures within { length result.now ≤ length text.now }
{
    match split_first(text) {
        Some(('\u{feff}', rest)) => rest,
        _ => text,
    }
}

/// Returns the place of a byte offset at which a character of the text starts, or at its end.
pub fn place_at(text: &str, offset: usize) -> Place
    requires { IsCharBoundary text.now offset }
    ensures { result ≡ place_of text.now offset }
{
    let (front, back) = text.split_at(offset);
    place_after(Place { line: 1, column: 1 }, without_mark(front), back)
}

/// The number of bytes between two places of a text that are known.
const STEP: usize = 256;

/// A byte offset of a text with its place.
#[derive(Clone, Copy)]
pub struct KnownPlace {
    pub offset: usize,
    pub place: Place,
}

/// Returns the place of a byte offset, from the last place before it of those that are known.
fn place_from(text: &str, known_places: &[KnownPlace], offset: usize) -> Place
    requires known_places { All (IsKnown text.now) known_places.now }
    requires boundary { IsCharBoundary text.now offset }
    ensures { result ≡ place_of text.now offset }
{
    let count = known_places.len().min(offset / STEP);
    if count > 0 {
        let last = known_places[count - 1];
        if last.offset <= offset {
            return place_after(last.place, &text[last.offset..offset], &text[offset..]);
        }
    }
    place_at(text, offset)
}

/// Adds a byte offset with its place to those that are known, unless it is 0. Returns `Err` if an
/// allocation fails.
fn add_known(
    known_places: &mut Vec<KnownPlace>,
    text: &str,
    offset: usize,
) -> Result<(), AllocError>
    requires known_places { All (IsKnown text.now) known_places.old.items }
    requires boundary { IsCharBoundary text.now offset }
    ensures { All (IsKnown text.now) known_places.new.items }
{
    if offset == 0 {
        return Ok(());
    }
    let place = place_from(text, known_places, offset);
    known_places.push(KnownPlace { offset, place })?;
    Ok(())
}

/// A text in which a place is found in a time that does not grow with the text.
#[derive(Drop)]
pub struct Places<'a> {
    text: &'a str,
    known_places: Vec<KnownPlace>,
}

impl<'a> Model for Places<'a> {
    ghost use Rattle.std.specs.Prelude.{ℕ, List};
    ghost use Rattle.std.specs.List.{All};
    ghost use Rattle.rust_trees.specs.Places.{IsKnown};

    ghost Value = { List ℕ };

    ghost view = { λ p. p.text.now };

    ghost invariant = { λ p. All (IsKnown p.text.now) p.known_places.items };
}

impl<'a> Places<'a> {
    /// Reads a text. Returns `Err` if an allocation fails.
    pub fn new(alloc: Global, text: &'a str) -> Result<Self, AllocError>
        ensures { IfOk result (λ p. p ≡ text.now) }
    {
        let mut known_places = Vec::new(alloc);
        for step in 1..=text.len() / STEP {
            add_known(
                &mut known_places,
                text,
                text.floor_char_boundary(step * STEP),
            )?;
        }
        Ok(Places { text, known_places })
    }

    /// Returns the place of a byte offset at which a character of the text starts, or at its end.
    pub fn place_of(&self, offset: usize) -> Place
        requires { IsCharBoundary self.now offset }
        ensures { result ≡ place_of self.now offset }
    {
        place_from(self.text, &self.known_places, offset)
    }
}
