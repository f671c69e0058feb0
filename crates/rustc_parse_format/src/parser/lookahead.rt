//! The rest of a text, which no other module sees: others can look at one character, or move, and
//! a move counts the characters that are passed.

ghost use Rattle.std.specs.Prelude.{◌≡◌, chars};
ghost use Rattle.rustc_parse_format.specs.Marks.{span_through, up_to};
ghost use Rattle.rustc_parse_format.specs.Views.{pair};
ghost use Rattle.rustc_parse_format.specs.SourceViews.{IsAnchored, seen_world};
ghost use Rattle.rustc_parse_format.specs.World.{place_of};

use super::steps::{Steps, Tally, count_before, count_next};
use crate::characters::{
    Class, LeadingNumber, after_first, after_while, begins, begins_digit, begins_white,
    begins_word, first, is_underscore, leading_number, split_word, text_before,
};
use crate::source::{Anchor, Source};
use std::ops::Range;

/// A place in a text, of which only the character there can be seen.
#[derive(Clone, Copy)]
pub struct Spot<'input> {
    text: &'input str,
}

/// The rest of a text that is still to be read, with the count of the steps made so far. There is
/// no way on but the moves, and each counts its steps.
#[derive(Drop)]
pub struct Lookahead<'input> {
    rest: Spot<'input>,
    tally: Tally,
    undo_count: Steps,
}

/// An earlier position of a cursor, with the count of its steps there.
#[derive(Drop)]
pub struct Checkpoint<'input> {
    pub rest: Spot<'input>,
    pub anchor: Anchor<'input>,
    tally: Tally,
}

impl<'input> Spot<'input> {
    ghost use Rattle.std.specs.Prelude.{◌≡◌, ◌<◌, ◌-◌, chars, length, option_map};
    ghost use Rattle.std.specs.Char.{is_ascii_digit, is_whitespace};
    ghost use Rattle.rustc_parse_format.specs.Bytes.{IsLeft};
    ghost use Rattle.rustc_parse_format.specs.Characters.{begins_with, byte_length, first};
    ghost use Rattle.rustc_parse_format.specs.Characters.{first_passes, is_id_start};
    ghost use Rattle.rustc_parse_format.specs.Marks.{End, Start};
    ghost use Rattle.rustc_parse_format.specs.Views.{pair};
    ghost use Rattle.rustc_parse_format.specs.SourceViews.{IsAnchored, seen_world};
    ghost use Rattle.rustc_parse_format.specs.State.{first_of};
    ghost use Rattle.rustc_parse_format.specs.World.{number_of};

    /// Returns the character, or `None` at the end of the text.
    #[inline(always)]
    pub fn character(self) -> Option<char>
        ensures { result ≡ first (chars self.entry.text.now) }
    {
        first(self.text)
    }

    /// Returns whether the character is `c`, which is ASCII.
    #[inline(always)]
    pub fn is_char(self, c: char) -> bool
        requires { c < 128 }
        ensures { result ≡ begins_with c (chars self.entry.text.now) }
    {
        begins(self.text, c)
    }

    /// Returns whether the character is an ASCII digit.
    #[inline(always)]
    pub fn is_digit(self) -> bool
        ensures { result ≡ first_passes is_ascii_digit (chars self.entry.text.now) }
    {
        begins_digit(self.text)
    }

    /// Returns whether the character is white space.
    #[inline(always)]
    pub fn is_white(self) -> bool
        ensures { result ≡ first_passes is_whitespace (chars self.entry.text.now) }
    {
        begins_white(self.text)
    }

    /// Returns whether the character can begin a word.
    #[inline(always)]
    pub fn is_id_start(self) -> bool
        ensures { result ≡ first_passes is_id_start (chars self.entry.text.now) }
    {
        begins_word(self.text)
    }

    /// Returns the byte offset of the character in the input, or at its end the length of that.
    #[inline(always)]
    pub fn position(self, source: &Source<'input>) -> usize
        requires { IsLeft source.now.input.now self.text.now }
        ensures { result ≡ byte_length (chars source.now.input.now)
            - byte_length (chars self.entry.text.now) }
    {
        source.position(self.text)
    }

    /// Returns the byte offset in the source at which the character starts, or at the end of the
    /// text the one at which that ends.
    #[inline(always)]
    pub fn start(self, source: &Source<'input>, anchor: &Anchor<'input>) -> usize
        requires { IsAnchored source.now self.text.now anchor.now }
        ensures { result ≡ number_of (seen_world source.now)
            (Start (length (chars self.entry.text.now))) }
    {
        source.start(self.text, anchor)
    }

    /// Returns the byte offset in the source at which the character ends, or at the end of the text
    /// the one at which that ends.
    #[inline(always)]
    pub fn stop(self, source: &Source<'input>, anchor: &Anchor<'input>) -> usize
        requires { IsAnchored source.now self.text.now anchor.now }
        ensures { result ≡ number_of (seen_world source.now)
            (End (length (chars self.entry.text.now))) }
    {
        source.stop(self.text, anchor)
    }

    /// Returns the byte range of the character in the source, its byte offset in the input, and the
    /// character itself, or `None` at the end of the input.
    #[inline(always)]
    pub fn place(
        self,
        source: &Source<'input>,
        anchor: &Anchor<'input>,
    ) -> Option<(Range<usize>, usize, char)>
        requires { IsAnchored source.now self.text.now anchor.now }
        ensures { option_map (λ x. (pair x.0, x.1, x.2)) result
            ≡ first_of (seen_world source.now) (chars source.now.input.now)
            (chars self.entry.text.now) }
    {
        source.peek_place(self.text, anchor)
    }

    /// Examines the snippet here, from which byte offsets are then computed.
    #[inline(always)]
    pub fn move_anchor(self, source: &Source<'input>, anchor: &mut Anchor<'input>)
        requires { IsAnchored source.now self.text.now anchor.old }
        ensures { IsAnchored source.now self.entry.text.now anchor.new }
    {
        if let Some(snippet) = &source.kept_snippet {
            anchor.move_anchor(snippet.as_str(), self.text);
        }
    }
}

/// Returns the byte range in the source of the text from `from` up to `to`. It is not inlined,
/// since few words are a fault.
#[cold]
#[inline(never)]
fn place_between<'input>(
    from: &Spot<'input>,
    to: &Spot<'input>,
    source: &Source<'input>,
    anchor: &Anchor<'input>,
) -> Range<usize>
    requires from { IsAnchored source.now from.now.text.now anchor.now }
    requires to { IsAnchored source.now to.now.text.now anchor.now }
    ensures { let text = chars from.now.text.now in
        pair result ≡ place_of (seen_world source.now) (up_to text (chars to.now.text.now)) }
{
    from.start(source, anchor)..to.start(source, anchor)
}

/// Returns the byte range in the source of the text from `from` up to `to`, with the character at
/// `to`. It is not inlined, since few numbers are a fault.
#[cold]
#[inline(never)]
fn place_through<'input>(
    from: &Spot<'input>,
    to: &Spot<'input>,
    source: &Source<'input>,
    anchor: &Anchor<'input>,
) -> Range<usize>
    requires from { IsAnchored source.now from.now.text.now anchor.now }
    requires to { IsAnchored source.now to.now.text.now anchor.now }
    ensures { let text = chars from.now.text.now in
        pair result ≡ place_of (seen_world source.now) (span_through text (chars to.now.text.now)) }
{
    from.start(source, anchor)..to.stop(source, anchor)
}

impl<'input> Lookahead<'input> {
    ghost use Rattle.std.specs.Prelude.{◌≡◌, ◌+◌, ◌++◌, List, None, Some, ℕ, bytes_eq, chars};
    ghost use Rattle.std.specs.Prelude.{codes, if◌then◌else◌, length, option_map, true};
    ghost use Rattle.rustc_parse_format.specs.Lookahead.{Moves};
    ghost use Rattle.rustc_parse_format.specs.Bytes.{IsLeft};
    ghost use Rattle.rustc_parse_format.specs.Characters.{Text, after_digits, after_first};
    ghost use Rattle.rustc_parse_format.specs.Characters.{after_word, digits, first_passes};
    ghost use Rattle.rustc_parse_format.specs.Characters.{is_id_start, is_over, number};
    ghost use Rattle.rustc_parse_format.specs.Characters.{rest_after, word};
    ghost use Rattle.rustc_parse_format.specs.Classes.{passes};
    ghost use Rattle.rustc_parse_format.specs.Marks.{span_through, up_to};
    ghost use Rattle.rustc_parse_format.specs.Views.{pair};
    ghost use Rattle.rustc_parse_format.specs.SourceViews.{IsAnchored, seen_world};
    ghost use Rattle.rustc_parse_format.specs.World.{Place, place_at, place_of};

    /// Returns the whole of a text, over which no step was made. Only a parser can make one.
    #[inline(always)]
    pub(super) fn new(text: &'input str) -> Lookahead<'input>
        ensures rest { result.rest.text.now ≡ text.now }
        ensures tally { result.tally
            ≡ record { pass_count = 0; left_count = length (chars text.now) } }
        ensures undo_count { result.undo_count.number ≡ 0 }
        ensures left { IsLeft text.now result.rest.text.now }
    {
        Lookahead {
            rest: Spot { text },
            tally: Tally::new(text),
            undo_count: Steps::start(),
        }
    }

    /// Returns the place of the next character.
    #[inline(always)]
    pub fn next(&self) -> Spot<'input>
        ensures { result.text.now ≡ self.now.rest.text.now }
    {
        self.rest
    }

    /// Returns the place of the character after the next one.
    #[inline(always)]
    pub fn second(&self) -> Spot<'input>
        ensures rest { chars result.text.now ≡ after_first (chars self.now.rest.text.now) }
        ensures left { (input : List ℕ) → IsLeft input self.now.rest.text.now
            → IsLeft input result.text.now }
    {
        Spot {
            text: after_first(self.rest.text),
        }
    }

    /// Returns the current position, of which this is the anchor.
    #[inline(always)]
    pub fn checkpoint(&self, anchor: Anchor<'input>) -> Checkpoint<'input>
        ensures rest { result.rest.text.now ≡ self.now.rest.text.now }
        ensures anchor { result.anchor ≡ anchor.entry }
        ensures tally { result.tally ≡ self.now.tally }
    {
        Checkpoint {
            rest: self.rest,
            anchor,
            tally: self.tally.copy(),
        }
    }

    /// Returns the text between `start` and the next character.
    #[inline(always)]
    pub fn text_since(&self, start: Spot<'input>) -> &'input str
        requires { (text : Text) × (chars start.text.now ≡ text ++ chars self.now.rest.text.now) }
        ensures { (text : Text) → chars start.entry.text.now ≡ text ++ chars self.now.rest.text.now
            → chars result.now ≡ text }
    {
        text_before(start.text, self.rest.text)
    }

    /// Moves past the next character, if there is one.
    #[inline(always)]
    pub fn skip_char(&mut self)
        ensures moves { Moves self.old self.new (after_first (chars self.old.rest.text.now)) }
        ensures left { (input : List ℕ) → IsLeft input self.old.rest.text.now
            → IsLeft input self.new.rest.text.now }
    {
        self.tally.pass(count_next(self.rest.text));
        self.rest.text = after_first(self.rest.text);
    }

    /// Moves past the next character, if there is one, and returns its byte range in the source. At
    /// the end of the input, returns the empty range where the text ends.
    #[inline(always)]
    pub fn consume_place(
        &mut self,
        source: &Source<'input>,
        anchor: &mut Anchor<'input>,
    ) -> Range<usize>
        requires { IsAnchored source.now self.old.rest.text.now anchor.old }
        ensures place { pair result
            ≡ place_at (seen_world source.now) (length (chars self.old.rest.text.now)) }
        ensures anchored { IsAnchored source.now self.new.rest.text.now anchor.new }
        ensures moves { Moves self.old self.new (after_first (chars self.old.rest.text.now)) }
    {
        self.tally.pass(count_next(self.rest.text));
        let (place, rest) = source.pass(self.rest.text, anchor);
        self.rest.text = rest;
        place
    }

    /// Moves past the longest prefix of characters in the class.
    #[inline(always)]
    pub fn skip_while(&mut self, class: Class)
        ensures moves { Moves self.old self.new
            (rest_after (passes class) (chars self.old.rest.text.now)) }
        ensures left { (input : List ℕ) → IsLeft input self.old.rest.text.now
            → IsLeft input self.new.rest.text.now }
    {
        let rest = after_while(self.rest.text, class);
        self.tally.pass(count_before(self.rest.text, rest));
        self.rest.text = rest;
    }

    /// Reads the word that comes next. If it is `_`, also returns its byte range in the source.
    #[inline(always)]
    pub fn word(
        &mut self,
        source: &Source<'input>,
        anchor: &Anchor<'input>,
    ) -> (&'input str, Option<Range<usize>>)
        requires start { first_passes is_id_start (chars self.old.rest.text.now) ≡ true }
        requires anchored { IsAnchored source.now self.old.rest.text.now anchor.now }
        ensures value { chars result.0.now ≡ word (chars self.old.rest.text.now) }
        ensures underscore { let t = chars self.old.rest.text.now in option_map pair result.1
            ≡ if bytes_eq (word t) (codes "_")
            then Some (place_of (seen_world source.now) (up_to t (after_word t)))
            else None }
        ensures moves { Moves self.old self.new (after_word (chars self.old.rest.text.now)) }
        ensures left { (input : List ℕ) → IsLeft input self.old.rest.text.now
            → IsLeft input self.new.rest.text.now }
    {
        let (word, rest) = split_word(self.rest.text);
        let underscore = if is_underscore(word) {
            Some(place_between(&self.rest, &Spot { text: rest }, source, anchor))
        } else {
            None
        };
        self.tally.pass(count_before(self.rest.text, rest));
        self.rest.text = rest;
        (word, underscore)
    }

    /// Reads the ASCII digits that come next, and returns their value modulo 65536. If that value
    /// exceeds 65535, also returns the digits, and the byte range in the source of the digits with
    /// the character after them.
    #[inline(always)]
    pub fn number(
        &mut self,
        source: &Source<'input>,
        anchor: &Anchor<'input>,
    ) -> (u16, Option<(&'input str, Range<usize>)>)
        requires { IsAnchored source.now self.old.rest.text.now anchor.now }
        ensures value { result.0 ≡ number (digits (chars self.old.rest.text.now)) }
        ensures over { let t = chars self.old.rest.text.now in
            option_map {U = Text × Place} (λ x. (chars x.0.now, pair x.1)) result.1
            ≡ if is_over (digits t)
            then Some (digits t, place_of (seen_world source.now) (span_through t (after_digits t)))
            else None }
        ensures moves { Moves self.old self.new (after_digits (chars self.old.rest.text.now)) }
        ensures left { (input : List ℕ) → IsLeft input self.old.rest.text.now
            → IsLeft input self.new.rest.text.now }
    {
        let LeadingNumber {
            value: number,
            is_over,
            rest,
        } = leading_number(self.rest.text);
        let over = if is_over {
            let place = place_through(&self.rest, &Spot { text: rest }, source, anchor);
            Some((text_before(self.rest.text, rest), place))
        } else {
            None
        };
        self.tally.pass(count_before(self.rest.text, rest));
        self.rest.text = rest;
        (number, over)
    }

    /// Goes back to the earlier place `spot`. The characters from there on can then be read again,
    /// which counts as new steps.
    #[inline(always)]
    pub fn rewind(&mut self, spot: Spot<'input>)
        ensures rest { self.new.rest.text.now ≡ spot.entry.text.now }
        ensures tally { self.new.tally
            ≡ record self.old.tally { left_count = length (chars self.old.rest.text.now) } }
        ensures undo_count { self.new.undo_count ≡ self.old.undo_count }
    {
        self.tally.rewind(self.rest.text);
        self.rest = spot;
    }

    /// Goes back to the position `checkpoint`, before a call in which an allocation failed. The
    /// steps of that call then do not count.
    #[inline(always)]
    pub fn undo(&mut self, checkpoint: Checkpoint<'input>)
        ensures rest { self.new.rest.text.now ≡ checkpoint.entry.rest.text.now }
        ensures tally { self.new.tally ≡ checkpoint.entry.tally }
        ensures undo_count { self.new.undo_count.number ≡ self.old.undo_count.number + 1 }
    {
        self.rest = checkpoint.rest;
        self.tally = checkpoint.tally;
        self.undo_count = Steps::sum(&self.undo_count, &1);
    }
}
