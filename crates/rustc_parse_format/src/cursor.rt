//! A cursor over the input, with the byte offset of its position in the source.

mod words;

pub use crate::parser::lookahead::Checkpoint;
use crate::parser::lookahead::Lookahead;
use crate::source::{Anchor, Source, first_anchor};
use std::marker::Model;
use std::ops::Range;

/// A position in the input: the text that is left, and where that starts in the source.
#[derive(Drop)]
pub struct Cursor<'input> {
    source: Source<'input>,
    lookahead: Lookahead<'input>,
    anchor: Anchor<'input>,
}

impl<'input> Model for Cursor<'input> {
    ghost use Rattle.rustc_parse_format.specs.CallStates.{IsCounted, Remainder, back_at, unread_at};
    ghost use Rattle.rustc_parse_format.specs.SourceViews.{IsAnchored};
    ghost use Rattle.std.specs.Prelude.{chars};

    ghost Value = { Remainder };

    // The view shows the number of characters passed plus that of those left, less the length of
    // the input. So a move that is not counted changes the view.
    ghost view = { λ c. unread_at c.source c.lookahead.rest.text.now (back_at
        (chars c.source.input.now) (chars c.lookahead.rest.text.now) c.lookahead.tally)
        c.lookahead.undo_count.number };

    ghost invariant = { λ c. IsAnchored c.source c.lookahead.rest.text.now c.anchor
        × IsCounted (chars c.source.input.now) (chars c.lookahead.rest.text.now)
        c.lookahead.tally };
}

impl<'input> Cursor<'input> {
    ghost use Rattle.std.specs.Prelude.{◌≡◌, ◌+◌, ◌-◌, ◌≤◌, ◌<◌, ◌^◌, ◌++◌, chars, if◌then◌else◌};
    ghost use Rattle.std.specs.Prelude.{IsTrue, length, option_map, Some};
    ghost use Rattle.rustc_parse_format.specs.Bytes.{IsLeft};
    ghost use Rattle.rustc_parse_format.specs.Characters.{Text, byte_length, begins_prefix};
    ghost use Rattle.rustc_parse_format.specs.Characters.{begins_with, first, after_first};
    ghost use Rattle.rustc_parse_format.specs.Characters.{is_id_start, first_passes};
    ghost use Rattle.std.specs.Char.{is_ascii_digit};
    ghost use Rattle.rustc_parse_format.specs.Marks.{Start, End};
    ghost use Rattle.rustc_parse_format.specs.Views.{pair};
    ghost use Rattle.rustc_parse_format.specs.CallStates.{IsCounted, IsPastIndent, back_at};
    ghost use Rattle.rustc_parse_format.specs.CallStates.{opens_placeholder, unread_at};
    ghost use Rattle.rustc_parse_format.specs.SourceViews.{IsKept, IsAnchored};
    ghost use Rattle.rustc_parse_format.specs.State.{first_of};
    ghost use Rattle.rustc_parse_format.specs.Rewinds.{IsFurthest, after_part, given_back};
    ghost use Rattle.rustc_parse_format.specs.Rewinds.{nothing_back};
    ghost use Rattle.rustc_parse_format.specs.Steps.{AreFew};
    ghost use Rattle.rustc_parse_format.specs.World.{number_of, place_at};

    /// Returns a cursor at the start of the input of `source`, which `lookahead` is. Does not
    /// allocate.
    #[inline(always)]
    pub fn new(source: Source<'input>, lookahead: Lookahead<'input>) -> Cursor<'input>
        requires input { source.input.now ≡ lookahead.rest.text.now }
        requires left { IsLeft source.input.now lookahead.rest.text.now }
        requires first { lookahead.tally
            ≡ record { pass_count = 0; left_count = length (chars lookahead.rest.text.now) } }
        requires undo_count { lookahead.undo_count.number ≡ 0 }
        requires kept { IsKept source }
        requires fits { source.offset + length source.input.now < 2 ^ 64 }
        ensures { result ≡ unread_at source.entry source.entry.input.now
            (nothing_back (chars source.entry.input.now)) 0 }
    {
        let anchor = first_anchor(&source);
        Cursor {
            source,
            lookahead,
            anchor,
        }
    }

    /// Returns the current position, for `text_since`, `rewind` and `undo`.
    #[inline(always)]
    pub fn checkpoint(&self) -> Checkpoint<'input>
        ensures at { self.now ≡ unread_at self.now.source result.rest.text.now
            (back_at (chars self.now.source.input.now) (chars result.rest.text.now) result.tally)
            self.now.undo_count }
        ensures anchored { IsAnchored self.now.source result.rest.text.now result.anchor }
        ensures counted { IsCounted (chars self.now.source.input.now)
            (chars result.rest.text.now) result.tally }
    {
        self.lookahead.checkpoint(self.anchor)
    }

    /// Proves that the cursor has made few steps, at most two for each character of the input. Does
    /// nothing when the program runs.
    pub fn steps_are_few(&self)
        ensures few { AreFew self.now.input self.now.rest self.now.rewinds }
        ensures word { after_part self.now.rest ≤ self.now.rewinds.left }
    {
        let _rest = self.lookahead.next();
    }

    /// Returns the text between `start` and the current position.
    #[inline(always)]
    pub fn text_since(&self, start: &Checkpoint<'input>) -> &'input str
        requires { (text : Text) × (chars start.now.rest.text.now ≡ text ++ self.now.rest) }
        ensures { (text : Text) → chars start.now.rest.text.now ≡ text ++ self.now.rest
            → chars result.now ≡ text }
    {
        self.lookahead.text_since(start.rest)
    }

    /// Returns the next character, or `None` at the end of the input.
    #[inline(always)]
    pub fn peek(&self) -> Option<char>
        ensures { result ≡ first self.now.rest }
    {
        self.lookahead.next().character()
    }

    /// Returns the character after the next one, or `None` if there is none.
    pub fn peek_ahead(&self) -> Option<char>
        ensures { result ≡ first (after_first self.now.rest) }
    {
        self.lookahead.second().character()
    }

    /// Moves past the next character, if there is one. Only this function, `consume_place` and the
    /// functions of `words` move forward.
    pub fn skip_char(&mut self)
        ensures rest { self.new ≡ record self.old { rest = after_first self.old.rest } }
    {
        self.lookahead.skip_char();
    }

    /// Moves past the next character, if there is one, and returns its byte range in the source. At
    /// the end of the input, returns the empty range where the text ends.
    #[inline(always)]
    pub fn consume_place(&mut self) -> Range<usize>
        ensures place { pair result ≡ place_at self.old.world (length self.old.rest) }
        ensures rest { self.new ≡ record self.old { rest = after_first self.old.rest } }
    {
        self.lookahead.consume_place(&self.source, &mut self.anchor)
    }

    /// Goes back to the position `checkpoint`. The characters from there on can then be read again,
    /// which counts as new steps.
    pub fn rewind(&mut self, checkpoint: Checkpoint<'input>)
        requires anchored { IsAnchored self.old.source checkpoint.rest.text.now checkpoint.anchor }
        requires furthest { IsFurthest (chars checkpoint.rest.text.now) self.old.rewinds }
        requires earlier { length self.old.rest ≤ length (chars checkpoint.rest.text.now) }
        requires word { after_part (chars checkpoint.rest.text.now) ≤ length self.old.rest }
        ensures { self.new ≡ unread_at self.old.source checkpoint.entry.rest.text.now
            (given_back self.old.rest (chars checkpoint.entry.rest.text.now) self.old.rewinds)
            self.old.undo_count }
    {
        self.anchor = checkpoint.anchor;
        self.lookahead.rewind(checkpoint.rest);
    }

    /// Goes back to the position `checkpoint`, before a call in which an allocation failed. The
    /// steps of that call then do not count.
    pub fn undo(&mut self, checkpoint: Checkpoint<'input>)
        requires anchored { IsAnchored self.old.source checkpoint.rest.text.now checkpoint.anchor }
        requires counted { IsCounted (chars self.old.source.input.now)
            (chars checkpoint.rest.text.now) checkpoint.tally }
        ensures { self.new ≡ unread_at self.old.source checkpoint.entry.rest.text.now
            (back_at (chars self.old.source.input.now) (chars checkpoint.entry.rest.text.now)
            checkpoint.entry.tally) (self.old.undo_count + 1) }
    {
        self.anchor = checkpoint.anchor;
        self.lookahead.undo(checkpoint);
    }

    /// Proves that the rest is a suffix of the input. Does nothing when the program runs.
    pub fn reads_its_input(&self)
        ensures { (front : Text) × (self.now.input ≡ front ++ self.now.rest) }
    {
        let _rest = self.lookahead.next();
    }

    /// Returns the byte offset in the source at which the next character starts, or at the end of
    /// the input the one at which the text ends.
    #[inline(always)]
    pub fn start(&self) -> usize
        ensures { result ≡ number_of self.now.world (Start (length self.now.rest)) }
    {
        self.lookahead.next().start(&self.source, &self.anchor)
    }

    /// Returns whether the next character `c` is past the indentation of a line that starts at the
    /// byte offset `byte`: it starts after that, or it starts there and is not white space.
    #[inline(always)]
    pub fn is_past_indent(&self, c: char, byte: usize) -> bool
        ensures { IsTrue result → first self.now.rest ≡ Some c
            → IsPastIndent c byte self.now.world self.now.rest }
    {
        let start = self.lookahead.next().start(&self.source, &self.anchor);
        start > byte || start == byte && !c.is_whitespace()
    }

    /// Examines the snippet at the current position, from which byte offsets are then computed.
    /// Nothing that contracts show changes.
    #[inline(always)]
    pub fn move_anchor(&mut self)
        ensures { self.new ≡ self.old }
    {
        self.lookahead
            .next()
            .move_anchor(&self.source, &mut self.anchor);
    }

    /// Returns the byte offset in the source at which the next character ends, or at the end of the
    /// input the one at which the text ends.
    #[inline(always)]
    pub fn stop(&self) -> usize
        ensures { result ≡ number_of self.now.world (End (length self.now.rest)) }
    {
        self.lookahead.next().stop(&self.source, &self.anchor)
    }

    /// Returns whether the snippet is the source literal of the input.
    pub fn is_source_literal(&self) -> bool
        ensures { result ≡ self.now.world.has_source }
    {
        self.source.is_literal
    }

    /// Returns the byte range of the next character in the source, its byte offset in the input,
    /// and the character itself, or `None` at the end of the input.
    #[inline(always)]
    pub fn peek_place(&self) -> Option<(Range<usize>, usize, char)>
        ensures { option_map (λ x. (pair x.0, x.1, x.2)) result
            ≡ first_of self.now.world self.now.input self.now.rest }
    {
        self.lookahead.next().place(&self.source, &self.anchor)
    }

    /// Returns, for the character after the next one, its byte range in the source, its byte offset
    /// in the input, and the character itself, or `None` if there is none.
    #[inline(always)]
    pub fn peek_place_ahead(&self) -> Option<(Range<usize>, usize, char)>
        ensures { option_map (λ x. (pair x.0, x.1, x.2)) result
            ≡ first_of self.now.world self.now.input (after_first self.now.rest) }
    {
        self.lookahead.second().place(&self.source, &self.anchor)
    }

    /// Returns the byte offset of the next character in the input, or at the end the length of the
    /// input.
    #[inline(always)]
    pub fn position(&self) -> usize
        ensures { result ≡ byte_length self.now.input - byte_length self.now.rest }
    {
        self.lookahead.next().position(&self.source)
    }

    /// Returns whether the next character is `c`, which is ASCII.
    pub fn is_next(&self, c: char) -> bool
        requires { c < 128 }
        ensures { result ≡ begins_with c self.now.rest }
    {
        self.lookahead.next().is_char(c)
    }

    /// Moves past the next character if it is `c`, which is ASCII. Returns whether it is.
    pub fn consume(&mut self, c: char) -> bool
        requires { c < 128 }
        ensures value { result ≡ begins_with c self.old.rest }
        ensures rest { self.new ≡ record self.old {
          rest = if begins_with c self.old.rest then after_first self.old.rest else self.old.rest;
        } }
    {
        let is_present = self.is_next(c);
        if is_present {
            self.skip_char();
        }
        is_present
    }

    /// Returns whether the character after the next one is `c`, which is ASCII.
    pub fn is_ahead(&self, c: char) -> bool
        requires { c < 128 }
        ensures { result ≡ begins_with c (after_first self.now.rest) }
    {
        self.lookahead.second().is_char(c)
    }

    /// Returns whether a placeholder opens here: the next character is an opening brace, and the
    /// one after it is not.
    #[inline(always)]
    pub fn opens_placeholder(&self) -> bool
        ensures { result ≡ opens_placeholder self.now.rest }
    {
        self.is_next('{') && !self.is_ahead('{')
    }

    /// Returns whether the next character is an ASCII digit.
    pub fn is_digit_next(&self) -> bool
        ensures { result ≡ first_passes is_ascii_digit self.now.rest }
    {
        self.lookahead.next().is_digit()
    }

    /// Returns whether the next character can begin a word.
    pub fn is_word_next(&self) -> bool
        ensures { result ≡ first_passes is_id_start self.now.rest }
    {
        self.lookahead.next().is_id_start()
    }

    /// Returns whether the next two characters are `r#`.
    pub fn is_raw_prefix_next(&self) -> bool
        ensures { result ≡ begins_prefix self.now.rest }
    {
        self.is_next('r') && self.is_ahead('#')
    }

    /// Returns whether the character after the next one can begin a word.
    pub fn is_word_ahead(&self) -> bool
        ensures { result ≡ first_passes is_id_start (after_first self.now.rest) }
    {
        self.lookahead.second().is_id_start()
    }
}
