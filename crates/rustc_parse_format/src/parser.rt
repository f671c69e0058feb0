//! The parser: each call reads one piece, up to the end of the input.

pub mod lookahead;
mod step;
mod steps;
mod with_faults;

use crate::cursor::Cursor;
use crate::lists::Lists;
use crate::reader::Reader;
use crate::source::{quote_offset, source_of};
use crate::types::{Argument, NextPiece, ParseError, ParseMode, Piece};
use lookahead::Lookahead;
use std::alloc::{AllocError, Global};
use std::marker::Model;
use std::ops::Range;

/// A parser over an input, which reads one piece at a time. It borrows the input, and keeps the
/// errors, places and lines found so far.
#[derive(Drop)]
pub struct Parser<'input> {
    alloc: Global,
    mode: ParseMode,
    /// Between two calls it holds no faults, no lines and no closed placeholder: they are in
    /// `lists`.
    reader: Reader<'input>,
    lists: Lists,
}

impl<'input> Model for Parser<'input> {
    ghost use Rattle.std.specs.Prelude.{◌+◌, ◌<◌, ◌^◌, length};
    ghost use Rattle.rustc_parse_format.specs.CallStates.{HasFoundNothing};
    ghost use Rattle.rustc_parse_format.specs.State.{State};
    ghost use Rattle.rustc_parse_format.specs.Views.{seen_mode};

    ghost Value = { State };

    ghost view = { λ p. record {
      mode = seen_mode p.mode;
      world = p.reader.world;
      input = p.reader.input;
      rest = p.reader.rest;
      rewinds = p.reader.rewinds;
      undo_count = p.reader.undo_count;
      next = p.reader.next;
      errors = p.lists.errors;
      arg_places = p.lists.arg_places;
      line_start = p.reader.line_start;
      line_spans = p.lists.line_spans;
    } };

    ghost invariant = { λ p. (p.reader.next + length p.reader.rest < 2 ^ 64)
        × HasFoundNothing p.reader };
}

impl<'input> Parser<'input> {
    ghost use Rattle.std.specs.Prelude.{◌≡◌, ◌≢◌, ◌+◌, ◌-◌, ◌<◌, ◌≤◌, ◌^◌, ◌↔◌, ◌++◌, [], ℕ, Bool};
    ghost use Rattle.std.specs.Prelude.{true, false};
    ghost use Rattle.std.specs.Prelude.{List, Option, IfOk, IsNone, IsOk, IsTrue, OnErr, OnOk};
    ghost use Rattle.std.specs.Prelude.{chars, length, map, option_map};
    ghost use Rattle.rustc_parse_format.specs.Agreement.{Agree};
    ghost use Rattle.rustc_parse_format.specs.Characters.{Text, after_first, byte_length, is_nil};
    ghost use Rattle.std.specs.List.{filter};
    ghost use Rattle.rustc_parse_format.specs.Faults.{Keeps, add_errors, bare_fault, bare_message};
    ghost use Rattle.rustc_parse_format.specs.Faults.{is_front};
    ghost use Rattle.rustc_parse_format.specs.Lines.{IsLines, place_list, texts_in};
    ghost use Rattle.rustc_parse_format.specs.ReadBack.{AllSpans, IsInside, LiesInside, ReadsBack};
    ghost use Rattle.rustc_parse_format.specs.Grammar.{Begins};
    ghost use Rattle.rustc_parse_format.specs.Meaning.{argument};
    ghost use Rattle.rustc_parse_format.specs.Types.{NextArgument, Piece as BarePiece, bare_piece};
    ghost use Rattle.rustc_parse_format.specs.Views.{pair, seen_piece, seen_error, seen_mode};
    ghost use Rattle.rustc_parse_format.specs.Views.{seen_snippet, seen_taken};
    ghost use Rattle.rustc_parse_format.specs.Literal.{IsSource};
    ghost use Rattle.rustc_parse_format.specs.Source.{HasSource};
    ghost use Rattle.rustc_parse_format.specs.State.{AddsNothing, ComesFrom, GivesPiece, IsPutBack};
    ghost use Rattle.rustc_parse_format.specs.State.{State, state_after, first_of, first_state};
    ghost use Rattle.rustc_parse_format.specs.State.{last_lines, next_call};
    ghost use Rattle.rustc_parse_format.specs.Spelling.{IsPart};
    ghost use Rattle.rustc_parse_format.specs.State.{NeedsNoMemory};
    ghost use Rattle.rustc_parse_format.specs.Steps.{AreFew};
    ghost use Rattle.rustc_parse_format.specs.Placeholder.{cut_of};
    ghost use Rattle.rustc_parse_format.specs.Syntax.{FieldText, opened_part};
    ghost use Rattle.rustc_parse_format.specs.World.{Place, hashes, piece_in, place_of, text_end};

    /// Creates a parser at the start of an input. Does not allocate, and always returns `Ok`.
    ///
    /// - `alloc` is the allocator that the later calls use.
    /// - `style` is the style of the literal that the input comes from: `None` for an ordinary
    ///   literal, `Some(n)` for a raw one with n hashes.
    /// - `snippet` is that literal as it is in the source. If it is not the source literal of the
    ///   input (see `literal::is_source_literal`), it changes nothing but where the text ends.
    /// - `appended_newline` is whether the input ends in a newline that the source does not have.
    /// - `mode` is the kind of text.
    ///
    /// The number of hashes, the byte length of the input and 2 must add up to less than 2^64.
    #[inline(always)]
    pub fn new(
        alloc: Global,
        input: &'input str,
        style: Option<usize>,
        snippet: Option<String>,
        appended_newline: bool,
        mode: ParseMode,
    ) -> Result<Parser<'input>, AllocError>
        requires { hashes style + length input.now + 2 < 2 ^ 64 }
        ensures ok { IsOk result }
        ensures start { IfOk result (λ p.
            p ≡ first_state (seen_mode mode) (chars input.now) style
            (seen_snippet snippet) appended_newline) }
        ensures end { IfOk result (λ p. p.world.end
            ≡ text_end (chars input.now) style (seen_snippet snippet) appended_newline) }
        ensures source { IfOk result (λ p. IsTrue p.world.has_source
            ↔ HasSource (chars input.now) style (seen_snippet snippet) appended_newline) }
        ensures lies_inside { IfOk result (λ p. (source : Text) → seen_snippet snippet ≡ Some source
            → IsSource (chars input.now) style source appended_newline
            → LiesInside source appended_newline p) }
        ensures agrees { IfOk result (λ p. (s : Option ℕ) (source : Option Text) (appended : Bool)
            → Agree p (first_state (seen_mode mode) (chars input.now) s source appended)) }
        ensures short { IfOk result (λ p. length p.rest ≤ length input.now) }
    {
        let source = source_of(input, style, snippet, appended_newline);
        let cursor = Cursor::new(source, Lookahead::new(input));
        Ok(Parser {
            alloc,
            mode,
            reader: Reader::new(alloc, cursor, quote_offset(style)),
            lists: Lists::new(alloc),
        })
    }

    /// Proves that the rest is a suffix of the input. Changes nothing.
    fn reads_its_input(&self)
        ensures { (front : Text) × (self.now.input ≡ front ++ self.now.rest) }
    {
        self.reader.cursor.reads_its_input();
    }

    /// Proves that the parser took few steps: at least as many as its position, at most as many as
    /// its position and its furthest position add up to, and so at most two for each character of
    /// the input. Changes nothing.
    pub(super) fn steps_are_few(&self)
        ensures { AreFew self.now.input self.now.rest self.now.rewinds }
    {
        self.reader.cursor.steps_are_few();
    }

    /// Returns the next piece, or `None` at the end of the input and for an unmatched `}`, which it
    /// skips. The parser is not fused: a call after an unmatched `}` goes on.
    ///
    /// A fault of the input is not an error of the call: it is added to [`Parser::errors`]. Returns
    /// `Err` if an allocation fails, and the parser is then unchanged, so the call can be repeated.
    /// A call allocates only for a placeholder, for a fault, and at the end of a line of a source
    /// literal; any other call always returns `Ok`.
    pub fn next(&mut self) -> Result<Option<Piece<'input>>, AllocError>
        // The piece and the new state are those of `call` in specs/Call.antt, with byte offsets for
        // its marks.
        ensures piece { IfOk result (λ p. option_map seen_piece p
            ≡ option_map (piece_in self.old.world) (next_call self.old).piece) }
        ensures state { OnOk result (self.new ≡ state_after self.old (next_call self.old)) }
        ensures err { OnErr result (IsPutBack self.old self.new) }
        ensures spare { NeedsNoMemory self.old (next_call self.old) → IsOk result }

        // If a piece of the grammar begins the rest, it is returned without a new error. If
        // none does, there is a new error, except at the end, where the call returns `None` and
        // only adds the last line of a source literal. Earlier errors stay, in order.
        ensures reads { IfOk result (λ p. (q : BarePiece (Unit {0})) (r : Text) (n : ℕ)
            → Begins self.old.mode self.old.next self.old.rest q r n
            → GivesPiece (option_map seen_piece p) q r n self.old self.new) }
        ensures faulty { OnOk result (self.old.rest ≢ []
            → ((q : BarePiece (Unit {0})) (r : Text) (n : ℕ)
            → ¬ (Begins self.old.mode self.old.next self.old.rest q r n))
            → length self.old.errors < length self.new.errors) }
        ensures end { IfOk result (λ p. self.old.rest ≡ [] → IsNone p
            × (self.new
            ≡ record self.old { line_spans = last_lines self.old self.old.line_spans })) }
        ensures keeps { OnOk result (Keeps self.old.errors self.new.errors) }

        // After a single opening brace the piece is the argument of the one cut of the rest,
        // whether a brace closes it or not.
        ensures cut { IfOk result (λ p. (a : FieldText) (r : Text)
            → IsPart self.old.rest (opened_part self.old.mode a) r
            → option_map seen_piece p
            ≡ Some (piece_in self.old.world
            (NextArgument (argument self.old.next (cut_of self.old.mode a r))))) }

        // Apart from their spans, the piece and the errors do not depend on the world.
        ensures worlds { IfOk result
            (λ p. (option_map bare_piece (option_map seen_piece p)
            ≡ option_map bare_piece (next_call self.old).piece)
            × (map bare_message self.new.errors
            ≡ add_errors (map bare_message self.old.errors)
            (map bare_fault (next_call self.old).faults))) }

        // So a parser in another world that agrees with this one returns the same piece apart from
        // its spans, and they agree again after the call.
        ensures agrees { IfOk result (λ p. (other : State) → Agree self.old other
            → (option_map bare_piece (option_map seen_piece p)
            ≡ option_map bare_piece (next_call other).piece)
            × Agree self.new (state_after other (next_call other))) }

        // With a source literal, the part of the snippet in each span, with its escapes decoded, is
        // the characters that the span was read from. And each span is a byte range of the snippet.
        ensures reads_back { (style : Option ℕ) (snippet : Text) (appended : Bool)
            → ComesFrom self.old style snippet appended
            → AllSpans (λ s. ReadsBack self.old.input style snippet appended s
            (place_of self.old.world s)) (next_call self.old) }
        ensures inside { (style : Option ℕ) (snippet : Text) (appended : Bool)
            → ComesFrom self.old style snippet appended
            → AllSpans (λ s. IsInside snippet (place_of self.old.world s)) (next_call self.old) }
        ensures lies_inside { OnOk result ((style : Option ℕ) (snippet : Text) (appended : Bool)
            → ComesFrom self.old style snippet appended
            → LiesInside snippet appended self.old → LiesInside snippet appended self.new) }

        // With a source literal the new lines are those of the input that was read as text, and a
        // placeholder that a brace closed gets its place. Without one there is no line and no
        // place.
        ensures lines { OnOk result (self.old.rest ≢ [] → self.old.world.has_source ≡ true
            → (lines : List Place)
            × (self.new.line_spans ≡ self.old.line_spans ++ lines)
            × IsLines self.old.line_start
            (texts_in self.old.world (next_call self.old).texts) lines self.new.line_start) }
        ensures places { OnOk result (self.old.world.has_source ≡ true
            → self.new.arg_places ≡ self.old.arg_places
            ++ place_list (option_map (place_of self.old.world) (next_call self.old).closes)) }
        ensures sourceless { OnOk result (self.old.world.has_source ≡ false
            → (self.new.arg_places ≡ self.old.arg_places)
            × (self.new.line_spans ≡ self.old.line_spans)) }

        // Before the end a call reads at least one character. No call uses more argument indices
        // than it reads characters, or leaves more characters than before.
        ensures progress { OnOk result (self.old.rest ≢ [] → length self.new.rest
            < length self.old.rest) }
        ensures numbers { OnOk result (self.new.next + length self.new.rest
            ≤ self.old.next + length self.old.rest) }
        ensures short { length self.new.rest ≤ length self.old.rest }

        // After any calls the parser took few steps: at most two for each character of the input.
        ensures few { AreFew self.new.input self.new.rest self.new.rewinds }
    {
        self.reads_its_input();
        self.step()
    }

    /// Returns the next piece as [`Parser::next`] does, but reads a placeholder into `argument`
    /// instead of allocating one. An error of the call that is not counted in `front_errors` comes
    /// after all earlier ones.
    ///
    /// Returns `Err` if an allocation fails, and the parser is then unchanged. A call allocates
    /// only to keep an error, the place of a placeholder or a line; any other call always returns
    /// `Ok`. The value of `argument` has a meaning only if the call returns a placeholder.
    #[inline(always)]
    pub fn next_into(
        &mut self,
        argument: &mut Argument<'input>,
    ) -> Result<NextPiece<'input>, AllocError>
        ensures piece { IfOk result (λ x. option_map (seen_taken argument.new) x.piece
            ≡ option_map (piece_in self.old.world) (next_call self.old).piece) }
        ensures front_count { IfOk result (λ x. x.front_errors
            ≡ length (filter is_front (next_call self.old).faults)) }
        ensures state { OnOk result (self.new ≡ state_after self.old (next_call self.old)) }
        ensures err { OnErr result (IsPutBack self.old self.new) }
        ensures spare { AddsNothing self.old (next_call self.old) → IsOk result }
        ensures few { AreFew self.new.input self.new.rest self.new.rewinds }
    {
        self.steps_are_few();
        // (before any branch, so that the compiler writes it once)
        let start = self.reader.call_start();
        if self.reader.is_at_end() {
            self.end_line()?;
            return Ok(NextPiece {
                piece: None,
                front_errors: 0,
            });
        }
        if let Ok(piece) = self.reader.piece_into(self.mode, argument) {
            if let Ok(front_errors) = self.lists.take_over(self.alloc, &mut self.reader) {
                self.steps_are_few();
                return Ok(NextPiece {
                    piece,
                    front_errors,
                });
            }
        }
        self.reader.rewind(self.alloc, start);
        Err(AllocError)
    }

    /// Returns the next character with its place in the source (a byte range) and its byte offset
    /// in the input, as `(place, offset, character)`, or `None` at the end of the input. Does not
    /// advance the parser.
    #[inline(always)]
    pub fn peek(&self) -> Option<(Range<usize>, usize, char)>
        ensures { option_map (λ x. (pair x.0, x.1, x.2)) result
            ≡ first_of self.now.world self.now.input self.now.rest }
    {
        self.reader.cursor.peek_place()
    }

    /// Returns the character after the next one with its place in the source (a byte range) and its
    /// byte offset in the input, as `(place, offset, character)`, or `None` if there is none. Does
    /// not advance the parser.
    #[inline(always)]
    pub fn peek_ahead(&self) -> Option<(Range<usize>, usize, char)>
        ensures { option_map (λ x. (pair x.0, x.1, x.2)) result
            ≡ first_of self.now.world self.now.input (after_first self.now.rest) }
    {
        self.reader.cursor.peek_place_ahead()
    }

    /// Returns whether the whole input was read. Unlike [`Parser::peek`], it looks at no place in
    /// the source, and so takes the same time wherever the parser is.
    #[inline(always)]
    pub fn is_at_end(&self) -> bool
        ensures { result ≡ is_nil self.now.rest }
    {
        self.reader.cursor.peek().is_none()
    }

    /// Returns the number of bytes of the input that were read: the byte offset of the next
    /// character, or the length of the input at its end.
    #[inline(always)]
    pub fn position(&self) -> usize
        ensures { result ≡ byte_length self.now.input - byte_length self.now.rest }
    {
        self.reader.cursor.position()
    }

    /// Returns the errors of all calls so far, in order. An error for a raw identifier, for a flag
    /// after the type `?`, or for a likely mistake where a closing brace is missing comes before
    /// all earlier errors; any other comes after them.
    pub fn errors(&self) -> &[ParseError]
        ensures { map seen_error result.now ≡ self.now.errors }
    {
        self.lists.errors.as_slice()
    }

    /// Returns the places of the placeholders that a brace closed, in order, each from its opening
    /// to its closing brace, as byte ranges of the snippet. A brace that is found after a mistake,
    /// as in `{a.b}`, closes none. If the snippet is not the source literal of the input, there are
    /// none.
    pub fn arg_places(&self) -> &[Range<usize>]
        ensures { map pair result.now ≡ self.now.arg_places }
    {
        self.lists.arg_places.as_slice()
    }

    /// Returns the lines of the input that was read as text, in order, as byte ranges of the
    /// snippet, each without its newline and without the white space at its very start. A call at
    /// the end of the input adds the last line. If an appended newline was read as text, the last
    /// line ends before it starts. If the snippet is not the source literal of the input, there are
    /// no lines.
    pub fn line_spans(&self) -> &[Range<usize>]
        ensures { map pair result.now ≡ self.now.line_spans }
    {
        self.lists.line_spans.as_slice()
    }

    /// Returns whether the snippet is the source literal of the input, by the rule of
    /// `literal::is_source_literal`.
    pub fn is_source_literal(&self) -> bool
        ensures { result ≡ self.now.world.has_source }
    {
        self.reader.cursor.is_source_literal()
    }

    /// Moves the errors of all calls so far out of the parser and returns them, in order. The
    /// parser then has none. Does not allocate.
    pub fn take_errors(&mut self) -> Vec<ParseError>
        ensures errors { map seen_error result.items ≡ self.old.errors }
        ensures state { self.new ≡ record self.old { errors = [] } }
        ensures agrees { (other : State) → Agree self.old other
            → Agree self.new (record other { errors = [] }) }
    {
        self.lists.errors.take(self.alloc)
    }

    /// Returns the index that the next implicit argument takes. It and the number of characters
    /// that are left add up to less than 2^64, and no more characters are left than the input has.
    pub fn curarg(&self) -> usize
        ensures value { result ≡ self.now.next }
        ensures fits { result + length self.now.rest < 2 ^ 64 }
        ensures short { length self.now.rest ≤ length self.now.input }
    {
        self.reads_its_input();
        self.reader.curarg
    }

    /// Sets the index that the next implicit argument takes. It and the number of characters that
    /// are left must add up to less than 2^64; they do if it and the byte length of the input do.
    pub fn set_curarg(&mut self, number: usize)
        requires { number + length self.old.rest < 2 ^ 64 }
        ensures state { self.new ≡ record self.old { next = number } }
        ensures agrees { (other : State) → Agree self.old other
            → Agree self.new (record other { next = number }) }
    {
        self.reader.curarg = number;
    }
}
