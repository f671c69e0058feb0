//! The state of a parser during one call: its cursor, the index of the next implicit argument, and
//! the faults, lines and place that the call has found so far.

ghost use Rattle.std.specs.Prelude.{◌≡◌, ◌≢◌, ◌++◌, ◌+◌, ◌<◌, ◌^◌, ◌∷◌, [], ◌↔◌};
ghost use Rattle.std.specs.Prelude.{IfOk, IsOk, IsTrue, None, OnErr, OnOk, Some, chars, length};
ghost use Rattle.std.specs.Prelude.{map, option_map, take};
ghost use Rattle.rustc_parse_format.specs.Characters.{rest_after, after_first, first, front};
ghost use Rattle.rustc_parse_format.specs.Characters.{is_in_line, is_no_brace, with_first};
ghost use Rattle.rustc_parse_format.specs.CallStates.{HasFoundNothing, IsCounted, IsInOneLine};
ghost use Rattle.rustc_parse_format.specs.CallStates.{IsPastIndent, back_at, call_state};
ghost use Rattle.rustc_parse_format.specs.CallStates.{passed_next};
ghost use Rattle.rustc_parse_format.specs.CallStates.{read_run, unread_at};
ghost use Rattle.rustc_parse_format.specs.Marks.{Start};
ghost use Rattle.rustc_parse_format.specs.Reads.{Reaches};
ghost use Rattle.rustc_parse_format.specs.Views.{pair};
ghost use Rattle.rustc_parse_format.specs.FaultViews.{seen_fault};
ghost use Rattle.rustc_parse_format.specs.SourceViews.{IsAnchored};
ghost use Rattle.rustc_parse_format.specs.World.{number_of};

use crate::characters::Class;
use crate::cursor::{Checkpoint, Cursor};
use crate::faults::{Fault, Faults};
use std::alloc::{AllocError, Global};
use std::marker::Model;
use std::ops::Range;

/// The state of a parser during one call. If one of its functions returns `Err`, an allocation
/// failed, and the state is to be restored with `rewind`.
#[derive(Drop)]
pub struct Reader<'input> {
    /// The position in the input.
    pub cursor: Cursor<'input>,
    /// The index that the next implicit argument gets.
    pub curarg: usize,
    /// The faults found in this call.
    pub faults: Faults<'input>,
    /// The byte offset in the source at which the current line starts.
    pub line_start: usize,
    /// The byte ranges of the lines that ended in this call.
    pub lines: Vec<Range<usize>>,
    /// The byte range of the placeholder that this call closed, if any.
    pub closed_place: Option<Range<usize>>,
}

impl<'input> Model for Reader<'input> {
    ghost use Rattle.std.specs.Prelude.{map, option_map};
    ghost use Rattle.rustc_parse_format.specs.CallStates.{CallState, call_state};
    ghost use Rattle.rustc_parse_format.specs.Views.{pair};

    ghost Value = { CallState };

    ghost view = { λ r. record (call_state r.cursor r.curarg r.line_start) {
      faults = r.faults;
      lines = map pair r.lines.items;
      closed_place = option_map pair r.closed_place;
    } };
}

/// The state of a reader before a call, for `Reader::rewind`.
#[derive(Drop)]
pub struct CallStart<'input> {
    at: Checkpoint<'input>,
    curarg: usize,
    line_start: usize,
}

impl<'input> Reader<'input> {
    /// Returns a reader at `cursor`, whose next implicit argument has the index 0 and whose current
    /// line starts at the byte offset `line_start`. Does not allocate.
    pub fn new(alloc: Global, cursor: Cursor<'input>, line_start: usize) -> Reader<'input>
        ensures { result ≡ call_state cursor.entry 0 line_start }
    {
        Reader {
            cursor,
            curarg: 0,
            faults: Faults::new(alloc),
            line_start,
            lines: Vec::new(alloc),
            closed_place: None,
        }
    }

    /// Returns the state before a call, for `rewind`.
    pub fn call_start(&self) -> CallStart<'input>
        requires { HasFoundNothing self.now }
        ensures at { self.now ≡ call_state (unread_at self.now.source result.at.rest.text.now
            (back_at (chars self.now.source.input.now) (chars result.at.rest.text.now)
            result.at.tally) self.now.undo_count) result.curarg result.line_start }
        ensures counted { IsCounted (chars self.now.source.input.now)
            (chars result.at.rest.text.now) result.at.tally }
        ensures anchored { IsAnchored self.now.source result.at.rest.text.now result.at.anchor }
    {
        CallStart {
            at: self.cursor.checkpoint(),
            curarg: self.curarg,
            line_start: self.line_start,
        }
    }

    /// Restores the state from before a call, and discards all that the call has found. Does not
    /// allocate.
    pub fn rewind(&mut self, alloc: Global, start: CallStart<'input>)
        requires anchored { IsAnchored self.old.source start.at.rest.text.now start.at.anchor }
        requires counted { IsCounted (chars self.old.source.input.now)
            (chars start.at.rest.text.now) start.at.tally }
        ensures { self.new ≡ call_state (unread_at self.old.source start.entry.at.rest.text.now
            (back_at (chars self.old.source.input.now)
            (chars start.entry.at.rest.text.now) start.entry.at.tally) (self.old.undo_count + 1))
            start.entry.curarg start.entry.line_start }
    {
        self.cursor.undo(start.at);
        self.curarg = start.curarg;
        self.faults = Faults::new(alloc);
        self.line_start = start.line_start;
        self.lines = Vec::new(alloc);
        self.closed_place = None;
    }

    /// Adds a fault. Returns `Err` if an allocation fails; the first fault of a call needs none.
    pub fn note(&mut self, fault: Fault<'input>) -> Result<(), AllocError>
        ensures state { OnOk result (self.new
            ≡ record self.old { faults = self.old.faults ++ seen_fault fault.entry ∷ [] }) }
        ensures source { self.new.source ≡ self.old.source }
        ensures spare { self.old.faults ≡ [] → IsOk result }
    {
        self.faults.push(fault)?;
        Ok(())
    }

    /// Moves the faults of this call to the end of `faults`. Returns `Err` if an allocation fails:
    /// some of them may then be at the end of `faults`.
    pub fn move_faults(&mut self, faults: &mut Vec<Fault<'input>>) -> Result<(), AllocError>
        ensures moved { OnOk result (map seen_fault faults.new.items
            ≡ map seen_fault faults.old.items ++ self.old.faults) }
        ensures state { OnOk result (self.new ≡ record self.old { faults = [] }) }
        ensures source { self.new.source ≡ self.old.source }
        ensures kept { take (length faults.old.items) faults.new.items ≡ faults.old.items }
        ensures spare { self.old.faults ≡ [] → IsOk result }
    {
        self.faults.move_to(faults)
    }

    /// Returns whether no input is left.
    pub fn is_at_end(&self) -> bool
        ensures { IsTrue result ↔ (self.now.rest ≡ []) }
    {
        self.cursor.peek().is_none()
    }

    /// Returns whether this call has found no fault and no end of a line, and has closed no
    /// placeholder.
    pub fn has_found_nothing(&self) -> bool
        ensures { IsTrue result ↔ HasFoundNothing self.now }
    {
        self.faults.is_empty() && self.lines.is_empty() && self.closed_place.is_none()
    }

    /// Returns the index of the next implicit argument, and increments it.
    pub fn take_curarg(&mut self) -> usize
        requires { self.old.next + 1 < 2 ^ 64 }
        ensures value { result ≡ self.old.next }
        ensures state { self.new ≡ record self.old { next = self.old.next + 1 } }
    {
        let number = self.curarg;
        self.curarg = number + 1;
        number
    }

    /// Returns the byte range of the current line, up to the next character.
    pub fn line(&self) -> Range<usize>
        ensures { pair result
            ≡ (self.now.line_start, number_of self.now.world (Start (length self.now.rest))) }
    {
        self.line_start..self.cursor.start()
    }

    /// Reads the longest prefix without braces, which may be empty. Returns `Err` if an allocation
    /// fails; allocates only for lines that end in the prefix.
    pub fn string(&mut self) -> Result<&'input str, AllocError>
        ensures value { IfOk result (λ t. chars t.now ≡ front is_no_brace self.old.rest) }
        ensures reads { Reaches self.old result self.new (read_run self.old)
            (IsInOneLine self.old) }
    {
        let from = self.cursor.checkpoint();
        self.skip_string()?;
        Ok(self.cursor.text_since(&from))
    }

    /// Reads the next character, and the longest prefix without braces after it, which alone counts
    /// as text for the lines. Returns `Err` if an allocation fails; allocates only for lines that
    /// end in the prefix.
    pub fn string_past_brace(&mut self) -> Result<&'input str, AllocError>
        ensures value { IfOk result (λ t. chars t.now
            ≡ with_first self.old.rest (front is_no_brace (after_first self.old.rest))) }
        ensures reads { let s = record self.old { rest = after_first self.old.rest } in
            Reaches self.old result self.new (read_run s) (IsInOneLine s) }
    {
        let from = self.cursor.checkpoint();
        self.cursor.skip_char();
        self.skip_string()?;
        Ok(self.cursor.text_since(&from))
    }

    /// Moves past the longest prefix without braces. In a source literal it does so line by line,
    /// and records the lines that end. Returns `Err` if an allocation fails.
    #[inline(never)]
    fn skip_string(&mut self) -> Result<(), AllocError>
        ensures reads { Reaches self.old result self.new (read_run self.old)
            (IsInOneLine self.old) }
    {
        if self.cursor.is_source_literal() {
            return self.skip_lines();
        }
        self.cursor.skip_while(Class::Text);
        Ok(())
    }

    /// Moves past the longest prefix without braces of a source literal, line by line, and records
    /// the lines that end. Returns `Err` if an allocation fails.
    #[inline(never)]
    fn skip_lines(&mut self) -> Result<(), AllocError>
        requires { IsTrue self.old.world.has_source }
        ensures reads { Reaches self.old result self.new (read_run self.old)
            (IsInOneLine self.old) }
    {
        while let Some(c) = self.cursor.peek() {
            if !Class::Text.passes(c) {
                // Whoever looks at this character need not read the text before it again.
                self.cursor.move_anchor();
                break;
            }
            if c == '\n' {
                self.consume_newline()?;
            } else if self.is_past_indent(c) {
                self.cursor.skip_while(Class::Line);
            } else {
                self.skip_in_line(c);
            }
        }
        Ok(())
    }

    /// Returns whether the next character `c` is past the indentation of the current line. Moves
    /// only the anchor, which no contract shows.
    #[inline(always)]
    fn is_past_indent(&mut self, c: char) -> bool
        ensures state { self.new ≡ self.old }
        ensures past { IsTrue result → first self.old.rest ≡ Some c
            → IsPastIndent c self.old.line_start self.old.world self.old.rest }
    {
        self.cursor.move_anchor();
        self.cursor.is_past_indent(c, self.line_start)
    }

    /// Moves past the newline that comes next in a source literal, and records the line that it
    /// ends. Returns `Err` if an allocation fails.
    fn consume_newline(&mut self) -> Result<(), AllocError>
        ensures state { OnOk result (self.new ≡ passed_next 10 self.old) }
        ensures err { OnErr result (self.new.source ≡ self.old.source) }
    {
        let newline = self.cursor.consume_place();
        self.lines.push(self.line_start..newline.start)?;
        self.line_start = newline.end;
        Ok(())
    }

    /// Moves past the next character of a source literal, which is not a newline. White space at
    /// the start of the line is left out of the line.
    fn skip_in_line(&mut self, c: char)
        requires { c ≢ 10 }
        ensures state { self.new ≡ passed_next c self.old }
    {
        let place = self.cursor.consume_place();
        if place.start == self.line_start && c.is_whitespace() {
            self.line_start = place.end;
        }
    }
}
