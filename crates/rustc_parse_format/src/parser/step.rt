//! One call of a parser: it happens as a whole, or an allocation fails and the parser is unchanged.

use crate::lists::ends_with;
use crate::parser::Parser;
use crate::types::Piece;
use std::alloc::AllocError;

impl<'input> Parser<'input> {
    ghost use Rattle.std.specs.Prelude.{◌≡◌, [], true, false, Some, IfOk, IsOk, OnErr, OnOk};
    ghost use Rattle.std.specs.Prelude.{chars, length, option_map};
    ghost use Rattle.std.specs.List.{filter};
    ghost use Rattle.rustc_parse_format.specs.Faults.{is_front};
    ghost use Rattle.rustc_parse_format.specs.CallStates.{opens_placeholder};
    ghost use Rattle.rustc_parse_format.specs.Views.{seen_piece, seen_argument, seen_spec};
    ghost use Rattle.rustc_parse_format.specs.State.{AddsNothing, IsPutBack, NeedsNoMemory};
    ghost use Rattle.rustc_parse_format.specs.State.{state_after, last_lines, next_call};
    ghost use Rattle.rustc_parse_format.specs.Steps.{AreFew};
    ghost use Rattle.rustc_parse_format.specs.Types.{Lit, NextArgument, default_spec};
    ghost use Rattle.rustc_parse_format.specs.World.{piece_in};

    /// Makes one call, and returns its piece. Returns `Err` if an allocation fails, and the parser
    /// is then unchanged.
    pub(super) fn step(&mut self) -> Result<Option<Piece<'input>>, AllocError>
        ensures piece { IfOk result (λ p. option_map seen_piece p
            ≡ option_map (piece_in self.old.world) (next_call self.old).piece) }
        ensures state { OnOk result (self.new ≡ state_after self.old (next_call self.old)) }
        ensures err { OnErr result (IsPutBack self.old self.new) }
        ensures spare { NeedsNoMemory self.old (next_call self.old) → IsOk result }
        ensures few { AreFew self.new.input self.new.rest self.new.rewinds }
    {
        self.steps_are_few();
        if self.reader.is_at_end() {
            self.end_line()?;
            return Ok(None);
        }
        let start = self.reader.call_start();
        if let Ok(piece) = self.reader.piece(self.alloc, self.mode) {
            if let Ok(_) = self.lists.take_over(self.alloc, &mut self.reader) {
                self.steps_are_few();
                return Ok(piece);
            }
        }
        self.reader.rewind(self.alloc, start);
        Err(AllocError)
    }

    /// Adds the last line of a source literal at the end of the input, unless the list has it
    /// already. Returns `Err` if an allocation fails, and the parser is then unchanged.
    pub(super) fn end_line(&mut self) -> Result<(), AllocError>
        requires { self.old.rest ≡ [] }
        ensures state { OnOk result (self.new
            ≡ record self.old { line_spans = last_lines self.old self.old.line_spans }) }
        ensures err { OnErr result (self.new ≡ self.old) }
        ensures spare { last_lines self.old self.old.line_spans ≡ self.old.line_spans
            → IsOk result }
    {
        if self.is_source_literal() {
            let last = self.reader.line();
            if !ends_with(self.lists.line_spans.as_slice(), &last) {
                self.lists.line_spans.push(last)?;
            }
        }
        Ok(())
    }
}
