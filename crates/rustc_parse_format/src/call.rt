//! One call of the parser: it reads a placeholder or a text, and adds faults as they are found.

use crate::faults::Fault;
use crate::laws::default_of_spec;
use crate::reader::Reader;
use crate::types::{Argument, ParseMode, Piece, PieceKind, Position};
use std::alloc::{AllocError, Global};
use std::ops::Range;

impl<'input> Reader<'input> {
    ghost use Rattle.std.specs.Prelude.{[], ◌++◌, ◌+◌, ◌<◌, ◌^◌, ◌∷◌, ◌≡◌, IfOk, chars};
    ghost use Rattle.std.specs.Prelude.{if◌then◌else◌, IsOk, length, OnErr, OnOk, option_map, Some};
    ghost use Rattle.std.specs.Prelude.{false, true};
    ghost use Rattle.rustc_parse_format.specs.Call.{call};
    ghost use Rattle.rustc_parse_format.specs.Characters.{Text, begins_with, after_first, first};
    ghost use Rattle.rustc_parse_format.specs.Faults.{brace_fill, no_brace};
    ghost use Rattle.rustc_parse_format.specs.Marks.{End, Span, over_first, up_to};
    ghost use Rattle.rustc_parse_format.specs.Reads.{Reaches};
    ghost use Rattle.rustc_parse_format.specs.Views.{pair, seen_piece, seen_argument, seen_mode};
    ghost use Rattle.rustc_parse_format.specs.Views.{seen_position, seen_spec, seen_taken};
    ghost use Rattle.rustc_parse_format.specs.CallStates.{FindsNothing, after_closing};
    ghost use Rattle.rustc_parse_format.specs.CallStates.{opens_placeholder, read_call};
    ghost use Rattle.rustc_parse_format.specs.Types.{Argument as ArgumentValue, Implicit, Lit};
    ghost use Rattle.rustc_parse_format.specs.Types.{Mode, NextArgument, default_spec};
    ghost use Rattle.rustc_parse_format.specs.Types.{map_argument};
    ghost use Rattle.rustc_parse_format.specs.World.{number_of, piece_in, place_of};

    /// Adds the fault that no brace closes `argument`, whose opening brace has the byte range
    /// `opening`. Returns `Err` if an allocation fails.
    fn missing_closing_brace(
        &mut self,
        argument: &Argument<'input>,
        opening: Range<usize>,
    ) -> Result<(), AllocError>
        ensures state { (let f = seen_spec argument.now.format in
            OnOk result (self.new ≡ record self.old {
              faults = self.old.faults ++ no_brace (brace_fill f.fill f.fill_span)
                  (first self.old.rest)
                  (place_of self.old.world (up_to self.old.rest self.old.rest)) (pair opening)
                  ∷ [];
            })) }
        ensures err { OnErr result (self.new.source ≡ self.old.source) }
    {
        let (next, at) = (self.cursor.peek(), self.cursor.start());
        match (&argument.format.fill, &argument.format.fill_span) {
            (Some('}'), Some(fill)) => {
                self.note(Fault::FillBrace(next, at..at, fill.start..fill.end))
            }
            _ => self.note(Fault::MissingBrace(next, at..at, opening)),
        }
    }

    /// Moves past the closing brace of the placeholder that starts at the byte offset `start`. In a
    /// source literal, records the byte range of the placeholder.
    fn consume_closing_brace(&mut self, start: usize)
        ensures state { self.new ≡ record self.old {
          rest = after_first self.old.rest;
          closed_place = if self.old.world.has_source
              then Some (start, number_of self.old.world (End (length self.old.rest)))
              else self.old.closed_place;
        } }
    {
        if self.cursor.is_source_literal() {
            let brace = self.cursor.consume_place();
            self.closed_place = Some(start..brace.end);
        } else {
            self.cursor.skip_char();
        }
    }

    /// Moves past the closing brace. If it is missing, adds that fault and recovers. The opening
    /// brace has the byte range `opening`. Returns `Err` if an allocation fails.
    #[tactic(auto, using(crate::proofs::Readers::Steps::part_le))]
    fn closing_brace(
        &mut self,
        mode: ParseMode,
        argument: &Argument<'input>,
        opening: Range<usize>,
    ) -> Result<(), AllocError>
        requires numbers { self.old.next + length self.old.rest < 2 ^ 64 }
        ensures state { OnOk result ((o : Text) (a : ArgumentValue Span)
            → pair opening ≡ place_of self.old.world (over_first o)
            → seen_argument argument.now ≡ map_argument (place_of self.old.world) a
            → self.new ≡ after_closing (seen_mode mode) o a self.old) }
        ensures source { self.new.source ≡ self.old.source }
        ensures spare { begins_with 125 self.old.rest ≡ true → IsOk result }
    {
        if self.cursor.is_next('}') {
            self.consume_closing_brace(opening.start);
            return Ok(());
        }
        self.missing_closing_brace(argument, opening.start..opening.end)?;
        self.recover(mode, argument, opening)
    }

    /// Reads a placeholder, with its opening brace, into `slot`, whose position is still
    /// implicit and whose format is the default. Returns `Err` if an allocation fails.
    #[tactic(auto, using(crate::proofs::Readers::Steps::part_le, crate::proofs::Readers::Placeholders::placeholder_given))]
    pub fn placeholder(
        &mut self,
        mode: ParseMode,
        slot: &mut Argument<'input>,
    ) -> Result<(), AllocError>
        requires implicit { seen_position slot.old.position ≡ Implicit 0 }
        requires blank { seen_spec slot.old.format ≡ default_spec }
        requires opens { opens_placeholder self.old.rest ≡ true }
        requires numbers { self.old.next + length self.old.rest < 2 ^ 64 }
        ensures value { (let k = call (seen_mode mode) self.old.next self.old.rest in
            OnOk result (Some (NextArgument (seen_argument slot.new))
            ≡ option_map (piece_in self.old.world) k.piece)) }
        ensures reads { let k = call (seen_mode mode) self.old.next self.old.rest in
            Reaches self.old result self.new (read_call self.old k)
            (FindsNothing self.old k.faults k.texts) }
    {
        let opening = self.cursor.consume_place();
        self.argument(mode, slot)?;
        self.cursor.ws();
        self.closing_brace(mode, slot, opening)?;
        Ok(())
    }

    /// Reads a text, where no placeholder begins. Returns `None` at the end of the input and after
    /// a closing brace that closes nothing, which is a fault. Returns `Err` if an allocation fails.
    #[tactic(auto, using(crate::proofs::Readers::Steps::part_le), unfolding(crate::specs::Call::call))]
    pub fn text(&mut self) -> Result<Option<&'input str>, AllocError>
        requires bare { opens_placeholder self.old.rest ≡ false }
        ensures piece { IfOk result (λ p. (m : Mode) → option_map (λ t. Lit (chars t.now)) p
            ≡ option_map (piece_in self.old.world) (call m self.old.next self.old.rest).piece) }
        ensures state { OnOk result ((m : Mode)
            → self.new ≡ read_call self.old (call m self.old.next self.old.rest)) }
        ensures spare { (m : Mode) → (let k = call m self.old.next self.old.rest in
            FindsNothing self.old k.faults k.texts → IsOk result) }
        ensures source { self.new.source ≡ self.old.source }
    {
        let Some(c) = self.cursor.peek() else {
            return Ok(None);
        };
        if c != '{' && c != '}' {
            let text = self.string()?;
            return Ok(Some(text));
        }
        if c == '{' || self.cursor.is_ahead('}') {
            self.cursor.skip_char();
            let text = self.string_past_brace()?;
            return Ok(Some(text));
        }
        let span = self.cursor.consume_place();
        self.note(Fault::UnmatchedBrace(span))?;
        Ok(None)
    }

    /// Reads the next piece: a placeholder, whose argument is allocated first, or text. Returns
    /// `None` at the end of the input and after a closing brace that closes nothing. Returns `Err`
    /// if an allocation fails.
    #[inline(always)]
    pub fn piece(
        &mut self,
        alloc: Global,
        mode: ParseMode,
    ) -> Result<Option<Piece<'input>>, AllocError>
        requires numbers { self.old.next + length self.old.rest < 2 ^ 64 }
        ensures piece { IfOk result (λ p. option_map seen_piece p
            ≡ option_map (piece_in self.old.world)
            (call (seen_mode mode) self.old.next self.old.rest).piece) }
        ensures reads { let k = call (seen_mode mode) self.old.next self.old.rest in
            Reaches self.old result self.new (read_call self.old k)
            (FindsNothing self.old k.faults k.texts × (opens_placeholder self.old.rest ≡ false)) }
    {
        if self.cursor.opens_placeholder() {
            let mut argument = Box::new(alloc, Argument::default())?;
            self.placeholder(mode, &mut argument)?;
            return Ok(Some(Piece::NextArgument(argument)));
        }
        let text = self.text()?;
        match text {
            Some(text) => Ok(Some(Piece::Lit(text))),
            None => Ok(None),
        }
    }

    /// Reads the next piece, a placeholder into `argument`. Returns `None` at the end of the input
    /// and after a closing brace that closes nothing. Returns `Err` if an allocation fails.
    #[inline(always)]
    pub fn piece_into(
        &mut self,
        mode: ParseMode,
        argument: &mut Argument<'input>,
    ) -> Result<Option<PieceKind<'input>>, AllocError>
        requires numbers { self.old.next + length self.old.rest < 2 ^ 64 }
        ensures piece { IfOk result (λ p. option_map (seen_taken argument.new) p
            ≡ option_map (piece_in self.old.world)
            (call (seen_mode mode) self.old.next self.old.rest).piece) }
        ensures reads { let k = call (seen_mode mode) self.old.next self.old.rest in
            Reaches self.old result self.new (read_call self.old k)
            (FindsNothing self.old k.faults k.texts) }
    {
        if self.cursor.opens_placeholder() {
            argument.position = Position::ArgumentImplicitlyIs(0);
            argument.format = default_of_spec();
            self.placeholder(mode, argument)?;
            return Ok(Some(PieceKind::NextArgument));
        }
        let text = self.text()?;
        match text {
            Some(text) => Ok(Some(PieceKind::Lit(text))),
            None => Ok(None),
        }
    }
}
