//! Reads a placeholder after its opening brace: its position and its specification.

ghost use Rattle.std.specs.Prelude.{◌≡◌};
ghost use Rattle.rustc_parse_format.specs.Views.{seen_position, seen_spec};
ghost use Rattle.rustc_parse_format.specs.Types.{Implicit, default_spec};

use crate::faults::Fault;
use crate::reader::Reader;
use crate::types::{Argument, ParseMode, Position, wants_names};
use std::alloc::AllocError;
use std::ops::Range;

impl<'input> Reader<'input> {
    ghost use Rattle.std.specs.Prelude.{[], ◌++◌, ◌+◌, ◌<◌, ◌^◌, ◌≡◌, chars, IfOk, if◌then◌else◌};
    ghost use Rattle.std.specs.Prelude.{is_some, IsOk, IsTrue, length, OnErr, OnOk, option_map};
    ghost use Rattle.std.specs.Prelude.{Some, suc};
    ghost use Rattle.std.specs.Prelude.{true, unwrap_or};
    ghost use Rattle.rustc_parse_format.specs.Meaning.{spec_texts, argument};
    ghost use Rattle.rustc_parse_format.specs.Characters.{begins_prefix, after_white};
    ghost use Rattle.rustc_parse_format.specs.Marks.{up_to};
    ghost use Rattle.rustc_parse_format.specs.PartFaults.{cut_faults, name_faults, position_faults};
    ghost use Rattle.rustc_parse_format.specs.Placeholder.{cut, position};
    ghost use Rattle.rustc_parse_format.specs.Views.{pair, seen_argument, seen_mode, seen_position};
    ghost use Rattle.rustc_parse_format.specs.Views.{seen_spec};
    ghost use Rattle.rustc_parse_format.specs.CallStates.{FindsNothing, read_texts, read_to};
    ghost use Rattle.rustc_parse_format.specs.CallStates.{read_tries};
    ghost use Rattle.rustc_parse_format.specs.Reads.{Reaches, ReadsTo};
    ghost use Rattle.rustc_parse_format.specs.Syntax.{NoPosition, PositionText};
    ghost use Rattle.rustc_parse_format.specs.Tries.{spec_tries};
    ghost use Rattle.rustc_parse_format.specs.Types.{Implicit, Named, default_spec, map_argument};
    ghost use Rattle.rustc_parse_format.specs.Values.{given_position, number_after_field};
    ghost use Rattle.rustc_parse_format.specs.Values.{number_after_position, position_of};
    ghost use Rattle.rustc_parse_format.specs.World.{faults_in, place_of};

    /// Reads a word that begins with `r#`, and returns it without that prefix; such a raw
    /// identifier is a fault. If no word comes after the `r#`, reads and returns the `r` alone.
    /// Returns `Err` if an allocation fails.
    #[tactic(auto, using(crate::proofs::Readers::RawWords::raw_words))]
    fn prefixed_word(&mut self) -> Result<&'input str, AllocError>
        requires { begins_prefix self.old.rest ≡ true }
        ensures value { IfOk result (λ w. Some (Named (chars w.now))
            ≡ given_position (position self.old.rest).0) }
        ensures reads { let p = position self.old.rest in ReadsTo self.old result self.new p.1
            self.old.next (position_faults self.old.rest p.0) [] }
    {
        let from = self.cursor.start();
        let front = self.cursor.checkpoint();
        self.cursor.skip_char();
        if !self.cursor.is_word_ahead() {
            return Ok(self.cursor.text_since(&front));
        }
        let prefix = from..self.cursor.stop();
        self.cursor.skip_char();
        let word = self.word()?;
        let span = from..self.cursor.start();
        self.note(Fault::RawIdentifier(span, prefix))?;
        Ok(word)
    }

    /// Reads the position, an integer or else a word, which may be raw, into `slot`, which is still
    /// implicit. Reads nothing if there is neither. Returns `Err` if an allocation fails.
    #[tactic(auto, using(crate::proofs::Readers::TriedParts::tried_parts, crate::proofs::Readers::Parts::read_nothing, crate::proofs::Readers::RawWords::no_raw_words))]
    #[inline(always)]
    fn position(&mut self, slot: &mut Position<'input>) -> Result<(), AllocError>
        requires { seen_position slot.old ≡ Implicit 0 }
        ensures value { OnOk result
            (seen_position slot.new ≡ position_of 0 (position self.old.rest).0) }
        ensures reads { let p = position self.old.rest in ReadsTo self.old result self.new p.1
            self.old.next (position_faults self.old.rest p.0) [] }
    {
        if self.cursor.is_digit_next() {
            let number = self.integer()?;
            *slot = Position::ArgumentIs(usize::from(number));
        } else if self.cursor.is_raw_prefix_next() {
            let name = self.prefixed_word()?;
            *slot = Position::ArgumentNamed(name);
        } else if self.cursor.is_word_next() {
            let name = self.word()?;
            *slot = Position::ArgumentNamed(name);
        }
        Ok(())
    }

    /// Returns whether the next character is a `}` or a `:`, so that there is no position.
    #[tactic(auto, using(crate::proofs::Readers::RawWords::no_positions))]
    fn has_no_position(&self) -> bool
        ensures position { IsTrue result → position self.now.rest ≡ (NoPosition, self.now.rest) }
        ensures white { IsTrue result → after_white self.now.rest ≡ self.now.rest }
    {
        matches!(self.cursor.peek(), Some('}' | ':'))
    }

    /// Reads the position and the white space after it into `argument`, whose position is still
    /// implicit, and sets their byte range. Returns `Err` if an allocation fails. In a mode that
    /// allows only names, anything but a name is a fault.
    #[inline(always)]
    fn spaced_position(
        &mut self,
        mode: ParseMode,
        argument: &mut Argument<'input>,
    ) -> Result<(), AllocError>
        requires { seen_position argument.old.position ≡ Implicit 0 }
        ensures value { OnOk result
            (seen_position argument.new.position ≡ position_of 0 (position self.old.rest).0) }
        ensures span { (let p = position self.old.rest in OnOk result
            (pair argument.new.position_span
            ≡ place_of self.old.world (up_to self.old.rest (after_white p.1)))) }
        ensures format { argument.new.format ≡ argument.old.format }
        ensures state { OnOk result (self.new ≡ (let p = position self.old.rest in
            let fs = position_faults self.old.rest p.0 in
            record (read_to self.old (after_white p.1) self.old.next fs) {
              faults = (self.old.faults ++ faults_in self.old.world fs) ++ name_faults
                  (seen_mode mode) (given_position p.0) (pair argument.new.position_span);
            })) }
        ensures err { OnErr result (self.new.source ≡ self.old.source) }
        ensures spare { (let p = position self.old.rest in
            let span = up_to self.old.rest (after_white p.1) in
            position_faults self.old.rest p.0 ≡ []
            → name_faults (seen_mode mode) (given_position p.0) span ≡ [] → IsOk result) }
    {
        let start = self.cursor.start();
        let mut end = start;
        if !self.has_no_position() {
            self.position(&mut argument.position)?;
            self.cursor.ws();
            end = self.cursor.start();
        }
        argument.position_span = start..end;
        if wants_names(mode) && !matches!(argument.position, Position::ArgumentNamed(_)) {
            self.note(Fault::Unnamed(start..end))?;
        }
        Ok(())
    }

    /// Gives an implicit position the index of the next implicit argument.
    fn resolve(&mut self, position: &mut Position<'input>)
        requires { self.old.next + 1 < 2 ^ 64 }
        ensures value { (p : PositionText) → seen_position position.old ≡ position_of 0 p
            → seen_position position.new ≡ position_of self.old.next p }
        ensures state { (p : PositionText) → seen_position position.old ≡ position_of 0 p
            → self.new ≡ record self.old { next = number_after_position self.old.next p } }
    {
        if let Position::ArgumentImplicitlyIs(_) = position {
            *position = Position::ArgumentImplicitlyIs(self.take_curarg());
        }
    }

    /// Reads a position, white space and a specification into `slot`, whose position is still
    /// implicit and whose format is the default. Returns `Err` if an allocation fails.
    #[tactic(auto, using(crate::proofs::Readers::Steps::part_le), unfolding(crate::specs::Placeholder::cut, crate::specs::Meaning::argument, crate::specs::Values::number_after_field, crate::specs::PartFaults::cut_faults))]
    #[inline(always)]
    pub fn argument(
        &mut self,
        mode: ParseMode,
        slot: &mut Argument<'input>,
    ) -> Result<(), AllocError>
        requires implicit { seen_position slot.old.position ≡ Implicit 0 }
        requires blank { seen_spec slot.old.format ≡ default_spec }
        requires numbers { self.old.next + 1 + length self.old.rest < 2 ^ 64 }
        ensures value { (let a = cut (seen_mode mode) self.old.rest in
            OnOk result (seen_argument slot.new
            ≡ map_argument (place_of self.old.world) (argument self.old.next a))) }
        ensures reads { let a = cut (seen_mode mode) self.old.rest in
            let fs = cut_faults (seen_mode mode) a in
            let reader = read_to self.old a.rest (number_after_field self.old.next a.field) fs in
            let texts = spec_texts a.field.spec a.rest in
            Reaches self.old result self.new
            (read_texts (read_tries reader (spec_tries a.field.spec a.rest)) texts)
            (FindsNothing self.old fs texts) }
    {
        self.spaced_position(mode, slot)?;
        self.specification(mode, &mut slot.format)?;
        self.resolve(&mut slot.position);
        Ok(())
    }
}
