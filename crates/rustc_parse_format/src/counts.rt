//! Reads integers, words and counts, and the parts of a format specification that are made of them:
//! its width and its precision.

use crate::faults::Fault;
use crate::reader::Reader;
use crate::types::{Count, FormatSpec};
use std::alloc::AllocError;
use std::ops::Range;

impl<'input> Reader<'input> {
    ghost use Rattle.std.specs.Prelude.{[], ◌+◌, ◌<◌, ◌^◌, ◌≡◌, chars, false, IfOk, None, OnOk};
    ghost use Rattle.std.specs.Prelude.{option_map, true};
    ghost use Rattle.rustc_parse_format.specs.Characters.{after_digits, after_word, digits};
    ghost use Rattle.rustc_parse_format.specs.Characters.{first_passes, is_id_start, number, word};
    ghost use Rattle.rustc_parse_format.specs.Counts.{after_name, count, precision, width};
    ghost use Rattle.rustc_parse_format.specs.Meaning.{count_of, count_span, precision_of};
    ghost use Rattle.rustc_parse_format.specs.Meaning.{precision_span, width_of, width_span};
    ghost use Rattle.rustc_parse_format.specs.PartFaults.{argument_faults, number_faults};
    ghost use Rattle.rustc_parse_format.specs.PartFaults.{precision_faults, width_faults};
    ghost use Rattle.rustc_parse_format.specs.PartFaults.{word_faults};
    ghost use Rattle.rustc_parse_format.specs.Views.{pair, seen_count, seen_spec};
    ghost use Rattle.rustc_parse_format.specs.Reads.{ReadsTo};
    ghost use Rattle.rustc_parse_format.specs.Tries.{count_tries, precision_tries, width_tries};
    ghost use Rattle.rustc_parse_format.specs.Types.{Implied, map_count};
    ghost use Rattle.rustc_parse_format.specs.Values.{is_padded, number_after_precision};
    ghost use Rattle.rustc_parse_format.specs.Rewinds.{IsFurthest};
    ghost use Rattle.rustc_parse_format.specs.World.{place_of};

    /// Reads the ASCII digits at the cursor, if any, and returns their value modulo 65536. A value
    /// above 65535 is a fault, whose span includes the character after the digits. Returns `Err` if
    /// an allocation fails.
    #[inline(always)]
    pub fn integer(&mut self) -> Result<u16, AllocError>
        ensures value { IfOk result (λ n. n ≡ number (digits self.old.rest)) }
        ensures reads { ReadsTo self.old result self.new (after_digits self.old.rest) self.old.next
            (number_faults self.old.rest) [] }
    {
        let (number, overflow) = self.cursor.number();
        if let Some((digits, span)) = overflow {
            self.note(Fault::TooLarge(digits, span))?;
        }
        Ok(number)
    }

    /// Reads the word that begins at the cursor. The word `_` is a fault. Returns `Err` if an
    /// allocation fails.
    #[inline(always)]
    pub fn word(&mut self) -> Result<&'input str, AllocError>
        requires { first_passes is_id_start self.old.rest ≡ true }
        ensures value { IfOk result (λ w. chars w.now ≡ word self.old.rest) }
        ensures reads { ReadsTo self.old result self.new (after_word self.old.rest) self.old.next
            (word_faults self.old.rest) [] }
    {
        let (word, underscore) = self.cursor.word();
        if let Some(span) = underscore {
            self.note(Fault::Underscore(span))?;
        }
        Ok(word)
    }

    /// Reads a name and the `$` after it into `slot`, which is still `CountImplied`. If there is no
    /// `$`, goes back to the start of the word, but keeps its fault. Returns `Err` if an allocation
    /// fails.
    #[tactic(auto, using(crate::proofs::Readers::Steps::part_le))]
    #[inline(always)]
    fn named_count(&mut self, slot: &mut Count<'input>) -> Result<(), AllocError>
        requires blank { seen_count slot.old ≡ Implied }
        requires furthest { IsFurthest self.old.rest self.old.rewinds }
        requires word { first_passes is_id_start self.old.rest ≡ true }
        ensures value { (let t = self.old.rest in let k = after_name t (word t) (after_word t) in
            OnOk result (seen_count slot.new
            ≡ map_count (place_of self.old.world) (count_of t k.0 k.1))) }
        ensures reads { (let t = self.old.rest in let k = after_name t (word t) (after_word t) in
            ReadsTo self.old result self.new k.1 self.old.next (word_faults t)
            (count_tries t k.0)) }
    {
        let front = self.cursor.checkpoint();
        let start = self.cursor.start();
        let name = self.word()?;
        let span = start..self.cursor.start();
        if self.cursor.consume('$') {
            *slot = Count::CountIsName(name, span);
            return Ok(());
        }
        self.cursor.rewind(front);
        Ok(())
    }

    /// Reads a count, as in the grammar of `std::fmt`, into `slot`, which is still `CountImplied`:
    /// a number, the index or the name of an argument and a `$`, or nothing. Returns `Err` if an
    /// allocation fails.
    #[tactic(auto, using(crate::proofs::Readers::Steps::part_le, crate::proofs::Readers::TriedParts::tried_parts, crate::proofs::Readers::Parts::read_nothing))]
    #[inline(always)]
    pub fn count(&mut self, slot: &mut Count<'input>) -> Result<(), AllocError>
        requires blank { seen_count slot.old ≡ Implied }
        requires furthest { IsFurthest self.old.rest self.old.rewinds }
        ensures value { (let k = count self.old.rest in OnOk result (seen_count slot.new
            ≡ map_count (place_of self.old.world) (count_of self.old.rest k.0 k.1))) }
        ensures reads { (let k = count self.old.rest in
            ReadsTo self.old result self.new k.1 self.old.next (argument_faults self.old.rest)
            (count_tries self.old.rest k.0)) }
    {
        if self.cursor.is_digit_next() {
            let number = self.integer()?;
            if self.cursor.consume('$') {
                *slot = Count::CountIsParam(usize::from(number));
                return Ok(());
            }
            *slot = Count::CountIs(number);
            return Ok(());
        }
        if self.cursor.is_word_next() {
            return self.named_count(slot);
        }
        Ok(())
    }

    /// Reads the count of a width and its span into `format`, which has no width yet. Returns `Err`
    /// if an allocation fails.
    #[tactic(auto, using(crate::proofs::Readers::Steps::part_le))]
    #[inline(always)]
    fn width_count(&mut self, format: &mut FormatSpec<'input>) -> Result<(), AllocError>
        requires width { seen_count format.old.width ≡ Implied }
        requires span { option_map pair format.old.width_span ≡ None }
        requires furthest { IsFurthest self.old.rest self.old.rewinds }
        ensures value { (let t = self.old.rest in let k = count t in
            OnOk result (seen_spec format.new ≡ record (seen_spec format.old) {
              width = map_count (place_of self.old.world) (count_of t k.0 k.1);
              width_span = option_map (place_of self.old.world) (count_span t k.0 k.1);
            })) }
        ensures reads { (let k = count self.old.rest in
            ReadsTo self.old result self.new k.1 self.old.next (argument_faults self.old.rest)
            (count_tries self.old.rest k.0)) }
    {
        let start = self.cursor.start();
        self.count(&mut format.width)?;
        match format.width {
            Count::CountImplied => Ok(()),
            _ => {
                format.width_span = Some(start..self.cursor.start());
                Ok(())
            }
        }
    }

    /// Reads the width, as in the grammar of `std::fmt`, into `format`, which has none yet. A
    /// leading `0` is a flag, unless a `$` follows it: then it is the index of an argument. Returns
    /// `Err` if an allocation fails.
    #[tactic(auto, using(crate::proofs::Readers::Steps::part_le, crate::proofs::Readers::Specifications::widths_at_front))]
    #[inline(always)]
    pub fn width(&mut self, format: &mut FormatSpec<'input>) -> Result<(), AllocError>
        requires zero_pad { format.old.zero_pad ≡ false }
        requires width { seen_count format.old.width ≡ Implied }
        requires span { option_map pair format.old.width_span ≡ None }
        requires furthest { IsFurthest self.old.rest self.old.rewinds }
        ensures value { (let t = self.old.rest in let w = width t in
            OnOk result (seen_spec format.new ≡ record (seen_spec format.old) {
              zero_pad = is_padded w.0;
              width = map_count (place_of self.old.world) (width_of t w.0 w.1);
              width_span = option_map (place_of self.old.world) (width_span t w.0 w.1);
            })) }
        ensures reads { (let w = width self.old.rest in
            ReadsTo self.old result self.new w.1 self.old.next (width_faults self.old.rest w.0)
            (width_tries self.old.rest w.0)) }
    {
        if !self.cursor.is_next('0') {
            return self.width_count(format);
        }
        if !self.cursor.is_ahead('$') {
            self.cursor.skip_char();
            format.zero_pad = true;
            return self.width_count(format);
        }
        let start = self.cursor.start();
        self.cursor.skip_char();
        format.width = Count::CountIsParam(0);
        format.width_span = Some(start..self.cursor.stop());
        self.cursor.skip_char();
        Ok(())
    }

    /// Reads a dot and the precision after it, which may be missing, into `format`, which has none
    /// yet. Reads nothing if the next character is not a dot. A `*` takes the index of the next
    /// implicit argument. Returns `Err` if an allocation fails.
    #[tactic(auto, using(crate::proofs::Readers::Steps::part_le, crate::proofs::Readers::Steps::at_dot, crate::proofs::Readers::Specifications::precisions_at_front))]
    #[inline(always)]
    pub fn precision(&mut self, format: &mut FormatSpec<'input>) -> Result<(), AllocError>
        requires precision { seen_count format.old.precision ≡ Implied }
        requires span { option_map pair format.old.precision_span ≡ None }
        requires numbers { self.old.next + 1 < 2 ^ 64 }
        ensures value { (let t = self.old.rest in let p = precision t in
            OnOk result (seen_spec format.new ≡ record (seen_spec format.old) {
              precision = map_count (place_of self.old.world)
                  (precision_of self.old.next t p.0 p.1);
              precision_span = option_map (place_of self.old.world) (precision_span t p.0 p.1);
            })) }
        ensures reads { (let p = precision self.old.rest in
            ReadsTo self.old result self.new p.1 (number_after_precision self.old.next p.0)
            (precision_faults self.old.rest p.0) (precision_tries self.old.rest p.0)) }
    {
        self.cursor.steps_are_few();
        if !self.cursor.is_next('.') {
            return Ok(());
        }
        let start = self.cursor.start();
        self.cursor.skip_char();
        if self.cursor.is_next('*') {
            let number = self.take_curarg();
            self.cursor.skip_char();
            format.precision = Count::CountIsStar(number);
            format.precision_span = Some(start..self.cursor.start());
            return Ok(());
        }
        self.count(&mut format.precision)?;
        format.precision_span = Some(start..self.cursor.start());
        Ok(())
    }
}
