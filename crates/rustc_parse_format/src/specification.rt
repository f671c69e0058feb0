//! Reads the part of a placeholder after its colon: a format specification, the modifier of inline
//! assembly, or the text of a diagnostic.

use crate::characters::first;
use crate::faults::Fault;
use crate::reader::Reader;
use crate::types::{Alignment, DebugHex, FormatSpec, ParseMode, Sign, wants_names};
use std::alloc::AllocError;
use std::ops::Range;

impl<'input> Reader<'input> {
    ghost use Rattle.std.specs.Prelude.{[], ◌+◌, ◌++◌, ◌<◌, ◌^◌, ◌≡◌, chars, codes, if◌then◌else◌};
    ghost use Rattle.std.specs.Prelude.{IsOk, length, None, OnErr, OnOk, option_map, Some};
    ghost use Rattle.rustc_parse_format.specs.Meaning.{spec_texts, fill_span, format_of, spec_of};
    ghost use Rattle.rustc_parse_format.specs.Meaning.{type_span, word_span};
    ghost use Rattle.rustc_parse_format.specs.Characters.{begins_with, rest_after, after_first};
    ghost use Rattle.rustc_parse_format.specs.Characters.{after_word, front, is_no_brace, word};
    ghost use Rattle.rustc_parse_format.specs.Marks.{up_to};
    ghost use Rattle.rustc_parse_format.specs.PartFaults.{flag_faults, format_faults, spec_faults};
    ghost use Rattle.rustc_parse_format.specs.PartFaults.{text_faults, type_faults, word_faults};
    ghost use Rattle.rustc_parse_format.specs.Views.{pair, seen_alignment, seen_debug_hex};
    ghost use Rattle.rustc_parse_format.specs.Views.{seen_mode, seen_sign, seen_spec};
    ghost use Rattle.rustc_parse_format.specs.Specification.{align, alternate, fill, format_text};
    ghost use Rattle.rustc_parse_format.specs.Specification.{sign, specification, type};
    ghost use Rattle.rustc_parse_format.specs.CallStates.{FindsNothing, IsInOneLine, read_run};
    ghost use Rattle.rustc_parse_format.specs.CallStates.{read_texts, read_to, read_tries};
    ghost use Rattle.rustc_parse_format.specs.Reads.{Reaches, ReadsTo};
    ghost use Rattle.rustc_parse_format.specs.Tries.{format_tries, spec_tries};
    ghost use Rattle.rustc_parse_format.specs.Types.{Unknown, default_spec, map_spec};
    ghost use Rattle.rustc_parse_format.specs.Values.{debug_hex_of, number_after_precision};
    ghost use Rattle.rustc_parse_format.specs.Values.{number_after_spec, type_of};
    ghost use Rattle.rustc_parse_format.specs.Rewinds.{IsFurthest};
    ghost use Rattle.rustc_parse_format.specs.World.{place_of};

    /// Reads the fill, a character with an alignment after it, into `format`, which has none yet.
    /// Reads nothing if there is no fill.
    #[inline(always)]
    fn fill(&mut self, format: &mut FormatSpec<'input>)
        requires fill { format.old.fill ≡ None }
        requires span { option_map pair format.old.fill_span ≡ None }
        ensures value { seen_spec format.new ≡ record (seen_spec format.old) {
          fill = (fill self.old.rest).0;
          fill_span = option_map (place_of self.old.world)
              (fill_span self.old.rest (fill self.old.rest).0);
        } }
        ensures state { self.new ≡ record self.old { rest = (fill self.old.rest).1 } }
    {
        if let (Some(c), Some('<' | '>' | '^')) = (self.cursor.peek(), self.cursor.peek_ahead()) {
            format.fill = Some(c);
            format.fill_span = Some(self.cursor.start()..self.cursor.stop());
            self.cursor.skip_char();
        }
    }

    /// Reads the alignment, if there is one, into `format`, which has none yet.
    #[inline(always)]
    fn alignment(&mut self, format: &mut FormatSpec<'input>)
        requires { seen_alignment format.old.align ≡ Unknown }
        ensures value { seen_spec format.new
            ≡ record (seen_spec format.old) { align = (align self.old.rest).0 } }
        ensures state { self.new ≡ record self.old { rest = (align self.old.rest).1 } }
    {
        format.align = match self.cursor.peek() {
            Some('<') => Alignment::AlignLeft,
            Some('>') => Alignment::AlignRight,
            Some('^') => Alignment::AlignCenter,
            _ => return,
        };
        self.cursor.skip_char();
    }

    /// Reads the sign flag, if there is one, into `format`, which has none yet.
    #[inline(always)]
    fn sign(&mut self, format: &mut FormatSpec<'input>)
        requires { option_map seen_sign format.old.sign ≡ None }
        ensures value { seen_spec format.new
            ≡ record (seen_spec format.old) { sign = (sign self.old.rest).0 } }
        ensures state { self.new ≡ record self.old { rest = (sign self.old.rest).1 } }
    {
        let sign = match self.cursor.peek() {
            Some('+') => Sign::Plus,
            Some('-') => Sign::Minus,
            _ => return,
        };
        format.sign = Some(sign);
        self.cursor.skip_char();
    }

    /// Reads the flag `#`, if it is there, and sets in `format` whether it is.
    fn alternate(&mut self, format: &mut FormatSpec<'input>)
        ensures value { seen_spec format.new
            ≡ record (seen_spec format.old) { alternate = (alternate self.old.rest).0 } }
        ensures state { self.new ≡ record self.old { rest = (alternate self.old.rest).1 } }
    {
        format.alternate = self.cursor.consume('#');
    }

    /// Reads a word into `format` as its type, which is still empty, and sets its span if the word
    /// is not empty. Returns `Err` if an allocation fails.
    #[tactic(auto, using(crate::proofs::Readers::WordFronts::words_at_front, crate::proofs::Readers::Parts::read_nothing))]
    #[inline(always)]
    fn word_type(&mut self, format: &mut FormatSpec<'input>) -> Result<(), AllocError>
        requires ty { chars format.old.ty.now ≡ [] }
        requires span { option_map pair format.old.ty_span ≡ None }
        ensures value { (let t = self.old.rest in
            OnOk result (seen_spec format.new ≡ record (seen_spec format.old) {
              ty = word t;
              ty_span = option_map (place_of self.old.world)
                  (word_span t (word t) (after_word t));
            })) }
        ensures reads { ReadsTo self.old result self.new (after_word self.old.rest) self.old.next
            (word_faults self.old.rest) [] }
    {
        if !self.cursor.is_word_next() {
            return Ok(());
        }
        let start = self.cursor.start();
        let word = self.word()?;
        format.ty = word;
        format.ty_span = Some(start..self.cursor.start());
        Ok(())
    }

    /// Reads the type `?`. A flag after it is a fault, and is not read. Returns `Err` if an
    /// allocation fails.
    fn debug_type(&mut self) -> Result<(), AllocError>
        ensures reads { ReadsTo self.old result self.new (after_first self.old.rest) self.old.next
            (flag_faults self.old.rest) [] }
    {
        let Some(flag @ ('#' | 'x' | 'X')) = self.cursor.peek_ahead() else {
            self.cursor.skip_char();
            return Ok(());
        };
        let start = self.cursor.start();
        self.cursor.skip_char();
        let (from, to) = (self.cursor.start(), self.cursor.stop());
        self.note(Fault::LateFlag(flag, from..to, start..to))
    }

    /// Reads the type, as in the grammar of `std::fmt`, into `format`, whose type is still empty.
    /// Returns `Err` if an allocation fails.
    #[tactic(auto, using(crate::proofs::Readers::Specifications::types_at_front, crate::proofs::Readers::Parts::read_nothing))]
    #[inline(always)]
    fn type_part(&mut self, format: &mut FormatSpec<'input>) -> Result<(), AllocError>
        requires debug_hex { option_map seen_debug_hex format.old.debug_hex ≡ None }
        requires ty { chars format.old.ty.now ≡ [] }
        requires span { option_map pair format.old.ty_span ≡ None }
        ensures value { (let t = self.old.rest in
            OnOk result (seen_spec format.new ≡ record (seen_spec format.old) {
              debug_hex = debug_hex_of (type t).0;
              ty = type_of (type t).0;
              ty_span = option_map (place_of self.old.world)
                  (type_span t (type t).0 (type t).1);
            })) }
        ensures reads { (let y = type self.old.rest in ReadsTo self.old result self.new y.1
            self.old.next (type_faults self.old.rest y.0) []) }
    {
        let (case, letter) = match self.cursor.peek() {
            Some('x') => (DebugHex::Lower, "x"),
            Some('X') => (DebugHex::Upper, "X"),
            Some('?') => {
                format.ty = "?";
                return self.debug_type();
            }
            _ => return self.word_type(format),
        };
        self.cursor.skip_char();
        if !self.cursor.consume('?') {
            format.ty = letter;
            return Ok(());
        }
        format.debug_hex = Some(case);
        format.ty = "?";
        Ok(())
    }

    /// Reads a format specification, as in the grammar of `std::fmt`, into `format`, which is still
    /// the default. Returns `Err` if an allocation fails.
    #[tactic(auto, using(crate::proofs::Readers::Steps::part_le), unfolding(crate::specs::Specification::format_text, crate::specs::Meaning::format_of))]
    #[inline(never)]
    fn format(&mut self, format: &mut FormatSpec<'input>) -> Result<(), AllocError>
        requires blank { seen_spec format.old ≡ default_spec }
        requires numbers { self.old.next + 1 < 2 ^ 64 }
        requires furthest { IsFurthest self.old.rest self.old.rewinds }
        ensures value { (let t = self.old.rest in let f = format_text t in
            OnOk result (seen_spec format.new
            ≡ map_spec (place_of self.old.world) (format_of self.old.next t f.0 f.1))) }
        ensures reads { (let f = format_text self.old.rest in ReadsTo self.old result self.new f.1
            (number_after_precision self.old.next f.0.precision) (format_faults f.0 f.1)
            (format_tries f.0 f.1)) }
    {
        self.fill(format);
        self.alignment(format);
        self.sign(format);
        self.alternate(format);
        self.width(format)?;
        self.precision(format)?;
        self.type_part(format)
    }

    /// Reads a colon and the text of a diagnostic into `format`, which is still the default. The
    /// span of the text includes the colon. Text is a fault in a mode that allows only names.
    /// Returns `Err` if an allocation fails.
    fn diagnostic(
        &mut self,
        mode: ParseMode,
        format: &mut FormatSpec<'input>,
    ) -> Result<(), AllocError>
        ensures value { OnOk result (seen_spec format.new ≡ record (seen_spec format.old) {
          ty = front is_no_brace (after_first self.old.rest);
          ty_span = Some (place_of self.old.world
              (up_to self.old.rest (rest_after is_no_brace (after_first self.old.rest))));
        }) }
        ensures state { OnOk result (self.new ≡ (let t = after_first self.old.rest in
            record (read_run (record self.old { rest = t })) {
              faults = self.old.faults ++ text_faults (seen_mode mode) (front is_no_brace t)
                  (place_of self.old.world (up_to self.old.rest (rest_after is_no_brace t)));
            })) }
        ensures err { OnErr result (self.new.source ≡ self.old.source) }
        ensures spare { (let t = after_first self.old.rest in
            let span = up_to self.old.rest (rest_after is_no_brace t) in
            text_faults (seen_mode mode) (front is_no_brace t) span ≡ []
            → IsInOneLine (record self.old { rest = t }) → IsOk result) }
    {
        let start = self.cursor.start();
        self.cursor.skip_char();
        let ty = self.string()?;
        let end = self.cursor.start();
        format.ty = ty;
        format.ty_span = Some(start..end);
        if wants_names(mode) && first(ty).is_some() {
            return self.note(Fault::TextAfterColon(start..end));
        }
        Ok(())
    }

    /// Reads a colon and the part that `mode` has after it into `format`, which is still the
    /// default. Reads nothing if the next character is not a colon. Returns `Err` if an allocation
    /// fails.
    #[tactic(auto, using(crate::proofs::Readers::Steps::part_le, crate::proofs::Readers::Steps::at_colon))]
    #[inline(always)]
    pub fn specification(
        &mut self,
        mode: ParseMode,
        format: &mut FormatSpec<'input>,
    ) -> Result<(), AllocError>
        requires blank { seen_spec format.old ≡ default_spec }
        requires numbers { self.old.next + length self.old.rest < 2 ^ 64 }
        ensures value { (let s = specification (seen_mode mode) self.old.rest in
            OnOk result (seen_spec format.new ≡ map_spec (place_of self.old.world)
            (spec_of self.old.next self.old.rest s.0 s.1))) }
        ensures reads { let s = specification (seen_mode mode) self.old.rest in
            let fs = spec_faults (seen_mode mode) self.old.rest s.0 s.1 in
            let reader = read_to self.old s.1 (number_after_spec self.old.next s.0) fs in
            Reaches self.old result self.new
            (read_texts (read_tries reader (spec_tries s.0 s.1)) (spec_texts s.0 s.1))
            (FindsNothing self.old fs (spec_texts s.0 s.1)) }
    {
        self.cursor.steps_are_few();
        if !self.cursor.is_next(':') {
            return Ok(());
        }
        match mode {
            ParseMode::Format => {
                self.cursor.skip_char();
                self.format(format)
            }
            ParseMode::InlineAsm => {
                self.cursor.skip_char();
                self.word_type(format)
            }
            ParseMode::Diagnostic | ParseMode::DiagnosticNamed => { self.diagnostic(mode, format) }
        }
    }
}
