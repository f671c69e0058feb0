//! Recovery from a missing closing brace, by the character found in its place.

ghost use Rattle.std.specs.Prelude.{◌&&◌, ◌==◌, ◌≡◌, not, option_map};
ghost use Rattle.rustc_parse_format.specs.Identifiers.{is_identifier};
ghost use Rattle.rustc_parse_format.specs.Recovery.{sign_fault};
ghost use Rattle.rustc_parse_format.specs.Views.{pair, seen_argument};
ghost use Rattle.rustc_parse_format.specs.FaultViews.{seen_fault};

use crate::faults::Fault;
use crate::reader::Reader;
use crate::types::{Argument, ParseMode, Position};
use std::alloc::AllocError;
use std::ops::Range;

/// Returns the fault of the character `sign` in place of a closing brace, or `None` if it has none
/// of its own. The character after it is `next`, and the opening brace has the byte range
/// `opening`.
fn sign_fault<'input>(
    sign: char,
    next: char,
    span: Range<usize>,
    opening: Range<usize>,
) -> Option<Fault<'input>>
    ensures { option_map seen_fault result ≡ sign_fault sign next (pair span) (pair opening) }
{
    match (sign, next) {
        ('<' | '>' | '^', _) => Some(Fault::LateAlign(sign, span)),
        (',', _) => Some(Fault::Grouping(span, opening)),
        ('+', _) => Some(Fault::LateSign(span)),
        ('=', '}') => Some(Fault::DebugPrint(span, opening)),
        ('?', '}') => Some(Fault::MissingColon(span)),
        _ => None,
    }
}

/// Returns whether `sign` is the dot of a field access: a dot after an argument that is only a
/// name.
fn begins_field(sign: char, argument: &Argument<'_>) -> bool
    ensures { result ≡ (sign == 46 && is_identifier (seen_argument argument.now)) }
{
    sign == '.' && argument.is_identifier()
}

/// Returns whether `sign` is a `?` that no closing brace follows.
fn begins_late_debug(sign: char, next: char) -> bool
    ensures { result ≡ (sign == 63 && not (next == 125)) }
{
    sign == '?' && next != '}'
}

impl<'input> Reader<'input> {
    ghost use Rattle.std.specs.Prelude.{[], ◌+◌, ◌<◌, ◌^◌, ◌≡◌, ◌≢◌, length, OnErr, OnOk};
    ghost use Rattle.rustc_parse_format.specs.Characters.{Text};
    ghost use Rattle.rustc_parse_format.specs.Marks.{Mark, Span, over_first};
    ghost use Rattle.rustc_parse_format.specs.CallStates.{after_sign, recovered_state};
    ghost use Rattle.rustc_parse_format.specs.Recovery.{field, late_debug, recovery, sign_fault};
    ghost use Rattle.rustc_parse_format.specs.Views.{pair, seen_argument, seen_mode};
    ghost use Rattle.rustc_parse_format.specs.Types.{Argument as ArgumentValue, map_argument};
    ghost use Rattle.rustc_parse_format.specs.World.{number_of, place_of};

    /// Moves past the next character, which is `sign`, and adds its fault. Changes nothing if it
    /// has none of its own. Returns `Err` if an allocation fails.
    fn suggest_sign(
        &mut self,
        sign: char,
        next: char,
        opening: Range<usize>,
    ) -> Result<(), AllocError>
        ensures state { (let span = place_of self.old.world (over_first self.old.rest) in
            OnOk result (self.new
            ≡ after_sign self.old (sign_fault sign next span (pair opening)))) }
        ensures err { OnErr result (self.new.source ≡ self.old.source) }
    {
        let span = self.cursor.start()..self.cursor.stop();
        let Some(fault) = sign_fault(sign, next, span, opening) else {
            return Ok(());
        };
        self.cursor.skip_char();
        self.note(fault)
    }

    /// Moves past a `?`. If a colon follows, also moves past that and the word after it, which may
    /// be empty, and adds a fault. Returns `Err` if an allocation fails.
    #[tactic(auto, using(crate::proofs::Readers::WordFronts::words_at_front), unfolding(crate::specs::Recovery::late_debug))]
    fn suggest_format_debug(&mut self) -> Result<(), AllocError>
        ensures state { OnOk result (self.new
            ≡ recovered_state self.old (late_debug self.old.next self.old.rest)) }
        ensures err { OnErr result (self.new.source ≡ self.old.source) }
    {
        let span = self.cursor.start()..self.cursor.stop();
        self.cursor.skip_char();
        if !self.cursor.consume(':') {
            return Ok(());
        }
        if !self.cursor.is_word_next() {
            return self.note(Fault::LateDebug("", span));
        }
        let word = self.word()?;
        self.note(Fault::LateDebug(word, span))
    }

    /// Moves past a `.`, the field after it, and a closing brace directly after that. With the
    /// brace, a field that is a name or a number is a fault. The argument starts at the byte offset
    /// `from`. Returns `Err` if an allocation fails.
    #[tactic(auto, using(crate::proofs::Readers::Steps::part_le), unfolding(crate::specs::Recovery::field))]
    fn suggest_positional_arg_instead_of_captured_arg(
        &mut self,
        mode: ParseMode,
        from: usize,
    ) -> Result<(), AllocError>
        requires here { self.old.rest ≢ [] }
        requires numbers { self.old.next + length self.old.rest < 2 ^ 64 }
        ensures state { OnOk result ((m : Mark) → from ≡ number_of self.old.world m → self.new
            ≡ recovered_state self.old (field (seen_mode mode) self.old.next m self.old.rest)) }
        ensures source { self.new.source ≡ self.old.source }
    {
        self.cursor.skip_char();
        let mut field = Argument::default();
        self.argument(mode, &mut field)?;
        let span = from..field.position_span.end;
        if !self.cursor.consume('}') {
            return Ok(());
        }
        match field.position {
            Position::ArgumentNamed(_) => self.note(Fault::FieldAccess(span)),
            Position::ArgumentIs(_) => self.note(Fault::TupleIndex(span)),
            Position::ArgumentImplicitlyIs(_) => Ok(()),
        }
    }

    /// Recovers from a missing closing brace of `argument`, by the next character. The opening
    /// brace has the byte range `opening`. Returns `Err` if an allocation fails.
    #[tactic(auto, using(crate::proofs::Readers::Steps::part_le))]
    #[inline(never)]
    pub fn recover(
        &mut self,
        mode: ParseMode,
        argument: &Argument<'input>,
        opening: Range<usize>,
    ) -> Result<(), AllocError>
        requires numbers { self.old.next + length self.old.rest < 2 ^ 64 }
        ensures state { OnOk result ((o : Text) (a : ArgumentValue Span)
            → pair opening ≡ place_of self.old.world (over_first o)
            → seen_argument argument.now ≡ map_argument (place_of self.old.world) a
            → self.new ≡ recovered_state self.old
            (recovery (seen_mode mode) self.old.next o a self.old.rest)) }
        ensures source { self.new.source ≡ self.old.source }
    {
        let Some(sign) = self.cursor.peek() else {
            return Ok(());
        };
        let Some(next) = self.cursor.peek_ahead() else {
            return Ok(());
        };
        if begins_field(sign, argument) {
            return self.suggest_positional_arg_instead_of_captured_arg(
                mode,
                argument.position_span.start,
            );
        }
        if begins_late_debug(sign, next) {
            return self.suggest_format_debug();
        }
        self.suggest_sign(sign, next, opening)
    }
}
