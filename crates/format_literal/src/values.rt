//! String literals that are read as format strings.

ghost use Rattle.std.specs.Prelude.{◌+◌, ◌<◌, ◌^◌};
ghost use Rattle.rustc_parse_format.specs.World.{hashes};

use crate::validity::is_written;
use fault_fixes::{FixedLiteral, fix};
use format_tokens::{Token, tokens};
use piece_listing::literal::{LiteralText, literal_text};
use placeholder_check::{Report, check};
use rustc_parse_format::{ParseMode, Parser, Reading, read_all};
use std::alloc::{AllocError, Global};

/// A string literal that is read as a format string: the five arguments that calls over an input
/// take, in one value, and these calls. All spans are byte ranges of the literal, with its quotes
/// and escapes.
#[derive(Drop)]
pub struct Literal<'a> {
    /// The text that the literal stands for, with the appended newline if there is one.
    pub text: String,
    /// The number of hashes of a raw literal, or `None` for an ordinary one.
    pub style: Option<usize>,
    /// The literal as it is in the source.
    pub snippet: &'a str,
    /// Whether the text ends in a newline that is not in the literal.
    pub appended_newline: bool,
    /// As which kind of text it is read.
    pub mode: ParseMode,
    ghost few_hashes: { hashes style + 1 < 2 ^ 63 },
}

impl<'a> Literal<'a> {
    ghost use Rattle.std.specs.Prelude.{◌≡◌, ℕ, Option, Some, IfOk, MatchOption, chars, map};
    ghost use Rattle.std.specs.Prelude.{string_bytes};
    ghost use Rattle.rustc_parse_format.specs.Call.{pieces_of};
    ghost use Rattle.rustc_parse_format.specs.Characters.{Text};
    ghost use Rattle.rustc_parse_format.specs.Views.{seen_piece, seen_mode};
    ghost use Rattle.rustc_parse_format.specs.State.{after_all, calls};
    ghost use Rattle.rustc_parse_format.specs.World.{pieces_in};
    ghost use Rattle.placeholder_check.specs.Report.{IsReport};
    ghost use Rattle.placeholder_check.specs.Views.{seen_report, texts};
    ghost use Rattle.placeholder_check.specs.Uses.{uses};
    ghost use Rattle.format_tokens.specs.Spans.{tokens};
    ghost use Rattle.format_tokens.specs.Views.{seen_token};
    ghost use Rattle.fault_fixes.specs.Fixing.{FixedLiteral as FixedValue};
    ghost use Rattle.fault_fixes.specs.Rounds.{IsFixed};
    ghost use Rattle.fault_fixes.specs.SeenEdits.{seen_fixed};
    ghost use Rattle.format_literal.specs.Views.{EndsLine, IsRead, snippet_of, start, text_of};
    ghost use Rattle.format_literal.specs.Spelling.{IsWritten};

    /// Reads a string literal by the rules of the Rust Reference, `"..."` or `r#"..."#` with any
    /// number of hashes. Its lines end with LF. Returns `None` if the source is no such literal:
    /// for example with a prefix `b` or `c`, a suffix, or white space around it. Returns `Err` if
    /// an allocation fails.
    pub fn read(
        alloc: Global,
        source: &'a str,
        mode: ParseMode,
    ) -> Result<Option<Literal<'a>>, AllocError>
        ensures { IfOk result (λ o. MatchOption o
            ((style : Option ℕ) (t : Text) → IsWritten style (chars source.now) t → ⊥)
            (λ l. IsRead source.now (seen_mode mode) l)) }
    {
        let Some(LiteralText { text, style }) = literal_text(alloc, source)? else {
            return Ok(None);
        };
        if !is_written(source, style, &text) {
            return Ok(None);
        }
        Ok(Some(Literal {
            text,
            style,
            snippet: source,
            appended_newline: false,
            mode,
        }))
    }

    /// Returns the literal with a newline appended to its text, as `println!` appends one. One more
    /// is never appended. Returns `Err` if an allocation fails.
    pub fn with_newline(mut self) -> Result<Literal<'a>, AllocError>
        ensures { IfOk result (λ l. EndsLine self.entry l) }
    {
        if self.appended_newline {
            return Ok(self);
        }
        self.text.push('\n')?;
        self.appended_newline = true;
        Ok(self)
    }

    /// Returns a parser at the start of the text. Returns `Err` if an allocation fails.
    pub fn parser(&self, alloc: Global) -> Result<Parser<'_>, AllocError>
        ensures { IfOk result (λ p. p ≡ start self.now) }
    {
        let snippet = String::from_str(alloc, self.snippet)?;
        Parser::new(
            alloc,
            self.text.as_str(),
            self.style,
            Some(snippet),
            self.appended_newline,
            self.mode,
        )
    }

    /// Returns the pieces and the parser after them, as `rustc_parse_format::read_all` does: the
    /// errors are in [`Parser::errors`]. Returns `Err` if an allocation fails.
    pub fn read_all(&self, alloc: Global) -> Result<Reading<'_>, AllocError>
        ensures { IfOk result (λ x. let s = start self.now in
            (map seen_piece x.pieces.items ≡ pieces_in s.world (pieces_of (calls s)))
            × (x.parser ≡ after_all s (calls s))) }
    {
        let snippet = String::from_str(alloc, self.snippet)?;
        read_all(
            alloc,
            self.text.as_str(),
            self.style,
            Some(snippet),
            self.appended_newline,
            self.mode,
        )
    }

    /// Returns the tokens, as `format_tokens::tokens` does. Returns `Err` if an allocation fails.
    pub fn tokens(&self, alloc: Global) -> Result<Vec<Token>, AllocError>
        ensures { IfOk result (λ v. map seen_token v.items
            ≡ tokens (seen_mode self.now.mode) (text_of self.now) self.now.style
            (Some (snippet_of self.now)) self.now.appended_newline) }
    {
        let snippet = String::from_str(alloc, self.snippet)?;
        tokens(
            alloc,
            self.text.as_str(),
            self.style,
            Some(snippet),
            self.appended_newline,
            self.mode,
        )
    }

    /// Returns the literal with the edits that its faults suggest, as `fault_fixes::fix` does, or
    /// `None` if there is no such literal. Returns `Err` if an allocation fails, or if there is an
    /// edit and the literal or its text has 2^59 bytes or more.
    pub fn fix(&self, alloc: Global) -> Result<Option<FixedLiteral>, AllocError>
        ensures { IfOk result (λ o. MatchOption o
            ((f : FixedValue) → IsFixed (seen_mode self.now.mode) (string_bytes self.now.text)
            self.now.style self.now.snippet.now self.now.appended_newline f → ⊥)
            (λ f. IsFixed (seen_mode self.now.mode) (string_bytes self.now.text) self.now.style
            self.now.snippet.now self.now.appended_newline (seen_fixed f))) }
    {
        fix(
            alloc,
            self.text.as_str(),
            self.style,
            self.snippet,
            self.appended_newline,
            self.mode,
        )
    }

    /// Compares the arguments that the pieces use with those that are given, as
    /// `placeholder_check::check` does. Returns `Err` if an allocation fails.
    pub fn check<'b>(
        &'b self,
        alloc: Global,
        positional: usize,
        names: &[&'b str],
    ) -> Result<Report<'b>, AllocError>
        ensures { IfOk result (λ r. let s = start self.now in
            IsReport (uses (pieces_in s.world (pieces_of (calls s)))) positional (texts names.now)
            (seen_report r)) }
    {
        let Reading { pieces, parser: _ } = self.read_all(alloc)?;
        check(alloc, &pieces, positional, names)
    }
}
