//! Reads an input and reports its missing and unused arguments.

ghost use Rattle.std.specs.Prelude.{◌≡◌, ◌+◌, ◌<◌, ◌^◌, ◌↔◌, [], IfOk, IsOk, chars, length, map};
ghost use Rattle.rustc_parse_format.specs.Call.{pieces_of};
ghost use Rattle.rustc_parse_format.specs.Grammar.{IsInGrammar};
ghost use Rattle.rustc_parse_format.specs.Views.{seen_piece, seen_mode, seen_snippet};
ghost use Rattle.rustc_parse_format.specs.Source.{HasSource};
ghost use Rattle.rustc_parse_format.specs.State.{after_all, calls, first_state};
ghost use Rattle.rustc_parse_format.specs.Types.{DiagnosticNamed};
ghost use Rattle.rustc_parse_format.specs.World.{hashes, pieces_in};
ghost use Rattle.placeholder_check.specs.Entries.{Lists};
ghost use Rattle.placeholder_check.specs.Uses.{uses};
ghost use Rattle.placeholder_check.specs.Report.{IsReport};
ghost use Rattle.placeholder_check.specs.Reading.{IsReportOf};
ghost use Rattle.placeholder_check.specs.Views.{seen_report, texts};

use crate::checker::{Report, check};
use rustc_parse_format::{ParseMode, Parser, Piece, Reading, read_all};
use std::alloc::{AllocError, Global};

/// An input that was read up to its end and compared with its arguments.
#[derive(Drop)]
pub struct CheckedReading<'a> {
    /// The pieces, in order.
    pub pieces: Vec<Piece<'a>>,
    /// The parser after the pieces, with the errors of the input.
    pub parser: Parser<'a>,
    /// The arguments that are missing or unused.
    pub report: Report<'a>,
}

/// Reads an input up to its end, and compares its pieces with the arguments as [`check`] does.
///
/// `style` is `None` for an ordinary string literal, and `Some` of the number of hashes for a raw
/// one. `snippet` is the source text that the input should come from, if it is known.
/// `appended_newline` is whether a newline was appended to the input that is not in the source.
/// `positional` many arguments are given by position, with the indices from 0, and those in
/// `names` by name. The number of hashes, the length of the input in bytes, and 2 must together fit
/// into a `usize`.
///
/// The grammar is that of the documentation of `std::fmt`, as rustc's parser reads it. Returns
/// `Err` if an allocation fails.
pub fn read_and_check<'a>(
    alloc: Global,
    input: &'a str,
    style: Option<usize>,
    snippet: Option<String>,
    appended_newline: bool,
    mode: ParseMode,
    positional: usize,
    names: &[&'a str],
) -> Result<CheckedReading<'a>, AllocError>
    requires { hashes style + length input.now + 2 < 2 ^ 64 }

    // The pieces and the parser come from the calls of a new parser up to the end of the input, and
    // the report is on these pieces.
    ensures walk { IfOk result (λ x.
        let s = first_state (seen_mode mode) (chars input.now) style
        (seen_snippet snippet) appended_newline in
        (map seen_piece x.pieces.items ≡ pieces_in s.world (pieces_of (calls s)))
        × (x.parser ≡ after_all s (calls s))) }
    ensures report { IfOk result (λ x. IsReport (uses (map seen_piece x.pieces.items)) positional
        (texts names.now) (seen_report x.report)) }

    // The parser has no error exactly if the input is in the grammar, and then the report is on its
    // only reading.
    ensures clean { IfOk result (λ x. (x.parser.errors ≡ [])
        ↔ IsInGrammar (seen_mode mode) (chars input.now)) }
    ensures reading { IfOk result (λ x. x.parser.errors ≡ []
        → IsReportOf (seen_mode mode) (chars input.now) positional (texts names.now)
        (seen_report x.report)) }

    // In the mode `DiagnosticNamed`, if the parser has no error, no index is missing and each index
    // that is given is unused.
    ensures uses_are_by_name { IfOk result (λ x. seen_mode mode ≡ DiagnosticNamed
        → x.parser.errors ≡ []
        → ((seen_report x.report).missing_index ≡ [])
        × Lists (λ n. n < positional) (seen_report x.report).unused_index) }

    // For an empty input that does not come from a source literal, and no arguments, the call
    // succeeds even if every allocation fails.
    ensures empty { input.now ≡ []
        → (HasSource (chars input.now) style (seen_snippet snippet) appended_newline → ⊥)
        → positional ≡ 0 → names.now ≡ [] → IsOk result }
{
    let Reading { pieces, parser } = read_all(
        alloc,
        input,
        style,
        snippet,
        appended_newline,
        mode,
    )?;
    let report = check(alloc, pieces.as_slice(), positional, names)?;
    Ok(CheckedReading {
        pieces,
        parser,
        report,
    })
}
