//! The listing of an input in UTF-8.

ghost use Rattle.std.specs.Prelude.{◌≡◌, ◌≢◌, ◌≤◌, ◌||◌, ℕ, Bool, List, [], Err, None, Some, IfOk};
ghost use Rattle.std.specs.Prelude.{◌++◌, IfErr, OnOk, flat_map, map};
ghost use Rattle.std.specs.Prelude.{IsErrOf, IsOk, false, length, nat_lt, option_map, chars};
ghost use Rattle.std.specs.Prelude.{string_bytes, true};
ghost use Rattle.rustc_parse_format.specs.Call.{pieces_of};
ghost use Rattle.rustc_parse_format.specs.Views.{seen_error, seen_snippet};
ghost use Rattle.rustc_parse_format.specs.Source.{HasSource};
ghost use Rattle.rustc_parse_format.specs.State.{after_all, calls};
ghost use Rattle.rustc_parse_format.specs.World.{hashes, pieces_in};
ghost use Rattle.placeholder_check.specs.Report.{Report as ReportValue};
ghost use Rattle.placeholder_check.specs.Views.{seen_report};
ghost use Rattle.piece_listing.specs.declared.verdict.RunFault.TheVariants.{Words, TooLong};
ghost use Rattle.piece_listing.specs.declared.verdict.RunFault.TheVariants.{NotText, NotLiteral};
ghost use Rattle.piece_listing.specs.Source.{IsInLiteral, IsSourceOf, Source, bare_source};
ghost use Rattle.piece_listing.specs.Listing.{fault_line, listing, report_lines};
ghost use Rattle.piece_listing.specs.Program.{IsListed, IsReportFor, IsShort, has_entries, limit};
ghost use Rattle.piece_listing.specs.Program.{no_entries};
ghost use Rattle.piece_listing.specs.SeenTask.{seen_given, seen_task};

use super::arguments::GivenArguments;
use super::calls::put_calls;
use super::listing::put_faults;
use super::literal::{LiteralText, literal_text, strip_newline};
use super::report_lines::{has_entries, put_report, report_for};
use super::task::Task;
use super::verdict::RunFault;
use placeholder_check::{Report, Uses};
use rustc_parse_format::{ParseError, Parser};
use std::alloc::{AllocError, Global};

/// The listing of an input.
#[derive(Drop)]
pub struct Listing {
    /// The lines, each with its line end.
    pub lines: String,
    /// Whether there is a line that is not of a piece.
    pub has_ends: bool,
}

/// Appends the lines of errors and of a report. Returns whether there are any, and `Err` if an
/// allocation fails.
fn put_ends(
    lines: &mut String,
    errors: &[ParseError],
    report: &Report<'_>,
) -> Result<bool, AllocError>
    ensures lines { OnOk result (string_bytes lines.new ≡ string_bytes lines.old
        ++ (flat_map fault_line (map seen_error errors.now)
        ++ report_lines (seen_report report.now))) }
    ensures has_ends { IfOk result (λ has_ends. has_ends
        ≡ (nat_lt 0 (length (map seen_error errors.now))
        || has_entries (seen_report report.now))) }
    ensures empty { errors.now ≡ [] → seen_report report.now ≡ no_entries → IsOk result }
{
    put_faults(lines, errors)?;
    put_report(lines, report)?;
    Ok(errors.len() > 0 || has_entries(report))
}

/// Returns the listing of the pieces up to the first call of a parser that returns `None`, with the
/// report on the arguments that are given. Returns `Err` if an allocation fails.
fn list_calls<'a>(
    alloc: Global,
    parser: &mut Parser<'a>,
    arguments: Option<GivenArguments<'a>>,
) -> Result<Listing, AllocError>
    ensures lines { IfOk result (λ x.
        let ps = pieces_in parser.old.world (pieces_of (calls parser.old)) in
        let es = (after_all parser.old (calls parser.old)).errors in
        (r : ReportValue) × IsReportFor (option_map seen_given arguments.entry) ps r
        × ◌≡◌ {A = List ℕ × Bool} (string_bytes x.lines, x.has_ends)
        (listing ps es r, nat_lt 0 (length es) || has_entries r)) }
    ensures empty { parser.old.rest ≡ [] → parser.old.world.has_source ≡ false
        → (after_all parser.old (calls parser.old)).errors ≡ [] → arguments.entry ≡ None
        → IsOk result }
{
    let mut lines = String::new(alloc);
    let mut uses = Uses::new(alloc);
    put_calls(&mut lines, &mut uses, arguments.is_some(), parser)?;
    let report = report_for(alloc, &uses, arguments)?;
    let has_ends = put_ends(&mut lines, parser.errors(), &report)?;
    Ok(Listing { lines, has_ends })
}

/// Reads a text with a parser, and returns its listing. Returns `Err` if an allocation fails.
#[tactic(auto, unfolding(crate::specs::Program::pieces, crate::specs::Program::errors))]
fn list_source(
    alloc: Global,
    text: &str,
    style: Option<usize>,
    snippet: Option<String>,
    task: Task<'_>,
) -> Result<Listing, AllocError>
    requires { hashes style ≤ limit }
    ensures lines { IfOk result (λ x. IsListed (seen_task task.entry)
        (record { text = chars text.now; style = style; snippet = seen_snippet snippet })
        (string_bytes x.lines, x.has_ends)) }
    // For an empty text, only the last line of a source literal and a report may allocate.
    ensures empty { text.now ≡ []
        → (HasSource (chars text.now) style (seen_snippet snippet) false → ⊥)
        → task.entry.arguments ≡ None → IsOk result }
{
    let mut parser = Parser::new(alloc, text, style, snippet, false, task.mode)?;
    list_calls(alloc, &mut parser, task.arguments)
}

/// Returns the listing of the text that a literal stands for. Returns `Err` if an allocation fails.
fn list_text_of(
    alloc: Global,
    literal: &str,
    text: &str,
    style: Option<usize>,
    task: Task<'_>,
) -> Result<Listing, AllocError>
    requires { hashes style ≤ limit }
    ensures { IfOk result (λ x. IsListed (seen_task task.entry)
        (record { text = chars text.now; style = style; snippet = Some (chars literal.now) })
        (string_bytes x.lines, x.has_ends)) }
{
    let snippet = String::from_str(alloc, literal)?;
    list_source(alloc, text, style, Some(snippet), task)
}

/// Returns the listing of the text that the input stands for as a string literal, perhaps with a
/// newline after it, as editors and shells end a line. Returns `Err` if the input is not a string
/// literal or an allocation fails.
fn list_literal(alloc: Global, input: &str, task: Task<'_>) -> Result<Listing, RunFault>
    requires { IsShort input.now }
    ensures lines { IfOk result (λ x. (s : Source) × IsInLiteral (chars input.now) s
        × IsListed (seen_task task.entry) s (string_bytes x.lines, x.has_ends)) }
    ensures not_literal { IsErrOf result NotLiteral → (s : Source) → IsInLiteral (chars input.now) s
        → ⊥ }
    ensures not_words { IfErr result (λ fault. fault ≢ Words) }
    ensures not_long { IfErr result (λ fault. fault ≢ TooLong) }
    ensures is_text { IfErr result (λ fault. fault ≢ NotText) }
    ensures empty { input.now ≡ [] → result ≡ Err NotLiteral }
{
    let literal = strip_newline(input);
    let Some(LiteralText { text, style }) = literal_text(alloc, literal)? else {
        return Err(RunFault::NotLiteral);
    };
    Ok(list_text_of(alloc, literal, text.as_str(), style, task)?)
}

/// Returns the listing of an input. Returns `Err` if the task needs a string literal and the input
/// is none, or if an allocation fails.
pub fn list_input(alloc: Global, input: &str, task: Task<'_>) -> Result<Listing, RunFault>
    requires { IsShort input.now }
    ensures lines { IfOk result (λ x. (s : Source)
        × IsSourceOf task.entry.is_literal (chars input.now) s
        × IsListed (seen_task task.entry) s (string_bytes x.lines, x.has_ends)) }
    ensures not_literal { IsErrOf result NotLiteral → (s : Source)
        → IsSourceOf task.entry.is_literal (chars input.now) s → ⊥ }
    ensures not_words { IfErr result (λ fault. fault ≢ Words) }
    ensures not_long { IfErr result (λ fault. fault ≢ TooLong) }
    ensures is_text { IfErr result (λ fault. fault ≢ NotText) }
    ensures empty { input.now ≡ [] → task.entry.is_literal ≡ false → task.entry.arguments ≡ None
        → IsOk result }
    ensures empty_literal { input.now ≡ [] → task.entry.is_literal ≡ true
        → result ≡ Err NotLiteral }
{
    if task.is_literal {
        list_literal(alloc, input, task)
    } else {
        Ok(list_source(alloc, input, None, None, task)?)
    }
}
