//! The listing of an input as JSON.

ghost use Rattle.std.specs.Prelude.{◌≡◌, ◌≢◌, ◌<◌, ◌+◌, ◌^◌, ◌++◌, ◌↔◌, ◌||◌, [], IfErr, IfOk};
ghost use Rattle.std.specs.Prelude.{IsErrOf, IsSome, None, Some, chars, length, map, option_map};
ghost use Rattle.std.specs.Prelude.{string_bytes};
ghost use Rattle.std.specs.Str.{IsUtf8};
ghost use Rattle.rustc_parse_format.specs.Views.{seen_mode, seen_snippet};
ghost use Rattle.rustc_parse_format.specs.State.{calls};
ghost use Rattle.rustc_parse_format.specs.World.{hashes};
ghost use Rattle.placeholder_check.specs.Collection.{Holds};
ghost use Rattle.placeholder_check.specs.Views.{seen_report};
ghost use Rattle.placeholder_check.specs.Uses.{uses};
ghost use Rattle.piece_listing.specs.declared.verdict.RunFault.TheVariants.{NotLiteral, NotText};
ghost use Rattle.piece_listing.specs.declared.verdict.RunFault.TheVariants.{TooLong, Words};
ghost use Rattle.piece_listing.specs.Program.{IsReportFor, IsShort, Task as TaskValue};
ghost use Rattle.piece_listing.specs.Program.{has_entries, limit, pieces, task_of};
ghost use Rattle.piece_listing.specs.SeenTask.{seen_given, seen_task};
ghost use Rattle.piece_listing.specs.Source.{IsInLiteral, IsSourceOf, Source};
ghost use Rattle.listing_json.specs.Lines.{Adds, IsListed, IsOwed, calls_values, has_faults};
ghost use Rattle.listing_json.specs.Values.{report_values};

use super::calls::put_calls;
use super::report::put_report;
use piece_listing::literal::{LiteralText, literal_text, strip_newline};
use piece_listing::verdict::RunFault;
use piece_listing::{Task, has_entries, report_for, task_of};
use placeholder_check::{Report, Uses, uses_of};
use rustc_parse_format::{Parser, Reading, read_all};
use std::alloc::{AllocError, Global};

/// The most bytes that an input may have.
const LIMIT: usize = 1_048_576;

/// A listing as JSON.
#[derive(Drop)]
pub struct Listing {
    /// The lines in UTF-8, each with its line end.
    pub bytes: Vec<u8>,
    /// Whether there is a line that is not of a piece.
    pub has_ends: bool,
}

/// Returns a copy of a literal, if there is one. Returns `Err` if an allocation fails.
fn snippet_of(alloc: Global, literal: Option<&str>) -> Result<Option<String>, AllocError>
    ensures { IfOk result (λ s. seen_snippet s ≡ option_map (λ l. chars l.now) literal.entry) }
{
    match literal {
        Some(text) => Ok(Some(String::from_str(alloc, text)?)),
        None => Ok(None),
    }
}

/// Returns the arguments that the placeholders of a text use, if the task has a list of arguments.
/// Returns `Err` if an allocation fails.
fn uses_in<'a>(
    alloc: Global,
    text: &'a str,
    style: Option<usize>,
    snippet: Option<String>,
    task: Task<'_>,
) -> Result<Uses<'a>, AllocError>
    requires { hashes style + length text.now + 2 < 2 ^ 64 }
    ensures { IfOk result (λ u. IsSome task.entry.arguments
        → Holds (uses (pieces (seen_mode task.entry.mode) (record {
          text = chars text.now;
          style = style;
          snippet = seen_snippet snippet;
        }))) u) }
{
    if task.arguments.is_none() {
        return Ok(Uses::new(alloc));
    }
    let Reading { pieces, parser: _ } = read_all(alloc, text, style, snippet, false, task.mode)?;
    uses_of(alloc, pieces.as_slice())
}

/// Returns the report on the arguments that are missing or unused in a text. Returns `Err` if an
/// allocation fails.
fn report_of<'a>(
    alloc: Global,
    text: &'a str,
    style: Option<usize>,
    snippet: Option<String>,
    task: Task<'a>,
) -> Result<Report<'a>, AllocError>
    requires { hashes style + length text.now + 2 < 2 ^ 64 }
    ensures { IfOk result (λ r. IsReportFor (option_map seen_given task.entry.arguments)
        (pieces (seen_mode task.entry.mode) (record {
          text = chars text.now;
          style = style;
          snippet = seen_snippet snippet;
        })) (seen_report r)) }
{
    let uses = uses_in(alloc, text, style, snippet, task)?;
    report_for(alloc, &uses, task.arguments)
}

/// Returns the lines of the calls of a parser and of a report. Returns `Err` if an allocation
/// fails.
fn list_calls(
    alloc: Global,
    parser: &mut Parser<'_>,
    report: &Report<'_>,
) -> Result<Listing, AllocError>
    ensures lines { IfOk result (λ x. Adds (calls_values parser.old.world (calls parser.old)
        ++ report_values (seen_report report.now)) [] x.bytes.items) }
    ensures ends { IfOk result (λ x. x.has_ends
        ≡ (has_faults (calls parser.old) || has_entries (seen_report report.now))) }
{
    let mut bytes = Vec::new(alloc);
    let has_faults = put_calls(alloc, &mut bytes, parser)?;
    put_report(alloc, &mut bytes, report)?;
    Ok(Listing {
        bytes,
        has_ends: has_faults || has_entries(report),
    })
}

/// Returns the listing of a text, with the literal that it is in if there is one. Returns `Err` if
/// an allocation fails.
fn list_source(
    alloc: Global,
    text: &str,
    style: Option<usize>,
    literal: Option<&str>,
    task: Task<'_>,
) -> Result<Listing, AllocError>
    requires { hashes style + length text.now + 2 < 2 ^ 64 }
    ensures { IfOk result (λ x. IsListed (seen_task task.entry) (record {
      text = chars text.now;
      style = style;
      snippet = option_map (λ l. chars l.now) literal.entry;
    }) x.bytes.items x.has_ends) }
{
    let report = report_of(alloc, text, style, snippet_of(alloc, literal)?, task)?;
    let snippet = snippet_of(alloc, literal)?;
    let mut parser = Parser::new(alloc, text, style, snippet, false, task.mode)?;
    list_calls(alloc, &mut parser, &report)
}

/// Returns the listing of an input that is to be a string literal, perhaps with a newline after it.
/// Returns `Err` if the input is not a string literal or an allocation fails.
fn list_literal(alloc: Global, input: &str, task: Task<'_>) -> Result<Listing, RunFault>
    requires { IsShort input.now }
    ensures lines { IfOk result (λ x. (s : Source) × IsInLiteral (chars input.now) s
        × IsListed (seen_task task.entry) s x.bytes.items x.has_ends) }
    ensures not_literal { IsErrOf result NotLiteral
        → (s : Source) → IsInLiteral (chars input.now) s → ⊥ }
    ensures only { IfErr result (λ fault. (fault ≢ Words) × (fault ≢ TooLong) × (fault ≢ NotText)) }
{
    let literal = strip_newline(input);
    let Some(LiteralText { text, style }) = literal_text(alloc, literal)? else {
        return Err(RunFault::NotLiteral);
    };
    Ok(list_source(alloc, text.as_str(), style, Some(literal), task)?)
}

/// Returns the listing of a text, which is a string literal if the task says so. Returns `Err` if
/// it is to be one and is none, or if an allocation fails.
fn list_text(alloc: Global, text: &str, task: Task<'_>) -> Result<Listing, RunFault>
    requires { IsShort text.now }
    ensures lines { IfOk result (λ x. (s : Source)
        × IsSourceOf task.entry.is_literal (chars text.now) s
        × IsListed (seen_task task.entry) s x.bytes.items x.has_ends) }
    ensures not_literal { IsErrOf result NotLiteral → (s : Source)
        → IsSourceOf task.entry.is_literal (chars text.now) s → ⊥ }
    ensures only { IfErr result (λ fault. (fault ≢ Words) × (fault ≢ TooLong) × (fault ≢ NotText)) }
{
    if task.is_literal {
        list_literal(alloc, text, task)
    } else {
        Ok(list_source(alloc, text, None, None, task)?)
    }
}

/// Returns the listing of an input as JSON, by the command-line arguments of the program
/// `formatread`: a line for each piece, each fault and each entry of the report on missing and
/// unused arguments. docs/PROGRAMS.md has the keys of the objects. A fault comes after the piece of
/// the call that finds it.
///
/// The input may have at most 1,048,576 bytes. Returns `Err` if the words are invalid, if the input
/// is too long, not UTF-8 or, with `--literal`, not a string literal, or if an allocation fails
/// (`RunFault`, but neither `Read` nor `Write`).
pub fn list(alloc: Global, input: &[u8], words: &[String]) -> Result<Listing, RunFault>
    // The listing is that of the definition `IsOwed`: each line is a JSON text.
    ensures listing { IfOk result (λ x. (a : TaskValue)
        × (task_of (map string_bytes words.now) ≡ Some a)
        × IsOwed a input.now x.bytes.items x.has_ends) }
    ensures words { IsErrOf result Words ↔ (task_of (map string_bytes words.now) ≡ None) }
    ensures too_long { IsErrOf result TooLong → limit < length input.now }
    ensures not_text { IsErrOf result NotText → IsUtf8 input.now → ⊥ }
    ensures not_literal { IsErrOf result NotLiteral → (a : TaskValue)
        × (task_of (map string_bytes words.now) ≡ Some a)
        × ((s : Source) → IsSourceOf a.is_literal (chars input.now) s → ⊥) }
{
    let Some(task) = task_of(words) else {
        return Err(RunFault::Words);
    };
    if input.len() > LIMIT {
        return Err(RunFault::TooLong);
    }
    let Ok(text) = str::from_utf8(input) else {
        return Err(RunFault::NotText);
    };
    list_text(alloc, text, task)
}
