//! A file with the suggestions to its faults applied, round after round.

ghost use Rattle.std.specs.Prelude.{◌≡◌, ◌++◌, ◌↔◌, ◌⊎◌, IfOk, IfSome, IsFalse, IsNone, IsTrue};
ghost use Rattle.std.specs.Prelude.{◌≤◌, Some, length, map, string_bytes};
ghost use Rattle.std.specs.List.{All};
ghost use Rattle.format_calls.specs.Rows.{entry};
ghost use Rattle.asm_lint.specs.Spans.{HasSpans};
ghost use Rattle.source_lint.specs.Reports.{IsReport};
ghost use Rattle.source_report.specs.declared.report.Report.{Report as ReportValue};
ghost use Rattle.file_fixes.specs.AllFaults.{HasFaults};
ghost use Rattle.file_fixes.specs.FileFixes.{AreGone, AreRounds, FaultsStay, IsLast, IsNoWorse};
ghost use Rattle.file_fixes.specs.FileFixes.{HasLiterals, IsRound, LeavesCalls, Lexes, OthersGo};
ghost use Rattle.file_fixes.specs.FileFixes.{OthersStay, StaysInCalls, bytes_or, most_rounds};
ghost use Rattle.source_report.specs.Suggestions.{mended_faults};

use crate::all_faults::all_faults;
use crate::fault_search::keeps_unmended;
use crate::literals::mended_literals;
use crate::mended::are_gone;
use crate::outside::keeps_tokens;
use crate::round_edits::round_edits;
use rust_tokens::tokens;
use source_lint::file_faults;
use source_report::{Finding, Options, Report, mend_each};
use std::alloc::{AllocError, Global};

/// The most rounds over a file that is too large for more.
const MOST_ROUNDS: usize = 16;

/// How many bytes more rounds than these may read together.
const MOST_BYTES: usize = 1 << 24;

/// The fixes of a file.
#[derive(Drop)]
pub struct FileFixes {
    /// The source with the fixes, or `None` if nothing is fixed.
    pub text: Option<String>,
    /// The ids of the faults that are fixed, in the order of the fixes.
    pub ids: Vec<&'static str>,
    /// The report on the source with the fixes.
    pub report: Report,
}

/// A file after a round.
#[derive(Drop)]
struct Round {
    text: String,
    /// The ids of the faults that the round mended.
    ids: Vec<&'static str>,
    report: Report,
}

/// Returns whether a report on a file is no worse than the old one: the file does not break, has as
/// many calls, and no more faults.
pub fn is_no_worse(old: &Report, new: &Report) -> bool
    ensures { IsTrue result ↔ IsNoWorse old.now new.now }
{
    old.first_break.is_none()
        && new.first_break.is_none()
        && new.calls.len() == old.calls.len()
        && new.findings.len() <= old.findings.len()
}

/// Returns whether a report on a file after a round is no worse than the one before it, those of
/// these faults that the round mends are gone, and the others stay. Returns `Err` if an allocation
/// fails.
fn keeps_faults(
    alloc: Global,
    old: &Report,
    faults: &[Finding],
    new: &Report,
) -> Result<bool, AllocError>
    ensures { IfOk result (λ b. IsTrue b ↔ IsNoWorse old.now new.now
        × FaultsStay faults.now new.now.findings.items
        × AreGone faults.now new.now.findings.items) }
{
    if !is_no_worse(old, new) {
        return Ok(false);
    }
    if !are_gone(alloc, faults, new.findings.as_slice())? {
        return Ok(false);
    }
    keeps_unmended(alloc, faults, new.findings.as_slice())
}

/// Returns whether the edits of a round that mends these faults are in their calls, it mends faults
/// in so many literals, the tokens that no edit touches are the same in a file before and after the
/// round, and it lexes after the round. Returns `Err` if an allocation fails.
#[tactic(auto, unfolding(crate::specs::FileFixes::OthersStay, crate::specs::FileFixes::OthersGo))]
fn keeps_others(
    alloc: Global,
    old: &str,
    faults: &[Finding],
    literals: usize,
    new: &str,
) -> Result<bool, AllocError>
    ensures yes { IfOk result (λ b. IsTrue b → OthersStay old.now faults.now new.now
        × Lexes new.now × StaysInCalls old.now faults.now
        × HasLiterals old.now faults.now literals) }
    ensures no { IfOk result (λ b. IsFalse b → OthersGo old.now faults.now new.now
        ⊎ (LeavesCalls old.now faults.now ⊎ (HasLiterals old.now faults.now literals → ⊥))) }
{
    let old_tokens = tokens(alloc, old)?;
    let Some(most) = mended_literals(alloc, old, old_tokens.as_slice(), faults)? else {
        return Ok(false);
    };
    if literals > most {
        return Ok(false);
    }
    let edits = round_edits(alloc, faults)?;
    keeps_tokens(alloc, old_tokens.as_slice(), edits.as_slice(), new)
}

/// Returns how many faults of a report on a file after a round are new. Of these faults the round
/// mends so many, and the others stay.
fn new_count(faults: &[Finding], mended_count: usize, new: &Report) -> usize
    requires { mended_count ≡ length (mended_faults 0 faults.now) }
    ensures { (s : FaultsStay faults.now new.now.findings.items) → result ≡ length s.others }
{
    let kept_count = faults.len().saturating_sub(mended_count);
    new.findings.len().saturating_sub(kept_count)
}

/// Returns a file with this report after one more round, in which these faults are mended: those of
/// the report, and others of the same format strings or not. Returns `None` if there is nothing to
/// mend or the file with its edits is worse, lacks a fault that is not mended, has a mended one
/// still or more new ones than literals of mended ones, has other tokens where no edit is or does
/// not lex, or an edit is outside of its call.
/// Returns `Err` if an allocation fails.
fn round_over(
    alloc: Global,
    source: &str,
    old: &Report,
    faults: &[Finding],
    options: &Options<'_>,
) -> Result<Option<Round>, AllocError>
    requires { HasFaults source.now old.now.findings.items faults.now }
    ensures round { IfOk result (λ o. IfSome o (λ x. IsRound
        (map entry options.now.table.rows.items) options.now.is_from_2021 source.now old.now
        (string_bytes x.text) x.report (map (λ w. w.now) x.ids.items))) }
    ensures last { IfOk result (λ o. IsNone o → old.now.findings.items ≡ faults.now
        → IsLast (map entry options.now.table.rows.items) options.now.is_from_2021 source.now
        old.now) }
    ensures spans { IfOk result (λ o. IfSome o (λ x. All (HasSpans (string_bytes x.text))
        x.report.findings.items)) }
{
    let edited_text = mend_each(alloc, source, faults)?;
    if edited_text.ids.is_empty() {
        return Ok(None);
    }
    let Some(text) = String::from_utf8(edited_text.bytes).ok() else {
        return Ok(None);
    };
    let report = file_faults(alloc, text.as_str(), options)?;
    if !keeps_faults(alloc, old, faults, &report)? {
        return Ok(None);
    }
    let new_faults = new_count(faults, edited_text.ids.len(), &report);
    if !keeps_others(alloc, source, faults, new_faults, text.as_str())? {
        return Ok(None);
    }
    Ok(Some(Round {
        text,
        ids: edited_text.ids,
        report,
    }))
}

/// Returns a file with this report after one more round: over all faults of the faulty format
/// strings, or else over those of the report alone. Returns `None` if no round follows, and `Err`
/// if an allocation fails.
fn round_after(
    alloc: Global,
    source: &str,
    report: &Report,
    options: &Options<'_>,
) -> Result<Option<Round>, AllocError>
    ensures round { IfOk result (λ o. IfSome o (λ x. IsRound
        (map entry options.now.table.rows.items) options.now.is_from_2021 source.now report.now
        (string_bytes x.text) x.report (map (λ w. w.now) x.ids.items))) }
    ensures last { IfOk result (λ o. IsNone o → IsLast (map entry options.now.table.rows.items)
        options.now.is_from_2021 source.now report.now) }
    ensures spans { IfOk result (λ o. IfSome o (λ x. All (HasSpans (string_bytes x.text))
        x.report.findings.items)) }
{
    let findings = report.findings.as_slice();
    if let Some(faults) = all_faults(alloc, source, findings)? {
        let round = round_over(alloc, source, report, faults.as_slice(), options)?;
        if round.is_some() {
            return Ok(round);
        }
    }
    round_over(alloc, source, report, findings, options)
}

/// Returns a file after one more round, or `None` if no round follows. Returns `Err` if an
/// allocation fails.
fn next_round(
    alloc: Global,
    text: &str,
    file_fixes: &FileFixes,
    options: &Options<'_>,
) -> Result<Option<Round>, AllocError>
    ensures round { IfOk result (λ o. IfSome o (λ x. IsRound
        (map entry options.now.table.rows.items) options.now.is_from_2021
        (bytes_or file_fixes.now.text text.now) file_fixes.now.report (string_bytes x.text) x.report
        (map (λ w. w.now) x.ids.items))) }
    ensures last { IfOk result (λ o. IsNone o → IsLast (map entry options.now.table.rows.items)
        options.now.is_from_2021 (bytes_or file_fixes.now.text text.now) file_fixes.now.report) }
    ensures spans { IfOk result (λ o. IfSome o (λ x. All (HasSpans (string_bytes x.text))
        x.report.findings.items)) }
{
    match &file_fixes.text {
        None => round_after(alloc, text, &file_fixes.report, options),
        Some(fixed_text) => round_after(alloc, fixed_text.as_str(), &file_fixes.report, options),
    }
}

/// Returns the most rounds over a file.
fn most_rounds(text: &str) -> usize
    ensures { result ≡ most_rounds text.now }
{
    (MOST_BYTES / (text.len() + 1)).max(MOST_ROUNDS)
}

/// Returns fixes with those of one more round. Returns `Err` if an allocation fails.
fn with_round(file_fixes: FileFixes, round: Round) -> Result<FileFixes, AllocError>
    ensures text { IfOk result (λ x. x.text ≡ Some round.text) }
    ensures ids { IfOk result (λ x. x.ids.items ≡ file_fixes.ids.items ++ round.ids.items) }
    ensures report { IfOk result (λ x. x.report ≡ round.report) }
{
    let mut ids = file_fixes.ids;
    ids.extend_from_slice(round.ids.as_slice())?;
    Ok(FileFixes {
        text: Some(round.text),
        ids,
        report: round.report,
    })
}

/// Reads a source file as [`file_faults`] does, and applies to its faults the suggestions that
/// rustc calls applicable by a machine, but for two: an argument that can be removed, since a comma
/// stays, and the macro `dbg!` in the place of another one.
///
/// A round applies the suggestions of all faults whose edits follow each other. The next round does
/// the same with the new report. There are at most sixteen, or as many as read 16 MiB together. A
/// round is left out, and none follows, if an edit is neither in the literal of its fault nor puts
/// text into the arguments behind it, if the file then breaks or does not lex, has another number
/// of calls, more faults, or other tokens where no edit is, or if a fault stays that the round
/// mends, or one goes that it does not. So a round changes only the tokens that its edits touch,
/// its faults go, the others stay, and at most one new fault comes for each literal that it mends.
/// Nothing is fixed in a file that breaks. Returns `Err` if an allocation fails.
pub fn fixes(alloc: Global, text: &str, options: &Options<'_>) -> Result<FileFixes, AllocError>
    ensures rounds { IfOk result (λ x. (r : ReportValue)
        × IsReport (map entry options.now.table.rows.items) options.now.is_from_2021 text.now r
        × AreRounds (map entry options.now.table.rows.items) options.now.is_from_2021
        (most_rounds text.now) text.now r (bytes_or x.text text.now) x.report
        (map (λ w. w.now) x.ids.items)) }
    ensures report { IfOk result (λ x. IsReport (map entry options.now.table.rows.items)
        options.now.is_from_2021 (bytes_or x.text text.now) x.report) }
    ensures spans { IfOk result (λ x. All (HasSpans (bytes_or x.text text.now))
        x.report.findings.items) }
{
    let mut file_fixes = FileFixes {
        text: None,
        ids: Vec::new(alloc),
        report: file_faults(alloc, text, options)?,
    };
    let mut rounds_left = most_rounds(text);
    while rounds_left > 0 {
        let Some(round) = next_round(alloc, text, &file_fixes, options)? else {
            return Ok(file_fixes);
        };
        file_fixes = with_round(file_fixes, round)?;
        rounds_left -= 1;
    }
    Ok(file_fixes)
}
