//! The faults of the format strings of a file.

ghost use Rattle.std.specs.Prelude.{◌≡◌, ◌++◌, ◌+◌, Bool, List, Contains, IfOk, OnOk, map};
ghost use Rattle.std.specs.List.{All};
ghost use Rattle.rust_trees.specs.Balances.{BreaksAt, IsBalanced};
ghost use Rattle.rust_trees.specs.Forests.{IsPair};
ghost use Rattle.rust_trees.specs.Leaves.{Leaf};
ghost use Rattle.format_calls.specs.Rows.{Entry, entry};
ghost use Rattle.format_calls.specs.declared.listing.Call.{Call as CallValue};
ghost use Rattle.source_lint.specs.CallLists.{Gives};
ghost use Rattle.source_lint.specs.Files.{AreLeaves};
ghost use Rattle.asm_lint.specs.Spans.{HasSpans};
ghost use Rattle.source_lint.specs.Macros.{Own, macro_names, own};
ghost use Rattle.source_lint.specs.Readings.{Reads, scope};
ghost use Rattle.source_lint.specs.Reports.{IsOwnReport, IsReport, ReadsAttributes, ReadsCalls};
ghost use Rattle.source_report.specs.declared.report.CallReading.{CallReading as ReadingValue};
ghost use Rattle.source_report.specs.declared.report.Finding.{Finding as FindingValue};

use crate::macros::{File, OwnMacro, macro_names};
use crate::readings::read_call;
use asm_lint::read_attributes;
use format_calls::{Call, Part, Table, calls, next_part};
use rust_trees::{Balance, FileBreak, Source, Tokens};
use source_report::{CallReading, Finding, Options, Report};
use std::alloc::{AllocError, Global};

/// The readings of the calls of a file so far, and the findings in these calls.
#[derive(Drop)]
pub struct Readings {
    /// How much of each call was read.
    pub calls: Vec<CallReading>,
    /// The faults of these calls, one call after the other.
    pub findings: Vec<Finding>,
}

/// Reads calls of a part of a file, one after the other, and adds how much of each is read and its
/// findings. Returns `Err` if an allocation fails.
pub fn read_calls<'a>(
    alloc: Global,
    readings: &mut Readings,
    file: File<'_, 'a>,
    part: &Part<'a>,
    calls: &[Call],
) -> Result<(), AllocError>
    requires { (c : CallValue) → Contains calls.now c → IsPair part.now (c.name + 2) c.close }
    ensures read { OnOk result ((rs : List ReadingValue) × (xs : List FindingValue)
        × (readings.new.calls.items ≡ readings.old.calls.items ++ rs)
        × (readings.new.findings.items ≡ readings.old.findings.items ++ xs)
        × Gives (Reads (scope file.entry) file.entry.is_from_2021 part.now) calls.now rs xs) }
    ensures spans { OnOk result (All (HasSpans file.entry.text.now)
        readings.old.findings.items
        → All (HasSpans file.entry.text.now) readings.new.findings.items) }
{
    let mut rest = calls;
    while let Some((call, others)) = rest.split_first() {
        let reading = read_call(alloc, &mut readings.findings, file, part, call)?;
        readings.calls.push(reading)?;
        rest = others;
    }
    Ok(())
}

/// Reads the calls of a file, part by part, and adds all its tokens to `balance`. Returns `Err` if
/// an allocation fails.
fn read_file(
    alloc: Global,
    file: File<'_, '_>,
    table: &Table<'_>,
    balance: &mut Balance,
) -> Result<Readings, AllocError>
    ensures read { IfOk result (λ f. (ls : List Leaf) × AreLeaves file.entry.text.now ls
        × ReadsCalls (map entry table.now.rows.items) (scope file.entry) file.entry.is_from_2021
        ls f.calls.items f.findings.items
        × ((w : List Leaf) → IsBalanced w balance.old → IsBalanced (w ++ ls) balance.new)) }
    ensures spans { IfOk result (λ f. All (HasSpans file.entry.text.now)
        f.findings.items) }
{
    let mut readings = Readings {
        calls: Vec::new(alloc),
        findings: Vec::new(alloc),
    };
    let mut rest = Tokens::new(file.text);
    while let Some(source) = next_part(alloc, &mut rest, table, balance)? {
        let part = Part::new(alloc, source)?;
        let calls = calls(alloc, part.source(), table)?;
        read_calls(alloc, &mut readings, file, &part, &calls)?;
    }
    Ok(readings)
}

/// Adds the findings in the texts of the attributes of a file. Returns `Err` if an allocation
/// fails.
fn put_attributes(alloc: Global, findings: &mut Vec<Finding>, text: &str) -> Result<(), AllocError>
    ensures read { OnOk result ((ls : List Leaf) → AreLeaves text.now ls → (xs : List FindingValue)
        × (findings.new.items ≡ findings.old.items ++ xs) × ReadsAttributes text.now ls xs) }
    ensures spans { OnOk result (All (HasSpans text.now) findings.old.items
        → All (HasSpans text.now) findings.new.items) }
{
    if !text.contains("on_unimplemented") {
        return Ok(());
    }
    let source = Source::new(alloc, text)?;
    read_attributes(alloc, findings, text, &source)?;
    Ok(())
}

/// Returns the report on a file whose calls have these readings, and that breaks there or not: the
/// findings in its attributes follow those in its calls. Returns `Err` if an allocation fails.
pub(crate) fn report_with(
    alloc: Global,
    text: &str,
    readings: Readings,
    first_break: Option<FileBreak>,
) -> Result<Report, AllocError>
    ensures report { IfOk result (λ r. (es : List Entry) (ms : List Own) (is_new : Bool)
        (ls : List Leaf) → AreLeaves text.now ls
        → ReadsCalls es (record { text = text.now; own = ms; defined = macro_names ls }) is_new ls
        readings.calls.items readings.findings.items → BreaksAt ls first_break
        → IsOwnReport es ms is_new text.now r) }
    ensures spans { IfOk result (λ r. All (HasSpans text.now) readings.findings.items
        → All (HasSpans text.now) r.findings.items) }
{
    let mut all_readings = readings;
    put_attributes(alloc, &mut all_readings.findings, text)?;
    Ok(Report {
        calls: all_readings.calls,
        findings: all_readings.findings,
        first_break,
    })
}

/// Returns the report on a file whose calls have these readings, and whose tokens were all added to
/// `balance`. Returns `Err` if an allocation fails.
pub fn report_on(
    alloc: Global,
    text: &str,
    readings: Readings,
    balance: Balance,
) -> Result<Report, AllocError>
    ensures report { IfOk result (λ r. (es : List Entry) (ms : List Own) (is_new : Bool)
        (ls : List Leaf) → AreLeaves text.now ls
        → ReadsCalls es (record { text = text.now; own = ms; defined = macro_names ls }) is_new ls
        readings.calls.items readings.findings.items → IsBalanced ls balance
        → IsOwnReport es ms is_new text.now r) }
    ensures spans { IfOk result (λ r. All (HasSpans text.now) readings.findings.items
        → All (HasSpans text.now) r.findings.items) }
{
    let first_break = balance.first_break();
    report_with(alloc, text, readings, first_break)
}

/// Reads a source file as [`file_faults`] does, and also its calls of these macros, which it
/// defines and the table has. Returns `Err` if an allocation fails.
pub fn own_file_faults(
    alloc: Global,
    text: &str,
    options: &Options<'_>,
    own_macros: &[OwnMacro<'_>],
) -> Result<Report, AllocError>
    ensures report { IfOk result (λ r. IsOwnReport (map entry options.now.table.rows.items)
        (map own own_macros.now) options.now.is_from_2021 text.now r) }
    ensures spans { IfOk result (λ r. All (HasSpans text.now) r.findings.items) }
{
    let names = macro_names(alloc, text)?;
    let file = File {
        text,
        macros: &names,
        own_macros,
        is_from_2021: options.is_from_2021,
    };
    let mut balance = Balance::new(alloc);
    let readings = read_file(alloc, file, &options.table, &mut balance)?;
    report_on(alloc, text, readings, balance)
}

/// Reads a source file, and returns the faults of its calls of macros that take a format string or
/// templates of assembly, and then those of the texts of its attributes. No call of a macro that
/// the file defines is read.
/// Lines may end with LF or CRLF, and a byte order mark may stand at the start. Returns `Err` if an
/// allocation fails.
pub fn file_faults(alloc: Global, text: &str, options: &Options<'_>) -> Result<Report, AllocError>
    ensures report { IfOk result (λ r. IsReport (map entry options.now.table.rows.items)
        options.now.is_from_2021 text.now r) }
    ensures spans { IfOk result (λ r. All (HasSpans text.now) r.findings.items) }
{
    own_file_faults(alloc, text, options, &[])
}
