//! The faults of a file that is another one with changes in its calls alone.

ghost use Rattle.std.specs.Prelude.{IfOk, IfSome, List, map};
ghost use Rattle.std.specs.List.{All};
ghost use Rattle.rust_trees.specs.Balances.{AreEnded};
ghost use Rattle.rust_trees.specs.Forests.{IsForest};
ghost use Rattle.rust_trees.specs.Leaves.{Leaf};
ghost use Rattle.format_calls.specs.GapTexts.{AreGaps, texts};
ghost use Rattle.format_calls.specs.Rows.{entry};
ghost use Rattle.asm_lint.specs.Spans.{HasSpans};
ghost use Rattle.source_lint.specs.Files.{AreLeaves};
ghost use Rattle.source_lint.specs.Readings.{scope};
ghost use Rattle.source_lint.specs.Reports.{IsReport, ReadsCalls};

use crate::lint::{Readings, read_calls, report_with};
use crate::macros::{File, macro_names};
use format_calls::{Gaps, Part, Table, calls, next_known_part};
use rust_trees::Tokens;
use source_report::{Options, Report};
use std::alloc::{AllocError, Global};

/// Reads the calls of a file, part by part, where these texts stand between the parts. Returns
/// `None` if others do, and `Err` if an allocation fails.
fn read_parts(
    alloc: Global,
    file: File<'_, '_>,
    table: &Table<'_>,
    gaps: &Gaps<'_>,
) -> Result<Option<Readings>, AllocError>
    requires { AreGaps (map entry table.now.rows.items) (texts gaps.now) gaps.now.last.now }
    ensures read { IfOk result (λ o. IfSome o (λ f. (ls : List Leaf)
        × AreLeaves file.entry.text.now ls × ReadsCalls (map entry table.now.rows.items)
        (scope file.entry) file.entry.is_from_2021 ls f.calls.items f.findings.items
        × IsForest ls × AreEnded ls)) }
    ensures spans { IfOk result (λ o. IfSome o (λ f. All (HasSpans file.entry.text.now)
        f.findings.items)) }
{
    let mut readings = Readings {
        calls: Vec::new(alloc),
        findings: Vec::new(alloc),
    };
    let mut rest = Tokens::new(file.text);
    for gap in &gaps.fronts {
        let Some(source) = next_known_part(alloc, &mut rest, table, gap)? else {
            return Ok(None);
        };
        let part = Part::new(alloc, source)?;
        let calls = calls(alloc, part.source(), table)?;
        read_calls(alloc, &mut readings, file, &part, &calls)?;
    }
    if rest.rest() == gaps.last {
        Ok(Some(readings))
    } else {
        Ok(None)
    }
}

/// Reads a source file as [`file_faults`] does, where these texts stand between its parts. Returns
/// `None` if others do, and `Err` if an allocation fails.
pub fn changed_file_faults(
    alloc: Global,
    text: &str,
    options: &Options<'_>,
    gaps: &Gaps<'_>,
) -> Result<Option<Report>, AllocError>
    requires { AreGaps (map entry options.now.table.rows.items) (texts gaps.now)
        gaps.now.last.now }
    ensures report { IfOk result (λ o. IfSome o (λ r. IsReport
        (map entry options.now.table.rows.items) options.now.is_from_2021 text.now r)) }
    ensures spans { IfOk result (λ o. IfSome o (λ r. All (HasSpans text.now) r.findings.items)) }
{
    let names = macro_names(alloc, text)?;
    let file = File {
        text,
        macros: &names,
        own_macros: &[],
        is_from_2021: options.is_from_2021,
    };
    let Some(readings) = read_parts(alloc, file, &options.table, gaps)? else {
        return Ok(None);
    };
    let report = report_with(alloc, text, readings, None)?;
    Ok(Some(report))
}
