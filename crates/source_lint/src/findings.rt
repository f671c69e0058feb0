//! The findings of a call: its faults, in words and with their places in the file.

ghost use Rattle.std.specs.Prelude.{◌≡◌, ◌++◌, ◌∷◌, [], List, IfOk, OnOk, map, option_map};
ghost use Rattle.std.specs.List.{All};
ghost use Rattle.call_faults.specs.CallFaults.{is_warning};
ghost use Rattle.call_faults.specs.Views.{seen_call, seen_edit, seen_fault, seen_help};
ghost use Rattle.source_lint.specs.Findings.{AreFindings, TellAll, Tells};
ghost use Rattle.asm_lint.specs.Spans.{HasSpans};
ghost use Rattle.source_lint.specs.Findings.{copies, counted_faults, counted_help, is_text_fault};
ghost use Rattle.source_report.specs.declared.report.Finding.{Finding as FindingValue};

use crate::labels::{help, notes};
use asm_lint::{Site, labels, primary_span};
use call_faults::{CallEdit, CallFault, CallHelp, CallReport};
use source_report::Finding;
use std::alloc::{AllocError, Global};

/// Returns whether a fault is only a warning.
fn is_warning(fault: &CallFault<'_>) -> bool
    ensures { result ≡ is_warning (seen_fault fault.now) }
{
    matches!(fault, CallFault::NameUsedByIndex { .. })
}

/// Returns whether a fault is one of the format string.
fn is_text_fault(fault: &CallFault<'_>) -> bool
    ensures { result ≡ is_text_fault (seen_fault fault.now) }
{
    matches!(fault, CallFault::Text(_))
}

/// Returns whether one of these edits copies source.
fn copies(edits: &[CallEdit]) -> bool
    ensures { result ≡ copies (map seen_edit edits.now) }
{
    for edit in edits {
        if edit.copied_spot.is_some() {
            return true;
        }
    }
    false
}

/// Returns the help that counts where the number of arguments is known, and where it is not.
fn counted_help(help: Option<CallHelp>, is_whole: bool) -> Option<CallHelp>
    ensures { option_map seen_help result
        ≡ counted_help is_whole (option_map seen_help help) }
{
    match help {
        None => None,
        Some(help) => {
            if is_whole || !copies(&help.edits) {
                Some(help)
            } else {
                None
            }
        }
    }
}

/// Returns the finding of a fault of a call, whose number of arguments is known or not. Returns
/// `Err` if an allocation fails.
fn finding<'c>(
    alloc: Global,
    site: Site<'_, '_>,
    report: &CallReport<'c>,
    fault: &CallFault<'c>,
    is_whole: bool,
) -> Result<Finding, AllocError>
    ensures outcome { IfOk result (λ x.
        Tells is_whole (seen_call report.now) (seen_fault fault.now) x) }
    ensures spans { IfOk result (λ x. HasSpans site.entry.text.now x) }
{
    let mut title = String::new(alloc);
    report.put_title(&mut title, fault)?;
    let labels = labels(alloc, site, report.labels(alloc, fault)?)?;
    let span = primary_span(site, &labels);
    let notes = notes(alloc, site, report.notes(alloc, fault)?)?;
    let call_help = counted_help(report.help(alloc, fault)?, is_whole);
    let help = help(alloc, site, call_help)?;
    Ok(Finding {
        is_warning: is_warning(fault),
        id: fault.id(),
        title,
        span,
        labels,
        notes,
        help,
    })
}

/// Adds the finding of a fault of a call, unless only that of its string counts. Returns `Err` if
/// an allocation fails.
fn put_finding<'c>(
    alloc: Global,
    findings: &mut Vec<Finding>,
    site: Site<'_, '_>,
    report: &CallReport<'c>,
    fault: &CallFault<'c>,
    is_whole: bool,
) -> Result<(), AllocError>
    ensures outcome { OnOk result ((xs : List FindingValue)
        × (findings.new.items ≡ findings.old.items ++ xs)
        × TellAll is_whole (seen_call report.now)
        (counted_faults is_whole (seen_fault fault.now ∷ [])) xs) }
    ensures spans { OnOk result (All (HasSpans site.entry.text.now) findings.old.items
        → All (HasSpans site.entry.text.now) findings.new.items) }
{
    if is_whole || is_text_fault(fault) {
        findings.push(finding(alloc, site, report, fault, is_whole)?)?;
    }
    Ok(())
}

/// Adds the findings of the faults of a call, or only that of its string. Returns `Err` if an
/// allocation fails.
pub fn put_findings<'c>(
    alloc: Global,
    findings: &mut Vec<Finding>,
    site: Site<'_, '_>,
    report: &CallReport<'c>,
    is_whole: bool,
) -> Result<(), AllocError>
    ensures outcome { OnOk result ((xs : List FindingValue)
        × (findings.new.items ≡ findings.old.items ++ xs)
        × AreFindings is_whole (seen_call report.now) xs) }
    ensures spans { OnOk result (All (HasSpans site.entry.text.now) findings.old.items
        → All (HasSpans site.entry.text.now) findings.new.items) }
{
    for fault in &report.faults {
        put_finding(alloc, findings, site, report, fault, is_whole)?;
    }
    Ok(())
}
