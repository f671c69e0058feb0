//! The findings of a call of a macro for inline assembly: its faults, in words and with their
//! places in the file.

ghost use Rattle.std.specs.Prelude.{◌≡◌, ◌++◌, ◌∷◌, [], List, IfOk, IfSome, OnOk, length, map};
ghost use Rattle.std.specs.Prelude.{option_map, string_bytes};
ghost use Rattle.std.specs.List.{All};
ghost use Rattle.asm_faults.specs.Views.{seen_fault, seen_label, seen_note, seen_operand};
ghost use Rattle.asm_lint.specs.AsmFindings.{TellAllAsm, TellsAsm, counted_asm};
ghost use Rattle.asm_lint.specs.AsmFindings.{is_template_fault, shown_count};
ghost use Rattle.asm_lint.specs.Spans.{HasSpans, IsSpan};
ghost use Rattle.source_report.specs.declared.report.Finding.{Finding as FindingValue};

use crate::literals::Literal;
use crate::spans::{Site, range_in, spot_range};
use asm_faults::{AsmCall, AsmFault, AsmLabel, AsmNote, AsmSpot};
use format_calls::Argument;
use rust_trees::Token;
use source_report::{Finding, Help, Label, Note};
use std::alloc::{AllocError, Global};
use std::ops::Range;
use text_faults::Spot;

/// A template of a call.
#[derive(Drop)]
pub struct ReadTemplate<'a> {
    /// Its literal.
    pub token: Token<'a>,
    /// The CRs of the literal that stand before LF, as `dropped_crs` returns them.
    pub crs: Vec<usize>,
    /// The literal with the text that it stands for.
    pub literal: Literal,
}

/// A call of a macro for inline assembly in its file.
#[derive(Clone, Copy)]
pub struct AsmSite<'s, 'a> {
    /// The text of the file.
    pub text: &'a str,
    /// The tokens of the part of the file that has the call.
    pub tokens: &'s [Token<'a>],
    /// Its templates.
    pub templates: &'s [ReadTemplate<'a>],
    /// The arguments that are its operands.
    pub operands: &'s [Argument],
}

/// Returns the bytes of the file that a place of a call is.
fn asm_range(site: AsmSite<'_, '_>, spot: AsmSpot) -> Range<usize>
    ensures { IsSpan site.entry.text.now result }
{
    let (index, place) = match spot {
        AsmSpot::Operand(operand) => (0, Spot::Argument(operand)),
        AsmSpot::Template(template) => (template, Spot::Literal),
        AsmSpot::Bytes {
            template,
            start,
            end,
        } => (template, Spot::Bytes { start, end }),
    };
    let Some(template) = site.templates.get(index) else {
        return range_in(site.text, 0, 0);
    };
    let one = Site {
        text: site.text,
        tokens: site.tokens,
        literal: template.token,
        crs: &template.crs,
        arguments: site.operands,
        name: 0,
        close: 0,
    };
    spot_range(one, place)
}

/// Returns labels with their ranges. Returns `Err` if an allocation fails.
fn labels(
    alloc: Global,
    site: AsmSite<'_, '_>,
    labels: Vec<AsmLabel>,
) -> Result<Vec<Label>, AllocError>
    ensures primary { IfOk result (λ v. map (λ x. x.is_primary) v.items
        ≡ map (λ l. l.is_primary) (map seen_label labels.items)) }
    ensures texts { IfOk result (λ v. map (λ x. string_bytes x.text) v.items
        ≡ map (λ l. l.text) (map seen_label labels.items)) }
    ensures spans { IfOk result (λ v. All (λ x. IsSpan site.entry.text.now x.range) v.items) }
{
    let mut list = Vec::new(alloc);
    for label in labels {
        list.push(Label {
            range: asm_range(site, label.spot),
            is_primary: label.is_primary,
            text: label.text,
        })?;
    }
    Ok(list)
}

/// Returns the range of a place, if there is one. Returns `Err` if an allocation fails.
fn ranges(
    alloc: Global,
    site: AsmSite<'_, '_>,
    spot: Option<AsmSpot>,
) -> Result<Vec<Range<usize>>, AllocError>
    ensures count { IfOk result (λ v. length v.items ≡ shown_count spot) }
    ensures spans { IfOk result (λ v. All (λ r. IsSpan site.entry.text.now r) v.items) }
{
    let mut ranges = Vec::new(alloc);
    if let Some(spot) = spot {
        ranges.push(asm_range(site, spot))?;
    }
    Ok(ranges)
}

/// Returns notes with the ranges that they show. Returns `Err` if an allocation fails.
fn notes(alloc: Global, site: AsmSite<'_, '_>, notes: Vec<AsmNote>) -> Result<Vec<Note>, AllocError>
    ensures texts { IfOk result (λ v. map (λ x. string_bytes x.text) v.items
        ≡ map (λ n. n.text) (map seen_note notes.items)) }
    ensures counts { IfOk result (λ v. map (λ x. length x.ranges.items) v.items
        ≡ map (λ n. shown_count n.spot) (map seen_note notes.items)) }
    ensures spans { IfOk result (λ v. All (λ x. All (λ r. IsSpan site.entry.text.now r)
        x.ranges.items) v.items) }
{
    let mut list = Vec::new(alloc);
    for note in notes {
        let ranges = ranges(alloc, site, note.spot)?;
        list.push(Note {
            text: note.text,
            ranges,
        })?;
    }
    Ok(list)
}

/// Returns a help, which has no edits. Does not allocate.
fn help(alloc: Global, help: Option<AsmNote>) -> Option<Help>
    ensures text { option_map (λ x. string_bytes x.text) result
        ≡ option_map (λ n. n.text) (option_map seen_note help) }
    ensures no_edits { IfSome result (λ x. x.edits.items ≡ []) }
{
    match help {
        None => None,
        Some(help) => Some(Help {
            text: help.text,
            edits: Vec::new(alloc),
        }),
    }
}

/// Returns the range of the primary label that comes first in the file, or an empty one if there is
/// none.
fn primary_span(site: AsmSite<'_, '_>, labels: &[Label]) -> Range<usize>
    ensures { IsSpan site.entry.text.now result }
{
    let mut start = 0;
    let mut end = 0;
    let mut is_found = false;
    for label in labels {
        if label.is_primary && (!is_found || label.range.start < start) {
            start = label.range.start;
            end = label.range.end;
            is_found = true;
        }
    }
    range_in(site.text, start, end)
}

/// Returns the finding of a fault of a call. Returns `Err` if an allocation fails.
fn finding<'c>(
    alloc: Global,
    site: AsmSite<'_, '_>,
    call: &AsmCall<'c>,
    fault: &AsmFault<'c>,
) -> Result<Finding, AllocError>
    ensures outcome { IfOk result (λ x. TellsAsm (map seen_operand call.now.operands.items)
        (seen_fault fault.now) x) }
    ensures spans { IfOk result (λ x. HasSpans site.entry.text.now x) }
{
    let mut title = String::new(alloc);
    call.put_title(&mut title, fault)?;
    let labels = labels(alloc, site, call.labels(alloc, fault)?)?;
    let span = primary_span(site, &labels);
    let notes = notes(alloc, site, call.notes(alloc, fault)?)?;
    let help = help(alloc, call.help(alloc, fault)?);
    Ok(Finding {
        is_warning: false,
        id: fault.id(),
        title,
        span,
        labels,
        notes,
        help,
    })
}

/// Returns whether a fault is one of a template.
fn is_template_fault(fault: &AsmFault<'_>) -> bool
    ensures { result ≡ is_template_fault (seen_fault fault.now) }
{
    matches!(fault, AsmFault::Text { .. })
}

/// Adds the finding of a fault of a call, unless only that of a template counts. Returns `Err` if
/// an allocation fails.
fn put_finding<'c>(
    alloc: Global,
    findings: &mut Vec<Finding>,
    site: AsmSite<'_, '_>,
    call: &AsmCall<'c>,
    fault: &AsmFault<'c>,
    is_whole: bool,
) -> Result<(), AllocError>
    ensures outcome { OnOk result ((xs : List FindingValue)
        × (findings.new.items ≡ findings.old.items ++ xs)
        × TellAllAsm (map seen_operand call.now.operands.items)
        (counted_asm is_whole (seen_fault fault.now ∷ [])) xs) }
    ensures spans { OnOk result (All (HasSpans site.entry.text.now) findings.old.items
        → All (HasSpans site.entry.text.now) findings.new.items) }
{
    if is_whole || is_template_fault(fault) {
        findings.push(finding(alloc, site, call, fault)?)?;
    }
    Ok(())
}

/// Adds the findings of the faults of a call, or only that of a template. Returns `Err` if an
/// allocation fails.
pub fn put_findings<'c>(
    alloc: Global,
    findings: &mut Vec<Finding>,
    site: AsmSite<'_, '_>,
    call: &AsmCall<'c>,
    is_whole: bool,
) -> Result<(), AllocError>
    ensures outcome { OnOk result ((xs : List FindingValue)
        × (findings.new.items ≡ findings.old.items ++ xs)
        × TellAllAsm (map seen_operand call.now.operands.items)
        (counted_asm is_whole (map seen_fault call.now.faults.items)) xs) }
    ensures spans { OnOk result (All (HasSpans site.entry.text.now) findings.old.items
        → All (HasSpans site.entry.text.now) findings.new.items) }
{
    for fault in &call.faults {
        put_finding(alloc, findings, site, call, fault, is_whole)?;
    }
    Ok(())
}
