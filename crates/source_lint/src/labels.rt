//! The notes and helps of findings, with their ranges in the file.

ghost use Rattle.std.specs.Prelude.{◌≡◌, ◌++◌, ℕ, List, IfOk, IfSome, OnOk, length, map};
ghost use Rattle.std.specs.Prelude.{option_map, string_bytes};
ghost use Rattle.std.specs.List.{All};
ghost use Rattle.call_faults.specs.Views.{seen_edit, seen_help, seen_note};
ghost use Rattle.source_lint.specs.Findings.{Copies, HasText, TellEdits, TellsHelp};
ghost use Rattle.asm_lint.specs.Spans.{IsSpan};

use asm_lint::{Site, spot_range};
use call_faults::{CallEdit, CallHelp, CallNote};
use source_report::{Edit, Help, Note};
use std::alloc::{AllocError, Global};
use std::ops::Range;
use text_faults::Spot;

/// Returns the ranges of places of a call. Returns `Err` if an allocation fails.
fn ranges(
    alloc: Global,
    site: Site<'_, '_>,
    spots: &[Spot],
) -> Result<Vec<Range<usize>>, AllocError>
    ensures count { IfOk result (λ v. length v.items ≡ length spots.now) }
    ensures spans { IfOk result (λ v. All (λ r. IsSpan site.entry.text.now r) v.items) }
{
    let mut ranges = Vec::new(alloc);
    for spot in spots {
        ranges.push(spot_range(site, *spot))?;
    }
    Ok(ranges)
}

/// Returns notes of a call with the ranges that they show. Returns `Err` if an allocation fails.
pub fn notes(
    alloc: Global,
    site: Site<'_, '_>,
    notes: Vec<CallNote>,
) -> Result<Vec<Note>, AllocError>
    ensures texts { IfOk result (λ v. map (λ x. string_bytes x.text) v.items
        ≡ map (λ n. n.text) (map seen_note notes.items)) }
    ensures counts { IfOk result (λ v. map (λ x. length x.ranges.items) v.items
        ≡ map (λ n. length n.spots) (map seen_note notes.items)) }
    ensures spans { IfOk result (λ v. All (λ x. All (λ r. IsSpan site.entry.text.now r)
        x.ranges.items) v.items) }
{
    let mut list = Vec::new(alloc);
    for note in notes {
        let ranges = ranges(alloc, site, &note.spots)?;
        list.push(Note {
            text: note.text,
            ranges,
        })?;
    }
    Ok(list)
}

/// Appends the source of a place of a call, if there is one. Returns `Err` if an allocation fails.
fn put_source(out: &mut String, site: Site<'_, '_>, spot: Option<Spot>) -> Result<(), AllocError>
    ensures { OnOk result ((s : List ℕ) × (string_bytes out.new ≡ string_bytes out.old ++ s)
        × Copies spot s) }
{
    if let Some(spot) = spot {
        let range = spot_range(site, spot);
        out.push_str(&site.text[range.start..range.end])?;
    }
    Ok(())
}

/// Returns the new text of an edit, from that before the source that it copies, that source and the
/// rest. Returns `Err` if an allocation fails.
fn edit_text(site: Site<'_, '_>, edit: CallEdit) -> Result<String, AllocError>
    ensures { IfOk result (λ t. HasText (seen_edit edit) (string_bytes t)) }
{
    let mut text = edit.text;
    put_source(&mut text, site, edit.copied_spot)?;
    text.push_str(edit.rest)?;
    Ok(text)
}

/// Returns edits of a call with their ranges. Returns `Err` if an allocation fails.
fn edits(alloc: Global, site: Site<'_, '_>, edits: Vec<CallEdit>) -> Result<Vec<Edit>, AllocError>
    ensures outcome { IfOk result (λ v. TellEdits (map seen_edit edits.items) v.items) }
    ensures spans { IfOk result (λ v. All (λ x. IsSpan site.entry.text.now x.range) v.items) }
{
    let mut list = Vec::new(alloc);
    for edit in edits {
        let range = spot_range(site, edit.spot);
        let text = edit_text(site, edit)?;
        list.push(Edit { range, text })?;
    }
    Ok(list)
}

/// Returns a help of a call with the ranges of its edits. Returns `Err` if an allocation fails.
pub fn help(
    alloc: Global,
    site: Site<'_, '_>,
    help: Option<CallHelp>,
) -> Result<Option<Help>, AllocError>
    ensures outcome { IfOk result (λ o. TellsHelp (option_map seen_help help) o) }
    ensures spans { IfOk result (λ o. IfSome o (λ x. All (λ e. IsSpan site.entry.text.now e.range)
        x.edits.items)) }
{
    match help {
        None => Ok(None),
        Some(help) => {
            let edits = edits(alloc, site, help.edits)?;
            Ok(Some(Help {
                text: help.text,
                edits,
            }))
        }
    }
}
