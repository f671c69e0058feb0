//! A text with the edits of faults.

ghost use Rattle.std.specs.Prelude.{◌≡◌, ◌++◌, ◌∷◌, IfOk, List, OnOk, drop, map, take};
ghost use Rattle.fault_fixes.specs.Edits.{Edit as EditValue, edited_bytes};
ghost use Rattle.fault_fixes.specs.SeenEdits.{seen_edit};
ghost use Rattle.source_report.specs.Suggestions.{all_edits, end_after, mended_faults};
ghost use Rattle.source_report.specs.EditViews.{with_edits, with_faults, with_ids};
ghost use Rattle.source_report.specs.declared.report.Finding.{Finding as FindingValue};

use crate::report::Finding;
use crate::suggestions::{are_after, edits_of};
use fault_fixes::Edit;
use std::alloc::{AllocError, Global};

/// A text in the middle of its edits.
#[derive(Drop)]
pub struct EditedText<'t> {
    /// The part of the text with its edits that is written.
    pub bytes: Vec<u8>,
    /// The rest of the text.
    pub rest: &'t [u8],
    /// The byte offset at which the rest starts: where the last edit ends, or 0 if there is none.
    pub end: usize,
    /// The ids of the faults that are mended.
    pub ids: Vec<&'static str>,
}

/// Returns the first n bytes, or all if there are fewer.
fn front(bytes: &[u8], n: usize) -> &[u8]
    ensures { result.now ≡ take n bytes.now }
{
    bytes.get(..n).unwrap_or(bytes)
}

/// Returns the bytes after the first n, or none if there are no more.
fn rest_after(bytes: &[u8], n: usize) -> &[u8]
    ensures { result.now ≡ drop n bytes.now }
{
    bytes.get(n..).unwrap_or(&[])
}

/// Makes an edit. Returns `Err` if an allocation fails.
fn apply_edit(edited_text: &mut EditedText<'_>, edit: &Edit<'_>) -> Result<(), AllocError>
    ensures edit { OnOk result ((es : List EditValue) → with_edits edited_text.new es
        ≡ with_edits edited_text.old (seen_edit edit.now ∷ es)) }
    ensures end { OnOk result (edited_text.new.end ≡ edit.now.span.end) }
    ensures ids { OnOk result (edited_text.new.ids ≡ edited_text.old.ids) }
{
    let source = front(
        edited_text.rest,
        edit.span.start.saturating_sub(edited_text.end),
    );
    edited_text.bytes.extend_from_slice(source)?;
    edited_text.bytes.extend_from_slice(edit.text.as_bytes())?;
    edited_text.rest = rest_after(
        edited_text.rest,
        edit.span.end.saturating_sub(edited_text.end),
    );
    edited_text.end = edit.span.end;
    Ok(())
}

/// Makes edits, the first one first. Returns `Err` if an allocation fails.
fn apply_edits(edited_text: &mut EditedText<'_>, edits: &[Edit<'_>]) -> Result<(), AllocError>
    ensures edits { OnOk result ((es : List EditValue) → with_edits edited_text.new es
        ≡ with_edits edited_text.old (map seen_edit edits.now ++ es)) }
    ensures end { OnOk result (edited_text.new.end
        ≡ end_after edited_text.old.end (map seen_edit edits.now)) }
    ensures ids { OnOk result (edited_text.new.ids ≡ edited_text.old.ids) }
{
    for edit in edits {
        apply_edit(edited_text, edit)?;
    }
    Ok(())
}

/// Mends a fault, if it has edits, and these follow the last one. Returns `Err` if an allocation
/// fails.
fn mend(
    alloc: Global,
    edited_text: &mut EditedText<'_>,
    finding: &Finding,
) -> Result<(), AllocError>
    ensures text { OnOk result ((xs : List FindingValue) → with_faults edited_text.new xs
        ≡ with_faults edited_text.old (finding.now ∷ xs)) }
    ensures ids { OnOk result ((xs : List FindingValue) → with_ids edited_text.new xs
        ≡ with_ids edited_text.old (finding.now ∷ xs)) }
{
    let edits = edits_of(alloc, finding)?;
    if !edits.is_empty() && are_after(edited_text.end, edits.as_slice()) {
        apply_edits(edited_text, edits.as_slice())?;
        edited_text.ids.push(finding.id)?;
    }
    Ok(())
}

/// Mends the faults of a text that can be mended in one round. Returns `Err` if an allocation
/// fails.
pub fn mend_each<'t>(
    alloc: Global,
    text: &'t str,
    findings: &[Finding],
) -> Result<EditedText<'t>, AllocError>
    ensures text { IfOk result (λ x. x.bytes.items
        ≡ edited_bytes 0 (all_edits (mended_faults 0 findings.now)) text.now) }
    ensures ids { IfOk result (λ x. map (λ w. w.now) x.ids.items
        ≡ map (λ f. f.id.now) (mended_faults 0 findings.now)) }
{
    let mut edited_text = EditedText {
        bytes: Vec::new(alloc),
        rest: text.as_bytes(),
        end: 0,
        ids: Vec::new(alloc),
    };
    for finding in findings {
        mend(alloc, &mut edited_text, finding)?;
    }
    let rest = edited_text.rest;
    edited_text.bytes.extend_from_slice(rest)?;
    Ok(edited_text)
}
