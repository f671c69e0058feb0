//! Whether the faults that a round mends are gone after it.

ghost use Rattle.std.specs.Prelude.{◌≡◌, ◌+◌, ◌-◌, ◌∷◌, ◌||◌, ◌==◌, ℕ, IfOk, List, OnOk, length};
ghost use Rattle.std.specs.Prelude.{map};
ghost use Rattle.std.specs.BTreeSet.{contains};
ghost use Rattle.std.specs.List.{list_any};
ghost use Rattle.std.specs.Ordering.{nat_cmp};
ghost use Rattle.fault_fixes.specs.SeenEdits.{seen_edit};
ghost use Rattle.source_report.specs.declared.report.Finding.{Finding as FindingValue};
ghost use Rattle.source_report.specs.Suggestions.{end_after, mended_faults};
ghost use Rattle.file_fixes.specs.Mending.{are_gone, moved_ends, moved_offset, new_end};

use fault_fixes::Edit;
use source_report::{Finding, are_after, edits_of, is_applicable};
use std::alloc::{AllocError, Global};
use std::collections::BTreeSet;

/// Where an edit ends.
#[derive(Clone, Copy)]
struct EditEnd {
    /// The byte offset in the text without the edits.
    old: usize,
    /// The byte offset in the text with them.
    new: usize,
}

/// Returns the sum of two numbers of bytes. Returns `Err` if no memory has so many.
pub(crate) fn sum(a: usize, b: usize) -> Result<usize, AllocError>
    ensures { IfOk result (λ n. n ≡ a + b) }
{
    let Some(total) = a.checked_add(b) else {
        return Err(AllocError);
    };
    Ok(total)
}

/// Returns where an edit ends. The edit before it ends at `before`. Returns `Err` as [`sum`] does.
fn end_of(before: EditEnd, edit: &Edit<'_>) -> Result<EditEnd, AllocError>
    ensures old { IfOk result (λ x. x.old ≡ edit.now.span.end) }
    ensures new { IfOk result (λ x. x.new
        ≡ before.new + (edit.now.span.start - before.old) + length edit.now.text.now) }
{
    let start = sum(before.new, edit.span.start.saturating_sub(before.old))?;
    Ok(EditEnd {
        old: edit.span.end,
        new: sum(start, edit.text.len())?,
    })
}

/// Returns where an offset of a text is in the text with these edits. The edit before them ends at
/// `before`. Returns `Err` as [`sum`] does.
fn moved_offset(before: EditEnd, edits: &[Edit<'_>], offset: usize) -> Result<usize, AllocError>
    ensures { IfOk result (λ n. n
        ≡ moved_offset before.old before.new (map seen_edit edits.now) offset) }
{
    let mut end = before;
    for edit in edits {
        if edit.span.start >= offset {
            return sum(end.new, offset.saturating_sub(end.old));
        }
        end = end_of(end, edit)?;
    }
    sum(end.new, offset.saturating_sub(end.old))
}

/// Returns where the last of these edits ends, or `before` if there is none. Returns `Err` as
/// [`sum`] does.
fn last_end(before: EditEnd, edits: &[Edit<'_>]) -> Result<EditEnd, AllocError>
    ensures old { IfOk result (λ x. x.old ≡ end_after before.old (map seen_edit edits.now)) }
    ensures new { IfOk result (λ x. x.new
        ≡ new_end before.old before.new (map seen_edit edits.now)) }
{
    let mut end = before;
    for edit in edits {
        end = end_of(end, edit)?;
    }
    Ok(end)
}

/// Adds an end. Returns `Err` if an allocation fails.
fn insert_end(ends: &mut BTreeSet<usize>, end: usize) -> Result<(), AllocError>
    ensures { OnOk result ((n : ℕ)
        → contains nat_cmp ends.new n ≡ (contains nat_cmp ends.old n || end == n)) }
{
    ends.insert(end)?;
    Ok(())
}

/// Adds to the ends of mended faults that of this one, if it is mended. The edit before its edits
/// ends at `before`. Returns where the last edit ends then. Returns `Err` if an allocation fails.
fn add_end(
    alloc: Global,
    ends: &mut BTreeSet<usize>,
    before: EditEnd,
    finding: &Finding,
) -> Result<EditEnd, AllocError>
    ensures { IfOk result (λ x. (n : ℕ) (xs : List FindingValue)
        → (contains nat_cmp ends.new n
        || list_any (λ k. k == n) (moved_ends x.old x.new (mended_faults x.old xs)))
        ≡ (contains nat_cmp ends.old n || list_any (λ k. k == n)
        (moved_ends before.old before.new (mended_faults before.old (finding.now ∷ xs))))) }
{
    let edits = edits_of(alloc, finding)?;
    if edits.is_empty() || !are_after(before.old, edits.as_slice()) {
        return Ok(before);
    }
    let moved_end = moved_offset(before, edits.as_slice(), finding.span.end)?;
    insert_end(ends, moved_end)?;
    let end = last_end(before, edits.as_slice())?;
    Ok(end)
}

/// Returns where the faults that a round mends end in the text after it. Returns `Err` if an
/// allocation fails.
fn mended_ends(alloc: Global, findings: &[Finding]) -> Result<BTreeSet<usize>, AllocError>
    ensures { IfOk result (λ s. (n : ℕ) → contains nat_cmp s n
        ≡ list_any (λ k. k == n) (moved_ends 0 0 (mended_faults 0 findings.now))) }
{
    let mut ends = BTreeSet::new(alloc);
    let mut end = EditEnd { old: 0, new: 0 };
    for finding in findings {
        end = add_end(alloc, &mut ends, end, finding)?;
    }
    Ok(ends)
}

/// Returns whether the faults that a round mends are gone: none of the faults after it could be
/// mended and ends where one of them ended. Returns `Err` if an allocation fails.
pub(crate) fn are_gone(alloc: Global, old: &[Finding], new: &[Finding]) -> Result<bool, AllocError>
    ensures { IfOk result (λ b. b
        ≡ are_gone (moved_ends 0 0 (mended_faults 0 old.now)) new.now) }
{
    let ends = mended_ends(alloc, old)?;
    for fault in new {
        if is_applicable(fault.id) && ends.contains(&fault.span.end) {
            return Ok(false);
        }
    }
    Ok(true)
}
