//! The faults that a round does not mend, looked for in the report after it.

ghost use Rattle.std.specs.Prelude.{◌≡◌, ◌∷◌, IfOk, IfSome, IsNone, List, drop, false};
ghost use Rattle.source_report.specs.declared.report.Finding.{Finding as FindingValue};
ghost use Rattle.file_fixes.specs.FaultSearch.{are_found, is_alike};
ghost use Rattle.file_fixes.specs.FileFixes.{unmended_findings};

use crate::round_edits::end_after;
use source_report::{Finding, are_after, edits_of};
use std::alloc::{AllocError, Global};

/// Returns whether two faults have the same id and title.
fn is_alike(old: &Finding, new: &Finding) -> bool
    ensures { result ≡ is_alike old.now new.now }
{
    old.id == new.id && old.title == new.title
}

/// Returns the index after that of the first fault, from the index `from` on, with the id and title
/// of this one, or `None` if there is none.
fn index_after(finding: &Finding, faults: &[Finding], from: usize) -> Option<usize>
    ensures some { IfSome result (λ n. (xs : List FindingValue)
        → are_found (finding.now ∷ xs) (drop from faults.now) ≡ are_found xs (drop n faults.now)) }
    ensures none { IsNone result → (xs : List FindingValue)
        → are_found (finding.now ∷ xs) (drop from faults.now) ≡ false }
{
    let mut index = from;
    while let Some(fault) = faults.get(index) {
        index += 1;
        if is_alike(finding, fault) {
            return Some(index);
        }
    }
    None
}

/// Returns where the last edit of a fault ends, or `None` if the fault is not mended. The last edit
/// before these ends at `at`. Returns `Err` if an allocation fails.
fn mended_end(alloc: Global, at: usize, finding: &Finding) -> Result<Option<usize>, AllocError>
    ensures some { IfOk result (λ o. IfSome o (λ n. (xs : List FindingValue)
        → unmended_findings at (finding.now ∷ xs) ≡ unmended_findings n xs)) }
    ensures none { IfOk result (λ o. IsNone o → (xs : List FindingValue)
        → unmended_findings at (finding.now ∷ xs) ≡ finding.now ∷ unmended_findings at xs) }
{
    let edits = edits_of(alloc, finding)?;
    if edits.is_empty() || !are_after(at, edits.as_slice()) {
        return Ok(None);
    }
    Ok(Some(end_after(at, edits.as_slice())))
}

/// Returns whether the faults that a round does not mend are among the faults after it, in their
/// order. Returns `Err` if an allocation fails.
pub(crate) fn keeps_unmended(
    alloc: Global,
    old: &[Finding],
    new: &[Finding],
) -> Result<bool, AllocError>
    ensures { IfOk result (λ b. b ≡ are_found (unmended_findings 0 old.now) new.now) }
{
    let mut at = 0;
    let mut index = 0;
    for finding in old {
        if let Some(end) = mended_end(alloc, at, finding)? {
            at = end;
            continue;
        }
        let Some(next) = index_after(finding, new, index) else {
            return Ok(false);
        };
        index = next;
    }
    Ok(true)
}
