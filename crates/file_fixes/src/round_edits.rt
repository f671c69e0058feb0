//! The edits of a round.

ghost use Rattle.std.specs.Prelude.{◌≡◌, ◌++◌, ◌∷◌, IfOk, List, map};
ghost use Rattle.fault_fixes.specs.SeenEdits.{seen_edit};
ghost use Rattle.source_report.specs.declared.report.Finding.{Finding as FindingValue};
ghost use Rattle.source_report.specs.Suggestions.{all_edits, end_after, mended_faults};

use fault_fixes::Edit;
use source_report::{Finding, are_after, edits_of};
use std::alloc::{AllocError, Global};

/// Returns where the last edit ends, or `at` if there is none.
pub(crate) fn end_after(at: usize, edits: &[Edit<'_>]) -> usize
    ensures { result ≡ end_after at (map seen_edit edits.now) }
{
    let mut end = at;
    for edit in edits {
        end = edit.span.end;
    }
    end
}

/// Adds the edits of a fault if it is mended. The last edit before them ends at `at`. Returns where
/// the last edit ends now, or `Err` if an allocation fails.
fn add_edits<'f>(
    alloc: Global,
    all: &mut Vec<Edit<'f>>,
    at: usize,
    finding: &'f Finding,
) -> Result<usize, AllocError>
    ensures { IfOk result (λ n. (xs : List FindingValue)
        → map seen_edit all.new.items ++ all_edits (mended_faults n xs)
        ≡ map seen_edit all.old.items ++ all_edits (mended_faults at (finding.now ∷ xs))) }
{
    let mut edits = edits_of(alloc, finding)?;
    if edits.is_empty() || !are_after(at, edits.as_slice()) {
        return Ok(at);
    }
    let end = end_after(at, edits.as_slice());
    all.append(&mut edits)?;
    Ok(end)
}

/// Returns the edits of the faults that are mended in one round. Returns `Err` if an allocation
/// fails.
pub(crate) fn round_edits<'f>(
    alloc: Global,
    findings: &'f [Finding],
) -> Result<Vec<Edit<'f>>, AllocError>
    ensures { IfOk result (λ v. map seen_edit v.items ≡ all_edits (mended_faults 0 findings.now)) }
{
    let mut all = Vec::new(alloc);
    let mut at = 0;
    for finding in findings {
        at = add_edits(alloc, &mut all, at, finding)?;
    }
    Ok(all)
}
