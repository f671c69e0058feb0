//! The labels of findings, with their ranges in the file.

ghost use Rattle.std.specs.Prelude.{◌≡◌, IfOk, map, string_bytes};
ghost use Rattle.std.specs.List.{All};
ghost use Rattle.text_faults.specs.Views.{seen_label};
ghost use Rattle.asm_lint.specs.Spans.{IsSpan};

use crate::spans::{Site, range_in, spot_range};
use source_report::Label;
use std::alloc::{AllocError, Global};
use std::ops::Range;
use text_faults::CallLabel;

/// Returns labels of a call with their ranges. Returns `Err` if an allocation fails.
pub fn labels(
    alloc: Global,
    site: Site<'_, '_>,
    labels: Vec<CallLabel>,
) -> Result<Vec<Label>, AllocError>
    ensures primary { IfOk result (λ v. map (λ x. x.is_primary) v.items
        ≡ map (λ l. l.is_primary) (map seen_label labels.items)) }
    ensures texts { IfOk result (λ v. map (λ x. string_bytes x.text) v.items
        ≡ map (λ l. l.text) (map seen_label labels.items)) }
    ensures spans { IfOk result (λ v. All (λ x. IsSpan site.entry.text.now x.range) v.items) }
{
    let mut list = Vec::new(alloc);
    for label in labels {
        list.push(Label {
            range: spot_range(site, label.spot),
            is_primary: label.is_primary,
            text: label.text,
        })?;
    }
    Ok(list)
}

/// Returns the range of the primary label that comes first in the file, or an empty one if there is
/// none.
pub fn primary_span(site: Site<'_, '_>, labels: &[Label]) -> Range<usize>
    ensures { IsSpan site.entry.text.now result }
{
    let mut start = 0;
    let mut end = 0;
    let mut is_found = false;
    for label in labels {
        if label.is_primary && (!is_found || label.range.start < start) {
            start = label.range.start;
            end = label.range.end;
            is_found = true;
        }
    }
    range_in(site.text, start, end)
}
