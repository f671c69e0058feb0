//! The report on missing and unused arguments.

ghost use Rattle.std.specs.Prelude.{◌≡◌, [], IfOk, IsOk, List, map};
ghost use Rattle.rustc_parse_format.specs.Views.{seen_piece};
ghost use Rattle.placeholder_check.specs.Collection.{Holds, IsNew};
ghost use Rattle.placeholder_check.specs.Uses.{Use, uses};
ghost use Rattle.placeholder_check.specs.Report.{IsReport, Report as ReportOf};
ghost use Rattle.placeholder_check.specs.Views.{seen_report, texts};

use crate::indices::{members_from, missing_indices};
use crate::names::{later_names, missing_names, unused_names};
use crate::uses::{Uses, uses_of};
use rustc_parse_format::Piece;
use std::alloc::{AllocError, Global};

/// The arguments that are missing or unused. No list has an entry twice.
#[derive(Drop)]
pub struct Report<'a> {
    /// The indices that are used and not given, in ascending order.
    pub missing_index: Vec<usize>,
    /// The names that are used and not given, in the order of their first uses.
    pub missing_name: Vec<&'a str>,
    /// The indices that are given and not used, in ascending order.
    pub unused_index: Vec<usize>,
    /// The names that are given and not used, in the order in which they are first given.
    pub unused_name: Vec<&'a str>,
}

/// Compares the arguments that are used with those that are given, as [`check`] does with those
/// that pieces use. Returns `Err` if an allocation fails; there is then no report.
pub fn check_uses<'a>(
    alloc: Global,
    uses: &Uses<'a>,
    positional: usize,
    names: &[&'a str],
) -> Result<Report<'a>, AllocError>
    ensures report { IfOk result (λ r. (us : List Use) → Holds us uses.now
        → IsReport us positional (texts names.now) (seen_report r)) }
    // No other report satisfies this.
    ensures only { IfOk result (λ r. (us : List Use) → Holds us uses.now → (s : ReportOf)
        → IsReport us positional (texts names.now) s → s ≡ seen_report r) }
    // If there are no uses and no arguments, the call succeeds even if every allocation fails.
    ensures empty { IsNew uses.now → positional ≡ 0 → names.now ≡ [] → IsOk result }
{
    let missing_index = members_from(alloc, &uses.indices, positional)?;
    let used_count = uses.indices.count.saturating_sub(missing_index.len());
    let room = positional.saturating_sub(used_count);
    let unused_index = missing_indices(alloc, &uses.indices, positional, room)?;
    let later_set = later_names(alloc, names)?;
    let missing_name = missing_names(alloc, &uses.names.list, names, &later_set)?;
    let unused_name = unused_names(alloc, names, &uses.names)?;
    Ok(Report {
        missing_index,
        missing_name,
        unused_index,
        unused_name,
    })
}

/// Compares the arguments that the pieces use with those that are given: `positional` many by
/// position, with the indices from 0, and those in `names` by name.
///
/// The position, the width and the precision of a placeholder can each use an argument, as in the
/// documentation of `std::fmt`; but here an index never refers to an argument that is given by
/// name. Returns `Err` if an allocation fails; there is then no report.
pub fn check<'a>(
    alloc: Global,
    pieces: &[Piece<'a>],
    positional: usize,
    names: &[&'a str],
) -> Result<Report<'a>, AllocError>
    ensures report { IfOk result
        (λ r. IsReport (uses (map seen_piece pieces.now)) positional (texts names.now)
        (seen_report r)) }
    // No other report satisfies this.
    ensures only { IfOk result (λ r. (s : ReportOf)
        → IsReport (uses (map seen_piece pieces.now)) positional (texts names.now) s
        → s ≡ seen_report r) }
    // If there are no pieces and no arguments, the call succeeds even if every allocation fails.
    ensures empty { pieces.now ≡ [] → positional ≡ 0 → names.now ≡ [] → IsOk result }
{
    let uses = uses_of(alloc, pieces)?;
    Ok(check_uses(alloc, &uses, positional, names)?)
}
