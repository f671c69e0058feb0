//! The reading of a call: its pieces, if nothing is wrong with it.

ghost use Rattle.std.specs.Prelude.{◌≡◌, ◌+◌, ◌<◌, ◌^◌, IfOk, MatchOption, chars, length, map};
ghost use Rattle.std.specs.List.{list_all};
ghost use Rattle.rustc_parse_format.specs.Call.{pieces_of};
ghost use Rattle.rustc_parse_format.specs.Views.{seen_piece};
ghost use Rattle.rustc_parse_format.specs.State.{calls};
ghost use Rattle.rustc_parse_format.specs.Types.{bare_piece};
ghost use Rattle.rustc_parse_format.specs.World.{hashes, pieces_in};
ghost use Rattle.call_faults.specs.CallFaults.{is_warning};
ghost use Rattle.call_faults.specs.Clean.{IsClean};
ghost use Rattle.call_faults.specs.Views.{seen_fault, seen_given, start};
ghost use Rattle.inlined_arguments.specs.Inlining.{ReadsClean};

use call_faults::{CallFault, FormatArgument, FormatString, call_faults};
use rustc_parse_format::Piece;
use std::alloc::{AllocError, Global};

/// Returns whether a fault is only a warning.
fn is_warning(fault: &CallFault<'_>) -> bool
    ensures { result ≡ is_warning (seen_fault fault.now) }
{
    matches!(fault, CallFault::NameUsedByIndex { .. })
}

/// Returns whether faults are only warnings.
fn are_warnings(faults: &[CallFault<'_>]) -> bool
    ensures { result ≡ list_all is_warning (map seen_fault faults.now) }
{
    for fault in faults {
        if !is_warning(fault) {
            return false;
        }
    }
    true
}

/// Returns the pieces of the format string of a call, or `None` if something is wrong with the
/// call. Returns `Err` if an allocation fails.
pub(crate) fn read<'a>(
    alloc: Global,
    string: FormatString<'a>,
    arguments: &'a [FormatArgument<'a>],
) -> Result<Option<Vec<Piece<'a>>>, AllocError>
    requires { hashes string.style + length string.text.now + 2 < 2 ^ 64 }
    ensures { IfOk result (λ o. MatchOption o
        (IsClean string.entry.captures_variables (map seen_given arguments.now)
        (chars string.entry.text.now)
        → ⊥)
        (λ v. let s = start string.entry in
        (map seen_piece v.items ≡ pieces_in s.world (pieces_of (calls s)))
        × ReadsClean string.entry.captures_variables (map seen_given arguments.now)
        (chars string.entry.text.now) (map bare_piece (map seen_piece v.items)))) }
{
    let report = call_faults(alloc, string, arguments)?;
    if are_warnings(&report.faults) {
        Ok(Some(report.pieces))
    } else {
        Ok(None)
    }
}
