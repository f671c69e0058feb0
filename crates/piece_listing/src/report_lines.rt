//! The report on missing and unused arguments, and its lines.

ghost use Rattle.std.specs.Prelude.{◌≡◌, ◌++◌, [], None, IfOk, IsOk, OnOk, chars, codes, flat_map};
ghost use Rattle.std.specs.Prelude.{IsSome, List, option_map, string_bytes};
ghost use Rattle.rustc_parse_format.specs.Types.{Piece};
ghost use Rattle.rustc_parse_format.specs.World.{Place};
ghost use Rattle.placeholder_check.specs.Collection.{Holds};
ghost use Rattle.placeholder_check.specs.Views.{seen_report, texts};
ghost use Rattle.placeholder_check.specs.Uses.{uses};
ghost use Rattle.piece_listing.specs.Listing.{index_line, name_line, report_lines};
ghost use Rattle.piece_listing.specs.Program.{IsReportFor, has_entries, no_entries};
ghost use Rattle.piece_listing.specs.SeenTask.{seen_given};

use super::arguments::{GivenArguments, names};
use super::listing::put_quoted;
use super::numbers::put_number;
use placeholder_check::{Report, Uses, check_uses};
use std::alloc::{AllocError, Global};

/// Returns the report on the arguments that are used if these are given, or a report without
/// entries for `None`. Returns `Err` if an allocation fails.
pub fn report_for<'a>(
    alloc: Global,
    all_uses: &Uses<'a>,
    arguments: Option<GivenArguments<'a>>,
) -> Result<Report<'a>, AllocError>
    ensures report { IfOk result (λ r. (ps : List (Piece Place))
        → (IsSome arguments.entry → Holds (uses ps) all_uses.now)
        → IsReportFor (option_map seen_given arguments.entry) ps (seen_report r)) }
    ensures none { arguments.entry ≡ None → IsOk result }
    ensures no_entries { arguments.entry ≡ None → IfOk result (λ r. seen_report r ≡ no_entries) }
{
    match arguments {
        Some(arguments) => {
            let names = names(alloc, arguments.names)?;
            check_uses(alloc, all_uses, arguments.positional, names.as_slice())
        }
        None => Ok(Report {
            missing_index: Vec::new(alloc),
            missing_name: Vec::new(alloc),
            unused_index: Vec::new(alloc),
            unused_name: Vec::new(alloc),
        }),
    }
}

/// Returns whether a report has an entry.
pub fn has_entries(report: &Report<'_>) -> bool
    ensures { result ≡ has_entries (seen_report report.now) }
{
    report.missing_index.len() > 0
        || report.missing_name.len() > 0
        || report.unused_index.len() > 0
        || report.unused_name.len() > 0
}

/// Adds a line for each number, which begins with `label`. Returns `Err` if an allocation fails.
#[inline(always)]
fn put_numbers(out: &mut String, label: &str, numbers: &[usize]) -> Result<(), AllocError>
    ensures lines { OnOk result (string_bytes out.new ≡ string_bytes out.old ++
        flat_map (index_line label.now) numbers.now) }
    ensures empty { numbers.now ≡ [] → IsOk result }
{
    for n in numbers {
        put_number(out, label, *n)?;
        out.push('\n')?;
    }
    Ok(())
}

/// Adds the line of a name, which begins with `label`. Returns `Err` if an allocation fails.
fn put_name(out: &mut String, label: &str, name: &str) -> Result<(), AllocError>
    ensures { OnOk result (string_bytes out.new ≡ string_bytes out.old ++
        name_line label.now (chars name.now)) }
{
    out.push_str(label)?;
    put_quoted(out, name)?;
    out.push('\n')?;
    Ok(())
}

/// Adds a line for each name, which begins with `label`. Returns `Err` if an allocation fails.
fn put_names(out: &mut String, label: &str, names: &[&str]) -> Result<(), AllocError>
    ensures lines { OnOk result (string_bytes out.new ≡ string_bytes out.old ++
        flat_map (name_line label.now) (texts names.now)) }
    ensures empty { names.now ≡ [] → IsOk result }
{
    for name in names {
        put_name(out, label, name)?;
    }
    Ok(())
}

/// Adds a line for each entry of a report. Returns `Err` if an allocation fails.
#[tactic(auto, unfolding(crate::specs::Listing::report_lines))]
pub fn put_report(out: &mut String, report: &Report<'_>) -> Result<(), AllocError>
    ensures lines { OnOk result (string_bytes out.new ≡ string_bytes out.old ++
        report_lines (seen_report report.now)) }
    ensures empty { seen_report report.now ≡ no_entries → IsOk result }
{
    put_numbers(out, "missing index ", report.missing_index.as_slice())?;
    put_names(out, "missing name ", report.missing_name.as_slice())?;
    put_numbers(out, "unused index ", report.unused_index.as_slice())?;
    put_names(out, "unused name ", report.unused_name.as_slice())?;
    Ok(())
}
