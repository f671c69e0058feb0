//! The lines of a report on missing and unused arguments. Each function of this module appends to a
//! text, and returns `Err` if an allocation fails; the text may then have a part of the lines, or
//! none.

ghost use Rattle.std.specs.Prelude.{◌≡◌, ◌∷◌, [], OnOk, chars, map};
ghost use Rattle.placeholder_check.specs.Views.{seen_report, texts};
ghost use Rattle.listing_json.specs.Lines.{Adds};
ghost use Rattle.listing_json.specs.Values.{index_value, name_value, report_values};

use super::calls::{begin_line, end_line};
use super::fields::{put_index, put_name};
use placeholder_check::Report;
use std::alloc::{AllocError, Global};

/// Appends the line of an index.
fn put_index_line(
    alloc: Global,
    out: &mut Vec<u8>,
    kind: &str,
    index: usize,
) -> Result<(), AllocError>
    ensures { OnOk result (Adds (index_value kind.now index ∷ []) out.old.items out.new.items) }
{
    let mut writer = begin_line(alloc, out);
    put_index(&mut writer, kind, index)?;
    end_line(out, writer)?;
    Ok(())
}

/// Appends a line for each index.
fn put_indices(
    alloc: Global,
    out: &mut Vec<u8>,
    kind: &str,
    indices: &[usize],
) -> Result<(), AllocError>
    ensures { OnOk result (Adds (map (index_value kind.now) indices.now)
        out.old.items out.new.items) }
{
    for index in indices {
        put_index_line(alloc, out, kind, *index)?;
    }
    Ok(())
}

/// Appends the line of a name.
fn put_name_line(alloc: Global, out: &mut Vec<u8>, kind: &str, name: &str) -> Result<(), AllocError>
    ensures { OnOk result (Adds (name_value kind.now (chars name.now) ∷ [])
        out.old.items out.new.items) }
{
    let mut writer = begin_line(alloc, out);
    put_name(&mut writer, kind, name)?;
    end_line(out, writer)?;
    Ok(())
}

/// Appends a line for each name.
fn put_names(alloc: Global, out: &mut Vec<u8>, kind: &str, names: &[&str]) -> Result<(), AllocError>
    ensures { OnOk result (Adds (map (name_value kind.now) (texts names.now))
        out.old.items out.new.items) }
{
    for name in names {
        put_name_line(alloc, out, kind, name)?;
    }
    Ok(())
}

/// Appends a line for each entry of a report.
pub fn put_report(alloc: Global, out: &mut Vec<u8>, report: &Report<'_>) -> Result<(), AllocError>
    ensures { OnOk result (Adds (report_values (seen_report report.now))
        out.old.items out.new.items) }
{
    put_indices(alloc, out, "missing-index", report.missing_index.as_slice())?;
    put_names(alloc, out, "missing-name", report.missing_name.as_slice())?;
    put_indices(alloc, out, "unused-index", report.unused_index.as_slice())?;
    put_names(alloc, out, "unused-name", report.unused_name.as_slice())?;
    Ok(())
}
