//! The macros that a file defines and that hand their tokens on, and the faults of their calls.

use asm_lint::appends_newline;
use format_calls::{Row, Table};
use macro_owners::{Given, given_names, own_rows};
use rust_trees::Source;
use source_lint::{OwnMacro, file_faults, own_file_faults};
use source_report::{Options, Report};
use std::alloc::{AllocError, Global};

/// The most macros of a file that are read: each call is compared with all of them.
const MOST: usize = 64;

/// The most names that a file gives to macros, if its own macros are read: each call in the
/// definition of one of them is compared with all of them.
const MOST_NAMES: usize = 1024;

/// The macros of a file whose calls are read.
#[derive(Drop)]
struct OwnMacros<'a> {
    /// How they are read.
    rows: Vec<Row<'a>>,
    /// The same macros.
    macros: Vec<OwnMacro<'a>>,
}

/// Returns how many of these names are of macros whose arms say which argument is the string.
fn rule_count(names: &[Given]) -> usize {
    let mut count = 0usize;
    for given in names {
        if given.rule.is_some() {
            count = count.saturating_add(1);
        }
    }
    count
}

/// Returns those macros of a table that append a newline to their format string, or the others. It
/// leaves `unreachable!` out, whose format string captures no variables in some editions. Returns
/// `Err` if an allocation fails.
fn table_part<'a>(
    alloc: Global,
    table: &Table<'a>,
    newline: bool,
) -> Result<Table<'a>, AllocError> {
    let mut rows = Vec::new(alloc);
    for row in &table.rows {
        let name = row.name.as_bytes();
        if name != b"unreachable".as_slice() && appends_newline(name) == newline {
            rows.push(*row)?;
        }
    }
    Ok(Table { rows })
}

/// Returns the macros of a file that hand their tokens on to those of a table, or none if there are
/// too many: each hands them on only to macros that append a newline, or only to others. Returns
/// `Err` if an allocation fails.
fn own_macros<'a>(
    alloc: Global,
    text: &'a str,
    table: &Table<'_>,
) -> Result<OwnMacros<'a>, AllocError> {
    let mut own = OwnMacros {
        rows: Vec::new(alloc),
        macros: Vec::new(alloc),
    };
    let source = Source::new(alloc, text)?;
    let names = given_names(alloc, &source, table)?;
    let count = rule_count(&names);
    if count == 0 || count > MOST || names.len() > MOST_NAMES {
        return Ok(own);
    }
    for newline in [false, true] {
        let part = table_part(alloc, table, newline)?;
        for row in &own_rows(alloc, &source, &names, &part)? {
            own.rows.push(*row)?;
            own.macros.push(OwnMacro {
                name: row.name,
                appends_newline: newline,
            })?;
        }
    }
    Ok(own)
}

/// Returns whether a word stands in a text, with no letter or digit of ASCII next to it.
fn has_word(text: &str, word: &str) -> bool {
    let mut is_end = true;
    let mut is_first = true;
    for part in text.split(word) {
        let bytes = part.as_bytes();
        let starts = match bytes.first() {
            Some(byte) => !byte.is_ascii_alphanumeric(),
            None => true,
        };
        if !is_first && is_end && starts {
            return true;
        }
        is_first = false;
        is_end = match bytes.last() {
            Some(byte) => !byte.is_ascii_alphanumeric(),
            None => true,
        };
    }
    false
}

/// Returns the report on a file that also has the calls of its own macros which hand their tokens
/// on, or `None` if it has no such macro. Returns `Err` if an allocation fails.
pub fn own_report(
    alloc: Global,
    text: &str,
    options: &Options<'_>,
) -> Result<Option<Report>, AllocError> {
    if !text.contains("macro_rules") || !has_word(text, "tt") {
        return Ok(None);
    }
    let OwnMacros { mut rows, macros } = own_macros(alloc, text, &options.table)?;
    if macros.is_empty() {
        return Ok(None);
    }
    for row in &options.table.rows {
        rows.push(*row)?;
    }
    let own_options = Options {
        table: Table { rows },
        is_from_2021: options.is_from_2021,
    };
    let report = own_file_faults(alloc, text, &own_options, &macros)?;
    Ok(Some(report))
}

/// Returns the report on a file, with the calls of its own macros which hand their tokens on.
/// Returns `Err` if an allocation fails.
pub fn file_report(alloc: Global, text: &str, options: &Options<'_>) -> Result<Report, AllocError> {
    match own_report(alloc, text, options)? {
        Some(report) => Ok(report),
        None => file_faults(alloc, text, options),
    }
}
