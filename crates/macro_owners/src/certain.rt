//! Whose macro a name is in a file, and the rows of a table that are certain or likely there.

ghost use Rattle.std.specs.Prelude.{◌≡◌, IfOk, if◌then◌else◌, map};
ghost use Rattle.std.specs.List.{filter};
ghost use Rattle.format_calls.specs.Rows.{entry};
ghost use Rattle.macro_owners.specs.Facts.{names_in};
ghost use Rattle.macro_owners.specs.Names.{has};
ghost use Rattle.macro_owners.specs.Owners.{gives, gives_log_crate, has_glob, hides_globs};
ghost use Rattle.macro_owners.specs.Owners.{is_certain, is_free, is_likely, is_of_crate, is_std};
ghost use Rattle.macro_owners.specs.Owners.{is_used, lacks_owners, may_miss_std, names_of};

use crate::facts::Facts;
use crate::names::{is_error_name, is_log_name, is_prelude, is_std_alone, kept_name};
use format_calls::{Row, Table};
use std::alloc::{AllocError, Global};
use std::collections::BTreeSet;

/// Returns whether a set has a name.
fn has(names: &BTreeSet<&'static [u8]>, name: &'static [u8]) -> bool
    ensures { result ≡ has (names_in names.now) name.now }
{
    names.contains(&name)
}

/// Returns whether files give a name in another way than its owner, or every name.
fn gives(facts: &Facts, name: &'static [u8]) -> bool
    ensures { result ≡ gives (names_of facts.now) name.now }
{
    has(&facts.given, name) || has(&facts.given, b"$")
}

/// Returns whether nothing in a package gives a name but its owner.
fn is_free(package_facts: &Facts, file_facts: &Facts, name: &'static [u8]) -> bool
    ensures { result ≡ is_free (names_of package_facts.now) (names_of file_facts.now) name.now }
{
    !(gives(package_facts, name) || gives(file_facts, name) || has(&file_facts.spoiled, name))
}

/// Returns whether a file takes a name from what is called std, and may be something else.
fn may_miss_std(package_facts: &Facts, file_facts: &Facts, name: &'static [u8]) -> bool
    ensures { result
        ≡ may_miss_std (names_of package_facts.now) (names_of file_facts.now) name.now }
{
    let given = &package_facts.given;
    let is_std_given = has(given, b"std") || has(given, b"core") || has(given, b"alloc");
    is_std_given && (has(&package_facts.imported, name) || has(&file_facts.imported, name))
}

/// Returns whether files have a glob of another crate.
fn has_glob(facts: &Facts) -> bool
    ensures { result ≡ has_glob (names_of facts.now) }
{
    has(&facts.given, b"*") || has(&facts.given, b"defmt")
}

/// Returns whether a macro of the prelude of std is that one.
fn is_std(package_facts: &Facts, file_facts: &Facts, name: &'static [u8]) -> bool
    ensures { result ≡ is_std (names_of package_facts.now) (names_of file_facts.now) name.now }
{
    let may_glob_give = is_std_alone(name)
        && has(&package_facts.given, b"no_std")
        && has_glob(package_facts);
    is_free(package_facts, file_facts, name)
        && !(may_miss_std(package_facts, file_facts, name) || may_glob_give)
}

/// Returns whether no glob gives a name in a file that its package imports.
fn hides_globs(package_facts: &Facts, file_facts: &Facts, name: &'static [u8]) -> bool
    ensures { result ≡ hides_globs (names_of package_facts.now) (names_of file_facts.now) name.now }
{
    if !has_glob(package_facts) {
        return true;
    }
    has(&file_facts.imported, name) && !has_glob(file_facts) && !has(&file_facts.given, b"crate")
}

/// Returns whether a file of a package uses all macros of a crate that owns a name.
fn is_used(package_facts: &Facts, name: &'static [u8]) -> bool
    ensures { result ≡ is_used (names_of package_facts.now) name.now }
{
    let used = &package_facts.used;
    if is_log_name(name) {
        has(used, b"log") || has(used, b"tracing") || has(used, b"slog")
    } else if is_error_name(name) {
        has(used, b"anyhow")
            || has(used, b"eyre")
            || has(used, b"color_eyre")
            || has(used, b"failure")
    } else {
        false
    }
}

/// Returns whether no file of a package gives the name of a crate that owns macros of logs or of
/// errors.
fn lacks_owners(package_facts: &Facts) -> bool
    ensures { result ≡ lacks_owners (names_of package_facts.now) }
{
    let given = &package_facts.given;
    !(has(given, b"std")
        || has(given, b"core")
        || has(given, b"alloc")
        || has(given, b"log")
        || has(given, b"tracing")
        || has(given, b"slog")
        || has(given, b"anyhow")
        || has(given, b"eyre")
        || has(given, b"color_eyre")
        || has(given, b"failure"))
}

/// Returns whether a macro of a crate is its owner's.
fn is_of_crate(package_facts: &Facts, file_facts: &Facts, name: &'static [u8]) -> bool
    ensures { result ≡ is_of_crate (names_of package_facts.now) (names_of file_facts.now) name.now }
{
    if !is_free(package_facts, file_facts, name) || !lacks_owners(package_facts) {
        return false;
    }
    let is_owned = is_used(package_facts, name) || has(&package_facts.imported, name);
    is_owned && hides_globs(package_facts, file_facts, name)
}

/// Returns whether a call of this name in a file of a package is for certain one of the macro that
/// tables mean. A name of which they know nothing is the user's.
pub fn is_certain(package_facts: &Facts, file_facts: &Facts, name: &[u8]) -> bool
    ensures { result ≡ is_certain (names_of package_facts.now) (names_of file_facts.now) name.now }
{
    let Some(name) = kept_name(name) else {
        return true;
    };
    if is_prelude(name) {
        is_std(package_facts, file_facts, name)
    } else {
        is_of_crate(package_facts, file_facts, name)
    }
}

/// Returns whether a file gives the name of a crate of macros for logs to something else, or has a
/// glob of `defmt`.
fn gives_log_crate(file_facts: &Facts) -> bool
    ensures { result ≡ gives_log_crate (names_of file_facts.now) }
{
    let given = &file_facts.given;
    has(given, b"defmt") || has(given, b"log") || has(given, b"tracing") || has(given, b"slog")
}

/// Returns whether no other macro of this name is in sight in a file of a package. It may be
/// another one all the same, where [`is_certain`] is `false`.
fn is_likely(package_facts: &Facts, file_facts: &Facts, name: &[u8]) -> bool
    ensures { result ≡ is_likely (names_of package_facts.now) (names_of file_facts.now) name.now }
{
    let Some(name) = kept_name(name) else {
        return true;
    };
    let is_of_other = is_log_name(name) && gives_log_crate(file_facts);
    !(has(&package_facts.given, name) || has(&file_facts.given, name) || is_of_other)
}

/// Returns whether a call of the macro of a row is one of it: for certain, or likely.
fn is_meant(package_facts: &Facts, file_facts: &Facts, row: &Row<'_>, certainly: bool) -> bool
    ensures { result ≡ (if certainly then is_certain else is_likely)
        (names_of package_facts.now) (names_of file_facts.now) (entry row.now).name }
{
    let name = row.name.as_bytes();
    if certainly {
        is_certain(package_facts, file_facts, name)
    } else {
        is_likely(package_facts, file_facts, name)
    }
}

/// Returns those of these rows whose calls in a file of a package are theirs: for certain, or
/// likely. Returns `Err` if an allocation fails.
fn meant_rows<'a>(
    alloc: Global,
    rows: &[Row<'a>],
    package_facts: &Facts,
    file_facts: &Facts,
    certainly: bool,
) -> Result<Vec<Row<'a>>, AllocError>
    ensures { IfOk result (λ v. map entry v.items
        ≡ filter (λ e. (if certainly then is_certain else is_likely)
        (names_of package_facts.now) (names_of file_facts.now) e.name)
        (map entry rows.now)) }
{
    let mut list = Vec::new(alloc);
    for row in rows {
        if is_meant(package_facts, file_facts, row, certainly) {
            list.push(*row)?;
        }
    }
    Ok(list)
}

/// Returns the macros of a table whose calls in a file of a package are for certain theirs. Returns
/// `Err` if an allocation fails.
pub fn certain_table<'a>(
    alloc: Global,
    table: &Table<'a>,
    package_facts: &Facts,
    file_facts: &Facts,
) -> Result<Table<'a>, AllocError>
    ensures { IfOk result (λ t. map entry t.rows.items
        ≡ filter (λ e. is_certain (names_of package_facts.now) (names_of file_facts.now) e.name)
        (map entry table.now.rows.items)) }
{
    let rows = meant_rows(alloc, &table.rows, package_facts, file_facts, true)?;
    Ok(Table { rows })
}

/// Returns the macros of a table of whose names no other macro is in sight in a file of a package.
/// Returns `Err` if an allocation fails.
pub fn likely_table<'a>(
    alloc: Global,
    table: &Table<'a>,
    package_facts: &Facts,
    file_facts: &Facts,
) -> Result<Table<'a>, AllocError>
    ensures { IfOk result (λ t. map entry t.rows.items
        ≡ filter (λ e. is_likely (names_of package_facts.now) (names_of file_facts.now) e.name)
        (map entry table.now.rows.items)) }
{
    let rows = meant_rows(alloc, &table.rows, package_facts, file_facts, false)?;
    Ok(Table { rows })
}
