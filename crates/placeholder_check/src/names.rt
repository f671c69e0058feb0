//! Sets of names, in the order in which they were added. The names after the first few are in an
//! ordered set too, since a text may be hostile and the kit's hash has a fixed seed.

ghost use Rattle.std.specs.Prelude.{◌≡◌, ◌∷◌, ◌++◌, ◌<◌, ◌≤◌, ◌||◌, List, [], chars, false, filter};
ghost use Rattle.std.specs.Prelude.{not, take, IfOk, IsOk, OnOk};
ghost use Rattle.std.specs.List.{list_any};
ghost use Rattle.std.specs.Str.{bytes_eq};
ghost use Rattle.rustc_parse_format.specs.Characters.{Text};
ghost use Rattle.placeholder_check.specs.Entries.{AreFirsts};
ghost use Rattle.placeholder_check.specs.Collection.{Follows, has_text, is_among, is_known};
ghost use Rattle.placeholder_check.specs.Views.{texts};

use std::alloc::{AllocError, Global};
use std::collections::BTreeSet;

/// The number of names that are compared one after the other.
const SCAN_LIMIT: usize = 16;

/// Names, each once, in the order in which they were first added.
#[derive(Drop)]
pub struct Names<'a> {
    /// The names.
    pub list: Vec<&'a str>,
    /// The names after the first [`SCAN_LIMIT`].
    pub later_set: BTreeSet<&'a str>,
}

/// Returns the empty set. Allocates nothing.
pub fn no_names<'a>(alloc: Global) -> Names<'a>
    ensures empty { result.list.items ≡ [] }
    ensures none { (ys : List Text) → Follows [] ys result }
{
    Names {
        list: Vec::new(alloc),
        later_set: BTreeSet::new(alloc),
    }
}

/// Returns whether two names are the same.
fn is_same(a: &str, b: &str) -> bool
    ensures { result ≡ bytes_eq (chars a.now) (chars b.now) }
{
    a == b
}

/// Returns whether a name is among the first [`SCAN_LIMIT`] of a list.
fn is_early(names: &[&str], name: &str) -> bool
    ensures { result ≡ list_any (bytes_eq (chars name.now)) (texts (take 16 names.now)) }
{
    for i in 0..names.len().min(SCAN_LIMIT) {
        if is_same(name, names[i]) {
            return true;
        }
    }
    false
}

/// Returns whether a name is in a set of names.
fn is_later<'a>(later_set: &BTreeSet<&'a str>, name: &'a str) -> bool
    ensures { result ≡ has_text later_set.now (chars name.now) }
{
    later_set.contains(&name)
}

/// Returns whether a name is among others, of which `later_set` has those after the first
/// [`SCAN_LIMIT`].
fn has_name<'a>(names: &[&'a str], later_set: &BTreeSet<&'a str>, name: &'a str) -> bool
    ensures { result ≡ is_among names.now later_set.now (chars name.now) }
{
    is_early(names, name) || is_later(later_set, name)
}

/// Inserts a name into a set. Returns `Err` if an allocation fails.
fn insert_later<'a>(set: &mut BTreeSet<&'a str>, name: &'a str) -> Result<(), AllocError>
    ensures { OnOk result ((t : Text) → has_text set.new t
        ≡ (bytes_eq t (chars name.now) || has_text set.old t)) }
{
    set.insert(name)?;
    Ok(())
}

/// Adds a name to others, if it is not yet there. Returns `Err` if an allocation fails.
#[inline(never)]
pub fn insert_name<'a>(names: &mut Names<'a>, name: &'a str) -> Result<(), AllocError>
    ensures { OnOk result ((before ys : List Text) → list_any (bytes_eq (chars name.now)) ys ≡ false
        → Follows before ys names.old → Follows (before ++ chars name.now ∷ []) ys names.new) }
{
    if has_name(&names.list, &names.later_set, name) {
        return Ok(());
    }
    if names.list.len() >= SCAN_LIMIT {
        insert_later(&mut names.later_set, name)?;
    }
    names.list.push(name)?;
    Ok(())
}

/// Returns the names of a list after the first [`SCAN_LIMIT`]. Returns `Err` if an allocation
/// fails.
pub fn later_names<'a>(alloc: Global, names: &[&'a str]) -> Result<BTreeSet<&'a str>, AllocError>
    ensures known { IfOk result (λ s. (t : Text)
        → is_among names.now s t ≡ list_any (bytes_eq t) (texts names.now)) }
    ensures empty { names.now ≡ [] → IsOk result }
{
    let mut later_set = BTreeSet::new(alloc);
    for i in SCAN_LIMIT..names.len() {
        insert_later(&mut later_set, names[i])?;
    }
    Ok(later_set)
}

/// Returns the names of a list that are not among others, in their order; `later_set` has those of
/// the others after the first [`SCAN_LIMIT`]. Returns `Err` if an allocation fails.
pub fn missing_names<'a>(
    alloc: Global,
    names: &[&'a str],
    others: &[&'a str],
    later_set: &BTreeSet<&'a str>,
) -> Result<Vec<&'a str>, AllocError>
    ensures lacked { IfOk result (λ v. texts v.items
        ≡ filter (λ t. not (is_among others.now later_set.now t)) (texts names.now)) }
    ensures empty { names.now ≡ [] → IsOk result }
{
    let mut missing_names = Vec::new(alloc);
    for name in names {
        if !has_name(others, later_set, name) {
            missing_names.push(*name)?;
        }
    }
    Ok(missing_names)
}

/// Returns the names of a list that are not in a set, each once, in the order of their first
/// entries. Returns `Err` if an allocation fails.
pub fn unused_names<'a>(
    alloc: Global,
    names: &[&'a str],
    uses: &Names<'a>,
) -> Result<Vec<&'a str>, AllocError>
    ensures unused { IfOk result (λ v. (ys : List Text)
        → ((t : Text) → is_known uses.now t ≡ list_any (bytes_eq t) ys)
        → AreFirsts (texts names.now) ys (texts v.items)) }
    ensures empty { names.now ≡ [] → IsOk result }
{
    let mut unused_set = no_names(alloc);
    for name in names {
        if !has_name(&uses.list, &uses.later_set, name) {
            insert_name(&mut unused_set, name)?;
        }
    }
    let Names { list, later_set: _ } = unused_set;
    Ok(list)
}
