//! The comparison of lookups with the arguments that count.

ghost use Rattle.std.specs.Prelude.{◌≡◌, ◌<◌, ◌==◌, ◌∷◌, ◌++◌, [], ℕ, Bool, List, IfOk, OnOk};
ghost use Rattle.std.specs.Prelude.{chars, map};
ghost use Rattle.std.specs.Prelude.{false, filter, get_or, length, not, option_map, nat_le, nat_lt};
ghost use Rattle.std.specs.Prelude.{Option, ◌||◌, ◌&&◌, is_none, is_some};
ghost use Rattle.std.specs.Option.{option_map_or};
ghost use Rattle.std.specs.List.{AllByRecursion, filter_map, list_any, slice_get};
ghost use Rattle.std.specs.Str.{bytes_eq};
ghost use Rattle.rustc_parse_format.specs.Characters.{Text};
ghost use Rattle.call_faults.specs.Arguments.{Entry as EntryValue};
ghost use Rattle.call_faults.specs.CallFaults.{CallFault as FaultValue};
ghost use Rattle.call_faults.specs.Comparison.{invalid_reference, by_index, comparison_faults};
ghost use Rattle.call_faults.specs.Comparison.{indices};
ghost use Rattle.call_faults.specs.Comparison.{is_missing_name, is_position, is_redundant};
ghost use Rattle.call_faults.specs.Comparison.{left_faults};
ghost use Rattle.call_faults.specs.Comparison.{is_settled, lookup_faults, means, missing_faults};
ghost use Rattle.call_faults.specs.Lookups.{Lookup as LookupValue};
ghost use Rattle.call_faults.specs.Views.{Holds, KnowsNames, found_in, seen_fault, seen_entry};
ghost use Rattle.call_faults.specs.Views.{seen_lookup};
ghost use Rattle.call_faults.specs.Views.{seen_use};

use crate::arguments::{Arguments, Entry, index_of, insert};
use crate::faults::{CallFault, InvalidReference, Part};
use crate::lookups::{ArgRef, Lookup};
use std::alloc::{AllocError, Global};
use std::collections::BTreeMap;

/// Returns the index of the argument that a lookup means, or `None` if it means none.
fn meant<'a>(arguments: &Arguments<'a>, lookup: &Lookup<'a>) -> Option<usize>
    ensures { (ks : List EntryValue) → Holds ks arguments.now → (i : ℕ)
        → option_map_or (λ j. i == j) result false ≡ means ks i (seen_lookup lookup.now) }
{
    match *lookup {
        Lookup::Refer(_, ArgRef::Index(n)) => arguments.list.get(n).map(|entry| entry.index),
        Lookup::Refer(_, ArgRef::Name(name)) => index_of(&arguments.indices, name),
        Lookup::NoTrait(..) => None,
    }
}

/// Returns of each argument whether a lookup means it, if there are `count` ones. Returns `Err` if
/// an allocation fails.
fn marks<'a>(
    alloc: Global,
    arguments: &Arguments<'a>,
    count: usize,
    lookups: &[Lookup<'a>],
) -> Result<Vec<bool>, AllocError>
    ensures { IfOk result (λ v. (ks : List EntryValue) → Holds ks arguments.now
        → AllByRecursion (λ k. k.index < count) ks → (i : ℕ) → get_or v.items i false
        ≡ list_any (means ks i) (map seen_lookup lookups.now)) }
{
    let mut marks = vec![in alloc; false; count]?;
    for lookup in lookups {
        if let Some(index) = meant(arguments, lookup) {
            if index < marks.len() {
                marks[index] = true;
            }
        }
    }
    Ok(marks)
}

/// Returns the reference of a lookup, if it is one by an index that is at least `count`.
fn reference_beyond(count: usize, lookup: &Lookup<'_>) -> Option<InvalidReference>
    ensures { result ≡ invalid_reference count (seen_lookup lookup.now) }
{
    match *lookup {
        Lookup::Refer(reference, ArgRef::Index(index)) if index >= count => {
            Some(InvalidReference { reference, index })
        }
        _ => None,
    }
}

/// Returns the references by an index that is at least `count`. Returns `Err` if an allocation
/// fails.
fn references_from(
    alloc: Global,
    count: usize,
    lookups: &[Lookup<'_>],
) -> Result<Vec<InvalidReference>, AllocError>
    ensures { IfOk result (λ v. v.items
        ≡ filter_map (invalid_reference count) (map seen_lookup lookups.now)) }
{
    let mut references = Vec::new(alloc);
    for lookup in lookups {
        if let Some(reference) = reference_beyond(count, lookup) {
            references.push(reference)?;
        }
    }
    Ok(references)
}

/// Returns the arguments that are not marked. Returns `Err` if an allocation fails.
fn unmarked_arguments<'a>(
    alloc: Global,
    arguments: &[Entry<'a>],
    marks: &[bool],
) -> Result<Vec<Entry<'a>>, AllocError>
    ensures { IfOk result (λ v. map seen_entry v.items
        ≡ filter (λ k. not (get_or marks.now k.index false)) (map seen_entry arguments.now)) }
{
    let mut list = Vec::new(alloc);
    for entry in arguments {
        if !matches!(marks.get(entry.index), Some(true)) {
            list.push(*entry)?;
        }
    }
    Ok(list)
}

/// Adds the fault of a lookup: of a trait that does not exist, or of a name that no variable is
/// captured for and that `indices` does not have, which it is then put into. Returns `Err` if an
/// allocation fails.
fn look_up_one<'a>(
    faults: &mut Vec<CallFault<'a>>,
    indices: &mut BTreeMap<&'a str, usize>,
    captures_variables: bool,
    lookup: &Lookup<'a>,
) -> Result<(), AllocError>
    ensures { OnOk result ((old_names : List Text) → KnowsNames old_names indices.old
        → (new_names : List Text) × KnowsNames new_names indices.new × ((ls : List LookupValue)
        → map seen_fault faults.new.items ++ lookup_faults captures_variables new_names ls
        ≡ map seen_fault faults.old.items
        ++ lookup_faults captures_variables old_names (seen_lookup lookup.now ∷ ls))) }
{
    match *lookup {
        Lookup::NoTrait(piece, ty) => faults.push(CallFault::UnknownTrait { piece, ty })?,
        Lookup::Refer(reference, ArgRef::Name(name)) => {
            if !captures_variables && index_of(indices, name).is_none() {
                insert(indices, name, 0)?;
                faults.push(CallFault::MissingName { reference, name })?;
            }
        }
        Lookup::Refer(_, ArgRef::Index(_)) => {}
    }
    Ok(())
}

/// Adds the faults of lookups, one after the other. Returns `Err` if an allocation fails.
fn look_up<'a>(
    faults: &mut Vec<CallFault<'a>>,
    indices: &mut BTreeMap<&'a str, usize>,
    captures_variables: bool,
    lookups: &[Lookup<'a>],
) -> Result<(), AllocError>
    ensures { OnOk result ((known : List Text) → KnowsNames known indices.old
        → map seen_fault faults.new.items ≡ map seen_fault faults.old.items
        ++ lookup_faults captures_variables known (map seen_lookup lookups.now)) }
{
    for lookup in lookups {
        look_up_one(faults, indices, captures_variables, lookup)?;
    }
    Ok(())
}

/// Returns whether a name is missing.
fn misses_name(faults: &[CallFault<'_>]) -> bool
    ensures { result ≡ list_any is_missing_name (map seen_fault faults.now) }
{
    for fault in faults {
        if let CallFault::MissingName { .. } = fault {
            return true;
        }
    }
    false
}

/// Returns a map that has the names that are the positions of placeholders. Returns `Err` if an
/// allocation fails.
fn positions_of<'a>(
    alloc: Global,
    lookups: &[Lookup<'a>],
) -> Result<BTreeMap<&'a str, usize>, AllocError>
    ensures { IfOk result (λ m. (w : Text) → is_some (found_in m w)
        ≡ list_any (is_position w) (map seen_lookup lookups.now)) }
{
    let mut names = BTreeMap::new(alloc);
    for lookup in lookups {
        if let Lookup::Refer(reference, ArgRef::Name(name)) = lookup {
            if matches!(reference.part, Part::Position) {
                insert(&mut names, name, 0)?;
            }
        }
    }
    Ok(names)
}

/// Returns whether an argument has no name, and is a variable whose name a map has.
fn is_redundant<'a>(positions: &BTreeMap<&'a str, usize>, entry: &Entry<'a>) -> bool
    ensures { result ≡ (is_none (seen_entry entry.now).argument.name && option_map_or
        (λ w. is_some (found_in positions.now w)) (seen_entry entry.now).argument.variable false) }
{
    match (entry.argument.name, entry.argument.variable) {
        (None, Some(variable)) => index_of(positions, variable).is_some(),
        _ => false,
    }
}

/// Returns the indices of the redundant ones of arguments that no lookup means. Returns `Err` if an
/// allocation fails.
fn redundant_of<'a>(
    alloc: Global,
    unused_entries: &[Entry<'a>],
    lookups: &[Lookup<'a>],
) -> Result<Vec<usize>, AllocError>
    ensures { IfOk result (λ v. v.items ≡ indices
        (filter (is_redundant (map seen_lookup lookups.now)) (map seen_entry unused_entries.now))) }
{
    let mut redundant_indices = Vec::new(alloc);
    if unused_entries.is_empty() {
        return Ok(redundant_indices);
    }
    let positions = positions_of(alloc, lookups)?;
    for entry in unused_entries {
        if is_redundant(&positions, entry) {
            redundant_indices.push(entry.index)?;
        }
    }
    Ok(redundant_indices)
}

/// Returns the indices of arguments. Returns `Err` if an allocation fails.
pub(crate) fn indices_of(alloc: Global, arguments: &[Entry<'_>]) -> Result<Vec<usize>, AllocError>
    ensures { IfOk result (λ v. v.items ≡ indices (map seen_entry arguments.now)) }
{
    let mut indices = Vec::new(alloc);
    for entry in arguments {
        indices.push(entry.index)?;
    }
    Ok(indices)
}

/// Adds the fault of arguments that no lookup means: of the redundant ones, or else of all. Returns
/// `Err` if an allocation fails.
fn push_unused_faults<'a>(
    alloc: Global,
    faults: &mut Vec<CallFault<'a>>,
    unused_entries: &[Entry<'a>],
    lookups: &[Lookup<'a>],
) -> Result<(), AllocError>
    ensures { OnOk result (map seen_fault faults.new.items ≡ map seen_fault faults.old.items
        ++ left_faults (indices (filter (is_redundant (map seen_lookup lookups.now))
        (map seen_entry unused_entries.now))) (indices (map seen_entry unused_entries.now))) }
{
    let redundant_indices = redundant_of(alloc, unused_entries, lookups)?;
    if !redundant_indices.is_empty() {
        faults.push(CallFault::RedundantArguments(redundant_indices))?;
        return Ok(());
    }
    let unused_indices = indices_of(alloc, unused_entries)?;
    if !unused_indices.is_empty() {
        faults.push(CallFault::UnusedArguments(unused_indices))?;
    }
    Ok(())
}

/// Returns the fault of a lookup, if it means an argument with a name by its index.
fn by_index<'a>(arguments: &[Entry<'a>], lookup: &Lookup<'a>) -> Option<CallFault<'a>>
    ensures { option_map seen_fault result
        ≡ by_index (map seen_entry arguments.now) (seen_lookup lookup.now) }
{
    match *lookup {
        Lookup::Refer(reference, ArgRef::Index(n)) => match arguments.get(n) {
            Some(entry) if entry.argument.name.is_some() => Some(CallFault::NameUsedByIndex {
                reference,
                index: entry.index,
            }),
            _ => None,
        },
        _ => None,
    }
}

/// Adds the faults of lookups that mean an argument with a name by its index. Returns `Err` if an
/// allocation fails.
fn push_index_faults<'a>(
    faults: &mut Vec<CallFault<'a>>,
    arguments: &[Entry<'a>],
    lookups: &[Lookup<'a>],
) -> Result<(), AllocError>
    ensures { OnOk result (map seen_fault faults.new.items ≡ map seen_fault faults.old.items
        ++ filter_map (by_index (map seen_entry arguments.now)) (map seen_lookup lookups.now)) }
{
    for lookup in lookups {
        if let Some(fault) = by_index(arguments, lookup) {
            faults.push(fault)?;
        }
    }
    Ok(())
}

/// Adds the fault of references by an index that is too large, if there are any. Returns `Err` if
/// an allocation fails.
fn push_missing_fault(
    faults: &mut Vec<CallFault<'_>>,
    references: Vec<InvalidReference>,
) -> Result<(), AllocError>
    ensures { OnOk result (map seen_fault faults.new.items ≡ map seen_fault faults.old.items
        ++ missing_faults references.items) }
{
    if !references.is_empty() {
        faults.push(CallFault::MissingArguments(references))?;
    }
    Ok(())
}

/// Returns whether neither a name is missing, nor an argument, nor is one unused.
fn is_settled(
    faults: &[CallFault<'_>],
    references: &[InvalidReference],
    entries: &[Entry<'_>],
) -> bool
    ensures { result
        ≡ is_settled (map seen_fault faults.now) references.now (map seen_entry entries.now) }
{
    !misses_name(faults) && references.is_empty() && entries.is_empty()
}

/// Adds what is wrong between the arguments that count, whose indices are below `count`, and
/// lookups. Returns `Err` if an allocation fails.
pub(crate) fn compare<'a>(
    alloc: Global,
    faults: &mut Vec<CallFault<'a>>,
    captures_variables: bool,
    arguments: &mut Arguments<'a>,
    count: usize,
    lookups: &[Lookup<'a>],
) -> Result<(), AllocError>
    ensures { OnOk result ((ks : List EntryValue) → Holds ks arguments.old
        → AllByRecursion (λ k. k.index < count) ks
        → map seen_fault faults.new.items ≡ map seen_fault faults.old.items
        ++ comparison_faults captures_variables ks (map seen_lookup lookups.now)) }
{
    let marks = marks(alloc, arguments, count, lookups)?;
    let rest = unmarked_arguments(alloc, &arguments.list, &marks)?;
    let references = references_from(alloc, arguments.list.len(), lookups)?;
    let mut list = Vec::new(alloc);
    look_up(
        &mut list,
        &mut arguments.indices,
        captures_variables,
        lookups,
    )?;
    let is_settled = is_settled(&list, &references, &rest);
    faults.append(&mut list)?;
    push_missing_fault(faults, references)?;
    push_unused_faults(alloc, faults, &rest, lookups)?;
    if !is_settled {
        return Ok(());
    }
    push_index_faults(faults, &arguments.list, lookups)?;
    Ok(())
}
