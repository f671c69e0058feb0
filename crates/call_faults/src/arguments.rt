//! The list of arguments of a call.

ghost use Rattle.std.specs.Prelude.{◌≡◌, ◌∷◌, ◌++◌, [], ℕ, List, IfOk, OnOk, chars, map};
ghost use Rattle.std.specs.Prelude.{Some, None, IfSome, if◌then◌else◌, is_some, not};
ghost use Rattle.std.specs.List.{list_any};
ghost use Rattle.std.specs.Str.{bytes_eq};
ghost use Rattle.rustc_parse_format.specs.Characters.{Text};
ghost use Rattle.call_faults.specs.Arguments.{Entry as EntryValue, first_of, is_late, kept_after};
ghost use Rattle.call_faults.specs.Arguments.{list_faults, named_of, repeated_name_faults};
ghost use Rattle.call_faults.specs.Arguments.{with_given};
ghost use Rattle.call_faults.specs.Calls.{is_last};
ghost use Rattle.call_faults.specs.Views.{Holds, found_in, seen_fault, seen_given, seen_entry};

use crate::faults::CallFault;
use std::alloc::{AllocError, Global};
use std::collections::BTreeMap;

/// An argument of a call, as far as its placeholders can tell it from others.
#[derive(Clone, Copy)]
pub struct FormatArgument<'a> {
    /// Its name, without the `r#` of a raw identifier, as `a` in `a = 1`.
    pub name: Option<&'a str>,
    /// The variable that it is, without `r#`, as `a` in `println!("{}", a)`. `None` if it is any
    /// other expression.
    pub variable: Option<&'a str>,
}

/// An argument that counts, since its name is not that of an earlier one.
#[derive(Clone, Copy)]
pub(crate) struct Entry<'a> {
    /// Its index among all that are given.
    pub index: usize,
    pub argument: FormatArgument<'a>,
}

/// The arguments that count.
#[derive(Drop)]
pub(crate) struct Arguments<'a> {
    pub list: Vec<Entry<'a>>,
    /// The index of the argument with each name, among all that are given.
    pub indices: BTreeMap<&'a str, usize>,
    /// Whether any has a name.
    pub has_names: bool,
}

/// Returns no arguments. Does not allocate.
pub(crate) fn no_arguments<'a>(alloc: Global) -> Arguments<'a>
    ensures { Holds [] result }
{
    Arguments {
        list: Vec::new(alloc),
        indices: BTreeMap::new(alloc),
        has_names: false,
    }
}

/// Returns the index that a map has for a name, or `None` if it has none.
pub(crate) fn index_of<'a>(indices: &BTreeMap<&'a str, usize>, name: &'a str) -> Option<usize>
    ensures { result ≡ found_in indices.now (chars name.now) }
{
    indices.get(&name).copied()
}

/// Puts a name into a map that does not have it. Returns `Err` if an allocation fails.
pub(crate) fn insert<'a>(
    indices: &mut BTreeMap<&'a str, usize>,
    name: &'a str,
    index: usize,
) -> Result<(), AllocError>
    ensures { OnOk result ((w : Text) → found_in indices.new w
        ≡ (if bytes_eq w (chars name.now) then Some index else found_in indices.old w)) }
{
    indices.insert(name, index)?;
    Ok(())
}

/// Returns the index of the argument with the name that an argument has, or `None` if it has none
/// or there is none.
fn first_of<'a>(arguments: &Arguments<'a>, argument: &FormatArgument<'a>) -> Option<usize>
    ensures { (ks : List EntryValue) → Holds ks arguments.now
        → result ≡ first_of ks (seen_given argument.now) }
{
    match argument.name {
        None => None,
        Some(name) => index_of(&arguments.indices, name),
    }
}

/// Adds an argument to those that count. Returns `Err` if an allocation fails.
fn keep<'a>(
    arguments: &mut Arguments<'a>,
    index: usize,
    argument: FormatArgument<'a>,
) -> Result<(), AllocError>
    ensures { OnOk result ((ks : List EntryValue) → Holds ks arguments.old
        → first_of ks (seen_given argument.entry) ≡ None
        → Holds (ks ++ record { index = index; argument = seen_given argument.entry } ∷ [])
        arguments.new) }
{
    if let Some(name) = argument.name {
        insert(&mut arguments.indices, name, index)?;
        arguments.has_names = true;
    }
    arguments.list.push(Entry { index, argument })?;
    Ok(())
}

/// Adds an argument to those that count, unless an earlier one has its name, which is then a fault.
/// Returns `Err` if an allocation fails.
fn add<'a>(
    arguments: &mut Arguments<'a>,
    faults: &mut Vec<CallFault<'a>>,
    index: usize,
    argument: FormatArgument<'a>,
) -> Result<(), AllocError>
    ensures kept { OnOk result ((ks : List EntryValue) → Holds ks arguments.old
        → Holds (with_given ks index (seen_given argument.entry)) arguments.new) }
    ensures outcome { OnOk result ((ks : List EntryValue) → Holds ks arguments.old
        → map seen_fault faults.new.items ≡ map seen_fault faults.old.items
        ++ repeated_name_faults index (first_of ks (seen_given argument.entry))) }
{
    match first_of(arguments, &argument) {
        Some(first_index) => faults.push(CallFault::RepeatedName { index, first_index })?,
        None => keep(arguments, index, argument)?,
    }
    Ok(())
}

/// Returns whether an argument has no name, although one that counts has one.
fn is_late<'a>(arguments: &Arguments<'a>, argument: &FormatArgument<'a>) -> bool
    ensures { (ks : List EntryValue) → Holds ks arguments.now
        → result ≡ is_late ks (seen_given argument.now) }
{
    argument.name.is_none() && arguments.has_names
}

/// Returns the indices of those of arguments that have a name. Returns `Err` if an allocation
/// fails.
fn named_of(alloc: Global, list: &[Entry<'_>]) -> Result<Vec<usize>, AllocError>
    ensures { IfOk result (λ v. v.items ≡ named_of (map seen_entry list.now)) }
{
    let mut named_arguments = Vec::new(alloc);
    for entry in list {
        if entry.argument.name.is_some() {
            named_arguments.push(entry.index)?;
        }
    }
    Ok(named_arguments)
}

/// Returns the arguments that count, or `None` if the first one without a name after one with a
/// name ends the list. Adds the faults of the list. Returns `Err` if an allocation fails.
pub(crate) fn arguments_of<'a>(
    alloc: Global,
    faults: &mut Vec<CallFault<'a>>,
    call_arguments: &[FormatArgument<'a>],
) -> Result<Option<Arguments<'a>>, AllocError>
    ensures outcome { OnOk result (map seen_fault faults.new.items ≡ map seen_fault faults.old.items
        ++ list_faults [] 0 (map seen_given call_arguments.now)) }
    ensures some { IfOk result (λ o. IfSome o (λ a.
        Holds (kept_after [] 0 (map seen_given call_arguments.now)) a)) }
    ensures ends { IfOk result (λ o.
        list_any is_last (list_faults [] 0 (map seen_given call_arguments.now)) ≡ not (is_some o)) }
{
    let mut arguments = no_arguments(alloc);
    for (index, argument) in call_arguments.iter().enumerate() {
        if is_late(&arguments, argument) {
            let named_arguments = named_of(alloc, &arguments.list)?;
            faults.push(CallFault::PositionalAfterNamed {
                index,
                named_arguments,
            })?;
            return Ok(None);
        }
        add(&mut arguments, faults, index, *argument)?;
    }
    Ok(Some(arguments))
}
