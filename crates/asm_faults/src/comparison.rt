//! The comparison of lookups with the operands.

ghost use Rattle.std.specs.Prelude.{◌≡◌, ◌==◌, ◌++◌, ◌||◌, ℕ, List, IfOk, OnOk, false, get_or};
ghost use Rattle.std.specs.Prelude.{map, option_map};
ghost use Rattle.std.specs.Option.{option_map_or};
ghost use Rattle.std.specs.List.{filter_map, list_any};
ghost use Rattle.asm_faults.specs.Operands.{Operand as OperandValue, count_unnamed, is_register};
ghost use Rattle.asm_faults.specs.Comparison.{fault_of, means, unused_operands, unused_faults};
ghost use Rattle.asm_faults.specs.Comparison.{unused_from};
ghost use Rattle.asm_faults.specs.Comparison.{unused_one};
ghost use Rattle.asm_faults.specs.Views.{Holds, seen_fault, seen_lookup, seen_operand};

use crate::faults::AsmFault;
use crate::lookups::Lookup;
use crate::operands::{Operand, Operands, count_unnamed, index_of};
use std::alloc::{AllocError, Global};

/// Returns the index of the operand that a lookup means, or `None` if it means none.
fn meant<'a>(operands: &Operands<'a>, lookup: &Lookup<'a>) -> Option<usize>
    ensures { (ss : List OperandValue) → Holds ss operands.now → (i : ℕ)
        → option_map_or (λ j. i == j) result false ≡ means ss i (seen_lookup lookup.now) }
{
    match *lookup {
        Lookup::Index(_, index) => match operands.slots.get(index) {
            Some(Operand::Unnamed) => Some(index),
            Some(Operand::Named(_)) | Some(Operand::Register { .. }) | None => None,
        },
        Lookup::Name(_, name) => index_of(&operands.names, name),
        Lookup::LongModifier(_) => None,
    }
}

/// Returns of each operand whether a lookup means it. Returns `Err` if an allocation fails.
fn marks<'a>(
    alloc: Global,
    operands: &Operands<'a>,
    lookups: &[Lookup<'a>],
) -> Result<Vec<bool>, AllocError>
    ensures { IfOk result (λ v. (ss : List OperandValue) → Holds ss operands.now → (i : ℕ)
        → get_or v.items i false ≡ list_any (means ss i) (map seen_lookup lookups.now)) }
{
    let mut marks = vec![in alloc; false; operands.slots.len()]?;
    for lookup in lookups {
        if let Some(index) = meant(operands, lookup) {
            if index < marks.len() {
                marks[index] = true;
            }
        }
    }
    Ok(marks)
}

/// Returns whether an operand is marked, or has a register of its own.
fn is_settled(marks: &[bool], index: usize, slot: &Operand<'_>) -> bool
    ensures { result ≡ (is_register (seen_operand slot.now) || get_or marks.now index false) }
{
    matches!(slot, Operand::Register { .. }) || matches!(marks.get(index), Some(true))
}

/// Adds the index of an operand, unless it is marked or has a register of its own. Returns `Err` if
/// an allocation fails.
fn push_unmarked(
    unused_indices: &mut Vec<usize>,
    marks: &[bool],
    index: usize,
    slot: &Operand<'_>,
) -> Result<(), AllocError>
    ensures { OnOk result (unused_indices.new.items ≡ unused_indices.old.items
        ++ unused_one (λ i. get_or marks.now i false) index (seen_operand slot.now)) }
{
    if !is_settled(marks, index, slot) {
        unused_indices.push(index)?;
    }
    Ok(())
}

/// Returns the indices of the operands that are not marked, but for those with a register of their
/// own. Returns `Err` if an allocation fails.
fn unmarked_operands(
    alloc: Global,
    slots: &[Operand<'_>],
    marks: &[bool],
) -> Result<Vec<usize>, AllocError>
    ensures { IfOk result (λ v. v.items
        ≡ unused_from (λ i. get_or marks.now i false) 0 (map seen_operand slots.now)) }
{
    let mut indices = Vec::new(alloc);
    for (index, slot) in slots.iter().enumerate() {
        push_unmarked(&mut indices, marks, index, slot)?;
    }
    Ok(indices)
}

/// Returns the fault of a lookup, or `None` if there is none, where so many operands have neither a
/// name nor a register of their own.
fn fault_of<'a>(
    operands: &Operands<'a>,
    positional_count: usize,
    lookup: &Lookup<'a>,
) -> Option<AsmFault<'a>>
    ensures { (ss : List OperandValue) → Holds ss operands.now
        → option_map seen_fault result ≡ fault_of ss positional_count (seen_lookup lookup.now) }
{
    match *lookup {
        Lookup::Index(spot, index) => match operands.slots.get(index) {
            Some(Operand::Unnamed) => None,
            Some(Operand::Named(_)) | Some(Operand::Register { .. }) | None => {
                Some(AsmFault::WrongIndex {
                    spot,
                    index,
                    positional_count,
                })
            }
        },
        Lookup::Name(spot, name) => match index_of(&operands.names, name) {
            Some(_) => None,
            None => Some(AsmFault::MissingName { spot, name }),
        },
        Lookup::LongModifier(spot) => Some(AsmFault::LongModifier { spot }),
    }
}

/// Adds the faults of lookups. Returns `Err` if an allocation fails.
pub(crate) fn look_up<'a>(
    faults: &mut Vec<AsmFault<'a>>,
    operands: &Operands<'a>,
    lookups: &[Lookup<'a>],
) -> Result<(), AllocError>
    ensures { OnOk result ((ss : List OperandValue) → Holds ss operands.now
        → map seen_fault faults.new.items ≡ map seen_fault faults.old.items
        ++ filter_map (fault_of ss (count_unnamed ss)) (map seen_lookup lookups.now)) }
{
    let positional_count = count_unnamed(&operands.slots);
    for lookup in lookups {
        if let Some(fault) = fault_of(operands, positional_count, lookup) {
            faults.push(fault)?;
        }
    }
    Ok(())
}

/// Adds the fault of unused operands, if there are any. Returns `Err` if an allocation fails.
fn push_unused(faults: &mut Vec<AsmFault<'_>>, unused_indices: Vec<usize>) -> Result<(), AllocError>
    ensures { OnOk result (map seen_fault faults.new.items ≡ map seen_fault faults.old.items
        ++ unused_faults unused_indices.items) }
{
    if !unused_indices.is_empty() {
        faults.push(AsmFault::UnusedOperands(unused_indices))?;
    }
    Ok(())
}

/// Adds the fault of the operands that no lookup means, if there are any. Returns `Err` if an
/// allocation fails.
pub(crate) fn check_unused<'a>(
    alloc: Global,
    faults: &mut Vec<AsmFault<'a>>,
    operands: &Operands<'a>,
    lookups: &[Lookup<'a>],
) -> Result<(), AllocError>
    ensures { OnOk result ((ss : List OperandValue) → Holds ss operands.now
        → map seen_fault faults.new.items ≡ map seen_fault faults.old.items
        ++ unused_faults (unused_operands ss (map seen_lookup lookups.now))) }
{
    let marks = marks(alloc, operands, lookups)?;
    let unused_indices = unmarked_operands(alloc, &operands.slots, &marks)?;
    push_unused(faults, unused_indices)?;
    Ok(())
}
