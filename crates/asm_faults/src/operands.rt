//! The list of operands of a call.

ghost use Rattle.std.specs.Prelude.{◌≡◌, ◌∷◌, ◌++◌, [], List, IfOk, OnOk, Some, chars, length};
ghost use Rattle.std.specs.Prelude.{if◌then◌else◌, map, option_map, take};
ghost use Rattle.std.specs.List.{slice_get};
ghost use Rattle.std.specs.Str.{bytes_eq};
ghost use Rattle.rustc_parse_format.specs.Characters.{Text};
ghost use Rattle.asm_faults.specs.Operands.{Named, Operand as OperandValue, Register, Unnamed};
ghost use Rattle.asm_faults.specs.Operands.{count_unnamed, faults_from, faults_of, late_faults};
ghost use Rattle.asm_faults.specs.Operands.{others_of, slot, slots_after};
ghost use Rattle.asm_faults.specs.Views.{Holds, found_in, seen_fault, seen_operand};

use crate::faults::AsmFault;
use std::alloc::{AllocError, Global};
use std::collections::BTreeMap;

/// An operand of a call, as far as placeholders can tell it from others.
#[derive(Clone, Copy)]
pub enum Operand<'a> {
    /// It has no name and no register of its own, as `in(reg) x`.
    Unnamed,
    /// It has this name, without the `r#` of a raw identifier, as `a` in `a = in(reg) x`.
    Named(&'a str),
    /// It has a register of its own, as `in("eax") x`, so no placeholder may refer to it.
    Register {
        /// Whether it has a name too, which is a fault.
        has_name: bool,
    },
}

/// The most operands with a name, and the most with a register of their own, whose indices the
/// fault of a later operand has. rustc lists all, so its messages grow with the square of a call.
const MOST: usize = 16;

/// The operands of a call so far.
#[derive(Drop)]
pub(crate) struct Operands<'a> {
    /// The operands, of which those whose name is that of an earlier one count as unnamed.
    pub slots: Vec<Operand<'a>>,
    /// The index of the operand with each name.
    pub names: BTreeMap<&'a str, usize>,
    /// The indices of those that have a name.
    pub named_operands: Vec<usize>,
    /// The indices of those that have a register of their own.
    pub registers: Vec<usize>,
}

/// Returns no operands. Does not allocate.
fn no_operands<'a>(alloc: Global) -> Operands<'a>
    ensures { Holds [] result }
{
    Operands {
        slots: Vec::new(alloc),
        names: BTreeMap::new(alloc),
        named_operands: Vec::new(alloc),
        registers: Vec::new(alloc),
    }
}

/// Returns the index that a map has for a name, or `None` if it has none.
pub(crate) fn index_of<'a>(names: &BTreeMap<&'a str, usize>, name: &'a str) -> Option<usize>
    ensures { result ≡ found_in names.now (chars name.now) }
{
    names.get(&name).copied()
}

/// Puts a name into a map that does not have it. Returns `Err` if an allocation fails.
fn insert<'a>(
    names: &mut BTreeMap<&'a str, usize>,
    name: &'a str,
    index: usize,
) -> Result<(), AllocError>
    ensures { OnOk result ((w : Text) → found_in names.new w
        ≡ (if bytes_eq w (chars name.now) then Some index else found_in names.old w)) }
{
    names.insert(name, index)?;
    Ok(())
}

/// Returns the first [`MOST`] of indices.
fn first_of(indices: &[usize]) -> &[usize]
    ensures { result.now ≡ take 16 indices.now }
{
    &indices[..indices.len().min(MOST)]
}

/// Returns the indices of the first operands that have a name, and then of the first that have a
/// register of their own. Returns `Err` if an allocation fails.
fn others_of(alloc: Global, operands: &Operands<'_>) -> Result<Vec<usize>, AllocError>
    ensures { IfOk result (λ v. (ss : List OperandValue) → Holds ss operands.now
        → v.items ≡ others_of ss) }
{
    let mut earlier_operands = Vec::new(alloc);
    earlier_operands.extend_from_slice(first_of(&operands.named_operands))?;
    earlier_operands.extend_from_slice(first_of(&operands.registers))?;
    Ok(earlier_operands)
}

/// Adds the fault of an operand without a name and without a register of its own, if these others
/// stand in front of it. Returns `Err` if an allocation fails.
fn push_late(
    faults: &mut Vec<AsmFault<'_>>,
    operand: usize,
    earlier_operands: Vec<usize>,
) -> Result<(), AllocError>
    ensures { OnOk result (map seen_fault faults.new.items ≡ map seen_fault faults.old.items
        ++ late_faults operand earlier_operands.items) }
{
    if !earlier_operands.is_empty() {
        faults.push(AsmFault::PositionalAfter {
            operand,
            earlier_operands,
        })?;
    }
    Ok(())
}

/// Adds an operand without a name and without a register of its own, and its fault if it stands
/// after one that has one of them. Returns `Err` if an allocation fails.
fn add_unnamed<'a>(
    operands: &mut Operands<'a>,
    faults: &mut Vec<AsmFault<'a>>,
    index: usize,
) -> Result<(), AllocError>
    ensures held { OnOk result ((ss : List OperandValue) → Holds ss operands.old
        → Holds (ss ++ Unnamed ∷ []) operands.new) }
    ensures outcome { OnOk result ((ss : List OperandValue) → Holds ss operands.old
        → map seen_fault faults.new.items ≡ map seen_fault faults.old.items
        ++ faults_of ss index Unnamed) }
{
    let earlier_operands = others_of(*faults.allocator(), operands)?;
    push_late(faults, index, earlier_operands)?;
    operands.slots.push(Operand::Unnamed)?;
    Ok(())
}

/// Adds an operand with a name, or its fault if that is the name of an earlier one, and the operand
/// then counts as unnamed. Returns `Err` if an allocation fails.
fn add_named<'a>(
    operands: &mut Operands<'a>,
    faults: &mut Vec<AsmFault<'a>>,
    index: usize,
    name: &'a str,
) -> Result<(), AllocError>
    ensures held { OnOk result ((ss : List OperandValue) → Holds ss operands.old
        → index ≡ length ss
        → Holds (ss ++ slot ss (Named (chars name.now)) ∷ []) operands.new) }
    ensures outcome { OnOk result ((ss : List OperandValue) → Holds ss operands.old
        → map seen_fault faults.new.items ≡ map seen_fault faults.old.items
        ++ faults_of ss index (Named (chars name.now))) }
{
    match index_of(&operands.names, name) {
        Some(first_operand) => {
            faults.push(AsmFault::RepeatedName {
                operand: index,
                first_operand,
            })?;
            operands.slots.push(Operand::Unnamed)?;
        }
        None => {
            insert(&mut operands.names, name, index)?;
            operands.named_operands.push(index)?;
            operands.slots.push(Operand::Named(name))?;
        }
    }
    Ok(())
}

/// Adds an operand with a register of its own, and its fault if it has a name. Returns `Err` if an
/// allocation fails.
fn add_register<'a>(
    operands: &mut Operands<'a>,
    faults: &mut Vec<AsmFault<'a>>,
    index: usize,
    has_name: bool,
) -> Result<(), AllocError>
    ensures held { OnOk result ((ss : List OperandValue) → Holds ss operands.old
        → index ≡ length ss → Holds (ss ++ Register has_name ∷ []) operands.new) }
    ensures outcome { OnOk result ((ss : List OperandValue) → Holds ss operands.old
        → map seen_fault faults.new.items ≡ map seen_fault faults.old.items
        ++ faults_of ss index (Register has_name)) }
{
    if has_name {
        faults.push(AsmFault::RegisterName { operand: index })?;
    }
    operands.registers.push(index)?;
    operands.slots.push(Operand::Register { has_name })?;
    Ok(())
}

/// Adds an operand, and its fault if it has one. Returns `Err` if an allocation fails.
fn add<'a>(
    operands: &mut Operands<'a>,
    faults: &mut Vec<AsmFault<'a>>,
    index: usize,
    operand: Operand<'a>,
) -> Result<(), AllocError>
    ensures held { OnOk result ((ss : List OperandValue) → Holds ss operands.old
        → index ≡ length ss
        → Holds (ss ++ slot ss (seen_operand operand.entry) ∷ []) operands.new) }
    ensures outcome { OnOk result ((ss : List OperandValue) → Holds ss operands.old
        → map seen_fault faults.new.items ≡ map seen_fault faults.old.items
        ++ faults_of ss index (seen_operand operand.entry)) }
{
    match operand {
        Operand::Unnamed => add_unnamed(operands, faults, index)?,
        Operand::Named(name) => add_named(operands, faults, index, name)?,
        Operand::Register { has_name } => add_register(operands, faults, index, has_name)?,
    }
    Ok(())
}

/// Returns the operand of an index, or `None` if there is none.
pub(crate) fn operand_at<'a>(operands: &[Operand<'a>], index: usize) -> Option<Operand<'a>>
    ensures { option_map seen_operand result ≡ slice_get (map seen_operand operands.now) index }
{
    match operands.get(index) {
        Some(operand) => Some(*operand),
        None => None,
    }
}

/// Returns how many operands have neither a name nor a register of their own.
pub(crate) fn count_unnamed(operands: &[Operand<'_>]) -> usize
    ensures { result ≡ count_unnamed (map seen_operand operands.now) }
{
    let mut count = 0;
    for operand in operands {
        if let Operand::Unnamed = operand {
            count += 1;
        }
    }
    count
}

/// Returns operands as placeholders refer to them, and adds the faults of their list. Returns `Err`
/// if an allocation fails.
pub(crate) fn operands_of<'a>(
    alloc: Global,
    faults: &mut Vec<AsmFault<'a>>,
    list: &[Operand<'a>],
) -> Result<Operands<'a>, AllocError>
    ensures held { IfOk result (λ a. Holds (slots_after [] (map seen_operand list.now)) a) }
    ensures outcome { OnOk result (map seen_fault faults.new.items ≡ map seen_fault faults.old.items
        ++ faults_from [] 0 (map seen_operand list.now)) }
{
    let mut operands = no_operands(alloc);
    for (index, operand) in list.iter().enumerate() {
        add(&mut operands, faults, index, *operand)?;
    }
    Ok(operands)
}
