//! The values that placeholders refer to.

ghost use Rattle.std.specs.Prelude.{◌≡◌, IfOk, OnOk, Some, chars, if◌then◌else◌, map, option_map};
ghost use Rattle.std.specs.Str.{bytes_eq};
ghost use Rattle.rustc_parse_format.specs.Characters.{Text};
ghost use Rattle.rustc_parse_format.specs.Views.{seen_count, seen_position};
ghost use Rattle.placeholder_check.specs.Uses.{position_use};
ghost use Rattle.inlined_arguments.specs.Views.{Knows, found_in, seen_amount, seen_slot};
ghost use Rattle.inlined_arguments.specs.Views.{seen_slots, seen_value};
ghost use Rattle.inlined_arguments.specs.Values.{amount_of, value_at, value_named, value_of};

use crate::slots::{Slot, Value};
use rustc_parse_format::{Count, Position};
use std::alloc::{AllocError, Global};
use std::collections::BTreeMap;

/// A width or a precision.
#[derive(Clone, Copy)]
pub(crate) enum Amount<'a> {
    /// This number.
    Number(u16),
    /// A value, or `None` if it is an index that no argument has.
    ValueOf(Option<Value<'a>>),
    /// None.
    Absent,
}

/// The values of arguments.
#[derive(Drop)]
pub(crate) struct Values<'s, 'a> {
    /// The slots of these.
    pub slots: &'s [Slot<'a>],
    /// The value of the last one with each name.
    pub named_values: BTreeMap<&'a str, Value<'a>>,
}

/// Returns the value that a map has for a name, or `None` if it has none.
fn found_in<'a>(named_values: &BTreeMap<&'a str, Value<'a>>, name: &'a str) -> Option<Value<'a>>
    ensures { option_map seen_value result ≡ found_in named_values.now (chars name.now) }
{
    named_values.get(&name).copied()
}

/// Puts the value of a name into a map. Returns `Err` if an allocation fails.
fn insert<'a>(
    named_values: &mut BTreeMap<&'a str, Value<'a>>,
    name: &'a str,
    value: Value<'a>,
) -> Result<(), AllocError>
    ensures { OnOk result ((w : Text) → found_in named_values.new w
        ≡ (if bytes_eq w (chars name.now) then
        Some (seen_value value.entry) else found_in named_values.old w)) }
{
    named_values.insert(name, value)?;
    Ok(())
}

/// Returns the values of slots. Returns `Err` if an allocation fails.
pub(crate) fn values_of<'s, 'a>(
    alloc: Global,
    slots: &'s [Slot<'a>],
) -> Result<Values<'s, 'a>, AllocError>
    ensures knows { IfOk result Knows }
    ensures slots { IfOk result (λ v. seen_slots v ≡ map seen_slot slots.now) }
{
    let mut named_values = BTreeMap::new(alloc);
    for slot in slots {
        if let Some(name) = slot.name {
            insert(&mut named_values, name, slot.value)?;
        }
    }
    Ok(Values {
        slots,
        named_values,
    })
}

/// Returns the value of an index, or `None` if no argument has it.
fn value_at<'a>(values: &Values<'_, 'a>, index: usize) -> Option<Value<'a>>
    ensures { option_map seen_value result ≡ value_at (seen_slots values.now) index }
{
    match values.slots.get(index) {
        Some(slot) => Some(slot.value),
        None => None,
    }
}

/// Returns the value of a name: that of the argument with this name, or else the variable.
fn value_named<'a>(values: &Values<'_, 'a>, name: &'a str) -> Value<'a>
    ensures { Knows values.now
        → seen_value result ≡ value_named (seen_slots values.now) (chars name.now) }
{
    match found_in(&values.named_values, name) {
        Some(value) => value,
        None => Value::Variable(name),
    }
}

/// Returns the value of a position, or `None` if it is an index that no argument has.
pub(crate) fn position_value<'a>(
    values: &Values<'_, 'a>,
    position: &Position<'a>,
) -> Option<Value<'a>>
    ensures { Knows values.now → option_map seen_value result
        ≡ value_of (seen_slots values.now) (position_use (seen_position position.now)) }
{
    match position {
        Position::ArgumentImplicitlyIs(n) | Position::ArgumentIs(n) => value_at(values, *n),
        Position::ArgumentNamed(name) => Some(value_named(values, name)),
    }
}

/// Returns the amount that a width or a precision is.
pub(crate) fn amount_of<'a>(values: &Values<'_, 'a>, count: &Count<'a>) -> Amount<'a>
    ensures { Knows values.now
        → seen_amount result ≡ amount_of (seen_slots values.now) (seen_count count.now) }
{
    match count {
        Count::CountIs(n) => Amount::Number(*n),
        Count::CountIsParam(n) | Count::CountIsStar(n) => Amount::ValueOf(value_at(values, *n)),
        Count::CountIsName(name, _) => Amount::ValueOf(Some(value_named(values, name))),
        Count::CountImplied => Amount::Absent,
    }
}
