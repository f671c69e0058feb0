//! Arguments as places for values.

ghost use Rattle.std.specs.Prelude.{◌≡◌, IfOk, map};
ghost use Rattle.call_faults.specs.Views.{seen_given};
ghost use Rattle.inlined_arguments.specs.Views.{seen_argument, seen_slot, seen_value};
ghost use Rattle.inlined_arguments.specs.Values.{slot_argument, is_expression, kept_slots};
ghost use Rattle.inlined_arguments.specs.Values.{slot_value};
ghost use Rattle.inlined_arguments.specs.Values.{slots};

use crate::call::Argument;
use crate::variables::variable;
use call_faults::FormatArgument;
use std::alloc::{AllocError, Global};

/// The value that a part of a placeholder refers to.
#[derive(Clone, Copy)]
pub(crate) enum Value<'a> {
    /// The variable of this name.
    Variable(&'a str),
    /// An argument that is no variable, with its index among those that are none.
    Expression(usize),
}

/// An argument as a place for a value.
#[derive(Clone, Copy)]
pub(crate) struct Slot<'a> {
    /// Its name.
    pub name: Option<&'a str>,
    /// Its value.
    pub value: Value<'a>,
}

/// Returns the value of an argument with this index among those that are no variables.
fn slot_value<'a>(argument: &Argument<'a>, index: usize) -> Value<'a>
    ensures { seen_value result ≡ slot_value index (seen_argument argument.now) }
{
    match variable(argument) {
        Some(name) => Value::Variable(name),
        None => Value::Expression(index),
    }
}

/// Returns whether a value is no variable.
fn is_expression(value: Value<'_>) -> bool
    ensures { result ≡ is_expression (seen_value value.entry) }
{
    matches!(value, Value::Expression(_))
}

/// Returns the slots of arguments. Returns `Err` if an allocation fails.
pub(crate) fn slots<'a>(
    alloc: Global,
    arguments: &[Argument<'a>],
) -> Result<Vec<Slot<'a>>, AllocError>
    ensures { IfOk result (λ v. map seen_slot v.items ≡ slots (map seen_argument arguments.now)) }
{
    let mut slots = Vec::new(alloc);
    let mut kept_count = 0;
    for argument in arguments {
        let value = slot_value(argument, kept_count);
        slots.push(Slot {
            name: argument.name,
            value,
        })?;
        if is_expression(value) {
            kept_count += 1;
        }
    }
    Ok(slots)
}

/// Returns the slots that stay: those of arguments that are no variables. Returns `Err` if an
/// allocation fails.
pub(crate) fn expression_slots<'a>(
    alloc: Global,
    slots: &[Slot<'a>],
) -> Result<Vec<Slot<'a>>, AllocError>
    ensures { IfOk result (λ v. map seen_slot v.items ≡ kept_slots (map seen_slot slots.now)) }
{
    let mut list = Vec::new(alloc);
    for slot in slots {
        if is_expression(slot.value) {
            list.push(*slot)?;
        }
    }
    Ok(list)
}

/// Returns slots as the arguments of a call. Returns `Err` if an allocation fails.
pub(crate) fn givens<'a>(
    alloc: Global,
    slots: &[Slot<'a>],
) -> Result<Vec<FormatArgument<'a>>, AllocError>
    ensures { IfOk result (λ v. map seen_given v.items
        ≡ map slot_argument (map seen_slot slots.now)) }
{
    let mut arguments = Vec::new(alloc);
    for slot in slots {
        arguments.push(FormatArgument {
            name: slot.name,
            variable: None,
        })?;
    }
    Ok(arguments)
}
