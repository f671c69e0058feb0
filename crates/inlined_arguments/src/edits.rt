//! The edits that put variables into a literal.

ghost use Rattle.std.specs.Prelude.{◌≡◌, ◌++◌, IfOk, OnOk, Some, chars, encode_utf8_all, map};
ghost use Rattle.std.specs.Prelude.{option_map, string_bytes};
ghost use Rattle.rustc_parse_format.specs.Views.{pair, seen_argument, seen_count, seen_piece};
ghost use Rattle.rustc_parse_format.specs.Views.{seen_position};
ghost use Rattle.inlined_arguments.specs.Edits.{count_edits, count_reference, edit_at, new_edits};
ghost use Rattle.inlined_arguments.specs.Edits.{new_count_text, new_text, piece_edits};
ghost use Rattle.inlined_arguments.specs.Edits.{position_edits, position_reference};
ghost use Rattle.inlined_arguments.specs.Values.{amount_of};
ghost use Rattle.inlined_arguments.specs.Views.{Knows, seen_amount, seen_edit, seen_reference};
ghost use Rattle.inlined_arguments.specs.Views.{seen_slots, seen_value};

use crate::call::Edit;
use crate::meaning::{CallMeaning, is_same_text};
use crate::slots::Value;
use crate::values::{Amount, Values, amount_of, position_value};
use itoa::Buffer;
use rustc_parse_format::{Argument, Count, Piece, Position};
use std::alloc::{AllocError, Global};
use std::ops::Range;

/// How a part of a placeholder refers to an argument.
#[derive(Clone, Copy)]
enum Reference<'a> {
    /// By a name that is written.
    WrittenName(&'a str),
    /// By an index that is written.
    WrittenIndex(usize),
    /// As to the next one, or not at all.
    Unwritten,
}

/// Returns how a position refers to an argument.
fn position_reference<'a>(position: &Position<'a>) -> Reference<'a>
    ensures { seen_reference result ≡ position_reference (seen_position position.now) }
{
    match position {
        Position::ArgumentNamed(name) => Reference::WrittenName(name),
        Position::ArgumentIs(n) => Reference::WrittenIndex(*n),
        Position::ArgumentImplicitlyIs(_) => Reference::Unwritten,
    }
}

/// Returns how a width or a precision refers to an argument.
fn count_reference<'a>(count: &Count<'a>) -> Reference<'a>
    ensures { seen_reference result ≡ count_reference (seen_count count.now) }
{
    match count {
        Count::CountIsName(name, _) => Reference::WrittenName(name),
        Count::CountIsParam(n) => Reference::WrittenIndex(*n),
        Count::CountIs(_) | Count::CountIsStar(_) | Count::CountImplied => Reference::Unwritten,
    }
}

/// Returns a name as a text of its own. Returns `Err` if an allocation fails.
fn name_text(alloc: Global, name: &str) -> Result<String, AllocError>
    ensures { IfOk result (λ s. string_bytes s ≡ encode_utf8_all (chars name.now)) }
{
    Ok(String::from_str(alloc, name)?)
}

/// Returns the new text of a reference to this value, or `None` if it stays as it is: a name that
/// is that of the variable already, an index that stays the same, or the next argument. Returns
/// `Err` if an allocation fails.
fn new_text(
    alloc: Global,
    reference: Reference<'_>,
    value: Value<'_>,
) -> Result<Option<String>, AllocError>
    ensures { IfOk result (λ o. option_map string_bytes o
        ≡ new_text (seen_reference reference.entry) (seen_value value.entry)) }
{
    match (value, reference) {
        (Value::Variable(name), Reference::WrittenName(other)) => {
            if is_same_text(name, other) {
                return Ok(None);
            }
            Ok(Some(name_text(alloc, name)?))
        }
        (Value::Variable(name), _) => Ok(Some(name_text(alloc, name)?)),
        (Value::Expression(index), Reference::WrittenIndex(n)) => {
            if n == index {
                return Ok(None);
            }
            let mut digits = Buffer::new();
            Ok(Some(String::from_str(alloc, digits.format(index))?))
        }
        _ => Ok(None),
    }
}

/// Adds the edit that puts a text into a place of the literal, if there is one. Returns `Err` if an
/// allocation fails.
fn push_edit(
    edits: &mut Vec<Edit>,
    span: &Range<usize>,
    text: Option<String>,
) -> Result<(), AllocError>
    ensures { OnOk result (map seen_edit edits.new.items ≡ map seen_edit edits.old.items
        ++ edit_at (Some (pair span.now)) (option_map string_bytes text)) }
{
    if let Some(text) = text {
        edits.push(Edit {
            span: span.start..span.end,
            text,
        })?;
    }
    Ok(())
}

/// Adds the edit of the position of a placeholder, if it does not stay as it is. Returns `Err` if
/// an allocation fails.
fn push_position<'a>(
    alloc: Global,
    edits: &mut Vec<Edit>,
    values: &Values<'_, 'a>,
    argument: &Argument<'a>,
) -> Result<(), AllocError>
    ensures { OnOk result (Knows values.now → map seen_edit edits.new.items
        ≡ map seen_edit edits.old.items
        ++ position_edits (seen_slots values.now) (seen_argument argument.now)) }
{
    let text = match position_value(values, &argument.position) {
        Some(value) => new_text(alloc, position_reference(&argument.position), value)?,
        None => None,
    };
    push_edit(edits, &argument.position_span, text)?;
    Ok(())
}

/// Returns the text of a width or a precision that is an argument, or `None` if it stays as it is.
/// `dot` is what the text begins with: the dot of a precision. Returns `Err` if an allocation
/// fails.
fn count_text(
    alloc: Global,
    reference: Reference<'_>,
    amount: Amount<'_>,
    dot: &str,
) -> Result<Option<String>, AllocError>
    ensures { IfOk result (λ o. option_map string_bytes o ≡ new_count_text dot.now
        (seen_reference reference.entry) (seen_amount amount.entry)) }
{
    let Amount::ValueOf(Some(value)) = amount else {
        return Ok(None);
    };
    match new_text(alloc, reference, value)? {
        Some(text) => Ok(Some(format!(in alloc; "{dot}{text}$")?)),
        None => Ok(None),
    }
}

/// Adds the edit of a width or a precision at a place of the literal, if it does not stay as it is.
/// `dot` is what its text begins with. Returns `Err` if an allocation fails.
fn push_count<'a>(
    alloc: Global,
    edits: &mut Vec<Edit>,
    values: &Values<'_, 'a>,
    count: &Count<'a>,
    span: &Option<Range<usize>>,
    dot: &str,
) -> Result<(), AllocError>
    ensures { OnOk result (Knows values.now → map seen_edit edits.new.items
        ≡ map seen_edit edits.old.items ++ count_edits (seen_slots values.now) dot.now
        (option_map pair span.now) (seen_count count.now)) }
{
    if let Some(span) = span {
        let text = count_text(alloc, count_reference(count), amount_of(values, count), dot)?;
        push_edit(edits, span, text)?;
    }
    Ok(())
}

/// Adds the edits of a piece. Returns `Err` if an allocation fails.
fn push_piece<'a>(
    alloc: Global,
    edits: &mut Vec<Edit>,
    values: &Values<'_, 'a>,
    piece: &Piece<'a>,
) -> Result<(), AllocError>
    ensures { OnOk result (Knows values.now → map seen_edit edits.new.items
        ≡ map seen_edit edits.old.items
        ++ piece_edits (seen_slots values.now) (seen_piece piece.now)) }
{
    let Piece::NextArgument(argument) = piece else {
        return Ok(());
    };
    let format = &argument.format;
    push_position(alloc, edits, values, argument)?;
    push_count(alloc, edits, values, &format.width, &format.width_span, "")?;
    push_count(
        alloc,
        edits,
        values,
        &format.precision,
        &format.precision_span,
        ".",
    )?;
    Ok(())
}

/// Returns the edits of a literal whose text has these pieces: they put variables in the place of
/// references to arguments that are these, and make the others those to the arguments that stay.
/// Returns `Err` if an allocation fails.
pub(crate) fn edits_of(alloc: Global, call: CallMeaning<'_, '_>) -> Result<Vec<Edit>, AllocError>
    ensures { IfOk result (λ v. Knows call.entry.values.now → map seen_edit v.items
        ≡ new_edits (seen_slots call.entry.values.now) (map seen_piece call.entry.pieces.now)) }
{
    let mut edits = Vec::new(alloc);
    for piece in call.pieces {
        push_piece(alloc, &mut edits, call.values, piece)?;
    }
    Ok(edits)
}
