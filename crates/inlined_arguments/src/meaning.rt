//! The comparison of the meanings of two calls.

ghost use Rattle.std.specs.Prelude.{◌≡◌, ◌↔◌, IsTrue, chars, map, option_map};
ghost use Rattle.rustc_parse_format.specs.Views.{seen_piece, seen_argument, seen_debug_hex};
ghost use Rattle.rustc_parse_format.specs.Views.{seen_sign};
ghost use Rattle.rustc_parse_format.specs.Views.{seen_spec};
ghost use Rattle.inlined_arguments.specs.Meaning.{flags, meaning, part, use_part};
ghost use Rattle.inlined_arguments.specs.Views.{Knows, seen_amount, seen_slots, seen_value};

use crate::slots::Value;
use crate::values::{Amount, Values, amount_of, position_value};
use rustc_parse_format::laws::{alignments_are_equal, debug_hexes_are_equal, signs_are_equal};
use rustc_parse_format::{Argument, DebugHex, FormatSpec, Piece, Sign};

/// Returns whether two texts are the same.
pub(crate) fn is_same_text(left: &str, right: &str) -> bool
    ensures { IsTrue result ↔ (chars left.now ≡ chars right.now) }
{
    left == right
}

/// Returns whether two values are the same.
fn is_same_value(left: Value<'_>, right: Value<'_>) -> bool
    ensures { IsTrue result ↔ (seen_value left.entry ≡ seen_value right.entry) }
{
    match (left, right) {
        (Value::Variable(left), Value::Variable(right)) => is_same_text(left, right),
        (Value::Expression(left), Value::Expression(right)) => left == right,
        _ => false,
    }
}

/// Returns whether two values are the same, or neither is there.
fn are_same_values(left: Option<Value<'_>>, right: Option<Value<'_>>) -> bool
    ensures { IsTrue result
        ↔ (option_map seen_value left.entry ≡ option_map seen_value right.entry) }
{
    match (left, right) {
        (Some(left), Some(right)) => is_same_value(left, right),
        (None, None) => true,
        _ => false,
    }
}

/// Returns whether two widths or precisions are the same.
fn are_same_amounts(left: Amount<'_>, right: Amount<'_>) -> bool
    ensures { IsTrue result ↔ (seen_amount left.entry ≡ seen_amount right.entry) }
{
    match (left, right) {
        (Amount::Number(left), Amount::Number(right)) => left == right,
        (Amount::ValueOf(left), Amount::ValueOf(right)) => are_same_values(left, right),
        (Amount::Absent, Amount::Absent) => true,
        _ => false,
    }
}

/// Returns whether two fill characters are the same.
fn are_same_fills(left: Option<char>, right: Option<char>) -> bool
    ensures { IsTrue result ↔ (left ≡ right) }
{
    match (left, right) {
        (None, None) => true,
        (Some(left), Some(right)) => left == right,
        _ => false,
    }
}

/// Returns whether two signs are the same.
fn are_same_signs(left: Option<Sign>, right: Option<Sign>) -> bool
    ensures { IsTrue result ↔ (option_map seen_sign left ≡ option_map seen_sign right) }
{
    match (left, right) {
        (None, None) => true,
        (Some(left), Some(right)) => signs_are_equal(&left, &right),
        _ => false,
    }
}

/// Returns whether two flags of the type `?` are the same.
fn are_same_hexes(left: Option<DebugHex>, right: Option<DebugHex>) -> bool
    ensures { IsTrue result
        ↔ (option_map seen_debug_hex left ≡ option_map seen_debug_hex right) }
{
    match (left, right) {
        (None, None) => true,
        (Some(left), Some(right)) => debug_hexes_are_equal(&left, &right),
        _ => false,
    }
}

/// Returns whether two specifications are the same but for their width, their precision and their
/// places.
#[tactic(auto, using(crate::proofs::Comparing::same_flags))]
fn are_same_flags(left: &FormatSpec<'_>, right: &FormatSpec<'_>) -> bool
    ensures { IsTrue result ↔ (flags (seen_spec left.now) ≡ flags (seen_spec right.now)) }
{
    are_same_fills(left.fill, right.fill)
        && alignments_are_equal(&left.align, &right.align)
        && are_same_signs(left.sign, right.sign)
        && left.alternate == right.alternate
        && left.zero_pad == right.zero_pad
        && are_same_hexes(left.debug_hex, right.debug_hex)
        && is_same_text(left.ty, right.ty)
}

/// A format string and the values that it refers to.
#[derive(Clone, Copy)]
pub(crate) struct CallMeaning<'s, 'a> {
    /// Its pieces.
    pub pieces: &'s [Piece<'a>],
    /// The values of its arguments.
    pub values: &'s Values<'s, 'a>,
}

/// Returns whether two placeholders mean the same.
fn are_same_uses<'a, 'b>(
    left_values: &Values<'_, 'a>,
    left: &Argument<'a>,
    right_values: &Values<'_, 'b>,
    right: &Argument<'b>,
) -> bool
    ensures { Knows left_values.now → Knows right_values.now → (IsTrue result
        ↔ (use_part (seen_slots left_values.now) (seen_argument left.now)
        ≡ use_part (seen_slots right_values.now) (seen_argument right.now))) }
{
    are_same_values(
        position_value(left_values, &left.position),
        position_value(right_values, &right.position),
    ) && are_same_amounts(
        amount_of(left_values, &left.format.width),
        amount_of(right_values, &right.format.width),
    ) && are_same_amounts(
        amount_of(left_values, &left.format.precision),
        amount_of(right_values, &right.format.precision),
    ) && are_same_flags(&left.format, &right.format)
}

/// Returns whether two pieces mean the same.
fn are_same_parts<'a, 'b>(
    left_values: &Values<'_, 'a>,
    left: &Piece<'a>,
    right_values: &Values<'_, 'b>,
    right: &Piece<'b>,
) -> bool
    ensures { Knows left_values.now → Knows right_values.now → (IsTrue result
        ↔ (part (seen_slots left_values.now) (seen_piece left.now)
        ≡ part (seen_slots right_values.now) (seen_piece right.now))) }
{
    match (left, right) {
        (Piece::Lit(left), Piece::Lit(right)) => is_same_text(left, right),
        (Piece::NextArgument(left), Piece::NextArgument(right)) => {
            are_same_uses(left_values, left, right_values, right)
        }
        _ => false,
    }
}

/// Returns whether two calls mean the same.
pub(crate) fn means_same<'a, 'b>(left: CallMeaning<'_, 'a>, right: CallMeaning<'_, 'b>) -> bool
    ensures { Knows left.entry.values.now → Knows right.entry.values.now → (IsTrue result
        ↔ (meaning (seen_slots left.entry.values.now) (map seen_piece left.entry.pieces.now)
        ≡ meaning (seen_slots right.entry.values.now) (map seen_piece right.entry.pieces.now))) }
{
    if left.pieces.len() != right.pieces.len() {
        return false;
    }
    for (index, piece) in left.pieces.iter().enumerate() {
        match right.pieces.get(index) {
            Some(other) => {
                if !are_same_parts(left.values, piece, right.values, other) {
                    return false;
                }
            }
            None => return false,
        }
    }
    true
}
