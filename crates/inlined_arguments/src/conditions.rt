//! The conditions that can be seen without reading the format string.

ghost use Rattle.std.specs.Prelude.{◌≡◌, chars, map, not};
ghost use Rattle.std.specs.List.{list_any};
ghost use Rattle.inlined_arguments.specs.Views.{seen_argument, seen_call};
ghost use Rattle.inlined_arguments.specs.Conditions.{condition, goes_with_comment, is_bare};
ghost use Rattle.inlined_arguments.specs.Conditions.{list_condition, string_condition};
ghost use Rattle.inlined_arguments.specs.Variables.{is_variable};

use crate::call::{Argument, Call, Obstacle};
use crate::variables::{has_comment, is_variable, split_first};

/// Returns whether one of arguments is a variable.
fn has_variable(arguments: &[Argument<'_>]) -> bool
    ensures { result ≡ list_any is_variable (map seen_argument arguments.now) }
{
    for argument in arguments {
        if is_variable(argument) {
            return true;
        }
    }
    false
}

/// Returns whether one of arguments is no variable.
fn has_other(arguments: &[Argument<'_>]) -> bool
    ensures { result ≡ list_any (λ a. not (is_variable a)) (map seen_argument arguments.now) }
{
    for argument in arguments {
        if !is_variable(argument) {
            return true;
        }
    }
    false
}

/// Returns whether a comment would go with one of arguments.
fn have_comment(arguments: &[Argument<'_>]) -> bool
    ensures { result ≡ list_any goes_with_comment (map seen_argument arguments.now) }
{
    for argument in arguments {
        if is_variable(argument) && has_comment(argument) {
            return true;
        }
    }
    false
}

/// Returns the reason in its list of arguments why a call is left, or `None` if there is none.
fn list_condition(call: &Call<'_>, allows_mixed: bool) -> Option<Obstacle>
    ensures { result ≡ list_condition allows_mixed (seen_call call.now) }
{
    if !call.is_counted {
        return Some(Obstacle::Uncounted);
    }
    if !has_variable(call.arguments) {
        return Some(Obstacle::NoVariable);
    }
    if !allows_mixed && has_other(call.arguments) {
        return Some(Obstacle::Mixed);
    }
    if have_comment(call.arguments) {
        return Some(Obstacle::Comment);
    }
    None
}

/// Returns whether a text is `{}`.
fn is_bare(text: &str) -> bool
    ensures { result ≡ is_bare (chars text.now) }
{
    let Some(('{', rest)) = split_first(text) else {
        return false;
    };
    match split_first(rest) {
        Some(('}', tail)) => split_first(tail).is_none(),
        _ => false,
    }
}

/// Returns the reason in its macro and its string why a call is left, or `None` if there is none.
fn string_condition(call: &Call<'_>) -> Option<Obstacle>
    ensures { result ≡ string_condition (seen_call call.now) }
{
    if !call.string.captures_variables {
        return Some(Obstacle::CapturesNone);
    }
    if !call.is_format_alone && !has_other(call.arguments) {
        return Some(Obstacle::Alone);
    }
    if call.has_const_form && is_bare(call.string.text) {
        return Some(Obstacle::ConstForm);
    }
    None
}

/// Returns the reason why a call is left that can be seen without reading its string, or `None` if
/// there is none.
pub(crate) fn condition(call: &Call<'_>, allows_mixed: bool) -> Option<Obstacle>
    ensures { result ≡ condition allows_mixed (seen_call call.now) }
{
    match list_condition(call, allows_mixed) {
        Some(reason) => Some(reason),
        None => string_condition(call),
    }
}
