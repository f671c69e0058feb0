//! Inlining, and the check of its result.

ghost use Rattle.std.specs.Prelude.{◌≡◌, ◌↔◌, ◌+◌, ◌<◌, ◌≤◌, ◌^◌, ◌++◌, Bool, IfErr, IfOk, IsOk};
ghost use Rattle.std.specs.Prelude.{IsTrue, None, OnOk, chars, length, map, string_bytes};
ghost use Rattle.rustc_parse_format.specs.Literal.{newline};
ghost use Rattle.rustc_parse_format.specs.Views.{seen_piece};
ghost use Rattle.rustc_parse_format.specs.World.{hashes};
ghost use Rattle.call_faults.specs.Views.{seen_given};
ghost use Rattle.inlined_arguments.specs.Conditions.{condition};
ghost use Rattle.inlined_arguments.specs.Inlining.{IsCleanAs, IsInlinable, IsInlined};
ghost use Rattle.inlined_arguments.specs.Inlining.{IsUnchanged, MeansSame};
ghost use Rattle.inlined_arguments.specs.Views.{Knows, seen_argument, seen_call, seen_inlined};
ghost use Rattle.inlined_arguments.specs.Views.{seen_slot, seen_slots};
ghost use Rattle.inlined_arguments.specs.Values.{slot_argument, slots as slots_of};

use crate::call::{Call, InlinedCall, Obstacle};
use crate::conditions::condition;
use crate::edited::apply_edits;
use crate::edits::edits_of;
use crate::meaning::{CallMeaning, means_same};
use crate::reading::read;
use crate::slots::{Slot, expression_slots, givens, slots};
use crate::values::values_of;
use crate::variables::variable_indices;
use call_faults::{FormatArgument, FormatString};
use piece_listing::literal::{LiteralText, literal_text};
use std::alloc::{AllocError, Global};

/// Adds the newline that a macro appends, if it does. Returns `Err` if an allocation fails.
fn put_newline(text: &mut String, appends_newline: bool) -> Result<(), AllocError>
    ensures text { OnOk result (chars (string_bytes text.new)
        ≡ chars (string_bytes text.old) ++ newline appends_newline) }
    ensures short { OnOk result (length (string_bytes text.new)
        ≤ length (string_bytes text.old) + 1) }
{
    if appends_newline {
        text.push('\n')?;
        return Ok(());
    }
    Ok(())
}

/// Returns whether two styles of literals are the same.
fn is_same_style(left: Option<usize>, right: Option<usize>) -> bool
    ensures { IsTrue result ↔ (left ≡ right) }
{
    match (left, right) {
        (None, None) => true,
        (Some(left), Some(right)) => left == right,
        _ => false,
    }
}

/// Returns whether nothing is wrong with a call with this string and these slots, and it means what
/// the old one does. The given arguments are those of the slots. Returns `Err` if an allocation
/// fails.
fn means_same_with<'c>(
    alloc: Global,
    old: CallMeaning<'_, '_>,
    string: FormatString<'c>,
    slots: &[Slot<'c>],
    arguments: &'c [FormatArgument<'c>],
) -> Result<bool, AllocError>
    requires { hashes string.style + length string.text.now + 2 < 2 ^ 64 }
    ensures { IfOk result (λ b. Knows old.entry.values.now
        → map seen_given arguments.now ≡ map slot_argument (map seen_slot slots.now) → (IsTrue b
        ↔ IsCleanAs string.entry.captures_variables (seen_slots old.entry.values.now)
        (map seen_piece old.entry.pieces.now) (map seen_slot slots.now)
        (chars string.entry.text.now))) }
{
    let Some(pieces) = read(alloc, string, arguments)? else {
        return Ok(false);
    };
    let values = values_of(alloc, slots)?;
    let new = CallMeaning {
        pieces: &pieces,
        values: &values,
    };
    Ok(means_same(old, new))
}

/// Returns whether a call with this literal in place of its own, and without the arguments that are
/// variables, means what the old one does. Returns `Err` if an allocation fails.
fn keeps_meaning(
    alloc: Global,
    call: Call<'_>,
    old: CallMeaning<'_, '_>,
    literal: &str,
) -> Result<bool, AllocError>
    ensures { IfOk result (λ b. Knows old.entry.values.now
        → seen_slots old.entry.values.now ≡ slots_of (map seen_argument call.entry.arguments.now)
        → (IsTrue b ↔ MeansSame (seen_call call.entry) (map seen_piece old.entry.pieces.now)
        (chars literal.now))) }
{
    let Some(LiteralText { mut text, style }) = literal_text(alloc, literal)? else {
        return Ok(false);
    };
    if !is_same_style(style, call.string.style) {
        return Ok(false);
    }
    put_newline(&mut text, call.string.appended_newline)?;
    let string = FormatString {
        text: text.as_str(),
        style,
        snippet: Some(literal),
        appended_newline: call.string.appended_newline,
        captures_variables: call.string.captures_variables,
    };
    let slots = expression_slots(alloc, old.values.slots)?;
    let arguments = givens(alloc, &slots)?;
    means_same_with(alloc, old, string, &slots, arguments.as_slice())
}

/// Returns a call with its arguments that are variables in its format string, or why it is left as
/// it is, if it is not for a reason that is seen without reading its string. The slots and the
/// given arguments are those of the call. Returns `Err` if an allocation fails.
fn inline_with<'c>(
    alloc: Global,
    call: Call<'c>,
    slots: &[Slot<'c>],
    arguments: &'c [FormatArgument<'c>],
) -> Result<Result<InlinedCall, Obstacle>, AllocError>
    requires fits { hashes call.string.style + length call.string.text.now + 2 < 2 ^ 64 }
    requires slots { map seen_slot slots.now ≡ slots_of (map seen_argument call.arguments.now) }
    requires given { map seen_given arguments.now ≡ map slot_argument (map seen_slot slots.now) }
    ensures inlined { IfOk result (λ r. IfOk r (λ x. (mixed : Bool)
        → condition mixed (seen_call call.entry) ≡ None
        → IsInlined mixed (seen_call call.entry) (seen_inlined x))) }
    ensures unchanged { IfOk result (λ r. IfErr r (λ l. (mixed : Bool)
        → condition mixed (seen_call call.entry) ≡ None
        → IsUnchanged mixed (seen_call call.entry) l)) }
{
    let Some(snippet) = call.string.snippet else {
        return Ok(Err(Obstacle::NoLiteral));
    };
    let Some(pieces) = read(alloc, call.string, arguments)? else {
        return Ok(Err(Obstacle::Faulty));
    };
    let values = values_of(alloc, slots)?;
    let old = CallMeaning {
        pieces: &pieces,
        values: &values,
    };
    let edits = edits_of(alloc, old)?;
    let Some(literal) = apply_edits(alloc, snippet, &edits)? else {
        return Ok(Err(Obstacle::OtherMeaning));
    };
    if !keeps_meaning(alloc, call, old, &literal)? {
        return Ok(Err(Obstacle::OtherMeaning));
    }
    let removed_indices = variable_indices(alloc, call.arguments)?;
    Ok(Ok(InlinedCall {
        edits,
        literal,
        removed_indices,
    }))
}

/// Returns a call with its arguments that are variables in its format string, or why it is left as
/// it is. `allows_mixed` is whether a call is changed that has other arguments too: these stay.
/// Returns `Err` if an allocation fails.
///
/// The number of hashes, the length of the text in bytes, and 2 must together fit into a `usize`.
pub fn inline_arguments(
    alloc: Global,
    call: Call<'_>,
    allows_mixed: bool,
) -> Result<Result<InlinedCall, Obstacle>, AllocError>
    requires { hashes call.string.style + length call.string.text.now + 2 < 2 ^ 64 }
    // A call is inlined exactly if it can be, and then it has the old meaning. One that is left has
    // the first reason that holds.
    ensures exactly { IfOk result (λ r. IsOk r ↔ IsInlinable allows_mixed (seen_call call.entry)) }
    ensures inlined { IfOk result (λ r. IfOk r (λ x.
        IsInlined allows_mixed (seen_call call.entry) (seen_inlined x))) }
    ensures unchanged { IfOk result (λ r. IfErr r
        (λ o. IsUnchanged allows_mixed (seen_call call.entry) o)) }
{
    if let Some(reason) = condition(&call, allows_mixed) {
        return Ok(Err(reason));
    }
    let slots = slots(alloc, call.arguments)?;
    let arguments = givens(alloc, &slots)?;
    inline_with(alloc, call, &slots, arguments.as_slice())
}
