//! The suggestions of rustc for faults, in its words.

ghost use Rattle.std.specs.Prelude.{◌≡◌, ◌++◌, ◌∷◌, [], IfOk, OnOk, chars, map, option_map};
ghost use Rattle.std.specs.Prelude.{string_bytes};
ghost use Rattle.rustc_parse_format.specs.Faults.{message};
ghost use Rattle.rustc_parse_format.specs.Views.{pair};
ghost use Rattle.rustc_parse_format.specs.FaultViews.{seen_fault as seen_text_fault};
ghost use Rattle.call_faults.specs.Notes.{added_spot, after_name, by_index_help, debug_help};
ghost use Rattle.call_faults.specs.Notes.{name_in, placeholders, positional_help};
ghost use Rattle.call_faults.specs.Notes.{redundant_help, removal, removed_spot};
ghost use Rattle.call_faults.specs.Notes.{replacement, text_help};
ghost use Rattle.call_faults.specs.Notes.{unnamed_count, unused_help};
ghost use Rattle.call_faults.specs.Views.{seen_call, seen_edit, seen_given, seen_help};
ghost use Rattle.call_faults.specs.Spots.{edit};

use crate::arguments::FormatArgument;
use crate::checker::CallReport;
use crate::directives::hold_directives;
use crate::faults::{CallFault, Part, Reference};
use crate::labels::{have_names, is_last};
use crate::notes::{are_missing, put_specifiers};
use crate::spots::{CallEdit, CallHelp, bytes_at, index_spot};
use crate::titles::{name_of, put_number};
use rustc_parse_format::{Fault, Suggestion};
use std::alloc::{AllocError, Global};
use std::ops::Range;
use text_faults::Spot;

/// Returns an edit that copies no source.
fn plain_edit(spot: Spot, text: String) -> CallEdit
    ensures { seen_edit result ≡ edit spot (string_bytes text) }
{
    CallEdit {
        spot,
        text,
        copied_spot: None,
        rest: "",
    }
}

/// Returns a help with one edit. Returns `Err` if an allocation fails.
fn single(alloc: Global, text: String, spot: Spot, new: String) -> Result<CallHelp, AllocError>
    ensures { IfOk result (λ h. seen_help h ≡ record {
      text = string_bytes text;
      edits = edit spot (string_bytes new) ∷ [];
    }) }
{
    let mut edits = Vec::new(alloc);
    edits.push(plain_edit(spot, new))?;
    Ok(CallHelp { text, edits })
}

/// Adds this many placeholders.
fn put_placeholders(out: &mut String, count: usize) -> Result<(), AllocError>
    ensures { OnOk result (string_bytes out.new ≡ string_bytes out.old ++ placeholders count) }
{
    let mut countdown = count;
    while countdown > 0 {
        out.push_str("{}")?;
        countdown -= 1;
    }
    Ok(())
}

/// Returns the help for so many unused arguments, or `None` if there is none. Returns `Err` if an
/// allocation fails.
fn unused_help(
    alloc: Global,
    call: &CallReport<'_>,
    count: usize,
) -> Result<Option<CallHelp>, AllocError>
    ensures { IfOk result (λ o. option_map seen_help o
        ≡ unused_help (seen_call call.now) count) }
{
    if are_missing(&call.faults) || count != call.indices.len() || hold_directives(&call.pieces) {
        return Ok(None);
    }
    let message = "format specifiers use curly braces, consider adding ";
    let mut text = String::from_str(alloc, message)?;
    put_specifiers(&mut text, count)?;
    let mut new = String::new(alloc);
    put_placeholders(&mut new, count)?;
    let help = single(alloc, text, Spot::LiteralEnd, new)?;
    Ok(Some(help))
}

/// Returns where the text is that is removed with an argument.
fn removed_spot(arguments: &[FormatArgument<'_>], index: usize) -> Spot
    ensures { result ≡ removed_spot (map seen_given arguments.now) index }
{
    if is_last(arguments, index) {
        Spot::Value(index)
    } else {
        Spot::ValueUpToNext(index)
    }
}

/// Adds the edits that remove arguments.
fn push_removals(
    edits: &mut Vec<CallEdit>,
    arguments: &[FormatArgument<'_>],
    indices: &[usize],
) -> Result<(), AllocError>
    ensures { OnOk result (map seen_edit edits.new.items ≡ map seen_edit edits.old.items
        ++ map (removal (map seen_given arguments.now)) indices.now) }
{
    let alloc = *edits.allocator();
    let mut rest = indices;
    while let Some((index, others)) = rest.split_first() {
        let text = String::new(alloc);
        let spot = removed_spot(arguments, *index);
        edits.push(plain_edit(spot, text))?;
        rest = others;
    }
    Ok(())
}

/// Returns the help for redundant arguments, or `None` if there is none. Returns `Err` if an
/// allocation fails.
fn redundant_help(
    alloc: Global,
    arguments: &[FormatArgument<'_>],
    redundant_indices: &[usize],
) -> Result<Option<CallHelp>, AllocError>
    ensures { IfOk result (λ o. option_map seen_help o
        ≡ redundant_help (map seen_given arguments.now) redundant_indices.now) }
{
    if redundant_indices.len() <= 1 || have_names(arguments) {
        return Ok(None);
    }
    let mut edits = Vec::new(alloc);
    push_removals(&mut edits, arguments, redundant_indices)?;
    let text = String::from_str(alloc, "this can be removed")?;
    Ok(Some(CallHelp { text, edits }))
}

/// Returns the text after a name in a part of a placeholder.
fn after_name(part: Part) -> &'static str
    ensures { result.now ≡ after_name part }
{
    match part {
        Part::Position => "",
        Part::Precision | Part::Width => "$",
    }
}

/// Returns the name of an argument as a part of a placeholder has it. Returns `Err` if an
/// allocation fails.
fn name_in(alloc: Global, part: Part, name: &str) -> Result<String, AllocError>
    ensures { IfOk result (λ s. string_bytes s ≡ name_in part (chars name.now)) }
{
    let mut text = String::from_str(alloc, name)?;
    text.push_str(after_name(part))?;
    Ok(text)
}

/// Returns the help for a use by index of an argument with a name. Returns `Err` if an allocation
/// fails.
fn by_index_help(
    alloc: Global,
    call: &CallReport<'_>,
    reference: Reference,
    index: usize,
) -> Result<CallHelp, AllocError>
    ensures { IfOk result (λ h. seen_help h
        ≡ by_index_help (seen_call call.now) reference index) }
{
    let message = "use the named argument by name to avoid ambiguity";
    let text = String::from_str(alloc, message)?;
    let new = name_in(alloc, reference.part, name_of(call.arguments, index))?;
    let spot = index_spot(&call.pieces, reference);
    single(alloc, text, spot, new)
}

/// Returns the help that replaces a text. Returns `Err` if an allocation fails.
fn replacement_help(alloc: Global, spot: Spot, new: &str) -> Result<CallHelp, AllocError>
    ensures { IfOk result (λ h. seen_help h ≡ replacement spot new.now) }
{
    let mut text = String::from_str(alloc, "did you mean `")?;
    text.push_str(new)?;
    text.push_str("`?")?;
    let new = String::from_str(alloc, new)?;
    single(alloc, text, spot, new)
}

/// Returns how many of arguments stand before the first one with a name.
fn unnamed_count(arguments: &[FormatArgument<'_>]) -> usize
    ensures { result ≡ unnamed_count (map seen_given arguments.now) }
{
    for (index, argument) in arguments.iter().enumerate() {
        if argument.name.is_some() {
            return index;
        }
    }
    arguments.len()
}

/// Returns where an argument without a name is added, if there are so many already.
fn added_spot(count: usize) -> Spot
    ensures { result ≡ added_spot count }
{
    if count == 0 {
        Spot::AfterLiteral
    } else {
        Spot::ValueEnd(count - 1)
    }
}

/// Returns the help for an expression at this place of the string. Returns `Err` if an allocation
/// fails.
fn positional_help(
    alloc: Global,
    arguments: &[FormatArgument<'_>],
    span: &Range<usize>,
) -> Result<CallHelp, AllocError>
    ensures { IfOk result (λ h. seen_help h
        ≡ positional_help (map seen_given arguments.now) (pair span.now)) }
{
    let count = unnamed_count(arguments);
    let spot = bytes_at(span);
    let mut index = String::new(alloc);
    put_number(&mut index, count)?;
    let comma = String::from_str(alloc, ", ")?;
    let mut edits = Vec::new(alloc);
    edits.push(plain_edit(spot, index))?;
    edits.push(CallEdit {
        spot: added_spot(count),
        text: comma,
        copied_spot: Some(spot),
        rest: "",
    })?;
    let message = "consider using a positional formatting argument instead";
    let text = String::from_str(alloc, message)?;
    Ok(CallHelp { text, edits })
}

/// Returns the help for `=` after an argument, or `None` unless one argument counts. Returns `Err`
/// if an allocation fails.
fn debug_help(alloc: Global, indices: &[usize]) -> Result<Option<CallHelp>, AllocError>
    ensures { IfOk result (λ o. option_map seen_help o ≡ debug_help indices.now) }
{
    let [index] = indices else {
        return Ok(None);
    };
    let text = String::from_str(alloc, "use rust debug printing macro")?;
    let opening = String::from_str(alloc, "dbg!(")?;
    let mut edits = Vec::new(alloc);
    edits.push(CallEdit {
        spot: Spot::Call,
        text: opening,
        copied_spot: Some(Spot::Value(*index)),
        rest: ")",
    })?;
    Ok(Some(CallHelp { text, edits }))
}

/// Returns the help for a fault of the string, or `None` if it has none that is no label. Returns
/// `Err` if an allocation fails.
fn text_help(
    alloc: Global,
    call: &CallReport<'_>,
    fault: &Fault<'_>,
) -> Result<Option<CallHelp>, AllocError>
    ensures { IfOk result (λ o. option_map seen_help o
        ≡ text_help (seen_call call.now) (message (seen_text_fault fault.now))) }
{
    let error = fault.error(alloc)?;
    match &error.suggestion {
        Suggestion::ReorderFormatParameter(span, text) => {
            let help = replacement_help(alloc, bytes_at(span), text)?;
            Ok(Some(help))
        }
        Suggestion::UsePositional => {
            let help = positional_help(alloc, call.arguments, &error.span)?;
            Ok(Some(help))
        }
        Suggestion::UseRustDebugPrintingMacro => debug_help(alloc, &call.indices),
        Suggestion::None | Suggestion::RemoveRawIdent(_) | Suggestion::AddMissingColon(_) => {
            Ok(None)
        }
    }
}

impl<'a> CallReport<'a> {
    ghost use Rattle.std.specs.Prelude.{◌≡◌, IfOk, option_map};
    ghost use Rattle.call_faults.specs.Notes.{help};
    ghost use Rattle.call_faults.specs.Views.{seen_call, seen_fault, seen_help};

    /// Returns the suggestion of rustc for one of the faults, or `None` if there is none or it is
    /// in a label. The suggestions for the directives of other languages are left out. Returns
    /// `Err` if an allocation fails.
    #[tactic(auto, unfolding(crate::specs::Notes::help))]
    pub fn help(&self, alloc: Global, fault: &CallFault<'a>) -> Result<Option<CallHelp>, AllocError>
        ensures { IfOk result (λ o. option_map seen_help o
            ≡ help (seen_call self.now) (seen_fault fault.now)) }
    {
        match fault {
            CallFault::PositionalAfterNamed { .. }
            | CallFault::RepeatedName { .. }
            | CallFault::MissingName { .. }
            | CallFault::UnknownTrait { .. }
            | CallFault::MissingArguments(_) => Ok(None),
            CallFault::Text(fault) => text_help(alloc, self, fault),
            CallFault::UnusedArguments(unused_indices) => unused_help(
                alloc,
                self,
                unused_indices.len(),
            ),
            CallFault::RedundantArguments(redundant_indices) => {
                redundant_help(alloc, self.arguments, redundant_indices)
            }
            CallFault::NameUsedByIndex { reference, index } => {
                let help = by_index_help(alloc, self, *reference, *index)?;
                Ok(Some(help))
            }
        }
    }
}
