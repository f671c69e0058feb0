//! The labels of faults, in rustc's words. A function whose name begins with `push_` adds to the
//! end of `labels`, and returns `Err` if an allocation fails.

ghost use Rattle.std.specs.Prelude.{◌≡◌, ◌++◌, ◌∷◌, [], IfOk, OnOk, chars, map, string_bytes};
ghost use Rattle.rustc_parse_format.specs.Faults.{message};
ghost use Rattle.rustc_parse_format.specs.Views.{pair, seen_error};
ghost use Rattle.rustc_parse_format.specs.FaultViews.{seen_fault as seen_text_fault};
ghost use Rattle.call_faults.specs.Labels.{by_index_labels, by_index_text, have_names};
ghost use Rattle.call_faults.specs.Labels.{inline_help, is_last, many_unused};
ghost use Rattle.call_faults.specs.Labels.{named_text, one_unused};
ghost use Rattle.call_faults.specs.Labels.{redundant_labels, removal_labels, removal_text};
ghost use Rattle.call_faults.specs.Labels.{removal_up_to_next, second_label, second_labels};
ghost use Rattle.call_faults.specs.Labels.{several_text, single_text, text_labels};
ghost use Rattle.call_faults.specs.Labels.{unused_and_literal};
ghost use Rattle.call_faults.specs.Labels.{unused_labels, use_text};
ghost use Rattle.call_faults.specs.Views.{seen_call, seen_given};
ghost use Rattle.text_faults.specs.Views.{seen_label};
ghost use Rattle.text_faults.specs.Spots.{primary, secondary};
ghost use Rattle.text_faults.specs.declared.spots.Spot.TheVariants.{Argument as WholeArgument};
ghost use Rattle.text_faults.specs.declared.spots.Spot.TheVariants.{Value};

use crate::arguments::FormatArgument;
use crate::checker::CallReport;
use crate::faults::{CallFault, Reference};
use crate::missing_labels::{few_labels, push_missing};
use crate::spots::{
    bytes_at, named_spot, push_plain, push_primary, push_secondary, type_spot, use_spot,
};
use crate::titles::{have_numbers, name_of, never_used, put_name_between};
use rustc_parse_format::{Fault, ParseError, Suggestion};
use std::alloc::{AllocError, Global};
use std::ops::Range;
use text_faults::{CallLabel, Spot};

/// Returns the label of an argument with a name in front of one without.
#[tactic(auto, unfolding(crate::specs::Labels::named_text))]
fn named_text() -> &'static str
    ensures { result.now ≡ named_text }
{
    "named argument"
}

/// Adds the labels of arguments that have a name.
#[tactic(auto, using(std::proofs::Common::append_assoc))]
fn push_named(labels: &mut Vec<CallLabel>, named_arguments: &[usize]) -> Result<(), AllocError>
    ensures { OnOk result (map seen_label labels.new.items ≡ map seen_label labels.old.items
        ++ map (λ n. secondary (WholeArgument n) named_text) named_arguments.now) }
{
    let mut rest = named_arguments;
    while let Some((index, others)) = rest.split_first() {
        push_secondary(labels, Spot::Argument(*index), named_text())?;
        rest = others;
    }
    Ok(())
}

/// Adds the label of a second range of an error.
fn push_second_label(
    labels: &mut Vec<CallLabel>,
    error: &ParseError,
    span: &Range<usize>,
    text: &str,
) -> Result<(), AllocError>
    ensures { OnOk result (map seen_label labels.new.items ≡ map seen_label labels.old.items
        ++ second_label (seen_error error.now).span (pair span.now) text.now ∷ []) }
{
    if span.start == error.span.start && span.end == error.span.end {
        push_primary(labels, bytes_at(span), text)?;
    } else {
        push_secondary(labels, bytes_at(span), text)?;
    }
    Ok(())
}

/// Adds a help that is drawn as a label.
fn push_inline_help(labels: &mut Vec<CallLabel>, error: &ParseError) -> Result<(), AllocError>
    ensures { OnOk result (map seen_label labels.new.items ≡ map seen_label labels.old.items
        ++ inline_help (seen_error error.now).span (seen_error error.now).suggestion) }
{
    match &error.suggestion {
        Suggestion::RemoveRawIdent(span) => {
            push_second_label(labels, error, span, "help: remove the `r#`")?;
        }
        Suggestion::AddMissingColon(span) => {
            let text = "help: add a colon before the format specifier: `:?`";
            push_second_label(labels, error, span, text)?;
        }
        Suggestion::None
        | Suggestion::UsePositional
        | Suggestion::ReorderFormatParameter(..)
        | Suggestion::UseRustDebugPrintingMacro => {}
    }
    Ok(())
}

/// Adds the second label of an error of the string.
fn push_second(labels: &mut Vec<CallLabel>, error: &ParseError) -> Result<(), AllocError>
    ensures { OnOk result (map seen_label labels.new.items ≡ map seen_label labels.old.items
        ++ second_labels (seen_error error.now).span (seen_error error.now).second
        (seen_error error.now).suggestion) }
{
    match &error.secondary_label {
        None => push_inline_help(labels, error)?,
        Some((text, span)) => push_second_label(labels, error, span, text)?,
    }
    Ok(())
}

/// Adds the labels of a fault of the string.
#[tactic(auto, using(std::proofs::Common::append_assoc))]
fn push_text(
    alloc: Global,
    labels: &mut Vec<CallLabel>,
    fault: &Fault<'_>,
) -> Result<(), AllocError>
    ensures { OnOk result (map seen_label labels.new.items ≡ map seen_label labels.old.items
        ++ text_labels (message (seen_text_fault fault.now))) }
{
    let error = fault.error(alloc)?;
    let mut text = String::from_str(alloc, &error.label)?;
    text.push_str(" in format string")?;
    push_primary(labels, bytes_at(&error.span), &text)?;
    push_second(labels, &error)?;
    Ok(())
}

/// Adds the labels of arguments that are not used.
fn push_unused(
    labels: &mut Vec<CallLabel>,
    arguments: &[FormatArgument<'_>],
    unused_indices: &[usize],
) -> Result<(), AllocError>
    ensures { OnOk result (map seen_label labels.new.items ≡ map seen_label labels.old.items
        ++ unused_labels (map seen_given arguments.now) unused_indices.now) }
{
    let mut rest = unused_indices;
    while let Some((index, others)) = rest.split_first() {
        push_primary(labels, Spot::Value(*index), never_used(arguments, *index))?;
        rest = others;
    }
    Ok(())
}

/// Returns the label of a literal that lacks a placeholder.
#[tactic(auto, unfolding(crate::specs::Labels::single_text))]
fn single_text() -> &'static str
    ensures { result.now ≡ single_text }
{
    "formatting specifier missing"
}

/// Adds the labels of an argument that is not used, and that of the literal.
#[tactic(auto, using(std::proofs::Common::append_assoc))]
fn push_one_unused(
    labels: &mut Vec<CallLabel>,
    arguments: &[FormatArgument<'_>],
    index: usize,
) -> Result<(), AllocError>
    ensures { OnOk result (map seen_label labels.new.items ≡ map seen_label labels.old.items
        ++ one_unused (map seen_given arguments.now) index) }
{
    push_primary(labels, Spot::Value(index), never_used(arguments, index))?;
    push_secondary(labels, Spot::Literal, single_text())?;
    Ok(())
}

/// Returns the label of a literal that lacks several placeholders.
#[tactic(auto, unfolding(crate::specs::Labels::several_text))]
fn several_text() -> &'static str
    ensures { result.now ≡ several_text }
{
    "multiple missing formatting specifiers"
}

/// Adds the labels of several arguments that are not used, and that of the literal.
#[tactic(auto, using(std::proofs::Common::append_assoc))]
fn push_many_unused(
    labels: &mut Vec<CallLabel>,
    arguments: &[FormatArgument<'_>],
    unused_indices: &[usize],
) -> Result<(), AllocError>
    ensures { OnOk result (map seen_label labels.new.items ≡ map seen_label labels.old.items
        ++ many_unused (map seen_given arguments.now) unused_indices.now) }
{
    push_secondary(labels, Spot::Literal, several_text())?;
    push_unused(labels, arguments, unused_indices)?;
    Ok(())
}

/// Adds the labels of arguments that are not used, and that of the literal.
fn push_unused_and_literal(
    labels: &mut Vec<CallLabel>,
    arguments: &[FormatArgument<'_>],
    unused_indices: &[usize],
) -> Result<(), AllocError>
    ensures { OnOk result (map seen_label labels.new.items ≡ map seen_label labels.old.items
        ++ unused_and_literal (map seen_given arguments.now) unused_indices.now) }
{
    match unused_indices {
        [index] => push_one_unused(labels, arguments, *index)?,
        _ => push_many_unused(labels, arguments, unused_indices)?,
    }
    Ok(())
}

/// Returns whether an argument is the last one.
pub(crate) fn is_last(arguments: &[FormatArgument<'_>], index: usize) -> bool
    ensures { result ≡ is_last (map seen_given arguments.now) index }
{
    arguments.len().saturating_sub(index) == 1
}

/// Returns whether one of these arguments has a name.
pub(crate) fn have_names(arguments: &[FormatArgument<'_>]) -> bool
    ensures { result ≡ have_names (map seen_given arguments.now) }
{
    for first in arguments {
        if first.name.is_some() {
            return true;
        }
    }
    false
}

/// Returns the label of an argument that is left out.
#[tactic(auto, unfolding(crate::specs::Labels::removal_text))]
fn removal_text() -> &'static str
    ensures { result.now ≡ removal_text }
{
    "help: this can be removed"
}

/// Adds the labels of an argument that is left out, which is not the last one.
#[tactic(auto, using(std::proofs::Common::append_assoc))]
fn push_removal_up_to_next(labels: &mut Vec<CallLabel>, index: usize) -> Result<(), AllocError>
    ensures { OnOk result (map seen_label labels.new.items
        ≡ map seen_label labels.old.items ++ removal_up_to_next index) }
{
    push_secondary(labels, Spot::ValueUpToNext(index), removal_text())?;
    push_plain(labels, Spot::Value(index))?;
    Ok(())
}

/// Adds the labels of an argument that is left out.
fn push_removal(
    labels: &mut Vec<CallLabel>,
    arguments: &[FormatArgument<'_>],
    index: usize,
) -> Result<(), AllocError>
    ensures { OnOk result (map seen_label labels.new.items ≡ map seen_label labels.old.items
        ++ removal_labels (map seen_given arguments.now) index) }
{
    if is_last(arguments, index) {
        push_primary(labels, Spot::Value(index), removal_text())?;
    } else {
        push_removal_up_to_next(labels, index)?;
    }
    Ok(())
}

/// Adds labels without a text of the values of redundant arguments.
fn push_bare(labels: &mut Vec<CallLabel>, indices: &[usize]) -> Result<(), AllocError>
    ensures { OnOk result (map seen_label labels.new.items ≡ map seen_label labels.old.items
        ++ map (λ i. primary (Value i) []) indices.now) }
{
    let mut rest = indices;
    while let Some((index, others)) = rest.split_first() {
        push_plain(labels, Spot::Value(*index))?;
        rest = others;
    }
    Ok(())
}

/// Adds the labels of redundant arguments.
fn push_redundant(
    labels: &mut Vec<CallLabel>,
    arguments: &[FormatArgument<'_>],
    redundant_indices: &[usize],
) -> Result<(), AllocError>
    ensures { OnOk result (map seen_label labels.new.items ≡ map seen_label labels.old.items
        ++ redundant_labels (map seen_given arguments.now) redundant_indices.now) }
{
    if let [index] = redundant_indices {
        if !have_names(arguments) {
            return push_removal(labels, arguments, *index);
        }
    }
    push_bare(labels, redundant_indices)
}

/// Returns the label of an argument with a name that is used by its index.
#[tactic(auto, unfolding(crate::specs::Labels::by_index_text))]
fn by_index_text() -> &'static str
    ensures { result.now ≡ by_index_text }
{
    "this named argument is referred to by position in formatting string"
}

/// Returns the label of the use by index of an argument with a name. Returns `Err` if an
/// allocation fails.
#[tactic(auto, unfolding(crate::specs::Labels::use_text))]
fn use_text(alloc: Global, name: &str) -> Result<String, AllocError>
    ensures { IfOk result (λ s. string_bytes s ≡ use_text (chars name.now)) }
{
    let mut text = String::new(alloc);
    let front = "this formatting argument uses named argument ";
    put_name_between(&mut text, front, name, " by position")?;
    Ok(text)
}

/// Adds the labels of the use by index of an argument with a name.
#[tactic(auto, using(std::proofs::Common::append_assoc))]
fn push_by_index(
    labels: &mut Vec<CallLabel>,
    call: &CallReport<'_>,
    reference: Reference,
    index: usize,
) -> Result<(), AllocError>
    ensures { OnOk result (map seen_label labels.new.items ≡ map seen_label labels.old.items
        ++ by_index_labels (seen_call call.now) reference index) }
{
    let text = use_text(*labels.allocator(), name_of(call.arguments, index))?;
    let places = call.parser.arg_places();
    let spot = use_spot(&call.pieces, &call.counts, places, reference);
    push_primary(labels, Spot::Name(index), by_index_text())?;
    push_secondary(labels, spot, &text)?;
    Ok(())
}

impl<'a> CallReport<'a> {
    ghost use Rattle.std.specs.Prelude.{◌≡◌, IfOk, map};
    ghost use Rattle.call_faults.specs.Labels.{labels};
    ghost use Rattle.call_faults.specs.Views.{seen_call, seen_fault};
    ghost use Rattle.text_faults.specs.Views.{seen_label};

    /// Returns the labels of one of the faults, as rustc has them. The primary label that begins
    /// first in the source is where rustc says that the fault is. A fault of the string has the
    /// labels of its error. Returns `Err` if an allocation fails.
    #[tactic(auto, unfolding(crate::specs::Labels::labels))]
    pub fn labels(&self, alloc: Global, fault: &CallFault<'a>) -> Result<Vec<CallLabel>, AllocError>
        ensures { IfOk result (λ v. map seen_label v.items
            ≡ labels (seen_call self.now) (seen_fault fault.now)) }
    {
        let mut labels = Vec::new(alloc);
        match fault {
            CallFault::PositionalAfterNamed {
                index,
                named_arguments,
            } => {
                let text = "positional arguments must be before named arguments";
                push_primary(&mut labels, Spot::Argument(*index), text)?;
                push_named(&mut labels, named_arguments)?;
            }
            CallFault::RepeatedName { index, first_index } => {
                push_secondary(&mut labels, Spot::Name(*first_index), "previously here")?;
                push_primary(&mut labels, Spot::Name(*index), "duplicate argument")?;
            }
            CallFault::Text(fault) => push_text(alloc, &mut labels, fault)?,
            CallFault::MissingName { reference, .. } => {
                push_plain(&mut labels, named_spot(&self.pieces, *reference))?;
            }
            CallFault::UnknownTrait { piece, .. } => {
                push_plain(&mut labels, type_spot(&self.pieces, *piece))?;
            }
            CallFault::MissingArguments(references) => {
                if !have_numbers(&self.pieces) {
                    return few_labels(alloc, self);
                }
                push_missing(&mut labels, &self.pieces, references)?;
            }
            CallFault::UnusedArguments(unused_indices) => {
                push_unused_and_literal(&mut labels, self.arguments, unused_indices)?;
            }
            CallFault::RedundantArguments(redundant_indices) => {
                push_redundant(&mut labels, self.arguments, redundant_indices)?;
            }
            CallFault::NameUsedByIndex { reference, index } => {
                push_by_index(&mut labels, self, *reference, *index)?;
            }
        }
        Ok(labels)
    }
}
