//! The suggestions for a fault of a string.

ghost use Rattle.std.specs.Prelude.{◌≡◌, ◌++◌, ◌∷◌, [], IfOk, OnOk, map, string_bytes};
ghost use Rattle.diagnostic.specs.Parts.{seen_suggestion};
ghost use Rattle.rustc_parse_format.specs.FaultViews.{seen_fault};
ghost use Rattle.rustc_parse_format.specs.Views.{pair, seen_suggestion as seen_of_error};
ghost use Rattle.text_diagnostics.specs.Suggestions.{meant, single, suggestions, suggestions_of};

use crate::words::{ADD_COLON, DEBUG, REMOVE_RAW};
use diagnostic::{Applicability, Edit, Suggestion, SuggestionStyle};
use rustc_parse_format::{Fault, Suggestion as OfError};
use std::alloc::{AllocError, Global};
use std::ops::Range;
use text_faults::Spot;

/// Adds a suggestion with one edit, which a machine may apply. Returns `Err` if an allocation
/// fails.
fn push_single(
    list: &mut Vec<Suggestion<Spot>>,
    advice: &str,
    span: &Range<usize>,
    new: &str,
    style: SuggestionStyle,
) -> Result<(), AllocError>
    ensures { OnOk result (map seen_suggestion list.new.items ≡ map seen_suggestion list.old.items
        ++ single advice.now (pair span.now) new.now style ∷ []) }
{
    let alloc = *list.allocator();
    let advice = String::from_str(alloc, advice)?;
    let text = String::from_str(alloc, new)?;
    let place = Spot::Bytes {
        start: span.start,
        end: span.end,
    };
    let mut edits = Vec::new(alloc);
    edits.push(Edit { place, text })?;
    list.push(Suggestion {
        advice,
        edits,
        applicability: Applicability::MachineApplicable,
        is_complete: true,
        style,
    })?;
    Ok(())
}

/// Returns the advice to write this text. Returns `Err` if an allocation fails.
fn meant(alloc: Global, new: &str) -> Result<String, AllocError>
    ensures { IfOk result (λ s. string_bytes s ≡ meant new.now) }
{
    let advice = format!(in alloc; "did you mean `{new}`?")?;
    Ok(advice)
}

/// Adds the suggestion of an error, if it has one that needs no arguments. Returns `Err` if an
/// allocation fails.
#[tactic(auto, unfolding(crate::specs::Suggestions::suggestions))]
fn push_of_error(list: &mut Vec<Suggestion<Spot>>, of_error: &OfError) -> Result<(), AllocError>
    ensures { OnOk result (map seen_suggestion list.new.items ≡ map seen_suggestion list.old.items
        ++ suggestions (seen_of_error of_error.now)) }
{
    match of_error {
        OfError::RemoveRawIdent(span) => {
            push_single(list, REMOVE_RAW, span, "", SuggestionStyle::ShowCode)
        }
        OfError::AddMissingColon(span) => {
            push_single(list, ADD_COLON, span, DEBUG, SuggestionStyle::ShowCode)
        }
        OfError::ReorderFormatParameter(span, new) => {
            let advice = meant(*list.allocator(), new)?;
            push_single(list, &advice, span, new, SuggestionStyle::ShowAlways)
        }
        OfError::None | OfError::UsePositional | OfError::UseRustDebugPrintingMacro => Ok(()),
    }
}

/// Returns the suggestions for a fault, in which a place is a range of its literal. A suggestion
/// for which the arguments of the call count is none of them. Returns `Err` if an allocation fails.
pub fn suggestions_of(alloc: Global, fault: &Fault<'_>) -> Result<Vec<Suggestion<Spot>>, AllocError>
    ensures { IfOk result (λ v. map seen_suggestion v.items
        ≡ suggestions_of (seen_fault fault.now)) }
{
    let error = fault.error(alloc)?;
    let mut list = Vec::new(alloc);
    push_of_error(&mut list, &error.suggestion)?;
    Ok(list)
}
