//! Faults as JSON. Each function of this module appends to a writer, and returns `Err` if an
//! allocation fails.

ghost use Rattle.std.specs.Prelude.{◌≡◌, ◌++◌, OnOk, option_map, string_bytes};
ghost use Rattle.json.specs.Json.{no_members, string};
ghost use Rattle.json.specs.Tree.{json_tokens};
ghost use Rattle.rustc_parse_format.specs.Views.{pair, seen_error, seen_suggestion};
ghost use Rattle.rustc_parse_format.specs.FaultViews.{seen_fault};
ghost use Rattle.listing_json.specs.Values.{error_value, fault_value, label_value, maybe_value};
ghost use Rattle.listing_json.specs.Values.{mend_value, object_of_kind, suggestion_value};
ghost use Rattle.rustc_parse_format.specs.Faults.{ReorderFormatParameter};

use super::fields::{begin_kind, put_span_of, put_string};
use json::Writer;
use rustc_parse_format::{Fault, ParseError, Suggestion};
use std::alloc::{AllocError, Global};
use std::ops::Range;

/// Appends a note, or null if there is none.
fn put_note(writer: &mut Writer, note: &Option<String>) -> Result<(), AllocError>
    ensures tokens { OnOk result (writer.new.tokens
        ≡ writer.old.tokens ++ json_tokens
        (maybe_value string (option_map string_bytes note.now))) }
    ensures before { writer.new.before ≡ writer.old.before }
{
    match note {
        Some(text) => writer.string(text.as_str()),
        None => writer.null(),
    }
}

/// Appends a label and its span.
fn put_label(writer: &mut Writer, label: &str, span: &Range<usize>) -> Result<(), AllocError>
    ensures tokens { OnOk result (writer.new.tokens
        ≡ writer.old.tokens ++ json_tokens (label_value (label.now, pair span.now))) }
    ensures before { writer.new.before ≡ writer.old.before }
{
    writer.begin_object()?;
    put_string(writer, "label", label)?;
    put_span_of(writer, "span", span)?;
    writer.end_object()?;
    Ok(())
}

/// Appends a second label with its span, or null if there is none.
fn put_secondary(
    writer: &mut Writer,
    second: &Option<(String, Range<usize>)>,
) -> Result<(), AllocError>
    ensures tokens { OnOk result (writer.new.tokens ≡ writer.old.tokens
        ++ json_tokens (maybe_value label_value
        (option_map (λ x. (string_bytes x.0, pair x.1)) second.now))) }
    ensures before { writer.new.before ≡ writer.old.before }
{
    match second {
        Some((label, span)) => put_label(writer, label.as_str(), span),
        None => writer.null(),
    }
}

/// Appends a suggestion of this kind for a span.
fn put_mend(writer: &mut Writer, kind: &str, span: &Range<usize>) -> Result<(), AllocError>
    ensures tokens { OnOk result (writer.new.tokens
        ≡ writer.old.tokens ++ json_tokens (mend_value kind.now (pair span.now))) }
    ensures before { writer.new.before ≡ writer.old.before }
{
    begin_kind(writer, kind)?;
    put_span_of(writer, "span", span)?;
    writer.end_object()?;
    Ok(())
}

/// Appends a suggestion of this kind without a span.
fn put_bare_mend(writer: &mut Writer, kind: &str) -> Result<(), AllocError>
    ensures tokens { OnOk result (writer.new.tokens
        ≡ writer.old.tokens ++ json_tokens (object_of_kind kind.now no_members)) }
    ensures before { writer.new.before ≡ writer.old.before }
{
    begin_kind(writer, kind)?;
    writer.end_object()?;
    Ok(())
}

/// Appends the suggestion to replace a span by a text.
fn put_reorder(writer: &mut Writer, span: &Range<usize>, text: &str) -> Result<(), AllocError>
    ensures tokens { OnOk result (writer.new.tokens ≡ writer.old.tokens
        ++ json_tokens (suggestion_value (ReorderFormatParameter (pair span.now) text.now))) }
    ensures before { writer.new.before ≡ writer.old.before }
{
    begin_kind(writer, "reorder-format-parameter")?;
    put_span_of(writer, "span", span)?;
    put_string(writer, "text", text)?;
    writer.end_object()?;
    Ok(())
}

/// Appends a suggestion, or null if there is none.
fn put_suggestion(writer: &mut Writer, suggestion: &Suggestion) -> Result<(), AllocError>
    ensures tokens { OnOk result (writer.new.tokens
        ≡ writer.old.tokens ++ json_tokens (suggestion_value (seen_suggestion suggestion.now))) }
    ensures before { writer.new.before ≡ writer.old.before }
{
    match suggestion {
        Suggestion::None => writer.null(),
        Suggestion::UsePositional => put_bare_mend(writer, "use-positional"),
        Suggestion::RemoveRawIdent(span) => put_mend(writer, "remove-raw-ident", span),
        Suggestion::ReorderFormatParameter(span, text) => {
            put_reorder(writer, span, text.as_str())
        }
        Suggestion::AddMissingColon(span) => put_mend(writer, "add-missing-colon", span),
        Suggestion::UseRustDebugPrintingMacro => {
            put_bare_mend(writer, "use-rust-debug-printing-macro")
        }
    }
}

/// Appends the error of a fault with this id.
fn put_error(writer: &mut Writer, id: &str, error: &ParseError) -> Result<(), AllocError>
    ensures tokens { OnOk result (writer.new.tokens
        ≡ writer.old.tokens ++ json_tokens (error_value id.now (seen_error error.now))) }
    ensures before { OnOk result (writer.new.before ≡ writer.old.before) }
{
    begin_kind(writer, "fault")?;
    put_string(writer, "id", id)?;
    put_string(writer, "description", error.description.as_str())?;
    writer.key("note")?;
    put_note(writer, &error.note)?;
    put_string(writer, "label", error.label.as_str())?;
    put_span_of(writer, "span", &error.span)?;
    writer.key("secondary_label")?;
    put_secondary(writer, &error.secondary_label)?;
    writer.key("suggestion")?;
    put_suggestion(writer, &error.suggestion)?;
    writer.end_object()?;
    Ok(())
}

/// Appends a fault.
pub fn put_fault(alloc: Global, writer: &mut Writer, fault: &Fault<'_>) -> Result<(), AllocError>
    ensures tokens { OnOk result (writer.new.tokens
        ≡ writer.old.tokens ++ json_tokens (fault_value (seen_fault fault.now))) }
    ensures before { OnOk result (writer.new.before ≡ writer.old.before) }
{
    let error = fault.error(alloc)?;
    put_error(writer, fault.id(), &error)
}
