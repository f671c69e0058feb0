//! The drawing of an error of the parser: that of the diagnostic which says what the error says.

ghost use Rattle.std.specs.Prelude.{◌≡◌, ◌++◌, IfOk, OnOk, codes, map, option_map, string_bytes};
ghost use Rattle.rustc_parse_format.specs.Views.{pair, seen_error, seen_mode, seen_suggestion};
ghost use Rattle.fault_fixes.specs.Edits.{offered_suggestion};
ghost use Rattle.drawn_lines.specs.Painting.{IsColourOf, IsHarmlessWith};
ghost use Rattle.drawn_lines.specs.Places.{seen_picture, without_colours};
ghost use Rattle.drawn_faults.specs.Diagnostics.{diagnostic_text};
ghost use Rattle.drawn_faults.specs.Drawing.{advice, diagnostic_of, drawing, edits_of, helps_of};
ghost use Rattle.drawn_faults.specs.Drawing.{labels_of, notes_of, second_text, text_name, title};
ghost use Rattle.drawn_faults.specs.SeenDiagnostics.{seen_help, seen_note, seen_source_edit};
ghost use Rattle.drawn_faults.specs.SeenDiagnostics.{seen_source_label};
ghost use Rattle.drawn_faults.specs.Shown.{PointsAt, ShowsLabels};

use crate::diagnostics::{Diagnostic, Level, SourceLabel, put_labels};
use crate::helps::SourceHelp;
use crate::notes::SourceNote;
use drawn_lines::Picture;
use fault_fixes::{Edit, is_offered};
use rustc_parse_format::{ParseError, ParseMode, Suggestion};
use std::alloc::{AllocError, Global};
use std::ops::Range;

/// How many bytes a title and the text of a label have at most, besides those of the error.
const ROOM: usize = 32;

/// Returns the name of the compiler for the text of a literal in a mode.
fn text_name(mode: ParseMode) -> &'static str
    ensures { result.now ≡ text_name (seen_mode mode) }
{
    match mode {
        ParseMode::InlineAsm => "asm template string",
        ParseMode::Format | ParseMode::Diagnostic | ParseMode::DiagnosticNamed => "format string",
    }
}

/// Returns the title of an error. Returns `Err` if an allocation fails.
fn title(alloc: Global, mode: ParseMode, description: &str) -> Result<String, AllocError>
    ensures { IfOk result (λ s. string_bytes s ≡ title (seen_mode mode) description.now) }
{
    let mut title = String::with_capacity(alloc, description.len().saturating_add(ROOM))?;
    title.push_str("invalid ")?;
    title.push_str(text_name(mode))?;
    title.push_str(": ")?;
    title.push_str(description)?;
    Ok(title)
}

/// Returns the text of the label of an error. Returns `Err` if an allocation fails.
fn label_text(alloc: Global, mode: ParseMode, label: &str) -> Result<String, AllocError>
    ensures { IfOk result (λ s. string_bytes s
        ≡ label.now ++ (codes " in " ++ text_name (seen_mode mode))) }
{
    let mut text = String::with_capacity(alloc, label.len().saturating_add(ROOM))?;
    text.push_str(label)?;
    text.push_str(" in ")?;
    text.push_str(text_name(mode))?;
    Ok(text)
}

/// Returns the text and the range of the second label, or `None` if there is none.
fn second_text(mode: ParseMode, error: &ParseError) -> Option<(&str, &Range<usize>)>
    ensures { option_map (λ x. (x.0.now, pair x.1.now)) result
        ≡ second_text (seen_error error.now).second
        (offered_suggestion (seen_mode mode) (seen_error error.now).suggestion) }
{
    if let Some((text, span)) = &error.secondary_label {
        return Some((text.as_str(), span));
    }
    if !is_offered(mode, &error.suggestion) {
        return None;
    }
    match &error.suggestion {
        Suggestion::RemoveRawIdent(span) => Some(("help: remove the `r#`", span)),
        Suggestion::AddMissingColon(span) => {
            Some(("help: add a colon before the format specifier: `:?`", span))
        }
        _ => None,
    }
}

/// Returns the labels of an error, of which the first one has this text. Returns `Err` if an
/// allocation fails.
fn labels_of<'a>(
    alloc: Global,
    mode: ParseMode,
    error: &'a ParseError,
    text: &'a str,
) -> Result<Vec<SourceLabel<'a>>, AllocError>
    ensures { IfOk result (λ v. map seen_source_label v.items
        ≡ labels_of (seen_error error.now).span text.now
        (second_text (seen_error error.now).second
        (offered_suggestion (seen_mode mode) (seen_error error.now).suggestion))) }
{
    let mut labels = Vec::new(alloc);
    labels.push(SourceLabel {
        span: error.span.start..error.span.end,
        is_primary: true,
        text,
    })?;
    if let Some((text, span)) = second_text(mode, error) {
        labels.push(SourceLabel {
            span: span.start..span.end,
            is_primary: span.start == error.span.start && span.end == error.span.end,
            text,
        })?;
    }
    Ok(labels)
}

/// Returns the notes of an error. Returns `Err` if an allocation fails.
fn notes_of(alloc: Global, note: &Option<String>) -> Result<Vec<SourceNote<'_>>, AllocError>
    ensures { IfOk result (λ v. map seen_note v.items
        ≡ notes_of (option_map string_bytes note.now)) }
{
    let mut notes = Vec::new(alloc);
    if let Some(text) = note {
        notes.push(SourceNote {
            text: text.as_str(),
            spans: &[],
        })?;
    }
    Ok(notes)
}

/// Returns the edit that is drawn with its old and its new lines, or none. Returns `Err` if an
/// allocation fails.
fn edits_of(
    alloc: Global,
    mode: ParseMode,
    suggestion: &Suggestion,
) -> Result<Vec<Edit<'_>>, AllocError>
    ensures { IfOk result (λ v. map seen_source_edit v.items
        ≡ edits_of (offered_suggestion (seen_mode mode) (seen_suggestion suggestion.now))) }
{
    let mut edits = Vec::new(alloc);
    if !is_offered(mode, suggestion) {
        return Ok(edits);
    }
    if let Suggestion::ReorderFormatParameter(span, text) = suggestion {
        edits.push(Edit {
            span: span.start..span.end,
            text: text.as_str(),
        })?;
    }
    Ok(edits)
}

/// Returns what the help with an edit says, or nothing without one. Returns `Err` if an allocation
/// fails.
fn advice(alloc: Global, edits: &[Edit<'_>]) -> Result<String, AllocError>
    ensures { IfOk result (λ s. string_bytes s ≡ advice (map seen_source_edit edits.now)) }
{
    let mut advice = String::new(alloc);
    if let [edit, ..] = edits {
        advice.push_str("did you mean `")?;
        advice.push_str(edit.text)?;
        advice.push_str("`?")?;
    }
    Ok(advice)
}

/// Returns the help with this text and these edits, or none without edits. Returns `Err` if an
/// allocation fails.
fn helps_of<'a>(
    alloc: Global,
    text: &'a str,
    edits: &'a [Edit<'a>],
) -> Result<Vec<SourceHelp<'a>>, AllocError>
    ensures { IfOk result (λ v. map seen_help v.items
        ≡ helps_of text.now (map seen_source_edit edits.now)) }
{
    let mut helps = Vec::new(alloc);
    if !edits.is_empty() {
        helps.push(SourceHelp { text, edits })?;
    }
    Ok(helps)
}

/// Adds the drawing of an error. Returns `Err` if an allocation fails, or if the source has 2^59
/// bytes or more.
fn put_error(
    out: &mut String,
    mode: ParseMode,
    picture: &Picture<'_>,
    error: &ParseError,
) -> Result<(), AllocError>
    ensures { OnOk result (string_bytes out.new ≡ string_bytes out.old
        ++ diagnostic_text (seen_picture picture.now)
        (diagnostic_of (seen_mode mode) (seen_error error.now))) }
{
    let alloc = *out.allocator();
    let title = title(alloc, mode, error.description.as_str())?;
    let text = label_text(alloc, mode, error.label.as_str())?;
    let labels = labels_of(alloc, mode, error, text.as_str())?;
    let notes = notes_of(alloc, &error.note)?;
    let edits = edits_of(alloc, mode, &error.suggestion)?;
    let advice = advice(alloc, edits.as_slice())?;
    let helps = helps_of(alloc, advice.as_str(), edits.as_slice())?;
    let diagnostic = Diagnostic {
        level: Level::Error,
        title: title.as_str(),
        labels: labels.as_slice(),
        notes: notes.as_slice(),
        helps: helps.as_slice(),
    };
    put_labels(out, picture, &diagnostic)
}

/// Returns the text that shows an error of a literal of this mode under its source, as rustc 1.95
/// draws it, with the colours that rustc gives it on a terminal if the picture has them. The spans
/// of the error are byte ranges of the literal: its parser had this literal as its snippet, and
/// that was the source literal.
///
/// It is what [`draw_labels`](crate::draw_labels) returns for the diagnostic that has the title,
/// the labels and the note of the error, and its suggestion, if one is made in this mode (see
/// [`edits`](fault_fixes::edits)). A suggestion to remove or to insert something is a second label,
/// one to replace a text is a help. Those for which the arguments of the call are needed,
/// `UsePositional` and `UseRustDebugPrintingMacro`, are left out.
///
/// Returns `Err` if an allocation fails, or if the source has 2^59 bytes or more.
#[tactic(auto, using(crate::proofs::ShownLaws::shown_diagnostic), unfolding(crate::specs::Drawing::drawing))]
pub fn draw(
    alloc: Global,
    mode: ParseMode,
    picture: &Picture<'_>,
    error: &ParseError,
) -> Result<String, AllocError>
    ensures drawn { IfOk result (λ s. string_bytes s
        ≡ drawing (seen_mode mode) (seen_picture picture.now) (seen_error error.now)) }
    // Without its colours it is the drawing without colours, and a terminal obeys nothing of it but
    // these.
    ensures coloured { IfOk result (λ s. IsColourOf (string_bytes s)
        (drawing (seen_mode mode) (without_colours (seen_picture picture.now))
        (seen_error error.now))) }
    ensures harmless { IfOk result (λ s. IsHarmlessWith picture.now.colours (string_bytes s)) }
    // The arrow names the first character of the error's span.
    ensures arrow { IfOk result (λ s. PointsAt (seen_picture picture.now)
        (diagnostic_of (seen_mode mode) (seen_error error.now)) (string_bytes s)) }
    // It shows the lines of its labels, with their signs in their columns and no sign elsewhere.
    ensures labels { IfOk result (λ s. ShowsLabels (seen_picture picture.now)
        (diagnostic_of (seen_mode mode) (seen_error error.now)) (string_bytes s)) }
{
    let mut out = String::new(alloc);
    put_drawing(&mut out, mode, picture, error)?;
    Ok(out)
}

/// Appends the text that [`draw`] returns to `out`. Returns `Err` if an allocation fails, or if the
/// source has 2^59 bytes or more; a part of the text may then be in `out`.
#[tactic(auto, using(crate::proofs::HarmlessDrawings::harmless_drawing), unfolding(crate::specs::Drawing::drawing))]
pub fn put_drawing(
    out: &mut String,
    mode: ParseMode,
    picture: &Picture<'_>,
    error: &ParseError,
) -> Result<(), AllocError>
    ensures drawn { OnOk result (string_bytes out.new ≡ string_bytes out.old
        ++ drawing (seen_mode mode) (seen_picture picture.now) (seen_error error.now)) }
    ensures coloured { IsColourOf
        (drawing (seen_mode mode) (seen_picture picture.now) (seen_error error.now))
        (drawing (seen_mode mode) (without_colours (seen_picture picture.now))
        (seen_error error.now)) }
    ensures harmless { IsHarmlessWith picture.now.colours
        (drawing (seen_mode mode) (seen_picture picture.now) (seen_error error.now)) }
{
    put_error(out, mode, picture, error)?;
    Ok(())
}
