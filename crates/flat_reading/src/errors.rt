//! Errors as records, with their texts in a buffer.

ghost use Rattle.std.specs.Prelude.{◌≡◌, ◌+◌, ◌<◌, ◌≤◌, drop, length, map, min, option_map, set};
ghost use Rattle.std.specs.Prelude.{string_bytes, take};
ghost use Rattle.rustc_parse_format.specs.Views.{pair, seen_error, seen_suggestion};
ghost use Rattle.flat_reading.specs.declared.records.Fault.{Fault as FaultRecord};
ghost use Rattle.flat_reading.specs.ErrorRecords.{Grows, Holds, HoldsError, HoldsErrors};
ghost use Rattle.flat_reading.specs.ErrorRecords.{HoldsMaybe, HoldsSecond, HoldsSuggestion};
ghost use Rattle.flat_reading.specs.ErrorRecords.{maybe_len, message_len, second_len};
ghost use Rattle.flat_reading.specs.ErrorRecords.{suggestion_len, texts_len};

use crate::fields::{NOWHERE, put_extent};
use crate::finders::Finders;
use crate::records::{
    Extent, Fault, MEND_ADD_MISSING_COLON, MEND_NONE, MEND_REMOVE_RAW_IDENT,
    MEND_REORDER_FORMAT_PARAMETER, MEND_USE_POSITIONAL, MEND_USE_RUST_DEBUG_PRINTING_MACRO,
};
use rustc_parse_format::{ParseError, Suggestion};
use std::ops::Range;

/// A record without an error.
const BLANK: Fault = Fault {
    has_note: 0,
    has_second_label: 0,
    suggestion: MEND_NONE,
    description: NOWHERE,
    note: NOWHERE,
    label: NOWHERE,
    span: NOWHERE,
    second_label: NOWHERE,
    second_span: NOWHERE,
    suggestion_span: NOWHERE,
    suggestion_text: NOWHERE,
    step: 0,
};

/// Writes a text from the byte `start` of `texts` on if it fits there, and its byte range into
/// `range`. Returns the end of that range even if it does not fit, or `usize::MAX` if that is less.
fn put(texts: &mut [u8], start: usize, text: &str, range: &mut Extent) -> usize
    ensures grows { Grows texts.old texts.new start result }
    ensures counted { result ≡ min (start + length text.now) usize.MAX }
    ensures holds { result ≤ length texts.old
        → Holds (take result texts.new) range.new.start range.new.end text.now }
{
    let end = start.saturating_add(text.len());
    range.start = start;
    range.end = end;
    if end <= texts.len() {
        texts[start..end].copy_from_slice(text.as_bytes());
    }
    end
}

/// Writes whether there is a note, and the note, if there is one, as `put` does.
fn put_note(
    texts: &mut [u8],
    start: usize,
    note: &Option<String>,
    has_note: &mut u8,
    range: &mut Extent,
) -> usize
    ensures grows { Grows texts.old texts.new start result }
    ensures counted { result
        ≡ min (start + maybe_len (option_map string_bytes note.now)) usize.MAX }
    ensures holds { result ≤ length texts.old
        → HoldsMaybe (take result texts.new) has_note.new range.new
        (option_map string_bytes note.now) }
{
    match note {
        Some(note) => {
            *has_note = 1;
            put(texts, start, note.as_str(), range)
        }
        None => {
            *has_note = 0;
            start
        }
    }
}

/// Writes whether there is a secondary label, and the label and its span, if there is one, as `put`
/// does.
fn put_second(
    texts: &mut [u8],
    start: usize,
    second: &Option<(String, Range<usize>)>,
    has_label: &mut u8,
    range: &mut Extent,
    span: &mut Extent,
) -> usize
    ensures grows { Grows texts.old texts.new start result }
    ensures counted { result
        ≡ min (start + second_len (option_map (λ x. (string_bytes x.0, pair x.1)) second.now))
        usize.MAX }
    ensures holds { result ≤ length texts.old
        → HoldsSecond (take result texts.new) has_label.new range.new span.new
        (option_map (λ x. (string_bytes x.0, pair x.1)) second.now) }
{
    match second {
        Some((label, place)) => {
            *has_label = 1;
            put_extent(place, span);
            put(texts, start, label.as_str(), range)
        }
        None => {
            *has_label = 0;
            start
        }
    }
}

/// Writes the kind of a suggestion, and the span and the text that it has, as `put` does.
fn put_suggestion(
    texts: &mut [u8],
    start: usize,
    suggestion: &Suggestion,
    kind: &mut u32,
    span: &mut Extent,
    range: &mut Extent,
) -> usize
    ensures grows { Grows texts.old texts.new start result }
    ensures counted { result
        ≡ min (start + suggestion_len (seen_suggestion suggestion.now)) usize.MAX }
    ensures holds { result ≤ length texts.old
        → HoldsSuggestion (take result texts.new) kind.new span.new range.new
        (seen_suggestion suggestion.now) }
{
    match suggestion {
        Suggestion::None => *kind = MEND_NONE,
        Suggestion::UsePositional => *kind = MEND_USE_POSITIONAL,
        Suggestion::RemoveRawIdent(place) => {
            *kind = MEND_REMOVE_RAW_IDENT;
            put_extent(place, span);
        }
        Suggestion::ReorderFormatParameter(place, text) => {
            *kind = MEND_REORDER_FORMAT_PARAMETER;
            put_extent(place, span);
            return put(texts, start, text.as_str(), range);
        }
        Suggestion::AddMissingColon(place) => {
            *kind = MEND_ADD_MISSING_COLON;
            put_extent(place, span);
        }
        Suggestion::UseRustDebugPrintingMacro => *kind = MEND_USE_RUST_DEBUG_PRINTING_MACRO,
    }
    start
}

/// Writes an error that was found by the step with the index `step` over a record, and its texts
/// as `put` does. It is no part of `put_errors`, which is inlined.
#[inline(never)]
fn put_error(
    texts: &mut [u8],
    start: usize,
    error: &ParseError,
    step: usize,
    fault: &mut Fault,
) -> usize
    ensures grows { Grows texts.old texts.new start result }
    ensures counted { result ≡ min (start + message_len (seen_error error.now)) usize.MAX }
    ensures holds { result ≤ length texts.old
        → HoldsError (take result texts.new) fault.new (seen_error error.now) }
    ensures step { fault.new.step ≡ step }
{
    put_extent(&error.span, &mut fault.span);
    fault.step = step;
    let description = error.description.as_str();
    let end = put(texts, start, description, &mut fault.description);
    let end = put_note(
        texts,
        end,
        &error.note,
        &mut fault.has_note,
        &mut fault.note,
    );
    let end = put(texts, end, error.label.as_str(), &mut fault.label);
    let end = put_second(
        texts,
        end,
        &error.secondary_label,
        &mut fault.has_second_label,
        &mut fault.second_label,
        &mut fault.second_span,
    );
    put_suggestion(
        texts,
        end,
        &error.suggestion,
        &mut fault.suggestion,
        &mut fault.suggestion_span,
        &mut fault.suggestion_text,
    )
}

/// Writes the texts of an error whose record does not fit, as `put` does.
#[cold]
#[inline(never)]
fn put_texts(texts: &mut [u8], start: usize, error: &ParseError) -> usize
    ensures grows { Grows texts.old texts.new start result }
    ensures counted { result ≡ min (start + message_len (seen_error error.now)) usize.MAX }
{
    let mut spare = BLANK;
    put_error(texts, start, error, 0, &mut spare)
}

/// Writes an error that was found by the step with the index `step` over the record with the index
/// `index`, if there is one, and its texts as `put` does.
#[inline(always)]
fn add_error(
    texts: &mut [u8],
    start: usize,
    error: &ParseError,
    step: usize,
    index: usize,
    faults: &mut [Fault],
) -> usize
    ensures grows { Grows texts.old texts.new start result }
    ensures counted { result ≡ min (start + message_len (seen_error error.now)) usize.MAX }
    ensures written { index < length faults.old
        → (f : FaultRecord) × ((faults.new ≡ set faults.old index f) × ((f.step ≡ step)
        × (result ≤ length texts.old
        → HoldsError (take result texts.new) f (seen_error error.now)))) }
    ensures full { length faults.old ≤ index → faults.new ≡ faults.old }
{
    if index < faults.len() {
        put_error(texts, start, error, step, &mut faults[index])
    } else {
        put_texts(texts, start, error)
    }
}

/// Writes the records of the errors and their texts, as far as they fit. Returns the length of all
/// their texts in bytes, or `usize::MAX` if that is less. Does not allocate.
#[inline(always)]
pub fn put_errors(
    errors: &[ParseError],
    finders: &Finders,
    faults: &mut [Fault],
    texts: &mut [u8],
) -> usize
    requires { length finders.now.calls ≡ length errors.now }
    ensures holds { result ≤ length texts.old → length errors.now ≤ length faults.old
        → HoldsErrors texts.new (take (length errors.now) faults.new) (map seen_error errors.now) }
    ensures found { length errors.now ≤ length faults.old
        → map (λ (f : FaultRecord). f.step) (take (length errors.now) faults.new)
        ≡ finders.now.calls }
    ensures counted { result ≡ min (texts_len (map seen_error errors.now)) usize.MAX }
    ensures kept_texts { drop result texts.new ≡ drop result texts.old }
    ensures kept_faults { drop (length errors.now) faults.new
        ≡ drop (length errors.now) faults.old }
{
    let mut size = 0;
    for i in 0..errors.len() {
        size = add_error(texts, size, &errors[i], finders.get(i), i, faults);
    }
    size
}
