//! What the suggestions of errors make of a literal: the edits that a machine may apply, and the
//! literal with them applied.

ghost use Rattle.std.specs.Prelude.{◌≡◌, ◌≢◌, ◌+◌, ◌<◌, ◌^◌, [], IfNone, IfOk, IfSome, IsOk};
ghost use Rattle.std.specs.Prelude.{IsUtf8, None, OnOk, Some, chars, drop, false, length, map, not};
ghost use Rattle.std.specs.Prelude.{List, if◌then◌else◌, ◌∷◌, ◌++◌, codes, encode_utf8_all};
ghost use Rattle.std.specs.Prelude.{option_map, string_bytes, take};
ghost use Rattle.std.specs.List.{cons_option};
ghost use Rattle.rustc_parse_format.specs.Faults.{Nothing, message};
ghost use Rattle.rustc_parse_format.specs.Views.{seen_error, seen_mode, seen_snippet};
ghost use Rattle.rustc_parse_format.specs.Views.{seen_suggestion};
ghost use Rattle.rustc_parse_format.specs.FaultViews.{seen_fault};
ghost use Rattle.rustc_parse_format.specs.State.{state_after, first_state, next_call};
ghost use Rattle.rustc_parse_format.specs.World.{faults_in, hashes};
ghost use Rattle.rustc_parse_format.specs.Literal.{IsSource};
ghost use Rattle.fault_fixes.specs.Edits.{AreInOrder, Edit as EditValue, edited_bytes, edit_of};
ghost use Rattle.fault_fixes.specs.Edits.{edits};
ghost use Rattle.fault_fixes.specs.Edits.{is_empty, offered_suggestion, suggested_edit};
ghost use Rattle.fault_fixes.specs.Fixing.{FixedLiteral as FixedValue, IsRound, all_errors};
ghost use Rattle.fault_fixes.specs.Fixing.{fault_edits};
ghost use Rattle.fault_fixes.specs.Fixing.{literal_edits, text_edits};
ghost use Rattle.fault_fixes.specs.SeenEdits.{seen_edit, seen_fixed, with_edits};

use rustc_parse_format::literal::is_source_literal;
use rustc_parse_format::{Argument, Fault, ParseError, ParseMode, Parser, Suggestion};
use std::alloc::{AllocError, Global};
use std::ops::Range;

/// An edit of a source: the bytes in a range are replaced by a text.
#[derive(Clone, Debug, Eq, PartialEq, Drop)]
pub struct Edit<'e> {
    /// The byte range of the source that is replaced. It is empty where text is only inserted.
    pub span: Range<usize>,
    /// The text that replaces it. It is empty where text is only removed.
    pub text: &'e str,
}

/// A literal with edits applied.
#[derive(Debug, Eq, PartialEq, Drop)]
pub struct FixedLiteral {
    /// The literal, as it is to be in the source.
    pub snippet: String,
    /// The text that it stands for, with the newline that was appended to the input, if one was.
    pub text: String,
}

/// Returns whether a suggestion is made in a mode. The compiler makes none for a template of
/// assembly, and where no placeholder may have a specification, none leads to one.
pub fn is_offered(mode: ParseMode, suggestion: &Suggestion) -> bool
    ensures { (if result then seen_suggestion suggestion.now else Nothing)
        ≡ offered_suggestion (seen_mode mode) (seen_suggestion suggestion.now) }
{
    match mode {
        ParseMode::Format | ParseMode::Diagnostic => true,
        ParseMode::InlineAsm => false,
        ParseMode::DiagnosticNamed => matches!(suggestion, Suggestion::RemoveRawIdent(_)),
    }
}

/// Returns the edit of a suggestion, or `None` if it has none or needs the arguments of the call.
fn edit_of(suggestion: &Suggestion) -> Option<Edit<'_>>
    ensures { option_map seen_edit result ≡ suggested_edit (seen_suggestion suggestion.now) }
{
    match suggestion {
        Suggestion::RemoveRawIdent(span) => Some(Edit {
            span: span.start..span.end,
            text: "",
        }),
        Suggestion::ReorderFormatParameter(span, text) => Some(Edit {
            span: span.start..span.end,
            text: text.as_str(),
        }),
        Suggestion::AddMissingColon(span) => Some(Edit {
            span: span.start..span.start,
            text: ":",
        }),
        Suggestion::None | Suggestion::UsePositional | Suggestion::UseRustDebugPrintingMacro =>
            None,
    }
}

/// Returns the edit of a suggestion that is made in a mode, or `None` if there is none or it needs
/// the arguments of the call.
fn offered_edit(mode: ParseMode, suggestion: &Suggestion) -> Option<Edit<'_>>
    ensures { option_map seen_edit result
        ≡ suggested_edit (offered_suggestion (seen_mode mode) (seen_suggestion suggestion.now)) }
{
    if !is_offered(mode, suggestion) {
        return None;
    }
    edit_of(suggestion)
}

/// Returns the edits of these errors of a text of this mode, in the order of the source, each
/// after the end of the one before it.
///
/// As from the compiler, there are none in a template of assembly; and where no placeholder may
/// have a specification, none leads to one.
///
/// The errors are in the order of a parser, in which each error that has an edit comes before those
/// of earlier places. An edit that does not start after the end of the one before it is left out.
/// Returns `Err` if an allocation fails.
pub fn edits<'e>(
    alloc: Global,
    mode: ParseMode,
    errors: &'e [ParseError],
) -> Result<Vec<Edit<'e>>, AllocError>
    ensures edits { IfOk result (λ v. map seen_edit v.items
        ≡ edits (seen_mode mode) (map seen_error errors.now)) }
    ensures order { IfOk result (λ v. AreInOrder 0 (map seen_edit v.items)) }
    ensures spare { edits (seen_mode mode) (map seen_error errors.now) ≡ [] → IsOk result }
{
    let mut edits = Vec::new(alloc);
    let mut end = 0;
    for error in errors.iter().rev() {
        if let Some(edit) = offered_edit(mode, &error.suggestion) {
            if end < edit.span.start && edit.span.start <= edit.span.end {
                end = edit.span.end;
                edits.push(edit)?;
            }
        }
    }
    Ok(edits)
}

/// Returns the first n bytes, or all if there are fewer.
fn front(bytes: &[u8], n: usize) -> &[u8]
    ensures { result.now ≡ take n bytes.now }
{
    bytes.get(..n).unwrap_or(bytes)
}

/// Returns the bytes after the first n, or none if there are no more.
fn rest_after(bytes: &[u8], n: usize) -> &[u8]
    ensures { result.now ≡ drop n bytes.now }
{
    bytes.get(n..).unwrap_or(&[])
}

/// A text in the middle of its edits.
#[derive(Drop)]
struct EditProgress<'t> {
    /// The part of the text with its edits that is written.
    bytes: Vec<u8>,
    /// The rest of the text.
    rest: &'t [u8],
    /// The byte offset at which that starts.
    start: usize,
    /// Where the last edit ends, or 0 if there is none.
    end: usize,
}

/// Makes the edit of a suggestion in a mode, if it has one that starts after the end of the last
/// one. Returns `Err` if an allocation fails.
fn make(
    progress: &mut EditProgress<'_>,
    mode: ParseMode,
    suggestion: &Suggestion,
) -> Result<(), AllocError>
    ensures { OnOk result ((es : List EditValue)
        → with_edits progress.new es ≡ with_edits progress.old
        (cons_option (suggested_edit (offered_suggestion (seen_mode mode)
        (seen_suggestion suggestion.now))) es)) }
{
    let Some(edit) = offered_edit(mode, suggestion) else {
        return Ok(());
    };
    if progress.end < edit.span.start && edit.span.start <= edit.span.end {
        let source = front(
            progress.rest,
            edit.span.start.saturating_sub(progress.start),
        );
        progress.bytes.extend_from_slice(source)?;
        progress.bytes.extend_from_slice(edit.text.as_bytes())?;
        progress.rest = rest_after(progress.rest, edit.span.end.saturating_sub(progress.start));
        progress.start = edit.span.end;
        progress.end = edit.span.end;
    }
    Ok(())
}

/// Makes the edits of faults in a mode, the first one first. Returns `Err` if an allocation fails.
fn make_each(
    progress: &mut EditProgress<'_>,
    mode: ParseMode,
    faults: &[Fault<'_>],
) -> Result<(), AllocError>
    ensures { OnOk result ((es : List EditValue)
        → with_edits progress.new es ≡ with_edits progress.old
        (fault_edits (seen_mode mode) (map seen_fault faults.now) ++ es)) }
{
    for fault in faults {
        let suggestion = fault.suggestion(*progress.bytes.allocator())?;
        make(progress, mode, &suggestion)?;
    }
    Ok(())
}

/// Makes a call of a parser, and the edits of its faults in a mode. `faults` is empty before and
/// after the call. Returns `Err` if an allocation fails.
fn make_next<'a>(
    progress: &mut EditProgress<'_>,
    mode: ParseMode,
    parser: &mut Parser<'a>,
    argument: &mut Argument<'a>,
    faults: &mut Vec<Fault<'a>>,
) -> Result<(), AllocError>
    requires none { parser.old.errors ≡ [] }
    requires empty { faults.old.items ≡ [] }
    ensures state { OnOk result (parser.new
        ≡ record (state_after parser.old (next_call parser.old)) { errors = [] }) }
    ensures edits { OnOk result ((es : List EditValue) → with_edits progress.new es ≡ with_edits
        progress.old (fault_edits (seen_mode mode)
        (faults_in parser.old.world (next_call parser.old).faults) ++ es)) }
    ensures made { OnOk result (faults.new.items ≡ []) }
{
    parser.next_with_faults(argument, faults)?;
    make_each(progress, mode, faults.as_slice())?;
    faults.clear();
    Ok(())
}

/// A text with the edits of all errors.
#[derive(Drop)]
struct AllEdits {
    /// The bytes of the text.
    bytes: Vec<u8>,
    /// Whether there is an edit.
    has_edits: bool,
}

/// Returns a text with the edits, in a mode, of all errors that the calls of a parser find, which
/// has none yet. The text starts at the byte offset `at`. Returns `Err` if an allocation fails.
fn edit_all(
    alloc: Global,
    mode: ParseMode,
    parser: &mut Parser<'_>,
    text: &str,
    at: usize,
) -> Result<AllEdits, AllocError>
    requires { parser.old.errors ≡ [] }
    ensures bytes { IfOk result (λ x. x.bytes.items
        ≡ edited_bytes at (edits (seen_mode mode) (all_errors parser.old)) text.now) }
    ensures some { IfOk result (λ x. x.has_edits
        ≡ not (is_empty (edits (seen_mode mode) (all_errors parser.old)))) }
{
    let mut argument = Argument::default();
    let mut faults = Vec::new(alloc);
    let mut progress = EditProgress {
        bytes: Vec::new(alloc),
        rest: text.as_bytes(),
        start: at,
        end: 0,
    };
    while !parser.is_at_end() {
        make_next(&mut progress, mode, parser, &mut argument, &mut faults)?;
    }
    let rest = progress.rest;
    progress.bytes.extend_from_slice(rest)?;
    Ok(AllEdits {
        bytes: progress.bytes,
        has_edits: progress.end > 0,
    })
}

/// Returns bytes as a text, or `None` if they are not UTF-8.
fn text_of(bytes: Vec<u8>) -> Option<String>
    ensures some { IfSome result (λ s. string_bytes s ≡ bytes.items) }
    ensures none { IfNone result (IsUtf8 bytes.items → ⊥) }
{
    String::from_utf8(bytes).ok()
}

/// Returns the literal of an input with the edits of its errors, or `None` if it has none or is
/// then not UTF-8. Returns `Err` if an allocation fails.
fn edited_literal(
    alloc: Global,
    input: &str,
    style: Option<usize>,
    snippet: &str,
    appended_newline: bool,
    mode: ParseMode,
) -> Result<Option<String>, AllocError>
    requires { hashes style + length input.now + 2 < 2 ^ 64 }
    ensures edits { IfOk result (λ o. IfSome o (λ s. literal_edits (seen_mode mode)
        (chars input.now) style (chars snippet.now) appended_newline ≢ [])) }
    ensures some { IfOk result (λ o. IfSome o (λ s. string_bytes s ≡ edited_bytes 0 (literal_edits
        (seen_mode mode) (chars input.now) style (chars snippet.now) appended_newline)
        snippet.now)) }
    ensures none { IfOk result (λ o. IfNone o (literal_edits (seen_mode mode) (chars input.now)
        style (chars snippet.now) appended_newline ≢ [] → IsUtf8 (edited_bytes 0 (literal_edits
        (seen_mode mode) (chars input.now) style (chars snippet.now) appended_newline)
        snippet.now) → ⊥)) }
{
    let snippet_copy = String::from_str(alloc, snippet)?;
    let mut parser = Parser::new(
        alloc,
        input,
        style,
        Some(snippet_copy),
        appended_newline,
        mode,
    )?;
    let AllEdits { bytes, has_edits } = edit_all(alloc, mode, &mut parser, snippet, 0)?;
    if !has_edits {
        return Ok(None);
    }
    Ok(text_of(bytes))
}

/// Returns an input with the edits of its errors, or `None` if it is then not UTF-8. Returns `Err`
/// if an allocation fails.
fn edited_text(alloc: Global, input: &str, mode: ParseMode) -> Result<Option<String>, AllocError>
    requires { length input.now + 2 < 2 ^ 64 }
    ensures some { IfOk result (λ o. IfSome o (λ s. string_bytes s
        ≡ edited_bytes 1 (text_edits (seen_mode mode) (chars input.now)) input.now)) }
    ensures none { IfOk result (λ o. IfNone o
        (IsUtf8 (edited_bytes 1 (text_edits (seen_mode mode) (chars input.now)) input.now) → ⊥)) }
{
    let mut parser = Parser::new(alloc, input, None, None, false, mode)?;
    let AllEdits { bytes, .. } = edit_all(alloc, mode, &mut parser, input, 1)?;
    Ok(text_of(bytes))
}

/// Returns the source literal of an input with the edits of all errors up to the end of the input,
/// and the text with the same edits, which the literal then stands for.
///
/// Returns `None` if the snippet is not the source literal of the input, so that no edit is made in
/// a foreign literal, if there is no edit, or if the literal with its edits would not stand for the
/// text with its own. Returns `Err` if an allocation fails.
pub fn round(
    alloc: Global,
    input: &str,
    style: Option<usize>,
    snippet: &str,
    appended_newline: bool,
    mode: ParseMode,
) -> Result<Option<FixedLiteral>, AllocError>
    requires { hashes style + length input.now + 2 < 2 ^ 64 }
    ensures some { IfOk result (λ o. IfSome o (λ f. IsRound (seen_mode mode) input.now style
        snippet.now appended_newline (seen_fixed f))) }
    ensures none { IfOk result (λ o. IfNone o ((f : FixedValue)
        → IsRound (seen_mode mode) input.now style snippet.now appended_newline f → ⊥)) }
    ensures foreign { (IsSource (chars input.now) style (chars snippet.now) appended_newline → ⊥)
        → IsOk result }
{
    if !is_source_literal(input, style, snippet, appended_newline) {
        return Ok(None);
    }
    let Some(snippet) = edited_literal(alloc, input, style, snippet, appended_newline, mode)? else {
        return Ok(None);
    };
    let Some(text) = edited_text(alloc, input, mode)? else {
        return Ok(None);
    };
    if is_source_literal(&text, style, &snippet, appended_newline) {
        Ok(Some(FixedLiteral { snippet, text }))
    } else {
        Ok(None)
    }
}
