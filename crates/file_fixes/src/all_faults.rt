//! The faults of a round: those of a report, and the others of the same format strings. The
//! compiler shows one fault of each string, and so does a report.

ghost use Rattle.std.specs.Prelude.{◌≡◌, ◌++◌, ◌+◌, ◌≤◌, ◌⊎◌, [], IfOk, IfSome, List, OnOk, chars};
ghost use Rattle.std.specs.Prelude.{◌∷◌, ◌<◌, ◌^◌, length, map, string_bytes};
ghost use Rattle.rustc_parse_format.specs.World.{hashes};
ghost use Rattle.std.specs.List.{All};
ghost use Rattle.fault_fixes.specs.SeenEdits.{seen_edit};
ghost use Rattle.asm_lint.specs.Literals.{dropped_crs};
ghost use Rattle.source_report.specs.declared.report.Finding.{Finding as FindingValue};
ghost use Rattle.source_report.specs.Suggestions.{edits_of, help_edit};
ghost use Rattle.file_fixes.specs.AllFaults.{AreOfString, HasEdit, HasFaults, HasOneOf, IsCopy};
ghost use Rattle.file_fixes.specs.AllFaults.{IsMoved, IsOffset, IsString, edit_id};
ghost use Rattle.file_fixes.specs.AllFaults.{offered_edits};

use crate::literals::is_string;
use crate::mended::sum;
use crate::round_edits::end_after;
use asm_lint::{Literal, dropped_crs, offset_in, read_literal};
use fault_fixes::{Edit, edits, errors_of};
use rust_tokens::{Token, tokens};
use rustc_parse_format::ParseMode;
use source_report::{Edit as OwnedEdit, Finding, Help, are_after, edits_of};
use std::alloc::{AllocError, Global};
use std::ops::Range;

/// Returns edits with texts of their own. Returns `Err` if an allocation fails.
fn owned_edits(alloc: Global, edits: &[Edit<'_>]) -> Result<Vec<OwnedEdit>, AllocError>
    ensures { IfOk result (λ v. map help_edit v.items ≡ map seen_edit edits.now) }
{
    let mut list = Vec::new(alloc);
    for edit in edits {
        list.push(OwnedEdit {
            range: edit.span.start..edit.span.end,
            text: String::from_str(alloc, edit.text)?,
        })?;
    }
    Ok(list)
}

/// Returns a fault with these edits, or with none if a fault with this id has none. Returns `Err`
/// if an allocation fails.
fn fault_with(
    alloc: Global,
    id: &'static str,
    title: &str,
    span: &Range<usize>,
    edits: &[Edit<'_>],
) -> Result<Finding, AllocError>
    ensures id { IfOk result (λ x. x.id.now ≡ id.now) }
    ensures title { IfOk result (λ x. string_bytes x.title ≡ title.now) }
    ensures edits { IfOk result (λ x. (edits_of x ≡ map seen_edit edits.now) ⊎ (edits_of x ≡ [])) }
{
    Ok(Finding {
        is_warning: false,
        id,
        title: String::from_str(alloc, title)?,
        span: span.start..span.end,
        labels: Vec::new(alloc),
        notes: Vec::new(alloc),
        help: Some(Help {
            text: String::new(alloc),
            edits: owned_edits(alloc, edits)?,
        }),
    })
}

/// Returns the id of the fault that has this edit in its format string.
fn edit_id(edit: &Edit<'_>) -> &'static str
    ensures { result.now ≡ edit_id (seen_edit edit.now).text }
{
    match edit.text {
        "" => "raw-identifier",
        ":" => "missing-colon",
        _ => "flag-after-type",
    }
}

/// A format string of a file.
#[derive(Drop)]
struct FormatString<'t> {
    /// The token that it is.
    token: &'t str,
    /// The byte offset at which that starts.
    start: usize,
    /// Its CRs that stand before LF, as `dropped_crs` returns them.
    crs: Vec<usize>,
    /// The literal with lines that end with LF.
    literal: Literal,
}

/// Returns the byte offset in the file of a byte offset in a literal with lines that end with LF.
/// Returns `Err` if no memory has so many bytes.
fn moved_offset(string: &FormatString<'_>, offset: usize) -> Result<usize, AllocError>
    requires { string.now.crs.items ≡ dropped_crs 0 (chars string.now.token.now) }
    ensures { IfOk result (λ n. IsOffset string.now.token.now string.now.start offset n) }
{
    sum(string.start, offset_in(string.crs.as_slice(), offset))
}

/// Returns the edit of a file that an edit of a literal with lines that end with LF is. Returns
/// `Err` as [`moved_offset`] does.
fn moved_edit<'e>(string: &FormatString<'_>, edit: &Edit<'e>) -> Result<Edit<'e>, AllocError>
    requires { string.now.crs.items ≡ dropped_crs 0 (chars string.now.token.now) }
    ensures { IfOk result (λ e. IsMoved string.now.token.now string.now.start (seen_edit edit.now)
        (seen_edit e)) }
{
    let start = moved_offset(string, edit.span.start)?;
    let end = moved_offset(string, edit.span.end)?;
    Ok(Edit {
        span: start..end,
        text: edit.text,
    })
}

/// Adds the fault of an edit of a format string, if the edit is inside this range of the file and
/// not at its end. Returns `Err` if an allocation fails.
fn put_other(
    alloc: Global,
    all: &mut Vec<Finding>,
    string: &FormatString<'_>,
    edit: &Edit<'_>,
    range: &Range<usize>,
) -> Result<(), AllocError>
    requires { string.now.crs.items ≡ dropped_crs 0 (chars string.now.token.now) }
    ensures { OnOk result ((zs : List FindingValue)
        × (all.new.items ≡ all.old.items ++ zs)
        × All (HasEdit string.now.token.now string.now.start (seen_edit edit.now)) zs) }
{
    let moved = moved_edit(string, edit)?;
    if range.start <= moved.span.start && moved.span.end < range.end {
        let span = moved.span.start..moved.span.end;
        all.push(fault_with(alloc, edit_id(edit), "", &span, &[moved])?)?;
    }
    Ok(())
}

/// Adds a copy of a fault of a report, with these edits. Returns `Err` if an allocation fails.
fn put_copy(
    alloc: Global,
    all: &mut Vec<Finding>,
    finding: &Finding,
    edits: &[Edit<'_>],
) -> Result<(), AllocError>
    requires { map seen_edit edits.now ≡ edits_of finding.now }
    ensures { OnOk result ((y : FindingValue) × (all.new.items ≡ all.old.items ++ y ∷ [])
        × IsCopy finding.now y) }
{
    let title = finding.title.as_str();
    all.push(fault_with(alloc, finding.id, title, &finding.span, edits)?)?;
    Ok(())
}

/// Adds the faults of edits of a format string, as [`put_other`] does.
fn put_others(
    alloc: Global,
    all: &mut Vec<Finding>,
    string: &FormatString<'_>,
    edits: &[Edit<'_>],
    range: &Range<usize>,
) -> Result<(), AllocError>
    requires { string.now.crs.items ≡ dropped_crs 0 (chars string.now.token.now) }
    ensures { OnOk result ((zs : List FindingValue)
        × (all.new.items ≡ all.old.items ++ zs)
        × All (HasOneOf string.now.token.now string.now.start (map seen_edit edits.now)) zs) }
{
    for edit in edits {
        put_other(alloc, all, string, edit, range)?;
    }
    Ok(())
}

/// Adds a fault of a report, and the others of its format string, in the order of the source. Its
/// edits are in the range `own`, and those of the others at the byte offset `at` or later. Returns
/// `Err` if an allocation fails.
fn put_string(
    alloc: Global,
    all: &mut Vec<Finding>,
    string: &FormatString<'_>,
    at: usize,
    finding: &Finding,
    own_edits: &[Edit<'_>],
    own: Range<usize>,
) -> Result<(), AllocError>
    requires crs { string.now.crs.items ≡ dropped_crs 0 (chars string.now.token.now) }
    requires short { hashes string.now.literal.style + length (string_bytes string.now.literal.text)
        + 2 < 2 ^ 64 }
    requires edits { map seen_edit own_edits.now ≡ edits_of finding.now }
    ensures { OnOk result (let P = HasOneOf string.now.token.now string.now.start
        (offered_edits string.now.literal) in
        (front : List FindingValue) × (y : FindingValue) × (back : List FindingValue)
        × (all.new.items ≡ all.old.items ++ (front ++ y ∷ back)) × IsCopy finding.now y
        × All P front × All P back) }
{
    let literal = &string.literal;
    let snippet = String::from_str(alloc, literal.snippet.as_str())?;
    let errors = errors_of(
        alloc,
        literal.text.as_str(),
        literal.style,
        Some(snippet),
        false,
        ParseMode::Format,
    )?;
    let edits = edits(alloc, ParseMode::Format, errors.as_slice())?;
    let front = at..own.start;
    put_others(alloc, all, string, edits.as_slice(), &front)?;
    put_copy(alloc, all, finding, own_edits)?;
    let back = own.end.saturating_add(1)..usize::MAX;
    put_others(alloc, all, string, edits.as_slice(), &back)?;
    Ok(())
}

/// Returns the format string that a token of a file is, or `None` if it is no string literal or
/// this range is not in it. Returns `Err` if an allocation fails.
fn format_string<'t>(
    alloc: Global,
    text: &'t str,
    token: &Token,
    range: &Range<usize>,
) -> Result<Option<FormatString<'t>>, AllocError>
    ensures string { IfOk result (λ o. IfSome o (λ s. IsString text.now s)) }
    ensures range { IfOk result (λ o. IfSome o (λ s. (s.start ≤ range.now.start)
        × (range.now.end ≤ s.start + length s.token.now))) }
    ensures short { IfOk result (λ o. IfSome o (λ s.
        hashes s.literal.style + length (string_bytes s.literal.text) + 2 < 2 ^ 64)) }
{
    if !is_string(token.kind) || range.start < token.span.start || token.span.end < range.end {
        return Ok(None);
    }
    let Some(token_text) = text.get(token.span.start..token.span.end) else {
        return Ok(None);
    };
    let Some(literal) = read_literal(alloc, token_text, false)? else {
        return Ok(None);
    };
    Ok(Some(FormatString {
        token: token_text,
        start: token.span.start,
        crs: dropped_crs(alloc, token_text)?,
        literal,
    }))
}

/// A place among the tokens and the edits of a file.
#[derive(Clone, Copy)]
struct TokensAhead {
    /// The index of the token of the fault before it, or 0 if there is none.
    index: usize,
    /// Where the last edit before it ends, or 0 if there is none.
    at: usize,
}

/// Returns the index, from `from` on, of the first token that ends after an offset.
fn index_behind(tokens: &[Token], from: usize, offset: usize) -> usize {
    let mut index = from;
    while let Some(token) = tokens.get(index) {
        if token.span.end > offset {
            return index;
        }
        index += 1;
    }
    index
}

/// Adds a fault of a report with these edits, and the others of its format string that can be
/// mended with it from the byte offset `at` on, if its edit is a single one in this token. Returns
/// whether that is so, and `Err` if an allocation fails.
fn put_in_token(
    alloc: Global,
    all: &mut Vec<Finding>,
    text: &str,
    token: &Token,
    at: usize,
    finding: &Finding,
    edits: &[Edit<'_>],
) -> Result<bool, AllocError>
    requires { map seen_edit edits.now ≡ edits_of finding.now }
    ensures { OnOk result ((zs : List FindingValue) × (all.new.items ≡ all.old.items ++ zs)
        × AreOfString text.now finding.now zs) }
{
    if let [own] = edits {
        let range = own.span.start..own.span.end;
        if let Some(string) = format_string(alloc, text, token, &range)? {
            put_string(alloc, all, &string, at, finding, edits, range)?;
            return Ok(true);
        }
    }
    put_copy(alloc, all, finding, edits)?;
    Ok(false)
}

/// Adds a fault of a report, and the others of its format string that can be mended with it.
/// Returns the place after it. Returns `Err` if an allocation fails.
fn put_faults(
    alloc: Global,
    all: &mut Vec<Finding>,
    text: &str,
    tokens: &[Token],
    from: TokensAhead,
    finding: &Finding,
) -> Result<TokensAhead, AllocError>
    ensures { OnOk result ((zs : List FindingValue) × (all.new.items ≡ all.old.items ++ zs)
        × AreOfString text.now finding.now zs) }
{
    let edits = edits_of(alloc, finding)?;
    let list = edits.as_slice();
    let index = index_behind(tokens, from.index, finding.span.start);
    let Some(token) = tokens.get(index) else {
        put_copy(alloc, all, finding, list)?;
        return Ok(from);
    };
    if list.is_empty() || !are_after(from.at, list) {
        put_copy(alloc, all, finding, list)?;
        return Ok(from);
    }
    let is_whole = put_in_token(alloc, all, text, token, from.at, finding, list)?;
    let at = if is_whole {
        token.span.end
    } else {
        end_after(from.at, list)
    };
    Ok(TokensAhead { index, at })
}

/// Returns whether one of these faults has an id of which a format string can have others.
fn may_have_others(findings: &[Finding]) -> bool {
    for finding in findings {
        if matches!(
            finding.id,
            "raw-identifier" | "missing-colon" | "flag-after-type"
        ) {
            return true;
        }
    }
    false
}

/// Returns the faults of a round: those of a report and the others of the same format strings that
/// can be mended with them, or `None` if there are no others. Returns `Err` if an allocation fails.
pub(crate) fn all_faults(
    alloc: Global,
    text: &str,
    findings: &[Finding],
) -> Result<Option<Vec<Finding>>, AllocError>
    ensures { IfOk result (λ o. IfSome o (λ v. HasFaults text.now findings.now v.items)) }
{
    if !may_have_others(findings) {
        return Ok(None);
    }
    let tokens = tokens(alloc, text)?;
    let mut all = Vec::new(alloc);
    let mut place = TokensAhead { index: 0, at: 0 };
    for finding in findings {
        place = put_faults(alloc, &mut all, text, tokens.as_slice(), place, finding)?;
    }
    if all.len() == findings.len() {
        return Ok(None);
    }
    Ok(Some(all))
}
