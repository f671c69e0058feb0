//! The tokens of a file that no edit touches, and whether all are tokens of Rust.

ghost use Rattle.std.specs.Prelude.{◌≡◌, ◌≤◌, ◌+◌, ◌↔◌, IfOk, IsTrue, List, chars, drop, map};
ghost use Rattle.std.specs.List.{list_all};
ghost use Rattle.std.specs.Prelude.{nat_le};
ghost use Rattle.fault_fixes.specs.SeenEdits.{seen_edit};
ghost use Rattle.rust_tokens.specs.Files.{ReadsFile};
ghost use Rattle.rust_tokens.specs.Spans.{placed_tokens};
ghost use Rattle.rust_tokens.specs.Tokens.{Lexeme};
ghost use Rattle.source_report.specs.Suggestions.{are_after};
ghost use Rattle.file_fixes.specs.Outside.{KeepsTokens, is_known, moved_token};
ghost use Rattle.file_fixes.specs.Walk.{place_after, from_start, is_before, new_parts, old_parts};
ghost use Rattle.file_fixes.specs.Walk.{seen_ahead, walk};

use fault_fixes::Edit;
use rust_tokens::{Kind, Token, tokens};
use std::alloc::{AllocError, Global};

/// A part of a text that an edit removes from it, or has put into it.
#[derive(Clone, Copy)]
struct EditedPart {
    /// How many bytes stand between it and the part before it, or the start of the text.
    gap: usize,
    /// How many bytes it has.
    width: usize,
}

/// A place among the parts of a text.
#[derive(Clone, Copy)]
struct PartsAhead {
    /// Where the last part before it ends, or 0 if there is none.
    end: usize,
    /// How many bytes the parts before it have.
    width: usize,
    /// The index of the first part after it.
    index: usize,
}

/// Returns the parts of a text that edits remove from it. Returns `Err` if an allocation fails.
fn old_parts(alloc: Global, edits: &[Edit<'_>]) -> Result<Vec<EditedPart>, AllocError>
    ensures { IfOk result (λ v. v.items ≡ old_parts 0 (map seen_edit edits.now)) }
{
    let mut parts = Vec::new(alloc);
    let mut end = 0;
    for edit in edits {
        parts.push(EditedPart {
            gap: edit.span.start.saturating_sub(end),
            width: edit.span.end.saturating_sub(edit.span.start),
        })?;
        end = edit.span.end;
    }
    Ok(parts)
}

/// Returns the parts of the edited text that edits put into it. Returns `Err` if an allocation
/// fails.
fn new_parts(alloc: Global, edits: &[Edit<'_>]) -> Result<Vec<EditedPart>, AllocError>
    ensures { IfOk result (λ v. v.items ≡ new_parts 0 (map seen_edit edits.now)) }
{
    let mut parts = Vec::new(alloc);
    let mut end = 0;
    for edit in edits {
        parts.push(EditedPart {
            gap: edit.span.start.saturating_sub(end),
            width: edit.text.len(),
        })?;
        end = edit.span.end;
    }
    Ok(parts)
}

/// Returns whether a part ends by the offset `at`. The part before it ends at `end`.
fn ends_by(at: usize, end: usize, part: EditedPart) -> bool
    ensures { result ≡ nat_le (end + part.gap + part.width) at }
{
    end <= at && part.gap <= at - end && part.width <= at - end - part.gap
}

/// Returns the place after the place `from` and after all parts that end by the offset `at`.
fn place_after(at: usize, from: PartsAhead, parts: &[EditedPart]) -> PartsAhead
    requires { from.width ≤ from.end }
    ensures place { seen_ahead parts.now result
        ≡ place_after at from.end from.width (drop from.index parts.now) }
    ensures bounded { result.width ≤ result.end }
{
    let mut place = from;
    while let Some(part) = parts.get(place.index) {
        if !ends_by(at, place.end, *part) {
            return place;
        }
        place.end += part.gap + part.width;
        place.width += part.width;
        place.index += 1;
    }
    place
}

/// Returns whether no part that is ahead starts before the offset `at`.
fn is_before(at: usize, place: PartsAhead, parts: &[EditedPart]) -> bool
    ensures { result ≡ is_before at place.end (drop place.index parts.now) }
{
    match parts.get(place.index) {
        Some(part) => at.saturating_sub(place.end) <= part.gap,
        None => true,
    }
}

/// Returns a token, moved n bytes towards the start of the text.
fn moved_token(n: usize, token: &Token) -> Token
    ensures { result ≡ moved_token n token.now }
{
    Token {
        kind: token.kind,
        span: token.span.start.saturating_sub(n)..token.span.end.saturating_sub(n),
        suffix_start: token.suffix_start.saturating_sub(n),
        is_ended: token.is_ended,
    }
}

/// Returns those tokens of a text that no part touches, at the places that they have in the text
/// without the parts. Returns `Err` if an allocation fails.
fn untouched_tokens(
    alloc: Global,
    parts: &[EditedPart],
    tokens: &[Token],
) -> Result<Vec<Token>, AllocError>
    ensures { IfOk result (λ v. v.items ≡ walk (from_start parts.now) tokens.now) }
{
    let mut others = Vec::new(alloc);
    let mut place = PartsAhead {
        end: 0,
        width: 0,
        index: 0,
    };
    for token in tokens {
        place = place_after(token.span.start, place, parts);
        if is_before(token.span.end, place, parts) {
            others.push(moved_token(place.width, token))?;
        }
    }
    Ok(others)
}

/// Returns whether two lists have the same tokens.
fn are_same(old: &[Token], new: &[Token]) -> bool
    ensures { IsTrue result ↔ (old.now ≡ new.now) }
{
    old == new
}

/// Returns whether a token has its end, and is no character that begins no token.
fn is_known(token: &Token) -> bool
    ensures { result ≡ is_known token.now }
{
    token.is_ended && !matches!(token.kind, Kind::Unknown)
}

/// Returns whether all tokens are known.
fn are_known(tokens: &[Token]) -> bool
    ensures { result ≡ list_all is_known tokens.now }
{
    for token in tokens {
        if !is_known(token) {
            return false;
        }
    }
    true
}

/// Returns whether the tokens that no edit touches are the same in a text with these tokens and in
/// the edited text, of which all tokens are known. Returns `Err` if an allocation fails.
pub(crate) fn keeps_tokens(
    alloc: Global,
    old: &[Token],
    edits: &[Edit<'_>],
    new: &str,
) -> Result<bool, AllocError>
    requires edits { IsTrue (are_after 0 (map seen_edit edits.now)) }
    requires tokens { (xs : List Lexeme) × (old.now ≡ placed_tokens 0 xs) }
    ensures { IfOk result (λ b. (ys : List Lexeme) × ReadsFile (chars new.now) ys × (IsTrue b
        ↔ KeepsTokens (map seen_edit edits.now) old.now (placed_tokens 0 ys)
        × IsTrue (list_all is_known (placed_tokens 0 ys)))) }
{
    let new_tokens = tokens(alloc, new)?;
    if !are_known(new_tokens.as_slice()) {
        return Ok(false);
    }
    let old_others = untouched_tokens(alloc, old_parts(alloc, edits)?.as_slice(), old)?;
    let new_others = untouched_tokens(
        alloc,
        new_parts(alloc, edits)?.as_slice(),
        new_tokens.as_slice(),
    )?;
    Ok(are_same(old_others.as_slice(), new_others.as_slice()))
}
