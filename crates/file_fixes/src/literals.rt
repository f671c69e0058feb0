//! The literals in which the faults of a round are, and the edits in these and in the arguments
//! behind them.

ghost use Rattle.std.specs.Prelude.{◌≡◌, ◌∷◌, ◌==◌, ◌+◌, ◌||◌, Bool, IfOk, IfSome, IsNone, List};
ghost use Rattle.std.specs.Prelude.{drop, false, if◌then◌else◌, map, not, slice_get, true};
ghost use Rattle.std.specs.Option.{option_map_or};
ghost use Rattle.std.specs.List.{list_all};
ghost use Rattle.fault_fixes.specs.SeenEdits.{seen_edit};
ghost use Rattle.source_report.specs.declared.report.Finding.{Finding as FindingValue};
ghost use Rattle.source_report.specs.Suggestions.{edits_of, mended_faults};
ghost use Rattle.rust_tokens.specs.Spans.{placed_tokens};
ghost use Rattle.rust_tokens.specs.Tokens.{Lexeme};
ghost use Rattle.file_fixes.specs.FaultSearch.{walk_count};
ghost use Rattle.file_fixes.specs.Mending.{closes, ends_outside, have_literals, is_in_call};
ghost use Rattle.file_fixes.specs.Mending.{is_in_crlf, is_of_literal, is_string, literal_count};
ghost use Rattle.file_fixes.specs.Mending.{opens, starts_in};

use crate::mended::sum;
use crate::round_edits::end_after;
use fault_fixes::Edit;
use rust_tokens::{Kind, Token};
use source_report::{Finding, are_after, edits_of};
use std::alloc::{AllocError, Global};

/// Returns whether a kind of token is a string literal, raw or not.
pub(crate) fn is_string(kind: Kind) -> bool
    ensures { result ≡ is_string kind }
{
    matches!(kind, Kind::Str | Kind::RawStr)
}

/// Returns whether a token of a file opens a delimiter.
fn opens(bytes: &[u8], token: &Token) -> bool
    ensures { result ≡ opens bytes.now token.now }
{
    match bytes.get(token.span.start) {
        Some(byte) => *byte == b'(' || *byte == b'[' || *byte == b'{',
        None => false,
    }
}

/// Returns whether a token of a file closes a delimiter.
fn closes(bytes: &[u8], token: &Token) -> bool
    ensures { result ≡ closes bytes.now token.now }
{
    match bytes.get(token.span.start) {
        Some(byte) => *byte == b')' || *byte == b']' || *byte == b'}',
        None => false,
    }
}

/// Returns whether one of these tokens ends at an offset, in the same delimiters in which they
/// begin.
fn ends_outside(bytes: &[u8], at: usize, tokens: &[Token]) -> bool
    ensures { result ≡ ends_outside bytes.now at 0 tokens.now }
{
    let mut depth = 0usize;
    for token in tokens {
        if opens(bytes, token) {
            depth += 1;
            continue;
        }
        if closes(bytes, token) {
            if depth == 0 {
                return false;
            }
            depth -= 1;
        }
        if depth == 0 && token.span.end == at {
            return true;
        }
    }
    false
}

/// Returns whether bytes have this one at an offset.
fn has_byte(bytes: &[u8], at: usize, byte: u8) -> bool
    ensures { result ≡ option_map_or (λ b. b == byte) (slice_get bytes.now at) false }
{
    match bytes.get(at) {
        Some(found_byte) => *found_byte == byte,
        None => false,
    }
}

/// Returns whether an offset is between the two bytes of a CRLF.
fn is_in_crlf(bytes: &[u8], at: usize) -> bool
    ensures { result ≡ is_in_crlf bytes.now at }
{
    has_byte(bytes, at.saturating_sub(1), b'\r') && has_byte(bytes, at, b'\n')
}

/// Returns whether an edit lies in a literal, with which the tokens begin, or only puts text in
/// after it or one of its arguments, and cuts no CRLF.
fn is_in_call(bytes: &[u8], literal: &Token, tokens: &[Token], edit: &Edit<'_>) -> bool
    ensures { result ≡ is_in_call bytes.now literal.now tokens.now (seen_edit edit.now) }
{
    if is_in_crlf(bytes, edit.span.start) || is_in_crlf(bytes, edit.span.end) {
        return false;
    }
    if literal.span.start <= edit.span.start && edit.span.end <= literal.span.end {
        return true;
    }
    edit.span.start == edit.span.end && ends_outside(bytes, edit.span.start, tokens)
}

/// Returns whether all these edits are such ones.
fn are_in_call(bytes: &[u8], literal: &Token, tokens: &[Token], edits: &[Edit<'_>]) -> bool
    ensures { result
        ≡ list_all (is_in_call bytes.now literal.now tokens.now) (map seen_edit edits.now) }
{
    for edit in edits {
        if !is_in_call(bytes, literal, tokens, edit) {
            return false;
        }
    }
    true
}

/// Returns whether a token is a string literal in which a fault starts.
fn starts_in(token: &Token, finding: &Finding) -> bool
    ensures { result ≡ starts_in token.now finding.now }
{
    is_string(token.kind)
        && token.span.start <= finding.span.start
        && finding.span.start < token.span.end
}

/// Returns whether a fault with these edits is in a literal, with which the tokens begin, and its
/// edits are there or in the arguments behind it.
fn is_of_literal(
    bytes: &[u8],
    literal: &Token,
    tokens: &[Token],
    finding: &Finding,
    edits: &[Edit<'_>],
) -> bool
    requires { map seen_edit edits.now ≡ edits_of finding.now }
    ensures { result ≡ is_of_literal bytes.now literal.now tokens.now finding.now }
{
    starts_in(literal, finding)
        && finding.span.end <= literal.span.end
        && are_in_call(bytes, literal, tokens, edits)
}

/// Returns the index of the literal, from the index `from` on, of a fault with these
/// edits, or `None` if there is none.
fn literal_index(
    bytes: &[u8],
    tokens: &[Token],
    from: usize,
    finding: &Finding,
    edits: &[Edit<'_>],
) -> Option<usize>
    requires { map seen_edit edits.now ≡ edits_of finding.now }
    ensures some { IfSome result (λ n. (xs : List FindingValue)
        → have_literals bytes.now (drop from tokens.now) (finding.now ∷ xs)
        ≡ have_literals bytes.now (drop n tokens.now) xs) }
    ensures count { IfSome result (λ n. (b : Bool) (xs : List FindingValue)
        → walk_count bytes.now b (drop from tokens.now) (finding.now ∷ xs)
        ≡ (if b || not (n == from) then 1 else 0)
        + walk_count bytes.now false (drop n tokens.now) xs) }
    ensures none { IsNone result → (xs : List FindingValue)
        → have_literals bytes.now (drop from tokens.now) (finding.now ∷ xs) ≡ false }
{
    let mut index = from;
    while let Some(token) = tokens.get(index) {
        if is_of_literal(bytes, token, &tokens[index..], finding, edits) {
            return Some(index);
        }
        index += 1;
    }
    None
}

/// The literals of the first faults that a round mends.
#[derive(Clone, Copy)]
struct LiteralsBehind {
    /// How many they are.
    count: usize,
    /// The index of the last of them, or 0 if there is none.
    index: usize,
    /// Where the last edit of these faults ends, or 0 if there is none.
    at: usize,
}

/// Returns how many literals there are with the one of this index, which is the last of them or one
/// ahead. Returns `Err` if no memory has so many.
fn count_with(literals: LiteralsBehind, index: usize) -> Result<usize, AllocError>
    ensures count { IfOk result (λ n. n ≡ literals.count
        + (if literals.count == 0 || not (index == literals.index) then 1 else 0)) }
    ensures some { IfOk result (λ n. (n == 0) ≡ false) }
{
    if literals.count == 0 || index != literals.index {
        return sum(literals.count, 1);
    }
    Ok(literals.count)
}

/// Returns these literals with that of one fault more, if the fault is mended. Returns `None` if no
/// literal ahead has it and its edits in its call, and `Err` if an allocation fails.
fn literal_of(
    alloc: Global,
    text: &str,
    tokens: &[Token],
    from: LiteralsBehind,
    finding: &Finding,
) -> Result<Option<LiteralsBehind>, AllocError>
    ensures some { IfOk result (λ o. IfSome o (λ p. (xs : List FindingValue)
        → have_literals text.now (drop from.index tokens.now)
        (mended_faults from.at (finding.now ∷ xs))
        ≡ have_literals text.now (drop p.index tokens.now) (mended_faults p.at xs))) }
    ensures count { IfOk result (λ o. IfSome o (λ p. (xs : List FindingValue)
        → from.count + walk_count text.now (from.count == 0) (drop from.index tokens.now)
        (mended_faults from.at (finding.now ∷ xs))
        ≡ p.count + walk_count text.now (p.count == 0) (drop p.index tokens.now)
        (mended_faults p.at xs))) }
    ensures none { IfOk result (λ o. IsNone o → (xs : List FindingValue)
        → have_literals text.now (drop from.index tokens.now)
        (mended_faults from.at (finding.now ∷ xs)) ≡ false) }
{
    let edits = edits_of(alloc, finding)?;
    let list = edits.as_slice();
    if list.is_empty() || !are_after(from.at, list) {
        return Ok(Some(from));
    }
    let Some(index) = literal_index(text.as_bytes(), tokens, from.index, finding, list) else {
        return Ok(None);
    };
    Ok(Some(LiteralsBehind {
        count: count_with(from, index)?,
        index,
        at: end_after(from.at, list),
    }))
}

/// Returns in how many string literals of a file with these tokens the faults are that a round
/// mends. Returns `None` if they are not in literals, one after the other, or one has not its edits
/// in the call of its literal. Returns `Err` if an allocation fails.
pub(crate) fn mended_literals(
    alloc: Global,
    text: &str,
    tokens: &[Token],
    findings: &[Finding],
) -> Result<Option<usize>, AllocError>
    requires { (xs : List Lexeme) × (tokens.now ≡ placed_tokens 0 xs) }
    ensures some { IfOk result (λ o. IfSome o (λ n.
        have_literals text.now tokens.now (mended_faults 0 findings.now) ≡ true)) }
    ensures count { IfOk result (λ o. IfSome o (λ n.
        n ≡ literal_count tokens.now (mended_faults 0 findings.now))) }
    ensures none { IfOk result (λ o. IsNone o
        → have_literals text.now tokens.now (mended_faults 0 findings.now) ≡ false) }
{
    let mut literals = LiteralsBehind {
        count: 0,
        index: 0,
        at: 0,
    };
    for finding in findings {
        let Some(more) = literal_of(alloc, text, tokens, literals, finding)? else {
            return Ok(None);
        };
        literals = more;
    }
    Ok(Some(literals.count))
}
