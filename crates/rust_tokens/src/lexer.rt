//! The tokens of a text and of a file.

ghost use Rattle.std.specs.Prelude.{◌≡◌, ◌+◌, ◌<◌, ◌≤◌, ◌-◌, ◌++◌, ℕ, [], IfOk, IfSome, IsFalse};
ghost use Rattle.std.specs.Prelude.{IsNone, IsTrue, List, chars, length};
ghost use Rattle.std.specs.List.{list_all};
ghost use Rattle.rust_tokens.specs.Covers.{Covers};
ghost use Rattle.rust_tokens.specs.Files.{IsMarked, IsShebanged, OpensAttribute, ReadsFile, is_gap};
ghost use Rattle.rust_tokens.specs.Files.{is_head};
ghost use Rattle.rust_tokens.specs.Spans.{token_between, byte_length, end_of_all, placed_tokens};
ghost use Rattle.rust_tokens.specs.Spans.{token_at};
ghost use Rattle.rust_tokens.specs.Texts.{Text};
ghost use Rattle.rust_tokens.specs.Tokens.{Begins, Lexeme, Reads};
ghost use Rattle.rust_tokens.specs.declared.kinds.Kind.TheVariants.{ByteOrderMark, Shebang};

use crate::ends::after_line;
use crate::first::{after_suffix, first_body, plain_token};
use crate::kinds::{Kind, Token};
use crate::texts::strip;
use std::alloc::{AllocError, Global};

/// A token at the start of a text.
#[derive(Clone, Copy)]
struct Step<'a> {
    /// Its kind.
    kind: Kind,
    /// Whether it has its end.
    is_ended: bool,
    /// The text from its suffix on.
    suffix: &'a str,
    /// The text after it.
    rest: &'a str,
}

/// Returns the token at the start of a text, or `None` if the text is empty: the slow way, for
/// tokens that `plain_token` does not know.
#[inline(never)]
fn any_step(text: &str) -> Option<Step<'_>>
    ensures begins { IfSome result (λ s. (x : Lexeme) × Begins x (chars text.now) (chars s.rest.now)
        × (x.kind ≡ s.kind) × (x.is_ended ≡ s.is_ended)
        × (length text.now ≡ byte_length x.body + length s.suffix.now)
        × (length s.suffix.now ≡ byte_length x.suffix + length s.rest.now)) }
    ensures fewer { IfSome result (λ s. length s.rest.now < length text.now) }
    ensures none { IsNone result → chars text.now ≡ [] }
{
    let Some(body) = first_body(text) else {
        return None;
    };
    let rest = after_suffix(body);
    Some(Step {
        kind: body.kind,
        is_ended: body.is_ended,
        suffix: body.rest,
        rest,
    })
}

/// Returns the token at the start of a text, or `None` if the text is empty.
#[inline(always)]
fn next_step(text: &str) -> Option<Step<'_>>
    ensures begins { IfSome result (λ s. (x : Lexeme) × Begins x (chars text.now) (chars s.rest.now)
        × (x.kind ≡ s.kind) × (x.is_ended ≡ s.is_ended)
        × (length text.now ≡ byte_length x.body + length s.suffix.now)
        × (length s.suffix.now ≡ byte_length x.suffix + length s.rest.now)) }
    ensures fewer { IfSome result (λ s. length s.rest.now < length text.now) }
    ensures none { IsNone result → chars text.now ≡ [] }
{
    if let Some((kind, rest)) = plain_token(text) {
        return Some(Step {
            kind,
            is_ended: true,
            suffix: rest,
            rest,
        });
    }
    any_step(text)
}

/// Returns the first token of a text that is not the start of a file, and the rest after it, or
/// `None` if the text is empty.
pub fn split_first_token(text: &str) -> Option<(Token, &str)>
    ensures begins { IfSome result (λ t. (x : Lexeme) × Begins x (chars text.now) (chars t.1.now)
        × (t.0 ≡ token_at 0 x)) }
    ensures fewer { IfSome result (λ t. length t.1.now < length text.now) }
    ensures none { IsNone result → chars text.now ≡ [] }
{
    let Some(step) = next_step(text) else {
        return None;
    };
    let token = Token {
        kind: step.kind,
        span: 0..text.len() - step.rest.len(),
        suffix_start: text.len() - step.suffix.len(),
        is_ended: step.is_ended,
    };
    Some((token, step.rest))
}

/// Returns the first token of a text that is not the start of a file, or `None` if the text is
/// empty.
pub fn first_token(text: &str) -> Option<Token>
    ensures begins { IfSome result (λ t. (x : Lexeme) × (r : Text) × Begins x (chars text.now) r
        × (t ≡ token_at 0 x)) }
    ensures none { IsNone result → chars text.now ≡ [] }
{
    match split_first_token(text) {
        Some((token, _)) => Some(token),
        None => None,
    }
}

/// Returns whether a token is white space or a comment that documents nothing.
fn is_gap(kind: Kind) -> bool
    ensures { result ≡ is_gap kind }
{
    matches!(
        kind,
        Kind::Whitespace | Kind::LineComment | Kind::BlockComment
    )
}

/// Returns whether the text goes on with `[` after white space and comments.
fn opens_attribute(text: &str) -> bool
    ensures yes { IsTrue result → OpensAttribute (chars text.now) }
    ensures no { IsFalse result → OpensAttribute (chars text.now) → ⊥ }
{
    let mut rest = text;
    while let Some(step) = next_step(rest) {
        if !is_gap(step.kind) {
            return strip(rest, '[').is_some();
        }
        rest = step.rest;
    }
    false
}

/// Returns the rest after a byte order mark, or the text if it begins with none.
fn after_mark(text: &str) -> &str
    ensures within { length result.now ≤ length text.now }
    ensures marked { (xs : List Lexeme) × IsMarked (chars text.now) xs (chars result.now)
        × (placed_tokens 0 xs ≡ token_between ByteOrderMark 0 (length text.now - length result.now))
        × (end_of_all 0 xs + length result.now ≡ length text.now) }
{
    match strip(text, '\u{feff}') {
        Some(rest) => rest,
        None => text,
    }
}

/// Returns the rest after a shebang, or the text if it begins with none.
fn after_shebang(text: &str) -> &str
    ensures within { length result.now ≤ length text.now }
    ensures shebanged { (xs : List Lexeme) × IsShebanged (chars text.now) xs (chars result.now)
        × ((at : ℕ) → (placed_tokens at xs
        ≡ token_between Shebang at (at + (length text.now - length result.now)))
        × (end_of_all at xs + length result.now ≡ at + length text.now)) }
{
    let Some(after_hash) = strip(text, '#') else {
        return text;
    };
    let Some(line) = strip(after_hash, '!') else {
        return text;
    };
    if opens_attribute(line) {
        text
    } else {
        after_line(line)
    }
}

/// Returns the rest of a file after its byte order mark and its shebang.
pub fn skip_head(text: &str) -> &str
    // The tokens hs are the mark and the shebang. With the tokens of the rest they are the file's.
    ensures { (hs : List Lexeme) × IsTrue (list_all (λ x. is_head x.kind) hs)
        × ((rs : List Lexeme) → Reads (chars result.now) rs → ReadsFile (chars text.now) (hs ++ rs))
        × (end_of_all 0 hs + length result.now ≡ length text.now) }
{
    after_shebang(after_mark(text))
}

/// Adds a token of this kind unless it is empty. Returns `Err` if an allocation fails.
fn add_unless_empty(
    tokens: &mut Vec<Token>,
    kind: Kind,
    start: usize,
    end: usize,
) -> Result<(), AllocError>
    ensures { IfOk result (λ _. tokens.new.items ≡ tokens.old.items
        ++ token_between kind start end) }
{
    if start < end {
        tokens.push(Token {
            kind,
            span: start..end,
            suffix_start: end,
            is_ended: true,
        })?;
    }
    Ok(())
}

/// Returns the tokens of a file. Returns `Err` if an allocation fails.
pub fn tokens(alloc: Global, text: &str) -> Result<Vec<Token>, AllocError>
    ensures reads { IfOk result (λ v. (xs : List Lexeme) × ReadsFile (chars text.now) xs
        × (v.items ≡ placed_tokens 0 xs)) }
    ensures covers { IfOk result (λ v. Covers 0 v.items (length text.now)) }
{
    let unmarked_text = after_mark(text);
    let mark_end = text.len() - unmarked_text.len();
    let mut rest = after_shebang(unmarked_text);
    let mut list = Vec::new(alloc);
    add_unless_empty(&mut list, Kind::ByteOrderMark, 0, mark_end)?;
    add_unless_empty(&mut list, Kind::Shebang, mark_end, text.len() - rest.len())?;
    while let Some(step) = next_step(rest) {
        let token = Token {
            kind: step.kind,
            span: text.len() - rest.len()..text.len() - step.rest.len(),
            suffix_start: text.len() - step.suffix.len(),
            is_ended: step.is_ended,
        };
        list.push(token)?;
        rest = step.rest;
    }
    Ok(list)
}
