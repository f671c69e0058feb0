//! An input that is a string literal, and the text that it stands for.

ghost use Rattle.std.specs.Prelude.{◌≡◌, ◌++◌, ◌+◌, ◌<◌, ◌≤◌, ℕ, [], ◌∷◌, Option, IfOk, IfSome};
ghost use Rattle.std.specs.Prelude.{IsOk};
ghost use Rattle.std.specs.Prelude.{MatchOption, OnOk, chars, length, map, replicate, string_bytes};
ghost use Rattle.std.specs.Prelude.{true, Bool};
ghost use Rattle.rustc_parse_format.specs.Characters.{Text};
ghost use Rattle.rustc_parse_format.specs.Literal.{IsLiteral, IsOrdinaryLiteral, newline};
ghost use Rattle.rustc_parse_format.specs.Literal.{raw_closing, raw_frame, raw_opening};
ghost use Rattle.rustc_parse_format.specs.World.{hashes};

use rustc_parse_format::literal::{content_text, quoted_content};
use std::alloc::{AllocError, Global};

/// Returns a text without the character `c` at its end, or `None` if it does not end in `c`.
fn without_last(text: &str, c: char) -> Option<&str>
    requires { c < 128 }
    ensures front { MatchOption result
        ((t : Text) → t ++ c ∷ [] ≡ chars text.now → ⊥)
        (λ t. chars t.now ++ c ∷ [] ≡ chars text.now) }
    ensures shorter { IfSome result (λ t. length t.now + 1 ≡ length text.now) }
{
    text.strip_suffix(c)
}

/// Returns a text without the newline at its end, if it ends in one.
pub fn strip_newline(text: &str) -> &str
    ensures cut { (b : Bool) × (chars result.now ++ newline b ≡ chars text.now) }
    // A text that does not end in a newline, and is `text` or `text` without a newline at its end,
    // is the result.
    ensures only { (l : Text) (b : Bool) → l ++ newline b ≡ chars text.now
        → ((t : Text) → t ++ newline true ≡ l → ⊥) → l ≡ chars result.now }
    ensures short { length result.now ≤ length text.now }
{
    match without_last(text, '\n') {
        Some(line) => line,
        None => text,
    }
}

/// Returns a text without the character `c` at its start, or `None` if it does not begin with `c`.
fn without_first(text: &str, c: char) -> Option<&str>
    requires { c < 128 }
    ensures rest { MatchOption result
        ((t : Text) → chars text.now ≡ c ∷ t → ⊥)
        (λ t. chars text.now ≡ c ∷ chars t.now) }
    ensures shorter { IfSome result (λ t. length t.now + 1 ≡ length text.now) }
{
    text.strip_prefix(c)
}

/// Returns the number of hashes at the start of a text, and the text after them.
fn leading_hashes(text: &str) -> (usize, &str)
    ensures all { chars text.now ≡ replicate result.0 35 ++ chars result.1.now }
    ensures no_more { (t : Text) → chars result.1.now ≡ 35 ∷ t → ⊥ }
    ensures few { result.0 + length result.1.now ≡ length text.now }
{
    let mut count = 0;
    let mut rest = text;
    while let Some(rest_after) = without_first(rest, '#') {
        rest = rest_after;
        count += 1;
    }
    (count, rest)
}

/// Returns a text without `count` hashes at its end, or `None` if it does not end in as many.
fn without_last_hashes(text: &str, count: usize) -> Option<&str>
    ensures { MatchOption result
        ((t : Text) → t ++ replicate count 35 ≡ chars text.now → ⊥)
        (λ t. chars t.now ++ replicate count 35 ≡ chars text.now) }
{
    let mut rest = text;
    for _ in 0..count {
        match without_last(rest, '#') {
            Some(front) => rest = front,
            None => return None,
        }
    }
    Some(rest)
}

/// The parts of a raw string literal.
#[derive(Clone, Copy)]
pub struct RawText<'a> {
    /// The number of hashes on each side of the quotes.
    pub hashes: usize,
    /// The text between the quotes.
    pub text: &'a str,
}

/// Returns the parts of a raw string literal, or `None` if it is no raw string literal.
pub fn raw_text(literal: &str) -> Option<RawText<'_>>
    ensures text { MatchOption result
        ((n : ℕ) (t : Text) → chars literal.now ≡ raw_frame n t → ⊥)
        (λ x. chars literal.now ≡ raw_frame x.hashes (chars x.text.now)) }
    ensures few { IfSome result (λ x. x.hashes ≤ length literal.now) }
{
    let (hashes, rest) = leading_hashes(without_first(literal, 'r')?);
    let rest = without_first(rest, '"')?;
    let text = without_last(without_last_hashes(rest, hashes)?, '"')?;
    Some(RawText { hashes, text })
}

/// Returns the text that an ordinary string literal stands for, or `None` if it is no ordinary
/// string literal. Returns `Err` if an allocation fails.
fn ordinary_text(alloc: Global, literal: &str) -> Result<Option<String>, AllocError>
    ensures found { IfOk result (λ o. MatchOption o
        ((t : Text) → IsOrdinaryLiteral (chars literal.now) t → ⊥)
        (λ s. IsOrdinaryLiteral (chars literal.now) (chars (string_bytes s)))) }
    ensures empty { literal.now ≡ [] → IsOk result }
{
    let Some(content) = quoted_content(literal) else {
        return Ok(None);
    };
    content_text(alloc, content)
}

/// The text that a string literal stands for.
#[derive(Drop)]
pub struct LiteralText {
    /// The text, without quotes and with its escapes decoded.
    pub text: String,
    /// The number of hashes of a raw literal, or `None` for an ordinary one.
    pub style: Option<usize>,
}

/// Returns the text that a string literal stands for, or `None` if it is no string literal. Returns
/// `Err` if an allocation fails. The rules are those of the Rust Reference.
pub fn literal_text(alloc: Global, literal: &str) -> Result<Option<LiteralText>, AllocError>
    ensures found { IfOk result (λ o. MatchOption o
        ((style : Option ℕ) (t : Text) → IsLiteral style (chars literal.now) t → ⊥)
        (λ x. IsLiteral x.style (chars literal.now) (chars (string_bytes x.text)))) }
    ensures few { IfOk result (λ o. IfSome o (λ x. hashes x.style ≤ length literal.now)) }
    ensures empty { literal.now ≡ [] → IsOk result }
{
    if let Some(RawText { hashes, text }) = raw_text(literal) {
        return Ok(Some(LiteralText {
            text: String::from_str(alloc, text)?,
            style: Some(hashes),
        }));
    }
    match ordinary_text(alloc, literal)? {
        Some(text) => Ok(Some(LiteralText { text, style: None })),
        None => Ok(None),
    }
}
