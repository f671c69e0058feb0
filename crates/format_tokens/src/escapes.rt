//! Tokens cut at the escapes of an ordinary literal.

ghost use Rattle.std.specs.Prelude.{◌≡◌, ◌++◌, ◌∷◌, ℕ, [], IfOk, OnOk, chars, map, not};
ghost use Rattle.std.specs.Prelude.{option_map};
ghost use Rattle.std.specs.List.{list_all};
ghost use Rattle.rustc_parse_format.specs.LiteralUnits.{at_most_one};
ghost use Rattle.rustc_parse_format.specs.Views.{pair};
ghost use Rattle.format_tokens.specs.declared.kinds.Kind.TheVariants.{EscapeSequence};
ghost use Rattle.format_tokens.specs.Covers.{IsCover, ranges_of};
ghost use Rattle.format_tokens.specs.Escapes.{cut, escape_at, front_within, is_apart, is_other};
ghost use Rattle.format_tokens.specs.Escapes.{is_text, parts, rest_within, run};
ghost use Rattle.format_tokens.specs.Views.{seen_token};

use crate::kinds::{Kind, Token};
use crate::parts::{after_first, begins, width_of};
use rustc_parse_format::literal::{FirstUnit, split_first_unit};
use std::alloc::{AllocError, Global};
use std::ops::Range;

/// Returns the escape at the start of a text, or `None` if the text begins with no escape.
fn escape_at(text: &str) -> Option<FirstUnit<'_>>
    ensures { option_map (λ x. (at_most_one x.character, chars x.rest.now)) result
        ≡ escape_at (chars text.now) }
{
    if begins(text, '\\') {
        split_first_unit(text)
    } else {
        None
    }
}

/// Returns whether a token is text without braces.
#[tactic(auto, unfolding(crate::specs::Escapes::is_text))]
fn is_text(kind: Kind) -> bool
    ensures { result ≡ is_text kind }
{
    match kind {
        Kind::Text => true,
        Kind::EscapedBrace
        | Kind::OpenBrace
        | Kind::CloseBrace
        | Kind::Integer
        | Kind::Identifier
        | Kind::RawPrefix
        | Kind::Whitespace
        | Kind::Colon
        | Kind::Fill
        | Kind::Alignment
        | Kind::Sign
        | Kind::NumberSign
        | Kind::Zero
        | Kind::DollarSign
        | Kind::Dot
        | Kind::Asterisk
        | Kind::Type
        | Kind::Modifier
        | Kind::DiagnosticText
        | Kind::Unexpected
        | Kind::Quote
        | Kind::EscapeSequence => false,
    }
}

/// Returns whether an escape that stands for this character, or for nothing, is a token of its own
/// inside a token of this kind.
fn is_apart(kind: Kind, character: Option<char>) -> bool
    ensures { result ≡ is_apart kind (at_most_one character) }
{
    match character {
        Some(_) => is_text(kind),
        None => true,
    }
}

/// Adds the token of a byte range if that is not empty.
fn put_run(tokens: &mut Vec<Token>, kind: Kind, from: usize, to: usize) -> Result<(), AllocError>
    ensures { OnOk result (map seen_token tokens.new.items
        ≡ map seen_token tokens.old.items ++ run kind from to) }
{
    if from < to {
        tokens.push(Token {
            kind,
            span: from..to,
        })?;
    }
    Ok(())
}

/// Adds an escape of a byte range.
fn put_escape(tokens: &mut Vec<Token>, span: Range<usize>) -> Result<(), AllocError>
    ensures { OnOk result (map seen_token tokens.new.items ≡ map seen_token tokens.old.items
        ++ (EscapeSequence, pair span) ∷ []) }
{
    tokens.push(Token {
        kind: Kind::EscapeSequence,
        span,
    })?;
    Ok(())
}

/// Adds the parts of a token with these source characters.
fn put_parts(tokens: &mut Vec<Token>, token: &Token, text: &str) -> Result<(), AllocError>
    ensures { OnOk result (map seen_token tokens.new.items
        ≡ map seen_token tokens.old.items ++ parts (seen_token token.now) (chars text.now)) }
{
    let end = token.span.end;
    let mut from = token.span.start;
    let mut rest = text;
    while !rest.is_empty() {
        match escape_at(rest) {
            None => rest = after_first(rest),
            Some(
                FirstUnit {
                    character,
                    rest: others,
                },
            ) => {
                if is_apart(token.kind, character) {
                    let at = end.saturating_sub(width_of(rest));
                    let to = end.saturating_sub(width_of(others));
                    put_run(tokens, token.kind, from, at)?;
                    put_escape(tokens, at..to)?;
                    from = to;
                }
                rest = others;
            }
        }
    }
    put_run(tokens, token.kind, from, end)?;
    Ok(())
}

/// Returns the first characters of a text, as many as end within `width` bytes, and the rest after
/// them.
fn split_within(text: &str, width: usize) -> (&str, &str)
    ensures front { chars result.0.now ≡ front_within width (chars text.now) }
    ensures back { chars result.1.now ≡ rest_within width (chars text.now) }
{
    text.split_at(text.floor_char_boundary(width))
}

/// Returns whether a text has a backslash.
fn has_backslash(text: &str) -> bool
    ensures { result ≡ not (list_all is_other text.now) }
{
    for byte in text.as_bytes() {
        if *byte == b'\\' {
            return true;
        }
    }
    false
}

/// Returns the tokens of an ordinary literal cut at its escapes. Returns `Err` if an allocation
/// fails.
fn cut(alloc: Global, literal: &str, tokens: &[Token]) -> Result<Vec<Token>, AllocError>
    ensures { IfOk result (λ v. map seen_token v.items
        ≡ cut (chars literal.now) (map seen_token tokens.now)) }
{
    let mut list = Vec::with_capacity(alloc, tokens.len())?;
    let mut rest = literal;
    for token in tokens {
        let width = token.span.end.saturating_sub(token.span.start);
        let (text, others) = split_within(rest, width);
        put_parts(&mut list, token, text)?;
        rest = others;
    }
    Ok(list)
}

/// Returns the tokens of an ordinary literal, which cover it, cut at its escapes. Returns `Err` if
/// an allocation fails.
pub fn cut_escapes(
    alloc: Global,
    literal: &str,
    tokens: Vec<Token>,
) -> Result<Vec<Token>, AllocError>
    ensures { IfOk result (λ v. (a b : ℕ) → IsCover a b (ranges_of (map seen_token tokens.items))
        → map seen_token v.items ≡ cut (chars literal.now) (map seen_token tokens.items)) }
{
    if has_backslash(literal) {
        return cut(alloc, literal, tokens.as_slice());
    }
    Ok(tokens)
}
