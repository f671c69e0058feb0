//! The first token of a text.

ghost use Rattle.std.specs.Prelude.{◌≡◌, ◌<◌, ◌&&◌, ℕ, IfSome, Some, chars, false, length};
ghost use Rattle.std.specs.Prelude.{option_map, slice_index, true};
ghost use Rattle.rust_tokens.specs.Bytes.{begins_word};
ghost use Rattle.rust_tokens.specs.First.{after_suffix, closed_body, first_of};
ghost use Rattle.rust_tokens.specs.First.{first_plain, first_quoted, first_slashed, by_opening};
ghost use Rattle.rust_tokens.specs.Views.{seen_body};
ghost use Rattle.rust_tokens.specs.Texts.{Text};
ghost use Rattle.rust_tokens.specs.Tokens.{is_literal};

use crate::bodies::{Body, ended_token, unended_token};
use crate::bytes::{is_plain_start, is_prefix_letter, is_sign, is_space_byte, is_word_byte};
use crate::ends::{after_comment, after_line, after_raw, after_string};
use crate::kinds::Kind;
use crate::literals::{after_char, after_name, after_raw_name, block_kind, line_kind};
use crate::numbers::first_number;
use crate::openings::{Opening, first_opening};
use crate::texts::{
    Class, after_ascii_run, after_run, is_id_start, is_punct, is_space, split_first,
};

/// Returns the token with this end, or the one that is not ended, which takes all.
fn closed_token<'a>(kind: Kind, end: Option<&'a str>) -> Body<'a>
    ensures { seen_body result ≡ closed_body kind (option_map (λ r. chars r.now) end.entry) }
{
    match end {
        Some(rest) => ended_token(kind, rest),
        None => unended_token(kind, ""),
    }
}

/// Returns the token that begins with a `/` before the text.
fn first_slashed(text: &str) -> Body<'_>
    ensures { seen_body result ≡ first_slashed (chars text.now) }
{
    let Some((c, rest)) = split_first(text) else {
        return ended_token(Kind::Punct, text);
    };
    if c == '/' {
        let kind = line_kind(rest);
        return ended_token(kind, after_line(rest));
    }
    if c == '*' {
        return closed_token(block_kind(rest), after_comment(rest));
    }
    ended_token(Kind::Punct, text)
}

/// Returns the token that begins with an apostrophe before the text.
fn first_quoted(text: &str) -> Body<'_>
    ensures { seen_body result ≡ first_quoted (chars text.now) }
{
    if let Some(rest) = after_char(text) {
        return ended_token(Kind::Char, rest);
    }
    if let Some(rest) = after_raw_name(text) {
        return ended_token(Kind::RawLifetime, rest);
    }
    if let Some(rest) = after_name(text) {
        return ended_token(Kind::Lifetime, rest);
    }
    unended_token(Kind::Char, text)
}

/// Returns the token that begins with `c` before the text and has no opening.
fn first_plain(c: char, text: &str) -> Body<'_>
    ensures { seen_body result ≡ first_plain c (chars text.now) }
{
    if is_id_start(c) {
        let rest = after_run(text, Class::Continue);
        return ended_token(Kind::Ident, rest);
    }
    if c.is_ascii_digit() {
        return first_number(c, text);
    }
    if c == '/' {
        return first_slashed(text);
    }
    if c == '\'' {
        return first_quoted(text);
    }
    let kind = if is_punct(c) {
        Kind::Punct
    } else {
        Kind::Unknown
    };
    ended_token(kind, text)
}

/// Returns the token that goes on with the text after this opening.
fn opened_token(opening: Opening, text: &str) -> Body<'_>
    ensures { (c : ℕ) (t : Text) → seen_body result
        ≡ by_opening c t (Some (opening, chars text.now)) }
{
    match opening {
        Opening::Quote(kind) => closed_token(kind, after_string(text)),
        Opening::Raw(kind, hashes) => closed_token(kind, after_raw(text, hashes)),
        Opening::ByteQuote => {
            match after_char(text) {
                Some(rest) => ended_token(Kind::Byte, rest),
                None => unended_token(Kind::Byte, text),
            }
        }
        Opening::RawWord => {
            let rest = after_run(text, Class::Continue);
            ended_token(Kind::RawIdent, rest)
        }
    }
}

/// Returns the first token of a text, without its suffix, or `None` if the text is empty.
pub fn first_body(text: &str) -> Option<Body<'_>>
    ensures { option_map (λ b. seen_body b) result ≡ first_of (chars text.now) }
{
    let Some((c, rest)) = split_first(text) else {
        return None;
    };
    if is_space(c) {
        let rest = after_run(rest, Class::Space);
        return Some(ended_token(Kind::Whitespace, rest));
    }
    match first_opening(text) {
        Some((opening, rest)) => Some(opened_token(opening, rest)),
        None => Some(first_plain(c, rest)),
    }
}

/// Returns whether a token of this kind is a literal, which may have a suffix.
fn is_literal(kind: Kind) -> bool
    ensures { result ≡ is_literal kind }
{
    matches!(
        kind,
        Kind::BinaryInt
            | Kind::OctalInt
            | Kind::DecimalInt
            | Kind::HexadecimalInt
            | Kind::Float
            | Kind::Char
            | Kind::Byte
            | Kind::Str
            | Kind::ByteStr
            | Kind::CStr
            | Kind::RawStr
            | Kind::RawByteStr
            | Kind::RawCStr
    )
}

/// Returns the rest after a token with its suffix.
pub fn after_suffix(body: Body<'_>) -> &str
    ensures { chars result.now
        ≡ after_suffix (is_literal body.entry.kind && body.entry.is_ended)
        (chars body.entry.rest.now) }
{
    if !(body.is_ended && is_literal(body.kind)) {
        return body.rest;
    }
    let Some((c, rest)) = split_first(body.rest) else {
        return body.rest;
    };
    if is_id_start(c) {
        after_run(rest, Class::Continue)
    } else {
        body.rest
    }
}

/// Returns the second byte, or 0 if there is none.
#[inline(always)]
fn second_byte(bytes: &[u8]) -> u8
    ensures { result ≡ slice_index bytes.now 1 }
{
    if bytes.len() > 1 { bytes[1] } else { 0 }
}

/// Returns whether the first two bytes show that a word begins, and no literal.
#[inline(always)]
fn begins_word(bytes: &[u8]) -> bool
    requires { 0 < length bytes.now }
    ensures { result ≡ begins_word (slice_index bytes.now 0) (slice_index bytes.now 1) }
{
    if is_plain_start(bytes[0]) {
        return true;
    }
    let second = second_byte(bytes);
    is_prefix_letter(bytes[0]) && is_word_byte(second) && second != b'r'
}

/// Returns the kind of the first token and the rest after it, if the token is of the most frequent
/// kinds, which are no literals: punctuation, and white space and words of ASCII. Returns `None`
/// for other tokens, for some words that begin as a prefix does, for a word or white space with a
/// character outside ASCII right after it, and for the empty text.
#[inline(always)]
pub fn plain_token(text: &str) -> Option<(Kind, &str)>
    ensures first { IfSome result
        (λ x. Some (x.0, true, chars x.1.now) ≡ first_of (chars text.now)) }
    ensures bare { IfSome result (λ x. is_literal x.0 ≡ false) }
{
    let bytes = text.as_bytes();
    if bytes.is_empty() {
        return None;
    }
    if is_sign(bytes[0]) {
        return Some((Kind::Punct, &text[1..]));
    }
    if is_space_byte(bytes[0]) {
        let rest = after_ascii_run(text, Class::Space)?;
        return Some((Kind::Whitespace, rest));
    }
    if begins_word(bytes) {
        let rest = after_ascii_run(text, Class::Continue)?;
        return Some((Kind::Ident, rest));
    }
    None
}
