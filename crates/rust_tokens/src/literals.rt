//! The ends of characters and lifetimes, and the kinds of comments.

ghost use Rattle.std.specs.Prelude.{◌≡◌, chars, option_map};
ghost use Rattle.rust_tokens.specs.Characters.{after_char, after_escape, after_name};
ghost use Rattle.rust_tokens.specs.Characters.{after_raw_name, unless_apostrophe};
ghost use Rattle.rust_tokens.specs.Comments.{block_kind, line_kind};

use crate::kinds::Kind;
use crate::texts::{Class, after_run, begins, is_char_content, is_id_start, split_first, strip};

/// Returns the kind of a line comment, by the text after its `//`.
pub fn line_kind(text: &str) -> Kind
    ensures { result ≡ line_kind (chars text.now) }
{
    let Some((c, rest)) = split_first(text) else {
        return Kind::LineComment;
    };
    if c == '!' {
        Kind::InnerLineDoc
    } else if c == '/' && !begins(rest, Class::Slash) {
        Kind::OuterLineDoc
    } else {
        Kind::LineComment
    }
}

/// Returns the kind of a block comment, by the text after its `/*`.
pub fn block_kind(text: &str) -> Kind
    ensures { result ≡ block_kind (chars text.now) }
{
    let Some((c, rest)) = split_first(text) else {
        return Kind::BlockComment;
    };
    if c == '!' {
        Kind::InnerBlockDoc
    } else if c == '*' && !begins(rest, Class::StarOrSlash) {
        Kind::OuterBlockDoc
    } else {
        Kind::BlockComment
    }
}

/// Returns the rest after an escape and an apostrophe, from after the backslash on, or `None`.
fn after_escape(text: &str) -> Option<&str>
    ensures { option_map (λ r. chars r.now) result ≡ after_escape (chars text.now) }
{
    let Some((_, rest)) = split_first(text) else {
        return None;
    };
    strip(after_run(rest, Class::Escape), '\'')
}

/// Returns the rest after a character literal, from after its first apostrophe on, or `None` if
/// there is none.
pub fn after_char(text: &str) -> Option<&str>
    ensures { option_map (λ r. chars r.now) result ≡ after_char (chars text.now) }
{
    let Some((c, rest)) = split_first(text) else {
        return None;
    };
    if c == '\\' {
        return after_escape(rest);
    }
    if is_char_content(c) {
        return strip(rest, '\'');
    }
    None
}

/// Returns the text, or `None` if it begins with an apostrophe.
fn unless_apostrophe(text: &str) -> Option<&str>
    ensures { option_map (λ r. chars r.now) result ≡ unless_apostrophe (chars text.now) }
{
    if begins(text, Class::Apostrophe) {
        None
    } else {
        Some(text)
    }
}

/// Returns the rest after a word that no apostrophe follows, or `None`.
pub fn after_name(text: &str) -> Option<&str>
    ensures { option_map (λ r. chars r.now) result ≡ after_name (chars text.now) }
{
    let Some((c, rest)) = split_first(text) else {
        return None;
    };
    if is_id_start(c) {
        return unless_apostrophe(after_run(rest, Class::Continue));
    }
    None
}

/// Returns the rest after `r#` and a word that no apostrophe follows, or `None`.
pub fn after_raw_name(text: &str) -> Option<&str>
    ensures { option_map (λ r. chars r.now) result ≡ after_raw_name (chars text.now) }
{
    let Some((c, rest)) = split_first(text) else {
        return None;
    };
    let Some((d, more)) = split_first(rest) else {
        return None;
    };
    if c == 'r' && d == '#' {
        return after_name(more);
    }
    None
}
