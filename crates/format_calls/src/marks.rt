//! Tokens by their index.

ghost use Rattle.std.specs.Prelude.{◌≡◌, ◌<◌, IsTrue, Some, length, map, option_map};
ghost use Rattle.std.specs.Prelude.{is_some, slice_get};
ghost use Rattle.rust_trees.specs.Leaves.{leaf};
ghost use Rattle.format_calls.specs.Marks.{is_after, is_mark, is_mark_of, is_word, word};

use rust_tokens::Kind;
use rust_trees::Token;

/// Returns the token of an index, or `None` if there is none.
pub fn token_at<'a>(tokens: &[Token<'a>], index: usize) -> Option<Token<'a>>
    ensures value { option_map leaf result ≡ slice_get (map leaf tokens.now) index }
    ensures within { IsTrue (is_some result) → index < length tokens.now }
{
    if index < tokens.len() {
        Some(tokens[index])
    } else {
        None
    }
}

/// Returns whether the token is this character of punctuation.
pub fn is_mark_of(token: &Token<'_>, mark: u8) -> bool
    ensures { result ≡ is_mark_of mark (Some (leaf token.now)) }
{
    if !matches!(token.kind, Kind::Punct) {
        return false;
    }
    match token.text.as_bytes().first() {
        Some(first) => *first == mark,
        None => false,
    }
}

/// Returns whether the token of an index is this character of punctuation.
pub fn is_mark(tokens: &[Token<'_>], index: usize, mark: u8) -> bool
    ensures value { result ≡ is_mark mark (map leaf tokens.now) index }
    ensures within { IsTrue result → index < length tokens.now }
{
    match token_at(tokens, index) {
        Some(token) => is_mark_of(&token, mark),
        None => false,
    }
}

/// Returns whether the token before the one of an index is this character of punctuation.
pub fn is_after(tokens: &[Token<'_>], index: usize, mark: u8) -> bool
    ensures { result ≡ is_after mark (map leaf tokens.now) index }
{
    index > 0 && is_mark(tokens, index - 1, mark)
}

/// Returns whether the token is a word or a raw word.
pub fn is_word(token: &Token<'_>) -> bool
    ensures { result ≡ is_word (leaf token.now) }
{
    matches!(token.kind, Kind::Ident | Kind::RawIdent)
}

/// Returns the bytes of a word, without the `r#` of a raw one.
pub fn word<'a>(token: &Token<'a>) -> &'a [u8]
    ensures { result.now ≡ word (leaf token.now) }
{
    let bytes = token.text.as_bytes();
    if matches!(token.kind, Kind::RawIdent) && bytes.len() > 2 {
        &bytes[2..]
    } else {
        bytes
    }
}
