//! Tokens by their index, as words.

ghost use Rattle.std.specs.Prelude.{◌≡◌, ◌<◌, ◌≤◌, IsTrue, length, map, slice_get};
ghost use Rattle.rust_trees.specs.Leaves.{leaf};
ghost use Rattle.macro_owners.specs.Words.{is_copy, is_name, is_same_word, is_star, is_use};
ghost use Rattle.macro_owners.specs.Words.{is_written};

use format_calls::{is_mark, is_text, is_word, token_at, word};
use rust_trees::Token;

/// Returns whether the token of an index is this word, not a raw one.
pub fn is_written(tokens: &[Token<'_>], index: usize, name: &str) -> bool
    ensures { result ≡ is_written (map leaf tokens.now) index name.now }
{
    match token_at(tokens, index) {
        Some(token) => is_text(&token, name),
        None => false,
    }
}

/// Returns whether the token of an index is a word.
pub fn is_name(tokens: &[Token<'_>], index: usize) -> bool
    ensures value { result ≡ is_name (map leaf tokens.now) index }
    ensures within { IsTrue result → index < length tokens.now }
{
    match token_at(tokens, index) {
        Some(token) => is_word(&token),
        None => false,
    }
}

/// Returns whether two tokens are the same word.
pub fn is_same_word(tokens: &[Token<'_>], index: usize, other: usize) -> bool
    ensures { result ≡ is_same_word (slice_get (map leaf tokens.now) index)
        (slice_get (map leaf tokens.now) other) }
{
    let Some(token) = token_at(tokens, index) else {
        return false;
    };
    let Some(other) = token_at(tokens, other) else {
        return false;
    };
    is_word(&token) && is_word(&other) && word(&token) == word(&other)
}

/// Returns whether a token begins a use of the variable of which another token is the name.
pub fn is_use(tokens: &[Token<'_>], variable: usize, index: usize) -> bool
    requires { index ≤ length tokens.now }
    ensures { result
        ≡ is_use (map leaf tokens.now) (slice_get (map leaf tokens.now) variable) index }
{
    is_mark(tokens, index, b'$') && is_same_word(tokens, index + 1, variable)
}

/// Returns whether a token says that what is before it is repeated.
pub fn is_star(tokens: &[Token<'_>], index: usize) -> bool
    ensures { result ≡ is_star (map leaf tokens.now) index }
{
    is_mark(tokens, index, b'*') || is_mark(tokens, index, b'+')
}

/// Returns whether a token begins `$($variable)*`, where another token is the name of the variable.
pub fn is_copy(tokens: &[Token<'_>], variable: usize, index: usize) -> bool
    requires { index ≤ length tokens.now }
    ensures { result
        ≡ is_copy (map leaf tokens.now) (slice_get (map leaf tokens.now) variable) index }
{
    is_mark(tokens, index, b'$')
        && is_mark(tokens, index + 1, b'(')
        && is_use(tokens, variable, index + 2)
        && is_mark(tokens, index + 4, b')')
        && is_star(tokens, index + 5)
}
