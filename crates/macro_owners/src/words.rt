//! Tokens that may be missing, as words and marks.

ghost use Rattle.std.specs.Prelude.{◌≡◌, option_map};
ghost use Rattle.format_calls.specs.Marks.{is_mark_of};
ghost use Rattle.rust_trees.specs.Leaves.{leaf};
ghost use Rattle.macro_owners.specs.Contexts.{is_named, word_of};
ghost use Rattle.macro_owners.specs.Quiet.{is_notable};

use crate::names::is_notable_word;
use format_calls::{is_mark_of, is_word, word};
use rust_trees::Token;

/// Returns the bytes of a word, without `r#`, or nothing if the token is none.
pub fn word_of<'a>(token: Option<Token<'a>>) -> &'a [u8]
    ensures { result.now ≡ word_of (option_map leaf token.entry) }
{
    match token {
        Some(token) if is_word(&token) => word(&token),
        _ => b"",
    }
}

/// Returns whether the token is this word.
pub fn is_named(token: Option<Token<'_>>, name: &str) -> bool
    ensures { result ≡ is_named name.now (option_map leaf token.entry) }
{
    word_of(token) == name.as_bytes()
}

/// Returns whether the token is this character of punctuation.
pub fn is_mark(token: Option<Token<'_>>, mark: u8) -> bool
    ensures { result ≡ is_mark_of mark (option_map leaf token.entry) }
{
    match token {
        Some(token) => is_mark_of(&token, mark),
        None => false,
    }
}

/// Returns whether facts may come from a token or from those after it.
#[inline(always)]
pub fn is_notable(token: Option<Token<'_>>) -> bool
    ensures { result ≡ is_notable (option_map leaf token.entry) }
{
    match token {
        Some(token) if is_word(&token) => is_notable_word(word(&token)),
        _ => is_mark(token, b'!'),
    }
}
