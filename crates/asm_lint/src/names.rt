//! The names of arguments.

ghost use Rattle.std.specs.Prelude.{◌≡◌, chars, map, option_map};
ghost use Rattle.placeholder_check.specs.Views.{text};
ghost use Rattle.rust_trees.specs.Leaves.{leaf};
ghost use Rattle.asm_lint.specs.Names.{name_of, without_raw};

use format_calls::{Argument, token_at};
use rust_tokens::split_first;
use rust_trees::Token;

/// Returns a text without `r#` at its start.
pub fn without_raw(text: &str) -> &str
    ensures { chars result.now ≡ without_raw (chars text.now) }
{
    let Some(('r', rest)) = split_first(text) else {
        return text;
    };
    match split_first(rest) {
        Some(('#', name)) => name,
        _ => text,
    }
}

/// Returns the name of an argument, without `r#`, or `None` if it has none.
pub fn name_of<'a>(tokens: &[Token<'a>], argument: &Argument) -> Option<&'a str>
    ensures { option_map text result ≡ name_of (map leaf tokens.now) argument.now }
{
    if !argument.is_named {
        return None;
    }
    match token_at(tokens, argument.start) {
        Some(token) => Some(without_raw(token.text)),
        None => None,
    }
}
