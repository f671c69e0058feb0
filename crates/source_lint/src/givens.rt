//! The arguments of a call, as its placeholders refer to them.

ghost use Rattle.std.specs.Prelude.{◌≡◌, IfOk, map, option_map};
ghost use Rattle.placeholder_check.specs.Views.{text};
ghost use Rattle.rust_trees.specs.Leaves.{leaf};
ghost use Rattle.call_faults.specs.Views.{seen_given};
ghost use Rattle.source_lint.specs.Givens.{given_argument, is_keyword, variable, variable_of};
ghost use Rattle.asm_lint.specs.Names.{name_of};
ghost use Rattle.asm_lint.specs.Names.{without_raw};

use asm_lint::{name_of, without_raw};
use call_faults::FormatArgument;
use format_calls::{Argument, token_at};
use rust_tokens::Kind;
use rust_trees::Token;
use std::alloc::{AllocError, Global};

/// Returns whether a word is an expression by itself, and no variable.
fn is_keyword(word: &str) -> bool
    ensures { result ≡ is_keyword word.now }
{
    word == "_"
        || word == "break"
        || word == "continue"
        || word == "false"
        || word == "return"
        || word == "true"
        || word == "yield"
}

/// Returns the variable that a token is, without `r#`, or `None` if it is none.
fn variable<'a>(token: &Token<'a>) -> Option<&'a str>
    ensures { option_map text result ≡ variable (leaf token.now) }
{
    match token.kind {
        Kind::Ident => {
            if is_keyword(token.text) {
                None
            } else {
                Some(token.text)
            }
        }
        Kind::RawIdent => Some(without_raw(token.text)),
        _ => None,
    }
}

/// Returns the variable that an argument without a name is, or `None` if it is anything else.
fn variable_of<'a>(tokens: &[Token<'a>], argument: &Argument) -> Option<&'a str>
    ensures { option_map text result ≡ variable_of (map leaf tokens.now) argument.now }
{
    if argument.is_named || argument.start >= argument.end || argument.end - argument.start != 1 {
        return None;
    }
    match token_at(tokens, argument.start) {
        Some(token) => variable(&token),
        None => None,
    }
}

/// Returns an argument as placeholders refer to it.
fn format_argument<'a>(tokens: &[Token<'a>], argument: &Argument) -> FormatArgument<'a>
    ensures { seen_given result ≡ given_argument (map leaf tokens.now) argument.now }
{
    FormatArgument {
        name: name_of(tokens, argument),
        variable: variable_of(tokens, argument),
    }
}

/// Returns arguments as placeholders refer to them. Returns `Err` if an allocation fails.
pub fn givens<'a>(
    alloc: Global,
    tokens: &[Token<'a>],
    arguments: &[Argument],
) -> Result<Vec<FormatArgument<'a>>, AllocError>
    ensures { IfOk result (λ v. map seen_given v.items
        ≡ map (given_argument (map leaf tokens.now)) arguments.now) }
{
    let mut list = Vec::new(alloc);
    for argument in arguments {
        list.push(format_argument(tokens, argument))?;
    }
    Ok(list)
}
