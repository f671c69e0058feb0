//! The arguments of a call in a file, each with the source that goes with it.

ghost use Rattle.std.specs.Prelude.{◌≡◌, ◌-◌, IfOk, drop, map, option_map, take};
ghost use Rattle.rustc_parse_format.specs.Views.{pair};
ghost use Rattle.rust_trees.specs.Leaves.{leaf};
ghost use Rattle.inlined_arguments.specs.Views.{seen_argument};
ghost use Rattle.file_inlines.specs.Sources.{end_at, removed_place, with_source, word_of};

use asm_lint::name_of;
use format_calls::{Argument, is_word, token_at};
use inlined_arguments::Argument as FormatArgument;
use rust_trees::Token;
use std::alloc::{AllocError, Global};
use std::ops::Range;

/// Returns the offset at which the token of an index ends in its file, or 0 if there is none.
fn end_at(text: &str, tokens: &[Token<'_>], index: usize) -> usize
    ensures { result ≡ end_at text.now (map leaf tokens.now) index }
{
    match token_at(tokens, index) {
        Some(token) => text.len().min(token.start.saturating_add(token.text.len())),
        None => 0,
    }
}

/// Returns the bytes of a file that go with an argument: from the end of the token before its comma
/// to its own end.
pub(crate) fn removal_range(text: &str, tokens: &[Token<'_>], argument: &Argument) -> Range<usize>
    ensures { pair result ≡ removed_place text.now (map leaf tokens.now) argument.now }
{
    let start = end_at(text, tokens, argument.start.saturating_sub(2));
    let end = end_at(text, tokens, argument.end.saturating_sub(1));
    start..end
}

/// Returns the bytes of a text in a range, or those of it that there are.
fn bytes_in<'a>(text: &'a str, range: &Range<usize>) -> &'a [u8]
    ensures { result.now ≡ take (range.now.end - range.now.start) (drop range.now.start text.now) }
{
    let rest = text.as_bytes().get(range.start..).unwrap_or(&[]);
    rest.get(..range.end.saturating_sub(range.start))
        .unwrap_or(rest)
}

/// Returns the value of an argument if that is one word.
fn word_of<'a>(tokens: &[Token<'a>], argument: &Argument) -> Option<&'a str>
    ensures { option_map (λ s. s.now) result ≡ word_of (map leaf tokens.now) argument.now }
{
    let count = if argument.is_named { 3 } else { 1 };
    if argument.end.saturating_sub(argument.start) != count {
        return None;
    }
    match token_at(tokens, argument.end.saturating_sub(1)) {
        Some(token) => {
            if is_word(&token) {
                Some(token.text)
            } else {
                None
            }
        }
        None => None,
    }
}

/// Returns an argument of a call with its source.
fn with_source<'a>(text: &'a str, tokens: &[Token<'a>], argument: &Argument) -> FormatArgument<'a>
    ensures { seen_argument result ≡ with_source text.now (map leaf tokens.now) argument.now }
{
    let range = removal_range(text, tokens, argument);
    FormatArgument {
        name: name_of(tokens, argument),
        word: word_of(tokens, argument),
        source: bytes_in(text, &range),
    }
}

/// Returns arguments of a call with their source. Returns `Err` if an allocation fails.
pub(crate) fn with_sources<'a>(
    alloc: Global,
    text: &'a str,
    tokens: &[Token<'a>],
    arguments: &[Argument],
) -> Result<Vec<FormatArgument<'a>>, AllocError>
    ensures { IfOk result (λ v. map seen_argument v.items
        ≡ map (with_source text.now (map leaf tokens.now)) arguments.now) }
{
    let mut list = Vec::new(alloc);
    for argument in arguments {
        list.push(with_source(text, tokens, argument))?;
    }
    Ok(list)
}
