//! The variables that arguments are.

ghost use Rattle.std.specs.Prelude.{◌≡◌, ◌<◌, ◌∷◌, [], IfOk, IfSome, MatchOption, chars, length};
ghost use Rattle.std.specs.Prelude.{map, not, option_map};
ghost use Rattle.std.specs.List.{list_any};
ghost use Rattle.placeholder_check.specs.Views.{text as seen_text};
ghost use Rattle.inlined_arguments.specs.Views.{seen_argument};
ghost use Rattle.inlined_arguments.specs.Variables.{gone_from, has_comment};
ghost use Rattle.inlined_arguments.specs.Variables.{is_late_character, is_slash};
ghost use Rattle.inlined_arguments.specs.Variables.{is_variable, named_in, raw_name, variable};
ghost use Rattle.inlined_arguments.specs.Variables.{variable_of};

use crate::call::Argument;
use crate::keywords::is_keyword;
use std::alloc::{AllocError, Global};

/// The first character that normalization may change or join with the one before it.
const FIRST_MARK: char = '\u{300}';

/// Returns the first character and what is after it, or `None` if the text is empty.
pub(crate) fn split_first(text: &str) -> Option<(char, &str)>
    ensures parts { MatchOption result (chars text.now ≡ [])
        (λ x. chars text.now ≡ x.0 ∷ chars x.1.now) }
    ensures shorter { IfSome result (λ x. length x.1.now < length text.now) }
{
    let mut rest = text.chars();
    let c = rest.next()?;
    Some((c, rest.as_str()))
}

/// Returns whether a name is written in a format string as it is in other source.
fn is_plain(name: &str) -> bool
    ensures { result ≡ not (list_any is_late_character (chars name.now)) }
{
    let mut rest = name;
    while let Some((c, tail)) = split_first(rest) {
        if c >= FIRST_MARK {
            return false;
        }
        rest = tail;
    }
    true
}

/// Returns the variable of this name, or `None` if it cannot be in a format string.
fn named_in(name: &str) -> Option<&str>
    ensures { option_map seen_text result ≡ named_in (chars name.now) }
{
    if is_plain(name) { Some(name) } else { None }
}

/// Returns the name of a raw identifier, or `None` if a word is none.
fn raw_name(word: &str) -> Option<&str>
    ensures { option_map seen_text result ≡ raw_name (chars word.now) }
{
    let Some(('r', rest)) = split_first(word) else {
        return None;
    };
    match split_first(rest) {
        Some(('#', name)) => Some(name),
        _ => None,
    }
}

/// Returns the name of the variable that a word is, or `None` if it is none that can be in a format
/// string.
fn variable_of(word: &str) -> Option<&str>
    ensures { option_map seen_text result ≡ variable_of word.now }
{
    match raw_name(word) {
        Some(name) => named_in(name),
        None => {
            if is_keyword(word) {
                None
            } else {
                named_in(word)
            }
        }
    }
}

/// Returns the name of the variable that an argument is, or `None` if it is none that can be in a
/// format string.
pub(crate) fn variable<'a>(argument: &Argument<'a>) -> Option<&'a str>
    ensures { option_map seen_text result ≡ variable (seen_argument argument.now) }
{
    match argument.word {
        None => None,
        Some(word) => variable_of(word),
    }
}

/// Returns whether an argument is a variable that can be in a format string.
pub(crate) fn is_variable(argument: &Argument<'_>) -> bool
    ensures { result ≡ is_variable (seen_argument argument.now) }
{
    variable(argument).is_some()
}

/// Returns whether one of bytes is a slash.
fn has_slash(bytes: &[u8]) -> bool
    ensures { result ≡ list_any is_slash bytes.now }
{
    for byte in bytes {
        if *byte == b'/' {
            return true;
        }
    }
    false
}

/// Returns whether a comment would go with an argument that is a variable.
pub(crate) fn has_comment(argument: &Argument<'_>) -> bool
    ensures { result ≡ has_comment (seen_argument argument.now) }
{
    has_slash(argument.source)
}

/// Returns the indices of the arguments that are variables. Returns `Err` if an allocation fails.
pub(crate) fn variable_indices(
    alloc: Global,
    arguments: &[Argument<'_>],
) -> Result<Vec<usize>, AllocError>
    ensures { IfOk result (λ v. v.items ≡ gone_from 0 (map seen_argument arguments.now)) }
{
    let mut removed_indices = Vec::new(alloc);
    for (index, argument) in arguments.iter().enumerate() {
        if is_variable(argument) {
            removed_indices.push(index)?;
        }
    }
    Ok(removed_indices)
}
