//! A list of arguments as a word: their number by position, and then names, each after a comma.

ghost use Rattle.std.specs.Prelude.{◌≡◌, ◌<◌, [], ◌∷◌, None, Some, IfOk, IfSome, MatchOption};
ghost use Rattle.std.specs.Prelude.{chars, if◌then◌else◌, length, map, option_map};
ghost use Rattle.std.specs.List.{list_all};
ghost use Rattle.std.specs.Str.Parse.{digits_value};
ghost use Rattle.placeholder_check.specs.Views.{texts};
ghost use Rattle.piece_listing.specs.GivenArguments.{given_arguments, is_name, is_number, parts};
ghost use Rattle.piece_listing.specs.SeenTask.{seen_given, seen_names};

use std::alloc::{AllocError, Global};

/// The most digits that a number may have.
const MOST_DIGITS: usize = 5;

/// A list of arguments that are given.
#[derive(Copy, Clone)]
pub struct GivenArguments<'a> {
    /// The number of arguments that are given by position.
    pub positional: usize,
    /// The names of the others, separated by commas, or `None` if there are none.
    pub names: Option<&'a str>,
}

/// Returns the text before the first comma and the text after it, or `None` if there is no comma.
fn around_comma(text: &str) -> Option<(&str, &str)>
    ensures parts { MatchOption result
        (parts text.now ≡ text.now ∷ [])
        (λ x. parts text.now ≡ x.0.now ∷ parts x.1.now) }
    ensures shorter { IfSome result (λ x. length x.1.now < length text.now) }
{
    text.split_once(',')
}

/// Returns the number that a text of at most `MOST_DIGITS` digits is, or `None` if it is no number
/// or more than 65535.
fn number(text: &str) -> Option<usize>
    ensures { result ≡ (if is_number text.now then Some (digits_value 10 text.now) else None) }
{
    if text.len() > MOST_DIGITS || text.starts_with('+') {
        return None;
    }
    match text.parse::<u16>() {
        Ok(number) => Some(usize::from(number)),
        Err(_) => None,
    }
}

/// Returns whether a text is a list of names that are separated by commas, none of them empty.
fn are_names(text: &str) -> bool
    ensures { result ≡ list_all is_name (parts text.now) }
{
    let mut rest = text;
    while let Some((name, rest_after)) = around_comma(rest) {
        if name.is_empty() {
            return false;
        }
        rest = rest_after;
    }
    !rest.is_empty()
}

/// Returns the list of arguments that a word is, or `None` if it is none.
pub fn given_arguments(word: &str) -> Option<GivenArguments<'_>>
    ensures { option_map seen_given result ≡ given_arguments word.now }
{
    let Some((digits, names)) = around_comma(word) else {
        let positional = number(word)?;
        return Some(GivenArguments {
            positional,
            names: None,
        });
    };
    let positional = number(digits)?;
    if !are_names(names) {
        return None;
    }
    Some(GivenArguments {
        positional,
        names: Some(names),
    })
}

/// Returns the parts of a text that are separated by commas. Returns `Err` if an allocation fails.
fn between_commas<'a>(alloc: Global, text: &'a str) -> Result<Vec<&'a str>, AllocError>
    ensures { IfOk result (λ v. texts v.items ≡ map chars (parts text.now)) }
{
    let mut names = Vec::new(alloc);
    let mut rest = text;
    while let Some((name, rest_after)) = around_comma(rest) {
        names.push(name)?;
        rest = rest_after;
    }
    names.push(rest)?;
    Ok(names)
}

/// Returns the names of a list of arguments. Returns `Err` if an allocation fails.
pub fn names<'a>(alloc: Global, names: Option<&'a str>) -> Result<Vec<&'a str>, AllocError>
    ensures { IfOk result (λ v. texts v.items ≡ seen_names names.entry) }
{
    match names {
        Some(text) => between_commas(alloc, text),
        None => Ok(Vec::new(alloc)),
    }
}
