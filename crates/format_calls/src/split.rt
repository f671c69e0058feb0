//! The arguments of a call.

ghost use Rattle.std.specs.Prelude.{◌≡◌, ◌+◌, ◌<◌, ◌≤◌, ◌^◌, ℕ, IfOk, IfSome, IsNone, map};
ghost use Rattle.rust_trees.specs.Forests.{IsPair};
ghost use Rattle.rust_trees.specs.Leaves.{leaf};
ghost use Rattle.format_calls.specs.Arguments.{AreArguments, IsArgument, IsTree, is_end};
ghost use Rattle.format_calls.specs.Arguments.{is_named};

use crate::marks::{is_mark, is_word, token_at};
use crate::modes::{Mode, is_followed, mode_after};
use rust_trees::{Source, Token};
use std::alloc::{AllocError, Global};

/// An argument of a call.
#[derive(Clone, Copy)]
pub struct Argument {
    /// The index of the token where it starts.
    pub start: usize,
    /// The index of the token after it: a comma or the closing delimiter.
    pub end: usize,
    /// Whether it has a name: a word and `=` stand before its value.
    pub is_named: bool,
}

/// Returns whether a comma at this token ends an argument.
fn is_end(tokens: &[Token<'_>], index: usize, mode: Mode) -> bool
    ensures { result ≡ is_end (map leaf tokens.now) index mode }
{
    !matches!(mode, Mode::Angles(_) | Mode::Parameters) && is_mark(tokens, index, b',')
}

/// Returns whether an argument that starts at this token has a name.
pub fn is_named(tokens: &[Token<'_>], index: usize) -> bool
    ensures { result ≡ is_named (map leaf tokens.now) index }
{
    match token_at(tokens, index) {
        Some(token) => {
            is_word(&token)
                && is_mark(tokens, index + 1, b'=')
                && !is_followed(tokens, index + 1, b'=')
                && !is_followed(tokens, index + 1, b'>')
        }
        None => false,
    }
}

/// Returns the token that closes the pair that a token opens, or `None` if it opens none.
pub fn closing_token(source: &Source<'_>, index: usize) -> Option<usize>
    ensures some { IfSome result (λ j. IsPair source.now index j) }
    ensures none { IsNone result → (j : ℕ) → IsPair source.now index j → ⊥ }
{
    match source.partner(index) {
        Some(partner) if partner > index => Some(partner),
        _ => None,
    }
}

/// Returns the token after the tree at a token between two delimiters that are a pair.
pub fn after_tree(source: &Source<'_>, index: usize) -> usize
    requires { (o c : ℕ) × IsPair source.now o c × (o < index) × (index < c) × (c < 2 ^ 64) }
    ensures { IsTree source.now index result }
{
    match closing_token(source, index) {
        Some(close) => close + 1,
        None => index + 1,
    }
}

/// Returns the end of the argument that starts at a token between delimiters, of which `to` closes
/// the pair.
fn argument_end(source: &Source<'_>, opening: usize, from: usize, to: usize) -> usize
    requires pair { IsPair source.now opening to }
    requires start { (opening < from) × (from ≤ to) }
    ensures is_argument { IsArgument source.now from result to }
    ensures within { (from ≤ result) × (result ≤ to) }
{
    let tokens = source.tokens();
    let mut mode = Mode::Start(false);
    let mut end = from;
    while end < to && !is_end(tokens, end, mode) {
        mode = mode_after(tokens, end, mode);
        end = after_tree(source, end);
    }
    end
}

/// Returns the arguments between two delimiters that are a pair. Returns `Err` if an allocation
/// fails.
fn arguments_between(
    alloc: Global,
    source: &Source<'_>,
    opening: usize,
    close: usize,
) -> Result<Vec<Argument>, AllocError>
    requires { IsPair source.now opening close }
    ensures { IfOk result (λ v. AreArguments source.now (opening + 1) v.items close) }
{
    let tokens = source.tokens();
    let mut arguments = Vec::new(alloc);
    let mut start = opening + 1;
    while start < close {
        let end = argument_end(source, opening, start, close);
        let is_named = is_named(tokens, start);
        arguments.push(Argument {
            start,
            end,
            is_named,
        })?;
        if end == close {
            return Ok(arguments);
        }
        start = end + 1;
    }
    Ok(arguments)
}

/// Returns the arguments of the call that ends with this closing delimiter, or `None` if the token
/// closes no pair. Returns `Err` if an allocation fails.
pub fn arguments(
    alloc: Global,
    source: &Source<'_>,
    close: usize,
) -> Result<Option<Vec<Argument>>, AllocError>
    ensures some { IfOk result (λ o. IfSome o (λ v. (n : ℕ) × IsPair source.now n close
        × AreArguments source.now (n + 1) v.items close)) }
    ensures none { IfOk result (λ o. IsNone o → (n : ℕ) → IsPair source.now n close → ⊥) }
{
    match source.partner(close) {
        Some(opening) => {
            if opening < close {
                let arguments = arguments_between(alloc, source, opening, close)?;
                Ok(Some(arguments))
            } else {
                Ok(None)
            }
        }
        None => Ok(None),
    }
}
