//! A part of a file, whose arguments are searched for tokens.

ghost use Rattle.std.specs.Prelude.{◌≡◌, List, IfOk, map};
ghost use Rattle.std.specs.List.{list_any};
ghost use Rattle.rust_trees.specs.Leaves.{Leaf, leaf};
ghost use Rattle.format_calls.specs.Arguments.{tokens_of};
ghost use Rattle.format_calls.specs.Assembly.{has_raw};
ghost use Rattle.format_calls.specs.Marks.{is_variable};
ghost use Rattle.format_calls.specs.Searches.{AreLast, is_target};
ghost use Rattle.format_calls.specs.declared.part.Target.{Target};

use crate::marks::is_mark_of;
use crate::modes::is_text;
use crate::split::Argument;
use rust_trees::{Source, Token};
use std::alloc::{AllocError, Global};
use std::marker::Model;

/// A kind of token that arguments are searched for.
#[derive(Clone, Copy)]
pub enum Target {
    /// `$`, which begins a variable of a macro, or `#`, which does so in `quote!`.
    Variable,
    /// The word `raw`.
    Raw,
}

/// Returns whether arguments are searched for this token.
fn is_target(target: Target, token: &Token<'_>) -> bool
    ensures { result ≡ is_target target (leaf token.now) }
{
    match target {
        Target::Variable => is_mark_of(token, b'$') || is_mark_of(token, b'#'),
        Target::Raw => is_text(token, "raw"),
    }
}

/// Returns whether one of these tokens is wanted.
fn has_target(tokens: &[Token<'_>], target: Target) -> bool
    ensures { result ≡ list_any (is_target target) (map leaf tokens.now) }
{
    for token in tokens {
        if is_target(target, token) {
            return true;
        }
    }
    false
}

/// Returns for each number of tokens from the first one on how many of them end with the last one
/// that is wanted, or nothing if none is. Returns `Err` if an allocation fails.
fn last_targets(
    alloc: Global,
    tokens: &[Token<'_>],
    target: Target,
) -> Result<Vec<usize>, AllocError>
    ensures { IfOk result (λ v. AreLast target (map leaf tokens.now) v.items) }
{
    let mut counts = Vec::new(alloc);
    if !has_target(tokens, target) {
        return Ok(counts);
    }
    let mut last = 0;
    counts.push(last)?;
    for (index, token) in tokens.iter().enumerate() {
        if is_target(target, token) {
            last = index + 1;
        }
        counts.push(last)?;
    }
    Ok(counts)
}

/// Returns whether one of the tokens of an argument is wanted, where `last_targets` are the numbers
/// that are returned for them.
fn holds_target(last_targets: &[usize], argument: &Argument) -> bool
    ensures { (target : Target) (xs : List Leaf) → AreLast target xs last_targets.now
        → result ≡ list_any (is_target target) (tokens_of xs argument.now) }
{
    let count = last_targets.len().saturating_sub(1);
    match last_targets.get(argument.end.min(count)) {
        Some(last) => argument.start < *last,
        None => false,
    }
}

/// A part of a file, whose arguments are searched in a time that does not grow with them. A
/// contract sees the tokens.
#[derive(Drop)]
pub struct Part<'a> {
    source: Source<'a>,
    variables: Vec<usize>,
    raws: Vec<usize>,
}

impl<'a> Model for Part<'a> {
    ghost use Rattle.std.specs.Prelude.{List};
    ghost use Rattle.rust_trees.specs.Leaves.{Leaf};
    ghost use Rattle.format_calls.specs.Searches.{AreLast};
    ghost use Rattle.format_calls.specs.declared.part.Target.TheVariants.{Raw, Variable};

    ghost Value = { List Leaf };

    ghost view = { λ p. p.source };

    ghost invariant = { λ p. AreLast Variable p.source p.variables.items
        × AreLast Raw p.source p.raws.items };
}

impl<'a> Part<'a> {
    /// Reads the tokens of a part. Returns `Err` if an allocation fails.
    pub fn new(alloc: Global, source: Source<'a>) -> Result<Self, AllocError>
        ensures { IfOk result (λ p. p ≡ source.entry) }
    {
        let variables = last_targets(alloc, source.tokens(), Target::Variable)?;
        let raws = last_targets(alloc, source.tokens(), Target::Raw)?;
        Ok(Part {
            source,
            variables,
            raws,
        })
    }

    /// Returns the tokens with their pairs of delimiters.
    pub fn source(&self) -> &Source<'a>
        ensures { result.now ≡ self.now }
    {
        &self.source
    }

    /// Returns the tokens.
    pub fn tokens(&self) -> &[Token<'a>]
        ensures { map leaf result.now ≡ self.now }
    {
        self.source.tokens()
    }

    /// Returns whether a variable of a macro stands in an argument.
    pub fn has_variable(&self, argument: &Argument) -> bool
        ensures { result ≡ list_any is_variable (tokens_of self.now argument.now) }
    {
        holds_target(&self.variables, argument)
    }

    /// Returns whether the word `raw` stands in an argument.
    pub fn has_raw(&self, argument: &Argument) -> bool
        ensures { result ≡ has_raw (tokens_of self.now argument.now) }
    {
        holds_target(&self.raws, argument)
    }
}
