//! A file as token trees.

ghost use Rattle.std.specs.Prelude.{◌≡◌, ◌≤◌, ◌++◌, ◌⊎◌, ℕ, [], IfOk, IfSome, List, Some, chars};
ghost use Rattle.std.specs.Prelude.{length, map};
ghost use Rattle.rust_tokens.specs.Files.{ReadsFile};
ghost use Rattle.rust_tokens.specs.Tokens.{Lexeme};
ghost use Rattle.rust_trees.specs.Breaks.{Breaks};
ghost use Rattle.rust_trees.specs.Forests.{ArePartners, IsGroup};
ghost use Rattle.rust_trees.specs.Leaves.{AreLeft, Leaf, leaf, leaves};
ghost use Rattle.rust_trees.specs.Matching.{IsMatched};
ghost use Rattle.rust_trees.specs.Sources.{HasPairs};

use crate::leaves::{Token, Tokens, leaves};
use crate::matching::{DelimiterBreak, Matching, add, break_of, is_closed, match_delimiters};
use crate::sides::is_closing;
use std::alloc::{AllocError, Global};
use std::marker::Model;

/// The tokens of a file with the pairs of delimiters among them. A contract sees the tokens.
#[derive(Drop)]
pub struct Source<'a> {
    tokens: Vec<Token<'a>>,
    partners: Vec<Option<usize>>,
    first_break: Option<DelimiterBreak>,
}

impl<'a> Model for Source<'a> {
    ghost Value = { List Leaf };

    ghost view = { λ s. map leaf s.tokens.items };

    ghost invariant = { λ s. HasPairs (map leaf s.tokens.items) s.partners.items s.first_break };
}

/// Returns tokens with the pairs that were found among them.
fn source_of<'a>(tokens: Vec<Token<'a>>, matching: Matching) -> Source<'a>
    requires { IsMatched (map leaf tokens.items) matching }
    ensures { result ≡ map leaf tokens.entry.items }
{
    let first_break = break_of(matching.unexpected_index, matching.openings);
    Source {
        tokens,
        partners: matching.partners,
        first_break,
    }
}

impl<'a> Source<'a> {
    /// Reads a file. Returns `Err` if an allocation fails.
    pub fn new(alloc: Global, text: &'a str) -> Result<Self, AllocError>
        ensures { IfOk result (λ s. (xs : List Lexeme) × ReadsFile (chars text.now) xs
            × (s ≡ leaves 0 xs)) }
    {
        let tokens = leaves(alloc, text)?;
        let matching = match_delimiters(alloc, &tokens)?;
        Ok(source_of(tokens, matching))
    }

    /// Reads the tokens of a file after these, up to the closing delimiter that closes the last
    /// open one of them, or to the end of the file if there is none. Returns all these tokens.
    /// Returns `Err` if an allocation fails; the tokens that were read are then left out.
    pub fn read_group(
        alloc: Global,
        front: &[Token<'a>],
        rest: &mut Tokens<'a>,
    ) -> Result<Self, AllocError>
        ensures file { rest.new.whole ≡ rest.old.whole }
        ensures fewer { length rest.new.rest ≤ length rest.old.rest }
        ensures joins { IfOk result (λ s. (more : List Leaf) × (s ≡ map leaf front.now ++ more)
            × ((ls : List Leaf) → AreLeft rest.new ls → AreLeft rest.old (more ++ ls))) }
        ensures whole { IfOk result (λ s. AreLeft rest.new [] ⊎ IsGroup s) }
    {
        let mut tokens = Vec::new(alloc);
        tokens.extend_from_slice(front)?;
        let mut matching = match_delimiters(alloc, front)?;
        while let Some(token) = rest.next() {
            add(&mut matching, &token)?;
            tokens.push(token)?;
            if is_closing(token.side()) && is_closed(&matching) {
                return Ok(source_of(tokens, matching));
            }
        }
        Ok(source_of(tokens, matching))
    }

    /// Returns the tokens: no white space, and no comment that has its end.
    pub fn tokens(&self) -> &[Token<'a>]
        ensures { map leaf result.now ≡ self.now }
    {
        &self.tokens
    }

    /// Returns the index of the partner of a delimiter, or `None` if the token has none.
    pub fn partner(&self, index: usize) -> Option<usize>
        ensures is_partner { IfSome result (λ j. ArePartners self.now index j) }
        ensures each { (j : ℕ) → ArePartners self.now index j → result ≡ Some j }
    {
        if index < self.partners.len() {
            self.partners[index]
        } else {
            None
        }
    }

    /// Returns the place where the tokens break, or `None` if they are a forest.
    pub fn first_break(&self) -> Option<DelimiterBreak>
        ensures { Breaks self.now result }
    {
        self.first_break
    }
}
