//! The tokens of a file without white space and comments.

ghost use Rattle.std.specs.Prelude.{◌≡◌, ◌↔◌, ◌<◌, ◌≤◌, ◌-◌, ◌++◌, ◌∷◌, [], IfOk, IfSome};
ghost use Rattle.std.specs.Prelude.{IsFalse, IsNone, IsTrue, List, ℕ, chars, length, map};
ghost use Rattle.rust_tokens.specs.Files.{ReadsFile};
ghost use Rattle.rust_tokens.specs.Fronts.{ReadsBeforeWords};
ghost use Rattle.rust_tokens.specs.Runs.{first_passes, is_id_start};
ghost use Rattle.rust_tokens.specs.Tokens.{Lexeme};
ghost use Rattle.rust_trees.specs.Leaves.{AreLeft, Leaf, is_leaf, leaf, leaves, side};

use crate::sides::{Side, side_of};
use rust_tokens::{Kind, begins_with_word, skip_head, split_first_token};
use std::alloc::{AllocError, Global};
use std::marker::Model;

/// A token of a file.
#[derive(Clone, Copy)]
pub struct Token<'a> {
    /// The kind.
    pub kind: Kind,
    /// Whether it has its end.
    pub is_ended: bool,
    /// Whether it is a literal with a suffix.
    pub has_suffix: bool,
    /// Its text, with its suffix.
    pub text: &'a str,
    /// The byte offset where it starts.
    pub start: usize,
}

impl Token<'_> {
    /// Returns the side of the token among pairs of delimiters.
    pub fn side(&self) -> Side
        ensures { result ≡ side (leaf self.now) }
    {
        side_of(self.kind, self.text)
    }
}

/// Returns whether a token is kept: it is no white space, and a comment only if it lacks its end.
fn is_leaf(kind: Kind, is_ended: bool) -> bool
    ensures { result ≡ is_leaf kind is_ended }
{
    match kind {
        Kind::Whitespace
        | Kind::LineComment
        | Kind::OuterLineDoc
        | Kind::InnerLineDoc
        | Kind::Shebang
        | Kind::ByteOrderMark => false,
        Kind::BlockComment | Kind::OuterBlockDoc | Kind::InnerBlockDoc => !is_ended,
        _ => true,
    }
}

/// Returns the first token of the rest of a text, and the rest after it, or `None` if no token is
/// left.
#[inline(always)]
fn split_first_leaf<'a>(text: &'a str, rest: &'a str) -> Option<(Token<'a>, &'a str)>
    requires { length rest.now ≤ length text.now }
    ensures some { IfSome result (λ t. (ls : List Leaf)
        → AreLeft (record { whole = text.now; rest = t.1.now }) ls
        → AreLeft (record { whole = text.now; rest = rest.now }) (leaf t.0 ∷ ls)) }
    ensures fewer { IfSome result (λ t. length t.1.now < length rest.now) }
    ensures none { IsNone result → AreLeft (record { whole = text.now; rest = rest.now }) [] }
{
    let mut tail = rest;
    while let Some((token, rest_after)) = split_first_token(tail) {
        if is_leaf(token.kind, token.is_ended) {
            let leaf = Token {
                kind: token.kind,
                is_ended: token.is_ended,
                has_suffix: token.suffix_start < token.span.end,
                text: &tail[..token.span.end],
                start: text.len() - tail.len(),
            };
            return Some((leaf, rest_after));
        }
        tail = rest_after;
    }
    None
}

/// The tokens of a file without white space and comments, read one after the other. A contract sees
/// the file and the rest of it.
#[derive(Drop)]
pub struct Tokens<'a> {
    text: &'a str,
    rest: &'a str,
}

impl<'a> Model for Tokens<'a> {
    ghost use Rattle.std.specs.Prelude.{◌≤◌, length};
    ghost use Rattle.rust_trees.specs.Leaves.{Remainder};

    ghost Value = { Remainder };

    ghost view = { λ t. record { whole = t.text.now; rest = t.rest.now } };

    ghost invariant = { λ t. length t.rest.now ≤ length t.text.now };
}

impl<'a> Tokens<'a> {
    /// Returns the tokens of a file.
    pub fn new(text: &'a str) -> Self
        ensures file { result.whole ≡ text.now }
        ensures left { (ls : List Leaf) → AreLeft result ls
            → (xs : List Lexeme) × ReadsFile (chars text.now) xs × (ls ≡ leaves 0 xs) }
    {
        Tokens {
            text,
            rest: skip_head(text),
        }
    }

    /// Returns the next token, or `None` if none is left.
    #[inline(always)]
    pub fn next(&mut self) -> Option<Token<'a>>
        ensures file { self.new.whole ≡ self.old.whole }
        ensures some { IfSome result (λ t. (ls : List Leaf) → AreLeft self.new ls
            → AreLeft self.old (leaf t ∷ ls)) }
        ensures fewer { IfSome result (λ t. length self.new.rest < length self.old.rest) }
        ensures none { IsNone result → AreLeft self.old [] × (self.new ≡ self.old) }
    {
        let Some((token, rest)) = split_first_leaf(self.text, self.rest) else {
            return None;
        };
        self.rest = rest;
        Some(token)
    }

    /// Returns the rest of the file.
    pub fn rest(&self) -> &'a str
        ensures { result.now ≡ self.now.rest }
    {
        self.rest
    }

    /// Passes a front of the rest, if it begins with that and goes on with a word, and returns
    /// whether it does. The front is passed as the tokens that it reads as before each word.
    pub fn skip(&mut self, front: &str) -> bool
        ensures file { self.new.whole ≡ self.old.whole }
        ensures fewer { length self.new.rest ≤ length self.old.rest }
        ensures passed { IsTrue result → (xs : List Lexeme) → ReadsBeforeWords (chars front.now) xs
            → (ls : List Leaf) → AreLeft self.new ls
            → AreLeft self.old (leaves (length self.old.whole - length self.old.rest) xs ++ ls) }
        ensures skipped { IsTrue result ↔ (r : List ℕ) × (self.old.rest ≡ front.now ++ r)
            × IsTrue (first_passes is_id_start (chars r)) }
        ensures kept { IsFalse result → self.new ≡ self.old }
    {
        let Some(rest) = self.rest.strip_prefix(front) else {
            return false;
        };
        if !begins_with_word(rest) {
            return false;
        }
        self.rest = rest;
        true
    }

    /// Returns the next token without reading it, or `None` if none is left.
    pub fn peek(&self) -> Option<Token<'a>>
        ensures some { IfSome result (λ t. (rest : List ℕ) × ((ls : List Leaf)
            → AreLeft (record { whole = self.now.whole; rest = rest }) ls
            → AreLeft self.now (leaf t ∷ ls))) }
        ensures none { IsNone result → AreLeft self.now [] }
    {
        match split_first_leaf(self.text, self.rest) {
            Some((token, _)) => Some(token),
            None => None,
        }
    }
}

/// Returns the tokens of a file without white space and comments. Returns `Err` if an allocation
/// fails.
pub fn leaves(alloc: Global, text: &str) -> Result<Vec<Token<'_>>, AllocError>
    ensures { IfOk result (λ v. (xs : List Lexeme) × ReadsFile (chars text.now) xs
        × (map leaf v.items ≡ leaves 0 xs)) }
{
    let mut rest = Tokens::new(text);
    let mut tokens = Vec::new(alloc);
    while let Some(token) = rest.next() {
        tokens.push(token)?;
    }
    Ok(tokens)
}
