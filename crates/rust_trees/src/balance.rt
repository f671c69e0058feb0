//! Whether tokens are a forest, decided as they are read one after the other.

ghost use Rattle.std.specs.Prelude.{◌≡◌, ◌++◌, ◌∷◌, [], List, None, OnOk, map, true};
ghost use Rattle.rust_trees.specs.Balances.{BreaksAt, GoesOn, IsBalanced};
ghost use Rattle.rust_trees.specs.Leaves.{Leaf, leaf, side};
ghost use Rattle.rust_trees.specs.declared.sides.Side.TheVariants.{Closes};

use crate::leaves::Token;
use crate::matching::Opening;
use crate::sides::{Delimiter, Side, is_same};
use std::alloc::{AllocError, Global};

/// In which way tokens break.
#[derive(Clone, Copy)]
pub enum BreakKind {
    /// A delimiter is not closed: the last of these.
    UnclosedDelimiter,
    /// A closing delimiter stands where nothing is to be closed, or another kind of delimiter.
    UnexpectedDelimiter,
    /// A token lacks its end.
    UnterminatedToken,
}

/// Where tokens break.
#[derive(Clone, Copy)]
pub struct FileBreak {
    /// In which way.
    pub kind: BreakKind,
    /// The byte offset where the token starts.
    pub start: usize,
}

/// The tokens so far, as far as it matters to whether they break.
#[derive(Drop)]
pub struct Balance {
    /// The delimiters that may still be closed, each with the byte offset where it starts.
    openings: Vec<Opening>,
    /// Where the tokens break already.
    first_break: Option<FileBreak>,
}

impl Balance {
    /// Returns that of no tokens. Does not allocate.
    pub fn new(alloc: Global) -> Balance
        ensures { IsBalanced [] result }
    {
        Balance {
            openings: Vec::new(alloc),
            first_break: None,
        }
    }

    /// Adds a closing delimiter to tokens that do not break.
    fn close(&mut self, delimiter: Delimiter, start: usize)
        ensures { (w : List Leaf) (x : Leaf) → GoesOn w self.old.openings.items
            → self.old.first_break ≡ None → x.is_ended ≡ true → side x ≡ Closes delimiter
            → start ≡ x.start → IsBalanced (w ++ x ∷ []) self.new }
    {
        if let Some(top) = self.openings.pop() {
            if is_same(top.delimiter, delimiter) {
                return;
            }
        }
        self.first_break = Some(FileBreak {
            kind: BreakKind::UnexpectedDelimiter,
            start,
        });
    }

    /// Adds a token. Returns `Err` if an allocation fails.
    pub fn add(&mut self, token: &Token<'_>) -> Result<(), AllocError>
        ensures { OnOk result ((w : List Leaf) → IsBalanced w self.old
            → IsBalanced (w ++ leaf token.now ∷ []) self.new) }
    {
        if self.first_break.is_some() {
            return Ok(());
        }
        if !token.is_ended {
            self.first_break = Some(FileBreak {
                kind: BreakKind::UnterminatedToken,
                start: token.start,
            });
            return Ok(());
        }
        match token.side() {
            Side::Neither => {}
            Side::Opens(delimiter) => self.openings.push(Opening {
                position: token.start,
                delimiter,
            })?,
            Side::Closes(delimiter) => self.close(delimiter, token.start),
        }
        Ok(())
    }

    /// Adds tokens, one after the other. Returns `Err` if an allocation fails.
    pub fn add_all(&mut self, tokens: &[Token<'_>]) -> Result<(), AllocError>
        ensures { OnOk result ((w : List Leaf) → IsBalanced w self.old
            → IsBalanced (w ++ map leaf tokens.now) self.new) }
    {
        for token in tokens {
            self.add(token)?;
        }
        Ok(())
    }

    /// Returns where all the tokens break, or `None` if they are a forest.
    pub fn first_break(mut self) -> Option<FileBreak>
        ensures { (w : List Leaf) → IsBalanced w self → BreaksAt w result }
    {
        if self.first_break.is_some() {
            return self.first_break;
        }
        match self.openings.pop() {
            Some(opening) => Some(FileBreak {
                kind: BreakKind::UnclosedDelimiter,
                start: opening.position,
            }),
            None => None,
        }
    }
}
