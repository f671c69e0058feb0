//! The texts between the parts of a file that have calls, which read as the same tokens in another
//! file.

ghost use Rattle.std.specs.Prelude.{◌≡◌, ◌↔◌, ◌+◌, ◌-◌, ◌++◌, ◌∷◌, ℕ, [], IfOk, IfSome, IsSome};
ghost use Rattle.std.specs.Prelude.{IsTrue, List, OnErr, OnOk, chars, length, map};
ghost use Rattle.std.specs.List.{list_all};
ghost use Rattle.std.specs.Str.{IsUtf8};
ghost use Rattle.rust_tokens.specs.Fronts.{EndsWithBarrier};
ghost use Rattle.rust_tokens.specs.Tokens.{Lexeme};
ghost use Rattle.rust_trees.specs.Balances.{AreEnded};
ghost use Rattle.rust_trees.specs.Forests.{IsForest};
ghost use Rattle.rust_trees.specs.Leaves.{AreLeft, Leaf, leaf, leaves};
ghost use Rattle.format_calls.specs.GapTexts.{AreKnown};
ghost use Rattle.format_calls.specs.Gaps.{BeginsCall, IsClear, IsGapText};
ghost use Rattle.format_calls.specs.Parts.{IsPart};
ghost use Rattle.format_calls.specs.Rows.{Entry, entry};

use crate::parts::opens_call;
use crate::table::Table;
use rust_tokens::ends_with_barrier;
use rust_trees::{Source, Token, Tokens};
use std::alloc::{AllocError, Global};

/// Returns the text before a part that begins in the rest of a file, which starts at this offset.
/// Returns `None` if the text may read as other tokens before another part, or if the part is no
/// forest.
fn gap_before<'a>(rest: &'a str, offset: usize, part: &Source<'a>) -> Option<&'a str>
    ensures forest { IfSome result (λ _. IsForest part.now) }
    ensures gap { IfSome result (λ g. (es : List Entry) (whole : List ℕ) (gap left : List Leaf)
        → offset ≡ length whole - length rest.now
        → AreLeft (record { whole = whole; rest = rest.now }) (gap ++ (part.now ++ left))
        → IsClear es gap → BeginsCall es part.now → AreEnded gap
        → (xs : List Lexeme) × IsGapText es g.now xs × (leaves offset xs ≡ gap)) }
    ensures known { (n : Leaf) (ls : List Leaf) (g r : List ℕ) → part.now ≡ n ∷ ls
        → rest.now ≡ g ++ r → IsUtf8 g → n.start ≡ offset + length g
        → IsSome result ↔ (IsForest part.now × EndsWithBarrier (chars g)) }
{
    let Some(name) = part.tokens().first() else {
        return None;
    };
    let Some(gap) = rest.get(..name.start.saturating_sub(offset)) else {
        return None;
    };
    if part.first_break().is_none() && ends_with_barrier(gap) {
        Some(gap)
    } else {
        None
    }
}

/// The texts between the parts of a file that have calls.
#[derive(Drop)]
pub struct Gaps<'a> {
    /// The text before each part.
    pub fronts: Vec<&'a str>,
    /// The text after the last part.
    pub last: &'a str,
    /// Whether all these texts are known to read as the same tokens wherever they stand.
    pub are_known: bool,
}

impl<'a> Gaps<'a> {
    /// Returns the texts of a file of which no part is known yet: this text alone, as the one after
    /// the last part. Does not allocate.
    pub fn new(alloc: Global, last: &'a str) -> Self
        ensures known { (es : List Entry) → AreKnown es result [] }
        ensures are_known { IsTrue result.are_known }
        ensures fronts { result.fronts.items ≡ [] }
        ensures last { result.last.now ≡ last.now }
    {
        Gaps {
            fronts: Vec::new(alloc),
            last,
            are_known: true,
        }
    }

    /// Adds the text before a part that begins in the rest of a file, which starts at this offset.
    /// After a text that may read as other tokens, or a part that is no forest, the texts are no
    /// longer known. Returns `Err` if an allocation fails; nothing is then added.
    pub fn add(&mut self, rest: &'a str, offset: usize, part: &Source<'a>) -> Result<(), AllocError>
        ensures known { OnOk result ((es : List Entry) (whole : List ℕ) (front gap left : List Leaf)
            → offset ≡ length whole - length rest.now
            → AreLeft (record { whole = whole; rest = rest.now }) (gap ++ (part.now ++ left))
            → IsClear es gap → BeginsCall es part.now → AreKnown es self.old front
            → AreKnown es self.new (front ++ (gap ++ part.now))) }
        ensures are_known { OnOk result ((n : Leaf) (ls : List Leaf) (g r : List ℕ)
            → part.now ≡ n ∷ ls → rest.now ≡ g ++ r → IsUtf8 g → n.start ≡ offset + length g
            → IsTrue self.new.are_known
            ↔ (IsTrue self.old.are_known × IsForest part.now × EndsWithBarrier (chars g))) }
        ensures last { self.new.last ≡ self.old.last }
        ensures err { OnErr result ((self.new.fronts.items ≡ self.old.fronts.items)
            × (self.new.are_known ≡ self.old.are_known)) }
    {
        if !self.are_known {
            return Ok(());
        }
        match gap_before(rest, offset, part) {
            Some(gap) => self.fronts.push(gap)?,
            None => self.are_known = false,
        }
        Ok(())
    }

    /// Sets the text after the last part.
    pub fn set_last(&mut self, last: &'a str)
        ensures fronts { self.new.fronts ≡ self.old.fronts }
        ensures known { self.new.are_known ≡ self.old.are_known }
        ensures last { self.new.last.now ≡ last.now }
    {
        self.last = last;
    }
}

/// Returns whether each token has its end.
fn are_ended(tokens: &[Token<'_>]) -> bool
    ensures { result ≡ list_all (λ x. x.is_ended) (map leaf tokens.now) }
{
    for token in tokens {
        if !token.is_ended {
            return false;
        }
    }
    true
}

/// Reads a file up to the end of the next call as `next_part` does, where this text stands before
/// that. Returns `None` if another text does, or the part is no forest or lacks an end. Returns
/// `Err` if an allocation fails. How much of `rest` is left after `None` or `Err` is unspecified.
pub fn next_known_part<'a>(
    alloc: Global,
    rest: &mut Tokens<'a>,
    table: &Table<'_>,
    gap: &str,
) -> Result<Option<Source<'a>>, AllocError>
    ensures file { rest.new.whole ≡ rest.old.whole }
    ensures part { IfOk result (λ o. IfSome o (λ s. (xs : List Lexeme)
        → IsGapText (map entry table.now.rows.items) gap.now xs → (left : List Leaf)
        → AreLeft rest.new left → AreLeft rest.old
        (leaves (length rest.old.whole - length rest.old.rest) xs ++ (s ++ left))
        × IsPart (map entry table.now.rows.items)
        (leaves (length rest.old.whole - length rest.old.rest) xs) s left)) }
    ensures forest { IfOk result (λ o. IfSome o (λ s. IsForest s × AreEnded s)) }
{
    if !rest.skip(gap) {
        return Ok(None);
    }
    let Some(name) = rest.next() else {
        return Ok(None);
    };
    let Some(bang) = rest.next() else {
        return Ok(None);
    };
    let Some(opening) = rest.next() else {
        return Ok(None);
    };
    if !opens_call(&table.rows, &name, &bang, &opening) {
        return Ok(None);
    }
    let tokens = [name, bang, opening];
    let part = Source::read_group(alloc, &tokens, rest)?;
    if part.first_break().is_none() && are_ended(part.tokens()) {
        Ok(Some(part))
    } else {
        Ok(None)
    }
}
