//! The partner of each delimiter, and the place where the tokens break if they are no forest.

ghost use Rattle.std.specs.Prelude.{◌≡◌, ◌++◌, [], ◌∷◌, IfOk, IsTrue, List, map};
ghost use Rattle.rust_trees.specs.Breaks.{Breaks};
ghost use Rattle.rust_trees.specs.Leaves.{Leaf, leaf, side};
ghost use Rattle.rust_trees.specs.Matching.{HasOpen, IsMatched};

use crate::leaves::Token;
use crate::sides::{Delimiter, Side, is_same};
use std::alloc::{AllocError, Global};

/// The place where tokens that are no forest break: the index of a token.
#[derive(Clone, Copy)]
pub enum DelimiterBreak {
    /// A delimiter that is not closed: the last of these.
    Unclosed(usize),
    /// A closing delimiter where nothing is to be closed, or a delimiter of another kind is.
    Unexpected(usize),
}

/// A delimiter that is not closed yet.
#[derive(Clone, Copy)]
pub struct Opening {
    /// The position of the token: its index, or the byte offset at which it starts.
    pub position: usize,
    /// The kind.
    pub delimiter: Delimiter,
}

/// The pairs of delimiters in the tokens so far.
#[derive(Drop)]
pub struct Matching {
    /// The index of the partner of each token.
    pub partners: Vec<Option<usize>>,
    /// The delimiters that may still be closed.
    pub openings: Vec<Opening>,
    /// The first closing delimiter that nothing allows.
    pub unexpected_index: Option<usize>,
}

/// Adds a closing delimiter. Returns `Err` if an allocation fails.
fn close(matching: &mut Matching, delimiter: Delimiter) -> Result<(), AllocError>
    requires { (w : List Leaf) × IsMatched w matching.old }
    ensures { IfOk result (λ _. (w : List Leaf) (x : Leaf) → IsMatched w matching.old
        → side x ≡ Side.Closes delimiter → IsMatched (w ++ x ∷ []) matching.new) }
{
    let index = matching.partners.len();
    if let Some(top) = matching.openings.pop() {
        if is_same(top.delimiter, delimiter) {
            matching.partners[top.position] = Some(index);
            matching.partners.push(Some(top.position))?;
            return Ok(());
        }
    }
    matching.openings.clear();
    matching.unexpected_index = matching.unexpected_index.or(Some(index));
    matching.partners.push(None)?;
    Ok(())
}

/// Adds a token. Returns `Err` if an allocation fails.
pub fn add(matching: &mut Matching, token: &Token<'_>) -> Result<(), AllocError>
    requires { (w : List Leaf) × IsMatched w matching.old }
    ensures { IfOk result (λ _. (w : List Leaf) → IsMatched w matching.old
        → IsMatched (w ++ leaf token.now ∷ []) matching.new) }
{
    match token.side() {
        Side::Neither => matching.partners.push(None)?,
        Side::Opens(delimiter) => {
            let position = matching.partners.len();
            matching.openings.push(Opening {
                position,
                delimiter,
            })?;
            matching.partners.push(None)?;
        }
        Side::Closes(delimiter) => close(matching, delimiter)?,
    }
    Ok(())
}

/// Returns whether no delimiter may still be closed.
pub fn is_closed(matching: &Matching) -> bool
    ensures { IsTrue result → matching.now.openings.items ≡ [] }
{
    matching.openings.is_empty()
}

/// Returns the pairs of delimiters in these tokens. Returns `Err` if an allocation fails.
pub fn match_delimiters(alloc: Global, tokens: &[Token<'_>]) -> Result<Matching, AllocError>
    ensures { IfOk result (λ m. IsMatched (map leaf tokens.now) m) }
{
    let mut matching = Matching {
        partners: Vec::new(alloc),
        openings: Vec::new(alloc),
        unexpected_index: None,
    };
    for token in tokens {
        add(&mut matching, token)?;
    }
    Ok(matching)
}

/// Returns where the tokens break, or `None` if they are a forest.
pub fn break_of(
    unexpected_index: Option<usize>,
    mut openings: Vec<Opening>,
) -> Option<DelimiterBreak>
    ensures { (w : List Leaf) → HasOpen w openings.items unexpected_index → Breaks w result }
{
    match unexpected_index {
        Some(index) => Some(DelimiterBreak::Unexpected(index)),
        None => match openings.pop() {
            Some(opening) => Some(DelimiterBreak::Unclosed(opening.position)),
            None => None,
        },
    }
}
