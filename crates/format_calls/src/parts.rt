//! The parts of a file that have calls.

ghost use Rattle.std.specs.Prelude.{◌≡◌, ◌≤◌, ◌<◌, ◌++◌, IfOk, IfSome, IsNone, List, length, map};
ghost use Rattle.std.specs.Prelude.{OnOk, drop, option_map};
ghost use Rattle.rust_trees.specs.Balances.{IsBalanced};
ghost use Rattle.rust_trees.specs.Leaves.{AreLeft, Leaf, leaf};
ghost use Rattle.format_calls.specs.Calls.{IsCall};
ghost use Rattle.format_calls.specs.Gaps.{BeginsCall, IsClear, LacksFronts};
ghost use Rattle.format_calls.specs.Parts.{IsPart, Window as LeafWindow, front_of, next_window};
ghost use Rattle.format_calls.specs.Parts.{opens_call};
ghost use Rattle.format_calls.specs.Parts.{seen_front, seen_window};
ghost use Rattle.format_calls.specs.Rows.{entry};
ghost use Rattle.format_calls.specs.declared.listing.Call.{Call};

use crate::marks::{is_mark_of, is_word, word};
use crate::table::{Row, Table, rule_of};
use rust_trees::{Balance, Source, Token, Tokens, is_opening};
use std::alloc::{AllocError, Global};

/// Returns whether three tokens are a word of a table, `!` and an opening delimiter.
#[inline(always)]
pub fn opens_call(rows: &[Row<'_>], name: &Token<'_>, bang: &Token<'_>, opening: &Token<'_>) -> bool
    ensures { result ≡ opens_call (map entry rows.now) (leaf name.now) (leaf bang.now)
        (leaf opening.now) }
{
    is_mark_of(bang, b'!')
        && is_opening(opening.side())
        && is_word(name)
        && rule_of(rows, word(name)).is_some()
}

/// The last two tokens that were read of a file: `None` where there were fewer.
#[derive(Clone, Copy)]
pub struct Window<'a> {
    /// Whether `$` stands before the first one.
    pub is_after_dollar: bool,
    /// The first one.
    pub name: Option<Token<'a>>,
    /// The second one.
    pub bang: Option<Token<'a>>,
}

/// The first three tokens of a call: a word, `!` and an opening delimiter.
#[derive(Clone, Copy)]
pub struct Front<'a> {
    pub name: Token<'a>,
    pub bang: Token<'a>,
    pub opening: Token<'a>,
}

/// Returns the first three tokens of a call, if the last two tokens and the one after them are
/// these.
fn front_of<'a>(rows: &[Row<'_>], last: Window<'a>, opening: Token<'a>) -> Option<Front<'a>>
    ensures { option_map seen_front result
        ≡ front_of (map entry rows.now) (seen_window last.entry) (leaf opening.entry) }
{
    if last.is_after_dollar {
        return None;
    }
    let Some(name) = last.name else {
        return None;
    };
    let Some(bang) = last.bang else {
        return None;
    };
    if opens_call(rows, &name, &bang, &opening) {
        Some(Front {
            name,
            bang,
            opening,
        })
    } else {
        None
    }
}

/// Returns the last two tokens with one more.
fn next_window<'a>(last: Window<'a>, token: Token<'a>) -> Window<'a>
    ensures { seen_window result ≡ next_window (seen_window last.entry) (leaf token.entry) }
{
    let is_after_dollar = match last.name {
        Some(name) => is_mark_of(&name, b'$'),
        None => last.is_after_dollar,
    };
    Window {
        is_after_dollar,
        name: last.bang,
        bang: Some(token),
    }
}

/// Adds the tokens of a part after the first three. Returns `Err` if an allocation fails.
fn add_after_front(balance: &mut Balance, part: &Source<'_>) -> Result<(), AllocError>
    requires { 3 ≤ length part.now }
    ensures { OnOk result ((w : List Leaf) → IsBalanced w balance.old
        → IsBalanced (w ++ drop 3 part.now) balance.new) }
{
    let tokens = part.tokens();
    balance.add_all(&tokens[3..])?;
    Ok(())
}

/// Reads a file up to the end of the next call of a macro of a table, with the calls that begin
/// within it, and returns its tokens from the name on. Returns `None` at the end of the file if no
/// further call comes, and `Err` if an allocation fails.
///
/// Only these tokens are in memory at a time, where a whole file takes some twenty times its bytes.
/// Where the delimiters of a call do not match, its part ends at the first one that nothing allows,
/// or with the file. All tokens that are read are added to `balance`.
pub fn next_part<'a>(
    alloc: Global,
    rest: &mut Tokens<'a>,
    table: &Table<'_>,
    balance: &mut Balance,
) -> Result<Option<Source<'a>>, AllocError>
    ensures file { rest.new.whole ≡ rest.old.whole }
    ensures fewer { IfOk result (λ o. IfSome o (λ _. length rest.new.rest < length rest.old.rest)) }
    ensures some { IfOk result (λ o. IfSome o (λ s. (gap : List Leaf) × ((left : List Leaf)
        → AreLeft rest.new left → AreLeft rest.old (gap ++ (s ++ left))
        × IsPart (map entry table.now.rows.items) gap s left)
        × ((w : List Leaf) → IsBalanced w balance.old
        → IsBalanced (w ++ (gap ++ s)) balance.new)
        × IsClear (map entry table.now.rows.items) gap
        × BeginsCall (map entry table.now.rows.items) s)) }
    ensures none { IfOk result (λ o. IsNone o → (left : List Leaf) × AreLeft rest.old left
        × ((c : Call) → IsCall (map entry table.now.rows.items) left c → ⊥)
        × ((w : List Leaf) → IsBalanced w balance.old → IsBalanced (w ++ left) balance.new)
        × (w : LeafWindow) × LacksFronts (map entry table.now.rows.items) left w) }
{
    let mut last = Window {
        is_after_dollar: false,
        name: None,
        bang: None,
    };
    while let Some(token) = rest.next() {
        balance.add(&token)?;
        if let Some(front) = front_of(&table.rows, last, token) {
            let tokens = [front.name, front.bang, front.opening];
            let part = Source::read_group(alloc, &tokens, rest)?;
            add_after_front(balance, &part)?;
            return Ok(Some(part));
        }
        last = next_window(last, token);
    }
    Ok(None)
}
