//! The macros that a file defines, and of which it shows that its calls of their names are theirs.

ghost use Rattle.std.specs.Prelude.{◌≡◌, ◌<◌, ◌≤◌, ◌+◌, ℕ, Contains, IfOk, IfSome, IsFalse};
ghost use Rattle.std.specs.Prelude.{IsTrue, List, Some, length, map};
ghost use Rattle.rust_trees.specs.Forests.{IsPair};
ghost use Rattle.rust_trees.specs.Leaves.{leaf};
ghost use Rattle.format_calls.specs.Rows.{Entry, entry};
ghost use Rattle.format_calls.specs.Calls.{IsCall};
ghost use Rattle.format_calls.specs.declared.listing.Call.{Call as CallValue};
ghost use Rattle.format_calls.specs.declared.table.Row.{Row as RowValue};
ghost use Rattle.macro_owners.specs.Given.{AreGiven, given_name, is_definition};
ghost use Rattle.macro_owners.specs.Own.{HasOwn, IsInSight, IsKnown, IsOwn, hides, is_call_of};
ghost use Rattle.macro_owners.specs.Own.{is_owner, is_plain, is_same};

use crate::arms::rule_of_arms;
use crate::given::Given;
use crate::indexed_words::{is_same_word, is_written};
use format_calls::{
    Call, Row, Rule, Table, calls, closing_token, is_mark, is_standard, token_at, word,
};
use rust_trees::{Source, Token};
use std::alloc::{AllocError, Global};

/// Returns whether a token begins a call of a macro that has another token as its name.
fn is_call_of(tokens: &[Token<'_>], name: usize, index: usize) -> bool
    requires { index ≤ length tokens.now }
    ensures { result ≡ is_call_of (map leaf tokens.now) name index }
{
    is_mark(tokens, index + 1, b'!') && is_same_word(tokens, index, name)
}

/// Returns whether a token is the name of a crate whose macros are known.
fn is_owner(tokens: &[Token<'_>], index: usize) -> bool
    ensures { result ≡ is_owner (map leaf tokens.now) index }
{
    is_written(tokens, index, "std")
        || is_written(tokens, index, "core")
        || is_written(tokens, index, "alloc")
        || is_written(tokens, index, "log")
        || is_written(tokens, index, "tracing")
        || is_written(tokens, index, "slog")
        || is_written(tokens, index, "anyhow")
        || is_written(tokens, index, "eyre")
}

/// Returns whether no other name that a file gives to a macro is the same word as one of them.
fn is_alone(tokens: &[Token<'_>], names: &[Given], name: usize) -> bool
    requires { (cs : List CallValue) × AreGiven cs (map leaf tokens.now) 0 names.now }
    ensures { IsTrue result → (i j : ℕ) → given_name (map leaf tokens.now) i ≡ Some j
        → IsTrue (is_same (map leaf tokens.now) j name) → j ≡ name }
{
    for given in names {
        if given.name != name && is_same_word(tokens, given.name, name) {
            return false;
        }
    }
    true
}

/// Returns whether a token is none of the names of macros that a file defines.
fn is_undefined(tokens: &[Token<'_>], names: &[Given], name: usize) -> bool
    requires { (cs : List CallValue) × AreGiven cs (map leaf tokens.now) 0 names.now }
    ensures { IsTrue result → (i : ℕ) → IsTrue (is_definition (map leaf tokens.now) i)
        → IsFalse (is_same (map leaf tokens.now) (i + 2) name) }
{
    for given in names {
        let is_definition = is_mark(tokens, given.name.saturating_sub(1), b'!');
        if is_definition && is_same_word(tokens, given.name, name) {
            return false;
        }
    }
    true
}

/// Returns whether a call is of a known macro, if its name stands between two tokens.
fn is_known(tokens: &[Token<'_>], names: &[Given], name: usize, from: usize, to: usize) -> bool
    requires { (cs : List CallValue) × AreGiven cs (map leaf tokens.now) 0 names.now }
    ensures { IsTrue result → from < name → name < to → IsKnown (map leaf tokens.now) name }
{
    if name <= from || to <= name {
        return true;
    }
    let is_path = is_mark(tokens, name.saturating_sub(1), b':');
    (!is_path || is_owner(tokens, name.saturating_sub(3))) && is_undefined(tokens, names, name)
}

/// Returns whether each of these calls whose name stands between two tokens is of a known macro.
fn are_known(tokens: &[Token<'_>], names: &[Given], calls: &[Call], from: usize, to: usize) -> bool
    requires { (cs : List CallValue) × AreGiven cs (map leaf tokens.now) 0 names.now }
    ensures { IsTrue result → (c : CallValue) → Contains calls.now c → from < c.name → c.name < to
        → IsKnown (map leaf tokens.now) c.name }
{
    for call in calls {
        if !is_known(tokens, names, call.name, from, to) {
            return false;
        }
    }
    true
}

/// Returns whether a token may give a name another macro after its definition.
fn hides(tokens: &[Token<'_>], name: usize, index: usize) -> bool
    requires { index ≤ length tokens.now }
    ensures { result ≡ hides (map leaf tokens.now) name index }
{
    name < index && is_written(tokens, index, "macro_use")
        || is_written(tokens, index, "macro_rules") && is_mark(tokens, index + 2, b'$')
}

/// Returns the token that closes the pair which a token opens, or `end` if that is earlier, or if
/// no pair around the token `index` starts there.
fn inner_end(source: &Source<'_>, opening: usize, index: usize, end: usize) -> usize
    ensures within { result ≤ end }
    ensures inner { (b : ℕ) → IsPair source.now opening b → index < b → result ≤ b }
{
    let Some(close) = source.partner(opening) else {
        return end;
    };
    if index < close && close < end {
        close
    } else {
        end
    }
}

/// Returns the token that closes the innermost delimiters around a token, or the number of tokens.
fn scope_end(source: &Source<'_>, index: usize) -> usize
    ensures { (a b : ℕ) → IsPair source.now a b → a < index → index < b → result ≤ b }
{
    let mut end = source.tokens().len();
    for opening in 0..index {
        end = inner_end(source, opening, index, end);
    }
    end
}

/// Returns whether a token gives the name of a definition no other macro, and begins a call of the
/// name only between two tokens.
fn is_clear(tokens: &[Token<'_>], name: usize, end: usize, index: usize) -> bool
    requires { index ≤ length tokens.now }
    ensures { IsTrue result → IsFalse (hides (map leaf tokens.now) name index)
        × (IsTrue (is_call_of (map leaf tokens.now) name index) → (name < index) × (index < end)) }
{
    if hides(tokens, name, index) {
        return false;
    }
    !is_call_of(tokens, name, index) || name < index && index < end
}

/// Returns whether each call in a file that has this token as its name stands where a definition of
/// the name is in sight, and nothing gives the name another macro.
fn is_in_sight(source: &Source<'_>, name: usize) -> bool
    ensures calls { IsTrue result → (i : ℕ) → IsTrue (is_call_of source.now name i)
        → IsInSight source.now name i }
    ensures shown { IsTrue result → (i : ℕ) → IsFalse (hides source.now name i) }
{
    let tokens = source.tokens();
    let end = scope_end(source, name);
    for index in 0..tokens.len() {
        if !is_clear(tokens, name, end, index) {
            return false;
        }
    }
    true
}

/// Returns the rule of the macro that has one of the names which a file gives, where these are
/// calls of known macros, or `None` if the file does not show that its calls are of that macro.
fn own_rule(source: &Source<'_>, names: &[Given], calls: &[Call], given: Given) -> Option<Rule>
    requires given { (cs : List CallValue) × AreGiven cs source.now 0 names.now }
    requires is_one { Contains names.now given }
    requires within { given.name < length source.now }
    ensures { IfSome result (λ r. IsOwn calls.now source.now given.name r) }
{
    let tokens = source.tokens();
    if given.rule.is_none() {
        return None;
    }
    let opening = given.name + 1;
    let close = closing_token(source, opening)?;
    let rule = rule_of_arms(source, calls, opening, close)?;
    if !are_known(tokens, names, calls, opening, close) {
        return None;
    }
    if !is_alone(tokens, names, given.name) {
        return None;
    }
    if !is_in_sight(source, given.name) {
        return None;
    }
    Some(rule)
}

/// Returns whether a word is no raw one, and is no name of a macro of std with a format string.
fn is_plain(token: &Token<'_>) -> bool
    ensures { result ≡ is_plain (leaf token.now) }
{
    token.text.as_bytes() == word(token) && !is_standard(word(token))
}

/// Returns the row of the macro that has one of the names which a file gives, where these are calls
/// of known macros, or `None` if its calls are not read.
fn own_row<'a>(
    source: &Source<'a>,
    names: &[Given],
    calls: &[Call],
    given: Given,
) -> Option<Row<'a>>
    requires given { (cs : List CallValue) × AreGiven cs source.now 0 names.now }
    requires is_one { Contains names.now given }
    ensures { IfSome result (λ w. (es : List Entry)
        → ((c : CallValue) → Contains calls.now c → IsCall es source.now c)
        → HasOwn es source.now (entry w)) }
{
    let token = token_at(source.tokens(), given.name)?;
    if !is_plain(&token) {
        return None;
    }
    let rule = own_rule(source, names, calls, given)?;
    Some(Row {
        name: token.text,
        rule,
    })
}

/// Returns the macros of a file whose calls it shows to be theirs, with the rules by which these
/// are read, where it gives these names to macros and the table has known macros. Returns `Err` if
/// an allocation fails.
pub fn own_rows<'a>(
    alloc: Global,
    source: &Source<'a>,
    names: &[Given],
    table: &Table<'_>,
) -> Result<Vec<Row<'a>>, AllocError>
    requires { (cs : List CallValue) × AreGiven cs source.now 0 names.now }
    ensures { IfOk result (λ v. (w : RowValue) → Contains v.items w
        → HasOwn (map entry table.now.rows.items) source.now (entry w)) }
{
    let calls = calls(alloc, source, table)?;
    let mut rows = Vec::new(alloc);
    for given in names {
        if let Some(row) = own_row(source, names, &calls, *given) {
            rows.push(row)?;
        }
    }
    Ok(rows)
}
