//! Calls of the macros of a table.

ghost use Rattle.std.specs.Prelude.{◌≡◌, ◌<◌, ◌↔◌, Contains, IfOk, IfSome, Some, length, map};
ghost use Rattle.std.specs.Prelude.{slice_get};
ghost use Rattle.rust_trees.specs.Leaves.{leaf};
ghost use Rattle.format_calls.specs.Calls.{IsCall, Rises, rule_of_leaf};
ghost use Rattle.format_calls.specs.Rows.{entry};
ghost use Rattle.format_calls.specs.declared.listing.Call.{Call};

use crate::marks::{is_after, is_mark, is_word, token_at, word};
use crate::table::{Row, Rule, Table, rule_of};
use rust_trees::{Source, Token};
use std::alloc::{AllocError, Global};

/// A call of a macro: a word, `!` and a pair of delimiters.
#[derive(Clone, Copy)]
pub struct Call {
    /// The rule of the macro.
    pub rule: Rule,
    /// The index of the token that is its name. `!` and the opening delimiter follow.
    pub name: usize,
    /// The index of the closing delimiter.
    pub close: usize,
}

/// Returns the rule of a token that is a word of a table, or `None` if it is none.
fn rule_at(tokens: &[Token<'_>], rows: &[Row<'_>], name: usize) -> Option<Rule>
    ensures { result ≡ rule_of_leaf (map entry rows.now) (slice_get (map leaf tokens.now) name) }
{
    match token_at(tokens, name) {
        Some(token) => {
            if is_word(&token) {
                rule_of(rows, word(&token))
            } else {
                None
            }
        }
        None => None,
    }
}

/// Returns the call whose name is this token, or `None` if there is none.
fn call_at(source: &Source<'_>, rows: &[Row<'_>], name: usize) -> Option<Call>
    requires { name < length source.now }
    ensures is_call { IfSome result (λ c. IsCall (map entry rows.now) source.now c) }
    ensures named { IfSome result (λ c. c.name ≡ name) }
    ensures each { (c : Call) → IsCall (map entry rows.now) source.now c → c.name ≡ name
        → result ≡ Some c }
{
    let tokens = source.tokens();
    if !is_mark(tokens, name + 1, b'!') {
        return None;
    }
    if is_after(tokens, name, b'$') {
        return None;
    }
    let Some(rule) = rule_at(tokens, rows, name) else {
        return None;
    };
    let Some(close) = source.partner(name + 2) else {
        return None;
    };
    if close > name + 2 {
        Some(Call { rule, name, close })
    } else {
        None
    }
}

/// Returns the calls of the macros of a table, in the order of their names. Returns `Err` if an
/// allocation fails.
pub fn calls(alloc: Global, source: &Source<'_>, table: &Table<'_>) -> Result<Vec<Call>, AllocError>
    ensures each { IfOk result (λ v. (c : Call) → Contains v.items c
        ↔ IsCall (map entry table.now.rows.items) source.now c) }
    ensures in_order { IfOk result (λ v. Rises 0 v.items (length source.now)) }
{
    let mut calls = Vec::new(alloc);
    for name in 0..source.tokens().len() {
        if let Some(call) = call_at(source, &table.rows, name) {
            calls.push(call)?;
        }
    }
    Ok(calls)
}
