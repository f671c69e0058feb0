//! The left sides of arms.

ghost use Rattle.std.specs.Prelude.{◌≡◌, ◌<◌, ◌≤◌, ℕ, IfSome, IsNone, IsTrue, length, map};
ghost use Rattle.rust_trees.specs.Leaves.{leaf};
ghost use Rattle.macro_owners.specs.Lefts.{IsLeft, is_argument, is_kind, is_rest};

use crate::indexed_words::{is_name, is_star, is_written};
use format_calls::is_mark;
use rust_trees::Token;

/// Returns whether a token says that a variable is an argument.
fn is_kind(tokens: &[Token<'_>], index: usize) -> bool
    ensures { result ≡ is_kind (map leaf tokens.now) index }
{
    is_written(tokens, index, "expr")
        || is_written(tokens, index, "ident")
        || is_written(tokens, index, "literal")
}

/// Returns whether a token begins a variable that is an argument, and the comma after it.
fn is_argument(tokens: &[Token<'_>], index: usize) -> bool
    requires { index ≤ length tokens.now }
    ensures value { result ≡ is_argument (map leaf tokens.now) index }
    ensures within { IsTrue result → index < length tokens.now }
{
    is_mark(tokens, index, b'$')
        && is_name(tokens, index + 1)
        && is_mark(tokens, index + 2, b':')
        && is_kind(tokens, index + 3)
        && is_mark(tokens, index + 4, b',')
}

/// Returns whether a token begins a variable that takes all further tokens.
fn is_rest(tokens: &[Token<'_>], index: usize) -> bool
    requires { index ≤ length tokens.now }
    ensures { result ≡ is_rest (map leaf tokens.now) index }
{
    is_mark(tokens, index, b'$')
        && is_mark(tokens, index + 1, b'(')
        && is_mark(tokens, index + 2, b'$')
        && is_name(tokens, index + 3)
        && is_mark(tokens, index + 4, b':')
        && is_written(tokens, index + 5, "tt")
        && is_mark(tokens, index + 6, b')')
        && is_star(tokens, index + 7)
}

/// Returns how many arguments a left side takes before all further tokens, or `None` if it is not
/// of this form. It starts at one token and ends before another.
pub fn argument_count(tokens: &[Token<'_>], from: usize, to: usize) -> Option<usize>
    requires { (from ≤ to) × (to ≤ length tokens.now) }
    ensures some { IfSome result (λ k. IsLeft (map leaf tokens.now) from k to) }
    ensures none { IsNone result → (k : ℕ) → IsLeft (map leaf tokens.now) from k to → ⊥ }
{
    let mut count = 0;
    let mut index = from;
    while index < to && is_argument(tokens, index) {
        count += 1;
        index += 5;
    }
    if index < to && to - index == 8 && is_rest(tokens, index) {
        Some(count)
    } else {
        None
    }
}
