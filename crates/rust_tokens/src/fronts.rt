//! Fronts of texts that read as the same tokens before each word.

ghost use Rattle.std.specs.Prelude.{◌≡◌, ◌↔◌, IsTrue, chars};
ghost use Rattle.rust_tokens.specs.Fronts.{EndsWithBarrier, is_barrier};
ghost use Rattle.rust_tokens.specs.Runs.{first_passes, is_id_start};

use crate::texts::{Class, is_id_start, split_first};

/// Returns whether the character stands in no word and no number, and opens no literal.
fn is_barrier(c: char) -> bool
    ensures { result ≡ is_barrier c }
{
    !(c == '#'
        || c == '"'
        || c == '\''
        || c == '.'
        || c == '+'
        || c == '-'
        || Class::Continue.passes(c))
}

/// Returns whether the text ends with a barrier: a character that stands in no word and no number,
/// and opens no literal.
pub fn ends_with_barrier(text: &str) -> bool
    ensures { IsTrue result ↔ EndsWithBarrier (chars text.now) }
{
    match text.chars().next_back() {
        Some(c) => is_barrier(c),
        None => false,
    }
}

/// Returns whether the text begins with a word.
pub fn begins_with_word(text: &str) -> bool
    ensures { result ≡ first_passes is_id_start (chars text.now) }
{
    match split_first(text) {
        Some((c, _)) => is_id_start(c),
        None => false,
    }
}
