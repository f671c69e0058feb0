//! The number of steps that a cursor has made, for contracts alone: it costs nothing when the
//! program runs.

ghost use Rattle.std.specs.Prelude.{◌≡◌, ℕ, ◌+◌, ◌++◌, chars, length};
ghost use Rattle.rustc_parse_format.specs.Characters.{Text, after_first};
ghost use Rattle.std.specs.Borrow.{ftrue};

use crate::characters::{first, text_before};
use std::marker::Model;

/// A number that only contracts see. It has no size at run time, and only the two functions below
/// create one.
#[derive(Drop)]
pub struct Steps {
    pub ghost number: { ℕ },
}

impl Model for Steps {
    ghost also_owns = { λ _. ftrue };
}

impl Steps {
    /// Returns the number 0.
    pub(super) fn start() -> Steps
        ensures { result.number ≡ 0 }
    {
        Steps {}
    }

    /// Returns the sum of the two numbers.
    pub(super) fn sum(_earlier: &Steps, _count: &u64) -> Steps
        ensures { result.number ≡ _earlier.now.number + _count.now }
    {
        Steps {}
    }
}

/// The number of characters that a cursor has passed, and the number that were left when it last
/// went back.
#[derive(Drop)]
pub struct Tally {
    pass_count: Steps,
    left_count: Steps,
}

impl Model for Tally {
    ghost use Rattle.rustc_parse_format.specs.CallStates.{StepCounts};

    ghost Value = { StepCounts };

    ghost view = { λ t. record {
      pass_count = t.pass_count.number;
      left_count = t.left_count.number;
    } };
}

impl Tally {
    /// Returns the tally of a cursor at the start of `text` that has passed no characters.
    #[inline(always)]
    pub(super) fn new(text: &str) -> Tally
        ensures { result ≡ record { pass_count = 0; left_count = length (chars text.now) } }
    {
        Tally {
            pass_count: Steps::start(),
            left_count: Steps::sum(&Steps::start(), &character_count(text)),
        }
    }

    /// Counts `count` more characters as passed.
    #[inline(always)]
    pub(super) fn pass(&mut self, count: u64)
        ensures { self.new ≡ record self.old { pass_count = self.old.pass_count + count } }
    {
        self.pass_count = Steps::sum(&self.pass_count, &count);
    }

    /// Records that the cursor goes back from the position at which `rest` is left.
    #[inline(always)]
    pub(super) fn rewind(&mut self, rest: &str)
        ensures { self.new ≡ record self.old { left_count = length (chars rest.now) } }
    {
        self.left_count = Steps::sum(&Steps::start(), &character_count(rest));
    }

    /// Returns a copy of the tally.
    #[inline(always)]
    pub(super) fn copy(&self) -> Tally
        ensures { result ≡ self.now }
    {
        Tally {
            pass_count: Steps::sum(&self.pass_count, &0),
            left_count: Steps::sum(&self.left_count, &0),
        }
    }
}

/// Returns the number of characters of a text, which is the number of bytes that begin one. Only
/// the count of steps needs it, so the compiler leaves it out.
#[inline(always)]
fn character_count(text: &str) -> u64
    ensures { result ≡ length (chars text.now) }
{
    let bytes = text.as_bytes();
    let mut count = 0;
    for i in 0..bytes.len() {
        if bytes[i] < 128 || bytes[i] >= 192 {
            count += 1;
        }
    }
    count
}

/// Returns the number of characters of `text` before its suffix `rest`.
#[inline(always)]
pub(super) fn count_before(text: &str, rest: &str) -> u64
    requires { (u : Text) × (chars text.now ≡ u ++ chars rest.now) }
    ensures { result + length (chars rest.now) ≡ length (chars text.now) }
{
    character_count(text_before(text, rest))
}

/// Returns the number of characters that a move past the next one passes: 1, or 0 if there is none.
#[inline(always)]
pub(super) fn count_next(text: &str) -> u64
    ensures { result + length (after_first (chars text.now)) ≡ length (chars text.now) }
{
    if first(text).is_some() { 1 } else { 0 }
}
