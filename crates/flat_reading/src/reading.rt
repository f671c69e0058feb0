//! How an input is read.

ghost use Rattle.std.specs.Prelude.{◌≡◌, ◌≤◌, IfNone, IfSome, IsFalse, None, Some, chars, length};
ghost use Rattle.rustc_parse_format.specs.LiteralReading.{is_longer};
ghost use Rattle.rustc_parse_format.specs.World.{hashes, quote_offset};
ghost use Rattle.flat_reading.specs.Interface.{asked_state, limit};
ghost use Rattle.flat_reading.specs.Progress.{IsPlain};

use crate::task::Task;
use rustc_parse_format::{ParseMode, Parser};

/// Returns the number of bytes before the text in its literal: its opening quote, and the `r` and
/// the hashes of a raw literal.
pub fn offset_of(style: Option<usize>) -> usize
    requires { hashes style ≤ limit }
    ensures { result ≡ quote_offset style }
{
    match style {
        None => 1,
        Some(hashes) => hashes + 2,
    }
}

/// Returns whether an ordinary literal is not as long as its two quotes and the input, without an
/// appended newline: it may then have escapes.
fn is_longer(input: &str, literal: &str, appended_newline: bool) -> bool
    requires { length input.now ≤ limit }
    ensures { result
        ≡ is_longer (chars input.now) None (Some (chars literal.now)) appended_newline }
{
    let quotes = if appended_newline { 1 } else { 2 };
    literal.len() != input.len() + quotes
}

/// Returns whether the literal is an ordinary one that may have escapes.
fn may_have_escapes(task: &Task<'_>) -> bool
    requires { length task.now.input.now ≤ limit }
    ensures { IsFalse result → IsPlain (asked_state task.now) (quote_offset task.now.style) }
{
    if task.style.is_some() {
        return false;
    }
    match task.snippet {
        Some(literal) => is_longer(task.input, literal, task.appended_newline),
        None => false,
    }
}

/// Returns the mode of a parser, or `None` if byte offsets in the source and in the input differ by
/// a constant. In an ordinary source literal with escapes they do not.
pub fn mode_with_escapes(parser: &Parser<'_>, task: &Task<'_>) -> Option<ParseMode>
    requires { length task.now.input.now ≤ limit }
    ensures plain { parser.now ≡ asked_state task.now
        → IfNone result (IsPlain parser.now (quote_offset task.now.style)) }
    ensures mode { IfSome result (λ m. m ≡ task.now.mode) }
{
    if !parser.is_source_literal() {
        return None;
    }
    if may_have_escapes(task) {
        Some(task.mode)
    } else {
        None
    }
}

/// An input, and how the calls over it are written.
#[derive(Clone, Copy)]
pub struct Reading<'a> {
    pub input: &'a str,
    /// The number of bytes by which the parser's spans are after the byte ranges in the input,
    /// unless the literal may have escapes.
    pub offset: usize,
    /// The mode of the parser, if the literal may have escapes.
    pub escapes: Option<ParseMode>,
}

impl<'a> Reading<'a> {
    ghost use Rattle.std.specs.Prelude.{◌≡◌};
    ghost use Rattle.std.specs.Str.{IsUtf8};

    /// Creates it from its parts.
    #[inline(always)]
    pub fn new(input: &'a str, offset: usize, escapes: Option<ParseMode>) -> Reading<'a>
        ensures utf8 { IsUtf8 result.input.now }
        ensures input { result.input.now ≡ input.now }
        ensures offset { result.offset ≡ offset }
        ensures escapes { result.escapes ≡ escapes }
    {
        Reading {
            input,
            offset,
            escapes,
        }
    }
}
