//! The position in a snippet that was last examined, from which the byte offset of the next
//! character in the snippet is computed.
//!
//! Such a snippet is an ordinary literal with escapes, so the byte offset of a character in it is
//! not simply 1 more than in the input:
//!
//! ```text
//! offset        0   4    9  12
//! snippet       "a\n two {x}\n"
//! anchor.rest        two {x}⏎     at offset 4, from where 8 bytes stand for themselves
//! rest                   {x}⏎     5 bytes further on, so at offset 9
//! ```
//!
//! Among the bytes that stand for themselves, the snippet is not examined. Continuations may come
//! after them, and from there on the snippet is read unit by unit.

ghost use Rattle.std.specs.Prelude.{◌≡◌, ◌≢◌, ◌≤◌, ◌<◌, ◌-◌, ◌∷◌, ◌++◌, List, ℕ, IsTrue, chars};
ghost use Rattle.std.specs.Prelude.{codes, drop, is_some, length, true};
ghost use Rattle.std.specs.Str.{is_utf8};
ghost use Rattle.rustc_parse_format.specs.Bytes.{IsLeft};
ghost use Rattle.rustc_parse_format.specs.Characters.{Text, after_first};
ghost use Rattle.rustc_parse_format.specs.Literal.{IsContent};
ghost use Rattle.rustc_parse_format.specs.LiteralUnits.{LiteralUnit, escaped_character};
ghost use Rattle.rustc_parse_format.specs.Views.{pair};
ghost use Rattle.rustc_parse_format.specs.SourceViews.{IsAnchor, IsHere, IsUnescaped, Leads};
ghost use Rattle.rustc_parse_format.specs.SourceViews.{character_width, closed_by_quote, gap};
ghost use Rattle.rustc_parse_format.specs.World.{World, place_at};

use crate::characters::{Class, after_first, first, run_width};
use crate::literal::{Rest, is_newline_escape, read_unit};
use std::ops::Range;

/// The position in a snippet that was last examined.
#[derive(Clone, Copy)]
pub struct Anchor<'input> {
    /// The rest of the input at that position.
    pub(super) rest: &'input str,
    /// The byte offset of that position in the snippet, at which `rest` starts.
    pub offset: usize,
    /// The number of bytes from there on that stand for themselves.
    pub unescaped_len: usize,
}

/// Returns the length in bytes of the first unit of `text`, or 0 if that does not stand for a
/// character or if `text` begins with none.
#[tactic(auto, unfolding(crate::specs::SourceViews::character_width, crate::specs::LiteralUnits::unit_at))]
#[inline(always)]
fn character_width(text: &str) -> usize
    ensures { result ≡ character_width (chars text.now) }
{
    if is_newline_escape(text) {
        return 2;
    }
    match first(text) {
        Some('\\') => {
            let mut rest = Rest::new(text);
            let total = rest.len();
            match read_unit(&mut rest) {
                Some(Some(_)) => total - rest.len(),
                _ => 0,
            }
        }
        Some('"' | '\r') | None => 0,
        Some(c) => c.len_utf8(),
    }
}

/// Returns the length in bytes of the continuations at the start of `text`, or 0 if no character
/// comes after them.
#[inline(always)]
pub fn continuations_width(text: &str) -> usize
    ensures width { (q : Text) (us : List LiteralUnit) → IsContent q us
        → chars text.now ≡ closed_by_quote q → result ≡ gap us }
    ensures inside { result ≤ length text.now }
{
    let mut rest = Rest::new(text);
    if !rest.begins_continuation() {
        return 0;
    }
    let total = rest.len();
    rest.skip_continuations();
    if rest.begins_with('"') {
        0
    } else {
        total - rest.len()
    }
}

/// The byte offsets in a snippet that follow from where a character starts.
#[derive(Clone, Copy)]
struct CharacterEnd {
    /// The byte offset at which the character ends.
    stop: usize,
    /// The byte offset at which the next character starts.
    next: usize,
}

/// Returns the end of the character that starts at the byte offset `at` of a snippet. An appended
/// newline counts as one byte.
#[inline(always)]
fn character_at(snippet: &str, at: usize) -> CharacterEnd
    requires within { at ≤ length snippet.now }
    requires valid { is_utf8 (drop at snippet.now) ≡ true }
    ensures stop { (w : World) (c : ℕ) (rest : Text) → IsHere snippet.now w (c ∷ rest) at
        → result.stop ≡ (place_at w (length (c ∷ rest))).1 }
    ensures after { (w : World) (rest : Text) → IsHere snippet.now w rest at
        → IsHere snippet.now w (after_first rest) result.next }
{
    let text = &snippet[at..];
    let width = character_width(text);
    if width == 0 {
        return CharacterEnd {
            stop: at + 1,
            next: at,
        };
    }
    let stop = at + width;
    CharacterEnd {
        stop,
        next: stop + continuations_width(&text[width..]),
    }
}

/// Returns whether the bytes begin with `\x`, and no LF is where a continuation after that escape
/// would have it.
#[inline(always)]
fn begins_byte_escape(bytes: &[u8]) -> bool
    ensures { IsTrue result → (h : ℕ) × (l : ℕ) × (b : ℕ) × (d : ℕ) × (r : List ℕ)
        × (bytes.now ≡ codes "\\x" ++ h ∷ l ∷ b ∷ d ∷ r) × (d ≢ 10) }
{
    if bytes.len() < 6 || bytes[0] != b'\\' || bytes[1] != b'x' {
        return false;
    }
    bytes[5] != b'\n'
}

/// Returns whether a backslash and this letter are an escape.
#[inline(always)]
fn is_escape_letter(letter: u8) -> bool
    ensures { result ≡ is_some (escaped_character letter) }
{
    matches!(letter, b'n' | b'r' | b't' | b'0' | b'\'' | b'"' | b'\\')
}

/// Returns whether the bytes begin with an escape of a backslash and a letter, and no LF is where a
/// continuation after it would have it.
#[inline(always)]
fn begins_letter_escape(bytes: &[u8]) -> bool
    ensures { IsTrue result → (l : ℕ) × (b : ℕ) × (d : ℕ) × (r : List ℕ)
        × (bytes.now ≡ codes "\\" ++ l ∷ b ∷ d ∷ r) × (d ≢ 10)
        × IsTrue (is_some (escaped_character l)) }
{
    if bytes.len() < 4 || bytes[0] != b'\\' || bytes[3] == b'\n' {
        return false;
    }
    is_escape_letter(bytes[1])
}

/// Returns the byte offset in a snippet at which the character after the one at `at` starts. Most
/// escapes are passed by their first letter, for speed.
#[inline(always)]
fn next_start(snippet: &str, at: usize) -> usize
    requires within { at ≤ length snippet.now }
    requires valid { is_utf8 (drop at snippet.now) ≡ true }
    ensures { (w : World) (rest : Text) → IsHere snippet.now w rest at
        → IsHere snippet.now w (after_first rest) result }
{
    let bytes = snippet.as_bytes();
    if begins_byte_escape(&bytes[at..]) {
        return at + 4;
    }
    if begins_letter_escape(&bytes[at..]) {
        return at + 2;
    }
    character_at(snippet, at).next
}

/// Returns the number of bytes from the byte offset `at` on up to the next backslash, or up to the
/// closing quote if there is none.
#[inline(always)]
fn unescaped_width(snippet: &str, at: usize) -> usize
    requires { at < length snippet.now }
    ensures { IsUnescaped snippet.now at result }
{
    let bytes = snippet.as_bytes();
    // (so it is in a run of escapes)
    if bytes[at] == b'\\' {
        return 0;
    }
    run_width(&bytes[at..bytes.len() - 1], Class::Unescaped)
}

/// Returns the suffix of `text` after this number of bytes, or after fewer if they end inside a
/// character. If that is shorter than `rest`, another suffix of `text`, returns `rest`.
#[inline(always)]
fn after_bytes<'a>(text: &'a str, bytes: usize, rest: &'a str) -> &'a str
    requires { IsLeft text.now rest.now }
    ensures after { IsLeft text.now result.now }
    ensures over { IsLeft result.now rest.now }
    ensures width { length text.now - length result.now ≤ bytes }
{
    if text.len() - rest.len() <= bytes {
        return rest;
    }
    &text[text.floor_char_boundary(bytes)..]
}

impl<'input> Anchor<'input> {
    /// Returns the anchor at the byte offset `offset` of a snippet, at which `rest` starts.
    #[inline(always)]
    pub fn new(snippet: &str, rest: &'input str, offset: usize) -> Anchor<'input>
        requires { (w : World) × IsHere snippet.now w (chars rest.now) offset }
        ensures rest { result.rest.now ≡ rest.now }
        ensures anchor { (w : World) → IsHere snippet.now w (chars rest.now) offset
            → IsAnchor snippet.now w result }
    {
        Anchor {
            rest,
            offset,
            unescaped_len: unescaped_width(snippet, offset),
        }
    }

    /// Skips the bytes that stand for themselves, at most up to `rest`, and the continuations after
    /// them. Returns the rest of the input there, and its byte offset in the snippet.
    #[inline(always)]
    fn after_unescaped(&self, snippet: &str, rest: &'input str) -> (&'input str, usize)
        requires { Leads snippet.now self.now rest.now }
        ensures after { IsLeft result.0.now rest.now }
        ensures shorter { length result.0.now ≤ length self.now.rest.now }
        ensures here { (w : World) → IsAnchor snippet.now w self.now
            → IsHere snippet.now w (chars result.0.now) result.1 }
    {
        if self.unescaped_len == 0 {
            return (self.rest, self.offset);
        }
        let rest_after = after_bytes(self.rest, self.unescaped_len, rest);
        let distance = self.rest.len() - rest_after.len();
        let offset = self.offset + distance;
        if distance == 0 || distance < self.unescaped_len {
            return (rest_after, offset);
        }
        (rest_after, offset + continuations_width(&snippet[offset..]))
    }

    /// Returns the byte offset of `rest` in the snippet, by reading the snippet: in turn, bytes
    /// that stand for themselves, and a unit that does not.
    #[inline(never)]
    fn offset_by_look(&self, snippet: &str, rest: &'input str) -> usize
        requires { Leads snippet.now self.now rest.now }
        ensures { (w : World) → IsAnchor snippet.now w self.now
            → IsHere snippet.now w (chars rest.now) result }
    {
        let mut at = self.after_unescaped(snippet, rest);
        while at.0.len() > rest.len() {
            let next = next_start(snippet, at.1);
            at = Anchor::new(snippet, after_first(at.0), next).after_unescaped(snippet, rest);
        }
        at.1
    }

    /// Returns the byte offset of `rest` in the snippet. Does not read the snippet if all bytes up
    /// to the first one of `rest` stand for themselves.
    #[inline(always)]
    pub fn offset_of(&self, snippet: &str, rest: &'input str) -> usize
        requires { Leads snippet.now self.now rest.now }
        ensures { (w : World) → IsAnchor snippet.now w self.now
            → IsHere snippet.now w (chars rest.now) result }
    {
        let distance = self.rest.len() - rest.len();
        if distance == 0 || distance < self.unescaped_len {
            return self.offset + distance;
        }
        self.offset_by_look(snippet, rest)
    }

    /// Returns the byte offset in the snippet at which the first character of `rest` ends.
    #[inline(never)]
    pub fn stop_of(&self, snippet: &str, rest: &'input str) -> usize
        requires leads { Leads snippet.now self.now rest.now }
        requires some { length rest.now ≡ 0 → ⊥ }
        ensures { (w : World) → IsAnchor snippet.now w self.now
            → result ≡ (place_at w (length (chars rest.now))).1 }
    {
        character_at(snippet, self.offset_of(snippet, rest)).stop
    }

    /// Moves the anchor to `rest`, unless the byte offset of `rest` is known without reading the
    /// snippet.
    #[inline(always)]
    pub fn move_anchor(&mut self, snippet: &str, rest: &'input str)
        requires { Leads snippet.now self.old rest.now }
        ensures after { IsLeft self.new.rest.now rest.now }
        ensures here { (w : World) → IsAnchor snippet.now w self.old
            → IsAnchor snippet.now w self.new }
    {
        let distance = self.rest.len() - rest.len();
        if distance > 0 && distance >= self.unescaped_len {
            *self = Anchor::new(snippet, rest, self.offset_by_look(snippet, rest));
        }
    }

    /// Returns the byte range in the snippet of the first character of `rest`, and the anchor after
    /// it, where `rest_after` starts.
    #[inline(never)]
    fn pass_by_look(
        &self,
        snippet: &str,
        rest: &'input str,
        rest_after: &'input str,
    ) -> (Range<usize>, Anchor<'input>)
        requires leads { Leads snippet.now self.now rest.now }
        requires some { length rest.now ≡ 0 → ⊥ }
        requires rest_after { chars rest_after.now ≡ after_first (chars rest.now) }
        ensures place { (w : World) → IsAnchor snippet.now w self.now
            → pair result.0 ≡ place_at w (length (chars rest.now)) }
        ensures after { result.1.rest.now ≡ rest_after.now }
        ensures here { (w : World) → IsAnchor snippet.now w self.now
            → IsAnchor snippet.now w result.1 }
    {
        let start = self.offset_of(snippet, rest);
        let CharacterEnd { stop, next } = character_at(snippet, start);
        (start..stop, Anchor::new(snippet, rest_after, next))
    }

    /// Returns the byte range in the snippet of the first character of `rest`, and the text after
    /// it. Moves the anchor to that text, unless the character stands for itself.
    #[inline(always)]
    pub fn pass(&mut self, snippet: &str, rest: &'input str) -> (Range<usize>, &'input str)
        requires leads { Leads snippet.now self.old rest.now }
        requires some { length rest.now ≡ 0 → ⊥ }
        ensures place { (w : World) → IsAnchor snippet.now w self.old
            → pair result.0 ≡ place_at w (length (chars rest.now)) }
        ensures rest { chars result.1.now ≡ after_first (chars rest.now) }
        ensures left { (input : List ℕ) → IsLeft input rest.now → IsLeft input result.1.now }
        ensures after { IsLeft self.new.rest.now result.1.now }
        ensures here { (w : World) → IsAnchor snippet.now w self.old
            → IsAnchor snippet.now w self.new }
    {
        let rest_after = after_first(rest);
        let distance = self.rest.len() - rest_after.len();
        if distance <= self.unescaped_len {
            let start = self.offset + (self.rest.len() - rest.len());
            return (start..self.offset + distance, rest_after);
        }
        let (place, anchor) = self.pass_by_look(snippet, rest, rest_after);
        *self = anchor;
        (place, rest_after)
    }
}
