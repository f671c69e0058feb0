//! The rest of a text, which is consumed one character at a time.

ghost use Rattle.std.specs.Prelude.{◌≡◌, ◌↔◌, ◌∷◌, ◌<◌, ◌≤◌, List, ℕ, [], chars, IfSome, IsFalse};
ghost use Rattle.std.specs.Prelude.{IsTrue};
ghost use Rattle.rustc_parse_format.specs.Bytes.{IsOfAscii, IsSharedFront};
ghost use Rattle.rustc_parse_format.specs.Classes.{passes};
ghost use Rattle.rustc_parse_format.specs.Characters.{Text, begins_with, rest_after, after_first};
ghost use Rattle.rustc_parse_format.specs.Characters.{first, byte_length, front};
ghost use Rattle.rustc_parse_format.specs.Literal.{IsContent};
ghost use Rattle.rustc_parse_format.specs.LiteralReading.{SharePlain};
ghost use Rattle.rustc_parse_format.specs.LiteralUnits.{LiteralUnit, is_plain, is_skipped};
ghost use Rattle.rustc_parse_format.specs.SourceViews.{after_continuations, begins_continuation};
ghost use Rattle.rustc_parse_format.specs.SourceViews.{closed_by_quote, spelled_units};

use crate::blocks::plain_front;
use crate::characters::{Class, after_first, begins, first, split_run};
use std::marker::Model;

/// The rest of a text.
#[derive(Drop)]
pub struct Rest<'a> {
    text: &'a str,
}

impl<'a> Model for Rest<'a> {
    ghost Value = { List ℕ };

    ghost view = { λ r. chars r.text.now };
}

impl<'a> Rest<'a> {
    /// Returns a `Rest` that is the whole text.
    #[inline(always)]
    pub fn new(text: &'a str) -> Rest<'a>
        ensures { result ≡ chars text.now }
    {
        Rest { text }
    }

    /// Returns the rest as a text.
    #[inline(always)]
    pub fn text(&self) -> &'a str
        ensures { chars result.now ≡ self.now }
    {
        self.text
    }

    /// Returns the number of bytes that are left.
    #[inline(always)]
    pub fn len(&self) -> usize
        ensures { result ≡ byte_length self.now }
    {
        byte_count(self.text)
    }

    /// Returns whether nothing is left.
    #[inline(always)]
    pub fn is_empty(&self) -> bool
        ensures { IsTrue result ↔ (self.now ≡ []) }
    {
        self.peek().is_none()
    }

    /// Returns the next character, or `None` if nothing is left. Consumes nothing.
    #[inline(always)]
    pub fn peek(&self) -> Option<char>
        ensures { result ≡ first self.now }
    {
        first(self.text)
    }

    /// Consumes and returns the next character, or returns `None` if nothing is left.
    #[inline(always)]
    pub fn next(&mut self) -> Option<char>
        ensures value { result ≡ first self.old }
        ensures rest { self.new ≡ after_first self.old }
    {
        let first = self.peek();
        self.text = after_first(self.text);
        first
    }

    /// Consumes the next character, whatever it is, and returns whether it was this one.
    #[inline(always)]
    pub fn next_eq(&mut self, c: char) -> bool
        ensures value { result ≡ begins_with c self.old }
        ensures rest { self.new ≡ after_first self.old }
    {
        self.next() == Some(c)
    }

    /// Returns whether the next character is this one. Consumes nothing.
    #[inline(always)]
    pub fn begins_with(&self, c: char) -> bool
        ensures { result ≡ begins_with c self.now }
    {
        self.peek() == Some(c)
    }

    /// Consumes the next character if it is this ASCII character, given by its byte, and returns
    /// whether it was.
    #[inline(always)]
    pub fn consume_ascii(&mut self, byte: u8) -> bool
        requires { byte < 128 }
        ensures yes { IsTrue result → self.old ≡ byte ∷ self.new }
        ensures no { IsFalse result → self.new ≡ self.old }
    {
        match after_ascii(self.text, byte) {
            Some(rest) => {
                self.text = rest;
                true
            }
            None => false,
        }
    }

    /// Consumes and returns the characters in the class that come next. The class has all
    /// characters outside ASCII.
    #[inline(always)]
    pub fn take_run(&mut self, class: Class) -> &'a str
        requires { IsOfAscii (passes class) }
        ensures run { chars result.now ≡ front (passes class) self.old }
        ensures rest { self.new ≡ rest_after (passes class) self.old }
    {
        let (run, rest) = split_run(self.text, class);
        self.text = rest;
        run
    }

    /// Skips in both texts the plain characters with which they go on alike.
    #[inline(always)]
    pub fn skip_plain(&mut self, other: &mut Rest<'_>)
        ensures { SharePlain self.old other.old self.new other.new }
    {
        let (rest, other_rest) = after_plain(self.text, other.text);
        self.text = rest;
        other.text = other_rest;
    }

    /// Returns whether the rest begins with a string continuation: a backslash and an LF.
    #[inline(always)]
    pub fn begins_continuation(&self) -> bool
        ensures { result ≡ begins_continuation self.now }
    {
        begins(self.text, '\\') && begins(after_first(self.text), '\n')
    }

    /// Skips all string continuations at the start of the rest of a content with its closing quote.
    pub fn skip_continuations(&mut self)
        ensures after { (q : Text) (us : List LiteralUnit) → IsContent q us
            → self.old ≡ closed_by_quote q
            → self.new ≡ closed_by_quote (spelled_units (after_continuations us)) }
        ensures narrower { byte_length self.new ≤ byte_length self.old }
    {
        while self.begins_continuation() {
            self.text = after_first(after_first(self.text));
            self.skip_ws();
        }
    }

    /// Skips the white space that belongs to a string continuation: all HT, LF, CR and space.
    #[inline(always)]
    pub fn skip_ws(&mut self)
        ensures { self.new ≡ rest_after is_skipped self.old }
    {
        while let Some('\t' | '\n' | '\r' | ' ') = self.peek() {
            self.text = after_first(self.text);
        }
    }
}

/// Returns the length of a text in bytes.
#[inline(always)]
fn byte_count(text: &str) -> usize
    ensures { result ≡ byte_length (chars text.now) }
{
    text.len()
}

/// Returns the text after this ASCII character, or `None` if the text does not begin with it.
#[inline(always)]
fn after_ascii(text: &str, byte: u8) -> Option<&str>
    requires { byte < 128 }
    ensures { IfSome result (λ r. chars text.now ≡ byte ∷ chars r.now) }
{
    let bytes = text.as_bytes();
    if bytes.is_empty() || bytes[0] != byte {
        return None;
    }
    Some(&text[1..])
}

/// Returns whether the byte is plain: no quote, no backslash and no CR, which a literal has to
/// escape.
#[inline(always)]
fn is_plain(byte: u8) -> bool
    ensures { result ≡ is_plain byte }
{
    byte != b'"' && byte != b'\\' && byte != b'\r'
}

/// Returns the length in bytes of the longest prefix that is the same in both and plain.
#[inline(always)]
pub fn plain_width(bytes: &[u8], others: &[u8]) -> usize
    ensures { IsSharedFront is_plain bytes.now others.now result }
{
    let limit = bytes.len().min(others.len());
    for i in plain_front(bytes, others)..limit {
        if bytes[i] != others[i] || !is_plain(bytes[i]) {
            return i;
        }
    }
    limit
}

/// Returns whether both begin with the same byte, which is no backslash: one escape often comes
/// after another.
#[inline(always)]
fn begin_alike(bytes: &[u8], others: &[u8]) -> bool {
    !bytes.is_empty() && bytes[0] != b'\\' && !others.is_empty() && bytes[0] == others[0]
}

/// Returns the rests of both texts after the plain characters with which they begin alike. If they
/// first differ inside a character, both rests begin with that character.
#[inline(always)]
fn after_plain<'a, 'b>(text: &'a str, other: &'b str) -> (&'a str, &'b str)
    ensures { SharePlain (chars text.now) (chars other.now) (chars result.0.now)
        (chars result.1.now) }
{
    let bytes = text.as_bytes();
    let others = other.as_bytes();
    if !begin_alike(bytes, others) {
        return (text, other);
    }
    let same_width = plain_width(bytes, others);
    let width = text.floor_char_boundary(same_width);
    (&text[width..], &other[width..])
}
