//! Classes of characters, and prefixes and suffixes of texts. Of all code that reads pieces, only
//! this module, `source` and `cursor` work with bytes and UTF-8.

ghost use Rattle.std.specs.Char.{digit_value, is_ascii_alphabetic, is_ascii_digit, is_whitespace};
ghost use Rattle.std.specs.Prelude.{◌%◌, ◌*◌, ◌++◌, ◌+◌, ◌<◌, ◌≡◌, ◌==◌, ◌&&◌, bytes_eq, chars};
ghost use Rattle.std.specs.Prelude.{codes, IfSome, IsFalse, IsNone, IsTrue, length, List, Some};
ghost use Rattle.std.specs.Prelude.{false, nat_lt, not, slice_index, true, ℕ, ◌↔◌};
ghost use Rattle.rustc_parse_format.specs.Bytes.{IsFront, IsLeft, IsOfAscii, is_no_stop};
ghost use Rattle.rustc_parse_format.specs.Bytes.{is_word_byte};
ghost use Rattle.rustc_parse_format.specs.Characters.{Text, begins_with, rest_after, after_digits};
ghost use Rattle.rustc_parse_format.specs.Characters.{after_first, after_word, digits, first};
ghost use Rattle.rustc_parse_format.specs.Characters.{first_passes, front};
ghost use Rattle.rustc_parse_format.specs.Characters.{is_id_start, is_over, number, word};
ghost use Rattle.rustc_parse_format.specs.Classes.{passes};

use crate::blocks::{Stops, front_width};

/// A class of characters. The longest prefix of a text that is made of them can be read at once.
#[derive(Clone, Copy)]
pub enum Class {
    /// Characters that can continue a word: `XID_Continue`.
    Continue,
    /// White space, as in `char::is_whitespace`.
    White,
    /// All characters but braces.
    Text,
    /// All characters but braces and newlines.
    Line,
    /// All characters but backslashes.
    Unescaped,
    /// Characters that stand for themselves in an ordinary literal: all but quotes, backslashes and
    /// CRs.
    Plain,
    /// Characters that a quoted text has as they are: all but quotes of both kinds, backslashes and
    /// ASCII control characters.
    Unchanged,
}

impl Class {
    ghost use Rattle.rustc_parse_format.specs.Classes.{passes};

    /// Returns whether `c` is in the class.
    pub fn passes(self, c: char) -> bool
        ensures { result ≡ passes self c }
    {
        match self {
            Class::Continue => unicode_ident::is_xid_continue(c),
            Class::White => c.is_whitespace(),
            Class::Text => c != '{' && c != '}',
            Class::Line => c != '{' && c != '}' && c != '\n',
            Class::Unescaped => c != '\\',
            Class::Plain => c != '"' && c != '\\' && c != '\r',
            Class::Unchanged => { c >= ' ' && c != '\u{7f}' && c != '"' && c != '\'' && c != '\\' }
        }
    }
}

/// Returns the first character, or `None` if the text is empty.
#[inline(always)]
pub fn first(text: &str) -> Option<char>
    ensures { result ≡ first (chars text.now) }
{
    text.chars().next()
}

/// Returns whether the first character is `c`, which is ASCII, so that the first byte shows it.
#[tactic(auto, using(crate::proofs::Bytes::ByteFronts::begins_byte))]
#[inline(always)]
pub fn begins(text: &str, c: char) -> bool
    requires { c < 128 }
    ensures { result ≡ begins_with c (chars text.now) }
{
    let bytes = text.as_bytes();
    !bytes.is_empty() && bytes[0] == c as u8
}

/// Returns whether the first character is an ASCII digit.
#[tactic(auto, using(crate::proofs::Bytes::ByteFronts::first_byte))]
#[inline(always)]
pub fn begins_digit(text: &str) -> bool
    ensures { result ≡ first_passes is_ascii_digit (chars text.now) }
{
    let bytes = text.as_bytes();
    !bytes.is_empty() && bytes[0].is_ascii_digit()
}

/// Returns the first character if it is an ASCII digit, or else `None`.
#[tactic(auto, using(crate::proofs::Bytes::WordBytes::first_ascii, crate::proofs::Bytes::ByteFronts::first_byte))]
#[inline(always)]
fn first_digit(text: &str) -> Option<u8>
    ensures digit { IfSome result (λ d. (first (chars text.now) ≡ Some d)
        × IsTrue (is_ascii_digit d)) }
    ensures none { IsNone result → first_passes is_ascii_digit (chars text.now) ≡ false }
{
    let bytes = text.as_bytes();
    if bytes.is_empty() || !bytes[0].is_ascii_digit() {
        return None;
    }
    Some(bytes[0])
}

/// Returns whether the byte is an ASCII letter.
#[inline(always)]
fn is_letter(byte: u8) -> bool
    ensures { result ≡ is_ascii_alphabetic byte }
{
    (byte | 32).is_ascii_lowercase()
}

/// Returns whether the byte is an ASCII character that can continue a word.
#[inline(always)]
fn is_word_byte(byte: u8) -> bool
    ensures { result ≡ is_word_byte byte }
{
    is_letter(byte) || byte.is_ascii_digit() || byte == b'_'
}

/// Returns whether the first character can begin a word. Most often its first byte shows it.
#[inline(always)]
pub fn begins_word(text: &str) -> bool
    ensures { result ≡ first_passes is_id_start (chars text.now) }
{
    let bytes = text.as_bytes();
    if !bytes.is_empty() && bytes[0] < 128 {
        return is_letter(bytes[0]) || bytes[0] == b'_';
    }
    first(text).is_some_and(is_id_start)
}

/// Returns the text after the first character, or an empty text if there is none.
#[inline(always)]
pub fn after_first(text: &str) -> &str
    ensures rest { chars result.now ≡ after_first (chars text.now) }
    ensures left { (input : List ℕ) → IsLeft input text.now → IsLeft input result.now }
{
    let mut rest = text.chars();
    rest.next();
    rest.as_str()
}

/// Returns whether the first character is white space. Most often its first byte already shows that
/// it is not.
#[tactic(auto, using(crate::proofs::Bytes::ByteFronts::no_white))]
#[inline(always)]
pub fn begins_white(text: &str) -> bool
    ensures { result ≡ first_passes is_whitespace (chars text.now) }
{
    let bytes = text.as_bytes();
    if !bytes.is_empty() && bytes[0] > b' ' && bytes[0] < 127 {
        return false;
    }
    first(text).is_some_and(|c| c.is_whitespace())
}

/// Returns the stops that are the bytes below `low` and these four, without an upper bound.
#[inline(always)]
fn stops(low: u8, first: u8, second: u8, third: u8, fourth: u8) -> Stops
    ensures { (x : ℕ) → is_no_stop result x ≡ (not (nat_lt x low) && (not (x == first)
        && (not (x == second) && (not (x == third) && not (x == fourth))))) }
{
    Stops {
        low,
        high: 255,
        first,
        second,
        third,
        fourth,
    }
}

/// Returns the number of bytes before the first one that, taken as a character, is not in the
/// class. The class has all characters outside ASCII.
#[inline(always)]
pub fn run_width(bytes: &[u8], class: Class) -> usize
    requires { IsOfAscii (passes class) }
    ensures { IsFront (passes class) bytes.now result }
{
    let stops = match class {
        Class::Text => stops(0, b'{', b'}', b'}', b'}'),
        Class::Line => stops(0, b'{', b'}', b'\n', b'\n'),
        Class::Unescaped => stops(0, b'\\', b'\\', b'\\', b'\\'),
        Class::Plain => stops(0, b'"', b'\\', b'\r', b'\r'),
        Class::Unchanged => stops(b' ', b'\'', b'"', b'\\', 127),
        _ => return 0,
    };
    front_width(bytes, stops)
}

/// Returns the text after the longest prefix of characters in the class. The class has all
/// characters outside ASCII, so the bytes alone show where the prefix ends.
#[inline(always)]
pub fn after_run(text: &str, class: Class) -> &str
    requires { IsOfAscii (passes class) }
    ensures rest { chars result.now ≡ rest_after (passes class) (chars text.now) }
    ensures left { (input : List ℕ) → IsLeft input text.now → IsLeft input result.now }
{
    let width = run_width(text.as_bytes(), class);
    &text[width..]
}

/// Splits a text after the longest prefix of characters in the class. The class has all characters
/// outside ASCII, so the bytes alone show where the prefix ends.
#[inline(always)]
pub fn split_run(text: &str, class: Class) -> (&str, &str)
    requires { IsOfAscii (passes class) }
    ensures front { chars result.0.now ≡ front (passes class) (chars text.now) }
    ensures rest { chars result.1.now ≡ rest_after (passes class) (chars text.now) }
{
    let width = run_width(text.as_bytes(), class);
    text.split_at(width)
}

/// Returns the text after the longest prefix of characters in the class.
#[inline(always)]
pub fn after_while(text: &str, class: Class) -> &str
    ensures rest { chars result.now ≡ rest_after (passes class) (chars text.now) }
    ensures left { (input : List ℕ) → IsLeft input text.now → IsLeft input result.now }
{
    match class {
        Class::Text => return after_run(text, Class::Text),
        Class::Line => return after_run(text, Class::Line),
        _ => {}
    }
    let mut rest = text;
    while let Some(c) = first(rest) {
        if !class.passes(c) {
            break;
        }
        rest = after_first(rest);
    }
    rest
}

/// Returns the number of bytes before the first one that is not an ASCII character that can
/// continue a word.
#[inline(always)]
fn word_width(bytes: &[u8]) -> usize
    ensures { IsFront is_word_byte bytes.now result }
{
    for i in 0..bytes.len() {
        if !is_word_byte(bytes[i]) {
            return i;
        }
    }
    bytes.len()
}

/// Returns whether there is a byte at the index `at` that is not ASCII.
#[inline(always)]
fn is_wide(bytes: &[u8], at: usize) -> bool
    ensures { IsFalse result ↔ (at < length bytes.now → slice_index bytes.now at < 128) }
{
    at < bytes.len() && bytes[at] >= 128
}

/// Splits a text after the word that begins it. Most often the word is ASCII.
#[inline(always)]
pub fn split_word(text: &str) -> (&str, &str)
    requires { first_passes is_id_start (chars text.now) ≡ true }
    ensures word { chars result.0.now ≡ word (chars text.now) }
    ensures rest { chars result.1.now ≡ after_word (chars text.now) }
    ensures left { (input : List ℕ) → IsLeft input text.now → IsLeft input result.1.now }
{
    let bytes = text.as_bytes();
    let width = word_width(bytes);
    if is_wide(bytes, width) {
        return split_wide_word(text);
    }
    text.split_at(width)
}

/// Splits a text after the word that begins it, which need not be ASCII.
#[tactic(auto, using(crate::proofs::Grammar::Fronts::after_word_some))]
#[inline(never)]
fn split_wide_word(text: &str) -> (&str, &str)
    requires { first_passes is_id_start (chars text.now) ≡ true }
    ensures word { chars result.0.now ≡ word (chars text.now) }
    ensures rest { chars result.1.now ≡ after_word (chars text.now) }
    ensures left { (input : List ℕ) → IsLeft input text.now → IsLeft input result.1.now }
{
    let rest = after_while(after_first(text), Class::Continue);
    (text_before(text, rest), rest)
}

/// The number that the ASCII digits at the start of a text write.
#[derive(Clone, Copy)]
pub struct LeadingNumber<'a> {
    /// The number, modulo 65536.
    pub value: u16,
    /// Whether the number exceeds 65535.
    pub is_over: bool,
    /// The text after the digits.
    pub rest: &'a str,
}

/// Returns the number that the ASCII digits at the start of the text write: 0 if there are none.
#[tactic(auto, unfolding(crate::specs::Characters::digits, crate::specs::Characters::after_digits))]
#[inline(always)]
pub fn leading_number(text: &str) -> LeadingNumber<'_>
    ensures value { result.value ≡ number (digits (chars text.now)) }
    ensures over { result.is_over ≡ is_over (digits (chars text.now)) }
    ensures rest { chars result.rest.now ≡ after_digits (chars text.now) }
    ensures left { (input : List ℕ) → IsLeft input text.now → IsLeft input result.rest.now }
{
    let mut value = 0;
    let mut is_over = false;
    let mut rest = text;
    while let Some(digit) = first_digit(rest) {
        let next_number = with_digit(value, digit);
        value = next_number.0;
        is_over |= next_number.1;
        rest = after_first(rest);
    }
    LeadingNumber {
        value,
        is_over,
        rest,
    }
}

/// Returns the part of `text` before its suffix `rest_after`.
#[inline(always)]
pub fn text_before<'a>(text: &'a str, rest_after: &str) -> &'a str
    requires { (u : Text) × (chars text.now ≡ u ++ chars rest_after.now) }
    ensures { (u : Text) → chars text.now ≡ u ++ chars rest_after.now → chars result.now ≡ u }
{
    &text[..text.len() - rest_after.len()]
}

/// Returns whether `c` can begin a word: `_` or `XID_Start`.
pub fn is_id_start(c: char) -> bool
    ensures { result ≡ is_id_start c }
{
    c == '_' || unicode_ident::is_xid_start(c)
}

/// Returns whether the text is the word `_`.
pub fn is_underscore(text: &str) -> bool
    ensures { result ≡ bytes_eq (chars text.now) (codes "_") }
{
    first(text) == Some('_') && first(after_first(text)).is_none()
}

/// Returns the value of `number` with one more decimal digit, modulo 65536, and whether that value
/// exceeds 65535.
fn with_digit(number: u16, digit: u8) -> (u16, bool)
    requires { IsTrue (is_ascii_digit digit) }
    ensures value { result.0 ≡ (number * 10 + digit_value digit) % 65536 }
    ensures over { result.1 ≡ nat_lt 65535 (number * 10 + digit_value digit) }
{
    let value = u32::from(number) * 10 + (u32::from(digit) - 48);
    ((value % 65536) as u16, value > 65535)
}
