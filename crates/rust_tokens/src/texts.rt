//! The first character of a text, and runs of characters of one class.

ghost use Rattle.std.specs.Prelude.{◌≡◌, ◌<◌, IfSome, IsCharBoundary, IsFalse, chars, drop, false};
ghost use Rattle.std.specs.Prelude.{length, option_map, slice_index};
ghost use Rattle.rust_tokens.specs.Bytes.{is_ascii_in};
ghost use Rattle.rust_tokens.specs.Classes.{passes};
ghost use Rattle.rust_tokens.specs.Runs.{rest_after, count, first_passes, is_digit_part, is_hash};
ghost use Rattle.rust_tokens.specs.Runs.{is_hex_part, is_id_start, is_punct, is_space};
ghost use Rattle.rust_tokens.specs.Characters.{is_char_content};
ghost use Rattle.rust_tokens.specs.Texts.{split_first, strip};

use crate::bytes::{is_space_byte, is_start_byte, is_word_byte};

/// A class of characters.
#[derive(Clone, Copy)]
pub enum Class {
    /// White space.
    Space,
    /// Characters that continue a word: `XID_Continue`.
    Continue,
    /// `#`
    Hash,
    /// All characters but apostrophes and LF.
    Escape,
    /// `'`
    Apostrophe,
    /// ASCII digits.
    Digit,
    /// ASCII digits and `_`.
    DigitPart,
    /// Hexadecimal digits and `_`.
    HexPart,
    /// `_`
    Underscore,
    /// `/`
    Slash,
    /// `*` and `/`
    StarOrSlash,
    /// Characters that may not stand after the point of a number: a point, and the first characters
    /// of words.
    PointOrStart,
}

impl Class {
    ghost use Rattle.rust_tokens.specs.Bytes.{is_ascii_in};
    ghost use Rattle.rust_tokens.specs.Classes.{passes};

    /// Returns whether the character is in the class.
    pub fn passes(self, c: char) -> bool
        ensures { result ≡ passes self c }
    {
        match self {
            Class::Space => is_space(c),
            Class::Continue => unicode_ident::is_xid_continue(c),
            Class::Hash => c == '#',
            Class::Escape => c != '\'' && c != '\n',
            Class::Apostrophe => c == '\'',
            Class::Digit => c.is_ascii_digit(),
            Class::DigitPart => c == '_' || c.is_ascii_digit(),
            Class::HexPart => c == '_' || c.is_ascii_hexdigit(),
            Class::Underscore => c == '_',
            Class::Slash => c == '/',
            Class::StarOrSlash => c == '*' || c == '/',
            Class::PointOrStart => c == '.' || is_id_start(c),
        }
    }

    /// Returns whether the byte is an ASCII character in the class.
    #[inline(always)]
    fn passes_byte(self, byte: u8) -> bool
        ensures { result ≡ is_ascii_in (passes self) byte }
    {
        match self {
            Class::Space => is_space_byte(byte),
            Class::Continue => is_word_byte(byte),
            _ => byte < 128 && self.passes(byte as char),
        }
    }
}

/// Returns whether the character is white space.
pub fn is_space(c: char) -> bool
    ensures { result ≡ is_space c }
{
    c == '\t'
        || c == '\n'
        || c == '\u{b}'
        || c == '\u{c}'
        || c == '\r'
        || c == ' '
        || c == '\u{85}'
        || c == '\u{200e}'
        || c == '\u{200f}'
        || c == '\u{2028}'
        || c == '\u{2029}'
}

/// Returns whether the character begins a word.
pub fn is_id_start(c: char) -> bool
    ensures { result ≡ is_id_start c }
{
    if c < '\u{80}' {
        return is_start_byte(c as u8);
    }
    unicode_ident::is_xid_start(c)
}

/// Returns whether the character is punctuation or a delimiter.
pub fn is_punct(c: char) -> bool
    ensures { result ≡ is_punct c }
{
    c == '!'
        || (c >= '#' && c <= '&')
        || (c >= '(' && c <= '/')
        || (c >= ':' && c <= '@')
        || c == '['
        || (c >= ']' && c <= '^')
        || (c >= '{' && c <= '~')
}

/// Returns whether the character stands for itself between two apostrophes.
pub fn is_char_content(c: char) -> bool
    ensures { result ≡ is_char_content c }
{
    !(c == '\'' || c == '\\' || c == '\n' || c == '\r' || c == '\t')
}

/// Returns the first character and the rest, or `None` if the text is empty.
pub fn split_first(text: &str) -> Option<(char, &str)>
    ensures value { option_map (λ x. (x.0, chars x.1.now)) result ≡ split_first (chars text.now) }
    ensures shorter { IfSome result (λ x. length x.1.now < length text.now) }
{
    let mut rest = text.chars();
    match rest.next() {
        Some(first) => Some((first, rest.as_str())),
        None => None,
    }
}

/// Returns the rest after the character, or `None` if the text does not begin with it.
pub fn strip(text: &str, first: char) -> Option<&str>
    ensures { option_map (λ r. chars r.now) result ≡ strip first (chars text.now) }
{
    let Some((c, rest)) = split_first(text) else {
        return None;
    };
    if c == first { Some(rest) } else { None }
}

/// Returns whether the text begins with a character of the class.
pub fn begins(text: &str, class: Class) -> bool
    ensures { result ≡ first_passes (passes class) (chars text.now) }
{
    match split_first(text) {
        Some((c, _)) => class.passes(c),
        None => false,
    }
}

/// Returns the rest after the longest front of the text whose characters are in the class, which
/// need not be ASCII.
#[inline(always)]
fn after_wide_run(text: &str, class: Class) -> &str
    ensures { chars result.now ≡ rest_after (passes class) (chars text.now) }
{
    let mut rest = text;
    while let Some((c, more)) = split_first(rest) {
        if !class.passes(c) {
            return rest;
        }
        rest = more;
    }
    rest
}

/// Returns the number of ASCII characters in the class with which the text begins.
#[inline(always)]
fn ascii_width(text: &str, class: Class) -> usize
    ensures at { IsCharBoundary text.now result }
    ensures same { rest_after (passes class) (chars (drop result text.now))
        ≡ rest_after (passes class) (chars text.now) }
    ensures next { result < length text.now
        → is_ascii_in (passes class) (slice_index text.now result) ≡ false }
{
    let bytes = text.as_bytes();
    for i in 0..bytes.len() {
        if !class.passes_byte(bytes[i]) {
            return i;
        }
    }
    bytes.len()
}

/// Returns whether there is a byte at the index `at` that is not ASCII.
#[inline(always)]
fn is_wide(bytes: &[u8], at: usize) -> bool
    ensures { IsFalse result → at < length bytes.now → slice_index bytes.now at < 128 }
{
    at < bytes.len() && bytes[at] >= 128
}

/// Returns the rest after the longest front of the text whose characters are in the class, or
/// `None` if a character that is not ASCII comes in it or after it.
#[inline(always)]
pub fn after_ascii_run(text: &str, class: Class) -> Option<&str>
    ensures { IfSome result (λ r. chars r.now ≡ rest_after (passes class) (chars text.now)) }
{
    let width = ascii_width(text, class);
    if is_wide(text.as_bytes(), width) {
        return None;
    }
    Some(&text[width..])
}

/// Returns the rest after the longest front of the text whose characters are in the class.
#[inline(always)]
pub fn after_run(text: &str, class: Class) -> &str
    ensures { chars result.now ≡ rest_after (passes class) (chars text.now) }
{
    match after_ascii_run(text, class) {
        Some(rest) => rest,
        None => after_wide_run(text, class),
    }
}

/// Returns the number of hashes at the start of the text.
pub fn count_hashes(text: &str) -> usize
    ensures { result ≡ count is_hash (chars text.now) }
{
    let mut rest = text;
    let mut hashes: usize = 0;
    while let Some((c, more)) = split_first(rest) {
        if c != '#' {
            return hashes;
        }
        hashes += 1;
        rest = more;
    }
    hashes
}
