//! Reading the unit at the start of the content of an ordinary string literal.

ghost use Rattle.std.specs.Prelude.{◌≡◌, ◌∷◌, ◌<◌, [], IfSome, IsTrue, None, Some, chars};
ghost use Rattle.std.specs.Prelude.{if◌then◌else◌, option_map};
ghost use Rattle.std.specs.Char.{digit_value};
ghost use Rattle.rustc_parse_format.specs.Characters.{Text, after_first};
ghost use Rattle.rustc_parse_format.specs.LiteralUnits.{at_most_one, byte_at, escape_at};
ghost use Rattle.rustc_parse_format.specs.LiteralUnits.{escaped_character};
ghost use Rattle.rustc_parse_format.specs.LiteralUnits.{is_hex, is_octal, meaning, unicode_at};
ghost use Rattle.rustc_parse_format.specs.LiteralUnits.{unit_at};

use super::rest::Rest;

/// Returns the character that two digits after `\x` stand for, or `None` if they are not an octal
/// and a hexadecimal digit.
#[tactic(auto, unfolding(crate::specs::LiteralUnits::byte_at))]
#[inline(always)]
fn byte_of(high: char, low: char) -> Option<char>
    ensures { (r : Text) → meaning (byte_at (high ∷ low ∷ r))
        ≡ option_map (λ c. (c ∷ [], r)) result }
{
    let high = high.to_digit(8)?;
    let low = low.to_digit(16)?;
    Some((high * 16 + low) as u8 as char)
}

/// Reads the two digits after `\x`, and returns the character that they stand for, or `None` if
/// they stand for none.
#[tactic(auto, unfolding(crate::specs::LiteralUnits::byte_at))]
#[inline(always)]
fn read_byte(rest: &mut Rest<'_>) -> Option<char>
    ensures { meaning (byte_at rest.old) ≡ option_map (λ c. (c ∷ [], rest.new)) result }
{
    let high = rest.next()?;
    let low = rest.next()?;
    byte_of(high, low)
}

/// Returns whether the text begins with `\n`, the most common escape.
#[inline(always)]
pub fn is_newline_escape(text: &str) -> bool
    ensures { IsTrue result → chars text.now ≡ 92 ∷ 110
        ∷ after_first (after_first (chars text.now)) }
{
    let bytes = text.as_bytes();
    if bytes.len() < 2 {
        return false;
    }
    bytes[0] == b'\\' && bytes[1] == b'n'
}

/// Returns the value of an octal digit, or `None` if the byte is not one.
#[inline(always)]
fn octal_digit(byte: u8) -> Option<u8>
    ensures { result ≡ (if is_octal byte then Some (digit_value byte) else None) }
{
    match byte {
        b'0'..=b'7' => Some(byte - b'0'),
        _ => None,
    }
}

/// Returns the value of a hexadecimal digit, or `None` if the byte is not one.
#[inline(always)]
fn hex_digit(byte: u8) -> Option<u8>
    ensures { result ≡ (if is_hex byte then Some (digit_value byte) else None) }
{
    match byte {
        b'0'..=b'9' => Some(byte - b'0'),
        b'a'..=b'f' => Some(byte - b'a' + 10),
        b'A'..=b'F' => Some(byte - b'A' + 10),
        _ => None,
    }
}

/// Returns the byte that a `\x` escape at the start of the text stands for, and the text after it,
/// or `None` if there is no such escape. It looks at bytes, for speed, since a literal may be made
/// of such escapes.
#[tactic(auto, unfolding(crate::specs::LiteralUnits::byte_at))]
#[inline(always)]
pub fn byte_escape(text: &str) -> Option<(u8, &str)>
    ensures meaning { IfSome result (λ x. meaning (unit_at (chars text.now))
        ≡ Some (x.0 ∷ [], chars x.1.now)) }
    ensures ascii { IfSome result (λ x. x.0 < 128) }
{
    let bytes = text.as_bytes();
    if bytes.len() < 4 || bytes[0] != b'\\' || bytes[1] != b'x' {
        return None;
    }
    let high = octal_digit(bytes[2])?;
    let low = hex_digit(bytes[3])?;
    Some((high * 16 + low, &text[4..]))
}

/// Reads the braces after `\u` with their digits, and returns the character that they stand for, or
/// `None` if they stand for none.
#[tactic(auto, using(crate::proofs::Literals::Unicode::unicode_steps))]
#[inline(always)]
fn read_unicode(rest: &mut Rest<'_>) -> Option<char>
    ensures { meaning (unicode_at rest.old) ≡ option_map (λ c. (c ∷ [], rest.new)) result }
{
    if !rest.next_eq('{') {
        return None;
    }
    let mut digits: u32 = 0;
    let mut code: u32 = 0;
    while let Some(c) = rest.next() {
        match c {
            '}' if digits > 0 => return char::from_u32(code),
            '_' if digits > 0 => {}
            _ if digits < 6 => {
                code = code * 16 + c.to_digit(16)?;
                digits += 1;
            }
            _ => return None,
        }
    }
    None
}

/// Returns the character that a backslash and this letter stand for, or `None` if they stand for
/// none.
#[inline(always)]
fn simple_escape(letter: char) -> Option<char>
    ensures { result ≡ escaped_character letter }
{
    match letter {
        'n' => Some('\n'),
        'r' => Some('\r'),
        't' => Some('\t'),
        '0' => Some('\0'),
        '\'' | '"' | '\\' => Some(letter),
        _ => None,
    }
}

/// Reads an escape after its backslash, and returns the character that it stands for: `Some(None)`
/// for a string continuation, which stands for none, and `None` if there is no escape.
#[tactic(auto, unfolding(crate::specs::LiteralUnits::escape_at))]
#[inline(always)]
fn read_escape(rest: &mut Rest<'_>) -> Option<Option<char>>
    ensures { meaning (escape_at rest.old) ≡ option_map (λ v. (at_most_one v, rest.new)) result }
{
    match rest.next()? {
        '\n' => {
            rest.skip_ws();
            Some(None)
        }
        'x' => Some(Some(read_byte(rest)?)),
        'u' => Some(Some(read_unicode(rest)?)),
        letter => Some(Some(simple_escape(letter)?)),
    }
}

/// Reads the unit at the start, a character or an escape, and returns the character that it stands
/// for: `Some(None)` for a string continuation, which stands for none, and `None` if there is no
/// unit.
#[tactic(auto, unfolding(crate::specs::LiteralUnits::unit_at))]
#[inline(always)]
pub fn read_unit(rest: &mut Rest<'_>) -> Option<Option<char>>
    ensures { meaning (unit_at rest.old) ≡ option_map (λ v. (at_most_one v, rest.new)) result }
{
    if let Some((byte, rest_after)) = byte_escape(rest.text()) {
        *rest = Rest::new(rest_after);
        return Some(Some(byte as char));
    }
    if is_newline_escape(rest.text()) {
        rest.next();
        rest.next();
        return Some(Some('\n'));
    }
    match rest.next()? {
        '\\' => read_escape(rest),
        '"' | '\r' => None,
        c => Some(Some(c)),
    }
}
