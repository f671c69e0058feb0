//! Paths as text. No path has a NUL. So in its text NUL and two digits in base 16 stand for a byte
//! that is not UTF-8, and the text of a path that is UTF-8 is the path itself.

ghost use Rattle.std.specs.Prelude.{◌≡◌, ◌≤◌, ◌<◌, ◌/◌, ◌%◌, ◌++◌, ◌∷◌, [], List, ℕ, IfOk, IfSome};
ghost use Rattle.std.specs.Prelude.{MatchOption, OnOk, codes, length, string_bytes, true};
ghost use Rattle.std.specs.Char.{digit_char, digit_value};
ghost use Rattle.std.specs.List.{list_all};
ghost use Rattle.file_paths.specs.Paths.{byte_named, escape, is_not_nul, path_bytes, shown_path};

use std::alloc::{AllocError, Global};

/// Returns whether the text of a path is the path itself, which is UTF-8 then.
pub fn is_plain(path: &str) -> bool {
    !path.contains('\0')
}

/// Returns the longest front of bytes that is UTF-8, and the bytes after it.
fn split_text(bytes: &[u8]) -> (&str, &[u8])
    ensures parts { bytes.now ≡ result.0.now ++ result.1.now }
    ensures shorter { length result.1.now ≤ length bytes.now }
{
    let error = match str::from_utf8(bytes) {
        Ok(text) => return (text, &[]),
        Err(error) => error,
    };
    let (front, rest) = bytes.split_at(error.valid_up_to());
    match str::from_utf8(front) {
        Ok(text) => (text, rest),
        Err(_) => ("", bytes),
    }
}

/// Returns a digit in base 16.
fn digit(number: u8) -> char
    requires { number < 16 }
    ensures { result ≡ digit_char number }
{
    if number < 10 {
        (48 + number) as char
    } else {
        (87 + number) as char
    }
}

/// Adds the text of a byte that is not UTF-8.
#[tactic(auto, using(crate::proofs::Escaping::escaped))]
fn put_escape(out: &mut String, byte: u8) -> Result<(), AllocError>
    ensures written { OnOk result (string_bytes out.new ≡ string_bytes out.old ++ escape byte) }
    ensures stands_for { (text : List ℕ)
        → path_bytes (escape byte ++ text) ≡ byte ∷ path_bytes text }
{
    out.push('\0')?;
    out.push(digit(byte / 16))?;
    out.push(digit(byte % 16))?;
    Ok(())
}

/// Returns the text of a path. The path has no NUL. Returns `Err` if an allocation fails.
pub fn path_text(alloc: Global, path: &[u8]) -> Result<String, AllocError>
    ensures stands_for { list_all is_not_nul path.now ≡ true
        → IfOk result (λ text. path_bytes (string_bytes text) ≡ path.now) }
{
    let mut text = String::new(alloc);
    let (front, mut rest) = split_text(path);
    text.push_str(front)?;
    while let Some((byte, tail)) = rest.split_first() {
        put_escape(&mut text, *byte)?;
        let (front, rest_after) = split_text(tail);
        text.push_str(front)?;
        rest = rest_after;
    }
    Ok(text)
}

/// Returns the value of a digit in base 36, or 36 if the byte is none.
fn digit_value(byte: u8) -> u32
    ensures { result ≡ digit_value byte }
{
    (byte as char).to_digit(36).unwrap_or(36)
}

/// Returns the byte that two digits in base 16 name.
#[tactic(auto, unfolding(crate::specs::Paths::byte_named))]
fn byte_named(high: u8, low: u8) -> u8
    ensures { result ≡ byte_named high low }
{
    ((digit_value(high) * 16 + digit_value(low)) % 256) as u8
}

/// Returns the first byte of the path of a text, and the text of the rest, or `None` for no text.
fn split_byte(text: &[u8]) -> Option<(u8, &[u8])>
    ensures first { MatchOption result (path_bytes text.now ≡ [])
        (λ p. path_bytes text.now ≡ p.0 ∷ path_bytes p.1.now) }
    ensures shorter { IfSome result (λ p. length p.1.now < length text.now) }
{
    let (byte, tail) = text.split_first()?;
    if *byte != 0 {
        return Some((*byte, tail));
    }
    let Some((high, tail_after)) = tail.split_first() else {
        return Some((0, tail));
    };
    let Some((low, rest)) = tail_after.split_first() else {
        return Some((0, tail));
    };
    Some((byte_named(*high, *low), rest))
}

/// Returns the path of a text. Returns `Err` if an allocation fails.
pub fn path_bytes(alloc: Global, text: &str) -> Result<Vec<u8>, AllocError>
    ensures { IfOk result (λ path. path.items ≡ path_bytes text.now) }
{
    let mut path = Vec::new(alloc);
    let mut rest = text.as_bytes();
    while let Some((byte, tail)) = split_byte(rest) {
        path.push(byte)?;
        rest = tail;
    }
    Ok(path)
}

/// Returns the text before the first NUL and that after it, or `None` if there is none.
fn around_nul(text: &str) -> Option<(&str, &str)>
    ensures parts { MatchOption result (shown_path text.now ≡ text.now)
        (λ x. shown_path text.now ≡ x.0.now ++ (codes "\\x" ++ shown_path x.1.now)) }
    ensures shorter { IfSome result (λ x. length x.1.now < length text.now) }
{
    text.split_once('\0')
}

/// Returns the path of a text as messages have it: with `\x` and two digits for a byte that is not
/// UTF-8. Returns `Err` if an allocation fails.
pub fn shown_path(alloc: Global, text: &str) -> Result<String, AllocError>
    ensures { IfOk result (λ shown. string_bytes shown ≡ shown_path text.now) }
{
    let mut shown = String::new(alloc);
    let mut rest = text;
    while let Some((front, tail)) = around_nul(rest) {
        shown.push_str(front)?;
        shown.push_str("\\x")?;
        rest = tail;
    }
    shown.push_str(rest)?;
    Ok(shown)
}
