//! Texts as the forms have them. A function whose name begins with `put_` appends to `out`, and
//! returns `Err` if an allocation fails.

ghost use Rattle.std.specs.Prelude.{◌≡◌, ◌<◌, ◌++◌, OnOk, decimal, string_bytes};
ghost use Rattle.emit.specs.Escapes.{quoted, stays_in_uri, upper_digit, uri, uri_byte};

use file_paths::path_bytes;
use itoa::Buffer;
use shown_text::{Kind, put_shown};
use std::alloc::AllocError;

/// Adds a number in decimal digits.
pub fn put_number(out: &mut String, number: usize) -> Result<(), AllocError>
    ensures { OnOk result (string_bytes out.new ≡ string_bytes out.old ++ decimal number) }
{
    let mut digits = Buffer::new();
    out.push_str(digits.format(number))?;
    Ok(())
}

/// Returns a digit of base 16 in upper case.
fn upper_digit(digit: u8) -> char
    requires { digit < 16 }
    ensures { result ≡ upper_digit digit }
{
    if digit < 10 {
        (48 + digit) as char
    } else {
        (55 + digit) as char
    }
}

/// Adds a text as a string of JSON.
pub fn put_quoted(out: &mut String, text: &str) -> Result<(), AllocError>
    ensures { OnOk result (string_bytes out.new ≡ string_bytes out.old ++ quoted text.now) }
{
    out.push_str("\"")?;
    put_shown(out, Kind::Json, text)?;
    out.push_str("\"")?;
    Ok(())
}

/// Returns whether a byte stands for itself in a path of a URI.
fn stays_in_uri(byte: u8) -> bool
    ensures { result ≡ stays_in_uri byte }
{
    byte.is_ascii_alphanumeric() || matches!(byte, b'-' | b'.' | b'/' | b'_' | b'~')
}

/// Adds a byte as a path of a URI has it.
fn put_uri_byte(out: &mut String, byte: u8) -> Result<(), AllocError>
    ensures { OnOk result (string_bytes out.new ≡ string_bytes out.old ++ uri_byte byte) }
{
    if stays_in_uri(byte) {
        return Ok(out.push(byte as char)?);
    }
    out.push('%')?;
    out.push(upper_digit(byte / 16))?;
    out.push(upper_digit(byte % 16))?;
    Ok(())
}

/// Adds a path of a file as a URI: one from the root with its scheme, another as a relative one.
pub fn put_uri(out: &mut String, path: &str) -> Result<(), AllocError>
    ensures { OnOk result (string_bytes out.new ≡ string_bytes out.old ++ uri path.now) }
{
    if path.starts_with('/') {
        out.push_str("file://")?;
    }
    for byte in &path_bytes(*out.allocator(), path)? {
        put_uri_byte(out, *byte)?;
    }
    Ok(())
}
