//! Texts as a column of a row has them, with backslashes.

use std::alloc::{AllocError, Global};

/// How a character of a column is read.
#[derive(Clone, Copy)]
enum Reading {
    /// As itself.
    Plain,
    /// After a backslash.
    Escaped,
    /// After `x`.
    High,
    /// After `x` and a digit of this value.
    Low(u32),
}

/// The byte that a character brings, if any, and how the next one is read.
fn step(reading: Reading, c: char) -> Option<(Option<u8>, Reading)> {
    match (reading, c) {
        (Reading::Escaped, 'n') => Some((Some(b'\n'), Reading::Plain)),
        (Reading::Escaped, 't') => Some((Some(b'\t'), Reading::Plain)),
        (Reading::Escaped, 'r') => Some((Some(b'\r'), Reading::Plain)),
        (Reading::Escaped, '\\') => Some((Some(b'\\'), Reading::Plain)),
        (Reading::Escaped, 'x') => Some((None, Reading::High)),
        (Reading::High, _) => Some((None, Reading::Low(c.to_digit(16)?))),
        (Reading::Low(high), _) => {
            let byte = high.checked_mul(16)?.checked_add(c.to_digit(16)?)?;
            Some((Some(u8::try_from(byte).ok()?), Reading::Plain))
        }
        _ => None,
    }
}

/// The text that a column has, or None if it has none.
pub fn text_of(alloc: Global, column: &str) -> Result<Option<String>, AllocError> {
    let mut bytes = Vec::new(alloc);
    let mut reading = Reading::Plain;
    for c in column.chars() {
        if let (Reading::Plain, '\\') = (reading, c) {
            reading = Reading::Escaped;
        } else if let Reading::Plain = reading {
            let mut units = [0u8; 4];
            bytes.extend_from_slice(c.encode_utf8(&mut units).as_bytes())?;
        } else {
            let Some((value, then)) = step(reading, c) else {
                return Ok(None);
            };
            if let Some(value) = value {
                bytes.push(value)?;
            }
            reading = then;
        }
    }
    let Reading::Plain = reading else {
        return Ok(None);
    };
    Ok(String::from_utf8(bytes).ok())
}
