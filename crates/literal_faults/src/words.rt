//! The messages of faults.

ghost use Rattle.std.specs.Prelude.{◌≡◌, ◌++◌, OnOk, option_map, string_bytes};
ghost use Rattle.literal_faults.specs.Words.{found_title, message, named_character, named_end};
ghost use Rattle.literal_faults.specs.Words.{shown_character, title};

use crate::fault::FaultKind;
use rust_tokens::Kind;
use std::alloc::AllocError;

/// Returns the title where a token of this kind stands in place of a string literal.
fn found_title(kind: Kind) -> &'static str
    ensures { result.now ≡ found_title kind }
{
    match kind {
        Kind::ByteStr | Kind::RawByteStr => {
            "expected a string literal, found a byte string literal"
        }
        Kind::CStr | Kind::RawCStr => "expected a string literal, found a C string literal",
        Kind::Byte => "expected a string literal, found a byte literal",
        Kind::Char | Kind::Lifetime | Kind::RawLifetime => {
            "expected a string literal, which has double quotes"
        }
        _ => "expected a string literal",
    }
}

/// Returns the title of a fault: its message without the character that it may name.
fn title(kind: FaultKind) -> &'static str
    ensures { result.now ≡ title kind }
{
    match kind {
        FaultKind::NoLiteral => "expected a string literal, found nothing",
        FaultKind::NotString(token) => found_title(token),
        FaultKind::UnterminatedString => "unterminated double quote string",
        FaultKind::UnterminatedRawString => "unterminated raw string",
        FaultKind::InvalidEscape(_) => "unknown character escape",
        FaultKind::TooShortHexEscape => "numeric character escape is too short",
        FaultKind::InvalidCharInHexEscape(_) => "invalid character in numeric character escape",
        FaultKind::OutOfRangeHexEscape => "out of range hex escape",
        FaultKind::NoBraceInUnicodeEscape => "incorrect unicode escape sequence",
        FaultKind::InvalidCharInUnicodeEscape(_) => "invalid character in unicode escape",
        FaultKind::EmptyUnicodeEscape => "empty unicode escape",
        FaultKind::UnclosedUnicodeEscape => "unterminated unicode escape",
        FaultKind::LeadingUnderscoreUnicodeEscape => "invalid start of unicode escape: `_`",
        FaultKind::OverlongUnicodeEscape => "overlong unicode escape",
        FaultKind::LoneSurrogateUnicodeEscape => {
            "invalid unicode character escape, which must not be a surrogate"
        }
        FaultKind::OutOfRangeUnicodeEscape => {
            "invalid unicode character escape, which must be at most 10FFFF"
        }
        FaultKind::BareCarriageReturn => "bare CR not allowed in string, use `\\r` instead",
        FaultKind::Suffix => "suffixes on string literals are invalid",
        FaultKind::TrailingText => "unexpected text after the string literal",
    }
}

/// Returns the character that the message of a fault names.
fn named_character(kind: FaultKind) -> Option<char>
    ensures { result ≡ named_character kind }
{
    match kind {
        FaultKind::InvalidEscape(c)
        | FaultKind::InvalidCharInHexEscape(c)
        | FaultKind::InvalidCharInUnicodeEscape(c) => Some(c),
        _ => None,
    }
}

/// Appends a character: printable ASCII as it is, and any other as an escape. Returns `Err` if an
/// allocation fails.
fn put_shown_character(out: &mut String, c: char) -> Result<(), AllocError>
    ensures { OnOk result (string_bytes out.new ≡ string_bytes out.old ++ shown_character c) }
{
    match c {
        ' '..='~' => out.push(c)?,
        '\t' => out.push_str("\\t")?,
        '\r' => out.push_str("\\r")?,
        '\n' => out.push_str("\\n")?,
        _ => {
            let code = u32::from(c);
            let escape = format!(in *out.allocator(); "\\u{{{code:x}}}")?;
            out.push_str(&escape)?;
        }
    }
    Ok(())
}

impl FaultKind {
    /// Appends the message to a text: one line without its end, in ASCII and with no control
    /// character. Returns `Err` if an allocation fails, and then a part of the message may be
    /// appended.
    pub fn put_message(&self, out: &mut String) -> Result<(), AllocError>
        ensures { OnOk result (string_bytes out.new ≡ string_bytes out.old ++ message self.now) }
    {
        out.push_str(title(*self))?;
        if let Some(c) = named_character(*self) {
            out.push_str(": `")?;
            put_shown_character(out, c)?;
            out.push_str("`")?;
        }
        Ok(())
    }
}
