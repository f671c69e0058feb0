//! The gate. A function whose name begins with `put_` appends to `out`, and returns `Err` if an
//! allocation fails.

ghost use Rattle.std.specs.Prelude.{◌≡◌, ◌≤◌, ◌<◌, ◌%◌, ◌++◌, ◌∷◌, [], MatchOption, IfSome, OnOk};
ghost use Rattle.std.specs.Prelude.{chars, encode_utf8_all, length, string_bytes, take, true};
ghost use Rattle.std.specs.Char.{digit_char};
ghost use Rattle.std.specs.List.{list_all};
ghost use Rattle.json.specs.Print.{escape_letter};
ghost use Rattle.shown_text.specs.Shown.{IsOneLine, IsReadAs, char_text, code_text, command_char};
ghost use Rattle.shown_text.specs.Shown.{is_plain, json_char, line_char, shown};
ghost use Rattle.shown_text.specs.declared.gate.Kind.TheVariants.{Json};

use drawn_lines::{glyph, split_first};
use rustc_parse_format::{Stops, front_width};
use std::alloc::AllocError;

/// A kind of text that is shown. In each, a terminal obeys no character, and none ends the line.
#[derive(Clone, Copy, Debug, Eq, PartialEq)]
pub enum Kind {
    /// A line for a person, or a part of one.
    Line,
    /// The value of a property of a workflow command of GitHub.
    Property,
    /// The message of a workflow command of GitHub.
    Message,
    /// A string of JSON, without its quotes.
    Json,
}

/// The stops of a text of which a line for a person has all as it is.
const LINE: Stops = Stops {
    low: b' ',
    high: b'~',
    first: 127,
    second: 127,
    third: 127,
    fourth: 127,
};

/// The stops of a text of which a property of a workflow command has all as it is.
const PROPERTY: Stops = Stops {
    first: b'%',
    second: b':',
    third: b',',
    ..LINE
};

/// The stops of a text of which the message of a workflow command has all as it is.
const MESSAGE: Stops = Stops {
    first: b'%',
    ..LINE
};

/// The stops of a text of which a string of JSON has all as it is.
const JSON: Stops = Stops {
    first: b'"',
    second: b'\\',
    ..LINE
};

/// Returns the length of a prefix of a text that stands for itself.
fn plain_width(kind: Kind, text: &str) -> usize
    ensures within { result ≤ length text.now }
    ensures pass { list_all (is_plain kind) (take result text.now) ≡ true }
{
    let bytes = text.as_bytes();
    match kind {
        Kind::Line => front_width(bytes, LINE),
        Kind::Property => front_width(bytes, PROPERTY),
        Kind::Message => front_width(bytes, MESSAGE),
        Kind::Json => front_width(bytes, JSON),
    }
}

/// Returns a prefix of a text that stands for itself, and what is after it.
fn split_plain(kind: Kind, text: &str) -> (&str, &str)
    ensures parts { shown kind text.now ≡ result.0.now ++ shown kind result.1.now }
    ensures shorter { length result.1.now ≤ length text.now }
{
    text.split_at(plain_width(kind, text))
}

/// Returns the character that a line has for a character.
#[tactic(auto, unfolding(crate::specs::Shown::line_char))]
fn line_char(c: char) -> char
    ensures { result ≡ line_char c }
{
    match c {
        '\n' => '\u{240a}',
        '\u{2028}' | '\u{2029}' => '\u{fffd}',
        _ => glyph(c),
    }
}

/// Adds a character as a workflow command has it: in a property, or in its message.
fn put_command_char(out: &mut String, is_property: bool, c: char) -> Result<(), AllocError>
    ensures { OnOk result (string_bytes out.new
        ≡ string_bytes out.old ++ encode_utf8_all (command_char is_property c)) }
{
    match c {
        '%' => out.push_str("%25")?,
        '\r' => out.push_str("%0D")?,
        '\n' => out.push_str("%0A")?,
        ':' if is_property => out.push_str("%3A")?,
        ',' if is_property => out.push_str("%2C")?,
        _ => out.push(line_char(c))?,
    }
    Ok(())
}

/// Returns the letter after the backslash in the short escape of a character in a string of JSON,
/// or U+0000 if it has none.
fn escape_letter(c: char) -> char
    ensures { result ≡ escape_letter c }
{
    match c {
        '"' | '\\' => c,
        '\u{8}' => 'b',
        '\u{c}' => 'f',
        '\n' => 'n',
        '\r' => 'r',
        '\t' => 't',
        _ => '\0',
    }
}

/// Returns the last digit of a number in base 16.
fn last_digit(number: u32) -> char
    ensures { result ≡ digit_char (number % 16) }
{
    let digit = (number % 16) as u8;
    if digit < 10 {
        (48 + digit) as char
    } else {
        (87 + digit) as char
    }
}

/// Adds the long escape of a character in a string of JSON.
fn put_code(out: &mut String, c: char) -> Result<(), AllocError>
    ensures { OnOk result (string_bytes out.new
        ≡ string_bytes out.old ++ encode_utf8_all (code_text c)) }
{
    let code = c as u32;
    out.push_str("\\u")?;
    out.push(last_digit(code / 4096))?;
    out.push(last_digit(code / 256))?;
    out.push(last_digit(code / 16))?;
    out.push(last_digit(code))?;
    Ok(())
}

/// Adds a character as a string of JSON has it.
fn put_json_char(out: &mut String, c: char) -> Result<(), AllocError>
    ensures { OnOk result (string_bytes out.new
        ≡ string_bytes out.old ++ encode_utf8_all (json_char c)) }
{
    let letter = escape_letter(c);
    if letter != '\0' {
        out.push('\\')?;
        out.push(letter)?;
    } else if line_char(c) != c {
        put_code(out, c)?;
    } else {
        out.push(c)?;
    }
    Ok(())
}

/// Adds a character as a kind of text has it.
fn put_char(out: &mut String, kind: Kind, c: char) -> Result<(), AllocError>
    ensures { OnOk result (string_bytes out.new
        ≡ string_bytes out.old ++ encode_utf8_all (char_text kind c)) }
{
    match kind {
        Kind::Line => Ok(out.push(line_char(c))?),
        Kind::Property => Ok(put_command_char(out, true, c)?),
        Kind::Message => Ok(put_command_char(out, false, c)?),
        Kind::Json => Ok(put_json_char(out, c)?),
    }
}

/// Appends a text as this kind has it. Returns `Err` if an allocation fails, and a part of the text
/// may then be appended.
#[tactic(auto, using(crate::proofs::OneLine::one_line, crate::proofs::ReadBack::read_back))]
pub fn put_shown(out: &mut String, kind: Kind, text: &str) -> Result<(), AllocError>
    ensures written { OnOk result (string_bytes out.new
        ≡ string_bytes out.old ++ shown kind text.now) }
    ensures one_line { IsOneLine (shown kind text.now) }
    // A string of JSON is read back as the text.
    ensures reads_back { kind ≡ Json → IsReadAs (shown kind text.now) text.now }
{
    let (front, mut rest) = split_plain(kind, text);
    out.push_str(front)?;
    while let Some((c, tail)) = split_first(rest) {
        put_char(out, kind, c)?;
        let (front, rest_after) = split_plain(kind, tail);
        out.push_str(front)?;
        rest = rest_after;
    }
    Ok(())
}
