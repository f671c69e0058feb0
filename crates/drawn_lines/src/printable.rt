//! Prefixes of characters that are drawn as they are, found sixteen bytes at a time. Of these, the
//! printable ones of ASCII take one column.

ghost use Rattle.std.specs.List.{list_all};
ghost use Rattle.std.specs.Prelude.{◌≡◌, ◌+◌, ◌++◌, ◌≤◌, IsTrue, chars, encode_utf8_all, length};
ghost use Rattle.std.specs.Prelude.{true};
ghost use Rattle.drawn_lines.specs.Glyphs.{glyphs, is_non_ascii_drawn_as_is, is_drawn_as_is};
ghost use Rattle.drawn_lines.specs.Glyphs.{is_printable};

use rustc_parse_format::{Stops, front_width};

/// The first byte of the characters from U+0080 to U+00BF.
const LEAD_OF_80: u8 = 0xc2;

/// The first byte of the characters from U+0600 to U+063F.
const LEAD_OF_600: u8 = 0xd8;

/// The first byte of the characters from U+2000 to U+2FFF.
const LEAD_OF_2000: u8 = 0xe2;

/// The stops of a text that is drawn as it is: control characters of ASCII, and the first bytes
/// above.
const AS_IS: Stops = Stops {
    low: b' ',
    high: 255,
    first: 127,
    second: LEAD_OF_80,
    third: LEAD_OF_600,
    fourth: LEAD_OF_2000,
};

/// The stops of a text whose characters beyond ASCII are drawn as they are: the first bytes above.
const BEYOND_ASCII: Stops = Stops {
    low: 0,
    high: 255,
    first: LEAD_OF_80,
    second: LEAD_OF_600,
    third: LEAD_OF_2000,
    fourth: LEAD_OF_2000,
};

/// The stops of a text of printable characters of ASCII.
const PRINTABLE: Stops = Stops {
    low: b' ',
    high: b'~',
    first: 127,
    second: 127,
    third: 127,
    fourth: 127,
};

/// Returns the longest prefix of at most `limit` characters that are printable, and what is after
/// it.
pub fn split_printable(text: &str, limit: usize) -> (&str, &str)
    ensures pass { list_all is_printable result.0.now ≡ true }
    ensures parts { chars text.now ≡ result.0.now ++ chars result.1.now }
    ensures within { length result.0.now ≤ limit }
    ensures lengths { length result.0.now + length result.1.now ≡ length text.now }
{
    let bytes = text.as_bytes();
    let width = front_width(&bytes[..bytes.len().min(limit)], PRINTABLE);
    text.split_at(width)
}

/// Returns a prefix of a text that is drawn as it is, and what is after it.
pub fn split_as_is(text: &str) -> (&str, &str)
    ensures drawn { encode_utf8_all (glyphs (chars text.now))
        ≡ result.0.now ++ encode_utf8_all (glyphs (chars result.1.now)) }
    ensures shorter { length result.1.now ≤ length text.now }
{
    let width = text.floor_char_boundary(front_width(text.as_bytes(), AS_IS));
    text.split_at(width)
}

/// Returns `true` only if each part of a text is drawn as it is, so that [`put_glyphs`] appends it
/// as `push_str` does. For some texts of which that holds it returns `false`.
///
/// [`put_glyphs`]: crate::put_glyphs
pub fn is_drawn_as_is(text: &str) -> bool
    ensures { IsTrue result → list_all is_drawn_as_is text.now ≡ true }
{
    front_width(text.as_bytes(), AS_IS) == text.len()
}

/// Returns `true` only if each part of a text without ASCII is drawn as it is. For some texts of
/// which that holds it returns `false`.
pub fn is_non_ascii_drawn_as_is(text: &str) -> bool
    ensures { IsTrue result → list_all is_non_ascii_drawn_as_is text.now ≡ true }
{
    front_width(text.as_bytes(), BEYOND_ASCII) == text.len()
}
