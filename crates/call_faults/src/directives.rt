//! Directives of `printf`, as `%d`, and variables of a shell, as `$x`, in a format string.

ghost use Rattle.std.specs.Prelude.{◌≡◌, chars, map};
ghost use Rattle.std.specs.List.{list_any};
ghost use Rattle.std.specs.Str.{encode_utf8_all};
ghost use Rattle.rustc_parse_format.specs.Views.{seen_piece};
ghost use Rattle.call_faults.specs.Directives.{ends_directive, has_directive, holds_directive};
ghost use Rattle.call_faults.specs.Directives.{is_length, next_mark};

use rustc_parse_format::Piece;

/// Returns whether a byte is of a length in a directive of `printf`, before its conversion.
fn is_length(byte: u8) -> bool
    ensures { result ≡ is_length byte }
{
    byte == b'h'
        || byte == b'j'
        || byte == b'l'
        || byte == b'q'
        || byte == b't'
        || byte == b'z'
        || byte == b'I'
        || byte == b'L'
}

/// Returns whether a byte makes a directive or a variable of what begins with `mark`: `%`, `$`, or
/// 0 for nothing.
fn ends_directive(mark: u8, byte: u8) -> bool
    ensures { result ≡ ends_directive mark byte }
{
    (mark == b'%' && byte != b'%' && !is_length(byte))
        || (mark == b'$' && (byte == b'_' || byte.is_ascii_alphanumeric()))
}

/// Returns the mark with which a directive may begin after a byte, or 0 for none. A mark after
/// itself stands for itself.
fn next_mark(mark: u8, byte: u8) -> u8
    ensures { result ≡ next_mark mark byte }
{
    if mark == b'%' && is_length(byte) {
        mark
    } else if byte != mark && (byte == b'%' || byte == b'$') {
        byte
    } else {
        0
    }
}

/// Returns whether a text has a directive or a variable.
fn has_directive(text: &str) -> bool
    ensures { result ≡ has_directive 0 (encode_utf8_all (chars text.now)) }
{
    let bytes = text.as_bytes();
    let mut mark = 0;
    for byte in bytes {
        if ends_directive(mark, *byte) {
            return true;
        }
        mark = next_mark(mark, *byte);
    }
    false
}

/// Returns whether a piece is text with a directive or a variable.
fn holds_directive(piece: &Piece<'_>) -> bool
    ensures { result ≡ holds_directive (seen_piece piece.now) }
{
    match piece {
        Piece::Lit(text) => has_directive(text),
        Piece::NextArgument(_) => false,
    }
}

/// Returns whether one of these pieces is text with a directive or a variable.
pub(crate) fn hold_directives(pieces: &[Piece<'_>]) -> bool
    ensures { result ≡ list_any holds_directive (map seen_piece pieces.now) }
{
    for piece in pieces {
        if holds_directive(piece) {
            return true;
        }
    }
    false
}
