//! Whether a string literal can stand in a program.

ghost use Rattle.std.specs.Prelude.{◌≡◌, ◌↔◌, IsTrue, chars};
ghost use Rattle.std.specs.List.{list_all};
ghost use Rattle.rustc_parse_format.specs.Literal.{IsLiteral};
ghost use Rattle.format_literal.specs.Spelling.{IsRawToken, IsWritten, is_no_cr};

use rust_tokens::{Kind, first_token, split_first};

/// Returns whether a text is one token, a raw string literal without a suffix.
fn is_raw_token(text: &str) -> bool
    ensures { IsTrue result ↔ IsRawToken (chars text.now) }
{
    let Some(token) = first_token(text) else {
        return false;
    };
    match token.kind {
        Kind::RawStr => token.is_ended && token.suffix_start == text.len(),
        _ => false,
    }
}

/// Returns whether a text has no CR.
fn has_no_cr(text: &str) -> bool
    ensures { result ≡ list_all is_no_cr (chars text.now) }
{
    let mut rest = text;
    while let Some((c, more)) = split_first(rest) {
        if c == '\r' {
            return false;
        }
        rest = more;
    }
    true
}

/// Returns whether a literal of this style, which stands for this text, can stand in a program.
pub(crate) fn is_written(literal: &str, style: Option<usize>, text: &str) -> bool
    requires { IsLiteral style (chars literal.now) (chars text.now) }
    ensures { IsTrue result ↔ IsWritten style (chars literal.now) (chars text.now) }
{
    match style {
        None => true,
        Some(_) => is_raw_token(literal) && has_no_cr(text),
    }
}
