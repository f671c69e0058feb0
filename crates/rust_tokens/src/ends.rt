//! The ends of literals and comments, found in the bytes of a text. The marks of an end are ASCII,
//! and no byte of any other character is.

ghost use Rattle.std.specs.Prelude.{◌≡◌, chars, false, option_map};
ghost use Rattle.rust_tokens.specs.Comments.{after_comment};
ghost use Rattle.rust_tokens.specs.RawStrings.{after_hashes, after_raw};
ghost use Rattle.rust_tokens.specs.Runs.{rest_after, is_in_line};
ghost use Rattle.rust_tokens.specs.Strings.{after_string};
ghost use Rattle.rust_tokens.specs.Texts.{IsRest};

/// Returns the rest of a text, where these bytes are left of its bytes.
#[inline(always)]
fn rest_of<'a>(text: &'a str, bytes: &[u8]) -> &'a str
    requires { IsRest text.now bytes.now }
    ensures { result.now ≡ bytes.now }
{
    &text[text.len() - bytes.len()..]
}

/// Returns the rest after the closing quote of a string with escapes, from after its opening quote
/// on, or `None` if it has no end.
#[tactic(auto, unfolding(crate::specs::Strings::after_string), using(crate::proofs::AsciiMarks::string_ends))]
pub fn after_string(text: &str) -> Option<&str>
    ensures { option_map (λ r. chars r.now) result ≡ after_string false (chars text.now) }
{
    let mut rest = text.as_bytes();
    let mut is_escaped = false;
    while let Some((byte, more)) = rest.split_first() {
        if is_escaped {
            is_escaped = false;
        } else if *byte == b'"' {
            return Some(rest_of(text, more));
        } else {
            is_escaped = *byte == b'\\';
        }
        rest = more;
    }
    None
}

/// Returns the rest after the end of a block comment, from after its `/*` on, or `None` if it has
/// no end.
#[tactic(auto, unfolding(crate::specs::Comments::after_comment), using(crate::proofs::AsciiMarks::comment_ends))]
pub fn after_comment(text: &str) -> Option<&str>
    ensures { option_map (λ r. chars r.now) result ≡ after_comment 0 0 (chars text.now) }
{
    let mut rest = text.as_bytes();
    let mut depth: usize = 0;
    let mut previous = 0;
    while let Some((byte, more)) = rest.split_first() {
        if previous == b'/' && *byte == b'*' {
            depth += 1;
            previous = 0;
        } else if previous == b'*' && *byte == b'/' {
            if depth == 0 {
                return Some(rest_of(text, more));
            }
            depth -= 1;
            previous = 0;
        } else {
            previous = *byte;
        }
        rest = more;
    }
    None
}

/// Returns the bytes after this many hashes, or `None` if there are not so many.
#[tactic(auto, using(crate::proofs::Hashes::hash_steps))]
fn after_hashes(bytes: &[u8], hashes: usize) -> Option<&[u8]>
    ensures { option_map (λ r. r.now) result ≡ after_hashes hashes bytes.now }
{
    let mut rest = bytes;
    let mut countdown = hashes;
    while countdown > 0 {
        let Some((byte, more)) = rest.split_first() else {
            return None;
        };
        if *byte != b'#' {
            return None;
        }
        rest = more;
        countdown -= 1;
    }
    Some(rest)
}

/// Returns the rest after the end of a raw string with this many hashes, from after its opening
/// quote on, or `None` if it has no end.
#[tactic(auto, unfolding(crate::specs::RawStrings::after_raw), using(crate::proofs::AsciiMarks::raw_ends))]
pub fn after_raw(text: &str, hashes: usize) -> Option<&str>
    ensures { option_map (λ r. chars r.now) result ≡ after_raw hashes (chars text.now) }
{
    let mut rest = text.as_bytes();
    while let Some((byte, more)) = rest.split_first() {
        if *byte == b'"' {
            if let Some(end) = after_hashes(more, hashes) {
                return Some(rest_of(text, end));
            }
        }
        rest = more;
    }
    None
}

/// Returns the text from its first LF on.
#[tactic(auto, using(crate::proofs::AsciiMarks::line_ends))]
pub fn after_line(text: &str) -> &str
    ensures { chars result.now ≡ rest_after is_in_line (chars text.now) }
{
    let mut rest = text.as_bytes();
    while let Some((byte, more)) = rest.split_first() {
        if *byte == b'\n' {
            return rest_of(text, rest);
        }
        rest = more;
    }
    rest_of(text, rest)
}
