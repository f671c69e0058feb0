//! The tokens of an input and their places.

ghost use Rattle.std.specs.Prelude.{◌≡◌, ◌+◌, ◌<◌, ◌^◌, None, Some, IfOk, MatchOption, chars};
ghost use Rattle.std.specs.Prelude.{List, length, map};
ghost use Rattle.rustc_parse_format.specs.Characters.{Text, byte_length};
ghost use Rattle.rustc_parse_format.specs.Literal.{IsSource};
ghost use Rattle.rustc_parse_format.specs.Views.{seen_mode, seen_snippet};
ghost use Rattle.rustc_parse_format.specs.Source.{HasSource, unappended_input};
ghost use Rattle.rustc_parse_format.specs.Types.{Mode, wants_names};
ghost use Rattle.rustc_parse_format.specs.World.{hashes, world};
ghost use Rattle.format_tokens.specs.Covers.{AreParts, IsCover, encoded_tokens, in_quotes};
ghost use Rattle.format_tokens.specs.Covers.{ranges_of, read_back, slices};
ghost use Rattle.format_tokens.specs.Labels.{sized_token};
ghost use Rattle.format_tokens.specs.Spans.{cut_in, input_tokens, tokens, whole_tokens};
ghost use Rattle.format_tokens.specs.Escapes.{Placed};
ghost use Rattle.format_tokens.specs.Views.{seen_text, seen_token};
ghost use Rattle.format_tokens.specs.Starts.{starts_of};
ghost use Rattle.format_tokens.specs.Walk.{read_tokens};

use crate::escapes::cut_escapes;
use crate::kinds::{Kind, Label, Token};
use crate::parts::{length_of, width_of};
use crate::places::{ordinary_starts, place, plain_starts};
use crate::walk::labels;
use rustc_parse_format::ParseMode;
use rustc_parse_format::literal::is_source_literal;
use std::alloc::{AllocError, Global};

/// Returns whether each argument has to be a name and nothing else.
fn wants_names(mode: ParseMode) -> bool
    ensures { result ≡ wants_names (seen_mode mode) }
{
    matches!(mode, ParseMode::DiagnosticNamed)
}

/// Returns the snippet if it is the source literal of the input.
fn source_of<'a>(
    input: &str,
    style: Option<usize>,
    snippet: Option<&'a str>,
    appended_newline: bool,
) -> Option<&'a str>
    ensures { MatchOption result
        (HasSource (chars input.now) style (seen_text snippet.entry) appended_newline → ⊥)
        (λ s. (seen_text snippet.entry ≡ Some (chars s.now))
        × IsSource (chars input.now) style (chars s.now) appended_newline) }
{
    match snippet {
        None => None,
        Some(literal) => {
            if is_source_literal(input, style, literal, appended_newline) {
                Some(literal)
            } else {
                None
            }
        }
    }
}

/// Returns the byte offsets where the characters of an input start in its source literal, and then
/// the end of the text. Returns `Err` if an allocation fails.
fn literal_starts(
    alloc: Global,
    input: &str,
    style: Option<usize>,
    literal: &str,
    appended_newline: bool,
) -> Result<Vec<usize>, AllocError>
    requires room { hashes style + length input.now + 2 < 2 ^ 64 }
    requires source { IsSource (chars input.now) style (chars literal.now) appended_newline }
    ensures { IfOk result (λ v. v.items
        ≡ starts_of (world (chars input.now) style (Some (chars literal.now)) appended_newline)) }
{
    match style {
        None => ordinary_starts(alloc, literal, appended_newline),
        Some(hashes) => {
            let end = width_of(literal).saturating_sub(hashes + 1);
            plain_starts(alloc, hashes + 2, input, end)
        }
    }
}

/// Returns the tokens of an input with their byte ranges, where escapes are in the tokens of the
/// characters that they stand for, and the opening and the closing of `literal`, its source literal
/// if it has one. Returns `Err` if an allocation fails.
fn place_whole(
    alloc: Global,
    input: &str,
    style: Option<usize>,
    literal: &str,
    appended_newline: bool,
    needs_names: bool,
    labels: &[Label],
) -> Result<Vec<Token>, AllocError>
    requires room { hashes style + length input.now + 2 < 2 ^ 64 }
    requires source { IsSource (chars input.now) style (chars literal.now) appended_newline }
    ensures { IfOk result (λ v. (mode : Mode)
        → labels.now ≡ map sized_token (read_tokens mode (chars input.now))
        → needs_names ≡ wants_names mode
        → map seen_token v.items
        ≡ whole_tokens mode (chars input.now) style (Some (chars literal.now)) appended_newline) }
{
    let count = length_of(input).saturating_sub(usize::from(appended_newline));
    let offsets = literal_starts(alloc, input, style, literal, appended_newline)?;
    let starts = offsets.as_slice();
    let mut tokens = Vec::with_capacity(alloc, labels.len().saturating_add(2))?;
    tokens.push(Token {
        kind: Kind::Quote,
        span: 0..starts[0],
    })?;
    place(&mut tokens, needs_names, labels, starts, count)?;
    tokens.push(Token {
        kind: Kind::Quote,
        span: starts[starts.len() - 1]..width_of(literal),
    })?;
    Ok(tokens)
}

/// Returns the tokens of an input with their byte ranges. `labels` are those that `label` adds; the
/// other arguments are those of `tokens`. Returns `Err` if an allocation fails.
pub fn place_labels(
    alloc: Global,
    input: &str,
    style: Option<usize>,
    snippet: Option<&str>,
    appended_newline: bool,
    mode: ParseMode,
    labels: &[Label],
) -> Result<Vec<Token>, AllocError>
    requires { hashes style + length input.now + 2 < 2 ^ 64 }
    ensures { IfOk result (λ v.
        labels.now ≡ map sized_token (read_tokens (seen_mode mode) (chars input.now))
        → map seen_token v.items ≡ tokens (seen_mode mode) (chars input.now) style
        (seen_text snippet.entry) appended_newline) }
{
    let needs_names = wants_names(mode);
    let Some(literal) = source_of(input, style, snippet, appended_newline) else {
        let count = length_of(input).saturating_sub(usize::from(appended_newline));
        let starts = plain_starts(alloc, 0, input, width_of(input))?;
        let mut tokens = Vec::with_capacity(alloc, labels.len())?;
        place(&mut tokens, needs_names, labels, starts.as_slice(), count)?;
        return Ok(tokens);
    };
    let tokens = place_whole(
        alloc,
        input,
        style,
        literal,
        appended_newline,
        needs_names,
        labels,
    )?;
    match style {
        Some(_) => Ok(tokens),
        None => cut_escapes(alloc, literal, tokens),
    }
}

/// Returns the tokens of an input, faulty or not, with their byte ranges in its source literal, or
/// in the input if there is none. Nothing is left out but an appended newline.
///
/// The arguments are those of `Parser::new`: `style` is `None` for an ordinary literal and
/// `Some(n)` for a raw one with n hashes, `snippet` is the literal as it is in the source, and
/// `appended_newline` is whether the last character of the input is a newline that the source does
/// not have. The number of hashes, the byte length of the input and 2 must add up to less than
/// 2^64.
///
/// If the snippet is the source literal of the input, the byte ranges are those of the snippet, and
/// the first and the last token are the opening and the closing of the literal. Otherwise the byte
/// ranges are those of the input, from 0 on.
///
/// The kinds and the characters of the tokens do not depend on `style` and `snippet`, but for the
/// escapes of an ordinary source literal: each escape in text and each continued line is a token of
/// its own, `EscapeSequence`, and cuts the token that it is in. An escape that stands for a brace,
/// or for another character of a placeholder, stays in the token of that character.
///
/// Returns `Err` if an allocation fails.
pub fn tokens(
    alloc: Global,
    input: &str,
    style: Option<usize>,
    snippet: Option<String>,
    appended_newline: bool,
    mode: ParseMode,
) -> Result<Vec<Token>, AllocError>
    requires { hashes style + length input.now + 2 < 2 ^ 64 }
    ensures tokens { IfOk result (λ v. map seen_token v.items ≡ tokens (seen_mode mode)
        (chars input.now) style (seen_snippet snippet) appended_newline) }

    // With a source literal the byte ranges cover it.
    ensures cover { IfOk result (λ v. (source : Text) → seen_snippet snippet ≡ Some source
        → IsSource (chars input.now) style source appended_newline
        → IsCover 0 (byte_length source) (ranges_of (map seen_token v.items))) }

    // They are other tokens, cut at the escapes of the literal: those of the input, in the same
    // kinds and order for each style and snippet, between those of two quotes. The parts of each
    // are of its kind, or escapes, and one is a mark exactly if it is one. The part of the snippet
    // in each of those, with its escapes decoded, is the characters of the token; in the quotes
    // there are none.
    ensures reads_back { IfOk result (λ v. (source : Text) → seen_snippet snippet ≡ Some source
        → IsSource (chars input.now) style source appended_newline
        → (whole : List Placed) × (map seen_token v.items ≡ cut_in style source whole)
        × AreParts whole (map seen_token v.items)
        × (read_back (chars input.now) style source appended_newline whole
        ≡ in_quotes (input_tokens (seen_mode mode) (chars input.now) appended_newline))) }

    // Without one they cover the text, and the part of the input in each is the characters of the
    // token.
    ensures in_text { IfOk result (λ v.
        (HasSource (chars input.now) style (seen_snippet snippet) appended_newline → ⊥)
        → IsCover 0 (byte_length (unappended_input appended_newline (chars input.now)))
        (ranges_of (map seen_token v.items))
        × (slices input.now (map seen_token v.items)
        ≡ encoded_tokens (input_tokens (seen_mode mode) (chars input.now) appended_newline))) }
{
    let text = match &snippet {
        None => None,
        Some(literal) => Some(literal.as_str()),
    };
    let labels = labels(alloc, input, mode)?;
    place_labels(alloc, input, style, text, appended_newline, mode, &labels)
}
