//! The byte offsets where the characters of an input start in its source.

ghost use Rattle.std.specs.Prelude.{◌≡◌, ◌+◌, ◌-◌, ◌<◌, ◌≤◌, ◌^◌, ◌++◌, Bool, None, Some, IfOk};
ghost use Rattle.std.specs.Prelude.{false};
ghost use Rattle.std.specs.Prelude.{chars};
ghost use Rattle.std.specs.Prelude.{OnOk, length, map};
ghost use Rattle.rustc_parse_format.specs.Characters.{Text};
ghost use Rattle.rustc_parse_format.specs.Literal.{IsSource};
ghost use Rattle.rustc_parse_format.specs.World.{World, plain_world, world};
ghost use Rattle.format_tokens.specs.Culprits.{marked_tokens};
ghost use Rattle.format_tokens.specs.Views.{seen_token};
ghost use Rattle.format_tokens.specs.Starts.{pairs, placed_sizes, starts_of};

use crate::culprits::{fits, inside_after, marked_kind, role_of};
use crate::kinds::{Label, Token};
use crate::parts::length_of;
use rustc_parse_format::literal::{quoted_content, read_content};
use std::alloc::{AllocError, Global};

/// Returns the byte offsets where the characters of a text start, where it starts at `at` and each
/// character stands for itself, and then `end`. Returns `Err` if an allocation fails.
pub fn plain_starts(
    alloc: Global,
    at: usize,
    text: &str,
    end: usize,
) -> Result<Vec<usize>, AllocError>
    requires { at + length text.now < 2 ^ 64 }
    ensures { IfOk result (λ v. (b : Bool)
        → v.items ≡ starts_of (plain_world b at (chars text.now) end)) }
{
    let mut starts = Vec::with_capacity(alloc, length_of(text).saturating_add(1))?;
    let mut next = at;
    let mut rest = text.chars();
    while let Some(c) = rest.next() {
        starts.push(next)?;
        next += c.len_utf8();
    }
    starts.push(end)?;
    Ok(starts)
}

/// Returns the byte offsets where the characters of an input start in its source literal, an
/// ordinary one, and then the end of the text. Returns `Err` if an allocation fails.
pub fn ordinary_starts(
    alloc: Global,
    snippet: &str,
    appended_newline: bool,
) -> Result<Vec<usize>, AllocError>
    ensures { IfOk result (λ v. (input : Text)
        → IsSource input None (chars snippet.now) appended_newline
        → v.items ≡ starts_of (world input None (Some (chars snippet.now)) appended_newline)) }
{
    let Some(content) = quoted_content(snippet) else {
        return Ok(Vec::new(alloc));
    };
    let Some(characters) = read_content(alloc, content)? else {
        return Ok(Vec::new(alloc));
    };
    let mut starts = Vec::with_capacity(alloc, characters.len().saturating_add(2))?;
    let mut end = 1;
    for character in &characters {
        starts.push(character.span.start + 1)?;
        end = character.span.end + 1;
    }
    if appended_newline {
        starts.push(end)?;
    }
    starts.push(end)?;
    Ok(starts)
}

/// Adds the tokens of the first `count` characters, with those marked that are out of place.
/// `needs_names` says whether only names are accepted, `starts` where the characters start. Returns
/// `Err` if an allocation fails.
pub fn place(
    tokens: &mut Vec<Token>,
    needs_names: bool,
    labels: &[Label],
    starts: &[usize],
    count: usize,
) -> Result<(), AllocError>
    requires { count < length starts.now }
    ensures { OnOk result ((w : World) → starts.now ≡ starts_of w
        → map seen_token tokens.new.items ≡ map seen_token tokens.old.items
        ++ placed_sizes w (length w.places) count
        (marked_tokens needs_names false (pairs labels.now))) }
{
    let mut at = 0;
    let mut is_inside = false;
    let mut rest = labels;
    while let Some((label, others)) = rest.split_first() {
        let role = role_of(label.kind);
        let is_in_place = fits(needs_names, is_inside, role, others);
        let to = at + label.width.min(count - at);
        if at < to {
            tokens.push(Token {
                kind: marked_kind(label.kind, is_in_place),
                span: starts[at]..starts[to],
            })?;
        }
        at = to;
        is_inside = inside_after(is_inside, is_in_place, role);
        rest = others;
    }
    Ok(())
}
