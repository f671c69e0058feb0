//! The byte ranges of the texts of a placeholder in a literal that may have escapes.

ghost use Rattle.std.specs.Prelude.{◌≡◌, IfOk, IfSome, Some, chars, false, is_some};
ghost use Rattle.rustc_parse_format.specs.Views.{seen_argument, seen_mode, seen_position};
ghost use Rattle.rustc_parse_format.specs.Views.{seen_spec};
ghost use Rattle.rustc_parse_format.specs.Types.{NextArgument};
ghost use Rattle.flat_reading.specs.Meaning.{text_at};
ghost use Rattle.flat_reading.specs.Progress.{IsListed, IsReadAt, PositionAt, SpecAt};

use crate::fields::NOWHERE;
use crate::records::Extent;
use crate::texts::{Texts, bare_texts, extent_of, has_bytes_at, has_texts, texts_at};
use rustc_parse_format::{Argument, ParseMode, Position};
use std::alloc::{AllocError, Global};

/// Returns the byte range of the name of the placeholder that begins at the byte `start`, or 0..0
/// if its position is no name, or `None` if the name is not right after the brace.
#[inline(always)]
fn near_name(input: &str, start: usize, argument: &Argument<'_>) -> Option<Extent>
    ensures { IfSome result (λ x. PositionAt (text_at input.now x)
        (seen_position argument.now.position)) }
{
    let Position::ArgumentNamed(name) = &argument.position else {
        return Some(NOWHERE);
    };
    let name_start = start.saturating_add(1);
    if !has_bytes_at(input, name_start, name.as_bytes()) {
        return None;
    }
    let text = extent_of(input, name_start, name);
    // (`{r#r}` has the name `r` after an `r`)
    if has_bytes_at(input, text.end, b"#") {
        return None;
    }
    Some(text)
}

/// Returns the byte ranges in the input of the texts of the placeholder that begins at the byte
/// `start`, or `None` if it has one that is neither right after the brace nor a type without a
/// span.
#[inline(always)]
fn near_texts(input: &str, start: usize, argument: &Argument<'_>) -> Option<Texts>
    requires { is_some (seen_spec argument.now.format).ty_span ≡ false
        → IsListed (chars argument.now.format.ty.now) }
    ensures position { IfSome result (λ x. PositionAt (text_at input.now x.name)
        (seen_position argument.now.position)) }
    ensures format { IfSome result (λ x. SpecAt input.now x.format
        (seen_spec argument.now.format)) }
{
    if has_texts(&argument.format) {
        return None;
    }
    let name = near_name(input, start, argument)?;
    Some(Texts {
        name,
        format: bare_texts(&argument.format),
    })
}

/// Returns the byte ranges in the input of the texts of an argument, which is the placeholder that
/// begins at the byte `start`, where the next implicit argument has the index `next`. Most are near
/// the brace; a parser looks for others. Returns `Err` if an allocation fails.
#[inline(always)]
pub fn texts_of(
    alloc: Global,
    mode: ParseMode,
    input: &str,
    start: usize,
    next: usize,
    argument: &Argument<'_>,
) -> Result<Texts, AllocError>
    requires read { IsReadAt input.now (seen_mode mode) next start
        (Some (NextArgument (seen_argument argument.now))) }
    ensures { IfOk result (λ x. PositionAt (text_at input.now x.name)
        (seen_position argument.now.position)
        × SpecAt input.now x.format (seen_spec argument.now.format)) }
{
    match near_texts(input, start, argument) {
        Some(texts) => Ok(texts),
        None => Ok(texts_at(alloc, mode, input, start, next)?),
    }
}
