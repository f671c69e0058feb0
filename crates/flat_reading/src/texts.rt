//! The byte ranges of a piece's texts in the input.

ghost use Rattle.std.specs.Prelude.{◌≡◌, ℕ, ◌-◌, IfOk, IsFalse, IsTrue, List, Some};
ghost use Rattle.std.specs.Prelude.{chars, codes, false, is_some, option_map};
ghost use Rattle.rustc_parse_format.specs.Views.{pair, seen_count, seen_mode};
ghost use Rattle.rustc_parse_format.specs.Views.{seen_position, seen_spec};
ghost use Rattle.rustc_parse_format.specs.Types.{Argument as ReadArgument, NextArgument};
ghost use Rattle.rustc_parse_format.specs.World.{Place};
ghost use Rattle.flat_reading.specs.declared.records.Extent.{Extent as ExtentRecord};
ghost use Rattle.flat_reading.specs.Meaning.{run_at, text_at, type_meant};
ghost use Rattle.flat_reading.specs.Progress.{CountAt, CountStands, HasBytes};
ghost use Rattle.flat_reading.specs.Progress.{IsLast};
ghost use Rattle.flat_reading.specs.Progress.{IsListed, IsReadAt, PositionAt, PositionStands};
ghost use Rattle.flat_reading.specs.Progress.{SpecAt, SpecStands};
ghost use Rattle.flat_reading.specs.Progress.{StandsAt, StandsAfter, TypeStands, has_texts};

use crate::fields::NOWHERE;
use crate::records::{Extent, TYPE_DEBUG, TYPE_LOWER_HEX, TYPE_NONE, TYPE_TEXT, TYPE_UPPER_HEX};
use rustc_parse_format::{Argument, Count, FormatSpec, ParseMode, Parser, Position};
use std::alloc::{AllocError, Global};

/// The byte ranges of a specification's texts in the input, and the kind of its type.
#[derive(Clone, Copy)]
pub struct SpecTexts {
    /// The name of the width.
    pub width: Extent,
    /// The name of the precision.
    pub precision: Extent,
    /// One of `TYPE_..`.
    pub type_kind: u8,
    /// The type, if `type_kind` is `TYPE_TEXT`.
    pub ty: Extent,
}

/// The byte ranges of a placeholder's texts in the input.
#[derive(Clone, Copy)]
pub struct Texts {
    /// The name of the argument.
    pub name: Extent,
    /// The texts of its specification.
    pub format: SpecTexts,
}

/// Returns whether a specification has a text that is found by its span: a name, or a type with a
/// span.
pub fn has_texts(format: &FormatSpec<'_>) -> bool
    ensures { result ≡ has_texts (seen_spec format.now) }
{
    matches!(format.width, Count::CountIsName(_, _))
        || matches!(format.precision, Count::CountIsName(_, _))
        || format.ty_span.is_some()
}

/// Returns the byte range of a text that begins at `start`. For an empty text this is 0..0, so that
/// no offset is inside a character.
#[inline(always)]
pub fn extent_of(input: &str, start: usize, text: &str) -> Extent
    requires { StandsAt input.now start (chars text.now) }
    ensures { text_at input.now result ≡ chars text.now }
{
    if text.is_empty() {
        return NOWHERE;
    }
    Extent {
        start,
        end: start + text.len(),
    }
}

/// Returns whether the input has these bytes at `start`.
#[inline(always)]
pub fn has_bytes_at(input: &str, start: usize, bytes: &[u8]) -> bool
    ensures yes { IsTrue result → HasBytes input.now start bytes.now }
    ensures no { IsFalse result → ¬ (HasBytes input.now start bytes.now) }
{
    let Some(end) = start.checked_add(bytes.len()) else {
        return false;
    };
    match input.as_bytes().get(start..end) {
        Some(part) => part == bytes,
        None => false,
    }
}

/// Returns the byte range of a text that begins at `start`, or after `prefix` if the input has that
/// at `start`.
#[inline(always)]
fn extent_after(input: &str, prefix: &[u8], start: usize, text: &str) -> Extent
    requires { StandsAfter input.now prefix.now start (chars text.now) }
    ensures { text_at input.now result ≡ chars text.now }
{
    if has_bytes_at(input, start, prefix)
        && has_bytes_at(input, start + prefix.len(), text.as_bytes())
    {
        extent_of(input, start + prefix.len(), text)
    } else {
        extent_of(input, start, text)
    }
}

/// Returns the byte range of a name that begins at `start`, or after an `r#` there. It is no part
/// of `name_extent`, which is inlined: few names are raw.
#[cold]
#[inline(never)]
fn raw_extent(input: &str, start: usize, name: &str) -> Extent
    requires { StandsAfter input.now (codes "r#") start (chars name.now) }
    ensures { text_at input.now result ≡ chars name.now }
{
    extent_after(input, b"r#", start, name)
}

/// Returns the byte range of the name of a count in the input, or 0..0 if it has no name.
#[inline(always)]
fn count_extent(input: &str, offset: usize, count: &Count<'_>) -> Extent
    requires { CountStands input.now offset (seen_count count.now) }
    ensures { CountAt (text_at input.now result) (seen_count count.now) }
{
    match count {
        Count::CountIsName(name, span) => {
            extent_of(input, span.start.saturating_sub(offset), name)
        }
        _ => NOWHERE,
    }
}

/// Returns the kind of a type that has no span.
fn listed_type(ty: &str) -> u8
    ensures { (r : ExtentRecord) → IsListed (chars ty.now) → (input : List ℕ)
        → type_meant input result r ≡ chars ty.now }
{
    match ty.chars().next() {
        Some('x') => TYPE_LOWER_HEX,
        Some('X') => TYPE_UPPER_HEX,
        Some('?') => TYPE_DEBUG,
        _ => TYPE_NONE,
    }
}

/// Returns the kind of a type, and the byte range of the type in the input.
#[inline(always)]
fn type_extent(input: &str, offset: usize, format: &FormatSpec<'_>) -> (u8, Extent)
    requires { TypeStands input.now offset (option_map pair format.now.ty_span)
        (chars format.now.ty.now) }
    ensures { type_meant input.now result.0 result.1 ≡ chars format.now.ty.now }
{
    match &format.ty_span {
        Some(span) => (
            TYPE_TEXT,
            extent_after(input, b":", span.start.saturating_sub(offset), format.ty),
        ),
        None => (listed_type(format.ty), NOWHERE),
    }
}

/// Returns the byte range in the input of the name that is an argument's position, or 0..0 if it is
/// no name.
#[inline(always)]
pub fn name_extent(input: &str, offset: usize, argument: &Argument<'_>) -> Extent
    requires { PositionStands input.now (argument.now.position_span.start - offset)
        (seen_position argument.now.position) }
    ensures { PositionAt (text_at input.now result) (seen_position argument.now.position) }
{
    match &argument.position {
        Position::ArgumentNamed(name) => {
            let start = argument.position_span.start.saturating_sub(offset);
            // (most names have no `r#` before them, and the second byte shows it at once)
            if has_bytes_at(input, start.saturating_add(1), b"#") {
                raw_extent(input, start, name)
            } else {
                extent_of(input, start, name)
            }
        }
        _ => NOWHERE,
    }
}

/// Returns the byte ranges of the texts of a specification that has none that is found by its span.
#[inline(always)]
pub fn bare_texts(format: &FormatSpec<'_>) -> SpecTexts
    requires none { has_texts (seen_spec format.now) ≡ false }
    requires listed { IsListed (chars format.now.ty.now) }
    ensures { (input : List ℕ) → SpecAt input result (seen_spec format.now) }
{
    SpecTexts {
        width: NOWHERE,
        precision: NOWHERE,
        type_kind: listed_type(format.ty),
        ty: NOWHERE,
    }
}

/// Returns the byte ranges in the input of the texts of a specification, whose spans are `offset`
/// bytes after these.
#[inline(always)]
pub fn spec_texts(input: &str, offset: usize, format: &FormatSpec<'_>) -> SpecTexts
    requires { SpecStands input.now offset (seen_spec format.now) }
    ensures { SpecAt input.now result (seen_spec format.now) }
{
    let (type_kind, ty) = type_extent(input, offset, format);
    SpecTexts {
        width: count_extent(input, offset, &format.width),
        precision: count_extent(input, offset, &format.precision),
        type_kind,
        ty,
    }
}

/// Returns the byte range of the literal text that ends at `read`, up to which the input is read.
#[inline(always)]
pub fn run_extent(read: usize, text: &str) -> Extent
    ensures { (input : List ℕ) → IsLast input read (chars text.now)
        → run_at input read result ≡ chars text.now }
{
    Extent {
        start: read.saturating_sub(text.len()),
        end: read,
    }
}

/// Returns the byte ranges in the input of the texts of the placeholder that begins at the byte
/// `start`, where the next implicit argument has the index `next`. Returns `Err` if an allocation
/// fails.
///
/// The placeholder is read by a parser that begins there. To this parser the rest of the input is
/// from a raw literal with `start` hashes, so its spans are two bytes after the byte ranges in the
/// whole input.
#[inline(never)]
pub fn texts_at(
    alloc: Global,
    mode: ParseMode,
    input: &str,
    start: usize,
    next: usize,
) -> Result<Texts, AllocError>
    requires read { (a : ReadArgument Place)
        × IsReadAt input.now (seen_mode mode) next start (Some (NextArgument a)) }
    ensures { IfOk result (λ x. (a : ReadArgument Place)
        → IsReadAt input.now (seen_mode mode) next start (Some (NextArgument a))
        → PositionAt (text_at input.now x.name) a.position × SpecAt input.now x.format a.format) }
{
    let mut parser = Parser::new(alloc, &input[start..], Some(start), None, false, mode)?;
    parser.set_curarg(next);
    let mut argument = Argument::default();
    let _next = parser.next_into(&mut argument)?;
    Ok(Texts {
        name: name_extent(input, 2, &argument),
        format: spec_texts(input, 2, &argument.format),
    })
}
