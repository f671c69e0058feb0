//! Writes pieces as records.

ghost use Rattle.std.specs.Prelude.{◌≡◌, ℕ, ◌<◌, ◌≤◌, if◌then◌else◌, List, Some, length};
ghost use Rattle.rustc_parse_format.specs.Views.{pair, seen_argument, seen_position, seen_spec};
ghost use Rattle.rustc_parse_format.specs.Types.{NextArgument};
ghost use Rattle.flat_reading.specs.Events.{is_default};
ghost use Rattle.flat_reading.specs.Meaning.{piece_meant, place, position_meant, spec_at, text_at};
ghost use Rattle.flat_reading.specs.Progress.{Adds, ArgumentStands, PositionAt, SameAfter, SpecAt};
ghost use Rattle.flat_reading.specs.Progress.{SpecStands};

use crate::fields::put_extent;
use crate::records::{
    Extent, PIECE_ARGUMENT, PIECE_NONE, PIECE_TEXT, POSITION_IMPLICIT, POSITION_INDEX,
    POSITION_NAMED, Step,
};
use crate::specification::{SpecBuffer, is_default, no_spec};
use crate::texts::{Texts, bare_texts, has_texts, name_extent, spec_texts};
use rustc_parse_format::{Argument, FormatSpec, Position};

/// Writes an argument into its step, but for its specification. `name` is the byte range of its
/// name in the input.
#[inline(always)]
fn put_position(argument: &Argument<'_>, name: Extent, step: &mut Step)
    ensures kind { step.new.kind ≡ 2 }
    ensures position { (input : List ℕ)
        → PositionAt (text_at input name) (seen_position argument.now.position)
        → position_meant input step.new.position step.new.number step.new.text
        ≡ seen_position argument.now.position }
    ensures span { place step.new.position_span ≡ pair argument.now.position_span }
    ensures others { SameAfter step.old step.new }
{
    step.kind = PIECE_ARGUMENT;
    match argument.position {
        Position::ArgumentImplicitlyIs(number) => {
            step.position = POSITION_IMPLICIT;
            step.number = number;
        }
        Position::ArgumentIs(number) => {
            step.position = POSITION_INDEX;
            step.number = number;
        }
        Position::ArgumentNamed(_) => {
            step.position = POSITION_NAMED;
            step.text = name;
        }
    }
    put_extent(&argument.position_span, &mut step.position_span);
}

/// Writes into a step that the call returned no piece.
#[inline(always)]
pub fn put_no_piece(step: &mut Step)
    ensures kind { step.new.kind ≡ 0 }
    ensures spec { step.new.spec ≡ 0 }
    ensures others { SameAfter step.old step.new }
{
    step.kind = PIECE_NONE;
    step.spec = 0;
}

/// Writes a run of text into its step. `text` is its byte range in the input.
#[inline(always)]
pub fn put_text(text: Extent, step: &mut Step)
    ensures kind { step.new.kind ≡ 1 }
    ensures text { step.new.text ≡ text }
    ensures spec { step.new.spec ≡ 0 }
    ensures others { SameAfter step.old step.new }
{
    step.kind = PIECE_TEXT;
    step.text = text;
    step.spec = 0;
}

/// Writes an argument into its step, and adds its specification unless that is the default one.
/// `texts` has the byte ranges of its texts in the input.
#[tactic(auto, unfolding(crate::specs::Meaning::piece_meant))]
#[inline(always)]
pub fn put_argument(
    argument: &Argument<'_>,
    texts: &Texts,
    specs: &mut SpecBuffer<'_>,
    step: &mut Step,
)
    requires room { specs.old.count < usize.MAX }
    ensures described { (input : List ℕ)
        → PositionAt (text_at input texts.now.name) (seen_position argument.now.position)
        → SpecAt input texts.now.format (seen_spec argument.now.format) → specs.new.count
        ≤ length specs.old.records.now
        → piece_meant input (spec_at input specs.new.records.now step.new.spec) step.new
        ≡ Some (NextArgument (seen_argument argument.now)) }
    ensures number { step.new.spec ≤ specs.new.count }
    ensures adds { Adds (if is_default (seen_spec argument.now.format)
        then 0 else 1) specs.old specs.new }
    ensures others { SameAfter step.old step.new }
{
    put_position(argument, texts.name, step);
    step.spec = if is_default(&argument.format) {
        no_spec(&argument.format)
    } else {
        specs.add(&argument.format, &texts.format)
    };
}

/// Adds a specification as `add_plain_spec` does. It is no part of that function, so that one
/// without texts takes no room for them.
#[inline(never)]
fn add_spec_with_texts(
    format: &FormatSpec<'_>,
    input: &str,
    offset: usize,
    specs: &mut SpecBuffer<'_>,
) -> usize
    requires stands { SpecStands input.now offset (seen_spec format.now) }
    requires room { specs.old.count < usize.MAX }
    ensures described { specs.new.count ≤ length specs.old.records.now
        → spec_at input.now specs.new.records.now result ≡ seen_spec format.now }
    ensures number { result ≡ specs.new.count }
    ensures adds { Adds 1 specs.old specs.new }
{
    let texts = spec_texts(input, offset, format);
    specs.add(format, &texts)
}

/// Adds a specification, which is not the default one, and returns its number. The byte ranges of
/// its texts in the input are their spans, less an offset.
#[inline(never)]
fn add_plain_spec(
    format: &FormatSpec<'_>,
    input: &str,
    offset: usize,
    specs: &mut SpecBuffer<'_>,
) -> usize
    requires stands { SpecStands input.now offset (seen_spec format.now) }
    requires room { specs.old.count < usize.MAX }
    ensures described { specs.new.count ≤ length specs.old.records.now
        → spec_at input.now specs.new.records.now result ≡ seen_spec format.now }
    ensures number { result ≡ specs.new.count }
    ensures adds { Adds 1 specs.old specs.new }
{
    if has_texts(format) {
        add_spec_with_texts(format, input, offset, specs)
    } else {
        specs.add(format, &bare_texts(format))
    }
}

/// Writes an argument into its step, and adds its specification unless that is the default one.
/// The byte ranges of its texts in the input, if it has any, are their spans, less an offset; those
/// of the default specification are not computed.
#[tactic(auto, unfolding(crate::specs::Meaning::piece_meant))]
#[inline(always)]
pub fn put_plain_argument(
    argument: &Argument<'_>,
    input: &str,
    offset: usize,
    specs: &mut SpecBuffer<'_>,
    step: &mut Step,
)
    requires stands { ArgumentStands input.now offset (seen_argument argument.now) }
    requires room { specs.old.count < usize.MAX }
    ensures described { specs.new.count ≤ length specs.old.records.now
        → piece_meant input.now (spec_at input.now specs.new.records.now step.new.spec) step.new
        ≡ Some (NextArgument (seen_argument argument.now)) }
    ensures number { step.new.spec ≤ specs.new.count }
    ensures adds { Adds (if is_default (seen_spec argument.now.format)
        then 0 else 1) specs.old specs.new }
    ensures others { SameAfter step.old step.new }
{
    put_position(argument, name_extent(input, offset, argument), step);
    step.spec = if is_default(&argument.format) {
        no_spec(&argument.format)
    } else {
        add_plain_spec(&argument.format, input, offset, specs)
    };
}
