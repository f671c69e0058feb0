//! The notes and helps of a call, as plain data, and the places that messages show.

ghost use Rattle.std.specs.Prelude.{◌≡◌, ◌+◌, ◌<◌, ◌^◌, ◌++◌, ◌∷◌, [], IfOk, OnOk, map, option_map};
ghost use Rattle.std.specs.List.{slice_get};
ghost use Rattle.rustc_parse_format.specs.Views.{pair, seen_piece, seen_argument, seen_count};
ghost use Rattle.call_faults.specs.Spots.{rest_after, after_dot, count_spot, count_with};
ghost use Rattle.text_faults.specs.Spots.{bytes_at};
ghost use Rattle.call_faults.specs.Spots.{counts_before, index_spot};
ghost use Rattle.call_faults.specs.Spots.{name_spot, named_spot, part_spot, place_of};
ghost use Rattle.call_faults.specs.Spots.{placeholder_at, reference_spot};
ghost use Rattle.text_faults.specs.Spots.{primary, secondary};
ghost use Rattle.call_faults.specs.Spots.{spot_of, type_spot, use_spot};
ghost use Rattle.text_faults.specs.Views.{seen_label};

use crate::faults::{Part, Reference};
use rustc_parse_format::{Argument, Count, Piece};
use std::alloc::{AllocError, Global};
use std::ops::Range;
use text_faults::{CallLabel, Spot};

/// A note of a fault.
#[derive(Debug, PartialEq, Drop)]
pub struct CallNote {
    /// Its text, in rustc's words, which may have several lines.
    pub text: String,
    /// The places that it shows. A note without any is a row under the labels, and one with some
    /// has a drawing of its own.
    pub spots: Vec<Spot>,
}

/// A text that a help puts in the place of another one.
#[derive(Debug, PartialEq, Drop)]
pub struct CallEdit {
    /// The place of the other text. The range is empty where text is only inserted.
    pub spot: Spot,
    /// The new text, or its start before the source that it copies. It is empty where text is only
    /// removed.
    pub text: String,
    /// The place whose source the new text copies, if it copies any.
    pub copied_spot: Option<Spot>,
    /// The end of the new text, after the copied source.
    pub rest: &'static str,
}

/// A help of a fault.
#[derive(Debug, PartialEq, Drop)]
pub struct CallHelp {
    /// The advice, in rustc's words.
    pub text: String,
    /// The edits that do it, in the order of the source.
    pub edits: Vec<CallEdit>,
}

/// Adds a label of a place that the fault is about.
pub(crate) fn push_primary(
    labels: &mut Vec<CallLabel>,
    spot: Spot,
    text: &str,
) -> Result<(), AllocError>
    ensures { OnOk result (map seen_label labels.new.items
        ≡ map seen_label labels.old.items ++ primary spot text.now ∷ []) }
{
    let text = String::from_str(*labels.allocator(), text)?;
    labels.push(CallLabel {
        spot,
        is_primary: true,
        text,
    })?;
    Ok(())
}

/// Adds a label without a text of a place that the fault is about.
pub(crate) fn push_plain(labels: &mut Vec<CallLabel>, spot: Spot) -> Result<(), AllocError>
    ensures { OnOk result (map seen_label labels.new.items
        ≡ map seen_label labels.old.items ++ primary spot [] ∷ []) }
{
    push_primary(labels, spot, "")?;
    Ok(())
}

/// Adds a label of another place.
pub(crate) fn push_secondary(
    labels: &mut Vec<CallLabel>,
    spot: Spot,
    text: &str,
) -> Result<(), AllocError>
    ensures { OnOk result (map seen_label labels.new.items
        ≡ map seen_label labels.old.items ++ secondary spot text.now ∷ []) }
{
    let text = String::from_str(*labels.allocator(), text)?;
    labels.push(CallLabel {
        spot,
        is_primary: false,
        text,
    })?;
    Ok(())
}

/// Returns a range of the literal.
pub(crate) fn bytes_at(span: &Range<usize>) -> Spot
    ensures { result ≡ bytes_at (pair span.now) }
{
    Spot::Bytes {
        start: span.start,
        end: span.end,
    }
}

/// Returns a range of the literal, or the whole literal if there is none.
pub(crate) fn spot_of(span: &Option<Range<usize>>) -> Spot
    ensures { result ≡ spot_of (option_map pair span.now) }
{
    match span {
        None => Spot::Literal,
        Some(span) => bytes_at(span),
    }
}

/// Returns the placeholder with an index among pieces, or `None` if that is text or after the end.
fn placeholder_at<'p, 'a>(pieces: &'p [Piece<'a>], index: usize) -> Option<&'p Argument<'a>>
    ensures { option_map (λ a. seen_argument a.now) result
        ≡ placeholder_at (map seen_piece pieces.now) index }
{
    match pieces.get(index) {
        Some(Piece::NextArgument(argument)) => Some(argument),
        Some(Piece::Lit(_)) | None => None,
    }
}

/// Returns where a part of a placeholder is.
fn part_spot(argument: &Argument<'_>, part: Part) -> Spot
    ensures { result ≡ part_spot part (seen_argument argument.now) }
{
    match part {
        Part::Position => bytes_at(&argument.position_span),
        Part::Precision => spot_of(&argument.format.precision_span),
        Part::Width => spot_of(&argument.format.width_span),
    }
}

/// Returns where a reference is.
pub(crate) fn reference_spot(pieces: &[Piece<'_>], reference: Reference) -> Spot
    ensures { result ≡ reference_spot (map seen_piece pieces.now) reference }
{
    match placeholder_at(pieces, reference.piece) {
        None => Spot::Literal,
        Some(argument) => part_spot(argument, reference.part),
    }
}

/// Returns where the name of a width or a precision is.
fn count_spot(count: &Count<'_>) -> Spot
    ensures { result ≡ count_spot (seen_count count.now) }
{
    match count {
        Count::CountIsName(_, span) => bytes_at(span),
        Count::CountIs(_) | Count::CountIsParam(_) | Count::CountIsStar(_) | Count::CountImplied =>
            Spot::Literal,
    }
}

/// Returns where the name in a part of a placeholder is.
fn name_spot(argument: &Argument<'_>, part: Part) -> Spot
    ensures { result ≡ name_spot part (seen_argument argument.now) }
{
    match part {
        Part::Position => bytes_at(&argument.position_span),
        Part::Precision => count_spot(&argument.format.precision),
        Part::Width => count_spot(&argument.format.width),
    }
}

/// Returns where the name of a reference is.
pub(crate) fn named_spot(pieces: &[Piece<'_>], reference: Reference) -> Spot
    ensures { result ≡ named_spot (map seen_piece pieces.now) reference }
{
    match placeholder_at(pieces, reference.piece) {
        None => Spot::Literal,
        Some(argument) => name_spot(argument, reference.part),
    }
}

/// Returns where the type of the placeholder with an index is.
pub(crate) fn type_spot(pieces: &[Piece<'_>], index: usize) -> Spot
    ensures { result ≡ type_spot (map seen_piece pieces.now) index }
{
    match placeholder_at(pieces, index) {
        None => Spot::Literal,
        Some(argument) => spot_of(&argument.format.ty_span),
    }
}

/// Returns the places of the placeholders after a piece, from those from that piece on.
pub(crate) fn rest_after<'p>(piece: &Piece<'_>, places: &'p [Range<usize>]) -> &'p [Range<usize>]
    ensures { map pair result.now ≡ rest_after (seen_piece piece.now) (map pair places.now) }
{
    match piece {
        Piece::Lit(_) => places,
        Piece::NextArgument(_) => match places {
            [] => places,
            [_, others @ ..] => others,
        },
    }
}

/// Returns the number of placeholders up to a piece, where so many stand before it.
fn count_with(count: usize, piece: &Piece<'_>) -> usize
    requires { count + 1 < 2 ^ 64 }
    ensures { result ≡ count_with count (seen_piece piece.now) }
{
    match piece {
        Piece::Lit(_) => count,
        Piece::NextArgument(_) => count + 1,
    }
}

/// Returns of each of these pieces how many placeholders stand before it. Returns `Err` if an
/// allocation fails.
pub(crate) fn counts_before(alloc: Global, pieces: &[Piece<'_>]) -> Result<Vec<usize>, AllocError>
    ensures { IfOk result (λ v. v.items ≡ counts_before 0 (map seen_piece pieces.now)) }
{
    let mut counts = Vec::with_capacity(alloc, pieces.len())?;
    let mut count = 0;
    for piece in pieces {
        counts.push(count)?;
        count = count_with(count, piece);
    }
    Ok(counts)
}

/// Returns the first one of places, or the whole literal if there is none.
pub(crate) fn first_spot(places: &[Range<usize>]) -> Spot
    ensures { result ≡ spot_of (slice_get (map pair places.now) 0) }
{
    match places.first() {
        None => Spot::Literal,
        Some(place) => bytes_at(place),
    }
}

/// Returns the place of the placeholder with an index among pieces, before each of which so many
/// stand, or the whole literal if it has none.
#[tactic(auto, using(text_faults::proofs::Collecting::at_index))]
fn place_spot(counts: &[usize], places: &[Range<usize>], index: usize) -> Spot
    ensures { result ≡ spot_of (place_of counts.now (map pair places.now) index) }
{
    let Some(count) = counts.get(index) else {
        return Spot::Literal;
    };
    match places.get(*count) {
        None => Spot::Literal,
        Some(place) => bytes_at(place),
    }
}

/// Returns a range without its first byte, which is the dot of a precision.
fn after_dot(span: &Option<Range<usize>>) -> Spot
    ensures { result ≡ after_dot (option_map pair span.now) }
{
    match span {
        None => Spot::Literal,
        Some(span) => Spot::Bytes {
            start: span.start.saturating_add(1).min(span.end),
            end: span.end,
        },
    }
}

/// Returns where a use by index is shown: the whole placeholder, or the width or the precision
/// without its dot.
pub(crate) fn use_spot(
    pieces: &[Piece<'_>],
    counts: &[usize],
    places: &[Range<usize>],
    reference: Reference,
) -> Spot
    ensures { result ≡ use_spot (map seen_piece pieces.now) counts.now
        (map pair places.now) reference }
{
    match placeholder_at(pieces, reference.piece) {
        None => Spot::Literal,
        Some(argument) => match reference.part {
            Part::Position => place_spot(counts, places, reference.piece),
            Part::Precision => after_dot(&argument.format.precision_span),
            Part::Width => spot_of(&argument.format.width_span),
        },
    }
}

/// Returns where a reference has the index of its argument: its position, or its width or its
/// precision without its dot.
pub(crate) fn index_spot(pieces: &[Piece<'_>], reference: Reference) -> Spot
    ensures { result ≡ index_spot (map seen_piece pieces.now) reference }
{
    match placeholder_at(pieces, reference.piece) {
        None => Spot::Literal,
        Some(argument) => match reference.part {
            Part::Position => bytes_at(&argument.position_span),
            Part::Precision => after_dot(&argument.format.precision_span),
            Part::Width => spot_of(&argument.format.width_span),
        },
    }
}
