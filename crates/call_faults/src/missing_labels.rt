//! The labels of missing arguments. A function whose name begins with `push_` adds to the end of
//! `labels`, and returns `Err` if an allocation fails.

ghost use Rattle.std.specs.Prelude.{◌≡◌, ◌++◌, [], IfOk, OnOk, map, string_bytes};
ghost use Rattle.rustc_parse_format.specs.Views.{pair, seen_piece, seen_count, seen_position};
ghost use Rattle.call_faults.specs.Labels.{expected_count, few_labels, is_next, next_label};
ghost use Rattle.call_faults.specs.Labels.{next_labels, star_label, star_labels, star_of};
ghost use Rattle.call_faults.specs.Labels.{star_text};
ghost use Rattle.call_faults.specs.Views.{seen_call};
ghost use Rattle.text_faults.specs.Views.{seen_label};
ghost use Rattle.text_faults.specs.Spots.{primary, secondary};
ghost use Rattle.call_faults.specs.Spots.{reference_spot};
ghost use Rattle.text_faults.specs.declared.spots.Spot.TheVariants.{Value};

use crate::checker::CallReport;
use crate::faults::InvalidReference;
use crate::spots::{first_spot, push_plain, push_secondary, reference_spot, rest_after, spot_of};
use crate::titles::put_number;
use rustc_parse_format::{Count, Piece, Position};
use std::alloc::{AllocError, Global};
use std::ops::Range;
use text_faults::{CallLabel, Spot};

/// Adds the labels of references by an index that is too large.
pub(crate) fn push_missing(
    labels: &mut Vec<CallLabel>,
    pieces: &[Piece<'_>],
    references: &[InvalidReference],
) -> Result<(), AllocError>
    ensures { OnOk result (map seen_label labels.new.items ≡ map seen_label labels.old.items
        ++ map (λ m. primary (reference_spot (map seen_piece pieces.now) m.reference) [])
        references.now) }
{
    let mut rest = references;
    while let Some((first, others)) = rest.split_first() {
        push_plain(labels, reference_spot(pieces, first.reference))?;
        rest = others;
    }
    Ok(())
}

/// Returns the index of the argument that a precision takes by `*`, or `None` if it takes none.
pub(crate) fn star_of(count: &Count<'_>) -> Option<usize>
    ensures { result ≡ star_of (seen_count count.now) }
{
    match count {
        Count::CountIsStar(index) => Some(*index),
        Count::CountIs(_) | Count::CountIsName(..) | Count::CountIsParam(_) | Count::CountImplied =>
            None,
    }
}

/// Returns whether a position is the next argument.
fn is_next(position: &Position<'_>) -> bool
    ensures { result ≡ is_next (seen_position position.now) }
{
    matches!(position, Position::ArgumentImplicitlyIs(_))
}

/// Adds the label of a placeholder that takes the next argument, if the piece is one.
fn push_next(
    labels: &mut Vec<CallLabel>,
    piece: &Piece<'_>,
    places: &[Range<usize>],
) -> Result<(), AllocError>
    ensures { OnOk result (map seen_label labels.new.items ≡ map seen_label labels.old.items
        ++ next_label (seen_piece piece.now) (map pair places.now)) }
{
    let Piece::NextArgument(argument) = piece else {
        return Ok(());
    };
    if is_next(&argument.position) {
        push_plain(labels, first_spot(places))?;
    }
    Ok(())
}

/// Adds the labels of those of pieces that take the next argument.
fn push_nexts(
    labels: &mut Vec<CallLabel>,
    pieces: &[Piece<'_>],
    places: &[Range<usize>],
) -> Result<(), AllocError>
    ensures { OnOk result (map seen_label labels.new.items ≡ map seen_label labels.old.items
        ++ next_labels (map seen_piece pieces.now) (map pair places.now)) }
{
    let mut rest = places;
    for piece in pieces {
        push_next(labels, piece, rest)?;
        rest = rest_after(piece, rest);
    }
    Ok(())
}

/// Adds labels without a text of the values of arguments.
fn push_values(labels: &mut Vec<CallLabel>, indices: &[usize]) -> Result<(), AllocError>
    ensures { OnOk result (map seen_label labels.new.items ≡ map seen_label labels.old.items
        ++ map (λ i. secondary (Value i) []) indices.now) }
{
    let mut rest = indices;
    while let Some((index, others)) = rest.split_first() {
        push_secondary(labels, Spot::Value(*index), "")?;
        rest = others;
    }
    Ok(())
}

/// Adds how many arguments are expected.
fn put_expected(out: &mut String, count: usize) -> Result<(), AllocError>
    ensures { OnOk result (string_bytes out.new ≡ string_bytes out.old ++ expected_count count) }
{
    if count == 1 {
        out.push_str("is 1 argument")?;
        return Ok(());
    }
    out.push_str("are ")?;
    put_number(out, count)?;
    out.push_str(" arguments")?;
    Ok(())
}

/// Adds the text of a precision that takes the argument `index` by `*`, where the
/// placeholders take `total` in all.
fn put_star(out: &mut String, index: usize, total: usize) -> Result<(), AllocError>
    ensures { OnOk result (string_bytes out.new ≡ string_bytes out.old ++ star_text index total) }
{
    out.push_str("this precision flag adds an extra required argument at position ")?;
    put_number(out, index)?;
    out.push_str(", which is why there ")?;
    put_expected(out, total)?;
    out.push_str(" expected")?;
    Ok(())
}

/// Adds the label of a precision that takes an argument by `*`, if the piece has one.
fn push_star(labels: &mut Vec<CallLabel>, total: usize, piece: &Piece<'_>) -> Result<(), AllocError>
    ensures { OnOk result (map seen_label labels.new.items ≡ map seen_label labels.old.items
        ++ star_label total (seen_piece piece.now)) }
{
    let Piece::NextArgument(argument) = piece else {
        return Ok(());
    };
    let Some(index) = star_of(&argument.format.precision) else {
        return Ok(());
    };
    let mut text = String::new(*labels.allocator());
    put_star(&mut text, index, total)?;
    labels.push(CallLabel {
        spot: spot_of(&argument.format.precision_span),
        is_primary: !is_next(&argument.position),
        text,
    })?;
    Ok(())
}

/// Adds the labels of the precisions of pieces that take arguments by `*`.
fn push_stars(
    labels: &mut Vec<CallLabel>,
    total: usize,
    pieces: &[Piece<'_>],
) -> Result<(), AllocError>
    ensures { OnOk result (map seen_label labels.new.items ≡ map seen_label labels.old.items
        ++ star_labels total (map seen_piece pieces.now)) }
{
    for piece in pieces {
        push_star(labels, total, piece)?;
    }
    Ok(())
}

/// Returns the labels of too few arguments, where none is referred to by a number that is written.
pub(crate) fn few_labels(alloc: Global, call: &CallReport<'_>) -> Result<Vec<CallLabel>, AllocError>
    ensures { IfOk result (λ v. map seen_label v.items ≡ few_labels (seen_call call.now)) }
{
    let mut labels = Vec::new(alloc);
    push_values(&mut labels, &call.indices)?;
    push_stars(&mut labels, call.parser.curarg(), &call.pieces)?;
    push_nexts(&mut labels, &call.pieces, call.parser.arg_places())?;
    Ok(labels)
}
