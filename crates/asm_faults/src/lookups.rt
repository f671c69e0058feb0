//! The lookups for the placeholders of a template, in rustc's order.

ghost use Rattle.std.specs.Prelude.{◌≡◌, ◌≤◌, ◌∷◌, ◌++◌, [], OnOk, Some, chars, drop, length, map};
ghost use Rattle.std.specs.Prelude.{option_map};
ghost use Rattle.rustc_parse_format.specs.Views.{pair, seen_piece, seen_argument, seen_position};
ghost use Rattle.asm_faults.specs.Lookups.{argument_lookups, first_spot, is_long, is_next};
ghost use Rattle.asm_faults.specs.Lookups.{modifier_lookups, next_after};
ghost use Rattle.asm_faults.specs.Lookups.{next_after_pieces, next_of};
ghost use Rattle.asm_faults.specs.Lookups.{one_lookups, piece_lookups, places_after};
ghost use Rattle.asm_faults.specs.Lookups.{position_lookup, spot_of};
ghost use Rattle.asm_faults.specs.Views.{seen_lookup};

use crate::faults::AsmSpot;
use rustc_parse_format::{Argument, Piece, Position};
use std::alloc::AllocError;
use std::ops::Range;

/// A lookup for a placeholder.
#[derive(Clone, Copy)]
pub(crate) enum Lookup<'a> {
    /// The operand of this index, for the placeholder there.
    Index(AsmSpot, usize),
    /// The operand with this name, which stands there.
    Name(AsmSpot, &'a str),
    /// A modifier of several characters, which stands there.
    LongModifier(AsmSpot),
}

/// The lookups for the placeholders so far.
#[derive(Drop)]
pub(crate) struct Walk<'a> {
    /// The lookups.
    pub lookups: Vec<Lookup<'a>>,
    /// The index of the operand that the next placeholder without a position means.
    pub next: usize,
}

/// Returns a range of a template.
pub(crate) fn bytes_at(template: usize, span: &Range<usize>) -> AsmSpot
    ensures { result ≡ spot_of template (Some (pair span.now)) }
{
    AsmSpot::Bytes {
        template,
        start: span.start,
        end: span.end,
    }
}

/// Returns a range of a template, or the whole template if there is none.
fn spot_of(template: usize, span: &Option<Range<usize>>) -> AsmSpot
    ensures { result ≡ spot_of template (option_map pair span.now) }
{
    match span {
        None => AsmSpot::Template(template),
        Some(span) => bytes_at(template, span),
    }
}

/// Returns the first of the places of placeholders, or the whole template if there is none.
fn first_spot(template: usize, places: &[Range<usize>]) -> AsmSpot
    ensures { result ≡ first_spot template (map pair places.now) }
{
    match places.first() {
        None => AsmSpot::Template(template),
        Some(place) => bytes_at(template, place),
    }
}

/// Returns the places after the first one.
fn others(places: &[Range<usize>]) -> &[Range<usize>]
    ensures { map pair result.now ≡ drop 1 (map pair places.now) }
{
    match places.split_first() {
        None => places,
        Some((_, others)) => others,
    }
}

/// Returns whether a position is that of a placeholder without one.
fn is_next(position: &Position<'_>) -> bool
    ensures { result ≡ is_next (seen_position position.now) }
{
    matches!(position, Position::ArgumentImplicitlyIs(_))
}

/// Returns the lookup of the position of a placeholder at a place, where one without a position
/// means the operand of the index `next`.
fn position_lookup<'a>(
    template: usize,
    next: usize,
    spot: AsmSpot,
    argument: &Argument<'a>,
) -> Lookup<'a>
    ensures { seen_lookup result
        ≡ position_lookup template next spot (seen_argument argument.now) }
{
    match argument.position {
        Position::ArgumentImplicitlyIs(_) => Lookup::Index(spot, next),
        Position::ArgumentIs(index) => Lookup::Index(spot, index),
        Position::ArgumentNamed(name) => {
            Lookup::Name(bytes_at(template, &argument.position_span), name)
        }
    }
}

/// Returns the number of characters of a text.
fn length_of(text: &str) -> usize
    ensures { result ≡ length (chars text.now) }
{
    text.chars().count()
}

/// Returns whether a modifier has several characters.
fn is_long(ty: &str) -> bool
    ensures { result ≡ is_long (chars ty.now) }
{
    length_of(ty) > 1
}

/// Adds the lookup for the modifier of a placeholder. Returns `Err` if an allocation fails.
fn push_modifier<'a>(
    lookups: &mut Vec<Lookup<'a>>,
    template: usize,
    argument: &Argument<'a>,
) -> Result<(), AllocError>
    ensures lookups { OnOk result (map seen_lookup lookups.new.items
        ≡ map seen_lookup lookups.old.items
        ++ modifier_lookups template (seen_argument argument.now).format) }
    ensures more { OnOk result (length lookups.old.items ≤ length lookups.new.items) }
{
    if is_long(argument.format.ty) {
        lookups.push(Lookup::LongModifier(spot_of(template, &argument.format.ty_span)))?;
    }
    Ok(())
}

/// Adds the lookups for a placeholder at a place. Returns `Err` if an allocation fails.
fn push_argument<'a>(
    walk: &mut Walk<'a>,
    template: usize,
    spot: AsmSpot,
    argument: &Argument<'a>,
) -> Result<(), AllocError>
    requires { walk.old.next ≤ length walk.old.lookups.items }
    ensures lookups { OnOk result (map seen_lookup walk.new.lookups.items
        ≡ map seen_lookup walk.old.lookups.items
        ++ argument_lookups template walk.old.next spot (seen_argument argument.now)) }
    ensures next { OnOk result (walk.new.next
        ≡ next_after walk.old.next (seen_position argument.now.position)) }
    ensures few { OnOk result (walk.new.next ≤ length walk.new.lookups.items) }
{
    let lookup = position_lookup(template, walk.next, spot, argument);
    walk.lookups.push(lookup)?;
    if is_next(&argument.position) {
        walk.next += 1;
    }
    push_modifier(&mut walk.lookups, template, argument)?;
    Ok(())
}

/// Adds the lookups for a piece, where `places` are those of its placeholder and of the later
/// ones. Returns `Err` if an allocation fails.
fn push_piece<'a>(
    walk: &mut Walk<'a>,
    template: usize,
    places: &[Range<usize>],
    piece: &Piece<'a>,
) -> Result<(), AllocError>
    requires { walk.old.next ≤ length walk.old.lookups.items }
    ensures lookups { OnOk result (map seen_lookup walk.new.lookups.items
        ≡ map seen_lookup walk.old.lookups.items
        ++ one_lookups template walk.old.next (map pair places.now) (seen_piece piece.now)) }
    ensures next { OnOk result (walk.new.next ≡ next_of walk.old.next (seen_piece piece.now)) }
    ensures few { OnOk result (walk.new.next ≤ length walk.new.lookups.items) }
{
    match piece {
        Piece::Lit(_) => Ok(()),
        Piece::NextArgument(argument) => {
            push_argument(walk, template, first_spot(template, places), argument)
        }
    }
}

/// Returns the places after that of a piece, if it is a placeholder.
fn places_after<'p>(places: &'p [Range<usize>], piece: &Piece<'_>) -> &'p [Range<usize>]
    ensures { map pair result.now ≡ places_after (map pair places.now) (seen_piece piece.now) }
{
    match piece {
        Piece::Lit(_) => places,
        Piece::NextArgument(_) => others(places),
    }
}

/// Adds the lookups for the pieces of a template, whose placeholders have these places, in their
/// order. Returns `Err` if an allocation fails.
pub(crate) fn push_pieces<'a>(
    walk: &mut Walk<'a>,
    template: usize,
    pieces: &[Piece<'a>],
    places: &[Range<usize>],
) -> Result<(), AllocError>
    requires { walk.old.next ≤ length walk.old.lookups.items }
    ensures lookups { OnOk result (map seen_lookup walk.new.lookups.items
        ≡ map seen_lookup walk.old.lookups.items
        ++ piece_lookups template walk.old.next (map pair places.now) (map seen_piece pieces.now)) }
    ensures next { OnOk result (walk.new.next
        ≡ next_after_pieces walk.old.next (map seen_piece pieces.now)) }
    ensures few { OnOk result (walk.new.next ≤ length walk.new.lookups.items) }
{
    let mut places = places;
    for piece in pieces {
        let rest_places = places_after(places, piece);
        push_piece(walk, template, places, piece)?;
        places = rest_places;
    }
    Ok(())
}
