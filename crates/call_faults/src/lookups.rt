//! The lookups for the placeholders of a format string, in rustc's order.

ghost use Rattle.std.specs.Prelude.{◌≡◌, ◌∷◌, ◌++◌, ◌==◌, [], IfOk, OnOk, chars, codes, map};
ghost use Rattle.std.specs.List.{list_any};
ghost use Rattle.rustc_parse_format.specs.Views.{seen_piece, seen_argument, seen_count};
ghost use Rattle.rustc_parse_format.specs.Views.{seen_position};
ghost use Rattle.placeholder_check.specs.Uses.{count_uses, position_use};
ghost use Rattle.call_faults.specs.Lookups.{argument_lookups, is_known, lookups_from};
ghost use Rattle.call_faults.specs.Lookups.{piece_lookups, refer};
ghost use Rattle.call_faults.specs.Views.{seen_lookup, seen_use};

use crate::faults::{Part, Reference};
use rustc_parse_format::{Argument, Count, Piece, Position};
use std::alloc::{AllocError, Global};

/// The argument that a reference wants.
#[derive(Clone, Copy)]
pub(crate) enum ArgRef<'a> {
    /// The one of this index.
    Index(usize),
    /// The one with this name.
    Name(&'a str),
}

/// A lookup for a placeholder.
#[derive(Clone, Copy)]
pub(crate) enum Lookup<'a> {
    /// An argument.
    Refer(Reference, ArgRef<'a>),
    /// A trait that does not exist, for the placeholder of this index with this type.
    NoTrait(usize, &'a str),
}

/// Returns the argument that a position wants.
fn arg_ref_of<'a>(position: &Position<'a>) -> ArgRef<'a>
    ensures { seen_use result ≡ position_use (seen_position position.now) }
{
    match position {
        Position::ArgumentImplicitlyIs(n) | Position::ArgumentIs(n) => ArgRef::Index(*n),
        Position::ArgumentNamed(name) => ArgRef::Name(name),
    }
}

/// Adds the reference of a precision or of a width, if it is one. Returns `Err` if an allocation
/// fails.
fn push_count<'a>(
    list: &mut Vec<Lookup<'a>>,
    reference: Reference,
    count: &Count<'a>,
) -> Result<(), AllocError>
    ensures { OnOk result (map seen_lookup list.new.items ≡ map seen_lookup list.old.items
        ++ refer reference.piece reference.part (count_uses (seen_count count.now))) }
{
    match count {
        Count::CountIsParam(n) | Count::CountIsStar(n) => {
            list.push(Lookup::Refer(reference, ArgRef::Index(*n)))?;
        }
        Count::CountIsName(name, _) => {
            list.push(Lookup::Refer(reference, ArgRef::Name(name)))?;
        }
        Count::CountIs(_) | Count::CountImplied => {}
    }
    Ok(())
}

/// Returns whether a character is a type that names a trait.
fn names_trait(c: char) -> bool
    ensures { result ≡ list_any (λ d. c == d) (codes "?oxXpbeE") }
{
    matches!(c, '?' | 'o' | 'x' | 'X' | 'p' | 'b' | 'e' | 'E')
}

/// Returns whether the type of a format specification names a trait.
fn is_known(ty: &str) -> bool
    ensures { result ≡ is_known (chars ty.now) }
{
    let mut characters = ty.chars();
    match characters.next() {
        None => true,
        Some(c) => names_trait(c) && characters.next().is_none(),
    }
}

/// Adds the lookups for a placeholder. Returns `Err` if an allocation fails.
fn push_argument<'a>(
    list: &mut Vec<Lookup<'a>>,
    piece: usize,
    argument: &Argument<'a>,
) -> Result<(), AllocError>
    ensures { OnOk result (map seen_lookup list.new.items ≡ map seen_lookup list.old.items
        ++ argument_lookups piece (seen_argument argument.now)) }
{
    let part = Part::Position;
    list.push(Lookup::Refer(Reference { piece, part }, arg_ref_of(&argument.position)))?;
    let ty = argument.format.ty;
    if !is_known(ty) {
        list.push(Lookup::NoTrait(piece, ty))?;
    }
    let part = Part::Precision;
    push_count(list, Reference { piece, part }, &argument.format.precision)?;
    let part = Part::Width;
    push_count(list, Reference { piece, part }, &argument.format.width)?;
    Ok(())
}

/// Adds the lookups for a piece. Returns `Err` if an allocation fails.
fn push_piece<'a>(
    list: &mut Vec<Lookup<'a>>,
    index: usize,
    piece: &Piece<'a>,
) -> Result<(), AllocError>
    ensures { OnOk result (map seen_lookup list.new.items ≡ map seen_lookup list.old.items
        ++ piece_lookups index (seen_piece piece.now)) }
{
    match piece {
        Piece::Lit(_) => Ok(()),
        Piece::NextArgument(argument) => push_argument(list, index, argument),
    }
}

/// Returns the lookups for pieces. Returns `Err` if an allocation fails.
pub(crate) fn lookups_of<'a>(
    alloc: Global,
    pieces: &[Piece<'a>],
) -> Result<Vec<Lookup<'a>>, AllocError>
    ensures { IfOk result (λ v. map seen_lookup v.items
        ≡ lookups_from 0 (map seen_piece pieces.now)) }
{
    let mut list = Vec::new(alloc);
    for (index, piece) in pieces.iter().enumerate() {
        push_piece(&mut list, index, piece)?;
    }
    Ok(list)
}
