//! The arguments that pieces use.

ghost use Rattle.std.specs.Prelude.{[], ◌≡◌, ◌∷◌, IfOk, IsOk, OnOk, chars, map};
ghost use Rattle.rustc_parse_format.specs.Views.{seen_piece, seen_argument, seen_count};
ghost use Rattle.rustc_parse_format.specs.Views.{seen_position};
ghost use Rattle.placeholder_check.specs.Uses.{ByIndex, ByName, argument_uses, count_uses};
ghost use Rattle.placeholder_check.specs.Uses.{piece_uses, position_use, uses};
ghost use Rattle.placeholder_check.specs.Collection.{Adds, Holds, IsNew};

use crate::indices::{Indices, insert_index, no_indices};
use crate::names::{Names, insert_name, no_names};
use rustc_parse_format::{Argument, Count, Piece, Position};
use std::alloc::{AllocError, Global};

/// The arguments that placeholders use, each index and each name once.
#[derive(Drop)]
pub struct Uses<'a> {
    /// The indices that are used.
    pub(crate) indices: Indices,
    /// The names that are used.
    pub(crate) names: Names<'a>,
}

impl<'a> Uses<'a> {
    ghost use Rattle.std.specs.Prelude.{◌++◌, [], List, OnOk};
    ghost use Rattle.rustc_parse_format.specs.Views.{seen_argument};
    ghost use Rattle.placeholder_check.specs.Uses.{Use, argument_uses};
    ghost use Rattle.placeholder_check.specs.Collection.{Holds, IsNew};

    /// Returns an empty collection. Does not allocate.
    pub fn new(alloc: Global) -> Uses<'a>
        ensures holds { Holds [] result }
        ensures none { IsNew result }
    {
        Uses {
            indices: no_indices(alloc),
            names: no_names(alloc),
        }
    }

    /// Adds the arguments that a placeholder uses: by its position, its width and its precision, in
    /// this order. Returns `Err` if an allocation fails; the first of them may then be added.
    pub fn add(&mut self, argument: &Argument<'a>) -> Result<(), AllocError>
        ensures { OnOk result ((us : List Use) → Holds us self.old
            → Holds (us ++ argument_uses (seen_argument argument.now)) self.new) }
    {
        add_argument(self, argument)?;
        Ok(())
    }
}

/// Adds a use of an index. Returns `Err` if an allocation fails.
fn add_index(uses: &mut Uses<'_>, index: usize) -> Result<(), AllocError>
    ensures { OnOk result (Adds (ByIndex index ∷ []) uses.old uses.new) }
{
    insert_index(&mut uses.indices, index)?;
    Ok(())
}

/// Adds a use of a name. Returns `Err` if an allocation fails.
fn add_name<'a>(uses: &mut Uses<'a>, name: &'a str) -> Result<(), AllocError>
    ensures { OnOk result (Adds (ByName (chars name.now) ∷ []) uses.old uses.new) }
{
    insert_name(&mut uses.names, name)?;
    Ok(())
}

/// Adds the argument that a position uses. Returns `Err` if an allocation fails.
fn add_position<'a>(uses: &mut Uses<'a>, position: &Position<'a>) -> Result<(), AllocError>
    ensures { OnOk result
        (Adds (position_use (seen_position position.now) ∷ []) uses.old uses.new) }
{
    match position {
        Position::ArgumentImplicitlyIs(n) | Position::ArgumentIs(n) => add_index(uses, *n),
        Position::ArgumentNamed(name) => add_name(uses, name),
    }
}

/// Adds the argument that a width or a precision uses, if it uses one. Returns `Err` if an
/// allocation fails.
fn add_count<'a>(uses: &mut Uses<'a>, count: &Count<'a>) -> Result<(), AllocError>
    ensures { OnOk result (Adds (count_uses (seen_count count.now)) uses.old uses.new) }
{
    match count {
        Count::CountIsParam(n) | Count::CountIsStar(n) => add_index(uses, *n),
        Count::CountIsName(name, _) => add_name(uses, name),
        Count::CountIs(_) | Count::CountImplied => Ok(()),
    }
}

/// Adds the arguments that a placeholder uses: by its position, its width and its precision, in
/// this order. Returns `Err` if an allocation fails.
#[tactic(auto, using(crate::proofs::Noting::adding))]
fn add_argument<'a>(uses: &mut Uses<'a>, argument: &Argument<'a>) -> Result<(), AllocError>
    ensures { OnOk result (Adds (argument_uses (seen_argument argument.now)) uses.old uses.new) }
{
    add_position(uses, &argument.position)?;
    add_count(uses, &argument.format.width)?;
    add_count(uses, &argument.format.precision)?;
    Ok(())
}

/// Adds the arguments that a piece uses. Returns `Err` if an allocation fails.
fn add_piece<'a>(uses: &mut Uses<'a>, piece: &Piece<'a>) -> Result<(), AllocError>
    ensures { OnOk result (Adds (piece_uses (seen_piece piece.now)) uses.old uses.new) }
{
    match piece {
        Piece::Lit(_) => Ok(()),
        Piece::NextArgument(argument) => add_argument(uses, argument),
    }
}

/// Returns the arguments that pieces use. Returns `Err` if an allocation fails.
pub fn uses_of<'a>(alloc: Global, pieces: &[Piece<'a>]) -> Result<Uses<'a>, AllocError>
    ensures uses { IfOk result (λ u. Holds (uses (map seen_piece pieces.now)) u) }
    ensures empty { pieces.now ≡ [] → IfOk result (λ u. IsNew u) × IsOk result }
{
    let mut uses = Uses::new(alloc);
    for piece in pieces {
        add_piece(&mut uses, piece)?;
    }
    Ok(uses)
}
