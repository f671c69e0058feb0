//! The lines of the pieces of a parser, each written as its call returns it: all placeholders are
//! read into one argument, so that a long text needs no memory for each.

ghost use Rattle.std.specs.Prelude.{◌≡◌, ◌++◌, [], false, IfOk, IsOk, IsTrue, List, OnErr, OnOk};
ghost use Rattle.std.specs.Prelude.{flat_map, option_map, string_bytes};
ghost use Rattle.rustc_parse_format.specs.Call.{pieces_of};
ghost use Rattle.rustc_parse_format.specs.Views.{seen_taken};
ghost use Rattle.rustc_parse_format.specs.State.{AddsNothing, state_after, after_all, calls};
ghost use Rattle.rustc_parse_format.specs.State.{next_call};
ghost use Rattle.rustc_parse_format.specs.World.{piece_in, pieces_in};
ghost use Rattle.placeholder_check.specs.Collection.{Holds};
ghost use Rattle.placeholder_check.specs.Uses.{Use, piece_uses, uses};
ghost use Rattle.piece_listing.specs.Listing.{piece_line};

use super::listing::{put_argument, put_literal};
use placeholder_check::Uses;
use rustc_parse_format::{Argument, FormatSpec, NextPiece, Parser, PieceKind, Position};
use std::alloc::AllocError;

/// Makes the next call of a parser, and returns its piece. A placeholder is in `argument`. Returns
/// `Err` if an allocation fails.
fn next_piece<'a>(
    parser: &mut Parser<'a>,
    argument: &mut Argument<'a>,
) -> Result<Option<PieceKind<'a>>, AllocError>
    ensures piece { IfOk result (λ t. option_map (seen_taken argument.new) t
        ≡ option_map (piece_in parser.old.world) (next_call parser.old).piece) }
    ensures state { OnOk result (parser.new ≡ state_after parser.old (next_call parser.old)) }
    ensures spare { AddsNothing parser.old (next_call parser.old) → IsOk result }
{
    let NextPiece {
        piece,
        front_errors: _,
    } = parser.next_into(argument)?;
    Ok(piece)
}

/// Appends the line of a piece. Returns `Err` if an allocation fails.
fn put_piece_kind(
    out: &mut String,
    piece: &PieceKind<'_>,
    argument: &Argument<'_>,
) -> Result<(), AllocError>
    ensures { OnOk result (string_bytes out.new ≡ string_bytes out.old
        ++ piece_line (seen_taken argument.now piece.now)) }
{
    match piece {
        PieceKind::Lit(text) => put_literal(out, text)?,
        PieceKind::NextArgument => put_argument(out, argument)?,
    }
    Ok(())
}

/// Adds the arguments that a piece uses, if they are to be compared with those that are given.
/// Returns `Err` if an allocation fails.
fn add_uses<'a>(
    uses: &mut Uses<'a>,
    compares_arguments: bool,
    piece: &PieceKind<'a>,
    argument: &Argument<'a>,
) -> Result<(), AllocError>
    ensures { OnOk result (IsTrue compares_arguments → (us : List Use) → Holds us uses.old
        → Holds (us ++ piece_uses (seen_taken argument.now piece.now)) uses.new) }
{
    if compares_arguments && matches!(piece, PieceKind::NextArgument) {
        uses.add(argument)?;
    }
    Ok(())
}

/// Appends the lines of the pieces of a parser up to the first call that returns `None`, and adds
/// the arguments that they use to `all_uses` if `compares_arguments` is set. Returns `Err` if an
/// allocation fails.
pub fn put_calls<'a>(
    out: &mut String,
    all_uses: &mut Uses<'a>,
    compares_arguments: bool,
    parser: &mut Parser<'a>,
) -> Result<(), AllocError>
    ensures lines { OnOk result (string_bytes out.new ≡ string_bytes out.old
        ++ flat_map piece_line (pieces_in parser.old.world (pieces_of (calls parser.old)))) }
    ensures used { OnOk result (IsTrue compares_arguments → (us : List Use) → Holds us all_uses.old
        → Holds (us ++ uses (pieces_in parser.old.world (pieces_of (calls parser.old))))
        all_uses.new) }
    ensures state { OnOk result (parser.new ≡ after_all parser.old (calls parser.old)) }
    ensures empty { parser.old.rest ≡ [] → parser.old.world.has_source ≡ false → IsOk result }
{
    let mut argument = Argument {
        position: Position::ArgumentImplicitlyIs(0),
        position_span: 0..0,
        format: FormatSpec::default(),
    };
    while let Some(piece) = next_piece(parser, &mut argument)? {
        put_piece_kind(out, &piece, &argument)?;
        add_uses(all_uses, compares_arguments, &piece, &argument)?;
    }
    Ok(())
}
