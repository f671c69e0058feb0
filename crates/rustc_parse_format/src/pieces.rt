//! An iterator over the pieces of a parser.

use crate::parser::Parser;
use crate::types::Piece;
use std::alloc::AllocError;
use std::iter::FusedIterator;

/// An iterator over the pieces of a parser, from its position on. Each item is the result of one
/// call of [`Parser::next`]: a piece, or `AllocError` if an allocation fails, and the parser is
/// then unchanged. The iterator ends for good at the first call that returns `None`, and after the
/// first error; [`Parser::pieces`] then returns a new one, which goes on.
// It has no model: the prover follows the borrow of the parser by its name, which a model hides.
#[derive(Drop)]
pub struct Pieces<'a, 'input> {
    parser: &'a mut Parser<'input>,
    has_ended: bool,
}

impl<'input> Parser<'input> {
    ghost use Rattle.std.specs.Prelude.{◌≡◌, false, List, None, Ok, map};
    ghost use Rattle.std.specs.Iterator.{YieldsThen};
    ghost use Rattle.rustc_parse_format.specs.declared.pieces.Pieces.{Pieces};
    ghost use Rattle.rustc_parse_format.specs.declared.types.Piece.{Piece as DeclaredPiece};
    ghost use Rattle.rustc_parse_format.specs.Call.{pieces_of};
    ghost use Rattle.rustc_parse_format.specs.Pieces.{GivesItem, has_ended, lender_of, parser_of};
    ghost use Rattle.rustc_parse_format.specs.Views.{seen_piece};
    ghost use Rattle.rustc_parse_format.specs.State.{after_all, calls};
    ghost use Rattle.rustc_parse_format.specs.World.{pieces_in};

    /// Returns an iterator over the pieces that follow. Does not allocate, but its items may: each
    /// is one call of [`Parser::next`].
    pub fn pieces(&mut self) -> Pieces<'_, 'input>
        ensures same_parser { lender_of result ≡ self.entry.ghost_name }
        ensures at { parser_of result ≡ self.old }
        ensures begins { has_ended result ≡ false }

        // Up to its end, if no item is an error, its items are the pieces of the calls up to the
        // first `None`, and the parser is then the one after them.
        ensures walk { (ps : List DeclaredPiece) (last : Pieces)
            → YieldsThen GivesItem result (map Ok ps) None last
            → (map seen_piece ps ≡ pieces_in self.old.world (pieces_of (calls self.old)))
            × (parser_of last ≡ after_all self.old (calls self.old)) }
    {
        Pieces {
            parser: self,
            has_ended: false,
        }
    }
}

impl<'input> Iterator for Pieces<'_, 'input> {
    ghost use Rattle.std.specs.Iterator.{at_most};
    ghost use Rattle.rustc_parse_format.specs.Pieces.{GivesItem, items_left};

    type Item = Result<Piece<'input>, AllocError>;

    ghost next_gives = { GivesItem };

    ghost remaining = { λ it. at_most (items_left it) };

    fn next(&mut self) -> Option<Result<Piece<'input>, AllocError>> {
        if self.has_ended {
            return None;
        }
        let item = self.parser.next().transpose();
        self.has_ended = !matches!(item, Some(Ok(_)));
        item
    }
}

impl FusedIterator for Pieces<'_, '_> {}
