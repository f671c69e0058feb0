//! Methods of the public types: the clone of a piece, the index of a position, the default of an
//! argument, and whether it is an identifier.

ghost use Rattle.std.specs.Prelude.{◌≡◌};
ghost use Rattle.rustc_parse_format.specs.Views.{index_of, pair, seen_position, seen_spec};
ghost use Rattle.rustc_parse_format.specs.Types.{Implicit, default_spec};

use crate::laws::{clone_of_argument, default_of_spec, specs_are_equal};
use crate::types::{Argument, Piece, Position};
use std::alloc::{AllocError, Global};

impl<'input> Piece<'input> {
    ghost use Rattle.std.specs.Prelude.{IfOk, IsOk};
    ghost use Rattle.rustc_parse_format.specs.Views.{seen_piece};
    ghost use Rattle.rustc_parse_format.specs.Types.{IsText};

    /// Returns a clone of the piece, with all its spans. Only a placeholder allocates, with
    /// `alloc`: returns `Err` if that allocation fails.
    pub fn clone(&self, alloc: Global) -> Result<Piece<'input>, AllocError>
        ensures clone { IfOk result (λ p. seen_piece p ≡ seen_piece self.now) }
        ensures spare { IsText (seen_piece self.now) → IsOk result }
    {
        match self {
            Piece::Lit(text) => Ok(Piece::Lit(text)),
            Piece::NextArgument(argument) => {
                let copy = clone_of_argument(argument)?;
                Ok(Piece::NextArgument(Box::new(alloc, copy)?))
            }
        }
    }
}

impl Position<'_> {
    /// Returns the index of the argument, or `None` if it is given by name.
    pub fn index(&self) -> Option<usize>
        ensures { result ≡ index_of self.now }
    {
        match self {
            Position::ArgumentIs(n) | Position::ArgumentImplicitlyIs(n) => Some(*n),
            Position::ArgumentNamed(_) => None,
        }
    }
}

impl Argument<'_> {
    ghost use Rattle.std.specs.Prelude.{◌↔◌, IsTrue};
    ghost use Rattle.rustc_parse_format.specs.Identifiers.{IsIdentifier};
    ghost use Rattle.rustc_parse_format.specs.Views.{seen_argument};

    /// Returns whether the argument is a name and nothing else: its format is the default, without
    /// any span.
    pub fn is_identifier(&self) -> bool
        ensures { IsTrue result ↔ IsIdentifier (seen_argument self.now) }
    {
        matches!(self.position, Position::ArgumentNamed(_))
            && specs_are_equal(&self.format, &default_of_spec())
    }
}

impl Default for Argument<'_> {
    ghost is_default = { λ a. (seen_position a.position ≡ Implicit 0)
        × (pair a.position_span ≡ (0, 0)) × (seen_spec a.format ≡ default_spec) };

    /// Returns an argument to read a placeholder into, as `Parser::next_into` does: the implicit
    /// argument 0 with an empty span and the default format.
    fn default() -> Self {
        Argument {
            position: Position::ArgumentImplicitlyIs(0),
            position_span: 0..0,
            format: default_of_spec(),
        }
    }
}
