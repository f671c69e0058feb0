//! The contracts of the derives of the public types. A derive has no contract, so for each derive
//! there is a small function that calls it and states what it does.
//!
//! A clone always succeeds, and equals its source. `==` is true exactly if all fields are equal:
//! texts by their characters, and spans included. So it is reflexive, symmetric and transitive. The
//! defaults have every part absent.

// Two texts with the same characters have the same bytes because each is UTF-8. A contract knows
// this of a `&str` that is an argument, so the functions named `know_` pass on each text of a
// value.

ghost use Rattle.std.specs.Prelude.{◌≡◌, ◌↔◌, IsOkAnd, IsTrue, IsUtf8};
ghost use Rattle.rustc_parse_format.specs.Equivalence.{AreSame, IsEquivalence};
ghost use Rattle.rustc_parse_format.specs.KnownTexts.{IsTextInArgument, IsTextInCount};
ghost use Rattle.rustc_parse_format.specs.KnownTexts.{IsTextInPiece, IsTextInPosition};
ghost use Rattle.rustc_parse_format.specs.KnownTexts.{IsTextInSpec};
ghost use Rattle.rustc_parse_format.specs.Types.{Implied, Unknown, default_spec};
ghost use Rattle.rustc_parse_format.specs.Views.{seen_piece, seen_alignment, seen_argument};
ghost use Rattle.rustc_parse_format.specs.Views.{seen_count};
ghost use Rattle.rustc_parse_format.specs.Views.{seen_debug_hex, seen_mode, seen_position};
ghost use Rattle.rustc_parse_format.specs.Views.{seen_sign, seen_spec};

use crate::types::{
    Alignment, Argument, Count, DebugHex, FormatSpec, ParseMode, Piece, PieceKind, Position, Sign,
};
use std::alloc::AllocError;

/// Clones a mode. Always succeeds, and the clone equals its source.
pub fn clone_of_mode(mode: &ParseMode) -> Result<ParseMode, AllocError>
    ensures { IsOkAnd result (λ m. m ≡ mode.now) }
{
    mode.clone()
}

/// Returns whether two modes are equal, by `==`.
pub fn modes_are_equal(a: &ParseMode, b: &ParseMode) -> bool
    ensures { IsTrue result ↔ AreSame seen_mode a.now b.now }
{
    a == b
}

/// Clones an alignment. Always succeeds, and the clone equals its source.
pub fn clone_of_alignment(alignment: &Alignment) -> Result<Alignment, AllocError>
    ensures { IsOkAnd result (λ a. a ≡ alignment.now) }
{
    alignment.clone()
}

/// Returns whether two alignments are equal, by `==`.
pub fn alignments_are_equal(a: &Alignment, b: &Alignment) -> bool
    ensures { IsTrue result ↔ AreSame seen_alignment a.now b.now }
{
    a == b
}

/// Returns the default alignment: none is given.
pub fn default_of_alignment() -> Alignment
    ensures { seen_alignment result ≡ Unknown }
{
    Alignment::default()
}

/// Clones a sign. Always succeeds, and the clone equals its source.
pub fn clone_of_sign(sign: &Sign) -> Result<Sign, AllocError>
    ensures { IsOkAnd result (λ s. s ≡ sign.now) }
{
    sign.clone()
}

/// Returns whether two signs are equal, by `==`.
pub fn signs_are_equal(a: &Sign, b: &Sign) -> bool
    ensures { IsTrue result ↔ AreSame seen_sign a.now b.now }
{
    a == b
}

/// Clones a case of hexadecimal digits. Always succeeds, and the clone equals its source.
pub fn clone_of_debug_hex(hex: &DebugHex) -> Result<DebugHex, AllocError>
    ensures { IsOkAnd result (λ h. h ≡ hex.now) }
{
    hex.clone()
}

/// Returns whether two cases of hexadecimal digits are equal, by `==`.
pub fn debug_hexes_are_equal(a: &DebugHex, b: &DebugHex) -> bool
    ensures { IsTrue result ↔ AreSame seen_debug_hex a.now b.now }
{
    a == b
}

/// Clones a position. Always succeeds, and the clone equals its source.
pub fn clone_of_position<'input>(
    position: &Position<'input>,
) -> Result<Position<'input>, AllocError>
    ensures { IsOkAnd result (λ p. p ≡ position.now) }
{
    position.clone()
}

/// Proves that a text is UTF-8.
fn know_text(_text: &str)
    ensures { IsUtf8 _text.now }
{}

/// Proves that the name in a position is UTF-8.
fn know_position(position: &Position<'_>)
    ensures { IsTextInPosition position.now }
{
    if let Position::ArgumentNamed(name) = position {
        know_text(name);
    }
}

/// Returns whether two positions are equal, by `==`: texts are compared by their characters.
pub fn positions_are_equal(a: &Position<'_>, b: &Position<'_>) -> bool
    ensures { IsTrue result ↔ AreSame seen_position a.now b.now }
{
    know_position(a);
    know_position(b);
    a == b
}

/// Clones a count. Always succeeds, and the clone equals its source.
pub fn clone_of_count<'input>(count: &Count<'input>) -> Result<Count<'input>, AllocError>
    ensures { IsOkAnd result (λ n. n ≡ count.now) }
{
    count.clone()
}

/// Proves that the name in a count is UTF-8.
fn know_count(count: &Count<'_>)
    ensures { IsTextInCount count.now }
{
    if let Count::CountIsName(name, _) = count {
        know_text(name);
    }
}

/// Returns whether two counts are equal, by `==`: texts are compared by their characters, and spans
/// too.
pub fn counts_are_equal(a: &Count<'_>, b: &Count<'_>) -> bool
    ensures { IsTrue result ↔ AreSame seen_count a.now b.now }
{
    know_count(a);
    know_count(b);
    a == b
}

/// Returns the default count: none is given.
pub fn default_of_count<'input>() -> Count<'input>
    ensures { seen_count result ≡ Implied }
{
    Count::default()
}

/// Clones a format specification. Always succeeds, and the clone equals its source.
pub fn clone_of_spec<'input>(spec: &FormatSpec<'input>) -> Result<FormatSpec<'input>, AllocError>
    ensures { IsOkAnd result (λ s. s ≡ spec.now) }
{
    spec.clone()
}

/// Proves that the texts of a format specification are UTF-8.
fn know_spec(spec: &FormatSpec<'_>)
    ensures { IsTextInSpec spec.now }
{
    know_count(&spec.precision);
    know_count(&spec.width);
    know_text(spec.ty);
}

/// Returns whether two format specifications are equal, by `==`: texts are compared by their
/// characters, and spans too.
pub fn specs_are_equal(a: &FormatSpec<'_>, b: &FormatSpec<'_>) -> bool
    ensures { IsTrue result ↔ AreSame seen_spec a.now b.now }
{
    know_spec(a);
    know_spec(b);
    a == b
}

/// Returns the default format specification: each part is absent.
pub fn default_of_spec<'input>() -> FormatSpec<'input>
    ensures { seen_spec result ≡ default_spec }
{
    FormatSpec::default()
}

/// Clones a placeholder. Always succeeds, and the clone equals its source.
pub fn clone_of_argument<'input>(
    argument: &Argument<'input>,
) -> Result<Argument<'input>, AllocError>
    ensures { IsOkAnd result (λ a. a ≡ argument.now) }
{
    argument.clone()
}

/// Clones a piece whose placeholder is elsewhere. Always succeeds, and the clone equals its source.
pub fn clone_of_piece_kind<'input>(
    piece: &PieceKind<'input>,
) -> Result<PieceKind<'input>, AllocError>
    ensures { IsOkAnd result (λ p. p ≡ piece.now) }
{
    piece.clone()
}

/// Proves that the texts of a placeholder are UTF-8.
fn know_argument(argument: &Argument<'_>)
    ensures { IsTextInArgument argument.now }
{
    know_position(&argument.position);
    know_spec(&argument.format);
}

/// Returns whether two placeholders are equal, by `==`: texts are compared by their characters, and
/// spans too.
pub fn arguments_are_equal(a: &Argument<'_>, b: &Argument<'_>) -> bool
    ensures { IsTrue result ↔ AreSame seen_argument a.now b.now }
{
    know_argument(a);
    know_argument(b);
    a == b
}

/// Proves that the texts of a piece are UTF-8.
fn know_piece(piece: &Piece<'_>)
    ensures { IsTextInPiece piece.now }
{
    match piece {
        Piece::Lit(text) => know_text(text),
        Piece::NextArgument(argument) => know_argument(argument),
    }
}

/// Returns whether two pieces are equal, by `==`: texts are compared by their characters, and spans
/// too.
pub fn pieces_are_equal<'input>(a: &Piece<'input>, b: &Piece<'input>) -> bool
    ensures { IsTrue result ↔ AreSame seen_piece a.now b.now }
{
    know_piece(a);
    know_piece(b);
    a == b
}

/// Proves that `==` of each of these types is reflexive, symmetric and transitive. Does nothing.
#[tactic(auto, using(crate::proofs::Derives::Equality::seen_equivalence))]
pub fn equality_is_an_equivalence()
    ensures modes { IsEquivalence (AreSame seen_mode) }
    ensures alignments { IsEquivalence (AreSame seen_alignment) }
    ensures signs { IsEquivalence (AreSame seen_sign) }
    ensures debug_hexes { IsEquivalence (AreSame seen_debug_hex) }
    ensures positions { IsEquivalence (AreSame seen_position) }
    ensures counts { IsEquivalence (AreSame seen_count) }
    ensures specs { IsEquivalence (AreSame seen_spec) }
    ensures arguments { IsEquivalence (AreSame seen_argument) }
    ensures pieces { IsEquivalence (AreSame seen_piece) }
{}
