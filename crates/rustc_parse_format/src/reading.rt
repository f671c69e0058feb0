//! Reading a whole input in one call.

ghost use Rattle.std.specs.Prelude.{◌≡◌, ◌≢◌, ◌+◌, false, ◌<◌, ◌^◌, ◌↔◌, ℕ, [], List, Some, IfOk};
ghost use Rattle.std.specs.Prelude.{IsOk, IsTrue, chars, length, map};
ghost use Rattle.rustc_parse_format.specs.Characters.{Text};
ghost use Rattle.rustc_parse_format.specs.Grammar.{IsInGrammar, IsSpelled, Reads, StopsInside};
ghost use Rattle.rustc_parse_format.specs.Types.{Mode, Piece as BarePiece, bare_piece};
ghost use Rattle.rustc_parse_format.specs.Views.{seen_piece, seen_mode, seen_snippet};
ghost use Rattle.rustc_parse_format.specs.Source.{HasSource};
ghost use Rattle.rustc_parse_format.specs.State.{AreLines, Walks, after_all, calls, closed_of};
ghost use Rattle.rustc_parse_format.specs.State.{first_state};
ghost use Rattle.rustc_parse_format.specs.Steps.{AreFew};
ghost use Rattle.rustc_parse_format.specs.Call.{faults_of, pieces_of, walk};
ghost use Rattle.rustc_parse_format.specs.Syntax.{FieldText, IsOnlyCut};
ghost use Rattle.rustc_parse_format.specs.World.{hashes, pieces_in, place_of};
ghost use Rattle.std.specs.List.{AllByRecursion};
ghost use Rattle.rustc_parse_format.specs.Faults.{add_errors, bare_fault, bare_message};
ghost use Rattle.rustc_parse_format.specs.Literal.{IsSource};
ghost use Rattle.rustc_parse_format.specs.ReadBack.{AllSpans, IsInside, LiesInside, ReadsBack};

use crate::parser::Parser;
use crate::types::{ParseMode, Piece};
use std::alloc::{AllocError, Global};

/// The number of bytes of an input for which a list makes room for one piece.
const PIECE_BYTES: usize = 10;

/// The most pieces after the first one for which a list makes room.
const MAX_ROOM: usize = 16;

/// Makes room in an empty list for a piece and those that are likely to follow it in so many bytes.
/// Returns `Err` if an allocation fails.
#[inline(always)]
fn make_room(pieces: &mut Vec<Piece<'_>>, bytes: usize) -> Result<(), AllocError>
    ensures { pieces.new.items ≡ pieces.old.items }
{
    if pieces.is_empty() {
        pieces.reserve(1 + (bytes / PIECE_BYTES).min(MAX_ROOM))?;
    }
    Ok(())
}

/// Returns the pieces of a parser up to the first call that returns `None`, or `Err` if an
/// allocation fails. `size` is the length of the input.
fn read_pieces<'input>(
    alloc: Global,
    size: usize,
    parser: &mut Parser<'input>,
) -> Result<Vec<Piece<'input>>, AllocError>
    ensures pieces { IfOk result (λ ps. map seen_piece ps.items
        ≡ pieces_in parser.old.world (pieces_of (calls parser.old))) }
    ensures state { IfOk result (λ ps. parser.new ≡ after_all parser.old (calls parser.old)) }
    ensures few { IfOk result (λ ps. AreFew parser.new.input parser.new.rest parser.new.rewinds) }
    ensures empty { parser.old.rest ≡ [] → parser.old.world.has_source ≡ false → IsOk result }
{
    let mut pieces = Vec::new(alloc);
    while let Some(piece) = parser.next()? {
        make_room(&mut pieces, size.saturating_sub(parser.position()))?;
        pieces.push(piece)?;
    }
    parser.steps_are_few();
    Ok(pieces)
}

/// An input that was read up to the first call of [`Parser::next`] that returns `None`.
#[derive(Drop)]
pub struct Reading<'input> {
    /// The pieces, in order.
    pub pieces: Vec<Piece<'input>>,
    /// The parser after the pieces, with the errors of the input.
    pub parser: Parser<'input>,
}

/// Reads a whole input. The arguments are those of [`Parser::new`]: `style` is `None` for an
/// ordinary literal and `Some(n)` for a raw one with n hashes, `snippet` is the literal as it is in
/// the source, and `appended_newline` is whether the input ends in a newline that the source does
/// not have. The number of hashes, the byte length of the input and 2 must add up to less than
/// 2^64.
///
/// The pieces are those up to the first call of [`Parser::next`] that returns `None`. This call may
/// be one for an unmatched `}`: then the rest of the input is not read, and the parser has an error
/// for it. If the parser has no error, the whole input was read and is in the grammar of its mode.
/// Returns `Err` if an allocation fails.
pub fn read_all<'input>(
    alloc: Global,
    input: &'input str,
    style: Option<usize>,
    snippet: Option<String>,
    appended_newline: bool,
    mode: ParseMode,
) -> Result<Reading<'input>, AllocError>
    requires { hashes style + length input.now + 2 < 2 ^ 64 }

    // The pieces and the parser are those of the calls of a new parser up to the first `None`, with
    // byte offsets for their marks. `walk` says this by computing, `walks` by a relation.
    ensures walk { IfOk result (λ x.
        let s = first_state (seen_mode mode) (chars input.now) style
        (seen_snippet snippet) appended_newline in
        (map seen_piece x.pieces.items ≡ pieces_in s.world (pieces_of (calls s)))
        × (x.parser ≡ after_all s (calls s))) }

    ensures walks { IfOk result (λ x. Walks
        (first_state (seen_mode mode) (chars input.now) style
        (seen_snippet snippet) appended_newline)
        (map seen_piece x.pieces.items) x.parser) }

    // Few steps are taken, those of the last call included: at most two for each character of the
    // input.
    ensures few { IfOk result (λ x. AreFew x.parser.input x.parser.rest x.parser.rewinds) }

    ensures source { IfOk result (λ x. IsTrue x.parser.world.has_source
        ↔ HasSource (chars input.now) style (seen_snippet snippet) appended_newline) }

    // There is no error exactly if the input is in the grammar, and then the pieces are its one
    // reading.
    ensures clean { IfOk result (λ x. (x.parser.errors ≡ [])
        ↔ IsInGrammar (seen_mode mode) (chars input.now)) }
    ensures reading { IfOk result (λ x. x.parser.errors ≡ []
        → Reads (seen_mode mode) 0 (chars input.now)
        (map bare_piece (map seen_piece x.pieces.items))) }
    ensures round_trip { IfOk result (λ x. x.parser.errors ≡ []
        → IsSpelled (seen_mode mode) 0 (chars input.now)
        (map bare_piece (map seen_piece x.pieces.items))) }
    ensures one_reading { (m : Mode) (c : ℕ) (t : Text) (ps qs : List (BarePiece (Unit {0})))
        → Reads m c t ps → Reads m c t qs → ps ≡ qs }
    ensures one_cut { (m : Mode) (t : Text) → (a : FieldText) × (r : Text) × IsOnlyCut m t a r }

    // With an error, the first pieces read the input up to a character inside it at which no piece
    // of the grammar begins.
    ensures first_fault { IfOk result (λ x. x.parser.errors ≢ []
        → StopsInside (seen_mode mode) 0 (chars input.now)
        (map bare_piece (map seen_piece x.pieces.items))) }

    // Apart from their spans, pieces and errors do not depend on style, snippet or appended
    // newline.
    ensures worlds { IfOk result (λ x. let ks = walk (seen_mode mode) 0 (chars input.now) in
        (map bare_piece (map seen_piece x.pieces.items) ≡ map bare_piece (pieces_of ks))
        × (map bare_message x.parser.errors ≡ add_errors [] (map bare_fault (faults_of ks)))) }

    // With a source literal, the part of the snippet in each span, with its escapes decoded, is the
    // characters that the span was read from. And each span is a byte range of the snippet.
    ensures reads_back { (source : Text) → seen_snippet snippet ≡ Some source
        → IsSource (chars input.now) style source appended_newline
        → (let s = first_state (seen_mode mode) (chars input.now) style
        (seen_snippet snippet) appended_newline in
        AllByRecursion
        (AllSpans (λ m. ReadsBack (chars input.now) style source appended_newline m
        (place_of s.world m))) (calls s)) }
    ensures inside { (source : Text) → seen_snippet snippet ≡ Some source
        → IsSource (chars input.now) style source appended_newline
        → (let s = first_state (seen_mode mode) (chars input.now) style
        (seen_snippet snippet) appended_newline in
        AllByRecursion (AllSpans (λ m. IsInside source (place_of s.world m))) (calls s)) }
    ensures lies_inside { IfOk result (λ x. (source : Text) → seen_snippet snippet ≡ Some source
        → IsSource (chars input.now) style source appended_newline
        → LiesInside source appended_newline x.parser) }

    // With a source literal the lines are those of all that was read as text, with the last one
    // exactly if the end was reached, and each placeholder that a brace closed has its place.
    // Without one there is no line and no place.
    ensures lines { IfOk result
        (λ x. HasSource (chars input.now) style (seen_snippet snippet) appended_newline
        → (let s = first_state (seen_mode mode) (chars input.now) style
        (seen_snippet snippet) appended_newline in AreLines s (calls s) x.parser)) }
    ensures places { IfOk result
        (λ x. let s = first_state (seen_mode mode) (chars input.now) style
        (seen_snippet snippet) appended_newline in
        x.parser.arg_places ≡ closed_of s.world (calls s)) }
    ensures sourceless { IfOk result
        (λ x. (HasSource (chars input.now) style (seen_snippet snippet) appended_newline → ⊥)
        → (x.parser.arg_places ≡ []) × (x.parser.line_spans ≡ [])) }

    // An empty input without a source literal is read even if every allocation fails: it has no
    // line to keep.
    ensures empty { input.now ≡ []
        → (HasSource (chars input.now) style (seen_snippet snippet) appended_newline → ⊥)
        → IsOk result }
{
    let mut parser = Parser::new(alloc, input, style, snippet, appended_newline, mode)?;
    let pieces = read_pieces(alloc, input.len(), &mut parser)?;
    Ok(Reading { pieces, parser })
}
