//! The lines of the calls of a parser. Each function of this module appends to a text, and returns
//! `Err` if an allocation fails; the text may then have a part of the lines, or none.

ghost use Rattle.std.specs.Prelude.{◌≡◌, ◌≤◌, ◌∷◌, [], IfOk, List, OnOk, is_some, map, option_map};
ghost use Rattle.json.specs.Json.{Json, max_depth};
ghost use Rattle.json.specs.Tree.{depth, json_tokens};
ghost use Rattle.rustc_parse_format.specs.Views.{seen_taken};
ghost use Rattle.rustc_parse_format.specs.FaultViews.{seen_fault};
ghost use Rattle.rustc_parse_format.specs.State.{state_after, calls, next_call};
ghost use Rattle.rustc_parse_format.specs.World.{faults_in};
ghost use Rattle.listing_json.specs.Lines.{Adds, call_values, calls_values, given_values};
ghost use Rattle.listing_json.specs.Lines.{has_faults};
ghost use Rattle.listing_json.specs.Values.{fault_value, piece_value};

use super::faults::put_fault;
use super::pieces::put_piece;
use json::Writer;
use rustc_parse_format::{Argument, Fault, Parser, PieceKind};
use std::alloc::{AllocError, Global};
use std::mem;

/// Returns a writer that appends to a text, which is then empty until [`end_line`].
pub fn begin_line(alloc: Global, out: &mut Vec<u8>) -> Writer
    ensures before { result.before ≡ out.old.items }
    ensures tokens { result.tokens ≡ [] }
{
    Writer::new(mem::replace(out, Vec::new(alloc)))
}

/// Ends the line of a writer, and moves it back into the text.
pub fn end_line(out: &mut Vec<u8>, writer: Writer) -> Result<(), AllocError>
    ensures { OnOk result ((j : Json) → writer.tokens ≡ json_tokens j → depth j ≤ max_depth
        → Adds (j ∷ []) writer.before out.new.items) }
{
    *out = writer.into_inner();
    out.push(b'\n')?;
    Ok(())
}

/// Appends the line of a piece. A placeholder is in `argument`.
fn put_piece_line(
    alloc: Global,
    out: &mut Vec<u8>,
    piece: &PieceKind<'_>,
    argument: &Argument<'_>,
) -> Result<(), AllocError>
    ensures { OnOk result (Adds (piece_value (seen_taken argument.now piece.now) ∷ [])
        out.old.items out.new.items) }
{
    let mut writer = begin_line(alloc, out);
    put_piece(alloc, &mut writer, piece, argument)?;
    end_line(out, writer)?;
    Ok(())
}

/// Appends the line of a piece, if there is one.
fn put_maybe_piece(
    alloc: Global,
    out: &mut Vec<u8>,
    piece: &Option<PieceKind<'_>>,
    argument: &Argument<'_>,
) -> Result<(), AllocError>
    ensures { OnOk result (Adds (given_values (option_map (seen_taken argument.now) piece.now))
        out.old.items out.new.items) }
{
    match piece {
        Some(piece) => put_piece_line(alloc, out, piece, argument),
        None => Ok(()),
    }
}

/// Appends the line of a fault.
fn put_fault_line(alloc: Global, out: &mut Vec<u8>, fault: &Fault<'_>) -> Result<(), AllocError>
    ensures { OnOk result (Adds (fault_value (seen_fault fault.now) ∷ [])
        out.old.items out.new.items) }
{
    let mut writer = begin_line(alloc, out);
    put_fault(alloc, &mut writer, fault)?;
    end_line(out, writer)?;
    Ok(())
}

/// Appends a line for each fault.
fn put_faults(alloc: Global, out: &mut Vec<u8>, faults: &[Fault<'_>]) -> Result<(), AllocError>
    ensures { OnOk result (Adds (map fault_value (map seen_fault faults.now))
        out.old.items out.new.items) }
{
    for fault in faults {
        put_fault_line(alloc, out, fault)?;
    }
    Ok(())
}

/// Makes the next call of a parser, and appends the lines of its piece and of its faults, which it
/// also leaves in `faults`. Returns whether there is a piece.
fn put_call<'a>(
    alloc: Global,
    out: &mut Vec<u8>,
    parser: &mut Parser<'a>,
    argument: &mut Argument<'a>,
    faults: &mut Vec<Fault<'a>>,
) -> Result<bool, AllocError>
    requires { faults.old.items ≡ [] }
    ensures lines { OnOk result (Adds (call_values parser.old.world (next_call parser.old))
        out.old.items out.new.items) }
    ensures faults { OnOk result (map seen_fault faults.new.items
        ≡ faults_in parser.old.world (next_call parser.old).faults) }
    ensures state { OnOk result (parser.new
        ≡ record (state_after parser.old (next_call parser.old)) { errors = parser.old.errors }) }
    ensures has_piece { IfOk result (λ b. b ≡ is_some (next_call parser.old).piece) }
{
    let piece = parser.next_with_faults(argument, faults)?;
    put_maybe_piece(alloc, out, &piece, argument)?;
    put_faults(alloc, out, faults.as_slice())?;
    Ok(piece.is_some())
}

/// Appends the lines of the calls of a parser up to the first that returns no piece. Returns
/// whether a fault is found.
pub fn put_calls<'a>(
    alloc: Global,
    out: &mut Vec<u8>,
    parser: &mut Parser<'a>,
) -> Result<bool, AllocError>
    ensures lines { OnOk result (Adds (calls_values parser.old.world (calls parser.old))
        out.old.items out.new.items) }
    ensures faults { IfOk result (λ b. b ≡ has_faults (calls parser.old)) }
{
    let mut argument = Argument::default();
    let mut faults = Vec::new(alloc);
    let mut has_faults = false;
    let mut has_piece = true;
    while has_piece {
        has_piece = put_call(alloc, out, parser, &mut argument, &mut faults)?;
        has_faults |= !faults.is_empty();
        faults.clear();
    }
    Ok(has_faults)
}
