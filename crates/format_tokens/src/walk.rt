//! The tokens of a whole text, by the calls of the parser.

ghost use Rattle.std.specs.Prelude.{◌≡◌, ◌+◌, ◌++◌, ◌<◌, ◌^◌, ℕ, List, None, Some, IfOk, chars};
ghost use Rattle.std.specs.Prelude.{MatchOption, codes, false, if◌then◌else◌, length, map};
ghost use Rattle.std.specs.Prelude.{option_map};
ghost use Rattle.rustc_parse_format.specs.Call.{call, placeholder};
ghost use Rattle.rustc_parse_format.specs.Characters.{Text, byte_length, first_passes, is_brace};
ghost use Rattle.rustc_parse_format.specs.Placeholder.{cut};
ghost use Rattle.rustc_parse_format.specs.Views.{seen_argument, seen_mode, seen_taken};
ghost use Rattle.rustc_parse_format.specs.State.{first_state};
ghost use Rattle.rustc_parse_format.specs.Types.{Lit as LitPiece, Mode, bare_argument};
ghost use Rattle.rustc_parse_format.specs.Values.{argument_value};
ghost use Rattle.rustc_parse_format.specs.World.{World, piece_in};
ghost use Rattle.format_tokens.specs.Labels.{Adds, sized_token};
ghost use Rattle.format_tokens.specs.Walk.{call_tokens, is_closed, placeholder_tokens};
ghost use Rattle.format_tokens.specs.Walk.{read_tokens, skipped_tokens};

use crate::kinds::{Kind, Label};
use crate::parts::{Run, begins, position, run_width, specification, take, width_of};
use rustc_parse_format::{Argument, NextPiece, ParseMode, Parser, PieceKind};
use std::alloc::{AllocError, Global};

/// Returns the text before the closing brace at its end, or `None` if it does not end with one.
fn before_brace(text: &str) -> Option<&str>
    ensures { MatchOption result
        ((t : List ℕ) → t ++ codes "}" ≡ chars text.now → ⊥)
        (λ t. chars t.now ++ codes "}" ≡ chars text.now) }
{
    text.strip_suffix('}')
}

/// Returns whether the first `bytes` bytes of a text end with a closing brace.
fn is_closed(bytes: usize, text: &str) -> bool
    ensures { (u r : Text) → chars text.now ≡ u ++ r → bytes ≡ byte_length u
        → result ≡ is_closed u }
{
    match text.split_at_checked(bytes) {
        Some((front, _)) => before_brace(front).is_some(),
        None => false,
    }
}

/// Adds the tokens of the first `bytes` bytes of a text, which the call reads in place of a closing
/// brace, and returns the rest of the text.
fn skip<'a>(labels: &mut Vec<Label>, bytes: usize, text: &'a str) -> Result<&'a str, AllocError>
    ensures { IfOk result (λ rest. (u r : Text) → chars text.now ≡ u ++ r → bytes ≡ byte_length u
        → Adds (skipped_tokens u) r labels.old.items labels.new.items rest.now) }
{
    let brace = usize::from(is_closed(bytes, text));
    let close = take(labels, Kind::Unexpected, bytes.saturating_sub(brace), text)?;
    take(labels, Kind::CloseBrace, brace, close)
}

/// Adds the tokens of a placeholder at the start of a text, and returns the rest of the text after
/// the call that read it: `rest_len` bytes.
fn placeholder<'a>(
    labels: &mut Vec<Label>,
    mode: ParseMode,
    argument: &Argument<'_>,
    rest_len: usize,
    text: &'a str,
) -> Result<&'a str, AllocError>
    ensures { IfOk result (λ rest_after. (n : ℕ) (t : Text) → chars text.now ≡ codes "{" ++ t
        → bare_argument (seen_argument argument.now)
        ≡ argument_value n (cut (seen_mode mode) t).field
        → (let k = placeholder (seen_mode mode) n (chars text.now) t in
        rest_len ≡ byte_length k.rest
        → Adds (placeholder_tokens (seen_mode mode) t k.rest) k.rest
        labels.old.items labels.new.items rest_after.now)) }
{
    let field = take(labels, Kind::OpenBrace, 1, text)?;
    let space = position(labels, &argument.position, field)?;
    let spec = take(
        labels,
        Kind::Whitespace,
        run_width(space, Run::Whitespace),
        space,
    )?;
    let last = specification(labels, mode, &argument.format, spec)?;
    let end = take(
        labels,
        Kind::Whitespace,
        run_width(last, Run::Whitespace),
        last,
    )?;
    let rest = take(labels, Kind::CloseBrace, usize::from(begins(end, '}')), end)?;
    skip(labels, width_of(rest).saturating_sub(rest_len), rest)
}

/// Returns the byte length of the doubled brace at the start of a piece of literal text, or 0 if it
/// starts with no brace.
fn escape_width(text: &str) -> usize
    ensures { result ≡ (if first_passes is_brace (chars text.now) then 2 else 0) }
{
    if begins(text, '{') || begins(text, '}') {
        2
    } else {
        0
    }
}

/// Adds the tokens of a piece of literal text at the start of a text, and returns the rest of the
/// text after it: `rest_len` bytes.
fn literal<'a>(
    labels: &mut Vec<Label>,
    rest_len: usize,
    text: &'a str,
) -> Result<&'a str, AllocError>
    ensures { IfOk result (λ rest_after. (mode : Mode) (n : ℕ) (l : Text) →
        (let k = call mode n (chars text.now) in
        k.piece ≡ Some (LitPiece l) → rest_len ≡ byte_length k.rest
        → Adds (call_tokens mode (chars text.now) k.rest) k.rest
        labels.old.items labels.new.items rest_after.now)) }
{
    let rest = take(labels, Kind::EscapedBrace, escape_width(text), text)?;
    take(
        labels,
        Kind::Text,
        width_of(rest).saturating_sub(rest_len),
        rest,
    )
}

/// Adds the labels of a call at the start of a text, and returns the rest of the text after it:
/// `rest_len` bytes. `piece` is the piece that `Parser::next_into` returned, and `argument` the one
/// into which it read a placeholder. Returns `Err` if an allocation fails; the list may then have
/// some of the labels.
pub fn label<'a>(
    labels: &mut Vec<Label>,
    mode: ParseMode,
    piece: Option<PieceKind<'_>>,
    argument: &Argument<'_>,
    rest_len: usize,
    text: &'a str,
) -> Result<&'a str, AllocError>
    ensures { IfOk result (λ rest_after. (w : World) (n : ℕ) →
        (let k = call (seen_mode mode) n (chars text.now) in
        option_map (seen_taken argument.now) piece.entry ≡ option_map (piece_in w) k.piece
        → rest_len ≡ byte_length k.rest
        → Adds (call_tokens (seen_mode mode) (chars text.now) k.rest) k.rest
        labels.old.items labels.new.items rest_after.now)) }
{
    let Some(piece) = piece else {
        return take(
            labels,
            Kind::CloseBrace,
            width_of(text).saturating_sub(rest_len),
            text,
        );
    };
    match piece {
        PieceKind::Lit(_) => literal(labels, rest_len, text),
        PieceKind::NextArgument => placeholder(labels, mode, argument, rest_len, text),
    }
}

/// Returns the labels of an input, by the calls of a parser at its start.
fn labels_by<'a>(
    alloc: Global,
    parser: &mut Parser<'a>,
    mode: ParseMode,
    input: &'a str,
) -> Result<Vec<Label>, AllocError>
    requires { parser.old ≡ first_state (seen_mode mode) (chars input.now) None None false }
    ensures { IfOk result (λ v. v.items
        ≡ map sized_token (read_tokens (seen_mode mode) (chars input.now))) }
{
    let mut labels = Vec::new(alloc);
    let mut argument = Argument::default();
    let mut rest = input;
    while !rest.is_empty() {
        let NextPiece {
            piece,
            front_errors: _,
        } = parser.next_into(&mut argument)?;
        // (the errors are not needed, and are freed while they are in the caches)
        parser.take_errors();
        let width = width_of(input).saturating_sub(parser.position());
        rest = label(&mut labels, mode, piece, &argument, width, rest)?;
    }
    Ok(labels)
}

/// Returns the labels of a text, none of them marked.
pub fn labels(alloc: Global, input: &str, mode: ParseMode) -> Result<Vec<Label>, AllocError>
    requires { length input.now + 2 < 2 ^ 64 }
    ensures { IfOk result (λ v. v.items
        ≡ map sized_token (read_tokens (seen_mode mode) (chars input.now))) }
{
    let mut parser = Parser::new(alloc, input, None, None, false, mode)?;
    labels_by(alloc, &mut parser, mode, input)
}
