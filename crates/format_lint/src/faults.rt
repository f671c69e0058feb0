//! A source, its tokens and its faults.

ghost use Rattle.std.specs.Prelude.{◌≡◌, ◌≤◌, [], IfOk, chars, false, map};
ghost use Rattle.rustc_parse_format.specs.Views.{seen_mode};
ghost use Rattle.rustc_parse_format.specs.World.{hashes};
ghost use Rattle.piece_listing.specs.Program.{limit};
ghost use Rattle.format_tokens.specs.Labels.{sized_token};
ghost use Rattle.format_tokens.specs.Views.{seen_token};
ghost use Rattle.format_tokens.specs.Walk.{read_tokens};
ghost use Rattle.format_lint.specs.Findings.{findings_from};
ghost use Rattle.format_lint.specs.Lint.{findings, start, tokens_in};
ghost use Rattle.format_lint.specs.SeenLint.{Keeps, seen_source};

use super::findings::Findings;
use format_tokens::{Label, Token, label, place_labels};
use rustc_parse_format::{Argument, ParseMode, Parser};
use std::alloc::{AllocError, Global};

/// A text, with the style of the literal that it is in and the literal as it is written, and the
/// lines that it is drawn in.
#[derive(Copy, Clone)]
pub struct Source<'a> {
    pub text: &'a str,
    pub style: Option<usize>,
    pub literal: Option<&'a str>,
    /// The lines around the text.
    pub lines: &'a str,
    /// The number of the first of these lines.
    pub line_start: u32,
    /// The byte offset in the lines that a span of 0 means.
    pub start: usize,
}

/// Returns the faults of all calls of a parser without errors. Returns `Err` if an allocation
/// fails, or if there are more faults than a `usize` counts.
fn faults_of<'a>(alloc: Global, parser: &mut Parser<'a>) -> Result<Findings<'a>, AllocError>
    requires { parser.old.errors ≡ [] }
    ensures { IfOk result (λ f. Keeps f (findings_from false parser.old)) }
{
    let mut argument = Argument::default();
    let mut list = Vec::new(alloc);
    let mut faults = Findings::new(alloc);
    while !parser.is_at_end() {
        parser.next_with_faults(&mut argument, &mut list)?;
        faults.add(&mut list)?;
    }
    Ok(faults)
}

/// The labels of a source's text, and its faults.
#[derive(Drop)]
struct Labelled<'a> {
    labels: Vec<Label>,
    faults: Findings<'a>,
}

/// Returns the labels of a source's text and its faults, by the calls of a parser at its start.
/// Returns `Err` as `faults_of` does.
fn labels_of<'a>(
    alloc: Global,
    parser: &mut Parser<'a>,
    mode: ParseMode,
    source: Source<'a>,
) -> Result<Labelled<'a>, AllocError>
    requires { parser.old ≡ start (seen_mode mode) (seen_source source) }
    ensures labels { IfOk result (λ x. x.labels.items
        ≡ map sized_token (read_tokens (seen_mode mode) (chars source.entry.text.now))) }
    ensures faults { IfOk result (λ x. Keeps x.faults
        (findings (seen_mode mode) (seen_source source.entry))) }
{
    let text = source.text;
    let mut argument = Argument::default();
    let mut labels = Vec::new(alloc);
    let mut list = Vec::new(alloc);
    let mut faults = Findings::new(alloc);
    let mut rest = text;
    while !rest.is_empty() {
        let piece = parser.next_with_faults(&mut argument, &mut list)?;
        faults.add(&mut list)?;
        let width = text.len().saturating_sub(parser.position());
        rest = label(&mut labels, mode, piece, &argument, width, rest)?;
    }
    Ok(Labelled { labels, faults })
}

/// Returns a parser at the start of a source. Returns `Err` if an allocation fails.
fn parser_of<'a>(
    alloc: Global,
    mode: ParseMode,
    source: Source<'a>,
) -> Result<Parser<'a>, AllocError>
    requires { hashes source.style ≤ limit }
    ensures { IfOk result (λ p. p ≡ start (seen_mode mode) (seen_source source.entry)) }
{
    let snippet = match source.literal {
        Some(literal) => Some(String::from_str(alloc, literal)?),
        None => None,
    };
    Parser::new(alloc, source.text, source.style, snippet, false, mode)
}

/// Returns the faults of a source. Returns `Err` as `faults_of` does.
pub fn faults_in<'a>(
    alloc: Global,
    mode: ParseMode,
    source: Source<'a>,
) -> Result<Findings<'a>, AllocError>
    requires { hashes source.style ≤ limit }
    ensures { IfOk result (λ f. Keeps f (findings (seen_mode mode) (seen_source source.entry))) }
{
    let mut parser = parser_of(alloc, mode, source)?;
    faults_of(alloc, &mut parser)
}

/// The tokens of a source, and its faults.
#[derive(Drop)]
pub struct Tokens<'a> {
    pub tokens: Vec<Token>,
    pub faults: Findings<'a>,
}

/// Returns the tokens of a source, and its faults. Returns `Err` as `faults_of` does.
pub fn tokens_in<'a>(
    alloc: Global,
    mode: ParseMode,
    source: Source<'a>,
) -> Result<Tokens<'a>, AllocError>
    requires { hashes source.style ≤ limit }
    ensures tokens { IfOk result (λ x. map seen_token x.tokens.items
        ≡ tokens_in (seen_mode mode) (seen_source source.entry)) }
    ensures faults { IfOk result (λ x. Keeps x.faults
        (findings (seen_mode mode) (seen_source source.entry))) }
{
    let mut parser = parser_of(alloc, mode, source)?;
    let Labelled { labels, faults } = labels_of(alloc, &mut parser, mode, source)?;
    let tokens = place_labels(
        alloc,
        source.text,
        source.style,
        source.literal,
        false,
        mode,
        labels.as_slice(),
    )?;
    Ok(Tokens { tokens, faults })
}
